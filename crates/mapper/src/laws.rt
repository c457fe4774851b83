//! Laws of mappers.
ghost use Rattle.mapper.specs.Laws.{BatchesAreGiven, CoursesAgree, TextsAreMerged, VersionsAgree};

/// Mappers that were opened for one topology and took the same tasks have published the same maps and said the same, where
/// neither said that memory was wanting: first maps and repaired maps are determined.
pub fn courses_agree()
    ensures { CoursesAgree }
{}

/// What a version and some batches lead to is determined, whichever feeds the batches came by.
pub fn versions_agree()
    ensures { VersionsAgree }
{}

/// What items of several feeds come to one after another is a merged control text.
pub fn texts_are_merged()
    ensures { TextsAreMerged }
{}

/// In a merged control text the batches of each feeder are in the history, once each and in its order, but for those that
/// are answered `refused commit memory`.
pub fn batches_are_given()
    ensures { BatchesAreGiven }
{}
