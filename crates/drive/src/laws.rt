//! Laws of drives and of the machine.
ghost use Rattle.drive.specs.Laws.{DrivesAreTaken, MachinesAreKept};

/// The history of a drive and its lanes, without the lanes whose closing look was refused or past the newest map, are
/// the state of the machine after one list of events: all commits of the history in order, and then lane by lane each
/// take behind a tell of what was known.
pub fn drives_are_taken()
    ensures { DrivesAreTaken }
{}

/// Whatever the machine takes, its versions go on one from the other, and each of its lanes is a lane run over them.
pub fn machines_are_kept()
    ensures { MachinesAreKept }
{}
