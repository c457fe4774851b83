//! Viewers, which look at the newest version, and notes, by which they learn of it.
ghost use Rattle.std.specs.Prelude.{◌≡◌, ◌+◌, ◌<◌, ◌^◌, ◌≤◌, ◌∷◌, ◌++◌, [], length, true, false, IfOk, OnErr, MatchBool, IfSome, slice_get, Some, ◌⊎◌};
ghost use mathlib.Core.List.{IsPrefix};
ghost use Rattle.std.specs.Fn.{FnOnceTakesAt, FnOnceReturnsAt};
ghost use Rattle.map_cell.specs.Ends.{ViewerState, LooksAt};
ghost use Rattle.left_right.specs.Sides.{view as client_view};
ghost use Rattle.map_cell.specs.Tags.{tag_of};
ghost use Rattle.map_cell.specs.Histories.{IsHistory, IsSealed};
ghost use Rattle.published_map.specs.Version.{Version, IsVersion};

use crate::front::{Front, Naming};
use crate::rule::{Knows, OneCell};
use crate::sealed::Sealed;
use crate::tag::Tag;
use left_right::reader::Reader;
use outside::Numbered;
use published_map::MapVersion;
use std::marker::Model;

pub(crate) type CellReader = Reader<Sealed, Tag, OneCell>;

/// A look was refused: the cell is closed, or the newest version's history does not go on from all that the viewer has seen
/// and was told of.
#[derive(Clone, Copy, Debug, PartialEq, Eq)]
pub struct Refused;

/// Names a published version, with the history up to it.
#[derive(Drop)]
pub struct Note<J: Naming> {
    pub front: Front<J>,
    pub ghost some: { 0 < length front },
}

impl<J: Naming> Numbered for Note<J> {
    ghost use Rattle.std.specs.Prelude.{◌-◌, length};

    ghost number = { λ n. length n.front - 1 };

    fn as_number(&self) -> u64 {
        self.serial()
    }
}

impl<J: Naming> Note<J> {
    /// A copy, which takes no memory.
    pub fn again(&self) -> Note<J>
        ensures { result.front ≡ self.now.front }
    {
        Note {
            front: self.front.again(),
        }
    }

    /// The serial of the version that it names.
    pub fn serial(&self) -> u64
        ensures { result + 1 ≡ length self.now.front }
    {
        self.front.len() - 1
    }
}

/// What a worker looks through.
#[derive(Drop)]
pub struct Viewer<J: Naming> {
    reader: Option<CellReader>,
    seen: Front<J>,
    heard: Front<J>,
}

impl<J: Naming> Model for Viewer<J> {
    ghost use Rattle.std.specs.Prelude.{ℕ, ◌+◌, ◌≡◌, ◌≤◌, ◌<◌, List, length, IsSome, IfSome};
    ghost use Rattle.left_right.specs.Sides.{view as client_view};
    ghost use Rattle.map_cell.specs.Ends.{ViewerState};
    ghost use Rattle.map_cell.specs.Tags.{tag_of};

    ghost Value = { ViewerState };

    ghost view = { λ v. record { seen = v.seen; heard = v.heard } };

    ghost invariant = { λ v. IsSome v.reader × IfSome v.reader (λ r. client_view r.place
        ≡ tag_of J.book) × (0 < length v.seen) × (length v.seen ≤ length v.heard) };
}

/// Runs the closure on the copy, where it is no older than what was seen and told.
fn look_in<J: Naming, R, C: FnOnce(&MapVersion) -> R>(
    sealed: &Sealed,
    seen: &Front<J>,
    heard: &Front<J>,
    c: C,
) -> Option<(R, Front<J>)>
where
    C: Drop,
    requires book { sealed.now.book ≡ J.book }
    requires last { IsSealed sealed.now.history sealed.now.version }
    requires call { (m : Version) → IsVersion m → FnOnceTakesAt C.FnOnce c m }
    ensures { IfSome result (λ r. (m : Version)
        × LooksAt seen.now heard.now m r.1 × FnOnceReturnsAt C.FnOnce c m r.0) }
{
    let front = sealed.front::<J>();
    if !front.covers(heard) || !front.covers(seen) {
        return None;
    }
    let answer = c(sealed.version());
    Some((answer, front))
}

impl<J: Naming> Viewer<J> {
    /// The greatest serial that this viewer has seen or was told of.
    pub fn known(&self) -> u64
        ensures { result + 1 ≡ length self.now.heard }
    {
        self.heard.len() - 1
    }

    /// Whether all that this viewer has seen begins the note's history.
    pub fn is_within(&self, note: &Note<J>) -> bool
        ensures within { MatchBool result
            (IsPrefix self.now.seen note.now.front) (length note.now.front < length self.now.seen) }
        ensures begun { result ≡ false → IsPrefix note.now.front self.now.seen }
        ensures history { IsHistory self.now.seen }
    {
        note.front.covers(&self.seen)
    }

    /// Learns of the version that a note names, unless one at least as new is known.
    pub fn learn(&mut self, note: &Note<J>)
        ensures seen { self.new.seen ≡ self.old.seen }
        ensures kept { IsPrefix self.old.heard self.new.heard }
        ensures note { IsPrefix note.now.front self.new.heard }
        ensures one { (self.new.heard ≡ self.old.heard) ⊎ (self.new.heard ≡ note.now.front) }
    {
        self.heard = self.heard.longer(&note.front);
    }

    /// Looks at the newest version once: what the closure makes of it.
    ///
    /// # Errors
    ///
    /// `Refused`. Nothing has changed then.
    pub fn look<R, C: FnOnce(&MapVersion) -> R>(&mut self, c: C) -> Result<R, Refused>
    where
        C: Drop,
        requires call { (m : Version) → IsVersion m → FnOnceTakesAt C.FnOnce c m }
        ensures ok { IfOk result (λ r. (m : Version) × LooksAt
            self.old.seen self.old.heard m self.new.seen × FnOnceReturnsAt C.FnOnce c m r) }
        ensures heard { IfOk result (λ _. self.new.heard ≡ self.new.seen) }
        ensures err { OnErr result (self.new ≡ self.old) }
    {
        let reader = self.reader.take().unwrap();
        match reader.enter_as::<Knows>() {
            Err(reader) => {
                self.reader = Some(reader);
                Err(Refused)
            }
            Ok(reading) => {
                let looked = look_in(reading.get(), &self.seen, &self.heard, c);
                self.reader = Some(reading.leave());
                let Some((answer, front)) = looked else {
                    return Err(Refused);
                };
                self.heard = front.again();
                self.seen = front;
                Ok(answer)
            }
        }
    }
}

pub(crate) fn new_viewer<J: Naming>(reader: CellReader, front: &Front<J>) -> Viewer<J>
    requires some { 0 < length front.now }
    requires book { client_view reader.place ≡ tag_of J.book }
    ensures { (result.seen ≡ front.now) × (result.heard ≡ front.now) }
{
    Viewer {
        reader: Some(reader),
        seen: front.again(),
        heard: front.again(),
    }
}
