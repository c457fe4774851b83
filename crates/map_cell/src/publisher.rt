//! The publisher of a cell: it adds versions to the history, and shows each to the viewers.
ghost use Rattle.std.specs.Prelude.{◌≡◌, ◌+◌, ◌<◌, ◌^◌, ◌≤◌, ◌-◌, ◌∷◌, ◌++◌, [], drop, length, IfOk, IfErr, OnErr, OnOk, IsSome, IsTrue, Some, true};
ghost use Rattle.left_right.specs.Sides.{view as client_view};
ghost use Rattle.published_map.specs.Changes.{after, is_within, moved};
ghost use Rattle.map_cell.specs.Ends.{PublisherState, ViewerState};
ghost use Rattle.map_cell.specs.Histories.{MayFollow, IsHistory, IsSealed};
ghost use Rattle.map_cell.specs.Tags.{tag_of};
ghost use Rattle.published_map.specs.Version.{IsVersion};

use crate::addition::Addition;
use crate::front::{Book, Front, Naming};
use crate::rule::{OneCell, Published, Same};
use crate::sealed::{Sealed, SealedDelta};
use crate::tag::Tag;
use crate::viewer::{CellReader, Note, Viewer, new_viewer};
use left_right::writer::Writer;
use no_memory::NoMemory;
use published_map::{Delta, MapVersion};
use std::alloc::Global;
use std::marker::Model;
use std::snapshot::Snapshot;
use std::sync::Wait;

type CellWriter = Writer<Sealed, SealedDelta, Tag, OneCell>;

/// The history counts its versions in 64 bits, so the version of serial 2^64-1 finds no room.
const LAST_BASE: u64 = u64::MAX - 1;

/// Publishes versions, each by what changes from the one before it.
///
/// It can't be dropped: end it by `close`.
pub struct Publisher<J: Naming> {
    writer: Option<CellWriter>,
    book: Book<J>,
    front: Front<J>,
    newest: Snapshot<MapVersion>,
    /// An entry of the history was never shown.
    broken: bool,
}

impl<J: Naming> Model for Publisher<J> {
    ghost use Rattle.std.specs.Prelude.{◌≡◌, [], drop, IsSome, IfSome};
    ghost use Rattle.left_right.specs.Sides.{view as client_view};
    ghost use Rattle.map_cell.specs.Ends.{PublisherState};
    ghost use Rattle.map_cell.specs.Histories.{IsSealed};
    ghost use Rattle.map_cell.specs.Tags.{tag_of};

    ghost Value = { PublisherState };

    ghost view = { λ p. record { history = p.front; newest = p.newest.value } };

    ghost invariant = { λ p. IsSome p.writer × IsSealed p.front p.newest.value
        × IfSome p.writer (λ w. (client_view w.desk.place ≡ tag_of J.book)
        × (w.desk.shown.value ≡ record {
          book = J.book;
          history = p.front;
          version = p.newest.value;
        }) × (drop w.behind w.log.items ≡ [])) };
}

/// Opens the cell with a version, of which there are two copies.
pub(crate) fn start<J: Naming, R: Wait>(
    rt: &R,
    alloc: Global,
    book: Book<J>,
    empty: Front<J>,
    copies: (MapVersion, MapVersion),
    readers: usize,
) -> Result<Publisher<J>, NoMemory>
    requires empty { empty ≡ [] }
    requires first { IsVersion copies.0 × (copies.0.serial ≡ 0) }
    requires alike { copies.1 ≡ copies.0 }
    requires readers { (0 < readers) × (readers < 2 ^ 32) }
    ensures { IfOk result (λ p. p ≡ record { history = copies.0 ∷ []; newest = copies.0 }) }
{
    let (first, second) = copies;
    let none = Delta {
        base: 0,
        groups: Vec::new(alloc),
        nodes: Vec::new(alloc),
    };
    let mut front = empty;
    if !front.add(&book, &Addition::first(&first, &none)) {
        return Err(NoMemory);
    }
    let newest = Snapshot::of(&first);
    let one = Sealed::new(first, &front);
    let two = Sealed::new(second, &front);
    let writer: CellWriter = Writer::new(alloc, one, two, readers)?;
    let step = SealedDelta::new(none, 0, &front);
    match show(rt, writer, step) {
        Err(writer) => {
            drop(writer.take(rt));
            Err(NoMemory)
        }
        Ok(writer) => Ok(Publisher {
            writer: Some(writer),
            book,
            front,
            newest,
            broken: false,
        }),
    }
}

impl<J: Naming> Publisher<J> {
    /// A new viewer, which has seen what is published.
    ///
    /// # Errors
    ///
    /// `NoMemory` where there was no place for it.
    pub fn admit(&mut self) -> Result<Viewer<J>, NoMemory>
        ensures same { self.new ≡ self.old }
        ensures seen { IfOk result (λ v. (v.seen ≡ self.old.history)
            × (v.heard ≡ self.old.history)) }
    {
        let Some(writer) = &mut self.writer else {
            unreachable!()
        };
        let reader = join_cell(writer)?;
        Ok(new_viewer(reader, &self.front))
    }

    /// Names what is published.
    pub fn note(&self) -> Note<J>
        ensures { result.front ≡ self.now.history }
    {
        Note {
            front: self.front.again(),
        }
    }

    /// The newest version.
    pub fn newest(&self) -> &MapVersion
        ensures { result.now ≡ self.now.newest }
    {
        let Some(writer) = &self.writer else {
            unreachable!()
        };
        let sealed = writer.published();
        sealed.version()
    }

    /// Ends the cell. It waits for viewers that are looking.
    pub fn close<R: Wait>(self, rt: &R) {
        let Publisher {
            writer,
            book: _,
            front: _,
            newest: _,
            broken: _,
        } = self;
        if let Some(writer) = writer {
            drop(writer.take(rt));
        }
    }

    /// Publishes the version that follows the newest by the delta, and answers its serial. The appending comes first; the
    /// exchange after it takes no memory. It waits for viewers that look at the version before the newest.
    ///
    /// # Errors
    ///
    /// `NoMemory` where there was no room for it; nothing was published then.
    pub fn publish<R: Wait>(&mut self, rt: &R, delta: Delta) -> Result<u64, NoMemory>
        requires base { delta.base ≡ self.old.newest.serial }
        requires within { IsTrue (is_within self.old.newest delta) }
        requires good { IsVersion (after self.old.newest delta) }
        requires room { delta.base < 2 ^ 64 - 1 }
        ensures ok { IfOk result (λ s. (self.new.history ≡ self.old.history ++ after self.old.newest
            delta ∷ []) × (self.new.newest ≡ after self.old.newest delta) × (s ≡ delta.base + 1)) }
        ensures err { OnErr result (self.new ≡ self.old) }
    {
        if self.broken || delta.base >= LAST_BASE {
            return Err(NoMemory);
        }
        let serial = delta.base + 1;
        let writer = self.writer.take().unwrap();
        // tells the prover what the type keeps
        let _ = self.front.len();
        let mut front = self.front.again();
        if !front.add(
            &self.book,
            &Addition::next(writer.published().version(), &delta),
        ) {
            put_back(&mut self.writer, writer, rt);
            self.broken = true;
            return Err(NoMemory);
        }
        let step = SealedDelta::new(delta, serial, &front);
        match show(rt, writer, step) {
            Err(writer) => {
                put_back(&mut self.writer, writer, rt);
                self.broken = true;
                Err(NoMemory)
            }
            Ok(writer) => {
                self.newest = Snapshot::of(writer.published().version());
                put_back(&mut self.writer, writer, rt);
                self.front = front;
                Ok(serial)
            }
        }
    }
}

/// Shows readers the copy after a step. The writer comes back as it was where the step found no room.
fn show<R: Wait>(rt: &R, writer: CellWriter, step: SealedDelta) -> Result<CellWriter, CellWriter>
    requires idle { drop writer.behind writer.log.items ≡ [] }
    requires within { is_within writer.desk.shown.value.version step.delta ≡ true }
    requires book { step.book ≡ writer.desk.shown.value.book }
    requires last { IsSealed
        step.history (moved writer.desk.shown.value.version step.delta step.serial) }
    ensures ok { IfOk result (λ w. (client_view w.desk.place ≡ tag_of step.book)
        × (w.desk.shown.value ≡ record {
          book = step.book;
          history = step.history;
          version = moved writer.desk.shown.value.version step.delta step.serial;
        })
        × (drop w.behind w.log.items ≡ [])) }
    ensures err { IfErr result (λ w. (client_view w.desk.place ≡ client_view writer.desk.place)
        × (w.desk.shown.value ≡ writer.desk.shown.value) × (drop w.behind w.log.items ≡ [])) }
{
    let mut writer = writer;
    if writer.append(step).is_err() {
        return Err(writer);
    }
    let (writer, _done) = writer.publish_as::<Published, R>(rt);
    Ok(writer)
}

/// Puts the writer into an empty place.
fn put_back<R: Wait>(place: &mut Option<CellWriter>, writer: CellWriter, rt: &R)
    ensures { place.new ≡ Some writer }
{
    match place.replace(writer) {
        None => {}
        Some(old) => drop(old.take(rt)),
    }
}

/// A new reader, which knows the book.
fn join_cell(writer: &mut CellWriter) -> Result<CellReader, NoMemory>
    ensures reader { IfOk result (λ r. client_view r.place ≡ client_view writer.old.desk.place) }
    ensures same { (client_view writer.new.desk.place ≡ client_view writer.old.desk.place)
        × (writer.new.desk.shown ≡ writer.old.desk.shown)
        × (writer.new.log ≡ writer.old.log) × (writer.new.behind ≡ writer.old.behind) }
{
    let mut reader = writer.factory().reader()?;
    reader.learn::<Same>(writer.tell::<Same>());
    Ok(reader)
}
