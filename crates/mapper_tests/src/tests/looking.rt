//! Each note goes into the row behind its map's text and the line that it is published.
ghost use Rattle.std.specs.Prelude.{◌≡◌, ◌<◌, ◌^◌, None};

use super::{opened, row_of, tells_of};
use demand_feed::FeedEnd;
use map_cell::{EmptyHistory, Naming, NoteRow, RowNotes};
use mapper::{Mapper, Outputs, Told};
use no_memory::NoMemory;
use outside::{MemPace, MemSource, Notes, Put, Sink};
use std::alloc::Global;
use std::marker::Brand;
use std::sync::Wait;
use std::test::Fail;

/// Three publications.
const FEED: &[u8] =
    b"demand g2 4\ncommit\ndemand g2 5\ncommit\ndemand g1 3\ndemand g2 2\ncommit\nshow\nstop\n";

/// A sink that looks at a row at each put of a map's text or of a line `published`: the notes of the first map and of the publications before must be there, and no other.
#[derive(Drop)]
struct Looking<'a, J: Naming> {
    notes: RowNotes<'a, J>,
    seen: usize,
    told: usize,
    is_wrong: bool,
}

impl<'a, J: Naming> Looking<'a, J> {
    /// One that was put nothing.
    fn over(row: &'a NoteRow<J>) -> Looking<'a, J> {
        Looking {
            notes: RowNotes::over(row),
            seen: 0,
            told: 0,
            is_wrong: false,
        }
    }

    /// Takes the notes that are there now.
    fn look(&mut self) {
        for _ in 0..65_536usize {
            if self.notes.next().is_none() {
                return;
            }
            self.seen = self.seen.saturating_add(1);
        }
    }
}

impl<J: Naming> Sink for Looking<'_, J> {
    ghost told = { λ _. record { past = None; faults = 0 } };

    fn put(&mut self, piece: &[u8]) -> Put {
        if piece.starts_with(b"glb map 2\n") || piece.starts_with(b"published ") {
            self.look();
            if self.seen != self.told.saturating_add(1) {
                self.is_wrong = true;
            }
            self.told = self.told.saturating_add(1);
        }
        Put::Done
    }
}

/// Whether a sink was put so many publications, each at its time.
fn saw<J: Naming>(sink: &Looking<'_, J>, count: usize) -> bool {
    !sink.is_wrong && sink.told == count
}

/// The feed.
fn feed_of(alloc: Global) -> Result<MemSource, NoMemory> {
    let bytes = Vec::from_slice(alloc, FEED)?;
    MemSource::new(alloc, bytes, Vec::new(alloc), Vec::new(alloc))
}

/// Whether the notes of a feed come so into this row, of whose first map it tells.
fn comes_in_order<J: Naming, R: Wait>(
    rt: &R,
    alloc: Global,
    mapper: &mut Mapper<J>,
    row: &NoteRow<J>,
    told: Told,
) -> Result<bool, NoMemory>
    requires { mapper.old.newest.serial < 2 ^ 63 }
{
    let mut feed = feed_of(alloc)?;
    let mut pace = MemPace::new(alloc, 64)?;
    let mut out = Looking::over(row);
    let mut maps = Looking::over(row);
    let mut to = Outputs {
        out: &mut out,
        maps: &mut maps,
        pace: &mut pace,
        told,
    };
    let end = mapper.run_feed(rt, &mut feed, &mut to, row, 1_000_000);
    let told = to.told;
    let came = (end, saw(&out, 3), saw(&maps, 3), tells_of(row, told, 3));
    Ok(came == (FeedEnd::Ended, true, true, true))
}

/// The same, of a row that is made here.
fn is_in_order<J: Naming, R: Wait>(
    rt: &R,
    alloc: Global,
    mapper: &mut Mapper<J>,
) -> Result<bool, NoMemory>
    requires { mapper.old.newest.serial < 2 ^ 63 }
{
    let (row, told) = row_of(rt, alloc, mapper)?;
    comes_in_order(rt, alloc, mapper, &row, told)
}

/// The same, of a mapper of the example.
fn opens_in_order<J: Naming, R: Wait>(rt: &R, alloc: Global, history: EmptyHistory) -> bool
    requires { history ≡ J.book }
{
    match opened::<J, R>(rt, alloc, history) {
        None => false,
        Some(mapper) => {
            let mut mapper = mapper;
            let is = is_in_order(rt, alloc, &mut mapper);
            mapper.close(rt);
            is == Ok(true)
        }
    }
}

#[test]
fn notes_come_behind_texts(rt: HostRuntime) -> Result<(), Fail> {
    assert!(rt; opens_in_order::<Brand, HostRuntime>(&rt, rt.alloc(), EmptyHistory::new()));
    Ok(())
}
