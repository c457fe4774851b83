//! Lines of control text, feeds over a mapper, and commits.
ghost use Rattle.std.specs.Prelude.{◌≡◌, ◌+◌, ◌<◌, ◌≤◌, ◌^◌, IfSome};
ghost use Rattle.demand_feed.specs.Changing.{IsChangeLine};

use arrayvec::ArrayVec;
use demand_feed::{Batch, BatchFault, FeedEnd, Line, LineFault, Refusal};
use map_cell::{EmptyHistory, MemDoor, Naming, NoteRow, OpenFault, PlainDoor, RowNotes};
use map_model::{Instance, MapLines, Steps};
use mapper::{Mapper, Outputs, Saying, Spoken, Told, Totals, write_saying};
use no_memory::NoMemory;
use outside::{MemPace, MemSink, MemSource, Notes, PaceCall};
use stable_check::{CheckRoom, Verdict, check};
use std::alloc::Global;
use std::marker::Brand;
use std::sync::Wait;
use std::test::Fail;
use topology_text::{Topology, read_topology};
use worlds::EXAMPLE_TREE;

mod looking;
mod several;

/// The proposals of these tests, as what is counted.
struct Counted;

/// Whether a line of control text is this one.
fn says(saying: &Saying, text: &[u8]) -> bool {
    let mut line = Spoken::new();
    write_saying(&mut line, &Saying::Published(u64::MAX));
    write_saying(&mut line, saying);
    line.as_slice() == text
}

#[test]
fn lines(rt: HostRuntime) -> Result<(), Fail> {
    let totals = Totals {
        placed: 12,
        unplaced: 0,
        full: 1,
    };
    let unknown = Refusal::Batch(BatchFault::UnknownName);
    let bad = Refusal::Line(LineFault::BadByte);
    assert!(rt; says(&Saying::Published(1), b"published 1\n"));
    assert!(rt; says(&Saying::Refused(1, unknown), b"refused 1 unknown name\n"));
    assert!(rt; says(&Saying::Refused(20, bad), b"refused 20 bad byte\n"));
    assert!(rt; says(&Saying::Spoiled(1), b"refused commit lines 1\n"));
    assert!(rt; says(&Saying::NoMemory, b"refused commit memory\n"));
    assert!(rt; says(&Saying::Answer(3, None), b"answer 3 -\n"));
    assert!(rt;
        says(
            &Saying::Show(1, totals),
            b"show 1 placed 12 unplaced 0 full 1\n"
        )
    );
    let mut octets = ArrayVec::new();
    octets.try_extend_from_slice(&[0x12, 0xaf])?;
    assert!(rt; says(&Saying::Answer(1, Some(octets)), b"answer 1 12af\n"));
    Ok(())
}

/// A feed over a mapper of the example, and what comes of it.
#[derive(Drop)]
struct Row {
    feed: &'static str,
    /// The puts that fail, by their numbers from 0.
    out_fails: &'static [u64],
    maps_fails: &'static [u64],
    end: FeedEnd,
    out: &'static str,
    maps: &'static str,
    /// The calls of the pace, and how many notes went into the row behind that of the first map.
    calls: &'static [PaceCall],
    notes: usize,
}

const SESSION: &str =
    "demand g2 4\ncommit\nask 198.51.100.7 123401000001000000000000037777770363646e076578616d706c650000010001\nshow\ncommit\nstop\n";

const PUBLISHED: &str = "published 1\n";

const ANSWERED: &str =
    "published 1\nanswer 1 123485000001000100000000037777770363646e076578616d706c650000010001c00c00010001000000140004c0000201\n";

const SHOWN: &str =
    "published 1\nanswer 1 123485000001000100000000037777770363646e076578616d706c650000010001c00c00010001000000140004c0000201\nshow 1 placed 12 unplaced 0 full 1\n";

const SAID: &str =
    "published 1\nanswer 1 123485000001000100000000037777770363646e076578616d706c650000010001c00c00010001000000140004c0000201\nshow 1 placed 12 unplaced 0 full 1\npublished 1\n";

const SECOND_MAP: &str = "glb map 2\nplace g1 A 8\nplace g2 A 2\nplace g2 B 2\nfull g2 A A\nend\n";

const REFUSED: &str = "demand nobody 3\ndemand g1 5\ncommit\nstop\n";

const DROPPED: &str = "refused 1 unknown name\nrefused commit lines 1\n";

/// No feed.
const QUIET: Row = Row {
    feed: "",
    out_fails: &[],
    maps_fails: &[],
    end: FeedEnd::Ended,
    out: "",
    maps: "",
    calls: &[PaceCall::Done(0)],
    notes: 0,
};

/// The session, a batch that a refused line drops, no feed, a line that no LF ends, and a query without a reply.
const ROWS: [Row; 5] = [
    Row {
        feed: SESSION,
        out: SAID,
        maps: SECOND_MAP,
        calls: &[PaceCall::Before(0), PaceCall::Before(1), PaceCall::Done(1)],
        notes: 1,
        ..QUIET
    },
    Row {
        feed: REFUSED,
        out: DROPPED,
        calls: &[PaceCall::Before(0), PaceCall::Done(0)],
        ..QUIET
    },
    QUIET,
    Row {
        feed: "show",
        out: "show 0 placed 15 unplaced 1 full 2\n",
        ..QUIET
    },
    Row {
        feed: "ask 198.51.100.7 1234\n",
        out: "answer 0 -\n",
        ..QUIET
    },
];

/// The session, in which a put fails.
const CUT: Row = Row {
    feed: SESSION,
    end: FeedEnd::SinkFault,
    maps: SECOND_MAP,
    calls: &[PaceCall::Before(0), PaceCall::Done(1)],
    notes: 1,
    ..QUIET
};

/// The session, in which each of the five puts fails in turn.
const CUTS: [Row; 5] = [
    Row {
        maps_fails: &[0],
        maps: "",
        notes: 0,
        ..CUT
    },
    Row {
        out_fails: &[0],
        notes: 0,
        ..CUT
    },
    Row {
        out_fails: &[1],
        out: PUBLISHED,
        ..CUT
    },
    Row {
        out_fails: &[2],
        out: ANSWERED,
        ..CUT
    },
    Row {
        out_fails: &[3],
        out: SHOWN,
        calls: &[PaceCall::Before(0), PaceCall::Before(1), PaceCall::Done(1)],
        ..CUT
    },
];

/// What a feed is run with.
#[derive(Drop)]
struct Around {
    feed: MemSource,
    out: MemSink,
    maps: MemSink,
    pace: MemPace,
}

/// A feed in pieces of a size.
fn source_of(alloc: Global, feed: &[u8], size: usize) -> Result<MemSource, NoMemory> {
    let bytes = Vec::from_slice(alloc, feed)?;
    let sizes = vec![in alloc; size; feed.len()]?;
    MemSource::new(alloc, bytes, sizes, Vec::new(alloc))
}

/// A sink whose puts of these numbers fail.
fn sink_of(alloc: Global, fails: &[u64]) -> Result<MemSink, NoMemory> {
    let fails = Vec::from_slice(alloc, fails)?;
    MemSink::new(alloc, 65_536, fails)
}

/// A feed in pieces of a size, with sinks that fail where the row says so.
fn with_faults(alloc: Global, feed: &[u8], row: &Row, size: usize) -> Result<Around, NoMemory> {
    let feed = source_of(alloc, feed, size)?;
    let out = sink_of(alloc, row.out_fails)?;
    let maps = sink_of(alloc, row.maps_fails)?;
    let pace = MemPace::new(alloc, 64)?;
    Ok(Around {
        feed,
        out,
        maps,
        pace,
    })
}

/// Whether a run ended and said as a row has it.
fn is_as(row: &Row, end: FeedEnd, out: &[u8], maps: &[u8]) -> bool {
    if out != row.out.as_bytes() {
        return false;
    }
    if maps != row.maps.as_bytes() {
        return false;
    }
    end == row.end
}

/// A row that tells of the newest map alone, and that count.
fn row_of<J: Naming, R: Wait>(
    rt: &R,
    alloc: Global,
    mapper: &Mapper<J>,
) -> Result<(NoteRow<J>, Told), NoMemory> {
    let row = NoteRow::new(alloc)?;
    let mut told = Told::of_none();
    told.tell(rt, &row, mapper.note());
    Ok((row, told))
}

/// Whether a row tells of the first map and so many more, and these were counted.
fn tells_of<J: Naming>(row: &NoteRow<J>, told: Told, more: usize) -> bool {
    let count = count_notes(row);
    count == more.saturating_add(1) && told.count() == count as u64
}

/// How many notes there are in a row.
fn count_notes<J: Naming>(row: &NoteRow<J>) -> usize {
    let mut notes = RowNotes::over(row);
    for count in 0..65_536usize {
        if notes.next().is_none() {
            return count;
        }
    }
    65_536
}

/// Whether a feed that comes in pieces of a size does to a mapper what a row says.
fn feeds<J: Naming, R: Wait>(
    rt: &R,
    alloc: Global,
    mapper: &mut Mapper<J>,
    feed: &[u8],
    row: &Row,
    size: usize,
) -> bool
    requires { mapper.old.newest.serial < 2 ^ 63 }
{
    let Ok(around) = with_faults(alloc, feed, row, size) else {
        return false;
    };
    let Around {
        feed: source,
        out: said,
        maps: texts,
        pace: calls,
    } = around;
    let mut source = source;
    let mut said = said;
    let mut texts = texts;
    let mut calls = calls;
    let Ok((notes, told)) = row_of(rt, alloc, mapper) else {
        return false;
    };
    let mut to = Outputs {
        out: &mut said,
        maps: &mut texts,
        pace: &mut calls,
        told,
    };
    let end = mapper.run_feed(rt, &mut source, &mut to, &notes, 1_000_000);
    let told = to.told;
    if !is_as(row, end, said.bytes(), texts.bytes()) {
        return false;
    }
    if calls.calls() != row.calls {
        return false;
    }
    tells_of(&notes, told, row.notes) && source.shortest() == Some(32_768)
}

/// A mapper of the example.
fn opened<J: Naming, R: Wait>(rt: &R, alloc: Global, history: EmptyHistory) -> Option<Mapper<J>>
    requires { history ≡ J.book }
    ensures { IfSome result (λ m. m.newest.serial ≡ 0) }
{
    let Ok(topology) = read_topology(alloc, EXAMPLE_TREE.as_bytes()) else {
        return None;
    };
    let mut door = PlainDoor::new();
    let mut steps = Steps::<Counted>::new();
    match Mapper::open(rt, alloc, history, topology, 1, &mut door, &mut steps) {
        Ok((mapper, _viewers)) => Some(mapper),
        Err(_) => None,
    }
}

/// Whether a feed does to a mapper of the example what a row says.
fn runs_on<J: Naming, R: Wait>(
    rt: &R,
    alloc: Global,
    history: EmptyHistory,
    feed: &[u8],
    row: &Row,
    size: usize,
) -> bool
    requires { history ≡ J.book }
{
    match opened::<J, R>(rt, alloc, history) {
        None => false,
        Some(mapper) => {
            let mut mapper = mapper;
            let is = feeds(rt, alloc, &mut mapper, feed, row, size);
            mapper.close(rt);
            is
        }
    }
}

/// The same, of a cell of its own.
fn runs<R: Wait>(rt: &R, alloc: Global, feed: &[u8], row: &Row, size: usize) -> bool {
    runs_on::<Brand, R>(rt, alloc, EmptyHistory::new(), feed, row, size)
}

/// Whether each row is so, with its feed in pieces of that size.
fn all_run<R: Wait>(rt: &R, alloc: Global, rows: &[Row], size: usize) -> bool {
    for row in rows {
        if !runs(rt, alloc, row.feed.as_bytes(), row, size) {
            return false;
        }
    }
    true
}

/// Whether it is so in pieces of each size.
fn all_sizes<R: Wait>(rt: &R, alloc: Global, rows: &[Row], sizes: usize) -> bool {
    for size in 0..sizes {
        if !all_run(rt, alloc, rows, size) {
            return false;
        }
    }
    true
}

#[test]
fn feeds_in_pieces(rt: HostRuntime) -> Result<(), Fail> {
    assert!(rt; all_sizes(&rt, rt.alloc(), &ROWS, 24));
    Ok(())
}

/// Whether a row is so in pieces of 24 octets and more, up to more than the session has.
fn all_larger<R: Wait>(rt: &R, alloc: Global, row: &Row) -> bool {
    for size in 24..122 {
        if !runs(rt, alloc, row.feed.as_bytes(), row, size) {
            return false;
        }
    }
    true
}

#[test]
fn the_session_in_larger_pieces(rt: HostRuntime) -> Result<(), Fail> {
    assert!(rt; all_larger(&rt, rt.alloc(), &ROWS[0]));
    Ok(())
}

#[test]
fn puts_fail_in_turn(rt: HostRuntime) -> Result<(), Fail> {
    assert!(rt; all_run(&rt, rt.alloc(), &CUTS, 100));
    Ok(())
}

/// So many times the same change, and a commit line.
fn many_changes(alloc: Global, count: usize) -> Result<Vec<u8>, NoMemory> {
    let mut feed = Vec::new(alloc);
    for _ in 0..count {
        feed.extend_from_slice(b"demand g2 4\n")?;
    }
    feed.extend_from_slice(b"commit\n")?;
    Ok(feed)
}

/// Of a batch of 4,096 changes, and of one with one more.
const FULL: [Row; 2] = [
    Row {
        out: PUBLISHED,
        maps: SECOND_MAP,
        calls: &[PaceCall::Before(0), PaceCall::Done(1)],
        notes: 1,
        ..QUIET
    },
    Row {
        out: "refused 4097 batch full\nrefused commit lines 1\n",
        calls: &[PaceCall::Before(0), PaceCall::Done(0)],
        ..QUIET
    },
];

/// Whether so many changes do to a mapper of the example what a row says.
fn runs_many<R: Wait>(rt: &R, alloc: Global, count: usize, row: &Row) -> bool {
    match many_changes(alloc, count) {
        Err(NoMemory) => false,
        Ok(feed) => runs(rt, alloc, feed.as_slice(), row, 32_768),
    }
}

#[test]
fn full_batches(rt: HostRuntime) -> Result<(), Fail> {
    assert!(rt; runs_many(&rt, rt.alloc(), 4_096, &FULL[0]));
    assert!(rt; runs_many(&rt, rt.alloc(), 4_097, &FULL[1]));
    Ok(())
}

/// Whether the map is good for the instance.
fn is_good(alloc: Global, instance: &Instance, map: &MapLines) -> bool {
    match CheckRoom::new(alloc, instance) {
        Err(_) => false,
        Ok(room) => {
            let mut room = room;
            matches!(check(instance, map, &mut room), Verdict::Good)
        }
    }
}

/// A change of a round: another demand of one of the groups, or another capacity of the region.
fn change_of(round: u64) -> Line<'static>
    ensures { IsChangeLine result }
{
    match round % 3 {
        0 => Line::Demand {
            group: b"g1",
            number: 1 + round % 13,
        },
        1 => Line::Demand {
            group: b"g2",
            number: 1 + round % 17,
        },
        _ => Line::Capacity {
            node: b"R",
            number: round % 23,
        },
    }
}

/// Whether a commit of one change gives a good map of the next serial.
fn follows<J: Naming, R: Wait>(
    rt: &R,
    alloc: Global,
    mapper: &mut Mapper<J>,
    batch: &mut Batch,
    round: u64,
) -> bool
    requires serial { mapper.old.newest.serial < 2 ^ 32 }
    requires round { round < 2 ^ 32 }
    ensures { mapper.new.newest.serial ≤ mapper.old.newest.serial + 1 }
{
    batch.clear();
    let line = change_of(round);
    if batch.add(mapper.topology(), &line).is_err() {
        return false;
    }
    let mut steps = Steps::<Counted>::new();
    let next = mapper.commit(rt, batch, &mut steps);
    let (instance, map) = mapper.newest_map();
    next == Ok(round + 1) && is_good(alloc, instance, map)
}

/// Whether so many commits in a row each give a good map.
fn all_follow<J: Naming, R: Wait>(
    rt: &R,
    alloc: Global,
    mapper: &mut Mapper<J>,
    batch: &mut Batch,
    rounds: u64,
) -> bool
    requires serial { mapper.old.newest.serial ≡ 0 }
    requires rounds { rounds < 2 ^ 32 }
{
    for round in 0..rounds {
        if !follows(rt, alloc, mapper, batch, round) {
            return false;
        }
    }
    true
}

/// The same, of a mapper of the example, which is closed.
fn commits_on<J: Naming, R: Wait>(
    rt: &R,
    alloc: Global,
    history: EmptyHistory,
    batch: &mut Batch,
    rounds: u64,
) -> bool
    requires history { history ≡ J.book }
    requires rounds { rounds < 2 ^ 32 }
{
    match opened::<J, R>(rt, alloc, history) {
        None => false,
        Some(mapper) => {
            let mut mapper = mapper;
            let is = all_follow(rt, alloc, &mut mapper, batch, rounds);
            mapper.close(rt);
            is
        }
    }
}

/// The same, of a cell of its own.
fn commits<R: Wait>(rt: &R, alloc: Global, batch: &mut Batch, rounds: u64) -> bool
    requires { rounds < 2 ^ 32 }
{
    commits_on::<Brand, R>(rt, alloc, EmptyHistory::new(), batch, rounds)
}

#[test]
fn commits_in_a_row(rt: HostRuntime) -> Result<(), Fail> {
    let mut batch = Batch::new(rt.alloc())?;
    assert!(rt; commits(&rt, rt.alloc(), &mut batch, 5_000));
    Ok(())
}

/// How an opening with two viewers is refused, and how many proposals it makes.
fn opening<J: Naming, R: Wait>(
    rt: &R,
    alloc: Global,
    history: EmptyHistory,
    topology: Topology,
    refused: Vec<u64>,
) -> (Option<OpenFault>, u64)
    requires { history ≡ J.book }
{
    let mut door = MemDoor::new(refused, Vec::new(alloc));
    let mut steps = Steps::<Counted>::new();
    match Mapper::<J>::open(rt, alloc, history, topology, 2, &mut door, &mut steps) {
        Ok((mapper, _viewers)) => {
            mapper.close(rt);
            (None, steps.count())
        }
        Err(fault) => (Some(fault), steps.count()),
    }
}

/// The same, of a cell of its own.
fn opens<R: Wait>(
    rt: &R,
    alloc: Global,
    topology: Topology,
    refused: Vec<u64>,
) -> (Option<OpenFault>, u64) {
    opening::<Brand, R>(rt, alloc, EmptyHistory::new(), topology, refused)
}

/// The same of the example, where the place of that number is refused.
fn opens_but<R: Wait>(rt: &R, alloc: Global, refused: u64) -> Option<(Option<OpenFault>, u64)> {
    match Vec::from_slice(alloc, &[refused]) {
        Err(_) => None,
        Ok(refused) => match read_topology(alloc, EXAMPLE_TREE.as_bytes()) {
            Err(_) => None,
            Ok(topology) => Some(opens(rt, alloc, topology, refused)),
        },
    }
}

/// The second of two places is refused, or a third one, for which nobody asks. Both groups offer at their first pool,
/// and the second one then what it lost there at the other.
#[test]
fn openings(rt: HostRuntime) -> Result<(), Fail> {
    assert!(rt; opens_but(&rt, rt.alloc(), 1) == Some((Some(OpenFault::CellFault), 3)));
    assert!(rt; opens_but(&rt, rt.alloc(), 2) == Some((None, 3)));
    Ok(())
}
