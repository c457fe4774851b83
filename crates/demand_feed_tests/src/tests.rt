//! Lines, a feed in pieces of any size, and changes files.
ghost use Rattle.std.specs.Prelude.{◌≡◌, ◌≤◌, ◌↔◌, ◌^◌, None};
ghost use Rattle.demand_feed.specs.Clerk.{task_by};

use addr_text::Addr;
use demand_feed::{
    Batch, BatchFault, ChangesFault, FeedEnd, Intake, Line, LineFault, MOST_TURNS, Next, Refusal,
    Taken, TakesTasks, read_changes, read_line, run_lines,
};
use outside::MemSource;
use std::alloc::Global;
use topology_text::{Topology, TopologyFault, read_topology};
use worlds::{EXAMPLE_FEED, EXAMPLE_TREE};

/// What is read, with no word on it: the checks of those who call this are short.
fn topology_of(alloc: Global, text: &str) -> Result<Topology, TopologyFault> {
    read_topology(alloc, text.as_bytes())
}

/// Whether a line has that fault.
fn has_fault(line: &[u8], fault: LineFault) -> bool {
    match read_line(line) {
        Err(found) => found == fault,
        Ok(_) => false,
    }
}

const FAULTS: &[(&[u8], LineFault)] = &[
    (b"\xff", LineFault::BadByte),
    (b"show\r", LineFault::BadByte),
    (b"show\0", LineFault::BadByte),
    (b"\tshow", LineFault::BadByte),
    (b"", LineFault::UnknownWord),
    (b"   ", LineFault::UnknownWord),
    (b"Show", LineFault::UnknownWord),
    (b"demand g1 4 5", LineFault::WrongCount),
    (b"demand g1", LineFault::WrongCount),
    (b"show now", LineFault::WrongCount),
    (b"demand g1 x", LineFault::BadNumber),
    (b"demand g1 12345678901234567890", LineFault::BadNumber),
    (b"ask 1.2.3 abc", LineFault::BadAddress),
    (b"ask 1.2.3.4 abc", LineFault::BadHex),
    (b"ask 1.2.3.4 0g", LineFault::BadHex),
];

fn have_faults(rows: &[(&[u8], LineFault)]) -> bool {
    rows.iter().all(|(line, fault)| has_fault(*line, *fault))
}

#[test]
fn faults(rt: HostRuntime) {
    assert!(rt; have_faults(FAULTS));
}

const LINES: &[(&[u8], Line<'static>)] = &[
    (
        b"  demand   g1 0004 ",
        Line::Demand {
            group: b"g1",
            number: 4,
        },
    ),
    (
        b"capacity A 9999999999999999999",
        Line::Capacity {
            node: b"A",
            number: 9_999_999_999_999_999_999,
        },
    ),
    (b"commit", Line::Commit),
    (
        b"ask 1.2.3.4 aB",
        Line::Ask {
            addr: Addr::V4(0x0102_0304),
            digits: b"aB",
        },
    ),
    (b"show", Line::Show),
    (b" stop", Line::Stop),
];

fn is_line(line: &[u8], want: &Line) -> bool {
    match read_line(line) {
        Ok(found) => found == *want,
        Err(_) => false,
    }
}

fn are_lines(rows: &[(&[u8], Line<'static>)]) -> bool {
    rows.iter().all(|(line, want)| is_line(*line, want))
}

#[test]
fn lines(rt: HostRuntime) {
    assert!(rt; are_lines(LINES));
}

/// What a recorder was handed.
#[derive(Clone, Copy, Debug, PartialEq, Eq)]
enum Seen {
    Refused(u64, Refusal),
    Batch(usize),
    Empty,
    Spoiled(u64),
    Query(Addr, usize),
    Totals,
}

fn seen_of(next: &Next, due: &Batch) -> Option<Seen>
    ensures { (result ≡ None) ↔ (task_by due.now next.now ≡ None) }
{
    match next {
        Next::Nothing => None,
        Next::Stop => None,
        Next::Refused(line, why) => Some(Seen::Refused(*line, *why)),
        Next::Batch => Some(Seen::Batch(due.changes().len())),
        Next::Empty => Some(Seen::Empty),
        Next::Spoiled(lines) => Some(Seen::Spoiled(*lines)),
        Next::Query { addr, octets } => Some(Seen::Query(*addr, octets.len())),
        Next::Totals => Some(Seen::Totals),
    }
}

/// One that keeps what it is handed, and fails at the task of that number, from 1.
#[derive(Drop)]
struct Recorder<'a> {
    topology: &'a Topology,
    seen: Vec<Seen>,
    fails_at: usize,
    left: u64,
}

impl TakesTasks for Recorder<'_> {
    ghost does = { λ task a b. Unit {0} };

    ghost cuts = { λ task a b. Unit {0} };

    ghost market = { λ r. r.topology.now.market };

    ghost left = { λ r. r.left };

    fn take(&mut self, next: &Next, due: &Batch) -> Taken {
        let Some(seen) = seen_of(next, due) else {
            return Taken::Done;
        };
        self.left -= 1;
        if self.seen.push(seen).is_err() || self.seen.len() == self.fails_at {
            Taken::Failed
        } else {
            Taken::Done
        }
    }
}

/// How a feed is read: in pieces of that size, of which those with these numbers, from 0, fail, by a recorder that fails
/// at the task of that number, from 1, and in so many turns.
#[derive(Clone, Copy)]
struct Course {
    size: usize,
    fails: &'static [u64],
    fails_at: usize,
    turns: u64,
}

fn feed_of(alloc: Global, text: &[u8], course: &Course) -> Option<MemSource> {
    let bytes = Vec::from_slice(alloc, text).ok()?;
    let sizes = vec![in alloc; course.size; text.len()].ok()?;
    let fails = Vec::from_slice(alloc, course.fails).ok()?;
    MemSource::new(alloc, bytes, sizes, fails).ok()
}

/// How a run ends that hands its tasks to a recorder.
fn record(
    alloc: Global,
    feed: &mut MemSource,
    recorder: &mut Recorder<'_>,
    turns: u64,
) -> Option<FeedEnd>
    requires { 2 ^ 63 ≤ recorder.old.left }
{
    let mut intake = Intake::new(alloc).ok()?;
    let turns = turns.min(MOST_TURNS);
    Some(run_lines(recorder.topology, &mut intake, feed, recorder, turns))
}

/// How a feed ended, what came of it, and how many pieces were read.
fn run_feed(
    alloc: Global,
    topology: &Topology,
    text: &[u8],
    course: &Course,
) -> Option<(FeedEnd, Vec<Seen>, usize)> {
    let mut feed = feed_of(alloc, text, course)?;
    let mut recorder = Recorder {
        topology,
        seen: Vec::new(alloc),
        fails_at: course.fails_at,
        left: u64::MAX,
    };
    let end = record(alloc, &mut feed, &mut recorder, course.turns)?;
    Some((end, recorder.seen, feed.pieces()))
}

/// Whether a feed in pieces of that size ends so, after so many pieces, and this comes of it.
fn comes(
    alloc: Global,
    topology: &Topology,
    text: &[u8],
    size: usize,
    want: &[Seen],
    pieces: usize,
) -> bool {
    let smooth = Course {
        size,
        fails: &[],
        fails_at: 0,
        turns: 1_000_000,
    };
    match run_feed(alloc, topology, text, &smooth) {
        Some((end, seen, read)) => {
            end == FeedEnd::Ended && seen.as_slice() == want && read == pieces
        }
        None => false,
    }
}

const CAME: &[Seen] = &[
    Seen::Batch(1),
    Seen::Refused(3, Refusal::Line(LineFault::UnknownWord)),
    Seen::Refused(4, Refusal::Batch(BatchFault::UnknownName)),
    Seen::Refused(5, Refusal::Batch(BatchFault::Range)),
    Seen::Refused(6, Refusal::Batch(BatchFault::Range)),
    Seen::Spoiled(4),
    Seen::Empty,
    Seen::Query(Addr::V4(0xc633_6407), 2),
    Seen::Refused(10, Refusal::Line(LineFault::BadByte)),
    Seen::Refused(11, Refusal::Line(LineFault::WrongCount)),
    Seen::Totals,
    Seen::Spoiled(2),
    Seen::Batch(2),
    Seen::Totals,
];

/// Whether the same comes of the feed in pieces of each size.
fn comes_by_any_size(alloc: Global, topology: &Topology, want: &[Seen]) -> bool {
    for size in 1..71usize {
        let pieces = EXAMPLE_FEED.len().div_ceil(size);
        if !comes(alloc, topology, EXAMPLE_FEED, size, want, pieces) {
            return false;
        }
    }
    true
}

/// A feed that is read octet by octet, what comes of it, and how many pieces are read.
type ShortRow = (&'static [u8], &'static [Seen], usize);

// Nothing is read behind the piece that ends `stop`. A feed of no octets ends without a piece.
const SHORT: &[ShortRow] = &[(b"show\nstop\nshow\n", &[Seen::Totals], 10), (b"", &[], 0)];

fn all_come(alloc: Global, topology: &Topology, rows: &[ShortRow]) -> bool {
    for (text, want, pieces) in rows {
        if !comes(alloc, topology, *text, 1, *want, *pieces) {
            return false;
        }
    }
    true
}

/// How two lines that ask for totals end, read in two pieces, after how many tasks.
const ENDS: &[(&Course, FeedEnd, usize)] = &[
    (
        &Course {
            size: 7,
            fails: &[9],
            fails_at: 0,
            turns: 1,
        },
        FeedEnd::Spent,
        1,
    ),
    (
        &Course {
            size: 7,
            fails: &[9],
            fails_at: 0,
            turns: 2,
        },
        FeedEnd::Spent,
        2,
    ),
    (
        &Course {
            size: 7,
            fails: &[9],
            fails_at: 0,
            turns: 3,
        },
        FeedEnd::Ended,
        2,
    ),
    (
        &Course {
            size: 7,
            fails: &[1],
            fails_at: 0,
            turns: 9,
        },
        FeedEnd::SourceFault,
        1,
    ),
    (
        &Course {
            size: 7,
            fails: &[9],
            fails_at: 1,
            turns: 9,
        },
        FeedEnd::SinkFault,
        1,
    ),
];

/// Whether a feed ends so, after so many tasks.
fn ends_so(
    alloc: Global,
    topology: &Topology,
    course: &Course,
    end: FeedEnd,
    tasks: usize,
) -> bool {
    match run_feed(alloc, topology, b"show\nshow\n", course) {
        Some((found, seen, _)) => found == end && seen.len() == tasks,
        None => false,
    }
}

fn all_end_so(alloc: Global, topology: &Topology, rows: &[(&Course, FeedEnd, usize)]) -> bool {
    for (course, end, tasks) in rows {
        if !ends_so(alloc, topology, *course, *end, *tasks) {
            return false;
        }
    }
    true
}

/// A line of so many letters, and then one that asks for totals.
fn long_feed(alloc: Global, letters: usize) -> Option<Vec<u8>> {
    let mut text = vec![in alloc; b'a'; letters].ok()?;
    text.extend_from_slice(b"\nshow\n").ok()?;
    Some(text)
}

/// How many letters a line has, and its fault.
const LETTERS: &[(usize, LineFault)] = &[
    (8_300, LineFault::UnknownWord),
    (8_301, LineFault::TooLong),
    (20_000, LineFault::TooLong),
];

/// Whether so long a line has that fault, by itself and in a feed.
fn is_refused(alloc: Global, topology: &Topology, letters: usize, fault: LineFault) -> bool {
    let Some(text) = long_feed(alloc, letters) else {
        return false;
    };
    let want = [Seen::Refused(1, Refusal::Line(fault)), Seen::Totals];
    let pieces = text.len().div_ceil(4_000);
    has_fault(text.as_slice().get(..letters).unwrap_or(b""), fault)
        && comes(alloc, topology, text.as_slice(), 4_000, &want, pieces)
}

fn are_refused(alloc: Global, topology: &Topology, rows: &[(usize, LineFault)]) -> bool {
    for (letters, fault) in rows {
        if !is_refused(alloc, topology, *letters, *fault) {
            return false;
        }
    }
    true
}

/// How many changes a file has, or its fault.
fn changes(alloc: Global, topology: &Topology, text: &[u8]) -> Result<usize, ChangesFault> {
    match read_changes(alloc, topology, text) {
        Ok(batch) => Ok(batch.changes().len()),
        Err(fault) => Err(fault),
    }
}

/// A file, and how many changes it has, or its fault.
type FileRow = (&'static [u8], Result<usize, ChangesFault>);

const FILES: &[FileRow] = &[
    (b"", Ok(0)),
    (b"demand g1 5\ncapacity R 0", Ok(2)),
    (
        b"demand g1 5\n\n",
        Err(ChangesFault::Refused(2, Refusal::Line(LineFault::UnknownWord))),
    ),
    (
        b"commit now\n",
        Err(ChangesFault::Refused(1, Refusal::Line(LineFault::UnknownWord))),
    ),
    (
        b"stop",
        Err(ChangesFault::Refused(1, Refusal::Line(LineFault::UnknownWord))),
    ),
    (
        b"demand g1\n",
        Err(ChangesFault::Refused(1, Refusal::Line(LineFault::WrongCount))),
    ),
    (
        b"capacity g1 0\n",
        Err(ChangesFault::Refused(1, Refusal::Batch(BatchFault::UnknownName))),
    ),
    (
        b"demand g1 1\ndemand g2 4294967296",
        Err(ChangesFault::Refused(2, Refusal::Batch(BatchFault::Range))),
    ),
];

fn have_changes(alloc: Global, topology: &Topology, rows: &[FileRow]) -> bool {
    for (text, want) in rows {
        if changes(alloc, topology, *text) != *want {
            return false;
        }
    }
    true
}

/// Whether this comes of a file of so many changes, one a line.
fn comes_of_many(
    alloc: Global,
    topology: &Topology,
    count: usize,
    want: Result<usize, ChangesFault>,
) -> bool {
    match b"demand g1 1\n".as_slice().repeat(alloc, count) {
        Ok(text) => changes(alloc, topology, text.as_slice()) == want,
        Err(_) => false,
    }
}

/// So many changes, and how many there are then, or the fault.
type ManyRow = (usize, Result<usize, ChangesFault>);

const MANY: &[ManyRow] = &[
    (4_096, Ok(4_096)),
    (
        4_097,
        Err(ChangesFault::Refused(4_097, Refusal::Batch(BatchFault::Full))),
    ),
];

fn all_come_of_many(alloc: Global, topology: &Topology, rows: &[ManyRow]) -> bool {
    for (count, want) in rows {
        if !comes_of_many(alloc, topology, *count, *want) {
            return false;
        }
    }
    true
}

/// What is not as it is to be of a feed over a topology, if anything is.
fn wrong_feed(alloc: Global, topology: &Topology) -> Option<&'static str> {
    if !comes_by_any_size(alloc, topology, CAME) {
        return Some("pieces of any size");
    }
    if !all_come(alloc, topology, SHORT) {
        return Some("ends");
    }
    if !all_end_so(alloc, topology, ENDS) {
        return Some("ends that fail");
    }
    if !are_refused(alloc, topology, LETTERS) {
        return Some("long lines");
    }
    None
}

/// The same of changes files.
fn wrong_file(alloc: Global, topology: &Topology) -> Option<&'static str> {
    if !have_changes(alloc, topology, FILES) {
        return Some("changes files");
    }
    if !all_come_of_many(alloc, topology, MANY) {
        return Some("full changes files");
    }
    None
}

/// The same of both, over the topology that a text says.
fn wrong_over(alloc: Global, text: &str) -> Option<&'static str> {
    match topology_of(alloc, text) {
        Ok(topology) => wrong_feed(alloc, &topology).or(wrong_file(alloc, &topology)),
        Err(_) => Some("no topology"),
    }
}

/// Feeds and changes files over the example.
#[test]
fn feeds_and_files(rt: HostRuntime) {
    assert_eq!(rt; wrong_over(rt.alloc(), EXAMPLE_TREE), None);
}
