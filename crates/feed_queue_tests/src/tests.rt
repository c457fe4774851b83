//! What feeders send of their feeds, and two that send at once.
ghost use Rattle.std.specs.Prelude.{◌≡◌, [], ◌∷◌, length, IfSome};
ghost use Rattle.std.specs.Thread.{IsSync, IsSend};

use addr_text::Addr;
use demand_feed::{BatchFault, FeedEnd, Item, LineFault, Refusal, What};
use feed_queue::{Feeder, Numbers, Taker, open};
use outside::MemSource;
use std::alloc::Global;
use std::marker::Brand;
use std::sync::Wait;
use std::test::Fail;
use std::thread::{Threads, join_mut};
use topology_text::{Topology, TopologyFault, read_topology};
use worlds::{EXAMPLE_FEED, EXAMPLE_TREE};

/// What is read, with no word on it: the checks of those who call this are short.
fn topology_of(alloc: Global, text: &str) -> Result<Topology, TopologyFault> {
    read_topology(alloc, text.as_bytes())
}

/// What an item is, a batch by how many changes it has and a question by how many octets.
#[derive(Clone, Copy, Debug, PartialEq, Eq)]
enum Seen {
    Commit(usize),
    Empty,
    Lines(u64),
    Memory,
    Ask(Addr, usize),
    Show,
    Refused(u64, Refusal),
    End(FeedEnd),
}

fn seen_of(what: &What) -> Seen {
    match what {
        What::Commit(batch) => Seen::Commit(batch.changes().len()),
        What::Empty => Seen::Empty,
        What::Lines(lines) => Seen::Lines(*lines),
        What::Memory => Seen::Memory,
        What::Ask { addr, octets } => Seen::Ask(*addr, octets.len()),
        What::Show => Seen::Show,
        What::Refused(line, why) => Seen::Refused(*line, *why),
        What::End(end) => Seen::End(*end),
    }
}

/// A feed in pieces of that size, of which the reads with these numbers, from 0, fail.
fn feed_of(alloc: Global, text: &[u8], size: usize, fails: &[u64]) -> Option<MemSource> {
    let bytes = Vec::from_slice(alloc, text).ok()?;
    let sizes = vec![in alloc; size; text.len()].ok()?;
    let fails = Vec::from_slice(alloc, fails).ok()?;
    MemSource::new(alloc, bytes, sizes, fails).ok()
}

const SENT: &[Seen] = &[
    Seen::Commit(1),
    Seen::Refused(3, Refusal::Line(LineFault::UnknownWord)),
    Seen::Refused(4, Refusal::Batch(BatchFault::UnknownName)),
    Seen::Refused(5, Refusal::Batch(BatchFault::Range)),
    Seen::Refused(6, Refusal::Batch(BatchFault::Range)),
    Seen::Lines(4),
    Seen::Empty,
    Seen::Ask(Addr::V4(0xc633_6407), 2),
    Seen::Refused(10, Refusal::Line(LineFault::BadByte)),
    Seen::Refused(11, Refusal::Line(LineFault::WrongCount)),
    Seen::Show,
    Seen::Lines(2),
    Seen::Commit(2),
    Seen::Show,
    Seen::End(FeedEnd::Ended),
];

/// A feed, in pieces of that size of which some reads fail, with so many turns, and what is sent of it.
struct Row {
    feed: &'static [u8],
    size: usize,
    fails: &'static [u64],
    turns: u64,
    sent: &'static [Seen],
}

const ROWS: &[Row] = &[
    Row {
        feed: EXAMPLE_FEED,
        size: 1,
        fails: &[],
        turns: 1_000_000,
        sent: SENT,
    },
    Row {
        feed: EXAMPLE_FEED,
        size: 1_000,
        fails: &[],
        turns: 1_000_000,
        sent: SENT,
    },
    Row {
        feed: b"show\nstop\nshow\n",
        size: 1,
        fails: &[],
        turns: 1_000_000,
        sent: &[Seen::Show, Seen::End(FeedEnd::Ended)],
    },
    Row {
        feed: b"show\nshow\n",
        size: 5,
        fails: &[1],
        turns: 1_000_000,
        sent: &[Seen::Show, Seen::End(FeedEnd::SourceFault)],
    },
    Row {
        feed: b"show\nshow\n",
        size: 5,
        fails: &[],
        turns: 1,
        sent: &[Seen::Show, Seen::End(FeedEnd::Spent)],
    },
    Row {
        feed: b"",
        size: 1,
        fails: &[],
        turns: 1_000_000,
        sent: &[Seen::End(FeedEnd::Ended)],
    },
];

/// Whether the next item of the queue is this one.
fn is_taken<N: Numbers, R: Wait>(
    rt: &R,
    taker: &mut Taker<N>,
    feeder: u8,
    number: u64,
    want: Seen,
) -> bool
    ensures { taker.new.queue ≡ taker.old.queue }
{
    match taker.next(rt) {
        Some(item) => {
            item.feeder == feeder && item.number == number && seen_of(&item.what) == want
        }
        None => false,
    }
}

/// Whether the next items of the queue are these, of that feeder and numbered from 0, and there is none behind them.
fn are_taken<N: Numbers, R: Wait>(rt: &R, taker: &mut Taker<N>, feeder: u8, want: &[Seen]) -> bool
    ensures { taker.new.queue ≡ taker.old.queue }
{
    let mut number = 0u64;
    for seen in want {
        if !is_taken(rt, taker, feeder, number, *seen) {
            return false;
        }
        number = number.saturating_add(1);
    }
    taker.next(rt).is_none()
}

/// The one feeder of a queue.
fn only_one<N: Numbers>(made: Vec<Feeder<N>>) -> Option<Feeder<N>>
    requires { length made.items ≡ 1 }
    ensures { IfSome result (λ f. made.items ≡ f ∷ []) }
{
    let mut made = made;
    made.pop()
}

/// Whether a feeder that runs over a row's feed sends what the row says.
fn sends<N: Numbers, R: Wait>(rt: &R, alloc: Global, topology: &Topology, row: &Row) -> bool
    requires groups { length topology.now.market.groups ≡ N.groups }
    requires nodes { length topology.now.market.nodes ≡ N.nodes }
{
    let Ok((made, taker)) = open::<N>(alloc, 1) else {
        return false;
    };
    let Some(feeder) = only_one(made) else {
        return false;
    };
    let Some(source) = feed_of(alloc, row.feed, row.size, row.fails) else {
        return false;
    };
    let (mut feeder, mut taker, mut source) = (feeder, taker, source);
    let turns = row.turns.min(1_000_000);
    feeder.run(rt, topology, &mut source, turns);
    let is = are_taken(rt, &mut taker, 0, row.sent);
    taker.take_back(feeder);
    is
}

fn all_send<R: Wait>(rt: &R, alloc: Global, topology: &Topology) -> bool {
    for row in ROWS {
        if !sends::<Brand, R>(rt, alloc, topology, row) {
            return false;
        }
    }
    true
}

#[test]
fn what_is_sent(rt: HostRuntime) -> Result<(), Fail> {
    let topology = topology_of(rt.alloc(), EXAMPLE_TREE).expect(&rt, "a topology");
    assert!(rt; all_send(&rt, rt.alloc(), &topology));
    Ok(())
}

/// Whether a feeder that gives up sends that alone.
fn gives_up<R: Wait>(rt: &R, alloc: Global) -> bool {
    let Ok((made, taker)) = open::<Brand>(alloc, 1) else {
        return false;
    };
    let Some(feeder) = only_one(made) else {
        return false;
    };
    let (mut feeder, mut taker) = (feeder, taker);
    feeder.give_up(rt);
    are_taken(rt, &mut taker, 0, &[Seen::End(FeedEnd::NoMemory)])
}

#[test]
fn want_of_memory(rt: HostRuntime) -> Result<(), Fail> {
    assert!(rt; gives_up(&rt, rt.alloc()));
    Ok(())
}

/// One that sends what comes of its feed.
trait Feeds {
    ghost ready: { Self → Type 0 };

    fn run<R: Wait>(&mut self, rt: &R)
        requires { ready self.old };
}

#[derive(Drop)]
struct Reader<'t, N: Numbers> {
    feeder: Feeder<N>,
    feed: MemSource,
    topology: &'t Topology,
}

impl<N: Numbers> Feeds for Reader<'_, N> {
    ghost use Rattle.std.specs.Prelude.{◌≡◌, [], length};

    ghost ready = { λ r. (length r.topology.now.market.groups ≡ N.groups)
        × (length r.topology.now.market.nodes ≡ N.nodes) × (r.feeder.sent ≡ []) };

    fn run<R: Wait>(&mut self, rt: &R) {
        self.feeder
            .run(rt, self.topology, &mut self.feed, 1_000_000);
    }
}

/// How many items of each feeder came, and whether each had the next number of its feeder.
#[derive(Clone, Copy, Debug, PartialEq, Eq)]
struct Came {
    counts: [u64; 4],
    in_order: bool,
}

/// One that takes what is sent.
trait Takes {
    fn take_all<R: Wait>(&mut self, rt: &R) -> Came;
}

/// Whether an item has the next number of its feeder, which is counted.
fn is_next(counts: &mut [u64; 4], item: &Item) -> bool {
    match counts.get_mut(usize::from(item.feeder)) {
        Some(count) => {
            let is = *count == item.number;
            *count = count.saturating_add(1);
            is
        }
        None => false,
    }
}

impl<N: Numbers> Takes for Taker<N> {
    fn take_all<R: Wait>(&mut self, rt: &R) -> Came {
        let mut counts = [0u64; 4];
        let mut in_order = true;
        let mut ended = 0u8;
        for _ in rt.forever() {
            if ended == self.feeders() {
                return Came { counts, in_order };
            }
            match self.next(rt) {
                None => self.wait(rt),
                Some(item) => {
                    in_order = is_next(&mut counts, &item) && in_order;
                    if matches!(item.what, What::End(_)) {
                        ended = ended.saturating_add(1);
                    }
                }
            }
        }
        unreachable!()
    }
}

/// Runs one that sends in a thread of its own, and takes what is sent in this one.
fn run_one<F: Feeds + Send, T: Takes, R: Wait + Threads + Sync>(
    rt: &R,
    feeder: &mut F,
    taker: &mut T,
) -> Came
    requires { F.ready feeder.old }
{
    let mut sending = ||
        requires { IsSync R.row × IsSend F.row × F.ready feeder.now }
    { feeder.run(rt) };
    let mut taking = || -> Came
        requires { IsSync R.row }
    { taker.take_all(rt) };
    let ((), came) = join_mut(rt, &mut sending, &mut taking);
    came
}

/// Runs two that send in threads of their own, and takes what is sent in this one.
fn run_two<F: Feeds + Send, T: Takes, R: Wait + Threads + Sync>(
    rt: &R,
    first: &mut F,
    second: &mut F,
    taker: &mut T,
) -> Came
    requires { F.ready first.old × F.ready second.old }
{
    let mut sending = ||
        requires { IsSync R.row × IsSend F.row × F.ready first.now }
    { first.run(rt) };
    let mut others = || -> Came
        requires { IsSync R.row × IsSend F.row × F.ready second.now }
    { run_one(rt, second, taker) };
    let ((), came) = join_mut(rt, &mut sending, &mut others);
    came
}

/// So many lines that ask for totals.
fn shows(alloc: Global, lines: usize) -> Option<MemSource> {
    let mut text = Vec::with_capacity(alloc, 1_000_000).ok()?;
    for _ in 0..lines {
        text.extend_from_slice(b"show\n").ok()?;
    }
    feed_of(alloc, text.as_slice(), 1_000, &[])
}

/// Both feeders of a queue.
fn both<N: Numbers>(made: Vec<Feeder<N>>) -> Option<(Feeder<N>, Feeder<N>)>
    requires { length made.items ≡ 2 }
    ensures { IfSome result (λ r. made.items ≡ r.0 ∷ r.1 ∷ []) }
{
    let mut made = made;
    let second = made.pop()?;
    let first = made.pop()?;
    Some((first, second))
}

/// What comes of two feeds of so many lines each, whose feeders run at once.
#[tactic(auto, using(crate::proofs::Two::first_fresh, crate::proofs::Two::second_fresh))]
fn both_feed<N: Numbers + Send + Sync, R: Wait + Threads + Sync>(
    rt: &R,
    alloc: Global,
    topology: &Topology,
    lines: [usize; 2],
) -> Option<Came>
    requires groups { length topology.now.market.groups ≡ N.groups }
    requires nodes { length topology.now.market.nodes ≡ N.nodes }
{
    let Ok((made, taker)) = open::<N>(alloc, 2) else {
        return None;
    };
    let Some((first, second)) = both(made) else {
        return None;
    };
    let mut first = Reader {
        feeder: first,
        feed: shows(alloc, lines[0])?,
        topology,
    };
    let mut second = Reader {
        feeder: second,
        feed: shows(alloc, lines[1])?,
        topology,
    };
    let mut taker = taker;
    Some(run_two(rt, &mut first, &mut second, &mut taker))
}

/// The same, of a topology that is read.
fn feeds_at_once<R: Wait + Threads + Sync>(
    rt: &R,
    alloc: Global,
    topology: &Topology,
    lines: [usize; 2],
) -> Option<Came> {
    both_feed::<Brand, R>(rt, alloc, topology, lines)
}

/// Each line of two feeds comes once and in the order of its feed, though the queue has 64 places, and then each end.
#[test]
fn two_at_once(rt: HostRuntime) -> Result<(), Fail> {
    let topology = topology_of(rt.alloc(), EXAMPLE_TREE).expect(&rt, "a topology");
    let came = feeds_at_once(&rt, rt.alloc(), &topology, [30_000, 20_000]);
    let want = Came {
        counts: [30_001, 20_001, 0, 0],
        in_order: true,
    };
    assert!(rt; came == Some(want));
    Ok(())
}
