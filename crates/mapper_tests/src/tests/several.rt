//! Two feeds over a mapper: their merged control text, and how they end.
ghost use Rattle.std.specs.Prelude.{◌≡◌, ◌<◌, ◌^◌, [], ◌∷◌, length, IfSome};

use super::{SECOND_MAP, SESSION, opened, row_of, sink_of, source_of, tells_of};
use demand_feed::FeedEnd;
use feed_queue::{Feeder, Numbers, Taker, open};
use map_cell::{EmptyHistory, Naming};
use mapper::{Mapper, Outputs};
use no_memory::NoMemory;
use outside::{MemPace, MemSource, PaceCall};
use std::alloc::Global;
use std::marker::Brand;
use std::sync::{Arc, Wait};
use std::test::Fail;
use topology_text::Topology;

/// Two feeds over a mapper of the example, of which the first or the second one is read first, and what comes of them.
#[derive(Drop)]
struct Row {
    feeds: [&'static str; 2],
    second_first: bool,
    /// How many turns each feed has.
    turns: u64,
    /// The reads of the second feed and the puts that fail, by their numbers from 0.
    reads_fail: &'static [u64],
    out_fails: &'static [u64],
    end: FeedEnd,
    out: &'static str,
    /// The last map.
    map: &'static str,
    /// The calls of the pace, and how many notes went into the row behind that of the first map.
    calls: &'static [PaceCall],
    notes: usize,
}

const FIRST: &str = "demand g1 7\ncommit\n";

const SECOND: &str = "demand g2 4\ncommit\n";

/// The map of the topology as it is read.
const START: &str =
    "glb map 2\nplace g1 A 8\nplace g2 A 2\nplace g2 B 5\nfull g2 A A\nfull g2 B R\nend\n";

/// The map of both feeds.
const BOTH: &str = "glb map 2\nplace g1 A 7\nplace g2 A 3\nplace g2 B 1\nfull g2 A A\nend\n";

/// The map of the first one alone.
const ONE: &str = "glb map 2\nplace g1 A 7\nplace g2 A 3\nplace g2 B 5\nfull g2 A A\nend\n";

/// Both feeds publish, the first one first.
const PLAIN: Row = Row {
    feeds: [FIRST, SECOND],
    second_first: false,
    turns: 1_000,
    reads_fail: &[],
    out_fails: &[],
    end: FeedEnd::Ended,
    out: "1 published 1\n2 published 2\n",
    map: BOTH,
    calls: &[PaceCall::Before(0), PaceCall::Before(1), PaceCall::Done(2)],
    notes: 2,
};

/// The first feed alone publishes, and the second one is read first.
const ALONE: Row = Row {
    second_first: true,
    map: ONE,
    calls: &[PaceCall::Before(0), PaceCall::Before(0), PaceCall::Done(1)],
    notes: 1,
    ..PLAIN
};

/// Either order of two commits; a second feed that fails, that is read for one turn alone, that stops, that spoils its own
/// batch and not the first one's, that asks, and whose commits are empty; and puts that fail.
const ROWS: [Row; 9] = [
    PLAIN,
    Row {
        second_first: true,
        out: "2 published 1\n1 published 2\n",
        ..PLAIN
    },
    Row {
        second_first: false,
        reads_fail: &[0],
        end: FeedEnd::SourceFault,
        out: "1 published 1\n",
        calls: &[PaceCall::Before(0), PaceCall::Done(1)],
        ..ALONE
    },
    Row {
        turns: 1,
        end: FeedEnd::Spent,
        ..PLAIN
    },
    Row {
        feeds: [FIRST, "stop\ndemand g2 4\ncommit\n"],
        out: "1 published 1\n",
        calls: &[PaceCall::Before(0), PaceCall::Done(1)],
        ..ALONE
    },
    Row {
        feeds: [FIRST, "demand nobody 3\ndemand g1 5\ncommit\n"],
        out: "2 refused 1 unknown name\n2 refused commit lines 1\n1 published 1\n",
        ..ALONE
    },
    Row {
        feeds: [SESSION, "show\nask 198.51.100.7 1234\n"],
        out: "1 published 1
1 answer 1 123485000001000100000000037777770363646e076578616d706c650000010001c00c00010001000000140004c0000201
1 show 1 placed 12 unplaced 0 full 1
1 published 1
2 show 1 placed 12 unplaced 0 full 1
2 answer 1 -
",
        map: SECOND_MAP,
        calls: &[PaceCall::Before(0), PaceCall::Before(1), PaceCall::Done(1)],
        notes: 1,
        ..PLAIN
    },
    Row {
        feeds: [FIRST, "commit\nshow"],
        out: "2 published 0\n2 show 0 placed 15 unplaced 1 full 2\n1 published 1\n",
        ..ALONE
    },
    Row {
        feeds: [FIRST, "show\ndemand g2 4\ncommit\n"],
        out_fails: &[0],
        end: FeedEnd::SinkFault,
        out: "",
        map: START,
        calls: &[PaceCall::Done(0)],
        notes: 0,
        ..ALONE
    },
];

/// Runs a feeder over a feed, with no word on what it sends.
fn feed_by<N: Numbers, R: Wait>(
    rt: &R,
    feeder: Feeder<N>,
    topology: &Topology,
    feed: &mut MemSource,
    turns: u64,
)
    requires groups { length topology.now.market.groups ≡ N.groups }
    requires nodes { length topology.now.market.nodes ≡ N.nodes }
    requires unused { feeder.sent ≡ [] }
{
    let mut feeder = feeder;
    feeder.run(rt, topology, feed, turns.min(1_000_000));
}

/// Both feeders of a queue.
fn both<N: Numbers>(made: Vec<Feeder<N>>) -> Option<(Feeder<N>, Feeder<N>)>
    requires { length made.items ≡ 2 }
    ensures { IfSome result (λ r. made.items ≡ r.0 ∷ r.1 ∷ []) }
{
    let mut made = made;
    let second = made.pop()?;
    let first = made.pop()?;
    Some((first, second))
}

/// The queue of a row, into which both feeders have sent all.
#[tactic(auto, using(crate::proofs::Two::first_fresh, crate::proofs::Two::second_fresh))]
fn sent<N: Numbers, R: Wait>(
    rt: &R,
    topology: &Topology,
    feeds: (MemSource, MemSource),
    alloc: Global,
    row: &Row,
) -> Option<Taker<N>>
    requires groups { length topology.now.market.groups ≡ N.groups }
    requires nodes { length topology.now.market.nodes ≡ N.nodes }
    ensures { IfSome result (λ t. t.taken ≡ []) }
{
    let Ok((made, taker)) = open::<N>(alloc, 2) else {
        return None;
    };
    let Some((first, second)) = both(made) else {
        return None;
    };
    let (mut one, mut two) = feeds;
    if row.second_first {
        feed_by(rt, second, topology, &mut two, row.turns);
        feed_by(rt, first, topology, &mut one, row.turns);
    } else {
        feed_by(rt, first, topology, &mut one, row.turns);
        feed_by(rt, second, topology, &mut two, row.turns);
    }
    Some(taker)
}

/// Both feeds of a row.
fn sources(alloc: Global, row: &Row) -> Result<(MemSource, MemSource), NoMemory> {
    let first = source_of(alloc, row.feeds[0].as_bytes(), 1_000)?;
    let bytes = Vec::from_slice(alloc, row.feeds[1].as_bytes())?;
    let fails = Vec::from_slice(alloc, row.reads_fail)?;
    let second = MemSource::new(alloc, bytes, Vec::new(alloc), fails)?;
    Ok((first, second))
}

/// Whether a taker's items do to a mapper what a row says.
fn works<J: Naming, N: Numbers, R: Wait>(
    rt: &R,
    alloc: Global,
    mapper: &mut Mapper<J>,
    taker: &mut Taker<N>,
    row: &Row,
) -> bool
    requires serial { mapper.old.newest.serial < 2 ^ 63 }
    requires groups { length mapper.old.newest.plan.market.groups ≡ N.groups }
    requires nodes { length mapper.old.newest.plan.market.nodes ≡ N.nodes }
    requires unused { taker.old.taken ≡ [] }
{
    let (Ok(out), Ok(maps), Ok(pace), Ok(notes)) = (
        sink_of(alloc, row.out_fails),
        sink_of(alloc, &[]),
        MemPace::new(alloc, 64),
        row_of(rt, alloc, mapper),
    ) else {
        return false;
    };
    let (mut out, mut maps, mut pace) = (out, maps, pace);
    let (notes, told) = notes;
    let mut to = Outputs {
        out: &mut out,
        maps: &mut maps,
        pace: &mut pace,
        told,
    };
    let end = mapper.run_feeds(rt, taker, &mut to, &notes);
    let told = to.told;
    end == row.end
        && out.bytes() == row.out.as_bytes()
        && mapper.text() == row.map.as_bytes()
        && pace.calls() == row.calls
        && tells_of(&notes, told, row.notes)
}

/// Whether two feeds do to a mapper what a row says.
fn feed_both<J: Naming, N: Numbers, R: Wait>(
    rt: &R,
    alloc: Global,
    mapper: &mut Mapper<J>,
    row: &Row,
) -> bool
    requires serial { mapper.old.newest.serial < 2 ^ 63 }
    requires groups { length mapper.old.newest.plan.market.groups ≡ N.groups }
    requires nodes { length mapper.old.newest.plan.market.nodes ≡ N.nodes }
{
    let Ok(topology) = Arc::try_clone(mapper.topology()) else {
        return false;
    };
    let Ok(feeds) = sources(alloc, row) else {
        return false;
    };
    match sent::<N, R>(rt, &topology, feeds, alloc, row) {
        None => false,
        Some(taker) => {
            let mut taker = taker;
            works(rt, alloc, mapper, &mut taker, row)
        }
    }
}

/// The same, with the numbers of the mapper's topology.
fn feeds_of<J: Naming, R: Wait>(rt: &R, alloc: Global, mapper: &mut Mapper<J>, row: &Row) -> bool
    requires { mapper.old.newest.serial < 2 ^ 63 }
{
    feed_both::<J, Brand, R>(rt, alloc, mapper, row)
}

/// The same, of a mapper of the example.
fn runs_on<J: Naming, R: Wait>(rt: &R, alloc: Global, history: EmptyHistory, row: &Row) -> bool
    requires { history ≡ J.book }
{
    match opened::<J, R>(rt, alloc, history) {
        None => false,
        Some(mapper) => {
            let mut mapper = mapper;
            let is = feeds_of(rt, alloc, &mut mapper, row);
            mapper.close(rt);
            is
        }
    }
}

/// The same, of a cell of its own.
fn runs<R: Wait>(rt: &R, alloc: Global, row: &Row) -> bool {
    runs_on::<Brand, R>(rt, alloc, EmptyHistory::new(), row)
}

/// The place of the first row that is not so.
fn first_wrong<R: Wait>(rt: &R, alloc: Global, rows: &[Row]) -> Option<usize> {
    for place in 0..rows.len() {
        if !runs(rt, alloc, &rows[place]) {
            return Some(place);
        }
    }
    None
}

#[test]
fn two_feeds(rt: HostRuntime) -> Result<(), Fail> {
    assert_eq!(rt; first_wrong(&rt, rt.alloc(), &ROWS), None);
    Ok(())
}
