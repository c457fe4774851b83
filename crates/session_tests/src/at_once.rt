//! Two lanes that run beside the feed: each side waits until the other has come to a stated point.
ghost use Rattle.std.specs.Prelude.{◌≡◌, IfOk, vec_len};
ghost use Rattle.map_cell.specs.declared.opening.TheConstants.{MOST_VIEWERS};

use glb::{Lane, Status, StreamLane};
use map_cell::{MOST_VIEWERS, PlainDoor};
use no_memory::NoMemory;
use outside::{
    HeldLane, HoldGate, HoldPace, MemPort, MemStreams, MemTaken, MemTry, Milestones, Point, Wanted,
};
use std::alloc::Global;
use std::collections::LinkedList;
use std::sync::Wait;
use std::test::Fail;
use std::thread::Threads;
use trial_runs::{AllLent, PLAIN, SERVE_TWO, Setting, devices_of, lent_of, queries, run};

/// What waits at a lane, and what is waited for at its turns.
#[derive(Clone, Copy)]
struct Held {
    lane: HeldLane,
    queries: u8,
    points: &'static [Point],
}

/// The first lane's second query is held until serial 1 is published, and its third one until the feed has ended.
const FIRST_LANE: Held = Held {
    lane: HeldLane::First,
    queries: 3,
    points: &[
        Point {
            at: 1,
            wanted: Wanted::Newest(1),
        },
        Point {
            at: 2,
            wanted: Wanted::Done,
        },
    ],
};

/// The second lane's query is held until serial 1 is published.
const SECOND_LANE: Held = Held {
    lane: HeldLane::Second,
    queries: 1,
    points: &[Point {
        at: 0,
        wanted: Wanted::Newest(1),
    }],
};

/// The first commit is held until the first lane has answered once, and the second one until it has answered twice and the second lane once.
const COMMITS: &[Point] = &[
    Point {
        at: 0,
        wanted: Wanted::Turns(HeldLane::First, 2),
    },
    Point {
        at: 1,
        wanted: Wanted::Turns(HeldLane::First, 3),
    },
    Point {
        at: 1,
        wanted: Wanted::Turns(HeldLane::Second, 2),
    },
];

/// A lane that is not served.
const IDLE: Held = Held {
    lane: HeldLane::Second,
    queries: 0,
    points: &[],
};

/// A session of two workers.
const TWO_WORKERS: Setting = Setting {
    words: SERVE_TWO,
    ..PLAIN
};

const FEED: &[u8] = b"demand g2 4\ncommit\ndemand g2 5\ncommit\nstop\n";

type HoldLane<'a> = Lane<MemPort, HoldGate<'a>, PlainDoor>;

type HoldStream<'a> = StreamLane<MemStreams, HoldGate<'a>, PlainDoor>;

/// A port at which so many queries wait.
fn port_of(alloc: Global, count: u8) -> Result<MemPort, NoMemory> {
    let waiting = queries(alloc, count)?;
    MemPort::new(
        alloc,
        waiting,
        Vec::new(alloc),
        Vec::new(alloc),
        Vec::new(alloc),
    )
}

/// A lane's gate, which waits for these points.
fn gate_of<'a>(
    alloc: Global,
    milestones: &'a Milestones,
    lane: HeldLane,
    points: &[Point],
) -> Result<HoldGate<'a>, NoMemory> {
    let points = Vec::from_slice(alloc, points)?;
    HoldGate::new(alloc, milestones, lane, points, 8)
}

fn held_lane(alloc: Global, milestones: &Milestones, held: Held) -> Result<HoldLane<'_>, NoMemory> {
    let port = port_of(alloc, held.queries)?;
    let gate = gate_of(alloc, milestones, held.lane, held.points)?;
    Ok(Lane::new(port, gate, PlainDoor::new()))
}

fn held_lanes<'a>(
    alloc: Global,
    milestones: &'a Milestones,
    first: &[Held],
) -> Result<Vec<HoldLane<'a>>, NoMemory>
    ensures { IfOk result (λ v. vec_len v ≡ MOST_VIEWERS) }
{
    let mut lanes = Vec::with_capacity(alloc, MOST_VIEWERS)?;
    for i in 0..MOST_VIEWERS {
        let held = first.get(i).copied().unwrap_or(IDLE);
        lanes.push(held_lane(alloc, milestones, held)?)?;
    }
    Ok(lanes)
}

/// Whether these serials were known, one at each datagram.
fn are_known(taken: &[MemTaken], serials: &[u64]) -> bool {
    taken.iter().map(|t| t.known).eq(serials.iter().copied())
}

/// Whether the replies are of these serials.
fn are_tried(tries: &[MemTry], serials: &[u64]) -> bool {
    tries.iter().map(|t| t.serial).eq(serials.iter().copied())
}

/// What is lent to a run of two lanes and a feed that hold each other.
type HeldLent<'a> = AllLent<MemPort, MemStreams, HoldGate<'a>, PlainDoor, HoldPace<'a>>;

/// Streams on which there is no conversation.
fn no_streams(alloc: Global) -> Result<MemStreams, NoMemory> {
    MemStreams::new(
        alloc,
        LinkedList::new(alloc),
        Vec::new(alloc),
        Vec::new(alloc),
        Vec::new(alloc),
    )
}

/// A lane for conversations, of which there are none.
fn no_stream(alloc: Global, milestones: &Milestones) -> Result<HoldStream<'_>, NoMemory> {
    let streams = no_streams(alloc)?;
    let gate = gate_of(alloc, milestones, HeldLane::Second, &[])?;
    Ok(StreamLane::new(streams, gate, PlainDoor::new()))
}

fn pace_of(alloc: Global, milestones: &Milestones) -> Result<HoldPace<'_>, NoMemory> {
    let points = Vec::from_slice(alloc, COMMITS)?;
    HoldPace::new(alloc, milestones, points, 8)
}

/// A session of two workers over these lanes, with this pace.
fn lent_over<'a>(
    alloc: Global,
    lanes: Vec<HoldLane<'a>>,
    stream: HoldStream<'a>,
    pace: HoldPace<'a>,
) -> Result<HeldLent<'a>, NoMemory>
    requires { vec_len lanes ≡ MOST_VIEWERS }
    ensures { IfOk result (λ l. (vec_len l.lanes ≡ MOST_VIEWERS) × (vec_len l.more ≡ 3)) }
{
    let devices = devices_of(alloc, TWO_WORKERS, FEED)?;
    Ok(lent_of(devices, lanes, stream, pace))
}

/// A feed and two lanes that hold each other by these milestones.
fn held_lent(alloc: Global, milestones: &Milestones) -> Result<HeldLent<'_>, NoMemory>
    ensures { IfOk result (λ l. (vec_len l.lanes ≡ MOST_VIEWERS) × (vec_len l.more ≡ 3)) }
{
    let lanes = held_lanes(alloc, milestones, &[FIRST_LANE, SECOND_LANE])?;
    let stream = no_stream(alloc, milestones)?;
    let pace = pace_of(alloc, milestones)?;
    lent_over(alloc, lanes, stream, pace)
}

/// Whether a lane knew these serials, one at each datagram, and replied by them.
fn serves(lane: &HoldLane<'_>, serials: &[u64]) -> bool {
    are_known(lane.port.taken(), serials) && are_tried(lane.port.tries(), serials)
}

/// Whether the first two lanes served these serials.
fn serve_both(lanes: &[HoldLane<'_>], first: &[u64], second: &[u64]) -> bool {
    match lanes {
        [one, two, ..] => { serves(one, first) && serves(two, second) }
        _ => false,
    }
}

#[test]
fn lanes_run_at_once(rt: HostRuntime) -> Result<(), Fail> {
    let milestones = Milestones::new();
    let mut lent = held_lent(rt.alloc(), &milestones)?;
    let status = run(&rt, rt.alloc(), &mut lent, 100);
    assert!(rt; status == Status::Ok && !milestones.is_late());
    assert!(rt; lent.out.bytes() == b"published 1\npublished 2\n".as_slice());
    assert!(rt; serve_both(lent.lanes.as_slice(), &[0, 1, 2], &[1]));
    Ok(())
}
