//! Drives over the example, with outputs in memory.
ghost use Rattle.std.specs.Prelude.{◌≡◌, ◌≤◌, length};

use addr_text::{Addr, Peer};
use demand_feed::FeedEnd;
use drive::{Crew, DriveEnd, Lane, Lent, StreamLane, drive};
use lane_model::Ended;
use map_cell::{Door, EmptyHistory, MemDoor, Naming, PlainDoor};
use map_model::{Proposals, Steps};
use mapper::Mapper;
use outside::{
    Gate, MemGate, MemPace, MemPacket, MemPort, MemSink, MemSource, MemStreams, Pace, Port,
};
use std::alloc::Global;
use std::collections::LinkedList;
use std::marker::Brand;
use std::sync::Wait;
use std::test::Fail;
use std::thread::Threads;
use topology_text::{Topology, read_topology};
use worlds::EXAMPLE_TREE;

mod turns;

/// A client of the second group.
const CLIENT: Peer = Peer {
    addr: Addr::V4(0xc633_6407),
    port: 5353,
};

/// A query of type A for www.cdn.example.
const QUERY: &[u8] = &[
    0x12, 0x34, 1, 0, 0, 1, 0, 0, 0, 0, 0, 0, 3, b'w', b'w', b'w', 3, b'c', b'd', b'n', 7, b'e',
    b'x', b'a', b'm', b'p', b'l', b'e', 0, 0, 1, 0, 1,
];

/// The lines of a feed, and what is said of them.
#[derive(Clone, Copy)]
struct Script {
    lines: &'static [u8],
    said: &'static [u8],
}

/// A feed of one batch.
const ONE_BATCH: Script = Script {
    lines: b"demand g2 4\ncommit\nstop\n",
    said: b"published 1\n",
};

/// A feed of two batches.
const TWO_BATCHES: Script = Script {
    lines: b"demand g2 4\ncommit\ndemand g2 5\ncommit\nstop\n",
    said: b"published 1\npublished 2\n",
};

/// The query, as it comes in.
fn packet(alloc: Global) -> Option<MemPacket> {
    match Vec::from_slice(alloc, QUERY) {
        Err(_) => None,
        Ok(octets) => Some(MemPacket {
            octets,
            from: CLIENT,
        }),
    }
}

/// So many queries.
fn queries_of(alloc: Global, queries: u8) -> Option<LinkedList<MemPacket>> {
    let mut waiting = LinkedList::new(alloc);
    for _ in 0..queries {
        waiting.push_back(packet(alloc)?).ok()?;
    }
    Some(waiting)
}

/// A port at which these wait.
fn port_with(alloc: Global, waiting: LinkedList<MemPacket>) -> Option<MemPort> {
    let none = Vec::new(alloc);
    MemPort::new(alloc, waiting, none, Vec::new(alloc), Vec::new(alloc)).ok()
}

/// A port at which so many queries wait.
fn port_of(alloc: Global, queries: u8) -> Option<MemPort> {
    match queries_of(alloc, queries) {
        None => None,
        Some(waiting) => port_with(alloc, waiting),
    }
}

/// A door that refuses these looks.
fn door_of(alloc: Global, refused: &[u64]) -> Option<MemDoor> {
    match Vec::from_slice(alloc, refused) {
        Err(_) => None,
        Ok(refused) => Some(MemDoor::new(Vec::new(alloc), refused)),
    }
}

/// A lane of so many queries, whose door refuses these looks.
fn lane_of(alloc: Global, queries: u8, refused: &[u64]) -> Option<Lane<MemPort, MemGate, MemDoor>> {
    let port = port_of(alloc, queries)?;
    let door = door_of(alloc, refused)?;
    match MemGate::new(alloc, 100) {
        Err(_) => None,
        Ok(gate) => Some(Lane::new(port, gate, door)),
    }
}

/// Streams at which no conversation waits.
fn no_talks(alloc: Global) -> Option<MemStreams> {
    let none = LinkedList::new(alloc);
    MemStreams::new(
        alloc,
        none,
        Vec::new(alloc),
        Vec::new(alloc),
        Vec::new(alloc),
    )
    .ok()
}

/// A lane for conversations, of which there are none.
fn no_stream(alloc: Global) -> Option<StreamLane<MemStreams, MemGate, MemDoor>> {
    let streams = no_talks(alloc)?;
    let door = door_of(alloc, &[])?;
    match MemGate::new(alloc, 1) {
        Err(_) => None,
        Ok(gate) => Some(StreamLane::new(streams, gate, door)),
    }
}

/// A feed, and both outputs.
#[derive(Drop)]
struct Ends {
    feed: MemSource,
    out: MemSink,
    maps: MemSink,
}

/// A feed of these lines.
fn feed_of(alloc: Global, lines: &[u8]) -> Option<MemSource> {
    match Vec::from_slice(alloc, lines) {
        Err(_) => None,
        Ok(bytes) => MemSource::new(alloc, bytes, Vec::new(alloc), Vec::new(alloc)).ok(),
    }
}

/// An empty output.
fn sink_of(alloc: Global) -> Option<MemSink> {
    MemSink::new(alloc, 1_000, Vec::new(alloc)).ok()
}

/// A feed of these lines, and empty outputs.
fn ends_of(alloc: Global, lines: &[u8]) -> Option<Ends> {
    let feed = feed_of(alloc, lines)?;
    let out = sink_of(alloc)?;
    match sink_of(alloc) {
        None => None,
        Some(maps) => Some(Ends { feed, out, maps }),
    }
}

/// What is driven: lanes, of which so many have viewers, the lane for conversations, and the pace.
#[derive(Drop)]
struct Driven<'l, 's, 'p, P: Port, G: Gate, D: Door, M> {
    viewers: u8,
    lanes: &'l mut [Lane<P, G, D>],
    stream: &'s mut StreamLane<MemStreams, G, D>,
    pace: &'p mut M,
}

/// Drives a topology with these lanes: how it ended.
fn drive_over<
    J: Naming + Send + Sync,
    P: Port + Send,
    G: Gate + Send,
    D: Door + Send,
    M: Pace,
    R: Threads + Wait + Sync,
>(
    rt: &R,
    alloc: Global,
    history: EmptyHistory,
    topology: Topology,
    ends: &mut Ends,
    driven: &mut Driven<'_, '_, '_, P, G, D, M>,
) -> Option<DriveEnd>
    requires book { history ≡ J.book }
    requires few { (driven.old.viewers ≤ 16) × (driven.old.viewers ≤ length driven.old.lanes.now) }
{
    let viewers = driven.viewers;
    let mut door = PlainDoor::new();
    let mut steps = Steps::<Proposals>::new();
    match Mapper::<J>::open(rt, alloc, history, topology, viewers, &mut door, &mut steps) {
        Err(_) => None,
        Ok((mapper, seats)) => {
            let Ends { feed, out, maps } = ends;
            let mut none: [MemSource; 0] = [];
            let lanes = &mut *driven.lanes;
            let count = lanes.len();
            let (all, _behind) = lanes.split_at_mut(count);
            let crew = Crew {
                mapper,
                viewers: seats,
                listener: None,
            };
            let mut lent = Lent {
                feed,
                more: &mut none,
                out,
                maps,
                lanes: all,
                pace: driven.pace,
                turns: 100,
            };
            drive(rt, alloc, crew, &mut lent, driven.stream).ok()
        }
    }
}

/// Drives a topology with these lanes over a feed: how it ended, unless something else was said.
fn drive_lines<P: Port + Send, G: Gate + Send, D: Door + Send, M: Pace, R: Threads + Wait + Sync>(
    rt: &R,
    alloc: Global,
    topology: Topology,
    script: Script,
    driven: &mut Driven<'_, '_, '_, P, G, D, M>,
) -> Option<DriveEnd>
    requires few { (driven.old.viewers ≤ 16) × (driven.old.viewers ≤ length driven.old.lanes.now) }
{
    match ends_of(alloc, script.lines) {
        None => None,
        Some(ends) => {
            let mut ends = ends;
            let history = EmptyHistory::new();
            let ended = drive_over::<Brand, P, G, D, M, R>(
                rt, alloc, history, topology, &mut ends, driven,
            );
            if ends.out.bytes() == script.said {
                ended
            } else {
                None
            }
        }
    }
}

/// The same of the example.
fn drive_example<P: Port + Send, G: Gate + Send, D: Door + Send, M: Pace, R: Threads + Wait + Sync>(
    rt: &R,
    alloc: Global,
    script: Script,
    driven: &mut Driven<'_, '_, '_, P, G, D, M>,
) -> Option<DriveEnd>
    requires few { (driven.old.viewers ≤ 16) × (driven.old.viewers ≤ length driven.old.lanes.now) }
{
    match read_topology(alloc, EXAMPLE_TREE.as_bytes()) {
        Err(_) => None,
        Ok(topology) => drive_lines(rt, alloc, topology, script, driven),
    }
}

/// The ends of so many lanes, from the first on, which ended so.
fn lanes_by(ended: Ended, count: usize) -> [Option<Ended>; 16] {
    let mut lanes = [None; 16];
    for (place, lane) in lanes.iter_mut().enumerate() {
        if place < count {
            *lane = Some(ended);
        }
    }
    lanes
}

/// Whether a drive ended so, whose feed was read to its end: so many of its lanes, from the first on, and the others had no
/// worker; and its row of notes told of so many maps.
fn ends_so(end: DriveEnd, ended: Ended, count: usize, maps: u64) -> bool {
    end.feed == FeedEnd::Ended
        && end.lanes == lanes_by(ended, count)
        && end.stream.is_none()
        && matches!(end.told, Some(told) if told.count() == maps)
}

/// How one lane ended, and how many datagrams it took and answered.
fn drive_one<R: Threads + Wait + Sync>(
    rt: &R,
    alloc: Global,
    lane: Lane<MemPort, MemGate, MemDoor>,
    pace: MemPace,
) -> Option<(DriveEnd, usize, usize)> {
    let mut lanes = [lane];
    let mut stream = no_stream(alloc)?;
    let mut pace = pace;
    let mut driven = Driven {
        viewers: 1,
        lanes: &mut lanes,
        stream: &mut stream,
        pace: &mut pace,
    };
    match drive_example::<MemPort, MemGate, MemDoor, MemPace, R>(
        rt,
        alloc,
        ONE_BATCH,
        &mut driven,
    ) {
        None => None,
        Some(ended) => {
            let lane = &lanes[0];
            let port = &lane.port;
            Some((ended, port.taken().len(), port.tries().len()))
        }
    }
}

/// The same of so many queries and a door that refuses these looks.
fn one_lane<R: Threads + Wait + Sync>(
    rt: &R,
    alloc: Global,
    queries: u8,
    refused: &[u64],
) -> Option<(DriveEnd, usize, usize)> {
    let lane = lane_of(alloc, queries, refused)?;
    match MemPace::new(alloc, 10) {
        Err(_) => None,
        Ok(pace) => drive_one(rt, alloc, lane, pace),
    }
}

/// The queries that wait at one lane, the looks that its door refuses, how it ended, and how many datagrams it took and answered.
type Closing = (u8, &'static [u64], Ended, usize, usize);

const CLOSINGS: [Closing; 4] = [
    (3, &[], Ended::PortEnd, 3, 3),
    (3, &[1], Ended::CellFault, 2, 1),
    (3, &[3], Ended::CellFault, 3, 3),
    (0, &[0], Ended::CellFault, 0, 0),
];

/// Whether each lane ends so.
fn all_close<R: Threads + Wait + Sync>(rt: &R, alloc: Global, rows: &[Closing]) -> bool {
    for &(queries, refused, ended, taken, tried) in rows {
        let Some((end, took, answered)) = one_lane(rt, alloc, queries, refused) else {
            return false;
        };
        if !ends_so(end, ended, 1, 2) || took != taken || answered != tried {
            return false;
        }
    }
    true
}

/// The closing look comes behind all others.
#[test]
fn closing_looks(rt: HostRuntime) -> Result<(), Fail> {
    assert!(rt; all_close(&rt, rt.alloc(), &CLOSINGS));
    Ok(())
}

/// Sixteen lanes of one query each.
fn sixteen_lanes(alloc: Global) -> Option<Vec<Lane<MemPort, MemGate, MemDoor>>> {
    let mut lanes = Vec::new(alloc);
    for _ in 0..16u8 {
        lanes.push(lane_of(alloc, 1, &[])?).ok()?;
    }
    Some(lanes)
}

/// How many lanes took one query.
fn taken_by(lanes: &[Lane<MemPort, MemGate, MemDoor>]) -> usize {
    lanes
        .iter()
        .filter(|lane| {
            let lane: &Lane<MemPort, MemGate, MemDoor> = lane;
            lane.port.taken().len() == 1
        })
        .count()
}

/// Lanes of which so many have viewers: how they ended, and how many of them took a query.
fn drive_some<R: Threads + Wait + Sync>(
    rt: &R,
    alloc: Global,
    count: u8,
    lanes: &mut [Lane<MemPort, MemGate, MemDoor>],
    pace: MemPace,
) -> Option<(DriveEnd, usize)>
    requires { count ≤ 16 }
{
    let mut stream = no_stream(alloc)?;
    let mut pace = pace;
    if lanes.len() != 16 {
        return None;
    }
    let mut driven = Driven {
        viewers: count,
        lanes: &mut *lanes,
        stream: &mut stream,
        pace: &mut pace,
    };
    match drive_example::<MemPort, MemGate, MemDoor, MemPace, R>(
        rt,
        alloc,
        TWO_BATCHES,
        &mut driven,
    ) {
        None => None,
        Some(ended) => Some((ended, taken_by(lanes))),
    }
}

/// The same of sixteen lanes.
fn some_lanes<R: Threads + Wait + Sync>(
    rt: &R,
    alloc: Global,
    count: u8,
) -> Option<(DriveEnd, usize)>
    requires { count ≤ 16 }
{
    let mut lanes = sixteen_lanes(alloc)?;
    match MemPace::new(alloc, 10) {
        Err(_) => None,
        Ok(pace) => drive_some(rt, alloc, count, lanes.as_mut_slice(), pace),
    }
}

/// Whether of sixteen lanes so many with viewers take their queries, and the others none.
fn take_theirs<R: Threads + Wait + Sync>(rt: &R, alloc: Global, count: u8) -> bool
    requires { count ≤ 16 }
{
    let taken = count as usize;
    match some_lanes(rt, alloc, count) {
        None => false,
        Some((end, took)) => ends_so(end, Ended::PortEnd, taken, 3) && took == taken,
    }
}

/// Those with viewers take their queries, and the others none.
#[test]
fn lanes_with_viewers(rt: HostRuntime) -> Result<(), Fail> {
    assert!(rt; take_theirs(&rt, rt.alloc(), 0));
    assert!(rt; take_theirs(&rt, rt.alloc(), 1));
    assert!(rt; take_theirs(&rt, rt.alloc(), 2));
    assert!(rt; take_theirs(&rt, rt.alloc(), 16));
    Ok(())
}
