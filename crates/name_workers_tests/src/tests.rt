//! Lanes over the example, with ports, gates and notes in memory.
ghost use Rattle.std.specs.Prelude.{◌≡◌};

use addr_text::{Addr, Peer};
use lane_model::Ended;
use map_cell::{EmptyHistory, Naming, Note, PlainDoor, Viewer, open};
use name_workers::{Worker, serve_port};
use outside::{MemGate, MemNotes, MemPacket, MemPort};
use std::alloc::Global;
use std::collections::LinkedList;
use std::marker::Brand;
use std::sync::Wait;
use std::test::Fail;
use world_versions::first_version;

mod hostile;

/// A client of the second group.
const CLIENT: Peer = Peer {
    addr: Addr::V4(0xc633_6407),
    port: 5353,
};

/// A query of type A for www.cdn.example.
const QUERY: &[u8] = &[
    0x12, 0x34, 1, 0, 0, 1, 0, 0, 0, 0, 0, 0, 3, b'w', b'w', b'w', 3, b'c', b'd', b'n', 7, b'e',
    b'x', b'a', b'm', b'p', b'l', b'e', 0, 0, 1, 0, 1,
];

/// The query, as it comes in.
fn packet(alloc: Global) -> Option<MemPacket> {
    match Vec::from_slice(alloc, QUERY) {
        Err(_) => None,
        Ok(octets) => Some(MemPacket {
            octets,
            from: CLIENT,
        }),
    }
}

/// So many queries.
fn queries_of(alloc: Global, queries: u8) -> Option<LinkedList<MemPacket>> {
    let mut waiting = LinkedList::new(alloc);
    for _ in 0..queries {
        waiting.push_back(packet(alloc)?).ok()?;
    }
    Some(waiting)
}

/// A port at which so many queries wait, whose sends with these numbers fail.
fn port_of(alloc: Global, queries: u8, failing: Vec<u64>) -> Option<MemPort> {
    match queries_of(alloc, queries) {
        None => None,
        Some(waiting) => {
            MemPort::new(alloc, waiting, Vec::new(alloc), Vec::new(alloc), failing).ok()
        }
    }
}

/// How a lane ended, how many datagrams it took and how many replies went, and the last octet of the first two.
#[derive(Clone, Copy, PartialEq, Eq)]
struct Served {
    ended: Ended,
    taken: usize,
    went: usize,
    first: u8,
    second: u8,
}

/// The last octet of a reply, which is that of the picked pool's address.
fn pool_of(port: &MemPort, number: usize) -> u8 {
    match port.tries().get(number) {
        None => 0,
        Some(reply) => reply.octets.as_slice().last().copied().unwrap_or(0),
    }
}

/// How a lane ends that a worker serves, over a port.
fn serve_by<J: Naming>(
    worker: Worker<J>,
    port: &mut MemPort,
    gate: MemGate,
    notes: MemNotes<Note<J>>,
    turns: u64,
) -> Ended {
    let mut worker = worker;
    let mut gate = gate;
    let mut notes = notes;
    let mut door = PlainDoor::new();
    serve_port(&mut worker, port, &mut gate, &mut door, &mut notes, turns)
}

/// How a lane ends with a viewer, in at most so many turns.
fn serve<J: Naming>(
    alloc: Global,
    viewer: Viewer<J>,
    number: u8,
    port: &mut MemPort,
    turns: usize,
) -> Option<Ended> {
    let worker = Worker::new(viewer, number);
    match MemGate::new(alloc, turns) {
        Err(_) => None,
        Ok(gate) => match MemNotes::new(alloc, LinkedList::new(alloc)) {
            Err(_) => None,
            Ok(notes) => Some(serve_by(worker, port, gate, notes, turns as u64)),
        },
    }
}

/// The same, with the last of some viewers.
fn serve_last<J: Naming>(
    alloc: Global,
    viewers: Vec<Viewer<J>>,
    number: u8,
    port: &mut MemPort,
    turns: usize,
) -> Option<Ended> {
    let mut viewers = viewers;
    match viewers.pop() {
        None => None,
        Some(viewer) => serve(alloc, viewer, number, port, turns),
    }
}

/// The same over a cell of the example that is opened and closed.
fn opened<J: Naming, R: Wait>(
    rt: &R,
    alloc: Global,
    history: EmptyHistory,
    number: u8,
    port: &mut MemPort,
    turns: usize,
) -> Option<Ended>
    requires { history ≡ J.book }
{
    match first_version(alloc) {
        None => None,
        Some(version) => {
            let mut door = PlainDoor::new();
            match open::<J, PlainDoor, R>(rt, alloc, history, version, 1, &mut door) {
                Err(_) => None,
                Ok((publisher, viewers)) => {
                    let ended = serve_last(alloc, viewers, number, port, turns);
                    publisher.close(rt);
                    ended
                }
            }
        }
    }
}

/// The same, of a history of its own.
fn ends<R: Wait>(
    rt: &R,
    alloc: Global,
    number: u8,
    port: &mut MemPort,
    turns: usize,
) -> Option<Ended> {
    opened::<Brand, R>(rt, alloc, EmptyHistory::new(), number, port, turns)
}

/// How many of the replies went.
fn went(port: &MemPort) -> usize {
    port.tries().iter().filter(|reply| reply.went).count()
}

/// What a lane came to that ended so, by its port.
fn served_of(ended: Ended, port: &MemPort) -> Served {
    Served {
        ended,
        taken: port.taken().len(),
        went: went(port),
        first: pool_of(port, 0),
        second: pool_of(port, 1),
    }
}

/// What a lane comes to at which so many queries wait, and whose sends with these numbers fail.
fn lane<R: Wait>(
    rt: &R,
    alloc: Global,
    number: u8,
    queries: u8,
    failing: Vec<u64>,
) -> Option<Served> {
    match port_of(alloc, queries, failing) {
        None => None,
        Some(port) => {
            let mut port = port;
            match ends(rt, alloc, number, &mut port, 100) {
                None => None,
                Some(ended) => Some(served_of(ended, &port)),
            }
        }
    }
}

/// The first worker's draws fall on the second pool and then on the first, the second worker's first on the second.
#[test]
fn workers_draw(rt: HostRuntime) -> Result<(), Fail> {
    let first = lane(&rt, rt.alloc(), 0, 2, Vec::new(rt.alloc()));
    let pools = Served {
        ended: Ended::PortEnd,
        taken: 2,
        went: 2,
        first: 2,
        second: 1,
    };
    assert!(rt; first == Some(pools));
    let second = lane(&rt, rt.alloc(), 1, 1, Vec::new(rt.alloc()));
    let pools = Served {
        taken: 1,
        went: 1,
        second: 0,
        ..pools
    };
    assert!(rt; second == Some(pools));
    Ok(())
}

/// From the seventh send on all fail: six replies went, and the eighth failure is at the fourteenth datagram.
#[test]
fn eight_failing_sends_end_a_lane(rt: HostRuntime) -> Result<(), Fail> {
    let failing = Vec::from_slice(rt.alloc(), [6, 7, 8, 9, 10, 11, 12, 13, 14, 15].as_slice())?;
    let told = lane(&rt, rt.alloc(), 0, 20, failing);
    let ends = Served {
        ended: Ended::PortFault,
        taken: 14,
        went: 6,
        first: 2,
        second: 1,
    };
    assert!(rt; told == Some(ends));
    Ok(())
}
