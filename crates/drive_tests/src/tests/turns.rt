//! Lanes between whose turns a mapper publishes, in one thread.
ghost use Rattle.std.specs.Prelude.{◌≡◌, ◌+◌, ◌<◌, ◌≤◌, ◌^◌};

use super::{QUERY, port_of};
use addr_text::{Addr, Peer};
use answer_core::Answer;
use arrayvec::ArrayVec;
use demand_feed::{Batch, Line};
use lane_model::Ended;
use map_cell::{EmptyHistory, Naming, Note, PlainDoor, Viewer};
use map_model::{Proposals, Steps};
use mapper::Mapper;
use name_workers::{Worker, serve_port};
use outside::{Due, MemGate, MemNotes, MemPacket, MemPort};
use std::alloc::Global;
use std::collections::LinkedList;
use std::marker::Brand;
use std::sync::Wait;
use std::test::Fail;
use topology_text::read_topology;
use worlds::EXAMPLE_TREE;

/// A client of the first group, all of whose units are at one pool in each map: no draw changes its replies.
const FIRST_CLIENT: Peer = Peer {
    addr: Addr::V4(0xcb00_7109),
    port: 4053,
};

/// Datagrams of each kind: an answer, one of another letter case, no service, no such name, another apex, another type, any type; an answer of a status query, of an unknown opcode; with OPT, with a client subnet, with a version that is none, with a subnet of bits beyond its length, twice an OPT; of two questions, cut, a header alone, a reply, eleven octets, none.
const KINDS: [&[u8]; 20] = [
    QUERY,
    b"\x12\x35\x01\0\0\x01\0\0\0\0\0\0\x03WwW\x03CdN\x07eXaMpLe\0\0\x01\0\x01",
    b"\x12\x36\x01\0\0\x01\0\0\0\0\0\0\x03cdn\x07example\0\0\x01\0\x01",
    b"\x12\x37\x01\0\0\x01\0\0\0\0\0\0\x01x\x03cdn\x07example\0\0\x01\0\x01",
    b"\x12\x38\x01\0\0\x01\0\0\0\0\0\0\x07example\0\0\x01\0\x01",
    b"\x12\x39\x01\0\0\x01\0\0\0\0\0\0\x03www\x03cdn\x07example\0\0\x10\0\x01",
    b"\x12\x3a\x01\0\0\x01\0\0\0\0\0\0\x03www\x03cdn\x07example\0\0\xff\0\x01",
    b"\x12\x3b\x11\0\0\x01\0\0\0\0\0\0\x03www\x03cdn\x07example\0\0\x01\0\x01",
    b"\x12\x3c\x71\0\0\x01\0\0\0\0\0\0\x03www\x03cdn\x07example\0\0\x01\0\x01",
    b"\x12\x3d\x01\0\0\x01\0\0\0\0\0\x01\x03www\x03cdn\x07example\0\0\x01\0\x01\0\0\x29\x04\xd0\0\0\0\0\0\0",
    b"\x12\x3e\x01\0\0\x01\0\0\0\0\0\x01\x03www\x03cdn\x07example\0\0\x01\0\x01\0\0\x29\x04\xd0\0\0\0\0\0\x0b\0\x08\0\x07\0\x01\x18\0\xcb\0\x71",
    b"\x12\x3f\x01\0\0\x01\0\0\0\0\0\x01\x03www\x03cdn\x07example\0\0\x01\0\x01\0\0\x29\x04\xd0\0\x01\0\0\0\0",
    b"\x12\x40\x01\0\0\x01\0\0\0\0\0\x01\x03www\x03cdn\x07example\0\0\x01\0\x01\0\0\x29\x04\xd0\0\0\0\0\0\x0b\0\x08\0\x07\0\x01\x14\0\xcb\0\x71",
    b"\x12\x41\x01\0\0\x01\0\0\0\0\0\x02\x03www\x03cdn\x07example\0\0\x01\0\x01\0\0\x29\x04\xd0\0\0\0\0\0\0\0\0\x29\x04\xd0\0\0\0\0\0\0",
    b"\x12\x42\x01\0\0\x02\0\0\0\0\0\0\x03www\x03cdn\x07example\0\0\x01\0\x01",
    b"\x12\x43\x01\0\0\x01\0\0\0\0\0\0\x03www\x03cdn\x07exa",
    b"\0\0\0\0\0\0\0\0\0\0\0\0",
    b"\x12\x44\x81\0\0\x01\0\0\0\0\0\0\x03www\x03cdn\x07example\0\0\x01\0\x01",
    b"\x12\x45\x01\0\0\x01\0\0\0\0\0",
    b"",
];

/// A port at which one datagram waits.
fn port_with(alloc: Global, octets: &[u8], from: Peer) -> Option<MemPort> {
    let mut waiting = LinkedList::new(alloc);
    let octets = Vec::from_slice(alloc, octets).ok()?;
    waiting.push_back(MemPacket { octets, from }).ok()?;
    let none = || Vec::new(alloc);
    MemPort::new(alloc, waiting, none(), none(), none()).ok()
}

/// No note, or one that is there at once.
fn notes_of<J: Naming>(alloc: Global, note: Option<Note<J>>) -> Option<MemNotes<Note<J>>> {
    let mut coming = LinkedList::new(alloc);
    if let Some(note) = note {
        coming.push_back(Due { nones: 0, note }).ok()?;
    }
    MemNotes::new(alloc, coming).ok()
}

/// What a lane of one turn sends of what the newest map says to a datagram: how many replies; nothing where that or what it took is anything else.
fn turns_once<J: Naming>(
    alloc: Global,
    mapper: &Mapper<J>,
    worker: &mut Worker<J>,
    octets: &[u8],
    is_told: bool,
) -> Option<u64> {
    let mut wanted = ArrayVec::new();
    let answer = mapper.ask(FIRST_CLIENT.addr, octets, &mut wanted);
    let mut port = port_with(alloc, octets, FIRST_CLIENT)?;
    let mut gate = MemGate::new(alloc, 1).ok()?;
    let note = if is_told { Some(mapper.note()) } else { None };
    let mut notes = notes_of(alloc, note)?;
    let mut door = PlainDoor::new();
    let ended = serve_port(worker, &mut port, &mut gate, &mut door, &mut notes, 100);
    if ended != Ended::Stopped || port.taken().len() != 1 {
        return None;
    }
    match port.tries() {
        [] if answer == Answer::Silent => Some(0),
        [one]
            if answer == Answer::Sent
                && one.octets.as_slice() == wanted.as_slice()
                && one.serial == mapper.newest() => { Some(1) }
        _ => None,
    }
}

/// Whether a commit publishes: the pool where the first group was takes nobody after an even number, and ten units after an odd one, so the group goes to the other pool and comes back.
fn publishes<J: Naming, R: Wait>(
    rt: &R,
    mapper: &mut Mapper<J>,
    batch: &mut Batch,
    number: u64,
) -> bool
    requires { mapper.old.newest.serial < 2 ^ 32 }
    ensures { mapper.new.newest.serial ≤ mapper.old.newest.serial + 1 }
{
    batch.clear();
    let line = Line::Capacity {
        node: b"A",
        number: if number % 2 == 0 { 0 } else { 10 },
    };
    if batch.add(mapper.topology(), &line).is_err() {
        return false;
    }
    let mut steps = Steps::<Proposals>::new();
    mapper.commit(rt, batch, &mut steps).is_ok()
}

/// How many replies went in so many turns; nothing where one went otherwise than it should. The datagrams are of all kinds, each third turn is told of the newest map, and between any two turns a map is published.
fn turns_between<J: Naming, R: Wait>(
    rt: &R,
    alloc: Global,
    mapper: &mut Mapper<J>,
    viewer: Viewer<J>,
    batch: &mut Batch,
    turns: u64,
) -> Option<u64>
    requires serial { mapper.old.newest.serial ≡ 0 }
    requires turns { turns < 2 ^ 32 }
{
    let mut worker = Worker::new(viewer, 0);
    let mut replies = 0u64;
    for turn in 0..turns {
        let octets = KINDS[(turn % 20) as usize];
        let sent = turns_once(alloc, mapper, &mut worker, octets, turn % 3 == 0)?;
        replies = replies.saturating_add(sent);
        if !publishes(rt, mapper, batch, turn) {
            return None;
        }
    }
    Some(replies)
}

/// The same, over a mapper of the example with one viewer.
fn turns_over<J: Naming, R: Wait>(
    rt: &R,
    alloc: Global,
    history: EmptyHistory,
    turns: u64,
) -> Option<u64>
    requires book { history ≡ J.book }
    requires turns { turns < 2 ^ 32 }
{
    let topology = read_topology(alloc, EXAMPLE_TREE.as_bytes()).ok()?;
    let mut batch = Batch::new(alloc).ok()?;
    let mut door = PlainDoor::new();
    let mut steps = Steps::<Proposals>::new();
    match Mapper::<J>::open(rt, alloc, history, topology, 1, &mut door, &mut steps) {
        Err(_) => None,
        Ok((mapper, seats)) => {
            let mut mapper = mapper;
            let mut seats = seats;
            let mut done = None;
            if let Some(viewer) = seats.pop() {
                done = turns_between(rt, alloc, &mut mapper, viewer, &mut batch, turns);
            }
            mapper.close(rt);
            done
        }
    }
}

/// Ten rounds of the twenty kinds, all but the last three of which have a reply.
#[test]
fn a_map_between_any_two_turns(rt: HostRuntime) -> Result<(), Fail> {
    let replies = turns_over::<Brand, HostRuntime>(&rt, rt.alloc(), EmptyHistory::new(), 200);
    assert!(rt; replies == Some(170));
    Ok(())
}

/// The serials of both replies of a lane at which two queries wait.
fn serials_of_two<J: Naming>(
    alloc: Global,
    viewer: Viewer<J>,
    note: Option<Note<J>>,
) -> Option<(u64, u64)> {
    let mut worker = Worker::new(viewer, 0);
    let mut port = port_of(alloc, 2)?;
    let mut gate = MemGate::new(alloc, 100).ok()?;
    let mut notes = notes_of(alloc, note)?;
    let mut door = PlainDoor::new();
    let ended = serve_port(
        &mut worker,
        &mut port,
        &mut gate,
        &mut door,
        &mut notes,
        100,
    );
    match port.tries() {
        [one, two] if ended == Ended::PortEnd => Some((one.serial, two.serial)),
        _ => None,
    }
}

/// Two lanes over a mapper that has published twice: one that is told of nothing, and one that is told of the newest map.
fn both_lanes<J: Naming, R: Wait>(
    rt: &R,
    alloc: Global,
    mapper: &mut Mapper<J>,
    seats: Vec<Viewer<J>>,
    batch: &mut Batch,
) -> Option<((u64, u64), (u64, u64))>
    requires serial { mapper.old.newest.serial ≡ 0 }
{
    let mut seats = seats;
    let second = seats.pop()?;
    let first = seats.pop()?;
    if !publishes(rt, mapper, batch, 0) || !publishes(rt, mapper, batch, 1) {
        return None;
    }
    let untold = serials_of_two(alloc, first, None)?;
    let told = serials_of_two(alloc, second, Some(mapper.note()))?;
    Some((untold, told))
}

/// The same, over a mapper of the example with two viewers.
fn both_over<J: Naming, R: Wait>(
    rt: &R,
    alloc: Global,
    history: EmptyHistory,
) -> Option<((u64, u64), (u64, u64))>
    requires { history ≡ J.book }
{
    let topology = read_topology(alloc, EXAMPLE_TREE.as_bytes()).ok()?;
    let mut batch = Batch::new(alloc).ok()?;
    let mut door = PlainDoor::new();
    let mut steps = Steps::<Proposals>::new();
    match Mapper::<J>::open(rt, alloc, history, topology, 2, &mut door, &mut steps) {
        Err(_) => None,
        Ok((mapper, seats)) => {
            let mut mapper = mapper;
            let served = both_lanes(rt, alloc, &mut mapper, seats, &mut batch);
            mapper.close(rt);
            served
        }
    }
}

/// Without a note the first reply is of a map from the first to the newest, and the second of no older one; with a note of the newest map both are of that.
#[test]
fn a_note_of_the_newest_map(rt: HostRuntime) -> Result<(), Fail> {
    let served = both_over::<Brand, HostRuntime>(&rt, rt.alloc(), EmptyHistory::new());
    assert!(rt; matches!(served, Some(((one, two), (2, 2))) if one <= two && two <= 2));
    Ok(())
}
