//! A query with a client subnet, each of whose octets is changed to each other one, and which is cut before each: at a lane.
ghost use Rattle.published_map.specs.Version.{IsVersion};

use super::{CLIENT, ends};
use addr_text::Peer;
use answer_core::{Answer, Way, reply};
use arrayvec::ArrayVec;
use lane_model::{Ended, draw_of, next_number};
use no_memory::NoMemory;
use outside::{MemPacket, MemPort, MemTaken, MemTry};
use published_map::MapVersion;
use std::alloc::Global;
use std::collections::LinkedList;
use std::sync::Wait;
use std::test::Fail;
use world_versions::first_version;

/// A query of type A for www.cdn.example, with an OPT record and the client subnet 198.51.100.0/24.
const WITH_SUBNET: &[u8] = &[
    0x12, 0x34, 1, 0, 0, 1, 0, 0, 0, 0, 0, 1, 3, b'w', b'w', b'w', 3, b'c', b'd', b'n', 7, b'e',
    b'x', b'a', b'm', b'p', b'l', b'e', 0, 0, 1, 0, 1, 0, 0, 41, 4, 0xd0, 0, 0, 0, 0, 0, 11, 0, 8,
    0, 7, 0, 1, 24, 0, 198, 51, 100,
];

/// The worker's number.
const WORKER: u8 = 5;

/// More turns than there are datagrams.
const TURNS: usize = 20_000;

fn wait(waiting: &mut LinkedList<MemPacket>, octets: Vec<u8>) -> Result<(), NoMemory> {
    waiting.push_back(MemPacket {
        octets,
        from: CLIENT,
    })?;
    Ok(())
}

/// The query with each value of one octet.
fn wait_changed(
    alloc: Global,
    waiting: &mut LinkedList<MemPacket>,
    at: usize,
) -> Result<(), NoMemory> {
    for value in 0..=255u8 {
        let mut octets = Vec::from_slice(alloc, WITH_SUBNET)?;
        if let Some(octet) = octets.get_mut(at) {
            *octet = value;
        }
        wait(waiting, octets)?;
    }
    Ok(())
}

/// The query with each value of each octet.
fn wait_all_changed(alloc: Global, waiting: &mut LinkedList<MemPacket>) -> Result<(), NoMemory> {
    for at in 0..WITH_SUBNET.len() {
        wait_changed(alloc, waiting, at)?;
    }
    Ok(())
}

/// The beginnings of the query.
fn wait_all_cut(alloc: Global, waiting: &mut LinkedList<MemPacket>) -> Result<(), NoMemory> {
    for length in 0..WITH_SUBNET.len() {
        let mut octets = Vec::from_slice(alloc, WITH_SUBNET)?;
        octets.truncate(length);
        wait(waiting, octets)?;
    }
    Ok(())
}

/// All of them, with two in between that are as long as may be and longer, and the query itself at last.
fn waiting(alloc: Global) -> Result<LinkedList<MemPacket>, NoMemory> {
    let mut waiting = LinkedList::new(alloc);
    wait_all_changed(alloc, &mut waiting)?;
    wait(&mut waiting, Vec::from_slice(alloc, [0; 4_096].as_slice())?)?;
    wait(&mut waiting, Vec::from_slice(alloc, [0; 4_097].as_slice())?)?;
    wait_all_cut(alloc, &mut waiting)?;
    wait(&mut waiting, Vec::from_slice(alloc, WITH_SUBNET)?)?;
    Ok(waiting)
}

/// Whether there is no reply: the octets are fewer than a header, or say that they are a reply.
fn is_unanswered(octets: &[u8]) -> bool {
    match octets.get(2) {
        None => true,
        Some(flags) => octets.len() < 12 || *flags >= 0x80,
    }
}

/// Whether a reply carries the number of its query.
fn has_number(reply: &[u8], query: &[u8]) -> bool {
    reply.get(0) == query.get(0) && reply.get(1) == query.get(1)
}

/// Whether a try went to the sender of a datagram, from the first version.
fn is_sent_back(taken: &MemTaken, tried: &MemTry) -> bool {
    tried.went
        && tried.serial == 0
        && tried.to == taken.packet.from
        && tried.place == taken.place.saturating_add(1)
}

/// Whether a reply is that of the version for the worker's datagram of that number, and goes to its sender.
fn is_reply(version: &MapVersion, taken: &MemTaken, tried: &MemTry, number: u64) -> bool
    requires { IsVersion version.now }
{
    let Peer { addr, .. } = taken.packet.from;
    let octets = taken.packet.octets.as_slice();
    let mut due = ArrayVec::new();
    let draw = draw_of(WORKER, number);
    let answer = reply(version, addr, octets, draw, Way::Datagram, &mut due);
    if answer != Answer::Sent || !is_sent_back(taken, tried) {
        return false;
    }
    tried.octets.as_slice() == due.as_slice() && has_number(due.as_slice(), octets)
}

/// How far a lane was looked at: datagrams, replies, and whether all these were as they are due.
#[derive(Clone, Copy)]
struct Looked {
    number: u64,
    replies: usize,
    good: bool,
}

/// One datagram more: it has the next reply, if there is one for it.
fn look_further(version: &MapVersion, taken: &MemTaken, tries: &[MemTry], looked: Looked) -> Looked
    requires { IsVersion version.now }
{
    let number = next_number(looked.number);
    if is_unanswered(taken.packet.octets.as_slice()) {
        return Looked { number, ..looked };
    }
    let is_due = match tries.get(looked.replies) {
        Some(tried) => is_reply(version, taken, tried, looked.number),
        None => false,
    };
    Looked {
        number,
        replies: looked.replies.saturating_add(1),
        good: looked.good && is_due,
    }
}

/// Whether each datagram that has a reply has it, in turn, and there are no others.
fn are_replies(version: &MapVersion, taken: &[MemTaken], tries: &[MemTry]) -> bool
    requires { IsVersion version.now }
{
    let mut looked = Looked {
        number: 0,
        replies: 0,
        good: true,
    };
    for one in taken {
        looked = look_further(version, one, tries, looked);
    }
    looked.good && looked.replies == tries.len()
}

/// Whether the lane went on to its port's end, and each datagram but the one that is too long was taken and has the reply that is due.
fn is_as_due(version: &MapVersion, port: &MemPort, ended: Ended, count: usize) -> bool
    requires { IsVersion version.now }
{
    let taken = port.taken();
    if ended != Ended::PortEnd || taken.len() != 55 * 256 + 57 {
        return false;
    }
    count == 55 * 256 + 58 && are_replies(version, taken, port.tries())
}

/// A port at which they all wait, and how many they are.
fn port_of_all(alloc: Global) -> Option<(MemPort, usize)> {
    match waiting(alloc) {
        Err(_) => None,
        Ok(waiting) => {
            let count = waiting.len();
            let none = Vec::new(alloc);
            match MemPort::new(alloc, waiting, none, Vec::new(alloc), Vec::new(alloc)) {
                Err(_) => None,
                Ok(port) => Some((port, count)),
            }
        }
    }
}

/// Whether a lane over that port is as it is due.
fn is_unharmed<R: Wait>(rt: &R, alloc: Global) -> Option<bool> {
    match (port_of_all(alloc), first_version(alloc)) {
        (Some((port, count)), Some(version)) => {
            let mut port = port;
            match ends(rt, alloc, WORKER, &mut port, TURNS) {
                None => None,
                Some(ended) => Some(is_as_due(&version, &port, ended, count)),
            }
        }
        _ => None,
    }
}

#[test]
fn hostile_datagrams(rt: HostRuntime) -> Result<(), Fail> {
    assert!(rt; is_unharmed(&rt, rt.alloc()) == Some(true));
    Ok(())
}
