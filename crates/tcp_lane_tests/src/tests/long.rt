//! A reply that is too long for a datagram.
ghost use Rattle.std.specs.Prelude.{◌≡◌};

use super::{CLIENT, Served, ends, numbers_of};
use lane_model::Ended;
use map_cell::MemDoor;
use outside::{MemStreams, MemTalk};
use std::alloc::Global;
use std::collections::LinkedList;
use std::sync::Wait;
use world_versions::version_of_text;
use worlds::map_of;

/// A pool of twenty addresses, and one group.
const TWENTY: &str = r#"
[zone]
apex = "cdn.example"
mname = "ns1.ops.example"
rname = "admin.ops.example"
serial = 1
refresh = 3600
retry = 600
expire = 86400
minimum = 60
ttl = 20
ns = ["ns1.ops.example", "ns2.ops.example"]
services = ["www"]
[[node]]
name = "P"
capacity = 1
pool = true
aaaa = [
  "2001:db8::1", "2001:db8::2", "2001:db8::3", "2001:db8::4", "2001:db8::5",
  "2001:db8::6", "2001:db8::7", "2001:db8::8", "2001:db8::9", "2001:db8::a",
  "2001:db8::b", "2001:db8::c", "2001:db8::d", "2001:db8::e", "2001:db8::f",
  "2001:db8::10", "2001:db8::11", "2001:db8::12", "2001:db8::13", "2001:db8::14",
]
[[group]]
name = "g"
demand = 1
pools = ["P"]
scores = [1]
prefixes = ["0.0.0.0/0", "::/0"]
"#;

/// A query of type AAAA for www.cdn.example without an OPT record, behind its length.
const QUERY: &[u8] =
    b"\0\x21\x12\x34\x01\0\0\x01\0\0\0\0\0\0\x03www\x03cdn\x07example\0\0\x1c\0\x01";

/// The length of the reply, which is 593, its header with twenty answers, and the question. Over UDP it would be cut short.
const FRONT: &[u8] =
    b"\x02\x51\x12\x34\x85\0\0\x01\0\x14\0\0\0\0\x03www\x03cdn\x07example\0\0\x1c\0\x01";

/// A record of an address, without its last octet.
const RECORD: &[u8] = b"\xc0\x0c\0\x1c\0\x01\0\0\0\x14\0\x10\x20\x01\x0d\xb8\0\0\0\0\0\0\0\0\0\0\0";

/// Whether octets are the reply with all twenty addresses.
fn is_whole(octets: &[u8]) -> bool {
    let Some(records) = octets.strip_prefix(FRONT) else {
        return false;
    };
    let mut rest = records;
    for last in 1..=20u8 {
        match rest.strip_prefix(RECORD) {
            Some(behind) => match behind.strip_prefix(&[last]) {
                Some(next) => rest = next,
                None => return false,
            },
            None => return false,
        }
    }
    rest.is_empty()
}

/// A conversation that says the query in one piece.
fn streams_of(alloc: Global) -> Option<MemStreams> {
    let mut pieces = LinkedList::new(alloc);
    pieces.push_back(Vec::from_slice(alloc, QUERY).ok()?).ok()?;
    let mut waiting = LinkedList::new(alloc);
    waiting
        .push_back(MemTalk::new(alloc, CLIENT, pieces, 1_024).ok()?)
        .ok()?;
    MemStreams::new(
        alloc,
        waiting,
        Vec::new(alloc),
        numbers_of(alloc, &[])?,
        numbers_of(alloc, &[])?,
    )
    .ok()
}

fn is_answered<R: Wait>(rt: &R, alloc: Global) -> Option<bool> {
    let mut streams = streams_of(alloc)?;
    let door = MemDoor::new(Vec::new(alloc), Vec::new(alloc));
    let map = map_of(alloc, &[(0, 0, 1)], &[]).ok()?;
    let version = version_of_text(alloc, 0, TWENTY, map)?;
    let served = Served {
        number: 0,
        streams: &mut streams,
        door,
        turns: 100,
    };
    let ended = ends(rt, alloc, version, served)?;
    let talk = streams.closed().first()?;
    Some(ended == Ended::PortEnd && is_whole(talk.written()))
}

/// A stream carries what a datagram of 512 octets does not.
#[test]
fn long_reply_is_whole(rt: HostRuntime) {
    assert!(rt; is_answered(&rt, rt.alloc()) == Some(true));
}
