//! Replies by their length: what a datagram carries, what is cut short, and what a stream carries.
ghost use Rattle.std.specs.Prelude.{◌≡◌};
ghost use Rattle.published_map.specs.Version.{IsVersion};

use super::{FROM, has, version_of_text};
use addr_text::Addr;
use answer_core::{Way, reply};
use arrayvec::ArrayVec;
use dns_wire::ReplyBuffer;
use published_map::MapVersion;
use std::alloc::Global;
use worlds::ZONE;

/// Names as long as they may be, and as many servers; and a pool that all clients have, whose addresses are to follow.
const LONG: &str = r#"
[zone]
apex = "aaaaaaaaaaaaaaaaaaaaaaaaaaaaaaaaaaaaaaaaaaaaaaaaaaaaaaaaaaaaaa"
mname = "mmmmmmmmmmmmmmmmmmmmmmmmmmmmmmmmmmmmmmmmmmmmmmmmmmmmmmmmmmmmmm"
rname = "rrrrrrrrrrrrrrrrrrrrrrrrrrrrrrrrrrrrrrrrrrrrrrrrrrrrrrrrrrrrrr"
serial = 1
refresh = 3600
retry = 600
expire = 86400
minimum = 60
ttl = 20
ns = [
  "nnnnnnnnnnnnnnnnnnnnnnnnnnnnnnnnnnnnnnnnnnnnnnnnnnnnnnnnnnnnnn",
  "oooooooooooooooooooooooooooooooooooooooooooooooooooooooooooooo",
  "pppppppppppppppppppppppppppppppppppppppppppppppppppppppppppppp",
  "qqqqqqqqqqqqqqqqqqqqqqqqqqqqqqqqqqqqqqqqqqqqqqqqqqqqqqqqqqqqqq",
]
services = ["sssssssssssssssssssssssssssssssssssssssssssssssssssssssssssssss"]
[[group]]
name = "g"
demand = 1
pools = ["P"]
scores = [1]
prefixes = ["0.0.0.0/0", "::/0"]
[[node]]
name = "P"
capacity = 1
pool = true
"#;

/// As many addresses as a pool may have.
const FORTY: &str = r#"
aaaa = [
  "::1", "::2", "::3", "::4", "::5", "::6", "::7", "::8", "::9", "::10",
  "::11", "::12", "::13", "::14", "::15", "::16", "::17", "::18", "::19", "::20",
  "::21", "::22", "::23", "::24", "::25", "::26", "::27", "::28", "::29", "::30",
  "::31", "::32", "::33", "::34", "::35", "::36", "::37", "::38", "::39", "::40",
]
"#;

const SIX: &str = r#"
aaaa = ["::1", "::2", "::3", "::4", "::5", "::6"]
"#;

fn push(octets: &mut ReplyBuffer, more: &[u8]) {
    let _ = octets.try_extend_from_slice(more);
}

fn push_label(octets: &mut ReplyBuffer, size: u8, letter: u8) {
    push(octets, &[size]);
    for _octet in 0..size {
        push(octets, &[letter]);
    }
}

/// Labels of so many times a letter.
type Labels = &'static [(u8, u8)];

fn push_labels(octets: &mut ReplyBuffer, labels: Labels) {
    for &(size, letter) in labels {
        push_label(octets, size, letter);
    }
}

/// A query for a name in the zone of long names, of a client that takes datagrams of that size and gives a subnet of 128 bits.
fn long_query(labels: Labels, kind: u8, payload: [u8; 2]) -> ReplyBuffer {
    let mut octets = ArrayVec::new();
    push(&mut octets, b"\x12\x34\x01\0\0\x01\0\0\0\0\0\x01");
    push_labels(&mut octets, labels);
    push_label(&mut octets, 62, b'a');
    push(&mut octets, &[0, 0, kind, 0, 1, 0, 0, 41]);
    push(&mut octets, &payload);
    push(
        &mut octets,
        b"\0\0\0\0\0\x18\0\x08\0\x14\0\x02\x80\0                ",
    );
    octets
}

/// Of a reply the octet of the flags QR to RD, the code, and how many octets it has.
type Shape = (u8, u8, usize);

fn octet_of(out: &ReplyBuffer, at: usize) -> u8 {
    out.get(at).copied().unwrap_or(0)
}

fn shape_of(out: &ReplyBuffer) -> Shape {
    (octet_of(out, 2), octet_of(out, 3) % 16, out.len())
}

/// Labels before the zone's name, a type, the client's payload size and a way; and the reply.
type LongRow = (Labels, u8, [u8; 2], Way, Shape);

const SERVICE: Labels = &[(63, b's')];

/// Replies where the pool has forty addresses.
const LONG_REPLIES: &[LongRow] = &[
    // No negative reply is cut short, whatever size a client tells: no such name, no such record of a service and of the zone.
    (
        &[(63, b'x'), (63, b'y'), (62, b'z')],
        1,
        [2, 0],
        Way::Datagram,
        (0x85, 3, 466),
    ),
    (SERVICE, 16, [0, 1], Way::Datagram, (0x85, 0, 339)),
    (&[], 1, [2, 0], Way::Datagram, (0x85, 0, 275)),
    // Nor are the zone's own records.
    (&[], 2, [2, 0], Way::Datagram, (0x85, 0, 419)),
    (&[], 6, [2, 0], Way::Datagram, (0x85, 0, 275)),
    // The longest answer of all is too long for a datagram of 1,232 octets, which is the most that is sent.
    (SERVICE, 28, [4, 208], Way::Datagram, (0x87, 0, 179)),
    (SERVICE, 28, [255, 255], Way::Datagram, (0x87, 0, 179)),
    (SERVICE, 28, [2, 0], Way::Stream, (0x85, 0, 1299)),
    // A name of 256 octets is no query.
    (
        &[(63, b'x'), (63, b'y'), (63, b'z')],
        1,
        [4, 208],
        Way::Datagram,
        (0x81, 1, 12),
    ),
];

// A question of 132 octets, six records of 28, and an OPT record of 35 behind the header.
const SIX_REPLIES: &[LongRow] = &[(SERVICE, 28, [2, 0], Way::Datagram, (0x85, 0, 347))];

fn is_shaped(version: &MapVersion, row: &LongRow) -> bool
    requires { IsVersion version.now }
{
    let (labels, kind, payload, way, want) = row;
    let query = long_query(*labels, *kind, *payload);
    let mut out = ArrayVec::new();
    let _ = reply(version, Addr::V4(0), query.as_slice(), 0, *way, &mut out);
    shape_of(&out) == *want
}

fn are_shaped(version: &MapVersion, rows: &[LongRow]) -> bool
    requires { IsVersion version.now }
{
    for row in rows {
        if !is_shaped(version, row) {
            return false;
        }
    }
    true
}

/// Whether the replies of the long names are so where the pool has these addresses.
fn are_bounded(alloc: Global, addresses: &str, rows: &[LongRow]) -> bool {
    match version_of_text(alloc, &[LONG, addresses], &[(0, 0, 1)], &[]) {
        Some(version) => are_shaped(&version, rows),
        None => false,
    }
}

/// The longest replies there are, with their flags, codes and sizes, by the formulas of RFC 1035 and RFC 6891.
#[test]
fn bounds_replies(rt: HostRuntime) {
    assert!(rt; are_bounded(rt.alloc(), FORTY, LONG_REPLIES));
    assert!(rt; are_bounded(rt.alloc(), SIX, SIX_REPLIES));
}

/// A pool of twenty addresses, and two groups that are told apart by 24 bits.
const TWENTY: &str = r#"
[[node]]
name = "P"
capacity = 2
pool = true
aaaa = [
  "2001:db8::1", "2001:db8::2", "2001:db8::3", "2001:db8::4", "2001:db8::5",
  "2001:db8::6", "2001:db8::7", "2001:db8::8", "2001:db8::9", "2001:db8::a",
  "2001:db8::b", "2001:db8::c", "2001:db8::d", "2001:db8::e", "2001:db8::f",
  "2001:db8::10", "2001:db8::11", "2001:db8::12", "2001:db8::13", "2001:db8::14",
]
[[group]]
name = "g1"
demand = 1
pools = ["P"]
scores = [1]
prefixes = ["0.0.0.0/0", "::/0"]
[[group]]
name = "g2"
demand = 1
pools = ["P"]
scores = [2]
prefixes = ["198.51.100.0/24"]
"#;

/// The OPT record of a query, a way, whether the addresses are told, and the reply's OPT record.
type CutRow = (&'static [u8], Way, bool, &'static [u8]);

/// An OPT record of a reply.
const OPT: &[u8] = b"\0\0\x29\x04\xd0\0\0\0\0\0\0";

// The twenty addresses make 593 octets, and with an OPT record 604.
const CUT_REPLIES: &[CutRow] = &[
    (b"", Way::Datagram, false, b""),
    (b"\0\0\x29\x02\x5b\0\0\0\0\0\0", Way::Datagram, false, OPT),
    (b"\0\0\x29\x02\x5c\0\0\0\0\0\0", Way::Datagram, true, OPT),
    (b"\0\0\x29\0\x64\0\0\0\0\0\0", Way::Datagram, false, OPT),
    // The subnet comes back with the scope that the answer would have told.
    (
        b"\0\0\x29\x02\x5c\0\0\0\0\0\x0b\0\x08\0\x07\0\x01\x18\0\xc6\x33\x64",
        Way::Datagram,
        false,
        b"\0\0\x29\x04\xd0\0\0\0\0\0\x0b\0\x08\0\x07\0\x01\x18\x18\xc6\x33\x64",
    ),
    (b"", Way::Stream, true, b""),
];

/// A header with so many answers, the question for the addresses, and so many OPT records.
fn push_front(octets: &mut ReplyBuffer, flags: u8, answers: u8, opts: u8) {
    push(
        octets,
        &[0x12, 0x34, flags, 0, 0, 1, 0, answers, 0, 0, 0, opts],
    );
    push(octets, b"\x03www\x03cdn\x07example\0\0\x1c\0\x01");
}

fn query_with(opt: &[u8]) -> ReplyBuffer {
    let mut octets = ArrayVec::new();
    push_front(&mut octets, 1, 0, if opt.is_empty() { 0 } else { 1 });
    push(&mut octets, opt);
    octets
}

fn push_addresses(octets: &mut ReplyBuffer) {
    for last in 1..=20u8 {
        push(
            octets,
            b"\xc0\x0c\0\x1c\0\x01\0\0\0\x14\0\x10\x20\x01\x0d\xb8\0\0\0\0\0\0\0\0\0\0\0",
        );
        push(octets, &[last]);
    }
}

/// The reply with all twenty addresses, or with none and the flag TC.
fn reply_with(whole: bool, opt: &[u8]) -> ReplyBuffer {
    let mut octets = ArrayVec::new();
    let opts = if opt.is_empty() { 0 } else { 1 };
    if whole {
        push_front(&mut octets, 0x85, 20, opts);
        push_addresses(&mut octets);
    } else {
        push_front(&mut octets, 0x87, 0, opts);
    }
    push(&mut octets, opt);
    octets
}

fn is_cut_so(version: &MapVersion, row: &CutRow) -> bool
    requires { IsVersion version.now }
{
    let (asked, way, whole, opt) = row;
    let mut out = ArrayVec::new();
    let query = query_with(*asked);
    let _ = reply(version, FROM, query.as_slice(), 0, *way, &mut out);
    has(&out, reply_with(*whole, *opt).as_slice())
}

fn are_cut_so(version: &MapVersion, rows: &[CutRow]) -> bool
    requires { IsVersion version.now }
{
    for row in rows {
        if !is_cut_so(version, row) {
            return false;
        }
    }
    true
}

fn are_cut(alloc: Global) -> bool {
    match version_of_text(alloc, &[ZONE, TWENTY], &[(0, 0, 1), (1, 0, 1)], &[]) {
        Some(version) => are_cut_so(&version, CUT_REPLIES),
        None => false,
    }
}

/// An answer that is longer than the client takes is left out, octet for octet.
#[test]
fn long_answers_are_cut_short(rt: HostRuntime) {
    assert!(rt; are_cut(rt.alloc()));
}
