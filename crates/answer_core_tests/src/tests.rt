//! Replies of worked examples, octet for octet, and of each datagram that differs from them in one octet.
ghost use Rattle.std.specs.Prelude.{◌≡◌, ◌<◌, length, IfSome};
ghost use Rattle.map_model.specs.Allocation.{IsGood};
ghost use Rattle.published_map.specs.Version.{IsVersion};

use addr_text::Addr;
use answer_core::{Answer, Way, pick, reply, silent};
use arrayvec::ArrayVec;
use dns_wire::ReplyBuffer;
use map_model::GroupId;
use published_map::MapVersion;
use std::alloc::Global;
use topology_text::{Topology, read_topology};
use world_versions::{GoodMap, first_version, is_good, version_of};
use worlds::{NameAt, Placed, map_of};

mod classes;
mod long;

/// The map of these rows and a topology's own instance, if the map is good for it.
fn good_map(
    alloc: Global,
    topology: &Topology,
    lines: &[Placed],
    names: &[NameAt],
) -> Option<GoodMap>
    ensures good { IfSome result (λ g. IsGood g.instance g.map.lines.items g.map.names.items) }
    ensures instance { IfSome result (λ g. g.instance ≡ topology.now.market) }
{
    let Ok(instance) = topology.instance().try_clone() else {
        return None;
    };
    let Ok(map) = map_of(alloc, lines, names) else {
        return None;
    };
    if is_good(alloc, &instance, &map) {
        Some(GoodMap { instance, map })
    } else {
        None
    }
}

/// The first version of a topology with the map of these rows, if that is good.
fn version_with(
    alloc: Global,
    topology: Topology,
    lines: &[Placed],
    names: &[NameAt],
) -> Option<MapVersion>
    ensures { IfSome result IsVersion }
{
    match good_map(alloc, &topology, lines, names) {
        Some(good) => version_of(alloc, 0, topology, &good.instance, &good.map),
        None => None,
    }
}

/// The same of a text in pieces.
fn version_of_text(
    alloc: Global,
    pieces: &[&str],
    lines: &[Placed],
    names: &[NameAt],
) -> Option<MapVersion>
    ensures { IfSome result IsVersion }
{
    let mut text = Vec::new(alloc);
    for piece in pieces {
        text.extend_from_slice(piece.as_bytes()).ok()?;
    }
    match read_topology(alloc, text.as_slice()) {
        Ok(topology) => version_with(alloc, topology, lines, names),
        Err(_) => None,
    }
}

/// Draws, and the place of the second group's list on which each falls.
// The first two of seven units are at the first pool.
const DRAWS: &[(u64, u8)] = &[
    (0, 0),
    // The last draw of slot 1, and the first of slot 2.
    (5_270_498_306_774_157_604, 0),
    (5_270_498_306_774_157_605, 1),
    (1 << 63, 1),
    (u64::MAX, 1),
    // The first two draws of the first worker, slots 4 and 1, and the first of the second, slot 4.
    (11_400_714_819_323_198_485, 1),
    (4_354_685_564_936_845_354, 0),
    (12_553_636_323_930_045_461, 1),
];

fn fall_so(version: &MapVersion, draws: &[(u64, u8)]) -> bool
    requires version { IsVersion version.now }
    requires group { 1 < length version.now.market.groups }
{
    for (draw, place) in draws {
        if pick(version, GroupId(1), *draw) != Some(*place) {
            return false;
        }
    }
    true
}

const FROM: Addr = Addr::V4(0xc633_6407);

/// A datagram and a draw, whether there is a reply, and the reply.
type ReplyRow = (&'static [u8], u64, Answer, &'static [u8]);

const REPLIES: &[ReplyRow] = &[
    // The address of the pool that a draw picks.
    (
        b"\x12\x34\x01\0\0\x01\0\0\0\0\0\0\x03www\x03cdn\x07example\0\0\x01\0\x01",
        1 << 63,
        Answer::Sent,
        b"\x12\x34\x85\0\0\x01\0\x01\0\0\0\0\x03www\x03cdn\x07example\0\0\x01\0\x01\
        \xc0\x0c\0\x01\0\x01\0\0\0\x14\0\x04\xc0\0\x02\x02",
    ),
    // A response has no reply, whatever was in the buffer.
    (
        b"\x12\x34\x81\0\0\x01\0\0\0\0\0\0\0\0\x01\0\x01",
        0,
        Answer::Silent,
        b"",
    ),
    // A name that is not there, with a subnet, which is repeated with scope 0.
    (
        b"\x12\x34\x01\0\0\x01\0\0\0\0\0\x01\x01x\x03cdn\x07example\0\0\x01\0\x01\
        \0\0\x29\x04\xd0\0\0\0\0\0\x0b\0\x08\0\x07\0\x01\x18\0\xc6\x33\x64",
        0,
        Answer::Sent,
        b"\x12\x34\x85\x03\0\x01\0\0\0\x01\0\x01\x01x\x03cdn\x07example\0\0\x01\0\x01\
        \xc0\x0e\0\x06\0\x01\0\0\0\x14\0\x38\x03ns1\x03ops\x07example\0\x05admin\x03ops\x07example\0\
        \0\0\0\x01\0\0\x0e\x10\0\0\x02\x58\0\x01\x51\x80\0\0\0\x3c\
        \0\0\x29\x04\xd0\0\0\0\0\0\x0b\0\x08\0\x07\0\x01\x18\0\xc6\x33\x64",
    ),
];

fn has(out: &ReplyBuffer, octets: &[u8]) -> bool {
    out.as_slice() == octets
}

/// Whether a datagram has the reply that its row says.
fn replies_so(version: &MapVersion, out: &mut ReplyBuffer, row: &ReplyRow) -> bool
    requires { IsVersion version.now }
{
    let (octets, draw, answer, want) = row;
    silent(*octets) == (*answer == Answer::Silent)
        && reply(version, FROM, *octets, *draw, Way::Datagram, out) == *answer
        && has(out, *want)
}

/// The same of each, into one buffer.
fn all_reply_so(version: &MapVersion, rows: &[ReplyRow]) -> bool
    requires { IsVersion version.now }
{
    let mut out = ArrayVec::new();
    for row in rows {
        if !replies_so(version, &mut out, row) {
            return false;
        }
    }
    true
}

/// The code of a reply; 15 where there is none.
fn code_of(octets: &[u8]) -> u8
    ensures { result < 16 }
{
    match octets.get(3) {
        Some(flags) => *flags % 16,
        None => 15,
    }
}

/// The code and the size of the reply to a datagram.
fn replied(version: &MapVersion, octets: &[u8]) -> (u8, usize)
    requires { IsVersion version.now }
    ensures { result.0 < 16 }
{
    let mut out = ArrayVec::new();
    let _ = reply(version, FROM, octets, 0, Way::Datagram, &mut out);
    (code_of(out.as_slice()), out.len())
}

/// How often each code came, and how many octets in all.
#[derive(Clone, Copy)]
struct Counts {
    codes: [u32; 16],
    octets: usize,
}

fn count_reply(version: &MapVersion, octets: &[u8], counts: &mut Counts)
    requires { IsVersion version.now }
{
    let (code, size) = replied(version, octets);
    let codes = &mut counts.codes[usize::from(code)];
    *codes = codes.wrapping_add(1);
    counts.octets = counts.octets.wrapping_add(size);
}

/// A query with a subnet.
const QUERY: [u8; 55] =
    *b"\x12\x34\x01\0\0\x01\0\0\0\0\0\x01\x03www\x03cdn\x07example\0\0\x01\0\x01\
    \0\0\x29\x04\xd0\0\0\0\0\0\x0b\0\x08\0\x07\0\x01\x18\0\xc6\x33\x64";

/// Counts the replies to the query with one octet set to each value.
fn count_values(version: &MapVersion, at: usize, counts: &mut Counts)
    requires version { IsVersion version.now }
    requires at { at < 55 }
{
    let mut changed = QUERY;
    for value in 0..=255u8 {
        changed[at] = value;
        count_reply(version, &changed, counts);
    }
}

fn counts_of(version: &MapVersion) -> Counts
    requires { IsVersion version.now }
{
    let mut counts = Counts {
        codes: [0; 16],
        octets: 0,
    };
    for at in 0..55usize {
        count_values(version, at, &mut counts);
    }
    counts
}

/// How often each code comes, and how many octets are replied in all, as another program counted them.
const CODES: [u32; 16] = [
    4671, 5334, 0, 762, 120, 3065, 0, 0, 0, 0, 0, 0, 0, 0, 0, 128,
];

const OCTETS: usize = 677_457;

/// Whether just these replies come where each octet of a query with a subnet is set to each value.
fn counts_are_right(version: &MapVersion) -> bool
    requires { IsVersion version.now }
{
    let counts = counts_of(version);
    counts.codes == CODES && counts.octets == OCTETS
}

/// What is not as it is to be over the first version of the example, if anything is.
fn wrong_over(version: &MapVersion) -> Option<&'static str>
    requires { IsVersion version.now }
{
    if version.groups() != 2 {
        return Some("groups");
    }
    if !fall_so(version, DRAWS) {
        return Some("picks by draw");
    }
    if !all_reply_so(version, REPLIES) {
        return Some("replies");
    }
    if !counts_are_right(version) {
        return Some("replies to each change");
    }
    None
}

fn wrong_in_example(alloc: Global) -> Option<&'static str> {
    match first_version(alloc) {
        Some(version) => wrong_over(&version),
        None => Some("no version"),
    }
}

#[test]
fn replies_of_the_example(rt: HostRuntime) {
    assert_eq!(rt; wrong_in_example(rt.alloc()), None);
}
