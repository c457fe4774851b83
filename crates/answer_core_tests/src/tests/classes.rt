//! Replies where a group has a class for the service: the units of the class are answered, and those of the group are not.
ghost use Rattle.published_map.specs.Version.{IsVersion};

use super::{FROM, has, version_of_text};
use addr_text::Addr;
use answer_core::{Way, reply};
use arrayvec::ArrayVec;
use published_map::MapVersion;
use std::alloc::Global;
use worlds::EXAMPLE_TREE;

/// A class of the example's second group, all of which is at the second pool.
const CLASS: &str = r#"
[[class]]
name = "g2www"
group = "g2"
service = "www"
demand = 3
pools = ["B"]
scores = [1]
"#;

/// An address of the first group.
const OTHER: Addr = Addr::V4(0xcb00_7109);

/// Whether the query for www.cdn.example from an address is answered with that pool's address.
fn is_answered(version: &MapVersion, from: Addr, answer: &[u8]) -> bool
    requires { IsVersion version.now }
{
    let query = b"\x12\x34\x01\0\0\x01\0\0\0\0\0\0\x03www\x03cdn\x07example\0\0\x01\0\x01";
    let mut out = ArrayVec::new();
    let _ = reply(version, from, query, 0, Way::Datagram, &mut out);
    has(&out, answer)
}

fn are_answered(version: &MapVersion) -> bool
    requires { IsVersion version.now }
{
    is_answered(
        version,
        FROM,
        b"\x12\x34\x85\0\0\x01\0\x01\0\0\0\0\x03www\x03cdn\x07example\0\0\x01\0\x01\
        \xc0\x0c\0\x01\0\x01\0\0\0\x14\0\x04\xc0\0\x02\x02",
    ) && is_answered(
        version,
        OTHER,
        b"\x12\x34\x85\0\0\x01\0\x01\0\0\0\0\x03www\x03cdn\x07example\0\0\x01\0\x01\
        \xc0\x0c\0\x01\0\x01\0\0\0\x14\0\x04\xc0\0\x02\x01",
    )
}

fn are_of_classes(alloc: Global) -> bool {
    let lines = &[(0, 0, 8), (1, 0, 2), (1, 1, 2), (2, 0, 3)];
    let names = &[(1, 0, 1), (1, 1, 0)];
    match version_of_text(alloc, &[EXAMPLE_TREE, CLASS], lines, names) {
        Some(version) => are_answered(&version),
        None => false,
    }
}

/// The second group's class is at the second pool, though its first unit is at the first; the first group has no class.
#[test]
fn classes_are_answered(rt: HostRuntime) {
    assert!(rt; are_of_classes(rt.alloc()));
}
