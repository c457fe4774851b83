//! Whole texts, and those that are no documents.
use super::{GROUPS, NODES, ZONE, is_read_as, joined};
use std::alloc::Global;
use std::process::Abort;

/// Texts, and what each is read as.
const TEXTS: &[(&[u8], &str)] = &[
    (b"", "2 missing key at top zone"),
    (b"[zone]", "2 missing key at top node"),
    (
        b"[[zone]]\n[[node]]\n[[group]]",
        "2 missing key at node 0 name",
    ),
    (
        b"zone = 1\nnode = []\ngroup = []",
        "3 wrong kind at top zone",
    ),
    (
        b"node = 1\ngroup = []\n[zone]",
        "2 missing key at zone apex",
    ),
    (b"[zone", "1 not toml"),
    (b"a = 1\na = 1", "1 not toml"),
    (b"serial = 99999999999999999999", "1 not toml"),
    (b"serial = 01", "1 not toml"),
    (b"a = \"\xff\"", "1 not toml"),
];

fn texts_are_read(rt: &impl Abort, alloc: Global, rows: &[(&[u8], &str)]) -> bool {
    for (text, expected) in rows {
        if !is_read_as(rt, alloc, *text, *expected) {
            return false;
        }
    }
    true
}

#[test]
fn whole_texts(rt: HostRuntime) {
    assert!(rt; texts_are_read(&rt, rt.alloc(), TEXTS));
}

/// Texts in front of the example's zone, and what is read then.
const FRONTS: &[(&str, &str)] = &[
    ("node = [3]\ngroup = []", "3 wrong kind at top node 0"),
    ("node = 1\ngroup = []", "3 wrong kind at top node"),
    ("node = []\ngroup = [[]]", "3 wrong kind at top group 0"),
    ("node = []\ngroup = []", "14 no default at family 4"),
];

fn front_is_read(rt: &impl Abort, alloc: Global, front: &str, expected: &str) -> bool {
    match joined(alloc, &[front, "\n", ZONE]) {
        Some(text) => is_read_as(rt, alloc, text.as_bytes(), expected),
        None => false,
    }
}

fn fronts_are_read(rt: &impl Abort, alloc: Global, rows: &[(&str, &str)]) -> bool {
    for (front, expected) in rows {
        if !front_is_read(rt, alloc, *front, *expected) {
            return false;
        }
    }
    true
}

#[test]
fn arrays_beside_the_zone(rt: HostRuntime) {
    assert!(rt; fronts_are_read(&rt, rt.alloc(), FRONTS));
}

#[test]
fn byte_order_mark(rt: HostRuntime) {
    let marked = joined(rt.alloc(), &["\u{feff}", ZONE, NODES, GROUPS]).expect(&rt, "memory");
    assert!(rt; is_read_as(&rt, rt.alloc(), marked.as_bytes(), "good"));
}

/// A text with so many arrays in one another.
fn nested(alloc: Global, depth: usize) -> Option<String> {
    let deep = "[".repeat(alloc, depth).ok()?;
    joined(alloc, &["zone = ", deep.as_str()])
}

#[test]
fn nested_too_deep(rt: HostRuntime) {
    let text = nested(rt.alloc(), 10_000).expect(&rt, "memory");
    assert!(rt; is_read_as(&rt, rt.alloc(), text.as_bytes(), "1 not toml"));
}
