//! Keys that are missing, that no table has, and values of the wrong kind.
use super::{Row, rows_are_read};

/// Keys that are missing.
const KEYS_LEFT_OUT: &[Row] = &[
    (
        &[("ttl = 20\n", "color = 1\n")],
        "2 missing key at zone ttl",
    ),
    (
        &[("services = [\"www\"]\n", "")],
        "2 missing key at zone services",
    ),
    (
        &[("capacity = 15\n", "")],
        "2 missing key at node 0 capacity",
    ),
    (&[("name = \"B\"\n", "")], "2 missing key at node 2 name"),
    (
        &[("scores = [3, 4]\n", "")],
        "2 missing key at group 1 scores",
    ),
];

#[test]
fn missing_keys(rt: HostRuntime) {
    assert!(rt; rows_are_read(&rt, rt.alloc(), KEYS_LEFT_OUT));
}

/// Values and items of the wrong kind.
const OTHER_KINDS: &[Row] = &[
    (
        &[("serial = 1\n", "serial = \"1\"\n")],
        "3 wrong kind at zone serial",
    ),
    (
        &[("capacity = 15\n", "capacity = 15.0\n")],
        "3 wrong kind at node 0 capacity",
    ),
    (
        &[("pool = true\n", "pool = 1\n")],
        "3 wrong kind at node 1 pool",
    ),
    (
        &[("scores = [1, 2]", "scores = [1, 2]\nlimits = [5]")],
        "15 list shape at group 0 limits",
    ),
    (
        &[("scores = [1, 2]", "scores = [1, 2]\nlimits = [5, 0]")],
        "10 out of range at group 0 limits 1",
    ),
    (
        &[("scores = [1, 2]", "scores = [1, 2]\nlimits = [5, \"x\"]")],
        "3 wrong kind at group 0 limits 1",
    ),
    (
        &[("[1, 2]", "[1, \"2\"]")],
        "3 wrong kind at group 0 scores 1",
    ),
    (
        &[("services = [\"www\"]", "services = \"www\"")],
        "3 wrong kind at zone services",
    ),
    (
        &[("[\"A\", \"B\"]", "[[\"A\"], \"B\"]")],
        "3 wrong kind at group 0 pools 0",
    ),
];

#[test]
fn wrong_kinds(rt: HostRuntime) {
    assert!(rt; rows_are_read(&rt, rt.alloc(), OTHER_KINDS));
}

/// Keys that no table has.
const OTHER_KEYS: &[Row] = &[
    (
        &[("ttl = 20\n", "ttl = 20\ncolor = 1\n")],
        "4 unknown key at zone",
    ),
    (
        &[("name = \"g2\"\n", "name = \"g2\"\nweight = 1\n")],
        "4 unknown key at group 1",
    ),
    (
        &[("name = \"A\"\n", "name = \"A\"\nPool = true\n")],
        "4 unknown key at node 1",
    ),
    (
        &[("[zone]\n", "color = 1\n[zone]\n")],
        "4 unknown key at top",
    ),
];

#[test]
fn unknown_keys(rt: HostRuntime) {
    assert!(rt; rows_are_read(&rt, rt.alloc(), OTHER_KEYS));
}
