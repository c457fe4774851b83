//! Numbers, addresses and prefixes.
use super::{Row, rows_are_read};

/// Numbers out of range.
const OUT_OF_RANGE: &[Row] = &[
    (
        &[("serial = 1\n", "serial = -1\n")],
        "10 out of range at zone serial",
    ),
    (
        &[("refresh = 3600", "refresh = 4294967296")],
        "10 out of range at zone refresh",
    ),
    (&[("retry = 600", "retry = 4294967295")], "good"),
    (
        &[("minimum = 60", "minimum = 2147483648")],
        "10 out of range at zone minimum",
    ),
    (&[("ttl = 20", "ttl = 2147483647")], "good"),
    (&[("capacity = 15", "capacity = 281474976710656")], "good"),
    (
        &[("capacity = 15", "capacity = 281474976710657")],
        "10 out of range at node 0 capacity",
    ),
    (
        &[("demand = 8", "demand = 0")],
        "10 out of range at group 0 demand",
    ),
    (&[("demand = 8", "demand = 4294967295")], "good"),
    (
        &[("[3, 4]", "[4294967295, 4294967296]")],
        "10 out of range at group 1 scores 1",
    ),
];

#[test]
fn ranges(rt: HostRuntime) {
    assert!(rt; rows_are_read(&rt, rt.alloc(), OUT_OF_RANGE));
}

/// Texts that are no addresses of their family, or no prefixes.
const NO_TEXTS_OF_THEIR_KIND: &[Row] = &[
    (
        &[("\"192.0.2.1\"", "\"192.0.2.1\", \"2001:db8::2\"")],
        "11 bad address at node 1 a 1",
    ),
    (
        &[("\"2001:db8::1\"", "\"192.0.2.3\"")],
        "11 bad address at node 1 aaaa 0",
    ),
    (
        &[("\"192.0.2.2\"", "\"192.0.2.02\"")],
        "11 bad address at node 2 a 0",
    ),
    (
        &[("[\"0.0.0.0/0\"", "[\"198.51.100.1/24\", \"0.0.0.0/0\"")],
        "12 bad prefix at group 0 prefixes 0",
    ),
    (
        &[("198.51.100.0/24", "198.51.100.0/33")],
        "12 bad prefix at group 1 prefixes 0",
    ),
];

#[test]
fn addresses_and_prefixes(rt: HostRuntime) {
    assert!(rt; rows_are_read(&rt, rt.alloc(), NO_TEXTS_OF_THEIR_KIND));
}

/// Prefixes that stand twice, and default prefixes that are missing.
const TWICE_OR_MISSING: &[Row] = &[
    (
        &[("198.51.100.0/24", "0.0.0.0/0")],
        "13 duplicate prefix at group 1 prefixes 0",
    ),
    (
        &[("\"::/0\"", "\"::/0\", \"0:0::0/0\"")],
        "13 duplicate prefix at group 0 prefixes 2",
    ),
    (&[(", \"::/0\"", "")], "14 no default at family 6"),
    (&[("\"0.0.0.0/0\", ", "")], "14 no default at family 4"),
    (
        &[("\"0.0.0.0/0\", \"::/0\"", "")],
        "14 no default at family 4",
    ),
    (&[(", \"::/0\"", ""), ("198.51.100.0/24", "::/0")], "good"),
];

#[test]
fn prefixes_beside_one_another(rt: HostRuntime) {
    assert!(rt; rows_are_read(&rt, rt.alloc(), TWICE_OR_MISSING));
}
