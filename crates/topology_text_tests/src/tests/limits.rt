//! Lists: their shape, their limits, and name servers in the zone.
use super::{Row, rows_are_read};

/// Lists against their shape.
const SHAPES: &[Row] = &[
    (
        &[("[\"ns1.ops.example\", \"ns2.ops.example\"]", "[]")],
        "15 list shape at zone ns",
    ),
    (&[("services = [\"www\"]", "services = []")], "good"),
    (
        &[("capacity = 15\n", "capacity = 15\na = [\"192.0.2.9\"]\n")],
        "15 list shape at node 0 a",
    ),
    (
        &[("capacity = 15\n", "capacity = 15\npool = false\na = []\n")],
        "good",
    ),
    (
        &[("capacity = 15\n", "capacity = 15\naaaa = [\"::\"]\n")],
        "15 list shape at node 0 aaaa",
    ),
    (
        &[(
            "pools = [\"A\", \"B\"]\nscores = [3, 4]",
            "pools = []\nscores = []",
        )],
        "15 list shape at group 1 pools",
    ),
    (
        &[("[\"A\", \"B\"]", "[\"A\", \"A\"]")],
        "15 list shape at group 0 pools",
    ),
    (&[("[3, 4]", "[3]")], "15 list shape at group 1 scores"),
    (
        &[(
            "capacity = 15\n",
            "capacity = 15\na = [\"0.0.0.0\",\"0.0.0.0\",\"0.0.0.0\",\"0.0.0.0\",\"0.0.0.0\",\"0.0.0.0\",\"0.0.0.0\",]\n",
        )],
        "15 list shape at node 0 a",
    ),
];

#[test]
fn list_shapes(rt: HostRuntime) {
    assert!(rt; rows_are_read(&rt, rt.alloc(), SHAPES));
}

/// Name servers in the zone.
const INSIDE: &[Row] = &[
    (
        &[("\"ns2.ops.example\"", "\"ns.cdn.example\"")],
        "16 ns inside at zone ns 1",
    ),
    (
        &[("\"ns1.ops.example\", ", "\"CDN.Example.\", ")],
        "16 ns inside at zone ns 0",
    ),
    (&[("\"ns1.ops.example\", ", "\"xcdn.example\", ")], "good"),
    (
        &[(
            "\"ns2.ops.example\"",
            "\"a.example\", \"b.example\", \"c.example\", \"cdn.example\"",
        )],
        "16 ns inside at zone ns 4",
    ),
];

#[test]
fn name_servers_inside(rt: HostRuntime) {
    assert!(rt; rows_are_read(&rt, rt.alloc(), INSIDE));
}

/// Past a limit.
const PAST: &[Row] = &[
    (
        &[(
            "\"ns2.ops.example\"",
            "\"a.example\", \"b.example\", \"c.example\"",
        )],
        "good",
    ),
    (
        &[(
            "\"ns2.ops.example\"",
            "\"a.example\", \"b.example\", \"c.example\", \"d.example\"",
        )],
        "17 too many at zone ns",
    ),
];

#[test]
fn limits(rt: HostRuntime) {
    assert!(rt; rows_are_read(&rt, rt.alloc(), PAST));
}
