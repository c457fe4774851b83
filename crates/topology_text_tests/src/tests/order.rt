//! Which of two faults counts.
use super::{Row, rows_are_read};

/// Two faults, the later in the file first by its number or the earlier by its place.
const TWO_FAULTS: &[Row] = &[
    (
        &[
            ("serial = 1\n", "serial = -1\n"),
            ("[3, 4]\n", "[3, 4]\ncolor = 1\n"),
        ],
        "4 unknown key at group 1",
    ),
    (
        &[
            ("ttl = 20\n", "ttl = 20\ncolor = 1\n"),
            ("demand = 8\n", ""),
        ],
        "2 missing key at group 0 demand",
    ),
    (
        &[
            ("\"ns2.ops.example\"", "\"ns.cdn.example\""),
            ("[3, 4]", "[3]"),
        ],
        "15 list shape at group 1 scores",
    ),
    (
        &[
            ("198.51.100.0/24", "0.0.0.0/0"),
            ("\"192.0.2.2\"", "\"192.0.2\""),
        ],
        "11 bad address at node 2 a 0",
    ),
    (
        &[
            ("capacity = 15", "capacity = -1"),
            ("ttl = 20", "ttl = -20"),
        ],
        "10 out of range at zone ttl",
    ),
    (
        &[
            (
                "name = \"R\"\ncapacity = 15",
                "name = \"R R\"\ncapacity = 15",
            ),
            ("\"g2\"", "\"g2!\""),
        ],
        "5 bad name at node 0 name",
    ),
    (
        &[("[1, 2]", "[1, -2]"), ("demand = 8\n", "demand = 0\n")],
        "10 out of range at group 0 demand",
    ),
];

#[test]
fn first_of_two(rt: HostRuntime) {
    assert!(rt; rows_are_read(&rt, rt.alloc(), TWO_FAULTS));
}
