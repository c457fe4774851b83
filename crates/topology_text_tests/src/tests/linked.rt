//! Names, and what they lead to.
use super::{Row, rows_are_read};

/// Names against their rule.
const AGAINST_THE_RULE: &[Row] = &[
    (
        &[("cdn.example", "cdn..example")],
        "5 bad name at zone apex",
    ),
    (&[("admin.ops", "admin@ops")], "5 bad name at zone rname"),
    (
        &[("\"ns2.ops.example\"", "\"\"")],
        "5 bad name at zone ns 1",
    ),
    (
        &[("\"www\"", "\"www\", \"w.w\"")],
        "5 bad name at zone services 1",
    ),
    (&[("\"R\"", "\"\"")], "5 bad name at node 0 name"),
    (&[("\"g1\"", "\"g 1\"")], "5 bad name at group 0 name"),
];

#[test]
fn bad_names(rt: HostRuntime) {
    assert!(rt; rows_are_read(&rt, rt.alloc(), AGAINST_THE_RULE));
}

/// Names that stand twice.
const TWICE: &[Row] = &[
    (&[("\"B\"", "\"A\"")], "6 duplicate name at node 2 name"),
    (&[("\"g2\"", "\"g1\"")], "6 duplicate name at group 1 name"),
    (
        &[(
            "\"ns2.ops.example\"",
            "\"x.ops.example\", \"NS1.Ops.Example.\"",
        )],
        "6 duplicate name at zone ns 2",
    ),
    (
        &[("\"www\"", "\"www\", \"api\", \"WWW\"")],
        "6 duplicate name at zone services 2",
    ),
];

#[test]
fn duplicate_names(rt: HostRuntime) {
    assert!(rt; rows_are_read(&rt, rt.alloc(), TWICE));
}

/// Names of nothing.
const NAMES_OF_NOTHING: &[Row] = &[
    (
        &[("parent = \"R\"", "parent = \"X\"")],
        "7 unknown name at node 1 parent",
    ),
    (
        &[("[\"A\", \"B\"]", "[\"A\", \"R\"]")],
        "7 unknown name at group 0 pools 1",
    ),
    (
        &[("[\"A\", \"B\"]", "[\"b\"]")],
        "7 unknown name at group 0 pools 0",
    ),
];

#[test]
fn unknown_names(rt: HostRuntime) {
    assert!(rt; rows_are_read(&rt, rt.alloc(), NAMES_OF_NOTHING));
}

/// Parents that stand elsewhere.
const MISPLACED: &[Row] = &[
    (
        &[("parent = \"R\"", "parent = \"A\"")],
        "8 parent order at node 1 parent",
    ),
    (
        &[("parent = \"R\"", "parent = \"B\"")],
        "8 parent order at node 1 parent",
    ),
    (
        &[("\"B\"\nparent = \"R\"", "\"B\"\nparent = \"A\"")],
        "8 parent order at node 2 parent",
    ),
    (
        &[(
            "name = \"R\"\ncapacity = 15\n[[node]]\nname = \"A\"\nparent = \"R\"\ncapacity = 10\npool = true\na = [\"192.0.2.1\"]\naaaa = [\"2001:db8::1\"]\n",
            "name = \"A\"\nparent = \"R\"\ncapacity = 10\npool = true\na = [\"192.0.2.1\"]\naaaa = [\"2001:db8::1\"]\n[[node]]\nname = \"R\"\ncapacity = 15\n",
        )],
        "8 parent order at node 0 parent",
    ),
];

#[test]
fn parents(rt: HostRuntime) {
    assert!(rt; rows_are_read(&rt, rt.alloc(), MISPLACED));
}
