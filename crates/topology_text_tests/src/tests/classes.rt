//! Traffic classes: the faults of one and of two, and the units that they become.
use super::{GROUPS, NODES, Row, ZONE, is_read_as, joined, replaced};
use map_model::GroupId;
use std::alloc::Global;
use std::process::Abort;
use topology_text::{Topology, read_topology};

/// What g2 asks of its one service.
const CLASS: &str =
    "[[class]]\nname = \"g2www\"\ngroup = \"g2\"\nservice = \"www\"\ndemand = 3\npools = [\"B\"]\nscores = [1]\n";

/// A second class of that group and service, in other letters.
const AGAIN: &str =
    "[[class]]\nname = \"o\"\ngroup = \"g2\"\nservice = \"WWW\"\ndemand = 3\npools = [\"B\"]\nscores = [1]\n";

/// The example with that class and a text behind it, with some texts changed.
fn with_class(alloc: Global, behind: &str, changes: &[(&str, &str)]) -> Option<String> {
    let mut text = joined(alloc, &[ZONE, NODES, GROUPS, CLASS, behind])?;
    for (from, to) in changes {
        text = replaced(alloc, text.as_str(), *from, *to)?;
    }
    Some(text)
}

fn class_is_read(rt: &impl Abort, alloc: Global, behind: &str, row: &Row) -> bool {
    let (changes, expected) = row;
    match with_class(alloc, behind, *changes) {
        Some(text) => is_read_as(rt, alloc, text.as_bytes(), *expected),
        None => false,
    }
}

fn classes_are_read(rt: &impl Abort, alloc: Global, behind: &str, rows: &[Row]) -> bool {
    for row in rows {
        if !class_is_read(rt, alloc, behind, row) {
            return false;
        }
    }
    true
}

/// What is changed in one class, and what is read then.
const ONE: &[Row] = &[
    (&[], "good"),
    (&[("service = \"www\"", "service = \"WwW\"")], "good"),
    (
        &[("group = \"g2\"\n", "")],
        "2 missing key at class 0 group",
    ),
    (
        &[("service = \"www\"\n", "")],
        "2 missing key at class 0 service",
    ),
    (
        &[("[[class]]\nname", "[class]\nname")],
        "3 wrong kind at top class",
    ),
    (
        &[("group = \"g2\"", "group = [\"g2\"]")],
        "3 wrong kind at class 0 group",
    ),
    (
        &[("demand = 3", "demand = 3\nprefixes = []")],
        "4 unknown key at class 0",
    ),
    (&[("g2www", "")], "5 bad name at class 0 name"),
    (&[("g2www", "g1")], "6 duplicate name at class 0 name"),
    (
        &[("group = \"g2\"", "group = \"g3\"")],
        "7 unknown name at class 0 group",
    ),
    (
        &[("group = \"g2\"", "group = \"g2www\"")],
        "7 unknown name at class 0 group",
    ),
    (
        &[("service = \"www\"", "service = \"api\"")],
        "7 unknown name at class 0 service",
    ),
    (
        &[
            ("service = \"www\"", "service = \"api\""),
            ("group = \"g2\"", "group = \"G2\""),
        ],
        "7 unknown name at class 0 group",
    ),
    (
        &[("pools = [\"B\"]", "pools = [\"R\"]")],
        "7 unknown name at class 0 pools 0",
    ),
    (
        &[("demand = 3", "demand = 0")],
        "10 out of range at class 0 demand",
    ),
    (
        &[("scores = [1]\n", "scores = [1]\nlimits = [0]\n")],
        "10 out of range at class 0 limits 0",
    ),
    (
        &[("scores = [1]\n", "scores = []\nlimits = [5, 5]\n")],
        "15 list shape at class 0 scores",
    ),
    (
        &[("scores = [1]\n", "scores = [1]\nlimits = [5, 5]\n")],
        "15 list shape at class 0 limits",
    ),
];

#[test]
fn faults_of_one_class(rt: HostRuntime) {
    assert!(rt; classes_are_read(&rt, rt.alloc(), "", ONE));
}

/// What is changed where a second class stands behind the first.
const TWO: &[Row] = &[
    (&[], "6 duplicate name at class 1 service"),
    (
        &[("name = \"o\"", "name = \"g2www\"")],
        "6 duplicate name at class 1 name",
    ),
    (
        &[("\"g2\"\nservice = \"WWW\"", "\"g1\"\nservice = \"WWW\"")],
        "good",
    ),
    (
        &[("\"g2\"\nservice = \"WWW\"", "\"g9\"\nservice = \"WWW\"")],
        "7 unknown name at class 1 group",
    ),
];

#[test]
fn faults_of_two_classes(rt: HostRuntime) {
    assert!(rt; classes_are_read(&rt, rt.alloc(), AGAIN, TWO));
}

/// Whether each group's unit for its service, and for one that the zone has not, is the stated one.
fn are_units(topology: &Topology) -> bool {
    if topology.instance().groups() < 3 {
        return false;
    }
    let (first, second, class) = (GroupId(0), GroupId(1), GroupId(2));
    topology.group_named(b"g2www") == Some(class)
        && topology.unit_of(first, 0) == first
        && topology.unit_of(second, 0) == class
        && topology.unit_of(second, 1) == second
        && topology.unit_of(second, 255) == second
        && topology.instance().demand(class) == 3
}

fn has_units(alloc: Global) -> bool {
    let Some(text) = with_class(alloc, "", &[]) else {
        return false;
    };
    match read_topology(alloc, text.as_bytes()) {
        Ok(topology) => are_units(&topology),
        Err(_) => false,
    }
}

#[test]
fn units(rt: HostRuntime) {
    assert!(rt; has_units(rt.alloc()));
}
