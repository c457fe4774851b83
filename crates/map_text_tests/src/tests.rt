//! Maps that are read and written again, and the first fault of those that are not read.
use map_text::{MapFault, Written, read_map, write_after, write_first, write_map};
use std::alloc::Global;
use std::test::Fail;
use topology_text::{Topology, read_topology};

/// A root of 15 units over two pools of 10, and two groups of 8 that ask both.
const TOPOLOGY: &[u8] =
    b"[zone]\napex = \"cdn.example\"\nmname = \"ns1.ops.example\"\nrname = \"admin.ops.example\"\nserial = 1\nrefresh = 3600\nretry = 600\nexpire = 86400\nminimum = 60\nttl = 20\nns = [\"ns1.ops.example\", \"ns2.ops.example\"]\nservices = [\"www\"]\n[[node]]\nname = \"R\"\ncapacity = 15\n[[node]]\nname = \"A\"\nparent = \"R\"\ncapacity = 10\npool = true\n[[node]]\nname = \"B\"\nparent = \"R\"\ncapacity = 10\npool = true\n[[group]]\nname = \"g1\"\ndemand = 8\npools = [\"A\", \"B\"]\nscores = [1, 2]\nprefixes = [\"0.0.0.0/0\", \"::/0\"]\n[[group]]\nname = \"g2\"\ndemand = 8\npools = [\"A\", \"B\"]\nscores = [3, 4]\nprefixes = []\n";

/// Texts, and what each comes to: the text of its map, or what is wrong with it.
const ROWS: &[(&str, &str)] = &[
    (
        "glb map 2\nplace g1 A 5\nplace g1 B 3\nplace g2 A 5\nplace g2 B 2\nlimit g1 A\nfull g2 A A\nfull g2 B R\nend\n",
        "glb map 2\nplace g1 A 5\nplace g1 B 3\nplace g2 A 5\nplace g2 B 2\nlimit g1 A\nfull g2 A A\nfull g2 B R\nend\n",
    ),
    (
        "glb map 1\nplace g1 A 8\nplace g2 A 2\nplace g2 B 5\nfull g2 A A\nfull g2 B R\nend\n",
        "glb map 2\nplace g1 A 8\nplace g2 A 2\nplace g2 B 5\nfull g2 A A\nfull g2 B R\nend\n",
    ),
    ("glb map 1\nend\n", "glb map 2\nend\n"),
    (
        "glb map 2\nplace g2 B 4294967295\nend\n",
        "glb map 2\nplace g2 B 4294967295\nend\n",
    ),
    (
        "glb map 2\nplace g2 B 4294967296\nend\n",
        "bad line at line 2",
    ),
    ("glb map 3\nend\n", "bad line at line 1"),
    (
        "glb map 1\nplace g1 A 5\nlimit g1 A\nend\n",
        "bad line at line 3",
    ),
    ("glb map 1\nlimit g9 A\nend\n", "bad line at line 2"),
    ("glb map 2\nlimit g9 A\nend\n", "unknown name at line 2"),
    ("glb map 2\nlimit g1 A A\nend\n", "bad line at line 2"),
    (
        "glb map 2\nfull g2 A A\nlimit g1 A\nend\n",
        "order at line 3",
    ),
    (
        "glb map 2\nlimit g1 A\nfull g1 A A\nend\n",
        "order at line 3",
    ),
    (
        "glb map 2\nlimit g1 A\nplace g2 A 8\nend\n",
        "order at line 3",
    ),
    (
        "glb map 2\nplace g1 A 8\nplace g2 A 2\nplace g1 B 8\nend\n",
        "order at line 4",
    ),
    ("glb map 2\nplace g9 A 1\nend\n", "unknown name at line 2"),
    (
        "glb map 2\nplace g1 A 8\nplace g2 A 2\nplace g2 B 5\nlimit g2 A\n",
        "truncated",
    ),
    ("glb map 2\nend", "truncated"),
];

/// The text of the map that a text says.
fn again(alloc: Global, topology: &Topology, text: &str) -> Result<Vec<u8>, MapFault> {
    let map = read_map(alloc, topology, text.as_bytes())?;
    Ok(write_map(alloc, topology, &map)?)
}

/// Whether a text comes to that.
fn comes_to(alloc: Global, topology: &Topology, text: &str, expected: &str) -> bool {
    match again(alloc, topology, text) {
        Ok(written) => written.as_slice() == expected.as_bytes(),
        Err(fault) => match format!(in alloc; "{fault}") {
            Ok(told) => told.as_str() == expected,
            Err(_) => false,
        },
    }
}

/// Texts of maps, each of which is to be written by each other one.
const MAPS: &[&str] = &[
    "glb map 2\nplace g1 A 5\nplace g1 B 3\nplace g2 A 5\nplace g2 B 2\nlimit g1 A\nfull g2 A A\nfull g2 B R\nend\n",
    "glb map 2\nplace g1 A 5\nplace g1 B 3\nplace g2 A 5\nplace g2 B 2\nlimit g1 A\nfull g2 A A\nlimit g2 B\nend\n",
    "glb map 2\nplace g1 A 8\nplace g2 A 2\nplace g2 B 5\nfull g2 A A\nfull g2 B R\nend\n",
    "glb map 2\nend\n",
];

/// The text of the map that a text says, written by that of another map.
fn behind(
    alloc: Global,
    topology: &Topology,
    first: &str,
    text: &str,
) -> Result<Vec<u8>, MapFault> {
    let old = read_map(alloc, topology, first.as_bytes())?;
    let new = read_map(alloc, topology, text.as_bytes())?;
    let before = write_first(alloc, topology, &old)?;
    let after = write_after(
        alloc,
        topology,
        before.text.as_slice(),
        &before.cuts,
        &old,
        &new,
    )?;
    let Written { text, cuts: _ } = after;
    Ok(text)
}

/// Whether a text comes out as it is behind another one.
fn comes_behind(alloc: Global, topology: &Topology, first: &str, text: &str) -> bool {
    match behind(alloc, topology, first, text) {
        Ok(written) => written.as_slice() == text.as_bytes(),
        Err(_) => false,
    }
}

/// The first text behind which another one does not come out as it is.
fn first_spoiling(alloc: Global, topology: &Topology, text: &str) -> Option<&'static str> {
    for first in MAPS {
        if !comes_behind(alloc, topology, *first, text) {
            return Some(*first);
        }
    }
    None
}

/// The first text that does not come out as it is behind another one.
fn first_spoilt(alloc: Global, topology: &Topology) -> Option<&'static str> {
    for text in MAPS {
        if first_spoiling(alloc, topology, *text).is_some() {
            return Some(*text);
        }
    }
    None
}

/// The first text that does not come to what it should.
fn first_wrong(alloc: Global, topology: &Topology) -> Option<&'static str> {
    for (text, expected) in ROWS {
        if !comes_to(alloc, topology, *text, *expected) {
            return Some(*text);
        }
    }
    None
}

#[test]
fn what_is_read_is_written_again(rt: HostRuntime) -> Result<(), Fail> {
    let alloc = rt.alloc();
    let topology = read_topology(alloc, TOPOLOGY)?;
    assert_eq!(rt; first_wrong(alloc, &topology), None);
    Ok(())
}

#[test]
fn a_text_is_the_same_by_any_other(rt: HostRuntime) -> Result<(), Fail> {
    let alloc = rt.alloc();
    let topology = read_topology(alloc, TOPOLOGY)?;
    assert_eq!(rt; first_spoilt(alloc, &topology), None);
    Ok(())
}
