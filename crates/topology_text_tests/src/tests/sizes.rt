//! Names, lists, paths and whole topologies at their limits and just past them.
use super::{GROUPS, NODES, ZONE, example, is_read_as, joined, replaced};
use std::alloc::Global;
use std::process::Abort;

/// A topology by how many there are of something in it, as the function says that makes it.
#[derive(Clone, Copy)]
enum Text {
    /// The example with a text changed to so many letters and an end, in quotes.
    Name(&'static str, usize, &'static str),
    /// The example with a list changed to one of so many texts, each with that front and back.
    List(&'static str, &'static str, usize, &'static str),
    Hosted(usize),
    Chain(usize),
    Asking(usize),
    /// So many more nodes and groups, and classes.
    More(usize, usize, &'static str),
    Prefixed(usize),
}

use Text::{Asking, Chain, Hosted, List, More, Name, Prefixed};

fn text_of(alloc: Global, made: Text) -> Option<String> {
    match made {
        Name(from, length, end) => with_name(alloc, from, length, end),
        List(from, front, count, back) => with_list(alloc, from, front, count, back),
        Hosted(count) => with_hosts(alloc, count),
        Chain(length) => with_path(alloc, length),
        Asking(count) => with_pools(alloc, count),
        More(nodes, groups, classes) => with_many(alloc, nodes, groups, classes),
        Prefixed(count) => with_addresses(alloc, count),
    }
}

/// A topology, and what is read of it.
type Row = (Text, &'static str);

fn row_is_read(rt: &impl Abort, alloc: Global, row: &Row) -> bool {
    let (made, expected) = *row;
    match text_of(alloc, made) {
        Some(text) => is_read_as(rt, alloc, text.as_bytes(), expected),
        None => false,
    }
}

fn rows_are_read(rt: &impl Abort, alloc: Global, rows: &[Row]) -> bool {
    for row in rows {
        if !row_is_read(rt, alloc, row) {
            return false;
        }
    }
    true
}

/// The example with the first place of a text changed to another.
fn example_but(alloc: Global, from: &str, to: &str) -> Option<String> {
    let text = example(alloc)?;
    replaced(alloc, text.as_str(), from, to)
}

/// So many texts, each of a front, its number from 0 and a back.
fn numbered(alloc: Global, front: &str, count: usize, back: &str) -> Option<String> {
    let mut text = String::new(alloc);
    for i in 0..count {
        let item = format!(in alloc; "{front}{i}{back}").ok()?;
        text.push_str(item.as_str()).ok()?;
    }
    Some(text)
}

/// A zone's name is a label, eight octets of `example` with its length, and the last 0: 64 octets where the label has 54.
const NAMES: &[Row] = &[
    (Name("\"g1\"", 32, ""), "good"),
    (Name("\"g1\"", 33, ""), "5 bad name at group 0 name"),
    (Name("\"ns2.ops.example\"", 54, ".example."), "good"),
    (
        Name("\"ns2.ops.example\"", 55, ".example."),
        "5 bad name at zone ns 1",
    ),
    (Name("\"admin.ops.example\"", 54, ".example."), "good"),
    (
        Name("\"cdn.example\"", 55, ".example."),
        "5 bad name at zone apex",
    ),
    (Name("\"www\"", 63, ""), "good"),
    (Name("\"www\"", 64, ""), "5 bad name at zone services 0"),
];

/// So many letters and an end, in quotes.
fn quoted(alloc: Global, length: usize, end: &str) -> Option<String> {
    let letters = "x".repeat(alloc, length).ok()?;
    joined(alloc, &["\"", letters.as_str(), end, "\""])
}

fn with_name(alloc: Global, from: &str, length: usize, end: &str) -> Option<String> {
    let name = quoted(alloc, length, end)?;
    example_but(alloc, from, name.as_str())
}

#[test]
fn lengths_of_names(rt: HostRuntime) {
    assert!(rt; rows_are_read(&rt, rt.alloc(), NAMES));
}

/// A list of texts `FRONT0` to `FRONTn`, each with the same back.
fn listed(alloc: Global, front: &str, count: usize, back: &str) -> Option<String> {
    let items = numbered(alloc, front, count, back)?;
    joined(alloc, &["[", items.as_str(), "]"])
}

fn with_list(alloc: Global, from: &str, front: &str, count: usize, back: &str) -> Option<String> {
    let list = listed(alloc, front, count, back)?;
    example_but(alloc, from, list.as_str())
}

const LISTS: &[Row] = &[
    (List("[\"www\"]", "\"s", 64, "\","), "good"),
    (
        List("[\"www\"]", "\"s", 65, "\","),
        "17 too many at zone services",
    ),
    (List("[\"2001:db8::1\"]", "\"::", 40, "\","), "good"),
    (
        List("[\"2001:db8::1\"]", "\"::", 41, "\","),
        "17 too many at node 1 aaaa",
    ),
    (
        List("[\"198.51.100.0/24\"]", "\"2001:db8::", 50_000, "/128\","),
        "12 bad prefix at group 1 prefixes 10000",
    ),
];

#[test]
fn lengths_of_lists(rt: HostRuntime) {
    assert!(rt; rows_are_read(&rt, rt.alloc(), LISTS));
}

/// A topology of one pool, which has so many addresses.
fn with_hosts(alloc: Global, count: usize) -> Option<String> {
    let addresses = listed(alloc, "\"192.0.2.", count, "\",")?;
    joined(alloc, &[ZONE, POOL, addresses.as_str(), ITS_GROUP])
}

/// A pool up to the list of its addresses.
const POOL: &str = "[[node]]\nname = \"A\"\ncapacity = 10\npool = true\na = ";

/// A group that asks that pool.
const ITS_GROUP: &str =
    "\n[[group]]\nname = \"g\"\ndemand = 4\npools = [\"A\"]\nscores = [1]\nprefixes = [\"0.0.0.0/0\", \"::/0\"]\n";

const HOSTS: &[Row] = &[
    (Hosted(40), "good"),
    (Hosted(41), "17 too many at node 0 a"),
];

#[test]
fn addresses_of_a_pool(rt: HostRuntime) {
    assert!(rt; rows_are_read(&rt, rt.alloc(), HOSTS));
}

/// A node under the one of the number before.
fn below(alloc: Global, number: usize) -> Option<String> {
    let above = number.saturating_sub(1);
    format!(in alloc; "[[node]]\nname = \"n{number}\"\ncapacity = 1\nparent = \"n{above}\"\n").ok()
}

/// Nodes under one another, so many behind the first one.
fn path(alloc: Global, more: usize) -> Option<String> {
    let mut text = String::from_str(alloc, "[[node]]\nname = \"n0\"\ncapacity = 1\n").ok()?;
    for number in 1..=more {
        let node = below(alloc, number)?;
        text.push_str(node.as_str()).ok()?;
    }
    Some(text)
}

/// The example with a path of so many nodes before its own nodes.
fn with_path(alloc: Global, length: usize) -> Option<String> {
    let path = path(alloc, length.saturating_sub(1))?;
    joined(alloc, &[ZONE, path.as_str(), NODES, GROUPS])
}

const PATHS: &[Row] = &[
    (Chain(8), "good"),
    (Chain(9), "9 too deep at node 8 parent"),
    (Chain(10), "9 too deep at node 8 parent"),
];

#[test]
fn depth(rt: HostRuntime) {
    assert!(rt; rows_are_read(&rt, rt.alloc(), PATHS));
}

/// So many nodes, each a pool.
fn pool_nodes(alloc: Global, count: usize) -> Option<String> {
    let back = "\"\ncapacity = 1\npool = true\n";
    numbered(alloc, "[[node]]\nname = \"p", count, back)
}

/// A group that asks so many of them.
fn wide_group(alloc: Global, count: usize) -> Option<String> {
    let pools = listed(alloc, "\"p", count, "\",")?;
    let scores = "7,".repeat(alloc, count).ok()?;
    format!(in alloc;
        "[[group]]\nname = \"wide\"\ndemand = 1\npools = {pools}\nscores = [{scores}]\nprefixes = []\n"
    ).ok()
}

/// The example with so many more nodes, each a pool, and a group that asks them.
fn with_pools(alloc: Global, count: usize) -> Option<String> {
    let nodes = pool_nodes(alloc, count)?;
    let group = wide_group(alloc, count)?;
    joined(
        alloc,
        &[ZONE, NODES, nodes.as_str(), GROUPS, group.as_str()],
    )
}

const POOLS: &[Row] = &[
    (Asking(1), "good"),
    (Asking(16), "good"),
    (Asking(17), "15 list shape at group 2 pools"),
];

#[test]
fn pools_in_a_list(rt: HostRuntime) {
    assert!(rt; rows_are_read(&rt, rt.alloc(), POOLS));
}

/// The example with so many more nodes and groups, and classes.
fn with_many(alloc: Global, nodes: usize, groups: usize, classes: &str) -> Option<String> {
    let node_back = "\"\ncapacity = 1\n";
    let nodes = numbered(alloc, "[[node]]\nname = \"n", nodes, node_back)?;
    let group_back = "\"\ndemand = 1\npools = [\"A\"]\nscores = [1]\nprefixes = []\n";
    let groups = numbered(alloc, "[[group]]\nname = \"x", groups, group_back)?;
    joined(
        alloc,
        &[
            ZONE,
            NODES,
            nodes.as_str(),
            GROUPS,
            groups.as_str(),
            classes,
        ],
    )
}

/// A class of g1.
const CLASS: &str =
    "[[class]]\nname = \"c\"\ngroup = \"g1\"\nservice = \"www\"\ndemand = 1\npools = [\"A\"]\nscores = [1]\n";

const MANY: &[Row] = &[
    (More(8_189, 0, ""), "good"),
    (More(8_190, 0, ""), "17 too many at top node"),
    (More(0, 65_535, ""), "17 too many at top group"),
    (More(0, 65_534, CLASS), "17 too many at top class"),
];

#[test]
fn many_nodes_and_groups(rt: HostRuntime) {
    assert!(rt; rows_are_read(&rt, rt.alloc(), MANY));
}

/// A prefix of one address, and a comma.
fn one_address(alloc: Global, number: usize) -> Option<String> {
    let (high, middle, low) = (number / 65_536, number / 256 % 256, number % 256);
    format!(in alloc; "\"10.{high}.{middle}.{low}/32\",").ok()
}

/// So many prefixes, each of one address.
fn addresses(alloc: Global, count: usize) -> Option<String> {
    let mut text = String::new(alloc);
    for number in 0..count {
        let item = one_address(alloc, number)?;
        text.push_str(item.as_str()).ok()?;
    }
    Some(text)
}

/// The example with so many prefixes in place of the last one.
fn with_addresses(alloc: Global, count: usize) -> Option<String> {
    let addresses = addresses(alloc, count)?;
    example_but(alloc, "\"198.51.100.0/24\"", addresses.as_str())
}

/// The example has two prefixes beside these.
const PREFIXES: &[Row] = &[
    (Prefixed(262_142), "good"),
    (Prefixed(262_143), "17 too many at group 1 prefixes"),
];

#[test]
fn total_of_prefixes(rt: HostRuntime) {
    assert!(rt; rows_are_read(&rt, rt.alloc(), PREFIXES));
}
