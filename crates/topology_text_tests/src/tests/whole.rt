//! The example topology, read whole.
use super::example;
use addr_text::{Addr, Prefix};
use map_model::{GroupId, Instance, NodeId, Offer};
use name_text::Name;
use std::alloc::Global;
use topology_text::{Names, Topology, TopologyFault, Zone, read_topology};

/// What is read, with no word on it: the checks of those who call this are short.
fn topology_of(alloc: Global, text: &[u8]) -> Result<Topology, TopologyFault> {
    read_topology(alloc, text)
}

/// A group's name, its demand, and the pools of its list beside their scores.
type GroupRow = (&'static [u8], u32, &'static [(NodeId, u32)]);

const GROUPS: &[GroupRow] = &[
    (b"g1", 8, &[(NodeId(1), 1), (NodeId(2), 2)]),
    (b"g2", 8, &[(NodeId(1), 3), (NodeId(2), 4)]),
];

fn has_list(instance: &Instance, group: GroupId, list: &[(NodeId, u32)]) -> bool {
    if group.0 >= instance.groups() {
        return false;
    }
    if usize::from(instance.list_len(group)) != list.len() {
        return false;
    }
    for place in 0..instance.list_len(group) {
        let offer = Offer { group, place };
        let (pool, score) = list[usize::from(place)];
        if instance.pool_at(offer) != pool || instance.key(offer).score != score {
            return false;
        }
    }
    true
}

fn is_group(topology: &Topology, group: GroupId, row: &GroupRow) -> bool {
    let (name, demand, list) = row;
    if group.0 >= topology.instance().groups() {
        return false;
    }
    topology.group_name(group) == *name
        && topology.group_named(*name) == Some(group)
        && topology.instance().demand(group) == *demand
        && has_list(topology.instance(), group, *list)
}

fn are_groups(topology: &Topology, rows: &[GroupRow]) -> bool {
    let count = topology.instance().groups();
    for (row, g) in rows.iter().zip(0..count) {
        if !is_group(topology, GroupId(g), row) {
            return false;
        }
    }
    rows.len() == count as usize
}

fn names_no_group(topology: &Topology, name: &[u8]) -> bool {
    topology.group_named(name).is_none()
}

/// A node's name, its capacity and its parent, and its addresses.
type NodeRow = (
    &'static [u8],
    u64,
    Option<NodeId>,
    &'static [Addr],
    &'static [Addr],
);

const NODES: &[NodeRow] = &[
    (b"R", 15, None, &[], &[]),
    (
        b"A",
        10,
        Some(NodeId(0)),
        &[Addr::V4(0xc000_0201)],
        &[Addr::V6(0x2001_0db8_0000_0000_0000_0000_0000_0001)],
    ),
    (b"B", 10, Some(NodeId(0)), &[Addr::V4(0xc000_0202)], &[]),
];

fn is_node(topology: &Topology, node: NodeId, row: &NodeRow) -> bool {
    let (name, capacity, parent, a, aaaa) = row;
    if node.0 >= topology.instance().nodes() {
        return false;
    }
    topology.node_name(node) == *name
        && topology.node_named(*name) == Some(node)
        && topology.instance().capacity(node) == *capacity
        && topology.instance().parent(node) == *parent
        && topology.addresses(node, 1) == *a
        && topology.addresses(node, 28) == *aaaa
}

fn are_nodes(topology: &Topology, rows: &[NodeRow]) -> bool {
    let count = topology.instance().nodes();
    for (row, n) in rows.iter().zip(0..count) {
        if !is_node(topology, NodeId(n), row) {
            return false;
        }
    }
    rows.len() == count as usize
}

fn names_no_node(topology: &Topology, name: &[u8]) -> bool {
    topology.node_named(name).is_none()
}

const PREFIXES: &[(Prefix, GroupId)] = &[
    (
        Prefix {
            addr: Addr::V4(0),
            len: 0,
        },
        GroupId(0),
    ),
    (
        Prefix {
            addr: Addr::V6(0),
            len: 0,
        },
        GroupId(0),
    ),
    (
        Prefix {
            addr: Addr::V4(0xc633_6400),
            len: 24,
        },
        GroupId(1),
    ),
];

fn has_prefixes(topology: &Topology, prefixes: &[(Prefix, GroupId)]) -> bool {
    topology.prefixes() == prefixes
}

/// The zone's own names, as they are on the wire.
const ZONE_NAMES: [&[u8]; 3] = [
    b"\x03cdn\x07example\x00",
    b"\x03ns1\x03ops\x07example\x00",
    b"\x05admin\x03ops\x07example\x00",
];

const NAME_SERVERS: &[&[u8]] = &[
    b"\x03ns1\x03ops\x07example\x00",
    b"\x03ns2\x03ops\x07example\x00",
];

const SERVICES: &[&[u8]] = &[b"\x03www\x00"];

fn is_name(name: &Name, wire: &[u8]) -> bool {
    name.wire() == wire
}

fn are_names(names: &Names, wires: &[&[u8]]) -> bool {
    let names = names.as_slice();
    names.len() == wires.len()
        && names
            .iter()
            .zip(wires)
            .all(|(name, wire)| is_name(name, *wire))
}

fn has_names(zone: &Zone, wires: &[&[u8]; 3]) -> bool {
    let [apex, mname, rname] = wires;
    is_name(&zone.apex, *apex) && is_name(&zone.mname, *mname) && is_name(&zone.rname, *rname)
}

/// The data of its SOA record: both names, and the numbers 1, 3600, 600, 86400 and 60 in four octets each.
const SOA: &[u8] =
    b"\x03ns1\x03ops\x07example\x00\x05admin\x03ops\x07example\x00\x00\x00\x00\x01\x00\x00\x0e\x10\x00\x00\x02\x58\x00\x01\x51\x80\x00\x00\x00\x3c";

fn has_soa(zone: &Zone, octets: &[u8]) -> bool {
    zone.soa.as_slice() == octets
}

/// The serial, refresh, retry, expire, minimum and ttl of a zone.
fn numbers(zone: &Zone) -> [u32; 6] {
    [
        zone.serial,
        zone.refresh,
        zone.retry,
        zone.expire,
        zone.minimum,
        zone.ttl,
    ]
}

/// What of the zone is not as the example has it, if anything is.
fn wrong_in_zone(zone: &Zone) -> Option<&'static str> {
    if !has_names(zone, &ZONE_NAMES) {
        return Some("names of the zone");
    }
    if !are_names(&zone.ns, NAME_SERVERS) {
        return Some("name servers");
    }
    if !are_names(&zone.services, SERVICES) {
        return Some("services");
    }
    if !has_soa(zone, SOA) {
        return Some("data of the SOA record");
    }
    if numbers(zone) != [1, 3600, 600, 86400, 60, 20] {
        return Some("numbers of the zone");
    }
    None
}

/// What is not as the example has it, if anything is.
fn wrong_in(topology: &Topology) -> Option<&'static str> {
    if !are_groups(topology, GROUPS) || !names_no_group(topology, b"G1") {
        return Some("groups");
    }
    if !are_nodes(topology, NODES) || !names_no_node(topology, b"") {
        return Some("nodes");
    }
    if !has_prefixes(topology, PREFIXES) {
        return Some("prefixes");
    }
    wrong_in_zone(topology.zone())
}

/// The same of a text that is read.
fn wrong_in_text(alloc: Global, text: &str) -> Option<&'static str> {
    match topology_of(alloc, text.as_bytes()) {
        Ok(topology) => wrong_in(&topology),
        Err(_) => Some("no topology"),
    }
}

#[test]
fn example_whole(rt: HostRuntime) {
    let text = example(rt.alloc()).expect(&rt, "memory");
    assert_eq!(rt; wrong_in_text(rt.alloc(), text.as_str()), None);
}
