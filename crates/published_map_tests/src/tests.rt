//! Versions made, compared and moved on by deltas.
ghost use Rattle.std.specs.Prelude.{◌≡◌, IfSome};
ghost use Rattle.map_model.specs.Market.{IsSameShape};
ghost use Rattle.map_model.specs.Allocation.{IsGood};
ghost use Rattle.published_map.specs.Version.{IsVersion};

use addr_text::Addr;
use map_model::{By, GroupId, NodeId};
use published_map::{Delta, MapVersion};
use std::alloc::Global;
use std::test::Fail;
use topology_text::{Topology, read_topology};
use world_versions::{GoodMap, example, example_of_four, version_at, version_of_text};
use worlds::{EXAMPLE_TREE, LIMIT, map_of};

const G1: GroupId = GroupId(0);

const G2: GroupId = GroupId(1);

const A: NodeId = NodeId(1);

const B: NodeId = NodeId(2);

/// The seventh version of the example: one unit of the second group is placed nowhere.
fn version_seven(alloc: Global) -> Option<MapVersion>
    ensures { IfSome result IsVersion }
{
    version_at(alloc, 7)
}

/// The second group's demand, where there is one.
fn demand(version: &MapVersion) -> u32 {
    if version.groups() == 2 {
        version.demand(G2)
    } else {
        0
    }
}

/// What a version says of itself: serial, groups, nodes, the second group's demand, and the zone's time to live.
fn parts_of(version: &MapVersion) -> (u64, usize, usize, u32, u32) {
    (
        version.serial(),
        version.groups(),
        version.nodes(),
        demand(version),
        version.zone().ttl,
    )
}

#[test]
fn keeps_its_parts(rt: HostRuntime) -> Result<(), Fail> {
    match version_seven(rt.alloc()) {
        None => Err("no version".into()),
        Some(version) => {
            assert!(rt; parts_of(&version) == (7, 2, 3, 8, 20));
            Ok(())
        }
    }
}

/// 198.51.100.7 in the second group's prefix of 24 bits, 203.0.113.9 that leaves it at the fifth bit, and IPv6.
const CLIENTS: [(Addr, GroupId, u8); 3] = [
    (Addr::V4(0xc633_6407), G2, 24),
    (Addr::V4(0xcb00_7109), G1, 5),
    (Addr::V6(7), G1, 0),
];

/// Whether an address is of that group, which so many of its bits decide.
fn is_found(version: &MapVersion, addr: Addr, group: GroupId, scope: u8) -> bool {
    version.find_addr(addr) == (group, scope)
}

/// Whether all are.
fn are_found(version: &MapVersion, rows: &[(Addr, GroupId, u8)]) -> bool {
    for &(addr, group, scope) in rows {
        if !is_found(version, addr, group, scope) {
            return false;
        }
    }
    true
}

#[test]
fn finds_groups(rt: HostRuntime) -> Result<(), Fail> {
    match version_seven(rt.alloc()) {
        None => Err("no version".into()),
        Some(version) => {
            assert!(rt; are_found(&version, &CLIENTS));
            Ok(())
        }
    }
}

/// Whether a group has these amounts.
fn has_amounts(version: &MapVersion, group: GroupId, amounts: &[u32]) -> bool
    requires { IsVersion version.now }
{
    if group.0 as usize >= version.groups() {
        return false;
    }
    version.amounts(group).as_slice() == amounts
}

#[test]
fn tells_amounts(rt: HostRuntime) -> Result<(), Fail> {
    match version_seven(rt.alloc()) {
        None => Err("no version".into()),
        Some(version) => {
            assert!(rt; has_amounts(&version, G1, &[8, 0]));
            assert!(rt; has_amounts(&version, G2, &[2, 5]));
            Ok(())
        }
    }
}

/// Whether a pool has these addresses of type A.
fn has_addresses(version: &MapVersion, pool: NodeId, addresses: &[Addr]) -> bool {
    if pool.0 >= version.topology().instance().nodes() {
        return false;
    }
    version.addresses(pool, 1) == addresses
}

#[test]
fn tells_addresses(rt: HostRuntime) -> Result<(), Fail> {
    match version_seven(rt.alloc()) {
        None => Err("no version".into()),
        Some(version) => {
            assert!(rt; has_addresses(&version, A, &[Addr::V4(0xc000_0201)]));
            assert!(rt; has_addresses(&version, B, &[Addr::V4(0xc000_0202)]));
            Ok(())
        }
    }
}

/// What changes from the seventh version of a good map to another one.
fn between(alloc: Global, old: &GoodMap, new: &GoodMap) -> Option<Delta>
    requires shape { IsSameShape old.now.instance new.now.instance }
    requires old { IsGood old.now.instance old.now.map.lines.items old.now.map.names.items }
    requires new { IsGood new.now.instance new.now.map.lines.items new.now.map.names.items }
{
    let _ = (old.instance.groups(), new.instance.groups());
    Delta::between(alloc, 7, &old.instance, &old.map, &new.instance, &new.map).ok()
}

/// What changes in the example of a topology where the second group asks for four units, which then are all placed.
fn change_of(alloc: Global, topology: &Topology) -> Option<Delta> {
    match (example(alloc, topology), example_of_four(alloc, topology)) {
        (Some(old), Some(new)) => between(alloc, &old, &new),
        _ => None,
    }
}

/// The same, in the example.
fn change(alloc: Global) -> Option<Delta> {
    match read_topology(alloc, EXAMPLE_TREE.as_bytes()) {
        Err(_) => None,
        Ok(topology) => change_of(alloc, &topology),
    }
}

/// Whether it has the second group's row alone: its demand, two amounts and one name.
fn has_one_row(delta: &Delta) -> bool {
    match delta.groups.as_slice() {
        [(group, row)] => {
            *group == G2
                && row.demand == 4
                && row.amounts.as_slice() == [(0, 2), (1, 2)].as_slice()
                && row.names.as_slice() == [(0, By::Node(A))].as_slice()
        }
        _ => false,
    }
}

/// Whether a delta is from the seventh version, has that row, and no node.
fn is_change(delta: &Delta) -> bool {
    if !has_one_row(delta) {
        return false;
    }
    (delta.base, delta.nodes.len()) == (7, 0)
}

#[test]
fn lists_what_differs(rt: HostRuntime) -> Result<(), Fail> {
    match change(rt.alloc()) {
        None => Err("no delta".into()),
        Some(delta) => {
            assert!(rt; is_change(&delta));
            Ok(())
        }
    }
}

/// The serial and the second group's demand of a copy that takes in what differs, and the demand of the other; none
/// where it does not fit.
fn moved_on(version: &MapVersion, delta: &Delta) -> Option<(u64, u32, u32)> {
    match version.try_clone() {
        Err(_) => None,
        Ok(copy) => {
            let mut copy = copy;
            if !copy.fits(delta) {
                return None;
            }
            copy.absorb(delta, 8);
            Some((copy.serial(), demand(&copy), demand(version)))
        }
    }
}

/// A copy takes in what differs, and the other stays as it is.
#[test]
fn takes_in_what_differs(rt: HostRuntime) -> Result<(), Fail> {
    match (version_seven(rt.alloc()), change(rt.alloc())) {
        (Some(version), Some(delta)) => {
            assert!(rt; moved_on(&version, &delta) == Some((8, 4, 8)));
            Ok(())
        }
        _ => Err("no version".into()),
    }
}

/// What the second group asks of the one service, with a list of its own.
const CLASS: &str =
    "[[class]]\nname = \"g2www\"\ngroup = \"g2\"\nservice = \"www\"\ndemand = 3\npools = [\"B\"]\nscores = [1]\nlimits = [2]\n";

/// The version of the example with that class, whose limit stops it at two units.
fn version_with_class(alloc: Global) -> Option<MapVersion>
    ensures { IfSome result IsVersion }
{
    let text = format!(in alloc; "{EXAMPLE_TREE}{CLASS}").ok()?;
    let lines = [(0, 0, 8), (1, 0, 2), (1, 1, 3), (2, 0, 2)];
    let names = [(1, 0, 1), (1, 1, 0), (2, 0, LIMIT)];
    let map = map_of(alloc, &lines, &names).ok()?;
    version_of_text(alloc, 5, text.as_str(), map)
}

/// Whether the class is the unit of the second group for the service of number 0, and each group its own for another.
fn has_units(version: &MapVersion) -> bool
    requires { IsVersion version.now }
{
    if version.groups() != 3 {
        return false;
    }
    let class = GroupId(2);
    version.unit_of(G1, 0) == G1
        && version.unit_of(G2, 0) == class
        && version.unit_of(G2, 1) == G2
        && has_amounts(version, class, &[2])
}

#[test]
fn tells_classes(rt: HostRuntime) -> Result<(), Fail> {
    match version_with_class(rt.alloc()) {
        None => Err("no version".into()),
        Some(version) => {
            assert!(rt; has_units(&version));
            Ok(())
        }
    }
}
