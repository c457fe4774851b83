//! Versions of topologies and what one of them becomes, for tests alone.
#![tactic(auto)]

ghost use Rattle.std.specs.Prelude.{◌≡◌, true, IfSome};
ghost use Rattle.map_model.specs.Market.{IsSameShape};
ghost use Rattle.map_model.specs.Allocation.{IsGood};
ghost use Rattle.published_map.specs.Version.{IsVersion};

use map_model::{GroupId, Instance, MapLines};
use published_map::{MapVersion, Shared};
use stable_check::{CheckRoom, Verdict, check};
use std::alloc::Global;
use topology_text::{Topology, read_topology};
use worlds::{EXAMPLE, EXAMPLE_TREE, map_of};

/// Whether the map is good for the instance.
pub fn is_good(alloc: Global, instance: &Instance, map: &MapLines) -> bool
    ensures { result ≡ true → IsGood instance.now map.now.lines.items map.now.names.items }
{
    match CheckRoom::new(alloc, instance) {
        Err(_) => false,
        Ok(room) => {
            let mut room = room;
            matches!(check(instance, map, &mut room), Verdict::Good)
        }
    }
}

/// The version of a serial of a topology, over its own numbers.
pub fn version_of(
    alloc: Global,
    serial: u64,
    topology: Topology,
    instance: &Instance,
    map: &MapLines,
) -> Option<MapVersion>
    requires instance { instance.now ≡ topology.market }
    requires good { IsGood instance.now map.now.lines.items map.now.names.items }
    ensures version { IfSome result (λ v. IsVersion v × (v.serial ≡ serial)
        × (v.market ≡ v.plan.market)) }
    ensures parts { IfSome result (λ v. (v.market ≡ instance.now) × (v.lines ≡ map.now.lines.items)
        × (v.names ≡ map.now.names.items)) }
{
    match Shared::build(alloc, topology) {
        Err(_) => None,
        Ok(shared) => MapVersion::make(alloc, serial, instance, map, shared).ok(),
    }
}

/// An equal instance.
fn copy_of(instance: &Instance) -> Option<Instance>
    ensures { IfSome result (λ i. i ≡ instance.now) }
{
    instance.try_clone().ok()
}

/// The instance where the second group asks for four units.
fn asking_four(old: &Instance) -> Option<Instance>
    ensures { IfSome result (λ new. IsSameShape old.now new) }
{
    match old.try_clone() {
        Err(_) => None,
        Ok(instance) => {
            let mut instance = instance;
            if instance.groups() != 2 {
                return None;
            }
            instance.set_demand(GroupId(1), 4);
            Some(instance)
        }
    }
}

/// A map, and the instance for which it is good.
#[derive(Drop)]
pub struct GoodMap {
    pub instance: Instance,
    pub map: MapLines,
}

/// A map with its instance; none where it is not good.
fn good_map(alloc: Global, instance: Instance, map: MapLines) -> Option<GoodMap>
    ensures good { IfSome result (λ g. IsGood g.instance g.map.lines.items g.map.names.items) }
    ensures instance { IfSome result (λ g. g.instance ≡ instance) }
{
    if is_good(alloc, &instance, &map) {
        Some(GoodMap { instance, map })
    } else {
        None
    }
}

/// The example's good map: two of seven units of the second group are at the first pool.
pub fn example(alloc: Global, topology: &Topology) -> Option<GoodMap>
    ensures good { IfSome result (λ g. IsGood g.instance g.map.lines.items g.map.names.items) }
    ensures instance { IfSome result (λ g. g.instance ≡ topology.now.market) }
{
    let Some(instance) = copy_of(topology.instance()) else {
        return None;
    };
    match EXAMPLE.map(alloc) {
        Err(_) => None,
        Ok(map) => good_map(alloc, instance, map),
    }
}

/// The good map where the second group asks for four units, which then are all placed.
pub fn example_of_four(alloc: Global, topology: &Topology) -> Option<GoodMap>
    ensures good { IfSome result (λ g. IsGood g.instance g.map.lines.items g.map.names.items) }
    ensures shape { IfSome result (λ g. IsSameShape topology.now.market g.instance) }
{
    let Some(instance) = asking_four(topology.instance()) else {
        return None;
    };
    match map_of(alloc, &[(0, 0, 8), (1, 0, 2), (1, 1, 2)], &[(1, 0, 1)]) {
        Err(_) => None,
        Ok(map) => good_map(alloc, instance, map),
    }
}

/// The version of a serial of a topology, with that map; none where it is not good.
fn version_with(alloc: Global, serial: u64, topology: Topology, map: MapLines) -> Option<MapVersion>
    ensures { IfSome result (λ v. IsVersion v × (v.serial ≡ serial) × (v.market ≡ v.plan.market)) }
{
    let Some(instance) = copy_of(topology.instance()) else {
        return None;
    };
    match good_map(alloc, instance, map) {
        None => None,
        Some(good) => version_of(alloc, serial, topology, &good.instance, &good.map),
    }
}

/// The version of a serial of a topology's text, with that map; none where the text is refused or the map is not good.
pub fn version_of_text(alloc: Global, serial: u64, text: &str, map: MapLines) -> Option<MapVersion>
    ensures { IfSome result (λ v. IsVersion v × (v.serial ≡ serial) × (v.market ≡ v.plan.market)) }
{
    match read_topology(alloc, text.as_bytes()) {
        Err(_) => None,
        Ok(topology) => version_with(alloc, serial, topology, map),
    }
}

/// The version of a serial of a topology, with the example's map.
fn example_version(alloc: Global, serial: u64, topology: Topology) -> Option<MapVersion>
    ensures { IfSome result (λ v. IsVersion v × (v.serial ≡ serial) × (v.market ≡ v.plan.market)) }
{
    match example(alloc, &topology) {
        None => None,
        Some(good) => version_of(alloc, serial, topology, &good.instance, &good.map),
    }
}

/// The example's version of a serial.
pub fn version_at(alloc: Global, serial: u64) -> Option<MapVersion>
    ensures { IfSome result (λ v. IsVersion v × (v.serial ≡ serial) × (v.market ≡ v.plan.market)) }
{
    match read_topology(alloc, EXAMPLE_TREE.as_bytes()) {
        Err(_) => None,
        Ok(topology) => example_version(alloc, serial, topology),
    }
}

/// The first version of the example.
pub fn first_version(alloc: Global) -> Option<MapVersion>
    ensures { IfSome result (λ v. IsVersion v × (v.serial ≡ 0) × (v.market ≡ v.plan.market)) }
{
    version_at(alloc, 0)
}
