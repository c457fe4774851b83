//! What a map holds, as loads, free units and pointers.

ghost use Rattle.std.specs.Prelude.{◌≡◌, ℕ, ◌+◌, ◌<◌, ◌≤◌, IfOk, length, replicate, slice_index};
ghost use Rattle.map_model.specs.Market.{IsMarket, demand_of};
ghost use Rattle.map_model.specs.Allocation.{AreLines, IsFeasible, placed};
ghost use Rattle.capacity_tree.specs.Loads.{AreTreesOf};
ghost use Rattle.evict.specs.Putting.{AgreesWith};
ghost use Rattle.evict.specs.Standing.{IsPastWanted};

use capacity_tree::Tree;
use map_model::{GroupId, Instance, MapLine, Offer, Units};
use no_memory::NoMemory;
use offer_pool::Held;
use std::alloc::Global;

/// Puts the lines of a map under the nodes of the trees, and takes their units from what is free.
pub fn load_lines(instance: &Instance, tree: &mut Tree, free: &mut [Units], lines: &[MapLine])
    requires market { IsMarket instance.now }
    requires form { AreLines instance.now lines.now }
    requires feasible { IsFeasible instance.now lines.now }
    requires trees { AreTreesOf instance.now tree.old.trees }
    requires empty { tree.old.units ≡ replicate (length instance.now.nodes) 0 }
    requires count { length free.old ≡ length instance.now.groups }
    requires all { (g : ℕ) → g < length instance.now.groups → slice_index free.old g
        ≡ demand_of instance.now g }
    ensures agrees { AgreesWith instance.now lines.now tree.new }
    ensures free { (g : ℕ) → g < length instance.now.groups → placed lines.now g
        + slice_index free.new g ≡ demand_of instance.now g }
{
    for line in lines {
        let units = u64::from(line.amount);
        let pool = instance.pool_at(Offer {
            group: line.group,
            place: line.place,
        });
        tree.add(pool, units);
        free[line.group.0 as usize] -= units;
    }
}

/// How many places of a group's list are wanted: they are the first ones.
fn wanted_count(instance: &Instance, held: &Held, group: GroupId) -> u8
    requires market { IsMarket instance.now }
    requires same { held.now.market ≡ instance.now }
    requires group { group.0 < length instance.now.groups }
    requires fits { placed held.now.lines group.0 ≤ demand_of instance.now group.0 }
    ensures { IsPastWanted instance.now held.now.lines group.0 result }
{
    let demand = u64::from(instance.demand(group));
    let mut through = 0;
    for place in 0..instance.list_len(group) {
        through += held.units(Offer { group, place });
        if through >= demand {
            return place;
        }
    }
    instance.list_len(group)
}

/// How many places of each group's list are wanted.
pub fn wanted_counts(alloc: Global, instance: &Instance, held: &Held) -> Result<Vec<u8>, NoMemory>
    requires same { held.now.market ≡ instance.now }
    requires fits { (g : ℕ) → g < length instance.now.groups → placed held.now.lines g
        ≤ demand_of instance.now g }
    ensures count { IfOk result (λ counts. length counts.items ≡ length instance.now.groups) }
    ensures each { IfOk result (λ counts. (g : ℕ) → g < length instance.now.groups
        → IsPastWanted instance.now held.now.lines g (slice_index counts.items g)) }
{
    let mut counts = Vec::new(alloc);
    for g in 0..instance.groups() {
        counts.push(wanted_count(instance, held, GroupId(g)))?;
    }
    Ok(counts)
}
