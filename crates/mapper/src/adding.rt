//! Totals of a map.
ghost use Rattle.std.specs.Prelude.{◌≡◌, ◌-◌, ◌==◌, ◌<◌, if◌then◌else◌, length, sum_by, count_by};
ghost use Rattle.std.specs.List.{range_with_len};
ghost use Rattle.map_model.specs.Market.{capacity_of, demand_of};
ghost use Rattle.map_model.specs.Allocation.{load, placed};
ghost use Rattle.evict.specs.Standing.{IsReady};
ghost use Rattle.published_map.specs.Version.{Version};
ghost use Rattle.mapper.specs.Words.{totals_of};

use crate::Totals;
use evict::State;
use map_model::{GroupId, Instance, NodeId};

/// Units that are placed.
fn placed_sum(instance: &Instance, state: &State) -> u64
    requires { IsReady instance.now state.now }
    ensures { result
        ≡ sum_by (λ g. placed state.now.lines g) (range_with_len 0 (length instance.now.groups)) }
{
    let mut sum = 0;
    for g in 0..instance.groups() {
        sum += state.placed(GroupId(g));
    }
    sum
}

/// Units of demand that are not placed.
fn unplaced_sum(instance: &Instance, state: &State) -> u64
    requires { IsReady instance.now state.now }
    ensures { result ≡ sum_by (λ g. demand_of instance.now g
        - placed state.now.lines g) (range_with_len 0 (length instance.now.groups)) }
{
    let mut sum = 0;
    for g in 0..instance.groups() {
        sum += state.free(GroupId(g));
    }
    sum
}

/// Whether a node has as many units as its capacity.
fn is_full(instance: &Instance, state: &State, node: NodeId) -> bool
    requires ready { IsReady instance.now state.now }
    requires node { node.0 < length instance.now.nodes }
    ensures { result
        ≡ (load instance.now state.now.lines node.0 == capacity_of instance.now node.0) }
{
    state.load(node) == instance.capacity(node)
}

/// 1 for a node with as many units as its capacity, and 0 for another one.
fn full_at(instance: &Instance, state: &State, node: NodeId) -> u64
    requires ready { IsReady instance.now state.now }
    requires node { node.0 < length instance.now.nodes }
    ensures { result ≡ (if
        load instance.now state.now.lines node.0 == capacity_of instance.now node.0 then 1 else 0) }
{
    if is_full(instance, state, node) { 1 } else { 0 }
}

/// Nodes with as many units as their capacity.
fn full_count(instance: &Instance, state: &State) -> u64
    requires { IsReady instance.now state.now }
    ensures { result ≡ count_by (λ n. load instance.now state.now.lines
        n == capacity_of instance.now n) (range_with_len 0 (length instance.now.nodes)) }
{
    let mut count = 0;
    for n in 0..instance.nodes() {
        count += full_at(instance, state, NodeId(n));
    }
    count
}

/// The totals of what a state holds.
pub(crate) fn totals(instance: &Instance, state: &State) -> Totals
    requires { IsReady instance.now state.now }
    ensures { (v : Version)
        → v.market ≡ instance.now → v.lines ≡ state.now.lines → result ≡ totals_of v }
{
    Totals {
        placed: placed_sum(instance, state),
        unplaced: unplaced_sum(instance, state),
        full: full_count(instance, state),
    }
}
