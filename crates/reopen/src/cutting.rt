//! Giving up what is over demands and capacities.

ghost use Rattle.std.specs.Prelude.{Bool, List, false, ◌≡◌, ◌≢◌, ℕ, ◌+◌, ◌<◌, ◌≤◌, ◌⊎◌, length, slice_index};
ghost use Rattle.map_model.specs.declared.lines.MapLine.{MapLine};
ghost use Rattle.map_model.specs.Market.{capacity_of, demand_of};
ghost use Rattle.map_model.specs.Allocation.{IsOffer, amount_at, load, placed, units_of};
ghost use Rattle.reopen.specs.Cutting.{AreTurnedAway, AreTurnedFrom, CanCut, IsCut, IsGroupTrimmed, IsLess, IsTrimmed, KeepsSums};

use evict::State;
use map_model::{GroupId, Instance, NodeId, Offer};

/// Takes units of one offer, as many as its group holds too many.
fn trim_place(instance: &Instance, state: &mut State, offer: Offer)
    requires can { CanCut instance.now state.old }
    requires offer { IsOffer instance.now offer.group.0 offer.place }
    ensures less { IsLess instance.now state.old state.new }
    ensures sums { KeepsSums state.old state.new }
    ensures done { (placed state.new.lines offer.group.0 ≤ demand_of instance.now offer.group.0)
        ⊎ (amount_at state.new.lines offer.group.0 offer.place ≡ 0) }
    ensures others { (test : ℕ → ℕ → Bool) → test offer.group.0 offer.place ≡ false
        → units_of test state.new.lines ≡ units_of test state.old.lines }
    ensures over { amount_at state.new.lines offer.group.0 offer.place
        < amount_at state.old.lines offer.group.0 offer.place → demand_of instance.now offer.group.0
        < placed state.old.lines offer.group.0 }
    ensures enough { demand_of instance.now offer.group.0 ≤ placed state.old.lines offer.group.0
        → demand_of instance.now offer.group.0 ≤ placed state.new.lines offer.group.0 }
{
    let demand = u64::from(instance.demand(offer.group));
    let placed = state.placed(offer.group);
    if placed > demand {
        let units = state.units(offer).min(placed - demand);
        state.release(offer, units);
    }
}

/// Takes units from a group's last places until it holds no more than it asks for.
fn trim_places(instance: &Instance, state: &mut State, group: GroupId)
    requires can { CanCut instance.now state.old }
    requires group { group.0 < length instance.now.groups }
    ensures less { IsLess instance.now state.old state.new }
    ensures sums { KeepsSums state.old state.new }
    ensures fits { placed state.new.lines group.0 ≤ demand_of instance.now group.0 }
    ensures trimmed { IsGroupTrimmed instance.now group.0 state.old.lines state.new.lines }
    ensures elsewhere { (test : ℕ → ℕ → Bool) → ((k : ℕ) → test group.0 k ≡ false)
        → units_of test state.new.lines ≡ units_of test state.old.lines }
{
    let demand = u64::from(instance.demand(group));
    let placed = state.placed(group);
    if placed <= demand {
        return;
    }
    let len = instance.list_len(group);
    for step in 0..len {
        let place = len - 1 - step;
        trim_place(instance, state, Offer { group, place });
    }
}

/// Trims a group, and lets what it holds and has free make up what it asks for.
fn trim_group(instance: &Instance, state: &mut State, group: GroupId)
    requires can { CanCut instance.now state.old }
    requires group { group.0 < length instance.now.groups }
    ensures less { IsLess instance.now state.old state.new }
    ensures total { placed state.new.lines group.0 + slice_index state.new.free group.0
        ≡ demand_of instance.now group.0 }
    ensures others { (h : ℕ) → h < length state.old.free → h ≢ group.0 → placed state.new.lines h
        + slice_index state.new.free h ≡ placed state.old.lines h + slice_index state.old.free h }
    ensures trimmed { IsGroupTrimmed instance.now group.0 state.old.lines state.new.lines }
    ensures elsewhere { (test : ℕ → ℕ → Bool) → ((k : ℕ) → test group.0 k ≡ false)
        → units_of test state.new.lines ≡ units_of test state.old.lines }
{
    trim_places(instance, state, group);
    state.set_total(group, instance.demand(group));
}

fn trim(instance: &Instance, state: &mut State)
    requires { CanCut instance.now state.old }
    ensures less { IsLess instance.now state.old state.new }
    ensures totals { (g : ℕ) → g < length instance.now.groups → placed state.new.lines g
        + slice_index state.new.free g ≡ demand_of instance.now g }
    ensures trimmed { IsTrimmed instance.now state.old.lines state.new.lines }
{
    for g in 0..instance.groups() {
        trim_group(instance, state, GroupId(g));
    }
}

/// Takes units of the worst offers under a node until it is within its capacity.
fn cut_node(instance: &Instance, state: &mut State, node: NodeId)
    requires can { CanCut instance.now state.old }
    requires node { node.0 < length instance.now.nodes }
    ensures less { IsLess instance.now state.old state.new }
    ensures sums { KeepsSums state.old state.new }
    ensures fits { load instance.now state.new.lines node.0 ≤ capacity_of instance.now node.0 }
    ensures turned { (all : List MapLine) → AreTurnedFrom instance.now node.0 all state.old.lines
        → AreTurnedFrom instance.now node.0 all state.new.lines }
{
    let capacity = instance.capacity(node);
    while state.load(node) > capacity {
        let over = state.load(node) - capacity;
        let Some((offer, held)) = state.worst_under(node) else {
            unreachable!()
        };
        state.release(offer, held.min(over));
    }
}

/// Brings each node within its capacity, children before their parents.
fn cut(instance: &Instance, state: &mut State)
    requires { CanCut instance.now state.old }
    ensures less { IsLess instance.now state.old state.new }
    ensures sums { KeepsSums state.old state.new }
    ensures fits { (n : ℕ) → n < length instance.now.nodes → load instance.now state.new.lines n
        ≤ capacity_of instance.now n }
    ensures turned { AreTurnedAway instance.now state.old.lines state.new.lines }
{
    let nodes = instance.nodes();
    for step in 0..nodes {
        cut_node(instance, state, NodeId(nodes - 1 - step));
    }
}

/// Makes a state fit an instance. A group that holds more than it asks for gives up units of its last
/// places, and a node that holds more than its capacity those of its worst offers. Pointers stay.
pub fn cut_and_trim(instance: &Instance, state: &mut State)
    requires { CanCut instance.now state.old }
    ensures { IsCut instance.now state.old state.new }
{
    trim(instance, state);
    cut(instance, state);
}
