//! Sums of what a state holds, place by place.
ghost use Rattle.std.specs.Prelude.{◌≡◌, ◌-◌, ◌<◌, ◌≤◌, ◌^◌, length, sum_by};
ghost use Rattle.std.specs.List.{range_with_len};
ghost use Rattle.map_model.specs.Market.{demand_of};
ghost use Rattle.map_model.specs.Allocation.{amount_at, placed};
ghost use Rattle.evict.specs.Standing.{IsReady};
ghost use Rattle.place_counts.specs.Places.{longest, unplaced_in, units_at};

use evict::State;
use map_model::{GroupId, Instance, Offer, Units};

/// How many places the longest list has.
#[tactic(auto, unfolding(crate::specs::Places::longest_of))]
pub fn longest(instance: &Instance) -> u8
    ensures longest { result ≡ longest instance.now }
    ensures few { result ≤ 16 }
{
    let mut longest = 0;
    for g in 0..instance.groups() {
        longest = longest.max(instance.list_len(GroupId(g)));
    }
    longest
}

/// The units that a group holds at a place, none where its list has no such place.
fn units_of(instance: &Instance, state: &State, group: GroupId, place: u8) -> Units
    requires ready { IsReady instance.now state.now }
    requires group { group.0 < length instance.now.groups }
    ensures units { result ≡ amount_at state.now.lines group.0 place }
    ensures small { result < 2 ^ 32 }
{
    if place < instance.list_len(group) {
        state.units(Offer { group, place })
    } else {
        0
    }
}

/// The units that all groups hold at a place.
pub fn units_at(instance: &Instance, state: &State, place: u8) -> Units
    requires { IsReady instance.now state.now }
    ensures { result ≡ units_at instance.now state.now.lines place }
{
    let mut sum = 0;
    for g in 0..instance.groups() {
        sum += units_of(instance, state, GroupId(g), place);
    }
    sum
}

/// Units of demand that are not placed.
pub fn unplaced(instance: &Instance, state: &State) -> Units
    requires { IsReady instance.now state.now }
    ensures { result ≡ unplaced_in instance.now state.now.lines }
{
    let mut sum = 0;
    for g in 0..instance.groups() {
        sum += state.free(GroupId(g));
    }
    sum
}
