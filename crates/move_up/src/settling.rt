//! Pointers that go back where no place before them is wanted any more.

ghost use Rattle.std.specs.Prelude.{◌≡◌, ◌<◌, length};
ghost use Rattle.map_model.specs.Market.{IsSameShape};
ghost use Rattle.evict.specs.Standing.{IsOpen};
ghost use Rattle.move_up.specs.Moved.{IsMoved};

use crate::moves::set_back;
use crate::offers::is_offer;
use evict::State;
use map_model::{GroupId, Instance, Offer};

/// How many places before a group's pointer are wanted: they are the first ones.
fn wanted_before(instance: &Instance, state: &State, group: GroupId) -> u8
    requires is_open { IsOpen instance.now state.now }
    requires group { group.0 < length instance.now.groups }
{
    let demand = u64::from(instance.demand(group));
    let pointer = state.pointer(group);
    let mut through = 0u64;
    for place in 0..pointer {
        through = through.saturating_add(state.units(Offer { group, place }));
        if through >= demand {
            return place;
        }
    }
    pointer
}

/// How many of a group's first places are refused, at most so many.
fn refused_before(instance: &Instance, state: &State, group: GroupId, places: u8) -> u8
    requires is_open { IsOpen instance.now state.now }
{
    for place in 0..places {
        let offer = Offer { group, place };
        if !is_offer(instance, offer) {
            return place;
        }
        if state.refuser(instance, offer).is_none() {
            return place;
        }
    }
    places
}

/// Moves a group's pointer back behind its wanted places, where it stands past them.
pub fn settle(instance: &Instance, state: &mut State, marks: &[bool], group: GroupId)
    requires is_open { IsOpen instance.now state.old }
    requires size { length marks.now ≡ length instance.now.nodes }
    requires group { group.0 < length instance.now.groups }
    ensures { IsMoved instance.now marks.now state.old state.new }
{
    let place = wanted_before(instance, state, group);
    set_back(instance, state, marks, group, place);
}

/// Moves a group's pointer back behind the first places that are wanted and refused.
fn settle_refused(instance: &Instance, state: &mut State, marks: &[bool], group: GroupId)
    requires is_open { IsOpen instance.now state.old }
    requires size { length marks.now ≡ length instance.now.nodes }
    requires group { group.0 < length instance.now.groups }
    ensures { IsMoved instance.now marks.now state.old state.new }
{
    let wanted = wanted_before(instance, state, group);
    let place = refused_before(instance, state, group, wanted);
    set_back(instance, state, marks, group, place);
}

/// Moves the pointer of each group that asks for less than it did back behind the first places that it wants and that
/// are refused.
pub fn settle_lowered(old: &Instance, new: &Instance, state: &mut State, marks: &[bool])
    requires is_open { IsOpen new.now state.old }
    requires shape { IsSameShape old.now new.now }
    requires size { length marks.now ≡ length new.now.nodes }
    ensures { IsMoved new.now marks.now state.old state.new }
{
    for g in 0..new.groups() {
        let group = GroupId(g);
        if new.demand(group) < old.demand(group) {
            settle_refused(new, state, marks, group);
        }
    }
}
