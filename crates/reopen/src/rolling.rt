//! Sending groups back to places that may have become free.

ghost use Rattle.std.specs.Prelude.{◌≡◌, ℕ, ◌<◌, ◌≤◌, not, ◌&&◌, ◌==◌, nat_lt, length, IsTrue, slice_index};
ghost use Rattle.map_model.specs.Market.{IsMarket, IsSameShape, choices_of};
ghost use Rattle.map_model.specs.Allocation.{AreLines, IsOffer, units_of};
ghost use Rattle.reopen.specs.Cutting.{CanCut, KeepsSums};
ghost use Rattle.reopen.specs.Rolling.{CanRollBack, IsBackAt, IsGroupBack, IsReleasedPast, IsRolledBack, is_marked};

use evict::State;
use map_model::{GroupId, Instance, Offer};

/// Whether the tree of an offer's pool is marked.
pub fn is_marked(instance: &Instance, state: &State, marks: &[bool], offer: Offer) -> bool
    requires can { CanCut instance.now state.now }
    requires size { length marks.now ≡ length instance.now.nodes }
    requires offer { IsOffer instance.now offer.group.0 offer.place }
    ensures { result ≡ is_marked instance.now marks.now offer.group.0 offer.place }
{
    let pool = instance.pool_at(offer);
    marks[state.root(pool).0 as usize]
}

/// The first place before a group's pointer whose tree is marked, or the pointer.
pub fn back_place(instance: &Instance, state: &State, marks: &[bool], group: GroupId) -> u8
    requires can { CanCut instance.now state.now }
    requires size { length marks.now ≡ length instance.now.nodes }
    requires group { group.0 < length instance.now.groups }
    requires pointers { length state.now.pointers ≡ length instance.now.groups }
    requires in_list { slice_index state.now.pointers group.0
        ≤ length (choices_of instance.now group.0) }
    ensures { IsBackAt instance.now marks.now group.0 (slice_index state.now.pointers group.0)
        result }
{
    let pointer = state.pointer(group);
    for place in 0..pointer {
        if is_marked(instance, state, marks, Offer { group, place }) {
            return place;
        }
    }
    pointer
}

/// Makes free all that a group holds past a place.
fn release_past(instance: &Instance, state: &mut State, group: GroupId, place: u8)
    requires can { CanCut instance.now state.old }
    requires group { group.0 < length instance.now.groups }
    requires place { place < 255 }
    ensures { IsReleasedPast instance.now group.0 place state.old state.new }
{
    for past in place + 1..instance.list_len(group) {
        let offer = Offer { group, place: past };
        let units = state.units(offer);
        state.release(offer, units);
    }
}

/// Sends a group back, where it has to go.
fn roll_back_group(instance: &Instance, state: &mut State, marks: &[bool], group: GroupId)
    requires can { CanCut instance.now state.old }
    requires size { length marks.now ≡ length instance.now.nodes }
    requires group { group.0 < length instance.now.groups }
    requires pointers { length state.old.pointers ≡ length instance.now.groups }
    requires in_list { slice_index state.old.pointers group.0
        ≤ length (choices_of instance.now group.0) }
    ensures { IsGroupBack instance.now marks.now group.0 state.old state.new }
{
    let place = back_place(instance, state, marks, group);
    release_past(instance, state, group, place);
    state.set_pointer(group, place);
}

/// Sends each group with a place before its pointer in a marked tree back to the first such place,
/// and makes free what it holds past that. The marks stand at the roots of trees. The state is
/// resumable then.
pub fn roll_back(instance: &Instance, state: &mut State, reached: &[bool])
    requires { CanRollBack instance.now reached.now state.old }
    ensures { IsRolledBack instance.now reached.now state.old state.new }
{
    for g in 0..instance.groups() {
        roll_back_group(instance, state, reached, GroupId(g));
    }
}
