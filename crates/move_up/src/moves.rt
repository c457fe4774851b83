//! Units that come to offers and go from them, and pointers that go back, within marked trees.

ghost use Rattle.std.specs.Prelude.{◌≡◌, ℕ, ◌+◌, ◌-◌, ◌<◌, ◌≤◌, true, length, slice_index, IsTrue, OnOk};
ghost use Rattle.map_model.specs.Market.{IsMarket, IsSameShape, capacity_of, limit_of};
ghost use Rattle.map_model.specs.Allocation.{IsOffer, amount_at, counts_at, is_under, load};
ghost use Rattle.evict.specs.Standing.{IsOpen};
ghost use Rattle.reopen.specs.Rolling.{IsBackAt};
ghost use Rattle.move_up.specs.Moved.{IsMoved};

use evict::State;
use map_model::{GroupId, Instance, LEVELS, NodeId, Offer, Units};
use no_memory::NoMemory;
use reopen::{back_place, is_marked};

/// Makes units of an offer free where its tree is marked, at most those that it holds.
pub fn release_marked(
    instance: &Instance,
    state: &mut State,
    marks: &[bool],
    offer: Offer,
    units: Units,
)
    requires is_open { IsOpen instance.now state.old }
    requires size { length marks.now ≡ length instance.now.nodes }
    requires offer { IsOffer instance.now offer.group.0 offer.place }
    ensures { IsMoved instance.now marks.now state.old state.new }
{
    if is_marked(instance, state, marks, offer) {
        let most = state.units(offer);
        state.release(offer, units.min(most));
    }
}

/// How many of some units each node of a pool's path has room for.
fn room_at(instance: &Instance, state: &State, pool: NodeId, units: Units) -> Units
    requires market { IsMarket instance.now }
    requires whole { IsTrue state.now.is_whole }
    requires shape { IsSameShape state.now.market instance.now }
    requires pool { pool.0 < length instance.now.nodes }
    ensures few { result ≤ units }
    ensures room { (n : ℕ) → is_under instance.now n pool.0 ≡ true → result
        ≤ capacity_of instance.now n - load instance.now state.now.lines n }
{
    let mut room = units;
    let mut at = Some(pool);
    for _step in 0..LEVELS {
        if let Some(node) = at {
            room = room.min(instance.capacity(node).saturating_sub(state.load(node)));
            at = instance.parent(node);
        }
    }
    room
}

/// How many units an offer may hold besides, at most so many: they are free, fit under its limit, and each node of its path
/// has room for them.
fn most_at(instance: &Instance, state: &State, offer: Offer, units: Units) -> Units
    requires is_open { IsOpen instance.now state.now }
    requires offer { IsOffer instance.now offer.group.0 offer.place }
    ensures free { result ≤ slice_index state.now.free offer.group.0 }
    ensures limit { amount_at state.now.lines offer.group.0 offer.place + result
        ≤ limit_of instance.now offer.group.0 offer.place }
    ensures room { (n : ℕ) → counts_at instance.now n offer.group.0 offer.place ≡ true → result
        ≤ capacity_of instance.now n - load instance.now state.now.lines n }
{
    let limit = u64::from(instance.limit(offer.group, offer.place));
    let left = limit - state.units(offer);
    let most = units.min(left).min(state.free(offer.group));
    room_at(instance, state, instance.pool_at(offer), most)
}

/// Lets an offer hold free units where its tree is marked and it stands before its group's pointer, at most so many and as many
/// as may be. To offer them at the pointer would be a proposal. How many they are is the result, of which no clause speaks.
///
/// # Errors
///
/// `NoMemory`; the state is only to be dropped then.
pub fn grant_marked(
    instance: &Instance,
    state: &mut State,
    marks: &[bool],
    offer: Offer,
    units: Units,
) -> Result<Units, NoMemory>
    requires is_open { IsOpen instance.now state.old }
    requires size { length marks.now ≡ length instance.now.nodes }
    requires offer { IsOffer instance.now offer.group.0 offer.place }
    ensures { OnOk result (IsMoved instance.now marks.now state.old state.new) }
{
    if offer.place >= state.pointer(offer.group) {
        return Ok(0);
    }
    if !is_marked(instance, state, marks, offer) {
        return Ok(0);
    }
    let most = most_at(instance, state, offer, units);
    state.grant(offer, most)?;
    Ok(most)
}

/// A place of a group's list past which it holds no units: the last at which it holds some, or the first.
fn last_held(instance: &Instance, state: &State, group: GroupId) -> u8
    requires is_open { IsOpen instance.now state.now }
    requires group { group.0 < length instance.now.groups }
    ensures { (k : ℕ) → IsOffer instance.now group.0 k → result < k
        → amount_at state.now.lines group.0 k ≡ 0 }
{
    let mut last = 0;
    for place in 0..instance.list_len(group) {
        if state.units(Offer { group, place }) > 0 {
            last = place;
        }
    }
    last
}

/// Moves a group's pointer back to a place, or as far as it may go: to no place before the last at which the group holds
/// units, nor before the first whose tree is marked.
pub fn set_back(instance: &Instance, state: &mut State, marks: &[bool], group: GroupId, place: u8)
    requires is_open { IsOpen instance.now state.old }
    requires size { length marks.now ≡ length instance.now.nodes }
    requires group { group.0 < length instance.now.groups }
    ensures { IsMoved instance.now marks.now state.old state.new }
{
    let first = back_place(instance, state, marks, group);
    let lowest = last_held(instance, state, group).max(first).max(place);
    if lowest < state.pointer(group) {
        state.set_pointer(group, lowest);
    }
}
