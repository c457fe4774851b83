//! The groups that may still have to offer, and what they offer next.

ghost use Rattle.std.specs.Prelude.{◌≡◌, ℕ, ◌<◌, ◌≤◌, ◌||◌, All, IfSome, MatchOption, OnOk, length, slice_set, true};
ghost use Rattle.map_model.specs.Progress.{IsEnded};
ghost use Rattle.evict.specs.Standing.{IsReady};
ghost use Rattle.deferred_accept.specs.Runs.{IsWaiting};
ghost use Rattle.deferred_accept.specs.Work.{CoversRest, CoversWork, HasStepped, IsDueOffer, gave_any, is_on};

use crate::room::room_under;
use crate::work_list::WorkList;
use evict::{Eviction, Freed, State};
use map_model::{GroupId, Instance, Offer, Steps};
use no_memory::NoMemory;

/// What a group offers next, if it is waiting.
fn due_offer(instance: &Instance, state: &State, group: GroupId) -> Option<Offer>
    requires ready { IsReady instance.now state.now }
    requires group { group.0 < length instance.now.groups }
    ensures due { MatchOption result (IsWaiting instance.now state.now group.0
        → ⊥) (IsDueOffer instance.now state.now) }
    ensures group { IfSome result (λ o. o.group ≡ group) }
{
    let place = state.pointer(group);
    if state.free(group) > 0 && place < instance.list_len(group) {
        Some(Offer { group, place })
    } else {
        None
    }
}

/// The next offer that is due. Groups that are not waiting are taken off the list, and so is the
/// group of the offer.
pub fn next_offer(instance: &Instance, state: &State, work: &mut WorkList) -> Option<Offer>
    requires ready { IsReady instance.now state.now }
    requires covered { CoversWork instance.now state.now work.old }
    ensures due { MatchOption result (IsEnded instance.now state.now.pointers state.now.free)
        (IsDueOffer instance.now state.now) }
    ensures covered { IfSome result (λ o. CoversRest instance.now state.now o.group.0 work.new) }
{
    while let Some(group) = work.pop() {
        if let Some(offer) = due_offer(instance, state, group) {
            return Some(offer);
        }
    }
    None
}

/// The offer of the group that is followed, if there is one and it is waiting; else the next one of
/// the list that is due.
pub fn offer_ahead(
    instance: &Instance,
    state: &State,
    work: &mut WorkList,
    ahead: Option<GroupId>,
) -> Option<Offer>
    requires ready { IsReady instance.now state.now }
    requires covered { CoversWork instance.now state.now work.old }
    requires ahead { IfSome ahead (λ g. g.0 < length instance.now.groups) }
    ensures due { MatchOption result (IsEnded instance.now state.now.pointers state.now.free)
        (IsDueOffer instance.now state.now) }
    ensures covered { IfSome result (λ o. CoversRest instance.now state.now o.group.0 work.new) }
{
    if let Some(group) = ahead {
        if let Some(offer) = due_offer(instance, state, group) {
            return Some(offer);
        }
    }
    next_offer(instance, state, work)
}

/// Offers free units of a waiting group at its pointer, as many as fit under the limit there. Where none
/// fits, the pointer goes to the next place, and nothing is offered.
pub fn offer_or_skip<L>(
    instance: &Instance,
    state: &mut State,
    offer: Offer,
    freed: &mut Freed,
    steps: &mut Steps<L>,
) -> Result<(), NoMemory>
    requires ready { IsReady instance.now state.old }
    requires due { IsDueOffer instance.now state.old offer }
    ensures stepped { OnOk result (HasStepped instance.now state.old state.new offer.group.0
        freed.new steps.old steps.new) }
    ensures later { steps.old ≤ steps.new }
{
    let units = state
        .free(offer.group)
        .min(room_under(instance, state, offer));
    if units > 0 {
        return state.put(instance, offer, units, freed, steps);
    }
    freed.clear();
    state.set_pointer(offer.group, offer.place + 1);
    Ok(())
}

/// Puts the group of a proposal on the list again: in front where it alone gave up units, since its
/// numbers are still at hand then and no other group waits for what it asks next.
pub fn add_again(work: &mut WorkList, group: GroupId, freed: &[Eviction]) -> Result<(), NoMemory>
    requires { group.0 < length work.old }
    ensures { OnOk result (work.new ≡ slice_set work.old group.0 true) }
{
    if freed.len() == 1 && freed[0].offer.group == group {
        work.add_first(group)
    } else {
        work.add(group)
    }
}

/// Puts the groups that gave up units on the list again.
pub fn wake(work: &mut WorkList, freed: &[Eviction]) -> Result<(), NoMemory>
    requires { All (λ e. e.offer.group.0 < length work.old) freed.now }
    ensures count { OnOk result (length work.new ≡ length work.old) }
    ensures each { OnOk result ((h : ℕ) → h < length work.old → is_on work.new h
        ≡ (is_on work.old h || gave_any freed.now h)) }
{
    for eviction in freed {
        work.add(eviction.offer.group)?;
    }
    Ok(())
}
