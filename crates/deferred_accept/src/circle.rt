//! Groups that displace each other round a circle.

ghost use Rattle.std.specs.Prelude.{◌≡◌, ◌+◌, ◌<◌, ◌≤◌, false, IfOk, IfSome, length, slice_index};
ghost use Rattle.std.specs.Bool.{OnTrue};
ghost use Rattle.map_model.specs.Allocation.{IsOffer, key_le};
ghost use Rattle.map_model.specs.Market.{key_of};
ghost use Rattle.evict.specs.Standing.{IsReady};
ghost use Rattle.deferred_accept.specs.Turning.{AreRound, IsHop};

use evict::{Rival, State};
use map_model::{GroupId, Instance, Offer};
use no_memory::NoMemory;
use std::alloc::Global;

/// What a group would offer next, and whom that would displace.
#[derive(Clone, Copy, Debug, PartialEq, Eq)]
pub struct Hop {
    pub offer: Offer,
    pub rival: Rival,
}

/// Whether an offer is ranked above another one, which stands before the pointer of its own group.
fn displaces(instance: &Instance, state: &State, offer: Offer, other: Offer) -> bool
    requires ready { IsReady instance.now state.now }
    requires offer { IsOffer instance.now offer.group.0 offer.place }
    requires other { IsOffer instance.now other.group.0 other.place }
    ensures better { OnTrue result (key_le (key_of instance.now other.group.0 other.place)
        (key_of instance.now offer.group.0 offer.place) ≡ false) }
    ensures behind { OnTrue result (other.place < slice_index state.now.pointers other.group.0) }
{
    instance.key(other) > instance.key(offer) && other.place < state.pointer(other.group)
}

/// What a group would offer next, if that would displace units of a lower offer and move no pointer.
fn hop_of(instance: &Instance, state: &State, group: GroupId) -> Option<Hop>
    requires ready { IsReady instance.now state.now }
    requires group { group.0 < length instance.now.groups }
    ensures hop { IfSome result (λ hop. IsHop instance.now state.now hop) }
    ensures group { IfSome result (λ hop. hop.offer.group ≡ group) }
{
    let place = state.pointer(group);
    if place >= instance.list_len(group) {
        return None;
    }
    let offer = Offer { group, place };
    let rival = state.rival(instance, offer)?;
    if displaces(instance, state, offer, rival.offer) {
        Some(Hop { offer, rival })
    } else {
        None
    }
}

/// The same of a group that has no free units.
fn idle_hop(instance: &Instance, state: &State, group: GroupId) -> Option<Hop>
    requires ready { IsReady instance.now state.now }
    requires group { group.0 < length instance.now.groups }
    ensures hop { IfSome result (λ hop. IsHop instance.now state.now hop) }
    ensures group { IfSome result (λ hop. hop.offer.group ≡ group) }
    ensures idle { IfSome result (λ hop. slice_index state.now.free hop.offer.group.0 ≡ 0) }
{
    if state.free(group) == 0 {
        hop_of(instance, state, group)
    } else {
        None
    }
}

/// The hops of the circle at a group, its own first, where all free units of the circle are the
/// group's.
pub fn circle_at(
    alloc: Global,
    instance: &Instance,
    state: &State,
    group: GroupId,
) -> Result<Option<Vec<Hop>>, NoMemory>
    requires ready { IsReady instance.now state.now }
    requires group { group.0 < length instance.now.groups }
    requires some { 0 < slice_index state.now.free group.0 }
    ensures round { IfOk result (λ found. IfSome found
        (λ hops. AreRound instance.now state.now hops.items (slice_index state.now.free group.0))) }
    ensures few { IfOk result (λ found. IfSome found (λ hops. length hops.items
        ≤ length instance.now.groups + 1)) }
{
    let mut hops = Vec::new(alloc);
    let Some(first) = hop_of(instance, state, group) else {
        return Ok(None);
    };
    hops.push(first)?;
    let mut next = first.rival.offer.group;
    for _step in 0..instance.groups() {
        if next == group {
            return Ok(Some(hops));
        }
        let Some(hop) = idle_hop(instance, state, next) else {
            return Ok(None);
        };
        hops.push(hop)?;
        next = hop.rival.offer.group;
    }
    Ok(None)
}
