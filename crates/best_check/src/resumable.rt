//! Whether a state that is open is resumable: each place before a group's pointer is wanted and refused.

ghost use Rattle.std.specs.Prelude.{◌≡◌, ℕ, ◌<◌, Some, true, length, IfOk, IsSome, slice_index};
ghost use Rattle.std.specs.Bool.{OnTrue};
ghost use Rattle.map_model.specs.declared.instance.Key.{Key};
ghost use Rattle.map_model.specs.Allocation.{IsOffer, amount_at, is_at_limit, is_wanted, key_le, refuser_of};
ghost use Rattle.evict.specs.Standing.{IsOpen, IsReady};
ghost use Rattle.best_check.specs.Open.{AreRefused, AreWanted, IsBarTable};

use crate::bars::bars_of;
use evict::State;
use map_model::{GroupId, Instance, Key, Offer, Units};
use no_memory::NoMemory;
use std::alloc::Global;

/// Whether a key is one of those from a bar on.
fn is_behind(bar: Option<Key>, key: Key) -> bool
    ensures { OnTrue result ((b : Key) × (bar ≡ Some b) × (key_le b key ≡ true)) }
{
    match bar {
        Some(bar) => bar <= key,
        None => false,
    }
}

/// Whether an offer holds as many units as its limit.
fn is_at_limit(instance: &Instance, state: &State, offer: Offer) -> bool
    requires open { IsOpen instance.now state.now }
    requires offer { IsOffer instance.now offer.group.0 offer.place }
    ensures { result ≡ is_at_limit instance.now state.now.lines offer.group.0 offer.place }
{
    state.units(offer) == Units::from(instance.limit(offer.group, offer.place))
}

/// Whether an offer is refused, by a node or else by its limit.
fn is_refused(instance: &Instance, state: &State, bars: &[Option<Key>], offer: Offer) -> bool
    requires open { IsOpen instance.now state.now }
    requires bars { IsBarTable instance.now state.now.lines bars.now }
    requires offer { IsOffer instance.now offer.group.0 offer.place }
    ensures { OnTrue result (IsSome (refuser_of instance.now state.now.lines offer.group.0
        offer.place)) }
{
    let key = instance.key(offer);
    is_behind(bars[key.pool.0 as usize], key) || is_at_limit(instance, state, offer)
}

/// Whether each offer before a group's pointer is refused.
fn are_refused(instance: &Instance, state: &State, bars: &[Option<Key>], group: GroupId) -> bool
    requires open { IsOpen instance.now state.now }
    requires bars { IsBarTable instance.now state.now.lines bars.now }
    requires group { group.0 < length instance.now.groups }
    ensures { OnTrue result (AreRefused instance.now state.now group.0) }
{
    for place in 0..state.pointer(group) {
        if !is_refused(instance, state, bars, Offer { group, place }) {
            return false;
        }
    }
    true
}

fn holds_at_pointer(instance: &Instance, state: &State, group: GroupId) -> bool
    requires open { IsOpen instance.now state.now }
    requires group { group.0 < length instance.now.groups }
    ensures { OnTrue result (0 < amount_at state.now.lines group.0
        (slice_index state.now.pointers group.0)) }
{
    let place = state.pointer(group);
    place < instance.list_len(group) && state.units(Offer { group, place }) > 0
}

/// Whether each place before a group's pointer is wanted: some of what it asks for is free or at its pointer.
fn are_wanted(instance: &Instance, state: &State, group: GroupId) -> bool
    requires open { IsOpen instance.now state.now }
    requires group { group.0 < length instance.now.groups }
    ensures { OnTrue result (AreWanted instance.now state.now group.0) }
{
    state.free(group) > 0 || holds_at_pointer(instance, state, group)
}

/// Whether each place before a group's pointer is wanted and refused.
fn is_group_resumable(
    instance: &Instance,
    state: &State,
    bars: &[Option<Key>],
    group: GroupId,
) -> bool
    requires open { IsOpen instance.now state.now }
    requires bars { IsBarTable instance.now state.now.lines bars.now }
    requires group { group.0 < length instance.now.groups }
    ensures wanted { OnTrue result (AreWanted instance.now state.now group.0) }
    ensures refused { OnTrue result (AreRefused instance.now state.now group.0) }
{
    are_wanted(instance, state, group) && are_refused(instance, state, bars, group)
}

/// Whether a state that is open is resumable, and each place before a group's pointer is wanted: it is so, if this says yes.
/// The state stays as it is. Each offer before a pointer is looked at once, and each node.
///
/// # Errors
///
/// `NoMemory`.
pub fn is_resumable(alloc: Global, instance: &Instance, state: &State) -> Result<bool, NoMemory>
    requires { IsOpen instance.now state.now }
    ensures ready { IfOk result (λ yes. yes ≡ true → IsReady instance.now state.now) }
    ensures wanted { IfOk result (λ yes. yes ≡ true → (g k : ℕ) → IsOffer instance.now g k → k
        < slice_index state.now.pointers g → is_wanted instance.now state.now.lines g k ≡ true) }
{
    let bars = bars_of(alloc, instance, state)?;
    for g in 0..instance.groups() {
        if !is_group_resumable(instance, state, bars.as_slice(), GroupId(g)) {
            return Ok(false);
        }
    }
    Ok(true)
}
