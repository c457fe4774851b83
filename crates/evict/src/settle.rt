//! What a put does to free units and pointers, once its evictions are done.

ghost use Rattle.std.specs.Prelude.{◌≡◌, ℕ, ◌+◌, ◌<◌, ◌≤◌, ◌^◌, ◌==◌, All, length, slice_index, if◌then◌else◌};
ghost use Rattle.evict.specs.Evictions.{CanSettle, freed_units, gave_up};

use crate::freed::Eviction;
use map_model::{Offer, Units};

/// Makes what was given up free again.
fn free_again(free: &mut [Units], freed: &[Eviction])
    requires groups { All (λ e. e.offer.group.0 < length free.old) freed.now }
    requires room { (h : ℕ) → h < length free.old → slice_index free.old h
        + freed_units (λ x _. x == h) freed.now < 2 ^ 64 }
    ensures { (h : ℕ) → h < length free.new → slice_index free.new h ≡ slice_index free.old h
        + freed_units (λ x _. x == h) freed.now }
{
    for eviction in freed {
        free[eviction.offer.group.0 as usize] += eviction.units;
    }
}

/// Where a group lost units of the offer at its pointer, the pointer goes to the next place.
fn move_pointers(pointers: &mut [u8], freed: &[Eviction])
    requires groups { All (λ e. e.offer.group.0 < length pointers.old) freed.now }
    requires places { All (λ e. (e.offer.place ≤ slice_index pointers.old e.offer.group.0)
        × (e.offer.place < 16)) freed.now }
    ensures { (h : ℕ) → h < length pointers.new → slice_index pointers.new h
        ≡ (if gave_up freed.now h (slice_index pointers.old h) then slice_index pointers.old h + 1
        else slice_index pointers.old h) }
{
    for eviction in freed {
        let group = eviction.offer.group.0 as usize;
        if pointers[group] == eviction.offer.place {
            pointers[group] += 1;
        }
    }
}

/// Free units and pointers after a put of units of an offer, and what was given up.
pub fn settle(
    free: &mut [Units],
    pointers: &mut [u8],
    offer: Offer,
    units: Units,
    freed: &[Eviction],
)
    requires { CanSettle free.old pointers.old offer.group.0 units freed.now }
    ensures free { (h : ℕ) → h < length free.new → slice_index free.new h
        + (if offer.group.0 == h then units else 0) ≡ slice_index free.old h
        + freed_units (λ x _. x == h) freed.now }
    ensures pointers { (h : ℕ) → h < length pointers.new → slice_index pointers.new h
        ≡ (if gave_up freed.now h (slice_index pointers.old h) then slice_index pointers.old h + 1
        else slice_index pointers.old h) }
{
    free[offer.group.0 as usize] -= units;
    free_again(free, freed);
    move_pointers(pointers, freed);
}
