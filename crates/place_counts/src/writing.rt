//! The text of these sums.
ghost use Rattle.std.specs.Prelude.{◌≡◌, ◌++◌, IfOk, OnOk};
ghost use Rattle.evict.specs.Standing.{IsReady};
ghost use Rattle.place_counts.specs.Places.{place_line, places_text, unplaced_line};

use crate::counting::{longest, units_at, unplaced};
use evict::State;
use map_model::{Instance, Units};
use no_memory::NoMemory;
use std::alloc::Global;

/// Appends the line of a place.
#[tactic(auto, unfolding(crate::specs::Places::place_line))]
fn push_place(alloc: Global, text: &mut Vec<u8>, place: u8, units: Units) -> Result<(), NoMemory>
    ensures { OnOk result (text.new.items ≡ text.old.items ++ place_line place units) }
{
    let line = format!(in alloc; "place {place} {units}\n")?;
    text.extend_from_slice(line.as_bytes())?;
    Ok(())
}

/// Appends the line of what is not placed.
#[tactic(auto, unfolding(crate::specs::Places::unplaced_line))]
fn push_unplaced(alloc: Global, text: &mut Vec<u8>, units: Units) -> Result<(), NoMemory>
    ensures { OnOk result (text.new.items ≡ text.old.items ++ unplaced_line units) }
{
    let line = format!(in alloc; "unplaced {units}\n")?;
    text.extend_from_slice(line.as_bytes())?;
    Ok(())
}

/// How many units all groups hold at each place, from the first to the last of the longest list, and how many are
/// not placed.
///
/// # Errors
///
/// `NoMemory`.
#[tactic(auto, unfolding(crate::specs::Places::places_text))]
pub fn write_places(alloc: Global, instance: &Instance, state: &State) -> Result<Vec<u8>, NoMemory>
    requires { IsReady instance.now state.now }
    ensures { IfOk result (λ text. text.items ≡ places_text instance.now state.now.lines) }
{
    let mut text = Vec::new(alloc);
    for place in 0..longest(instance) {
        let units = units_at(instance, state, place);
        push_place(alloc, &mut text, place, units)?;
    }
    let units = unplaced(instance, state);
    push_unplaced(alloc, &mut text, units)?;
    Ok(text)
}
