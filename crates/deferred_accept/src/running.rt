//! Proposals until none is left.

ghost use Rattle.std.specs.Prelude.{◌≡◌, ◌+◌, ◌<◌, ◌≤◌, ℕ, Bool, OnOk, length, slice_index};
ghost use Rattle.map_model.specs.Progress.{IsEnded};
ghost use Rattle.evict.specs.Standing.{IsReady};
ghost use Rattle.best_laws.specs.Ahead.{IsAhead};
ghost use Rattle.deferred_accept.specs.Runs.{HasProposed, HasRun, WantsBefore, most_proposals};
ghost use Rattle.deferred_accept.specs.Spreading.{HoldsWork, StaysInside};
ghost use Rattle.deferred_accept.specs.Turning.{HasTurned};

use crate::pace::Pace;
use crate::turn::turn_at;
use crate::work::{add_again, offer_ahead, offer_or_skip, wake};
use crate::work_list::WorkList;
use evict::{Freed, State};
use map_model::{GroupId, Instance, Steps};
use no_memory::NoMemory;
use std::alloc::Global;

/// Turns the circle at a waiting group, where units have come round to it and a circle stands there.
fn look<L>(
    alloc: Global,
    instance: &Instance,
    state: &mut State,
    group: GroupId,
    pace: &mut Pace,
    steps: &mut Steps<L>,
) -> Result<(), NoMemory>
    requires ready { IsReady instance.now state.old }
    requires group { group.0 < length instance.now.groups }
    requires some { 0 < slice_index state.old.free group.0 }
    ensures turned { OnOk result (HasTurned instance.now state.old state.new steps.old steps.new) }
    ensures later { steps.old ≤ steps.new }
{
    // Tells the prover that the count is a number of 64 bits.
    let _count = steps.count();
    if !pace.meets(group) {
        return Ok(());
    }
    turn_at(alloc, instance, state, group, steps)
}

/// Offers free units, as many as fit under the limit of an offer, until no group has any before the
/// end of its list. A place whose limit is full is skipped. Each offer is one step: a
/// group makes at most one for each unit of its demand and one more, at each place from its pointer on.
///
/// Take a set of trees such that no list has pools both in it and out of it, and let only groups whose
/// lists are in it be waiting. Then all other groups keep what they hold, their pointers and their free
/// units, and the steps are bounded by what the groups in the set may offer.
///
/// # Errors
///
/// `NoMemory`. The state is only to be dropped then, and the count has not fallen.
pub fn run<L>(
    alloc: Global,
    instance: &Instance,
    state: &mut State,
    steps: &mut Steps<L>,
) -> Result<(), NoMemory>
    requires { IsReady instance.now state.old }
    ensures run { OnOk result (HasRun instance.now state.old state.new) }
    ensures ended { OnOk result (IsEnded instance.now state.new.pointers state.new.free) }
    ensures steps { OnOk result (steps.new ≤ steps.old
        + most_proposals instance.now state.old.pointers) }
    ensures counted { OnOk result
        (HasProposed instance.now state.old state.new steps.old steps.new) }
    ensures later { steps.old ≤ steps.new }
    ensures wanted { OnOk result (WantsBefore instance.now state.old
        → WantsBefore instance.now state.new) }
    ensures ahead { OnOk result (IsAhead instance.now state.old.lines state.old.pointers
        → IsAhead instance.now state.new.lines state.new.pointers) }
    ensures inside { OnOk result ((trees : ℕ → Bool) → HoldsWork instance.now trees state.old
        → StaysInside instance.now trees state.old state.new steps.old steps.new) }
{
    let mut freed = Freed::new(alloc);
    let mut work = WorkList::all(alloc, instance)?;
    let mut pace = Pace::new(instance);
    let mut ahead = None;
    while let Some(offer) = offer_ahead(instance, state, &mut work, ahead) {
        look(alloc, instance, state, offer.group, &mut pace, steps)?;
        offer_or_skip(instance, state, offer, &mut freed, steps)?;
        let given_up = freed.evictions();
        add_again(&mut work, offer.group, given_up)?;
        wake(&mut work, given_up)?;
        ahead = pace.next_group(given_up);
    }
    Ok(())
}
