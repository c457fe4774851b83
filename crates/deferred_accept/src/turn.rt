//! Whole rounds of a circle, made at once.

ghost use Rattle.std.specs.Prelude.{◌+◌, ◌<◌, ◌≤◌, OnOk, length, slice_index};
ghost use Rattle.evict.specs.Standing.{IsReady};
ghost use Rattle.deferred_accept.specs.Turning.{AreRound, CanPass, HasTurned, IsPassed};

use crate::circle::{Hop, circle_at};
use crate::room::common_room;
use evict::State;
use map_model::{GroupId, Instance, Steps, Units};
use no_memory::NoMemory;
use std::alloc::Global;

/// Units go round a circle: each displaced offer gives them up to the next one of its own group.
fn turn(state: &mut State, hops: &[Hop], units: Units) -> Result<(), NoMemory>
    requires { CanPass state.old hops.now units }
    ensures { OnOk result (IsPassed state.old state.new hops.now units) }
{
    for hop in hops {
        let place = state.pointer(hop.rival.offer.group);
        state.shift(hop.rival.offer, place, units)?;
    }
    Ok(())
}

/// Makes as many whole rounds of a circle as there is room for, of the units that are free on it. Each
/// hop of a round is one step.
fn make_rounds<L>(
    instance: &Instance,
    state: &mut State,
    hops: &[Hop],
    units: Units,
    steps: &mut Steps<L>,
) -> Result<(), NoMemory>
    requires ready { IsReady instance.now state.old }
    requires round { AreRound instance.now state.old hops.now units }
    requires few { length hops.now ≤ length instance.now.groups + 1 }
    ensures turned { OnOk result (HasTurned instance.now state.old state.new steps.old steps.new) }
    ensures later { steps.old ≤ steps.new }
{
    // Tells the prover that the count is a number of 64 bits, and that this is an instance.
    let _count = steps.count();
    let _groups = instance.groups();
    let rounds = common_room(instance, state, hops) / units;
    if rounds > 0 {
        turn(state, hops, rounds * units)?;
        steps.add(rounds * hops.len() as u64);
    }
    Ok(())
}

/// Makes whole rounds of the circle at a waiting group, if a circle stands there.
pub fn turn_at<L>(
    alloc: Global,
    instance: &Instance,
    state: &mut State,
    group: GroupId,
    steps: &mut Steps<L>,
) -> Result<(), NoMemory>
    requires ready { IsReady instance.now state.old }
    requires group { group.0 < length instance.now.groups }
    requires some { 0 < slice_index state.old.free group.0 }
    ensures turned { OnOk result (HasTurned instance.now state.old state.new steps.old steps.new) }
    ensures later { steps.old ≤ steps.new }
{
    // Tells the prover that the count is a number of 64 bits.
    let _count = steps.count();
    if let Some(hops) = circle_at(alloc, instance, state, group)? {
        let units = state.free(group);
        make_rounds(instance, state, hops.as_slice(), units, steps)?;
    }
    Ok(())
}
