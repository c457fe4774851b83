//! Repairing a good map, or a state of one that is kept.

ghost use Rattle.std.specs.Prelude.{◌≡◌, ◌+◌, ◌≤◌, IfOk, OnOk};
ghost use Rattle.map_model.specs.Market.{IsSameShape};
ghost use Rattle.map_model.specs.Allocation.{IsGood};
ghost use Rattle.map_model.specs.Progress.{IsEnded};
ghost use Rattle.move_up.specs.Asked.{AreAllListed};
ghost use Rattle.map_repair.specs.Determined.{IsRepairedOf};
ghost use Rattle.map_repair.specs.Repaired.{IsKept, IsLocal, IsStateOf, IsWithinSpread, IsWithinTwiceSpread};
ghost use Rattle.map_repair.specs.Resumed.{HasRepaired, HasResumed, most_turns};

use crate::reaching::reached;
use crate::renewal::Renewal;
use crate::trying::{go_back, tried_or_anew};
use deferred_accept::finish;
use evict::State;
use map_model::{Instance, MapLines, Steps};
use move_up::Asked;
use no_memory::NoMemory;
use std::alloc::Global;

/// What a resume took beside its map.
#[derive(Clone, Copy, Debug, PartialEq, Eq)]
pub struct Effort {
    /// In how many turns units moved up to the new map, at most; 0 where groups went back.
    pub turns: u64,
    /// How many of the proposals that were counted are those of a try whose map was not taken.
    pub thrown: u64,
}

/// Changes a state of a good map to one of a good map for an instance that differs in demands and capacities alone. It may
/// be kept for the next change. What that took is the result.
///
/// Units move up first, and what comes of that is looked at: where it is not the group-best map, or can't be told to be, the
/// state is made anew of the old map, and groups go back and offer again. All proposals are counted, also those of such a try.
///
/// # Errors
///
/// `NoMemory`. The state is only to be dropped then.
pub fn resume<L>(
    alloc: Global,
    change: &Renewal<'_>,
    state: &mut State,
    steps: &mut Steps<L>,
) -> Result<Effort, NoMemory>
    requires of_map { IsStateOf change.now.old.now state.old }
    requires good { IsGood change.now.old.now change.now.map.now.lines.items
        change.now.map.now.names.items }
    requires holds { state.old.lines ≡ change.now.map.now.lines.items }
    requires asked { AreAllListed change.now.old.now change.now.asked.now }
    requires shape { IsSameShape change.now.old.now change.now.new.now }
    ensures asked { AreAllListed change.now.new.now change.now.asked.now }
    ensures of_map { OnOk result (IsStateOf change.now.new.now state.new) }
    ensures ended { OnOk result (IsEnded change.now.new.now state.new.pointers state.new.free) }
    ensures kept { OnOk result
        (IsKept change.now.old.now state.old.lines change.now.new.now state.new.lines) }
    ensures local { OnOk result
        (IsLocal change.now.old.now state.old.lines change.now.new.now state.new.lines) }
    ensures determined { OnOk result
        (IsRepairedOf change.now.old.now state.old.lines change.now.new.now state.new.lines) }
    ensures counted { IfOk result (λ effort.
        HasResumed change.now.old.now state.old.lines change.now.new.now state.new
        steps.old (steps.old + effort.thrown) steps.new) }
    ensures steps { IfOk result (λ effort.
        IsWithinSpread change.now.old.now state.old.lines change.now.new.now
        (steps.old + effort.thrown) steps.new) }
    ensures thrown { IfOk result (λ effort.
        IsWithinSpread change.now.old.now state.old.lines change.now.new.now 0 effort.thrown) }
    ensures few { IfOk result (λ effort. effort.turns ≤ most_turns change.now.new.now) }
    ensures later { steps.old ≤ steps.new }
{
    let marks = reached(alloc, change.old, change.new, change.asked, state)?;
    let marked = marks.as_slice();
    let before = steps.count();
    if let Some(turns) = tried_or_anew(alloc, change, state, marked, steps)? {
        return Ok(Effort { turns, thrown: 0 });
    }
    let thrown = steps.count() - before;
    go_back(alloc, change.old, change.new, state, marked, steps)?;
    Ok(Effort { turns: 0, thrown })
}

/// Repairs a good map for an instance that differs in demands and capacities alone. The new map is good.
///
/// A group with no old wanted place in a reached tree is not moved up. A group with no pool in a spread
/// tree keeps its lines and names. The proposals are all counted, also those of a try whose map was not taken. They are within
/// twice those that the other groups may make.
/// There is one such map: it is determined by the old instance, the old map and the new instance.
///
/// # Errors
///
/// `NoMemory`.
pub fn repair<L>(
    alloc: Global,
    old: &Instance,
    map: &MapLines,
    new: &Instance,
    steps: &mut Steps<L>,
) -> Result<MapLines, NoMemory>
    requires good { IsGood old.now map.now.lines.items map.now.names.items }
    requires shape { IsSameShape old.now new.now }
    ensures good { IfOk result (λ made. IsGood new.now made.lines.items made.names.items) }
    ensures kept { IfOk result
        (λ made. IsKept old.now map.now.lines.items new.now made.lines.items) }
    ensures local { IfOk result (λ made. IsLocal old.now map.now.lines.items new.now
        made.lines.items) }
    ensures determined { IfOk result (λ made. IsRepairedOf old.now map.now.lines.items new.now
        made.lines.items) }
    ensures counted { IfOk result (λ made. HasRepaired old.now map.now.lines.items new.now
        made.lines.items steps.old steps.new) }
    ensures steps { OnOk result (IsWithinTwiceSpread old.now map.now.lines.items new.now steps.old
        steps.new) }
    ensures later { steps.old ≤ steps.new }
{
    let mut state = State::of_map(alloc, old, map)?;
    let asked = Asked::build(alloc, old, &state)?;
    let change = Renewal {
        old,
        map,
        new,
        asked: &asked,
    };
    resume(alloc, &change, &mut state, steps)?;
    finish(alloc, new, state)
}
