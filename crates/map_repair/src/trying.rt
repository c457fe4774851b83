//! The two ways from a state of the old map to one of the new map: units move up, and what comes of that is looked at; or
//! groups go back, and offer again.

ghost use Rattle.std.specs.Prelude.{◌≡◌, ◌≤◌, true, IfOk, IfSome, MatchOption, OnOk};
ghost use Rattle.map_model.specs.Market.{IsSameShape};
ghost use Rattle.map_model.specs.Allocation.{IsGood};
ghost use Rattle.map_model.specs.Progress.{IsGroupBest};
ghost use Rattle.evict.specs.Standing.{IsReady};
ghost use Rattle.deferred_accept.specs.Runs.{WantsBefore};
ghost use Rattle.map_repair.specs.Marks.{AreReached};
ghost use Rattle.map_repair.specs.Repaired.{IsStateOf};
ghost use Rattle.map_repair.specs.Resumed.{most_turns};
ghost use Rattle.map_repair.specs.Ways.{HasRunOut, IsCutAndMoved, IsResumed, IsThrown};

use crate::renewal::Renewal;
use best_check::{is_best, is_resumable};
use deferred_accept::run;
use evict::State;
use map_model::{Instance, MapLines, Steps};
use move_up::{Asked, Search, move_up};
use no_memory::NoMemory;
use reopen::{cut_and_trim, roll_back};
use std::alloc::Global;

/// How many turns units may take to move up: half as many as there are groups, which in large worlds take a few times as long
/// as the way back, and are not needed by thousands of changes. Without a bound a unit of room could move each unit of a ring
/// of groups once for each place.
fn most_turns(instance: &Instance) -> u64
    ensures { result ≡ most_turns instance.now }
{
    u64::from(instance.groups() / 2).max(64)
}

/// Cuts a state for the new numbers, and moves units up in marked trees. In how many turns is the result.
fn moved(
    alloc: Global,
    old: &Instance,
    new: &Instance,
    asked: &Asked,
    state: &mut State,
    marks: &[bool],
) -> Result<u64, NoMemory>
    requires of_map { IsStateOf old.now state.old }
    requires shape { IsSameShape old.now new.now }
    requires marks { AreReached old.now state.old.lines new.now marks.now }
    ensures moved { OnOk result (IsCutAndMoved new.now marks.now state.old state.new) }
    ensures few { IfOk result (λ turns. turns ≤ most_turns new.now) }
{
    // tells the prover what the type keeps
    let _groups = new.groups();
    let mut search = Search::under_full(alloc, old, state, asked)?;
    cut_and_trim(new, state);
    move_up(old, new, state, marks, &mut search, most_turns(new))
}

/// Runs a state to its end, and says whether that holds the group-best map. It also says no where that can't be told.
fn run_to_best<L>(
    alloc: Global,
    new: &Instance,
    state: &mut State,
    steps: &mut Steps<L>,
) -> Result<bool, NoMemory>
    requires ready { IsReady new.now state.old }
    requires wanted { WantsBefore new.now state.old }
    ensures run { OnOk result (HasRunOut new.now state.old state.new steps.old steps.new) }
    ensures best { IfOk result (λ best. best ≡ true → IsGroupBest new.now state.new.lines) }
    ensures later { steps.old ≤ steps.new }
{
    run(alloc, new, state, steps)?;
    is_best(alloc, new, state)
}

/// Tries to come to the new map by units that move up, in so many turns. There are none where what came of it is not that map, or
/// can't be told to be: the state is only to be dropped then. Its proposals are counted all the same.
fn try_moves<L>(
    alloc: Global,
    change: &Renewal<'_>,
    state: &mut State,
    marks: &[bool],
    steps: &mut Steps<L>,
) -> Result<Option<u64>, NoMemory>
    requires of_map { IsStateOf change.now.old.now state.old }
    requires shape { IsSameShape change.now.old.now change.now.new.now }
    requires marks { AreReached change.now.old.now state.old.lines change.now.new.now marks.now }
    ensures tried { IfOk result (λ turns. MatchOption turns
        (IsThrown change.now.old.now state.old.lines change.now.new.now steps.old steps.new)
        (λ n. IsResumed change.now.old.now state.old.lines change.now.new.now state.new
        steps.old steps.new)) }
    ensures few { IfOk result (λ turns. IfSome turns (λ n. n ≤ most_turns change.now.new.now)) }
    ensures later { steps.old ≤ steps.new }
{
    let turns = moved(alloc, change.old, change.new, change.asked, state, marks)?;
    if !is_resumable(alloc, change.new, state)? {
        return Ok(None);
    }
    if !run_to_best(alloc, change.new, state, steps)? {
        return Ok(None);
    }
    Ok(Some(turns))
}

/// Tries to come to the new map by units that move up, in so many turns. Where there are none, the state is one of the old map.
pub fn tried_or_anew<L>(
    alloc: Global,
    change: &Renewal<'_>,
    state: &mut State,
    marks: &[bool],
    steps: &mut Steps<L>,
) -> Result<Option<u64>, NoMemory>
    requires of_map { IsStateOf change.now.old.now state.old }
    requires good { IsGood change.now.old.now change.now.map.now.lines.items
        change.now.map.now.names.items }
    requires holds { state.old.lines ≡ change.now.map.now.lines.items }
    requires shape { IsSameShape change.now.old.now change.now.new.now }
    requires marks { AreReached change.now.old.now state.old.lines change.now.new.now marks.now }
    ensures tried { IfOk result (λ turns. MatchOption turns
        (IsStateOf change.now.old.now state.new × (state.new.lines ≡ state.old.lines)
        × IsThrown change.now.old.now state.old.lines change.now.new.now steps.old steps.new)
        (λ n. IsResumed change.now.old.now state.old.lines change.now.new.now state.new
        steps.old steps.new)) }
    ensures few { IfOk result (λ turns. IfSome turns (λ n. n ≤ most_turns change.now.new.now)) }
    ensures later { steps.old ≤ steps.new }
{
    let turns = try_moves(alloc, change, state, marks, steps)?;
    if turns.is_none() {
        *state = State::of_map(alloc, change.old, change.map)?;
    }
    Ok(turns)
}

/// Cuts a state for the new numbers, sends groups back to their first places in marked trees, and lets them offer again.
pub fn go_back<L>(
    alloc: Global,
    old: &Instance,
    new: &Instance,
    state: &mut State,
    marks: &[bool],
    steps: &mut Steps<L>,
) -> Result<(), NoMemory>
    requires of_map { IsStateOf old.now state.old }
    requires shape { IsSameShape old.now new.now }
    requires marks { AreReached old.now state.old.lines new.now marks.now }
    ensures resumed { OnOk result (IsResumed old.now state.old.lines new.now state.new steps.old
        steps.new) }
    ensures later { steps.old ≤ steps.new }
{
    // tells the prover what the type keeps
    let _groups = new.groups();
    cut_and_trim(new, state);
    roll_back(new, state, marks);
    run(alloc, new, state, steps)
}
