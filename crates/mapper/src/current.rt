//! A map with what goes with it, and the one that follows it by a batch.
ghost use Rattle.std.specs.Prelude.{◌≡◌, ◌+◌, ◌≤◌, ℕ, List, IfOk, IfSome, OnOk};
ghost use Rattle.map_model.specs.declared.change.Change.{Change};
ghost use Rattle.map_model.specs.declared.lines.MapLine.{MapLine};
ghost use Rattle.map_model.specs.Market.{IsSameShape, Market};
ghost use Rattle.map_model.specs.Allocation.{IsGood, IsMapForm};
ghost use Rattle.map_model.specs.Batch.{IsApplied, IsBatch};
ghost use Rattle.map_model.specs.Progress.{IsEnded};
ghost use Rattle.move_up.specs.Asked.{AreAllListed};
ghost use Rattle.map_repair.specs.Repaired.{IsKept, IsLocal, IsStateOf, IsWithinTwiceSpread};
ghost use Rattle.map_repair.specs.Resumed.{HasRepaired};
ghost use Rattle.evict.specs.Standing.{IsReady};
ghost use Rattle.map_text.specs.Cutting.{AreCutsOf};
ghost use Rattle.map_text.specs.Writing.{mapped, text_of_map};
ghost use Rattle.mapper.specs.Currents.{IsCurrent, IsKeptFor, IsWritten, Makes, version_of};
ghost use Rattle.mapper.specs.Mappers.{IsMapping, most_offers};

use crate::Totals;
use crate::adding::totals;
use deferred_accept::{ended_map, run};
use demand_feed::{Batch, apply};
use evict::State;
use map_model::{Instance, MapLines, Steps};
use map_repair::{Renewal, resume};
use map_text::{Cuts, Written, write_after, write_first};
use move_up::Asked;
use no_memory::NoMemory;
use std::alloc::Global;
use topology_text::Topology;

/// A map, the instance for which it is good, its text and its totals.
#[derive(Drop)]
pub(crate) struct Current {
    pub instance: Instance,
    pub map: MapLines,
    pub text: Vec<u8>,
    pub cuts: Cuts,
    pub totals: Totals,
}

/// How many proposals and turns for each group a state takes before it is made anew. Each may file its offer once more in the
/// queues of the nodes above it, and an offer that was emptied since leaves its old seats there unless they are the worst.
const PROPOSALS_KEPT: u64 = 8;

/// A state of the newest map, from which the next repair goes on, the offers by the trees of their pools, which the first
/// repair lists, and how many proposals repairs have made on the state, with the turns in which units moved up.
#[derive(Drop)]
pub(crate) struct Kept {
    pub state: State,
    pub asked: Option<Asked>,
    pub proposals: u64,
}

/// What was kept, but where there were so many proposals that it is to be made anew: its memory would grow from commit to
/// commit.
pub(crate) fn unworn(kept: Option<Kept>, groups: u32) -> Option<Kept>
    ensures { (m : Market) (lines : List MapLine)
        → IfSome kept (λ k. IsKeptFor m lines k) → IfSome result (λ k. IsKeptFor m lines k) }
{
    let kept = kept?;
    if kept.proposals > PROPOSALS_KEPT * u64::from(groups) {
        return None;
    }
    Some(kept)
}

/// An instance after a batch.
pub(crate) fn applied(instance: Instance, batch: &Batch) -> Instance
    requires { IsBatch instance batch.now }
    ensures { IsApplied instance batch.now result }
{
    let mut instance = instance;
    apply(&mut instance, batch);
    instance
}

/// An instance after a batch, made of the spare one, which is the same, or of a copy.
pub(crate) fn after_batch(
    old: &Instance,
    spare: Option<Instance>,
    batch: &Batch,
) -> Result<Instance, NoMemory>
    requires spare { IfSome spare (λ s. s ≡ old.now) }
    requires ids { IsBatch old.now batch.now }
    ensures { IfOk result (λ new. IsApplied old.now batch.now new) }
{
    let other = match spare {
        Some(spare) => spare,
        None => old.try_clone()?,
    };
    Ok(applied(other, batch))
}

/// Takes out the offers of an instance by the trees of their pools, or lists them where that was not done.
fn take_asked(
    alloc: Global,
    instance: &Instance,
    state: &State,
    asked: &mut Option<Asked>,
) -> Result<Asked, NoMemory>
    requires ready { IsReady instance.now state.now }
    requires listed { IfSome asked.old (λ a. AreAllListed instance.now a) }
    ensures { IfOk result (λ a. AreAllListed instance.now a) }
{
    match asked.take() {
        Some(asked) => Ok(asked),
        None => Asked::build(alloc, instance, state),
    }
}

/// The map of the new instance, by repair of the kept state.
fn repaired<L>(
    alloc: Global,
    old: &Current,
    new: &Instance,
    kept: &mut Kept,
    steps: &mut Steps<L>,
) -> Result<MapLines, NoMemory>
    requires kept { IsKeptFor old.now.instance old.now.map.lines.items kept.old }
    requires good { IsGood old.now.instance old.now.map.lines.items old.now.map.names.items }
    requires shape { IsSameShape old.now.instance new.now }
    ensures state { IfOk result (λ map. IsKeptFor new.now map.lines.items kept.new) }
    ensures good { IfOk result (λ map. IsGood new.now map.lines.items map.names.items) }
    ensures kept { IfOk result (λ map.
        IsKept old.now.instance old.now.map.lines.items new.now map.lines.items) }
    ensures local { IfOk result (λ map.
        IsLocal old.now.instance old.now.map.lines.items new.now map.lines.items) }
    ensures counted { IfOk result (λ map. HasRepaired
        old.now.instance old.now.map.lines.items new.now map.lines.items steps.old steps.new) }
    ensures steps { OnOk result
        (IsWithinTwiceSpread old.now.instance old.now.map.lines.items new.now steps.old steps.new) }
    ensures later { steps.old ≤ steps.new }
{
    let before = steps.count();
    let asked = take_asked(alloc, &old.instance, &kept.state, &mut kept.asked)?;
    let change = Renewal {
        old: &old.instance,
        map: &old.map,
        new,
        asked: &asked,
    };
    let effort = resume(alloc, &change, &mut kept.state, steps)?;
    kept.asked = Some(asked);
    // the state of a try in vain is gone
    let proposals = (steps.count() - before).saturating_sub(effort.thrown);
    kept.proposals = kept
        .proposals
        .saturating_add(proposals)
        .saturating_add(effort.turns);
    ended_map(alloc, new, &kept.state)
}

/// The text of a map over a topology: by that of the map before, if there is one.
fn text_of(
    alloc: Global,
    topology: &Topology,
    old: Option<&Current>,
    map: &MapLines,
) -> Result<Written, NoMemory>
    requires old { IfSome old (λ c. IsWritten topology.now c.now) }
    requires form { IsMapForm topology.now.market map.now.lines.items map.now.names.items }
    ensures text { IfOk result (λ w. w.text.items ≡ text_of_map topology.now (mapped map.now)) }
    ensures cuts { IfOk result (λ w. AreCutsOf topology.now (mapped map.now) w.cuts) }
{
    match old {
        Some(old) => write_after(
            alloc,
            topology,
            old.text.as_slice(),
            &old.cuts,
            &old.map,
            map,
        ),
        None => write_first(alloc, topology, map),
    }
}

/// A map with its text and the totals of a state that holds it. The text is made by that of the map before, if there is one.
fn dressed(
    alloc: Global,
    topology: &Topology,
    old: Option<&Current>,
    instance: Instance,
    map: MapLines,
    state: &State,
) -> Result<Current, NoMemory>
    requires old { IfSome old (λ c. IsWritten topology.now c.now) }
    requires good { IsGood instance map.lines.items map.names.items }
    requires shape { IsSameShape topology.now.market instance }
    requires ready { IsReady instance state.now }
    requires lines { state.now.lines ≡ map.lines.items }
    ensures parts { IfOk result (λ c. (c.instance ≡ instance) × (c.map ≡ map)) }
    ensures current { IfOk result (λ c. (serial : ℕ)
        → IsCurrent (version_of serial topology.now c) c) }
{
    // tells the prover what the type keeps
    let _groups = instance.groups();
    let Written { text, cuts } = text_of(alloc, topology, old, &map)?;
    let totals = totals(&instance, state);
    Ok(Current {
        instance,
        map,
        text,
        cuts,
        totals,
    })
}

/// A map with its state.
#[derive(Drop)]
pub(crate) struct First {
    pub current: Current,
    pub kept: Kept,
}

/// A state of a good map of the instance, mapped from scratch.
fn mapped<L>(alloc: Global, instance: &Instance, steps: &mut Steps<L>) -> Result<Kept, NoMemory>
    ensures state { IfOk result (λ kept. IsStateOf instance.now kept.state) }
    ensures ended { IfOk result (λ kept. IsEnded instance.now kept.state.pointers kept.state.free) }
    ensures asked { IfOk result (λ kept. IfSome kept.asked (λ a. AreAllListed instance.now a)) }
    ensures counted { IfOk result (λ kept.
        IsMapping instance.now kept.state.lines steps.old steps.new) }
    ensures steps { OnOk result (steps.new ≤ steps.old + most_offers instance.now) }
    ensures later { steps.old ≤ steps.new }
{
    let mut state = State::fresh(alloc, instance)?;
    run(alloc, instance, &mut state, steps)?;
    Ok(Kept {
        state,
        asked: None,
        proposals: 0,
    })
}

/// The map of a topology's own instance, mapped from scratch.
pub(crate) fn first_of<L>(
    alloc: Global,
    topology: &Topology,
    steps: &mut Steps<L>,
) -> Result<First, NoMemory>
    ensures instance { IfOk result (λ f. f.current.instance ≡ topology.now.market) }
    ensures good { IfOk result (λ f.
        IsGood topology.now.market f.current.map.lines.items f.current.map.names.items) }
    ensures current { IfOk result (λ f. (serial : ℕ)
        → IsCurrent (version_of serial topology.now f.current) f.current) }
    ensures kept { IfOk result (λ f.
        IsKeptFor topology.now.market f.current.map.lines.items f.kept) }
    ensures counted { IfOk result (λ f.
        IsMapping topology.now.market f.current.map.lines.items steps.old steps.new) }
    ensures steps { OnOk result (steps.new ≤ steps.old + most_offers topology.now.market) }
    ensures later { steps.old ≤ steps.new }
{
    let instance = topology.instance().try_clone()?;
    let kept = mapped(alloc, &instance, steps)?;
    let map = ended_map(alloc, &instance, &kept.state)?;
    let current = dressed(alloc, topology, None, instance, map, &kept.state)?;
    Ok(First { current, kept })
}

pub(crate) fn kept_of(alloc: Global, current: &Current) -> Result<Kept, NoMemory>
    requires { IsGood current.now.instance current.now.map.lines.items current.now.map.names.items }
    ensures { IfOk result (λ kept.
        IsKeptFor current.now.instance current.now.map.lines.items kept) }
{
    let state = State::of_map(alloc, &current.instance, &current.map)?;
    Ok(Kept {
        state,
        asked: None,
        proposals: 0,
    })
}

/// The map of the next instance, by repair of the kept state.
pub(crate) fn next_of<L>(
    alloc: Global,
    topology: &Topology,
    old: &Current,
    kept: &mut Kept,
    instance: Instance,
    steps: &mut Steps<L>,
) -> Result<Current, NoMemory>
    requires kept { IsKeptFor old.now.instance old.now.map.lines.items kept.old }
    requires good { IsGood old.now.instance old.now.map.lines.items old.now.map.names.items }
    requires shape { IsSameShape topology.now.market old.now.instance
        × IsSameShape old.now.instance instance }
    requires written { IsWritten topology.now old.now }
    ensures makes { (changes : List Change) → IsApplied old.now.instance changes instance
        → IfOk result (Makes topology.now old.now changes) }
    ensures kept { IfOk result (λ c. IsKeptFor c.instance c.map.lines.items kept.new) }
    ensures counted { IfOk result (λ c. HasRepaired
        old.now.instance old.now.map.lines.items c.instance c.map.lines.items steps.old steps.new) }
    ensures steps { IfOk result (λ c. IsWithinTwiceSpread
        old.now.instance old.now.map.lines.items c.instance steps.old steps.new) }
    ensures later { steps.old ≤ steps.new }
{
    // tells the prover what the type keeps
    let _groups = instance.groups();
    let map = repaired(alloc, old, &instance, kept, steps)?;
    dressed(alloc, topology, Some(old), instance, map, &kept.state)
}
