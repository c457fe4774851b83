//! The reached trees: those in which a capacity changed or a group whose demand fell has units, and with a tree in which a
//! group has an old wanted place those in which it has units.

ghost use Rattle.std.specs.Prelude.{◌≡◌, ◌≢◌, ◌⊎◌, ◌++◌, ℕ, ◌<◌, ◌≤◌, Bool, true, false, [], ◌∷◌, length, Contains, slice_index, IfOk, MatchOption, OnOk};
ghost use Rattle.map_model.specs.Market.{IsSameShape, capacity_of, demand_of};
ghost use Rattle.map_model.specs.Allocation.{IsOffer, amount_at};
ghost use Rattle.map_model.specs.Progress.{HoldsIn, IsClosedUnderRepair, root_of, tree_of};
ghost use Rattle.evict.specs.Standing.{IsReady};
ghost use Rattle.move_up.specs.Asked.{AreAllListed};
ghost use Rattle.map_repair.specs.Repaired.{IsStateOf};
ghost use Rattle.map_repair.specs.Marks.{AreDone, AreMarkedTo, AreReached, HoldsInMarked, IsClosedFor, IsClosedForAll, IsMarking, IsPending, IsSettled, IsWithin, is_on};

use crate::marks::Marks;
use evict::State;
use map_model::{GroupId, Instance, NodeId, Offer};
use move_up::Asked;
use no_memory::NoMemory;
use std::alloc::Global;

/// Marks the tree of an offer that holds units.
fn mark_offer(
    old: &Instance,
    state: &State,
    marks: &mut Marks,
    offer: Offer,
) -> Result<(), NoMemory>
    requires ready { IsReady old.now state.now }
    requires size { length marks.old.on ≡ length old.now.nodes }
    requires offer { IsOffer old.now offer.group.0 offer.place }
    ensures marking { OnOk result (IsMarking marks.old marks.new) }
    ensures held { OnOk result (0 < amount_at state.now.lines offer.group.0 offer.place
        → is_on marks.new.on (tree_of old.now offer.group.0 offer.place) ≡ true) }
    ensures within { OnOk result ((trees : ℕ → Bool)
        → (0 < amount_at state.now.lines offer.group.0 offer.place
        → trees (tree_of old.now offer.group.0 offer.place) ≡ true) → IsWithin marks.old.on trees
        → IsWithin marks.new.on trees) }
{
    if state.units(offer) > 0 {
        let root = state.root(old.pool_at(offer));
        marks.mark(root)?;
    }
    Ok(())
}

/// Marks each tree in which a group holds units.
fn mark_held(
    old: &Instance,
    state: &State,
    marks: &mut Marks,
    group: GroupId,
) -> Result<(), NoMemory>
    requires ready { IsReady old.now state.now }
    requires size { length marks.old.on ≡ length old.now.nodes }
    requires group { group.0 < length old.now.groups }
    ensures marking { OnOk result (IsMarking marks.old marks.new) }
    ensures held { OnOk result (HoldsInMarked old.now state.now.lines marks.new.on group.0) }
    ensures within { OnOk result ((trees : ℕ → Bool)
        → ((k : ℕ) → IsOffer old.now group.0 k → 0 < amount_at state.now.lines group.0 k
        → trees (tree_of old.now group.0 k) ≡ true) → IsWithin marks.old.on trees
        → IsWithin marks.new.on trees) }
{
    for place in 0..old.list_len(group) {
        mark_offer(old, state, marks, Offer { group, place })?;
    }
    Ok(())
}

/// The first node, from one on, whose tree is not marked, or else the number of nodes.
fn unmarked_from(old: &Instance, state: &State, marks: &Marks, from: u32) -> u32
    requires ready { IsReady old.now state.now }
    requires size { length marks.now.on ≡ length old.now.nodes }
    requires from { from ≤ length old.now.nodes }
    requires before { AreMarkedTo old.now marks.now.on from }
    ensures within { result ≤ length old.now.nodes }
    ensures marked { AreMarkedTo old.now marks.now.on result }
{
    for n in from..old.nodes() {
        if !marks.is_on(state.root(NodeId(n))) {
            return n;
        }
    }
    old.nodes()
}

/// Where an offer stands before its group's pointer, marks each tree in which the group holds units, and looks how far the trees
/// are marked then. That is done once for each group.
fn follow(
    old: &Instance,
    state: &State,
    marks: &mut Marks,
    done: &mut [bool],
    ahead: &mut u32,
    offer: Offer,
) -> Result<(), NoMemory>
    requires ready { IsReady old.now state.now }
    requires size { length marks.old.on ≡ length old.now.nodes }
    requires groups { length done.old ≡ length old.now.groups }
    requires offer { IsOffer old.now offer.group.0 offer.place }
    requires done { AreDone old.now state.now.lines marks.old.on done.old }
    requires ahead { ahead.old ≤ length old.now.nodes }
    requires marked { AreMarkedTo old.now marks.old.on ahead.old }
    ensures marking { OnOk result (IsMarking marks.old marks.new) }
    ensures done { OnOk result (AreDone old.now state.now.lines marks.new.on done.new) }
    ensures ahead { OnOk result (ahead.new ≤ length old.now.nodes) }
    ensures marked { OnOk result (AreMarkedTo old.now marks.new.on ahead.new) }
    ensures followed { OnOk result (offer.place < slice_index state.now.pointers offer.group.0
        → HoldsInMarked old.now state.now.lines marks.new.on offer.group.0) }
    ensures within { OnOk result ((trees : ℕ → Bool)
        → IsClosedFor old.now state.now offer.group.0 trees
        → trees (tree_of old.now offer.group.0 offer.place) ≡ true → IsWithin marks.old.on trees
        → IsWithin marks.new.on trees) }
{
    if offer.place >= state.pointer(offer.group) {
        return Ok(());
    }
    let g = offer.group.0 as usize;
    if done[g] {
        return Ok(());
    }
    mark_held(old, state, marks, offer.group)?;
    done[g] = true;
    *ahead = unmarked_from(old, state, marks, *ahead);
    Ok(())
}

/// What is followed: a state of the old instance's map, and which offers there are in each tree.
#[derive(Clone, Copy)]
struct Followed<'i> {
    old: &'i Instance,
    state: &'i State,
    asked: &'i Asked,
}

/// Follows each offer in the tree of a root, until each tree is marked.
fn look_at(
    followed: &Followed<'_>,
    marks: &mut Marks,
    done: &mut [bool],
    ahead: &mut u32,
    root: NodeId,
) -> Result<(), NoMemory>
    requires ready { IsReady followed.now.old.now followed.now.state.now }
    requires asked { AreAllListed followed.now.old.now followed.now.asked.now }
    requires size { length marks.old.on ≡ length followed.now.old.now.nodes }
    requires groups { length done.old ≡ length followed.now.old.now.groups }
    requires root { root.0 < length followed.now.old.now.nodes }
    requires done { AreDone followed.now.old.now followed.now.state.now.lines
        marks.old.on done.old }
    requires ahead { ahead.old ≤ length followed.now.old.now.nodes }
    requires marked { AreMarkedTo followed.now.old.now marks.old.on ahead.old }
    ensures marking { OnOk result (IsMarking marks.old marks.new) }
    ensures done { OnOk result
        (AreDone followed.now.old.now followed.now.state.now.lines marks.new.on done.new) }
    ensures ahead { OnOk result (ahead.new ≤ length followed.now.old.now.nodes) }
    ensures marked { OnOk result (AreMarkedTo followed.now.old.now marks.new.on ahead.new) }
    ensures settled { OnOk result
        (IsSettled followed.now.old.now followed.now.state.now marks.new.on root.0) }
    ensures within { OnOk result ((trees : ℕ → Bool)
        → IsClosedForAll followed.now.old.now followed.now.state.now trees
        → trees root.0 ≡ true → IsWithin marks.old.on trees → IsWithin marks.new.on trees) }
{
    for offer in followed.asked.in_tree(root) {
        if *ahead == followed.old.nodes() {
            return Ok(());
        }
        follow(followed.old, followed.state, marks, done, ahead, *offer)?;
    }
    Ok(())
}

/// The next marked tree that is to be looked at: none where none is left, or where each tree is marked.
fn next_tree(old: &Instance, state: &State, marks: &mut Marks, ahead: &mut u32) -> Option<NodeId>
    requires ready { IsReady old.now state.now }
    requires size { length marks.old.on ≡ length old.now.nodes }
    requires ahead { ahead.old ≤ length old.now.nodes }
    requires marked { AreMarkedTo old.now marks.old.on ahead.old }
    ensures on { marks.new.on ≡ marks.old.on }
    ensures ahead { ahead.new ≤ length old.now.nodes }
    ensures marked { AreMarkedTo old.now marks.new.on ahead.new }
    ensures pending { MatchOption result ((marks.old.pending ≡ [])
        ⊎ AreMarkedTo old.now marks.new.on (length old.now.nodes))
        (λ root. (root.0 < length marks.old.on) × (is_on marks.old.on root.0 ≡ true)
        × (marks.old.pending ≡ marks.new.pending ++ root ∷ [])) }
{
    *ahead = unmarked_from(old, state, marks, *ahead);
    if *ahead == old.nodes() {
        return None;
    }
    marks.next()
}

/// Looks at each marked tree, until none is left to be looked at, or each tree is marked.
fn spread(
    old: &Instance,
    state: &State,
    asked: &Asked,
    marks: &mut Marks,
    done: &mut [bool],
) -> Result<(), NoMemory>
    requires ready { IsReady old.now state.now }
    requires asked { AreAllListed old.now asked.now }
    requires size { length marks.old.on ≡ length old.now.nodes }
    requires groups { length done.old ≡ length old.now.groups }
    requires done { AreDone old.now state.now.lines marks.old.on done.old }
    requires waiting { (n : ℕ) → is_on marks.old.on n ≡ true → IsPending marks.old n }
    ensures size { OnOk result (length marks.new.on ≡ length marks.old.on) }
    ensures kept { OnOk result ((n : ℕ) → is_on marks.old.on n ≡ true → is_on marks.new.on n
        ≡ true) }
    ensures closed { OnOk result (IsClosedForAll old.now state.now (λ n. is_on marks.new.on n)) }
    ensures within { OnOk result ((trees : ℕ → Bool) → IsClosedForAll old.now state.now trees
        → IsWithin marks.old.on trees → IsWithin marks.new.on trees) }
{
    let mut ahead = 0;
    while let Some(root) = next_tree(old, state, marks, &mut ahead) {
        let followed = Followed { old, state, asked };
        look_at(&followed, marks, done, &mut ahead, root)?;
    }
    Ok(())
}

/// Marks each tree in which a capacity differs.
fn mark_capacities(
    old: &Instance,
    new: &Instance,
    state: &State,
    marks: &mut Marks,
) -> Result<(), NoMemory>
    requires ready { IsReady old.now state.now }
    requires shape { IsSameShape old.now new.now }
    requires size { length marks.old.on ≡ length old.now.nodes }
    ensures marking { OnOk result (IsMarking marks.old marks.new) }
    ensures all { OnOk result ((n : ℕ) → n < length old.now.nodes → capacity_of new.now n
        ≢ capacity_of old.now n → is_on marks.new.on (root_of old.now n) ≡ true) }
    ensures within { OnOk result ((trees : ℕ → Bool)
        → IsClosedUnderRepair old.now state.now.lines new.now trees → IsWithin marks.old.on trees
        → IsWithin marks.new.on trees) }
{
    for n in 0..old.nodes() {
        let node = NodeId(n);
        if new.capacity(node) != old.capacity(node) {
            let root = state.root(node);
            marks.mark(root)?;
        }
    }
    Ok(())
}

/// Marks each tree in which a group with a lowered demand holds units.
fn mark_lowered(
    old: &Instance,
    new: &Instance,
    state: &State,
    marks: &mut Marks,
) -> Result<(), NoMemory>
    requires ready { IsReady old.now state.now }
    requires shape { IsSameShape old.now new.now }
    requires size { length marks.old.on ≡ length old.now.nodes }
    ensures marking { OnOk result (IsMarking marks.old marks.new) }
    ensures all { OnOk result ((g root : ℕ) → g < length old.now.groups → demand_of new.now g
        < demand_of old.now g → HoldsIn old.now state.now.lines g root → is_on marks.new.on root
        ≡ true) }
    ensures within { OnOk result ((trees : ℕ → Bool)
        → IsClosedUnderRepair old.now state.now.lines new.now trees → IsWithin marks.old.on trees
        → IsWithin marks.new.on trees) }
{
    for g in 0..old.groups() {
        let group = GroupId(g);
        if new.demand(group) < old.demand(group) {
            mark_held(old, state, marks, group)?;
        }
    }
    Ok(())
}

/// Marks the reached trees, at their roots. The state is that of the old map. It looks at each tree at most
/// once and at the places of each group at most twice, and at no further tree once all are marked.
pub fn reached(
    alloc: Global,
    old: &Instance,
    new: &Instance,
    asked: &Asked,
    state: &State,
) -> Result<Vec<bool>, NoMemory>
    requires of_map { IsStateOf old.now state.now }
    requires asked { AreAllListed old.now asked.now }
    requires shape { IsSameShape old.now new.now }
    ensures { IfOk result (λ marks. AreReached old.now state.now.lines new.now marks.items) }
{
    let mut marks = Marks::none(alloc, old.nodes())?;
    mark_capacities(old, new, state, &mut marks)?;
    mark_lowered(old, new, state, &mut marks)?;
    let mut done = vec![in alloc; false; old.groups() as usize]?;
    spread(old, state, asked, &mut marks, done.as_mut_slice())?;
    Ok(marks.into_marks())
}
