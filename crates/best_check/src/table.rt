//! Tables of offers by node: the best one that waits there, and who is next in line where a unit leaves.

ghost use Rattle.std.specs.Prelude.{◌≡◌, ◌⊎◌, ℕ, ◌+◌, ◌<◌, ◌≤◌, true, Some, List, length, nat_lt, IfOk, IfSome, slice_index};
ghost use Rattle.std.specs.Bool.{OnFalse, OnTrue};
ghost use Rattle.map_model.specs.declared.lines.MapLine.{MapLine};
ghost use Rattle.map_model.specs.Market.{key_of, limit_of};
ghost use Rattle.map_model.specs.Allocation.{IsOffer, amount_at, key_le};
ghost use Rattle.evict.specs.Standing.{IsReady};
ghost use Rattle.best_check.specs.declared.ranked.Ranked.{Ranked};
ghost use Rattle.best_check.specs.Fullness.{IsFullTable};
ghost use Rattle.best_check.specs.Tables.{AreNextAt, AreRanked, ArePastWanted, IsNextAt, IsRanked, IsTable, IsWhole};

use crate::nearest::nearest_full;
use crate::parents::entry_above;
use crate::ranked::{Ranked, better};
use evict::State;
use map_model::{GroupId, Instance, NodeId, Offer, Units};
use no_memory::NoMemory;
use std::alloc::Global;

/// Whether an offer holds less than its limit.
fn has_room(instance: &Instance, state: &State, offer: Offer) -> bool
    requires ready { IsReady instance.now state.now }
    requires offer { IsOffer instance.now offer.group.0 offer.place }
    ensures { result ≡ nat_lt (amount_at state.now.lines offer.group.0 offer.place)
        (limit_of instance.now offer.group.0 offer.place) }
{
    state.units(offer) < Units::from(instance.limit(offer.group, offer.place))
}

/// Whether an offer is to be noted where another one may stand: it may have a unit more, and the other is not ranked above it.
fn goes_before(instance: &Instance, state: &State, ranked: Ranked, other: Option<Ranked>) -> bool
    requires ready { IsReady instance.now state.now }
    requires offer { IsOffer instance.now ranked.offer.group.0 ranked.offer.place }
    ensures room { OnTrue result (amount_at state.now.lines ranked.offer.group.0 ranked.offer.place
        < limit_of instance.now ranked.offer.group.0 ranked.offer.place) }
    ensures before { OnTrue result (IfSome other (λ o. key_le ranked.key o.key ≡ true)) }
    ensures otherwise { OnFalse result
        ((limit_of instance.now ranked.offer.group.0 ranked.offer.place
        ≤ amount_at state.now.lines ranked.offer.group.0 ranked.offer.place)
        ⊎ ((o : Ranked) × (other ≡ Some o) × (key_le o.key ranked.key ≡ true))) }
{
    match other {
        Some(other) if other.key < ranked.key => false,
        _ => has_room(instance, state, ranked.offer),
    }
}

/// Notes an offer before its group's pointer at the node at which it waits, if it does and none there is better.
fn note_offer(
    instance: &Instance,
    state: &State,
    nearest: &[Option<NodeId>],
    table: &mut [Option<Ranked>],
    offer: Offer,
)
    requires ready { IsReady instance.now state.now }
    requires past { ArePastWanted instance.now state.now }
    requires nearest { IsFullTable instance.now state.now.lines nearest.now }
    requires offer { IsOffer instance.now offer.group.0 offer.place }
    requires before { offer.place < slice_index state.now.pointers offer.group.0 }
    requires table { IsTable instance.now state.now.lines offer.group.0 offer.place table.old }
    ensures { IsTable instance.now state.now.lines offer.group.0 (offer.place + 1) table.new }
{
    let key = instance.key(offer);
    let ranked = Ranked { offer, key };
    if let Some(node) = nearest[key.pool.0 as usize] {
        let at = node.0 as usize;
        if goes_before(instance, state, ranked, table[at]) {
            table[at] = Some(ranked);
        }
    }
}

/// Notes each offer before a group's pointer.
fn note_group(
    instance: &Instance,
    state: &State,
    nearest: &[Option<NodeId>],
    table: &mut [Option<Ranked>],
    group: GroupId,
)
    requires ready { IsReady instance.now state.now }
    requires past { ArePastWanted instance.now state.now }
    requires nearest { IsFullTable instance.now state.now.lines nearest.now }
    requires group { group.0 < length instance.now.groups }
    requires table { IsTable instance.now state.now.lines group.0 0 table.old }
    ensures { IsTable instance.now state.now.lines (group.0 + 1) 0 table.new }
{
    for place in 0..state.pointer(group) {
        note_offer(instance, state, nearest, table, Offer { group, place });
    }
}

/// The best of the offers that wait at each node.
pub fn best_waiting(
    alloc: Global,
    instance: &Instance,
    state: &State,
) -> Result<Vec<Option<Ranked>>, NoMemory>
    requires ready { IsReady instance.now state.now }
    requires past { ArePastWanted instance.now state.now }
    ensures { IfOk result (λ table. IsTable instance.now state.now.lines
        (length instance.now.groups) 0 table.items) }
{
    let nearest = nearest_full(alloc, instance, state)?;
    let mut table = vec![in alloc; None; instance.nodes() as usize]?;
    for g in 0..instance.groups() {
        note_group(
            instance,
            state,
            nearest.as_slice(),
            table.as_mut_slice(),
            GroupId(g),
        );
    }
    Ok(table)
}

/// Who is next in line where a unit leaves a node: of those that wait at a node of its path, the best ranked one.
fn next_at(
    instance: &Instance,
    table: &[Option<Ranked>],
    nexts: &[Option<Ranked>],
    node: NodeId,
) -> Option<Ranked>
    requires size { length table.now ≡ length instance.now.nodes }
    requires offers { AreRanked instance.now table.now }
    requires nexts { AreRanked instance.now nexts.now }
    requires node { node.0 < length instance.now.nodes }
    requires above { length nexts.now ≡ node.0 }
    ensures offer { IfSome result (λ o. IsRanked instance.now o) }
    ensures next { (lines : List MapLine) → IsWhole instance.now lines table.now
        → AreNextAt instance.now lines nexts.now → IsNextAt instance.now lines node.0 result }
{
    // Tells the prover that this is an instance.
    let _count = instance.nodes();
    let above = entry_above(instance, nexts, node);
    match table[node.0 as usize] {
        Some(ranked) => Some(better(above, ranked)),
        None => above,
    }
}

/// Who is next in line where a unit leaves a node, for each node.
pub fn nexts_of(
    alloc: Global,
    instance: &Instance,
    table: &[Option<Ranked>],
) -> Result<Vec<Option<Ranked>>, NoMemory>
    requires size { length table.now ≡ length instance.now.nodes }
    requires offers { AreRanked instance.now table.now }
    ensures size { IfOk result (λ nexts. length nexts.items ≡ length instance.now.nodes) }
    ensures nexts { IfOk result (λ nexts. (lines : List MapLine)
        → IsWhole instance.now lines table.now → AreNextAt instance.now lines nexts.items) }
{
    let mut nexts = Vec::new(alloc);
    for n in 0..instance.nodes() {
        let next = next_at(instance, table, nexts.as_slice(), NodeId(n));
        nexts.push(next)?;
    }
    Ok(nexts)
}
