//! The offers of an instance by the tree in which their pool stands.

ghost use Rattle.std.specs.Prelude.{◌≡◌, ℕ, ◌<◌, ◌⊎◌, ◌++◌, [], ◌∷◌, length, IfOk, OnOk};
ghost use Rattle.map_model.specs.Allocation.{IsOffer};
ghost use Rattle.map_model.specs.Progress.{root_of};
ghost use Rattle.evict.specs.Standing.{IsReady};
ghost use Rattle.std.specs.List.Sorted.{IsPermutation};
ghost use Rattle.move_up.specs.Asked.{AreAllListed, AreListed, IsListed, listed_at};

use crate::offers::is_offer;
use evict::State;
use map_model::{GroupId, Instance, Key, NodeId, Offer};
use no_memory::NoMemory;
use std::alloc::Global;
use std::marker::Model;

/// The offers to one pool, as places in a list.
#[derive(Clone, Copy, Debug)]
pub(crate) struct Run {
    pub pool: NodeId,
    pub from: usize,
    pub until: usize,
}

/// Offers whose pools stand in one tree, by pool, and by key in each pool.
#[derive(Debug, Drop)]
pub(crate) struct Offers {
    list: Vec<Offer>,
    // The score of each, and where the offers to each pool stand: so a search need not look them up.
    scores: Vec<u32>,
    runs: Vec<Run>,
}

impl Model for Offers {
    ghost use Rattle.std.specs.Prelude.{List};
    ghost use Rattle.map_model.specs.declared.instance.Offer.{Offer};

    ghost Value = { List Offer };

    ghost view = { λ o. o.list.items };
}

impl Offers {
    fn new(alloc: Global) -> Offers
        ensures { result ≡ [] }
    {
        Offers {
            list: Vec::new(alloc),
            scores: Vec::new(alloc),
            runs: Vec::new(alloc),
        }
    }

    /// Adds an offer.
    fn push(&mut self, offer: Offer) -> Result<(), NoMemory>
        ensures { OnOk result (self.new ≡ self.old ++ offer ∷ []) }
    {
        self.list.push(offer)?;
        Ok(())
    }

    /// Brings the offers into order.
    fn rank(&mut self, alloc: Global, instance: &Instance) -> Result<(), NoMemory>
        ensures { OnOk result (IsPermutation self.old self.new) }
    {
        self.list
            .sort_by_cached_key(|offer| rank_of(instance, *offer))?;
        self.scores = scores_of(alloc, instance, self.list.as_slice())?;
        self.runs = runs_of(alloc, instance, self.list.as_slice())?;
        Ok(())
    }

    /// The offers.
    pub fn as_slice(&self) -> &[Offer]
        ensures { result.now ≡ self.now }
    {
        self.list.as_slice()
    }

    /// The score of each offer.
    pub fn scores(&self) -> &[u32] {
        self.scores.as_slice()
    }

    /// Where the offers to each pool stand.
    pub fn runs(&self) -> &[Run] {
        self.runs.as_slice()
    }
}

fn key_at(instance: &Instance, offer: Offer) -> Option<Key> {
    if is_offer(instance, offer) {
        Some(instance.key(offer))
    } else {
        None
    }
}

/// Where an offer stands among those of its tree: by pool, score and group.
fn rank_of(instance: &Instance, offer: Offer) -> u128 {
    match key_at(instance, offer) {
        Some(key) => {
            (u128::from(key.pool.0) << 64) | (u128::from(key.score) << 32) | u128::from(key.group.0)
        }
        None => 0,
    }
}

/// The score of each of some offers.
fn scores_of(alloc: Global, instance: &Instance, offers: &[Offer]) -> Result<Vec<u32>, NoMemory> {
    let mut scores = Vec::new(alloc);
    for offer in offers {
        let score = match key_at(instance, *offer) {
            Some(key) => key.score,
            None => 0,
        };
        scores.push(score)?;
    }
    Ok(scores)
}

/// The pool of an offer of some place in a list.
fn pool_in(instance: &Instance, offers: &[Offer], at: usize) -> Option<NodeId> {
    let offer = offers.get(at)?;
    let key = key_at(instance, *offer)?;
    Some(key.pool)
}

/// Where the offers to each pool stand in a list by pool.
fn runs_of(alloc: Global, instance: &Instance, offers: &[Offer]) -> Result<Vec<Run>, NoMemory> {
    let mut runs = Vec::new(alloc);
    let mut from = 0;
    for at in 0..offers.len() {
        let until = at + 1;
        let here = pool_in(instance, offers, at);
        if here != pool_in(instance, offers, until) {
            if let Some(pool) = here {
                runs.push(Run { pool, from, until })?;
            }
            from = until;
        }
    }
    Ok(runs)
}

/// The offers of an instance, each listed at the root of the tree in which its pool stands. They rest on
/// lists and trees alone: made once, they serve while demands and capacities change.
#[derive(Debug, Drop)]
pub struct Asked {
    by_root: Vec<Offers>,
}

impl Model for Asked {
    ghost use Rattle.std.specs.Prelude.{List};
    ghost use Rattle.map_model.specs.declared.instance.Offer.{Offer};

    ghost Value = { List (List Offer) };

    ghost view = { λ a. a.by_root.items };
}

fn no_offers(alloc: Global, count: u32) -> Result<Vec<Offers>, NoMemory>
    ensures count { IfOk result (λ lists. length lists.items ≡ count) }
    ensures empty { IfOk result (λ lists. (n : ℕ) → listed_at lists.items n ≡ []) }
{
    let mut lists = Vec::new(alloc);
    for _node in 0..count {
        lists.push(Offers::new(alloc))?;
    }
    Ok(lists)
}

/// Lists an offer at a node.
fn list_offer(lists: &mut [Offers], at: usize, offer: Offer) -> Result<(), NoMemory>
    requires { at < length lists.old }
    ensures { OnOk result (IsListed lists.old lists.new at offer) }
{
    let list = &mut lists[at];
    list.push(offer)?;
    Ok(())
}

fn list_group(
    instance: &Instance,
    state: &State,
    lists: &mut [Offers],
    group: GroupId,
) -> Result<(), NoMemory>
    requires ready { IsReady instance.now state.now }
    requires group { group.0 < length instance.now.groups }
    requires listed { AreListed instance.now (λ g k. g < group.0) lists.old }
    ensures { OnOk result (AreListed instance.now (λ g k. (g < group.0) ⊎ (g ≡ group.0))
        lists.new) }
{
    for place in 0..instance.list_len(group) {
        let offer = Offer { group, place };
        let root = state.root(instance.pool_at(offer));
        list_offer(lists, root.0 as usize, offer)?;
    }
    Ok(())
}

fn list_all(instance: &Instance, state: &State, lists: &mut [Offers]) -> Result<(), NoMemory>
    requires ready { IsReady instance.now state.now }
    requires count { length lists.old ≡ length instance.now.nodes }
    requires empty { (n : ℕ) → listed_at lists.old n ≡ [] }
    ensures { OnOk result (AreAllListed instance.now lists.new) }
{
    for g in 0..instance.groups() {
        list_group(instance, state, lists, GroupId(g))?;
    }
    Ok(())
}

/// Brings the offers that are listed at a node into order.
fn rank_list(
    alloc: Global,
    instance: &Instance,
    lists: &mut [Offers],
    at: usize,
) -> Result<(), NoMemory>
    requires at { at < length lists.old }
    requires listed { AreAllListed instance.now lists.old }
    ensures { OnOk result (AreAllListed instance.now lists.new) }
{
    let list = &mut lists[at];
    list.rank(alloc, instance)?;
    Ok(())
}

/// Brings the offers of each tree into order.
fn rank_all(alloc: Global, instance: &Instance, lists: &mut [Offers]) -> Result<(), NoMemory>
    requires { AreAllListed instance.now lists.old }
    ensures { OnOk result (AreAllListed instance.now lists.new) }
{
    for at in 0..lists.len() {
        rank_list(alloc, instance, lists, at)?;
    }
    Ok(())
}

impl Asked {
    /// The offers of an instance, over whose lists and trees the state stands.
    ///
    /// # Errors
    ///
    /// `NoMemory`.
    pub fn build(alloc: Global, instance: &Instance, state: &State) -> Result<Asked, NoMemory>
        requires { IsReady instance.now state.now }
        ensures { IfOk result (λ asked. AreAllListed instance.now asked) }
    {
        let mut by_root = no_offers(alloc, instance.nodes())?;
        list_all(instance, state, by_root.as_mut_slice())?;
        rank_all(alloc, instance, by_root.as_mut_slice())?;
        Ok(Asked { by_root })
    }

    /// The offers in the tree of a root.
    pub fn in_tree(&self, root: NodeId) -> &[Offer]
        requires { root.0 < length self.now }
        ensures { result.now ≡ listed_at self.now root.0 }
    {
        self.by_root[root.0 as usize].as_slice()
    }

    /// The offers in the tree of a root, with their scores and runs.
    pub(crate) fn ranked(&self, root: NodeId) -> Option<&Offers> {
        self.by_root.get(root.0 as usize)
    }
}
