//! A state of deferred acceptance, and its calls.

ghost use Rattle.std.specs.Prelude.{◌≡◌, ℕ, ◌+◌, ◌-◌, ◌<◌, ◌≤◌, ◌^◌, ◌==◌, IfOk, OnOk, IsTrue, MatchOption, length, slice_index, slice_set, if◌then◌else◌};
ghost use Rattle.map_model.specs.Market.{demand_of};
ghost use Rattle.map_model.specs.Progress.{root_of};
ghost use Rattle.map_model.specs.Allocation.{AreLines, IsGood, IsOffer, amount_at, load, placed, refuser_of};
ghost use Rattle.map_model.specs.Holding.{IsWorst};
ghost use Rattle.evict.specs.Standing.{CanAsk, CanGrant, CanPut, CanRelease, CanShift, HasNoRival, IsFresh, IsGranted, IsOfMap, IsPut, IsReleased, IsRival, IsShifted, Standing};

use crate::freed::Freed;
use crate::loading::{load_lines, wanted_counts};
use crate::refuser::refuser;
use crate::relief::place;
use crate::rival::{Rival, rival_of};
use crate::settle::settle;
use capacity_tree::Tree;
use map_model::{By, GroupId, Instance, MapLine, MapLines, NodeId, Offer, Steps, Units};
use no_memory::NoMemory;
use offer_pool::Held;
use std::alloc::Global;
use std::marker::Model;

/// A state of deferred acceptance: the units that offers hold, and for each group the place that it asks at next and its
/// free units. A put, a grant or a shift that met want of memory on its way leaves a state that is not whole: no call that
/// changes its loads or tells them takes it, and all that is left to do is drop it.
#[derive(Debug, Drop)]
pub struct State {
    tree: Tree,
    held: Held,
    pointers: Vec<u8>,
    free: Vec<Units>,
    // What each group holds and has free.
    totals: Vec<Units>,
    whole: bool,
}

impl Model for State {
    ghost use Rattle.std.specs.Prelude.{IsTrue};
    ghost use Rattle.evict.specs.Putting.{IsSound};
    ghost use Rattle.evict.specs.Standing.{Standing};

    ghost Value = { Standing };

    ghost view = { λ s. record {
      market = s.held.market;
      lines = s.held.lines;
      pointers =
          s.pointers.items;
      free = s.free.items;
      is_whole = s.whole;
    } };

    ghost invariant = { λ s. IsTrue s.whole → IsSound s.held s.tree s.free.items s.totals.items };
}

fn demands(alloc: Global, instance: &Instance) -> Result<Vec<Units>, NoMemory>
    ensures count { IfOk result (λ demands. length demands.items ≡ length instance.now.groups) }
    ensures each { IfOk result (λ demands. (g : ℕ) → g < length instance.now.groups
        → slice_index demands.items g ≡ demand_of instance.now g) }
{
    let mut demands = Vec::new(alloc);
    for g in 0..instance.groups() {
        demands.push(u64::from(instance.demand(GroupId(g))))?;
    }
    Ok(demands)
}

impl State {
    /// Nothing is held, each pointer is at the first place, and all demand is free.
    ///
    /// # Errors
    ///
    /// `NoMemory`.
    pub fn fresh(alloc: Global, instance: &Instance) -> Result<State, NoMemory>
        ensures fresh { IfOk result (λ state. IsFresh instance.now state) }
        ensures market { IfOk result (λ state. state.market ≡ instance.now) }
    {
        let nothing = MapLines {
            lines: Vec::new(alloc),
            names: Vec::new(alloc),
        };
        Ok(State {
            held: Held::build(alloc, instance, &nothing)?,
            tree: Tree::build(alloc, instance)?,
            pointers: vec![in alloc; 0; instance.groups() as usize]?,
            free: demands(alloc, instance)?,
            totals: demands(alloc, instance)?,
            whole: true,
        })
    }

    /// What a good map holds. Each pointer stands behind the wanted places of its group.
    ///
    /// # Errors
    ///
    /// `NoMemory`.
    pub fn of_map(alloc: Global, instance: &Instance, map: &MapLines) -> Result<State, NoMemory>
        requires { IsGood instance.now map.now.lines.items map.now.names.items }
        ensures { IfOk result (λ state. IsOfMap instance.now map.now.lines.items state) }
    {
        // tells the prover what the type keeps
        let _groups = instance.groups();
        let held = Held::build(alloc, instance, map)?;
        let pointers = wanted_counts(alloc, instance, &held)?;
        let totals = demands(alloc, instance)?;
        let mut free = demands(alloc, instance)?;
        let mut tree = Tree::build(alloc, instance)?;
        load_lines(
            instance,
            &mut tree,
            free.as_mut_slice(),
            map.lines.as_slice(),
        );
        Ok(State {
            held,
            tree,
            pointers,
            free,
            totals,
            whole: true,
        })
    }

    /// The root of a node's tree.
    pub fn root(&self, node: NodeId) -> NodeId
        requires whole { IsTrue self.now.is_whole }
        requires node { node.0 < length self.now.market.nodes }
        ensures { result.0 ≡ root_of self.now.market node.0 }
    {
        self.tree.root(node)
    }

    /// The place of a group's list at which it offers next; at the list's end none is left.
    pub fn pointer(&self, group: GroupId) -> u8
        requires { group.0 < length self.now.pointers }
        ensures { result ≡ slice_index self.now.pointers group.0 }
    {
        self.pointers[group.0 as usize]
    }

    /// The units of a group that are not held.
    pub fn free(&self, group: GroupId) -> Units
        requires { group.0 < length self.now.free }
        ensures { result ≡ slice_index self.now.free group.0 }
    {
        self.free[group.0 as usize]
    }

    /// The units that a group holds over its whole list.
    pub fn placed(&self, group: GroupId) -> Units
        requires whole { IsTrue self.now.is_whole }
        requires group { group.0 < length self.now.free }
        ensures { result ≡ placed self.now.lines group.0 }
    {
        let g = group.0 as usize;
        self.totals[g] - self.free[g]
    }

    /// The units that an offer holds.
    pub fn units(&self, offer: Offer) -> Units
        requires { IsOffer self.now.market offer.group.0 offer.place }
        ensures { result ≡ amount_at self.now.lines offer.group.0 offer.place }
    {
        self.held.units(offer)
    }

    /// The units that are held under a node.
    pub fn load(&self, node: NodeId) -> Units
        requires whole { IsTrue self.now.is_whole }
        requires node { node.0 < length self.now.market.nodes }
        ensures { result ≡ load self.now.market self.now.lines node.0 }
    {
        self.tree.load(node)
    }

    /// The worst offer that is held under a node, with all its units; none exactly where nothing is
    /// held there.
    pub fn worst_under(&self, node: NodeId) -> Option<(Offer, Units)>
        requires { node.0 < length self.now.market.nodes }
        ensures { MatchOption result (load self.now.market self.now.lines node.0
            ≡ 0) (λ worst. IsWorst self.now.market self.now.lines node.0 worst.0.group.0
            worst.0.place worst.1) }
    {
        self.held.worst_under(node)
    }

    /// What is held, in the form of a map's lines.
    ///
    /// # Errors
    ///
    /// `NoMemory`.
    pub fn lines(&self, alloc: Global) -> Result<Vec<MapLine>, NoMemory>
        ensures lines { IfOk result (λ lines. lines.items ≡ self.now.lines) }
        ensures form { AreLines self.now.market self.now.lines }
    {
        self.held.lines(alloc)
    }

    /// What refuses an offer: its limit, or else the refusing node nearest to its pool; none exactly
    /// where neither its limit nor a node refuses it.
    pub fn refuser(&self, instance: &Instance, offer: Offer) -> Option<By>
        requires { CanAsk instance.now self.now offer.group.0 offer.place }
        ensures { result ≡ refuser_of instance.now self.now.lines offer.group.0 offer.place }
    {
        refuser(instance, &self.held, &self.tree, offer)
    }

    /// Whom an offer would displace as things stand: the worst offer that is held under the full node of
    /// its path nearest to its pool. None exactly where no node of the path is full, or nothing is held
    /// under that one.
    pub fn rival(&self, instance: &Instance, offer: Offer) -> Option<Rival>
        requires { CanAsk instance.now self.now offer.group.0 offer.place }
        ensures { MatchOption result (HasNoRival instance.now self.now.lines offer.group.0
            offer.place) (λ r. IsRival instance.now self.now.lines offer.group.0 offer.place r) }
    {
        rival_of(instance, &self.held, &self.tree, offer)
    }

    /// Units that fit under the offer's limit are offered at a group's pointer: one proposal. Each node of the path then gives up units
    /// of its worst offers until it is within its capacity; `freed` tells which.
    ///
    /// # Errors
    ///
    /// `NoMemory`; the state is not whole then.
    pub fn put<L>(
        &mut self,
        instance: &Instance,
        offer: Offer,
        units: Units,
        freed: &mut Freed,
        steps: &mut Steps<L>,
    ) -> Result<(), NoMemory>
        requires { CanPut instance.now self.old offer.group.0 offer.place units }
        ensures put { OnOk result (IsPut instance.now self.old self.new offer.group.0 offer.place
            units freed.new) }
        ensures steps { OnOk result (steps.new
            ≡ (if steps.old == 2 ^ 64 - 1 then steps.old else steps.old + 1)) }
        ensures market { OnOk result (self.new.market ≡ self.old.market) }
        ensures later { steps.old ≤ steps.new }
    {
        steps.tick();
        freed.clear();
        self.whole = false;
        place(
            instance,
            &mut self.held,
            &mut self.tree,
            offer,
            units,
            freed,
        )?;
        settle(
            self.free.as_mut_slice(),
            self.pointers.as_mut_slice(),
            offer,
            units,
            freed.evictions(),
        );
        self.whole = true;
        Ok(())
    }

    /// Makes held units of an offer free.
    pub fn release(&mut self, offer: Offer, units: Units)
        requires { CanRelease self.old offer.group.0 offer.place units }
        ensures { IsReleased self.old self.new offer.group.0 offer.place units }
    {
        let pool = self.held.pool_at(offer);
        self.held.take(offer, units);
        self.tree.take(pool, units);
        self.free[offer.group.0 as usize] += units;
    }

    /// Holds free units of a group at a place of its list, whatever the capacities.
    ///
    /// # Errors
    ///
    /// `NoMemory`; the state is not whole then.
    pub fn grant(&mut self, offer: Offer, units: Units) -> Result<(), NoMemory>
        requires { CanGrant self.old offer.group.0 offer.place units }
        ensures { OnOk result (IsGranted self.old self.new offer.group.0 offer.place units) }
    {
        let pool = self.held.pool_at(offer);
        self.whole = false;
        self.held.put(offer, units)?;
        self.tree.add(pool, units);
        self.free[offer.group.0 as usize] -= units;
        self.whole = true;
        Ok(())
    }

    /// Moves held units of an offer to another place of its group's list, whatever the capacities.
    ///
    /// # Errors
    ///
    /// `NoMemory`; the state is not whole then.
    pub fn shift(&mut self, from: Offer, place: u8, units: Units) -> Result<(), NoMemory>
        requires { CanShift self.old from.group.0 from.place place units }
        ensures { OnOk result (IsShifted self.old self.new from.group.0 from.place place units) }
    {
        let to = Offer {
            group: from.group,
            place,
        };
        let from_pool = self.held.pool_at(from);
        let to_pool = self.held.pool_at(to);
        self.whole = false;
        self.held.take(from, units);
        self.tree.take(from_pool, units);
        self.held.put(to, units)?;
        self.tree.add(to_pool, units);
        self.whole = true;
        Ok(())
    }

    /// Makes what a group holds and has free add up to a number.
    pub fn set_total(&mut self, group: GroupId, total: u32)
        requires whole { IsTrue self.old.is_whole }
        requires group { group.0 < length self.old.free }
        requires held { placed self.old.lines group.0 ≤ total }
        ensures { self.new ≡ record self.old
            { free = slice_set self.old.free group.0 (total - placed self.old.lines group.0) } }
    {
        let g = group.0 as usize;
        self.free[g] = u64::from(total) - (self.totals[g] - self.free[g]);
        self.totals[g] = u64::from(total);
    }

    /// Moves a group's pointer. Nothing may be held past it.
    pub fn set_pointer(&mut self, group: GroupId, place: u8)
        requires group { group.0 < length self.old.pointers }
        requires nothing_past { (j : ℕ) → IsOffer self.old.market group.0 j → place < j
            → amount_at self.old.lines group.0 j ≡ 0 }
        ensures { self.new ≡ record self.old
            { pointers = slice_set self.old.pointers group.0 place } }
    {
        self.pointers[group.0 as usize] = place;
    }
}
