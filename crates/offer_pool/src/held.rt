//! The units that offers hold.
ghost use Rattle.std.specs.Prelude.{◌≡◌, ◌+◌, ◌<◌, ◌≤◌, ◌^◌, length, IfOk, OnOk, OnErr, MatchOption};
ghost use Rattle.map_model.specs.Market.{IsMarket, choice_at};
ghost use Rattle.map_model.specs.Allocation.{AreLines, IsOffer, amount_at, load};
ghost use Rattle.map_model.specs.Holding.{IsWorst, IsWorstKey, Puts, Takes};
ghost use Rattle.offer_pool.specs.Holdings.{Holdings};

use crate::filing::{empty_queues, place_at};
use crate::lists::Lists;
use crate::queue::Queue;
use crate::table::{lines_of, put_lines, put_units, take_units};
use map_model::{Instance, Key, MapLine, MapLines, NodeId, Offer, PLACES, Units};
use no_memory::NoMemory;
use std::alloc::Global;
use std::marker::Model;

/// The units that each offer holds, with the worst offer under each node at hand. It rests on the lists and the trees of the instance that it was built for, and stays right when demands and capacities change.
#[derive(Debug, Drop)]
pub struct Held {
    lists: Lists,
    amounts: Vec<u32>,
    queues: Vec<Queue>,
}

impl Model for Held {
    ghost use Rattle.offer_pool.specs.Holdings.{Holdings};
    ghost use Rattle.offer_pool.specs.Table.{lines_in};
    ghost use Rattle.offer_pool.specs.Filed.{IsHeld};

    ghost Value = { Holdings };

    ghost view = { λ h. record { market = h.lists; lines = lines_in h.amounts.items } };

    ghost invariant = { λ h. IsHeld h.lists h.amounts.items h.queues.items };
}

impl Held {
    /// Holds the lines of a map of this instance.
    ///
    /// # Errors
    ///
    /// `NoMemory`.
    pub fn build(alloc: Global, instance: &Instance, map: &MapLines) -> Result<Held, NoMemory>
        requires { AreLines instance.now map.now.lines.items }
        ensures held { IfOk result (λ held. held
            ≡ record { market = instance.now; lines = map.now.lines.items }) }
        ensures market { IfOk result (λ held. IsMarket held.market) }
    {
        let lists = Lists::build(alloc, instance)?;
        let mut amounts = vec![in alloc; 0u32; instance.groups() as usize * PLACES]?;
        let mut queues = empty_queues(alloc, instance.nodes())?;
        put_lines(
            &lists,
            amounts.as_mut_slice(),
            queues.as_mut_slice(),
            map.lines.as_slice(),
        )?;
        Ok(Held {
            lists,
            amounts,
            queues,
        })
    }

    /// Adds units to an offer.
    ///
    /// # Errors
    ///
    /// `NoMemory`. Nothing has changed then.
    pub fn put(&mut self, offer: Offer, units: Units) -> Result<(), NoMemory>
        requires offer { IsOffer self.old.market offer.group.0 offer.place }
        requires room { amount_at self.old.lines offer.group.0 offer.place + units < 2 ^ 32 }
        ensures market { self.new.market ≡ self.old.market }
        ensures puts { OnOk result (Puts self.old.lines self.new.lines offer.group.0 offer.place
            units) }
        ensures form { AreLines self.new.market self.new.lines }
        ensures err { OnErr result (self.new ≡ self.old) }
    {
        put_units(
            &self.lists,
            self.amounts.as_mut_slice(),
            self.queues.as_mut_slice(),
            offer,
            units as u32,
        )
    }

    /// Takes units that an offer holds. It takes no memory.
    pub fn take(&mut self, offer: Offer, units: Units)
        requires offer { IsOffer self.old.market offer.group.0 offer.place }
        requires held { units ≤ amount_at self.old.lines offer.group.0 offer.place }
        ensures market { self.new.market ≡ self.old.market }
        ensures takes { Takes self.old.lines self.new.lines offer.group.0 offer.place units }
        ensures form { AreLines self.new.market self.new.lines }
    {
        take_units(
            &self.lists,
            self.amounts.as_mut_slice(),
            self.queues.as_mut_slice(),
            offer,
            units,
        );
    }

    /// The pool of an offer.
    pub fn pool_at(&self, offer: Offer) -> NodeId
        requires { IsOffer self.now.market offer.group.0 offer.place }
        ensures { result ≡ (choice_at self.now.market offer.group.0 offer.place).pool }
    {
        self.lists.pool_at(offer)
    }

    /// The units that an offer holds.
    pub fn units(&self, offer: Offer) -> Units
        requires { IsOffer self.now.market offer.group.0 offer.place }
        ensures units { result ≡ amount_at self.now.lines offer.group.0 offer.place }
        ensures form { AreLines self.now.market self.now.lines }
    {
        Units::from(self.amounts[place_at(offer.group, offer.place)])
    }

    /// The held offer of the greatest key under a node, with all its units; None exactly where nothing is held there. It costs no scan and takes no memory.
    pub fn worst_under(&self, node: NodeId) -> Option<(Offer, Units)>
        requires { node.0 < length self.now.market.nodes }
        ensures worst { MatchOption result (load self.now.market self.now.lines node.0
            ≡ 0) (λ w. IsWorst self.now.market self.now.lines node.0 w.0.group.0 w.0.place w.1) }
        ensures form { AreLines self.now.market self.now.lines }
    {
        match self.queues[node.0 as usize].worst() {
            Some(seat) => {
                let offer = Offer {
                    group: seat.group,
                    place: seat.place,
                };
                Some((offer, self.units(offer)))
            }
            None => None,
        }
    }

    /// The key of the worst held offer under a node; None exactly where nothing is held there. It looks at the queue of the node alone.
    pub fn worst_key(&self, node: NodeId) -> Option<Key>
        requires { node.0 < length self.now.market.nodes }
        ensures worst { MatchOption result (load self.now.market self.now.lines node.0
            ≡ 0) (λ key. IsWorstKey self.now.market self.now.lines node.0 key) }
        ensures form { AreLines self.now.market self.now.lines }
    {
        match self.queues[node.0 as usize].worst() {
            Some(seat) => Some(seat.key()),
            None => None,
        }
    }

    /// The lines of what is held, in a map's form.
    ///
    /// # Errors
    ///
    /// `NoMemory`.
    pub fn lines(&self, alloc: Global) -> Result<Vec<MapLine>, NoMemory>
        ensures lines { IfOk result (λ lines. lines.items ≡ self.now.lines) }
        ensures form { AreLines self.now.market self.now.lines }
    {
        lines_of(alloc, self.amounts.as_slice())
    }
}
