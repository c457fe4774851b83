//! The best offer under each node, as it was found last, so that a turn looks again only where units came or went.
//!
//! Of a node that was not asked for yet nothing is known, and then nothing is known of those above it either. What is found is
//! asked again before a step, so nothing is said of it here.

ghost use Rattle.std.specs.Prelude.{◌≡◌, IsTrue};
ghost use Rattle.map_model.specs.Market.{IsSameShape};
ghost use Rattle.evict.specs.Standing.{IsOpen};

use crate::asked::Asked;
use crate::looking::{Found, Look, Scored, best_at, is_refused_by, look_at};
use crate::node_set::NodeSet;
use crate::offers::{above, is_offer};
use crate::opening::full_nodes;
use evict::State;
use map_model::{Instance, LEVELS, NodeId, Offer};
use no_memory::NoMemory;
use std::alloc::Global;

/// Where a node stands among the others.
#[derive(Clone, Copy, Debug)]
struct Spot {
    /// Its child of the lowest number.
    first: Option<NodeId>,
    /// The next child of the node above it.
    next: Option<NodeId>,
    /// Which child of the node above it is it.
    number: usize,
    /// How many children it has.
    children: usize,
    /// Where what is known of its children begins: a tree of matches in which the best offer of each two goes on, the winner
    /// at 1 and the children from `children` on.
    from: usize,
}

/// A node without others.
const ALONE: Spot = Spot {
    first: None,
    next: None,
    number: 0,
    children: 0,
    from: 0,
};

/// The most steps from a leaf of a tree of matches to its winner: twice as many places as there are nodes have 14 bits.
const MATCHES: u32 = 14;

/// Where units may move up.
#[derive(Debug, Drop)]
pub struct Search<'a> {
    asked: &'a Asked,
    /// The nodes under which offers are looked for: they were full.
    pub(crate) open: NodeSet,
    known: NodeSet,
    spots: Vec<Spot>,
    /// Of each pool the best offer that it does not refuse.
    found: Vec<Option<Scored>>,
    matches: Vec<Option<Scored>>,
    looks: u64,
}

impl<'a> Search<'a> {
    /// A search under the nodes that are full as a state stands.
    ///
    /// # Errors
    ///
    /// `NoMemory`.
    pub fn under_full(
        alloc: Global,
        instance: &Instance,
        state: &State,
        asked: &'a Asked,
    ) -> Result<Search<'a>, NoMemory>
        requires whole { IsTrue state.now.is_whole }
        requires shape { IsSameShape state.now.market instance.now }
    {
        let nodes = instance.nodes() as usize;
        let mut search = Search {
            asked,
            open: full_nodes(instance, state),
            known: NodeSet::new(),
            spots: vec![in alloc; ALONE; nodes]?,
            found: vec![in alloc; None; nodes]?,
            matches: vec![in alloc; None; nodes.saturating_mul(2)]?,
            looks: 0,
        };
        search.link(instance);
        search.part();
        Ok(search)
    }

    /// How many offers were looked at.
    pub(crate) fn looks(&self) -> u64 {
        self.looks
    }

    /// Lists the children of each node.
    fn link(&mut self, instance: &Instance) {
        for n in (0..instance.nodes()).rev() {
            let node = NodeId(n);
            if let Some(parent) = above(instance, node) {
                let family = self.spot(parent);
                if let Some(spot) = self.spots.get_mut(n as usize) {
                    spot.next = family.first;
                    spot.number = family.children;
                }
                if let Some(spot) = self.spots.get_mut(parent.0 as usize) {
                    spot.first = Some(node);
                    spot.children = family.children.saturating_add(1);
                }
            }
        }
    }

    /// Gives each node its part of the matches.
    fn part(&mut self) {
        let mut from = 0usize;
        for spot in &mut self.spots {
            spot.from = from;
            from = from.saturating_add(spot.children.saturating_mul(2));
        }
    }

    /// Where a node stands.
    fn spot(&self, node: NodeId) -> Spot {
        match self.spots.get(node.0 as usize) {
            Some(spot) => *spot,
            None => ALONE,
        }
    }

    /// What stands at a place of a tree of matches.
    fn match_at(&self, from: usize, place: usize) -> Option<Scored> {
        *self.matches.get(from.saturating_add(place))?
    }

    /// Puts an offer, or none, at a place of a tree of matches.
    fn set_match(&mut self, from: usize, place: usize, winner: Option<Scored>) {
        if let Some(at) = self.matches.get_mut(from.saturating_add(place)) {
            *at = winner;
        }
    }

    /// The best offer under a node that no node refuses, it and those below it.
    fn best_of(&self, instance: &Instance, state: &State, node: NodeId) -> Option<Scored>
        requires { IsOpen instance.now state.now }
    {
        let spot = self.spot(node);
        let best = if spot.children == 0 {
            *self.found.get(node.0 as usize)?
        } else {
            self.match_at(spot.from, 1)
        };
        if is_refused_by(instance, state, node, best?) {
            return None;
        }
        best
    }

    /// Tells the node above a node what the best offer under that one is.
    fn tell(&mut self, instance: &Instance, state: &State, node: NodeId, parent: NodeId)
        requires { IsOpen instance.now state.now }
    {
        let best = self.best_of(instance, state, node);
        let family = self.spot(parent);
        let mut place = family.children.saturating_add(self.spot(node).number);
        self.set_match(family.from, place, best);
        for _match in 0..MATCHES {
            if place < 2 {
                return;
            }
            let left = self.match_at(family.from, place & !1);
            let right = self.match_at(family.from, place | 1);
            let winner = match left {
                Some(found) if found.is_better(right) => left,
                _ => right,
            };
            place /= 2;
            self.set_match(family.from, place, winner);
        }
    }

    /// Looks at the offers to a pool.
    fn look(&mut self, instance: &Instance, state: &State, pool: NodeId)
        requires { IsOpen instance.now state.now }
    {
        let Found { best, looks } = best_at(instance, state, self.asked, pool);
        if let Some(found) = self.found.get_mut(pool.0 as usize) {
            *found = best;
        }
        self.looks = self.looks.saturating_add(looks);
    }

    /// The lowest node on the way that leads from a node to its first child.
    fn lowest(&self, node: NodeId) -> NodeId {
        let mut at = node;
        for _level in 0..LEVELS {
            if let Some(child) = self.spot(at).first {
                at = child;
            }
        }
        at
    }

    /// Looks at all nodes under a node, those below ahead of those above.
    fn learn(&mut self, instance: &Instance, state: &State, under: NodeId)
        requires { IsOpen instance.now state.now }
    {
        let mut at = self.lowest(under);
        for _node in 0..instance.nodes() {
            let spot = self.spot(at);
            if spot.children == 0 {
                self.look(instance, state, at);
            }
            self.known.insert(at);
            if at == under {
                return;
            }
            let Some(parent) = above(instance, at) else {
                return;
            };
            self.tell(instance, state, at, parent);
            at = match spot.next {
                Some(next) => self.lowest(next),
                None => parent,
            };
        }
    }

    /// Looks again at a pool at which units came or went, and tells all nodes above it.
    pub(crate) fn look_again(&mut self, instance: &Instance, state: &State, pool: NodeId)
        requires { IsOpen instance.now state.now }
    {
        if !self.known.contains(pool) {
            return;
        }
        self.look(instance, state, pool);
        let mut at = pool;
        for _level in 0..LEVELS {
            match above(instance, at) {
                Some(parent) if self.known.contains(parent) => {
                    self.tell(instance, state, at, parent);
                    at = parent;
                }
                _ => return,
            }
        }
    }

    /// The best loose offer under a node.
    pub(crate) fn best_under(
        &mut self,
        instance: &Instance,
        state: &State,
        under: NodeId,
    ) -> Option<Offer>
        requires { IsOpen instance.now state.now }
    {
        if !self.known.contains(under) {
            self.learn(instance, state, under);
        }
        // a group's pointer that went back has left offers behind that are loose no longer: each pool shows one at most
        for _vain in 0..=instance.nodes() {
            let offer = self.best_of(instance, state, under)?.offer;
            match look_at(instance, state, offer) {
                Look::Loose => return Some(offer),
                Look::Refused(_) => return None,
                Look::Other => (),
            }
            if !is_offer(instance, offer) {
                return None;
            }
            self.look_again(instance, state, instance.pool_at(offer));
        }
        None
    }
}
