//! Who takes the items.
ghost use Rattle.std.specs.Prelude.{◌≡◌, ◌+◌, ◌<◌, ◌≤◌, ◌++◌, ◌∷◌, [], IfNone, IfSome};
ghost use mathlib.Core.List.{IsPrefix};
ghost use Rattle.feed_queue.specs.Items.{AreTaken, Fits, sent_by};

use crate::feeder::Feeder;
use crate::ring::Ring;
use crate::rule::{Compares, ItemQueue, Leaves, Numbers, Seat, Takes};
use demand_feed::Item;
use std::marker::Model;
use std::sync::{Arc, Wait};

/// Who takes. Contracts see the queue, how many feeders there are, and what was taken.
#[derive(Drop)]
pub struct Taker<N: Numbers> {
    pub(crate) queue: Arc<Ring<N>>,
    pub(crate) pass: Seat,
    pub(crate) feeders: u8,
    /// How often it has waited since an item was last taken, as far as a number goes.
    pub(crate) tries: u32,
}

impl<N: Numbers> Model for Taker<N> {
    ghost use Rattle.std.specs.Prelude.{◌≡◌, true};
    ghost use Rattle.std.specs.Arc.{arc_value};
    ghost use Rattle.crossbeam_queue.specs.Passes.{view as hand_of, IsPassOf};
    ghost use Rattle.feed_queue.specs.Items.{AreTaken};
    ghost use Rattle.feed_queue.specs.Ends.{TakerState};

    ghost Value = { TakerState };

    ghost view = { λ t. record {
      queue = (arc_value t.queue).items.table.shared.table_id;
      feeders = t.feeders;
      taken = (hand_of t.pass).got;
    } };

    ghost invariant = { λ t. IsPassOf (arc_value t.queue).items t.pass
        × ((hand_of t.pass).takes ≡ true) × ((hand_of t.pass).feeders ≡ t.feeders)
        × AreTaken N.groups N.nodes t.feeders (hand_of t.pass).got };
}

impl<N: Numbers> Taker<N> {
    /// How many feeders there are.
    pub fn feeders(&self) -> u8
        ensures count { result ≡ self.now.feeders }
        ensures taken { AreTaken N.groups N.nodes self.now.feeders self.now.taken }
    {
        self.feeders
    }

    /// Takes the next item. None means that the queue was found empty.
    pub fn next<R: Wait>(&mut self, rt: &R) -> Option<Item>
        ensures none { IfNone result (self.new ≡ self.old) }
        ensures some { IfSome result (λ x. self.new ≡ record {
          queue = self.old.queue;
          feeders = self.old.feeders;
          taken = self.old.taken ++ x ∷ [];
        }) }
        ensures taken { AreTaken N.groups N.nodes self.new.feeders self.new.taken }
        ensures fits { IfSome result (λ x. Fits N.groups N.nodes x.what
            × (x.feeder < self.old.feeders)) }
    {
        let ring: &Ring<N> = &self.queue;
        let taken = ring.items.pop_as::<Takes<N>, R>(rt, &mut self.pass);
        let tries = ring.wake_behind(taken.is_some(), self.tries);
        self.tries = tries;
        taken
    }

    /// Waits until something is sent, a second at most: the first two hundred times in a row it yields, and then it
    /// sleeps.
    pub fn wait<R: Wait>(&mut self, rt: &R)
        ensures { self.new ≡ self.old }
    {
        self.queue.wait_for_item(rt, self.tries);
        self.tries = self.tries.saturating_add(1);
    }

    /// Takes a feeder back, of which a beginning of what it sent was taken.
    pub fn take_back(&mut self, feeder: Feeder<N>)
        requires queue { feeder.queue ≡ self.old.queue }
        ensures same { self.new ≡ self.old }
        ensures begins { IsPrefix (sent_by feeder.feeder self.old.taken) feeder.sent }
    {
        let Feeder {
            queue: _,
            pass,
            number: _,
            count: _,
            batch_count: _,
            alloc: _,
        } = feeder;
        let items: &ItemQueue<N> = &self.queue.items;
        items.absorb::<Leaves>(&mut self.pass, pass);
        items.learn_as::<Compares>(&mut self.pass);
    }
}
