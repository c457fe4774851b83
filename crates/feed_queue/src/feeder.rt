//! Feeders, each of which sends its items.
ghost use Rattle.std.specs.Prelude.{true, IsTrue, ◌≡◌, ◌+◌, ◌-◌, ◌<◌, ◌≤◌, ◌^◌, ◌++◌, ◌∷◌, [], length};
ghost use Rattle.std.specs.Arc.{arc_value};
ghost use Rattle.crossbeam_queue.specs.Passes.{view, IsPassOf, IsSamePass};
ghost use Rattle.demand_feed.specs.declared.sent.What.{What};
ghost use Rattle.feed_queue.specs.Ends.{FeederState, with_item};
ghost use Rattle.feed_queue.specs.Items.{Fits, MaySend, batches, is_batch};
ghost use Rattle.feed_queue.specs.Rule.{with_sent};

use crate::ring::Ring;
use crate::rule::{Numbers, Seat, Sends};
use demand_feed::{Item, What};
use std::alloc::Global;
use std::marker::Model;
use std::sync::{Arc, Wait};

/// The most batches of a feeder.
const MOST_BATCHES: u64 = (1 << 61) - 1;

/// One of those who send. Contracts see its queue, its number, and what it has sent.
#[derive(Drop)]
pub struct Feeder<N: Numbers> {
    pub(crate) queue: Arc<Ring<N>>,
    pub(crate) pass: Seat,
    pub(crate) number: u8,
    /// How many items it has sent, as far as a number goes.
    pub(crate) count: u64,
    /// How many of these are batches.
    pub(crate) batch_count: u64,
    pub(crate) alloc: Global,
}

impl<N: Numbers> Model for Feeder<N> {
    ghost use Rattle.std.specs.Prelude.{◌≡◌, ◌<◌, ◌^◌, length, true};
    ghost use Rattle.std.specs.Arc.{arc_value};
    ghost use Rattle.crossbeam_queue.specs.Passes.{view as hand_of, IsPassOf};
    ghost use Rattle.feed_queue.specs.Items.{MaySend, batches};
    ghost use Rattle.feed_queue.specs.Ends.{FeederState};

    ghost Value = { FeederState };

    ghost view = { λ f. record {
      queue = (arc_value f.queue).items.table.shared.table_id;
      feeder = f.number;
      sent = (hand_of f.pass).sent;
    } };

    ghost invariant = { λ f. IsPassOf (arc_value f.queue).items f.pass
        × ((hand_of f.pass).feeds ≡ true)
        × ((hand_of f.pass).feeder ≡ f.number) × MaySend N.groups N.nodes (hand_of f.pass).sent
        × (length (hand_of f.pass).sent < 2 ^ 64 → f.count ≡ length (hand_of f.pass).sent)
        × (f.batch_count ≡ batches (hand_of f.pass).sent) };
}

/// Sends an item by a pass. It waits for as long as the queue is full.
fn send_by<N: Numbers, R: Wait>(rt: &R, ring: &Ring<N>, pass: &mut Seat, number: u8, item: Item)
    requires pass { IsPassOf ring.now.items pass.old × ((view pass.old).feeds ≡ true) }
    requires feeder { item.feeder ≡ (view pass.old).feeder }
    requires number { item.number ≡ length (view pass.old).sent }
    requires fits { Fits N.groups N.nodes item.what }
    requires few { batches ((view pass.old).sent ++ item.what ∷ []) < 2 ^ 61 }
    ensures pass { IsSamePass pass.old pass.new }
    ensures sent { view pass.new ≡ with_sent (view pass.old) item.what }
{
    let mut rest = item;
    let mut tries: u32 = 0;
    for _ in rt.forever() {
        match ring.items.push_as::<Sends, R>(rt, pass, rest) {
            Ok(()) => {
                ring.taker.unpark();
                return;
            }
            Err(back) => {
                rest = back;
                ring.wait_for_room(rt, number, tries);
                tries = tries.saturating_add(1);
            }
        }
    }
    unreachable!()
}

fn is_batch(what: &What) -> bool
    ensures { result ≡ is_batch what.now }
{
    matches!(what, What::Commit(_))
}

impl<N: Numbers> Feeder<N> {
    /// Its number, from 0.
    pub fn number(&self) -> u8
        ensures { result ≡ self.now.feeder }
    {
        self.number
    }

    /// Sends an item. It waits for as long as the queue is full.
    #[tactic(auto, using(crate::proofs::Lists::batches_one))]
    pub fn send<R: Wait>(&mut self, rt: &R, item: Item)
        requires feeder { item.feeder ≡ self.old.feeder }
        requires number { item.number ≡ length self.old.sent }
        requires fits { Fits N.groups N.nodes item.what }
        requires few { batches (self.old.sent ++ item.what ∷ []) < 2 ^ 61 }
        ensures { self.new ≡ with_item self.old item.what }
    {
        let batches = self.batch_count + u64::from(is_batch(&item.what));
        send_by(rt, &self.queue, &mut self.pass, self.number, item);
        self.batch_count = batches;
        self.count = self.count.saturating_add(1);
    }

    /// Whether it may send one batch more.
    pub(crate) fn has_room(&self) -> bool
        ensures room { IsTrue result → (w : What) → batches (self.now.sent ++ w ∷ []) < 2 ^ 61 }
        ensures may { MaySend N.groups N.nodes self.now.sent }
    {
        self.batch_count < MOST_BATCHES
    }

    pub(crate) fn send_next<R: Wait>(&mut self, rt: &R, what: What)
        requires number { length self.old.sent < 2 ^ 64 - 1 }
        requires fits { Fits N.groups N.nodes what }
        requires few { batches (self.old.sent ++ what ∷ []) < 2 ^ 61 }
        ensures { self.new ≡ with_item self.old what }
    {
        let item = Item {
            feeder: self.number,
            number: self.count,
            what,
        };
        self.send(rt, item);
    }
}
