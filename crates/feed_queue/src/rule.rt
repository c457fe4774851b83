//! The rule of the queue, and what each step of it tells.
ghost use Rattle.std.specs.Prelude.{◌≡◌};

use crate::hand::Hand;
use crossbeam_queue::protocol::{Join, Lesson, Outcome, Protocol, Split};
use crossbeam_queue::{Pass, RuledArrayQueue};
use demand_feed::Item;
use std::marker::{Brand, PhantomData};

/// How many groups, classes counted among them, and how many nodes there are. What carries the same type is of topologies
/// with the same numbers.
pub trait Numbers {
    ghost use Rattle.std.specs.Prelude.{ℕ};

    ghost groups: { ℕ };

    ghost nodes: { ℕ };
}

impl Numbers for Brand {
    ghost groups = { 0 };

    ghost nodes = { 0 };
}

/// The rule: of each feeder, what was taken and what is in the queue are its items, once each and in order.
pub struct Law<N> {
    of: PhantomData<N>,
}

impl<N: Numbers> Protocol<Item, Hand> for Law<N> {
    ghost use Rattle.feed_queue.specs.Rule.{Delivers, first};

    ghost holds = { λ items views. Delivers N.groups N.nodes items views };

    ghost first = { first };
}

/// There is one feeder more.
pub struct Joins;

impl Split<Hand> for Joins {
    ghost use Rattle.feed_queue.specs.Rule.{with_feeder, new_feeder};

    ghost left = { with_feeder };

    ghost right = { new_feeder };
}

/// A feeder comes back.
pub struct Leaves;

impl Join<Hand> for Leaves {
    ghost use Rattle.feed_queue.specs.Rule.{came_back, spent};

    ghost both = { came_back };

    ghost spent = { spent };
}

/// One item more is sent.
pub struct Sends;

impl Outcome<Item, Hand> for Sends {
    ghost use Rattle.std.specs.Prelude.{◌≡◌};
    ghost use Rattle.feed_queue.specs.Rule.{with_sent};

    ghost then = { λ v x w. w ≡ with_sent v x.what };
}

impl Lesson<Item, Hand> for Sends {
    ghost fact = { λ v items. Unit {0} };
}

/// One item more is taken.
pub struct Takes<N> {
    of: PhantomData<N>,
}

impl<N: Numbers> Outcome<Item, Hand> for Takes<N> {
    ghost use Rattle.feed_queue.specs.Rule.{Took};

    ghost then = { λ v x w. Took N.groups N.nodes v x w };
}

impl<N: Numbers> Lesson<Item, Hand> for Takes<N> {
    ghost fact = { λ v items. Unit {0} };
}

/// What was taken of a feeder, and what the queue has of it, is what it sent.
pub struct Compares;

impl Lesson<Item, Hand> for Compares {
    ghost use Rattle.feed_queue.specs.Rule.{Accounts};

    ghost fact = { Accounts };
}

pub(crate) type ItemQueue<N> = RuledArrayQueue<Item, Hand, Law<N>>;

pub(crate) type Seat = Pass<Item, Hand>;
