//! Offers of which the worst is at hand.
ghost use Rattle.std.specs.Prelude.{◌≡◌, ◌+◌, [], ◌∷◌, length, true, All, IsSome, IfSome, IfNone, OnOk, OnErr, slice_get};
ghost use Rattle.std.specs.List.Sorted.{IsPermutation};
ghost use Rattle.offer_pool.specs.Seats.{KeepsFirst, seat_le};

use map_model::{GroupId, Key, NodeId};
use std::alloc::{AllocError, Global};
use std::collections::BinaryHeap;
use std::marker::Model;

/// An offer by its rank: the greatest is the worst.
#[derive(Clone, Copy, Debug, PartialEq, Eq, PartialOrd, Ord)]
pub struct Seat {
    pub score: u32,
    pub group: GroupId,
    pub pool: NodeId,
    pub place: u8,
}

impl Seat {
    /// The key of the offer.
    pub fn key(self) -> Key
        ensures { result ≡ record { score = self.score; group = self.group; pool = self.pool } }
    {
        Key {
            score: self.score,
            group: self.group,
            pool: self.pool,
        }
    }
}

/// Seats of which the worst is at hand.
#[derive(Debug, Drop)]
pub struct Queue {
    heap: BinaryHeap<Seat>,
}

impl Model for Queue {
    ghost use Rattle.std.specs.Prelude.{List};
    ghost use Rattle.std.specs.BinaryHeap.{IsHeap, heap_items};
    ghost use Rattle.offer_pool.specs.declared.queue.Seat.{Seat};
    ghost use Rattle.offer_pool.specs.Seats.{seat_cmp};

    ghost Value = { List Seat };

    ghost view = { λ q. heap_items q.heap };

    ghost invariant = { λ q. IsHeap seat_cmp (heap_items q.heap) };
}

impl Queue {
    /// A queue with no seat.
    pub fn new(alloc: Global) -> Queue
        ensures { result ≡ [] }
    {
        Queue {
            heap: BinaryHeap::new(alloc),
        }
    }

    /// Adds a seat.
    pub fn push(&mut self, seat: Seat) -> Result<(), AllocError>
        ensures ok { OnOk result (IsPermutation (seat ∷ self.old) self.new) }
        ensures first { OnOk result (KeepsFirst seat self.old self.new) }
        ensures err { OnErr result (self.new ≡ self.old) }
    {
        self.heap.push(seat)?;
        Ok(())
    }

    /// The worst seat.
    pub fn worst(&self) -> Option<Seat>
        ensures first { result ≡ slice_get self.now 0 }
        ensures worst { IfSome result (λ w. All (λ s. seat_le s w ≡ true) self.now) }
    {
        self.heap.peek().copied()
    }

    /// Takes out the worst seat.
    pub fn pop(&mut self) -> Option<Seat>
        ensures first { result ≡ slice_get self.old 0 }
        ensures some { IfSome result (λ w. IsPermutation self.old (w ∷ self.new)) }
        ensures len { IsSome result → length self.new + 1 ≡ length self.old }
        ensures none { IfNone result (self.new ≡ self.old) }
    {
        self.heap.pop()
    }
}
