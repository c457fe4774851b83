//! A pace in memory, which holds nobody.
ghost use Rattle.std.specs.Prelude.{◌≡◌, ◌≤◌, ◌<◌, ◌+◌, ◌++◌, Some, [], ◌∷◌, length, if◌then◌else◌, nat_lt, IfOk};
ghost use Rattle.outside.specs.Faults.{raised};
ghost use Rattle.outside.specs.Pace.{IsPaced};

use crate::{Pace, PaceCall};
use no_memory::NoMemory;
use std::alloc::Global;
use std::marker::Model;

/// A pace in memory that holds nobody, with room to note so many calls. Where the room is used up it tells no more.
#[derive(Drop)]
pub struct MemPace {
    calls: Vec<PaceCall>,
    room: usize,
    faults: u64,
}

impl Model for MemPace {
    ghost use Rattle.std.specs.Prelude.{◌≤◌, vec_capacity};
    ghost use Rattle.outside.specs.MemPace.{PaceInMemory};

    ghost Value = { PaceInMemory };

    ghost view = { λ p. record { calls = p.calls.items; room = p.room; faults = p.faults } };

    ghost invariant = { λ p. p.room ≤ vec_capacity p.calls };
}

impl MemPace {
    /// One that was not called.
    ///
    /// # Errors
    ///
    /// `NoMemory`.
    pub fn new(alloc: Global, room: usize) -> Result<MemPace, NoMemory>
        ensures { IfOk result (λ p. p ≡ record { calls = []; room = room; faults = 0 }) }
    {
        Ok(MemPace {
            calls: Vec::with_capacity(alloc, room)?,
            room,
            faults: 0,
        })
    }

    /// The calls that it noted.
    pub fn calls(&self) -> &[PaceCall]
        ensures { result.now ≡ self.now.calls }
    {
        self.calls.as_slice()
    }

    /// How many calls it could not note. The number stands still at the end of its type.
    pub fn faults(&self) -> u64
        ensures { result ≡ self.now.faults }
    {
        self.faults
    }

    /// Notes a call, where there is room.
    fn note(&mut self, call: PaceCall)
        ensures noted { length self.old.calls < self.old.room
            → self.new ≡ record self.old { calls = self.old.calls ++ call ∷ [] } }
        ensures full { self.old.room ≤ length self.old.calls
            → self.new ≡ record self.old { faults = raised self.old.faults 1 } }
    {
        if self.calls.len() >= self.room || self.calls.push(call).is_err() {
            self.faults = self.faults.saturating_add(1);
        }
    }
}

impl Pace for MemPace {
    ghost use Rattle.outside.specs.MemPace.{paced};

    ghost told = { λ p. record { past = paced p; faults = p.faults } };

    fn before(&mut self, newest: u64)
        ensures paced { IsPaced (PaceCall.Before newest ∷ []) (paced self.old) (paced self.new) }
        ensures later { self.old.faults ≤ self.new.faults }
        ensures noted { length self.old.calls < self.old.room
            → self.new ≡ record self.old { calls = self.old.calls ++ PaceCall.Before newest ∷ [] } }
        ensures full { self.old.room ≤ length self.old.calls
            → self.new ≡ record self.old { faults = raised self.old.faults 1 } }
    {
        self.note(PaceCall::Before(newest));
    }

    fn done(&mut self, newest: u64)
        ensures paced { IsPaced (PaceCall.Done newest ∷ []) (paced self.old) (paced self.new) }
        ensures later { self.old.faults ≤ self.new.faults }
        ensures noted { length self.old.calls < self.old.room
            → self.new ≡ record self.old { calls = self.old.calls ++ PaceCall.Done newest ∷ [] } }
        ensures full { self.old.room ≤ length self.old.calls
            → self.new ≡ record self.old { faults = raised self.old.faults 1 } }
    {
        self.note(PaceCall::Done(newest));
    }
}
