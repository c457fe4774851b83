//! A gate in memory, which stops after a stated number of turns.
ghost use Rattle.std.specs.Prelude.{◌≡◌, ◌≤◌, ◌<◌, ◌+◌, ◌-◌, ◌++◌, ◌∷◌, ◌↔◌, Some, [], true, false, map, IfOk};
ghost use Rattle.outside.specs.Faults.{BothTell, raised};
ghost use Rattle.outside.specs.Gate.{IsTurning};
ghost use Rattle.outside.specs.MemGate.{shown_of};

use crate::{Gate, Turning};
use no_memory::NoMemory;
use std::alloc::Global;
use std::marker::Model;

/// A turn of a gate: the serial that it was shown, and whether it answered `Go`.
#[derive(Clone, Copy, Debug, PartialEq, Eq)]
pub struct MemShown {
    pub known: u64,
    pub go: bool,
}

/// A gate in memory: it answers `Go` so many times, and then `Stop`. It has room to note these and the first `Stop`.
#[derive(Drop)]
pub struct MemGate {
    turns: Vec<MemShown>,
    goes: usize,
    /// How many times `Stop` can be noted.
    room: usize,
    is_stopped: bool,
    faults: u64,
}

impl Model for MemGate {
    ghost use Rattle.std.specs.Prelude.{◌≤◌, ◌+◌, map, vec_len, vec_capacity};
    ghost use Rattle.outside.specs.MemGate.{GateInMemory, shown_of};

    ghost Value = { GateInMemory };

    ghost view = { λ g. record {
      told = record {
        turns = map shown_of g.turns.items;
        is_stopped = g.is_stopped;
      };
      goes = g.goes;
      room = g.room;
      faults = g.faults;
    } };

    ghost invariant = { λ g. vec_len g.turns + g.goes + g.room ≤ vec_capacity g.turns };
}

impl MemGate {
    /// One that answers `Go` so many times.
    ///
    /// # Errors
    ///
    /// `NoMemory`.
    pub fn new(alloc: Global, goes: usize) -> Result<MemGate, NoMemory>
        ensures { IfOk result (λ g. g ≡ record {
          told = record { turns = []; is_stopped = false };
          goes = goes;
          room = 1;
          faults = 0;
        }) }
    {
        let Some(room) = goes.checked_add(1) else {
            return Err(NoMemory);
        };
        Ok(MemGate {
            turns: Vec::with_capacity(alloc, room)?,
            goes,
            room: 1,
            is_stopped: false,
            faults: 0,
        })
    }

    /// The turns that it noted.
    pub fn turns(&self) -> &[MemShown]
        ensures { map shown_of result.now ≡ self.now.told.turns }
    {
        self.turns.as_slice()
    }

    /// How many turns it could not note. The number stands still at the end of its type.
    pub fn faults(&self) -> u64
        ensures { result ≡ self.now.faults }
    {
        self.faults
    }
}

impl Gate for MemGate {
    ghost told = { λ g. record { past = Some g.told; faults = g.faults } };

    fn turn(&mut self, known: u64) -> Turning
        ensures turn { BothTell (Some self.old.told) (Some self.new.told) (IsTurning known result) }
        ensures later { self.old.faults ≤ self.new.faults }
        ensures stays { result ≡ Turning.Go → self.new.faults ≡ self.old.faults }
        // It stops only where no Go is left. Each turn is noted, as long as there is room.
        ensures go { (result ≡ Turning.Go) ↔ (0 < self.old.goes) }
        ensures goes { self.new.goes ≡ self.old.goes - 1 }
        ensures room { result ≡ Turning.Go → self.new.room ≡ self.old.room }
        ensures stop { result ≡ Turning.Stop → 0 < self.old.room
            → (self.new.told.turns ≡ self.old.told.turns ++ record { known = known; go = false }
            ∷ []) × (self.new.room + 1 ≡ self.old.room) × (self.new.faults ≡ self.old.faults) }
        ensures full { result ≡ Turning.Stop
            → self.old.room ≡ 0 → (self.new.told.turns ≡ self.old.told.turns)
            × (self.new.room ≡ 0) × (self.new.faults ≡ raised self.old.faults 1) }
    {
        if self.goes > 0 {
            self.goes -= 1;
            self.turns.push_reserved(MemShown { known, go: true });
            return Turning::Go;
        }
        self.is_stopped = true;
        if self.room > 0 {
            self.room -= 1;
            self.turns.push_reserved(MemShown { known, go: false });
        } else {
            self.faults = self.faults.saturating_add(1);
        }
        Turning::Stop
    }
}
