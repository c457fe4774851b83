//! A copy of the newest version with the history that it ends, and the steps by which both copies go on.
ghost use Rattle.std.specs.Prelude.{◌≡◌, ◌+◌, ◌<◌, length, IsTrue};
ghost use Rattle.map_cell.specs.Rules.{CopyState, DeltaState, stepped};

use crate::front::{Front, Law, Naming};
use left_right::Absorb;
use logbook::Seen;
use published_map::{Delta, MapVersion};
use std::alloc::AllocError;
use std::marker::Model;

/// A copy of the newest version, with the history that it ends.
#[derive(Drop)]
pub struct Sealed {
    version: MapVersion,
    count: u64,
    seen: Seen<MapVersion, u64, Law>,
}

impl Model for Sealed {
    ghost use Rattle.std.specs.Prelude.{◌≡◌, length};
    ghost use Rattle.map_cell.specs.Histories.{IsHistory};
    ghost use Rattle.map_cell.specs.Rules.{CopyState};

    ghost Value = { CopyState };

    ghost view = { λ s. record { book = s.seen.book; history = s.seen.log; version = s.version } };

    ghost invariant = { λ s. (s.count ≡ length s.seen.log) × IsHistory s.seen.log };
}

impl Sealed {
    pub fn new<J: Naming>(version: MapVersion, front: &Front<J>) -> Sealed
        ensures { result ≡ record { book = J.book; history = front.now; version = version } }
    {
        Sealed {
            version,
            count: front.len(),
            seen: front.token(),
        }
    }

    pub fn version(&self) -> &MapVersion
        ensures { result.now ≡ self.now.version }
    {
        &self.version
    }

    pub fn front<J: Naming>(&self) -> Front<J>
        requires { self.now.book ≡ J.book }
        ensures { result ≡ self.now.history }
    {
        Front::of_token(self.count, &self.seen)
    }
}

/// A step of the copies: a delta, with the history that it leads to.
#[derive(Drop)]
pub struct SealedDelta {
    delta: Delta,
    serial: u64,
    count: u64,
    seen: Seen<MapVersion, u64, Law>,
}

impl Model for SealedDelta {
    ghost use Rattle.std.specs.Prelude.{◌≡◌, ◌+◌, length};
    ghost use Rattle.map_cell.specs.Histories.{IsHistory};
    ghost use Rattle.map_cell.specs.Rules.{DeltaState};

    ghost Value = { DeltaState };

    ghost view = { λ s. record {
      book = s.seen.book;
      history = s.seen.log;
      serial = s.serial;
      delta = s.delta;
    } };

    ghost invariant = { λ s. (s.count ≡ length s.seen.log)
        × (length s.seen.log ≡ s.serial + 1) × IsHistory s.seen.log };
}

impl SealedDelta {
    pub fn new<J: Naming>(delta: Delta, serial: u64, front: &Front<J>) -> SealedDelta
        requires { length front.now ≡ serial + 1 }
        ensures { result ≡ record {
          book = J.book;
          history = front.now;
          serial = serial;
          delta = delta;
        } }
    {
        SealedDelta {
            delta,
            serial,
            count: front.len(),
            seen: front.token(),
        }
    }
}

impl Absorb<SealedDelta> for Sealed {
    type State = Sealed;

    ghost state = { λ s. s };

    ghost applied = { stepped };

    ghost never_fails = { Unit {0} };

    fn absorb_first(&mut self, operation: &SealedDelta, _other: &Sealed) -> Result<(), AllocError> {
        if self.version.fits(&operation.delta) {
            self.version.absorb(&operation.delta, operation.serial);
            self.count = operation.count;
            self.seen = operation.seen.again();
        }
        Ok(())
    }
}
