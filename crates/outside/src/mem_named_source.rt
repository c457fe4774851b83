//! A source in memory that is opened by a name.
ghost use Rattle.std.specs.Prelude.{◌≡◌, ◌≢◌, ◌≤◌, ◌↔◌, ◌⊎◌, Some, [], true, length, map, IfOk};
ghost use Rattle.outside.specs.Calls.{counted};
ghost use Rattle.outside.specs.Faults.{BothTell, Rose};
ghost use Rattle.outside.specs.MemNamedSource.{OpenFails, named_faults, named_fed};
ghost use Rattle.outside.specs.MemPort.{is_shut};
ghost use Rattle.outside.specs.MemSource.{FailsNext, IsNextPiece, is_failed};
ghost use Rattle.outside.specs.NamedSource.{IsNamed};
ghost use Rattle.outside.specs.Source.{IsRead, IsWithin};

use crate::calls::Calls;
use crate::{MemSource, NamedSource, Opening, Read, Source};
use arrayvec::ArrayString;
use no_memory::NoMemory;
use std::alloc::Global;
use std::marker::Model;

/// A source in memory, with room to note one opening under a name of at most 255 octets.
#[derive(Drop)]
pub struct MemNamedSource {
    source: MemSource,
    names: Vec<ArrayString<255>>,
    calls: Calls,
}

impl Model for MemNamedSource {
    ghost use Rattle.std.specs.Prelude.{◌≤◌, map, vec_capacity};
    ghost use Rattle.outside.specs.MemNamedSource.{NamedInMemory};

    ghost Value = { NamedInMemory };

    ghost view = { λ s. record {
      source = s.source;
      names = map (λ n. n.bytes) s.names.items;
      opens = s.calls;
    } };

    ghost invariant = { λ s. 1 ≤ vec_capacity s.names };
}

impl MemNamedSource {
    /// That source. The openings with these numbers, from 0, are to fail.
    ///
    /// # Errors
    ///
    /// `NoMemory`.
    pub fn new(
        alloc: Global,
        source: MemSource,
        fails: Vec<u64>,
    ) -> Result<MemNamedSource, NoMemory>
        ensures { IfOk result (λ s. s ≡ record {
          source = source;
          names = [];
          opens = record { made = 0; fails = fails.items; faults = 0 };
        }) }
    {
        Ok(MemNamedSource {
            source,
            names: Vec::with_capacity(alloc, 1)?,
            calls: Calls::new(fails),
        })
    }

    /// The names under which it was opened.
    pub fn names(&self) -> &[ArrayString<255>]
        ensures { map (λ n. n.bytes) result.now ≡ self.now.names }
    {
        self.names.as_slice()
    }

    /// How many openings failed. The number stands still at the end of its type.
    pub fn faults(&self) -> u64
        ensures { result ≡ self.now.opens.faults }
    {
        self.calls.faults()
    }
}

impl Source for MemNamedSource {
    ghost told = { λ s. record { past = Some (named_fed s); faults = named_faults s } };

    fn read(&mut self, buffer: &mut [u8]) -> Read
        requires { 1 ≤ length buffer.old }
        ensures within { IsWithin result (length buffer.old) }
        ensures read { BothTell (Some (named_fed self.old))
            (Some (named_fed self.new)) (IsRead (length buffer.old) result buffer.new) }
        ensures later { named_faults self.old ≤ named_faults self.new }
        ensures cause { result ≡ Read.Failed
            → Rose (named_faults self.old) (named_faults self.new) }
        ensures stays { result ≢ Read.Failed → named_faults self.new ≡ named_faults self.old }
        // It reads as the source does.
        ensures failed { (result ≡ Read.Failed) ↔ FailsNext self.old.source }
        ensures end { (result ≡ Read.End) ↔ (self.old.source.is_ended ≡ true)
            ⊎ ((self.old.source.left ≡ []) × ¬ FailsNext self.old.source) }
        ensures piece { IsNextPiece result (length buffer.old) self.old.source self.new.source }
        ensures counted { self.new.source.calls ≡ counted self.old.source.calls (is_failed result) }
        ensures others { (self.new.names ≡ self.old.names) × (self.new.opens ≡ self.old.opens) }
    {
        self.source.read(buffer)
    }
}

impl NamedSource for MemNamedSource {
    fn open(&mut self, name: &str) -> Opening
        ensures open { BothTell
            (Some (named_fed self.old)) (Some (named_fed self.new)) (IsNamed name.now result) }
        ensures later { named_faults self.old ≤ named_faults self.new }
        ensures cause { result ≡ Opening.Failed
            → Rose (named_faults self.old) (named_faults self.new) }
        ensures stays { result ≢ Opening.Failed → named_faults self.new ≡ named_faults self.old }
        // It fails only where it is to, or where there is no room to note the name.
        ensures failed { (result ≡ Opening.Failed) ↔ OpenFails self.old name.now }
        ensures unnoted { result ≡ Opening.Failed → self.new.names ≡ self.old.names }
        ensures rest { self.new ≡ record self.old {
          names = self.new.names;
          opens = counted self.old.opens (is_shut result);
        } }
    {
        let mut text = ArrayString::new();
        let has_room = text.try_push_str(name).is_ok() && self.names.is_empty();
        if !has_room || self.calls.is_to_fail() {
            self.calls.count_failed();
            return Opening::Failed;
        }
        self.calls.count_done();
        self.names.push_reserved(text);
        Opening::Ready
    }
}
