//! The files of the system.
ghost use Rattle.std.specs.Prelude.{◌≡◌, ◌≤◌, ◌∷◌, ◌++◌, [], Some, IfOk, IsErrOf, vec_len};
ghost use Rattle.outside.specs.Faults.{BothTell, Rose};
ghost use Rattle.outside.specs.Shelf.{IsAnswer, IsLoad};
ghost use Rattle.past_log.specs.Shelf.{no_loads, octets_of, of_loads};

use crate::pieces::{fault_of, read_past, within};
use outside::{LoadFault, Shelf};
use past_log::{LoadEvent, ShelfPast};
use std::alloc::Global;
use std::fs::{self, OpenFile};
use std::marker::Model;
use std::rt::Files;

/// The files of the system, as the loads so far, with what came of them, and a count of those that failed.
#[derive(Drop)]
pub struct FileShelf<'a, R: Files> {
    rt: &'a R,
    faults: u64,
    past: ShelfPast,
}

impl<'a, R: Files> Model for FileShelf<'a, R> {
    ghost use Rattle.edges.specs.Pasts.{ShelfNoted};

    ghost Value = { ShelfNoted };

    ghost view = { λ s. record { loads = s.past.told; faults = s.faults } };
}

impl<'a, R: Files> FileShelf<'a, R> {
    /// One from which nothing was loaded, without a fault so far.
    pub fn new(rt: &'a R) -> FileShelf<'a, R>
        ensures { result ≡ record { loads = no_loads; faults = 0 } }
    {
        FileShelf {
            rt,
            faults: 0,
            past: ShelfPast::new(),
        }
    }
}

/// All octets of the file of that name, if there are at most `limit`, or else its first ones, one more than that.
fn read_file<R: Files>(
    rt: &R,
    alloc: Global,
    name: &str,
    limit: usize,
) -> Result<Vec<u8>, LoadFault>
    ensures { IsErrOf result LoadFault.TooLong → ⊥ }
{
    let file = fs::open(rt, name).map_err(fault_of)?;
    // what is no plain file may not say how long it is
    let expected = match file.metadata() {
        Ok(metadata) => metadata.len(),
        Err(_) => 0,
    };
    read_past(file, alloc, limit, expected)
}

/// Reads the file of that name, up to one octet past the limit, and notes the load with what it read.
fn read_noted<R: Files>(
    rt: &R,
    past: &mut ShelfPast,
    alloc: Global,
    name: &str,
    limit: usize,
) -> Result<Vec<u8>, LoadFault>
    ensures noted { past.new.told ≡ past.old.told
        ++ record { name = name.now; limit = limit; octets = octets_of result } ∷ [] }
    ensures long { IsErrOf result LoadFault.TooLong → ⊥ }
{
    let read = read_file(rt, alloc, name, limit);
    past.note(&LoadEvent {
        name,
        limit,
        read: &read,
    });
    read
}

/// What a load answers of what was read, up to one octet past the limit.
fn answer_of(read: Result<Vec<u8>, LoadFault>, limit: usize) -> Result<Vec<u8>, LoadFault>
    requires { IsErrOf read LoadFault.TooLong → ⊥ }
    ensures { IsAnswer (octets_of read) limit result }
{
    match read {
        Ok(bytes) => within(bytes, limit),
        Err(LoadFault::NoMemory) => Err(LoadFault::NoMemory),
        Err(_) => Err(LoadFault::Failed),
    }
}

impl<R: Files> Shelf for FileShelf<'_, R> {
    ghost told = { λ s. record { past = Some (of_loads s.loads); faults = s.faults } };

    fn load(&mut self, alloc: Global, name: &str, limit: usize) -> Result<Vec<u8>, LoadFault>
        ensures within { IfOk result (λ bytes. vec_len bytes ≤ limit) }
        ensures load { BothTell (Some (of_loads self.old.loads)) (Some (of_loads self.new.loads))
            (IsLoad name.now limit result) }
        ensures later { self.old.faults ≤ self.new.faults }
        ensures cause { IsErrOf result LoadFault.Failed → Rose self.old.faults self.new.faults }
        ensures stays { ¬ IsErrOf result LoadFault.Failed → self.new.faults ≡ self.old.faults }
    {
        let read = read_noted(self.rt, &mut self.past, alloc, name, limit);
        let loaded = answer_of(read, limit);
        if let Err(LoadFault::Failed) = &loaded {
            self.faults = self.faults.saturating_add(1);
        }
        loaded
    }
}
