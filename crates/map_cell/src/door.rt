//! Doors: the way of viewers into a cell, which counts what it is asked and what it refuses.
ghost use Rattle.std.specs.Prelude.{◌≡◌, ◌⊎◌, ◌+◌, ◌<◌, ◌^◌, ◌≤◌, ◌∷◌, ◌++◌, [], ℕ, length, max, IfOk, IfErr, IsErrOf, OnErr, OnOk};
ghost use mathlib.Core.List.{IsPrefix};
ghost use Rattle.std.specs.Fn.{FnOnceTakesAt, FnOnceReturnsAt};
ghost use Rattle.map_cell.specs.Doors.{DoorState, unused};
ghost use Rattle.map_cell.specs.Ends.{ViewerState, LooksAt};
ghost use Rattle.outside.specs.Faults.{Rose, raised};
ghost use Rattle.published_map.specs.Version.{Version, IsVersion};

use crate::front::Naming;
use crate::publisher::Publisher;
use crate::viewer::{Note, Refused, Viewer};
use published_map::MapVersion;
use std::marker::Model;
use std::sync::Wait;

/// The door refused.
#[derive(Clone, Copy, Debug, PartialEq, Eq)]
pub struct CellFault;

/// Why a place was refused, or an opening.
#[derive(Clone, Copy, Debug, PartialEq, Eq)]
pub enum OpenFault {
    /// There was no memory for the cell.
    NoMemory,
    /// A door refused a place, which its count of faults shows.
    CellFault,
}

/// The way of viewers into the cell.
pub trait Door: Drop {
    ghost use Rattle.map_cell.specs.declared.door.OpenFault.TheVariants.{CellFault as Shut};

    /// What it was asked for, what it showed or learned, and how many faults it has counted.
    ghost told: { Self → DoorState };

    /// A new viewer, which has seen what is published.
    ///
    /// # Errors
    ///
    /// `NoMemory`; `CellFault` only where the count of faults rose by one.
    fn admit<J: Naming, R: Wait>(
        &mut self,
        rt: &R,
        publisher: &mut Publisher<J>,
    ) -> Result<Viewer<J>, OpenFault>
        ensures same { publisher.new ≡ publisher.old }
        ensures seen { IfOk result (λ v. (v.seen ≡ publisher.old.history)
            × (v.heard ≡ publisher.old.history)) }
        ensures counts { ((told self.new).asked ≡ raised (told self.old).asked 1)
            × ((told self.new).looks ≡ (told self.old).looks)
            × ((told self.new).greatest ≡ (told self.old).greatest) }
        ensures later { (told self.old).faults ≤ (told self.new).faults }
        ensures cause { IfErr result (λ e. e ≡ Shut
            → (told self.new).faults ≡ raised (told self.old).faults 1) }
        ensures stays { ¬ IsErrOf result Shut → (told self.new).faults ≡ (told self.old).faults };

    /// Tells the viewer of a published version, and of no more.
    fn learn<J: Naming>(&mut self, viewer: &mut Viewer<J>, note: &Note<J>)
        ensures seen { viewer.new.seen ≡ viewer.old.seen }
        ensures kept { IsPrefix viewer.old.heard viewer.new.heard }
        ensures note { IsPrefix note.now.front viewer.new.heard }
        ensures one { (viewer.new.heard ≡ viewer.old.heard) ⊎ (viewer.new.heard ≡ note.now.front) }
        ensures counts { ((told self.new).faults ≡ (told self.old).faults) × ((told self.new).looks
            ≡ (told self.old).looks) × ((told self.new).asked ≡ (told self.old).asked) }
        ensures greatest { (told self.new).greatest + 1
            ≡ max ((told self.old).greatest + 1) (length viewer.new.heard) };

    /// Runs the closure once, on the last version of a history that begins with what the viewer saw and with what it was
    /// told; that history is then what it has seen.
    ///
    /// # Errors
    ///
    /// `CellFault` only where the count of faults rose; the viewer is as before.
    fn look<J: Naming, R, C: FnOnce(&MapVersion) -> R>(
        &mut self,
        viewer: &mut Viewer<J>,
        c: C,
    ) -> Result<R, CellFault>
    where
        C: Drop,
        requires call { (m : Version) → IsVersion m → FnOnceTakesAt C.FnOnce c m }
        ensures ok { IfOk result (λ r. (m : Version) × LooksAt
            viewer.old.seen viewer.old.heard m viewer.new.seen × FnOnceReturnsAt C.FnOnce c m r) }
        ensures heard { IfOk result (λ _. viewer.new.heard ≡ viewer.new.seen) }
        ensures greatest { OnOk result ((told self.new).greatest + 1
            ≡ max ((told self.old).greatest + 1) (length viewer.new.heard)) }
        ensures err { OnErr result ((viewer.new ≡ viewer.old)
            × ((told self.new).greatest ≡ (told self.old).greatest)) }
        ensures looks { ((told self.new).looks ≡ raised (told self.old).looks 1)
            × ((told self.new).asked ≡ (told self.old).asked) }
        ensures cause { OnErr result (Rose (told self.old).faults (told self.new).faults) }
        ensures stays { OnOk result ((told self.new).faults ≡ (told self.old).faults) };
}

/// Goes straight to the cell, and counts each refusal of it that is not for want of memory.
#[derive(Drop)]
pub struct PlainDoor {
    faults: u64,
    asked: u64,
    looks: u64,
    greatest: u64,
}

impl Model for PlainDoor {
    ghost use Rattle.map_cell.specs.Doors.{DoorState};

    ghost Value = { DoorState };

    ghost view = { λ d. record {
      asked = d.asked;
      looks = d.looks;
      greatest = d.greatest;
      faults = d.faults;
    } };
}

impl PlainDoor {
    /// A door that was not used yet.
    pub fn new() -> PlainDoor
        ensures { result ≡ unused }
    {
        PlainDoor {
            faults: 0,
            asked: 0,
            looks: 0,
            greatest: 0,
        }
    }
}

/// A count after one more.
fn count(n: u64) -> u64
    ensures { result ≡ raised n 1 }
{
    n.saturating_add(1)
}

impl Door for PlainDoor {
    ghost told = { λ d. d };

    fn admit<J: Naming, R: Wait>(
        &mut self,
        _rt: &R,
        publisher: &mut Publisher<J>,
    ) -> Result<Viewer<J>, OpenFault>
        ensures same { publisher.new ≡ publisher.old }
        ensures seen { IfOk result (λ v. (v.seen ≡ publisher.old.history)
            × (v.heard ≡ publisher.old.history)) }
        ensures counts { (self.new.asked ≡ raised self.old.asked 1)
            × (self.new.looks ≡ self.old.looks) × (self.new.greatest ≡ self.old.greatest) }
        ensures stays { self.new.faults ≡ self.old.faults }
        ensures granted { ¬ IsErrOf result OpenFault.CellFault }
    {
        self.asked = count(self.asked);
        match publisher.admit() {
            Ok(viewer) => Ok(viewer),
            Err(_) => Err(OpenFault::NoMemory),
        }
    }

    fn learn<J: Naming>(&mut self, viewer: &mut Viewer<J>, note: &Note<J>) {
        viewer.learn(note);
        self.greatest = self.greatest.max(viewer.known());
    }

    fn look<J: Naming, R, C: FnOnce(&MapVersion) -> R>(
        &mut self,
        viewer: &mut Viewer<J>,
        c: C,
    ) -> Result<R, CellFault>
    where
        C: Drop,
    {
        self.looks = count(self.looks);
        match viewer.look(c) {
            Ok(answer) => {
                self.greatest = self.greatest.max(viewer.known());
                Ok(answer)
            }
            Err(Refused) => {
                self.faults = count(self.faults);
                Err(CellFault)
            }
        }
    }
}

/// A plain door that refuses at stated calls too: places and looks by their numbers, from 0.
#[derive(Drop)]
pub struct MemDoor {
    inner: PlainDoor,
    refused_places: Vec<u64>,
    refused_looks: Vec<u64>,
}

impl Model for MemDoor {
    ghost use Rattle.map_cell.specs.Doors.{RefusingDoor};

    ghost Value = { RefusingDoor };

    ghost view = { λ d. record {
      state = d.inner;
      refused_places = d.refused_places.items;
      refused_looks = d.refused_looks.items;
    } };
}

impl MemDoor {
    /// A door that refuses these places and looks, and was not used yet.
    pub fn new(refused_places: Vec<u64>, refused_looks: Vec<u64>) -> MemDoor
        ensures { result ≡ record {
          state = unused;
          refused_places = refused_places.items;
          refused_looks = refused_looks.items;
        } }
    {
        MemDoor {
            inner: PlainDoor::new(),
            refused_places,
            refused_looks,
        }
    }
}

impl Door for MemDoor {
    ghost told = { λ d. d.state };

    fn admit<J: Naming, R: Wait>(
        &mut self,
        rt: &R,
        publisher: &mut Publisher<J>,
    ) -> Result<Viewer<J>, OpenFault> {
        let number = self.inner.asked;
        if self.refused_places.as_slice().contains(&number) {
            self.inner.asked = count(self.inner.asked);
            self.inner.faults = count(self.inner.faults);
            return Err(OpenFault::CellFault);
        }
        self.inner.admit(rt, publisher)
    }

    fn learn<J: Naming>(&mut self, viewer: &mut Viewer<J>, note: &Note<J>) {
        self.inner.learn(viewer, note);
    }

    fn look<J: Naming, R, C: FnOnce(&MapVersion) -> R>(
        &mut self,
        viewer: &mut Viewer<J>,
        c: C,
    ) -> Result<R, CellFault>
    where
        C: Drop,
    {
        let number = self.inner.looks;
        if self.refused_looks.as_slice().contains(&number) {
            self.inner.looks = count(self.inner.looks);
            self.inner.faults = count(self.inner.faults);
            return Err(CellFault);
        }
        self.inner.look(viewer, c)
    }
}
