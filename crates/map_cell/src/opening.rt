//! The opening of a cell, with all its viewers.
ghost use Rattle.std.specs.Prelude.{◌≡◌, ◌+◌, ◌<◌, ◌≤◌, ◌∷◌, [], ℕ, All, IfOk, IfErr, IsErr, IsErrOf, OnOk, vec_len, vec_capacity};
ghost use Rattle.outside.specs.Faults.{raised};
ghost use Rattle.published_map.specs.Version.{IsVersion};
ghost use Rattle.map_cell.specs.declared.door.OpenFault.TheVariants.{CellFault as Shut};

use crate::door::{Door, OpenFault};
use crate::front::{EmptyHistory, Naming};
use crate::publisher::{Publisher, start};
use crate::viewer::Viewer;
use published_map::MapVersion;
use std::alloc::Global;
use std::sync::Wait;

/// How many viewers a cell has room for: as many as there are lanes, each of which has one.
pub const MOST_VIEWERS: usize = 16;

/// Opens a cell with its first version and so many viewers, 0 to 16, for each of which the door is asked once, and for none after
/// one that it refused. Both copies of the version and all places are made here. An opening that is refused closes what
/// it made, and may wait for that.
///
/// # Errors
///
/// `NoMemory`; `CellFault` only where the count of the door's faults rose by one, and where a viewer was asked for. That
/// count stands at any other answer.
pub fn open<J: Naming, D: Door, R: Wait>(
    rt: &R,
    alloc: Global,
    history: EmptyHistory,
    first: MapVersion,
    viewers: u8,
    door: &mut D,
) -> Result<(Publisher<J>, Vec<Viewer<J>>), OpenFault>
    requires book { history ≡ J.book }
    requires first { IsVersion first × (first.serial ≡ 0) }
    requires viewers { viewers ≤ 16 }
    ensures publisher { IfOk result (λ r. r.0 ≡ record { history = first ∷ []; newest = first }) }
    ensures viewers { IfOk result (λ r. (vec_len r.1 ≡ viewers)
        × All (λ v. (v.seen ≡ first ∷ []) × (v.heard ≡ first ∷ [])) r.1.items) }
    ensures asked { (k : ℕ)
        × (k ≤ viewers) × ((D.told door.new).asked ≡ raised (D.told door.old).asked k) }
    ensures asked_all { OnOk result ((D.told door.new).asked
        ≡ raised (D.told door.old).asked viewers) }
    ensures same { ((D.told door.new).looks ≡ (D.told door.old).looks)
        × ((D.told door.new).greatest ≡ (D.told door.old).greatest) }
    ensures later { (D.told door.old).faults ≤ (D.told door.new).faults }
    ensures cause { IfErr result (λ e. e ≡ Shut
        → (D.told door.new).faults ≡ raised (D.told door.old).faults 1) }
    ensures asked_one { IfErr result (λ e. e ≡ Shut → 1 ≤ viewers) }
    ensures stays { ¬ IsErrOf result Shut → (D.told door.new).faults ≡ (D.told door.old).faults }
{
    let (book, empty) = history.named::<J>();
    let Ok(second) = first.try_clone() else {
        return Err(OpenFault::NoMemory);
    };
    let Ok(mut made) = Vec::with_capacity(alloc, viewers as usize) else {
        return Err(OpenFault::NoMemory);
    };
    match start(rt, alloc, book, empty, (first, second), MOST_VIEWERS) {
        Err(_) => Err(OpenFault::NoMemory),
        Ok(publisher) => {
            let mut publisher = publisher;
            match fill(rt, &mut publisher, door, viewers, &mut made) {
                Ok(()) => Ok((publisher, made)),
                Err(fault) => {
                    publisher.close(rt);
                    Err(fault)
                }
            }
        }
    }
}

/// Asks the door for so many places.
fn fill<J: Naming, D: Door, R: Wait>(
    rt: &R,
    publisher: &mut Publisher<J>,
    door: &mut D,
    viewers: u8,
    made: &mut Vec<Viewer<J>>,
) -> Result<(), OpenFault>
    requires { (vec_len made.old ≡ 0) × (viewers ≤ vec_capacity made.old) }
    ensures same { publisher.new ≡ publisher.old }
    ensures count { OnOk result (vec_len made.new ≡ viewers) }
    ensures made { OnOk result (All (λ v. (v.seen ≡ publisher.old.history)
        × (v.heard ≡ publisher.old.history)) made.new.items) }
    ensures asked { (k : ℕ)
        × (k ≤ viewers) × ((D.told door.new).asked ≡ raised (D.told door.old).asked k) }
    ensures asked_all { OnOk result ((D.told door.new).asked
        ≡ raised (D.told door.old).asked viewers) }
    ensures untouched { ((D.told door.new).looks ≡ (D.told door.old).looks)
        × ((D.told door.new).greatest ≡ (D.told door.old).greatest) }
    ensures later { (D.told door.old).faults ≤ (D.told door.new).faults }
    ensures cause { IfErr result (λ e. e ≡ Shut
        → (D.told door.new).faults ≡ raised (D.told door.old).faults 1) }
    ensures asked_one { IsErr result → 1 ≤ viewers }
    ensures stays { ¬ IsErrOf result Shut → (D.told door.new).faults ≡ (D.told door.old).faults }
{
    for _ in 0..viewers {
        let viewer = door.admit(rt, publisher)?;
        made.push_reserved(viewer);
    }
    Ok(())
}
