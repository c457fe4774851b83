//! The notes of a turn.
ghost use Rattle.std.specs.Prelude.{◌≡◌, ◌<◌, ℕ, length, List, All};
ghost use Rattle.outside.specs.Faults.{BothTell};
ghost use Rattle.lane_model.specs.Calls.{IsRise};
ghost use Rattle.lane_model.specs.Turns.{giving};
ghost use Rattle.name_workers.specs.Moments.{eyes_of};

use crate::worker::Worker;
use map_cell::{Door, Naming, Note};
use outside::Notes;

/// Tells a worker of all maps that notes name, up to where there is none now.
pub fn learn_all<J: Naming, D: Door, N: Notes<Note<J>>>(
    worker: &mut Worker<J>,
    door: &mut D,
    notes: &mut N,
)
    ensures given { (serials : List ℕ) × BothTell (N.told notes.old) (N.told notes.new)
        (λ b c. c ≡ giving serials b) × All (λ s. s < length worker.new.viewer.heard) serials }
    ensures rise { IsRise
        (eyes_of D.told worker.old.viewer door.old) (eyes_of D.told worker.new.viewer door.new) }
    ensures looks { (D.told door.new).looks ≡ (D.told door.old).looks }
    ensures faults { (D.told door.new).faults ≡ (D.told door.old).faults }
    ensures same { (worker.new.viewer.seen ≡ worker.old.viewer.seen)
        × (worker.new.count ≡ worker.old.count) × (worker.new.number ≡ worker.old.number) }
    ensures asked { (D.told door.new).asked ≡ (D.told door.old).asked }
{
    while let Some(note) = notes.next() {
        worker.learn(door, &note);
    }
}
