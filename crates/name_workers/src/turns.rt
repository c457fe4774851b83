//! A lane's turns: the gate is asked, notes are learned, and what comes next is taken and answered.
ghost use Rattle.std.specs.Prelude.{◌≡◌};
ghost use Rattle.name_workers.specs.Loop.{IsFreshCall, IsTurned, loop_moment_of, place_of};

use crate::ending::{Step, next_end};
use crate::learning::learn_all;
use crate::takes::Takes;
use crate::worker::Worker;
use lane_model::Ended;
use map_cell::{Door, Naming, Note};
use outside::{Gate, Notes, Turning};

fn one_turn<J: Naming, P, T: Takes<P>, G: Gate, D: Door, N: Notes<Note<J>>>(
    worker: &mut Worker<J>,
    port: &mut P,
    gate: &mut G,
    door: &mut D,
    notes: &mut N,
    room: &mut T,
) -> Step
    requires ready { T.taking.is_ready room.old }
    ensures ready { T.taking.is_ready room.new }
    ensures turned { IsTurned T.taking worker.old.number result
        (loop_moment_of G.told N.told gate.old notes.old (place_of D.told worker.old.viewer
        worker.old.count door.old room.old port.old))
        (loop_moment_of G.told N.told gate.new notes.new (place_of D.told worker.new.viewer
        worker.new.count door.new room.new port.new)) }
    ensures number { worker.new.number ≡ worker.old.number }
    ensures asked { (D.told door.new).asked ≡ (D.told door.old).asked }
{
    if let Turning::Stop = gate.turn(worker.known()) {
        return Step::Stopped;
    }
    learn_all(worker, door, notes);
    room.take(port, worker, door)
}

/// The turns of a lane, and its room behind them.
pub fn serve_turns<J: Naming, P, T: Takes<P>, G: Gate, D: Door, N: Notes<Note<J>>>(
    worker: &mut Worker<J>,
    port: &mut P,
    gate: &mut G,
    door: &mut D,
    notes: &mut N,
    turns: u64,
) -> (Ended, T)
    ensures call { IsFreshCall T.taking worker.old.number turns
        (λ room. loop_moment_of G.told N.told gate.old notes.old (place_of D.told
        worker.old.viewer worker.old.count door.old room port.old))
        (loop_moment_of G.told N.told gate.new notes.new (place_of D.told worker.new.viewer
        worker.new.count door.new result.1 port.new)) result.0 }
    ensures number { worker.new.number ≡ worker.old.number }
    ensures asked { (D.told door.new).asked ≡ (D.told door.old).asked }
{
    // tells the prover what the type keeps
    let _ = worker.known();
    let mut room = T::fresh();
    let mut failed = 0u8;
    for _ in 0..turns {
        let step = one_turn(worker, port, gate, door, notes, &mut room);
        if let Some(ended) = next_end(step, &mut failed) {
            return (ended, room);
        }
    }
    (Ended::Spent, room)
}
