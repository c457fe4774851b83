//! Who takes what comes to a lane.
ghost use Rattle.std.specs.Prelude.{◌≡◌};
ghost use Rattle.name_workers.specs.Loop.{IsTook, Taking, place_of};

use crate::ending::Step;
use crate::worker::Worker;
use map_cell::{Door, Naming};

/// Room in which what comes to a port is taken and answered.
pub trait Takes<P>: Drop {
    ghost use Rattle.name_workers.specs.Loop.{Taking};

    /// By what a take is told.
    ghost Took: { Type 0 };

    /// What it takes.
    ghost taking: { Taking Took Self P };

    /// Room before the first take.
    fn fresh() -> Self
        ensures fresh { taking.is_fresh result }
        ensures ready { taking.is_ready result };

    /// Takes what comes next, and answers it.
    fn take<J: Naming, D: Door>(
        &mut self,
        port: &mut P,
        worker: &mut Worker<J>,
        door: &mut D,
    ) -> Step
        requires ready { taking.is_ready self.old }
        ensures ready { taking.is_ready self.new }
        ensures took { IsTook taking worker.old.number result
            (place_of D.told worker.old.viewer worker.old.count door.old self.old port.old)
            (place_of D.told worker.new.viewer worker.new.count door.new self.new port.new) }
        ensures number { worker.new.number ≡ worker.old.number }
        ensures asked { (D.told door.new).asked ≡ (D.told door.old).asked };
}
