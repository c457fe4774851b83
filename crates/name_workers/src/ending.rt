//! Whether a lane ends: its turns, and the count of calls that failed.
ghost use Rattle.std.specs.Prelude.{◌<◌};
ghost use Rattle.name_workers.specs.Ending.{IsNextEnd};

use lane_model::Ended;

/// How many failed calls of its port end a lane.
const MOST_FAILURES: u8 = 8;

/// What became of a turn.
#[derive(Clone, Copy)]
pub enum Step {
    /// The gate answered Stop.
    Stopped,
    /// The lane goes on.
    On,
    /// The port answered End.
    PortEnd,
    /// A call of the port failed.
    PortFailed,
    /// The look for the map that was to answer was refused.
    Refused,
}

/// How a lane ends with a turn, if it does. `failed` counts the calls of the port that failed: the eighth ends the lane.
pub fn next_end(step: Step, failed: &mut u8) -> Option<Ended>
    requires { failed.old < 8 }
    ensures { IsNextEnd step failed.old failed.new result }
{
    match step {
        Step::On => None,
        Step::Stopped => Some(Ended::Stopped),
        Step::PortEnd => Some(Ended::PortEnd),
        Step::Refused => Some(Ended::CellFault),
        Step::PortFailed => {
            *failed += 1;
            if *failed == MOST_FAILURES {
                Some(Ended::PortFault)
            } else {
                None
            }
        }
    }
}
