//! The events of the machine, and why one is refused.
ghost use Rattle.std.specs.Prelude.{◌≡◌};

use crate::octets::Octets;
use addr_text::Peer;
use answer_core::Way;
use demand_feed::Batch;
use map_model::MapLines;
use no_memory::NoMemory;
use stable_check::Verdict;

/// One atomic step of one actor.
#[derive(Drop)]
pub enum Event {
    /// A map is published for the newest numbers as the batch changes them.
    Commit(Batch, MapLines),
    /// The lane of that number learns of a serial.
    Tell(u8, u64),
    /// The lane of that number takes a datagram from a sender, and answers it from the version of that serial, by that way.
    Take(u8, Octets, Peer, u64, Way),
}

/// Why an event was not taken. After it all is as before.
#[derive(Clone, Copy, Debug, PartialEq, Eq)]
pub enum StepFault {
    /// There is no lane of that number.
    NoLane,
    /// The map is not good for the numbers that it was to be published for.
    NotGood(Verdict),
    /// The serial is above the newest one.
    Ahead { serial: u64, newest: u64 },
    /// The lane has seen or was told of a newer serial.
    Behind { serial: u64, seen: u64 },
    /// There was no memory. This says nothing of the event.
    NoMemory,
}

impl From<NoMemory> for StepFault {
    ghost use Rattle.std.specs.Prelude.{◌≡◌};
    ghost use Rattle.serve_core.specs.declared.event.StepFault.TheVariants as fault;

    ghost from_gives = { λ _ e. e ≡ fault.NoMemory };

    fn from(_: NoMemory) -> StepFault {
        StepFault::NoMemory
    }
}
