//! How a command ends, and how that is said.
ghost use Rattle.std.specs.Prelude.{◌≡◌, ◌≢◌, ◌↔◌, ◌⊎◌, ◌≤◌, [], ◌∷◌, Err};
ghost use Rattle.outside.specs.Faults.{BothTell, Rose};
ghost use Rattle.glb.specs.Outcome.{HasText, IsSaid, RunsBy, Speaks};
ghost use Rattle.glb.specs.Ending.{EndsBy, IsReport};

use crate::status::Status;
use no_memory::NoMemory;
use outside::{Put, Sink};

/// What a command has to say: its status, and its text.
#[derive(Drop)]
pub struct Report {
    pub status: Status,
    pub text: Vec<u8>,
}

/// Why a command stopped ahead of its end.
#[derive(Drop)]
pub enum Stop {
    /// A file is too long or at fault. This is the text of its refusal.
    Refused(Vec<u8>),
    /// A file could not be loaded.
    SourceFault,
    /// There was no memory.
    NoMemory,
}

impl From<NoMemory> for Stop {
    ghost use Rattle.std.specs.Prelude.{◌≡◌};
    ghost use Rattle.glb.specs.declared.ending.Stop.TheVariants as stop;

    ghost from_gives = { λ _ s. s ≡ stop.NoMemory };

    fn from(_: NoMemory) -> Stop {
        Stop::NoMemory
    }
}

/// Puts a text, and answers its status unless that fails.
pub fn say<K: Sink>(out: &mut K, status: Status, text: &[u8]) -> Status
    ensures run { Speaks (λ due. due ≡ record { status = status; pieces = text.now ∷ [] })
        (K.told out.old).past (K.told out.new).past result }
    ensures status { result ≡ status ⊎ result ≡ Status.SinkFault }
    ensures later { (K.told out.old).faults ≤ (K.told out.new).faults }
    ensures stays { result ≢ Status.SinkFault → (K.told out.new).faults ≡ (K.told out.old).faults }
    ensures cause { HasText status → result ≡ Status.SinkFault
        → Rose (K.told out.old).faults (K.told out.new).faults }
{
    match out.put(text) {
        Put::Done => status,
        Put::Failed => Status::SinkFault,
    }
}

/// Says how a command ended.
pub fn finish<K: Sink>(out: &mut K, ended: Result<Report, Stop>) -> Status
    requires { EndsBy IsSaid ended }
    ensures run { RunsBy (IsReport ended) (K.told out.old).past (K.told out.new).past result }
    ensures later { (K.told out.old).faults ≤ (K.told out.new).faults }
    ensures stays { result ≢ Status.SinkFault → (K.told out.new).faults ≡ (K.told out.old).faults }
    ensures cause { result ≡ Status.SinkFault
        → Rose (K.told out.old).faults (K.told out.new).faults }
    ensures source { (result ≡ Status.SourceFault) ↔ (ended ≡ Err Stop.SourceFault) }
    ensures memory { (result ≡ Status.NoMemory) ↔ (ended ≡ Err Stop.NoMemory) }
{
    match ended {
        Ok(report) => say(out, report.status, report.text.as_slice()),
        Err(Stop::Refused(text)) => say(out, Status::Refused, text.as_slice()),
        Err(Stop::SourceFault) => Status::SourceFault,
        Err(Stop::NoMemory) => Status::NoMemory,
    }
}
