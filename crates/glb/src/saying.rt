//! Commands that say one text on what files say.
ghost use Rattle.std.specs.Prelude.{◌≡◌, ◌≢◌, ◌≤◌, ◌⊎◌, IsSomeAnd, option_map};
ghost use Rattle.outside.specs.Faults.{BothTell, Rose};
ghost use Rattle.glb.specs.Loads.{AreLoaded, AreLoadsOf, files_between};
ghost use Rattle.glb.specs.Outcome.{HasExactCauses, IsSaid};
ghost use Rattle.glb.specs.Run.{IsDue, IsGoodRun, IsSayingRun, IsSound, loads_of, loads_of_ask};
ghost use Rattle.glb.specs.Commands.{ask_of};
ghost use Rattle.glb.specs.Ending.{EndsBy, IsEnd};

use crate::answer::answer_files;
use crate::check::check_files;
use crate::ending::{Report, Stop, finish, say};
use crate::map::map_files;
use crate::placing::places_files;
use crate::repair::repair_files;
use crate::status::Status;
use crate::words::Command;
use outside::{Shelf, Sink};
use std::alloc::Global;

const USAGE: &[u8] = b"usage: glb check, answer, map, repair, serve or large\n";

/// Does what a command asks for, up to its text.
fn run_command<F: Shelf>(alloc: Global, files: &mut F, command: Command<'_>) -> Result<Report, Stop>
    ensures end { IsEnd (loads_of_ask (ask_of command.entry))
        (IsDue (ask_of command.entry)
        (files_between (F.told files.old).past (F.told files.new).past))
        (F.told files.old)
        (F.told files.new) result }
    ensures said { EndsBy IsSaid result }
{
    match command {
        Command::Check { topology, map } => check_files(alloc, files, topology, map),
        Command::Map { topology } => map_files(alloc, files, topology),
        Command::Places { topology } => places_files(alloc, files, topology),
        Command::Answer {
            topology,
            map,
            from,
            octets,
        } => answer_files(alloc, files, topology, map, from, octets.as_slice()),
        Command::Repair {
            topology,
            map,
            changes,
        } => repair_files(alloc, files, topology, map, changes),
    }
}

/// Does what a command asks for, or says that the words are not taken, over files and one output.
pub fn run_files<F: Shelf, K: Sink>(
    alloc: Global,
    command: Option<Command<'_>>,
    files: &mut F,
    out: &mut K,
) -> Status
    ensures run { IsSayingRun (option_map ask_of command.entry)
        (record { files = F.told files.old; out = K.told out.old })
        (record { files = F.told files.new; out = K.told out.new }) result }
    ensures noted { BothTell (F.told files.old).past (F.told files.new).past
        (AreLoadsOf (loads_of (option_map ask_of command.entry))) }
    ensures loaded { result ≢ Status.SourceFault → result ≢ Status.NoMemory
        → BothTell (F.told files.old).past (F.told files.new).past
        (AreLoaded (loads_of (option_map ask_of command.entry))) }
    ensures causes { HasExactCauses
        (record { files = F.told files.old; out = K.told out.old })
        (record { files = F.told files.new; out = K.told out.new }) result }
    ensures good { result ≡ Status.Ok
        → IsGoodRun (option_map ask_of command.entry)
        (record { files = F.told files.old; out = K.told out.old })
        (record { files = F.told files.new; out = K.told out.new }) }
    ensures complete { IsSomeAnd (F.told files.old).past
        (λ f. IsSomeAnd f.holds (IsSound (option_map ask_of command.entry)))
        → ¬ Rose (F.told files.old).faults (F.told files.new).faults
        → ¬ Rose (K.told out.old).faults (K.told out.new).faults → (result ≡ Status.Ok)
        ⊎ (result ≡ Status.NoMemory) }
{
    match command {
        Some(command) => {
            let ended = run_command(alloc, files, command);
            finish(out, ended)
        }
        None => say(out, Status::Usage, USAGE),
    }
}
