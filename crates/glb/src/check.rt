//! `glb check`: the verdict on a map.
ghost use Rattle.std.specs.Prelude.{◌≡◌, ◌≢◌, [], ◌∷◌, Err, IfOk};
ghost use Rattle.stable_check.specs.Judgement.{Judges};
ghost use Rattle.map_text.specs.Writing.{mapped};
ghost use Rattle.glb.specs.Loads.{files_between};
ghost use Rattle.glb.specs.Check.{IsCheckDue, IsJudged, loads_of_check, status_of_verdict};
ghost use Rattle.glb.specs.Texts as text;
ghost use Rattle.glb.specs.Ending.{EndsBy, IsEnd, IsNameable, outcome_of};

use crate::ending::{Report, Stop};
use crate::files::{load_map, load_topology};
use crate::status::Status;
use crate::text::verdict_text;
use map_model::MapLines;
use no_memory::NoMemory;
use outside::Shelf;
use stable_check::{CheckRoom, Verdict, check};
use std::alloc::Global;
use topology_text::Topology;

fn status_of_verdict(verdict: Verdict) -> Status
    ensures { result ≡ status_of_verdict verdict }
{
    match verdict {
        Verdict::Good => Status::Ok,
        _ => Status::NotGood,
    }
}

/// The verdict on a map. What it names is there.
pub fn judge(alloc: Global, topology: &Topology, map: &MapLines) -> Result<Verdict, NoMemory>
    ensures judged { IfOk result
        (Judges topology.now.market map.now.lines.items map.now.names.items) }
    ensures nameable { IfOk result (IsNameable topology.now.market) }
{
    let mut room = CheckRoom::new(alloc, topology.instance())?;
    Ok(check(topology.instance(), map, &mut room))
}

/// A verdict other than good, as what is to be said.
pub fn not_good(alloc: Global, topology: &Topology, verdict: Verdict) -> Result<Report, NoMemory>
    requires { IsNameable topology.now.market verdict }
    ensures { IfOk result
        (λ r. outcome_of r ≡ record {
          status = Status.NotGood;
          pieces = text.verdict topology.now verdict ∷ [];
        }) }
{
    let text = verdict_text(alloc, topology, verdict)?;
    Ok(Report {
        status: Status::NotGood,
        text,
    })
}

/// The verdict on a map, as what is to be said.
fn report(alloc: Global, topology: &Topology, map: &MapLines) -> Result<Report, Stop>
    ensures ended { EndsBy (IsJudged topology.now (mapped map.now)) result }
    ensures source { result ≢ Err Stop.SourceFault }
{
    let verdict = judge(alloc, topology, map)?;
    let text = verdict_text(alloc, topology, verdict)?;
    Ok(Report {
        status: status_of_verdict(verdict),
        text,
    })
}

/// Whether the map of a file is good for the instance of the topology of another.
pub fn check_files<F: Shelf>(
    alloc: Global,
    files: &mut F,
    topology: &str,
    map: &str,
) -> Result<Report, Stop>
    ensures { IsEnd (loads_of_check topology.now map.now)
        (IsCheckDue topology.now map.now
        (files_between (F.told files.old).past (F.told files.new).past))
        (F.told files.old)
        (F.told files.new) result }
{
    let topology = load_topology(alloc, files, topology)?;
    let map = load_map(alloc, files, map, &topology)?;
    report(alloc, &topology, &map)
}
