//! `glb repair`: a good map for changed numbers, which keeps what they leave alone.
ghost use Rattle.std.specs.Prelude.{◌≢◌, Err, IfOk};
ghost use Rattle.map_model.specs.Allocation.{IsGood};
ghost use Rattle.map_model.specs.Batch.{IsBatch};
ghost use Rattle.map_text.specs.Writing.{mapped};
ghost use Rattle.glb.specs.Loads.{files_between};
ghost use Rattle.glb.specs.Ending.{EndsBy, IsEnd, outcome_of};
ghost use Rattle.glb.specs.Repair.{IsRepairDue, IsRepairOf, IsRepaired, loads_of_repair};

use crate::check::{judge, not_good};
use crate::ending::{Report, Stop};
use crate::files::{load_changes, load_map, load_topology};
use crate::status::Status;
use demand_feed::{Batch, apply};
use map_model::{MapLines, Proposals, Steps};
use map_repair::repair;
use map_text::write_map;
use no_memory::NoMemory;
use outside::Shelf;
use stable_check::Verdict;
use std::alloc::Global;
use topology_text::Topology;

/// The text of a good map, repaired for the numbers as the changes say.
fn repaired(
    alloc: Global,
    topology: &Topology,
    map: &MapLines,
    changes: &Batch,
) -> Result<Report, NoMemory>
    requires good { IsGood topology.now.market map.now.lines.items map.now.names.items }
    requires batch { IsBatch topology.now.market changes.now }
    ensures { IfOk result
        (λ r. IsRepaired topology.now (mapped map.now) changes.now (outcome_of r)) }
{
    let mut instance = topology.instance().try_clone()?;
    apply(&mut instance, changes);
    let mut steps = Steps::<Proposals>::new();
    let map = repair(alloc, topology.instance(), map, &instance, &mut steps)?;
    let text = write_map(alloc, topology, &map)?;
    Ok(Report {
        status: Status::Ok,
        text,
    })
}

/// The repaired map, or the verdict on one that is not good.
fn report(
    alloc: Global,
    topology: &Topology,
    map: &MapLines,
    changes: &Batch,
) -> Result<Report, Stop>
    requires { IsBatch topology.now.market changes.now }
    ensures ended { EndsBy (IsRepairOf topology.now (mapped map.now) changes.now) result }
    ensures source { result ≢ Err Stop.SourceFault }
{
    match judge(alloc, topology, map)? {
        Verdict::Good => Ok(repaired(alloc, topology, map, changes)?),
        verdict => Ok(not_good(alloc, topology, verdict)?),
    }
}

/// The map of a file over the topology of another, repaired for the changes of a third.
pub fn repair_files<F: Shelf>(
    alloc: Global,
    files: &mut F,
    topology: &str,
    map: &str,
    changes: &str,
) -> Result<Report, Stop>
    ensures { IsEnd (loads_of_repair topology.now map.now changes.now)
        (IsRepairDue topology.now map.now changes.now
        (files_between (F.told files.old).past (F.told files.new).past))
        (F.told files.old)
        (F.told files.new) result }
{
    let topology = load_topology(alloc, files, topology)?;
    let map = load_map(alloc, files, map, &topology)?;
    let changes = load_changes(alloc, files, changes, &topology)?;
    report(alloc, &topology, &map, &changes)
}
