//! `glb map`: a good map, from scratch.
ghost use Rattle.std.specs.Prelude.{◌≢◌, Err, IfOk};
ghost use Rattle.map_model.specs.Allocation.{IsGood, IsMapForm};
ghost use Rattle.mapper.specs.Mappers.{IsFromScratch};
ghost use Rattle.glb.specs.Loads.{files_between};
ghost use Rattle.glb.specs.Map.{IsMapDue, IsMapped, loads_of_map};
ghost use Rattle.glb.specs.Ending.{EndsBy, IsEnd};

use crate::ending::{Report, Stop};
use crate::files::load_topology;
use crate::status::Status;
use deferred_accept::{finish, run};
use evict::State;
use map_model::{Instance, MapLines, Proposals, Steps};
use map_text::write_map;
use no_memory::NoMemory;
use outside::Shelf;
use std::alloc::Global;
use topology_text::Topology;

/// A good map for an instance, from scratch.
fn map_afresh(alloc: Global, instance: &Instance) -> Result<MapLines, NoMemory>
    ensures good { IfOk result (λ map. IsGood instance.now map.lines.items map.names.items) }
    ensures scratch { IfOk result (λ map. IsFromScratch instance.now map.lines.items) }
    ensures form { IfOk result (λ map. IsMapForm instance.now map.lines.items map.names.items) }
{
    let mut state = State::fresh(alloc, instance)?;
    let mut steps = Steps::<Proposals>::new();
    run(alloc, instance, &mut state, &mut steps)?;
    finish(alloc, instance, state)
}

/// The text of a good map, as what is to be said.
fn report(alloc: Global, topology: &Topology) -> Result<Report, Stop>
    ensures ended { EndsBy (IsMapped topology.now) result }
    ensures source { result ≢ Err Stop.SourceFault }
{
    let map = map_afresh(alloc, topology.instance())?;
    let text = write_map(alloc, topology, &map)?;
    Ok(Report {
        status: Status::Ok,
        text,
    })
}

/// A good map for the instance of the topology of a file.
pub fn map_files<F: Shelf>(alloc: Global, files: &mut F, topology: &str) -> Result<Report, Stop>
    ensures { IsEnd (loads_of_map topology.now) (IsMapDue topology.now
        (files_between (F.told files.old).past (F.told files.new).past))
        (F.told files.old)
        (F.told files.new) result }
{
    let topology = load_topology(alloc, files, topology)?;
    report(alloc, &topology)
}
