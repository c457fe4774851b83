//! `glb places`: how many units stand at each place by a map from scratch.
ghost use Rattle.std.specs.Prelude.{◌≢◌, Err, IfOk, List};
ghost use Rattle.map_model.specs.declared.lines.MapLine.{MapLine};
ghost use Rattle.map_model.specs.Allocation.{IsGood, names_of};
ghost use Rattle.map_model.specs.Progress.{IsGroupBest};
ghost use Rattle.evict.specs.Standing.{IsReady};
ghost use Rattle.glb.specs.Loads.{files_between};
ghost use Rattle.glb.specs.Places.{IsPlacesDue, IsSpreadOut, loads_of_places};
ghost use Rattle.glb.specs.Ending.{EndsBy, IsEnd};

use crate::ending::{Report, Stop};
use crate::files::load_topology;
use crate::status::Status;
use deferred_accept::run;
use evict::State;
use map_model::{Instance, Proposals, Steps};
use no_memory::NoMemory;
use outside::Shelf;
use place_counts::write_places;
use std::alloc::Global;
use topology_text::Topology;

/// The state of a good map, from scratch.
fn state_afresh(alloc: Global, instance: &Instance) -> Result<State, NoMemory>
    ensures ready { IfOk result (λ state. IsReady instance.now state) }
    ensures good { IfOk result
        (λ state. IsGood instance.now state.lines (names_of instance.now state.lines)) }
    ensures best { IfOk result (λ state. IsGroupBest instance.now state.lines) }
{
    let mut state = State::fresh(alloc, instance)?;
    let mut steps = Steps::<Proposals>::new();
    run(alloc, instance, &mut state, &mut steps)?;
    Ok(state)
}

/// How many units stand at each place, as what is to be said.
fn report(alloc: Global, topology: &Topology) -> Result<Report, Stop>
    ensures ended { EndsBy (IsSpreadOut topology.now) result }
    ensures source { result ≢ Err Stop.SourceFault }
{
    let instance = topology.instance();
    let state = state_afresh(alloc, instance)?;
    let text = write_places(alloc, instance, &state)?;
    Ok(Report {
        status: Status::Ok,
        text,
    })
}

/// How many units stand at each place by a group-best map for the instance of the topology of a file.
pub fn places_files<F: Shelf>(alloc: Global, files: &mut F, topology: &str) -> Result<Report, Stop>
    ensures { IsEnd (loads_of_places topology.now) (IsPlacesDue topology.now
        (files_between (F.told files.old).past (F.told files.new).past))
        (F.told files.old) (F.told files.new) result }
{
    let topology = load_topology(alloc, files, topology)?;
    report(alloc, &topology)
}
