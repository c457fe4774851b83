//! `glb answer`: the reply of a map to a datagram.
ghost use Rattle.std.specs.Prelude.{◌≡◌, ◌≢◌, Err, IfOk};
ghost use Rattle.map_model.specs.Allocation.{IsGood};
ghost use Rattle.published_map.specs.Version.{IsVersion};
ghost use Rattle.map_text.specs.Writing.{mapped};
ghost use Rattle.glb.specs.Loads.{files_between};
ghost use Rattle.glb.specs.Answer.{IsAnswerDue, IsAnswered, IsReplied, answer_of, version_of};
ghost use Rattle.glb.specs.Check.{loads_of_check};
ghost use Rattle.glb.specs.Ending.{EndsBy, IsEnd, outcome_of};
ghost use Rattle.glb.specs.Texts as text;

use crate::check::{judge, not_good};
use crate::ending::{Report, Stop};
use crate::files::{load_map, load_topology};
use crate::status::Status;
use crate::text::{answer_text, line};
use addr_text::Addr;
use answer_core::{Answer, Way, reply};
use arrayvec::ArrayVec;
use map_model::MapLines;
use no_memory::NoMemory;
use outside::Shelf;
use published_map::{MapVersion, Shared};
use stable_check::Verdict;
use std::alloc::Global;
use topology_text::Topology;

/// The draw by which `answer` picks a pool.
const DRAW: u64 = 0;

/// A map over a topology as it was read, as version 0.
fn first_version(alloc: Global, topology: Topology, map: MapLines) -> Result<MapVersion, NoMemory>
    requires { IsGood topology.market map.lines.items map.names.items }
    ensures value { IfOk result (λ v. v ≡ version_of topology (mapped map)) }
    ensures version { IfOk result IsVersion }
{
    let instance = topology.instance().try_clone()?;
    let shared = Shared::build(alloc, topology)?;
    MapVersion::make(alloc, 0, &instance, &map, shared)
}

/// The text of a version's reply to octets from an address.
#[tactic(auto, unfolding(crate::specs::Answer::answer_of))]
fn reply_text(
    alloc: Global,
    version: &MapVersion,
    from: Addr,
    octets: &[u8],
) -> Result<Vec<u8>, NoMemory>
    requires { IsVersion version.now }
    ensures { IfOk result
        (λ t. t.items ≡ text.answer
        (answer_of version.now (record { from = from; octets = octets.now }))) }
{
    let mut out = ArrayVec::new();
    match reply(version, from, octets, DRAW, Way::Datagram, &mut out) {
        Answer::Sent => answer_text(alloc, out.as_slice()),
        Answer::Silent => line(alloc, b"answer -"),
    }
}

/// The reply of a good map, as what is to be said.
fn replied(
    alloc: Global,
    topology: Topology,
    map: MapLines,
    from: Addr,
    octets: &[u8],
) -> Result<Report, NoMemory>
    requires { IsGood topology.market map.lines.items map.names.items }
    ensures { IfOk result
        (λ r. IsReplied topology (mapped map) (record { from = from; octets = octets.now })
        (outcome_of r)) }
{
    let version = first_version(alloc, topology, map)?;
    let text = reply_text(alloc, &version, from, octets)?;
    Ok(Report {
        status: Status::Ok,
        text,
    })
}

/// The reply of a map, or the verdict on it where it is not good.
fn report(
    alloc: Global,
    topology: Topology,
    map: MapLines,
    from: Addr,
    octets: &[u8],
) -> Result<Report, Stop>
    ensures ended { EndsBy
        (IsAnswered (record { from = from; octets = octets.now }) topology (mapped map)) result }
    ensures source { result ≢ Err Stop.SourceFault }
{
    match judge(alloc, &topology, &map)? {
        Verdict::Good => Ok(replied(alloc, topology, map, from, octets)?),
        verdict => Ok(not_good(alloc, &topology, verdict)?),
    }
}

/// The reply of the map of a file, over the topology of another, to octets from an address.
pub fn answer_files<F: Shelf>(
    alloc: Global,
    files: &mut F,
    topology: &str,
    map: &str,
    from: Addr,
    octets: &[u8],
) -> Result<Report, Stop>
    ensures { IsEnd (loads_of_check topology.now map.now)
        (IsAnswerDue topology.now map.now (record { from = from; octets = octets.now })
        (files_between (F.told files.old).past (F.told files.new).past)) (F.told files.old)
        (F.told files.new) result }
{
    let topology = load_topology(alloc, files, topology)?;
    let map = load_map(alloc, files, map, &topology)?;
    report(alloc, topology, map, from, octets)
}
