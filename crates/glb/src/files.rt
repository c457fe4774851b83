//! The files of a command, each loaded and read, or refused with its text.
ghost use Rattle.std.specs.Prelude.{◌≡◌, ◌≢◌, ◌≤◌, [], ◌∷◌, Ok, Err, IfErr, IfOk, MatchResult};
ghost use Rattle.map_model.specs.Batch.{IsBatch};
ghost use Rattle.outside.specs.Faults.{BothTell, Rose};
ghost use Rattle.glb.specs.Loads.{AreLoadsOf};
ghost use Rattle.glb.specs.Files.{changes_file, changes_read, map_file, mapped_of, refused, topology_file, topology_of};
ghost use Rattle.map_text.specs.Writing.{mapped};
ghost use Rattle.glb.specs.Ending.{AreBytes, IsReading, IsRefusedBy, IsTooLong, StopsBy};
ghost use Rattle.glb.specs.Texts as text;

use crate::ending::Stop;
use crate::text::{changes_fault_text, line, map_fault_text, topology_fault_text};
use demand_feed::{Batch, ChangesFault, read_changes};
use map_model::MapLines;
use map_text::{MapFault, read_map};
use no_memory::NoMemory;
use outside::{LoadFault, Shelf};
use std::alloc::Global;
use topology_text::{Topology, TopologyFault, read_topology};

/// The most octets of a topology.
const TOPOLOGY_LIMIT: usize = 64 * 1024 * 1024;

/// The most octets of a map.
const MAP_LIMIT: usize = 256 * 1024 * 1024;

/// The most octets of a changes file.
const CHANGES_LIMIT: usize = 1024 * 1024;

/// A refusal, with its text where there was memory for that.
fn refuse(text: Result<Vec<u8>, NoMemory>) -> Stop
    ensures said { StopsBy (λ due. MatchResult text (λ t. due ≡ refused t.items) (λ _. ⊥)) result }
    ensures source { result ≢ Stop.SourceFault }
{
    match text {
        Ok(text) => Stop::Refused(text),
        Err(NoMemory) => Stop::NoMemory,
    }
}

/// The refusal of a topology.
fn refuse_topology(alloc: Global, fault: TopologyFault) -> Stop
    ensures said { StopsBy (λ due. (fault ≢ TopologyFault.NoMemory)
        × (due ≡ refused (text.topology_fault fault))) result }
    ensures source { result ≢ Stop.SourceFault }
{
    match fault {
        TopologyFault::NoMemory => Stop::NoMemory,
        _ => refuse(topology_fault_text(alloc, fault)),
    }
}

/// What the bytes of a topology say.
fn parse_topology(alloc: Global, bytes: &[u8]) -> Result<Topology, Stop>
    ensures said { MatchResult result (λ t. topology_of bytes.now ≡ Ok t)
        (StopsBy (IsRefusedBy (topology_of bytes.now))) }
    ensures source { IfErr result (λ s. s ≢ Stop.SourceFault) }
{
    match read_topology(alloc, bytes) {
        Ok(topology) => Ok(topology),
        Err(fault) => Err(refuse_topology(alloc, fault)),
    }
}

fn refuse_map(alloc: Global, fault: MapFault) -> Stop
    ensures said { StopsBy (λ due. (fault ≢ MapFault.NoMemory)
        × (due ≡ refused (text.map_fault fault))) result }
    ensures source { result ≢ Stop.SourceFault }
{
    match fault {
        MapFault::NoMemory => Stop::NoMemory,
        _ => refuse(map_fault_text(alloc, fault)),
    }
}

/// What the bytes of a map say over a topology.
fn parse_map(alloc: Global, topology: &Topology, bytes: &[u8]) -> Result<MapLines, Stop>
    ensures said { MatchResult result (λ m. mapped_of topology.now bytes.now ≡ Ok (mapped m))
        (StopsBy (IsRefusedBy (mapped_of topology.now bytes.now))) }
    ensures source { IfErr result (λ s. s ≢ Stop.SourceFault) }
{
    match read_map(alloc, topology, bytes) {
        Ok(map) => Ok(map),
        Err(fault) => Err(refuse_map(alloc, fault)),
    }
}

fn refuse_changes(alloc: Global, fault: ChangesFault) -> Stop
    ensures said { StopsBy (λ due. (fault ≢ ChangesFault.NoMemory)
        × (due ≡ refused (text.changes_fault fault))) result }
    ensures source { result ≢ Stop.SourceFault }
{
    match fault {
        ChangesFault::NoMemory => Stop::NoMemory,
        _ => refuse(changes_fault_text(alloc, fault)),
    }
}

/// What the bytes of a changes file say of a topology.
fn parse_changes(alloc: Global, topology: &Topology, bytes: &[u8]) -> Result<Batch, Stop>
    ensures said { MatchResult result (λ b. changes_read topology.now bytes.now ≡ Ok b)
        (StopsBy (IsRefusedBy (changes_read topology.now bytes.now))) }
    ensures batch { IfOk result (IsBatch topology.now.market) }
    ensures source { IfErr result (λ s. s ≢ Stop.SourceFault) }
{
    match read_changes(alloc, topology, bytes) {
        Ok(batch) => Ok(batch),
        Err(fault) => Err(refuse_changes(alloc, fault)),
    }
}

/// The bytes of a file, or its refusal where they are too many.
fn load_file<F: Shelf>(
    alloc: Global,
    files: &mut F,
    name: &str,
    limit: usize,
    too_long: &[u8],
) -> Result<Vec<u8>, Stop>
    ensures noted { BothTell (F.told files.old).past (F.told files.new).past
        (AreLoadsOf (λ _. record { name = name.now; limit = limit } ∷ [])) }
    ensures bytes { MatchResult result (λ b.
        AreBytes (F.told files.old).past (F.told files.new).past name.now limit b.items)
        (StopsBy (IsTooLong (F.told files.old).past (F.told files.new).past
        name.now limit (text.line too_long.now))) }
    ensures later { (F.told files.old).faults ≤ (F.told files.new).faults }
    ensures cause { result ≡ Err Stop.SourceFault
        → Rose (F.told files.old).faults (F.told files.new).faults }
    ensures stays { result ≢ Err Stop.SourceFault
        → (F.told files.new).faults ≡ (F.told files.old).faults }
{
    match files.load(alloc, name, limit) {
        Ok(bytes) => Ok(bytes),
        Err(LoadFault::TooLong) => Err(refuse(line(alloc, too_long))),
        Err(LoadFault::Failed) => Err(Stop::SourceFault),
        Err(LoadFault::NoMemory) => Err(Stop::NoMemory),
    }
}

/// The topology of that name.
pub fn load_topology<F: Shelf>(alloc: Global, files: &mut F, name: &str) -> Result<Topology, Stop>
    ensures { IsReading topology_file (λ t. t) name.now
        (F.told files.old)
        (F.told files.new) result }
{
    let too_long = b"refused topology too long";
    let bytes = load_file(alloc, files, name, TOPOLOGY_LIMIT, too_long)?;
    parse_topology(alloc, bytes.as_slice())
}

/// The map of that name, over a topology.
pub fn load_map<F: Shelf>(
    alloc: Global,
    files: &mut F,
    name: &str,
    topology: &Topology,
) -> Result<MapLines, Stop>
    ensures { IsReading (map_file topology.now) mapped name.now
        (F.told files.old)
        (F.told files.new) result }
{
    let bytes = load_file(alloc, files, name, MAP_LIMIT, b"refused map too long")?;
    parse_map(alloc, topology, bytes.as_slice())
}

/// The changes of that name, of a topology.
pub fn load_changes<F: Shelf>(
    alloc: Global,
    files: &mut F,
    name: &str,
    topology: &Topology,
) -> Result<Batch, Stop>
    ensures reading { IsReading (changes_file topology.now) (λ b. b) name.now
        (F.told files.old)
        (F.told files.new) result }
    ensures batch { IfOk result (IsBatch topology.now.market) }
{
    let too_long = b"refused changes too long";
    let bytes = load_file(alloc, files, name, CHANGES_LIMIT, too_long)?;
    parse_changes(alloc, topology, bytes.as_slice())
}
