//! What the program says.
ghost use Rattle.std.specs.Prelude.{◌≡◌, ◌++◌, [], ◌∷◌, IfOk, Some};
ghost use Rattle.std.specs.Fmt.{decimal};
ghost use Rattle.glb.specs.Texts as text;
ghost use Rattle.glb.specs.Ending.{IsNameable};

use demand_feed::ChangesFault;
use map_model::Offer;
use map_text::{MapFault, pool_name};
use no_memory::NoMemory;
use stable_check::Verdict;
use std::alloc::Global;
use topology_text::{Topology, TopologyFault};

/// A text and the end of its line.
pub fn line(alloc: Global, words: &[u8]) -> Result<Vec<u8>, NoMemory>
    ensures { IfOk result (λ t. t.items ≡ text.line words.now) }
{
    let mut line = Vec::from_slice(alloc, words)?;
    line.push(b'\n')?;
    Ok(line)
}

/// What is written of a topology at fault.
pub fn topology_fault_text(alloc: Global, fault: TopologyFault) -> Result<Vec<u8>, NoMemory>
    ensures { IfOk result (λ t. t.items ≡ text.topology_fault fault) }
{
    let words = format!(in alloc; "refused topology {fault}\n")?;
    Ok(words.into_bytes())
}

/// What is written of a map's text at fault.
pub fn map_fault_text(alloc: Global, fault: MapFault) -> Result<Vec<u8>, NoMemory>
    ensures { IfOk result (λ t. t.items ≡ text.map_fault fault) }
{
    let words = format!(in alloc; "refused map {fault}\n")?;
    Ok(words.into_bytes())
}

/// What is written of a changes file at fault.
pub fn changes_fault_text(alloc: Global, fault: ChangesFault) -> Result<Vec<u8>, NoMemory>
    ensures { IfOk result (λ t. t.items ≡ text.changes_fault fault) }
{
    let words = format!(in alloc; "refused changes {fault}\n")?;
    Ok(words.into_bytes())
}

fn numbered(alloc: Global, words: &[u8], number: u64) -> Result<Vec<u8>, NoMemory>
    ensures { IfOk result (λ t. t.items ≡ words.now ++ decimal number) }
{
    let mut line = Vec::from_slice(alloc, words)?;
    let number = number.to_string(alloc)?;
    line.extend_from_slice(number.as_bytes())?;
    Ok(line)
}

fn named(alloc: Global, words: &[u8], name: &[u8]) -> Result<Vec<u8>, NoMemory>
    ensures { IfOk result (λ t. t.items ≡ words.now ++ name.now ++ 32 ∷ []) }
{
    let mut line = Vec::from_slice(alloc, words)?;
    line.extend_from_slice(name)?;
    line.push(b' ')?;
    Ok(line)
}

/// What is written of a verdict.
pub fn verdict_text(
    alloc: Global,
    topology: &Topology,
    verdict: Verdict,
) -> Result<Vec<u8>, NoMemory>
    requires { IsNameable topology.now.market verdict }
    ensures { IfOk result (λ t. t.items ≡ text.verdict topology.now verdict) }
{
    let words = match verdict {
        Verdict::Good => Vec::from_slice(alloc, b"good")?,
        Verdict::BadLine { index } => numbered(alloc, b"bad line ", index as u64)?,
        Verdict::OverDemand { group, placed } => {
            let words = named(alloc, b"over demand ", topology.group_name(group))?;
            numbered(alloc, words.as_slice(), placed)?
        }
        Verdict::OverLimit {
            group,
            place,
            amount,
        } => {
            let pool = pool_name(topology, Offer { group, place });
            let words = named(alloc, b"over limit ", topology.group_name(group))?;
            let words = named(alloc, words.as_slice(), pool)?;
            numbered(alloc, words.as_slice(), amount)?
        }
        Verdict::OverCapacity { node, load } => {
            let words = named(alloc, b"over capacity ", topology.node_name(node))?;
            numbered(alloc, words.as_slice(), load)?
        }
        Verdict::Blocking { group, place } => {
            let mut words = named(alloc, b"blocking ", topology.group_name(group))?;
            words.extend_from_slice(pool_name(topology, Offer { group, place }))?;
            words
        }
        Verdict::BadName { index } => numbered(alloc, b"bad name ", index as u64)?,
    };
    line(alloc, words.as_slice())
}

/// What is written of a reply.
pub fn answer_text(alloc: Global, octets: &[u8]) -> Result<Vec<u8>, NoMemory>
    ensures { IfOk result (λ t. t.items ≡ text.answer (Some octets.now)) }
{
    let digits = hex::encode(alloc, octets)?;
    let mut words = Vec::from_slice(alloc, b"answer ")?;
    words.extend_from_slice(digits.as_bytes())?;
    line(alloc, words.as_slice())
}
