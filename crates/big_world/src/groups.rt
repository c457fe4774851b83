//! The groups.
ghost use Rattle.std.specs.Prelude.{◌≡◌, ◌≤◌, ◌<◌, ◌==◌, ◌++◌, [], ◌∷◌, codes, if◌then◌else◌, IfOk, OnOk, string_bytes};
ghost use Rattle.big_world.specs.Numbers.{behind};
ghost use Rattle.big_world.specs.Pieces.{ahead, pieces};
ghost use Rattle.big_world.specs.Topology.{behind_group, demand_line, group_name, group_text, line, name_line, pools_line, pools_of, pools_text, prefixes_line, prefixes_text, scores_line, scores_text};
ghost use Rattle.big_world.specs.declared.TheConstants.{LARGEST_WORLD};

use crate::draws::Pen;
use crate::nodes::{pool_name, push_name, push_number, regions_of};
use no_memory::NoMemory;
use std::alloc::Global;

/// The most pools of a list.
const MOST_POOLS: u32 = 8;

fn pools_of(groups: u32) -> u32
    requires { groups ≤ LARGEST_WORLD }
    ensures pools { result ≡ pools_of groups }
    ensures some { 4 ≤ result }
    ensures few { result ≤ 1028 }
{
    4 * regions_of(groups)
}

/// What stands between two items.
fn push_comma(text: &mut Vec<u8>, item: u32) -> Result<(), NoMemory>
    ensures { OnOk result (text.new.items ≡ text.old.items
        ++ (if item == 0 then [] else (44 ∷ 32 ∷ []))) }
{
    if item > 0 {
        text.extend_from_slice(b", ")?;
    }
    Ok(())
}

/// A list of pools, round all of them from one on.
#[tactic(auto, unfolding(crate::specs::Topology::pools_text))]
fn push_pools(
    alloc: Global,
    text: &mut Vec<u8>,
    groups: u32,
    start: u32,
    length: u32,
) -> Result<(), NoMemory>
    requires groups { groups ≤ LARGEST_WORLD }
    requires start { start < 2048 }
    requires length { length ≤ 8 }
    ensures { OnOk result (text.new.items ≡ text.old.items ++ pools_text groups start length) }
{
    let pools = pools_of(groups);
    for place in 0..length {
        let pool = (start + place) % pools;
        let name = pool_name(alloc, pool / 4, pool % 4)?;
        push_comma(text, place)?;
        text.extend_from_slice(b"\"")?;
        text.extend_from_slice(name.as_bytes())?;
        text.extend_from_slice(b"\"")?;
    }
    Ok(())
}

/// The scores of a list.
#[tactic(auto, unfolding(crate::specs::Topology::scores_text))]
fn push_scores(alloc: Global, pen: &mut Pen, length: u32) -> Result<(), NoMemory>
    ensures text { OnOk result (pen.new.text.items ≡ pen.old.text.items
        ++ scores_text pen.old.draws.last length) }
    ensures last { OnOk result (pen.new.draws.last ≡ behind pen.old.draws.last length) }
{
    for place in 0..length {
        push_comma(&mut pen.text, place)?;
        let score = pen.draws.below(1000);
        push_number(alloc, &mut pen.text, b"", score, b"")?;
    }
    Ok(())
}

#[tactic(auto, unfolding(crate::specs::Topology::prefixes_text))]
fn prefixes_text(alloc: Global, group: u32) -> Result<String, NoMemory>
    requires { group < 65536 }
    ensures { IfOk result (λ t. string_bytes t ≡ prefixes_text group) }
{
    if group == 0 {
        return Ok(format!(in alloc; "\"0.0.0.0/0\", \"::/0\"")?);
    }
    let upper = 64 + group / 256;
    let lower = group % 256;
    Ok(format!(in alloc; "\"100.{upper}.{lower}.0/24\"")?)
}

fn group_name(alloc: Global, group: u32) -> Result<String, NoMemory>
    ensures { IfOk result (λ t. string_bytes t ≡ group_name group) }
{
    Ok(format!(in alloc; "g{group}")?)
}

/// The line of a list of pools.
#[tactic(auto, unfolding(crate::specs::Topology::pools_line))]
fn push_pools_line(
    alloc: Global,
    text: &mut Vec<u8>,
    groups: u32,
    start: u32,
    length: u32,
) -> Result<(), NoMemory>
    requires groups { groups ≤ LARGEST_WORLD }
    requires start { start < 2048 }
    requires length { length ≤ 8 }
    ensures { OnOk result (text.new.items ≡ text.old.items ++ pools_line groups start length) }
{
    text.extend_from_slice(b"pools = [")?;
    push_pools(alloc, text, groups, start, length)?;
    text.extend_from_slice(b"]\n")?;
    Ok(())
}

#[tactic(auto, unfolding(crate::specs::Topology::prefixes_line))]
fn push_prefixes_line(alloc: Global, text: &mut Vec<u8>, group: u32) -> Result<(), NoMemory>
    requires { group < 65536 }
    ensures { OnOk result (text.new.items ≡ text.old.items ++ prefixes_line group) }
{
    text.extend_from_slice(b"prefixes = [")?;
    text.extend_from_slice(prefixes_text(alloc, group)?.as_bytes())?;
    text.extend_from_slice(b"]\n")?;
    Ok(())
}

/// The line of the scores of a list.
#[tactic(auto, unfolding(crate::specs::Topology::scores_line))]
fn push_scores_line(alloc: Global, pen: &mut Pen, length: u32) -> Result<(), NoMemory>
    ensures text { OnOk result (pen.new.text.items ≡ pen.old.text.items
        ++ scores_line pen.old.draws.last length) }
    ensures last { OnOk result (pen.new.draws.last ≡ behind pen.old.draws.last length) }
{
    pen.text.extend_from_slice(b"scores = [")?;
    push_scores(alloc, pen, length)?;
    pen.text.extend_from_slice(b"]\n")?;
    Ok(())
}

/// The lines of a group ahead of its list.
#[tactic(auto, unfolding(crate::specs::Topology::demand_line))]
fn push_head(alloc: Global, text: &mut Vec<u8>, group: u32, demand: u32) -> Result<(), NoMemory>
    ensures { OnOk result (text.new.items ≡ text.old.items ++ line (codes "[[group]]")
        ++ demand_line demand ++ name_line (group_name group)) }
{
    text.extend_from_slice(b"[[group]]\n")?;
    push_number(alloc, text, b"demand = ", demand, b"\n")?;
    push_name(text, group_name(alloc, group)?.as_bytes())?;
    Ok(())
}

#[tactic(auto, unfolding(crate::specs::Topology::group_text, crate::specs::Topology::entry_text))]
fn push_group(alloc: Global, pen: &mut Pen, groups: u32, group: u32) -> Result<(), NoMemory>
    requires groups { groups ≤ LARGEST_WORLD }
    requires group { group < groups }
    ensures text { OnOk result (pen.new.text.items ≡ pen.old.text.items
        ++ group_text groups group pen.old.draws.last) }
    ensures last { OnOk result (pen.new.draws.last ≡ behind_group groups pen.old.draws.last) }
{
    let pools = pools_of(groups);
    let demand = 1 + pen.draws.below(15);
    let length = 1 + pen.draws.below(MOST_POOLS.min(pools));
    let start = pen.draws.below(pools);
    push_head(alloc, &mut pen.text, group, demand)?;
    push_pools_line(alloc, &mut pen.text, groups, start, length)?;
    push_prefixes_line(alloc, &mut pen.text, group)?;
    push_scores_line(alloc, pen, length)?;
    pen.text.extend_from_slice(b"\n")?;
    Ok(())
}

/// All groups.
pub fn push_groups(alloc: Global, pen: &mut Pen, groups: u32) -> Result<(), NoMemory>
    requires { groups ≤ LARGEST_WORLD }
    ensures text { OnOk result (pen.new.text.items ≡ pen.old.text.items
        ++ pieces (group_text groups) (behind_group groups) pen.old.draws.last groups) }
    ensures last { OnOk result (pen.new.draws.last
        ≡ ahead (behind_group groups) pen.old.draws.last groups) }
{
    for group in 0..groups {
        push_group(alloc, pen, groups, group)?;
    }
    Ok(())
}
