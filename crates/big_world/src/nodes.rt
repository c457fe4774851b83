//! The nodes, and what texts are made of.
ghost use Rattle.std.specs.Prelude.{◌≡◌, ◌≤◌, ◌<◌, ◌+◌, ◌++◌, IfOk, OnOk, string_bytes};
ghost use Rattle.std.specs.Fmt.{decimal};
ghost use Rattle.big_world.specs.Numbers.{behind};
ghost use Rattle.big_world.specs.Pieces.{texts_below};
ghost use Rattle.big_world.specs.Topology.{address_line, capacity_line, capacity_of, name_line, node_text, nodes_of, parent_line, pool_name, pool_text, region_name, region_text, regions_of};
ghost use Rattle.big_world.specs.declared.TheConstants.{LARGEST_WORLD};

use crate::draws::{Draws, Pen};
use no_memory::NoMemory;
use std::alloc::Global;

/// How many regions a world of so many groups has.
pub fn regions_of(groups: u32) -> u32
    requires { groups ≤ LARGEST_WORLD }
    ensures regions { result ≡ regions_of groups }
    ensures few { result ≤ 257 }
{
    1 + groups / 64
}

/// A number between what stands ahead of it and behind it.
pub fn push_number(
    alloc: Global,
    text: &mut Vec<u8>,
    ahead: &[u8],
    number: u32,
    behind: &[u8],
) -> Result<(), NoMemory>
    ensures { OnOk result (text.new.items ≡ text.old.items ++ ahead.now ++ decimal number
        ++ behind.now) }
{
    let digits = number.to_string(alloc)?;
    text.extend_from_slice(ahead)?;
    text.extend_from_slice(digits.as_bytes())?;
    text.extend_from_slice(behind)?;
    Ok(())
}

/// The line with a name.
#[tactic(auto, unfolding(crate::specs::Topology::name_line))]
pub fn push_name(text: &mut Vec<u8>, name: &[u8]) -> Result<(), NoMemory>
    ensures { OnOk result (text.new.items ≡ text.old.items ++ name_line name.now) }
{
    text.extend_from_slice(b"name = \"")?;
    text.extend_from_slice(name)?;
    text.extend_from_slice(b"\"\n")?;
    Ok(())
}

fn region_name(alloc: Global, region: u32) -> Result<String, NoMemory>
    ensures { IfOk result (λ t. string_bytes t ≡ region_name region) }
{
    Ok(format!(in alloc; "r{region}")?)
}

/// The name of a pool of a region.
pub fn pool_name(alloc: Global, region: u32, pool: u32) -> Result<String, NoMemory>
    ensures { IfOk result (λ t. string_bytes t ≡ pool_name region pool) }
{
    Ok(format!(in alloc; "r{region}-{pool}")?)
}

#[tactic(auto, unfolding(crate::specs::Topology::address_line))]
fn address_line(alloc: Global, region: u32, pool: u32) -> Result<String, NoMemory>
    requires { pool < 4 }
    ensures { IfOk result (λ t. string_bytes t ≡ address_line region pool) }
{
    let upper = region / 256;
    let lower = region % 256;
    let host = pool + 1;
    Ok(format!(in alloc; "a = [\"10.{upper}.{lower}.{host}\"]\n")?)
}

#[tactic(auto, unfolding(crate::specs::Topology::capacity_line))]
fn capacity_line(alloc: Global, capacity: u32) -> Result<String, NoMemory>
    ensures { IfOk result (λ t. string_bytes t ≡ capacity_line capacity) }
{
    Ok(format!(in alloc; "capacity = {capacity}\n")?)
}

/// The line with the parent of a pool.
#[tactic(auto, unfolding(crate::specs::Topology::parent_line))]
fn parent_line(alloc: Global, region: u32) -> Result<String, NoMemory>
    ensures { IfOk result (λ t. string_bytes t ≡ parent_line region) }
{
    Ok(format!(in alloc; "parent = \"r{region}\"\n")?)
}

#[tactic(auto, unfolding(crate::specs::Topology::region_text))]
fn push_region(
    alloc: Global,
    text: &mut Vec<u8>,
    region: u32,
    capacity: u32,
) -> Result<(), NoMemory>
    ensures { OnOk result (text.new.items ≡ text.old.items ++ region_text region capacity) }
{
    text.extend_from_slice(b"[[node]]\n")?;
    text.extend_from_slice(capacity_line(alloc, capacity)?.as_bytes())?;
    push_name(text, region_name(alloc, region)?.as_bytes())?;
    text.extend_from_slice(b"\n")?;
    Ok(())
}

#[tactic(auto, unfolding(crate::specs::Topology::pool_text))]
fn push_pool(
    alloc: Global,
    text: &mut Vec<u8>,
    region: u32,
    pool: u32,
    capacity: u32,
) -> Result<(), NoMemory>
    requires { pool < 4 }
    ensures { OnOk result (text.new.items ≡ text.old.items ++ pool_text region pool capacity) }
{
    text.extend_from_slice(b"[[node]]\n")?;
    text.extend_from_slice(address_line(alloc, region, pool)?.as_bytes())?;
    text.extend_from_slice(capacity_line(alloc, capacity)?.as_bytes())?;
    push_name(text, pool_name(alloc, region, pool)?.as_bytes())?;
    text.extend_from_slice(parent_line(alloc, region)?.as_bytes())?;
    text.extend_from_slice(b"pool = true\n\n")?;
    Ok(())
}

#[tactic(auto, unfolding(crate::specs::Topology::capacity_of))]
fn draw_capacity(draws: &mut Draws, node: u32) -> u32
    ensures capacity { result ≡ capacity_of node draws.old.last }
    ensures last { draws.new.last ≡ behind draws.old.last 1 }
{
    if node % 5 == 0 {
        40 + draws.below(40)
    } else {
        10 + draws.below(20)
    }
}

#[tactic(auto, unfolding(crate::specs::Topology::node_text))]
fn push_node(alloc: Global, pen: &mut Pen, node: u32) -> Result<(), NoMemory>
    ensures text { OnOk result (pen.new.text.items ≡ pen.old.text.items
        ++ node_text node pen.old.draws.last) }
    ensures last { OnOk result (pen.new.draws.last ≡ behind pen.old.draws.last 1) }
{
    let capacity = draw_capacity(&mut pen.draws, node);
    let place = node % 5;
    if place == 0 {
        push_region(alloc, &mut pen.text, node / 5, capacity)
    } else {
        push_pool(alloc, &mut pen.text, node / 5, place - 1, capacity)
    }
}

/// All nodes.
pub fn push_nodes(alloc: Global, pen: &mut Pen, groups: u32) -> Result<(), NoMemory>
    requires { groups ≤ LARGEST_WORLD }
    ensures text { OnOk result (pen.new.text.items ≡ pen.old.text.items
        ++ texts_below (λ p. node_text p (behind pen.old.draws.last p)) (nodes_of groups)) }
    ensures last { OnOk result (pen.new.draws.last ≡ behind pen.old.draws.last (nodes_of groups)) }
{
    for node in 0..5 * regions_of(groups) {
        push_node(alloc, pen, node)?;
    }
    Ok(())
}
