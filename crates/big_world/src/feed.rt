//! The feed.
ghost use Rattle.std.specs.Prelude.{◌≡◌, ◌≤◌, ◌++◌, codes, OnOk};
ghost use Rattle.big_world.specs.Numbers.{behind};
ghost use Rattle.big_world.specs.Pieces.{ahead, pieces};
ghost use Rattle.big_world.specs.Feed.{batch_text, behind_batch, behind_change, capacity_text, change_text, demand_text};
ghost use Rattle.big_world.specs.Topology.{line};
ghost use Rattle.big_world.specs.declared.TheConstants.{LARGEST_WORLD};

use crate::draws::Pen;
use crate::nodes::{push_number, regions_of};
use no_memory::NoMemory;
use std::alloc::Global;

/// How many batches a feed has.
const BATCHES: u32 = 16;

/// How many lines a batch has.
const LINES: u32 = 4;

/// Another demand of a group.
fn push_demand(alloc: Global, pen: &mut Pen, groups: u32) -> Result<(), NoMemory>
    requires { 1 ≤ groups }
    ensures text { OnOk result (pen.new.text.items ≡ pen.old.text.items
        ++ demand_text groups pen.old.draws.last) }
    ensures last { OnOk result (pen.new.draws.last ≡ behind pen.old.draws.last 2) }
{
    let group = pen.draws.below(groups);
    push_number(alloc, &mut pen.text, b"demand g", group, b" ")?;
    let demand = 1 + pen.draws.below(15);
    push_number(alloc, &mut pen.text, b"", demand, b"\n")?;
    Ok(())
}

/// Another capacity of a pool.
fn push_capacity(alloc: Global, pen: &mut Pen, groups: u32) -> Result<(), NoMemory>
    requires { groups ≤ LARGEST_WORLD }
    ensures text { OnOk result (pen.new.text.items ≡ pen.old.text.items
        ++ capacity_text groups pen.old.draws.last) }
    ensures last { OnOk result (pen.new.draws.last ≡ behind pen.old.draws.last 3) }
{
    let region = pen.draws.below(regions_of(groups));
    push_number(alloc, &mut pen.text, b"capacity r", region, b"-")?;
    let pool = pen.draws.below(4);
    push_number(alloc, &mut pen.text, b"", pool, b" ")?;
    let capacity = pen.draws.below(30);
    push_number(alloc, &mut pen.text, b"", capacity, b"\n")?;
    Ok(())
}

/// A line.
#[tactic(auto, unfolding(crate::specs::Feed::change_text, crate::specs::Feed::behind_change))]
fn push_change(alloc: Global, pen: &mut Pen, groups: u32) -> Result<(), NoMemory>
    requires some { 1 ≤ groups }
    requires most { groups ≤ LARGEST_WORLD }
    ensures text { OnOk result (pen.new.text.items ≡ pen.old.text.items
        ++ change_text groups pen.old.draws.last) }
    ensures last { OnOk result (pen.new.draws.last ≡ behind_change pen.old.draws.last) }
{
    if pen.draws.below(2) == 0 {
        push_demand(alloc, pen, groups)
    } else {
        push_capacity(alloc, pen, groups)
    }
}

#[tactic(auto, unfolding(crate::specs::Feed::batch_text, crate::specs::Feed::behind_batch))]
fn push_batch(alloc: Global, pen: &mut Pen, groups: u32) -> Result<(), NoMemory>
    requires some { 1 ≤ groups }
    requires most { groups ≤ LARGEST_WORLD }
    ensures text { OnOk result (pen.new.text.items ≡ pen.old.text.items
        ++ batch_text groups pen.old.draws.last) }
    ensures last { OnOk result (pen.new.draws.last ≡ behind_batch pen.old.draws.last) }
{
    for _line in 0..LINES {
        push_change(alloc, pen, groups)?;
    }
    pen.text.extend_from_slice(b"commit\n")?;
    Ok(())
}

/// All batches, and the word that ends the feed.
pub fn push_feed(alloc: Global, pen: &mut Pen, groups: u32) -> Result<(), NoMemory>
    requires some { 1 ≤ groups }
    requires most { groups ≤ LARGEST_WORLD }
    ensures { OnOk result (pen.new.text.items ≡ pen.old.text.items
        ++ pieces (λ _. batch_text groups) behind_batch pen.old.draws.last 16
        ++ line (codes "stop")) }
{
    for _batch in 0..BATCHES {
        push_batch(alloc, pen, groups)?;
    }
    pen.text.extend_from_slice(b"stop\n")?;
    Ok(())
}
