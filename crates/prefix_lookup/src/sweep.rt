//! The ranges of a family, made in one walk over its blocks.
ghost use Rattle.std.specs.Prelude.{◌≡◌, ℕ, ◌+◌, ◌*◌, ◌<◌, ◌≤◌, ◌^◌, List, length, All, Contains, IfOk, OnOk, IfSome, IsTrue, ◌↔◌, ◌∷◌, ◌++◌, [], ◌-◌, Some, None, max, nat_le, option_map, unwrap_or};
ghost use Rattle.std.specs.Option.{SomeIff};
ghost use Rattle.addr_text.specs.declared.address.Prefix.{Prefix};
ghost use Rattle.map_model.specs.declared.instance.GroupId.{GroupId};
ghost use Rattle.prefix_lookup.specs.declared.block.Block.{Block};
ghost use Rattle.prefix_lookup.specs.Blocks.{AreBlocks, IsBlock, block_at, end_of, limit_of};
ghost use Rattle.prefix_lookup.specs.Family.{bits_in};
ghost use Rattle.prefix_lookup.specs.Ranges.{AreRanges};
ghost use Rattle.prefix_lookup.specs.Sweep.{AllAhead, AllGoOn, AllLongest, Covers, CoversTo, Swept, stop_of};
ghost use Rattle.prefix_lookup.specs.Table.{IsTable};

use crate::block::{Block, blocks_of};
use crate::family::Family;
use addr_text::Prefix;
use map_model::GroupId;
use no_memory::NoMemory;
use std::alloc::Global;

/// Ranges that are made from the first number on: where each begins, and its group.
#[derive(Debug, Drop)]
pub struct Ranges {
    pub starts: Vec<u128>,
    pub groups: Vec<GroupId>,
    /// The block of the last range's longest prefix.
    last: Option<Block>,
    /// The first number that no range holds yet, none where each number has its range.
    next: Option<u128>,
}

/// The number after this one, if there is one.
fn after(number: u128) -> Option<u128>
    ensures { unwrap_or result (2 ^ 128) ≡ number + 1 }
{
    if number == u128::MAX {
        None
    } else {
        Some(number + 1)
    }
}

/// Whether the last range has the block's prefix as its longest.
fn is_last(ranges: &Ranges, block: Block) -> bool
    ensures { IsTrue result ↔ (ranges.now.last ≡ Some block) }
{
    ranges.last == Some(block)
}

/// Begins a range at a number, unless the last one has the same longest prefix and goes on.
fn begin(ranges: &mut Ranges, start: u128, block: Block) -> Result<(), NoMemory>
    ensures begun { OnOk result ((family : Family) (table : List (Prefix × GroupId)) (stop : ℕ)
        → CoversTo start family table ranges.old.starts.items ranges.old.groups.items
        ranges.old.last → AllLongest family table block start stop → start < stop
        → CoversTo stop family table ranges.new.starts.items ranges.new.groups.items
        ranges.new.last) }
    ensures few { OnOk result (length ranges.new.starts.items ≤ length ranges.old.starts.items
        + 1) }
    ensures next { ranges.new.next ≡ ranges.old.next }
{
    if !is_last(ranges, block) {
        ranges.starts.push(start)?;
        ranges.groups.push(block.group)?;
        ranges.last = Some(block);
    }
    Ok(())
}

/// The numbers from the next one on, up to and with another, have this block's prefix as their longest.
fn cover(ranges: &mut Ranges, block: Block, last: u128) -> Result<(), NoMemory>
    ensures covers { OnOk result ((family : Family) (table : List (Prefix × GroupId))
        → Covers family table ranges.old → AllLongest family table block (stop_of ranges.old) (last
        + 1) → Covers family table ranges.new) }
    ensures stop { OnOk result (stop_of ranges.new ≡ max (stop_of ranges.old) (last + 1)) }
    ensures few { OnOk result (length ranges.new.starts.items ≤ length ranges.old.starts.items
        + 1) }
{
    let Some(next) = ranges.next else {
        return Ok(());
    };
    if next <= last {
        begin(ranges, next, block)?;
        ranges.next = after(last);
    }
    Ok(())
}

/// Whether a block has ended before a number, or ends at all where none is given.
fn has_ended(family: Family, block: Block, limit: Option<u128>) -> bool
    requires { IsBlock family block }
    ensures { result ≡ nat_le (end_of family block) (limit_of limit) }
{
    let last = block.last(family);
    match limit {
        Some(limit) => last < limit,
        None => true,
    }
}

fn innermost(opened: &[Block]) -> Option<Block>
    ensures { SomeIff result (0 < length opened.now) (block_at opened.now (length opened.now - 1)) }
{
    if opened.is_empty() {
        None
    } else {
        Some(opened[opened.len() - 1])
    }
}

/// Takes away the innermost of the open blocks, if it has ended.
fn pop_ended(family: Family, opened: &mut Vec<Block>, limit: Option<u128>) -> Option<Block>
    requires { All (IsBlock family) opened.old.items }
    ensures some { IfSome result (λ b. (opened.old.items ≡ opened.new.items ++ b ∷ [])
        × (end_of family b ≤ limit_of limit) × IsBlock family b) }
    ensures none { result ≡ None → opened.new.items ≡ opened.old.items }
    ensures last { result ≡ None → (0 < length opened.old.items → limit_of limit
        < end_of family (block_at opened.old.items (length opened.old.items - 1))) }
    ensures each { All (IsBlock family) opened.new.items }
{
    let block = innermost(opened)?;
    if has_ended(family, block, limit) {
        opened.pop()
    } else {
        None
    }
}

/// Gives the open blocks that have ended their last ranges, the inner before the outer.
fn close(
    family: Family,
    ranges: &mut Ranges,
    opened: &mut Vec<Block>,
    limit: Option<u128>,
) -> Result<(), NoMemory>
    requires { All (IsBlock family) opened.old.items }
    ensures swept { OnOk result ((table : List (Prefix × GroupId)) (blocks : List Block) (i : ℕ)
        → IsTable table → AreBlocks family table blocks → i ≤ length blocks
        → Swept family table blocks i ranges.old opened.old.items
        → AllAhead blocks i (limit_of limit)
        → Swept family table blocks i ranges.new opened.new.items
        × AllGoOn family (limit_of limit) opened.new.items) }
    ensures each { All (IsBlock family) opened.new.items }
    ensures few { OnOk result (length ranges.new.starts.items + length opened.new.items
        ≤ length ranges.old.starts.items + length opened.old.items) }
{
    while let Some(block) = pop_ended(family, opened, limit) {
        cover(ranges, block, block.last(family))?;
    }
    Ok(())
}

/// Gives the numbers before this one, in which nothing begins, their range.
fn reach(ranges: &mut Ranges, opened: &[Block], first: u128) -> Result<(), NoMemory>
    ensures swept { OnOk result ((family : Family) (table : List (Prefix × GroupId))
        (blocks : List Block) (i : ℕ) → IsTable table → AreBlocks family table blocks
        → Swept family table blocks i ranges.old opened.now → i < length blocks
        → (block_at blocks i).first ≡ first → AllGoOn family first opened.now
        → Swept family table blocks i ranges.new opened.now × (stop_of ranges.new ≡ first)) }
    ensures few { OnOk result (length ranges.new.starts.items ≤ length ranges.old.starts.items
        + 1) }
{
    let Some(block) = innermost(opened) else {
        return Ok(());
    };
    if first > 0 {
        cover(ranges, block, first - 1)?;
    }
    Ok(())
}

/// The ranges of blocks that are in order.
fn sweep(alloc: Global, family: Family, blocks: &[Block]) -> Result<Ranges, NoMemory>
    requires { All (IsBlock family) blocks.now }
    ensures { IfOk result (λ made. (table : List (Prefix × GroupId)) → IsTable table
        → AreBlocks family table blocks.now
        → AreRanges family table made.starts.items made.groups.items) }
{
    let mut ranges = Ranges {
        starts: Vec::new(alloc),
        groups: Vec::new(alloc),
        last: None,
        next: Some(0),
    };
    let mut opened = Vec::new(alloc);
    for block in blocks {
        close(family, &mut ranges, &mut opened, Some(block.first))?;
        reach(&mut ranges, opened.as_slice(), block.first)?;
        opened.push(*block)?;
    }
    close(family, &mut ranges, &mut opened, None)?;
    Ok(ranges)
}

/// The ranges of the prefixes of a family.
pub fn ranges_of(
    alloc: Global,
    family: Family,
    table: &[(Prefix, GroupId)],
) -> Result<Ranges, NoMemory>
    requires { IsTable table.now }
    ensures { IfOk result (λ r. AreRanges family table.now r.starts.items r.groups.items) }
{
    let blocks = blocks_of(alloc, family, table)?;
    sweep(alloc, family, blocks.as_slice())
}
