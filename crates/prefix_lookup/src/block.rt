//! The prefixes of a family as blocks of numbers, the outer before the inner.
ghost use Rattle.std.specs.Prelude.{◌≡◌, ℕ, ◌+◌, ◌<◌, ◌≤◌, ◌^◌, ◌++◌, length, List, All, IfOk, OnOk, IfSome};
ghost use Rattle.std.specs.List.{filter_map};
ghost use Rattle.std.specs.Option.{option_to_list};
ghost use Rattle.prefix_lookup.specs.Blocks.{AreBlocks, block_of, end_of};
ghost use Rattle.prefix_lookup.specs.Family.{bits_in};
ghost use Rattle.prefix_lookup.specs.Table.{IsTable};

use crate::family::Family;
use addr_text::Prefix;
use map_model::GroupId;
use no_memory::NoMemory;
use std::alloc::Global;

/// The numbers of the addresses that a prefix holds, with its group.
#[derive(Clone, Copy, Debug, PartialEq, Eq, PartialOrd, Ord)]
pub struct Block {
    pub first: u128,
    /// The length of the prefix.
    pub len: u8,
    pub group: GroupId,
}

impl Block {
    /// The last number of the block.
    pub fn last(self, family: Family) -> u128
        requires len { self.len ≤ bits_in family }
        requires fits { end_of family self ≤ 2 ^ bits_in family }
        ensures { result + 1 ≡ end_of family self }
    {
        let free = family.bits() - self.len;
        if free == 128 {
            return u128::MAX;
        }
        self.first + ((1 << free) - 1)
    }
}

/// The block of an entry, if its prefix is of the family.
fn block_of(family: Family, entry: (Prefix, GroupId)) -> Option<Block>
    ensures exact { result ≡ block_of family entry }
    ensures fits { IfSome result (λ b. b.first < 2 ^ bits_in family) }
{
    let (prefix, group) = entry;
    let first = family.number(prefix.addr)?;
    Some(Block {
        first,
        len: prefix.len,
        group,
    })
}

/// Appends a block, if there is one.
fn add(blocks: &mut Vec<Block>, block: Option<Block>) -> Result<(), NoMemory>
    ensures { OnOk result (blocks.new.items ≡ blocks.old.items ++ option_to_list block) }
{
    if let Some(block) = block {
        blocks.push(block)?;
    }
    Ok(())
}

/// The blocks of the prefixes of a family, as they stand in a table.
fn unsorted(
    alloc: Global,
    family: Family,
    table: &[(Prefix, GroupId)],
) -> Result<Vec<Block>, NoMemory>
    ensures exact { IfOk result (λ blocks. blocks.items ≡ filter_map (block_of family) table.now) }
    ensures fits { IfOk result (λ blocks. All (λ b. b.first < 2 ^ bits_in family) blocks.items) }
{
    let mut blocks = Vec::new(alloc);
    for entry in table {
        add(&mut blocks, block_of(family, *entry))?;
    }
    Ok(blocks)
}

/// The blocks of the prefixes of a family, by their first number, and the outer before the inner.
pub fn blocks_of(
    alloc: Global,
    family: Family,
    table: &[(Prefix, GroupId)],
) -> Result<Vec<Block>, NoMemory>
    requires { IsTable table.now }
    ensures { IfOk result (λ blocks. AreBlocks family table.now blocks.items) }
{
    let mut blocks = unsorted(alloc, family, table)?;
    blocks.sort()?;
    Ok(blocks)
}
