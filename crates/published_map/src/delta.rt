//! What changes between two versions.
ghost use Rattle.std.specs.Prelude.{◌≡◌, ◌+◌, ◌≤◌, length, map, Decides, IfOk, OnOk};
ghost use Rattle.map_model.specs.Market.{IsSameShape};
ghost use Rattle.map_model.specs.Allocation.{IsMapForm};
ghost use Rattle.map_model.specs.declared.limits.TheConstants.{PLACES};
ghost use Rattle.topology_text.specs.Plan.{Plan};
ghost use Rattle.published_map.specs.Between.{IsBetween};
ghost use Rattle.published_map.specs.Gathered.{IsGathered, NodesChanged, RowsChanged};

use crate::parts::{Part, row, split};
use crate::row::GroupRow;
use map_model::{GroupId, Instance, MapLine, MapLines, NameLine, NodeId, Units};
use no_memory::NoMemory;
use std::alloc::Global;

/// What changes from the version with the serial `base` to the one after it: the rows of these groups, and the
/// capacities of these nodes.
#[derive(Drop)]
pub struct Delta {
    /// The serial of the version that it changes.
    pub base: u64,
    /// Groups with their new rows.
    pub groups: Vec<(GroupId, GroupRow)>,
    /// Nodes with their new capacities.
    pub nodes: Vec<(NodeId, Units)>,
}

fn same_lines(old: &[MapLine], new: &[MapLine]) -> bool
    ensures { Decides result (old.now ≡ new.now) }
{
    old == new
}

fn same_names(old: &[NameLine], new: &[NameLine]) -> bool
    ensures { Decides result (old.now ≡ new.now) }
{
    old == new
}

/// Adds the new row of a group, where it is another than the old one.
fn push_row(
    groups: &mut Vec<(GroupId, GroupRow)>,
    group: GroupId,
    demands: (u32, u32),
    old: Part<'_>,
    new: Part<'_>,
) -> Result<(), NoMemory>
    requires lines { length new.lines.now ≤ PLACES }
    requires names { length new.names.now ≤ PLACES }
    ensures { OnOk result (IsGathered ((demands.0 ≡ demands.1)
        × (old.entry.lines.now ≡ new.entry.lines.now) × (old.entry.names.now ≡ new.entry.names.now))
        groups.old.items (
          group,
          record {
            demand = demands.1;
            amounts = record
                { items = map (λ l. (l.place, l.amount)) new.entry.lines.now };
            names = record
                { items = map (λ l. (l.place, l.by)) new.entry.names.now };
          },
        ) groups.new.items) }
{
    if demands.0 == demands.1
        && same_lines(old.lines, new.lines)
        && same_names(old.names, new.names)
    {
        return Ok(());
    }
    groups.push((group, row(demands.1, new)))?;
    Ok(())
}

/// Adds the new capacity of a node, where it is another than the old one.
fn push_capacity(
    nodes: &mut Vec<(NodeId, Units)>,
    node: NodeId,
    old: Units,
    new: Units,
) -> Result<(), NoMemory>
    ensures { OnOk result (IsGathered (old ≡ new) nodes.old.items (node, new) nodes.new.items) }
{
    if old != new {
        nodes.push((node, new))?;
    }
    Ok(())
}

/// A map from its first group on.
fn whole(map: &MapLines) -> Part<'_>
    ensures lines { result.lines.now ≡ map.now.lines.items }
    ensures names { result.names.now ≡ map.now.names.items }
{
    Part {
        lines: map.lines.as_slice(),
        names: map.names.as_slice(),
    }
}

/// The groups whose row differs, with their new rows.
fn changed_rows(
    alloc: Global,
    old: &Instance,
    old_map: &MapLines,
    new: &Instance,
    new_map: &MapLines,
) -> Result<Vec<(GroupId, GroupRow)>, NoMemory>
    requires old { IsMapForm old.now old_map.now.lines.items old_map.now.names.items }
    requires new { IsMapForm new.now new_map.now.lines.items new_map.now.names.items }
    requires shape { IsSameShape old.now new.now }
    ensures { IfOk result (λ rows. RowsChanged old.now old_map.now.lines.items
        old_map.now.names.items new.now new_map.now.lines.items new_map.now.names.items
        (length old.now.groups) rows.items) }
{
    // tells the prover what the type keeps
    let _ = new.groups();
    let mut groups = Vec::new(alloc);
    let mut old_rest = whole(old_map);
    let mut new_rest = whole(new_map);
    for number in 0..old.groups() {
        let group = GroupId(number);
        let (old_own, old_behind) = split(old_rest, group);
        let (new_own, new_behind) = split(new_rest, group);
        let demands = (old.demand(group), new.demand(group));
        push_row(&mut groups, group, demands, old_own, new_own)?;
        old_rest = old_behind;
        new_rest = new_behind;
    }
    Ok(groups)
}

/// The nodes whose capacity differs, with their new capacities.
fn changed_capacities(
    alloc: Global,
    old: &Instance,
    new: &Instance,
) -> Result<Vec<(NodeId, Units)>, NoMemory>
    requires { IsSameShape old.now new.now }
    ensures { IfOk result (λ made. NodesChanged old.now new.now (length old.now.nodes) made.items) }
{
    let mut nodes = Vec::new(alloc);
    for number in 0..old.nodes() {
        let node = NodeId(number);
        push_capacity(&mut nodes, node, old.capacity(node), new.capacity(node))?;
    }
    Ok(nodes)
}

impl Delta {
    /// What changes from a map, of the version with the serial `base`, to another: exactly the groups whose row
    /// differs, and exactly the nodes whose capacity differs. It goes over both maps once, and takes memory for what
    /// differs alone.
    ///
    /// # Errors
    ///
    /// `NoMemory` where there was none for what differs.
    pub fn between(
        alloc: Global,
        base: u64,
        old: &Instance,
        old_map: &MapLines,
        new: &Instance,
        new_map: &MapLines,
    ) -> Result<Delta, NoMemory>
        requires old { IsMapForm old.now old_map.now.lines.items old_map.now.names.items }
        requires new { IsMapForm new.now new_map.now.lines.items new_map.now.names.items }
        requires shape { IsSameShape old.now new.now }
        ensures { IfOk result (λ d. (plan : Plan)
            → IsBetween (record {
              serial = base;
              market = old.now;
              lines = old_map.now.lines.items;
              names = old_map.now.names.items;
              plan = plan;
            })
            (record {
              serial = base + 1;
              market = new.now;
              lines = new_map.now.lines.items;
              names =
                  new_map.now.names.items;
              plan = plan;
            }) d) }
    {
        let groups = changed_rows(alloc, old, old_map, new, new_map)?;
        let nodes = changed_capacities(alloc, old, new)?;
        // tells the prover what the type keeps
        let _ = (old.groups(), new.groups());
        Ok(Delta {
            base,
            groups,
            nodes,
        })
    }
}
