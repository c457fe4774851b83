//! Instances and maps from constant rows.
use map_model::{
    By, Choice, ClientGroup, GroupId, Instance, MapLine, MapLines, NO_LIMIT, NameLine, Node, NodeId,
};
use no_memory::NoMemory;
use std::alloc::Global;

/// A node: its capacity in units, the number of its parent, and whether it is a pool.
pub type NodeAt = (u64, Option<u32>, bool);

/// A group: its demand in units, and its list of pools with their scores.
pub type GroupAt = (u32, &'static [(u32, u32)]);

/// Units of a group at a place of its list.
pub type Placed = (u32, u8, u32);

/// A group, a place of its list, and the most units that it may hold there.
pub type LimitAt = (u32, u8, u32);

/// A group, a place of its list, and the node that refuses it, or [`LIMIT`].
pub type NameAt = (u32, u8, u32);

/// In place of a node: the offer's own limit.
pub const LIMIT: u32 = u32::MAX;

/// An instance, and a map that is good for it.
#[derive(Clone, Copy)]
pub struct World {
    pub name: &'static str,
    pub nodes: &'static [NodeAt],
    pub groups: &'static [GroupAt],
    pub lines: &'static [Placed],
    pub names: &'static [NameAt],
}

/// The limit of a group at a place of its list; without a row it has none of its own.
fn limit_at(limits: &[LimitAt], group: u32, place: usize) -> u32 {
    for &(of, at, limit) in limits {
        if of == group && usize::from(at) == place {
            return limit;
        }
    }
    NO_LIMIT
}

/// A group of that demand and list, with the limits of the group of that number.
fn group_of(
    alloc: Global,
    number: u32,
    group: GroupAt,
    limits: &[LimitAt],
) -> Result<ClientGroup, NoMemory> {
    let (demand, list) = group;
    let mut choices = Vec::new(alloc);
    for (place, &(pool, score)) in list.iter().enumerate() {
        choices.push(Choice {
            pool: NodeId(pool),
            score,
            limit: limit_at(limits, number, place),
        })?;
    }
    Ok(ClientGroup::new(demand, choices))
}

/// The instance of these rows; none where they are no instance.
pub fn instance_of(
    alloc: Global,
    nodes: &[NodeAt],
    groups: &[GroupAt],
) -> Result<Option<Instance>, NoMemory> {
    limited_instance_of(alloc, nodes, groups, &[])
}

/// The same with limits of offers.
pub fn limited_instance_of(
    alloc: Global,
    nodes: &[NodeAt],
    groups: &[GroupAt],
    limits: &[LimitAt],
) -> Result<Option<Instance>, NoMemory> {
    let mut rows = Vec::new(alloc);
    for (g, &group) in groups.iter().enumerate() {
        let number = u32::try_from(g).unwrap_or(u32::MAX);
        rows.push(group_of(alloc, number, group, limits)?)?;
    }
    let mut made = Vec::new(alloc);
    for &(capacity, parent, is_pool) in nodes {
        made.push(Node {
            capacity,
            parent: parent.map(NodeId),
            is_pool,
        })?;
    }
    Ok(Instance::try_from_rows(rows, made))
}

/// What refuses, by the number of a row.
fn by_of(by: u32) -> By {
    if by == LIMIT {
        By::Limit
    } else {
        By::Node(NodeId(by))
    }
}

/// The map of these rows.
pub fn map_of(alloc: Global, lines: &[Placed], names: &[NameAt]) -> Result<MapLines, NoMemory> {
    let mut map = MapLines {
        lines: Vec::new(alloc),
        names: Vec::new(alloc),
    };
    for &(group, place, amount) in lines {
        map.lines.push(MapLine {
            group: GroupId(group),
            place,
            amount,
        })?;
    }
    for &(group, place, by) in names {
        map.names.push(NameLine {
            group: GroupId(group),
            place,
            by: by_of(by),
        })?;
    }
    Ok(map)
}

impl World {
    /// The instance; none where the rows are no instance.
    pub fn instance(&self, alloc: Global) -> Result<Option<Instance>, NoMemory> {
        instance_of(alloc, self.nodes, self.groups)
    }

    /// The map.
    pub fn map(&self, alloc: Global) -> Result<MapLines, NoMemory> {
        map_of(alloc, self.lines, self.names)
    }
}
