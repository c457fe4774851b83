//! The lines of a map, and its names.

use crate::instance::{GroupId, NodeId};

/// Units of a group that are placed at one place of its list.
#[derive(Clone, Copy, Debug, PartialEq, Eq)]
pub struct MapLine {
    pub group: GroupId,
    /// The place of the group's list, from 0.
    pub place: u8,
    /// The units, at least 1 in a map's form.
    pub amount: u32,
}

/// What refuses an offer: its own limit, or a node on its pool's path.
#[derive(Clone, Copy, Debug, Default, PartialEq, Eq)]
pub enum By {
    #[default]
    Limit,
    Node(NodeId),
}

/// What refuses a group at one place of its list.
#[derive(Clone, Copy, Debug, PartialEq, Eq)]
pub struct NameLine {
    pub group: GroupId,
    /// The place of the group's list, from 0.
    pub place: u8,
    /// The limit where it is reached, and otherwise the refusing node nearest to the pool.
    pub by: By,
}

/// A map: what is placed where, and what refuses each offer that is wanted. Nothing here says
/// that it is in a map's form; both lists are then strictly increasing by group and place.
#[derive(Clone, Debug, PartialEq, Eq, Drop)]
pub struct MapLines {
    pub lines: Vec<MapLine>,
    pub names: Vec<NameLine>,
}
