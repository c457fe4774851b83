//! Changes of the numbers of an instance.

use crate::instance::{GroupId, NodeId, Units};

/// One change of a batch: a new number for a group's demand or for a node's capacity. Of several
/// changes of one name the last counts.
#[derive(Clone, Copy, Debug, PartialEq, Eq)]
pub enum Change {
    /// The group's demand, from 1 on.
    Demand { group: GroupId, demand: u32 },
    /// The node's capacity, at most 2^48.
    Capacity { node: NodeId, capacity: Units },
}
