//! Nodes that were full and have room.

ghost use Rattle.std.specs.Prelude.{◌≡◌, IsTrue};
ghost use Rattle.map_model.specs.Market.{IsSameShape};

use crate::node_set::NodeSet;
use crate::offers::{above, room_of};
use evict::State;
use map_model::{Instance, LEVELS, NodeId};

/// The nodes that hold as much as their capacity.
pub fn full_nodes(instance: &Instance, state: &State) -> NodeSet
    requires whole { IsTrue state.now.is_whole }
    requires shape { IsSameShape state.now.market instance.now }
{
    let mut full = NodeSet::new();
    for n in 0..instance.nodes() {
        if room_of(instance, state, NodeId(n)) == 0 {
            full.insert(NodeId(n));
        }
    }
    full
}

/// The nodes that were full and have room.
pub fn opened(instance: &Instance, state: &State, full: &NodeSet) -> NodeSet
    requires whole { IsTrue state.now.is_whole }
    requires shape { IsSameShape state.now.market instance.now }
{
    let mut open = *full;
    for n in 0..instance.nodes() {
        if room_of(instance, state, NodeId(n)) == 0 {
            open.remove(NodeId(n));
        }
    }
    open
}

/// The full nodes of a pool's path are open from now on: units are about to go from there.
pub fn open_path(instance: &Instance, state: &State, open: &mut NodeSet, pool: NodeId)
    requires whole { IsTrue state.now.is_whole }
    requires shape { IsSameShape state.now.market instance.now }
{
    let mut at = Some(pool);
    for _step in 0..LEVELS {
        if let Some(node) = at {
            if room_of(instance, state, node) == 0 {
                open.insert(node);
            }
            at = above(instance, node);
        }
    }
}

/// The full nodes of a pool's path are open no longer: units came there.
pub fn close_path(instance: &Instance, state: &State, open: &mut NodeSet, pool: NodeId)
    requires whole { IsTrue state.now.is_whole }
    requires shape { IsSameShape state.now.market instance.now }
{
    let mut at = Some(pool);
    for _step in 0..LEVELS {
        if let Some(node) = at {
            if room_of(instance, state, node) == 0 {
                open.remove(node);
            }
            at = above(instance, node);
        }
    }
}
