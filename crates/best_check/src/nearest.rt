//! The full node nearest to each node on its path, for all nodes at once.

ghost use Rattle.std.specs.Prelude.{◌≡◌, ◌<◌, ◌==◌, length, IfOk, IsTrue};
ghost use Rattle.map_model.specs.Market.{IsSameShape, capacity_of};
ghost use Rattle.map_model.specs.Allocation.{load};
ghost use Rattle.evict.specs.Standing.{IsReady};
ghost use Rattle.best_check.specs.Fullness.{AreFirstFull, FirstFull, IsFullTable};

use crate::parents::entry_above;
use evict::State;
use map_model::{Instance, NodeId};
use no_memory::NoMemory;
use std::alloc::Global;

/// Whether a node is full.
pub fn is_full(instance: &Instance, state: &State, at: NodeId) -> bool
    requires whole { IsTrue state.now.is_whole }
    requires shape { IsSameShape state.now.market instance.now }
    requires node { at.0 < length instance.now.nodes }
    ensures { result ≡ (load instance.now state.now.lines at.0 == capacity_of instance.now at.0) }
{
    state.load(at) == instance.capacity(at)
}

/// The full node of a node's path that is nearest to it.
fn nearest_at(
    instance: &Instance,
    state: &State,
    nearest: &[Option<NodeId>],
    node: NodeId,
) -> Option<NodeId>
    requires ready { IsReady instance.now state.now }
    requires node { node.0 < length instance.now.nodes }
    requires above { length nearest.now ≡ node.0 }
    requires nearest { AreFirstFull instance.now state.now.lines nearest.now }
    ensures { FirstFull instance.now state.now.lines node.0 result }
{
    if is_full(instance, state, node) {
        Some(node)
    } else {
        entry_above(instance, nearest, node)
    }
}

/// The full node of each node's path that is nearest to it.
pub fn nearest_full(
    alloc: Global,
    instance: &Instance,
    state: &State,
) -> Result<Vec<Option<NodeId>>, NoMemory>
    requires { IsReady instance.now state.now }
    ensures { IfOk result (λ nearest. IsFullTable instance.now state.now.lines nearest.items) }
{
    let mut nearest = Vec::new(alloc);
    for n in 0..instance.nodes() {
        let full = nearest_at(instance, state, nearest.as_slice(), NodeId(n));
        nearest.push(full)?;
    }
    Ok(nearest)
}
