//! The rank from which on offers are refused at each node, for all nodes at once.

ghost use Rattle.std.specs.Prelude.{◌≡◌, ◌⊎◌, ◌<◌, length, IfOk, IfSome};
ghost use Rattle.evict.specs.Standing.{IsOpen};
ghost use Rattle.best_check.specs.Open.{AreBars, IsBar, IsBarTable};

use crate::nearest::is_full;
use crate::parents::entry_above;
use evict::State;
use map_model::{GroupId, Instance, Key, NodeId};
use no_memory::NoMemory;
use std::alloc::Global;

/// The key of which none is ranked above.
const FIRST: Key = Key {
    score: 0,
    group: GroupId(0),
    pool: NodeId(0),
};

/// The key from which on a node itself refuses: that of the worst offer that it holds, if it is full. A full node that holds
/// nothing refuses all.
fn bar_of(instance: &Instance, state: &State, node: NodeId) -> Option<Key>
    requires open { IsOpen instance.now state.now }
    requires node { node.0 < length instance.now.nodes }
    ensures { IfSome result (λ bar. IsBar instance.now state.now.lines node.0 bar) }
{
    if !is_full(instance, state, node) {
        return None;
    }
    match state.worst_under(node) {
        Some((offer, _units)) => Some(instance.key(offer)),
        None => Some(FIRST),
    }
}

/// The better ranked of two keys, where there are two.
fn first_of(one: Option<Key>, other: Option<Key>) -> Option<Key>
    ensures { (result ≡ one) ⊎ (result ≡ other) }
{
    match (one, other) {
        (Some(a), Some(b)) => Some(if a < b { a } else { b }),
        (None, _) => other,
        (_, None) => one,
    }
}

/// The key from which on a node of a node's path refuses.
fn bar_at(instance: &Instance, state: &State, bars: &[Option<Key>], node: NodeId) -> Option<Key>
    requires open { IsOpen instance.now state.now }
    requires node { node.0 < length instance.now.nodes }
    requires above { length bars.now ≡ node.0 }
    requires bars { AreBars instance.now state.now.lines bars.now }
    ensures { IfSome result (λ bar. IsBar instance.now state.now.lines node.0 bar) }
{
    first_of(
        bar_of(instance, state, node),
        entry_above(instance, bars, node),
    )
}

/// For each node, the key from which on a node of its path refuses.
pub fn bars_of(
    alloc: Global,
    instance: &Instance,
    state: &State,
) -> Result<Vec<Option<Key>>, NoMemory>
    requires { IsOpen instance.now state.now }
    ensures { IfOk result (λ bars. IsBarTable instance.now state.now.lines bars.items) }
{
    let mut bars = Vec::new(alloc);
    for n in 0..instance.nodes() {
        let bar = bar_at(instance, state, bars.as_slice(), NodeId(n));
        bars.push(bar)?;
    }
    Ok(bars)
}
