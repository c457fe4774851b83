//! The full node that is nearest to each node on its path, with the rank from which on it refuses: so a refusing node is found
//! without going over the nodes that have room.

ghost use Rattle.std.specs.Prelude.{◌≡◌, ◌<◌, ◌==◌, None, length, IfOk, IfSome, MatchOption, slice_index_or};
ghost use Rattle.map_model.specs.declared.instance.Key.{Key};
ghost use Rattle.map_model.specs.Market.{capacity_of, parent_of};
ghost use Rattle.map_model.specs.Allocation.{IsOffer, is_at_limit, key_le, load, none_worse, refuser_of};
ghost use Rattle.evict.specs.Standing.{IsReady};
ghost use Rattle.deferred_accept.specs.Bars.{AreBars, IsBarAt, IsBarTable};

use evict::State;
use map_model::{By, GroupId, Instance, Key, NodeId, Offer, Units};
use no_memory::NoMemory;
use std::alloc::Global;

/// The key of which none is ranked above.
const FIRST: Key = Key {
    score: 0,
    group: GroupId(0),
    pool: NodeId(0),
};

/// A full node, and the key from which on it refuses: that of the worst offer that it holds. One that holds nothing refuses all.
#[derive(Clone, Copy)]
pub struct Bar {
    pub node: NodeId,
    pub key: Key,
}

fn is_full(instance: &Instance, state: &State, at: NodeId) -> bool
    requires ready { IsReady instance.now state.now }
    requires node { at.0 < length instance.now.nodes }
    ensures { result ≡ (load instance.now state.now.lines at.0 == capacity_of instance.now at.0) }
{
    state.load(at) == instance.capacity(at)
}

/// The key from which on a node refuses, if it is full.
fn refused_from(instance: &Instance, state: &State, node: NodeId) -> Key
    requires ready { IsReady instance.now state.now }
    requires node { node.0 < length instance.now.nodes }
    ensures { (key : Key) → none_worse instance.now state.now.lines node.0 key ≡ key_le result key }
{
    match state.worst_under(node) {
        Some((offer, _units)) => instance.key(offer),
        None => FIRST,
    }
}

/// What the bars say of the node above a node; nothing, if there is none.
fn bar_above(instance: &Instance, bars: &[Option<Bar>], node: NodeId) -> Option<Bar>
    requires node { node.0 < length instance.now.nodes }
    requires above { length bars.now ≡ node.0 }
    ensures { MatchOption (parent_of instance.now node.0) (result ≡ None) (λ p. (p.0 < node.0)
        × (result ≡ slice_index_or bars.now p.0 None)) }
{
    // Tells the prover that parents have lower numbers.
    let _count = instance.nodes();
    let parent = instance.parent(node)?;
    bars[parent.0 as usize]
}

/// The bar that is nearest to a node, from those of the nodes of lower numbers.
fn bar_at(instance: &Instance, state: &State, bars: &[Option<Bar>], node: NodeId) -> Option<Bar>
    requires ready { IsReady instance.now state.now }
    requires node { node.0 < length instance.now.nodes }
    requires above { length bars.now ≡ node.0 }
    requires bars { AreBars instance.now state.now.lines bars.now }
    ensures { IsBarAt instance.now state.now.lines node.0 result }
{
    if is_full(instance, state, node) {
        let key = refused_from(instance, state, node);
        Some(Bar { node, key })
    } else {
        bar_above(instance, bars, node)
    }
}

/// The bar that is nearest to each node.
pub fn bars_of(
    alloc: Global,
    instance: &Instance,
    state: &State,
) -> Result<Vec<Option<Bar>>, NoMemory>
    requires { IsReady instance.now state.now }
    ensures { IfOk result (λ bars. IsBarTable instance.now state.now.lines bars.items) }
{
    let mut bars = Vec::new(alloc);
    for n in 0..instance.nodes() {
        let bar = bar_at(instance, state, bars.as_slice(), NodeId(n));
        bars.push(bar)?;
    }
    Ok(bars)
}

/// The bar that is nearest to a node, if there is a node.
fn bar_from(bars: &[Option<Bar>], at: Option<NodeId>) -> Option<Bar>
    requires { IfSome at (λ n. n.0 < length bars.now) }
    ensures { MatchOption at (result ≡ None) (λ n. result ≡ slice_index_or bars.now n.0 None) }
{
    let node = at?;
    bars[node.0 as usize]
}

/// Whether a key is one of those from a bar on.
fn is_behind(bar: Bar, key: Key) -> bool
    ensures { result ≡ key_le bar.key key }
{
    bar.key <= key
}

/// Whether an offer holds as many units as its limit.
fn is_at_limit(instance: &Instance, state: &State, offer: Offer) -> bool
    requires ready { IsReady instance.now state.now }
    requires offer { IsOffer instance.now offer.group.0 offer.place }
    ensures { result ≡ is_at_limit instance.now state.now.lines offer.group.0 offer.place }
{
    state.units(offer) == Units::from(instance.limit(offer.group, offer.place))
}

/// What refuses an offer: its limit, or else the refusing node nearest to its pool. It goes from full node to full node.
pub fn refuser(instance: &Instance, state: &State, bars: &[Option<Bar>], offer: Offer) -> Option<By>
    requires ready { IsReady instance.now state.now }
    requires bars { IsBarTable instance.now state.now.lines bars.now }
    requires offer { IsOffer instance.now offer.group.0 offer.place }
    ensures { result ≡ refuser_of instance.now state.now.lines offer.group.0 offer.place }
{
    if is_at_limit(instance, state, offer) {
        return Some(By::Limit);
    }
    let key = instance.key(offer);
    let mut at = Some(key.pool);
    while let Some(bar) = bar_from(bars, at) {
        if is_behind(bar, key) {
            return Some(By::Node(bar.node));
        }
        at = instance.parent(bar.node);
    }
    None
}
