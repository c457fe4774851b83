//! What is asked of offers and nodes before a step.

ghost use Rattle.std.specs.Prelude.{◌≡◌, ◌<◌, length, IsTrue};
ghost use Rattle.map_model.specs.Market.{IsMarket, IsSameShape};
ghost use Rattle.map_model.specs.Allocation.{IsOffer};

use evict::State;
use map_model::{Instance, LEVELS, NodeId, Offer, Units};

/// Whether an offer is one of the instance.
pub fn is_offer(instance: &Instance, offer: Offer) -> bool
    ensures { IsTrue result → IsOffer instance.now offer.group.0 offer.place }
{
    if offer.group.0 < instance.groups() {
        return offer.place < instance.list_len(offer.group);
    }
    false
}

/// The node right above a node.
pub fn above(instance: &Instance, node: NodeId) -> Option<NodeId> {
    if node.0 < instance.nodes() {
        instance.parent(node)
    } else {
        None
    }
}

/// Whether a node stands on a pool's path.
pub fn is_above(instance: &Instance, node: NodeId, pool: NodeId) -> bool {
    let mut at = Some(pool);
    for _step in 0..LEVELS {
        if let Some(here) = at {
            if here == node {
                return true;
            }
            at = above(instance, here);
        }
    }
    false
}

/// The room of a node.
pub fn room_of(instance: &Instance, state: &State, node: NodeId) -> Units
    requires whole { IsTrue state.now.is_whole }
    requires shape { IsSameShape state.now.market instance.now }
{
    if node.0 < instance.nodes() {
        instance.capacity(node).saturating_sub(state.load(node))
    } else {
        0
    }
}
