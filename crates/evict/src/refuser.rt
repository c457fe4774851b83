//! What refuses an offer.

ghost use Rattle.std.specs.Prelude.{◌≡◌, ◌<◌, length, IsTrue};
ghost use Rattle.std.specs.Option.{option_map};
ghost use Rattle.map_model.specs.Market.{IsMarket, IsSameShape};
ghost use Rattle.map_model.specs.Allocation.{IsOffer, is_at_limit, is_full_of_better, none_worse, refuser_of, refusing_node};
ghost use Rattle.evict.specs.Putting.{AgreesWith};

use capacity_tree::Tree;
use map_model::{By, Instance, Key, LEVELS, NodeId, Offer, Units};
use offer_pool::Held;

/// Whether a node is full and holds only offers ranked at least as high as that key.
fn is_refusing(instance: &Instance, held: &Held, tree: &Tree, node: NodeId, key: Key) -> bool
    requires node { node.0 < length instance.now.nodes }
    requires shape { IsSameShape held.now.market instance.now }
    requires agrees { AgreesWith instance.now held.now.lines tree.now }
    ensures { result ≡ is_full_of_better instance.now held.now.lines node.0 key }
{
    tree.load(node) == instance.capacity(node) && is_none_worse(instance, held, node, key)
}

/// Whether each offer that is held under a node is ranked at least as high as that key.
fn is_none_worse(instance: &Instance, held: &Held, node: NodeId, key: Key) -> bool
    requires node { node.0 < length instance.now.nodes }
    requires shape { IsSameShape held.now.market instance.now }
    ensures { result ≡ none_worse instance.now held.now.lines node.0 key }
{
    match held.worst_key(node) {
        Some(worst) => worst <= key,
        None => true,
    }
}

/// The refusing node nearest to an offer's pool.
pub fn refusing_node(instance: &Instance, held: &Held, tree: &Tree, offer: Offer) -> Option<NodeId>
    requires market { IsMarket instance.now }
    requires offer { IsOffer instance.now offer.group.0 offer.place }
    requires shape { IsSameShape held.now.market instance.now }
    requires agrees { AgreesWith instance.now held.now.lines tree.now }
    ensures { option_map (λ n. n.0) result
        ≡ refusing_node instance.now held.now.lines offer.group.0 offer.place }
{
    let key = instance.key(offer);
    let mut at = Some(key.pool);
    for _step in 0..LEVELS {
        if let Some(node) = at {
            if is_refusing(instance, held, tree, node, key) {
                return Some(node);
            }
            at = instance.parent(node);
        }
    }
    None
}

/// Whether an offer holds as many units as its limit.
fn is_at_limit(instance: &Instance, held: &Held, offer: Offer) -> bool
    requires offer { IsOffer instance.now offer.group.0 offer.place }
    requires shape { IsSameShape held.now.market instance.now }
    ensures { result ≡ is_at_limit instance.now held.now.lines offer.group.0 offer.place }
{
    held.units(offer) == Units::from(instance.limit(offer.group, offer.place))
}

/// What refuses an offer: its limit, or else the refusing node nearest to its pool.
pub fn refuser(instance: &Instance, held: &Held, tree: &Tree, offer: Offer) -> Option<By>
    requires market { IsMarket instance.now }
    requires offer { IsOffer instance.now offer.group.0 offer.place }
    requires shape { IsSameShape held.now.market instance.now }
    requires agrees { AgreesWith instance.now held.now.lines tree.now }
    ensures { result ≡ refuser_of instance.now held.now.lines offer.group.0 offer.place }
{
    if is_at_limit(instance, held, offer) {
        return Some(By::Limit);
    }
    refusing_node(instance, held, tree, offer).map(By::Node)
}
