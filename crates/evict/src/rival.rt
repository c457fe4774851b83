//! Whom an offer would displace.

ghost use Rattle.std.specs.Prelude.{◌≡◌, ◌==◌, MatchOption, slice_index};
ghost use Rattle.std.specs.List.{find};
ghost use Rattle.std.specs.Option.{option_map};
ghost use Rattle.capacity_tree.specs.Loads.{AreTreesOf};
ghost use Rattle.map_model.specs.Market.{IsMarket, IsSameShape, capacity_of, path, pool_of};
ghost use Rattle.map_model.specs.Allocation.{IsOffer};
ghost use Rattle.evict.specs.Putting.{AgreesWith};
ghost use Rattle.evict.specs.Standing.{HasNoRival, IsRival};

use capacity_tree::Tree;
use map_model::{Instance, LEVELS, NodeId, Offer, Units};
use offer_pool::Held;

/// The nearest full node of an offer's path, and the worst offer that is held there with all its
/// units.
#[derive(Clone, Copy, Debug, PartialEq, Eq)]
pub struct Rival {
    pub node: NodeId,
    pub offer: Offer,
    pub units: Units,
}

/// The full node of an offer's path that is nearest to its pool.
fn nearest_full(instance: &Instance, tree: &Tree, offer: Offer) -> Option<NodeId>
    requires market { IsMarket instance.now }
    requires offer { IsOffer instance.now offer.group.0 offer.place }
    requires trees { AreTreesOf instance.now tree.now.trees }
    ensures { option_map (λ n. n.0) result
        ≡ find (λ n. slice_index tree.now.units n == capacity_of instance.now n)
        (path instance.now (pool_of instance.now offer.group.0 offer.place)) }
{
    let mut at = Some(instance.pool_at(offer));
    for _step in 0..LEVELS {
        if let Some(node) = at {
            if tree.load(node) == instance.capacity(node) {
                return Some(node);
            }
            at = instance.parent(node);
        }
    }
    None
}

/// Whom an offer would displace as things stand, if anybody.
pub fn rival_of(instance: &Instance, held: &Held, tree: &Tree, offer: Offer) -> Option<Rival>
    requires market { IsMarket instance.now }
    requires offer { IsOffer instance.now offer.group.0 offer.place }
    requires shape { IsSameShape held.now.market instance.now }
    requires agrees { AgreesWith instance.now held.now.lines tree.now }
    ensures { MatchOption result (HasNoRival instance.now held.now.lines offer.group.0 offer.place)
        (λ r. IsRival instance.now held.now.lines offer.group.0 offer.place r) }
{
    let node = nearest_full(instance, tree, offer)?;
    let (worst, units) = held.worst_under(node)?;
    Some(Rival {
        node,
        offer: worst,
        units,
    })
}
