//! How many units may go round a circle.

ghost use Rattle.std.specs.Prelude.{◌≡◌, ◌+◌, ◌-◌, ◌<◌, ◌≤◌, ◌^◌, ◌==◌, false, All, List, [], ◌∷◌, length};
ghost use Rattle.std.specs.List.{list_any};
ghost use Rattle.map_model.specs.Market.{capacity_of, limit_of};
ghost use Rattle.map_model.specs.Allocation.{IsOffer, amount_at, load};
ghost use Rattle.evict.specs.Standing.{IsReady};
ghost use Rattle.deferred_accept.specs.Turning.{HasRoomFor, IsHop};

use crate::circle::Hop;
use evict::State;
use map_model::{Instance, NodeId, Offer, Units};

/// The room of a node, unless it is among some others.
fn room_at(instance: &Instance, state: &State, node: NodeId, others: &[NodeId]) -> Units
    requires ready { IsReady instance.now state.now }
    requires node { node.0 < length instance.now.nodes }
    ensures { list_any (λ x. x.0 == node.0) others.now ≡ false
        → load instance.now state.now.lines node.0 + result ≤ capacity_of instance.now node.0 }
{
    if others.iter().any(|other| *other == node) {
        Units::MAX
    } else {
        instance.capacity(node) - state.load(node)
    }
}

/// How many more units an offer may hold.
pub fn room_under(instance: &Instance, state: &State, offer: Offer) -> Units
    requires ready { IsReady instance.now state.now }
    requires offer { IsOffer instance.now offer.group.0 offer.place }
    ensures { result ≡ limit_of instance.now offer.group.0 offer.place - amount_at state.now.lines
        offer.group.0 offer.place }
{
    Units::from(instance.limit(offer.group, offer.place)) - state.units(offer)
}

/// How many units may go by one hop: as many as the displaced offer has, as the hop's offer may still
/// hold, and as there is room for at each node whose load the hop raises.
fn room_of(instance: &Instance, state: &State, hop: &Hop) -> Units
    requires ready { IsReady instance.now state.now }
    requires hop { IsHop instance.now state.now hop.now }
    ensures { HasRoomFor instance.now state.now (hop.now ∷ []) result }
{
    let path = instance.path(instance.pool_at(hop.offer));
    let others = instance.path(instance.pool_at(hop.rival.offer));
    let mut room = hop.rival.units.min(room_under(instance, state, hop.offer));
    for node in path.as_slice() {
        room = room.min(room_at(instance, state, *node, others.as_slice()));
    }
    room
}

/// How many units may go round by all of these hops.
pub fn common_room(instance: &Instance, state: &State, hops: &[Hop]) -> Units
    requires ready { IsReady instance.now state.now }
    requires hops { All (λ h. IsHop instance.now state.now h) hops.now }
    ensures room { HasRoomFor instance.now state.now hops.now result }
    ensures small { result < 2 ^ 32 }
{
    let mut room = u64::from(u32::MAX);
    for hop in hops {
        room = room.min(room_of(instance, state, hop));
    }
    room
}
