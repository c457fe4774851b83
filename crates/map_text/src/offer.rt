//! The offer that a line of a map file names.
ghost use Rattle.std.specs.Prelude.{◌≡◌, ◌<◌, Some, None, length, IfSome, option_map};
ghost use Rattle.map_model.specs.Allocation.{IsOffer};
ghost use Rattle.topology_text.specs.Plan.{number_in};
ghost use Rattle.map_text.specs.Lines.{offer_of, place_of};

use map_model::{GroupId, Instance, NodeId, Offer};
use topology_text::Topology;

/// The place of a pool in a group's list.
fn find_place(instance: &Instance, group: GroupId, pool: NodeId) -> Option<u8>
    requires { group.0 < length instance.now.groups }
    ensures place { result ≡ place_of instance.now group.0 pool.0 }
    ensures offer { IfSome result (IsOffer instance.now group.0) }
{
    for place in 0..instance.list_len(group) {
        if instance.pool_at(Offer { group, place }) == pool {
            return Some(place);
        }
    }
    None
}

/// The offer of a group to a pool of its list, by their names.
pub fn find_offer(topology: &Topology, group: &[u8], pool: &[u8]) -> Option<Offer>
    ensures value { result ≡ offer_of topology.now group.now pool.now }
    ensures offer { IfSome result (λ o. IsOffer topology.now.market o.group.0 o.place) }
{
    let group = topology.group_named(group)?;
    let pool = topology.node_named(pool)?;
    let place = find_place(topology.instance(), group, pool)?;
    Some(Offer { group, place })
}

/// The node of a name.
pub fn find_node(topology: &Topology, name: &[u8]) -> Option<NodeId>
    ensures value { option_map (λ n. n.0) result ≡ number_in topology.now.node_names name.now }
    ensures node { IfSome result (λ n. n.0 < length topology.now.market.nodes) }
{
    topology.node_named(name)
}
