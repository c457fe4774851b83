//! The evictions of one put, node by node up the path.

ghost use Rattle.std.specs.Prelude.{◌≡◌, ◌<◌, ◌≤◌, [], IfOk, OnOk, is_some};
ghost use Rattle.map_model.specs.Market.{IsMarket, IsSameShape, capacity_of, pool_of};
ghost use Rattle.map_model.specs.Allocation.{IsOffer, load, refusing_node};
ghost use Rattle.evict.specs.Putting.{AgreesWith, IsPlacing, IsRelieved, IsRelieving, Origin};

use crate::freed::Freed;
use crate::refuser::refusing_node;
use capacity_tree::Tree;
use map_model::{Instance, NodeId, Offer, Units};
use no_memory::NoMemory;
use offer_pool::Held;

/// How far a put has come: the offer that was put, the node that is next, and how many of the units
/// may still be given up.
#[derive(Clone, Copy)]
struct Climb {
    put: Offer,
    node: NodeId,
    left: Units,
}

/// Brings a node within its capacity, the worst offer first. Answers what is left to be given up of
/// the units that were put.
fn relieve(
    instance: &Instance,
    held: &mut Held,
    tree: &mut Tree,
    climb: Climb,
    freed: &mut Freed,
) -> Result<Units, NoMemory>
    ghost origin: { Origin }
    requires { IsRelieving instance.now origin climb.put.group.0 climb.put.place
        climb.node.0 climb.left held.old tree.old freed.old }
    ensures relieving { IfOk result (λ rest.
        IsRelieving instance.now origin climb.put.group.0 climb.put.place
        climb.node.0 rest held.new tree.new freed.new) }
    ensures fits { OnOk result
        (load instance.now held.new.lines climb.node.0 ≤ capacity_of instance.now climb.node.0) }
    ensures market { OnOk result (held.new.market ≡ held.old.market) }
{
    let node = climb.node;
    let capacity = instance.capacity(node);
    let mut left = climb.left;
    while tree.load(node) > capacity {
        let over = tree.load(node) - capacity;
        let Some((offer, most)) = held.worst_under(node) else {
            unreachable!()
        };
        let units = over.min(most);
        freed.push(offer, units)?;
        held.take(offer, units);
        tree.take(instance.pool_at(offer), units);
        left -= units;
    }
    Ok(left)
}

/// Brings each node of a pool's path within its capacity, from the pool up.
pub fn relieve_path(
    instance: &Instance,
    held: &mut Held,
    tree: &mut Tree,
    put: Offer,
    units: Units,
    freed: &mut Freed,
) -> Result<(), NoMemory>
    ghost origin: { Origin }
    requires { IsRelieving instance.now origin put.group.0 put.place
        (pool_of instance.now put.group.0 put.place) units held.old tree.old freed.old }
    ensures relieved { OnOk result (IsRelieved instance.now origin put.group.0 put.place held.new
        tree.new freed.new) }
    ensures market { OnOk result (held.new.market ≡ held.old.market) }
{
    let mut at = Some(instance.pool_at(put));
    let mut left = units;
    while let Some(node) = at {
        let climb = Climb { put, node, left };
        left = relieve(instance, held, tree, climb, freed)?;
        at = instance.parent(node);
    }
    Ok(())
}

/// Whether some node of an offer's path refuses it as things stand.
fn is_refused(instance: &Instance, held: &Held, tree: &Tree, offer: Offer) -> bool
    requires market { IsMarket instance.now }
    requires offer { IsOffer instance.now offer.group.0 offer.place }
    requires shape { IsSameShape held.now.market instance.now }
    requires agrees { AgreesWith instance.now held.now.lines tree.now }
    ensures { result ≡ is_some (refusing_node instance.now held.now.lines offer.group.0
        offer.place) }
{
    refusing_node(instance, held, tree, offer).is_some()
}

/// Holds units of an offer, and brings each node of its path within its capacity.
///
/// Where a node of the path refuses the offer already, nothing under it is ranked lower, so each
/// eviction up to there would take the units that came: they are given up at once.
pub fn place(
    instance: &Instance,
    held: &mut Held,
    tree: &mut Tree,
    offer: Offer,
    units: Units,
    freed: &mut Freed,
) -> Result<(), NoMemory>
    ghost origin: { Origin }
    requires { IsPlacing instance.now origin offer.group.0 offer.place units held.old tree.old
        freed.old }
    ensures relieved { OnOk result (IsRelieved instance.now origin offer.group.0 offer.place
        held.new tree.new freed.new) }
    ensures market { OnOk result (held.new.market ≡ held.old.market) }
{
    if units > 0 && is_refused(instance, held, tree, offer) {
        return freed.push(offer, units);
    }
    held.put(offer, units)?;
    tree.add(instance.pool_at(offer), units);
    relieve_path(instance, held, tree, offer, units, freed)
}
