//! To which pool a unit leads on that leaves a node: where the group that is next in line takes it, it leaves its last place.

ghost use Rattle.std.specs.Prelude.{◌≡◌, ℕ, ◌<◌, Some, length, IfOk, IfSome};
ghost use Rattle.map_model.specs.Market.{demand_of, pool_of};
ghost use Rattle.map_model.specs.Allocation.{IsOffer, placed};
ghost use Rattle.evict.specs.Standing.{IsReady};
ghost use Rattle.map_laws.specs.Circles.{IsLastPlace};
ghost use Rattle.best_check.specs.Leads.{AreLeads};
ghost use Rattle.best_check.specs.Tables.{AreNextAt};

use crate::ranked::Ranked;
use evict::State;
use map_model::{GroupId, Instance, NodeId, Offer};
use no_memory::NoMemory;
use std::alloc::Global;

/// The last place at which a group has units.
fn last_place(instance: &Instance, state: &State, group: GroupId) -> Option<u8>
    requires ready { IsReady instance.now state.now }
    requires group { group.0 < length instance.now.groups }
    ensures offer { IfSome result (λ k. IsOffer instance.now group.0 k) }
    ensures last { (k : ℕ) → IsLastPlace state.now.lines group.0 k → result ≡ Some k }
{
    let mut last = None;
    for place in 0..instance.list_len(group) {
        if state.units(Offer { group, place }) > 0 {
            last = Some(place);
        }
    }
    last
}

/// The pool that loses a unit where the offer that is next in line gets one more; none where its group has units free.
fn leads_to(instance: &Instance, state: &State, next: Option<Ranked>) -> Option<NodeId>
    requires ready { IsReady instance.now state.now }
    requires offer { IfSome next (λ o. IsOffer instance.now o.offer.group.0 o.offer.place) }
    ensures inside { IfSome result (λ p. p.0 < length instance.now.nodes) }
    ensures leads { IfSome next (λ o. (j : ℕ) → placed state.now.lines o.offer.group.0
        ≡ demand_of instance.now o.offer.group.0 → IsLastPlace state.now.lines o.offer.group.0 j
        → result ≡ Some (record { 0 = pool_of instance.now o.offer.group.0 j })) }
{
    let group = next?.offer.group;
    if state.free(group) > 0 {
        return None;
    }
    let place = last_place(instance, state, group)?;
    Some(instance.pool_at(Offer { group, place }))
}

/// The pool to which each node leads on.
pub fn leads_of(
    alloc: Global,
    instance: &Instance,
    state: &State,
    nexts: &[Option<Ranked>],
) -> Result<Vec<Option<NodeId>>, NoMemory>
    requires ready { IsReady instance.now state.now }
    requires size { length nexts.now ≡ length instance.now.nodes }
    requires nexts { AreNextAt instance.now state.now.lines nexts.now }
    ensures size { IfOk result (λ leads. length leads.items ≡ length instance.now.nodes) }
    ensures leads { IfOk result (λ leads. AreLeads instance.now state.now.lines leads.items) }
{
    let mut leads = Vec::new(alloc);
    for next in nexts {
        leads.push(leads_to(instance, state, *next))?;
    }
    Ok(leads)
}
