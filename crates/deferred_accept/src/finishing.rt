//! The map of an ended state.

ghost use Rattle.std.specs.Prelude.{◌≡◌, ◌++◌, ◌<◌, IfOk, OnOk, length};
ghost use Rattle.map_model.specs.Market.{demand_of};
ghost use Rattle.map_model.specs.Allocation.{IsGood, IsOffer, placed_through, name_of, names_of};
ghost use Rattle.map_model.specs.Progress.{IsEnded, IsGroupBest};
ghost use Rattle.best_laws.specs.Ahead.{IsAhead};
ghost use Rattle.stable_check.specs.Due.{due};
ghost use Rattle.evict.specs.Standing.{IsReady};
ghost use Rattle.deferred_accept.specs.Bars.{IsBarTable};

use crate::bars::{Bar, bars_of, refuser};
use evict::State;
use map_model::{GroupId, Instance, MapLines, NameLine, Offer};
use no_memory::NoMemory;
use std::alloc::Global;

/// The name of a wanted offer: what refuses it, if anything does.
fn name(instance: &Instance, state: &State, bars: &[Option<Bar>], offer: Offer) -> Option<NameLine>
    requires ready { IsReady instance.now state.now }
    requires bars { IsBarTable instance.now state.now.lines bars.now }
    requires offer { IsOffer instance.now offer.group.0 offer.place }
    requires wanted { placed_through state.now.lines offer.group.0 offer.place
        < demand_of instance.now offer.group.0 }
    ensures { result ≡ name_of instance.now state.now.lines offer }
{
    let by = refuser(instance, state, bars, offer)?;
    Some(NameLine {
        group: offer.group,
        place: offer.place,
        by,
    })
}

/// Adds the names of a group's wanted offers, the best place first: behind the first place that is not wanted none is.
fn add_names_of(
    instance: &Instance,
    state: &State,
    bars: &[Option<Bar>],
    group: GroupId,
    names: &mut Vec<NameLine>,
) -> Result<(), NoMemory>
    requires ready { IsReady instance.now state.now }
    requires bars { IsBarTable instance.now state.now.lines bars.now }
    requires group { group.0 < length instance.now.groups }
    ensures { OnOk result (names.new.items ≡ names.old.items
        ++ due instance.now state.now.lines group.0 0) }
{
    let demand = u64::from(instance.demand(group));
    let mut through = 0;
    for place in 0..instance.list_len(group) {
        let offer = Offer { group, place };
        through += state.units(offer);
        if through >= demand {
            return Ok(());
        }
        if let Some(name) = name(instance, state, bars, offer) {
            names.push(name)?;
        }
    }
    Ok(())
}

/// The names of all wanted offers, by group and place.
fn all_names(alloc: Global, instance: &Instance, state: &State) -> Result<Vec<NameLine>, NoMemory>
    requires { IsReady instance.now state.now }
    ensures { IfOk result (λ names. names.items ≡ names_of instance.now state.now.lines) }
{
    let bars = bars_of(alloc, instance, state)?;
    let mut names = Vec::new(alloc);
    for g in 0..instance.groups() {
        add_names_of(instance, state, bars.as_slice(), GroupId(g), &mut names)?;
    }
    Ok(names)
}

/// The map of an ended state: what is held, and for each wanted offer what refuses it. It is good for the instance. The state may be kept.
///
/// # Errors
///
/// `NoMemory`.
pub fn ended_map(alloc: Global, instance: &Instance, state: &State) -> Result<MapLines, NoMemory>
    requires ready { IsReady instance.now state.now }
    requires ended { IsEnded instance.now state.now.pointers state.now.free }
    ensures lines { IfOk result (λ map. map.lines.items ≡ state.now.lines) }
    ensures names { IfOk result (λ map. map.names.items ≡ names_of instance.now state.now.lines) }
    ensures good { IfOk result (λ map. IsGood instance.now map.lines.items map.names.items) }
    ensures best { IfOk result (λ map. IsAhead instance.now state.now.lines state.now.pointers
        → IsGroupBest instance.now map.lines.items) }
{
    let names = all_names(alloc, instance, state)?;
    let lines = state.lines(alloc)?;
    Ok(MapLines { lines, names })
}

/// The map of an ended state that is not wanted any more.
///
/// # Errors
///
/// `NoMemory`.
pub fn finish(alloc: Global, instance: &Instance, state: State) -> Result<MapLines, NoMemory>
    requires ready { IsReady instance.now state }
    requires ended { IsEnded instance.now state.pointers state.free }
    ensures lines { IfOk result (λ map. map.lines.items ≡ state.lines) }
    ensures names { IfOk result (λ map. map.names.items ≡ names_of instance.now state.lines) }
    ensures good { IfOk result (λ map. IsGood instance.now map.lines.items map.names.items) }
    ensures best { IfOk result (λ map. IsAhead instance.now state.lines state.pointers
        → IsGroupBest instance.now map.lines.items) }
{
    ended_map(alloc, instance, &state)
}
