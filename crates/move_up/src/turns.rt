//! Moving units up, one offer after another.

ghost use Rattle.std.specs.Prelude.{◌≡◌, ◌<◌, ◌≤◌, length, IfOk, IsTrue, OnOk};
ghost use Rattle.map_model.specs.Market.{IsMarket, IsSameShape};
ghost use Rattle.map_model.specs.Allocation.{IsOffer};
ghost use Rattle.evict.specs.Standing.{IsOpen};
ghost use Rattle.move_up.specs.Moved.{IsMoved};

use crate::moves::{grant_marked, release_marked, set_back};
use crate::offers::{above, is_above, is_offer, room_of};
use crate::opening::{close_path, open_path, opened};
use crate::search::Search;
use crate::settling::{settle, settle_lowered};
use evict::State;
use map_model::{Instance, LEVELS, NodeId, Offer, Units};
use no_memory::NoMemory;

/// Units of a group that may move up: free ones, or those of a place past the one that they go to.
#[derive(Clone, Copy, Debug)]
struct Source {
    units: Units,
    place: Option<Offer>,
}

/// What a group may move up to an offer: its free units, or those of the last place past it at which it holds some.
fn source_of(instance: &Instance, state: &State, offer: Offer) -> Option<Source>
    requires is_open { IsOpen instance.now state.now }
    requires offer { IsOffer instance.now offer.group.0 offer.place }
{
    let free = state.free(offer.group);
    if free > 0 {
        return Some(Source {
            units: free,
            place: None,
        });
    }
    let mut last = None;
    for place in offer.place + 1..instance.list_len(offer.group) {
        let past = Offer {
            group: offer.group,
            place,
        };
        let units = state.units(past);
        if units > 0 {
            last = Some(Source {
                units,
                place: Some(past),
            });
        }
    }
    last
}

/// Whether units of a source stand under a node.
fn is_from_under(instance: &Instance, source: Source, node: NodeId) -> bool {
    match source.place {
        Some(place) if is_offer(instance, place) => {
            is_above(instance, node, instance.pool_at(place))
        }
        _ => false,
    }
}

/// How many units of a source may come to an offer: they fit under its limit.
fn most_from(instance: &Instance, state: &State, offer: Offer, source: Source) -> Units
    requires is_open { IsOpen instance.now state.now }
    requires offer { IsOffer instance.now offer.group.0 offer.place }
{
    let limit = u64::from(instance.limit(offer.group, offer.place));
    let left = limit.saturating_sub(state.units(offer));
    source.units.min(left)
}

/// How many of some units the nodes of an offer's path have room for that do not hold them yet.
fn room_for(instance: &Instance, state: &State, offer: Offer, source: Source, units: Units) -> Units
    requires is_open { IsOpen instance.now state.now }
    requires offer { IsOffer instance.now offer.group.0 offer.place }
{
    let mut room = units;
    let mut at = Some(instance.pool_at(offer));
    for _step in 0..LEVELS {
        if let Some(node) = at {
            if is_from_under(instance, source, node) {
                return room;
            }
            room = room.min(room_of(instance, state, node));
            at = above(instance, node);
        }
    }
    room
}

/// Makes held units free. The full nodes above them are open then.
fn give_up(
    instance: &Instance,
    state: &mut State,
    marks: &[bool],
    search: &mut Search<'_>,
    offer: Offer,
    units: Units,
)
    requires is_open { IsOpen instance.now state.old }
    requires size { length marks.now ≡ length instance.now.nodes }
    ensures { IsMoved instance.now marks.now state.old state.new }
{
    if is_offer(instance, offer) {
        let pool = instance.pool_at(offer);
        open_path(instance, state, &mut search.open, pool);
        release_marked(instance, state, marks, offer, units);
        search.look_again(instance, state, pool);
    }
}

/// A move of units of a source up to an offer.
#[derive(Clone, Copy, Debug)]
struct Move {
    offer: Offer,
    source: Source,
    units: Units,
}

/// Makes room for a move: where a full node of the offer's path does not hold the units yet, the worst offer there gives up as
/// many.
fn make_room(
    instance: &Instance,
    state: &mut State,
    marks: &[bool],
    search: &mut Search<'_>,
    wanted: Move,
)
    requires is_open { IsOpen instance.now state.old }
    requires size { length marks.now ≡ length instance.now.nodes }
    requires offer { IsOffer instance.now wanted.offer.group.0 wanted.offer.place }
    ensures { IsMoved instance.now marks.now state.old state.new }
{
    let Some(rival) = state.rival(instance, wanted.offer) else {
        return;
    };
    if !is_from_under(instance, wanted.source, rival.node) {
        give_up(
            instance,
            state,
            marks,
            search,
            rival.offer,
            rival.units.min(wanted.units),
        );
    }
}

/// Makes units of a source free, where they are not.
fn free_source(
    instance: &Instance,
    state: &mut State,
    marks: &[bool],
    search: &mut Search<'_>,
    source: Source,
    units: Units,
)
    requires is_open { IsOpen instance.now state.old }
    requires size { length marks.now ≡ length instance.now.nodes }
    ensures { IsMoved instance.now marks.now state.old state.new }
{
    if let Some(place) = source.place {
        give_up(instance, state, marks, search, place, units);
    }
}

/// Lets an offer hold free units of its group, and settles the group. Says whether it holds more than before.
fn take_up(
    instance: &Instance,
    state: &mut State,
    marks: &[bool],
    search: &mut Search<'_>,
    offer: Offer,
    units: Units,
) -> Result<bool, NoMemory>
    requires is_open { IsOpen instance.now state.old }
    requires size { length marks.now ≡ length instance.now.nodes }
    requires offer { IsOffer instance.now offer.group.0 offer.place }
    ensures { OnOk result (IsMoved instance.now marks.now state.old state.new) }
{
    let granted = grant_marked(instance, state, marks, offer, units)?;
    let pool = instance.pool_at(offer);
    close_path(instance, state, &mut search.open, pool);
    settle(instance, state, marks, offer.group);
    search.look_again(instance, state, pool);
    Ok(granted > 0)
}

/// Moves units of a source to an offer. Says whether any moved.
fn shift_up(
    instance: &Instance,
    state: &mut State,
    marks: &[bool],
    search: &mut Search<'_>,
    offer: Offer,
    source: Source,
) -> Result<bool, NoMemory>
    requires is_open { IsOpen instance.now state.old }
    requires size { length marks.now ≡ length instance.now.nodes }
    requires offer { IsOffer instance.now offer.group.0 offer.place }
    ensures { OnOk result (IsMoved instance.now marks.now state.old state.new) }
{
    let most = most_from(instance, state, offer, source);
    let wanted = Move {
        offer,
        source,
        units: most,
    };
    make_room(instance, state, marks, search, wanted);
    let room = room_for(instance, state, offer, source, most);
    free_source(instance, state, marks, search, source, room);
    take_up(instance, state, marks, search, offer, room)
}

/// Moves units of a group up to an offer. Where it has none to move, its pointer goes back. Says whether something changed.
fn step(
    instance: &Instance,
    state: &mut State,
    marks: &[bool],
    search: &mut Search<'_>,
    offer: Offer,
) -> Result<bool, NoMemory>
    requires is_open { IsOpen instance.now state.old }
    requires size { length marks.now ≡ length instance.now.nodes }
    requires offer { IsOffer instance.now offer.group.0 offer.place }
    ensures { OnOk result (IsMoved instance.now marks.now state.old state.new) }
{
    match source_of(instance, state, offer) {
        Some(source) => shift_up(instance, state, marks, search, offer, source),
        None => {
            set_back(instance, state, marks, offer.group, offer.place);
            Ok(state.pointer(offer.group) == offer.place)
        }
    }
}

/// A step at the best loose offer under a node. Says whether something changed.
fn step_under(
    instance: &Instance,
    state: &mut State,
    marks: &[bool],
    search: &mut Search<'_>,
    node: NodeId,
) -> Result<bool, NoMemory>
    requires is_open { IsOpen instance.now state.old }
    requires size { length marks.now ≡ length instance.now.nodes }
    ensures { OnOk result (IsMoved instance.now marks.now state.old state.new) }
{
    if room_of(instance, state, node) == 0 {
        return Ok(false);
    }
    match search.best_under(instance, state, node) {
        Some(offer) if is_offer(instance, offer) => step(instance, state, marks, search, offer),
        _ => Ok(false),
    }
}

/// One turn: a step under an open node, or the node is open no longer.
fn turn(
    instance: &Instance,
    state: &mut State,
    marks: &[bool],
    search: &mut Search<'_>,
    node: NodeId,
) -> Result<(), NoMemory>
    requires is_open { IsOpen instance.now state.old }
    requires size { length marks.now ≡ length instance.now.nodes }
    ensures { OnOk result (IsMoved instance.now marks.now state.old state.new) }
{
    if !step_under(instance, state, marks, search, node)? {
        search.open.remove(node);
    }
    Ok(())
}

/// How many offers are looked at for a turn, on the average, before moving up is given up: more would take longer than to send
/// groups back.
const LOOKS_A_TURN: u64 = 256;

/// Moves units of a state that was cut up to places whose nodes have room again, in marked trees alone: one offer after
/// another, the best first under the topmost node, in at most so many turns. The search was begun before the cut. How many
/// turns it made is the result.
///
/// No clause says that the state is resumable then.
///
/// # Errors
///
/// `NoMemory`; the state is only to be dropped then.
pub fn move_up(
    old: &Instance,
    new: &Instance,
    state: &mut State,
    marks: &[bool],
    search: &mut Search<'_>,
    turns: u64,
) -> Result<u64, NoMemory>
    requires is_open { IsOpen new.now state.old }
    requires shape { IsSameShape old.now new.now }
    requires size { length marks.now ≡ length new.now.nodes }
    ensures moved { OnOk result (IsMoved new.now marks.now state.old state.new) }
    ensures few { IfOk result (λ made. made ≤ turns) }
{
    settle_lowered(old, new, state, marks);
    search.open = opened(new, state, &search.open);
    let most = turns.saturating_mul(LOOKS_A_TURN);
    for made in 0..turns {
        let node = match search.open.first() {
            Some(node) if search.looks() <= most => node,
            _ => return Ok(made),
        };
        turn(new, state, marks, search, node)?;
    }
    Ok(turns)
}
