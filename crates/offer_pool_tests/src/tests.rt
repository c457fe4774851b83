//! What is held, beside a plain scan of all offers.

ghost use Rattle.std.specs.Prelude.{◌≡◌, IfSome};
ghost use Rattle.map_model.specs.Allocation.{IsOffer};

use map_model::{GroupId, Instance, Key, MapLine, MapLines, NodeId, Offer, Units};
use offer_pool::Held;
use std::alloc::Global;
use worlds::{GroupAt, INNER, NodeAt, POOL, Placed, instance_of};

/// R; S under R; A and B under S; C under R; and the root D. All but R and S are pools.
const NODES: &[NodeAt] = &[
    (9, None, INNER),
    (9, Some(0), INNER),
    (9, Some(1), POOL),
    (9, Some(1), POOL),
    (9, Some(0), POOL),
    (9, None, POOL),
];

/// The pools and the scores of three groups.
const GROUPS: &[GroupAt] = &[
    (20, &[(2, 5), (4, 1), (5, 2)]),
    (20, &[(3, 5), (2, 5)]),
    (20, &[(4, 0), (3, 9)]),
];

/// The amounts of all offers, in a plain list of three places for each group.
type Amounts = [Units; 9];

/// The group and the place of the amount with that number.
fn offer_at(at: u32) -> (u32, u8) {
    (at / 3, (at % 3) as u8)
}

/// An offer of the instance, if it is one.
fn offer_of(instance: &Instance, group: u32, place: u8) -> Option<Offer>
    ensures { IfSome result (λ o. IsOffer instance.now o.group.0 o.place) }
{
    let group = GroupId(group);
    if group.0 >= instance.groups() {
        return None;
    }
    if place >= instance.list_len(group) {
        return None;
    }
    Some(Offer { group, place })
}

/// The node above one, if there is one.
fn above(instance: &Instance, node: NodeId) -> Option<NodeId> {
    if node.0 < instance.nodes() {
        instance.parent(node)
    } else {
        None
    }
}

fn stands_under(instance: &Instance, pool: NodeId, node: NodeId) -> bool {
    let mut at = Some(pool);
    for _step in 0..8usize {
        let Some(here) = at else {
            return false;
        };
        if here == node {
            return true;
        }
        at = above(instance, here);
    }
    false
}

/// An offer that holds so many units, with its key.
type Seat = (Key, Offer, Units);

/// The seat of an offer under a node, if it holds any there.
fn seat_under(
    instance: &Instance,
    node: NodeId,
    group: u32,
    place: u8,
    units: Units,
) -> Option<Seat> {
    let offer = offer_of(instance, group, place)?;
    if units > 0 && stands_under(instance, instance.pool_at(offer), node) {
        Some((instance.key(offer), offer, units))
    } else {
        None
    }
}

/// The seat of the greater key.
fn worse(one: Option<Seat>, other: Option<Seat>) -> Option<Seat> {
    match (one, other) {
        (Some(one), Some(other)) => Some(if other.0 > one.0 { other } else { one }),
        (Some(one), None) => Some(one),
        (None, other) => other,
    }
}

/// The plain program: a scan of all offers.
fn scan(instance: &Instance, amounts: &Amounts, node: NodeId) -> Option<(Offer, Units)> {
    let mut worst = None;
    for (units, at) in amounts.iter().zip(0..9u32) {
        let (group, place) = offer_at(at);
        worst = worse(worst, seat_under(instance, node, group, place, *units));
    }
    worst.map(|(_, offer, units)| (offer, units))
}

/// Whether both programs find the same worst offer under a node.
fn agree_under(instance: &Instance, held: &Held, amounts: &Amounts, node: NodeId) -> bool
    requires { held.now.market ≡ instance.now }
{
    if node.0 >= instance.nodes() {
        return false;
    }
    held.worst_under(node) == scan(instance, amounts, node)
}

fn agree_under_all(instance: &Instance, held: &Held, amounts: &Amounts) -> bool
    requires { held.now.market ≡ instance.now }
{
    for node in 0..instance.nodes() {
        if !agree_under(instance, held, amounts, NodeId(node)) {
            return false;
        }
    }
    true
}

/// Whether an offer holds so many units.
fn holds(instance: &Instance, held: &Held, at: u32, units: Units) -> bool
    requires { held.now.market ≡ instance.now }
{
    let (group, place) = offer_at(at);
    match offer_of(instance, group, place) {
        Some(offer) => held.units(offer) == units,
        None => units == 0,
    }
}

fn hold_all(instance: &Instance, held: &Held, amounts: &Amounts) -> bool
    requires { held.now.market ≡ instance.now }
{
    for (units, at) in amounts.iter().zip(0..9u32) {
        if !holds(instance, held, at, *units) {
            return false;
        }
    }
    true
}

/// Whether the fast program and the plain one agree at every node and every offer.
fn agree(instance: &Instance, held: &Held, amounts: &Amounts) -> bool
    requires { held.now.market ≡ instance.now }
{
    agree_under_all(instance, held, amounts) && hold_all(instance, held, amounts)
}

/// What is put or taken, as in the name.
#[derive(Clone, Copy, PartialEq, Eq)]
enum Way {
    Put,
    Take,
}

/// Units of a group at a place of its list that are put or taken.
type Step = (Way, Placed);

const STEPS: &[Step] = &[
    (Way::Put, (0, 0, 7)),
    (Way::Put, (1, 1, 3)),
    (Way::Put, (2, 1, 2)),
    (Way::Put, (0, 1, 4)),
    (Way::Take, (2, 1, 2)),
    (Way::Put, (1, 0, 1)),
    (Way::Put, (0, 0, 1)),
    (Way::Take, (1, 1, 1)),
    (Way::Take, (1, 1, 2)),
    (Way::Take, (1, 0, 1)),
    (Way::Put, (2, 0, 0)),
    (Way::Put, (1, 1, 9)),
    (Way::Put, (0, 2, 5)),
];

/// Puts units, if fewer than a thousand are there and come. It is `false` here and below where memory is wanting.
fn puts(held: &mut Held, offer: Offer, units: u32) -> bool
    requires { IsOffer held.old.market offer.group.0 offer.place }
    ensures { held.new.market ≡ held.old.market }
{
    if units >= 1_000 || held.units(offer) >= 1_000 {
        return false;
    }
    held.put(offer, Units::from(units)).is_ok()
}

/// Takes units, if so many are there.
fn takes(held: &mut Held, offer: Offer, units: u32) -> bool
    requires { IsOffer held.old.market offer.group.0 offer.place }
    ensures { held.new.market ≡ held.old.market }
{
    let units = Units::from(units);
    if units > held.units(offer) {
        return false;
    }
    held.take(offer, units);
    true
}

/// The same in the plain list.
fn note(amounts: &mut Amounts, way: Way, placed: Placed) -> bool {
    let (group, place, units) = placed;
    let at = group.saturating_mul(3).saturating_add(u32::from(place));
    let Some(amount) = amounts.get_mut(at as usize) else {
        return false;
    };
    *amount = match way {
        Way::Put => amount.saturating_add(Units::from(units)),
        Way::Take => amount.saturating_sub(Units::from(units)),
    };
    true
}

fn moves(instance: &Instance, held: &mut Held, way: Way, placed: Placed) -> bool
    requires { held.old.market ≡ instance.now }
    ensures { held.new.market ≡ instance.now }
{
    let (group, place, units) = placed;
    let Some(offer) = offer_of(instance, group, place) else {
        return false;
    };
    match way {
        Way::Put => puts(held, offer, units),
        Way::Take => takes(held, offer, units),
    }
}

/// Whether a step can be made and both programs agree after it.
fn step_agrees(instance: &Instance, held: &mut Held, amounts: &mut Amounts, step: Step) -> bool
    requires { held.old.market ≡ instance.now }
    ensures { held.new.market ≡ instance.now }
{
    let (way, placed) = step;
    moves(instance, held, way, placed)
        && note(amounts, way, placed)
        && agree(instance, held, amounts)
}

fn all_agree(instance: &Instance, held: &mut Held, amounts: &mut Amounts, steps: &[Step]) -> bool
    requires { held.old.market ≡ instance.now }
    ensures { held.new.market ≡ instance.now }
{
    for step in steps {
        if !step_agrees(instance, held, amounts, *step) {
            return false;
        }
    }
    true
}

/// Nothing held.
fn empty(alloc: Global, instance: &Instance) -> Option<Held>
    ensures { IfSome result (λ h. h.market ≡ instance.now) }
{
    let nothing = MapLines {
        lines: Vec::new(alloc),
        names: Vec::new(alloc),
    };
    match Held::build(alloc, instance, &nothing) {
        Ok(held) => Some(held),
        Err(_) => None,
    }
}

/// The same held, built from its lines.
fn again(alloc: Global, instance: &Instance, held: &Held) -> Option<Held>
    requires { held.now.market ≡ instance.now }
    ensures { IfSome result (λ h. h.market ≡ instance.now) }
{
    let Ok(lines) = held.lines(alloc) else {
        return None;
    };
    let map = MapLines {
        lines,
        names: Vec::new(alloc),
    };
    match Held::build(alloc, instance, &map) {
        Ok(held) => Some(held),
        Err(_) => None,
    }
}

/// The lines after all steps.
const LINES: &[Placed] = &[(0, 0, 8), (0, 1, 4), (0, 2, 5), (1, 1, 9)];

fn is_line(line: &MapLine, placed: &Placed) -> bool {
    (line.group.0, line.place, line.amount) == *placed
}

fn are_lines(lines: &[MapLine], rows: &[Placed]) -> bool {
    lines.len() == rows.len()
        && lines
            .iter()
            .zip(rows)
            .all(|(line, placed)| is_line(line, placed))
}

fn has_lines(alloc: Global, held: &Held, rows: &[Placed]) -> bool {
    match held.lines(alloc) {
        Ok(lines) => are_lines(lines.as_slice(), rows),
        Err(_) => false,
    }
}

/// A node, and the group, the place and the units of the worst offer under it after all steps.
type WorstRow = (u32, Option<(u32, u8, Units)>);

// Under A equal scores go by the group; R sees A before C, whose score is lower.
const WORST: &[WorstRow] = &[
    (2, Some((1, 1, 9))),
    (1, Some((1, 1, 9))),
    (0, Some((1, 1, 9))),
    (3, None),
];

fn has_worst(instance: &Instance, held: &Held, row: &WorstRow) -> bool
    requires { held.now.market ≡ instance.now }
{
    let (node, want) = row;
    if *node >= instance.nodes() {
        return false;
    }
    let worst = held.worst_under(NodeId(*node));
    worst.map(|(offer, units)| (offer.group.0, offer.place, units)) == *want
}

fn have_worst(instance: &Instance, held: &Held, rows: &[WorstRow]) -> bool
    requires { held.now.market ≡ instance.now }
{
    for row in rows {
        if !has_worst(instance, held, row) {
            return false;
        }
    }
    true
}

/// Whether that is held, and the same built from its lines agrees with the plain list too.
fn ends_so(alloc: Global, instance: &Instance, held: &Held, amounts: &Amounts) -> bool
    requires { held.now.market ≡ instance.now }
{
    let Some(again) = again(alloc, instance, held) else {
        return false;
    };
    has_lines(alloc, held, LINES)
        && agree(instance, &again, amounts)
        && have_worst(instance, &again, WORST)
}

/// Whether both programs agree at the start, after each step and at the end.
fn course_agrees(alloc: Global, instance: &Instance) -> bool {
    let Some(mut held) = empty(alloc, instance) else {
        return false;
    };
    let mut amounts = [0; 9];
    agree(instance, &held, &amounts)
        && all_agree(instance, &mut held, &mut amounts, STEPS)
        && ends_so(alloc, instance, &held, &amounts)
}

/// Puts and takes on a tree of three levels, against the scan after each one.
#[test]
fn agrees_with_a_scan(rt: HostRuntime) {
    let Ok(Some(instance)) = instance_of(rt.alloc(), NODES, GROUPS) else {
        assert!(rt; false, "no instance");
        return;
    };
    assert!(rt; course_agrees(rt.alloc(), &instance));
}
