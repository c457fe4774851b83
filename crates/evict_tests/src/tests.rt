//! Plays by hand, put by put.

ghost use Rattle.std.specs.Prelude.{IfSome};
ghost use Rattle.evict.specs.Standing.{IsReady};

use evict::{Eviction, Freed, State};
use map_model::{By, GroupId, Instance, MapLine, NodeId, Offer, Proposals, Steps, Units};
use std::alloc::Global;
use worlds::{GroupAt, INNER, LIMIT, LimitAt, NodeAt, POOL, Placed, limited_instance_of};

/// A group offers all its free units at its pointer, and what is so afterwards.
struct Turn {
    group: u32,
    /// The place and the units that are offered.
    offered: (u8, u64),
    /// Group, place and units of what is given up.
    freed: &'static [(u32, u8, u64)],
    /// Of each node.
    loads: &'static [u64],
    /// Of each group.
    pointers: &'static [u8],
    free: &'static [u64],
    /// Group, place and what refuses it, if anything: a node, or the limit.
    refusers: &'static [(u32, u8, Option<u32>)],
    /// Group, place and whom it would displace, if anybody: the node, and the group, place and units.
    rivals: &'static [(u32, u8, Option<(u32, u32, u8, u64)>)],
}

/// Turns on an instance, worked out by hand.
struct Play {
    name: &'static str,
    nodes: &'static [NodeAt],
    groups: &'static [GroupAt],
    limits: &'static [LimitAt],
    turns: &'static [Turn],
    /// What is held at the end.
    lines: &'static [Placed],
}

const PLAYS: &[Play] = &[
    // The worse group comes first. It is turned away in part at its better pool and then at the root.
    Play {
        name: "two-level eviction",
        nodes: &[(15, None, INNER), (10, Some(0), POOL), (10, Some(0), POOL)],
        groups: &[(8, &[(1, 1), (2, 2)]), (8, &[(1, 3), (2, 4)])],
        limits: &[],
        turns: &[
            Turn {
                group: 1,
                offered: (0, 8),
                freed: &[],
                loads: &[8, 8, 0],
                pointers: &[0, 0],
                free: &[8, 0],
                refusers: &[(1, 0, None)],
                rivals: &[(0, 0, None)],
            },
            Turn {
                group: 0,
                offered: (0, 8),
                freed: &[(1, 0, 6)],
                loads: &[10, 10, 0],
                pointers: &[0, 1],
                free: &[0, 6],
                refusers: &[(1, 0, Some(1)), (1, 1, None)],
                rivals: &[(0, 0, Some((1, 1, 0, 2))), (1, 1, None)],
            },
            Turn {
                group: 1,
                offered: (1, 6),
                freed: &[(1, 1, 1)],
                loads: &[15, 10, 5],
                pointers: &[0, 2],
                free: &[0, 1],
                refusers: &[(1, 0, Some(1)), (1, 1, Some(0)), (0, 1, None)],
                rivals: &[(0, 0, Some((1, 1, 0, 2))), (0, 1, Some((0, 1, 1, 5)))],
            },
        ],
        lines: &[(0, 0, 8), (1, 0, 2), (1, 1, 5)],
    },
    // The second group gives back all that it offers. Its pool is full then and refuses it, and is not
    // full once the third group has come: the root refuses then.
    Play {
        name: "refuser no longer full",
        nodes: &[(10, None, INNER), (6, Some(0), POOL), (10, Some(0), POOL)],
        groups: &[(6, &[(1, 5)]), (4, &[(1, 6)]), (8, &[(2, 1)])],
        limits: &[],
        turns: &[
            Turn {
                group: 0,
                offered: (0, 6),
                freed: &[],
                loads: &[6, 6, 0],
                pointers: &[0, 0, 0],
                free: &[0, 4, 8],
                refusers: &[(2, 0, None)],
                rivals: &[(1, 0, Some((1, 0, 0, 6))), (2, 0, None)],
            },
            Turn {
                group: 1,
                offered: (0, 4),
                freed: &[(1, 0, 4)],
                loads: &[6, 6, 0],
                pointers: &[0, 1, 0],
                free: &[0, 4, 8],
                refusers: &[(1, 0, Some(1))],
                rivals: &[(1, 0, Some((1, 0, 0, 6)))],
            },
            Turn {
                group: 2,
                offered: (0, 8),
                freed: &[(0, 0, 4)],
                loads: &[10, 2, 8],
                pointers: &[1, 1, 0],
                free: &[4, 4, 0],
                refusers: &[(0, 0, Some(0)), (1, 0, Some(0)), (2, 0, None)],
                rivals: &[(0, 0, Some((0, 0, 0, 2))), (2, 0, Some((0, 0, 0, 2)))],
            },
        ],
        lines: &[(0, 0, 2), (2, 0, 8)],
    },
    // The pool, the node above it and the root each turn some away.
    Play {
        name: "three levels",
        nodes: &[(5, None, INNER), (7, Some(0), INNER), (9, Some(1), POOL)],
        groups: &[(12, &[(2, 1)])],
        limits: &[],
        turns: &[Turn {
            group: 0,
            offered: (0, 12),
            freed: &[(0, 0, 3), (0, 0, 2), (0, 0, 2)],
            loads: &[5, 5, 5],
            pointers: &[1],
            free: &[7],
            refusers: &[(0, 0, Some(0))],
            rivals: &[(0, 0, Some((0, 0, 0, 5)))],
        }],
        lines: &[(0, 0, 5)],
    },
    // The limit refuses the first group while it is full. Then the group loses units, and the pool refuses it.
    Play {
        name: "limit, and then pool",
        nodes: &[(5, None, POOL)],
        groups: &[(3, &[(0, 2)]), (4, &[(0, 1)])],
        limits: &[(0, 0, 3)],
        turns: &[
            Turn {
                group: 0,
                offered: (0, 3),
                freed: &[],
                loads: &[3],
                pointers: &[0, 0],
                free: &[0, 4],
                refusers: &[(0, 0, Some(LIMIT)), (1, 0, None)],
                rivals: &[(1, 0, None)],
            },
            Turn {
                group: 1,
                offered: (0, 4),
                freed: &[(0, 0, 2)],
                loads: &[5],
                pointers: &[1, 0],
                free: &[2, 0],
                refusers: &[(0, 0, Some(0)), (1, 0, None)],
                rivals: &[(1, 0, Some((0, 0, 0, 1)))],
            },
        ],
        lines: &[(0, 0, 1), (1, 0, 4)],
    },
];

/// Offers all the free units of a group at its pointer, where it has both. Answers them; none where memory is wanting.
fn offer_all(
    instance: &Instance,
    state: &mut State,
    group: GroupId,
    freed: &mut Freed,
    steps: &mut Steps<Proposals>,
) -> Option<(u8, Units)>
    requires { IsReady instance.now state.old }
    ensures { IfSome result (λ _. IsReady instance.now state.new) }
{
    if group.0 >= instance.groups() {
        return None;
    }
    let place = state.pointer(group);
    if place >= instance.list_len(group) {
        return None;
    }
    let units = state.free(group);
    let offer = Offer { group, place };
    let limit = Units::from(instance.limit(group, place));
    if units > limit || state.units(offer) > limit - units {
        return None;
    }
    match state.put(instance, offer, units, freed, steps) {
        Ok(()) => Some((place, units)),
        Err(_) => None,
    }
}

/// Whether that was given up, in that order.
fn has_freed(freed: &[Eviction], expected: &[(u32, u8, u64)]) -> bool {
    for i in 0..freed.len() {
        let eviction = freed[i];
        let plain = (eviction.offer.group.0, eviction.offer.place, eviction.units);
        if i >= expected.len() || plain != expected[i] {
            return false;
        }
    }
    freed.len() == expected.len()
}

/// Whether that is held.
fn are_lines(lines: &[MapLine], expected: &[Placed]) -> bool {
    for i in 0..lines.len() {
        let line = lines[i];
        if i >= expected.len() || (line.group.0, line.place, line.amount) != expected[i] {
            return false;
        }
    }
    lines.len() == expected.len()
}

/// Whether the nodes have those loads.
fn has_loads(instance: &Instance, state: &State, loads: &[u64]) -> bool
    requires { IsReady instance.now state.now }
{
    for n in 0..instance.nodes() {
        if n as usize >= loads.len() || state.load(NodeId(n)) != loads[n as usize] {
            return false;
        }
    }
    true
}

/// Whether the groups have those pointers and free units.
fn has_groups(instance: &Instance, state: &State, pointers: &[u8], free: &[u64]) -> bool
    requires { IsReady instance.now state.now }
{
    for g in 0..instance.groups() {
        let i = g as usize;
        if i >= pointers.len() || state.pointer(GroupId(g)) != pointers[i] {
            return false;
        }
        if i >= free.len() || state.free(GroupId(g)) != free[i] {
            return false;
        }
    }
    true
}

/// What refuses, by the number of a row.
fn by_of(by: u32) -> By {
    if by == LIMIT {
        By::Limit
    } else {
        By::Node(NodeId(by))
    }
}

/// Whether that node refuses an offer, or none does.
fn has_refuser(instance: &Instance, state: &State, offer: Offer, node: Option<u32>) -> bool
    requires { IsReady instance.now state.now }
{
    if offer.group.0 >= instance.groups() || offer.place >= instance.list_len(offer.group) {
        return false;
    }
    state.refuser(instance, offer) == node.map(by_of)
}

/// Whether those nodes refuse those offers.
fn has_refusers(instance: &Instance, state: &State, refusers: &[(u32, u8, Option<u32>)]) -> bool
    requires { IsReady instance.now state.now }
{
    for &(group, place, node) in refusers {
        let offer = Offer {
            group: GroupId(group),
            place,
        };
        if !has_refuser(instance, state, offer, node) {
            return false;
        }
    }
    true
}

/// Whether an offer would displace that offer with those units, at that node, or nobody.
fn has_rival(
    instance: &Instance,
    state: &State,
    offer: Offer,
    expected: Option<(u32, u32, u8, u64)>,
) -> bool
    requires { IsReady instance.now state.now }
{
    if offer.group.0 >= instance.groups() || offer.place >= instance.list_len(offer.group) {
        return false;
    }
    match state.rival(instance, offer) {
        Some(rival) => {
            let worst = rival.offer;
            expected == Some((rival.node.0, worst.group.0, worst.place, rival.units))
        }
        None => expected.is_none(),
    }
}

/// Whether those offers would displace those.
fn has_rivals(
    instance: &Instance,
    state: &State,
    rivals: &[(u32, u8, Option<(u32, u32, u8, u64)>)],
) -> bool
    requires { IsReady instance.now state.now }
{
    for &(group, place, rival) in rivals {
        let offer = Offer {
            group: GroupId(group),
            place,
        };
        if !has_rival(instance, state, offer, rival) {
            return false;
        }
    }
    true
}

/// What is wrong after a turn, if anything is.
fn wrong_after(
    instance: &Instance,
    state: &State,
    freed: &Freed,
    turn: &Turn,
) -> Option<&'static str>
    requires { IsReady instance.now state.now }
{
    if !has_freed(freed.evictions(), turn.freed) {
        return Some("freed");
    }
    if !has_loads(instance, state, turn.loads) {
        return Some("loads");
    }
    if !has_groups(instance, state, turn.pointers, turn.free) {
        return Some("pointers or free units");
    }
    if !has_refusers(instance, state, turn.refusers) {
        return Some("refusers");
    }
    if !has_rivals(instance, state, turn.rivals) {
        return Some("rivals");
    }
    None
}

/// What is wrong after the first turn that is not as expected, if one is not.
fn first_wrong(
    instance: &Instance,
    state: &mut State,
    steps: &mut Steps<Proposals>,
    freed: &mut Freed,
    turns: &[Turn],
) -> Option<&'static str>
    requires { IsReady instance.now state.old }
{
    for turn in turns {
        let Some(offered) = offer_all(instance, state, GroupId(turn.group), freed, steps) else {
            return Some("no offer");
        };
        if offered != turn.offered {
            return Some("offered");
        }
        let wrong = wrong_after(instance, state, freed, turn);
        if wrong.is_some() {
            return wrong;
        }
    }
    None
}

/// Whether a state holds that.
fn has_lines(alloc: Global, state: &State, expected: &[Placed]) -> bool {
    match state.lines(alloc) {
        Ok(lines) => are_lines(lines.as_slice(), expected),
        Err(_) => false,
    }
}

/// What is wrong in the turns of a play and at its end, if anything is.
fn wrong_over(alloc: Global, instance: &Instance, play: &Play) -> Option<&'static str> {
    let Ok(mut state) = State::fresh(alloc, instance) else {
        return Some("memory");
    };
    let mut freed = Freed::new(alloc);
    let mut steps: Steps<Proposals> = Steps::new();
    let wrong = first_wrong(instance, &mut state, &mut steps, &mut freed, play.turns);
    if wrong.is_some() {
        return wrong;
    }
    if steps.count() != play.turns.len() as u64 {
        return Some("steps");
    }
    if !has_lines(alloc, &state, play.lines) {
        return Some("lines");
    }
    None
}

/// What is wrong in a play, if anything is.
fn wrong_in(alloc: Global, play: &Play) -> Option<&'static str> {
    match limited_instance_of(alloc, play.nodes, play.groups, play.limits) {
        Ok(Some(instance)) => wrong_over(alloc, &instance, play),
        _ => Some("no instance"),
    }
}

/// The name of the first play in which something is wrong, and what.
fn wrong_play(alloc: Global, plays: &[Play]) -> Option<(&'static str, &'static str)> {
    for play in plays {
        if let Some(wrong) = wrong_in(alloc, play) {
            return Some((play.name, wrong));
        }
    }
    None
}

#[test]
fn plays_by_hand(rt: HostRuntime) {
    assert_eq!(rt; wrong_play(rt.alloc(), PLAYS), None);
}
