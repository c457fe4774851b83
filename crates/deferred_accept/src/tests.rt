//! Small worlds, whose maps were found by trying every one, and worlds in which groups displace each
//! other round a circle.

ghost use Rattle.std.specs.Prelude.{◌≡◌, ℕ, ◌<◌, ◌||◌, All, OnOk, length};
ghost use Rattle.map_model.specs.Progress.{IsEnded};
ghost use Rattle.evict.specs.Standing.{IsReady};
ghost use Rattle.deferred_accept.specs.Work.{gave_any, is_on};

use crate::work::{next_offer, offer_or_skip};
use crate::work_list::WorkList;
use crate::{finish, run};
use evict::{Eviction, Freed, State};
use map_model::{
    By, Choice, ClientGroup, Instance, MapLine, MapLines, NO_LIMIT, NameLine, Node, NodeId,
    Proposals, Steps,
};
use no_memory::NoMemory;
use std::alloc::Global;
use worlds::{
    EMPTY_POOL, EXAMPLE, FULL_REGION, GroupAt, INNER, LIMIT, LimitAt, NameAt, NodeAt, POOL, Placed,
    REFUSER_NO_LONGER_FULL, World, instance_of, limited_instance_of,
};

const WORLDS: &[World] = &[
    EXAMPLE,
    REFUSER_NO_LONGER_FULL,
    FULL_REGION,
    // Each of the first two groups has its better pool: the other good map is worse for both.
    World {
        name: "two good maps",
        nodes: &[(1, None, POOL), (1, None, POOL), (5, None, POOL)],
        groups: &[
            (1, &[(0, 2), (1, 1)]),
            (1, &[(1, 2), (0, 1)]),
            (2, &[(2, 1)]),
        ],
        lines: &[(0, 0, 1), (1, 0, 1), (2, 0, 2)],
        names: &[],
    },
    EMPTY_POOL,
    // Computed by bench/smallest_worlds.py, which tries every map and makes no proposals.
    World {
        name: "three levels, the middle one closed",
        nodes: &[
            (4, None, INNER),
            (0, Some(0), INNER),
            (3, Some(0), POOL),
            (2, Some(1), POOL),
        ],
        groups: &[(1, &[(3, 1)]), (2, &[(2, 3)])],
        lines: &[(1, 0, 2)],
        names: &[(0, 0, 1)],
    },
    World {
        name: "three levels",
        nodes: &[
            (3, None, INNER),
            (4, Some(0), INNER),
            (2, Some(0), POOL),
            (4, Some(1), POOL),
        ],
        groups: &[
            (1, &[(3, 3), (2, 2)]),
            (1, &[(2, 2)]),
            (2, &[(3, 2), (2, 1)]),
        ],
        lines: &[(0, 1, 1), (2, 0, 1), (2, 1, 1)],
        names: &[(0, 0, 0), (1, 0, 2), (2, 0, 0)],
    },
    World {
        name: "two trees, two stable maps",
        nodes: &[(3, None, INNER), (4, None, POOL), (1, Some(0), POOL)],
        groups: &[
            (2, &[(2, 2), (1, 2)]),
            (2, &[(1, 3), (2, 1)]),
            (1, &[(2, 2), (1, 2)]),
        ],
        lines: &[(0, 0, 1), (0, 1, 1), (1, 0, 2), (2, 1, 1)],
        names: &[(0, 0, 2), (2, 0, 2)],
    },
    World {
        name: "one region, two stable maps",
        nodes: &[(3, None, INNER), (2, Some(0), POOL), (2, Some(0), POOL)],
        groups: &[
            (2, &[(2, 3), (1, 3)]),
            (1, &[(2, 3), (1, 1)]),
            (2, &[(2, 1), (1, 1)]),
        ],
        lines: &[(1, 1, 1), (2, 0, 2)],
        names: &[(0, 0, 2), (0, 1, 0), (1, 0, 2)],
    },
    World {
        name: "all at their first place",
        nodes: &[
            (4, None, INNER),
            (4, Some(0), INNER),
            (2, Some(0), POOL),
            (4, Some(1), POOL),
        ],
        groups: &[(3, &[(3, 3), (2, 2)]), (1, &[(2, 2), (3, 2)])],
        lines: &[(0, 0, 3), (1, 0, 1)],
        names: &[],
    },
];

/// The map that a run ends with, and how many proposals it counted.
fn end(alloc: Global, instance: &Instance) -> Result<(MapLines, u64), NoMemory> {
    let mut state = State::fresh(alloc, instance)?;
    let mut steps: Steps<Proposals> = Steps::new();
    run(alloc, instance, &mut state, &mut steps)?;
    let map = finish(alloc, instance, state)?;
    Ok((map, steps.count()))
}

fn is_line(line: &MapLine, row: &Placed) -> bool {
    (line.group.0, line.place, line.amount) == *row
}

fn are_lines(lines: &[MapLine], rows: &[Placed]) -> bool {
    lines.len() == rows.len() && lines.iter().zip(rows).all(|(line, row)| is_line(line, row))
}

fn is_name(name: &NameLine, row: &NameAt) -> bool {
    let by = match name.by {
        By::Limit => LIMIT,
        By::Node(node) => node.0,
    };
    (name.group.0, name.place, by) == *row
}

fn are_names(names: &[NameLine], rows: &[NameAt]) -> bool {
    names.len() == rows.len() && names.iter().zip(rows).all(|(name, row)| is_name(name, row))
}

/// Whether a map is the one that is expected. It is `false` here and below where memory is wanting.
fn is_map(map: &MapLines, world: &World) -> bool {
    are_lines(map.lines.as_slice(), world.lines) && are_names(map.names.as_slice(), world.names)
}

/// Whether the map of an instance from scratch is the one that is expected.
fn ends_in(alloc: Global, instance: &Instance, world: &World) -> bool {
    match end(alloc, instance) {
        Ok((map, _)) => is_map(&map, world),
        Err(_) => false,
    }
}

fn is_mapped(alloc: Global, world: &World) -> bool {
    match world.instance(alloc) {
        Ok(Some(instance)) => ends_in(alloc, &instance, world),
        _ => false,
    }
}

/// The name of the first world whose map is not the expected one.
fn wrong_world(alloc: Global, worlds: &[World]) -> Option<&'static str> {
    for world in worlds {
        if !is_mapped(alloc, world) {
            return Some(world.name);
        }
    }
    None
}

#[test]
fn maps_small_worlds(rt: HostRuntime) {
    assert_eq!(rt; wrong_world(rt.alloc(), WORLDS), None);
}

/// Puts the groups that gave up units in front of all others.
fn wake_first(work: &mut WorkList, freed: &[Eviction]) -> Result<(), NoMemory>
    requires { All (λ e. e.offer.group.0 < length work.old) freed.now }
    ensures count { OnOk result (length work.new ≡ length work.old) }
    ensures each { OnOk result ((h : ℕ) → h < length work.old → is_on work.new h
        ≡ (is_on work.old h || gave_any freed.now h)) }
{
    for eviction in freed {
        work.add_first(eviction.offer.group)?;
    }
    Ok(())
}

/// A run that only makes proposals, one after another, in another order: whoever was woken last goes first.
fn plain_run(
    alloc: Global,
    instance: &Instance,
    state: &mut State,
    steps: &mut Steps<Proposals>,
) -> Result<(), NoMemory>
    requires { IsReady instance.now state.old }
    ensures ready { OnOk result (IsReady instance.now state.new) }
    ensures ended { OnOk result (IsEnded instance.now state.new.pointers state.new.free) }
{
    let mut freed = Freed::new(alloc);
    let mut work = WorkList::all(alloc, instance)?;
    while let Some(offer) = next_offer(instance, state, &mut work) {
        offer_or_skip(instance, state, offer, &mut freed, steps)?;
        let given_up = freed.evictions();
        work.add_first(offer.group)?;
        wake_first(&mut work, given_up)?;
    }
    Ok(())
}

/// The map that a run of proposals alone ends with, and how many there were.
fn plain_end(alloc: Global, instance: &Instance) -> Result<(MapLines, u64), NoMemory> {
    let mut state = State::fresh(alloc, instance)?;
    let mut steps: Steps<Proposals> = Steps::new();
    plain_run(alloc, instance, &mut state, &mut steps)?;
    let map = finish(alloc, instance, state)?;
    Ok((map, steps.count()))
}

const FIRST_OF_PAIR: &[(u32, u32)] = &[(0, 3), (1, 1)];

const SECOND_OF_PAIR: &[(u32, u32)] = &[(1, 2), (0, 1)];

const THIRD_OF_PAIR: &[(u32, u32)] = &[(0, 2)];

/// Two pools and two groups, each of which fills one. A pool likes best the group that likes it least.
/// The one unit of a third group comes between.
fn pair(alloc: Global, units: u32) -> Option<Instance> {
    limited_pair(alloc, units, &[])
}

/// The same with limits.
fn limited_pair(alloc: Global, units: u32, limits: &[LimitAt]) -> Option<Instance> {
    let room = u64::from(units);
    let nodes: [NodeAt; 2] = [(room, None, POOL), (room, None, POOL)];
    let groups: [GroupAt; 3] = [
        (units, FIRST_OF_PAIR),
        (units, SECOND_OF_PAIR),
        (1, THIRD_OF_PAIR),
    ];
    limited_instance_of(alloc, &nodes, &groups, limits).ok()?
}

/// The pools in turn from that one on, each with a lower score.
fn ring_list(alloc: Global, first: u32) -> Option<Vec<Choice>> {
    let mut choices = Vec::new(alloc);
    for place in 0..10u32 {
        let pool = NodeId((first % 10 + place) % 10);
        let score = 10 - place;
        let limit = NO_LIMIT;
        choices.push(Choice { pool, score, limit }).ok()?;
    }
    Some(choices)
}

fn ring_group(alloc: Global, units: u32, first: u32) -> Option<ClientGroup> {
    Some(ClientGroup::new(units, ring_list(alloc, first)?))
}

/// A group of one unit, which the first pool likes best.
fn one_more(alloc: Global) -> Option<ClientGroup> {
    let (pool, score) = (NodeId(0), 0);
    let limit = NO_LIMIT;
    let choices = vec![in alloc; Choice { pool, score, limit }].ok()?;
    Some(ClientGroup::new(1, choices))
}

fn ring_groups(alloc: Global, units: u32) -> Option<Vec<ClientGroup>> {
    let mut groups = Vec::new(alloc);
    for first in 0..10u32 {
        groups.push(ring_group(alloc, units, first)?).ok()?;
    }
    groups.push(one_more(alloc)?).ok()?;
    Some(groups)
}

fn ring_nodes(alloc: Global, units: u32) -> Option<Vec<Node>> {
    let pool = Node {
        capacity: u64::from(units),
        parent: None,
        is_pool: true,
    };
    vec![in alloc; pool; 10].ok()
}

/// Ten pools in a ring, and ten groups that ask them in turn, each from another one on. A pool likes
/// best the group that comes to it last. One more group has a unit that the first pool likes best.
fn ring(alloc: Global, units: u32) -> Option<Instance> {
    Instance::try_from_rows(ring_groups(alloc, units)?, ring_nodes(alloc, units)?)
}

/// Whether a run over an instance ends with these lines, after so many proposals where a number is stated.
fn ends_so(alloc: Global, instance: &Instance, lines: &[Placed], proposals: Option<u64>) -> bool {
    match end(alloc, instance) {
        Ok((map, count)) => {
            are_lines(map.lines.as_slice(), lines) && count == proposals.unwrap_or(count)
        }
        Err(_) => false,
    }
}

/// Whether each group of the pair stands whole in its last pool, after the proposals of two groups for each unit.
fn pair_turns(alloc: Global, units: u32) -> bool {
    match pair(alloc, units) {
        Some(instance) => {
            let proposals = u64::from(units) * 2 + 3;
            ends_so(
                alloc,
                &instance,
                &[(0, 1, units), (1, 1, units)],
                Some(proposals),
            )
        }
        None => false,
    }
}

/// Each group of the ring stands whole in its last pool, but the one that has to share that.
fn ring_lines(units: u32) -> [Placed; 11] {
    let mut lines = [(0, 9, units); 11];
    for (g, line) in lines.iter_mut().enumerate() {
        line.0 = g as u32;
    }
    lines[1].2 = units.saturating_sub(1);
    lines[10] = (10, 0, 1);
    lines
}

fn ring_turns(alloc: Global, units: u32) -> bool {
    match ring(alloc, units) {
        Some(instance) => ends_so(alloc, &instance, &ring_lines(units), None),
        None => false,
    }
}

// The third group's unit displaces one of the first group, which displaces one of the second, and so
// on: each of the two offers units at its last pool as often as it has units.
#[test]
fn turns_the_pair(rt: HostRuntime) {
    assert!(rt; pair_turns(rt.alloc(), 50));
    assert!(rt; pair_turns(rt.alloc(), u32::MAX));
}

#[test]
fn turns_the_ring(rt: HostRuntime) {
    assert!(rt; ring_turns(rt.alloc(), 40));
    assert!(rt; ring_turns(rt.alloc(), u32::MAX));
}

/// Whether a run and one of proposals alone end with the same lines; after as many proposals, too, where that is asked.
fn both_end_so(alloc: Global, instance: &Instance, counts: bool) -> bool {
    match (end(alloc, instance), plain_end(alloc, instance)) {
        (Ok((map, count)), Ok((plain, counted))) => {
            map.lines.as_slice() == plain.lines.as_slice() && (!counts || count == counted)
        }
        _ => false,
    }
}

fn ends_as_proposals_do(alloc: Global, instance: Option<Instance>, counts: bool) -> bool {
    match instance {
        Some(instance) => both_end_so(alloc, &instance, counts),
        None => false,
    }
}

#[test]
fn turns_as_proposals_would(rt: HostRuntime) {
    assert!(rt; ends_as_proposals_do(rt.alloc(), pair(rt.alloc(), 50), true));
    assert!(rt; ends_as_proposals_do(rt.alloc(), ring(rt.alloc(), 40), false));
}

/// The example of README with at most five units of the first group at its better pool: the other three
/// stand in the second pool, and the second group has what is left of both.
const LIMITED: World = World {
    name: "two-level eviction with limits",
    nodes: &[(15, None, INNER), (10, Some(0), POOL), (10, Some(0), POOL)],
    groups: &[(8, &[(1, 1), (2, 2)]), (8, &[(1, 3), (2, 4)])],
    lines: &[(0, 0, 5), (0, 1, 3), (1, 0, 5), (1, 1, 2)],
    names: &[(0, 0, LIMIT), (1, 0, 1), (1, 1, 0)],
};

fn ends_limited(alloc: Global) -> bool {
    match limited_instance_of(
        alloc,
        LIMITED.nodes,
        LIMITED.groups,
        &[(0, 0, 5), (0, 1, 10)],
    ) {
        Ok(Some(instance)) => ends_in(alloc, &instance, &LIMITED),
        _ => false,
    }
}

#[test]
fn keeps_within_limits(rt: HostRuntime) {
    assert!(rt; ends_limited(rt.alloc()));
}

/// Whether units of the pair go round until the first group's offer at its last pool is at its limit; one
/// unit of that group is left.
fn pair_stops(alloc: Global, units: u32, limit: u32) -> bool {
    match limited_pair(alloc, units, &[(0, 1, limit)]) {
        Some(instance) => {
            let proposals = u64::from(limit) * 2 + 3;
            let rest = units.saturating_sub(limit);
            ends_so(
                alloc,
                &instance,
                &[
                    (0, 0, rest.saturating_sub(1)),
                    (0, 1, limit),
                    (1, 0, rest),
                    (1, 1, limit),
                    (2, 0, 1),
                ],
                Some(proposals),
            )
        }
        None => false,
    }
}

#[test]
fn stops_at_the_limit(rt: HostRuntime) {
    assert!(rt; pair_stops(rt.alloc(), 50, 20));
    assert!(rt; pair_stops(rt.alloc(), u32::MAX, 1 << 31));
}
