//! Good maps of small worlds, of which it was told by hand whether a circle of groups can do better.
ghost use Rattle.std.specs.Prelude.{true, ◌≡◌, IfOk};
ghost use Rattle.map_model.specs.Allocation.{IsGood};

mod resumable;

use best_check::is_best;
use evict::State;
use map_model::{Instance, MapLines};
use no_memory::NoMemory;
use stable_check::{CheckRoom, Verdict, check};
use std::alloc::Global;
use std::test::Fail;
use worlds::{
    EMPTY_POOL, EXAMPLE, FULL_REGION, INNER, LIMIT, LimitAt, POOL, REFUSER_NO_LONGER_FULL,
    TWO_GOOD_MAPS, World, limited_instance_of,
};

/// A good map, limits of its offers, and whether it is the group-best one.
type Row = (World, &'static [LimitAt], bool);

/// The two groups of [`TWO_GOOD_MAPS`] at their first choices.
const BETTER_OF_TWO: World = World {
    name: "the better of two good maps",
    lines: &[(0, 0, 1), (1, 0, 1), (2, 0, 1)],
    names: &[],
    ..TWO_GOOD_MAPS
};

/// Each of three groups has its second choice, at which another one has its first.
const THREE_IN_A_CIRCLE: World = World {
    name: "three in a circle",
    nodes: &[(1, None, POOL), (1, None, POOL), (1, None, POOL)],
    groups: &[
        (1, &[(0, 2), (1, 1)]),
        (1, &[(1, 2), (2, 1)]),
        (1, &[(2, 2), (0, 1)]),
    ],
    lines: &[(0, 1, 1), (1, 1, 1), (2, 1, 1)],
    names: &[(0, 0, 0), (1, 0, 1), (2, 0, 2)],
};

/// Two groups would exchange, but one has a unit free, which would take the place that it leaves: (0, 1) is ranked above
/// (1, 0).
const UNIT_FREE: World = World {
    name: "a unit free",
    nodes: &[(1, None, POOL), (1, None, POOL)],
    groups: &[(2, &[(0, 2), (1, 1)]), (1, &[(1, 2), (0, 1)])],
    lines: &[(0, 1, 1), (1, 1, 1)],
    names: &[(0, 0, 0), (0, 1, 1), (1, 0, 1)],
};

/// The first group's pool has room, its region has none: the unit that fills the region is another group's, at another pool,
/// and that group would like to be where the first one is.
const THROUGH_A_REGION: World = World {
    name: "through a region",
    nodes: &[
        (1, None, INNER),
        (5, Some(0), POOL),
        (5, Some(0), POOL),
        (1, None, POOL),
    ],
    groups: &[(1, &[(1, 2), (3, 1)]), (1, &[(3, 2), (2, 1)])],
    lines: &[(0, 1, 1), (1, 1, 1)],
    names: &[(0, 0, 0), (1, 0, 3)],
};

/// The same groups at their first choices.
const THROUGH_A_REGION_BETTER: World = World {
    name: "through a region, better",
    lines: &[(0, 0, 1), (1, 0, 1)],
    names: &[],
    ..THROUGH_A_REGION
};

/// A group's own unit keeps it from its first choice, since both are in one full region.
const IN_ITS_OWN_WAY: World = World {
    name: "in its own way",
    nodes: &[(1, None, INNER), (1, Some(0), POOL), (1, Some(0), POOL)],
    groups: &[(1, &[(1, 2), (2, 1)])],
    lines: &[(0, 1, 1)],
    names: &[(0, 0, 0)],
};

/// The same group at its first choice.
const IN_NOBODYS_WAY: World = World {
    name: "in nobody's way",
    lines: &[(0, 0, 1)],
    names: &[],
    ..IN_ITS_OWN_WAY
};

/// A group that moves up leaves the last of its two places, and there nobody is in line.
const LAST_OF_TWO_PLACES: World = World {
    name: "last of two places",
    nodes: &[(1, None, POOL), (1, None, POOL), (1, None, POOL)],
    groups: &[(2, &[(0, 2), (1, 1), (2, 1)]), (1, &[(1, 2), (0, 1)])],
    lines: &[(0, 1, 1), (0, 2, 1), (1, 1, 1)],
    names: &[(0, 0, 0), (0, 1, 1), (1, 0, 1)],
};

/// A group that has as much at its first choice as it may: it does not take what another would leave there.
const AT_ITS_LIMIT: World = World {
    name: "at its limit",
    nodes: &[(2, None, POOL), (1, None, POOL)],
    groups: &[(2, &[(0, 2), (1, 1)]), (1, &[(1, 2), (0, 1)])],
    lines: &[(0, 0, 1), (0, 1, 1), (1, 1, 1)],
    names: &[(0, 0, LIMIT), (1, 0, 1)],
};

/// Two groups would exchange units, of which one may have one unit alone at its first choice.
const LIMITED_CIRCLE: World = World {
    name: "a circle under a limit",
    nodes: &[(2, None, POOL), (2, None, POOL)],
    groups: &[(2, &[(0, 2), (1, 1)]), (2, &[(1, 2), (0, 1)])],
    lines: &[(0, 1, 2), (1, 1, 2)],
    names: &[(0, 0, 0), (1, 0, 1)],
};

/// The same once that unit was exchanged.
const LIMITED_CIRCLE_BETTER: World = World {
    name: "a circle under a limit, better",
    lines: &[(0, 0, 1), (0, 1, 1), (1, 0, 1), (1, 1, 1)],
    names: &[(0, 0, LIMIT), (1, 0, 1)],
    ..LIMITED_CIRCLE
};

/// A closed node above the first choice: it holds nothing, is full, and refuses all.
const CLOSED_REGION: World = World {
    name: "a closed region",
    nodes: &[
        (5, None, INNER),
        (0, Some(0), INNER),
        (9, Some(1), POOL),
        (1, None, POOL),
    ],
    groups: &[(1, &[(2, 1), (3, 1)]), (1, &[(3, 2)])],
    lines: &[(0, 1, 1)],
    names: &[(0, 0, 1), (1, 0, 3)],
};

const ROWS: &[Row] = &[
    (LIMITED_CIRCLE, &[(0, 0, 1)], false),
    (LIMITED_CIRCLE_BETTER, &[(0, 0, 1)], true),
    (CLOSED_REGION, &[], true),
    (TWO_GOOD_MAPS, &[], false),
    (BETTER_OF_TWO, &[], true),
    (THREE_IN_A_CIRCLE, &[], false),
    (UNIT_FREE, &[], true),
    (THROUGH_A_REGION, &[], false),
    (THROUGH_A_REGION_BETTER, &[], true),
    (IN_ITS_OWN_WAY, &[], false),
    (IN_NOBODYS_WAY, &[], true),
    (LAST_OF_TWO_PLACES, &[], true),
    (AT_ITS_LIMIT, &[(0, 0, 1)], true),
    (EXAMPLE, &[], true),
    (FULL_REGION, &[], true),
    (REFUSER_NO_LONGER_FULL, &[], true),
    (EMPTY_POOL, &[], true),
];

/// Whether a map is good for an instance.
fn is_good(alloc: Global, instance: &Instance, map: &MapLines) -> Result<bool, NoMemory>
    ensures { IfOk result (λ good. good ≡ true
        → IsGood instance.now map.now.lines.items map.now.names.items) }
{
    let mut room = CheckRoom::new(alloc, instance)?;
    match check(instance, map, &mut room) {
        Verdict::Good => Ok(true),
        _ => Ok(false),
    }
}

/// Whether a good map is the group-best one.
fn is_best_map(alloc: Global, instance: &Instance, map: &MapLines) -> Result<bool, NoMemory>
    requires { IsGood instance.now map.now.lines.items map.now.names.items }
{
    let state = State::of_map(alloc, instance, map)?;
    is_best(alloc, instance, &state)
}

/// Whether the check says of a row's map what was told.
fn says_as_told(alloc: Global, row: &Row) -> Result<bool, Fail> {
    let (world, limits, told) = *row;
    let instance = limited_instance_of(alloc, world.nodes, world.groups, limits)?.ok_or(
        "no instance",
    )?;
    let map = world.map(alloc)?;
    if !is_good(alloc, &instance, &map)? {
        return Err(Fail::from("the map is not good"));
    }
    Ok(is_best_map(alloc, &instance, &map)? == told)
}

/// The first world of which the check says something else.
fn first_wrong(alloc: Global, rows: &[Row]) -> Result<Option<&'static str>, Fail> {
    for row in rows {
        if !says_as_told(alloc, row)? {
            return Ok(Some(row.0.name));
        }
    }
    Ok(None)
}

#[test]
fn says_no_where_a_circle_can_do_better(rt: HostRuntime) -> Result<(), Fail> {
    assert!(rt; first_wrong(rt.alloc(), ROWS)? == None);
    Ok(())
}
