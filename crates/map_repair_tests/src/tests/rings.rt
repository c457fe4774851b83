//! Changes behind which units can't simply move up: a ring of groups in which single moves would take thousands of
//! millions of turns, and two groups that have each other's first place. Proposals of a try in vain are counted too.
ghost use Rattle.std.specs.Prelude.{◌≡◌};

use super::{changed, effort_of, is_good, repaired};
use map_model::Change::{Capacity, Demand};
use map_model::{Change, GroupId, MapLines, NodeId, Steps};
use std::alloc::Global;
use std::test::Fail;
use worlds::{NameAt, Placed, World, map_of};

/// Six pools in a ring and a group of a thousand million units for each, which asks it and then the next one. Each pool
/// ranks the group of the one before it higher, and each group stands at its second place.
const RING: World = World {
    name: "ring",
    nodes: &[
        (1_000_000_000, None, true),
        (1_000_000_000, None, true),
        (1_000_000_000, None, true),
        (1_000_000_000, None, true),
        (1_000_000_000, None, true),
        (1_000_000_000, None, true),
    ],
    groups: &[
        (1_000_000_000, &[(0, 2), (1, 1)]),
        (1_000_000_000, &[(1, 2), (2, 1)]),
        (1_000_000_000, &[(2, 2), (3, 1)]),
        (1_000_000_000, &[(3, 2), (4, 1)]),
        (1_000_000_000, &[(4, 2), (5, 1)]),
        (1_000_000_000, &[(5, 2), (0, 1)]),
    ],
    lines: &[
        (0, 1, 1_000_000_000),
        (1, 1, 1_000_000_000),
        (2, 1, 1_000_000_000),
        (3, 1, 1_000_000_000),
        (4, 1, 1_000_000_000),
        (5, 1, 1_000_000_000),
    ],
    names: &[
        (0, 0, 0),
        (1, 0, 1),
        (2, 0, 2),
        (3, 0, 3),
        (4, 0, 4),
        (5, 0, 5),
    ],
};

/// The same with three pools, and groups of two units.
const SMALL_RING: World = World {
    name: "small ring",
    nodes: &[(2, None, true), (2, None, true), (2, None, true)],
    groups: &[
        (2, &[(0, 2), (1, 1)]),
        (2, &[(1, 2), (2, 1)]),
        (2, &[(2, 2), (0, 1)]),
    ],
    lines: &[(0, 1, 2), (1, 1, 2), (2, 1, 2)],
    names: &[(0, 0, 0), (1, 0, 1), (2, 0, 2)],
};

/// The first two groups have each other's second place, or third. The third group fills a pool that the first and the
/// last want too.
const CROSSED: World = World {
    name: "crossed beside a full pool",
    nodes: &[(1, None, true), (1, None, true), (1, None, true)],
    groups: &[
        (1, &[(2, 3), (0, 2), (1, 1)]),
        (1, &[(1, 2), (0, 1)]),
        (1, &[(2, 1)]),
        (1, &[(2, 2)]),
    ],
    lines: &[(0, 2, 1), (1, 1, 1), (2, 0, 1)],
    names: &[(0, 0, 2), (0, 1, 0), (1, 0, 1), (3, 0, 2)],
};

/// The same, and a group in trees of its own, whose first pool is full.
const CROSSED_AND_ONE: World = World {
    name: "crossed, and a group apart",
    nodes: &[
        (1, None, true),
        (1, None, true),
        (1, None, true),
        (1, None, true),
        (5, None, true),
    ],
    groups: &[
        (1, &[(2, 3), (0, 2), (1, 1)]),
        (1, &[(1, 2), (0, 1)]),
        (1, &[(2, 1)]),
        (1, &[(2, 2)]),
        (1, &[(3, 1), (4, 1)]),
    ],
    lines: &[(0, 2, 1), (1, 1, 1), (2, 0, 1), (4, 0, 1)],
    names: &[(0, 0, 2), (0, 1, 0), (1, 0, 1), (3, 0, 2)],
};

/// Changes of a world, the repaired map, whether units move up to it, how many proposals it takes, and how many of them a
/// try makes in vain.
struct Repair {
    changes: &'static [Change],
    lines: &'static [Placed],
    names: &'static [NameAt],
    moves_up: bool,
    proposals: u64,
    thrown: u64,
}

/// Room for one unit in the first pool: group by group, every unit comes to its first place.
const ROOM: Repair = Repair {
    changes: &[Capacity {
        node: NodeId(0),
        capacity: 1_000_000_001,
    }],
    lines: &[
        (0, 0, 1_000_000_000),
        (1, 0, 1_000_000_000),
        (2, 0, 1_000_000_000),
        (3, 0, 1_000_000_000),
        (4, 0, 1_000_000_000),
        (5, 0, 1_000_000_000),
    ],
    names: &[],
    moves_up: false,
    proposals: 6,
    thrown: 0,
};

/// The same in the small ring: unit by unit they move up.
const SMALL_ROOM: Repair = Repair {
    changes: &[Capacity {
        node: NodeId(0),
        capacity: 3,
    }],
    lines: &[(0, 0, 2), (1, 0, 2), (2, 0, 2)],
    names: &[],
    moves_up: true,
    proposals: 0,
    thrown: 0,
};

/// Room for the last group in the full pool: it is all that moves up by itself. But the first two groups want places in
/// trees that this reaches, so they go back, and each has its better place.
const BESIDE: Repair = Repair {
    changes: &[Capacity {
        node: NodeId(2),
        capacity: 2,
    }],
    lines: &[(0, 1, 1), (1, 0, 1), (2, 0, 1), (3, 0, 1)],
    names: &[(0, 0, 2)],
    moves_up: false,
    proposals: 4,
    thrown: 0,
};

/// The same, and the group apart asks for two units more. It offers them to its full first pool and then to its second one.
/// It does so in the try, which the first two groups make vain, and once more when groups have gone back: two proposals in
/// vain, then two, and the four of the others.
const BESIDE_AND_MORE: Repair = Repair {
    changes: &[
        Capacity {
            node: NodeId(2),
            capacity: 2,
        },
        Demand {
            group: GroupId(4),
            demand: 3,
        },
    ],
    lines: &[
        (0, 1, 1),
        (1, 0, 1),
        (2, 0, 1),
        (3, 0, 1),
        (4, 0, 1),
        (4, 1, 2),
    ],
    names: &[(0, 0, 2), (4, 0, 3)],
    moves_up: false,
    proposals: 8,
    thrown: 2,
};

/// Whether the repaired map of a world is as told.
fn is_repaired_so(alloc: Global, world: &World, repair: &Repair) -> Result<bool, Fail> {
    let old = world.instance(alloc)?.ok_or("no instance")?;
    let map = world.map(alloc)?;
    let new = changed(alloc, &old, repair.changes)?;
    let effort = effort_of(alloc, &old, &map, &new)?;
    let mut steps = Steps::new();
    let made = repaired(alloc, &old, &map, &new, &mut steps)?;
    let told: MapLines = map_of(alloc, repair.lines, repair.names)?;
    Ok(
        made == told
            && (effort.turns > 0) == repair.moves_up
            && effort.thrown == repair.thrown
            && steps.count() == repair.proposals
            && is_good(alloc, &new, &made)?,
    )
}

#[test]
fn repairs_a_ring_of_large_groups(rt: HostRuntime) -> Result<(), Fail> {
    assert!(rt; is_repaired_so(rt.alloc(), &RING, &ROOM)?);
    Ok(())
}

#[test]
fn repairs_a_ring_of_small_groups(rt: HostRuntime) -> Result<(), Fail> {
    assert!(rt; is_repaired_so(rt.alloc(), &SMALL_RING, &SMALL_ROOM)?);
    Ok(())
}

#[test]
fn repairs_a_circle_that_nothing_comes_to(rt: HostRuntime) -> Result<(), Fail> {
    assert!(rt; is_repaired_so(rt.alloc(), &CROSSED, &BESIDE)?);
    Ok(())
}

#[test]
fn counts_proposals_in_vain(rt: HostRuntime) -> Result<(), Fail> {
    assert!(rt; is_repaired_so(rt.alloc(), &CROSSED_AND_ONE, &BESIDE_AND_MORE)?);
    Ok(())
}
