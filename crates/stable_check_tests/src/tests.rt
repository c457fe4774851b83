//! Maps by hand, good ones and one for each fault.

use map_model::{GroupId, Instance, NodeId};
use stable_check::Verdict::{BadLine, BadName, Good};
use stable_check::{CheckRoom, Verdict, check};
use std::alloc::Global;
use std::process::Abort;
use std::test::Fail;
use worlds::{
    EMPTY_POOL, EXAMPLE, FULL_REGION, GroupAt, INNER, LIMIT, LimitAt, NameAt, NodeAt, POOL, Placed,
    REFUSER_NO_LONGER_FULL, TWO_GOOD_MAPS, World, limited_instance_of, map_of,
};

/// A map and its verdict.
type Row<'a> = (&'a [Placed], &'a [NameAt], Verdict);

/// The instance of these rows.
fn instance_of(
    alloc: Global,
    nodes: &[NodeAt],
    groups: &[GroupAt],
    limits: &[LimitAt],
) -> Result<Instance, Fail> {
    Ok(limited_instance_of(alloc, nodes, groups, limits)?.ok_or("no instance")?)
}

fn of_world(alloc: Global, world: &World) -> Result<Instance, Fail> {
    instance_of(alloc, world.nodes, world.groups, &[])
}

/// Checks each row's map in one room.
fn judge_rows(
    rt: &impl Abort,
    alloc: Global,
    instance: &Instance,
    rows: &[Row],
) -> Result<(), Fail> {
    let mut room = CheckRoom::new(alloc, instance)?;
    for (i, row) in rows.iter().enumerate() {
        let (lines, names, verdict) = *row;
        let map = map_of(alloc, lines, names)?;
        assert_eq!(rt; check(instance, &map, &mut room), verdict, "at row {i}");
    }
    Ok(())
}

fn over_demand(group: u32, placed: u64) -> Verdict {
    Verdict::OverDemand {
        group: GroupId(group),
        placed,
    }
}

fn over_limit(group: u32, place: u8, amount: u64) -> Verdict {
    Verdict::OverLimit {
        group: GroupId(group),
        place,
        amount,
    }
}

fn over_capacity(node: u32, load: u64) -> Verdict {
    Verdict::OverCapacity {
        node: NodeId(node),
        load,
    }
}

fn blocking(group: u32, place: u8) -> Verdict {
    Verdict::Blocking {
        group: GroupId(group),
        place,
    }
}

/// The good map of EXAMPLE.
const LINES: &[Placed] = &[(0, 0, 8), (1, 0, 2), (1, 1, 5)];

const NAMES: &[NameAt] = &[(1, 0, 1), (1, 1, 0)];

#[test]
fn judges_two_level_eviction(rt: HostRuntime) -> Result<(), Fail> {
    let alloc = rt.alloc();
    let rows: [Row; 8] = [
        (LINES, NAMES, Good),
        // An offer that is held in part is wanted, and no node refuses it.
        (&[(0, 0, 8), (1, 0, 2), (1, 1, 4)], NAMES, blocking(1, 1)),
        (&[(0, 0, 9), (1, 0, 2), (1, 1, 5)], NAMES, over_demand(0, 9)),
        (&[(0, 0, 8), (1, 0, 2), (1, 1, 7)], NAMES, over_demand(1, 9)),
        (
            &[(0, 0, 8), (1, 0, 3), (1, 1, 4)],
            NAMES,
            over_capacity(1, 11),
        ),
        (&[(0, 0, 8), (1, 0, 8)], NAMES, over_capacity(0, 16)),
        (&[], &[], blocking(0, 0)),
        (&[(0, 0, 8)], &[], blocking(1, 0)),
    ];
    judge_rows(&rt, alloc, &of_world(alloc, &EXAMPLE)?, &rows)
}

#[test]
fn judges_names_of_two_level_eviction(rt: HostRuntime) -> Result<(), Fail> {
    let alloc = rt.alloc();
    let rows: [Row; 5] = [
        (LINES, &[(1, 0, 0), (1, 1, 0)], BadName { index: 0 }),
        (LINES, &[(1, 0, 1)], BadName { index: 1 }),
        (LINES, &[(1, 1, 0), (1, 0, 1)], BadName { index: 0 }),
        (
            LINES,
            &[(1, 0, 1), (1, 1, 0), (1, 1, 0)],
            BadName { index: 2 },
        ),
        (LINES, NAMES, Good),
    ];
    judge_rows(&rt, alloc, &of_world(alloc, &EXAMPLE)?, &rows)
}

#[test]
fn judges_form_first(rt: HostRuntime) -> Result<(), Fail> {
    let alloc = rt.alloc();
    let rows: [Row; 7] = [
        (&[(2, 0, 1)], &[], BadLine { index: 0 }),
        (&[(0, 2, 1)], &[], BadLine { index: 0 }),
        (&[(0, 0, 99), (0, 1, 0)], &[], BadLine { index: 1 }),
        (&[(0, 0, 1), (0, 0, 1)], &[], BadLine { index: 1 }),
        (&[(0, 1, 1), (0, 0, 1)], &[], BadLine { index: 1 }),
        (
            &[(0, 1, 1), (1, 1, 1), (1, 0, 1)],
            &[],
            BadLine { index: 2 },
        ),
        (&[(1, 0, 1), (0, 1, 1)], &[], BadLine { index: 1 }),
    ];
    judge_rows(&rt, alloc, &of_world(alloc, &EXAMPLE)?, &rows)
}

// The first pool was full when it refused the second group first.
#[test]
fn judges_a_refuser_no_longer_full(rt: HostRuntime) -> Result<(), Fail> {
    let alloc = rt.alloc();
    let instance = of_world(alloc, &REFUSER_NO_LONGER_FULL)?;
    let rows: [Row; 2] = [
        (&[(0, 0, 2), (2, 0, 8)], &[(0, 0, 0), (1, 0, 0)], Good),
        (
            &[(0, 0, 2), (2, 0, 8)],
            &[(0, 0, 0), (1, 0, 1)],
            BadName { index: 1 },
        ),
    ];
    judge_rows(&rt, alloc, &instance, &rows)
}

// And then the first pool lowered to 3.
#[test]
fn judges_a_lowered_pool(rt: HostRuntime) -> Result<(), Fail> {
    let alloc = rt.alloc();
    let mut instance = of_world(alloc, &FULL_REGION)?;
    let rows: [Row; 1] = [(&[(0, 0, 8), (1, 0, 2)], &[(1, 0, 0)], Good)];
    judge_rows(&rt, alloc, &instance, &rows)?;
    assert_eq!(rt; instance.nodes(), 3);
    instance.set_capacity(NodeId(1), 3);
    let rows: [Row; 3] = [
        (&[(0, 0, 8), (1, 0, 2)], &[(1, 0, 0)], over_capacity(1, 8)),
        (&[(0, 0, 3), (1, 0, 2)], &[(0, 0, 1)], blocking(1, 0)),
        (&[(0, 0, 3), (1, 0, 7)], &[(0, 0, 1), (1, 0, 0)], Good),
    ];
    judge_rows(&rt, alloc, &instance, &rows)
}

/// The worse map of TWO_GOOD_MAPS.
const CROSSED: &[Placed] = &[(0, 1, 1), (1, 1, 1), (2, 0, 1)];

const TURNED_AWAY: &[NameAt] = &[(0, 0, 0), (1, 0, 1)];

// The third group asks for one unit and then for two.
#[test]
fn judges_two_good_maps(rt: HostRuntime) -> Result<(), Fail> {
    let alloc = rt.alloc();
    let mut instance = of_world(alloc, &TWO_GOOD_MAPS)?;
    judge_rows(&rt, alloc, &instance, &[(CROSSED, TURNED_AWAY, Good)])?;
    assert_eq!(rt; instance.groups(), 3);
    instance.set_demand(GroupId(2), 2);
    let rows: [Row; 3] = [
        (CROSSED, TURNED_AWAY, blocking(2, 0)),
        (&[(0, 1, 1), (1, 1, 1), (2, 0, 2)], TURNED_AWAY, Good),
        (&[(0, 0, 1), (1, 0, 1), (2, 0, 2)], &[], Good),
    ];
    judge_rows(&rt, alloc, &instance, &rows)
}

#[test]
fn judges_flat_instances(rt: HostRuntime) -> Result<(), Fail> {
    let alloc = rt.alloc();
    let empty = of_world(alloc, &EMPTY_POOL)?;
    let rows: [Row; 3] = [
        (&[], &[(0, 0, 0)], Good),
        (&[], &[], BadName { index: 0 }),
        (&[(0, 0, 1)], &[], over_capacity(0, 1)),
    ];
    judge_rows(&rt, alloc, &empty, &rows)?;
    let single = instance_of(alloc, &[(10, None, POOL)], &[(4, &[(0, 1)])], &[])?;
    let rows: [Row; 3] = [
        (&[(0, 0, 4)], &[], Good),
        (&[(0, 0, 3)], &[], blocking(0, 0)),
        (&[(0, 0, 5)], &[], over_demand(0, 5)),
    ];
    judge_rows(&rt, alloc, &single, &rows)
}

/// One pool, and two groups of as good a key, or of which the second has a better one.
const TWO_UNITS: &[NodeAt] = &[(2, None, POOL)];

const SAME: &[GroupAt] = &[(2, &[(0, 7)]), (2, &[(0, 7)])];

const BETTER: &[GroupAt] = &[(2, &[(0, 7)]), (2, &[(0, 6)])];

// A key as good as that of the lines under a full node is refused; a better one blocks.
#[test]
fn judges_by_keys(rt: HostRuntime) -> Result<(), Fail> {
    let alloc = rt.alloc();
    let same = instance_of(alloc, TWO_UNITS, SAME, &[])?;
    let rows: [Row; 3] = [
        (&[(0, 0, 2)], &[(1, 0, 0)], Good),
        (&[(1, 0, 2)], &[(0, 0, 0)], blocking(0, 0)),
        (
            &[(0, 0, 1), (1, 0, 1)],
            &[(0, 0, 0), (1, 0, 0)],
            blocking(0, 0),
        ),
    ];
    judge_rows(&rt, alloc, &same, &rows)?;
    let better = instance_of(alloc, TWO_UNITS, BETTER, &[])?;
    let rows: [Row; 1] = [(&[(0, 0, 2)], &[(1, 0, 0)], blocking(1, 0))];
    judge_rows(&rt, alloc, &better, &rows)
}

const MOST: u32 = u32::MAX;

/// A root that holds what two groups may ask for at most, and no unit more.
const LARGE_NODES: &[NodeAt] = &[
    (8_589_934_590, None, INNER),
    (1 << 48, Some(0), POOL),
    (1 << 48, Some(0), POOL),
];

const LARGE_GROUPS: &[GroupAt] = &[(MOST, &[(1, MOST), (2, MOST)]), (MOST, &[(1, 0), (2, 0)])];

#[test]
fn judges_large_amounts(rt: HostRuntime) -> Result<(), Fail> {
    let alloc = rt.alloc();
    let mut instance = instance_of(alloc, LARGE_NODES, LARGE_GROUPS, &[])?;
    let rows: [Row; 2] = [
        (&[(0, 0, MOST), (1, 0, MOST)], &[], Good),
        (
            &[(0, 0, MOST), (0, 1, MOST)],
            &[],
            over_demand(0, 8_589_934_590),
        ),
    ];
    judge_rows(&rt, alloc, &instance, &rows)?;
    assert_eq!(rt; instance.nodes(), 3);
    instance.set_capacity(NodeId(0), 8_589_934_589);
    let rows: [Row; 2] = [
        (
            &[(0, 0, MOST), (1, 0, MOST)],
            &[],
            over_capacity(0, 8_589_934_590),
        ),
        (
            &[(0, 0, MOST - 1), (1, 0, MOST)],
            &[(0, 0, 0), (0, 1, 0)],
            Good,
        ),
    ];
    judge_rows(&rt, alloc, &instance, &rows)
}

/// What limits of 5 and 10 units at the first group's places of EXAMPLE turn away.
const BY_LIMIT: &[NameAt] = &[(0, 0, LIMIT), (1, 0, 1), (1, 1, 0)];

const AT_LIMIT: &[Placed] = &[(0, 0, 5), (0, 1, 3), (1, 0, 5), (1, 1, 2)];

#[test]
fn judges_limits(rt: HostRuntime) -> Result<(), Fail> {
    let alloc = rt.alloc();
    let rows: [Row; 6] = [
        (AT_LIMIT, BY_LIMIT, Good),
        (
            &[(0, 0, 6), (0, 1, 2), (1, 0, 5), (1, 1, 2)],
            BY_LIMIT,
            over_limit(0, 0, 6),
        ),
        // Ahead of a node over its capacity, and behind a group over its demand.
        (
            &[(0, 0, 6), (0, 1, 2), (1, 0, 8)],
            BY_LIMIT,
            over_limit(0, 0, 6),
        ),
        (
            &[(0, 0, 6), (0, 1, 3), (1, 0, 5), (1, 1, 2)],
            BY_LIMIT,
            over_demand(0, 9),
        ),
        (
            &[(0, 0, 4), (0, 1, 4), (1, 0, 6), (1, 1, 1)],
            BY_LIMIT,
            blocking(0, 0),
        ),
        // A node is named where the limit refuses.
        (
            AT_LIMIT,
            &[(0, 0, 1), (1, 0, 1), (1, 1, 0)],
            BadName { index: 0 },
        ),
    ];
    let limits = &[(0, 0, 5), (0, 1, 10)];
    let instance = instance_of(alloc, EXAMPLE.nodes, EXAMPLE.groups, limits)?;
    judge_rows(&rt, alloc, &instance, &rows)
}
