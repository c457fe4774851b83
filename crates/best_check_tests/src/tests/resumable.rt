//! What is left of good maps of small worlds where demands and capacities changed, of which it was told by hand whether it is resumable.

ghost use Rattle.map_model.specs.Allocation.{IsGood};
ghost use Rattle.map_model.specs.Market.{IsSameShape};
ghost use Rattle.std.specs.Prelude.{IfOk};

use super::{THREE_IN_A_CIRCLE, UNIT_FREE, is_good};
use best_check::is_resumable;
use evict::State;
use map_model::{GroupId, Instance, MOST_CAPACITY, MapLines, NodeId};
use no_memory::NoMemory;
use reopen::cut_and_trim;
use std::alloc::Global;
use std::test::Fail;
use worlds::{
    EMPTY_POOL, EXAMPLE, FULL_REGION, INNER, LIMIT, LimitAt, POOL, REFUSER_NO_LONGER_FULL, World,
    limited_instance_of,
};

/// A group and its new demand.
type DemandAt = (u32, u32);

/// A node and its new capacity.
type CapacityAt = (u32, u64);

/// A good map, limits of its offers, a new demand and a new capacity, if there are such, and whether the state that they leave is resumable.
type Row = (
    World,
    &'static [LimitAt],
    Option<DemandAt>,
    Option<CapacityAt>,
    bool,
);

/// The second group's first choice is refused by a full pool in a full region, where the third group has a unit of a worse rank.
const WORSE_IN_THE_REGION: World = World {
    name: "worse in the region",
    nodes: &[
        (3, None, INNER),
        (2, Some(0), POOL),
        (5, Some(0), POOL),
        (5, None, POOL),
    ],
    groups: &[(2, &[(1, 1)]), (1, &[(1, 3), (3, 1)]), (1, &[(2, 9)])],
    lines: &[(0, 0, 2), (1, 1, 1), (2, 0, 1)],
    names: &[(1, 0, 1)],
};

/// The same with a better rank of the third group.
const BETTER_IN_THE_REGION: World = World {
    name: "better in the region",
    groups: &[(2, &[(1, 1)]), (1, &[(1, 3), (3, 1)]), (1, &[(2, 2)])],
    ..WORSE_IN_THE_REGION
};

/// A group may have one unit at its first choice, and has the other one at its second.
const LIMITED_TO_ONE: World = World {
    name: "limited to one",
    nodes: &[(5, None, POOL), (5, None, POOL)],
    groups: &[(2, &[(0, 1), (1, 1)])],
    lines: &[(0, 0, 1), (0, 1, 1)],
    names: &[(0, 0, LIMIT)],
};

const ROWS: &[Row] = &[
    // as it was
    (EXAMPLE, &[], None, None, true),
    (FULL_REGION, &[], None, None, true),
    (REFUSER_NO_LONGER_FULL, &[], None, None, true),
    (EMPTY_POOL, &[], None, None, true),
    // a unit has room at a place before a pointer: of the first group, and of the last one alone
    (THREE_IN_A_CIRCLE, &[], None, Some((0, 2)), false),
    (THREE_IN_A_CIRCLE, &[], None, Some((2, 2)), false),
    // a closed pool holds nothing, and refuses all
    (THREE_IN_A_CIRCLE, &[], None, Some((0, 0)), true),
    // a group asks for more: at its pointer, and with no place left
    (THREE_IN_A_CIRCLE, &[], Some((1, 5)), None, true),
    (UNIT_FREE, &[], Some((0, 3)), None, true),
    // a limit refuses, where the pool has room; a group that asks for less does not want what it is refused
    (LIMITED_TO_ONE, &[(0, 0, 1)], None, None, true),
    (LIMITED_TO_ONE, &[(0, 0, 1)], Some((0, 1)), None, false),
    // the pool has room, and the region is full: of worse units, and of better ones
    (WORSE_IN_THE_REGION, &[], Some((0, 1)), Some((0, 2)), false),
    (BETTER_IN_THE_REGION, &[], Some((0, 1)), Some((0, 2)), true),
];

/// Gives a group a new demand, where there is one and it is some.
fn set_demand(instance: &mut Instance, demand: Option<DemandAt>)
    ensures { IsSameShape instance.old instance.new }
{
    if let Some((group, demand)) = demand {
        if group < instance.groups() && demand > 0 {
            instance.set_demand(GroupId(group), demand);
        }
    }
}

/// Gives a node a new capacity, where there is one and it is not too large.
fn set_capacity(instance: &mut Instance, capacity: Option<CapacityAt>)
    ensures { IsSameShape instance.old instance.new }
{
    if let Some((node, capacity)) = capacity {
        if node < instance.nodes() && capacity <= MOST_CAPACITY {
            instance.set_capacity(NodeId(node), capacity);
        }
    }
}

/// The instance with a new demand and a new capacity.
fn changed(
    alloc: Global,
    instance: &Instance,
    demand: Option<DemandAt>,
    capacity: Option<CapacityAt>,
) -> Result<Instance, NoMemory>
    ensures { IfOk result (λ new. IsSameShape instance.now new) }
{
    let mut new = instance.try_clone()?;
    set_demand(&mut new, demand);
    set_capacity(&mut new, capacity);
    Ok(new)
}

/// Whether what is left of a good map is resumable for a changed instance.
fn is_resumable_after(
    alloc: Global,
    instance: &Instance,
    map: &MapLines,
    new: &Instance,
) -> Result<bool, NoMemory>
    requires good { IsGood instance.now map.now.lines.items map.now.names.items }
    requires shape { IsSameShape instance.now new.now }
{
    // Tells the prover that this is an instance.
    let _count = new.nodes();
    let mut state = State::of_map(alloc, instance, map)?;
    cut_and_trim(new, &mut state);
    is_resumable(alloc, new, &state)
}

/// Whether the check says of what a row leaves what was told.
fn says_as_told(alloc: Global, row: &Row) -> Result<bool, Fail> {
    let (world, limits, demand, capacity, told) = *row;
    let instance = limited_instance_of(alloc, world.nodes, world.groups, limits)?.ok_or(
        "no instance",
    )?;
    let map = world.map(alloc)?;
    if !is_good(alloc, &instance, &map)? {
        return Err(Fail::from("the map is not good"));
    }
    let new = changed(alloc, &instance, demand, capacity)?;
    Ok(is_resumable_after(alloc, &instance, &map, &new)? == told)
}

/// The number of the first row of which the check says something else.
fn first_wrong(alloc: Global, rows: &[Row]) -> Result<Option<usize>, Fail> {
    for (i, row) in rows.iter().enumerate() {
        if !says_as_told(alloc, row)? {
            return Ok(Some(i));
        }
    }
    Ok(None)
}

#[test]
fn says_no_where_a_place_before_a_pointer_is_not_refused_or_not_wanted(
    rt: HostRuntime,
) -> Result<(), Fail> {
    assert!(rt; first_wrong(rt.alloc(), ROWS)? == None);
    Ok(())
}
