//! Cut states of small worlds; each state that follows was worked out by hand.
ghost use Rattle.std.specs.Prelude.{◌≡◌, ◌<◌, true, length, IfOk};
ghost use Rattle.map_model.specs.Market.{IsSameShape};
ghost use Rattle.map_model.specs.Allocation.{IsGood};
ghost use Rattle.evict.specs.Standing.{IsOpen};

use evict::State;
use map_model::{GroupId, Instance, MOST_CAPACITY, MapLines, NodeId};
use move_up::{Asked, Search, move_up};
use no_memory::NoMemory;
use reopen::cut_and_trim;
use stable_check::{CheckRoom, Verdict, check};
use std::alloc::Global;
use std::test::Fail;
use worlds::{
    GroupAt, INNER, LIMIT, LimitAt, NameAt, NodeAt, POOL, Placed, limited_instance_of, map_of,
};

/// What a group asks for now, or what a node holds at most.
#[derive(Clone, Copy)]
enum Change {
    Asks(u32, u32),
    Holds(u32, u64),
}

use Change::{Asks, Holds};

/// A good map, a batch of changes, and what is so once units moved up from the state that was cut.
struct Case {
    name: &'static str,
    nodes: &'static [NodeAt],
    groups: &'static [GroupAt],
    limits: &'static [LimitAt],
    lines: &'static [Placed],
    names: &'static [NameAt],
    changes: &'static [Change],
    /// Whether all trees are marked; else none is.
    marked: bool,
    turns: u64,
    moved: &'static [Placed],
    /// Of each group.
    pointers: &'static [u8],
    free: &'static [u64],
}

/// Two pools, each a root. The second group has units in both.
const TWO_POOLS: Case = Case {
    name: "a larger pool takes units from a later place",
    nodes: &[(3, None, POOL), (5, None, POOL)],
    groups: &[(2, &[(0, 1)]), (4, &[(0, 2), (1, 3)])],
    limits: &[],
    lines: &[(0, 0, 2), (1, 0, 1), (1, 1, 3)],
    names: &[(1, 0, 0)],
    changes: &[Holds(0, 5)],
    marked: true,
    turns: 9,
    moved: &[(0, 0, 2), (1, 0, 3), (1, 1, 1)],
    pointers: &[0, 1],
    free: &[0, 0],
};

/// A region of two pools, and a pool elsewhere.
const REGION: Case = Case {
    name: "the best offer under a region comes first",
    nodes: &[
        (2, None, INNER),
        (9, None, POOL),
        (4, Some(0), POOL),
        (4, Some(0), POOL),
    ],
    groups: &[(3, &[(2, 1), (1, 9)]), (3, &[(3, 2), (1, 9)])],
    limits: &[],
    lines: &[(0, 0, 2), (0, 1, 1), (1, 1, 3)],
    names: &[(0, 0, 0), (1, 0, 0)],
    changes: &[Holds(0, 4)],
    marked: true,
    turns: 9,
    moved: &[(0, 0, 3), (1, 0, 1), (1, 1, 2)],
    pointers: &[0, 1],
    free: &[0, 0],
};

const CASES: &[Case] = &[
    TWO_POOLS,
    // The source and the target lie in trees that are not marked.
    Case {
        name: "nothing moves in trees that are not marked",
        marked: false,
        moved: &[(0, 0, 2), (1, 0, 1), (1, 1, 3)],
        ..TWO_POOLS
    },
    Case {
        name: "an offer is not raised past its limit",
        limits: &[(1, 0, 2)],
        changes: &[Holds(0, 9)],
        moved: &[(0, 0, 2), (1, 0, 2), (1, 1, 2)],
        ..TWO_POOLS
    },
    Case {
        name: "free units move up",
        groups: &[(2, &[(0, 1)]), (4, &[(0, 2)])],
        lines: &[(0, 0, 2), (1, 0, 1)],
        moved: &[(0, 0, 2), (1, 0, 3)],
        pointers: &[0, 1],
        free: &[0, 1],
        ..TWO_POOLS
    },
    Case {
        name: "all units move up, and the pointer goes back",
        changes: &[Holds(0, 9)],
        moved: &[(0, 0, 2), (1, 0, 4)],
        pointers: &[0, 0],
        ..TWO_POOLS
    },
    REGION,
    Case {
        name: "one turn is one offer",
        turns: 1,
        moved: &[(0, 0, 3), (1, 1, 3)],
        ..REGION
    },
    Case {
        name: "no turn moves nothing",
        turns: 0,
        moved: &[(0, 0, 2), (0, 1, 1), (1, 1, 3)],
        pointers: &[1, 1],
        ..REGION
    },
    // The pool has room for the first group again, the region above it has none: the second gives up a unit, which is free.
    Case {
        name: "a better offer displaces a worse one",
        nodes: &[
            (3, None, INNER),
            (9, None, POOL),
            (1, Some(0), POOL),
            (3, Some(0), POOL),
        ],
        groups: &[(2, &[(2, 1), (1, 9)]), (2, &[(3, 5), (1, 9)])],
        lines: &[(0, 0, 1), (0, 1, 1), (1, 0, 2)],
        names: &[(0, 0, 2)],
        changes: &[Holds(2, 2)],
        moved: &[(0, 0, 2), (1, 0, 1)],
        pointers: &[0, 0],
        free: &[0, 1],
        ..REGION
    },
    // From one pool of the full region to another: nobody is displaced.
    Case {
        name: "units that stand under the full node already displace nobody",
        nodes: &[
            (4, None, INNER),
            (9, None, POOL),
            (1, Some(0), POOL),
            (3, Some(0), POOL),
        ],
        groups: &[(2, &[(2, 1), (3, 2)]), (2, &[(3, 5), (1, 9)])],
        lines: &[(0, 0, 1), (0, 1, 1), (1, 0, 2)],
        names: &[(0, 0, 2)],
        changes: &[Holds(2, 2)],
        moved: &[(0, 0, 2), (1, 0, 2)],
        pointers: &[0, 0],
        ..REGION
    },
    // What a source leaves is room for the next: the chain goes on through the second pool.
    Case {
        name: "a chain of moves",
        nodes: &[(1, None, POOL), (1, None, POOL), (9, None, POOL)],
        groups: &[
            (1, &[(0, 1)]),
            (1, &[(0, 2), (1, 1)]),
            (1, &[(1, 2), (2, 1)]),
        ],
        lines: &[(0, 0, 1), (1, 1, 1), (2, 1, 1)],
        names: &[(1, 0, 0), (2, 0, 1)],
        changes: &[Holds(0, 2)],
        moved: &[(0, 0, 1), (1, 0, 1), (2, 0, 1)],
        pointers: &[0, 0, 0],
        free: &[0, 0, 0],
        ..TWO_POOLS
    },
    // Under the raised root stand two regions. The second one is full of a better offer, so what waits there is passed over,
    // though it is the best; the three that are next stand in the first region, one at each pool.
    Case {
        name: "the best offers under two levels of nodes, past a region that refuses",
        nodes: &[
            (2, None, INNER),
            (9, Some(0), INNER),
            (1, Some(0), INNER),
            (9, Some(1), POOL),
            (9, Some(1), POOL),
            (9, Some(1), POOL),
            (9, Some(2), POOL),
            (9, Some(2), POOL),
            (9, None, POOL),
        ],
        groups: &[
            (1, &[(3, 0)]),
            (1, &[(5, 4), (8, 1)]),
            (1, &[(4, 3), (8, 1)]),
            (1, &[(3, 5), (8, 1)]),
            (1, &[(6, 2), (8, 1)]),
            (1, &[(7, 1)]),
            (1, &[(4, 9), (8, 1)]),
        ],
        lines: &[
            (0, 0, 1),
            (1, 1, 1),
            (2, 1, 1),
            (3, 1, 1),
            (4, 1, 1),
            (5, 0, 1),
            (6, 1, 1),
        ],
        names: &[(1, 0, 0), (2, 0, 0), (3, 0, 0), (4, 0, 2), (6, 0, 0)],
        changes: &[Holds(0, 5)],
        moved: &[
            (0, 0, 1),
            (1, 0, 1),
            (2, 0, 1),
            (3, 0, 1),
            (4, 1, 1),
            (5, 0, 1),
            (6, 1, 1),
        ],
        pointers: &[0, 0, 0, 0, 1, 0, 1],
        free: &[0, 0, 0, 0, 0, 0, 0],
        ..TWO_POOLS
    },
    // The second group is wanted no longer at its second place once it has come to its first one: the next stands there.
    Case {
        name: "an offer behind a pointer that went back is passed over",
        nodes: &[
            (1, None, INNER),
            (9, Some(0), POOL),
            (9, Some(0), POOL),
            (9, None, POOL),
        ],
        groups: &[
            (1, &[(1, 0)]),
            (1, &[(1, 1), (2, 2), (3, 9)]),
            (1, &[(2, 5), (3, 9)]),
        ],
        lines: &[(0, 0, 1), (1, 2, 1), (2, 1, 1)],
        names: &[(1, 0, 0), (1, 1, 0), (2, 0, 0)],
        changes: &[Holds(0, 3)],
        moved: &[(0, 0, 1), (1, 0, 1), (2, 0, 1)],
        pointers: &[0, 0, 0],
        free: &[0, 0, 0],
        ..TWO_POOLS
    },
    // The group asks for less and loses units of its last two places and of its first. Its limit refuses it at the second
    // place no longer, so it asks there next.
    Case {
        name: "a group with a lowered demand goes back to where nobody refuses it",
        nodes: &[(3, None, POOL), (9, None, POOL), (9, None, POOL)],
        groups: &[(6, &[(0, 1), (1, 1), (2, 1)])],
        limits: &[(0, 1, 2)],
        lines: &[(0, 0, 3), (0, 1, 2), (0, 2, 1)],
        names: &[(0, 0, 0), (0, 1, LIMIT)],
        changes: &[Asks(0, 4), Holds(0, 1)],
        moved: &[(0, 0, 1), (0, 1, 1)],
        pointers: &[1],
        free: &[2],
        ..TWO_POOLS
    },
    // The first pool is in no marked tree, so the pointer does not go back there.
    Case {
        name: "a group with a lowered demand stays where its trees are not marked",
        nodes: &[(3, None, POOL), (9, None, POOL)],
        groups: &[(3, &[(0, 1), (1, 1)]), (2, &[(0, 0)])],
        lines: &[(0, 0, 1), (0, 1, 2), (1, 0, 2)],
        names: &[(0, 0, 0)],
        changes: &[Asks(0, 1)],
        marked: false,
        moved: &[(0, 0, 1), (1, 0, 2)],
        pointers: &[1, 0],
        ..TWO_POOLS
    },
];

/// Whether a map is good for an instance.
fn is_good(alloc: Global, instance: &Instance, map: &MapLines) -> Result<bool, NoMemory>
    ensures { IfOk result (λ good. good ≡ true
        → IsGood instance.now map.now.lines.items map.now.names.items) }
{
    let mut room = CheckRoom::new(alloc, instance)?;
    match check(instance, map, &mut room) {
        Verdict::Good => Ok(true),
        _ => Ok(false),
    }
}

/// Applies a change, where its group or node is there and its number in range.
fn apply(instance: &mut Instance, change: Change)
    ensures { IsSameShape instance.old instance.new }
{
    match change {
        Asks(group, demand) => {
            if group < instance.groups() && demand >= 1 {
                instance.set_demand(GroupId(group), demand);
            }
        }
        Holds(node, capacity) => {
            if node < instance.nodes() && capacity <= MOST_CAPACITY {
                instance.set_capacity(NodeId(node), capacity);
            }
        }
    }
}

/// The instance after a batch.
fn changed(alloc: Global, old: &Instance, changes: &[Change]) -> Result<Instance, NoMemory>
    ensures { IfOk result (λ new. IsSameShape old.now new) }
{
    let mut new = old.try_clone()?;
    for change in changes {
        apply(&mut new, *change);
    }
    Ok(new)
}

/// The state of a good map, cut for other numbers, with units moved up.
fn moved(
    alloc: Global,
    old: &Instance,
    map: &MapLines,
    new: &Instance,
    marked: bool,
    turns: u64,
) -> Result<State, Fail>
    requires { IsSameShape old.now new.now }
    ensures { IfOk result (λ state. IsOpen new.now state) }
{
    if !is_good(alloc, old, map)? {
        return Err(Fail::from("the old map is not good"));
    }
    let mut state = State::of_map(alloc, old, map)?;
    let asked = Asked::build(alloc, old, &state)?;
    let mut search = Search::under_full(alloc, old, &state, &asked)?;
    let marks = vec![in alloc; marked; new.nodes() as usize]?;
    cut_and_trim(new, &mut state);
    move_up(old, new, &mut state, marks.as_slice(), &mut search, turns)?;
    Ok(state)
}

/// Whether a group has such a pointer and free units.
fn stands_as_told(instance: &Instance, state: &State, case: &Case, g: u32) -> bool
    requires is_open { IsOpen instance.now state.now }
    requires group { g < length instance.now.groups }
{
    let group = GroupId(g);
    case.pointers.get(g as usize) == Some(&state.pointer(group))
        && case.free.get(g as usize) == Some(&state.free(group))
}

/// Whether a state holds so much, and has such pointers and free units.
fn is_as_told(alloc: Global, instance: &Instance, state: &State, case: &Case) -> Result<bool, Fail>
    requires { IsOpen instance.now state.now }
{
    for g in 0..instance.groups() {
        if !stands_as_told(instance, state, case, g) {
            return Ok(false);
        }
    }
    Ok(state.lines(alloc)? == map_of(alloc, case.moved, &[])?.lines)
}

/// Whether the units of a case move up as it says.
fn moves_as_told(alloc: Global, case: &Case) -> Result<bool, Fail> {
    let old = limited_instance_of(alloc, case.nodes, case.groups, case.limits)?.ok_or(
        "no instance",
    )?;
    let map = map_of(alloc, case.lines, case.names)?;
    let new = changed(alloc, &old, case.changes)?;
    let state = moved(alloc, &old, &map, &new, case.marked, case.turns)?;
    is_as_told(alloc, &new, &state, case)
}

/// The name of the first case that goes otherwise than it says.
fn first_wrong(alloc: Global, cases: &[Case]) -> Result<Option<&'static str>, Fail> {
    for case in cases {
        if !moves_as_told(alloc, case)? {
            return Ok(Some(case.name));
        }
    }
    Ok(None)
}

#[test]
fn moves_units_up(rt: HostRuntime) -> Result<(), Fail> {
    assert_eq!(rt; first_wrong(rt.alloc(), CASES)?, None);
    Ok(())
}
