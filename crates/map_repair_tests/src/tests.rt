//! Repairs of worked examples, batch after batch; each map was computed by hand.
ghost use Rattle.std.specs.Prelude.{◌≡◌, true, IfOk};
ghost use Rattle.map_model.specs.Market.{IsSameShape};
ghost use Rattle.map_model.specs.Allocation.{IsGood};

mod best;
mod chain;
mod definitions;
mod every_change;
mod listed;
mod plain;
mod rings;
mod smallest;

use evict::State;
use map_model::Change::{Capacity, Demand};
use map_model::{Change, GroupId, Instance, MapLines, NodeId, Proposals, Steps};
use map_repair::{Effort, Renewal, repair, resume};
use move_up::Asked;
use no_memory::NoMemory;
use stable_check::{CheckRoom, Verdict, check};
use std::alloc::Global;
use std::test::Fail;
use worlds::{
    EMPTY_POOL, EXAMPLE, FULL_REGION, NameAt, Placed, REFUSER_NO_LONGER_FULL, TWO_GOOD_MAPS, World,
    map_of,
};

/// A batch of changes, the repaired map, and how many proposals that takes.
struct Batch {
    changes: &'static [Change],
    lines: &'static [Placed],
    names: &'static [NameAt],
    proposals: u64,
}

/// A region of two pools, one group at each. The last batch leads back to the first map.
const REGION: &[Batch] = &[
    Batch {
        changes: &[Capacity {
            node: NodeId(1),
            capacity: 3,
        }],
        lines: &[(0, 0, 3), (1, 0, 7)],
        names: &[(0, 0, 1), (1, 0, 0)],
        proposals: 1,
    },
    Batch {
        changes: &[Capacity {
            node: NodeId(1),
            capacity: 10,
        }],
        lines: &[(0, 0, 8), (1, 0, 2)],
        names: &[(1, 0, 0)],
        proposals: 0,
    },
    // A pool that may hold nothing.
    Batch {
        changes: &[Capacity {
            node: NodeId(1),
            capacity: 0,
        }],
        lines: &[(1, 0, 8)],
        names: &[(0, 0, 1)],
        proposals: 1,
    },
    // A tree that empties.
    Batch {
        changes: &[Capacity {
            node: NodeId(0),
            capacity: 0,
        }],
        lines: &[],
        names: &[(0, 0, 1), (1, 0, 0)],
        proposals: 1,
    },
    Batch {
        changes: &[
            Capacity {
                node: NodeId(0),
                capacity: 10,
            },
            Capacity {
                node: NodeId(1),
                capacity: 10,
            },
        ],
        lines: &[(0, 0, 8), (1, 0, 2)],
        names: &[(1, 0, 0)],
        proposals: 0,
    },
    // One group is named three times: the last number counts.
    Batch {
        changes: &[
            Demand {
                group: GroupId(0),
                demand: 5,
            },
            Demand {
                group: GroupId(0),
                demand: 1,
            },
            Demand {
                group: GroupId(0),
                demand: 4,
            },
        ],
        lines: &[(0, 0, 4), (1, 0, 6)],
        names: &[(1, 0, 0)],
        proposals: 0,
    },
    Batch {
        changes: &[Demand {
            group: GroupId(0),
            demand: 1,
        }],
        lines: &[(0, 0, 1), (1, 0, 8)],
        names: &[],
        proposals: 0,
    },
    Batch {
        changes: &[Demand {
            group: GroupId(0),
            demand: u32::MAX,
        }],
        lines: &[(0, 0, 10)],
        names: &[(0, 0, 1), (1, 0, 0)],
        proposals: 1,
    },
    Batch {
        changes: &[Demand {
            group: GroupId(0),
            demand: 8,
        }],
        lines: &[(0, 0, 8), (1, 0, 2)],
        names: &[(1, 0, 0)],
        proposals: 0,
    },
];

/// Two groups at their second places, and one over a root of its own.
const CROSSED: &[Batch] = &[
    // A larger capacity where nobody was refused moves nothing.
    Batch {
        changes: &[Capacity {
            node: NodeId(2),
            capacity: 6,
        }],
        lines: &[(0, 1, 1), (1, 1, 1), (2, 0, 1)],
        names: &[(0, 0, 0), (1, 0, 1)],
        proposals: 0,
    },
    // The two groups are left as they are, though mapping afresh would give both their first place. So the try is in vain,
    // and the third group makes its one proposal in it and once more.
    Batch {
        changes: &[Demand {
            group: GroupId(2),
            demand: 2,
        }],
        lines: &[(0, 1, 1), (1, 1, 1), (2, 0, 2)],
        names: &[(0, 0, 0), (1, 0, 1)],
        proposals: 2,
    },
    Batch {
        changes: &[Capacity {
            node: NodeId(0),
            capacity: 2,
        }],
        lines: &[(0, 0, 1), (1, 0, 1), (2, 0, 2)],
        names: &[],
        proposals: 0,
    },
];

/// Whether a map is good for an instance.
fn is_good(alloc: Global, instance: &Instance, map: &MapLines) -> Result<bool, NoMemory>
    ensures { IfOk result (λ good. good ≡ true
        → IsGood instance.now map.now.lines.items map.now.names.items) }
{
    let mut room = CheckRoom::new(alloc, instance)?;
    match check(instance, map, &mut room) {
        Verdict::Good => Ok(true),
        _ => Ok(false),
    }
}

/// Applies a change, where its group or node is there and its number in range.
fn apply(instance: &mut Instance, change: Change)
    ensures { IsSameShape instance.old instance.new }
{
    match change {
        Demand { group, demand } => {
            if group.0 < instance.groups() && demand >= 1 {
                instance.set_demand(group, demand);
            }
        }
        Capacity { node, capacity } => {
            if node.0 < instance.nodes() && capacity <= map_model::MOST_CAPACITY {
                instance.set_capacity(node, capacity);
            }
        }
    }
}

/// The instance after a batch.
fn changed(alloc: Global, old: &Instance, changes: &[Change]) -> Result<Instance, NoMemory>
    ensures { IfOk result (λ new. IsSameShape old.now new) }
{
    let mut new = old.try_clone()?;
    for change in changes {
        apply(&mut new, *change);
    }
    Ok(new)
}

/// The repaired map, where the old one is good.
fn repaired(
    alloc: Global,
    old: &Instance,
    map: &MapLines,
    new: &Instance,
    steps: &mut Steps<Proposals>,
) -> Result<MapLines, Fail>
    requires { IsSameShape old.now new.now }
{
    if !is_good(alloc, old, map)? {
        return Err(Fail::from("the old map is not good"));
    }
    Ok(repair(alloc, old, map, new, steps)?)
}

/// What the repair of a good map takes: in how many turns units move up, in none where groups go back, and how many proposals
/// are made in vain.
fn effort(alloc: Global, old: &Instance, map: &MapLines, new: &Instance) -> Result<Effort, NoMemory>
    requires good { IsGood old.now map.now.lines.items map.now.names.items }
    requires shape { IsSameShape old.now new.now }
{
    let mut steps: Steps<Proposals> = Steps::new();
    let mut state = State::of_map(alloc, old, map)?;
    let asked = Asked::build(alloc, old, &state)?;
    let change = Renewal {
        old,
        map,
        new,
        asked: &asked,
    };
    resume(alloc, &change, &mut state, &mut steps)
}

/// The same, where the old map is good.
fn effort_of(alloc: Global, old: &Instance, map: &MapLines, new: &Instance) -> Result<Effort, Fail>
    requires { IsSameShape old.now new.now }
{
    if !is_good(alloc, old, map)? {
        return Err(Fail::from("the old map is not good"));
    }
    Ok(effort(alloc, old, map, new)?)
}

/// Whether the repairs of so many batches, one after another and from the first again after the last,
/// are as the table says.
fn repairs_as_told(
    alloc: Global,
    world: &World,
    batches: &[Batch],
    rounds: usize,
) -> Result<bool, Fail> {
    let mut instance = world.instance(alloc)?.ok_or("no instance")?;
    let mut map = world.map(alloc)?;
    for round in 0..rounds {
        let batch = batches.get(round % batches.len().max(1)).ok_or("no batch")?;
        let mut steps = Steps::new();
        let new = changed(alloc, &instance, batch.changes)?;
        let made = repaired(alloc, &instance, &map, &new, &mut steps)?;
        let told = map_of(alloc, batch.lines, batch.names)?;
        if made != told || steps.count() != batch.proposals || !is_good(alloc, &new, &made)? {
            return Ok(false);
        }
        instance = new;
        map = made;
    }
    Ok(true)
}

/// Whether the repaired map is good after one change.
fn is_repaired(
    alloc: Global,
    old: &Instance,
    map: &MapLines,
    change: Change,
) -> Result<bool, Fail> {
    let mut steps = Steps::new();
    let new = changed(alloc, old, &[change])?;
    let made = repaired(alloc, old, map, &new, &mut steps)?;
    Ok(is_good(alloc, &new, &made)?)
}

/// Whether the repaired map is good after each change of one demand.
fn are_demands_repaired(alloc: Global, old: &Instance, map: &MapLines) -> Result<bool, Fail> {
    for g in 0..old.groups() {
        for demand in [1, 2, 7, u32::MAX] {
            let group = GroupId(g);
            if !is_repaired(alloc, old, map, Demand { group, demand })? {
                return Ok(false);
            }
        }
    }
    Ok(true)
}

/// Whether the repaired map is good after each change of one capacity.
fn are_capacities_repaired(alloc: Global, old: &Instance, map: &MapLines) -> Result<bool, Fail> {
    for n in 0..old.nodes() {
        for capacity in [0, 1, 4, map_model::MOST_CAPACITY] {
            let node = NodeId(n);
            if !is_repaired(alloc, old, map, Capacity { node, capacity })? {
                return Ok(false);
            }
        }
    }
    Ok(true)
}

#[test]
fn repairs_each_single_change(rt: HostRuntime) -> Result<(), Fail> {
    let alloc = rt.alloc();
    let worlds = [
        EXAMPLE,
        REFUSER_NO_LONGER_FULL,
        FULL_REGION,
        TWO_GOOD_MAPS,
        EMPTY_POOL,
    ];
    for world in worlds {
        let instance = world.instance(alloc)?.ok_or("no instance")?;
        let map = world.map(alloc)?;
        assert!(rt;
            are_demands_repaired(alloc, &instance, &map)?,
            "{}",
            world.name
        );
        assert!(rt;
            are_capacities_repaired(alloc, &instance, &map)?,
            "{}",
            world.name
        );
    }
    Ok(())
}

#[test]
fn repairs_a_region_twenty_times(rt: HostRuntime) -> Result<(), Fail> {
    assert!(rt; repairs_as_told(rt.alloc(), &FULL_REGION, REGION, 20)?);
    Ok(())
}

#[test]
fn leaves_other_trees_alone(rt: HostRuntime) -> Result<(), Fail> {
    assert!(rt; repairs_as_told(rt.alloc(), &TWO_GOOD_MAPS, CROSSED, 3)?);
    Ok(())
}
