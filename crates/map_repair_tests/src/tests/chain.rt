//! Several hundred batches of one to four changes in a small world that is tight, one after another: each repaired map
//! is that of the plain program.
ghost use Rattle.std.specs.Prelude.{◌≡◌};
ghost use Rattle.map_model.specs.Market.{IsSameShape};

use super::{changed, effort_of, repaired};
use crate::tests::every_change::mapped;
use crate::tests::plain::{Rows, Sight, Spot, spots_of};
use crate::tests::smallest::Digits;
use map_model::Change::{Capacity, Demand};
use map_model::{Change, GroupId, Instance, MapLines, NodeId, Steps};
use no_memory::NoMemory;
use std::alloc::Global;
use std::test::Fail;
use worlds::{GroupAt, LimitAt, NodeAt, limited_instance_of};

/// How many batches there are.
const COMMITS: u64 = 400;

/// Three trees, of two pools under a region, of two pools under a root, and of a pool alone.
const NODES: &[NodeAt] = &[
    (12, None, false),
    (10, Some(0), false),
    (6, Some(1), true),
    (6, Some(1), true),
    (9, None, false),
    (5, Some(4), true),
    (6, Some(4), true),
    (5, None, true),
];

const GROUPS: &[GroupAt] = &[
    (4, &[(2, 3), (5, 1), (7, 2)]),
    (3, &[(5, 2), (2, 1), (3, 3)]),
    (5, &[(3, 2), (6, 1)]),
    (2, &[(6, 3), (3, 1), (7, 1), (2, 2)]),
    (6, &[(7, 4), (2, 4), (6, 4)]),
    (1, &[(5, 5), (7, 1)]),
    (4, &[(6, 2), (5, 3), (3, 5), (2, 5)]),
];

const LIMITS: &[LimitAt] = &[(0, 0, 3), (3, 1, 1), (4, 1, 2), (6, 0, 3)];

const TIGHT: Rows = Rows {
    nodes: NODES,
    groups: GROUPS,
    limits: LIMITS,
};

/// What stands, and what the plain program holds.
#[derive(Drop)]
struct Link {
    instance: Instance,
    map: MapLines,
    capacities: Vec<u64>,
    demands: Vec<u32>,
    amounts: Vec<u32>,
    /// In how many turns units moved up to it.
    turns: u64,
}

/// A number drawn from another.
fn drawn(seed: u64) -> u64 {
    seed.wrapping_mul(6_364_136_223_846_793_005)
        .wrapping_add(1_442_695_040_888_963_407)
}

/// A change that digits tell.
fn change_of(digits: &mut Digits) -> Change {
    if digits.take(2) == 0 {
        Demand {
            group: GroupId(digits.take(7) as u32),
            demand: digits.take(8) as u32 + 1,
        }
    } else {
        Capacity {
            node: NodeId(digits.take(8) as u32),
            capacity: digits.take(13),
        }
    }
}

/// One to four changes.
fn batch_of(alloc: Global, number: u64) -> Result<Vec<Change>, NoMemory> {
    let mut digits = Digits::of(number / (1 << 24));
    let mut batch = Vec::new(alloc);
    for _ in 0..digits.take(4).saturating_add(1) {
        batch.push(change_of(&mut digits))?;
    }
    Ok(batch)
}

fn apply(capacities: &mut [u64], demands: &mut [u32], change: Change) {
    match change {
        Demand { group, demand } => {
            if let Some(old) = demands.get_mut(group.0 as usize) {
                *old = demand;
            }
        }
        Capacity { node, capacity } => {
            if let Some(old) = capacities.get_mut(node.0 as usize) {
                *old = capacity;
            }
        }
    }
}

/// Both lists of numbers after a batch.
fn apply_all(capacities: &mut [u64], demands: &mut [u32], batch: &[Change]) {
    for change in batch {
        apply(capacities, demands, *change);
    }
}

/// What the plain program holds after a batch.
fn plain(
    alloc: Global,
    spots: &[Spot],
    link: &Link,
    capacities: &[u64],
    demands: &[u32],
) -> Result<Vec<u32>, NoMemory> {
    let old = Sight {
        nodes: NODES,
        spots,
        capacities: link.capacities.as_slice(),
        demands: link.demands.as_slice(),
    };
    let new = Sight {
        capacities,
        demands,
        ..old
    };
    let mut amounts = link.amounts.clone()?;
    old.repair(alloc, &new, amounts.as_mut_slice())?;
    Ok(amounts)
}

/// The repaired map after a batch; none where it is not the plain program's.
fn linked(
    alloc: Global,
    spots: &[Spot],
    link: &Link,
    batch: &[Change],
) -> Result<Option<Link>, Fail> {
    let mut capacities = link.capacities.clone()?;
    let mut demands = link.demands.clone()?;
    apply_all(capacities.as_mut_slice(), demands.as_mut_slice(), batch);
    let amounts = plain(
        alloc,
        spots,
        link,
        capacities.as_slice(),
        demands.as_slice(),
    )?;
    let instance = changed(alloc, &link.instance, batch)?;
    let turns = effort_of(alloc, &link.instance, &link.map, &instance)?.turns;
    let map = repaired(
        alloc,
        &link.instance,
        &link.map,
        &instance,
        &mut Steps::new(),
    )?;
    let made = Link {
        instance,
        map,
        capacities,
        demands,
        amounts,
        turns,
    };
    Ok(if is_plain(spots, &made) {
        Some(made)
    } else {
        None
    })
}

/// Whether the map is what the plain program holds.
fn is_plain(spots: &[Spot], link: &Link) -> bool {
    let now = Sight {
        nodes: NODES,
        spots,
        capacities: link.capacities.as_slice(),
        demands: link.demands.as_slice(),
    };
    now.is_held(link.amounts.as_slice(), link.map.lines.as_slice())
}

/// The numbers of the world as it stands first.
fn capacities_of(alloc: Global, nodes: &[NodeAt]) -> Result<Vec<u64>, NoMemory> {
    let mut capacities = Vec::new(alloc);
    for &(capacity, _, _) in nodes {
        capacities.push(capacity)?;
    }
    Ok(capacities)
}

fn demands_of(alloc: Global, groups: &[GroupAt]) -> Result<Vec<u32>, NoMemory> {
    let mut demands = Vec::new(alloc);
    for &(demand, _) in groups {
        demands.push(demand)?;
    }
    Ok(demands)
}

/// What the plain program holds from scratch.
fn plain_from_scratch(
    alloc: Global,
    spots: &[Spot],
    capacities: &[u64],
    demands: &[u32],
) -> Result<Vec<u32>, NoMemory> {
    let sight = Sight {
        nodes: NODES,
        spots,
        capacities,
        demands,
    };
    let mut amounts: Vec<u32> = vec![in alloc; 0; spots.len()]?;
    sight.map(alloc, amounts.as_mut_slice())?;
    Ok(amounts)
}

/// The map from scratch.
fn first(alloc: Global, spots: &[Spot]) -> Result<Link, Fail> {
    let instance = limited_instance_of(alloc, NODES, GROUPS, LIMITS)?.ok_or("no instance")?;
    let map = mapped(alloc, &instance)?;
    let capacities = capacities_of(alloc, NODES)?;
    let demands = demands_of(alloc, GROUPS)?;
    let amounts = plain_from_scratch(alloc, spots, capacities.as_slice(), demands.as_slice())?;
    Ok(Link {
        instance,
        map,
        capacities,
        demands,
        amounts,
        turns: 0,
    })
}

/// How a chain came out: the number of the first batch after which the repaired map is another, if there is one, and
/// behind
/// how many batches units moved up.
#[derive(Clone, Copy)]
struct Came {
    wrong: Option<u64>,
    moved: u64,
}

/// How a chain of so many batches comes out.
fn came_of(alloc: Global, commits: u64) -> Result<Came, Fail> {
    let spots = spots_of(alloc, TIGHT)?;
    let mut link = first(alloc, spots.as_slice())?;
    let mut moved: u64 = 0;
    let mut seed: u64 = 1;
    for i in 0..commits {
        seed = drawn(seed);
        let batch = batch_of(alloc, seed)?;
        match linked(alloc, spots.as_slice(), &link, batch.as_slice())? {
            Some(next) => link = next,
            None => {
                return Ok(Came {
                    wrong: Some(i),
                    moved,
                });
            }
        }
        moved = moved.saturating_add(u64::from(link.turns > 0));
    }
    Ok(Came { wrong: None, moved })
}

#[test]
fn repairs_hundreds_of_batches_as_the_plain_program(rt: HostRuntime) -> Result<(), Fail> {
    let came = came_of(rt.alloc(), COMMITS)?;
    assert!(rt;
        came.wrong.is_none() && came.moved > 100,
        "batch {}, {} moved",
        came.wrong.unwrap_or(u64::MAX),
        came.moved
    );
    Ok(())
}
