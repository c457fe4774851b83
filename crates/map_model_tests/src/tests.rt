//! Instances by hand: their parts, one number changed, and rows that are none.

use map_model::{Choice, ClientGroup, GroupId, Instance, Key, NO_LIMIT, Node, NodeId, Offer};
use std::alloc::Global;

/// Capacity, parent and whether it is a pool.
type NodeRow = (u64, Option<u32>, bool);

/// Pools with their scores.
type List = &'static [(u32, u32)];

/// Demand and list.
type GroupRow = (u32, List);

const POOL: bool = true;

const INNER: bool = false;

// The builders here answer none where memory is wanting.

fn nodes_of(alloc: Global, rows: &[NodeRow]) -> Option<Vec<Node>> {
    let mut nodes = Vec::new(alloc);
    for &(capacity, parent, is_pool) in rows {
        let parent = parent.map(NodeId);
        nodes
            .push(Node {
                capacity,
                parent,
                is_pool,
            })
            .ok()?;
    }
    Some(nodes)
}

fn choices_of(alloc: Global, rows: &[(u32, u32)]) -> Option<Vec<Choice>> {
    let mut choices = Vec::new(alloc);
    for &(pool, score) in rows {
        choices
            .push(Choice {
                pool: NodeId(pool),
                score,
                limit: NO_LIMIT,
            })
            .ok()?;
    }
    Some(choices)
}

fn groups_of(alloc: Global, rows: &[GroupRow]) -> Option<Vec<ClientGroup>> {
    let mut groups = Vec::new(alloc);
    for &(demand, list) in rows {
        let choices = choices_of(alloc, list)?;
        groups.push(ClientGroup::new(demand, choices)).ok()?;
    }
    Some(groups)
}

// R 15; A 10 and B 11 under R; g1 8 [A,B] 1,2; g2 6 [B,A] 3,4.
const NODES: &[NodeRow] = &[(15, None, INNER), (10, Some(0), POOL), (11, Some(0), POOL)];

const GROUPS: &[GroupRow] = &[(8, &[(1, 1), (2, 2)]), (6, &[(2, 3), (1, 4)])];

fn two_groups(alloc: Global) -> Option<Instance> {
    Instance::try_from_rows(groups_of(alloc, GROUPS)?, nodes_of(alloc, NODES)?)
}

fn has_nodes(instance: &Instance) -> bool {
    instance.nodes() == 3
        && instance.capacity(NodeId(2)) == 11
        && instance.parent(NodeId(0)).is_none()
        && instance.parent(NodeId(2)) == Some(NodeId(0))
}

fn has_groups(instance: &Instance) -> bool {
    instance.groups() == 2 && instance.demand(GroupId(1)) == 6 && instance.list_len(GroupId(1)) == 2
}

/// Whether the second group asks A at its second place, with score 4.
fn has_offer(instance: &Instance) -> bool {
    let (group, place) = (GroupId(1), 1);
    let (score, pool) = (4, NodeId(1));
    let offer = Offer { group, place };
    if instance.groups() != 2 || instance.list_len(group) != 2 {
        return false;
    }
    instance.pool_at(offer) == pool
        && instance.key(offer) == Key { score, group, pool }
        && instance.limit(offer.group, offer.place) == NO_LIMIT
}

#[test]
fn reads_the_parts(rt: HostRuntime) {
    let instance = two_groups(rt.alloc()).expect(&rt, "an instance");
    assert!(rt; has_nodes(&instance));
    assert!(rt; has_groups(&instance));
    assert!(rt; has_offer(&instance));
}

/// A copy in which the first group asks for four units and B has room for 2^48.
fn changed(instance: &Instance) -> Option<Instance> {
    let mut changed = instance.try_clone().ok()?;
    if changed.groups() != 2 || changed.nodes() != 3 {
        return None;
    }
    changed.set_demand(GroupId(0), 4);
    changed.set_capacity(NodeId(2), 1 << 48);
    Some(changed)
}

/// Whether the groups ask for so much, and the pools have that room.
fn has_numbers(instance: &Instance, demands: [u32; 2], rooms: [u64; 2]) -> bool {
    if instance.groups() != 2 || instance.nodes() != 3 {
        return false;
    }
    [instance.demand(GroupId(0)), instance.demand(GroupId(1))] == demands
        && [instance.capacity(NodeId(1)), instance.capacity(NodeId(2))] == rooms
}

#[test]
fn changes_one_number(rt: HostRuntime) {
    let instance = two_groups(rt.alloc()).expect(&rt, "an instance");
    let changed = changed(&instance).expect(&rt, "a copy");
    assert!(rt; has_numbers(&changed, [4, 6], [10, 1 << 48]));
    assert!(rt; has_numbers(&instance, [8, 6], [10, 11]));
}

/// Nodes, the demand and the list of the one group, whether they are an instance, and what is tried.
type Row = (&'static [NodeRow], u32, List, bool, &'static str);

const FLAT: &[NodeRow] = &[(10, None, POOL), (20, None, POOL)];

const TREE: &[NodeRow] = &[(10, None, INNER), (1 << 48, Some(0), POOL)];

const ROWS: &[Row] = &[
    (FLAT, 1, &[(0, 1), (1, 1)], true, "two pools"),
    (FLAT, u32::MAX, &[(0, 1), (1, 1)], true, "the most demand"),
    (FLAT, 0, &[(0, 1), (1, 1)], false, "no demand"),
    (FLAT, 1, &[], false, "no list"),
    (FLAT, 1, &[(2, 1)], false, "no such pool"),
    (FLAT, 1, &[(1, 1), (1, 2)], false, "a pool twice"),
    (TREE, 1, &[(1, 1)], true, "a tree"),
    (TREE, 1, &[(0, 1)], false, "not a pool"),
    (
        &[((1 << 48) + 1, None, POOL)],
        1,
        &[(0, 1)],
        false,
        "a large capacity",
    ),
    (
        &[(5, Some(1), POOL), (5, None, INNER)],
        1,
        &[(0, 1)],
        false,
        "a later parent",
    ),
    (&[(5, Some(0), POOL)], 1, &[(0, 1)], false, "its own parent"),
    (
        &[(5, None, POOL), (5, Some(0), POOL)],
        1,
        &[(1, 1)],
        false,
        "a pool as parent",
    ),
];

/// Whether nodes and one group are an instance.
fn is_instance(alloc: Global, nodes: Vec<Node>, group: ClientGroup) -> Option<bool> {
    let mut groups = Vec::new(alloc);
    groups.push(group).ok()?;
    Some(Instance::try_from_rows(groups, nodes).is_some())
}

fn row_is_instance(alloc: Global, row: &Row) -> Option<bool> {
    let (nodes, demand, list, _, _) = row;
    let group = ClientGroup::new(*demand, choices_of(alloc, *list)?);
    is_instance(alloc, nodes_of(alloc, *nodes)?, group)
}

/// What is tried by the first row that is not taken as it says.
fn wrong_row(alloc: Global, rows: &[Row]) -> Option<&'static str> {
    for row in rows {
        if row_is_instance(alloc, row) != Some(row.3) {
            return Some(row.4);
        }
    }
    None
}

#[test]
fn takes_only_instances(rt: HostRuntime) {
    assert_eq!(rt; wrong_row(rt.alloc(), ROWS), None);
}

/// Whether one pool, with a group that may hold so many units there, is an instance that says so.
fn keeps_limit(alloc: Global, limit: u32) -> Option<bool> {
    let pool = NodeId(0);
    let score = 1;
    let choices = vec![in alloc; Choice { pool, score, limit }].ok()?;
    let groups = vec![in alloc; ClientGroup::new(1, choices)].ok()?;
    let Some(instance) = Instance::try_from_rows(groups, pools(alloc, 1)?) else {
        return Some(false);
    };
    let (group, place) = (GroupId(0), 0);
    Some(instance.limit(group, place) == limit)
}

#[test]
fn takes_limits_above_zero(rt: HostRuntime) {
    assert_eq!(rt; keeps_limit(rt.alloc(), 0), Some(false));
    assert_eq!(rt; keeps_limit(rt.alloc(), 1), Some(true));
    assert_eq!(rt; keeps_limit(rt.alloc(), NO_LIMIT), Some(true));
}

/// A chain of nodes, each under the one before; the last is the pool.
fn chain(alloc: Global, levels: u32) -> Option<Vec<Node>> {
    let mut nodes = Vec::new(alloc);
    for n in 0..levels {
        nodes
            .push(Node {
                capacity: 9,
                parent: n.checked_sub(1).map(NodeId),
                is_pool: levels - n == 1,
            })
            .ok()?;
    }
    Some(nodes)
}

/// Whether a chain of so many nodes, with a group that asks the last one, is an instance.
fn chain_is_instance(alloc: Global, levels: u32) -> Option<bool> {
    let choices = choices_of(alloc, &[(levels.saturating_sub(1), 1)])?;
    is_instance(alloc, chain(alloc, levels)?, ClientGroup::new(1, choices))
}

#[test]
fn takes_eight_levels(rt: HostRuntime) {
    assert_eq!(rt; chain_is_instance(rt.alloc(), 8), Some(true));
    assert_eq!(rt; chain_is_instance(rt.alloc(), 9), Some(false));
}

/// So many pools.
fn pools(alloc: Global, count: usize) -> Option<Vec<Node>> {
    let pool = Node {
        capacity: 1,
        parent: None,
        is_pool: true,
    };
    vec![in alloc; pool; count].ok()
}

/// A list of so many.
fn wide(alloc: Global, count: u32) -> Option<Vec<Choice>> {
    let mut choices = Vec::new(alloc);
    for n in 0..count {
        choices
            .push(Choice {
                pool: NodeId(n),
                score: 1,
                limit: NO_LIMIT,
            })
            .ok()?;
    }
    Some(choices)
}

/// Whether so many pools, with a group that asks them all, are an instance.
fn wide_is_instance(alloc: Global, count: u32) -> Option<bool> {
    let group = ClientGroup::new(1, wide(alloc, count)?);
    is_instance(alloc, pools(alloc, count as usize)?, group)
}

#[test]
fn takes_sixteen_places(rt: HostRuntime) {
    assert_eq!(rt; wide_is_instance(rt.alloc(), 16), Some(true));
    assert_eq!(rt; wide_is_instance(rt.alloc(), 17), Some(false));
}

/// A key of score, group and pool.
fn key(score: u32, group: u32, pool: u32) -> Key {
    Key {
        score,
        group: GroupId(group),
        pool: NodeId(pool),
    }
}

#[test]
fn orders_keys(rt: HostRuntime) {
    assert!(rt; key(1, 9, 9) < key(2, 0, 0));
    assert!(rt; key(1, 1, 9) < key(1, 2, 0));
    assert!(rt; key(1, 1, 1) < key(1, 1, 2));
    assert!(rt; key(1, 1, 1) <= key(1, 1, 1));
}
