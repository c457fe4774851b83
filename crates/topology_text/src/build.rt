//! The instance that sound entries stand for.
ghost use Rattle.std.specs.Prelude.{◌≡◌, ◌++◌, OnOk, ◌<◌, ◌≤◌, ◌^◌, All, map, length, option_and_then, unwrap_or, IfOk, IfSome};
ghost use Rattle.std.specs.List.{range_with_len};
ghost use Rattle.toml.specs.View.{view};
ghost use Rattle.topology_text.specs.Code.{entries};
ghost use Rattle.topology_text.specs.Names.{number_of, text_at, units_of};
ghost use Rattle.topology_text.specs.Topology.{IsSound, IsSoundGroup, choice_in, group_of, items_in, limit_in, market_of, natural, node_of, number_at, pool_number};

use crate::names::{Entries, is_pool, text_at};
use crate::schema::Key;
use crate::visited::{items_of, value_of};
use map_model::{Choice, ClientGroup, Instance, NO_LIMIT, Node, NodeId};
use std::alloc::{AllocError, Global};
use toml::Value;

/// A number, or 0.
pub fn natural(value: &Value) -> u64
    ensures { result ≡ natural (view value.now) }
{
    match value {
        Value::Integer(number) => match u64::try_from(*number) {
            Ok(n) => n,
            Err(_) => 0,
        },
        _ => 0,
    }
}

fn number_at(entry: &Value, key: Key) -> u64
    ensures { result ≡ number_at (view entry.now) key }
{
    match entry {
        Value::Table(table) => match value_of(table, key) {
            Some(value) => natural(value),
            None => 0,
        },
        _ => 0,
    }
}

/// The items at a key of an entry.
pub fn items_in(entry: &Value, key: Key) -> &[Value]
    ensures { map view result.now ≡ items_in (view entry.now) key }
{
    match entry {
        Value::Table(table) => items_of(table, key),
        _ => &[],
    }
}

/// The node whose name stands at `parent`.
fn parent_in(index: &Entries<'_>, entry: &Value) -> Option<usize>
    requires { IsSound (entries index.now) }
    ensures number { result ≡ option_and_then (number_of (entries index.now).nodes)
        (text_at (view entry.now) Key.Parent) }
    ensures fits { IfSome result (λ n. n < 2 ^ 32) }
{
    let name = text_at(entry, Key::Parent)?;
    index.node_number(name)
}

fn node_row(index: &Entries<'_>, entry: &Value) -> Node
    requires { IsSound (entries index.now) }
    ensures { result ≡ node_of (entries index.now).nodes (view entry.now) }
{
    let parent = match parent_in(index, entry) {
        Some(n) => Some(NodeId(n as u32)),
        None => None,
    };
    Node {
        capacity: number_at(entry, Key::Capacity),
        parent,
        is_pool: is_pool(entry),
    }
}

/// The number of the node that a text names, or 0.
fn pool_in(index: &Entries<'_>, pool: &Value) -> usize
    requires { IsSound (entries index.now) }
    ensures number { result ≡ unwrap_or (pool_number (entries index.now).nodes (view pool.now)) 0 }
    ensures fits { result < 2 ^ 32 }
{
    match pool {
        Value::String(text) => match index.node_number(text.as_str()) {
            Some(n) => n,
            None => 0,
        },
        _ => 0,
    }
}

/// The limit at a place, or the largest where there is none.
fn limit_in(limits: &[Value], place: usize) -> u32
    requires { All (λ l. (1 ≤ natural l) × (natural l < 2 ^ 32)) (map view limits.now) }
    ensures { result ≡ limit_in (map view limits.now) place }
{
    match limits.get(place) {
        Some(limit) => natural(limit) as u32,
        None => NO_LIMIT,
    }
}

fn choice(
    index: &Entries<'_>,
    pools: &[Value],
    scores: &[Value],
    limits: &[Value],
    place: usize,
) -> Choice
    requires sound { IsSound (entries index.now) }
    requires beside { length scores.now ≡ length pools.now }
    requires place { place < length pools.now }
    requires scores { All (λ s. natural s < 2 ^ 32) (map view scores.now) }
    requires limits { All (λ l. (1 ≤ natural l) × (natural l < 2 ^ 32)) (map view limits.now) }
    ensures { result ≡ choice_in (entries index.now).nodes (map view pools.now)
        (map view scores.now) (map view limits.now) place }
{
    let pool = pool_in(index, &pools[place]);
    let score = natural(&scores[place]);
    Choice {
        pool: NodeId(pool as u32),
        score: score as u32,
        limit: limit_in(limits, place),
    }
}

fn choices(
    alloc: Global,
    index: &Entries<'_>,
    pools: &[Value],
    scores: &[Value],
    limits: &[Value],
) -> Result<Vec<Choice>, AllocError>
    requires sound { IsSound (entries index.now) }
    requires beside { length scores.now ≡ length pools.now }
    requires scores { All (λ s. natural s < 2 ^ 32) (map view scores.now) }
    requires limits { All (λ l. (1 ≤ natural l) × (natural l < 2 ^ 32)) (map view limits.now) }
    ensures { IfOk result (λ v. v.items
        ≡ map (choice_in (entries index.now).nodes (map view pools.now) (map view scores.now)
        (map view limits.now)) (range_with_len 0 (length pools.now))) }
{
    let mut choices = Vec::new(alloc);
    for place in 0..pools.len() {
        choices.push(choice(index, pools, scores, limits, place))?;
    }
    Ok(choices)
}

fn group_row(alloc: Global, index: &Entries<'_>, entry: &Value) -> Result<ClientGroup, AllocError>
    requires sound { IsSound (entries index.now) }
    requires group { IsSoundGroup (entries index.now).nodes (view entry.now) }
    ensures { IfOk result (λ g. g ≡ group_of (entries index.now).nodes (view entry.now)) }
{
    let demand = number_at(entry, Key::Demand);
    let choices = choices(
        alloc,
        index,
        items_in(entry, Key::Pools),
        items_in(entry, Key::Scores),
        items_in(entry, Key::Limits),
    )?;
    Ok(ClientGroup::new(demand as u32, choices))
}

/// Adds the rows of groups or classes.
fn push_rows(
    alloc: Global,
    index: &Entries<'_>,
    rows: &mut Vec<ClientGroup>,
    units: &[Value],
) -> Result<(), AllocError>
    requires sound { IsSound (entries index.now) }
    requires each { All (λ e. IsSoundGroup (entries index.now).nodes e) (map view units.now) }
    ensures { OnOk result (rows.new.items ≡ rows.old.items
        ++ map (group_of (entries index.now).nodes) (map view units.now)) }
{
    for entry in units {
        rows.push(group_row(alloc, index, entry)?)?;
    }
    Ok(())
}

/// The rows of groups and of the classes behind them.
fn group_rows(alloc: Global, index: &Entries<'_>) -> Result<Vec<ClientGroup>, AllocError>
    requires { IsSound (entries index.now) }
    ensures { IfOk result (λ v. v.items
        ≡ map (group_of (entries index.now).nodes) (units_of (entries index.now))) }
{
    let mut rows = Vec::new(alloc);
    push_rows(alloc, index, &mut rows, index.groups())?;
    push_rows(alloc, index, &mut rows, index.classes())?;
    Ok(rows)
}

fn node_rows(alloc: Global, index: &Entries<'_>) -> Result<Vec<Node>, AllocError>
    requires { IsSound (entries index.now) }
    ensures { IfOk result (λ v. v.items
        ≡ map (node_of (entries index.now).nodes) (entries index.now).nodes) }
{
    let mut rows = Vec::new(alloc);
    for entry in index.nodes() {
        rows.push(node_row(index, entry))?;
    }
    Ok(rows)
}

/// The instance.
pub fn instance(alloc: Global, index: &Entries<'_>) -> Result<Instance, AllocError>
    requires { IsSound (entries index.now) }
    ensures { IfOk result (λ i. i ≡ market_of (entries index.now)) }
{
    let groups = group_rows(alloc, index)?;
    let nodes = node_rows(alloc, index)?;
    Ok(Instance::from_rows(groups, nodes))
}
