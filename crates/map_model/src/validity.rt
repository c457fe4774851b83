//! Whether rows are an instance.

ghost use Rattle.std.specs.Prelude.{◌≡◌, ◌↔◌, ℕ, ◌<◌, ◌≤◌, ◌^◌, Some, length, All, AllPairs, IfSome, IsTrue, IsFalse};
ghost use Rattle.map_model.specs.Market.{Group, IsGroup, IsMarket, climb, node_in};
ghost use Rattle.map_model.specs.declared.limits.TheConstants.{LEVELS, MOST_NODES};
ghost use Rattle.map_model.specs.Rows.{HasTreeNode, HasTreeNodes, trees_of};

use crate::instance::{Choice, ClientGroup, Node, NodeId};
use crate::limits::{LEVELS, MOST_CAPACITY, MOST_GROUPS, MOST_NODES, PLACES};

/// Whether a parent may stand above the node of that number.
fn is_parent(nodes: &[Node], parent: NodeId, child: usize) -> bool
    requires { child < length nodes.now }
    ensures { IsTrue result ↔ ((parent.0 < child) × IsFalse (node_in nodes.now parent.0).is_pool) }
{
    (parent.0 as usize) < child && !nodes[parent.0 as usize].is_pool
}

/// Whether one node has a capacity in range and a parent that it may have.
fn is_tree_node(nodes: &[Node], i: usize) -> bool
    requires { i < length nodes.now }
    ensures { IsTrue result ↔ HasTreeNode nodes.now i }
{
    let node = nodes[i];
    node.capacity <= MOST_CAPACITY && node.parent.is_none_or(|parent| is_parent(nodes, parent, i))
}

/// Whether the path of a node has at most eight nodes.
fn is_shallow(nodes: &[Node], node: NodeId) -> bool
    requires nodes { HasTreeNodes nodes.now }
    requires node { node.0 < length nodes.now }
    ensures { IsTrue result ↔ (length (climb 9 (trees_of nodes.now) (Some node)) ≤ LEVELS) }
{
    let mut at = Some(node);
    for _step in 0..LEVELS {
        match at {
            Some(node) => at = nodes[node.0 as usize].parent,
            None => return true,
        }
    }
    at.is_none()
}

/// Whether every path has at most eight nodes.
fn are_shallow(nodes: &[Node]) -> bool
    requires few { length nodes.now ≤ MOST_NODES }
    requires nodes { HasTreeNodes nodes.now }
    ensures { IsTrue result ↔ ((n : ℕ) → n < length nodes.now
        → length (climb 9 (trees_of nodes.now) (Some (record { 0 = n }))) ≤ LEVELS) }
{
    for i in 0..nodes.len() {
        if !is_shallow(nodes, NodeId(i as u32)) {
            return false;
        }
    }
    true
}

/// Whether each node has a capacity in range and a parent that it may have.
fn are_tree_nodes(nodes: &[Node]) -> bool
    ensures { IsTrue result ↔ HasTreeNodes nodes.now }
{
    for i in 0..nodes.len() {
        if !is_tree_node(nodes, i) {
            return false;
        }
    }
    true
}

/// Whether nodes are the trees of an instance.
#[tactic(auto, using(crate::proofs::RowTests::tree_tests))]
fn are_trees(nodes: &[Node]) -> bool
    ensures { IsTrue result ↔ IsMarket (trees_of nodes.now) }
{
    nodes.len() <= MOST_NODES && are_tree_nodes(nodes) && are_shallow(nodes)
}

/// Whether a choice's pool is there and a pool, and its limit in range.
fn is_choice(nodes: &[Node], choice: Choice) -> bool
    ensures { IsTrue result ↔ ((choice.pool.0 < length nodes.now)
        × IsTrue (node_in nodes.now choice.pool.0).is_pool × (1 ≤ choice.limit)
        × (choice.limit < 2 ^ 32)) }
{
    (choice.pool.0 as usize) < nodes.len()
        && nodes[choice.pool.0 as usize].is_pool
        && choice.limit >= 1
}

/// Whether none of the choices is of that pool.
fn is_without(choices: &[Choice], pool: NodeId) -> bool
    ensures { IsTrue result ↔ All (λ c. c.pool.0 ≡ pool.0 → ⊥) choices.now }
{
    choices.iter().all(|c| c.pool != pool)
}

/// Whether the pools of a list are distinct.
fn are_distinct(choices: &[Choice]) -> bool
    ensures { IsTrue result ↔ AllPairs (λ c d. c.pool.0 ≡ d.pool.0 → ⊥) choices.now }
{
    for i in 0..choices.len() {
        if !is_without(&choices[..i], choices[i].pool) {
            return false;
        }
    }
    true
}

/// Whether a row is a group over these nodes.
fn is_group(nodes: &[Node], row: &ClientGroup) -> bool
    ensures { IsTrue result ↔ IsGroup nodes.now row.now }
{
    let choices = row.choices();
    row.demand() >= 1
        && !choices.is_empty()
        && choices.len() <= PLACES
        && choices.iter().all(|&choice| is_choice(nodes, choice))
        && are_distinct(choices)
}

/// Whether each row is a group over these nodes.
fn are_groups(nodes: &[Node], groups: &[ClientGroup]) -> bool
    ensures { IsTrue result ↔ All (λ g. IsGroup nodes.now g) groups.now }
{
    groups.iter().all(|row| is_group(nodes, row))
}

/// Whether rows are an instance.
#[tactic(auto, using(crate::proofs::RowTests::row_tests))]
pub fn is_market(groups: &[ClientGroup], nodes: &[Node]) -> bool
    ensures { IsTrue result ↔ IsMarket (record { groups = groups.now; nodes = nodes.now }) }
{
    groups.len() <= MOST_GROUPS && are_trees(nodes) && are_groups(nodes, groups)
}
