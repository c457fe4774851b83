//! Walks up the trees, over the parents of their nodes.

ghost use Rattle.std.specs.Prelude.{◌≡◌, ℕ, ◌+◌, ◌-◌, ◌<◌, ◌≤◌, ◌^◌, length, map, slice_index, if◌then◌else◌, IsTrue};
ghost use Rattle.map_model.specs.Market.{IsMarket, path};
ghost use Rattle.map_model.specs.Progress.{root_of};
ghost use Rattle.map_model.specs.Allocation.{is_under};
ghost use Rattle.capacity_tree.specs.Loads.{trees_of};

use arrayvec::ArrayVec;
use map_model::{LEVELS, NodeId, Units};

/// The nodes from this one up to its root.
pub fn path_from(parents: &[Option<NodeId>], node: NodeId) -> ArrayVec<NodeId, LEVELS>
    requires market { IsMarket (trees_of parents.now) }
    requires node { node.0 < length parents.now }
    ensures { map (λ n. n.0) result.items ≡ path (trees_of parents.now) node.0 }
{
    let mut path = ArrayVec::new();
    let mut at = Some(node);
    for _step in 0..LEVELS {
        if let Some(node) = at {
            path.push(node);
            at = parents[node.0 as usize];
        }
    }
    path
}

/// The root of a node's tree.
pub fn root_from(parents: &[Option<NodeId>], node: NodeId) -> NodeId
    requires market { IsMarket (trees_of parents.now) }
    requires node { node.0 < length parents.now }
    ensures { result.0 ≡ root_of (trees_of parents.now) node.0 }
{
    let mut root = node;
    for _step in 0..LEVELS - 1 {
        if let Some(parent) = parents[root.0 as usize] {
            root = parent;
        }
    }
    root
}

/// Puts units under each node of a pool's path.
pub fn add_along(parents: &[Option<NodeId>], pool: NodeId, units: Units, loads: &mut [Units])
    requires market { IsMarket (trees_of parents.now) }
    requires pool { pool.0 < length parents.now }
    requires size { length loads.old ≡ length parents.now }
    requires room { (n : ℕ) → n < length loads.old
        → IsTrue (is_under (trees_of parents.now) n pool.0) → slice_index loads.old n + units
        < 2 ^ 64 }
    ensures { (n : ℕ) → n < length loads.new → slice_index loads.new n
        ≡ (if is_under (trees_of parents.now) n pool.0 then slice_index loads.old n + units
        else slice_index loads.old n) }
{
    let mut at = Some(pool);
    for _step in 0..LEVELS {
        if let Some(node) = at {
            loads[node.0 as usize] += units;
            at = parents[node.0 as usize];
        }
    }
}

/// Takes units from under each node of a pool's path.
pub fn take_along(parents: &[Option<NodeId>], pool: NodeId, units: Units, loads: &mut [Units])
    requires market { IsMarket (trees_of parents.now) }
    requires pool { pool.0 < length parents.now }
    requires size { length loads.old ≡ length parents.now }
    requires held { (n : ℕ) → n < length loads.old
        → IsTrue (is_under (trees_of parents.now) n pool.0) → units ≤ slice_index loads.old n }
    ensures { (n : ℕ) → n < length loads.new → slice_index loads.new n
        ≡ (if is_under (trees_of parents.now) n pool.0 then slice_index loads.old n - units
        else slice_index loads.old n) }
{
    let mut at = Some(pool);
    for _step in 0..LEVELS {
        if let Some(node) = at {
            loads[node.0 as usize] -= units;
            at = parents[node.0 as usize];
        }
    }
}
