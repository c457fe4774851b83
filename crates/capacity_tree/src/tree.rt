//! Loads on the trees of an instance.

ghost use Rattle.std.specs.Prelude.{◌≡◌, ℕ, ◌+◌, ◌<◌, ◌≤◌, ◌^◌, length, map, replicate, slice_index, IfOk};
ghost use Rattle.map_model.specs.Market.{IsMarket, path};
ghost use Rattle.map_model.specs.Progress.{root_of};
ghost use Rattle.capacity_tree.specs.Loads.{AddsUnits, AreTreesOf, Loads, OnPath, TakesUnits, trees_of};

use crate::walks::{add_along, path_from, root_from, take_along};
use arrayvec::ArrayVec;
use map_model::{Instance, LEVELS, NodeId, Units};
use no_memory::NoMemory;
use std::alloc::Global;
use std::marker::Model;

/// The trees of an instance, and the units that stand under each of their nodes. It rests on the
/// parents alone, so it stays right when demands and capacities change.
#[derive(Debug, Drop)]
pub struct Tree {
    parents: Vec<Option<NodeId>>,
    loads: Vec<Units>,
}

impl Model for Tree {
    ghost use Rattle.std.specs.Prelude.{◌≡◌, length};
    ghost use Rattle.map_model.specs.Market.{IsMarket};
    ghost use Rattle.capacity_tree.specs.Loads.{Loads, trees_of};

    ghost Value = { Loads };

    ghost view = { λ t. record { trees = trees_of t.parents.items; units = t.loads.items } };

    ghost invariant = { λ t. IsMarket (trees_of t.parents.items)
        × (length t.loads.items ≡ length t.parents.items) };
}

impl Tree {
    /// The trees of an instance, with no units.
    ///
    /// # Errors
    ///
    /// `NoMemory`.
    pub fn build(alloc: Global, instance: &Instance) -> Result<Tree, NoMemory>
        ensures trees { IfOk result (λ tree. AreTreesOf instance.now tree.trees) }
        ensures empty { IfOk result (λ tree. tree.units ≡ replicate (length instance.now.nodes) 0) }
    {
        let mut parents = Vec::new(alloc);
        for n in 0..instance.nodes() {
            parents.push(instance.parent(NodeId(n)))?;
        }
        let loads = vec![in alloc; 0; parents.len()]?;
        Ok(Tree { parents, loads })
    }

    /// The nodes from this one up to its root.
    pub fn path(&self, node: NodeId) -> ArrayVec<NodeId, LEVELS>
        requires { node.0 < length self.now.trees.nodes }
        ensures { map (λ n. n.0) result.items ≡ path self.now.trees node.0 }
    {
        path_from(self.parents.as_slice(), node)
    }

    /// The root of a node's tree.
    pub fn root(&self, node: NodeId) -> NodeId
        requires { node.0 < length self.now.trees.nodes }
        ensures { result.0 ≡ root_of self.now.trees node.0 }
    {
        root_from(self.parents.as_slice(), node)
    }

    /// The units under a node.
    pub fn load(&self, node: NodeId) -> Units
        requires { node.0 < length self.now.trees.nodes }
        ensures { result ≡ slice_index self.now.units node.0 }
    {
        self.loads[node.0 as usize]
    }

    /// Puts units under a pool, and so under each node of its path.
    pub fn add(&mut self, pool: NodeId, units: Units)
        requires pool { pool.0 < length self.old.trees.nodes }
        requires room { OnPath self.old.trees pool.0 (λ n. slice_index self.old.units n + units
            < 2 ^ 64) }
        ensures { AddsUnits self.old self.new pool.0 units }
    {
        add_along(
            self.parents.as_slice(),
            pool,
            units,
            self.loads.as_mut_slice(),
        );
    }

    /// Takes units from under a pool, and so from under each node of its path.
    pub fn take(&mut self, pool: NodeId, units: Units)
        requires pool { pool.0 < length self.old.trees.nodes }
        requires held { OnPath self.old.trees pool.0 (λ n. units ≤ slice_index self.old.units n) }
        ensures { TakesUnits self.old self.new pool.0 units }
    {
        take_along(
            self.parents.as_slice(),
            pool,
            units,
            self.loads.as_mut_slice(),
        );
    }
}
