//! Batches of changes, by the names of a topology.
ghost use Rattle.std.specs.Prelude.{◌≡◌, ◌↔◌, ◌≤◌, ◌<◌, ◌^◌, ℕ, List, Ok, Err, [], ◌∷◌, ◌++◌, true, length, All, IfOk, IsTrue, MatchResult};
ghost use Rattle.map_model.specs.Market.{Market};
ghost use Rattle.map_model.specs.Batch.{IsApplied, IsBatch, IsChange};
ghost use Rattle.topology_text.specs.Plan.{number_in};
ghost use Rattle.demand_feed.specs.Batch.{IsInRange, capacity_change, demand_change, with_capacity, with_change, with_demand};
ghost use Rattle.demand_feed.specs.Changing.{IsChangeLine, with_line};

use crate::limits::MOST_CHANGES;
use crate::{BatchFault, Line};
use map_model::{Change, GroupId, Instance, MOST_CAPACITY, NodeId};
use no_memory::NoMemory;
use std::alloc::Global;
use std::marker::Model;
use topology_text::Topology;

/// Changes of demands and capacities, in order, whose numbers are in their ranges.
#[derive(Debug, Drop)]
pub struct Batch {
    changes: Vec<Change>,
}

impl Model for Batch {
    ghost use Rattle.std.specs.Prelude.{◌≤◌, All, List, vec_len, vec_capacity};
    ghost use Rattle.map_model.specs.declared.change.Change.{Change};
    ghost use Rattle.demand_feed.specs.Batch.{IsInRange};
    ghost use Rattle.demand_feed.specs.Limits.{most_changes};

    ghost Value = { List Change };

    ghost view = { λ b. b.changes.items };

    ghost invariant = { λ b. (most_changes ≤ vec_capacity b.changes)
        × (vec_len b.changes ≤ most_changes) × All IsInRange b.changes.items };
}

/// Another demand of a group, by its name.
fn demand_change(topology: &Topology, group: &[u8], number: u64) -> Result<Change, BatchFault>
    ensures change { result ≡ demand_change (number_in topology.now.group_names group.now) number }
    ensures sound { IfOk result (IsChange topology.now.market) }
    ensures ranged { IfOk result IsInRange }
{
    let Some(group) = topology.group_named(group) else {
        return Err(BatchFault::UnknownName);
    };
    match u32::try_from(number) {
        Ok(demand) if demand > 0 => Ok(Change::Demand { group, demand }),
        _ => Err(BatchFault::Range),
    }
}

/// Another capacity of a node, by its name.
fn capacity_change(topology: &Topology, node: &[u8], number: u64) -> Result<Change, BatchFault>
    ensures change { result ≡ capacity_change (number_in topology.now.node_names node.now) number }
    ensures sound { IfOk result (IsChange topology.now.market) }
    ensures ranged { IfOk result IsInRange }
{
    let Some(node) = topology.node_named(node) else {
        return Err(BatchFault::UnknownName);
    };
    if number <= MOST_CAPACITY {
        Ok(Change::Capacity {
            node,
            capacity: number,
        })
    } else {
        Err(BatchFault::Range)
    }
}

impl Batch {
    /// An empty one, with room for all changes that it can have.
    ///
    /// # Errors
    ///
    /// `NoMemory`.
    pub fn new(alloc: Global) -> Result<Batch, NoMemory>
        ensures { IfOk result (λ b. b ≡ []) }
    {
        Ok(Batch {
            changes: Vec::with_capacity(alloc, MOST_CHANGES)?,
        })
    }

    /// The changes, in order.
    pub fn changes(&self) -> &[Change]
        ensures same { result.now ≡ self.now }
        ensures ranged { All IsInRange self.now }
    {
        self.changes.as_slice()
    }

    /// Whether there is no change.
    pub fn is_empty(&self) -> bool
        ensures { IsTrue result ↔ (self.now ≡ []) }
    {
        self.changes.is_empty()
    }

    /// An equal batch.
    ///
    /// # Errors
    ///
    /// `NoMemory`.
    pub fn try_clone(&self) -> Result<Batch, NoMemory>
        ensures { IfOk result (λ b. b ≡ self.now) }
    {
        let mut changes = Vec::with_capacity(*self.changes.allocator(), MOST_CHANGES)?;
        changes.extend_from_slice(self.changes.as_slice())?;
        Ok(Batch { changes })
    }

    /// Takes all changes away.
    pub fn clear(&mut self)
        ensures { self.new ≡ [] }
    {
        self.changes.clear();
    }

    /// Takes one change more, unless there are 4,096.
    fn push(&mut self, change: Change) -> Result<(), BatchFault>
        requires { IsInRange change }
        ensures added { MatchResult result (λ _. with_change self.old (Ok change) ≡ Ok self.new)
            (λ e. (with_change self.old (Ok change) ≡ Err e) × (self.new ≡ self.old)) }
        ensures kept { (m : Market) → IsChange m change → IsBatch m self.old → IsBatch m self.new }
    {
        if self.changes.len() < MOST_CHANGES && self.changes.push(change).is_ok() {
            Ok(())
        } else {
            Err(BatchFault::Full)
        }
    }

    /// Takes the change of a line, by a topology's names. After a refusal the batch is as before.
    ///
    /// # Errors
    ///
    /// `UnknownName` where the topology has no such group or node; else `Range` where the number is not in its range;
    /// else `Full` where there are 4,096 changes.
    pub fn add(&mut self, topology: &Topology, line: &Line<'_>) -> Result<(), BatchFault>
        requires { IsChangeLine line.now }
        ensures added { MatchResult result (λ _. with_line topology.now self.old line.now
            ≡ Ok self.new) (λ e. (with_line topology.now self.old line.now ≡ Err e)
            × (self.new ≡ self.old)) }
        ensures kept { IsBatch topology.now.market self.old → IsBatch topology.now.market self.new }
    {
        let change = match line {
            Line::Demand { group, number } => demand_change(topology, group, *number)?,
            Line::Capacity { node, number } => capacity_change(topology, node, *number)?,
            _ => return Err(BatchFault::UnknownName),
        };
        self.push(change)
    }
}

/// Gives one group or node its number.
fn apply_change(instance: &mut Instance, change: Change)
    requires { IsChange instance.old change }
    ensures { (old : Market) (changes : List Change)
        → IsApplied old changes instance.old → IsApplied old (changes ++ change ∷ []) instance.new }
{
    match change {
        Change::Demand { group, demand } => instance.set_demand(group, demand),
        Change::Capacity { node, capacity } => instance.set_capacity(node, capacity),
    }
}

/// Gives each changed group and node its number.
fn apply_all(instance: &mut Instance, changes: &[Change])
    requires { IsBatch instance.old changes.now }
    ensures { IsApplied instance.old changes.now instance.new }
{
    for change in changes {
        apply_change(instance, *change);
    }
}

/// Gives each changed group and node the number of its last change. All else stays.
pub fn apply(instance: &mut Instance, batch: &Batch)
    requires { IsBatch instance.old batch.now }
    ensures { IsApplied instance.old batch.now instance.new }
{
    apply_all(instance, batch.changes());
}
