//! The seats of offers in the queues of the nodes above them.
ghost use Rattle.std.specs.Prelude.{◌≡◌, ◌≢◌, ◌==◌, ℕ, ◌+◌, ◌*◌, ◌<◌, ◌⊎◌, true, false, [], length, Contains, IfOk, OnOk, slice_index_or};
ghost use Rattle.std.specs.List.{list_any};
ghost use Rattle.offer_pool.specs.declared.queue.Seat.{Seat};
ghost use Rattle.offer_pool.specs.Seats.{KeepsFirst};
ghost use Rattle.offer_pool.specs.Table.{amount_in, place_at};
ghost use Rattle.offer_pool.specs.Filed.{IsLive, queue_at};

use crate::queue::{Queue, Seat};
use map_model::{GroupId, NodeId, PLACES};
use no_memory::NoMemory;
use std::alloc::Global;

/// Where the amount of an offer stands in a table of 16 places for each group.
pub fn place_at(group: GroupId, place: u8) -> usize
    ensures { result ≡ place_at group.0 place }
{
    group.0 as usize * PLACES + usize::from(place)
}

/// So many queues with no seat.
pub fn empty_queues(alloc: Global, count: u32) -> Result<Vec<Queue>, NoMemory>
    ensures len { IfOk result (λ queues. length queues.items ≡ count) }
    ensures empty { IfOk result (λ queues. (n : ℕ) → queue_at queues.items n ≡ []) }
{
    let mut queues = Vec::new(alloc);
    for _node in 0..count {
        queues.push(Queue::new(alloc))?;
    }
    Ok(queues)
}

/// Takes out seats of offers that hold nothing, until the worst is one that holds something.
fn clean(queue: &mut Queue, amounts: &[u32])
    requires { (s : Seat) → Contains queue.old s → place_at s.group.0 s.place < length amounts.now }
    ensures kept { (s : Seat) → Contains queue.old s → 0 < amount_in amounts.now s.group.0 s.place
        → Contains queue.new s }
    ensures from { (s : Seat) → Contains queue.new s → Contains queue.old s }
    ensures live { IsLive amounts.now queue.new }
{
    while let Some(seat) = queue.worst() {
        if amounts[place_at(seat.group, seat.place)] > 0 {
            break;
        }
        queue.pop();
    }
}

fn clean_at(queues: &mut [Queue], at: usize, amounts: &[u32])
    requires at { at < length queues.old }
    requires seats { (s : Seat) → Contains (queue_at queues.old at) s → place_at s.group.0 s.place
        < length amounts.now }
    ensures kept { (n : ℕ) (s : Seat) → Contains (queue_at queues.old n) s → 0
        < amount_in amounts.now s.group.0 s.place → Contains (queue_at queues.new n) s }
    ensures from { (n : ℕ) (s : Seat) → Contains (queue_at queues.new n) s
        → Contains (queue_at queues.old n) s }
    ensures live { IsLive amounts.now (queue_at queues.new at) }
    ensures others { (n : ℕ) → n ≢ at → queue_at queues.new n ≡ queue_at queues.old n }
{
    let queue = &mut queues[at];
    clean(queue, amounts);
}

/// Cleans the queues of some nodes.
pub fn clean_all(queues: &mut [Queue], nodes: &[NodeId], amounts: &[u32])
    requires nodes { (n : ℕ) → list_any (λ x. x.0 == n) nodes.now ≡ true → n < length queues.old }
    requires seats { (n : ℕ) (s : Seat) → Contains (queue_at queues.old n) s
        → place_at s.group.0 s.place < length amounts.now }
    ensures kept { (n : ℕ) (s : Seat) → Contains (queue_at queues.old n) s → 0
        < amount_in amounts.now s.group.0 s.place → Contains (queue_at queues.new n) s }
    ensures from { (n : ℕ) (s : Seat) → Contains (queue_at queues.new n) s
        → Contains (queue_at queues.old n) s }
    ensures live { (n : ℕ) → list_any (λ x. x.0 == n) nodes.now ≡ true
        → IsLive amounts.now (queue_at queues.new n) }
    ensures others { (n : ℕ) → list_any (λ x. x.0 == n) nodes.now ≡ false → queue_at queues.new n
        ≡ queue_at queues.old n }
{
    for node in nodes {
        clean_at(queues, node.0 as usize, amounts);
    }
}

/// Adds a seat to one queue.
fn push_at(queues: &mut [Queue], at: usize, seat: Seat) -> Result<(), NoMemory>
    requires { at < length queues.old }
    ensures kept { (n : ℕ) (s : Seat) → Contains (queue_at queues.old n) s
        → Contains (queue_at queues.new n) s }
    ensures from { (n : ℕ) (s : Seat) → Contains (queue_at queues.new n) s
        → Contains (queue_at queues.old n) s ⊎ (s ≡ seat) }
    ensures filed { OnOk result (Contains (queue_at queues.new at) seat) }
    ensures first { OnOk result
        (KeepsFirst seat (queue_at queues.old at) (queue_at queues.new at)) }
    ensures others { (n : ℕ) → n ≢ at → queue_at queues.new n ≡ queue_at queues.old n }
{
    let queue = &mut queues[at];
    queue.push(seat)?;
    Ok(())
}

/// Adds a seat to the queues of some nodes. Where memory is wanted, some of them may have it.
pub fn push_all(queues: &mut [Queue], nodes: &[NodeId], seat: Seat) -> Result<(), NoMemory>
    requires { (n : ℕ) → list_any (λ x. x.0 == n) nodes.now ≡ true → n < length queues.old }
    ensures kept { (n : ℕ) (s : Seat) → Contains (queue_at queues.old n) s
        → Contains (queue_at queues.new n) s }
    ensures from { (n : ℕ) (s : Seat) → Contains (queue_at queues.new n) s
        → Contains (queue_at queues.old n) s ⊎ (s ≡ seat) }
    ensures filed { OnOk result ((n : ℕ) → list_any (λ x. x.0 == n) nodes.now ≡ true
        → Contains (queue_at queues.new n) seat) }
    ensures first { OnOk result ((n : ℕ)
        → KeepsFirst seat (queue_at queues.old n) (queue_at queues.new n)) }
    ensures others { (n : ℕ) → list_any (λ x. x.0 == n) nodes.now ≡ false → queue_at queues.new n
        ≡ queue_at queues.old n }
{
    for node in nodes {
        push_at(queues, node.0 as usize, seat)?;
    }
    Ok(())
}
