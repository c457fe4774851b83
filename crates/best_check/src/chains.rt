//! Chains of nodes that lead on, and numbers that fall along them: there are such just if no chain comes round to itself.

ghost use Rattle.std.specs.Prelude.{◌≡◌, ◌<◌, ◌^◌, ℕ, true, List, length, IfOk, IfSome, slice_index};
ghost use Rattle.std.specs.Bool.{OnTrue};
ghost use Rattle.best_check.specs.Leads.{FallAlong, LeadInside};

use map_model::NodeId;
use no_memory::NoMemory;
use std::alloc::Global;

/// A node of a chain, if it has no number yet.
fn unnumbered(numbers: &[u32], at: Option<NodeId>) -> Option<NodeId>
    requires { IfSome at (λ n. n.0 < length numbers.now) }
    ensures { IfSome result (λ n. n.0 < length numbers.now) }
{
    let node = at?;
    if numbers[node.0 as usize] == 0 {
        Some(node)
    } else {
        None
    }
}

/// The number of a node of a chain; 0 behind its end.
fn number_at(numbers: &[u32], at: Option<NodeId>) -> u32
    requires { IfSome at (λ n. n.0 < length numbers.now) }
{
    match at {
        Some(node) => numbers[node.0 as usize],
        None => 0,
    }
}

/// The number that a node gets: by one more for each node without a number than what comes behind these on its chain. None
/// where there is no end of them.
fn first_number(leads: &[Option<NodeId>], numbers: &[u32], start: NodeId) -> Option<u32>
    requires inside { LeadInside leads.now }
    requires size { length numbers.now ≡ length leads.now }
    requires start { start.0 < length leads.now }
{
    let mut at = Some(start);
    let mut count: u32 = 0;
    for _step in 0..leads.len() + 1 {
        let Some(node) = unnumbered(numbers, at) else {
            return Some(count.saturating_add(number_at(numbers, at)));
        };
        count = count.saturating_add(1);
        at = leads[node.0 as usize];
    }
    None
}

/// Numbers the nodes of a chain, from one on down, up to the first that has a number.
fn number_chain(leads: &[Option<NodeId>], numbers: &mut [u32], start: NodeId, first: u32)
    requires inside { LeadInside leads.now }
    requires size { length numbers.old ≡ length leads.now }
    requires start { start.0 < length leads.now }
    ensures { length numbers.new ≡ length numbers.old }
{
    let mut at = Some(start);
    for down in 0..first {
        let Some(node) = unnumbered(numbers, at) else {
            return;
        };
        numbers[node.0 as usize] = first - down;
        at = leads[node.0 as usize];
    }
}

/// Numbers that are to fall along all chains; none where some chain has no end.
fn numbers_of(alloc: Global, leads: &[Option<NodeId>]) -> Result<Option<Vec<u32>>, NoMemory>
    requires few { length leads.now < 2 ^ 32 }
    requires inside { LeadInside leads.now }
    ensures { IfOk result (λ found. IfSome found (λ numbers. length numbers.items
        ≡ length leads.now)) }
{
    let mut numbers = vec![in alloc; 0; leads.len()]?;
    for n in 0..leads.len() {
        let start = NodeId(n as u32);
        let Some(first) = first_number(leads, numbers.as_slice(), start) else {
            return Ok(None);
        };
        number_chain(leads, numbers.as_mut_slice(), start, first);
    }
    Ok(Some(numbers))
}

/// Whether the number of a node is less than that of the node before it on a chain, if it has one.
fn is_below(numbers: &[u32], at: Option<NodeId>, number: u32) -> bool
    requires { IfSome at (λ n. n.0 < length numbers.now) }
    ensures { OnTrue result (IfSome at (λ n. slice_index numbers.now n.0 < number)) }
{
    match at {
        Some(node) => numbers[node.0 as usize] < number,
        None => true,
    }
}

/// Whether numbers fall along all chains.
fn are_falling(leads: &[Option<NodeId>], numbers: &[u32]) -> bool
    requires inside { LeadInside leads.now }
    requires size { length numbers.now ≡ length leads.now }
    ensures { OnTrue result (FallAlong leads.now numbers.now) }
{
    for n in 0..leads.len() {
        if !is_below(numbers, leads[n], numbers[n]) {
            return false;
        }
    }
    true
}

/// Whether each chain comes to an end.
pub fn all_end(alloc: Global, leads: &[Option<NodeId>]) -> Result<bool, NoMemory>
    requires few { length leads.now < 2 ^ 32 }
    requires inside { LeadInside leads.now }
    ensures { IfOk result (λ ends. ends ≡ true → (numbers : List ℕ) × FallAlong leads.now numbers) }
{
    match numbers_of(alloc, leads)? {
        Some(numbers) => Ok(are_falling(leads, numbers.as_slice())),
        None => Ok(false),
    }
}
