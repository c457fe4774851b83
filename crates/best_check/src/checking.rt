//! The check of a state's map.

ghost use Rattle.std.specs.Prelude.{◌≡◌, ℕ, ◌<◌, true, length, IfOk, slice_index};
ghost use Rattle.map_model.specs.Progress.{IsGroupBest};
ghost use Rattle.evict.specs.Standing.{IsPastWanted, IsReady};
ghost use Rattle.best_check.specs.Leads.{AreLeads};
ghost use Rattle.best_check.specs.Tables.{ArePastWanted};

use crate::chains::all_end;
use crate::leads::leads_of;
use crate::table::{best_waiting, nexts_of};
use evict::State;
use map_model::{Instance, NodeId};
use no_memory::NoMemory;
use std::alloc::Global;

/// The pool to which each node leads on.
fn leads(alloc: Global, instance: &Instance, state: &State) -> Result<Vec<Option<NodeId>>, NoMemory>
    requires ready { IsReady instance.now state.now }
    requires past { ArePastWanted instance.now state.now }
    ensures size { IfOk result (λ leads. length leads.items ≡ length instance.now.nodes) }
    ensures leads { IfOk result (λ leads. AreLeads instance.now state.now.lines leads.items) }
{
    let table = best_waiting(alloc, instance, state)?;
    let nexts = nexts_of(alloc, instance, table.as_slice())?;
    leads_of(alloc, instance, state, nexts.as_slice())
}

/// Whether the map of a state is the group-best one, where that can be told: it is, if this says yes. A no says nothing.
///
/// The state is one of a good map, as a run ends in: each pointer is the number of its group's wanted places. It looks
/// for a circle of groups that can all do better, each by the unit that the one before it leaves, and says yes where it can
/// show that there is none. Each offer before a pointer is looked at once, and each node a few times.
///
/// # Errors
///
/// `NoMemory`.
pub fn is_best(alloc: Global, instance: &Instance, state: &State) -> Result<bool, NoMemory>
    requires ready { IsReady instance.now state.now }
    requires past { (g : ℕ) → g < length instance.now.groups
        → IsPastWanted instance.now state.now.lines g (slice_index state.now.pointers g) }
    ensures { IfOk result (λ best. best ≡ true → IsGroupBest instance.now state.now.lines) }
{
    // Tells the prover that this is an instance.
    let _count = instance.nodes();
    let leads = leads(alloc, instance, state)?;
    all_end(alloc, leads.as_slice())
}
