//! What is to be done for what comes of a feed's line, whichever way it came.
ghost use Rattle.std.specs.Prelude.{◌≡◌, ◌≢◌, ◌≤◌, ◌∷◌, ℕ, All, List, None, Some, []};
ghost use Rattle.map_model.specs.declared.change.Change.{Change};
ghost use Rattle.map_model.specs.Batch.{IsBatch};
ghost use Rattle.demand_feed.specs.Batch.{IsInRange};
ghost use Rattle.demand_feed.specs.Clerk.{task_by};
ghost use Rattle.demand_feed.specs.declared.sent.What.TheVariants as whats;
ghost use Rattle.feed_queue.specs.Items.{batches};
ghost use Rattle.mapper.specs.Coming.{ComesOf};
ghost use Rattle.mapper.specs.Control.{Course};
ghost use Rattle.mapper.specs.Deeds.{DeedWorks, MayBeDone, raises};
ghost use Rattle.mapper.specs.Items.{WorksAs};

use crate::Saying;
use crate::maps::Maps;
use demand_feed::{Batch, Next, What};
use map_cell::Naming;

/// What is to be done.
#[derive(Drop)]
pub(crate) enum Deed<'b> {
    /// Nothing.
    Nothing,
    /// A line is to be said.
    Say(Saying),
    /// A line is to be said that ends a batch. The pace is called ahead of it.
    SayOfBatch(Saying),
    /// The map is to be published that a batch leads to. The pace is called ahead of it.
    Publish(&'b Batch),
}

/// What is to be done for what comes of a line where there is one feed. `due` is the batch that ended last.
pub(crate) fn deed_of_line<'b, J: Naming>(maps: &Maps<J>, next: &Next, due: &'b Batch) -> Deed<'b>
    requires { next.now ≡ Next.Batch → IsBatch maps.now.newest.plan.market due.now
        × (due.now ≢ []) }
    ensures may { MayBeDone maps.now.newest.plan.market result }
    ensures few { raises result ≤ 1 }
    ensures works { (c d : Course) → c.newest ≡ maps.now.newest
        → DeedWorks None result c d → ComesOf (task_by due.now next.now) c d }
{
    match next {
        Next::Batch => Deed::Publish(due),
        Next::Empty => Deed::SayOfBatch(Saying::Published(maps.serial())),
        Next::Spoiled(lines) => Deed::SayOfBatch(Saying::Spoiled(*lines)),
        Next::Refused(number, why) => Deed::Say(Saying::Refused(*number, *why)),
        Next::Query { addr, octets } => Deed::Say(Saying::Answer(
            maps.serial(),
            maps.answer(*addr, octets.as_slice()),
        )),
        Next::Totals => Deed::Say(Saying::Show(maps.serial(), maps.totals())),
        Next::Nothing => Deed::Nothing,
        Next::Stop => Deed::Nothing,
    }
}

/// What is to be done for a batch that was sent. Where it is empty the newest map stays.
fn deed_of_batch<'b, J: Naming>(maps: &Maps<J>, batch: &'b Batch) -> Deed<'b>
    requires { All IsInRange batch.now → IsBatch maps.now.newest.plan.market batch.now }
    ensures may { MayBeDone maps.now.newest.plan.market result }
    ensures few { raises result ≤ 1 }
    ensures works { (feeder : ℕ) (c d : Course) → c.newest ≡ maps.now.newest
        → DeedWorks (Some feeder) result c d
        → WorksAs (Some feeder) (whats.Commit batch.now) c d }
{
    // tells the prover what the type keeps
    let _ = batch.changes();
    if batch.is_empty() {
        Deed::SayOfBatch(Saying::Published(maps.serial()))
    } else {
        Deed::Publish(batch)
    }
}

/// What is to be done for an item where there are several feeds.
pub(crate) fn deed_of_item<'b, J: Naming>(maps: &Maps<J>, what: &'b What) -> Deed<'b>
    requires { (changes : List Change) → what.now ≡ whats.Commit changes
        → All IsInRange changes → IsBatch maps.now.newest.plan.market changes }
    ensures may { MayBeDone maps.now.newest.plan.market result }
    ensures few { raises result ≤ batches (what.now ∷ []) }
    ensures works { (feeder : ℕ) (c d : Course) → c.newest ≡ maps.now.newest
        → DeedWorks (Some feeder) result c d → WorksAs (Some feeder) what.now c d }
{
    match what {
        What::Commit(batch) => deed_of_batch(maps, batch),
        What::Empty => Deed::SayOfBatch(Saying::Published(maps.serial())),
        What::Lines(lines) => Deed::SayOfBatch(Saying::Spoiled(*lines)),
        What::Memory => Deed::SayOfBatch(Saying::NoMemory),
        What::Refused(number, why) => Deed::Say(Saying::Refused(*number, *why)),
        What::Ask { addr, octets } => Deed::Say(Saying::Answer(
            maps.serial(),
            maps.answer(*addr, octets.as_slice()),
        )),
        What::Show => Deed::Say(Saying::Show(maps.serial(), maps.totals())),
        What::End(_) => Deed::Nothing,
    }
}
