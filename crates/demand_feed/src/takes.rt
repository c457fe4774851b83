//! Who takes what comes of a feed's lines.
ghost use Rattle.std.specs.Prelude.{◌≡◌, ◌≢◌, ◌≤◌, ◌+◌, ℕ, []};
ghost use Rattle.map_model.specs.Batch.{IsBatch};
ghost use Rattle.map_model.specs.Market.{Market};
ghost use Rattle.demand_feed.specs.Clerk.{task_by};
ghost use Rattle.demand_feed.specs.Task.{Task};
ghost use Rattle.demand_feed.specs.Taking.{HasTaken};

use crate::{Batch, Next};

/// What became of a task.
#[derive(Clone, Copy, Debug, PartialEq, Eq)]
pub enum Taken {
    /// It was taken whole.
    Done,
    /// It was broken off, and nothing more is to be taken.
    Failed,
}

/// Who takes the tasks of a feed, one after another.
pub trait TakesTasks {
    ghost use Rattle.demand_feed.specs.Task.{Task};
    ghost use Rattle.map_model.specs.Market.{Market};

    /// What one task does that is taken whole.
    ghost does: { Task → Self → Self → Type 0 };

    /// What one task does that is broken off.
    ghost cuts: { Task → Self → Self → Type 0 };

    /// The instance whose groups and nodes the batches change.
    ghost market: { Self → Market };

    /// How many tasks more can be taken.
    ghost left: { Self → ℕ };

    /// Takes what comes of one line. `due` is the batch that ended last.
    fn take(&mut self, next: &Next, due: &Batch) -> Taken
        requires batch { next.now ≡ Next.Batch
            → IsBatch (market self.old) due.now × (due.now ≢ []) }
        requires left { 1 ≤ left self.old }
        ensures taken { HasTaken does cuts result (task_by due.now next.now) self.old self.new }
        ensures market { market self.new ≡ market self.old }
        ensures left { left self.old ≤ left self.new + 1 };
}
