//! Laws of what is determined, and of maps without a circle.
ghost use Rattle.map_laws.specs.Laws.{BacksAgree, BatchesAgree, BestBelowIsOne, CutsAgree, EndsAgree, GroupBestIsOne, IsBestBelowIfBest, IsBestBelowIfFree, IsBestIfFree};

/// Proposals from one state that end in a stable map come to one map: the best of those within that state.
pub fn ends_agree()
    ensures { EndsAgree }
{}

/// There is at most one best map of those within a state.
pub fn best_below_is_one()
    ensures { BestBelowIsOne }
{}

/// There is at most one good map of an instance that is group-best.
pub fn group_best_is_one()
    ensures { GroupBestIsOne }
{}

/// What is cut of what is held, and whom it is taken from, is determined by what is held and by the numbers.
pub fn cuts_agree()
    ensures { CutsAgree }
{}

/// Where groups go back to, and what they hold then, is determined by what they held, by their pointers and by the marks.
pub fn backs_agree()
    ensures { BacksAgree }
{}

/// The instance after a batch is determined by the one before it and by the changes.
pub fn batches_agree()
    ensures { BatchesAgree }
{}

/// A feasible and stable map in which no circle of groups can all do better, each by the unit that the one before it leaves, is
/// group-best. Whether there is such a circle is a question about pools: at each one offer is next in line.
pub fn best_if_free()
    ensures { IsBestIfFree }
{}

/// With what a state leaves its offers in place of their limits, such a map is the best of those within that state.
pub fn best_below_if_free()
    ensures { IsBestBelowIfFree }
{}

/// A group-best map that is within a state is the best of those within it.
pub fn best_below_if_best()
    ensures { IsBestBelowIfBest }
{}
