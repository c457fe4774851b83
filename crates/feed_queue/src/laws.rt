//! Laws of the queue: when all that was sent was taken.
ghost use Rattle.feed_queue.specs.Whole.{AllIsTaken, RunsEndLast};

/// Where as many ends were taken as there are feeders, all that each feeder sent was taken. What a feeder sends of its feed
/// has its end last, and no other.
pub fn all_is_taken()
    ensures taken { AllIsTaken }
    ensures ends { RunsEndLast }
{}
