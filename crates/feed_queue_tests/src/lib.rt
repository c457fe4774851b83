//! Tests of the queue of several feeders, in a crate of their own, so that they are proved without proving the library again.
#![tactic(auto)]

ghost use Rattle.std.specs.Prelude.{◌≡◌, true};

use feed_queue::{Feeder, Numbers, Taker};

fn is_sent<T: Send>(_x: &T) -> bool
    ensures { result ≡ true }
{
    true
}

/// Both ends of a queue may go to other threads.
pub fn ends_are_sent<N: Numbers + Send + Sync>(feeder: &Feeder<N>, taker: &Taker<N>) -> bool
    ensures { result ≡ true }
{
    is_sent(feeder) && is_sent(taker)
}

#[cfg(test)]
mod tests;
