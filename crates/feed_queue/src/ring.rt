//! What both ends of a queue share, and how they wait for one another.
ghost use Rattle.std.specs.Prelude.{◌≡◌, if◌then◌else◌};

use crate::rule::{ItemQueue, Numbers};
use std::sync::Wait;
use std::thread;
use std::thread::Parker;
use std::time::Duration;

/// How often who waits yields before it sleeps.
const MOST_YIELDS: u32 = 200;

/// The longest sleep, in seconds, though nobody wakes the sleeper.
const LONGEST_SLEEP: u64 = 1;

/// The queue, and where threads sleep that wait for it.
#[derive(Drop)]
pub(crate) struct Ring<N: Numbers> {
    pub items: ItemQueue<N>,
    /// Who takes sleeps here while the queue is empty.
    pub taker: Parker,
    /// Each feeder sleeps at the place of its number while the queue is full.
    pub feeders: [Parker; 4],
}

impl<N: Numbers> Ring<N> {
    /// Waits for room, as this feeder, which found none so often.
    pub fn wait_for_room<R: Wait>(&self, rt: &R, number: u8, tries: u32) {
        match self.feeders.get(usize::from(number)) {
            Some(parker) => wait(rt, parker, tries),
            None => thread::yield_now(),
        }
    }

    /// Waits for an item, of which none was found so often.
    pub fn wait_for_item<R: Wait>(&self, rt: &R, tries: u32) {
        wait(rt, &self.taker, tries);
    }

    /// Wakes all feeders that sleep, where an item was taken. Answers how often none was found since the last one.
    pub fn wake_behind(&self, was_taken: bool, tries: u32) -> u32
        ensures { result ≡ (if was_taken then 0 else tries) }
    {
        if !was_taken {
            return tries;
        }
        for parker in &self.feeders {
            parker.unpark();
        }
        0
    }
}

/// Yields the first so many times, and sleeps from then on until it is woken, a second at most.
fn wait<R: Wait>(rt: &R, parker: &Parker, tries: u32) {
    if tries < MOST_YIELDS {
        thread::yield_now();
    } else {
        parker.park_timeout(rt, Duration::from_secs(LONGEST_SLEEP));
    }
}
