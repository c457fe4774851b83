//! What a thread knows of a queue.
use demand_feed::{Item, What};
use std::collections::LinkedList;

/// What a pass may do and what it has done. No value of it is made.
///
/// Who takes knows how many feeders there are and what was taken. Who feeds knows which feeder it is and what that one has
/// sent.
pub struct Hand {
    pub takes: bool,
    pub feeders: u64,
    pub got: LinkedList<Item>,
    pub feeds: bool,
    pub feeder: u64,
    pub sent: LinkedList<What>,
}
