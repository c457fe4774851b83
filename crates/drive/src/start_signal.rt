//! The start of several feeders: all of them begin to read, or none does.
use std::sync::atomic::AtomicBool;
use std::sync::atomic::Ordering::SeqCst;
use std::sync::{OnceLock, Wait};

/// Where feeders wait until a thread was asked for each of them.
#[derive(Drop)]
pub(crate) struct StartSignal {
    /// Whether one of them got none.
    is_short: AtomicBool,
    /// Whether they may read, once that is known.
    may_read: OnceLock<bool>,
}

impl StartSignal {
    /// One for which no thread was asked so far.
    pub fn new() -> StartSignal {
        StartSignal {
            is_short: AtomicBool::new(false),
            may_read: OnceLock::new(),
        }
    }

    /// Whether a feeder may read. One that has a thread of its own waits until that is known; where one is alone, none may.
    pub fn may_read<R: Wait>(&self, rt: &R, alone: bool) -> bool {
        if alone {
            self.is_short.store(true, SeqCst);
            return false;
        }
        *self.may_read.wait(rt)
    }

    /// Lets all feeders go on, now that a thread was asked for each.
    pub fn open<R: Wait>(&self, rt: &R) {
        let _ = self.may_read.set(rt, !self.is_short.load(SeqCst));
    }
}
