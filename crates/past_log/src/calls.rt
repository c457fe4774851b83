//! How often a real thing was asked for what it answers to every call anew.

use crate::past::{EventOf, Past, Telling};
use std::marker::{Model, PhantomData};

/// A call.
#[derive(Clone, Copy, Drop)]
pub enum CallEvent {
    /// It was made.
    Made,
}

/// What is told of calls: how many there were.
pub struct CallsTelling {
    marker: PhantomData<u8>,
}

impl Model for CallsTelling {
    ghost use Rattle.std.specs.Prelude.{ℕ};
    ghost use Rattle.past_log.specs.Calls.{no_calls};

    ghost Value = { ℕ };

    ghost view = { λ _. no_calls };
}

impl Telling for CallsTelling {
    ghost use Rattle.past_log.specs.Calls.{no_calls};

    ghost first = { no_calls };
}

impl EventOf<CallsTelling> for CallEvent {
    ghost use Rattle.past_log.specs.Calls.{noted};

    ghost noted = { noted };
}

/// All calls so far.
pub type CallsPast = Past<CallsTelling>;
