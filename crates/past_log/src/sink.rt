//! What a sink was asked, and what it answered.

use crate::past::{EventOf, Past, Telling};
use std::marker::{Model, PhantomData};

/// A put: the piece, and how many octets at its front were taken.
#[derive(Clone, Copy, Drop)]
pub struct SinkEvent<'a> {
    pub piece: &'a [u8],
    pub taken: usize,
}

/// What a sink tells.
pub struct SinkTelling {
    marker: PhantomData<u8>,
}

impl Model for SinkTelling {
    ghost use Rattle.outside.specs.Sink.{Written};
    ghost use Rattle.past_log.specs.Sink.{new_sink};

    ghost Value = { Written };

    ghost view = { λ _. new_sink };
}

impl Telling for SinkTelling {
    ghost use Rattle.past_log.specs.Sink.{new_sink};

    ghost first = { new_sink };
}

impl EventOf<SinkTelling> for SinkEvent<'_> {
    ghost use Rattle.past_log.specs.Sink.{noted};

    ghost noted = { noted };
}

/// All that a sink was asked.
pub type SinkPast = Past<SinkTelling>;
