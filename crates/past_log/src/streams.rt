//! What streams were asked, and what they answered.

use crate::past::{EventOf, Past, Telling};
use addr_text::Listen;
use outside::{Accepting, Reading, Writing};
use std::marker::{Model, PhantomData};

/// A call of streams, with its answer.
#[derive(Clone, Copy, Drop)]
pub enum StreamsEvent<'a> {
    /// They were to be opened there.
    Opened(Listen),
    /// An `accept` was handed this serial.
    Accepted(u64, Accepting),
    /// A `read` was handed this serial and left the buffer so.
    Heard(u64, &'a [u8], Reading),
    /// Of a reply of the map of that serial these octets were written.
    Said(u64, &'a [u8], Writing),
    /// The open conversation was closed.
    Closed,
}

/// What streams tell.
pub struct StreamsTelling {
    marker: PhantomData<u8>,
}

impl Model for StreamsTelling {
    ghost use Rattle.outside.specs.Streams.{StreamsTold};
    ghost use Rattle.past_log.specs.Streams.{new_streams};

    ghost Value = { StreamsTold };

    ghost view = { λ _. new_streams };
}

impl Telling for StreamsTelling {
    ghost use Rattle.past_log.specs.Streams.{new_streams};

    ghost first = { new_streams };
}

impl EventOf<StreamsTelling> for StreamsEvent<'_> {
    ghost use Rattle.past_log.specs.Streams.{noted};

    ghost noted = { noted };
}

/// All that streams were asked.
pub type StreamsPast = Past<StreamsTelling>;
