//! What a port was asked, and what it answered.

use crate::past::{EventOf, Past, Telling};
use addr_text::{Listen, Peer};
use outside::{Arrival, Sending};
use std::marker::{Model, PhantomData};

/// A call of a port, with its answer.
#[derive(Clone, Copy, Drop)]
pub enum PortEvent<'a> {
    /// It was to be opened there.
    Opened(Listen),
    /// A `recv` was handed this serial and left the buffer so.
    Received(u64, &'a [u8], Arrival),
    /// A reply of the map of that serial was tried.
    Tried(&'a [u8], Peer, u64, Sending),
}

/// What a port tells.
pub struct PortTelling {
    marker: PhantomData<u8>,
}

impl Model for PortTelling {
    ghost use Rattle.outside.specs.Port.{PortTold};
    ghost use Rattle.past_log.specs.Port.{new_port};

    ghost Value = { PortTold };

    ghost view = { λ _. new_port };
}

impl Telling for PortTelling {
    ghost use Rattle.past_log.specs.Port.{new_port};

    ghost first = { new_port };
}

impl EventOf<PortTelling> for PortEvent<'_> {
    ghost use Rattle.past_log.specs.Port.{noted};

    ghost noted = { noted };
}

/// All that a port was asked.
pub type PortPast = Past<PortTelling>;
