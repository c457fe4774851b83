//! What the socket of a connection was asked, and what it answered.

use crate::past::{EventOf, Past, Telling};
use std::io::Result;
use std::marker::{Model, PhantomData};

/// A call of a connection's socket, with its answer.
#[derive(Clone, Copy, Drop)]
pub enum LineEvent<'a> {
    /// It was read.
    Read(&'a Result<usize>),
    /// It was written.
    Written(&'a Result<usize>),
}

/// What the socket of a connection tells.
pub struct LineTelling {
    marker: PhantomData<u8>,
}

impl Model for LineTelling {
    ghost use Rattle.past_log.specs.Line.{LineTold, new_line};

    ghost Value = { LineTold };

    ghost view = { λ _. new_line };
}

impl Telling for LineTelling {
    ghost use Rattle.past_log.specs.Line.{new_line};

    ghost first = { new_line };
}

impl EventOf<LineTelling> for LineEvent<'_> {
    ghost use Rattle.past_log.specs.Line.{noted};

    ghost noted = { noted };
}

/// All that the socket of a connection was asked.
pub type LinePast = Past<LineTelling>;
