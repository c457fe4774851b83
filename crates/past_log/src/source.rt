//! What a source was asked, and what it answered.

use crate::past::{EventOf, Past, Telling};
use outside::Read;
use std::marker::{Model, PhantomData};

/// A read with its answer, and how it left the buffer.
#[derive(Clone, Copy, Drop)]
pub struct SourceEvent<'a> {
    pub buffer: &'a [u8],
    pub read: Read,
}

/// An opening under a name.
#[derive(Clone, Copy, Drop)]
pub struct NameEvent<'a> {
    pub name: &'a str,
}

/// What a source tells.
pub struct SourceTelling {
    marker: PhantomData<u8>,
}

impl Model for SourceTelling {
    ghost use Rattle.outside.specs.Source.{Fed};
    ghost use Rattle.past_log.specs.Source.{new_source};

    ghost Value = { Fed };

    ghost view = { λ _. new_source };
}

impl Telling for SourceTelling {
    ghost use Rattle.past_log.specs.Source.{new_source};

    ghost first = { new_source };
}

impl EventOf<SourceTelling> for SourceEvent<'_> {
    ghost use Rattle.past_log.specs.Source.{noted};

    ghost noted = { noted };
}

impl EventOf<SourceTelling> for NameEvent<'_> {
    ghost use Rattle.past_log.specs.Source.{named};

    ghost noted = { named };
}

/// All that a source was asked.
pub type SourcePast = Past<SourceTelling>;
