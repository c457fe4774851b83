//! Which notes a worker was given.

use crate::past::{EventOf, Past, Telling};
use std::marker::{Model, PhantomData};

/// An answer of notes: the number of the note that was given, or that there was none.
#[derive(Clone, Copy, Drop)]
pub struct NoteEvent {
    pub number: Option<u64>,
}

/// What notes tell.
pub struct NotesTelling {
    marker: PhantomData<u8>,
}

impl Model for NotesTelling {
    ghost use Rattle.outside.specs.Notes.{NotesTold};
    ghost use Rattle.past_log.specs.Notes.{no_notes};

    ghost Value = { NotesTold };

    ghost view = { λ _. no_notes };
}

impl Telling for NotesTelling {
    ghost use Rattle.past_log.specs.Notes.{no_notes};

    ghost first = { no_notes };
}

impl EventOf<NotesTelling> for NoteEvent {
    ghost use Rattle.past_log.specs.Notes.{noted};

    ghost noted = { noted };
}

/// All that notes answered.
pub type NotesPast = Past<NotesTelling>;
