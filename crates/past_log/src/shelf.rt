//! Which files of a shelf were loaded, and what came of it.

use crate::past::{EventOf, Past, Telling};
use outside::LoadFault;
use std::marker::{Model, PhantomData};

/// A load: the file's name, the most octets that were wanted, and what was read.
#[derive(Clone, Copy, Drop)]
pub struct LoadEvent<'a> {
    pub name: &'a str,
    pub limit: usize,
    pub read: &'a Result<Vec<u8>, LoadFault>,
}

/// What a shelf tells of its loads: which there were, with what came of them.
pub struct ShelfTelling {
    marker: PhantomData<u8>,
}

impl Model for ShelfTelling {
    ghost use Rattle.std.specs.Prelude.{List};
    ghost use Rattle.outside.specs.Shelf.{Load};
    ghost use Rattle.past_log.specs.Shelf.{no_loads};

    ghost Value = { List Load };

    ghost view = { λ _. no_loads };
}

impl Telling for ShelfTelling {
    ghost use Rattle.past_log.specs.Shelf.{no_loads};

    ghost first = { no_loads };
}

impl EventOf<ShelfTelling> for LoadEvent<'_> {
    ghost use Rattle.past_log.specs.Shelf.{noted};

    ghost noted = { noted };
}

/// All loads from a shelf.
pub type ShelfPast = Past<ShelfTelling>;
