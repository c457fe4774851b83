//! Which calls a pace had.

use crate::past::{EventOf, Past, Telling};
use outside::PaceCall;
use std::marker::{Model, PhantomData};

/// A call of a pace.
#[derive(Clone, Copy, Drop)]
pub struct PaceEvent<'a> {
    pub call: &'a PaceCall,
}

/// What a pace tells.
pub struct PaceTelling {
    marker: PhantomData<u8>,
}

impl Model for PaceTelling {
    ghost use Rattle.std.specs.Prelude.{List};
    ghost use Rattle.outside.specs.declared.pace.PaceCall.{PaceCall};
    ghost use Rattle.past_log.specs.Pace.{new_pace};

    ghost Value = { List PaceCall };

    ghost view = { λ _. new_pace };
}

impl Telling for PaceTelling {
    ghost use Rattle.past_log.specs.Pace.{new_pace};

    ghost first = { new_pace };
}

impl EventOf<PaceTelling> for PaceEvent<'_> {
    ghost use Rattle.past_log.specs.Pace.{noted};

    ghost noted = { noted };
}

/// All that a pace was asked.
pub type PacePast = Past<PaceTelling>;
