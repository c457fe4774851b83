//! What a gate was asked, and what it answered.

use crate::past::{EventOf, Past, Telling};
use outside::Turning;
use std::marker::{Model, PhantomData};

/// A turn of a gate: what it was shown, and what it answered.
#[derive(Clone, Copy, Drop)]
pub struct GateEvent<'a> {
    pub known: &'a u64,
    pub turning: Turning,
}

/// What a gate tells.
pub struct GateTelling {
    marker: PhantomData<u8>,
}

impl Model for GateTelling {
    ghost use Rattle.outside.specs.Gate.{GateTold};
    ghost use Rattle.past_log.specs.Gate.{new_gate};

    ghost Value = { GateTold };

    ghost view = { λ _. new_gate };
}

impl Telling for GateTelling {
    ghost use Rattle.past_log.specs.Gate.{new_gate};

    ghost first = { new_gate };
}

impl EventOf<GateTelling> for GateEvent<'_> {
    ghost use Rattle.past_log.specs.Gate.{noted};

    ghost noted = { noted };
}

/// All that a gate was asked.
pub type GatePast = Past<GateTelling>;
