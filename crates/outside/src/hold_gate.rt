//! A gate that holds its lane until others have come to a stated point.
ghost use Rattle.std.specs.Prelude.{◌≤◌, Some, map, vec_capacity};

use crate::hold::{HeldLane, Milestones, Point};
use crate::{Gate, MemShown, Turning};
use no_memory::NoMemory;
use std::alloc::Global;

/// A gate that holds its lane at stated turns. Where what it waits for doesn't come, or its room is used up, it answers
/// `Stop`.
#[derive(Drop)]
pub struct HoldGate<'a> {
    milestones: &'a Milestones,
    lane: HeldLane,
    points: Vec<Point>,
    turns: Vec<MemShown>,
    room: usize,
    is_stopped: bool,
    faults: u64,
    ghost fits: { room ≤ vec_capacity turns },
}

impl<'a> HoldGate<'a> {
    /// One of that lane, which waits at these turns, and has room to note so many.
    pub fn new(
        alloc: Global,
        milestones: &'a Milestones,
        lane: HeldLane,
        points: Vec<Point>,
        room: usize,
    ) -> Result<HoldGate<'a>, NoMemory> {
        Ok(HoldGate {
            milestones,
            lane,
            points,
            turns: Vec::with_capacity(alloc, room)?,
            room,
            is_stopped: false,
            faults: 0,
        })
    }

    /// The turns that it noted.
    pub fn turns(&self) -> &[MemShown] {
        self.turns.as_slice()
    }
}

impl Gate for HoldGate<'_> {
    ghost use Rattle.outside.specs.MemGate.{shown_of};

    ghost told = { λ g. record {
      past = Some (record {
        turns = map shown_of g.turns.items;
        is_stopped = g.is_stopped;
      });
      faults = g.faults;
    } };

    fn turn(&mut self, known: u64) -> Turning {
        self.milestones.begin_turn(self.lane);
        if self.turns.len() >= self.room {
            self.is_stopped = true;
            self.faults = self.faults.saturating_add(1);
            return Turning::Stop;
        }
        let at = self.turns.len() as u64;
        let go = self.milestones.wait_all(self.points.as_slice(), at);
        self.turns.push_reserved(MemShown { known, go });
        if go {
            Turning::Go
        } else {
            self.is_stopped = true;
            Turning::Stop
        }
    }
}
