//! A pace that holds its feed until lanes have come to a stated point.
ghost use Rattle.outside.specs.MemPace.{paced};

use crate::hold::{Milestones, Point};
use crate::{MemPace, Pace, PaceCall};
use no_memory::NoMemory;
use std::alloc::Global;

/// A pace that holds its feed ahead of stated commits. Where its room is used up it tells no more.
#[derive(Drop)]
pub struct HoldPace<'a> {
    milestones: &'a Milestones,
    points: Vec<Point>,
    noted: MemPace,
}

impl<'a> HoldPace<'a> {
    /// One that waits at these calls, and has room to note so many.
    pub fn new(
        alloc: Global,
        milestones: &'a Milestones,
        points: Vec<Point>,
        room: usize,
    ) -> Result<HoldPace<'a>, NoMemory> {
        Ok(HoldPace {
            milestones,
            points,
            noted: MemPace::new(alloc, room)?,
        })
    }

    /// The calls that it noted.
    pub fn calls(&self) -> &[PaceCall] {
        self.noted.calls()
    }
}

impl Pace for HoldPace<'_> {
    ghost told = { λ p. record { past = paced p.noted; faults = p.noted.faults } };

    fn before(&mut self, newest: u64) {
        self.milestones.show(newest);
        let at = self.noted.calls().len() as u64;
        self.noted.before(newest);
        let _ = self.milestones.wait_all(self.points.as_slice(), at);
    }

    fn done(&mut self, newest: u64) {
        self.milestones.show(newest);
        self.milestones.finish();
        self.noted.done(newest);
    }
}
