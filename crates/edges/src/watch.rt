//! What a clock showed when it was last read.
ghost use Rattle.std.specs.Duration.{as_nanos};
ghost use Rattle.std.specs.Prelude.{◌≡◌, ◌-◌, ◌/◌, ◌^◌, min};
ghost use Rattle.edges.specs.Watches.{IsReadOnce, IsShown};

use past_log::{CallEvent, CallsPast};
use std::io::Result;
use std::time::{Clock, Duration};

/// The microseconds of a clock. Where it can't be read, they stand still. It tells how often it was read.
#[derive(Drop)]
pub(crate) struct Watch {
    pub(crate) now: u64,
    reads: CallsPast,
}

/// The microseconds of a time, as far as there are numbers for them.
fn micros_of(time: &Duration) -> u64
    ensures { result ≡ min (as_nanos time.now / 1_000) (2 ^ 64 - 1) }
{
    time.as_secs()
        .saturating_mul(1_000_000)
        .saturating_add(u64::from(time.subsec_micros()))
}

impl Watch {
    /// One that was not read, at 0.
    pub(crate) fn new() -> Watch
        ensures { result.now ≡ 0 }
    {
        Watch {
            now: 0,
            reads: CallsPast::new(),
        }
    }

    /// Reads a clock once, and answers what it does.
    pub(crate) fn read<C: Clock>(&mut self, clock: &C) -> Result<Duration>
        ensures shown { IsShown result self.old.now self.new.now }
        ensures read { IsReadOnce self.old self.new }
    {
        let answer = clock.monotonic();
        self.reads.note(&CallEvent::Made);
        if let Ok(time) = &answer {
            self.now = micros_of(time);
        }
        answer
    }
}
