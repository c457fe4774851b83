//! A flag by which the end of a feed ends the lanes.
ghost use Rattle.std.specs.Prelude.{◌≡◌, Some};
ghost use Rattle.past_log.specs.Gate.{new_gate};
ghost use Rattle.past_log.specs.Pace.{new_pace};

use outside::{Gate, Pace, PaceCall, Turning};
use past_log::{GateEvent, GatePast, PaceEvent, PacePast};
use std::marker::Model;
use std::sync::atomic::AtomicBool;
use std::sync::atomic::Ordering::SeqCst;

/// How many turns a lane of conversations has at most, from when it is to stop, to answer those that have come.
const MOST_LAST_TURNS: u32 = 1_024;

/// Whether lanes are to stop, and whether all conversations that had come by then were answered. Once either is set it
/// stays so.
#[derive(Drop)]
pub struct StopFlag {
    is_set: AtomicBool,
    is_drained: AtomicBool,
}

impl StopFlag {
    /// One that is not set.
    pub fn new() -> StopFlag {
        StopFlag {
            is_set: AtomicBool::new(false),
            is_drained: AtomicBool::new(false),
        }
    }

    /// Tells the lanes to stop.
    pub fn set(&self) {
        self.is_set.store(true, SeqCst);
    }

    /// Whether they were told.
    pub fn is_set(&self) -> bool {
        self.is_set.load(SeqCst)
    }

    /// Notes that no conversation waits of those that had come.
    pub(crate) fn note_drained(&self) {
        self.is_drained.store(true, SeqCst);
    }

    /// Whether that was noted.
    fn is_drained(&self) -> bool {
        self.is_drained.load(SeqCst)
    }
}

/// A gate that answers `Go` until a flag is set, and then `Stop`; that of a lane of conversations only once those that had
/// come are answered, or after a thousand turns more. It has no fault.
#[derive(Drop)]
pub struct FlagGate<'a> {
    flag: &'a StopFlag,
    /// How many turns are left from when the flag is set.
    turns: u32,
    past: GatePast,
}

impl<'a> Model for FlagGate<'a> {
    ghost use Rattle.outside.specs.Gate.{GateTold};

    ghost Value = { GateTold };

    ghost view = { λ g. g.past.told };
}

impl<'a> FlagGate<'a> {
    /// One that looks at this flag, and was asked nothing.
    pub fn new(flag: &'a StopFlag) -> FlagGate<'a>
        ensures { result ≡ new_gate }
    {
        FlagGate {
            flag,
            turns: 0,
            past: GatePast::new(),
        }
    }

    /// The same, for a lane of conversations.
    pub fn of_streams(flag: &'a StopFlag) -> FlagGate<'a>
        ensures { result ≡ new_gate }
    {
        FlagGate {
            flag,
            turns: MOST_LAST_TURNS,
            past: GatePast::new(),
        }
    }

    /// Whether the lane is to stop now.
    fn is_shut(&mut self) -> bool
        ensures { self.new ≡ self.old }
    {
        if !self.flag.is_set() {
            return false;
        }
        if self.turns == 0 || self.flag.is_drained() {
            return true;
        }
        self.turns -= 1;
        false
    }
}

impl Gate for FlagGate<'_> {
    ghost told = { λ g. record { past = Some g; faults = 0 } };

    fn turn(&mut self, known: u64) -> Turning {
        let turning = if self.is_shut() {
            Turning::Stop
        } else {
            Turning::Go
        };
        self.past.note(&GateEvent {
            known: &known,
            turning,
        });
        turning
    }
}

/// A pace that sets a flag when the feed has ended, and holds nobody. It has no fault.
#[derive(Drop)]
pub struct FlagPace<'a> {
    flag: &'a StopFlag,
    past: PacePast,
}

impl<'a> Model for FlagPace<'a> {
    ghost use Rattle.std.specs.Prelude.{List};
    ghost use Rattle.outside.specs.declared.pace.PaceCall.{PaceCall};

    ghost Value = { List PaceCall };

    ghost view = { λ p. p.past.told };
}

impl<'a> FlagPace<'a> {
    /// One that sets this flag, and had no call.
    pub fn new(flag: &'a StopFlag) -> FlagPace<'a>
        ensures { result ≡ new_pace }
    {
        FlagPace {
            flag,
            past: PacePast::new(),
        }
    }
}

impl Pace for FlagPace<'_> {
    ghost told = { λ p. record { past = Some p; faults = 0 } };

    fn before(&mut self, newest: u64) {
        let call = PaceCall::Before(newest);
        self.past.note(&PaceEvent { call: &call });
    }

    fn done(&mut self, newest: u64) {
        self.flag.set();
        let call = PaceCall::Done(newest);
        self.past.note(&PaceEvent { call: &call });
    }
}
