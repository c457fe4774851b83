//! What a gate and a pace that hold each other share, and what they wait for.
use std::sync::atomic::AtomicU64;
use std::sync::atomic::Ordering::SeqCst;
use std::thread;

/// How often a holder looks before it gives up.
const LOOKS: u32 = 1_000_000;

/// One of two lanes that are held.
#[derive(Clone, Copy, Debug, PartialEq, Eq)]
pub enum HeldLane {
    First,
    Second,
}

/// What a holder waits for.
#[derive(Clone, Copy, Debug, PartialEq, Eq)]
pub enum Wanted {
    /// So many turns of a lane have begun, so all datagrams before the last of them are answered.
    Turns(HeldLane, u64),
    /// The pace was shown a serial that is no lower.
    Newest(u64),
    /// The feed has ended.
    Done,
}

/// What is waited for at a turn of a gate, or at a call of a pace, counted from 0.
#[derive(Clone, Copy, Debug, PartialEq, Eq)]
pub struct Point {
    pub at: u64,
    pub wanted: Wanted,
}

/// How far two lanes and a feed have come, for all who hold them.
#[derive(Drop)]
pub struct Milestones {
    first_turns: AtomicU64,
    second_turns: AtomicU64,
    /// The newest serial that the pace was shown.
    newest: AtomicU64,
    /// 1 where the feed has ended.
    done: AtomicU64,
    /// 1 where a holder gave up.
    late: AtomicU64,
}

impl Milestones {
    /// Nothing has begun.
    pub fn new() -> Milestones {
        Milestones {
            first_turns: AtomicU64::new(0),
            second_turns: AtomicU64::new(0),
            newest: AtomicU64::new(0),
            done: AtomicU64::new(0),
            late: AtomicU64::new(0),
        }
    }

    /// Whether a holder gave up.
    pub fn is_late(&self) -> bool {
        self.late.load(SeqCst) > 0
    }

    fn turns(&self, lane: HeldLane) -> &AtomicU64 {
        match lane {
            HeldLane::First => &self.first_turns,
            HeldLane::Second => &self.second_turns,
        }
    }

    fn has(&self, wanted: Wanted) -> bool {
        match wanted {
            Wanted::Turns(lane, count) => self.turns(lane).load(SeqCst) >= count,
            Wanted::Newest(serial) => self.newest.load(SeqCst) >= serial,
            Wanted::Done => self.done.load(SeqCst) > 0,
        }
    }

    /// Yields until it has come, or for long enough, and says whether it has. Where not, that is marked.
    fn wait(&self, wanted: Wanted) -> bool {
        for _ in 0..LOOKS {
            if self.has(wanted) {
                return true;
            }
            thread::yield_now();
        }
        self.late.store(1, SeqCst);
        false
    }

    /// Waits for all that is wanted at a turn or call, and says whether all has come.
    pub(crate) fn wait_all(&self, points: &[Point], at: u64) -> bool {
        let mut has_all = true;
        for point in points {
            if point.at == at && !self.wait(point.wanted) {
                has_all = false;
            }
        }
        has_all
    }

    pub(crate) fn begin_turn(&self, lane: HeldLane) {
        self.turns(lane).fetch_add(1, SeqCst);
    }

    /// The pace was shown this serial.
    pub(crate) fn show(&self, newest: u64) {
        self.newest.store(newest, SeqCst);
    }

    /// The feed has ended.
    pub(crate) fn finish(&self) {
        self.done.store(1, SeqCst);
    }
}
