//! The numbers that a world is drawn from, and a text that is drawn.
ghost use Rattle.std.specs.Prelude.{◌≡◌, ◌<◌, []};
ghost use Rattle.big_world.specs.Numbers.{behind, draw, next};

use std::alloc::Global;

/// A linear congruential generator of 64 bits, by the number that it made last.
#[derive(Drop)]
pub struct Draws {
    pub last: u64,
}

impl Draws {
    /// One whose first number follows on `seed`.
    pub fn from(seed: u64) -> Draws
        ensures { result.last ≡ seed }
    {
        Draws { last: seed }
    }

    /// Makes the next number.
    #[tactic(auto, unfolding(crate::specs::Numbers::next))]
    fn step(&mut self)
        ensures { self.new.last ≡ next self.old.last }
    {
        self.last = self
            .last
            .wrapping_mul(6364136223846793005)
            .wrapping_add(1442695040888963407);
    }

    /// The next draw, below `end`.
    #[tactic(auto, unfolding(crate::specs::Numbers::draw))]
    pub fn below(&mut self, end: u32) -> u32
        requires { 0 < end }
        ensures drawn { result ≡ draw self.old.last 1 end }
        ensures within { result < end }
        ensures last { self.new.last ≡ behind self.old.last 1 }
    {
        self.step();
        ((self.last >> 33) % u64::from(end)) as u32
    }
}

/// A text that is drawn: what is written of it, and the draws that say how it goes on.
#[derive(Drop)]
pub struct Pen {
    pub text: Vec<u8>,
    pub draws: Draws,
}

impl Pen {
    /// One with nothing written, whose draws follow on `seed`.
    pub fn new(alloc: Global, seed: u64) -> Pen
        ensures text { result.text.items ≡ [] }
        ensures last { result.draws.last ≡ seed }
    {
        Pen {
            text: Vec::new(alloc),
            draws: Draws::from(seed),
        }
    }
}
