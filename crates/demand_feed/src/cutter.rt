//! A feed cut into lines, however it comes in pieces.
ghost use Rattle.std.specs.Prelude.{◌≡◌, ◌<◌, ◌≤◌, ℕ, List, [], ◌∷◌, ◌++◌, ◌+◌, ◌-◌, take, length, IfOk, IfSome, IfNone, MatchOption};
ghost use Rattle.text_parts.specs.Parts.{parts};
ghost use Rattle.demand_feed.specs.Cutter.{GoesOn};
ghost use Rattle.demand_feed.specs.Limits.{longest_line};

use crate::limits::LONGEST_LINE;
use no_memory::NoMemory;
use std::alloc::Global;
use std::marker::Model;
use text_parts::cut;

/// How many octets of a line are kept: one more than it may have, which tells that it is too long.
const KEPT: usize = LONGEST_LINE + 1;

/// The line of a feed that has not ended yet. Of one that is too long the first 8,301 octets are kept, by which
/// it is refused.
#[derive(Debug, Drop)]
pub struct Cutter {
    line: Vec<u8>,
}

impl Model for Cutter {
    ghost use Rattle.std.specs.Prelude.{◌≤◌, ◌+◌, List, ℕ, vec_len, vec_capacity};
    ghost use Rattle.demand_feed.specs.Limits.{longest_line};

    ghost Value = { List ℕ };

    ghost view = { λ c. c.line.items };

    ghost invariant = { λ c. (longest_line + 1 ≤ vec_capacity c.line)
        × (vec_len c.line ≤ longest_line + 1) };
}

impl Cutter {
    /// One at the start of a line.
    ///
    /// # Errors
    ///
    /// `NoMemory`.
    pub fn new(alloc: Global) -> Result<Cutter, NoMemory>
        ensures { IfOk result (λ c. c ≡ []) }
    {
        Ok(Cutter {
            line: Vec::with_capacity(alloc, KEPT)?,
        })
    }

    /// The line so far.
    pub fn line(&self) -> &[u8]
        ensures { result.now ≡ self.now }
    {
        self.line.as_slice()
    }

    /// Begins a line.
    pub fn clear(&mut self)
        ensures { self.new ≡ [] }
    {
        self.line.clear();
    }

    /// The line goes on.
    fn push(&mut self, octets: &[u8])
        ensures { self.new ≡ self.old ++ take (longest_line + 1 - length self.old) octets.now }
    {
        let room = octets.len().min(KEPT - self.line.len());
        let _fits = self.line.extend_from_slice(&octets[..room]);
    }

    /// Takes a piece up to the end of the line, and answers what stands behind that; None where the line does not
    /// end in this piece. A line that has ended is kept until it is cleared.
    pub fn take<'a>(&mut self, piece: &'a [u8]) -> Option<&'a [u8]>
        ensures cut { MatchOption result (parts 10 piece.entry.now ≡ piece.entry.now ∷ [])
            (λ behind. (before : List ℕ) × (parts 10 piece.entry.now ≡ before ∷ parts 10 behind.now)
            × GoesOn self.old before self.new) }
        ensures open { IfNone result (GoesOn self.old piece.entry.now self.new) }
        ensures shorter { IfSome result (λ behind. length behind.now < length piece.entry.now) }
    {
        match cut(piece, b'\n') {
            Some((before, behind)) => {
                self.push(before);
                Some(behind)
            }
            None => {
                self.push(piece);
                None
            }
        }
    }
}
