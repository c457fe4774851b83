//! The summary of a run, line by line, written without memory.
ghost use Rattle.std.specs.Prelude.{◌≡◌, ◌≤◌, ◌<◌, ◌+◌, ◌++◌, [], length, decimal, slice_index_or};
ghost use Rattle.big_run.specs.Summary.{lines_of, row_of};
ghost use Rattle.big_run.specs.declared.summary.TheConstants.{LINE_ROOM, LINES};

use arrayvec::ArrayVec;
use itoa::Buffer;
use mapper::Totals;

/// How many lines a summary has.
pub const LINES: usize = 10;

/// Room for any line of a summary: a word of up to ten letters, a space, twenty digits and LF.
pub const LINE_ROOM: usize = 32;

/// What a run over a large world came to.
#[derive(Clone, Copy, Debug, PartialEq, Eq)]
pub struct Summary {
    /// Groups of the world.
    pub groups: u32,
    /// Nodes of its trees.
    pub nodes: u32,
    /// Maps that were made, the first one too.
    pub maps: u64,
    /// Maps among them that were found good.
    pub good: u64,
    /// Sums of the last map.
    pub totals: Totals,
    /// Proposals of the first mapping.
    pub proposals: u64,
    /// Groups whose clients get an answer by the last map.
    pub answered: u64,
    /// Groups whose clients are told of a server failure by it.
    pub servfail: u64,
}

/// A line of a summary, as it is written.
pub type SummaryLine = ArrayVec<u8, LINE_ROOM>;

/// Appends octets.
fn push(line: &mut SummaryLine, octets: &[u8])
    requires { length line.old.items + length octets.now ≤ LINE_ROOM }
    ensures { line.new.items ≡ line.old.items ++ octets.now }
{
    let _ = line.try_extend_from_slice(octets);
}

/// A word and a number, as a line.
#[tactic(auto, unfolding(crate::specs::Summary::row_of))]
fn row(word: &[u8], number: u64) -> SummaryLine
    requires { length word.now ≤ 10 }
    ensures { result.items ≡ row_of word.now number }
{
    let mut line = SummaryLine::new();
    let mut digits = Buffer::new();
    push(&mut line, word);
    push(&mut line, b" ");
    push(&mut line, digits.format(number).as_bytes());
    push(&mut line, b"\n");
    line
}

impl Summary {
    /// The line of that number, from 0.
    pub fn line(&self, number: usize) -> SummaryLine
        requires { number < 10 }
        ensures { result.items ≡ slice_index_or (lines_of self.now) number [] }
    {
        match number {
            0 => row(b"large", u64::from(self.groups)),
            1 => row(b"nodes", u64::from(self.nodes)),
            2 => row(b"maps", self.maps),
            3 => row(b"good", self.good),
            4 => row(b"placed", self.totals.placed),
            5 => row(b"unplaced", self.totals.unplaced),
            6 => row(b"full", self.totals.full),
            7 => row(b"proposals", self.proposals),
            8 => row(b"answered", self.answered),
            _ => row(b"servfail", self.servfail),
        }
    }
}
