//! A run over a feed.
ghost use Rattle.std.specs.Prelude.{◌≡◌, ◌≢◌, ◌≤◌, ◌*◌, ◌+◌, ◌^◌, [], ℕ, List, Option, None, Some, length};
ghost use Rattle.std.specs.List.{concat};
ghost use Rattle.outside.specs.Faults.{BothTell, Rose};
ghost use Rattle.outside.specs.Source.{Fed};
ghost use Rattle.demand_feed.specs.Runs.{HasRead, IsRun};
ghost use Rattle.demand_feed.specs.Working.{IsReady, LastCame, Reads, TurnCame, end_of};
ghost use Rattle.demand_feed.specs.declared.limits.TheConstants.{MOST_TURNS, READ_SIZE};

use crate::limits::READ_SIZE;
use crate::pieces::{LineEnd, end_line, take_piece};
use crate::{Clerk, Cutter, TakesTasks};
use no_memory::NoMemory;
use outside::{Read, Source};
use std::alloc::Global;
use topology_text::Topology;

/// How a run over a feed ended.
#[derive(Clone, Copy, Debug, PartialEq, Eq)]
pub enum FeedEnd {
    /// At a line `stop`, or at the feed's end.
    Ended,
    /// The source failed.
    SourceFault,
    /// Who takes the tasks failed. Nothing was taken after that.
    SinkFault,
    /// All turns were taken.
    Spent,
    /// There was no memory to read with. No run over lines ends so.
    NoMemory,
}

/// Hands on what comes of the last line, which no LF ends. It counts where it is not empty.
fn end_last<T: TakesTasks>(
    topology: &Topology,
    clerk: &mut Clerk,
    line: &[u8],
    to: &mut T,
) -> FeedEnd
    requires { IsReady T.market T.left topology.now clerk.old to.old 1 }
    ensures came { (before : T) (bytes : List ℕ) → Reads T.does topology.now before bytes
        line.now clerk.old to.old → LastCame T.does T.cuts result topology.now before bytes to.new }
    ensures no_source { result ≢ FeedEnd.SourceFault }
{
    if line.is_empty() {
        return FeedEnd::Ended;
    }
    match end_line(topology, clerk, line, to) {
        LineEnd::Failed => FeedEnd::SinkFault,
        LineEnd::Stopped => FeedEnd::Ended,
        LineEnd::GoesOn => FeedEnd::Ended,
    }
}

/// How a feed ends by a piece, if it does.
fn piece_end(end: LineEnd) -> Option<FeedEnd>
    ensures end { result ≡ end_of end }
    ensures no_source { result ≢ Some FeedEnd.SourceFault }
{
    match end {
        LineEnd::GoesOn => None,
        LineEnd::Stopped => Some(FeedEnd::Ended),
        LineEnd::Failed => Some(FeedEnd::SinkFault),
    }
}

/// Takes one turn: reads a piece, and hands on what comes of its lines.
fn take_turn<S: Source, T: TakesTasks>(
    topology: &Topology,
    clerk: &mut Clerk,
    cutter: &mut Cutter,
    buffer: &mut [u8],
    feed: &mut S,
    to: &mut T,
) -> Option<FeedEnd>
    requires buffer { length buffer.old ≡ READ_SIZE }
    requires ready { IsReady T.market T.left topology.now clerk.old to.old READ_SIZE }
    ensures ready { (n : ℕ) → IsReady T.market T.left topology.now clerk.old to.old (n + READ_SIZE)
        → result ≡ None → IsReady T.market T.left topology.now clerk.new to.new n }
    ensures came { (fed : Option Fed) (before : T) (pieces : List (List ℕ))
        → BothTell fed (S.told feed.old).past (HasRead pieces) → Reads T.does topology.now
        before (concat pieces) cutter.old clerk.old to.old → TurnCame T.does T.cuts result
        topology.now fed (S.told feed.new).past before (length pieces) cutter.new clerk.new to.new }
    ensures later { (S.told feed.old).faults ≤ (S.told feed.new).faults }
    ensures cause { result ≡ Some FeedEnd.SourceFault
        → Rose (S.told feed.old).faults (S.told feed.new).faults }
    ensures stays { result ≢ Some FeedEnd.SourceFault
        → (S.told feed.new).faults ≡ (S.told feed.old).faults }
{
    match feed.read(buffer) {
        Read::Got(size) => piece_end(take_piece(topology, clerk, cutter, &buffer[..size], to)),
        Read::End => Some(end_last(topology, clerk, cutter.line(), to)),
        Read::Failed => Some(FeedEnd::SourceFault),
    }
}

/// What a run over a feed works with. All its room is taken when it is made.
#[derive(Drop)]
pub struct Intake {
    clerk: Clerk,
    cutter: Cutter,
    buffer: Vec<u8>,
    ghost fits: { vec_len buffer ≡ read_size },
}

ghost use Rattle.std.specs.Prelude.{vec_len};
ghost use Rattle.demand_feed.specs.Limits.{read_size};

impl Intake {
    /// One that was not used.
    ///
    /// # Errors
    ///
    /// `NoMemory`.
    pub fn new(alloc: Global) -> Result<Intake, NoMemory> {
        Ok(Intake {
            clerk: Clerk::new(alloc)?,
            cutter: Cutter::new(alloc)?,
            buffer: vec![in alloc; 0; READ_SIZE]?,
        })
    }
}

/// Runs a feed, from its first line on, to its end or for so many turns, 2^48 at most. Each turn is one read.
///
/// What follows a line `stop` is not looked at, and nothing is read behind the piece that brings its end.
pub fn run_lines<S: Source, T: TakesTasks>(
    topology: &Topology,
    intake: &mut Intake,
    feed: &mut S,
    to: &mut T,
    turns: u64,
) -> FeedEnd
    requires turns { turns ≤ MOST_TURNS }
    requires market { T.market to.old ≡ topology.now.market }
    requires left { 2 ^ 63 ≤ T.left to.old }
    ensures run { IsRun T.does T.cuts
        topology.now turns result (S.told feed.old).past (S.told feed.new).past to.old to.new }
    ensures later { (S.told feed.old).faults ≤ (S.told feed.new).faults }
    ensures cause { result ≡ FeedEnd.SourceFault
        → Rose (S.told feed.old).faults (S.told feed.new).faults }
    ensures stays { result ≢ FeedEnd.SourceFault
        → (S.told feed.new).faults ≡ (S.told feed.old).faults }
{
    let Intake {
        clerk,
        cutter,
        buffer,
    } = intake;
    let buffer = buffer.as_mut_slice();
    clerk.restart();
    cutter.clear();
    let mut used: u64 = 0;
    'pieces: while used < turns {
        let end = take_turn(topology, clerk, cutter, buffer, feed, to);
        if let Some(end) = end {
            return end;
        }
        used += 1;
    }
    FeedEnd::Spent
}
