//! What the lines of a piece come to.
ghost use Rattle.std.specs.Prelude.{◌≡◌, ◌+◌, ◌↔◌, ◌++◌, ℕ, List, length, IsTrue};
ghost use Rattle.demand_feed.specs.Cutter.{front};
ghost use Rattle.demand_feed.specs.Working.{InPiece, IsReady, LineCame, PieceCame, Reads, Stands};

use crate::{Clerk, Cutter, Next, Taken, TakesTasks};
use topology_text::Topology;

/// What became of a line, or of the lines of a piece.
#[derive(Clone, Copy, Debug, PartialEq, Eq)]
pub(crate) enum LineEnd {
    /// The feed goes on.
    GoesOn,
    /// The line says `stop`.
    Stopped,
    /// A task was broken off.
    Failed,
}

/// Whether a line says `stop`.
fn is_stop(next: &Next) -> bool
    ensures { IsTrue result ↔ (next.now ≡ Next.Stop) }
{
    matches!(next, Next::Stop)
}

/// Hands on what comes of a line.
pub(crate) fn end_line<T: TakesTasks>(
    topology: &Topology,
    clerk: &mut Clerk,
    line: &[u8],
    to: &mut T,
) -> LineEnd
    requires { IsReady T.market T.left topology.now clerk.old to.old 1 }
    ensures ready { (n : ℕ) → IsReady T.market T.left topology.now clerk.old to.old (n + 1)
        → IsReady T.market T.left topology.now clerk.new to.new n }
    ensures came { (before : T) (done : List (List ℕ)) (whole : List ℕ)
        → line.now ≡ front whole → Stands T.does topology.now before done clerk.old to.old
        → LineCame T.does T.cuts result topology.now before done whole clerk.new to.new }
{
    let next = clerk.take(topology, line);
    match to.take(&next, clerk.due()) {
        Taken::Failed => LineEnd::Failed,
        Taken::Done => {
            if is_stop(&next) {
                LineEnd::Stopped
            } else {
                LineEnd::GoesOn
            }
        }
    }
}

/// Hands on what comes of the lines that end in a piece.
pub(crate) fn take_piece<T: TakesTasks>(
    topology: &Topology,
    clerk: &mut Clerk,
    cutter: &mut Cutter,
    piece: &[u8],
    to: &mut T,
) -> LineEnd
    requires { IsReady T.market T.left topology.now clerk.old to.old (length piece.now) }
    ensures ready { (n : ℕ)
        → IsReady T.market T.left topology.now clerk.old to.old (n + length piece.now)
        → result ≡ LineEnd.GoesOn → IsReady T.market T.left topology.now clerk.new to.new n }
    ensures came { (before : T) (bytes : List ℕ)
        → Reads T.does topology.now before bytes cutter.old clerk.old to.old → PieceCame
        T.does T.cuts result topology.now before (bytes ++ piece.now) cutter.new clerk.new to.new }
{
    let mut rest = piece;
    'lines: while let Some(behind) = cutter.take(rest) {
        match end_line(topology, clerk, cutter.line(), to) {
            LineEnd::GoesOn => {}
            LineEnd::Stopped => return LineEnd::Stopped,
            LineEnd::Failed => return LineEnd::Failed,
        }
        cutter.clear();
        rest = behind;
    }
    LineEnd::GoesOn
}
