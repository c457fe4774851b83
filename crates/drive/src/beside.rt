//! The mapper beside its lanes, and behind that their closing looks.
ghost use Rattle.std.specs.Prelude.{◌≡◌, length, vec_len};
ghost use Rattle.std.specs.Thread.{IsSync, IsSend};
ghost use Rattle.drive.specs.All.{HaveRun, HaveServed, MayRan};

use crate::fork::join_both;
use crate::joins::{close_all, close_more, run_all};
use crate::lane::{Closes, Runs};
use std::sync::Wait;
use std::thread::Threads;

/// The workers of a drive, one for each lane, and one for conversations, if they are to be answered; and what all of them
/// share.
#[derive(Drop)]
pub(crate) struct Workers<W, H> {
    pub row: W,
    pub lanes: Vec<H>,
    pub stream: Option<H>,
}

/// The mapper's side of a drive, beside what the workers share.
pub(crate) trait Feeds<W> {
    type Note;

    /// Whether it may run.
    ghost ready: { Self → Type 0 };

    /// What a run does.
    ghost fed: { Self → Self → Type 0 };

    /// What its note is.
    ghost noted: { Self → Self.Note → Type 0 };

    fn run_feed<R: Wait>(&mut self, rt: &R, row: &W)
        requires { ready self.old }
        ensures { fed self.old self.new };

    /// The note of its newest map.
    fn note(&self) -> Self::Note
        ensures { noted self.now result };
}

/// Runs the feed beside one lane.
fn run_both<W: Sync, H: Drop + Send, U: Runs<W, H> + Send, F: Feeds<W>, R: Threads + Wait + Sync>(
    rt: &R,
    row: &W,
    work: &mut H,
    lane: &mut U,
    feed: &mut F,
)
    requires ready { F.ready feed.old }
    ensures fed { F.fed feed.old feed.new }
    ensures ran { U.ran lane.old lane.new work.old work.new }
{
    let mut one = ||
        requires { IsSend U.row × IsSend H.row × IsSync W.row }
        ensures { U.ran lane.entry.now lane.exit.now work.entry.now work.exit.now }
    { lane.run(row, work) };
    let mut map = ||
        requires { F.ready feed.now }
        ensures { F.fed feed.entry.now feed.exit.now }
    { feed.run_feed(rt, row) };
    join_both(rt, &mut one, &mut map);
}

/// Runs the feed, and beside it one lane more, if there is a worker for that.
fn run_rest<W: Sync, H: Drop + Send, U: Runs<W, H> + Send, F: Feeds<W>, R: Threads + Wait + Sync>(
    rt: &R,
    row: &W,
    listener: &mut Option<H>,
    stream: &mut U,
    feed: &mut F,
)
    requires ready { F.ready feed.old }
    ensures fed { F.fed feed.old feed.new }
    ensures ran { MayRan U.ran stream.old stream.new listener.old listener.new }
{
    match listener {
        Some(work) => run_both(rt, row, work, stream, feed),
        None => feed.run_feed(rt, row),
    }
}

/// Runs the feed beside the lanes, and beside one more, if there is a worker for that, and then makes the closing look of
/// each.
pub(crate) fn serve_beside<
    W: Sync,
    N: Drop,
    H: Drop + Send,
    T: Runs<W, H> + Closes<N, H> + Send,
    U: Runs<W, H> + Closes<N, H> + Send,
    F: Feeds<W, Note = N>,
    R: Threads + Wait + Sync,
>(rt: &R, works: &mut Workers<W, H>, lanes: &mut [T], stream: &mut U, feed: &mut F)
    requires ready { F.ready feed.old }
    requires lanes { length lanes.old ≡ vec_len works.old.lanes }
    ensures fed { F.fed feed.old feed.new }
    ensures served { HaveServed (F.noted feed.new) T.ran T.closed U.ran U.closed
        lanes.old lanes.new stream.old stream.new works.old works.new }
{
    let row = &works.row;
    let served = &mut works.lanes;
    let listener = &mut works.stream;
    let mut all = ||
        requires { IsSync R.row × IsSend T.row × IsSend H.row × IsSync W.row
            × (length lanes.now ≡ vec_len served.now) }
        ensures { HaveRun T.ran lanes.entry.now lanes.exit.now served.entry.now served.exit.now }
    { run_all(rt, row, served, lanes) };
    let mut rest = ||
        requires { IsSync R.row × IsSend U.row × IsSend H.row × IsSync W.row × F.ready feed.now }
        ensures { F.fed feed.entry.now feed.exit.now
            × MayRan U.ran stream.entry.now stream.exit.now listener.entry.now listener.exit.now }
    { run_rest(rt, row, listener, stream, feed) };
    join_both(rt, &mut all, &mut rest);
    let note = feed.note();
    close_all(&note, &mut works.lanes, lanes);
    close_more(&note, &mut works.stream, stream);
}
