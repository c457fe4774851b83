//! All lanes at once, each with its worker, and their closing looks one after the other.
ghost use Rattle.std.specs.Prelude.{◌≡◌, ◌∷◌, [], length, vec_len, vec_capacity};
ghost use Rattle.std.specs.Thread.{IsSync, IsSend};
ghost use Rattle.drive.specs.All.{AllRan, HaveRun, MayRan};

use crate::fork::join_both;
use crate::lane::{Closes, Runs};
use std::sync::Wait;
use std::thread::Threads;

/// All lanes at once, each with its worker.
#[cycle(runs)]
pub(crate) fn run_all<W: Sync, H: Drop + Send, T: Runs<W, H> + Send, R: Threads + Wait + Sync>(
    rt: &R,
    row: &W,
    works: &mut Vec<H>,
    lanes: &mut [T],
)
    requires { length lanes.old ≡ vec_len works.old }
    ensures ran { AllRan T.ran lanes.old lanes.new works.old.items works.new.items }
    ensures len { vec_len works.new ≡ vec_len works.old }
    ensures room { vec_capacity works.new ≡ vec_capacity works.old }
{
    let Some(work) = works.pop() else {
        return;
    };
    let count = lanes.len() - 1;
    let (rest, last) = lanes.split_at_mut(count);
    let work = run_last(rt, row, works, rest, work, last);
    works.push_reserved(work);
}

#[cycle(runs)]
fn run_last<W: Sync, H: Drop + Send, T: Runs<W, H> + Send, R: Threads + Wait + Sync>(
    rt: &R,
    row: &W,
    works: &mut Vec<H>,
    rest: &mut [T],
    work: H,
    last: &mut [T],
) -> H
    requires rest { length rest.old ≡ vec_len works.old }
    requires last { length last.old ≡ 1 }
    ensures rest { AllRan T.ran rest.old rest.new works.old.items works.new.items }
    ensures last { AllRan T.ran last.old last.new (work ∷ []) (result ∷ []) }
    ensures len { vec_len works.new ≡ vec_len works.old }
    ensures room { vec_capacity works.new ≡ vec_capacity works.old }
{
    let mut work = work;
    let mut others = ||
        requires { IsSync R.row × IsSend T.row × IsSend H.row × IsSync W.row
            × (length rest.now ≡ vec_len works.now) }
        ensures { HaveRun T.ran rest.entry.now rest.exit.now works.entry.now works.exit.now }
    { run_all(rt, row, works, rest) };
    let mut one = ||
        requires { length last.now ≡ 1 }
        ensures { AllRan T.ran last.entry.now last.exit.now (work.entry ∷ []) (work.exit ∷ []) }
    { run_one(rt, row, &mut work, last) };
    join_both(rt, &mut others, &mut one);
    work
}

fn run_one<W, H: Drop, T: Runs<W, H>, R: Threads>(_rt: &R, row: &W, work: &mut H, lanes: &mut [T])
    requires { length lanes.old ≡ 1 }
    ensures { AllRan T.ran lanes.old lanes.new (work.old ∷ []) (work.new ∷ []) }
{
    lanes[0].run(row, work);
}

/// All closing looks, one after the other.
pub(crate) fn close_all<N, H: Drop, T: Closes<N, H>>(note: &N, works: &mut Vec<H>, lanes: &mut [T])
    requires { length lanes.old ≡ vec_len works.old }
    ensures closed { AllRan
        (T.closed note.now) lanes.old lanes.new works.old.items works.new.items }
    ensures len { vec_len works.new ≡ vec_len works.old }
    ensures room { vec_capacity works.new ≡ vec_capacity works.old }
{
    let Some(work) = works.pop() else {
        return;
    };
    let count = lanes.len() - 1;
    let (rest, last) = lanes.split_at_mut(count);
    close_all(note, works, rest);
    let work = close_one(note, work, last);
    works.push_reserved(work);
}

fn close_one<N, H: Drop, T: Closes<N, H>>(note: &N, work: H, lanes: &mut [T]) -> H
    requires { length lanes.old ≡ 1 }
    ensures { AllRan (T.closed note.now) lanes.old lanes.new (work ∷ []) (result ∷ []) }
{
    let mut work = work;
    lanes[0].close(note, &mut work);
    work
}

/// The closing look of one lane more, if it has a worker.
pub(crate) fn close_more<N, H: Drop, U: Closes<N, H>>(
    note: &N,
    listener: &mut Option<H>,
    stream: &mut U,
)
    ensures closed { MayRan (U.closed note.now) stream.old stream.new listener.old listener.new }
{
    if let Some(work) = listener {
        stream.close(note, work);
    }
}
