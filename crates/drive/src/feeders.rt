//! Feeders at once, each over its feed in a thread of its own, beside what runs in this one. Where a feeder gets no thread
//! it is told so, and gives its feed up.
ghost use Rattle.std.specs.Prelude.{◌≡◌, ◌+◌, ◌∷◌, ◌++◌, [], All, length, vec_len, vec_capacity};
ghost use Rattle.std.specs.Thread.{IsSync, IsSend};
ghost use Rattle.drive.specs.All.{AllRan, HaveRun, HaveServed};
ghost use Rattle.drive.specs.Readers.{IsSameReaders};

use crate::beside::{Feeds, Workers, serve_beside};
use crate::fork::join_told;
use crate::lane::{Closes, Runs};
use std::sync::Wait;
use std::thread::Threads;

/// What all feeders share.
pub(crate) trait Starts {
    /// Lets all feeders go on, now that a thread was asked for each.
    fn start<R: Wait>(&self, rt: &R);
}

/// What sends.
pub(crate) trait Fresh {
    /// Whether it has sent nothing.
    ghost fresh: { Self → Type 0 };
}

/// A feed that a feeder reads, over what all feeders share.
pub(crate) trait Sends<Q, F: Fresh> {
    /// Whether feeds may be read over that.
    ghost ready: { Q → Type 0 };

    /// What a reading does.
    ghost sent: { Q → Self → Self → F → F → Type 0 };

    /// Reads the feed, once all feeders may. One that is alone has no thread of its own: it gives the feed up, and then no
    /// other feed is read either.
    fn send<R: Wait>(&mut self, rt: &R, context: &Q, feeder: &mut F, alone: bool)
        requires context { ready context.now }
        requires feeder { F.fresh feeder.old }
        ensures { sent context.now self.old self.new feeder.old feeder.new };
}

/// The feeders, and the feed that the first of them reads; and what all feeders share.
#[derive(Drop)]
pub(crate) struct Readers<'d, 'r, 's, 'v, Q, F, S> {
    pub context: &'d Q,
    pub first: &'r mut F,
    pub feed: &'s mut S,
    pub feeders: &'v mut Vec<F>,
}

/// What is lent where several feeds are read: the feeders with the first feed, the further feeds, the mapper's side, and
/// the lanes that have workers.
#[derive(Drop)]
pub(crate) struct SeveralLoan<'d, 'r, 's, 'v, 'n, 'l, Q, F, S, T, G, L> {
    pub readers: Readers<'d, 'r, 's, 'v, Q, F, S>,
    pub more: &'n mut [T],
    pub side: G,
    pub lanes: &'l mut [L],
}

fn send_one<Q, F: Fresh, T: Sends<Q, F>, R: Wait>(
    rt: &R,
    context: &Q,
    feeder: &mut F,
    feeds: &mut [T],
    alone: bool,
)
    requires one { length feeds.old ≡ 1 }
    requires context { T.ready context.now }
    requires feeder { F.fresh feeder.old }
    ensures { AllRan (T.sent context.now) feeds.old feeds.new (feeder.old ∷ []) (feeder.new ∷ []) }
{
    feeds[0].send(rt, context, feeder, alone);
}

/// Runs further feeders, and beside them what is to run in this thread.
#[cycle(runs)]
fn run_more<
    Q: Sync,
    F: Fresh + Drop + Send,
    T: Sends<Q, F> + Send,
    I: FnMut(),
    R: Threads + Wait + Sync,
>(rt: &R, context: &Q, feeders: &mut Vec<F>, inner: &mut I, feeds: &mut [T])
    requires inner { I.pre inner.old }
    requires context { T.ready context.now }
    requires fresh { All F.fresh feeders.old.items }
    requires len { length feeds.old ≡ vec_len feeders.old }
    ensures inner { I.step inner.old tt inner.new }
    ensures sent { AllRan
        (T.sent context.now) feeds.old feeds.new feeders.old.items feeders.new.items }
    ensures len { vec_len feeders.new ≡ vec_len feeders.old }
    ensures room { vec_capacity feeders.new ≡ vec_capacity feeders.old }
{
    let Some(feeder) = feeders.pop() else {
        inner();
        return;
    };
    let feeder = run_last(rt, context, feeders, feeder, inner, feeds);
    feeders.push_reserved(feeder);
}

#[cycle(runs)]
fn run_last<
    Q: Sync,
    F: Fresh + Drop + Send,
    T: Sends<Q, F> + Send,
    I: FnMut(),
    R: Threads + Wait + Sync,
>(rt: &R, context: &Q, feeders: &mut Vec<F>, feeder: F, inner: &mut I, feeds: &mut [T]) -> F
    requires inner { I.pre inner.old }
    requires context { T.ready context.now }
    requires fresh { All F.fresh feeders.old.items }
    requires feeder { F.fresh feeder }
    requires len { length feeds.old ≡ vec_len feeders.old + 1 }
    ensures inner { I.step inner.old tt inner.new }
    ensures sent { AllRan (T.sent context.now)
        feeds.old feeds.new (feeders.old.items ++ feeder ∷ []) (feeders.new.items ++ result ∷ []) }
    ensures len { vec_len feeders.new ≡ vec_len feeders.old }
    ensures room { vec_capacity feeders.new ≡ vec_capacity feeders.old }
{
    let count = feeds.len() - 1;
    let (rest, last) = feeds.split_at_mut(count);
    let mut feeder = feeder;
    let mut one = |alone: bool|
        requires { IsSync R.row × IsSync Q.row × IsSend T.row × IsSend F.row × (length last.now ≡ 1)
            × T.ready context.now × F.fresh feeder }
        ensures { AllRan (T.sent context.entry.now) last.entry.now last.exit.now (feeder.entry ∷ [])
            (feeder.exit ∷ []) }
    { send_one(rt, context, &mut feeder, last, alone) };
    let mut others = ||
        requires { IsSync R.row × IsSync Q.row × IsSend T.row × IsSend F.row
            × (length rest.now ≡ vec_len feeders.now) × T.ready context.now
            × All F.fresh feeders.now.items × I.pre inner.now }
        ensures { HaveRun
            (T.sent context.entry.now)
            rest.entry.now rest.exit.now feeders.entry.now feeders.exit.now
            × I.step inner.entry.now tt inner.exit.now }
    { run_more(rt, context, feeders, inner, rest) };
    join_told(rt, &mut one, &mut others);
    feeder
}

/// Runs the first feeder and further ones, and beside them what is to run in this thread.
fn run_feeders<
    Q: Sync,
    F: Fresh + Drop + Send,
    S: Sends<Q, F> + Send,
    T: Sends<Q, F> + Send,
    I: FnMut(),
    R: Threads + Wait + Sync,
>(rt: &R, readers: &mut Readers<'_, '_, '_, '_, Q, F, S>, more: &mut [T], inner: &mut I)
    requires inner { I.pre inner.old }
    requires context { S.ready readers.old.context.now × T.ready readers.old.context.now }
    requires first { F.fresh readers.old.first.now }
    requires fresh { All F.fresh readers.old.feeders.now.items }
    requires len { length more.old ≡ vec_len readers.old.feeders.now }
    ensures same { IsSameReaders readers.old readers.new }
    ensures inner { I.step inner.old tt inner.new }
    ensures first { S.sent readers.old.context.now
        readers.old.feed.now readers.new.feed.now readers.old.first.now readers.new.first.now }
    ensures sent { AllRan (T.sent readers.old.context.now) more.old more.new
        readers.old.feeders.now.items readers.new.feeders.now.items }
{
    let context = readers.context;
    let first = &mut *readers.first;
    let feed = &mut *readers.feed;
    let feeders = &mut *readers.feeders;
    let mut one = |alone: bool|
        requires { IsSync R.row × IsSync Q.row × IsSend S.row × IsSend F.row × S.ready context.now
            × F.fresh first.now }
        ensures { S.sent
            context.entry.now feed.entry.now feed.exit.now first.entry.now first.exit.now }
    { feed.send(rt, context, first, alone) };
    let mut others = ||
        requires { IsSync R.row × IsSync Q.row × IsSend T.row × IsSend F.row
            × (length more.now ≡ vec_len feeders.now) × T.ready context.now
            × All F.fresh feeders.now.items × I.pre inner.now }
        ensures { HaveRun
            (T.sent context.entry.now)
            more.entry.now more.exit.now feeders.entry.now feeders.exit.now
            × I.step inner.entry.now tt inner.exit.now }
    { run_more(rt, context, feeders, inner, more) };
    join_told(rt, &mut one, &mut others);
}

/// Runs all feeders, and beside them the mapper's side, in this thread, and the lanes, of which each has its closing look.
pub(crate) fn run_among<
    Q: Starts + Sync,
    F: Fresh + Drop + Send,
    S: Sends<Q, F> + Send,
    T: Sends<Q, F> + Send,
    G: Feeds<W, Note = N>,
    L: Runs<W, H> + Closes<N, H> + Send,
    W: Sync,
    N: Drop,
    H: Drop + Send,
    U: Runs<W, H> + Closes<N, H> + Send,
    R: Threads + Wait + Sync,
>(
    rt: &R,
    loan: &mut SeveralLoan<'_, '_, '_, '_, '_, '_, Q, F, S, T, G, L>,
    works: &mut Workers<W, H>,
    stream: &mut U,
)
    requires context { S.ready loan.old.readers.context.now × T.ready loan.old.readers.context.now }
    requires first { F.fresh loan.old.readers.first.now }
    requires fresh { All F.fresh loan.old.readers.feeders.now.items }
    requires feeds { length loan.old.more.now ≡ vec_len loan.old.readers.feeders.now }
    requires ready { G.ready loan.old.side }
    requires lanes { length loan.old.lanes.now ≡ vec_len works.old.lanes }
    ensures same { IsSameReaders loan.old.readers loan.new.readers
        × (loan.new.more.ghost_name ≡ loan.old.more.ghost_name)
        × (loan.new.lanes.ghost_name ≡ loan.old.lanes.ghost_name) }
    ensures first { S.sent loan.old.readers.context.now
        loan.old.readers.feed.now loan.new.readers.feed.now
        loan.old.readers.first.now loan.new.readers.first.now }
    ensures sent { AllRan (T.sent loan.old.readers.context.now) loan.old.more.now loan.new.more.now
        loan.old.readers.feeders.now.items loan.new.readers.feeders.now.items }
    ensures fed { G.fed loan.old.side loan.new.side }
    ensures served { HaveServed (G.noted loan.new.side) L.ran L.closed U.ran U.closed
        loan.old.lanes.now loan.new.lanes.now stream.old stream.new works.old works.new }
{
    let context = loan.readers.context;
    let side = &mut loan.side;
    let lanes = &mut *loan.lanes;
    let more = &mut *loan.more;
    let mut inner = ||
        requires { G.ready side.now × (length lanes.now ≡ vec_len works.now.lanes) }
        ensures { G.fed side.entry.now side.exit.now
            × HaveServed (G.noted side.exit.now) L.ran L.closed U.ran U.closed
            lanes.entry.now lanes.exit.now
            stream.entry.now stream.exit.now works.entry.now works.exit.now }
    {
        context.start(rt);
        serve_beside(rt, works, lanes, stream, side);
    };
    run_feeders(rt, &mut loan.readers, more, &mut inner);
}
