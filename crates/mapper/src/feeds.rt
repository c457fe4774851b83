//! A run over the items of several feeders.
ghost use Rattle.std.specs.Prelude.{IsTrue, ◌↔◌, ◌≡◌, ◌≢◌, ◌<◌, ◌≤◌, ◌+◌, ◌-◌, ◌^◌, ◌++◌, [], ℕ, List, length};
ghost use mathlib.Core.List.{IsPrefix};
ghost use Rattle.demand_feed.specs.declared.sent.Item.{Item};
ghost use Rattle.feed_queue.specs.Items.{batches, whats_of};
ghost use Rattle.mapper.specs.Desks.{IsWhole, Keeps, desk_told};
ghost use Rattle.mapper.specs.Feeds.{AllWorked, AreFeeds, HasMerged, WorkWasCut};
ghost use Rattle.mapper.specs.Lending.{HasFault};
ghost use Rattle.mapper.specs.Noting.{AreNoted};
ghost use Rattle.mapper.specs.Scenes.{Scene};

use crate::deed::deed_of_item;
use crate::desk::Desk;
use crate::ends::Ends;
use demand_feed::FeedEnd;
use feed_queue::{Numbers, Taker};
use map_cell::Naming;
use outside::{Pace, Put, Sink};
use std::sync::Wait;

/// Takes the next item and does what it asks for, or waits for one where there is none.
fn work_next<R: Wait, J: Naming, N: Numbers, K: Sink, M: Pace>(
    desk: &mut Desk<'_, '_, '_, '_, '_, '_, R, J, K, M>,
    taker: &mut Taker<N>,
    ends: &mut Ends,
) -> Put
    requires groups { length desk.old.published.now.newest.plan.market.groups ≡ N.groups }
    requires nodes { length desk.old.published.now.newest.plan.market.nodes ≡ N.nodes }
    requires serial { desk.old.published.now.newest.serial < 2 ^ 64 - 1 }
    requires noted { AreNoted taker.old.taken ends.old }
    requires few { ends.old.count < 4 }
    ensures queue { (taker.new.queue ≡ taker.old.queue) × (taker.new.feeders ≡ taker.old.feeders) }
    ensures noted { AreNoted taker.new.taken ends.new }
    ensures count { ends.new.count ≤ ends.old.count + 1 }
    ensures goes_on { result ≢ Put.Failed
        → (before : Scene) → AllWorked taker.old.taken before (desk_told K.told M.told desk.old)
        → AllWorked taker.new.taken before (desk_told K.told M.told desk.new) }
    ensures broken { result ≡ Put.Failed
        → (before : Scene) → AllWorked taker.old.taken before (desk_told K.told M.told desk.old)
        → WorkWasCut taker.new.taken before (desk_told K.told M.told desk.new) }
    ensures serial { (n : ℕ)
        → desk.old.published.now.newest.serial ≤ n + batches (whats_of taker.old.taken)
        → desk.new.published.now.newest.serial ≤ n + batches (whats_of taker.new.taken) }
    ensures keeps { Keeps K.told desk.old desk.new }
    ensures cause { result ≡ Put.Failed → HasFault K.told desk.old.to desk.new.to }
    ensures stays { result ≢ Put.Failed → IsWhole K.told desk.old desk.new }
{
    let rt = desk.rt;
    match taker.next(rt) {
        None => {
            taker.wait(rt);
            Put::Done
        }
        Some(item) => {
            ends.note(&item.what);
            let deed = deed_of_item(desk.published, &item.what);
            desk.work(Some(item.feeder), &deed)
        }
    }
}

fn has_failed(put: Put) -> bool
    ensures { IsTrue result ↔ (put ≡ Put.Failed) }
{
    matches!(put, Put::Failed)
}

/// Works items until each feeder has ended, or a put fails.
#[tactic(auto, using(crate::proofs::Several::all_none))]
fn work_all<R: Wait, J: Naming, N: Numbers, K: Sink, M: Pace>(
    desk: &mut Desk<'_, '_, '_, '_, '_, '_, R, J, K, M>,
    taker: &mut Taker<N>,
    ends: &mut Ends,
) -> Put
    requires groups { length desk.old.published.now.newest.plan.market.groups ≡ N.groups }
    requires nodes { length desk.old.published.now.newest.plan.market.nodes ≡ N.nodes }
    requires serial { desk.old.published.now.newest.serial < 2 ^ 63 }
    requires unused { taker.old.taken ≡ [] }
    requires noted { AreNoted [] ends.old }
    ensures queue { (taker.new.queue ≡ taker.old.queue) × (taker.new.feeders ≡ taker.old.feeders) }
    ensures noted { AreNoted taker.new.taken ends.new }
    ensures count { ends.new.count ≤ taker.new.feeders }
    ensures done { result ≡ Put.Done → AllWorked taker.new.taken
        (desk_told K.told M.told desk.old) (desk_told K.told M.told desk.new)
        × (ends.new.count ≡ taker.new.feeders) × IsWhole K.told desk.old desk.new }
    ensures failed { result ≡ Put.Failed → WorkWasCut taker.new.taken
        (desk_told K.told M.told desk.old) (desk_told K.told M.told desk.new)
        × HasFault K.told desk.old.to desk.new.to }
    ensures keeps { Keeps K.told desk.old desk.new }
{
    let rt = desk.rt;
    for _ in rt.forever() {
        if ends.count == u64::from(taker.feeders()) {
            return Put::Done;
        }
        let put = work_next(desk, taker, ends);
        if has_failed(put) {
            return Put::Failed;
        }
    }
    unreachable!()
}

/// Takes the items that are left, until each feeder has ended, and drops them.
fn drain<R: Wait, N: Numbers>(rt: &R, taker: &mut Taker<N>, ends: &mut Ends)
    requires noted { AreNoted taker.old.taken ends.old }
    requires count { ends.old.count ≤ taker.old.feeders }
    ensures queue { (taker.new.queue ≡ taker.old.queue) × (taker.new.feeders ≡ taker.old.feeders) }
    ensures noted { AreNoted taker.new.taken ends.new }
    ensures count { ends.new.count ≡ taker.new.feeders }
    ensures rest { (later : List Item) × (taker.new.taken ≡ taker.old.taken ++ later) }
{
    for _ in rt.forever() {
        if ends.count == u64::from(taker.feeders()) {
            return;
        }
        drop_next(rt, taker, ends);
    }
    unreachable!()
}

/// Takes the next item and drops it, or waits for one where there is none.
fn drop_next<R: Wait, N: Numbers>(rt: &R, taker: &mut Taker<N>, ends: &mut Ends)
    requires noted { AreNoted taker.old.taken ends.old }
    requires few { ends.old.count < 4 }
    ensures queue { (taker.new.queue ≡ taker.old.queue) × (taker.new.feeders ≡ taker.old.feeders) }
    ensures noted { AreNoted taker.new.taken ends.new }
    ensures count { ends.new.count ≤ ends.old.count + 1 }
    ensures rest { (later : List Item) × (taker.new.taken ≡ taker.old.taken ++ later) }
{
    match taker.next(rt) {
        None => taker.wait(rt),
        Some(item) => ends.note(&item.what),
    }
}

/// Works the items of several feeders, from the newest map on, until each feeder's end was taken, and then tells the pace
/// that all have ended. Behind a put that failed items are taken and dropped.
pub(crate) fn run_feeds<R: Wait, J: Naming, N: Numbers, K: Sink, M: Pace>(
    desk: &mut Desk<'_, '_, '_, '_, '_, '_, R, J, K, M>,
    taker: &mut Taker<N>,
) -> FeedEnd
    requires groups { length desk.old.published.now.newest.plan.market.groups ≡ N.groups }
    requires nodes { length desk.old.published.now.newest.plan.market.nodes ≡ N.nodes }
    requires serial { desk.old.published.now.newest.serial < 2 ^ 63 }
    requires unused { taker.old.taken ≡ [] }
    ensures queue { (taker.new.queue ≡ taker.old.queue) × (taker.new.feeders ≡ taker.old.feeders) }
    ensures run { AreFeeds taker.old.feeders result taker.new.taken
        (desk_told K.told M.told desk.old) (desk_told K.told M.told desk.new) }
    ensures merged { result ≢ FeedEnd.SinkFault → HasMerged taker.new.taken
        (desk_told K.told M.told desk.old) (desk_told K.told M.told desk.new) }
    ensures kept { IsPrefix desk.old.published.now.history desk.new.published.now.history }
    ensures keeps { Keeps K.told desk.old desk.new }
    ensures sink { result ≡ FeedEnd.SinkFault → HasFault K.told desk.old.to desk.new.to }
    ensures whole { result ≢ FeedEnd.SinkFault → IsWhole K.told desk.old desk.new }
{
    let rt = desk.rt;
    let mut ends = Ends::new();
    match work_all(desk, taker, &mut ends) {
        Put::Done => {
            let newest = desk.published.serial();
            desk.to.pace.done(newest);
            ends.first()
        }
        Put::Failed => {
            drain(rt, taker, &mut ends);
            let newest = desk.published.serial();
            desk.to.pace.done(newest);
            FeedEnd::SinkFault
        }
    }
}
