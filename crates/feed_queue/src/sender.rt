//! Who takes what comes of a feed's lines, and sends it.
ghost use Rattle.std.specs.Prelude.{◌≡◌, ◌-◌, ◌+◌, ◌≤◌, ◌≢◌, [], All, None, IfNone, IfSome, ℕ, IsFalse, false, length};
ghost use Rattle.demand_feed.specs.Clerk.{task_by};
ghost use Rattle.demand_feed.specs.Sent.{Becomes};
ghost use Rattle.demand_feed.specs.Task.{batch};
ghost use Rattle.feed_queue.specs.Items.{Fits, IsAmong, is_batch};
ghost use Rattle.feed_queue.specs.Sending.{BecomesOf};

use crate::feeder::Feeder;
use crate::rule::Numbers;
use arrayvec::ArrayVec;
use demand_feed::{Batch, LONGEST_QUERY, Next, Taken, TakesTasks, What};
use no_memory::NoMemory;
use std::sync::Wait;
use topology_text::Topology;

/// A feeder that sends what comes of its feed's lines.
#[derive(Drop)]
pub(crate) struct Sender<'r, 'f, 't, R, N: Numbers> {
    pub rt: &'r R,
    pub feeder: &'f mut Feeder<N>,
    pub topology: &'t Topology,
}

impl<'r, 'f, 't, R, N: Numbers> Sender<'r, 'f, 't, R, N> {
    pub(crate) fn new(
        rt: &'r R,
        feeder: &'f mut Feeder<N>,
        topology: &'t Topology,
    ) -> Sender<'r, 'f, 't, R, N>
        ensures lent { result.feeder.ghost_name ≡ feeder.entry.ghost_name }
        ensures now { result.feeder.now ≡ feeder.entry.now }
        ensures topology { result.topology.now ≡ topology.entry.now }
    {
        Sender {
            rt,
            feeder,
            topology,
        }
    }
}

/// The same octets.
fn copied(octets: &ArrayVec<u8, LONGEST_QUERY>) -> ArrayVec<u8, LONGEST_QUERY>
    ensures { result.items ≡ octets.now.items }
{
    let mut copy = ArrayVec::new();
    let _ = copy.try_extend_from_slice(octets.as_slice());
    copy
}

/// A batch as it is sent: an equal one, unless there is no memory for that.
fn batch_of(has_room: bool, due: &Batch) -> What
    ensures becomes { Becomes (batch due.now) result }
    ensures few { IsFalse has_room → is_batch result ≡ false }
{
    if !has_room {
        return What::Memory;
    }
    match due.try_clone() {
        Ok(copy) => What::Commit(copy),
        Err(NoMemory) => What::Memory,
    }
}

/// What is sent for what comes of a line, if anything.
fn what_of(has_room: bool, next: &Next, due: &Batch) -> Option<What>
    ensures none { IfNone result (task_by due.now next.now ≡ None) }
    ensures becomes { IfSome result (BecomesOf (task_by due.now next.now)) }
    ensures fits { (groups nodes : ℕ) → (next.now ≡ Next.Batch → All (IsAmong groups nodes) due.now)
        → IfSome result (Fits groups nodes) }
    ensures few { IsFalse has_room → IfSome result (λ w. is_batch w ≡ false) }
{
    match next {
        Next::Nothing => None,
        Next::Stop => None,
        Next::Refused(number, why) => Some(What::Refused(*number, *why)),
        Next::Batch => Some(batch_of(has_room, due)),
        Next::Empty => Some(What::Empty),
        Next::Spoiled(lines) => Some(What::Lines(*lines)),
        Next::Query { addr, octets } => Some(What::Ask {
            addr: *addr,
            octets: copied(octets),
        }),
        Next::Totals => Some(What::Show),
    }
}

impl<R: Wait, N: Numbers> TakesTasks for Sender<'_, '_, '_, R, N> {
    ghost use Rattle.std.specs.Prelude.{◌-◌, ◌^◌, length};
    ghost use Rattle.feed_queue.specs.Sending.{SenderCuts, SenderDoes, market_if};

    ghost does = { λ task a b. SenderDoes task a b };

    ghost cuts = { λ task a b. SenderCuts task a b };

    ghost market = { λ s. market_if N.groups N.nodes s.topology.now.market };

    ghost left = { λ s. 2 ^ 64 - 2 - length s.feeder.now.sent };

    #[tactic(auto, using(crate::proofs::Markets::batch_fits))]
    fn take(&mut self, next: &Next, due: &Batch) -> Taken {
        let has_room = self.feeder.has_room();
        match what_of(has_room, next, due) {
            None => {}
            Some(what) => self.feeder.send_next(self.rt, what),
        }
        Taken::Done
    }
}
