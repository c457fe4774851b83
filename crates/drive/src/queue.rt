//! A queue by which several feeders hand on what comes of their feeds.
ghost use Rattle.std.specs.Prelude.{◌≡◌, ◌+◌, ◌≤◌, ◌∷◌, All, IfOk, OnErr, length};
ghost use Rattle.std.specs.Arc.{arc_value};
ghost use mathlib.Core.List.{IsPrefix};
ghost use Rattle.feed_queue.specs.Items.{AreTaken, sent_by};
ghost use Rattle.drive.specs.Queue.{IsFeedQueue};

use crate::loan::FeederContext;
use crate::start_signal::StartSignal;
use feed_queue::{Feeder, Numbers, Taker, open};
use no_memory::NoMemory;
use std::alloc::Global;
use std::sync::Arc;
use topology_text::Topology;

/// The feeders of a queue, the one of the first feed by itself, who takes from it, and what the feeders share.
#[derive(Drop)]
pub(crate) struct FeedQueue<N: Numbers> {
    pub context: FeederContext,
    pub first: Feeder<N>,
    pub feeders: Vec<Feeder<N>>,
    pub taker: Taker<N>,
}

/// A queue for the first feed and so many further ones, each of which is read for so many turns.
pub(crate) fn open_queue<N: Numbers>(
    alloc: Global,
    topology: &Arc<Topology>,
    count: u8,
    turns: u64,
) -> Result<FeedQueue<N>, NoMemory>
    requires few { count ≤ 3 }
    requires groups { length (arc_value topology.now).market.groups ≡ N.groups }
    requires nodes { length (arc_value topology.now).market.nodes ≡ N.nodes }
    ensures queue { IfOk result
        (λ r. IsFeedQueue N.groups N.nodes count (arc_value topology.now) r) }
    ensures turns { IfOk result (λ r. r.context.turns ≡ turns) }
{
    let topology = Arc::try_clone(topology)?;
    let (made, taker) = open::<N>(alloc, 1 + count)?;
    let mut feeders = made;
    let first = feeders.remove(0);
    Ok(FeedQueue {
        context: FeederContext {
            topology,
            turns,
            start: StartSignal::new(),
        },
        first,
        feeders,
        taker,
    })
}

/// Takes all feeders back, of each of which a beginning of what it sent was taken.
pub(crate) fn all_back<N: Numbers>(taker: &mut Taker<N>, first: Feeder<N>, feeders: Vec<Feeder<N>>)
    requires first { first.queue ≡ taker.old.queue }
    requires queue { All (λ f. f.queue ≡ taker.old.queue) feeders.items }
    ensures same { taker.new ≡ taker.old }
    ensures taken { AreTaken N.groups N.nodes taker.old.feeders taker.old.taken }
    ensures first { IsPrefix (sent_by first.feeder taker.old.taken) first.sent }
    ensures begins { All (λ f. IsPrefix (sent_by f.feeder taker.old.taken) f.sent) feeders.items }
{
    // tells the prover what the type keeps
    let _ = taker.feeders();
    taker.take_back(first);
    let mut left = feeders;
    while let Some(feeder) = left.pop() {
        taker.take_back(feeder);
    }
}
