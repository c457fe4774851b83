//! A feeder over its feed.
ghost use Rattle.std.specs.Prelude.{◌≡◌, ◌≢◌, ◌≤◌, ◌-◌, ◌^◌, [], length};
ghost use Rattle.feed_queue.specs.Ends.{with_item};
ghost use Rattle.outside.specs.Faults.{Rose};
ghost use Rattle.demand_feed.specs.Runs.{IsRun};
ghost use Rattle.demand_feed.specs.declared.limits.TheConstants.{MOST_TURNS};
ghost use Rattle.feed_queue.specs.Feeder.{Adds, Breaks, EndsWith, HasSent};
ghost use Rattle.feed_queue.specs.Sending.{Keeps, market_if};

use crate::feeder::Feeder;
use crate::rule::Numbers;
use crate::sender::Sender;
use demand_feed::{FeedEnd, Intake, What, run_lines};
use no_memory::NoMemory;
use outside::Source;
use std::sync::Wait;
use topology_text::Topology;

/// Sends what comes of the lines of a feed. What the sender lends stays lent.
fn send_lines<R: Wait, S: Source, N: Numbers>(
    topology: &Topology,
    intake: &mut Intake,
    feed: &mut S,
    sender: &mut Sender<'_, '_, '_, R, N>,
    turns: u64,
) -> FeedEnd
    requires turns { turns ≤ MOST_TURNS }
    requires topology { market_if N.groups N.nodes sender.old.topology.now.market
        ≡ topology.now.market }
    requires unused { sender.old.feeder.now.sent ≡ [] }
    ensures keeps { Keeps sender.old sender.new }
    ensures run { IsRun Adds Breaks topology.now turns result (S.told feed.old).past
        (S.told feed.new).past sender.old.feeder.now.sent sender.new.feeder.now.sent }
    ensures whole { result ≢ FeedEnd.SinkFault }
    ensures source { result ≡ FeedEnd.SourceFault
        → Rose (S.told feed.old).faults (S.told feed.new).faults }
    ensures later { (S.told feed.old).faults ≤ (S.told feed.new).faults }
    ensures stays { result ≢ FeedEnd.SourceFault
        → (S.told feed.new).faults ≡ (S.told feed.old).faults }
{
    run_lines(topology, intake, feed, sender, turns)
}

/// Sends what comes of the lines of a feed, and then its end. What the sender lends stays lent.
fn send_all<R: Wait, S: Source, N: Numbers>(
    topology: &Topology,
    intake: &mut Intake,
    feed: &mut S,
    sender: &mut Sender<'_, '_, '_, R, N>,
    turns: u64,
)
    requires turns { turns ≤ MOST_TURNS }
    requires topology { market_if N.groups N.nodes sender.old.topology.now.market
        ≡ topology.now.market }
    requires unused { sender.old.feeder.now.sent ≡ [] }
    ensures lent { sender.new.feeder.ghost_name ≡ sender.old.feeder.ghost_name }
    ensures same { (sender.new.feeder.now.queue ≡ sender.old.feeder.now.queue)
        × (sender.new.feeder.now.feeder ≡ sender.old.feeder.now.feeder) }
    ensures sent { HasSent topology.now
        turns (S.told feed.old).past (S.told feed.new).past sender.new.feeder.now.sent }
    ensures source { EndsWith sender.new.feeder.now.sent FeedEnd.SourceFault
        → Rose (S.told feed.old).faults (S.told feed.new).faults }
    ensures later { (S.told feed.old).faults ≤ (S.told feed.new).faults }
    ensures stays { ¬ EndsWith sender.new.feeder.now.sent FeedEnd.SourceFault
        → (S.told feed.new).faults ≡ (S.told feed.old).faults }
{
    let end = send_lines(topology, intake, feed, sender, turns);
    // tells the prover what the type keeps
    let _ = sender.feeder.has_room();
    sender.feeder.send_next(sender.rt, What::End(end));
}

impl<N: Numbers> Feeder<N> {
    /// Sends the end of a feed that could not be read for want of memory or of a thread, and nothing else. It waits for as long as the
    /// queue is full.
    #[tactic(auto, using(crate::proofs::Sendings::has_sent_none))]
    pub fn give_up<R: Wait>(&mut self, rt: &R)
        requires unused { self.old.sent ≡ [] }
        ensures { self.new ≡ with_item self.old (What.End FeedEnd.NoMemory) }
    {
        self.send_next(rt, What::End(FeedEnd::NoMemory));
    }

    /// Reads its feed to its end or for so many turns, 2^48 at most, and sends what comes of each line, and then its end.
    /// Each read is handed 32,768 octets. Where there is no memory to read with, it sends that alone. It waits for as
    /// long as the queue is full.
    #[tactic(auto, using(crate::proofs::Markets::market_same, crate::proofs::Sendings::has_sent_none))]
    pub fn run<R: Wait, S: Source>(&mut self, rt: &R, topology: &Topology, feed: &mut S, turns: u64)
        requires turns { turns ≤ MOST_TURNS }
        requires groups { length topology.now.market.groups ≡ N.groups }
        requires nodes { length topology.now.market.nodes ≡ N.nodes }
        requires unused { self.old.sent ≡ [] }
        ensures same { (self.new.queue ≡ self.old.queue) × (self.new.feeder ≡ self.old.feeder) }
        ensures sent { HasSent
            topology.now turns (S.told feed.old).past (S.told feed.new).past self.new.sent }
        ensures source { EndsWith self.new.sent FeedEnd.SourceFault
            → Rose (S.told feed.old).faults (S.told feed.new).faults }
        ensures later { (S.told feed.old).faults ≤ (S.told feed.new).faults }
        ensures stays { ¬ EndsWith self.new.sent FeedEnd.SourceFault
            → (S.told feed.new).faults ≡ (S.told feed.old).faults }
    {
        match Intake::new(self.alloc) {
            Err(NoMemory) => self.give_up(rt),
            Ok(intake) => {
                let mut intake = intake;
                let mut sender = Sender::new(rt, self, topology);
                send_all(topology, &mut intake, feed, &mut sender, turns);
            }
        }
    }
}
