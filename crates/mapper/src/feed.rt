//! A run over one feed: what comes of its lines is done, one after another.
ghost use Rattle.std.specs.Prelude.{◌≡◌, ◌≢◌, ◌<◌, ◌≤◌, ◌^◌, ◌↔◌, List, None, IsTrue};
ghost use mathlib.Core.List.{IsPrefix};
ghost use Rattle.outside.specs.Faults.{Rose};
ghost use Rattle.map_model.specs.declared.change.Change.{Change};
ghost use Rattle.demand_feed.specs.Clerk.{task_by};
ghost use Rattle.demand_feed.specs.declared.limits.TheConstants.{MOST_TURNS};
ghost use Rattle.mapper.specs.Desks.{IsWhole, Keeps, desk_told};
ghost use Rattle.mapper.specs.Feeding.{IsFeed, IsFeedRun};
ghost use Rattle.mapper.specs.Lending.{HasFault};

use crate::deed::deed_of_line;
use crate::desk::Desk;
use demand_feed::{Batch, FeedEnd, Intake, Next, Taken, TakesTasks, run_lines};
use map_cell::Naming;
use outside::{Pace, Put, Sink, Source};
use std::sync::Wait;
use topology_text::Topology;

/// Whether nothing comes of a line.
fn is_quiet(next: &Next) -> bool
    ensures { (due : List Change) → IsTrue result ↔ (task_by due next.now ≡ None) }
{
    matches!(next, Next::Nothing | Next::Stop)
}

impl<R: Wait, J: Naming, K: Sink, M: Pace> TakesTasks for Desk<'_, '_, '_, '_, '_, '_, R, J, K, M> {
    ghost use Rattle.std.specs.Prelude.{◌-◌, ◌^◌};
    ghost use Rattle.mapper.specs.Desks.{DeskCuts, DeskDoes};

    ghost does = { λ task a b. DeskDoes K.told M.told task a b };

    ghost cuts = { λ task a b. DeskCuts K.told M.told task a b };

    ghost market = { λ s. s.published.now.newest.plan.market };

    ghost left = { λ s. 2 ^ 64 - 1 - s.published.now.newest.serial };

    fn take(&mut self, next: &Next, due: &Batch) -> Taken {
        if is_quiet(next) {
            return Taken::Done;
        }
        let deed = deed_of_line(self.published, next, due);
        match self.work(None, &deed) {
            Put::Done => Taken::Done,
            Put::Failed => Taken::Failed,
        }
    }
}

/// Does what comes of a feed's lines, to its end.
fn work_lines<R: Wait, S: Source, J: Naming, K: Sink, M: Pace>(
    topology: &Topology,
    intake: &mut Intake,
    feed: &mut S,
    desk: &mut Desk<'_, '_, '_, '_, '_, '_, R, J, K, M>,
    turns: u64,
) -> FeedEnd
    requires turns { turns ≤ MOST_TURNS }
    requires plan { desk.old.published.now.newest.plan ≡ topology.now }
    requires serial { desk.old.published.now.newest.serial < 2 ^ 63 }
    ensures keeps { Keeps K.told desk.old desk.new }
    ensures run { IsFeedRun topology.now turns result (S.told feed.old).past (S.told feed.new).past
        (desk_told K.told M.told desk.old) (desk_told K.told M.told desk.new) }
    ensures sink { result ≡ FeedEnd.SinkFault → HasFault K.told desk.old.to desk.new.to }
    ensures whole { result ≢ FeedEnd.SinkFault → IsWhole K.told desk.old desk.new }
    ensures source { result ≡ FeedEnd.SourceFault
        → Rose (S.told feed.old).faults (S.told feed.new).faults }
    ensures source_later { (S.told feed.old).faults ≤ (S.told feed.new).faults }
    ensures source_stays { result ≢ FeedEnd.SourceFault
        → (S.told feed.new).faults ≡ (S.told feed.old).faults }
{
    run_lines(topology, intake, feed, desk, turns)
}

/// Runs a feed to its end or for so many turns, from the newest map on, and then tells the pace that it has ended.
///
/// Each map's text and each line of control text is one put, and nothing is put behind one that failed.
pub(crate) fn run_feed<R: Wait, S: Source, J: Naming, K: Sink, M: Pace>(
    topology: &Topology,
    intake: &mut Intake,
    feed: &mut S,
    desk: &mut Desk<'_, '_, '_, '_, '_, '_, R, J, K, M>,
    turns: u64,
) -> FeedEnd
    requires turns { turns ≤ MOST_TURNS }
    requires plan { desk.old.published.now.newest.plan ≡ topology.now }
    requires serial { desk.old.published.now.newest.serial < 2 ^ 63 }
    ensures keeps { Keeps K.told desk.old desk.new }
    ensures run { IsFeed topology.now turns result (S.told feed.old).past (S.told feed.new).past
        (desk_told K.told M.told desk.old) (desk_told K.told M.told desk.new) }
    ensures kept { IsPrefix desk.old.published.now.history desk.new.published.now.history }
    ensures sink { result ≡ FeedEnd.SinkFault → HasFault K.told desk.old.to desk.new.to }
    ensures whole { result ≢ FeedEnd.SinkFault → IsWhole K.told desk.old desk.new }
    ensures source { result ≡ FeedEnd.SourceFault
        → Rose (S.told feed.old).faults (S.told feed.new).faults }
    ensures source_later { (S.told feed.old).faults ≤ (S.told feed.new).faults }
    ensures source_stays { result ≢ FeedEnd.SourceFault
        → (S.told feed.new).faults ≡ (S.told feed.old).faults }
{
    let end = work_lines(topology, intake, feed, desk, turns);
    let newest = desk.published.serial();
    desk.to.pace.done(newest);
    end
}
