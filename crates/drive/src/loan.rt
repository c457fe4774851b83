//! What the mapper's side of a drive is lent: of one feed `FeedLoan`, of several `TakerLoan`; and what their feeders share.
ghost use Rattle.std.specs.Prelude.{◌≡◌, length};
ghost use Rattle.mapper.specs.Notes.{AreTold};
ghost use Rattle.drive.specs.Fed.{IsOfNewest};

use crate::beside::Feeds;
use crate::feeders::{Fresh, Sends, Starts};
use crate::start_signal::StartSignal;
use demand_feed::FeedEnd;
use feed_queue::{Feeder, Numbers, Taker};
use map_cell::{Naming, Note, NoteRow};
use mapper::{Mapper, Outputs, Told};
use outside::{Pace, Sink, Source};
use std::sync::{Arc, Wait};
use topology_text::Topology;

/// The note of a mapper's newest map.
fn newest_note<J: Naming>(mapper: &Mapper<J>) -> Note<J>
    ensures { IsOfNewest mapper.now result.front }
{
    let note = mapper.note();
    // tells the prover what the type keeps
    let _ = note.front.len();
    note
}

/// The row's first cell gets the note of a mapper's first map, for all lanes. It answers how many cells hold a note then.
pub(crate) fn tell_first<J: Naming, R: Wait>(rt: &R, row: &NoteRow<J>, mapper: &Mapper<J>) -> Told
    ensures { length mapper.now.history ≡ 1 → AreTold mapper.now.history result }
{
    let mut told = Told::of_none();
    told.tell(rt, row, mapper.note());
    told
}

/// What the mapper's side is lent: the mapper, the feed, and to whom it tells; and the number of turns, and how the feed
/// ended.
#[derive(Drop)]
pub(crate) struct FeedLoan<'x, 'f, 'o, 'm, 'p, J: Naming, S, K, M> {
    pub mapper: &'x mut Mapper<J>,
    pub feed: &'f mut S,
    pub to: Outputs<'o, 'm, 'p, K, M>,
    pub turns: u64,
    pub end: FeedEnd,
}

impl<J: Naming, S, K, M> FeedLoan<'_, '_, '_, '_, '_, J, S, K, M> {
    /// How many of the row's first cells hold a note.
    pub fn told(&self) -> Told
        ensures { result ≡ self.now.to.told }
    {
        self.to.told
    }
}

impl<J: Naming, S: Source, K: Sink, M: Pace> Feeds<NoteRow<J>>
    for FeedLoan<'_, '_, '_, '_, '_, J, S, K, M> {
    type Note = Note<J>;

    ghost use Rattle.std.specs.Prelude.{◌<◌, ◌≤◌, ◌^◌};
    ghost use Rattle.demand_feed.specs.declared.limits.TheConstants.{MOST_TURNS};
    ghost use Rattle.drive.specs.Fed.{IsFedBy, IsOfNewest};

    ghost ready = { λ l. (l.turns ≤ MOST_TURNS) × (l.mapper.now.newest.serial < 2 ^ 63) };

    ghost fed = { λ a b. IsFedBy S.told K.told M.told a b };

    ghost noted = { λ l note. IsOfNewest l.mapper.now note.front };

    fn run_feed<R: Wait>(&mut self, rt: &R, row: &NoteRow<J>) {
        self.end = self
            .mapper
            .run_feed(rt, self.feed, &mut self.to, row, self.turns);
    }

    fn note(&self) -> Note<J> {
        newest_note(self.mapper)
    }
}

/// What the mapper's side is lent where several feeders read: the mapper, who takes what they send, both outputs and the
/// pace; and how the feeds ended.
#[derive(Drop)]
pub(crate) struct TakerLoan<'x, 't, 'o, 'm, 'p, J: Naming, N: Numbers, K, M> {
    pub mapper: &'x mut Mapper<J>,
    pub taker: &'t mut Taker<N>,
    pub out: &'o mut K,
    pub maps: &'m mut K,
    pub pace: &'p mut M,
    pub end: FeedEnd,
}

impl<J: Naming, N: Numbers, K: Sink, M: Pace> Feeds<NoteRow<J>>
    for TakerLoan<'_, '_, '_, '_, '_, J, N, K, M> {
    type Note = Note<J>;

    ghost use Rattle.std.specs.Prelude.{◌≡◌, ◌<◌, ◌^◌, [], length};
    ghost use Rattle.drive.specs.Fed.{AreWorked, IsOfNewest};

    ghost ready = { λ l. (length l.mapper.now.newest.plan.market.groups ≡ N.groups)
        × (length l.mapper.now.newest.plan.market.nodes ≡ N.nodes)
        × (l.mapper.now.newest.serial < 2 ^ 63) × (l.taker.now.taken ≡ []) };

    ghost fed = { λ a b. AreWorked K.told M.told a b };

    ghost noted = { λ l note. IsOfNewest l.mapper.now note.front };

    fn run_feed<R: Wait>(&mut self, rt: &R, row: &NoteRow<J>) {
        let mut to = Outputs {
            out: self.out,
            maps: self.maps,
            pace: self.pace,
            told: Told::of_none(),
        };
        self.end = self.mapper.run_feeds(rt, self.taker, &mut to, row);
    }

    fn note(&self) -> Note<J> {
        newest_note(self.mapper)
    }
}

/// What all feeders share: the topology, for how many turns each reads its feed, and where they wait for one another.
#[derive(Drop)]
pub(crate) struct FeederContext {
    pub topology: Arc<Topology>,
    pub turns: u64,
    pub start: StartSignal,
}

impl Starts for FeederContext {
    fn start<R: Wait>(&self, rt: &R) {
        self.start.open(rt);
    }
}

impl<N: Numbers> Fresh for Feeder<N> {
    ghost use Rattle.std.specs.Prelude.{◌≡◌, []};

    ghost fresh = { λ f. f.sent ≡ [] };
}

impl<N: Numbers, S: Source> Sends<FeederContext, Feeder<N>> for S {
    ghost use Rattle.std.specs.Prelude.{◌≡◌, ◌≤◌, length};
    ghost use Rattle.std.specs.Arc.{arc_value};
    ghost use Rattle.demand_feed.specs.declared.limits.TheConstants.{MOST_TURNS};
    ghost use Rattle.drive.specs.Read.{IsRead};

    ghost ready = { λ context. (context.turns ≤ MOST_TURNS)
        × (length (arc_value context.topology).market.groups ≡ N.groups)
        × (length (arc_value context.topology).market.nodes ≡ N.nodes) };

    ghost sent = { λ context a b f g.
        IsRead (arc_value context.topology) context.turns (S.told a) (S.told b) f g };

    fn send<R: Wait>(
        &mut self,
        rt: &R,
        context: &FeederContext,
        feeder: &mut Feeder<N>,
        alone: bool,
    ) {
        if context.start.may_read(rt, alone) {
            feeder.run(rt, &context.topology, self, context.turns);
        } else {
            feeder.give_up(rt);
        }
    }
}
