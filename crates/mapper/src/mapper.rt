//! The mapper: the newest map of a topology, in a cell.
ghost use Rattle.std.specs.Prelude.{◌≡◌, ◌≢◌, ◌⊎◌, ◌+◌, ◌-◌, ◌<◌, ◌≤◌, ◌^◌, [], ◌∷◌, ℕ, All, IfErr, IsErrOf, IfOk, OnErr, OnOk, Ok, length, vec_len};
ghost use mathlib.Core.List.{IsPrefix};
ghost use Rattle.outside.specs.Faults.{Rose, raised};
ghost use Rattle.map_model.specs.Batch.{IsBatch};
ghost use Rattle.map_repair.specs.Repaired.{IsWithinTwiceSpread};
ghost use Rattle.demand_feed.specs.declared.limits.TheConstants.{MOST_TURNS};
ghost use Rattle.published_map.specs.Version.{IsVersion};
ghost use Rattle.map_cell.specs.declared.door.OpenFault.TheVariants.{CellFault as Shut};
ghost use Rattle.std.specs.Arc.{arc_value};
ghost use Rattle.map_model.specs.Allocation.{IsGood};
ghost use Rattle.map_model.specs.Progress.{IsGroupBest};
ghost use Rattle.published_map.specs.Shared.{LooksUp, plan_of};
ghost use Rattle.map_cell.specs.Histories.{IsSealed};
ghost use Rattle.answer_core.specs.Reply.{Replies};
ghost use Rattle.mapper.specs.Currents.{IsCurrent, IsKeptFor, version_of};
ghost use Rattle.mapper.specs.Feeding.{IsFeed};
ghost use Rattle.mapper.specs.Feeds.{AreFeeds, HasMerged};
ghost use Rattle.mapper.specs.Mappers.{IsFirst, IsMapping, IsPublished, IsRepairing, most_offers};
ghost use Rattle.mapper.specs.Lending.{HasFault, HasNoFault, HasNoLess, IsSameLent, told_by};
ghost use Rattle.mapper.specs.Notes.{AreTold};
ghost use Rattle.mapper.specs.Words.{map_text, reply_by, totals_of};

use crate::current::{First, first_of};
use crate::desk::Desk;
use crate::feed::run_feed;
use crate::feeds::run_feeds;
use crate::maps::Maps;
use crate::{Outputs, Spoken, Totals};
use addr_text::Addr;
use answer_core::Answer;
use arrayvec::ArrayVec;
use demand_feed::{Batch, FeedEnd, Intake};
use feed_queue::{Numbers, Taker};
use map_cell::{Door, EmptyHistory, Naming, Note, NoteRow, OpenFault, Viewer};
use map_model::{Instance, MapLines, Steps};
use no_memory::NoMemory;
use outside::{LARGEST_REPLY, Pace, Sink, Source};
use published_map::{MapVersion, Shared};
use std::alloc::Global;
use std::marker::Model;
use std::sync::{Arc, Wait};
use topology_text::Topology;

/// Holds the newest map of a topology in a cell, and publishes the next ones by repair. A feed works it.
///
/// It can't be dropped: end it by `close`, after a refusal too.
pub struct Mapper<J: Naming> {
    topology: Arc<Topology>,
    intake: Intake,
    maps: Maps<J>,
}

impl<J: Naming> Model for Mapper<J> {
    ghost use Rattle.std.specs.Prelude.{◌≡◌};
    ghost use Rattle.std.specs.Arc.{arc_value};
    ghost use Rattle.map_cell.specs.Ends.{PublisherState};

    ghost Value = { PublisherState };

    ghost view = { λ m. m.maps };

    ghost invariant = { λ m. arc_value m.topology ≡ m.maps.newest.plan };
}

/// All that an opening needs ahead of the cell.
#[derive(Drop)]
struct Prepared {
    topology: Arc<Topology>,
    intake: Intake,
    first: First,
    version: MapVersion,
}

/// The topology, and what its versions share.
type Sharing = (Arc<Topology>, Arc<Shared>);

/// The topology, and what its versions share.
fn share(alloc: Global, topology: Topology) -> Result<Sharing, NoMemory>
    ensures plan { IfOk result (λ r. (arc_value r.0 ≡ topology)
        × (plan_of (arc_value r.1) ≡ topology)) }
    ensures lookup { IfOk result (λ r. LooksUp (arc_value r.1)) }
{
    let shared = Shared::build(alloc, topology)?;
    let topology = Arc::try_clone(&shared.topology)?;
    Ok((topology, shared))
}

/// What an opening needs, of a first map.
fn prepare_first(
    alloc: Global,
    topology: Topology,
    intake: Intake,
    first: First,
) -> Result<Prepared, NoMemory>
    requires instance { first.current.instance ≡ topology.market }
    requires good { IsGood
        topology.market first.current.map.lines.items first.current.map.names.items }
    requires best { IsGroupBest topology.market first.current.map.lines.items }
    requires current { (serial : ℕ)
        → IsCurrent (version_of serial topology first.current) first.current }
    requires kept { IsKeptFor topology.market first.current.map.lines.items first.kept }
    ensures plan { IfOk result (λ p. (arc_value p.topology ≡ topology)
        × (p.version.plan ≡ topology)) }
    ensures version { IfOk result (λ p. IsVersion p.version
        × (p.version.serial ≡ 0) × (p.version.market ≡ topology.market)) }
    ensures first { IfOk result (λ p.
        IsFirst topology (record { history = p.version ∷ []; newest = p.version })) }
    ensures lines { IfOk result (λ p. p.version.lines ≡ first.current.map.lines.items) }
    ensures current { IfOk result (λ p. IsCurrent p.version p.first.current) }
    ensures kept { IfOk result (λ p. IsKeptFor p.version.market p.version.lines p.first.kept) }
{
    match share(alloc, topology) {
        Err(NoMemory) => Err(NoMemory),
        Ok((topology, shared)) => {
            let current = &first.current;
            match MapVersion::make(alloc, 0, &current.instance, &current.map, shared) {
                Err(NoMemory) => Err(NoMemory),
                Ok(version) => Ok(Prepared {
                    topology,
                    intake,
                    first,
                    version,
                }),
            }
        }
    }
}

/// Maps a topology from scratch, and takes all room that reading a feed needs.
fn prepare<L>(alloc: Global, topology: Topology, steps: &mut Steps<L>) -> Result<Prepared, NoMemory>
    ensures plan { IfOk result (λ p. (arc_value p.topology ≡ topology)
        × (p.version.plan ≡ topology)) }
    ensures version { IfOk result (λ p. IsVersion p.version
        × (p.version.serial ≡ 0) × (p.version.market ≡ topology.market)) }
    ensures first { IfOk result (λ p.
        IsFirst topology (record { history = p.version ∷ []; newest = p.version })) }
    ensures current { IfOk result (λ p. IsCurrent p.version p.first.current) }
    ensures kept { IfOk result (λ p. IsKeptFor p.version.market p.version.lines p.first.kept) }
    ensures counted { IfOk result (λ p.
        IsMapping topology.market p.version.lines steps.old steps.new) }
    ensures steps { OnOk result (steps.new ≤ steps.old + most_offers topology.market) }
    ensures later { steps.old ≤ steps.new }
{
    match Intake::new(alloc) {
        Err(NoMemory) => Err(NoMemory),
        Ok(intake) => match first_of(alloc, &topology, steps) {
            Err(NoMemory) => Err(NoMemory),
            Ok(first) => prepare_first(alloc, topology, intake, first),
        },
    }
}

impl<J: Naming> Mapper<J> {
    /// Maps the topology from scratch, for which `steps` counts the proposals, and opens a cell with that map and so
    /// many viewers, 0 to 16. All room that reading a feed needs is taken here. Nothing is read. An opening that is refused
    /// closes what it made, and may wait for that.
    ///
    /// # Errors
    ///
    /// `NoMemory`; `CellFault` only where the count of the door's faults rose by one, and where a viewer was asked for.
    /// That count stands at any other answer.
    pub fn open<R: Wait, D: Door, L>(
        rt: &R,
        alloc: Global,
        history: EmptyHistory,
        topology: Topology,
        viewers: u8,
        door: &mut D,
        steps: &mut Steps<L>,
    ) -> Result<(Mapper<J>, Vec<Viewer<J>>), OpenFault>
        requires book { history ≡ J.book }
        requires viewers { viewers ≤ 16 }
        ensures mapper { IfOk result (λ r. IsFirst topology r.0) }
        ensures viewers { IfOk result (λ r. (vec_len r.1 ≡ viewers)
            × All (λ v. (v.seen ≡ r.0.history) × (v.heard ≡ r.0.history)) r.1.items) }
        ensures asked { (k : ℕ)
            × (k ≤ viewers) × ((D.told door.new).asked ≡ raised (D.told door.old).asked k) }
        ensures asked_all { OnOk result ((D.told door.new).asked
            ≡ raised (D.told door.old).asked viewers) }
        ensures same { ((D.told door.new).looks ≡ (D.told door.old).looks)
            × ((D.told door.new).greatest ≡ (D.told door.old).greatest) }
        ensures later { (D.told door.old).faults ≤ (D.told door.new).faults }
        ensures cause { IfErr result (λ e. e ≡ Shut
            → (D.told door.new).faults ≡ raised (D.told door.old).faults 1) }
        ensures asked_one { IfErr result (λ e. e ≡ Shut → 1 ≤ viewers) }
        ensures stays { ¬ IsErrOf result Shut
            → (D.told door.new).faults ≡ (D.told door.old).faults }
        ensures counted { IfOk result (λ r.
            IsMapping topology.market r.0.newest.lines steps.old steps.new) }
        ensures steps { OnOk result (steps.new ≤ steps.old + most_offers topology.market) }
        ensures steps_later { steps.old ≤ steps.new }
    {
        let Ok(prepared) = prepare(alloc, topology, steps) else {
            return Err(OpenFault::NoMemory);
        };
        let Prepared {
            topology,
            intake,
            first,
            version,
        } = prepared;
        let (publisher, made) = match map_cell::open(rt, alloc, history, version, viewers, door) {
            Ok(opened) => opened,
            Err(fault) => return Err(fault),
        };
        let maps = Maps::of(alloc, publisher, first);
        Ok((
            Mapper {
                topology,
                intake,
                maps,
            },
            made,
        ))
    }

    /// The newest serial.
    pub fn newest(&self) -> u64
        ensures serial { result ≡ self.now.newest.serial }
        ensures version { IsVersion self.now.newest }
        ensures last { IsSealed self.now.history self.now.newest }
    {
        self.maps.serial()
    }

    /// The newest instance, and the map that is good for it.
    pub fn newest_map(&self) -> (&Instance, &MapLines)
        ensures instance { result.0.now ≡ self.now.newest.market }
        ensures lines { result.1.now.lines.items ≡ self.now.newest.lines }
        ensures names { result.1.now.names.items ≡ self.now.newest.names }
    {
        let current = self.maps.current();
        (&current.instance, &current.map)
    }

    /// The text of the newest map.
    pub fn text(&self) -> &[u8]
        ensures { result.now ≡ map_text self.now.newest }
    {
        self.maps.text()
    }

    /// The totals of the newest map.
    pub fn totals(&self) -> Totals
        ensures { result ≡ totals_of self.now.newest }
    {
        self.maps.totals()
    }

    /// Names the newest map, with the history up to it.
    pub fn note(&self) -> Note<J>
        ensures { result.front ≡ self.now.history }
    {
        self.maps.note()
    }

    /// Writes the newest map's reply to octets from an address, with draw 0. The buffer is cleared first.
    pub fn ask(&self, from: Addr, octets: &[u8], out: &mut ArrayVec<u8, LARGEST_REPLY>) -> Answer
        ensures { Replies result out.new.items (reply_by self.now.newest from octets.now) }
    {
        self.maps.ask(from, octets, out)
    }

    /// The topology.
    pub fn topology(&self) -> &Arc<Topology>
        ensures { arc_value result.now ≡ self.now.newest.plan }
    {
        &self.topology
    }

    /// Publishes the map that a batch leads to, by repair of the newest one, and answers its serial; `steps` counts the
    /// proposals. Where the batch has no changes there is no new map: the serial is the newest one's, and no memory is
    /// taken. It may wait for viewers that look at the map before the newest.
    ///
    /// # Errors
    ///
    /// `NoMemory`; nothing was published then, and the newest map, its instance and its text are as before.
    pub fn commit<R: Wait, L>(
        &mut self,
        rt: &R,
        batch: &Batch,
        steps: &mut Steps<L>,
    ) -> Result<u64, NoMemory>
        requires ids { IsBatch self.old.newest.plan.market batch.now }
        requires serial { self.old.newest.serial < 2 ^ 64 - 1 }
        ensures empty { batch.now ≡ [] → (result ≡ Ok self.old.newest.serial)
            × (self.new ≡ self.old) × (steps.new ≡ steps.old) }
        ensures next { batch.now ≢ [] → IfOk result (λ s. IsPublished self.old batch.now self.new
            × (s ≡ self.new.newest.serial)) }
        ensures same { OnErr result (self.new ≡ self.old) }
        ensures counted { batch.now ≢ []
            → OnOk result (IsRepairing self.old.newest self.new.newest steps.old steps.new) }
        ensures steps { OnOk result (IsWithinTwiceSpread self.old.newest.market
            self.old.newest.lines self.new.newest.market steps.old steps.new) }
        ensures later { steps.old ≤ steps.new }
    {
        if batch.is_empty() {
            return Ok(self.maps.serial());
        }
        self.maps.commit(rt, batch, steps)
    }

    /// Runs a feed to its end or for so many turns, 2^48 at most, from the newest map on, and then tells the pace that it has ended.
    ///
    /// Each map's text and each line of control text is one put, and nothing is put behind one that failed. When both
    /// puts of a map are done, a note of it goes into the row, if that has a cell for its serial, and is counted where all before
    /// it were.
    pub fn run_feed<R: Wait, S: Source, K: Sink, M: Pace>(
        &mut self,
        rt: &R,
        feed: &mut S,
        to: &mut Outputs<'_, '_, '_, K, M>,
        row: &NoteRow<J>,
        turns: u64,
    ) -> FeedEnd
        requires turns { turns ≤ MOST_TURNS }
        requires serial { self.old.newest.serial < 2 ^ 63 }
        ensures lent { IsSameLent to.old to.new }
        ensures run { IsFeed self.old.newest.plan turns result (S.told feed.old).past
            (S.told feed.new).past (told_by K.told M.told self.old to.old)
            (told_by K.told M.told self.new to.new) }
        ensures kept { IsPrefix self.old.history self.new.history }
        ensures plan { self.new.newest.plan ≡ self.old.newest.plan }
        ensures told { result ≢ FeedEnd.SinkFault → AreTold self.old.history to.old.told
            → AreTold self.new.history to.new.told }
        ensures later { HasNoLess K.told to.old to.new }
        ensures sink { result ≡ FeedEnd.SinkFault → HasFault K.told to.old to.new }
        ensures sink_stays { result ≢ FeedEnd.SinkFault → HasNoFault K.told to.old to.new }
        ensures source { result ≡ FeedEnd.SourceFault
            → Rose (S.told feed.old).faults (S.told feed.new).faults }
        ensures source_later { (S.told feed.old).faults ≤ (S.told feed.new).faults }
        ensures source_stays { result ≢ FeedEnd.SourceFault
            → (S.told feed.new).faults ≡ (S.told feed.old).faults }
    {
        let mut desk = Desk::new(
            rt,
            &mut self.maps,
            row,
            Outputs {
                out: to.out,
                maps: to.maps,
                pace: to.pace,
                told: to.told,
            },
        );
        let end = run_feed(&self.topology, &mut self.intake, feed, &mut desk, turns);
        to.told = desk.told();
        end
    }

    /// Works the items of several feeders, from the newest map on, until each feeder's end was taken, and then tells the
    /// pace that all have ended. It waits for feeders that send nothing. It answers `SinkFault`, else the first of
    /// `SourceFault`, `Spent` and `NoMemory` by which a feed has ended, else `Ended`.
    ///
    /// Each map's text and each line of control text is one put; a line begins with its feed's number, from 1, and a space.
    /// When both puts of a map are done, a note of it goes into the row, if that has a cell for its serial, and is counted where
    /// all before it were. Behind a put that failed the items that are left are taken and dropped, and nothing is published.
    pub fn run_feeds<R: Wait, N: Numbers, K: Sink, M: Pace>(
        &mut self,
        rt: &R,
        taker: &mut Taker<N>,
        to: &mut Outputs<'_, '_, '_, K, M>,
        row: &NoteRow<J>,
    ) -> FeedEnd
        requires groups { length self.old.newest.plan.market.groups ≡ N.groups }
        requires nodes { length self.old.newest.plan.market.nodes ≡ N.nodes }
        requires serial { self.old.newest.serial < 2 ^ 63 }
        requires unused { taker.old.taken ≡ [] }
        ensures lent { IsSameLent to.old to.new }
        ensures queue { (taker.new.queue ≡ taker.old.queue)
            × (taker.new.feeders ≡ taker.old.feeders) }
        ensures run { AreFeeds taker.old.feeders result taker.new.taken
            (told_by K.told M.told self.old to.old) (told_by K.told M.told self.new to.new) }
        ensures merged { result ≢ FeedEnd.SinkFault → HasMerged taker.new.taken
            (told_by K.told M.told self.old to.old) (told_by K.told M.told self.new to.new) }
        ensures kept { IsPrefix self.old.history self.new.history }
        ensures plan { self.new.newest.plan ≡ self.old.newest.plan }
        ensures told { result ≢ FeedEnd.SinkFault → AreTold self.old.history to.old.told
            → AreTold self.new.history to.new.told }
        ensures later { HasNoLess K.told to.old to.new }
        ensures sink { result ≡ FeedEnd.SinkFault → HasFault K.told to.old to.new }
        ensures sink_stays { result ≢ FeedEnd.SinkFault → HasNoFault K.told to.old to.new }
    {
        let mut desk = Desk::new(
            rt,
            &mut self.maps,
            row,
            Outputs {
                out: to.out,
                maps: to.maps,
                pace: to.pace,
                told: to.told,
            },
        );
        let end = run_feeds(&mut desk, taker);
        to.told = desk.told();
        end
    }

    /// Closes the cell, and drops the rest. It waits for viewers that are looking.
    pub fn close<R: Wait>(self, rt: &R) {
        let Mapper {
            topology: _,
            intake: _,
            maps,
        } = self;
        maps.close(rt);
    }
}
