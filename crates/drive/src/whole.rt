//! A drive: what it takes ahead of the first lane, its run, and its ends.
ghost use Rattle.std.specs.Prelude.{◌≡◌, ◌≢◌, ◌+◌, ◌≤◌, ◌∷◌, [], List, All, IfOk, IfSome, IsSome, OnErr, drop, length, map, option_map, vec_len};
ghost use Rattle.std.specs.Option.{option_to_list};
ghost use Rattle.demand_feed.specs.declared.limits.TheConstants.{MOST_TURNS};
ghost use Rattle.published_map.specs.Version.{Version};
ghost use Rattle.lane_model.specs.declared.ended.Ended.{Ended};
ghost use Rattle.mapper.specs.Notes.{AreTold};
ghost use Rattle.drive.specs.AllDone.{AllHeld, IsFresh};
ghost use Rattle.drive.specs.Counted.{AreCounted};
ghost use Rattle.drive.specs.Driven.{AreEnds, IsDriven};
ghost use Rattle.drive.specs.Told.{AreUntouched, IsSameLent, lent_of};

use crate::beside::{Workers, serve_beside};
use crate::feeders::{Readers, SeveralLoan, run_among};
use crate::lane::{Lane, LaneWorker};
use crate::lent::Lent;
use crate::loan::{FeedLoan, TakerLoan, tell_first};
use crate::queue::{FeedQueue, all_back, open_queue};
use crate::stream::StreamLane;
use crate::threads::can_fork;
use demand_feed::FeedEnd;
use feed_queue::Numbers;
use lane_model::Ended;
use map_cell::{Door, MOST_VIEWERS, Naming, NoteRow, Viewer};
use mapper::{Mapper, Outputs, Told};
use name_workers::Worker;
use no_memory::NoMemory;
use outside::{Gate, Pace, Port, Sink, Source, Streams};
use std::alloc::Global;
use std::marker::Brand;
use std::sync::Wait;
use std::thread::Threads;

/// How a drive ended.
#[derive(Clone, Copy, Debug, PartialEq, Eq)]
pub struct DriveEnd {
    /// How the feed ended; of several, the end that a status tells of.
    pub feed: FeedEnd,
    /// How each lane ended that had a viewer.
    pub lanes: [Option<Ended>; MOST_VIEWERS],
    /// How the lane for conversations ended, if it had a viewer.
    pub stream: Option<Ended>,
    /// Of one feed: how many cells of the row that all lanes read, from the first one on, hold a note at the end.
    pub told: Option<Told>,
}

/// A worker for each viewer, numbered from 0 on, of so many turns.
fn hold_all<J: Naming>(
    alloc: Global,
    viewers: Vec<Viewer<J>>,
    turns: u64,
) -> Result<Vec<LaneWorker<J>>, NoMemory>
    requires { vec_len viewers ≤ 16 }
    ensures len { IfOk result (λ r. vec_len r ≡ vec_len viewers) }
    ensures held { (h : List Version) → All (λ e. (e.seen ≡ h) × (e.heard ≡ h)) viewers.items
        → IfOk result
        (λ r. AllHeld (IsFresh h turns) 0 r.items) }
{
    let mut left = viewers;
    let mut works = Vec::with_capacity(alloc, left.len())?;
    while let Some(viewer) = left.pop() {
        let number = works.len() as u8;
        works.push_reserved(LaneWorker {
            worker: Worker::new(viewer, number),
            turns,
            ended: Ended::Stopped,
        });
    }
    Ok(works)
}

/// The worker of that number for a viewer, if there is one, of so many turns.
fn hold_one<J: Naming>(viewer: Option<Viewer<J>>, number: u8, turns: u64) -> Option<LaneWorker<J>>
    requires { number ≤ 16 }
    ensures held { (h : List Version) → IfSome viewer (λ e. (e.seen ≡ h) × (e.heard ≡ h))
        → IfSome result (IsFresh h turns number) }
    ensures same { length (option_to_list result) ≡ length (option_to_list viewer) }
{
    match viewer {
        Some(viewer) => Some(LaneWorker {
            worker: Worker::new(viewer, number),
            turns,
            ended: Ended::Stopped,
        }),
        None => None,
    }
}

/// How a lane ended, if it had a worker.
fn end_of<J: Naming>(work: &Option<LaneWorker<J>>) -> Option<Ended>
    ensures { result ≡ option_map (λ w. w.ended) work.now }
{
    match work {
        Some(work) => Some(work.ended),
        None => None,
    }
}

/// The ends of the lanes.
fn ends_of<J: Naming>(works: &Vec<LaneWorker<J>>) -> [Option<Ended>; MOST_VIEWERS]
    requires { vec_len works.now ≤ 16 }
    ensures { AreEnds (map (λ w. w.ended) works.now.items) result }
{
    let mut ends = [None; MOST_VIEWERS];
    for k in 0..works.len() {
        ends[k] = Some(works[k].ended);
    }
    ends
}

/// Takes what a drive needs ahead of the first lane, but for a queue: the row of notes, and the workers. It tries whether
/// as many threads can be had as the lanes and so many feeders need.
fn prepare<J: Naming, R: Threads>(
    rt: &R,
    alloc: Global,
    viewers: Vec<Viewer<J>>,
    listener: Option<Viewer<J>>,
    feeders: usize,
    turns: u64,
) -> Result<Workers<NoteRow<J>, LaneWorker<J>>, NoMemory>
    requires few { vec_len viewers ≤ 16 }
    requires feeders { feeders ≤ 4 }
    ensures len { IfOk result (λ r. vec_len r.lanes ≡ vec_len viewers) }
    ensures held { (h : List Version) → All (λ e. (e.seen ≡ h) × (e.heard ≡ h)) viewers.items
        → IfOk result
        (λ r. AllHeld (IsFresh h turns) 0 r.lanes.items) }
    ensures listener { (h : List Version) → IfSome listener (λ e. (e.seen ≡ h) × (e.heard ≡ h))
        → IfOk result
        (λ r. IfSome r.stream (IsFresh h turns (vec_len viewers))) }
    ensures same { IfOk result
        (λ r. length (option_to_list r.stream) ≡ length (option_to_list listener)) }
{
    let count = viewers.len();
    let row = NoteRow::new(alloc)?;
    let lanes = hold_all(alloc, viewers, turns)?;
    let stream = hold_one(listener, count as u8, turns);
    // each lane has a thread, which forks that of the lanes before it, so the first lane's forks one that finds none; and
    // that for conversations and each feeder has one of its own
    let threads = 1 + count + usize::from(stream.is_some()) + feeders;
    if !can_fork(rt, alloc, threads) {
        return Err(NoMemory);
    }
    Ok(Workers { row, lanes, stream })
}

/// Drives one feed, as `drive`.
fn drive_one<
    J: Naming + Send + Sync,
    S: Source,
    T: Source,
    K: Sink,
    P: Port + Send,
    Q: Streams + Send,
    G: Gate + Send,
    D: Door + Send,
    M: Pace,
    R: Threads + Wait + Sync,
>(
    rt: &R,
    mapper: Mapper<J>,
    works: Workers<NoteRow<J>, LaneWorker<J>>,
    lent: &mut Lent<'_, '_, '_, '_, '_, '_, S, T, K, P, G, D, M>,
    stream: &mut StreamLane<Q, G, D>,
) -> DriveEnd
    requires serial { mapper.newest.serial ≡ 0 }
    requires turns { lent.old.turns ≤ MOST_TURNS }
    requires fresh { AllHeld (IsFresh mapper.history lent.old.turns) 0 works.lanes.items }
    requires listener { IfSome works.stream
        (IsFresh mapper.history lent.old.turns (vec_len works.lanes)) }
    requires few { (vec_len works.lanes ≤ 16)
        × (vec_len works.lanes ≤ length lent.old.lanes.now) }
    requires one { lent.old.more.now ≡ [] }
    ensures keeps { IsSameLent lent.old lent.new }
    ensures driven { (ends : List Ended) × (length ends ≡ vec_len works.lanes)
        × AreEnds ends result.lanes
        × (d : IsDriven lent.old.turns mapper.newest result.feed ends result.stream
        (lent_of S.told T.told K.told M.told lent.old stream.old)
        (lent_of S.told T.told K.told M.told lent.new stream.new))
        × (result.feed ≢ FeedEnd.SinkFault
        → IfSome result.told (AreTold (mapper.newest ∷ d.rest))) }
    ensures told { IsSome result.told }
    ensures untouched { drop (vec_len works.lanes) lent.new.lanes.now ≡ drop
        (vec_len works.lanes) lent.old.lanes.now }
    ensures stream { length (option_to_list result.stream) ≡ length
        (option_to_list works.stream) }
    ensures counted { AreCounted result.feed
        (lent_of S.told T.told K.told M.told lent.old stream.old)
        (lent_of S.told T.told K.told M.told lent.new stream.new) }
{
    let mut mapper = mapper;
    // tells the prover what the type keeps
    let _ = mapper.newest();
    let mut works = works;
    let told = tell_first(rt, &works.row, &mapper);
    let count = works.lanes.len();
    let lanes = &mut *lent.lanes;
    let (served, _behind) = lanes.split_at_mut(count);
    let mut loan = FeedLoan {
        mapper: &mut mapper,
        feed: lent.feed,
        to: Outputs {
            out: lent.out,
            maps: lent.maps,
            pace: lent.pace,
            told,
        },
        turns: lent.turns,
        end: FeedEnd::Ended,
    };
    serve_beside(rt, &mut works, served, stream, &mut loan);
    let end = loan.end;
    let told = loan.told();
    mapper.close(rt);
    DriveEnd {
        feed: end,
        lanes: ends_of(&works.lanes),
        stream: end_of(&works.stream),
        told: Some(told),
    }
}

/// Drives several feeds, as `drive`, by a queue.
fn drive_several<
    J: Naming + Send + Sync,
    N: Numbers + Send + Sync,
    S: Source + Send,
    T: Source + Send,
    K: Sink,
    P: Port + Send,
    Q: Streams + Send,
    G: Gate + Send,
    D: Door + Send,
    M: Pace,
    R: Threads + Wait + Sync,
>(
    rt: &R,
    alloc: Global,
    mapper: Mapper<J>,
    works: Workers<NoteRow<J>, LaneWorker<J>>,
    lent: &mut Lent<'_, '_, '_, '_, '_, '_, S, T, K, P, G, D, M>,
    stream: &mut StreamLane<Q, G, D>,
) -> Result<DriveEnd, NoMemory>
    requires serial { mapper.newest.serial ≡ 0 }
    requires groups { length mapper.newest.plan.market.groups ≡ N.groups }
    requires nodes { length mapper.newest.plan.market.nodes ≡ N.nodes }
    requires turns { lent.old.turns ≤ MOST_TURNS }
    requires fresh { AllHeld (IsFresh mapper.history lent.old.turns) 0 works.lanes.items }
    requires listener { IfSome works.stream
        (IsFresh mapper.history lent.old.turns (vec_len works.lanes)) }
    requires few { (vec_len works.lanes ≤ 16)
        × (vec_len works.lanes ≤ length lent.old.lanes.now) }
    requires several { (lent.old.more.now ≢ []) × (length lent.old.more.now ≤ 3) }
    ensures keeps { IsSameLent lent.old lent.new }
    ensures driven { IfOk result (λ r. (ends : List Ended)
        × (length ends ≡ vec_len works.lanes) × AreEnds ends r.lanes
        × (d : IsDriven lent.old.turns mapper.newest r.feed ends r.stream
        (lent_of S.told T.told K.told M.told lent.old stream.old)
        (lent_of S.told T.told K.told M.told lent.new stream.new))
        × (r.feed ≢ FeedEnd.SinkFault → IfSome r.told (AreTold (mapper.newest ∷ d.rest)))) }
    ensures untouched { drop (vec_len works.lanes) lent.new.lanes.now ≡ drop
        (vec_len works.lanes) lent.old.lanes.now }
    ensures stream { IfOk result
        (λ r. length (option_to_list r.stream) ≡ length (option_to_list works.stream)) }
    ensures no_memory { OnErr result (AreUntouched lent.old lent.new × (stream.new ≡ stream.old)) }
    ensures counted { IfOk result (λ r. AreCounted r.feed
        (lent_of S.told T.told K.told M.told lent.old stream.old)
        (lent_of S.told T.told K.told M.told lent.new stream.new)) }
{
    let feeds = lent.more.len() as u8;
    let Ok(queue) = open_queue::<N>(alloc, mapper.topology(), feeds, lent.turns) else {
        mapper.close(rt);
        return Err(NoMemory);
    };
    let FeedQueue {
        context,
        mut first,
        mut feeders,
        mut taker,
    } = queue;
    let mut mapper = mapper;
    // tells the prover what the type keeps
    let _ = mapper.newest();
    let mut works = works;
    let _ = tell_first(rt, &works.row, &mapper);
    let count = works.lanes.len();
    let lanes = &mut *lent.lanes;
    let (served, _behind) = lanes.split_at_mut(count);
    let more = &mut *lent.more;
    let mut loan = SeveralLoan {
        readers: Readers {
            context: &context,
            first: &mut first,
            feed: lent.feed,
            feeders: &mut feeders,
        },
        more,
        side: TakerLoan {
            mapper: &mut mapper,
            taker: &mut taker,
            out: lent.out,
            maps: lent.maps,
            pace: lent.pace,
            end: FeedEnd::Ended,
        },
        lanes: served,
    };
    run_among(rt, &mut loan, &mut works, stream);
    let ended = loan.side.end;
    all_back(&mut taker, first, feeders);
    mapper.close(rt);
    Ok(DriveEnd {
        feed: ended,
        lanes: ends_of(&works.lanes),
        stream: end_of(&works.stream),
        told: None,
    })
}

/// Who works in a drive: the mapper, a viewer of its maps for each of the first lanes, and one for the lane for conversations,
/// where these are to be answered.
pub struct Crew<J: Naming> {
    pub mapper: Mapper<J>,
    pub viewers: Vec<Viewer<J>>,
    pub listener: Option<Viewer<J>>,
}

impl<J: Naming> Crew<J> {
    /// Closes the mapper: nobody works.
    pub fn close<R: Wait>(self, rt: &R) {
        let Crew {
            mapper,
            viewers: _,
            listener: _,
        } = self;
        mapper.close(rt);
    }
}

/// Runs a mapper's feed, or several at once, beside the first lanes, one for each viewer, and beside the lane for
/// conversations where it has a listener's viewer, whose worker has the number behind the others; and then makes the
/// closing look of each of these lanes: its worker learns of the newest map, and looks once by its lane's door. The lanes
/// past the viewers are untouched. All memory but that of commits, and of what feeders read, is taken ahead of the first
/// lane. At the end, after a refusal too, the mapper is closed.
///
/// Where there are further feeds, three at most, each feed is read in a thread of its own, by the feeder of its number, and
/// the mapper's side runs in this one. Where one of them gets none, though there were enough ahead of that, no feed is read:
/// each feeder gives its feed up, and the feeds end by `NoMemory`.
///
/// A lane that its port or its gate has ended counts as ended by `CellFault` if its closing look is refused. One whose
/// closing look shows a map past the newest one has ended `Above`.
///
/// # Errors
///
/// `NoMemory`, for want of memory or of threads; nothing that was lent is touched then.
pub fn drive<
    J: Naming + Send + Sync,
    S: Source + Send,
    T: Source + Send,
    K: Sink,
    P: Port + Send,
    Q: Streams + Send,
    G: Gate + Send,
    D: Door + Send,
    M: Pace,
    R: Threads + Wait + Sync,
>(
    rt: &R,
    alloc: Global,
    crew: Crew<J>,
    lent: &mut Lent<'_, '_, '_, '_, '_, '_, S, T, K, P, G, D, M>,
    stream: &mut StreamLane<Q, G, D>,
) -> Result<DriveEnd, NoMemory>
    requires serial { crew.mapper.newest.serial ≡ 0 }
    requires turns { lent.old.turns ≤ MOST_TURNS }
    requires viewers { All (λ v. (v.seen ≡ crew.mapper.history) × (v.heard ≡ crew.mapper.history))
        crew.viewers.items }
    requires listener { IfSome crew.listener
        (λ v. (v.seen ≡ crew.mapper.history) × (v.heard ≡ crew.mapper.history)) }
    requires few { (vec_len crew.viewers ≤ 16)
        × (vec_len crew.viewers ≤ length lent.old.lanes.now) }
    requires feeds { length lent.old.more.now ≤ 3 }
    ensures keeps { IsSameLent lent.old lent.new }
    ensures driven { IfOk result (λ r. (ends : List Ended) × (length ends ≡ vec_len crew.viewers)
        × AreEnds ends r.lanes
        × (d : IsDriven lent.old.turns crew.mapper.newest r.feed ends r.stream
        (lent_of S.told T.told K.told M.told lent.old stream.old)
        (lent_of S.told T.told K.told M.told lent.new stream.new))
        × (r.feed ≢ FeedEnd.SinkFault
        → IfSome r.told (AreTold (crew.mapper.newest ∷ d.rest)))) }
    ensures told { lent.old.more.now ≡ [] → IfOk result (λ r. IsSome r.told) }
    ensures untouched { drop (vec_len crew.viewers) lent.new.lanes.now ≡ drop
        (vec_len crew.viewers) lent.old.lanes.now }
    ensures stream { IfOk result
        (λ r. length (option_to_list r.stream) ≡ length (option_to_list crew.listener)) }
    ensures no_memory { OnErr result (AreUntouched lent.old lent.new × (stream.new ≡ stream.old)) }
    ensures counted { IfOk result (λ r. AreCounted r.feed
        (lent_of S.told T.told K.told M.told lent.old stream.old)
        (lent_of S.told T.told K.told M.told lent.new stream.new)) }
{
    let Crew {
        mapper,
        viewers,
        listener,
    } = crew;
    let count = lent.more.len();
    let feeders = if count == 0 { 0 } else { count + 1 };
    let Ok(works) = prepare(rt, alloc, viewers, listener, feeders, lent.turns) else {
        mapper.close(rt);
        return Err(NoMemory);
    };
    if count == 0 {
        return Ok(drive_one::<J, S, T, K, P, Q, G, D, M, R>(rt, mapper, works, lent, stream));
    }
    drive_several::<J, Brand, S, T, K, P, Q, G, D, M, R>(rt, alloc, mapper, works, lent, stream)
}
