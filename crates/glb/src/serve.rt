//! `glb serve`: a history of maps that a feed leads on, from which lanes answer.
ghost use Rattle.std.specs.Prelude.{◌≡◌, ◌+◌, ◌≤◌, ◌∷◌, [], All, IfErr, IfOk, IfSome, List, Some, length, map, option_map, vec_len};
ghost use Rattle.std.specs.List.{list_any};
ghost use Rattle.std.specs.Option.{option_to_list};
ghost use Rattle.published_map.specs.Version.{Version};
ghost use Rattle.demand_feed.specs.declared.limits.TheConstants.{MOST_TURNS};
ghost use Rattle.mapper.specs.Mappers.{IsFirst, IsFromScratch};
ghost use Rattle.glb.specs.Program.{IsPromised};
ghost use Rattle.glb.specs.Serve.{IsFirstSession, IsSession, PlacedFirst, is_cell_fault, is_port_fault, is_spent, status_by};
ghost use Rattle.glb.specs.Starting.{IsAskedSome, at_place, status_at};
ghost use Rattle.glb.specs.Commands.{service_asked};
ghost use Rattle.drive.specs.Told.{IsSameLent, lent_of};
ghost use Rattle.glb.specs.Told.{told_over};
ghost use Rattle.glb.specs.Words.{given, lanes_of, most_workers, serve as task, streams_of};

use crate::ending::finish;
use crate::files::load_topology;
use crate::starting::{Start, start_lanes};
use crate::status::Status;
use crate::words::Service;
use addr_text::Listen;
use demand_feed::FeedEnd;
use drive::{Crew, Lane, Lent, StreamLane, drive};
use lane_model::Ended;
use map_cell::{Door, EmptyHistory, Naming, OpenFault, Viewer};
use map_model::{Proposals, Steps};
use mapper::Mapper;
use no_memory::NoMemory;
use outside::{Gate, NamedSource, Pace, Port, Shelf, Sink, Source, Streams};
use std::alloc::Global;
use std::marker::Brand;
use std::sync::Wait;
use std::thread::Threads;
use topology_text::Topology;

/// Whether a lane ended by a fault of its port.
fn has_port_fault(places: &[Option<Ended>]) -> bool
    ensures { result ≡ list_any (at_place is_port_fault) places.now }
{
    places
        .iter()
        .any(|place| matches!(place, Some(Ended::PortFault)))
}

/// Whether a lane took all its turns.
fn has_spent(places: &[Option<Ended>]) -> bool
    ensures { result ≡ list_any (at_place is_spent) places.now }
{
    places
        .iter()
        .any(|place| matches!(place, Some(Ended::Spent)))
}

/// Whether a lane ended by a fault of the cell.
fn has_cell_fault(places: &[Option<Ended>]) -> bool
    ensures { result ≡ list_any (at_place is_cell_fault) places.now }
{
    places.iter().any(|place| matches!(place, Some(Ended::CellFault | Ended::Above { .. })))
}

fn status_by(port: bool, spent: bool, memory: bool, cell: bool) -> Status
    ensures { result ≡ status_by port spent memory cell }
{
    if port {
        Status::PortFault
    } else if spent {
        Status::Spent
    } else if memory {
        Status::NoMemory
    } else if cell {
        Status::CellFault
    } else {
        Status::Ok
    }
}

/// The status of a session.
fn status_of(end: FeedEnd, places: &[Option<Ended>], stream: Option<Ended>) -> Status
    ensures { result ≡ status_at end places.now stream }
{
    let streams = [stream];
    let port = has_port_fault(places) || has_port_fault(&streams);
    let spent = has_spent(places) || has_spent(&streams);
    let cell = has_cell_fault(places) || has_cell_fault(&streams);
    match end {
        FeedEnd::SourceFault => Status::SourceFault,
        FeedEnd::SinkFault => Status::SinkFault,
        FeedEnd::Spent => status_by(port, true, false, cell),
        FeedEnd::NoMemory => status_by(port, spent, true, cell),
        FeedEnd::Ended => status_by(port, spent, false, cell),
    }
}

/// The status of an opening that was refused.
fn status_of_opening(fault: OpenFault) -> Status
    ensures memory { fault ≡ OpenFault.NoMemory → result ≡ Status.NoMemory }
    ensures refused { fault ≡ OpenFault.CellFault → result ≡ Status.CellFault }
{
    match fault {
        OpenFault::NoMemory => Status::NoMemory,
        OpenFault::CellFault => Status::CellFault,
    }
}

/// Maps a topology, and opens the cell with that map and a place for each worker, by the door of a lane.
fn open_by<J: Naming, R: Wait, P: Port, G: Gate, D: Door>(
    rt: &R,
    alloc: Global,
    history: EmptyHistory,
    topology: Topology,
    workers: u8,
    lane: &mut Lane<P, G, D>,
) -> Result<(Mapper<J>, Vec<Viewer<J>>), OpenFault>
    requires book { history ≡ J.book }
    requires workers { workers ≤ 16 }
    ensures mapper { IfOk result (λ r. IsFirst topology r.0) }
    ensures scratch { IfOk result (λ r. IsFromScratch topology.market r.0.newest.lines) }
    ensures viewers { IfOk result (λ r. (vec_len r.1 ≡ workers)
        × All (λ v. (v.seen ≡ r.0.history) × (v.heard ≡ r.0.history)) r.1.items) }
    ensures asked { IfOk result (λ _. PlacedFirst workers (lane.old ∷ []) (lane.new ∷ [])) }
    ensures refused { IfErr result (λ e. IsAskedSome workers e (lane.old ∷ []) (lane.new ∷ [])) }
{
    let mut steps = Steps::<Proposals>::new();
    Mapper::<J>::open(
        rt,
        alloc,
        history,
        topology,
        workers,
        &mut lane.door,
        &mut steps,
    )
}

/// Maps a topology, and opens the cell with that map and a place for each worker, by the door of this one lane.
fn open_first<J: Naming, R: Wait, P: Port, G: Gate, D: Door>(
    rt: &R,
    alloc: Global,
    history: EmptyHistory,
    topology: Topology,
    workers: u8,
    lanes: &mut [Lane<P, G, D>],
) -> Result<(Mapper<J>, Vec<Viewer<J>>), OpenFault>
    requires book { history ≡ J.book }
    requires workers { workers ≤ 16 }
    requires lanes { length lanes.old ≡ 1 }
    ensures mapper { IfOk result (λ r. IsFirst topology r.0) }
    ensures scratch { IfOk result (λ r. IsFromScratch topology.market r.0.newest.lines) }
    ensures viewers { IfOk result (λ r. (vec_len r.1 ≡ workers)
        × All (λ v. (v.seen ≡ r.0.history) × (v.heard ≡ r.0.history)) r.1.items) }
    ensures length { length lanes.new ≡ length lanes.old }
    ensures asked { IfOk result (λ _. PlacedFirst workers lanes.old lanes.new) }
    ensures refused { IfErr result (λ e. IsAskedSome workers e lanes.old lanes.new) }
{
    open_by::<J, R, P, G, D>(rt, alloc, history, topology, workers, &mut lanes[0])
}

/// Maps a topology, and opens the cell with that map and a place for each worker, by the door of the first lane.
fn open_mapper<J: Naming, R: Wait, P: Port, G: Gate, D: Door>(
    rt: &R,
    alloc: Global,
    history: EmptyHistory,
    topology: Topology,
    workers: u8,
    lanes: &mut [Lane<P, G, D>],
) -> Result<(Mapper<J>, Vec<Viewer<J>>), OpenFault>
    requires book { history ≡ J.book }
    requires workers { workers ≤ 16 }
    requires lanes { 1 ≤ length lanes.old }
    ensures mapper { IfOk result (λ r. IsFirst topology r.0) }
    ensures scratch { IfOk result (λ r. IsFromScratch topology.market r.0.newest.lines) }
    ensures viewers { IfOk result (λ r. (vec_len r.1 ≡ workers)
        × All (λ v. (v.seen ≡ r.0.history) × (v.heard ≡ r.0.history)) r.1.items) }
    ensures length { length lanes.new ≡ length lanes.old }
    ensures asked { IfOk result (λ _. PlacedFirst workers lanes.old lanes.new) }
    ensures refused { IfErr result (λ e. IsAskedSome workers e lanes.old lanes.new) }
{
    let (first, _others) = lanes.split_at_mut(1);
    open_first::<J, R, P, G, D>(rt, alloc, history, topology, workers, first)
}

fn lanes_of(service: &Service<'_>) -> u8
    requires { service.now.workers ≤ most_workers service.now.tcp }
    ensures { result ≡ lanes_of (service_asked service.now) }
{
    match service.tcp {
        Some(_) => service.workers + 1,
        None => service.workers,
    }
}

fn count_of(names: &[Option<&str>]) -> usize
    ensures count { result ≡ length (given (map (option_map (λ n. n.now)) names.now)) }
    ensures few { result ≤ length names.now }
{
    let Some((first, rest)) = names.split_first() else {
        return 0;
    };
    match first {
        Some(_) => 1 + count_of(rest),
        None => count_of(rest),
    }
}

/// The viewers of the lanes for datagrams, and that of the lane for conversations, where there is one.
fn split_viewers<J: Naming>(
    viewers: Vec<Viewer<J>>,
    tcp: &Option<Listen>,
) -> (Vec<Viewer<J>>, Option<Viewer<J>>)
    requires { streams_of tcp.now ≤ vec_len viewers }
    ensures count { vec_len result.0 + streams_of tcp.now ≡ vec_len viewers }
    ensures asked { length (option_to_list result.1) ≡ streams_of tcp.now }
    ensures same { (h : List Version) → All (λ v. (v.seen ≡ h) × (v.heard ≡ h)) viewers.items
        → All (λ v. (v.seen ≡ h) × (v.heard ≡ h)) result.0.items
        × IfSome result.1 (λ v. (v.seen ≡ h) × (v.heard ≡ h)) }
{
    let mut viewers = viewers;
    let listener = match tcp {
        Some(_) => viewers.pop(),
        None => None,
    };
    (viewers, listener)
}

/// Opens the ports, the streams and the further feeds, puts the first map's text, and drives. It closes the mapper.
fn serve_first<
    J: Naming + Send + Sync,
    R: Threads + Wait + Sync,
    S: Source + Send,
    N: NamedSource + Send,
    K: Sink,
    P: Port + Send,
    Q: Streams + Send,
    G: Gate + Send,
    D: Door + Send,
    M: Pace,
>(
    rt: &R,
    alloc: Global,
    crew: Crew<J>,
    service: &Service<'_>,
    lent: &mut Lent<'_, '_, '_, '_, '_, '_, S, N, K, P, G, D, M>,
    stream: &mut StreamLane<Q, G, D>,
) -> Status
    requires serial { crew.mapper.newest.serial ≡ 0 }
    requires viewers { (vec_len crew.viewers + streams_of service.now.tcp
        ≡ lanes_of (service_asked service.now)) × All (λ v. (v.seen ≡ crew.mapper.history)
        × (v.heard ≡ crew.mapper.history)) crew.viewers.items }
    requires listener { (length (option_to_list crew.listener) ≡ streams_of service.now.tcp)
        × IfSome crew.listener (λ v. (v.seen ≡ crew.mapper.history)
        × (v.heard ≡ crew.mapper.history)) }
    requires workers { (service.now.workers ≤ most_workers service.now.tcp)
        × (service.now.workers ≤ length lent.old.lanes.now) }
    requires turns { lent.old.turns ≤ MOST_TURNS }
    requires feeds { length lent.old.more.now ≡ 3 }
    ensures keeps { IsSameLent lent.old lent.new }
    ensures served { IsFirstSession lent.old.turns (service_asked service.now) crew.mapper.newest
        (lent_of S.told N.told K.told M.told lent.old stream.old)
        (lent_of S.told N.told K.told M.told lent.new stream.new)
        result }
{
    match start_lanes(
        crew.mapper.text(),
        service,
        lent.more,
        lent.maps,
        lent.lanes,
        stream,
    ) {
        Start::NoPort => {
            crew.close(rt);
            Status::PortFault
        }
        Start::NoFeed => {
            crew.close(rt);
            Status::SourceFault
        }
        Start::NoSink => {
            crew.close(rt);
            Status::SinkFault
        }
        Start::Ready => {
            let more = &mut *lent.more;
            let (opened, _shut) = more.split_at_mut(count_of(&service.more));
            let count = lent.lanes.len();
            let lanes = &mut *lent.lanes;
            let (all, _none) = lanes.split_at_mut(count);
            let mut asked = Lent {
                feed: lent.feed,
                more: opened,
                out: lent.out,
                maps: lent.maps,
                lanes: all,
                pace: lent.pace,
                turns: lent.turns,
            };
            match drive(rt, alloc, crew, &mut asked, stream) {
                Ok(end) => status_of(end.feed, &end.lanes, end.stream),
                Err(NoMemory) => Status::NoMemory,
            }
        }
    }
}

/// What a session begins with: the history of a cell of its own, and the topology.
#[derive(Drop)]
struct Beginning {
    history: EmptyHistory,
    topology: Topology,
}

/// A session over a topology, in a cell of its own.
fn serve_topology<
    J: Naming + Send + Sync,
    R: Threads + Wait + Sync,
    S: Source + Send,
    N: NamedSource + Send,
    K: Sink,
    P: Port + Send,
    Q: Streams + Send,
    G: Gate + Send,
    D: Door + Send,
    M: Pace,
>(
    rt: &R,
    alloc: Global,
    beginning: Beginning,
    service: &Service<'_>,
    lent: &mut Lent<'_, '_, '_, '_, '_, '_, S, N, K, P, G, D, M>,
    stream: &mut StreamLane<Q, G, D>,
) -> Status
    requires book { beginning.history ≡ J.book }
    requires workers { (service.now.workers ≤ most_workers service.now.tcp)
        × (service.now.workers ≤ length lent.old.lanes.now) × (1 ≤ length lent.old.lanes.now) }
    requires turns { lent.old.turns ≤ MOST_TURNS }
    requires feeds { length lent.old.more.now ≡ 3 }
    ensures keeps { IsSameLent lent.old lent.new }
    ensures session { IsSession lent.old.turns (service_asked service.now) beginning.topology
        (lent_of S.told N.told K.told M.told lent.old stream.old)
        (lent_of S.told N.told K.told M.told lent.new stream.new)
        result }
{
    let Beginning { history, topology } = beginning;
    match open_mapper::<J, R, P, G, D>(
        rt,
        alloc,
        history,
        topology,
        lanes_of(service),
        lent.lanes,
    ) {
        Ok((mapper, viewers)) => {
            let (viewers, listener) = split_viewers(viewers, &service.tcp);
            let crew = Crew {
                mapper,
                viewers,
                listener,
            };
            serve_first(rt, alloc, crew, service, lent, stream)
        }
        Err(fault) => status_of_opening(fault),
    }
}

/// Serves the topology of a file: publishes its first map and those that the feeds lead to, beside lanes that answer from them.
pub fn serve<
    R: Threads + Wait + Sync,
    F: Shelf,
    S: Source + Send,
    N: NamedSource + Send,
    K: Sink,
    P: Port + Send,
    Q: Streams + Send,
    G: Gate + Send,
    D: Door + Send,
    M: Pace,
>(
    rt: &R,
    alloc: Global,
    service: &Service<'_>,
    files: &mut F,
    lent: &mut Lent<'_, '_, '_, '_, '_, '_, S, N, K, P, G, D, M>,
    stream: &mut StreamLane<Q, G, D>,
) -> Status
    requires workers { (1 ≤ service.now.workers)
        × (service.now.workers ≤ most_workers service.now.tcp) }
    requires lanes { length lent.old.lanes.now ≡ 16 }
    requires turns { lent.old.turns ≤ MOST_TURNS }
    requires feeds { length lent.old.more.now ≡ 3 }
    ensures keeps { IsSameLent lent.old lent.new }
    ensures promised { IsPromised lent.old.turns (Some (task (service_asked service.now)))
        (told_over F.told S.told N.told K.told M.told
        files.old lent.old stream.old)
        (told_over F.told S.told N.told K.told M.told
        files.new lent.new stream.new)
        result }
{
    match load_topology(alloc, files, service.topology) {
        Ok(topology) => {
            let beginning = Beginning {
                history: EmptyHistory::new(),
                topology,
            };
            serve_topology::<Brand, R, S, N, K, P, Q, G, D, M>(
                rt, alloc, beginning, service, lent, stream,
            )
        }
        Err(stop) => finish(lent.out, Err(stop)),
    }
}
