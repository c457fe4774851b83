//! Cells over the example: looks that follow publishes, doors that refuse, and a viewer beside a publisher.
ghost use Rattle.std.specs.Prelude.{◌≡◌, ◌+◌, ◌<◌, ◌^◌, IfSome};
ghost use Rattle.map_model.specs.Market.{IsSameShape};
ghost use Rattle.map_model.specs.Allocation.{IsGood};
ghost use Rattle.published_map.specs.Version.{IsVersion};
ghost use Rattle.std.specs.Thread.{IsSend, IsSync};
ghost use Rattle.map_cell_tests.specs.Examples.{AreGood, IsOf, IsReady};

use map_cell::{
    Door, EmptyHistory, MemDoor, Naming, OpenFault, PlainDoor, Publisher, Viewer, open,
};
use map_model::{GroupId, Instance};
use published_map::{Delta, MapVersion};
use std::alloc::Global;
use std::marker::Brand;
use std::sync::Wait;
use std::sync::atomic::AtomicU64;
use std::sync::atomic::Ordering::SeqCst;
use std::test::Fail;
use std::thread::{self, Threads, join_mut};
use topology_text::{Topology, read_topology};
use world_versions::{GoodMap, example, example_of_four, version_of};
use worlds::EXAMPLE_TREE;

mod rows;

const G2: GroupId = GroupId(1);

/// The example, and the same where the second group asks for four units, which then are all placed.
#[derive(Drop)]
struct Worlds {
    old: GoodMap,
    new: GoodMap,
}

/// What has a shape with another is of the other's shape.
fn check_shape(old: &Instance, new: &Instance)
    requires { IsSameShape old.now new.now }
    ensures { IsSameShape new.now old.now }
{
    let _ = (old.groups(), new.groups());
}

/// The example of a topology and what it becomes, with their good maps.
fn worlds_of(alloc: Global, topology: &Topology) -> Option<Worlds>
    ensures first { IfSome result (λ w. w.old.instance ≡ topology.now.market) }
    ensures good { IfSome result (λ w. AreGood w.old w.new) }
{
    match (example(alloc, topology), example_of_four(alloc, topology)) {
        (Some(old), Some(new)) => {
            check_shape(&old.instance, &new.instance);
            Some(Worlds { old, new })
        }
        _ => None,
    }
}

/// The first version of the example, and what it becomes.
fn first_of(alloc: Global, topology: Topology) -> Option<(MapVersion, Worlds)>
    ensures first { IfSome result (λ r. IsOf r.1.old r.0 × (r.0.serial ≡ 0)) }
    ensures good { IfSome result (λ r. AreGood r.1.old r.1.new) }
{
    match worlds_of(alloc, &topology) {
        None => None,
        Some(worlds) => {
            let old = &worlds.old;
            match version_of(alloc, 0, topology, &old.instance, &old.map) {
                None => None,
                Some(version) => Some((version, worlds)),
            }
        }
    }
}

/// The same, of the example.
fn first_version(alloc: Global) -> Option<(MapVersion, Worlds)>
    ensures first { IfSome result (λ r. IsOf r.1.old r.0 × (r.0.serial ≡ 0)) }
    ensures good { IfSome result (λ r. AreGood r.1.old r.1.new) }
{
    match read_topology(alloc, EXAMPLE_TREE.as_bytes()) {
        Err(_) => None,
        Ok(topology) => first_of(alloc, topology),
    }
}

/// What a look shows: the serial, and of the second group the demand and the units at its two places.
#[derive(Clone, Copy, PartialEq, Eq)]
struct Sight {
    serial: u64,
    demand: u32,
    at_first: u32,
    at_second: u32,
}

fn sight_of(version: &MapVersion) -> Sight
    requires { IsVersion version.now }
{
    let mut sight = Sight {
        serial: version.serial(),
        demand: 0,
        at_first: 0,
        at_second: 0,
    };
    if version.groups() == 2 {
        sight.demand = version.demand(G2);
        let amounts = version.amounts(G2);
        if let [first, second] = amounts.as_slice() {
            sight.at_first = *first;
            sight.at_second = *second;
        }
    }
    sight
}

fn look<J: Naming, D: Door>(door: &mut D, viewer: &mut Viewer<J>) -> Option<Sight> {
    door.look(
        viewer,
        |m: &MapVersion| -> Sight
            requires { IsVersion m.now }
        { sight_of(m) },
    )
    .ok()
}

/// Publishes what changes from one map to another.
fn publish_to<J: Naming, R: Wait>(
    rt: &R,
    alloc: Global,
    publisher: &mut Publisher<J>,
    old: &GoodMap,
    new: &GoodMap,
) -> Option<u64>
    requires newest { IsOf old.now publisher.old.newest }
    requires good { IsGood new.now.instance new.now.map.lines.items new.now.map.names.items }
    requires shape { IsSameShape old.now.instance new.now.instance }
    requires room { publisher.old.newest.serial < 2 ^ 32 }
    ensures newest { IfSome result (λ s. IsOf new.now publisher.new.newest
        × (publisher.new.newest.serial ≡ s)) }
    ensures serial { IfSome result (λ s. s ≡ publisher.old.newest.serial + 1) }
{
    let _ = (old.instance.groups(), new.instance.groups());
    let base = publisher.newest().serial();
    let Ok(delta) = Delta::between(
        alloc,
        base,
        &old.instance,
        &old.map,
        &new.instance,
        &new.map,
    ) else {
        return None;
    };
    match publisher.publish(rt, delta) {
        Ok(serial) => Some(serial),
        Err(_) => None,
    }
}

/// What two looks show, one before and one after a publish of which the viewer was told, and what it knew between them.
fn looks<J: Naming, R: Wait, D: Door>(
    rt: &R,
    alloc: Global,
    publisher: &mut Publisher<J>,
    viewer: &mut Viewer<J>,
    door: &mut D,
    worlds: &Worlds,
) -> Option<(Sight, u64, Sight)>
    requires newest { IsOf worlds.now.old publisher.old.newest × (publisher.old.newest.serial ≡ 0) }
    requires good { AreGood worlds.now.old worlds.now.new }
{
    match look(door, viewer) {
        None => None,
        Some(first) => match publish_to(rt, alloc, publisher, &worlds.old, &worlds.new) {
            None => None,
            Some(_) => {
                door.learn(viewer, &publisher.note());
                let known = viewer.known();
                match look(door, viewer) {
                    None => None,
                    Some(second) => Some((first, known, second)),
                }
            }
        },
    }
}

/// The same, of the last of some viewers.
fn looks_of<J: Naming, R: Wait, D: Door>(
    rt: &R,
    alloc: Global,
    publisher: &mut Publisher<J>,
    viewers: Vec<Viewer<J>>,
    door: &mut D,
    worlds: &Worlds,
) -> Option<(Sight, u64, Sight)>
    requires newest { IsOf worlds.now.old publisher.old.newest × (publisher.old.newest.serial ≡ 0) }
    requires good { AreGood worlds.now.old worlds.now.new }
{
    let mut viewers = viewers;
    match viewers.pop() {
        None => None,
        Some(viewer) => {
            let mut viewer = viewer;
            looks(rt, alloc, publisher, &mut viewer, door, worlds)
        }
    }
}

/// The same, of a cell of the example that is opened by the door with one viewer, and closed.
fn opened<J: Naming, R: Wait, D: Door>(
    rt: &R,
    alloc: Global,
    history: EmptyHistory,
    door: &mut D,
) -> Result<Option<(Sight, u64, Sight)>, OpenFault>
    requires { history ≡ J.book }
{
    match first_version(alloc) {
        None => Ok(None),
        Some((version, worlds)) => {
            match open::<J, D, R>(rt, alloc, history, version, 1, door) {
                Err(fault) => Err(fault),
                Ok((publisher, viewers)) => {
                    let mut publisher = publisher;
                    let seen = looks_of(rt, alloc, &mut publisher, viewers, door, &worlds);
                    publisher.close(rt);
                    Ok(seen)
                }
            }
        }
    }
}

/// The same, of a history of its own.
fn seen_by<R: Wait, D: Door>(
    rt: &R,
    alloc: Global,
    door: &mut D,
) -> Result<Option<(Sight, u64, Sight)>, OpenFault> {
    opened::<Brand, R, D>(rt, alloc, EmptyHistory::new(), door)
}

/// The example as a look shows it.
const OLD: Sight = Sight {
    serial: 0,
    demand: 8,
    at_first: 2,
    at_second: 5,
};

const NEW: Sight = Sight {
    serial: 1,
    demand: 4,
    at_first: 2,
    at_second: 2,
};

#[test]
fn looks_follow_publishes(rt: HostRuntime) -> Result<(), Fail> {
    let mut door = PlainDoor::new();
    let seen = seen_by(&rt, rt.alloc(), &mut door);
    assert!(rt; seen == Ok(Some((OLD, 1, NEW))));
    Ok(())
}

/// A door that refuses its first place, and one that refuses its second look.
#[test]
fn doors_refuse(rt: HostRuntime) -> Result<(), Fail> {
    let first = Vec::from_slice(rt.alloc(), [0].as_slice())?;
    let mut door = MemDoor::new(first, Vec::new(rt.alloc()));
    let seen = seen_by(&rt, rt.alloc(), &mut door);
    assert!(rt; seen == Err(OpenFault::CellFault));
    let second = Vec::from_slice(rt.alloc(), [1].as_slice())?;
    let mut door = MemDoor::new(Vec::new(rt.alloc()), second);
    let seen = seen_by(&rt, rt.alloc(), &mut door);
    assert!(rt; seen == Ok(None));
    Ok(())
}

/// How many times two maps follow each other, and how often the publisher waits until the viewer has come as far.
const ROUNDS: u64 = 5_000;

const ROUNDS_BETWEEN_WAITS: u64 = 40;

const MOST_YIELDS: u64 = 20_000_000;

/// Waits until the viewer has seen that serial, or for long enough.
fn wait_for(shown: &AtomicU64, serial: u64) {
    for _ in 0..MOST_YIELDS {
        if shown.load(SeqCst) >= serial {
            return;
        }
        thread::yield_now();
    }
}

/// Publishes the one map and then the other.
fn publish_both<J: Naming, R: Wait>(
    rt: &R,
    alloc: Global,
    publisher: &mut Publisher<J>,
    worlds: &Worlds,
) -> Option<u64>
    requires newest { IsOf worlds.now.old publisher.old.newest }
    requires room { publisher.old.newest.serial + 1 < 2 ^ 32 }
    requires worlds { AreGood worlds.now.old worlds.now.new }
    ensures newest { IfSome result (λ s. IsOf worlds.now.old publisher.new.newest
        × (publisher.new.newest.serial ≡ s)) }
    ensures serial { IfSome result (λ s. s ≡ publisher.old.newest.serial + 2) }
{
    match publish_to(rt, alloc, publisher, &worlds.old, &worlds.new) {
        None => None,
        Some(_) => publish_to(rt, alloc, publisher, &worlds.new, &worlds.old),
    }
}

/// Publishes both maps again and again.
fn publish_all<J: Naming, R: Wait>(
    rt: &R,
    alloc: Global,
    publisher: &mut Publisher<J>,
    worlds: &Worlds,
    shown: &AtomicU64,
) -> bool
    requires { IsReady worlds.now.old worlds.now.new publisher.old.newest }
{
    for round in 0..ROUNDS {
        let Some(serial) = publish_both(rt, alloc, publisher, worlds) else {
            return false;
        };
        if round % ROUNDS_BETWEEN_WAITS == 0 {
            wait_for(shown, serial);
        }
    }
    true
}

/// Whether a look is at one of the two maps, of no serial below the last.
fn is_whole(sight: Sight, last: u64) -> bool {
    let expected = if sight.serial % 2 == 0 { OLD } else { NEW };
    let there = Sight {
        serial: expected.serial,
        ..sight
    };
    there == expected && sight.serial >= last
}

/// Looks until the last map is there, and tells how many serials it has seen; none where a look is refused or not whole.
fn look_all<J: Naming, D: Door>(
    viewer: &mut Viewer<J>,
    door: &mut D,
    shown: &AtomicU64,
) -> Option<u32> {
    let mut last = 0;
    let mut serials = 1u32;
    for _ in 0..u64::MAX {
        let sight = look(door, viewer)?;
        if !is_whole(sight, last) {
            return None;
        }
        if sight.serial > last {
            serials = serials.saturating_add(1);
            last = sight.serial;
            shown.store(last, SeqCst);
        }
        if last == 2 * ROUNDS {
            return Some(serials);
        }
    }
    None
}

/// One that publishes, beside one that looks.
trait Publishes {
    ghost ready: { Self → Type 0 };

    fn publish_all<R: Wait>(&mut self, rt: &R, shown: &AtomicU64) -> bool
        requires { ready self.old };
}

struct Feeder<J: Naming> {
    alloc: Global,
    publisher: Publisher<J>,
    worlds: Worlds,
}

impl<J: Naming> Publishes for Feeder<J> {
    ghost use Rattle.map_cell_tests.specs.Examples.{IsReady};

    ghost ready = { λ f. IsReady f.worlds.old f.worlds.new f.publisher.newest };

    fn publish_all<R: Wait>(&mut self, rt: &R, shown: &AtomicU64) -> bool {
        publish_all(rt, self.alloc, &mut self.publisher, &self.worlds, shown)
    }
}

/// One that looks.
trait Watches {
    fn look_all(&mut self, shown: &AtomicU64) -> Option<u32>;
}

#[derive(Drop)]
struct Watcher<J: Naming> {
    viewer: Viewer<J>,
    door: PlainDoor,
}

impl<J: Naming> Watches for Watcher<J> {
    fn look_all(&mut self, shown: &AtomicU64) -> Option<u32> {
        look_all(&mut self.viewer, &mut self.door, shown)
    }
}

/// Lets both run at once: whether all was published, and a hundred serials or more were seen.
fn run_both<P: Publishes, W: Watches + Send, R: Wait + Threads + Sync>(
    rt: &R,
    feeder: &mut P,
    watcher: &mut W,
    shown: &AtomicU64,
) -> bool
    requires { P.ready feeder.old }
{
    let mut looking = || -> bool
        requires { IsSync R.row × IsSend W.row }
    { look_beside(rt, watcher, shown) };
    let mut publishing = || -> bool
        requires { IsSync R.row × P.ready feeder.now }
    { feeder.publish_all(rt, shown) };
    let (looked, published) = join_mut(rt, &mut looking, &mut publishing);
    looked && published
}

/// Whether a hundred serials or more were seen.
fn look_beside<W: Watches, R: Wait>(_rt: &R, watcher: &mut W, shown: &AtomicU64) -> bool {
    match watcher.look_all(shown) {
        Some(serials) => serials >= 100,
        None => false,
    }
}

/// The same for the last of some viewers, and the cell is closed.
fn fed_beside<J: Naming + Send + Sync, R: Wait + Threads + Sync>(
    rt: &R,
    feeder: Feeder<J>,
    viewers: Vec<Viewer<J>>,
    door: PlainDoor,
) -> bool
    requires { IsReady feeder.worlds.old feeder.worlds.new feeder.publisher.newest }
{
    let mut feeder = feeder;
    let mut viewers = viewers;
    let mut ran = false;
    if let Some(viewer) = viewers.pop() {
        let mut watcher = Watcher { viewer, door };
        let shown = AtomicU64::new(0);
        ran = run_both(rt, &mut feeder, &mut watcher, &shown);
    }
    let Feeder {
        alloc: _,
        publisher,
        worlds: _,
    } = feeder;
    publisher.close(rt);
    ran
}

/// The same over a cell of the example.
fn opened_beside<J: Naming + Send + Sync, R: Wait + Threads + Sync>(
    rt: &R,
    alloc: Global,
    history: EmptyHistory,
) -> bool
    requires { history ≡ J.book }
{
    match first_version(alloc) {
        None => false,
        Some((version, worlds)) => {
            let mut door = PlainDoor::new();
            match open::<J, PlainDoor, R>(rt, alloc, history, version, 1, &mut door) {
                Err(_) => false,
                Ok((publisher, viewers)) => {
                    let feeder = Feeder {
                        alloc,
                        publisher,
                        worlds,
                    };
                    fed_beside(rt, feeder, viewers, door)
                }
            }
        }
    }
}

/// The same, of a history of its own.
fn beside<R: Wait + Threads + Sync>(rt: &R, alloc: Global) -> bool {
    opened_beside::<Brand, R>(rt, alloc, EmptyHistory::new())
}

/// A publisher of ten thousand maps, and beside it a viewer that looks all the time: serials never fall, and each look
/// is at one map.
#[test]
fn looks_beside_publishes(rt: HostRuntime) -> Result<(), Fail> {
    assert!(rt; beside(&rt, rt.alloc()));
    Ok(())
}
