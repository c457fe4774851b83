//! The machine over the example: events worked by hand, and all orders of three commits, two tells and three takes.
ghost use Rattle.std.specs.Prelude.{◌≡◌, true, length, IfSome, IsTrue};
ghost use Rattle.map_model.specs.Batch.{IsBatch};
ghost use Rattle.published_map.specs.Version.{IsVersion, Version};
ghost use Rattle.demand_feed.specs.Changing.{IsChangeLine};
ghost use Rattle.serve_core.specs.Events.{IsEventFor, newest_of};

use super::World;
use crate::{Event, Octets, StepFault};
use addr_text::{Addr, Peer};
use answer_core::Way;
use demand_feed::{Batch, Line};
use map_model::{GroupId, MapLines};
use stable_check::Verdict;
use std::alloc::Global;
use std::test::Fail;
use topology_text::{Topology, read_topology};
use world_versions::first_version;
use worlds::{EXAMPLE_TREE, NameAt, Placed, map_of};

/// A client of the second group.
const CLIENT: Peer = Peer {
    addr: Addr::V4(0xc633_6407),
    port: 5353,
};

/// A query of type A for www.cdn.example.
const QUERY: &[u8] = &[
    0x12, 0x34, 1, 0, 0, 1, 0, 0, 0, 0, 0, 0, 3, b'w', b'w', b'w', 3, b'c', b'd', b'n', 7, b'e',
    b'x', b'a', b'm', b'p', b'l', b'e', 0, 0, 1, 0, 1,
];

/// A map of the example: the good one where the second group asks for 4 units, two of which the first pool refuses; that where it asks for 8, as at first; and one that gives it 6 units.
#[derive(Clone, Copy)]
enum Which {
    OfFour,
    OfEight,
    OfSix,
}

/// The map.
fn map_by(alloc: Global, which: Which) -> Option<MapLines> {
    let (lines, names): (&[Placed], &[NameAt]) = match which {
        Which::OfFour => (&[(0, 0, 8), (1, 0, 2), (1, 1, 2)], &[(1, 0, 1)]),
        Which::OfEight => (&[(0, 0, 8), (1, 0, 2), (1, 1, 5)], &[(1, 0, 1), (1, 1, 0)]),
        Which::OfSix => (&[(0, 0, 8), (1, 0, 2), (1, 1, 4)], &[(1, 0, 1)]),
    };
    map_of(alloc, lines, names).ok()
}

/// What is tried: a commit of the second group's demand, or of nothing where that is 0, with a map; a tell of a lane; a take of a lane.
#[derive(Clone, Copy)]
enum Try {
    Commit(u32, Which),
    Tell(u8, u64),
    Take(u8, u64),
}

/// A batch of that demand, or an empty one.
fn batch_of(alloc: Global, topology: &Topology, demand: u32) -> Option<Batch>
    ensures { IfSome result (IsBatch topology.now.market) }
{
    let Ok(mut batch) = Batch::new(alloc) else {
        return None;
    };
    if demand > 0 {
        let line = Line::Demand {
            group: b"g2",
            number: u64::from(demand),
        };
        match batch.add(topology, &line) {
            Ok(()) => {}
            Err(_) => return None,
        }
    }
    Some(batch)
}

/// The octets of the query.
fn query(alloc: Global) -> Option<Octets> {
    Some(Octets::new(Vec::from_slice(alloc, QUERY).ok()?))
}

/// What is tried, as an event.
fn event_of(alloc: Global, topology: &Topology, tried: Try) -> Option<Event>
    ensures { IfSome result (IsEventFor topology.now.market) }
{
    match tried {
        Try::Commit(demand, which) => {
            let batch = batch_of(alloc, topology, demand)?;
            let map = map_by(alloc, which)?;
            Some(Event::Commit(batch, map))
        }
        Try::Tell(lane, serial) => Some(Event::Tell(lane, serial)),
        Try::Take(lane, serial) => Some(Event::Take(
            lane,
            query(alloc)?,
            CLIENT,
            serial,
            Way::Datagram,
        )),
    }
}

/// Whether an event's names are those of the newest version: it has as many groups and nodes as the topology.
fn fits(world: &World, topology: &Topology, event: &Event) -> bool
    requires { IsEventFor topology.now.market event.now }
    ensures { result ≡ true → (v : Version) → newest_of world.now.history ≡ Some v
        → IsEventFor v.market event.now }
{
    world.instance.groups() == topology.instance().groups()
        && world.instance.nodes() == topology.instance().nodes()
}

/// What comes of an event; nothing where it could not be made.
fn came_of(
    alloc: Global,
    world: &mut World,
    topology: &Topology,
    tried: Try,
) -> Option<Result<(), StepFault>> {
    let event = event_of(alloc, topology, tried)?;
    if !fits(world, topology, &event) {
        return None;
    }
    Some(world.step(event))
}

/// A machine of two lanes over the example.
fn opened(alloc: Global) -> Option<World> {
    let version = first_version(alloc)?;
    World::open(alloc, version, 2).ok()
}

/// Events one after the other, and what is answered to each.
const ROWS: [(Try, Result<(), StepFault>); 8] = [
    (Try::Commit(4, Which::OfFour), Ok(())),
    (Try::Tell(0, 1), Ok(())),
    (
        Try::Take(0, 0),
        Err(StepFault::Behind { serial: 0, seen: 1 }),
    ),
    (Try::Take(0, 1), Ok(())),
    (Try::Take(1, 0), Ok(())),
    (
        Try::Tell(1, 2),
        Err(StepFault::Ahead {
            serial: 2,
            newest: 1,
        }),
    ),
    (Try::Take(2, 1), Err(StepFault::NoLane)),
    (
        Try::Commit(0, Which::OfSix),
        Err(StepFault::NotGood(Verdict::OverDemand {
            group: GroupId(1),
            placed: 6,
        })),
    ),
];

/// Whether each row is answered so.
fn all_come(alloc: Global, world: &mut World, topology: &Topology) -> bool {
    for (tried, wanted) in ROWS {
        if came_of(alloc, world, topology, tried) != Some(wanted) {
            return false;
        }
    }
    true
}

/// How many datagrams a lane took, and the last octet of each reply.
fn is_lane(world: &World, lane: usize, taken: usize, pools: &[u8]) -> bool {
    match world.lanes.get(lane) {
        None => false,
        Some(row) => {
            row.taken.len() == taken
                && row
                    .tries
                    .iter()
                    .map(|t| t.octets.last().copied())
                    .eq(pools.iter().map(|p| Some(*p)))
        }
    }
}

/// The first lane's reply is of the map of four units, of which the draw takes the third; the second lane's is of the first map, of whose seven the draw takes the fifth: both are at the second pool.
#[test]
fn machine_events(rt: HostRuntime) -> Result<(), Fail> {
    let alloc = rt.alloc();
    let topology = read_topology(alloc, EXAMPLE_TREE.as_bytes()).map_err(|_| "no topology")?;
    let mut world = opened(alloc).ok_or("no machine")?;
    assert!(rt; all_come(alloc, &mut world, &topology));
    assert!(rt; is_lane(&world, 0, 1, &[2]));
    assert!(rt; is_lane(&world, 1, 1, &[2]));
    Ok(())
}

/// What the machine's answers are computed from: the newest serial, and the greatest that each lane used or was told of.
#[derive(Clone, Copy, Debug, PartialEq, Eq)]
struct Plain {
    newest: u64,
    seen: [u64; 2],
}

const FRESH: Plain = Plain {
    newest: 0,
    seen: [0, 0],
};

/// The three commits, the two tells and the three takes, each kind in its order.
const COMMITS: [Try; 3] = [
    Try::Commit(4, Which::OfFour),
    Try::Commit(8, Which::OfEight),
    Try::Commit(4, Which::OfFour),
];

const TELLS: [Try; 2] = [Try::Tell(0, 2), Try::Tell(1, 1)];

const TAKES: [Try; 3] = [Try::Take(0, 0), Try::Take(1, 2), Try::Take(0, 1)];

/// What is due of an event, and what is then so.
fn due(plain: &mut Plain, tried: Try) -> Result<(), StepFault> {
    let newest = plain.newest;
    match tried {
        Try::Commit(_, _) => {
            plain.newest = newest.saturating_add(1);
            Ok(())
        }
        Try::Tell(_, serial) | Try::Take(_, serial) if serial > newest => {
            Err(StepFault::Ahead { serial, newest })
        }
        Try::Tell(lane, serial) => {
            let seen = &mut plain.seen[(lane % 2) as usize];
            *seen = (*seen).max(serial);
            Ok(())
        }
        Try::Take(lane, serial) => {
            let seen = &mut plain.seen[(lane % 2) as usize];
            if serial < *seen {
                return Err(StepFault::Behind {
                    serial,
                    seen: *seen,
                });
            }
            *seen = serial;
            Ok(())
        }
    }
}

/// The events in the order that a number's eight digits to the base three say; none where they are not three, two and three.
fn order_of(number: u32) -> Option<[Try; 8]> {
    let mut order = [Try::Tell(0, 0); 8];
    let (mut commits, mut tells, mut takes) = (COMMITS.iter(), TELLS.iter(), TAKES.iter());
    let mut rest = number;
    for slot in &mut order {
        *slot = match rest % 3 {
            0 => *commits.next()?,
            1 => *tells.next()?,
            _ => *takes.next()?,
        };
        rest /= 3;
    }
    Some(order)
}

/// Whether the machine answers to these events as is due, and comes to what is due.
fn comes_as_due(alloc: Global, topology: &Topology, order: &[Try]) -> bool {
    let Some(mut world) = opened(alloc) else {
        return false;
    };
    let mut plain = FRESH;
    for tried in order {
        let wanted = due(&mut plain, *tried);
        if came_of(alloc, &mut world, topology, *tried) != Some(wanted) {
            return false;
        }
    }
    let seen = match world.lanes.as_slice() {
        [one, two] => [one.seen(), two.seen()],
        _ => return false,
    };
    plain
        == Plain {
            newest: world.newest(),
            seen,
        }
}

/// How many orders there are, and whether the machine answers to each as is due.
fn all_orders(alloc: Global, topology: &Topology) -> (u32, bool) {
    let mut count = 0u32;
    for number in 0..6_561u32 {
        if let Some(order) = order_of(number) {
            count = count.saturating_add(1);
            if !comes_as_due(alloc, topology, &order) {
                return (count, false);
            }
        }
    }
    (count, true)
}

/// Of eight events in three kinds of three, two and three there are 8! / (3! 2! 3!) = 560 orders.
#[test]
fn all_orders_of_events(rt: HostRuntime) -> Result<(), Fail> {
    let alloc = rt.alloc();
    let topology = read_topology(alloc, EXAMPLE_TREE.as_bytes()).map_err(|_| "no topology")?;
    assert!(rt; all_orders(alloc, &topology) == (560, true));
    Ok(())
}
