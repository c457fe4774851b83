//! A run over a large world.
ghost use Rattle.std.specs.Prelude.{◌≡◌, ◌<◌, ◌≤◌, ◌+◌, ◌-◌, ◌^◌, IfOk, OnOk, length};
ghost use Rattle.big_world.specs.Topology.{topology_of};
ghost use Rattle.big_world.specs.declared.TheConstants.{LARGEST_WORLD};
ghost use Rattle.big_world_read.specs.Read.{world_plan};
ghost use Rattle.topology_text.specs.Plan.{Plan};
ghost use Rattle.text_parts.specs.Parts.{whole_lines};
ghost use Rattle.demand_feed.specs.Task.{tasks};
ghost use Rattle.demand_feed.specs.Taking.{AllDo};
ghost use Rattle.mapper.specs.Mappers.{IsFirst};
ghost use Rattle.big_run.specs.Publishing.{TaskPublishes};
ghost use Rattle.big_run.specs.Runs.{IsWorldRun, summary_of};

use crate::judge::Judge;
use crate::replies::count_replies;
use crate::summary::Summary;
use crate::work::take_lines;
use big_world::make;
use demand_feed::Clerk;
use dns_wire::numbers::{NOERROR, SERVFAIL};
use map_cell::{EmptyHistory, Naming, OpenFault, PlainDoor};
use map_model::{Proposals, Steps};
use mapper::Mapper;
use no_memory::NoMemory;
use std::alloc::Global;
use std::sync::{Arc, Wait};
use topology_text::{Topology, TopologyFault, read_topology};

/// What the newest map of a run comes to, of so many groups.
fn summary<J: Naming>(mapper: &Mapper<J>, groups: u32, good: u64, proposals: u64) -> Summary
    requires groups { groups ≤ LARGEST_WORLD }
    requires good { good ≡ mapper.now.newest.serial + 1 }
    requires last { mapper.now.newest.serial < 2 ^ 64 - 1 }
    ensures { (t : Plan) → length mapper.now.newest.market.nodes ≡ length t.market.nodes
        → result ≡ summary_of groups t mapper.now proposals }
{
    let (instance, _) = mapper.newest_map();
    Summary {
        groups,
        nodes: instance.nodes(),
        maps: mapper.newest() + 1,
        good,
        totals: mapper.totals(),
        proposals,
        answered: count_replies(mapper, groups, NOERROR),
        servfail: count_replies(mapper, groups, SERVFAIL),
    }
}

/// Works the feed from the first map on.
fn work<J: Naming, R: Wait>(
    rt: &R,
    alloc: Global,
    mapper: &mut Mapper<J>,
    feed: &[u8],
    groups: u32,
    proposals: u64,
) -> Result<Summary, NoMemory>
    requires first { IsFirst mapper.old.newest.plan mapper.old }
    requires length { length feed.now < 2 ^ 63 }
    requires groups { groups ≤ LARGEST_WORLD }
    ensures done { OnOk result (AllDo
        TaskPublishes (tasks mapper.old.newest.plan (whole_lines feed.now)) mapper.old mapper.new) }
    ensures sums { IfOk result (λ s.
        s ≡ summary_of groups mapper.old.newest.plan mapper.new proposals) }
{
    let topology = Arc::try_clone(mapper.topology())?;
    let mut judge = Judge::new(alloc, mapper.newest_map().0)?;
    let mut clerk = Clerk::new(alloc)?;
    judge.check_newest(mapper);
    take_lines(rt, &topology, feed, &mut clerk, mapper, &mut judge)?;
    Ok(summary(mapper, groups, judge.good(), proposals))
}

/// The topology of the world of so many groups, from its text. No fault is in it.
fn read_world(alloc: Global, text: &[u8], groups: u32) -> Result<Topology, NoMemory>
    requires some { 1 ≤ groups }
    requires most { groups ≤ LARGEST_WORLD }
    requires text { text.now ≡ topology_of groups }
    ensures { IfOk result (λ t. t ≡ world_plan groups) }
{
    match read_topology(alloc, text) {
        Ok(topology) => Ok(topology),
        Err(fault) => match fault {
            TopologyFault::NoMemory => Err(NoMemory),
            _ => unreachable!(),
        },
    }
}

/// Makes the world of so many groups, maps it, and works its feed. Each map is checked, and the last one is asked for each group.
///
/// # Errors
///
/// Want of memory alone: the world's topology has no fault, and no viewer is asked for.
pub fn run_world<J: Naming, R: Wait>(
    rt: &R,
    alloc: Global,
    history: EmptyHistory,
    groups: u32,
) -> Result<Summary, NoMemory>
    requires book { history ≡ J.book }
    requires some { 1 ≤ groups }
    requires most { groups ≤ LARGEST_WORLD }
    ensures { IfOk result (IsWorldRun groups) }
{
    let (topology, feed) = make(alloc, groups)?;
    let topology = read_world(alloc, topology.as_slice(), groups)?;
    let mut door = PlainDoor::new();
    let mut proposals = Steps::<Proposals>::new();
    let mut mapper = match Mapper::<J>::open(
        rt,
        alloc,
        history,
        topology,
        0,
        &mut door,
        &mut proposals,
    ) {
        Ok((mapper, _)) => mapper,
        Err(OpenFault::NoMemory) => return Err(NoMemory),
        Err(OpenFault::CellFault) => unreachable!(),
    };
    let done = work(
        rt,
        alloc,
        &mut mapper,
        feed.as_slice(),
        groups,
        proposals.count(),
    );
    mapper.close(rt);
    done
}
