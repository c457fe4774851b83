//! The feed of a large world, worked by a mapper: each batch is published, and its map checked.
ghost use Rattle.std.specs.Prelude.{◌≡◌, ◌<◌, ◌≤◌, ◌+◌, ◌-◌, ◌^◌, ◌≢◌, [], ℕ, List, IfOk, OnOk, length, true, false};
ghost use Rattle.text_parts.specs.Parts.{whole_lines};
ghost use Rattle.demand_feed.specs.Task.{Ledger, Task, fresh, is_stop, tasks, step};
ghost use Rattle.demand_feed.specs.Taking.{AllDo};
ghost use Rattle.map_cell.specs.Ends.{PublisherState};
ghost use Rattle.map_model.specs.Batch.{IsBatch};
ghost use Rattle.mapper.specs.Mappers.{IsPublished};
ghost use Rattle.big_run.specs.Publishing.{LinePublishes, TaskPublishes};
ghost use Rattle.big_run.specs.Working.{IsAtWork, IsLineTaken};

use crate::judge::Judge;
use demand_feed::{Clerk, Next};
use map_cell::Naming;
use map_model::{Proposals, Steps};
use mapper::Mapper;
use no_memory::NoMemory;
use std::sync::Wait;
use text_parts::cut;
use topology_text::Topology;

/// Publishes the map that a batch leads to, and checks it.
fn publish<J: Naming, R: Wait>(
    rt: &R,
    clerk: &Clerk,
    mapper: &mut Mapper<J>,
    judge: &mut Judge,
) -> Result<(), NoMemory>
    requires ids { IsBatch mapper.old.newest.plan.market clerk.now.due }
    requires some { clerk.now.due ≢ [] }
    requires serial { mapper.old.newest.serial < 2 ^ 64 - 2 }
    requires room { judge.old.room ≡ record {
      groups = length mapper.old.newest.market.groups;
      nodes = length mapper.old.newest.market.nodes;
    } }
    requires good { judge.old.good ≡ mapper.old.newest.serial + 1 }
    ensures published { OnOk result (IsPublished mapper.old clerk.now.due mapper.new) }
    ensures room { OnOk result (judge.new.room ≡ judge.old.room) }
    ensures good { OnOk result (judge.new.good ≡ judge.old.good + 1) }
{
    let mut steps = Steps::<Proposals>::new();
    mapper.commit(rt, clerk.due(), &mut steps)?;
    judge.check_newest(mapper);
    Ok(())
}

/// Takes a line of the feed, and answers whether it goes on behind it.
fn take_line<J: Naming, R: Wait>(
    rt: &R,
    topology: &Topology,
    line: &[u8],
    clerk: &mut Clerk,
    mapper: &mut Mapper<J>,
    judge: &mut Judge,
) -> Result<bool, NoMemory>
    requires work { IsAtWork topology.now clerk.old mapper.old judge.old }
    requires number { clerk.old.ledger.number < 2 ^ 64 - 1 }
    requires serial { mapper.old.newest.serial < 2 ^ 64 - 2 }
    ensures work { OnOk result (IsAtWork topology.now clerk.new mapper.new judge.new) }
    ensures taken { IfOk result (λ goes_on. IsLineTaken
        topology.now line.now goes_on clerk.old.ledger clerk.new.ledger mapper.old mapper.new) }
    ensures number { OnOk result (clerk.new.ledger.number ≡ clerk.old.ledger.number + 1) }
    ensures serial { OnOk result (mapper.new.newest.serial ≤ mapper.old.newest.serial + 1) }
{
    match clerk.take(topology, line) {
        Next::Stop => Ok(false),
        Next::Batch => {
            publish(rt, clerk, mapper, judge)?;
            Ok(true)
        }
        _ => Ok(true),
    }
}

/// Takes the lines of a feed up to its end, or to the one that says so.
pub(crate) fn take_lines<J: Naming, R: Wait>(
    rt: &R,
    topology: &Topology,
    feed: &[u8],
    clerk: &mut Clerk,
    mapper: &mut Mapper<J>,
    judge: &mut Judge,
) -> Result<(), NoMemory>
    requires work { IsAtWork topology.now clerk.old mapper.old judge.old }
    requires fresh { clerk.old.ledger ≡ fresh }
    requires serial { mapper.old.newest.serial ≡ 0 }
    requires length { length feed.now < 2 ^ 63 }
    ensures work { OnOk result (IsAtWork topology.now clerk.new mapper.new judge.new) }
    ensures done { OnOk result
        (AllDo TaskPublishes (tasks topology.now (whole_lines feed.now)) mapper.old mapper.new) }
{
    let mut rest = feed;
    'lines: while let Some((line, behind)) = cut(rest, b'\n') {
        if !take_line(rt, topology, line, clerk, mapper, judge)? {
            return Ok(());
        }
        rest = behind;
    }
    Ok(())
}
