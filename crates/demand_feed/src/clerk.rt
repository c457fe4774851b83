//! What comes of a feed's lines, one after another.
ghost use Rattle.std.specs.Prelude.{◌≡◌, ◌≢◌, ◌↔◌, ◌≤◌, ◌<◌, ◌-◌, ◌+◌, ◌^◌, ℕ, List, Ok, Err, [], true, length, IfOk, IsTrue, MatchResult};
ghost use Rattle.map_model.specs.Market.{Market};
ghost use Rattle.demand_feed.specs.Line.{line_of};
ghost use Rattle.demand_feed.specs.SaidBy.{IsShort, said_by};
ghost use Rattle.demand_feed.specs.Task.{Ledger, by_said, changed, commit_line, fresh, is_stop, octets_of, refuse, step};
ghost use Rattle.demand_feed.specs.Changing.{IsChangeLine, with_line};
ghost use Rattle.demand_feed.specs.Clerk.{AreBatches, Clerking, task_by};
ghost use Rattle.demand_feed.specs.declared.limits.TheConstants.{LONGEST_LINE};

use crate::limits::{LONGEST_LINE, LONGEST_QUERY};
use crate::{Batch, Line, Refusal, read_line};
use addr_text::Addr;
use arrayvec::ArrayVec;
use no_memory::NoMemory;
use std::alloc::Global;
use std::marker::Model;
use std::mem::swap;
use topology_text::Topology;

/// What comes of a feed's line.
#[derive(Debug, Drop)]
pub enum Next {
    /// Nothing is to be done.
    Nothing,
    /// The feed ends.
    Stop,
    /// The line of that number, from 1, is refused.
    Refused(u64, Refusal),
    /// A batch has ended, which `Clerk::due` gives.
    Batch,
    /// An empty batch has ended.
    Empty,
    /// A batch has ended of which so many lines were refused. It is dropped.
    Spoiled(u64),
    /// The reply to octets from an address is due.
    Query {
        addr: Addr,
        octets: ArrayVec<u8, LONGEST_QUERY>,
    },
    /// The totals of the newest map are due.
    Totals,
}

/// Takes a feed's lines one by one: it counts them, refuses some, and gathers a batch.
#[derive(Debug, Drop)]
pub struct Clerk {
    number: u64,
    refused: u64,
    batch: Batch,
    due: Batch,
}

impl Model for Clerk {
    ghost use Rattle.std.specs.Prelude.{◌≤◌};
    ghost use Rattle.demand_feed.specs.Clerk.{Clerking};

    ghost Value = { Clerking };

    ghost view = { λ c. record {
      ledger = record {
        number = c.number;
        refused = c.refused;
        changes = c.batch;
      };
      due = c.due;
    } };

    ghost invariant = { λ c. c.refused ≤ c.number };
}

/// The octets of hexadecimal digits.
fn octets(digits: &[u8]) -> ArrayVec<u8, LONGEST_QUERY>
    requires { length digits.now ≤ LONGEST_LINE }
    ensures { result.items ≡ octets_of digits.now }
{
    let mut room = [0u8; LONGEST_QUERY];
    let size = digits.len() / 2;
    let mut octets = ArrayVec::new();
    if hex::decode_to_slice(digits, &mut room[..size]).is_ok() {
        let _ = octets.try_extend_from_slice(&room[..size]);
    }
    octets
}

impl Clerk {
    /// One ahead of a feed's first line.
    ///
    /// # Errors
    ///
    /// `NoMemory`.
    pub fn new(alloc: Global) -> Result<Clerk, NoMemory>
        ensures { IfOk result (λ c. c ≡ record { ledger = fresh; due = [] }) }
    {
        Ok(Clerk {
            number: 0,
            refused: 0,
            batch: Batch::new(alloc)?,
            due: Batch::new(alloc)?,
        })
    }

    /// Begins a feed.
    pub fn restart(&mut self)
        ensures { self.new ≡ record { ledger = fresh; due = [] } }
    {
        self.number = 0;
        self.refused = 0;
        self.batch.clear();
        self.due.clear();
    }

    /// The batch that ended last.
    pub fn due(&self) -> &Batch
        ensures { result.now ≡ self.now.due }
    {
        &self.due
    }

    fn refuse(&mut self, why: Refusal) -> Next
        requires { self.old.ledger.refused < self.old.ledger.number }
        ensures step { record {
          task = task_by self.new.due result;
          ledger = self.new.ledger;
        } ≡ refuse self.old.ledger why }
        ensures due { self.new.due ≡ self.old.due }
        ensures goes_on { ¬ (result ≡ Next.Stop) }
    {
        self.refused += 1;
        Next::Refused(self.number, why)
    }

    fn change(&mut self, topology: &Topology, line: &Line<'_>) -> Next
        requires line { IsChangeLine line.now }
        requires refused { self.old.ledger.refused < self.old.ledger.number }
        ensures step { record { task = task_by self.new.due result; ledger = self.new.ledger }
            ≡ changed self.old.ledger (with_line topology.now self.old.ledger.changes line.now) }
        ensures due { self.new.due ≡ self.old.due }
        ensures kept { AreBatches topology.now.market self.old
            → AreBatches topology.now.market self.new }
        ensures goes_on { ¬ (result ≡ Next.Stop) }
    {
        match self.batch.add(topology, line) {
            Ok(()) => Next::Nothing,
            Err(fault) => self.refuse(Refusal::Batch(fault)),
        }
    }

    fn commit(&mut self) -> Next
        ensures step { record {
          task = task_by self.new.due result;
          ledger = self.new.ledger;
        } ≡ commit_line self.old.ledger }
        ensures due { result ≢ Next.Batch → self.new.due ≡ self.old.due }
        ensures kept { (m : Market) → AreBatches m self.old → AreBatches m self.new }
        ensures goes_on { ¬ (result ≡ Next.Stop) }
    {
        let refused = self.refused;
        self.refused = 0;
        if refused > 0 {
            self.batch.clear();
            return Next::Spoiled(refused);
        }
        if self.batch.is_empty() {
            return Next::Empty;
        }
        swap(&mut self.batch, &mut self.due);
        self.batch.clear();
        Next::Batch
    }

    fn take_line(&mut self, topology: &Topology, line: Line<'_>) -> Next
        requires short { IsShort LONGEST_LINE line }
        requires refused { self.old.ledger.refused < self.old.ledger.number }
        ensures step { record { task = task_by self.new.due result; ledger = self.new.ledger }
            ≡ by_said topology.now self.old.ledger (Ok (said_by line.entry)) }
        ensures due { result ≢ Next.Batch → self.new.due ≡ self.old.due }
        ensures kept { AreBatches topology.now.market self.old
            → AreBatches topology.now.market self.new }
        ensures stop { (result ≡ Next.Stop) ↔ (line.entry ≡ Line.Stop) }
    {
        match line {
            Line::Demand { .. } | Line::Capacity { .. } => self.change(topology, &line),
            Line::Commit => self.commit(),
            Line::Ask { addr, digits } => Next::Query {
                addr,
                octets: octets(digits),
            },
            Line::Show => Next::Totals,
            Line::Stop => Next::Stop,
        }
    }

    /// Takes the next line of a feed.
    #[tactic(auto, unfolding(crate::specs::Task::step))]
    pub fn take(&mut self, topology: &Topology, line: &[u8]) -> Next
        requires { self.old.ledger.number < 2 ^ 64 - 1 }
        ensures step { record {
          task = task_by self.new.due result;
          ledger = self.new.ledger;
        } ≡ step topology.now self.old.ledger line.now }
        // The batch that ended last stays until another one ends.
        ensures due { result ≢ Next.Batch → self.new.due ≡ self.old.due }
        ensures kept { AreBatches topology.now.market self.old
            → AreBatches topology.now.market self.new }
        ensures stop { (result ≡ Next.Stop) ↔ (is_stop line.now ≡ true) }
    {
        self.number += 1;
        match read_line(line) {
            Ok(line) => self.take_line(topology, line),
            Err(fault) => self.refuse(Refusal::Line(fault)),
        }
    }
}
