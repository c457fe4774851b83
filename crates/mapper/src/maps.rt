//! The published maps, of which the newest is at hand for the next commit.
ghost use Rattle.std.specs.Prelude.{◌≡◌, ◌-◌, ◌<◌, ◌≤◌, ◌^◌, IfOk, IfSome, OnErr, OnOk, option_map};
ghost use Rattle.map_model.specs.Batch.{IsBatch};
ghost use Rattle.map_repair.specs.Repaired.{IsWithinTwiceSpread};
ghost use Rattle.published_map.specs.Changes.{after};
ghost use Rattle.published_map.specs.Version.{IsVersion};
ghost use Rattle.map_cell.specs.Histories.{IsSealed};
ghost use Rattle.answer_core.specs.Reply.{Replies};
ghost use Rattle.mapper.specs.Currents.{IsCurrent, IsKeptFor, IsPrepared};
ghost use Rattle.mapper.specs.Mappers.{IsPublished, IsRepairing};
ghost use Rattle.mapper.specs.Words.{map_text, reply_by, totals_of};

use crate::Totals;
use crate::current::{Current, First, Kept, after_batch, applied, kept_of, next_of, unworn};
use addr_text::Addr;
use answer_core::{Answer, Way, reply};
use arrayvec::ArrayVec;
use demand_feed::Batch;
use map_cell::{Naming, Note, Publisher};
use map_model::{Instance, Steps};
use no_memory::NoMemory;
use outside::LARGEST_REPLY;
use published_map::Delta;
use std::alloc::Global;
use std::marker::Model;
use std::mem::replace;
use std::sync::Wait;

/// What a batch leads to, before it is published.
#[derive(Drop)]
struct Following {
    current: Current,
    delta: Delta,
}

/// The published maps. It can't be dropped: end it by `close`.
pub(crate) struct Maps<J: Naming> {
    alloc: Global,
    publisher: Publisher<J>,
    current: Current,
    kept: Option<Kept>,
    /// A second instance that is the newest one's, on which the next commit goes on without a copy.
    spare: Option<Instance>,
}

impl<J: Naming> Model for Maps<J> {
    ghost use Rattle.std.specs.Prelude.{◌≡◌, IfSome};
    ghost use Rattle.published_map.specs.Version.{IsVersion};
    ghost use Rattle.map_cell.specs.Ends.{PublisherState};
    ghost use Rattle.map_cell.specs.Histories.{IsSealed};
    ghost use Rattle.mapper.specs.Currents.{IsCurrent, IsKeptFor};

    ghost Value = { PublisherState };

    ghost view = { λ m. m.publisher };

    ghost invariant = { λ m. IsVersion m.publisher.newest
        × IsSealed m.publisher.history m.publisher.newest × IsCurrent m.publisher.newest m.current
        × IfSome m.kept (λ k. IsKeptFor m.publisher.newest.market m.publisher.newest.lines k)
        × IfSome m.spare (λ s. s ≡ m.publisher.newest.market) };
}

/// Puts a value in place of another one.
fn store<T: Drop>(place: &mut T, value: T)
    ensures { place.new ≡ value }
{
    *place = value;
}

impl<J: Naming> Maps<J> {
    /// Those of a cell that was just opened.
    pub fn of(alloc: Global, publisher: Publisher<J>, first: First) -> Maps<J>
        requires version { IsVersion publisher.newest }
        requires last { IsSealed publisher.history publisher.newest }
        requires current { IsCurrent publisher.newest first.current }
        requires kept { IsKeptFor publisher.newest.market publisher.newest.lines first.kept }
        ensures { result ≡ publisher }
    {
        Maps {
            alloc,
            publisher,
            current: first.current,
            kept: Some(first.kept),
            spare: None,
        }
    }

    /// The newest serial.
    pub fn serial(&self) -> u64
        ensures serial { result ≡ self.now.newest.serial }
        ensures version { IsVersion self.now.newest }
        ensures last { IsSealed self.now.history self.now.newest }
    {
        let newest = self.publisher.newest();
        newest.serial()
    }

    /// What goes with the newest map.
    pub fn current(&self) -> &Current
        ensures { IsCurrent self.now.newest result.now }
    {
        &self.current
    }

    /// Names the newest map.
    pub fn note(&self) -> Note<J>
        ensures { result.front ≡ self.now.history }
    {
        self.publisher.note()
    }

    /// Writes the newest map's reply to octets from an address, with draw 0.
    #[tactic(auto, unfolding(crate::specs::Words::reply_by))]
    pub fn ask(&self, from: Addr, octets: &[u8], out: &mut ArrayVec<u8, LARGEST_REPLY>) -> Answer
        ensures { Replies result out.new.items (reply_by self.now.newest from octets.now) }
    {
        reply(self.publisher.newest(), from, octets, 0, Way::Datagram, out)
    }

    /// The newest map's reply to octets from an address, with draw 0.
    pub fn answer(&self, from: Addr, octets: &[u8]) -> Option<ArrayVec<u8, LARGEST_REPLY>>
        ensures { option_map (λ r. r.items) result ≡ reply_by self.now.newest from octets.now }
    {
        let mut out = ArrayVec::new();
        match self.ask(from, octets, &mut out) {
            Answer::Sent => Some(out),
            Answer::Silent => None,
        }
    }

    /// The text of the newest map.
    pub fn text(&self) -> &[u8]
        ensures { result.now ≡ map_text self.now.newest }
    {
        self.current.text.as_slice()
    }

    /// The newest map's totals.
    pub fn totals(&self) -> Totals
        ensures { result ≡ totals_of self.now.newest }
    {
        self.current.totals
    }

    /// Takes out the kept state, or makes one of the newest map.
    fn take_kept(&mut self) -> Result<Kept, NoMemory>
        ensures same { self.new ≡ self.old }
        ensures kept { IfOk result (λ k. IsKeptFor self.old.newest.market self.old.newest.lines k) }
    {
        let groups = self.current.instance.groups();
        match unworn(self.kept.take(), groups) {
            Some(kept) => Ok(kept),
            None => kept_of(self.alloc, &self.current),
        }
    }

    /// Takes out the spare instance, if there is one.
    fn take_spare(&mut self) -> Option<Instance>
        ensures same { self.new ≡ self.old }
        ensures spare { IfSome result (λ s. s ≡ self.old.newest.market) }
    {
        self.spare.take()
    }

    /// The map that a batch leads to, and what changes from the newest one.
    fn next<L>(
        &self,
        kept: &mut Kept,
        spare: Option<Instance>,
        batch: &Batch,
        steps: &mut Steps<L>,
    ) -> Result<Following, NoMemory>
        requires kept { IsKeptFor self.now.newest.market self.now.newest.lines kept.old }
        requires spare { IfSome spare (λ s. s ≡ self.now.newest.market) }
        requires ids { IsBatch self.now.newest.plan.market batch.now }
        ensures next { IfOk result (IsPrepared self.now.newest batch.now) }
        ensures kept { IfOk result (λ n. IsKeptFor
            (after self.now.newest n.delta).market (after self.now.newest n.delta).lines kept.new) }
        ensures counted { IfOk result (λ n.
            IsRepairing self.now.newest (after self.now.newest n.delta) steps.old steps.new) }
        ensures steps { IfOk result (λ n. IsWithinTwiceSpread self.now.newest.market
            self.now.newest.lines (after self.now.newest n.delta).market steps.old steps.new) }
        ensures later { steps.old ≤ steps.new }
    {
        let newest = self.publisher.newest();
        let old = &self.current;
        let instance = after_batch(&old.instance, spare, batch)?;
        let current = next_of(self.alloc, newest.topology(), old, kept, instance, steps)?;
        // tells the prover what the type keeps
        let _groups = (old.instance.groups(), current.instance.groups());
        let delta = Delta::between(
            self.alloc,
            newest.serial(),
            &old.instance,
            &old.map,
            &current.instance,
            &current.map,
        )?;
        Ok(Following { current, delta })
    }

    /// Publishes the map that a batch leads to, and answers its serial.
    pub fn commit<R: Wait, L>(
        &mut self,
        rt: &R,
        batch: &Batch,
        steps: &mut Steps<L>,
    ) -> Result<u64, NoMemory>
        requires ids { IsBatch self.old.newest.plan.market batch.now }
        requires serial { self.old.newest.serial < 2 ^ 64 - 1 }
        ensures next { IfOk result (λ s. IsPublished self.old batch.now self.new
            × (s ≡ self.new.newest.serial)) }
        ensures same { OnErr result (self.new ≡ self.old) }
        ensures counted { OnOk
            result (IsRepairing self.old.newest self.new.newest steps.old steps.new) }
        ensures steps { OnOk result (IsWithinTwiceSpread self.old.newest.market
            self.old.newest.lines self.new.newest.market steps.old steps.new) }
        ensures later { steps.old ≤ steps.new }
    {
        let mut kept = self.take_kept()?;
        let spare = self.take_spare();
        let next = self.next(&mut kept, spare, batch, steps)?;
        let serial = self.publisher.publish(rt, next.delta)?;
        let old = replace(&mut self.current, next.current);
        store(&mut self.spare, Some(applied(old.instance, batch)));
        store(&mut self.kept, Some(kept));
        Ok(serial)
    }

    /// Closes the cell. It waits for viewers that are looking.
    pub fn close<R: Wait>(self, rt: &R) {
        let Maps {
            alloc: _,
            publisher,
            current: _,
            kept: _,
            spare: _,
        } = self;
        publisher.close(rt);
    }
}
