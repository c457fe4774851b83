//! The machine over published versions.
ghost use Rattle.std.specs.Prelude.{◌≡◌, ◌≤◌, ◌<◌, ◌+◌, ◌∷◌, ◌++◌, [], All, Some, length, replicate, reverse, slice_get, slice_set, IfOk, IfErr, OnOk, OnErr};
ghost use Rattle.std.specs.Result.{result_err};
ghost use Rattle.lane_model.specs.Histories.{Follows};
ghost use Rattle.lane_model.specs.Lawful.{IsLawful};
ghost use Rattle.lane_model.specs.Machine.{fresh, heard};
ghost use Rattle.lane_model.specs.Replies.{replies};
ghost use Rattle.std.specs.Arc.{arc_value};
ghost use Rattle.published_map.specs.Shared.{LooksUp, plan_of};
ghost use Rattle.published_map.specs.Version.{IsVersion, Version};
ghost use Rattle.map_model.specs.Batch.{IsBatch};
ghost use Rattle.stable_check.specs.Judgement.{Judges};
ghost use Rattle.serve_core.specs.Events.{IsCommitOf, IsEventFor, IsRefused, RunsTo, Takes, lane_at, newest_of};
ghost use Rattle.serve_core.specs.Minded.{AreMinded};
ghost use Rattle.serve_core.specs.Takings.{IsCommitFault, IsTaking};

use crate::event::{Event, StepFault};
use crate::lane::{Datagram, LaneRow};
use crate::octets::Octets;
use addr_text::Peer;
use answer_core::Way;
use demand_feed::{Batch, apply};
use map_model::{Instance, MapLines};
use no_memory::NoMemory;
use published_map::{MapVersion, Shared};
use stable_check::{CheckRoom, Verdict, check};
use std::alloc::Global;
use std::marker::Model;
use std::sync::Arc;

/// The published versions in order, and the lanes.
#[derive(Drop)]
pub struct World {
    alloc: Global,
    versions: Vec<MapVersion>,
    /// The newest version's.
    instance: Instance,
    lanes: Vec<LaneRow>,
}

impl Model for World {
    ghost use Rattle.lane_model.specs.Machine.{Machine};
    ghost use Rattle.std.specs.Arc.{arc_value};
    ghost use Rattle.published_map.specs.Shared.{LooksUp, plan_of};
    ghost use Rattle.published_map.specs.Version.{Version};
    ghost use Rattle.serve_core.specs.Worlds.{IsWorld};

    ghost Value = { Machine Version };

    ghost view = { λ w. record { history = w.versions.items; lanes = w.lanes.items } };

    ghost invariant = { λ w. IsWorld w.versions.items w.instance w.lanes.items };
}

fn judge(alloc: Global, instance: &Instance, map: &MapLines) -> Result<Verdict, NoMemory>
    ensures { IfOk result (Judges instance.now map.now.lines.items map.now.names.items) }
{
    let mut room = CheckRoom::new(alloc, instance)?;
    Ok(check(instance, map, &mut room))
}

fn version_at(versions: &[MapVersion], serial: u64) -> &MapVersion
    requires { serial < length versions.now }
    ensures { slice_get versions.now serial ≡ Some result.now }
{
    &versions[serial as usize]
}

/// Events, the last one first.
fn backwards(events: Vec<Event>) -> Vec<Event>
    ensures { result.items ≡ reverse events.items }
{
    let mut events = events;
    events.as_mut_slice().reverse();
    events
}

/// What a version shares with the others of its topology.
fn share(version: &MapVersion) -> Result<Arc<Shared>, NoMemory>
    ensures plan { IfOk result (λ shared. plan_of (arc_value shared) ≡ version.now.plan) }
    ensures lookup { IfOk result (λ shared. LooksUp (arc_value shared)) }
{
    Ok(Arc::try_clone(version.shared())?)
}

impl World {
    /// A machine of so many lanes, which took nothing, over one version of serial 0 that has its topology's own numbers.
    ///
    /// # Errors
    ///
    /// `NoMemory` where there was none for it.
    pub fn open(alloc: Global, version: MapVersion, lanes: u8) -> Result<World, NoMemory>
        requires version { IsVersion version }
        requires serial { version.serial ≡ 0 }
        requires market { version.market ≡ version.plan.market }
        ensures world { IfOk result (λ w. w
            ≡ record { history = version ∷ []; lanes = replicate lanes fresh }) }
        ensures kept { IfOk result (λ w. IsLawful replies Follows version w) }
    {
        let instance = version.topology().instance().try_clone()?;
        let mut rows = Vec::with_capacity(alloc, lanes as usize)?;
        for _ in 0..lanes {
            rows.push_reserved(LaneRow::new(alloc));
        }
        let mut versions = Vec::with_capacity(alloc, 1)?;
        versions.push_reserved(version);
        Ok(World {
            alloc,
            versions,
            instance,
            lanes: rows,
        })
    }

    /// The newest serial.
    fn newest(&self) -> u64
        ensures { result + 1 ≡ length self.now.history }
    {
        self.versions.len() as u64 - 1
    }

    /// The version that a commit adds, with its instance.
    fn next(&self, batch: &Batch, map: &MapLines) -> Result<(Instance, MapVersion), StepFault>
        requires { (v : Version) → newest_of self.now.history ≡ Some v
            → IsBatch v.market batch.now }
        ensures next { IfOk result (λ made. IsCommitOf self.now.history batch.now map.now made.1
            × (made.1.market ≡ made.0)) }
        ensures refused { IfErr result (λ fault. IsCommitFault self.now.history batch.now map.now
            fault) }
    {
        let newest = self.newest();
        let last = version_at(self.versions.as_slice(), newest);
        let mut instance = self.instance.try_clone()?;
        apply(&mut instance, batch);
        match judge(self.alloc, &instance, map)? {
            Verdict::Good => {}
            verdict => return Err(StepFault::NotGood(verdict)),
        }
        let shared = share(last)?;
        let version = MapVersion::make(self.alloc, newest + 1, &instance, map, shared)?;
        Ok((instance, version))
    }

    /// Publishes a map.
    fn commit(&mut self, batch: &Batch, map: &MapLines) -> Result<(), StepFault>
        requires { (v : Version) → newest_of self.old.history ≡ Some v
            → IsBatch v.market batch.now }
        ensures ok { OnOk result ((v : Version) × IsCommitOf self.old.history batch.now map.now v
            × (self.new ≡ record self.old { history = self.old.history ++ v ∷ [] })) }
        ensures refused { IfErr result (IsCommitFault self.old.history batch.now map.now) }
        ensures same { OnErr result (self.new ≡ self.old) }
    {
        let (instance, version) = self.next(batch, map)?;
        match self.versions.push(version) {
            Ok(()) => {}
            Err(_) => return Err(StepFault::NoMemory),
        }
        self.instance = instance;
        Ok(())
    }

    /// Lets a lane learn of a serial.
    fn tell(&mut self, lane: u8, serial: u64) -> Result<(), StepFault>
        ensures ok { OnOk result ((lane < length self.old.lanes)
            × (serial < length self.old.history)
            × (self.new ≡ record self.old {
              lanes = slice_set self.old.lanes lane
                  (heard serial (lane_at self.old lane));
            })) }
        ensures refused { IfErr result (IsRefused (Event.Tell lane serial) self.old) }
        ensures same { OnErr result (self.new ≡ self.old) }
    {
        let newest = self.newest();
        if lane as usize >= self.lanes.len() {
            return Err(StepFault::NoLane);
        }
        if serial > newest {
            return Err(StepFault::Ahead { serial, newest });
        }
        let row = &mut self.lanes[lane as usize];
        row.tell(serial);
        Ok(())
    }

    /// Lets a lane take a datagram.
    fn take(
        &mut self,
        lane: u8,
        octets: Octets,
        from: Peer,
        serial: u64,
        way: Way,
    ) -> Result<(), StepFault>
        ensures ok { OnOk result (IsTaking lane (record { octets = octets; from = from }) serial way
            self.old self.new) }
        ensures refused { IfErr result
            (IsRefused (Event.Take lane octets from serial way) self.old) }
        ensures same { OnErr result (self.new ≡ self.old) }
    {
        let newest = self.newest();
        if lane as usize >= self.lanes.len() {
            return Err(StepFault::NoLane);
        }
        if serial > newest {
            return Err(StepFault::Ahead { serial, newest });
        }
        let seen = self.lanes[lane as usize].seen();
        if serial < seen {
            return Err(StepFault::Behind { serial, seen });
        }
        let version = version_at(self.versions.as_slice(), serial);
        let row = &mut self.lanes[lane as usize];
        let datagram = Datagram { octets, from };
        row.take(version, lane, datagram, serial, way)?;
        Ok(())
    }

    /// Takes an event, or answers why not. After a refusal all is as before.
    ///
    /// # Errors
    ///
    /// The first of `NoLane`, `NotGood`, `Ahead` and `Behind` that holds, with its numbers; `NoMemory` where there was
    /// none.
    pub fn step(&mut self, event: Event) -> Result<(), StepFault>
        requires { (v : Version) → newest_of self.old.history ≡ Some v → IsEventFor v.market event }
        ensures ok { OnOk result (Takes event self.old self.new) }
        ensures refused { IfErr result (IsRefused event self.old) }
        ensures same { OnErr result (self.new ≡ self.old) }
    {
        match event {
            Event::Commit(batch, map) => self.commit(&batch, &map),
            Event::Tell(lane, serial) => self.tell(lane, serial),
            Event::Take(lane, octets, from, serial, way) => {
                self.take(lane, octets, from, serial, way)
            }
        }
    }

    /// Takes events in order, up to the first that is refused, whose fault it answers.
    ///
    /// What it takes is taken by the machine of commits, tells and takes, so it keeps a history, and lanes that are
    /// lane runs over it; and what a lane knew at each datagram is no less than all that it was told of and used before.
    ///
    /// # Errors
    ///
    /// As `step`, of the first event that is refused.
    pub fn run(&mut self, events: Vec<Event>) -> Result<(), StepFault>
        requires { (v : Version) → newest_of self.old.history ≡ Some v
            → All (IsEventFor v.market) events.items }
        ensures runs { RunsTo events.items self.old self.new (result_err result) }
        ensures kept { (first : Version) → IsLawful replies Follows first self.old
            → IsLawful replies Follows first self.new }
        ensures minded { AreMinded events.items self.old self.new (result_err result) }
    {
        let mut behind = backwards(events);
        while let Some(event) = behind.pop() {
            match self.step(event) {
                Ok(()) => {}
                Err(fault) => return Err(fault),
            }
        }
        Ok(())
    }
}

#[cfg(test)]
mod tests;
