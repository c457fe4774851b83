//! One lane of the machine.
ghost use Rattle.std.specs.Prelude.{◌≡◌, true, OnOk, OnErr};
ghost use Rattle.lane_model.specs.Machine.{fresh, passed, replied, heard};
ghost use Rattle.published_map.specs.Version.{IsVersion};
ghost use Rattle.serve_core.specs.Lanes.{entry_of_row, packet_of};
ghost use Rattle.serve_core.specs.Takings.{IsTakenBy};

use crate::octets::Octets;
use addr_text::Peer;
use answer_core::{Answer, Way, reply};
use arrayvec::ArrayVec;
use lane_model::{draw_of, next_number};
use no_memory::NoMemory;
use outside::LARGEST_REPLY;
use published_map::MapVersion;
use std::alloc::Global;
use std::marker::Model;

/// A datagram as it came: its octets, and who sent it.
#[derive(Drop)]
pub struct Datagram {
    pub octets: Octets,
    pub from: Peer,
}

/// A datagram that a lane took.
#[derive(Drop)]
pub struct TakenRow {
    pub octets: Octets,
    pub from: Peer,
    pub known: u64,
    pub way: Way,
}

/// A reply that a lane tried.
#[derive(Drop)]
pub struct TryRow {
    pub octets: ArrayVec<u8, LARGEST_REPLY>,
    pub to: Peer,
    pub serial: u64,
}

/// A lane: the greatest serial that it used or was told of, the number of its next datagram, what it took and tried.
#[derive(Drop)]
pub struct LaneRow {
    seen: u64,
    count: u64,
    pub(crate) taken: Vec<TakenRow>,
    pub(crate) tries: Vec<TryRow>,
}

impl Model for LaneRow {
    ghost use Rattle.std.specs.Prelude.{map};
    ghost use Rattle.lane_model.specs.Machine.{LaneState};
    ghost use Rattle.serve_core.specs.Lanes.{entry_of_row, try_of_row};

    ghost Value = { LaneState };

    ghost view = { λ l. record {
      seen = l.seen;
      count = l.count;
      taken = map entry_of_row
          l.taken.items;
      tries = map try_of_row l.tries.items;
    } };
}

impl LaneRow {
    /// A lane that took nothing.
    pub fn new(alloc: Global) -> LaneRow
        ensures { result ≡ fresh }
    {
        LaneRow {
            seen: 0,
            count: 0,
            taken: Vec::new(alloc),
            tries: Vec::new(alloc),
        }
    }

    /// The greatest serial that it used or was told of.
    pub fn seen(&self) -> u64
        ensures { result ≡ self.now.seen }
    {
        self.seen
    }

    /// Learns of a serial.
    pub fn tell(&mut self, serial: u64)
        ensures { self.new ≡ heard serial self.old }
    {
        self.seen = self.seen.max(serial);
    }

    /// A datagram, with what the lane knows.
    fn row(&self, datagram: Datagram, way: Way) -> TakenRow
        ensures { entry_of_row result
            ≡ record { packet = packet_of datagram; known = self.now.seen; way = way } }
    {
        let Datagram { octets, from } = datagram;
        TakenRow {
            octets,
            from,
            known: self.seen,
            way,
        }
    }

    /// Takes a datagram that has no reply.
    fn pass(&mut self, datagram: Datagram, serial: u64, way: Way) -> Result<(), NoMemory>
        ensures ok { OnOk result (self.new ≡ passed (packet_of datagram) serial way self.old) }
        ensures err { OnErr result (self.new ≡ self.old) }
    {
        let row = self.row(datagram, way);
        self.taken.push(row)?;
        self.seen = serial;
        self.count = next_number(self.count);
        Ok(())
    }

    /// Takes a datagram, and tries a reply.
    fn respond(
        &mut self,
        datagram: Datagram,
        serial: u64,
        way: Way,
        text: ArrayVec<u8, LARGEST_REPLY>,
    ) -> Result<(), NoMemory>
        ensures ok { OnOk result (self.new ≡ replied (packet_of datagram)
            (record { octets = text.items; to = datagram.from; serial = serial; went = true })
            way self.old) }
        ensures err { OnErr result (self.new ≡ self.old) }
    {
        self.tries.reserve(1)?;
        let to = datagram.from;
        let row = self.row(datagram, way);
        self.taken.push(row)?;
        self.tries.push_reserved(TryRow {
            octets: text,
            to,
            serial,
        });
        self.seen = serial;
        self.count = next_number(self.count);
        Ok(())
    }

    /// Takes a datagram, and answers it by that version and that way.
    #[tactic(auto, unfolding(lane_model::specs::Replies::reply_of))]
    pub fn take(
        &mut self,
        version: &MapVersion,
        number: u8,
        datagram: Datagram,
        serial: u64,
        way: Way,
    ) -> Result<(), NoMemory>
        requires { IsVersion version.now }
        ensures ok { OnOk result (IsTakenBy version.now number
            (packet_of datagram) serial way self.old self.new) }
        ensures err { OnErr result (self.new ≡ self.old) }
    {
        let draw = draw_of(number, self.count);
        let mut text = ArrayVec::new();
        match reply(
            version,
            datagram.from.addr,
            datagram.octets.as_slice(),
            draw,
            way,
            &mut text,
        ) {
            Answer::Silent => self.pass(datagram, serial, way),
            Answer::Sent => self.respond(datagram, serial, way, text),
        }
    }
}
