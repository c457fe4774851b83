//! A port in memory, at which stated datagrams wait.
ghost use Rattle.std.specs.LinkedList.{linked_list_len};
ghost use Rattle.std.specs.Prelude.{◌≡◌, ◌≢◌, ◌≤◌, ◌<◌, ◌+◌, ◌↔◌, ◌⊎◌, Some, [], true, false, length, not, take, map, IfOk, IfSome, Contains, vec_len, vec_capacity};
ghost use Rattle.outside.specs.Calls.{counted};
ghost use Rattle.outside.specs.Faults.{BothTell, Rose};
ghost use Rattle.outside.specs.MemPort.{PortInMemory, OpenFails, RecvFails, SendFails, is_failed, is_shut, packet_of, place_of, taken_of, try_of};
ghost use Rattle.outside.specs.Port.{HasDue, IsOpen, IsRecv, IsSend, IsShort, is_sent};
ghost use Rattle.outside.specs.declared.limits.TheConstants.{LARGEST_DATAGRAM, LARGEST_REPLY};

use crate::calls::Calls;
use crate::limits::{LARGEST_DATAGRAM, LARGEST_REPLY};
use crate::{Arrival, Opening, Port, Sending};
use addr_text::{Listen, Peer};
use arrayvec::ArrayVec;
use no_memory::NoMemory;
use std::alloc::Global;
use std::collections::LinkedList;
use std::marker::Model;

/// A datagram that waits.
#[derive(Drop)]
pub struct MemPacket {
    pub octets: Vec<u8>,
    pub from: Peer,
}

/// A datagram that was taken, with the serial that its taker knew, and how many answers of `recv` came before it.
#[derive(Drop)]
pub struct MemTaken {
    pub packet: MemPacket,
    pub known: u64,
    pub place: u64,
}

/// A reply that was tried, with the serial of its map, whether it went, and how many answers of `recv` came before it.
#[derive(Drop)]
pub struct MemTry {
    pub octets: ArrayVec<u8, LARGEST_REPLY>,
    pub to: Peer,
    pub serial: u64,
    pub went: bool,
    pub place: u64,
}

/// A port in memory, with room for one opening, for all its datagrams and for as many replies. It is never idle.
#[derive(Drop)]
pub struct MemPort {
    opens: Vec<Listen>,
    waiting: LinkedList<MemPacket>,
    taken: Vec<MemTaken>,
    tries: Vec<MemTry>,
    is_ended: bool,
    greatest: u64,
    open_calls: Calls,
    recv_calls: Calls,
    send_calls: Calls,
}

impl Model for MemPort {
    ghost use Rattle.std.specs.LinkedList.{linked_list_len};
    ghost use Rattle.std.specs.Prelude.{◌≤◌, ◌+◌, Some, map, vec_len, vec_capacity};
    ghost use Rattle.outside.specs.MemPort.{PortInMemory, packet_of, place_of, taken_of, try_of};

    ghost Value = { PortInMemory };

    ghost view = { λ p. record {
      told = record {
        opens = p.opens.items;
        waiting = Some (map packet_of p.waiting);
        taken = map taken_of p.taken.items;
        tries = map try_of p.tries.items;
        places = map place_of p.tries.items;
        recvs = p.recv_calls.made;
        failed = p.recv_calls.faults;
        is_ended = p.is_ended;
        greatest = p.greatest;
      };
      opens = p.open_calls;
      recvs = p.recv_calls;
      sends = p.send_calls;
    } };

    ghost invariant = { λ p. (1 ≤ vec_capacity p.opens) × (vec_len p.tries ≤ vec_len p.taken)
        × (vec_len p.taken + linked_list_len p.waiting ≤ vec_capacity p.taken)
        × (vec_len p.taken + linked_list_len p.waiting ≤ vec_capacity p.tries) };
}

impl MemPort {
    /// One at which these datagrams wait. The openings, the calls of `recv` and those of `send` with these numbers,
    /// each from 0, are to fail.
    ///
    /// # Errors
    ///
    /// `NoMemory`.
    pub fn new(
        alloc: Global,
        waiting: LinkedList<MemPacket>,
        open_fails: Vec<u64>,
        recv_fails: Vec<u64>,
        send_fails: Vec<u64>,
    ) -> Result<MemPort, NoMemory>
        ensures told { IfOk result (λ p. p.told ≡ record {
          opens = [];
          waiting = Some (map packet_of waiting);
          taken = [];
          tries = [];
          places = [];
          recvs = 0;
          failed = 0;
          is_ended = false;
          greatest = 0;
        }) }
        ensures opens { IfOk result (λ p. p.opens ≡ record {
          made = 0;
          fails = open_fails.items;
          faults = 0;
        }) }
        ensures recvs { IfOk result (λ p. p.recvs ≡ record {
          made = 0;
          fails = recv_fails.items;
          faults = 0;
        }) }
        ensures sends { IfOk result (λ p. p.sends ≡ record {
          made = 0;
          fails = send_fails.items;
          faults = 0;
        }) }
    {
        let room = waiting.len();
        Ok(MemPort {
            opens: Vec::with_capacity(alloc, 1)?,
            waiting,
            taken: Vec::with_capacity(alloc, room)?,
            tries: Vec::with_capacity(alloc, room)?,
            is_ended: false,
            greatest: 0,
            open_calls: Calls::new(open_fails),
            recv_calls: Calls::new(recv_fails),
            send_calls: Calls::new(send_fails),
        })
    }

    /// Where it was opened.
    pub fn opens(&self) -> &[Listen]
        ensures { result.now ≡ self.now.told.opens }
    {
        self.opens.as_slice()
    }

    /// The datagrams that were taken.
    pub fn taken(&self) -> &[MemTaken]
        ensures { map taken_of result.now ≡ self.now.told.taken }
    {
        self.taken.as_slice()
    }

    /// The replies that were tried.
    pub fn tries(&self) -> &[MemTry]
        ensures tries { map try_of result.now ≡ self.now.told.tries }
        ensures places { map place_of result.now ≡ self.now.told.places }
    {
        self.tries.as_slice()
    }
}

fn put_octets(buffer: &mut [u8], octets: &[u8])
    requires { length octets.now ≤ length buffer.old }
    ensures front { take (length octets.now) buffer.new ≡ octets.now }
    ensures length { length buffer.new ≡ length buffer.old }
{
    buffer[..octets.len()].copy_from_slice(octets);
}

fn copied(octets: &[u8]) -> ArrayVec<u8, LARGEST_REPLY>
    requires { length octets.now ≤ LARGEST_REPLY }
    ensures { result.items ≡ octets.now }
{
    let mut copy = ArrayVec::new();
    let _ = copy.try_extend_from_slice(octets);
    copy
}

impl Port for MemPort {
    ghost use Rattle.outside.specs.MemPort.{port_faults};

    ghost told = { λ p. record { past = Some p.told; faults = port_faults p } };

    fn open(&mut self, listen: &Listen) -> Opening
        ensures open { BothTell
            (Some self.old.told) (Some self.new.told) (IsOpen listen.now result) }
        ensures later { port_faults self.old ≤ port_faults self.new }
        ensures cause { result ≡ Opening.Failed
            → Rose (port_faults self.old) (port_faults self.new) }
        ensures stays { result ≢ Opening.Failed → port_faults self.new ≡ port_faults self.old }
        // It fails only where it is to, or where it was opened.
        ensures failed { (result ≡ Opening.Failed) ↔ OpenFails self.old }
        ensures unnoted { result ≡ Opening.Failed → self.new.told ≡ self.old.told }
        ensures counted { self.new.opens ≡ counted self.old.opens (is_shut result) }
        ensures others { (self.new.recvs ≡ self.old.recvs) × (self.new.sends ≡ self.old.sends) }
    {
        if self.open_calls.is_to_fail() || !self.opens.is_empty() {
            self.open_calls.count_failed();
            return Opening::Failed;
        }
        self.open_calls.count_done();
        self.opens.push_reserved(*listen);
        Opening::Ready
    }

    fn recv(&mut self, known: u64, buffer: &mut [u8]) -> Arrival
        requires { LARGEST_DATAGRAM ≤ length buffer.old }
        ensures recv { BothTell
            (Some self.old.told) (Some self.new.told) (IsRecv known buffer.new result) }
        ensures short { IsShort result }
        ensures buffer { length buffer.new ≡ length buffer.old }
        ensures later { port_faults self.old ≤ port_faults self.new }
        ensures cause { result ≡ Arrival.Failed
            → Rose (port_faults self.old) (port_faults self.new) }
        ensures stays { result ≢ Arrival.Failed → port_faults self.new ≡ port_faults self.old }
        // It fails only where it is to, and ends only where no datagram waits.
        ensures failed { (result ≡ Arrival.Failed) ↔ RecvFails self.old }
        ensures end { (result ≡ Arrival.End) ↔ (self.old.told.is_ended ≡ true)
            ⊎ ((self.old.told.waiting ≡ Some []) × ¬ RecvFails self.old) }
        ensures busy { result ≢ Arrival.Idle }
        ensures counted { self.new.recvs ≡ counted self.old.recvs (is_failed result) }
        ensures others { (self.new.opens ≡ self.old.opens) × (self.new.sends ≡ self.old.sends) }
    {
        let place = self.recv_calls.made();
        self.greatest = self.greatest.max(known);
        if self.is_ended {
            self.recv_calls.count_done();
            return Arrival::End;
        }
        if self.recv_calls.is_to_fail() {
            self.recv_calls.count_failed();
            return Arrival::Failed;
        }
        self.recv_calls.count_done();
        let Some(packet) = self.waiting.pop_front() else {
            self.is_ended = true;
            return Arrival::End;
        };
        let len = packet.octets.len();
        if len > LARGEST_DATAGRAM {
            return Arrival::Oversize;
        }
        let from = packet.from;
        put_octets(buffer, packet.octets.as_slice());
        self.taken.push_reserved(MemTaken {
            packet,
            known,
            place,
        });
        Arrival::Arrived(len, from)
    }

    fn send(&mut self, octets: &[u8], peer: Peer, serial: u64) -> Sending
        requires due { IfSome (Some self.old.told) HasDue }
        requires short { length octets.now ≤ LARGEST_REPLY }
        ensures send { BothTell
            (Some self.old.told) (Some self.new.told) (IsSend octets.now peer serial result) }
        ensures later { port_faults self.old ≤ port_faults self.new }
        ensures cause { result ≡ Sending.Failed
            → Rose (port_faults self.old) (port_faults self.new) }
        ensures stays { result ≢ Sending.Failed → port_faults self.new ≡ port_faults self.old }
        // It fails only where it is to.
        ensures failed { (result ≡ Sending.Failed) ↔ SendFails self.old }
        ensures counted { self.new.sends ≡ counted self.old.sends (not (is_sent result)) }
        ensures others { (self.new.opens ≡ self.old.opens) × (self.new.recvs ≡ self.old.recvs) }
    {
        let went = !self.send_calls.is_to_fail();
        self.tries.push_reserved(MemTry {
            octets: copied(octets),
            to: peer,
            serial,
            went,
            place: self.recv_calls.made(),
        });
        if went {
            self.send_calls.count_done();
            Sending::Sent
        } else {
            self.send_calls.count_failed();
            Sending::Failed
        }
    }
}
