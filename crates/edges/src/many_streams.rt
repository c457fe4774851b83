//! Conversations over TCP with many connections at once.
ghost use Rattle.std.specs.Prelude.{◌≡◌, ◌≢◌, ◌≤◌, ◌+◌, ℕ, IfOk, MatchBool, Some, false, not, true};
ghost use Rattle.outside.specs.Faults.{BothTell, Rose, raised};
ghost use Rattle.outside.specs.Streams.{IsAccept, IsOpening};
ghost use Rattle.past_log.specs.Streams.{new_streams};

use crate::ears::{Ears, bind};
use crate::hall::Hall;
use crate::stop_flag::StopFlag;
use addr_text::Listen;
use mio::Events;
use no_memory::NoMemory;
use outside::{Accepting, Opening, Reading, Streams, Writing};
use past_log::{StreamsEvent, StreamsPast};
use std::alloc::Global;
use std::marker::Model;
use std::net::Net;
use std::sync::OnceLock;
use std::time::Clock;

/// The TCP port that is listened at, for whoever has to know it.
#[derive(Drop)]
pub struct SharedTcp {
    port: OnceLock<u16>,
}

impl SharedTcp {
    /// None yet.
    pub fn new() -> SharedTcp {
        SharedTcp {
            port: OnceLock::new(),
        }
    }

    /// The TCP port, that of the first listener that was opened. There is none exactly where none was.
    pub fn port(&self) -> Option<u16> {
        Some(*self.port.get()?)
    }
}

/// Conversations over TCP, of many connections at once, as what they were asked and answered, and a count of the calls
/// that failed. Each conversation is at most eight whole messages of one connection that came one behind another, or a
/// length that is too great, which ends the connection. So a connection may come back as a further conversation: its
/// messages are those of its conversations, one after another, and those that are still there. Its replies go in their
/// order, as far as its peer takes them.
///
/// Each connection that was taken in is read ahead of the next `accept` of the system, which is made only where a place is
/// to be had; else connections wait in the system's queue, in the order in which they came. Where all places are taken,
/// the connection that was idle for the longest time gives way to one of another address, if for a tenth of a second; and
/// where an address has its share, the one of its own. One with something whole, which waits to be handed over, never does.
///
/// What a peer brings about is no failure, and nor are connections or descriptors that ran out. A connection is left that
/// is reset, or that for ten seconds brings nothing that gets a reply and takes no octet of one. Where the listener, or the
/// wait for it, is broken, each `accept` fails from then on.
///
/// Once the flag is set, connections that wait at a listener that was handed in are left to whoever has it next; those that
/// were taken in go on, and a call of `accept` that began behind it and finds none that waits notes that all are answered.
#[derive(Drop)]
pub struct ManyStreams<'a, R: Net + Clock> {
    alloc: Global,
    rt: &'a R,
    shared: &'a SharedTcp,
    flag: &'a StopFlag,
    places: usize,
    most_of_one: usize,
    ears: Option<Ears>,
    hall: Hall,
    faults: u64,
    past: StreamsPast,
}

impl<'a, R: Net + Clock> Model for ManyStreams<'a, R> {
    ghost use Rattle.std.specs.Prelude.{◌≡◌, false};
    ghost use Rattle.edges.specs.Halls.{AreNumberedUpTo, IsTold};
    ghost use Rattle.edges.specs.Pasts.{StreamsNoted};
    ghost use Rattle.edges.specs.Watches.{deaf_of, waits_of};

    ghost Value = { StreamsNoted };

    ghost view = { λ s. record {
      told = s.past.told;
      faults = s.faults;
      is_deaf = deaf_of s.ears;
      waits = waits_of s.ears;
    } };

    ghost invariant = { λ s. ((s.past.told.is_ended ≡ false)
        × IsTold s.hall.current s.hall.is_read s.hall.seats.items s.past.told.current)
        × AreNumberedUpTo s.hall.turns s.hall.seats.items s.hall.rooms.items };
}

impl<'a, R: Net + Clock> ManyStreams<'a, R> {
    /// Ones that are not open, for so many connections at once, of which one address has so many at most. Addresses of
    /// IPv6 count as one by the first 64 bits. Memory is taken when they are opened.
    pub fn new(
        alloc: Global,
        rt: &'a R,
        shared: &'a SharedTcp,
        flag: &'a StopFlag,
        places: usize,
        most_of_one: usize,
    ) -> ManyStreams<'a, R>
        ensures { result ≡ record { told = new_streams; faults = 0; is_deaf = true; waits = 0 } }
    {
        ManyStreams {
            alloc,
            rt,
            shared,
            flag,
            places,
            most_of_one,
            ears: None,
            hall: Hall::new(Vec::new(alloc), Vec::new(alloc)),
            faults: 0,
            past: StreamsPast::new(),
        }
    }

    /// Listens there, and takes all memory. Answers whether it listens.
    fn begin(&mut self, listen: Listen) -> Result<bool, NoMemory>
        ensures same { (self.new.told ≡ self.old.told) × (self.new.faults ≡ self.old.faults) }
        ensures listens { IfOk result (λ listens. self.new.is_deaf ≡ not listens) }
    {
        self.hall.take_back();
        self.ears = None;
        let events = Events::with_capacity(self.alloc, self.places.saturating_add(1))?;
        self.hall = Hall::with_places(self.alloc, self.places)?;
        self.ears = bind(self.rt, listen, events);
        if let Some(ears) = &self.ears {
            if let Some(port) = ears.port() {
                let _ = self.shared.port.try_set(port);
            }
        }
        Ok(self.ears.is_some())
    }

    /// Counts a call that failed.
    fn count_fault(&mut self)
        ensures { self.new ≡ record self.old { faults = raised self.old.faults 1 } }
    {
        self.faults = self.faults.saturating_add(1);
    }
}

impl<R: Net + Clock> Streams for ManyStreams<'_, R> {
    ghost told = { λ s. record { past = Some s.told; faults = s.faults } };

    fn open(&mut self, listen: &Listen) -> Opening
        ensures open { BothTell
            (Some self.old.told) (Some self.new.told) (IsOpening listen.now result) }
        ensures later { self.old.faults ≤ self.new.faults }
        ensures cause { result ≡ Opening.Failed → Rose self.old.faults self.new.faults }
        ensures stays { result ≢ Opening.Failed → self.new.faults ≡ self.old.faults }
        ensures ready { result ≡ Opening.Ready → self.new.is_deaf ≡ false }
    {
        self.past.note(&StreamsEvent::Opened(*listen));
        match self.begin(*listen) {
            Ok(true) => Opening::Ready,
            _ => {
                self.count_fault();
                Opening::Failed
            }
        }
    }

    fn accept(&mut self, known: u64) -> Accepting
        ensures accept { BothTell
            (Some self.old.told) (Some self.new.told) (IsAccept known result) }
        ensures later { self.old.faults ≤ self.new.faults }
        ensures cause { result ≡ Accepting.Failed → Rose self.old.faults self.new.faults }
        ensures stays { result ≢ Accepting.Failed → self.new.faults ≡ self.old.faults }
        // It fails exactly where no connection can be had any more, and from then on.
        ensures deaf { MatchBool self.new.is_deaf (result
            ≡ Accepting.Failed) (result ≢ Accepting.Failed) }
        ensures ends { self.old.is_deaf ≡ true → self.new.is_deaf ≡ true }
        ensures waited { result ≢ Accepting.Failed → self.new.waits ≡ self.old.waits + 1 }
    {
        self.hall.take_back();
        let is_last = self.flag.is_set();
        let accepting = self
            .hall
            .advance(&mut self.ears, self.rt, self.flag, self.most_of_one);
        if is_last && accepting == Accepting::Idle {
            self.flag.note_drained();
        }
        self.past.note(&StreamsEvent::Accepted(known, accepting));
        if accepting == Accepting::Failed {
            self.count_fault();
        }
        accepting
    }

    fn read(&mut self, known: u64, buffer: &mut [u8]) -> Reading {
        let reading = self.hall.hear(buffer);
        self.past.note(&StreamsEvent::Heard(known, buffer, reading));
        reading
    }

    fn write(&mut self, serial: u64, octets: &[u8]) -> Writing {
        if self.hall.keep(octets) {
            self.past
                .note(&StreamsEvent::Said(serial, octets, Writing::Done));
            return Writing::Done;
        }
        self.past
            .note(&StreamsEvent::Said(serial, &octets[..0], Writing::Failed));
        self.count_fault();
        Writing::Failed
    }

    fn close(&mut self) {
        self.past.note(&StreamsEvent::Closed);
        self.hall.take_back();
    }
}
