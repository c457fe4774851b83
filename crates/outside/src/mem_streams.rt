//! Streams in memory, whose conversations say stated pieces.
ghost use Rattle.std.specs.Prelude.{◌≡◌, ◌≢◌, ◌≤◌, ◌↔◌, ◌⊎◌, Some, None, [], true, false, if◌then◌else◌, length, map, max, take, IfNone, IfOk, IfSome, IsTrue, Contains};
ghost use Rattle.outside.specs.Calls.{counted};
ghost use Rattle.outside.specs.Faults.{BothTell, Rose, raised};
ghost use Rattle.outside.specs.MemPort.{is_shut};
ghost use Rattle.outside.specs.MemStreams.{AcceptFails, HasHeard, HasRoom, IsNextPiece, IsNextTalk, IsTooLong, OpenFails, ReadFails, WriteFails, coming_of, is_broken, is_cut, is_refused, room_of, streams_faults};
ghost use Rattle.outside.specs.Streams.{IsAccept, IsOpening, IsRead, IsWithin, IsWrite, closing, coming, failing, writing};

use crate::calls::Calls;
use crate::mem_source::shorter;
use crate::{Accepting, MemTalk, Opening, Reading, Streams, Writing};
use addr_text::{Listen, Peer};
use no_memory::NoMemory;
use std::alloc::Global;
use std::collections::LinkedList;
use std::marker::Model;

/// Streams in memory, with room for one opening and for all their conversations. They are never idle.
#[derive(Drop)]
pub struct MemStreams {
    opens: Vec<Listen>,
    waiting: LinkedList<MemTalk>,
    closed: Vec<MemTalk>,
    current: Option<MemTalk>,
    failed: u64,
    is_ended: bool,
    greatest: u64,
    shortest: Option<usize>,
    open_calls: Calls,
    /// The calls of `accept` and of `read`.
    answer_calls: Calls,
    write_calls: Calls,
}

impl Model for MemStreams {
    ghost use Rattle.std.specs.LinkedList.{linked_list_len};
    ghost use Rattle.std.specs.Prelude.{◌≤◌, ◌+◌, map, vec_len, vec_capacity};
    ghost use Rattle.outside.specs.MemStreams.{StreamsInMemory, open_count, talk_of};

    ghost Value = { StreamsInMemory };

    ghost view = { λ s. record {
      told = record {
        opens = s.opens.items;
        closed = map (λ t. t.talk) s.closed.items;
        current = talk_of s.current;
        answers = s.answer_calls.made;
        failed = s.failed;
        is_ended = s.is_ended;
        greatest = s.greatest;
        shortest = s.shortest;
      };
      waiting = s.waiting;
      current = s.current;
      opens = s.open_calls;
      answers = s.answer_calls;
      writes = s.write_calls;
    } };

    ghost invariant = { λ s. (1 ≤ vec_capacity s.opens) × (vec_len s.closed
        + open_count s.current + linked_list_len s.waiting ≤ vec_capacity s.closed) };
}

impl MemStreams {
    /// Ones at which these conversations wait. The openings, the answers of `accept` and `read`, counted together, and
    /// the writes with these numbers, each from 0, are to fail.
    ///
    /// # Errors
    ///
    /// `NoMemory`.
    pub fn new(
        alloc: Global,
        waiting: LinkedList<MemTalk>,
        open_fails: Vec<u64>,
        answer_fails: Vec<u64>,
        write_fails: Vec<u64>,
    ) -> Result<MemStreams, NoMemory>
        ensures told { IfOk result (λ s. s.told ≡ record {
          opens = [];
          closed = [];
          current = None;
          answers = 0;
          failed = 0;
          is_ended = false;
          greatest = 0;
          shortest = None;
        }) }
        ensures waiting { IfOk result (λ s. (s.waiting ≡ waiting) × (s.current ≡ None)) }
        ensures opens { IfOk result (λ s. s.opens ≡ record {
          made = 0;
          fails = open_fails.items;
          faults = 0;
        }) }
        ensures answers { IfOk result (λ s. s.answers ≡ record {
          made = 0;
          fails = answer_fails.items;
          faults = 0;
        }) }
        ensures writes { IfOk result (λ s. s.writes ≡ record {
          made = 0;
          fails = write_fails.items;
          faults = 0;
        }) }
    {
        let room = waiting.len();
        Ok(MemStreams {
            opens: Vec::with_capacity(alloc, 1)?,
            waiting,
            closed: Vec::with_capacity(alloc, room)?,
            current: None,
            failed: 0,
            is_ended: false,
            greatest: 0,
            shortest: None,
            open_calls: Calls::new(open_fails),
            answer_calls: Calls::new(answer_fails),
            write_calls: Calls::new(write_fails),
        })
    }

    /// Where they were opened.
    pub fn opens(&self) -> &[Listen]
        ensures { result.now ≡ self.now.told.opens }
    {
        self.opens.as_slice()
    }

    /// The conversations that were closed.
    pub fn closed(&self) -> &[MemTalk]
        ensures { map (λ t. t.talk) result.now ≡ self.now.told.closed }
    {
        self.closed.as_slice()
    }

    /// Counts an answer, which failed or not.
    fn count_answer(&mut self, has_failed: bool)
        ensures counted { self.new ≡ record self.old {
          told
              = record self.old.told {
                answers = raised self.old.told.answers 1;
                failed = if has_failed then raised self.old.told.failed 1 else self.old.told.failed;
              };
          answers = counted self.old.answers has_failed;
        } }
        ensures rose { has_failed ≡ true → Rose self.old.answers.faults self.new.answers.faults }
    {
        if has_failed {
            self.failed = self.failed.saturating_add(1);
            self.answer_calls.count_failed();
        } else {
            self.answer_calls.count_done();
        }
    }

    /// Counts a write, which failed or not.
    fn count_write(&mut self, has_failed: bool)
        ensures counted { self.new ≡ record self.old {
          told = record self.old.told {
            failed
                = if has_failed then raised self.old.told.failed 1 else self.old.told.failed;
          };
          writes = counted self.old.writes has_failed;
        } }
        ensures rose { has_failed ≡ true → Rose self.old.writes.faults self.new.writes.faults }
    {
        if has_failed {
            self.failed = self.failed.saturating_add(1);
            self.write_calls.count_failed();
        } else {
            self.write_calls.count_done();
        }
    }

    /// Begins the next conversation, and gives its peer. One that is open is closed.
    fn come(&mut self) -> Option<Peer>
        ensures some { IfSome result (λ p. (self.new.told ≡ coming p self.old.told)
            × IsNextTalk (Accepting.Come p) self.old self.new) }
        ensures none { IfNone result ((self.new ≡ self.old) × (self.old.waiting ≡ [])) }
        ensures calls { (self.new.opens ≡ self.old.opens)
            × (self.new.answers ≡ self.old.answers) × (self.new.writes ≡ self.old.writes) }
    {
        let Some(mut talk) = self.waiting.pop_front() else {
            return None;
        };
        if let Some(before) = self.current.take() {
            self.closed.push_reserved(before);
        }
        talk.begin();
        let peer = talk.peer();
        self.current = Some(talk);
        Some(peer)
    }

    /// What comes next of the open conversation.
    fn hear(&mut self, known: u64, place: u64, buffer: &mut [u8]) -> Reading
        ensures heard { HasHeard
            known place buffer.new result self.old.told.current self.new.told.current }
        ensures next { IsNextPiece
            result buffer.new (coming_of self.old.current) (coming_of self.new.current) }
        ensures failed { (result ≡ Reading.Failed)
            ↔ IsTooLong (length buffer.old) (coming_of self.old.current) }
        ensures kept { result ≡ Reading.Failed → self.new.current ≡ self.old.current }
        ensures within { IsWithin result (length buffer.old) }
        ensures buffer { length buffer.new ≡ length buffer.old }
        ensures rest { self.new ≡ record self.old {
          told = record self.old.told {
            current
                = self.new.told.current;
          };
          current = self.new.current;
        } }
    {
        match self.current.take() {
            None => Reading::Closed,
            Some(mut talk) => {
                let reading = talk.next_piece(known, place, buffer);
                self.current = Some(talk);
                reading
            }
        }
    }

    /// Writes to the open conversation as many octets as there is room for, and answers whether these are all.
    fn say(&mut self, serial: u64, octets: &[u8]) -> bool
        ensures wrote { self.new.told
            ≡ writing serial (take (room_of self.old.current) octets.now) self.old.told }
        ensures all { IsTrue result ↔ HasRoom (length octets.now) self.old.current }
        ensures rest { self.new ≡ record self.old {
          told = self.new.told;
          current = self.new.current;
        } }
    {
        self.greatest = self.greatest.max(serial);
        match self.current.take() {
            None => false,
            Some(mut talk) => {
                let is_all = talk.write(octets);
                self.current = Some(talk);
                is_all
            }
        }
    }
}

impl Streams for MemStreams {
    ghost told = { λ s. record { past = Some s.told; faults = streams_faults s } };

    fn open(&mut self, listen: &Listen) -> Opening
        ensures open { BothTell
            (Some self.old.told) (Some self.new.told) (IsOpening listen.now result) }
        ensures later { streams_faults self.old ≤ streams_faults self.new }
        ensures cause { result ≡ Opening.Failed
            → Rose (streams_faults self.old) (streams_faults self.new) }
        ensures stays { result ≢ Opening.Failed
            → streams_faults self.new ≡ streams_faults self.old }
        // It fails only where it is to, or where they were opened.
        ensures failed { (result ≡ Opening.Failed) ↔ OpenFails self.old }
        ensures unnoted { result ≡ Opening.Failed → self.new.told ≡ self.old.told }
        ensures rest { self.new ≡ record self.old {
          told = self.new.told;
          opens = counted self.old.opens (is_shut result);
        } }
    {
        if self.open_calls.is_to_fail() || !self.opens.is_empty() {
            self.open_calls.count_failed();
            return Opening::Failed;
        }
        self.open_calls.count_done();
        self.opens.push_reserved(*listen);
        Opening::Ready
    }

    fn accept(&mut self, known: u64) -> Accepting
        ensures accept { BothTell
            (Some self.old.told) (Some self.new.told) (IsAccept known result) }
        ensures later { streams_faults self.old ≤ streams_faults self.new }
        ensures cause { result ≡ Accepting.Failed
            → Rose (streams_faults self.old) (streams_faults self.new) }
        ensures stays { result ≢ Accepting.Failed
            → streams_faults self.new ≡ streams_faults self.old }
        // It fails only where it is to, and ends only where no conversation waits.
        ensures failed { (result ≡ Accepting.Failed) ↔ AcceptFails self.old }
        ensures end { (result ≡ Accepting.End)
            ↔ (self.old.told.is_ended ≡ true) ⊎ ((self.old.waiting ≡ []) × ¬ AcceptFails self.old) }
        ensures busy { result ≢ Accepting.Idle }
        ensures next { IsNextTalk result self.old self.new }
        ensures counted { self.new.answers ≡ counted self.old.answers (is_refused result) }
        ensures others { (self.new.opens ≡ self.old.opens) × (self.new.writes ≡ self.old.writes) }
    {
        self.greatest = self.greatest.max(known);
        if self.is_ended {
            self.count_answer(false);
            return Accepting::End;
        }
        if self.answer_calls.is_to_fail() {
            self.count_answer(true);
            return Accepting::Failed;
        }
        self.count_answer(false);
        match self.come() {
            None => {
                self.is_ended = true;
                Accepting::End
            }
            Some(peer) => Accepting::Come(peer),
        }
    }

    fn read(&mut self, known: u64, buffer: &mut [u8]) -> Reading
        requires { 1 ≤ length buffer.old }
        ensures read { BothTell (Some self.old.told)
            (Some self.new.told) (IsRead known (length buffer.old) buffer.new result) }
        ensures within { IsWithin result (length buffer.old) }
        ensures buffer { length buffer.new ≡ length buffer.old }
        ensures later { streams_faults self.old ≤ streams_faults self.new }
        ensures cause { result ≡ Reading.Failed
            → Rose (streams_faults self.old) (streams_faults self.new) }
        ensures stays { result ≢ Reading.Failed
            → streams_faults self.new ≡ streams_faults self.old }
        // It fails only where it is to, or where the next piece is longer than the buffer, and then takes nothing.
        ensures failed { (result ≡ Reading.Failed) ↔ ReadFails (length buffer.old) self.old }
        ensures next { ¬ Contains self.old.answers.fails self.old.answers.made → IsNextPiece
            result buffer.new (coming_of self.old.current) (coming_of self.new.current) }
        ensures kept { result ≡ Reading.Failed → self.new.current ≡ self.old.current }
        ensures counted { self.new.answers ≡ counted self.old.answers (is_broken result) }
        ensures others { (self.new.opens ≡ self.old.opens)
            × (self.new.writes ≡ self.old.writes) × (self.new.waiting ≡ self.old.waiting) }
    {
        let place = self.answer_calls.made();
        self.greatest = self.greatest.max(known);
        self.shortest = shorter(self.shortest, buffer.len());
        if self.answer_calls.is_to_fail() {
            self.count_answer(true);
            return Reading::Failed;
        }
        let reading = self.hear(known, place, buffer);
        self.count_answer(is_broken(&reading));
        reading
    }

    fn write(&mut self, serial: u64, octets: &[u8]) -> Writing
        ensures write { BothTell
            (Some self.old.told) (Some self.new.told) (IsWrite serial octets.now result) }
        ensures later { streams_faults self.old ≤ streams_faults self.new }
        ensures cause { result ≡ Writing.Failed
            → Rose (streams_faults self.old) (streams_faults self.new) }
        ensures stays { result ≢ Writing.Failed
            → streams_faults self.new ≡ streams_faults self.old }
        // It fails only where it is to, and then writes nothing, or where there is not room for all octets in an open conversation, and then writes those that there is room for.
        ensures failed { (result ≡ Writing.Failed) ↔ WriteFails (length octets.now) self.old }
        ensures to_fail { Contains self.old.writes.fails self.old.writes.made
            → self.new.told ≡ failing (writing serial [] self.old.told) }
        ensures short { ¬ Contains self.old.writes.fails self.old.writes.made
            → result ≡ Writing.Failed → self.new.told
            ≡ failing (writing serial (take (room_of self.old.current) octets.now) self.old.told) }
        ensures counted { self.new.writes ≡ counted self.old.writes (is_cut result) }
        ensures others { (self.new.opens ≡ self.old.opens)
            × (self.new.answers ≡ self.old.answers) × (self.new.waiting ≡ self.old.waiting) }
    {
        if self.write_calls.is_to_fail() {
            let _ = self.say(serial, &[]);
            self.count_write(true);
            return Writing::Failed;
        }
        let is_all = self.say(serial, octets);
        self.count_write(!is_all);
        if is_all {
            Writing::Done
        } else {
            Writing::Failed
        }
    }

    fn close(&mut self)
        ensures close { BothTell (Some self.old.told) (Some self.new.told) (λ before after.
            after ≡ closing before) }
        ensures stays { streams_faults self.new ≡ streams_faults self.old }
        ensures rest { self.new ≡ record self.old { told = closing self.old.told; current = None } }
    {
        if let Some(talk) = self.current.take() {
            self.closed.push_reserved(talk);
        }
    }
}

fn is_broken(reading: &Reading) -> bool
    ensures { result ≡ is_broken reading.now }
{
    matches!(reading, Reading::Failed)
}
