//! Conversations in memory, which say stated pieces.
ghost use Rattle.std.specs.LinkedList.{linked_list_len};
ghost use Rattle.std.specs.Prelude.{◌≡◌, ◌≤◌, ◌-◌, ◌↔◌, ◌++◌, true, length, map, take, min, IfOk, IsTrue};
ghost use Rattle.outside.specs.MemStreams.{IsNextPiece, IsSaid, IsTooLong, fresh, piece_of};
ghost use Rattle.outside.specs.Streams.{IsWithin};
ghost use Rattle.outside.specs.declared.streams.Reading.{Reading};

use crate::Reading;
use addr_text::Peer;
use no_memory::NoMemory;
use std::alloc::Global;
use std::collections::LinkedList;
use std::marker::Model;

/// A piece that was read, with the serial that its reader knew, and how many answers of `accept` and `read` came before it.
#[derive(Drop)]
pub struct MemPiece {
    pub octets: Vec<u8>,
    pub known: u64,
    pub place: u64,
}

/// A conversation in memory: with whom, the pieces that are to come, and what was read and written.
#[derive(Drop)]
pub struct MemTalk {
    peer: Peer,
    coming: LinkedList<Vec<u8>>,
    pieces: Vec<MemPiece>,
    quiets: u64,
    written: Vec<u8>,
    /// For how many written octets there is room.
    room: usize,
}

impl Model for MemTalk {
    ghost use Rattle.std.specs.LinkedList.{linked_list_len};
    ghost use Rattle.std.specs.Prelude.{◌≤◌, ◌+◌, map, vec_len, vec_capacity};
    ghost use Rattle.outside.specs.MemStreams.{TalkInMemory, piece_of};

    ghost Value = { TalkInMemory };

    ghost view = { λ t. record {
      talk = record {
        peer = t.peer;
        pieces = map piece_of t.pieces.items;
        quiets = t.quiets;
        written = t.written.items;
      };
      coming = map (λ v. v.items) t.coming;
      room = t.room;
    } };

    ghost invariant = { λ t. (vec_len t.pieces + linked_list_len t.coming ≤ vec_capacity t.pieces)
        × (vec_len t.written ≤ t.room) × (t.room ≤ vec_capacity t.written) };
}

impl MemTalk {
    /// One that says these pieces, an empty one being a read that is quiet, with room for so many written octets.
    ///
    /// # Errors
    ///
    /// `NoMemory`.
    pub fn new(
        alloc: Global,
        peer: Peer,
        coming: LinkedList<Vec<u8>>,
        room: usize,
    ) -> Result<MemTalk, NoMemory>
        ensures { IfOk result (λ t. t ≡ record {
          talk = fresh peer;
          coming = map (λ v. v.items) coming;
          room = room;
        }) }
    {
        let pieces = Vec::with_capacity(alloc, coming.len())?;
        Ok(MemTalk {
            peer,
            coming,
            pieces,
            quiets: 0,
            written: Vec::with_capacity(alloc, room)?,
            room,
        })
    }

    /// With whom it is.
    pub fn peer(&self) -> Peer
        ensures { result ≡ self.now.talk.peer }
    {
        self.peer
    }

    /// The pieces that were read.
    pub fn pieces(&self) -> &[MemPiece]
        ensures { map piece_of result.now ≡ self.now.talk.pieces }
    {
        self.pieces.as_slice()
    }

    /// How many reads were quiet. The number stands still at the end of its type.
    pub fn quiets(&self) -> u64
        ensures { result ≡ self.now.talk.quiets }
    {
        self.quiets
    }

    /// The octets that were written.
    pub fn written(&self) -> &[u8]
        ensures { result.now ≡ self.now.talk.written }
    {
        self.written.as_slice()
    }

    /// Forgets what was read and written.
    pub(crate) fn begin(&mut self)
        ensures { self.new ≡ record self.old { talk = fresh self.old.talk.peer } }
    {
        self.pieces.clear();
        self.quiets = 0;
        self.written.clear();
    }

    /// What comes next. A piece for which the buffer is too short stays.
    pub(crate) fn next_piece(&mut self, known: u64, place: u64, buffer: &mut [u8]) -> Reading
        ensures said { IsSaid known place buffer.new result self.old.talk self.new.talk }
        ensures next { IsNextPiece result buffer.new self.old.coming self.new.coming }
        ensures failed { (result ≡ Reading.Failed) ↔ IsTooLong (length buffer.old) self.old.coming }
        ensures within { IsWithin result (length buffer.old) }
        ensures buffer { length buffer.new ≡ length buffer.old }
        ensures kept { result ≡ Reading.Failed → self.new ≡ self.old }
        ensures room { self.new.room ≡ self.old.room }
    {
        match self.coming.front() {
            None => return Reading::Closed,
            Some(piece) => {
                if piece.len() > buffer.len() {
                    return Reading::Failed;
                }
            }
        }
        let Some(octets) = self.coming.pop_front() else {
            return Reading::Closed;
        };
        let len = octets.len();
        if len == 0 {
            self.quiets = self.quiets.saturating_add(1);
            return Reading::Quiet;
        }
        put_octets(buffer, octets.as_slice());
        self.pieces.push_reserved(MemPiece {
            octets,
            known,
            place,
        });
        Reading::Got(len)
    }

    /// Writes as many octets as there is room for, and answers whether these are all.
    pub(crate) fn write(&mut self, octets: &[u8]) -> bool
        ensures wrote { self.new
            ≡ record self.old {
              talk = record self.old.talk {
                written = self.old.talk.written
                    ++ take (self.old.room - length self.old.talk.written) octets.now;
              };
            } }
        ensures all { IsTrue result
            ↔ (length octets.now ≤ self.old.room - length self.old.talk.written) }
    {
        let fits = octets.len().min(self.room - self.written.len());
        self.written.extend_from_slice(&octets[..fits]).is_ok() && fits == octets.len()
    }
}

fn put_octets(buffer: &mut [u8], octets: &[u8])
    requires { length octets.now ≤ length buffer.old }
    ensures front { take (length octets.now) buffer.new ≡ octets.now }
    ensures length { length buffer.new ≡ length buffer.old }
{
    buffer[..octets.len()].copy_from_slice(octets);
}
