//! A reader of std, as a source.
ghost use Rattle.std.specs.Prelude.{◌≡◌, ◌≢◌, ◌≤◌, ◌↔◌, ℕ, Some, true, false, take, length};
ghost use Rattle.std.specs.Io.KnownBytes.{Consumes, IsAtEnd, Keeps};
ghost use Rattle.outside.specs.Faults.{BothTell, Rose};
ghost use Rattle.outside.specs.Source.{IsRead, IsWithin};
ghost use Rattle.past_log.specs.Source.{new_source};

use crate::heard::Heard;
use crate::pieces::read_piece;
use outside::{Read, Source};
use std::io;
use std::marker::Model;

/// A stream of the system, whether it has ended, and how many reads failed. Once it has ended it is asked no more.
#[derive(Drop)]
pub struct StreamSource<T: io::Read> {
    stream: T,
    heard: Heard,
}

impl<T: io::Read> Model for StreamSource<T> {
    ghost use Rattle.edges.specs.Streams.{Reading};

    ghost Value = { Reading T };

    ghost view = { λ s. record {
      stream = s.stream;
      is_ended = s.heard.is_ended;
      faults = s.heard.faults;
      fed = s.heard.fed;
    } };
}

impl<T: io::Read> StreamSource<T> {
    /// One over this stream, without a fault so far.
    pub fn new(stream: T) -> StreamSource<T>
        ensures { result ≡ record {
          stream = stream;
          is_ended = false;
          faults = 0;
          fed = new_source;
        } }
    {
        StreamSource {
            stream,
            heard: Heard::new(),
        }
    }
}

impl<T: io::Read> Source for StreamSource<T> {
    ghost told = { λ s. record { past = Some s.fed; faults = s.faults } };

    fn read(&mut self, buffer: &mut [u8]) -> Read
        requires { 1 ≤ length buffer.old }
        ensures within { IsWithin result (length buffer.old) }
        ensures read { BothTell
            (Some self.old.fed) (Some self.new.fed) (IsRead (length buffer.old) result buffer.new) }
        ensures later { self.old.faults ≤ self.new.faults }
        ensures cause { result ≡ Read.Failed → Rose self.old.faults self.new.faults }
        ensures stays { result ≢ Read.Failed → self.new.faults ≡ self.old.faults }
        // Of a reader that tells its bytes the next ones are taken, where it has not ended; its end is answered where none is left, and from then on, without asking it; and a read that failed takes nothing.
        ensures got { (n : ℕ) → result ≡ Read.Got n → Consumes
            (T.remaining self.old.stream) (T.remaining self.new.stream) (take n buffer.new) }
        ensures end { result ≡ Read.End
            → self.old.is_ended ≡ false → IsAtEnd (T.remaining self.new.stream)
            × Keeps (T.remaining self.old.stream) (T.remaining self.new.stream) }
        ensures failed { result ≡ Read.Failed
            → Keeps (T.remaining self.old.stream) (T.remaining self.new.stream) }
        ensures ended { (result ≡ Read.End) ↔ (self.new.is_ended ≡ true) }
        ensures unasked { self.old.is_ended ≡ true → (result ≡ Read.End)
            × (self.new.stream ≡ self.old.stream) × (self.new.faults ≡ self.old.faults) }
    {
        let read = if self.heard.is_ended() {
            Read::End
        } else {
            read_piece(&mut self.stream, buffer)
        };
        self.heard.note(buffer, read);
        read
    }
}
