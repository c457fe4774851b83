//! A file or a pipe of the system that is opened by its name, as a source.
ghost use Rattle.std.specs.Prelude.{◌≡◌, ◌≢◌, ◌≤◌, ◌↔◌, ◌++◌, ◌∷◌, ℕ, [], Some, None, true, false, take, length, is_some};
ghost use Rattle.std.specs.Io.KnownBytes.{Consumes, IsAtEnd, Keeps};
ghost use Rattle.outside.specs.Faults.{BothTell, Rose, raised};
ghost use Rattle.outside.specs.NamedSource.{IsNamed};
ghost use Rattle.outside.specs.Source.{IsRead, IsWithin};
ghost use Rattle.edges.specs.Streams.{left_of, unopened};

use crate::heard::Heard;
use crate::pieces::read_piece;
use outside::{NamedSource, Opening, Read, Source};
use std::fs::{self, OpenOptions};
use std::io;
use std::marker::Model;
use std::os::unix::fs::FileTypeExt;
use std::rt::Files;

/// A file or a pipe that is opened by its name, once, and read to its end. Before that each read fails.
#[derive(Drop)]
pub struct NamedStream<'a, R: Files> {
    rt: &'a R,
    stream: Option<R::File>,
    heard: Heard,
}

impl<'a, R: Files> Model for NamedStream<'a, R> {
    ghost use Rattle.std.specs.Prelude.{◌≡◌, None, true, false};
    ghost use Rattle.edges.specs.Streams.{Named};

    ghost Value = { Named R.File };

    ghost view = { λ s. record {
      stream = s.stream;
      is_ended = s.heard.is_ended;
      faults = s.heard.faults;
      fed = s.heard.fed;
    } };

    ghost invariant = { λ s. s.stream ≡ None → s.heard.is_ended ≡ false };
}

impl<'a, R: Files> NamedStream<'a, R> {
    /// One that is not open, without a fault so far.
    pub fn new(rt: &'a R) -> NamedStream<'a, R>
        ensures { result ≡ unopened }
    {
        NamedStream {
            rt,
            stream: None,
            heard: Heard::new(),
        }
    }
}

/// Whether that is a pipe. What can't be looked at is none.
fn is_pipe<R: Files>(rt: &R, name: &str) -> bool {
    match fs::metadata(rt, name) {
        Ok(metadata) => metadata.file_type().is_fifo(),
        Err(_) => false,
    }
}

/// Opens a file for reading. A pipe is opened for writing too: then the opening waits for no writer, and the pipe does
/// not end when its last writer goes.
fn open_file<R: Files>(rt: &R, name: &str) -> io::Result<R::File> {
    OpenOptions::new()
        .read(true)
        .write(is_pipe(rt, name))
        .open(rt, name)
}

impl<R: Files> Source for NamedStream<'_, R> {
    ghost told = { λ s. record { past = Some s.fed; faults = s.faults } };

    fn read(&mut self, buffer: &mut [u8]) -> Read
        requires { 1 ≤ length buffer.old }
        ensures within { IsWithin result (length buffer.old) }
        ensures read { BothTell
            (Some self.old.fed) (Some self.new.fed) (IsRead (length buffer.old) result buffer.new) }
        ensures later { self.old.faults ≤ self.new.faults }
        ensures cause { result ≡ Read.Failed → Rose self.old.faults self.new.faults }
        ensures stays { result ≢ Read.Failed → self.new.faults ≡ self.old.faults }
        ensures counted { result ≡ Read.Failed → self.new.faults ≡ raised self.old.faults 1 }
        // Where it is not open it fails.
        ensures shut { self.old.stream ≡ None → (result ≡ Read.Failed) × (self.new.stream ≡ None) }
        // Where it is, it reads as a stream does: of one that tells its bytes the next ones are taken, where it has not ended; its end is answered where none is left, and from then on, without asking it; and a read that failed takes nothing.
        ensures got { (n : ℕ) → result ≡ Read.Got n → Consumes (left_of R.File.remaining
            self.old.stream) (left_of R.File.remaining self.new.stream) (take n buffer.new) }
        ensures end { result ≡ Read.End
            → self.old.is_ended ≡ false → IsAtEnd (left_of R.File.remaining self.new.stream) × Keeps
            (left_of R.File.remaining self.old.stream) (left_of R.File.remaining self.new.stream) }
        ensures failed { result ≡ Read.Failed → Keeps
            (left_of R.File.remaining self.old.stream) (left_of R.File.remaining self.new.stream) }
        ensures ended { (result ≡ Read.End) ↔ (self.new.is_ended ≡ true) }
        ensures unasked { self.old.is_ended ≡ true
            → (result ≡ Read.End) × (self.new.stream ≡ self.old.stream) }
        ensures open { is_some self.new.stream ≡ is_some self.old.stream }
    {
        let read = match &mut self.stream {
            None => Read::Failed,
            Some(_) if self.heard.is_ended() => Read::End,
            Some(stream) => read_piece(stream, buffer),
        };
        self.heard.note(buffer, read);
        read
    }
}

impl<R: Files> NamedSource for NamedStream<'_, R> {
    fn open(&mut self, name: &str) -> Opening
        ensures open { BothTell
            (Some self.old.fed) (Some self.new.fed) (IsNamed name.now result) }
        ensures later { self.old.faults ≤ self.new.faults }
        ensures cause { result ≡ Opening.Failed → Rose self.old.faults self.new.faults }
        ensures stays { result ≢ Opening.Failed → self.new.faults ≡ self.old.faults }
        ensures counted { result ≡ Opening.Failed → self.new.faults ≡ raised self.old.faults 1 }
        // It is opened once, and each name is noted.
        ensures ready { result ≡ Opening.Ready
            → (self.old.stream ≡ None) × (is_some self.new.stream ≡ true) }
        ensures failed { result ≡ Opening.Failed → self.new.stream ≡ self.old.stream }
        ensures noted { self.new.fed.names ≡ self.old.fed.names ++ name.now ∷ [] }
        ensures ended { self.new.is_ended ≡ self.old.is_ended }
    {
        self.heard.note_name(name);
        if self.stream.is_none() {
            if let Ok(file) = open_file(self.rt, name) {
                self.stream = Some(file);
                return Opening::Ready;
            }
        }
        self.heard.count_fault();
        Opening::Failed
    }
}
