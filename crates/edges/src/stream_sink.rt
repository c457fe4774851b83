//! A writer of std, as a sink.
ghost use Rattle.std.specs.Prelude.{◌≡◌, ◌≢◌, ◌≤◌, ◌++◌, ℕ, Some, take};
ghost use Rattle.std.specs.Io.KnownBytes.{Appends};
ghost use Rattle.outside.specs.Faults.{BothTell, Rose};
ghost use Rattle.outside.specs.Sink.{IsPut};
ghost use Rattle.past_log.specs.Sink.{new_sink};

use crate::pieces::put_whole;
use outside::{Put, Sink};
use past_log::{SinkEvent, SinkPast};
use std::io::Write;
use std::marker::Model;

/// A stream of the system, how many puts failed, and what it took. It keeps nothing back.
#[derive(Drop)]
pub struct StreamSink<W: Write> {
    stream: W,
    faults: u64,
    past: SinkPast,
}

impl<W: Write> Model for StreamSink<W> {
    ghost use Rattle.edges.specs.Streams.{Writing};

    ghost Value = { Writing W };

    ghost view = { λ s. record { stream = s.stream; faults = s.faults; written = s.past.told } };
}

impl<W: Write> StreamSink<W> {
    /// One over this stream, without a fault so far.
    pub fn new(stream: W) -> StreamSink<W>
        ensures { result ≡ record { stream = stream; faults = 0; written = new_sink } }
    {
        StreamSink {
            stream,
            faults: 0,
            past: SinkPast::new(),
        }
    }
}

impl<W: Write> Sink for StreamSink<W> {
    ghost told = { λ s. record { past = Some s.written; faults = s.faults } };

    fn put(&mut self, piece: &[u8]) -> Put
        ensures put { BothTell
            (Some self.old.written) (Some self.new.written) (IsPut result piece.now) }
        ensures later { self.old.faults ≤ self.new.faults }
        ensures cause { result ≡ Put.Failed → Rose self.old.faults self.new.faults }
        ensures stays { result ≢ Put.Failed → self.new.faults ≡ self.old.faults }
        // A writer that tells its bytes has got what is noted, once, and nothing else: a beginning of the piece, also where
        // it failed, and the whole piece where not.
        ensures took { (k : ℕ)
            × (self.new.written.bytes ≡ self.old.written.bytes ++ take k piece.now)
            × Appends (W.contents self.old.stream) (W.contents self.new.stream) (take k piece.now) }
        ensures done { result ≡ Put.Done
            → Appends (W.contents self.old.stream) (W.contents self.new.stream) piece.now }
    {
        let (taken, put) = put_whole(&mut self.stream, piece);
        self.past.note(&SinkEvent { piece, taken });
        if put == Put::Failed {
            self.faults = self.faults.saturating_add(1);
        }
        put
    }
}
