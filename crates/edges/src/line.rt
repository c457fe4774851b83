//! The line of a connection: its socket, and what came of its calls.
ghost use Rattle.std.specs.Prelude.{◌≡◌, length};
ghost use Rattle.std.specs.Io.{ReadsAtMost, WritesAtMost};
ghost use Rattle.past_log.specs.Line.{after_read, after_write, new_line};

use mio::net::TcpStream;
use past_log::{LineEvent, LinePast};
use std::io::{Read, Result, Write};

/// The socket of a connection, which nothing reaches but these two calls. It tells what the system answered to each.
#[derive(Drop)]
pub(crate) struct Line {
    stream: TcpStream,
    past: LinePast,
}

impl Line {
    /// One that had no call.
    pub(crate) fn new(stream: TcpStream) -> Line
        ensures stream { result.stream ≡ stream }
        ensures told { result.past.told ≡ new_line }
    {
        Line {
            stream,
            past: LinePast::new(),
        }
    }

    /// Reads once, to the front of the buffer, and answers what the system does.
    pub(crate) fn read(&mut self, buffer: &mut [u8]) -> Result<usize>
        ensures bound { ReadsAtMost result buffer.new }
        ensures buffer { length buffer.new ≡ length buffer.old }
        ensures told { self.new.past.told ≡ after_read result self.old.past.told }
        ensures same { self.new.stream ≡ self.old.stream }
    {
        let answer = self.stream.read(buffer);
        self.past.note(&LineEvent::Read(&answer));
        answer
    }

    /// Writes once, and answers what the system does.
    pub(crate) fn write(&mut self, octets: &[u8]) -> Result<usize>
        ensures bound { WritesAtMost result octets.now }
        ensures told { self.new.past.told ≡ after_write result self.old.past.told }
        ensures same { self.new.stream ≡ self.old.stream }
    {
        let answer = self.stream.write(octets);
        self.past.note(&LineEvent::Written(&answer));
        answer
    }
}
