//! Standard output and standard error, as writers of one type.
use std::io::{self, Stderr, Stdout, Write};

/// Standard output or standard error. It keeps nothing back.
#[derive(Drop)]
pub enum StandardStream {
    Output(Stdout),
    Error(Stderr),
}

impl Write for StandardStream {
    fn write(&mut self, octets: &[u8]) -> io::Result<usize> {
        match self {
            StandardStream::Output(stream) => stream.write(octets),
            StandardStream::Error(stream) => stream.write(octets),
        }
    }

    fn flush(&mut self) -> io::Result<()> {
        match self {
            StandardStream::Output(stream) => stream.flush(),
            StandardStream::Error(stream) => stream.flush(),
        }
    }
}
