//! Files and pipes that are opened by their names.
use edges::{NamedStream, StreamSource};
use outside::{NamedSource, Opening, Read, Source};
use std::alloc::Global;
use std::fs::OpenOptions;
use std::io::{self, Write};
use std::os::fd::AsRawFd;
use std::rt::Files;
use std::thread::{join_mut, sleep};
use std::time::{Clock, Duration};

/// Reads a piece of seven octets at most, and answers whether it is this one.
fn brings(source: &mut impl Source, octets: &[u8]) -> bool {
    let mut buffer = [0u8; 7];
    match source.read(&mut buffer) {
        Read::Got(len) => buffer.get(..len) == Some(octets),
        Read::End | Read::Failed => false,
    }
}

/// What comes of the next read.
fn read_of(source: &mut impl Source) -> Read {
    source.read(&mut [0u8; 7])
}

/// A file is read from its front, under its first name alone.
fn is_opened_once(stream: &mut impl NamedSource) -> bool {
    stream.open("/proc/version") == Opening::Ready
        && brings(stream, b"Linux v")
        && stream.open("/dev/null") == Opening::Failed
        && brings(stream, b"ersion ")
}

/// What has no octets ends, and goes on to end.
fn ends(stream: &mut impl NamedSource) -> bool {
    stream.open("/dev/null") == Opening::Ready
        && read_of(stream) == Read::End
        && read_of(stream) == Read::End
}

/// What is not there fails, is not read, and does not keep a further name from being opened.
fn fails(stream: &mut impl NamedSource) -> bool {
    read_of(stream) == Read::Failed
        && stream.open("there is no such file") == Opening::Failed
        && read_of(stream) == Read::Failed
        && ends(stream)
}

#[test]
fn files_by_name(rt: HostRuntime) {
    assert!(rt; is_opened_once(&mut NamedStream::new(&rt)));
    assert!(rt; ends(&mut NamedStream::new(&rt)));
    assert!(rt; fails(&mut NamedStream::new(&rt)));
}

/// The name of an open file.
fn name_of(alloc: Global, file: &impl AsRawFd) -> Option<String> {
    format!(in alloc; "/proc/self/fd/{}", file.as_raw_fd()).ok()
}

/// Writes into a pipe, and leaves it.
fn writes<R: Files>(rt: &R, name: &str, octets: &[u8]) -> io::Result<()> {
    let mut file = OpenOptions::new().write(true).open(rt, name)?;
    file.write_all(octets)
}

/// Opens a pipe that nobody writes to, and reads what comes of two writers, one after the other.
fn comes_of_two<R: Files>(rt: &R, name: &str) -> bool {
    let mut stream = NamedStream::new(rt);
    stream.open(name) == Opening::Ready
        && writes(rt, name, b"ab").is_ok()
        && brings(&mut stream, b"ab")
        && writes(rt, name, b"c").is_ok()
        && brings(&mut stream, b"c")
}

/// A pipe has no name of its own, but for that of an end that is open.
fn over_a_pipe<R: Files>(rt: &R, alloc: Global) -> Option<bool> {
    let (reader, writer) = io::pipe(rt).ok()?;
    let name = name_of(alloc, &reader)?;
    drop(writer);
    Some(comes_of_two(rt, name.as_str()))
}

#[test]
fn a_pipe_without_a_writer(rt: HostRuntime) {
    assert!(rt; over_a_pipe(&rt, rt.alloc()) == Some(true));
}

/// The next four octets, in one piece or more.
fn four_come(source: &mut impl Source) -> bool {
    let mut count = 0usize;
    for _ in 0..4u32 {
        match read_of(source) {
            Read::Got(len) => count = count.saturating_add(len),
            Read::End | Read::Failed => return false,
        }
        if count >= 4 {
            return true;
        }
    }
    false
}

/// Two writers, and a pause between them.
fn two_write<R: Files + Clock>(rt: &R, name: &str) -> bool {
    let is_first = writes(rt, name, b"ab").is_ok();
    sleep(rt, Duration::from_millis(50));
    is_first && writes(rt, name, b"cd").is_ok()
}

/// A thread waits at a pipe while writers come and go.
#[test]
fn writers_come_and_go(rt: HostRuntime) {
    let (reader, writer) = io::pipe(&rt).expect(&rt, "a pipe");
    let name = name_of(rt.alloc(), &reader).expect(&rt, "a name");
    drop(writer);
    let mut stream = NamedStream::new(&rt);
    assert!(rt; stream.open(name.as_str()) == Opening::Ready);
    let (is_read, is_written) = join_mut(
        &rt,
        &mut || four_come(&mut stream),
        &mut || two_write(&rt, name.as_str()),
    );
    assert!(rt; is_read && is_written);
}

/// A source that may be read in another thread.
fn may_go_elsewhere(_source: &(impl Source + Send)) -> bool {
    true
}

/// So may standard input.
#[test]
fn standard_input_in_a_thread(rt: HostRuntime) {
    assert!(rt; may_go_elsewhere(&StreamSource::new(rt.stdin())));
    assert!(rt; may_go_elsewhere(&NamedStream::new(&rt)));
}
