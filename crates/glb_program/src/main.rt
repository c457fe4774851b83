//! `glb`, the mapping system of a content delivery network.
#![tactic(auto)]

ghost use Rattle.std.specs.Prelude.{◌≡◌, length};
ghost use Rattle.std.specs.Process.{exit_status};
ghost use Rattle.glb.specs.Outcome.{code_of};
ghost use Rattle.glb.specs.Told.{all_told};
ghost use Rattle.glb_program.specs.Fresh.{new_surroundings};
ghost use Rattle.glb_program.specs.Ran.{Ran};

mod network;

use edges::{
    FileShelf, FlagPace, NamedStream, SharedTcp, SharedUdp, StandardStream, StopFlag, StreamSink,
    StreamSource,
};
use glb::{Lane, MOST_TURNS, Status, StreamLane, glb};
use map_cell::Door;
use network::{Network, lanes_of};
use no_memory::NoMemory;
use outside::{Gate, NamedSource, Pace, Port, Shelf, Sink, Source, Streams};
use std::env;
use std::io::ErrorKind;
use std::process::ExitCode;
use std::rt::Env;
use std::sync::Wait;
use std::thread::{self, Builder, Threads};

/// The words of the command line. Where one of them is no text, there is none at all.
fn read_args<R: Env + AllocGlobal>(rt: &R) -> Result<Vec<String>, NoMemory> {
    match env::args(rt) {
        Ok(args) => Ok(args.collect(rt.alloc())?),
        Err(error) if error.kind() == ErrorKind::OutOfMemory => Err(NoMemory),
        Err(_) => Ok(Vec::new(rt.alloc())),
    }
}

/// The number of a status, as the process ends with it.
fn exit_code(status: Status) -> ExitCode
    ensures { exit_status result ≡ code_of status }
{
    ExitCode::from(status.code())
}

/// What the mapper's thread alone uses: the files, where all that is said goes, where the texts of maps go, and the pace.
#[derive(Drop)]
struct MapperDevices<F, K, M> {
    files: F,
    out: K,
    maps: K,
    pace: M,
}

/// All of the program behind its words, which it reads: over these devices of the mapper, this feed, these sources of further
/// feeds, and these lanes.
fn run_words<
    R: Threads + Wait + Sync + Env + AllocGlobal,
    F: Shelf,
    S: Source + Send,
    N: NamedSource + Send,
    K: Sink,
    P: Port + Send,
    Q: Streams + Send,
    G: Gate + Send,
    D: Door + Send,
    M: Pace,
>(
    rt: &R,
    mapper: &mut MapperDevices<F, K, M>,
    feed: &mut S,
    more: &mut [N],
    lanes: &mut [Lane<P, G, D>],
    stream: &mut StreamLane<Q, G, D>,
) -> Status
    requires feeds { length more.old ≡ 3 }
    requires lanes { length lanes.old ≡ 16 }
    // All of it is new: so each count of faults counts from 0 on, and what is told is all that was ever asked.
    requires fresh { (all_told F.told S.told N.told K.told M.told
        mapper.old.files feed.old more.old mapper.old.out mapper.old.maps
        lanes.old stream.old mapper.old.pace)
        ≡ new_surroundings }
    // Unless the words could not be read for want of memory, where nothing is touched, it is a run of what some words ask for.
    ensures { Ran
        (all_told F.told S.told N.told K.told M.told
        mapper.old.files feed.old more.old mapper.old.out mapper.old.maps
        lanes.old stream.old mapper.old.pace)
        (all_told F.told S.told N.told K.told M.told
        mapper.new.files feed.new more.new mapper.new.out mapper.new.maps
        lanes.new stream.new mapper.new.pace)
        result }
{
    match read_args(rt) {
        Ok(words) => glb(
            rt,
            rt.alloc(),
            words.as_slice(),
            &mut mapper.files,
            feed,
            more,
            &mut mapper.out,
            &mut mapper.maps,
            lanes,
            stream,
            &mut mapper.pace,
            MOST_TURNS,
        ),
        Err(NoMemory) => Status::NoMemory,
    }
}

/// How large the stack is that the program has, in octets, whatever the limits are under which it is started.
const STACK: usize = 8 << 20;

/// Over the files of the system, standard input as the feed, files and pipes as further ones, standard output, standard error for the texts of maps, lanes over sockets of UDP at one place, and one over connections of TCP, all of which stop when the feed has ended. It runs in a thread with a stack of its own; where there is no such thread, memory is wanting.
fn main(rt: HostRuntime) -> ExitCode {
    let host = &rt;
    let work = move || -> Status {
        let mut feed = StreamSource::new(host.stdin());
        let mut more = [
            NamedStream::new(host),
            NamedStream::new(host),
            NamedStream::new(host),
        ];
        let udp = SharedUdp::new();
        let tcp = SharedTcp::new();
        let flag = StopFlag::new();
        let pace = FlagPace::new(&flag);
        let mut mapper = MapperDevices {
            files: FileShelf::new(host),
            out: StreamSink::new(StandardStream::Output(host.stdout())),
            maps: StreamSink::new(StandardStream::Error(host.stderr())),
            pace,
        };
        match lanes_of(host.alloc(), host, &udp, &tcp, &flag) {
            Ok(
                Network {
                    mut lanes,
                    mut stream,
                },
            ) => run_words(
                host,
                &mut mapper,
                &mut feed,
                &mut more,
                lanes.as_mut_slice(),
                &mut stream,
            ),
            Err(NoMemory) => Status::NoMemory,
        }
    };
    let status = thread::scope(thread::scope_env(), host, move |scope| -> Option<Status> {
        let there = Builder::new().stack_size(STACK).spawn_scoped(scope, work);
        Some(there.ok()?.join(host))
    });
    exit_code(status.unwrap_or(Status::NoMemory))
}

#[cfg(test)]
mod tests;
