//! The program over what it is lent in memory, and what came of it.
ghost use Rattle.std.specs.Prelude.{◌≡◌, ◌≤◌, ◌^◌, IfOk, vec_len};

use crate::devices::{Devices, Feeds, Sinks};
use crate::lanes::{MemLane, Script, lanes_of};
use crate::streams::{MemStreamLane, StreamScript, stream_of};
use glb::{Lane, Status, StreamLane, glb};
use map_cell::{Door, MemDoor};
use no_memory::NoMemory;
use outside::{
    Gate, MemGate, MemNamedSource, MemPace, MemPort, MemShelf, MemSink, MemSource, MemStreams,
    Pace, Port, Streams,
};
use std::alloc::Global;
use std::sync::Wait;
use std::thread::Threads;

/// All that the program is lent.
#[derive(Drop)]
pub struct AllLent<P: Port, Q: Streams, G: Gate, D: Door, M> {
    pub words: Vec<String>,
    pub files: MemShelf,
    pub feed: MemSource,
    pub more: Vec<MemNamedSource>,
    pub out: MemSink,
    pub maps: MemSink,
    pub lanes: Vec<Lane<P, G, D>>,
    pub stream: StreamLane<Q, G, D>,
    pub pace: M,
}

/// The same, all of it in memory.
pub type MemLent = AllLent<MemPort, MemStreams, MemGate, MemDoor, MemPace>;

/// Runs the program.
pub fn run<
    R: Threads + Wait + Sync,
    P: Port + Send,
    Q: Streams + Send,
    G: Gate + Send,
    D: Door + Send,
    M: Pace,
>(rt: &R, alloc: Global, lent: &mut AllLent<P, Q, G, D, M>, turns: u64) -> Status
    requires feeds { vec_len lent.old.more ≡ 3 }
    requires lanes { vec_len lent.old.lanes ≡ 16 }
    requires turns { (1 ≤ turns) × (turns ≤ 2 ^ 48) }
{
    glb(
        rt,
        alloc,
        lent.words.as_slice(),
        &mut lent.files,
        &mut lent.feed,
        lent.more.as_mut_slice(),
        &mut lent.out,
        &mut lent.maps,
        lent.lanes.as_mut_slice(),
        &mut lent.stream,
        &mut lent.pace,
        turns,
    )
}

/// What came of a run: the status, and what was lent.
#[derive(Drop)]
pub struct Came {
    pub status: Status,
    pub lent: MemLent,
}

/// All that a run is lent: these devices, lanes, a lane for conversations and a pace.
pub fn lent_of<P: Port, Q: Streams, G: Gate, D: Door, M>(
    devices: Devices,
    lanes: Vec<Lane<P, G, D>>,
    stream: StreamLane<Q, G, D>,
    pace: M,
) -> AllLent<P, Q, G, D, M>
    ensures { (vec_len result.lanes ≡ vec_len lanes)
        × (vec_len result.more ≡ vec_len devices.feeds.more) }
{
    let Devices {
        words,
        files,
        feeds: Feeds { first, more },
        outputs: Sinks { out, maps },
    } = devices;
    AllLent {
        words,
        files,
        feed: first,
        more,
        out,
        maps,
        lanes,
        stream,
        pace,
    }
}

/// Lanes, a lane for conversations and a pace, in memory.
#[derive(Drop)]
struct Sides {
    lanes: Vec<MemLane>,
    stream: MemStreamLane,
    pace: MemPace,
}

/// Lanes by these scripts.
fn sides_of(alloc: Global, scripts: &[Script], stream: StreamScript) -> Result<Sides, NoMemory>
    ensures { IfOk result (λ s. vec_len s.lanes ≡ 16) }
{
    let lanes = lanes_of(alloc, scripts)?;
    let stream = stream_of(alloc, stream)?;
    let pace = MemPace::new(alloc, 100)?;
    Ok(Sides {
        lanes,
        stream,
        pace,
    })
}

/// A number of turns that may be, from 1 to 1000.
fn turns_of(turns: u64) -> u64
    ensures { (1 ≤ result) × (result ≤ 2 ^ 48) }
{
    if turns >= 1 && turns <= 1000 {
        turns
    } else {
        1
    }
}

/// Runs the program over these devices, and lanes by these scripts.
pub(crate) fn came_by<R: Threads + Wait + Sync + AllocGlobal>(
    rt: &R,
    devices: Devices,
    scripts: &[Script],
    stream: StreamScript,
    turns: u64,
) -> Result<Came, NoMemory>
    requires { vec_len devices.feeds.more ≡ 3 }
{
    let alloc = rt.alloc();
    let Sides {
        lanes,
        stream,
        pace,
    } = sides_of(alloc, scripts, stream)?;
    let mut lent = lent_of(devices, lanes, stream, pace);
    let status = run(rt, alloc, &mut lent, turns_of(turns));
    Ok(Came { status, lent })
}

/// Whether these octets are the first pieces, one behind the other.
pub fn are_joined(octets: &[u8], pieces: &[&str], count: usize) -> bool {
    let mut rest = octets;
    for piece in pieces.iter().take(count) {
        match rest.strip_prefix(piece.as_bytes()) {
            Some(behind) => rest = behind,
            None => return false,
        }
    }
    rest.is_empty()
}

impl Came {
    /// What the output got.
    pub fn text(&self) -> &[u8] {
        self.lent.out.bytes()
    }

    /// How many puts the output got.
    pub fn puts(&self) -> u64 {
        self.lent.out.puts()
    }

    /// How many files were asked for.
    pub fn loads(&self) -> usize {
        self.lent.files.asked().len()
    }

    /// Whether it ended with this status, put this text at once, or nothing where it is empty, and asked for so many files.
    pub fn is(&self, status: Status, text: &[u8], loads: usize) -> bool {
        let puts = if text.is_empty() { 0 } else { 1 };
        self.status == status && self.text() == text && self.puts() == puts && self.loads() == loads
    }

    /// Whether it ended with this status, and put the pieces, one behind the other.
    pub fn says(&self, status: Status, pieces: &[&str]) -> bool {
        self.status == status && are_joined(self.text(), pieces, pieces.len())
    }
}
