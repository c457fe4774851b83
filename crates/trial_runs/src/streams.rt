//! A lane for conversations by a script: what they say, and which of its calls fail.
use crate::fails::{Fails, NEVER};
use crate::lanes::CLIENT;
use glb::StreamLane;
use map_cell::MemDoor;
use no_memory::NoMemory;
use outside::{MemGate, MemStreams, MemTalk};
use std::alloc::Global;
use std::collections::LinkedList;

/// How many octets may be written to a conversation.
const ROOM: usize = 4096;

/// What each conversation with the client says, piece by piece, of which an empty one is a read that is quiet; how often
/// the gate lets the lane go on; which openings, answers of `accept` and `read`, and writes fail; and which looks the door
/// refuses.
#[derive(Clone, Copy)]
pub struct StreamScript {
    pub talks: &'static [&'static [&'static [u8]]],
    pub goes: usize,
    pub opens: Fails,
    pub answers: Fails,
    pub writes: Fails,
    pub looks: Fails,
}

/// No conversation, and a gate that ends the lane at its first turn.
pub const NO_TALKS: StreamScript = StreamScript {
    talks: &[],
    goes: 1,
    opens: NEVER,
    answers: NEVER,
    writes: NEVER,
    looks: NEVER,
};

/// A lane for conversations in memory.
pub type MemStreamLane = StreamLane<MemStreams, MemGate, MemDoor>;

fn talk_of(alloc: Global, pieces: &[&[u8]]) -> Result<MemTalk, NoMemory> {
    let mut coming = LinkedList::new(alloc);
    for piece in pieces {
        coming.push_back(Vec::from_slice(alloc, *piece)?)?;
    }
    MemTalk::new(alloc, CLIENT, coming, ROOM)
}

/// The conversations that wait.
fn talks_of(alloc: Global, talks: &[&[&[u8]]]) -> Result<LinkedList<MemTalk>, NoMemory> {
    let mut waiting = LinkedList::new(alloc);
    for pieces in talks {
        waiting.push_back(talk_of(alloc, *pieces)?)?;
    }
    Ok(waiting)
}

/// Streams on which these conversations wait, and of which these openings fail.
fn streams_over(
    alloc: Global,
    waiting: LinkedList<MemTalk>,
    opens: Vec<u64>,
    script: StreamScript,
) -> Result<MemStreams, NoMemory> {
    let answers = script.answers.numbers(alloc)?;
    let writes = script.writes.numbers(alloc)?;
    MemStreams::new(alloc, waiting, opens, answers, writes)
}

fn streams_of(alloc: Global, script: StreamScript) -> Result<MemStreams, NoMemory> {
    let waiting = talks_of(alloc, script.talks)?;
    let opens = script.opens.numbers(alloc)?;
    streams_over(alloc, waiting, opens, script)
}

/// The lane that a script says.
pub(crate) fn stream_of(alloc: Global, script: StreamScript) -> Result<MemStreamLane, NoMemory> {
    let streams = streams_of(alloc, script)?;
    let looks = script.looks.numbers(alloc)?;
    let gate = MemGate::new(alloc, script.goes)?;
    let door = MemDoor::new(Vec::new(alloc), looks);
    Ok(StreamLane::new(streams, gate, door))
}
