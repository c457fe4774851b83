//! Stream lanes over the example, with streams, gates and notes in memory. Each reply is stated by its octets.
ghost use Rattle.std.specs.Prelude.{◌≡◌};
ghost use Rattle.published_map.specs.Version.{IsVersion};

use addr_text::{Addr, Peer};
use lane_model::Ended;
use map_cell::{EmptyHistory, MemDoor, Naming, Note, PlainDoor, Viewer, open};
use name_workers::Worker;
use outside::{MemGate, MemNotes, MemStreams, MemTalk};
use published_map::MapVersion;
use std::alloc::Global;
use std::collections::LinkedList;
use std::marker::Brand;
use std::sync::Wait;
use std::test::Fail;
use tcp_lane::serve_streams;
use world_versions::first_version;

mod long;

/// A client of the second group, of whose seven units two are at pool A (192.0.2.1) and five at pool B (192.0.2.2).
const CLIENT: Peer = Peer {
    addr: Addr::V4(0xc633_6407),
    port: 5353,
};

/// A query of type A for www.cdn.example, behind its length.
const QUERY: &[u8] = &[
    0, 0x21, 0x12, 0x34, 1, 0, 0, 1, 0, 0, 0, 0, 0, 0, 3, b'w', b'w', b'w', 3, b'c', b'd', b'n', 7,
    b'e', b'x', b'a', b'm', b'p', b'l', b'e', 0, 0, 1, 0, 1,
];

/// Two of them.
const TWO: &[u8] = &[
    0, 0x21, 0x12, 0x34, 1, 0, 0, 1, 0, 0, 0, 0, 0, 0, 3, b'w', b'w', b'w', 3, b'c', b'd', b'n', 7,
    b'e', b'x', b'a', b'm', b'p', b'l', b'e', 0, 0, 1, 0, 1, 0, 0x21, 0x12, 0x34, 1, 0, 0, 1, 0, 0,
    0, 0, 0, 0, 3, b'w', b'w', b'w', 3, b'c', b'd', b'n', 7, b'e', b'x', b'a', b'm', b'p', b'l',
    b'e', 0, 0, 1, 0, 1,
];

/// The reply by pool A, behind its length.
const BY_A: &[u8] = &[
    0, 0x31, 0x12, 0x34, 0x85, 0, 0, 1, 0, 1, 0, 0, 0, 0, 3, b'w', b'w', b'w', 3, b'c', b'd', b'n',
    7, b'e', b'x', b'a', b'm', b'p', b'l', b'e', 0, 0, 1, 0, 1, 0xc0, 12, 0, 1, 0, 1, 0, 0, 0, 20,
    0, 4, 192, 0, 2, 1,
];

/// The reply by pool B, behind its length.
const BY_B: &[u8] = &[
    0, 0x31, 0x12, 0x34, 0x85, 0, 0, 1, 0, 1, 0, 0, 0, 0, 3, b'w', b'w', b'w', 3, b'c', b'd', b'n',
    7, b'e', b'x', b'a', b'm', b'p', b'l', b'e', 0, 0, 1, 0, 1, 0xc0, 12, 0, 1, 0, 1, 0, 0, 0, 20,
    0, 4, 192, 0, 2, 2,
];

/// The first nine octets of that reply.
const FRONT_OF_B: &[u8] = &[0, 0x31, 0x12, 0x34, 0x85, 0, 0, 1, 0];

/// So many quiet reads, and then octets that come in pieces of so many.
type Saying = (usize, &'static [u8], usize);

/// A conversation, and for how many written octets there is room.
type Conversation = (&'static [Saying], usize);

/// Where calls fail: answers of accept and read, writes, and looks, by their numbers.
type Failing = (&'static [u64], &'static [u64], &'static [u64]);

/// What is written to the conversations that were closed, as pieces one behind another.
type Written = &'static [&'static [&'static [u8]]];

/// A worker's number, its turns, the conversations, what fails, how the lane ends, and what is written.
type Row = (u8, usize, &'static [Conversation], Failing, Ended, Written);

const NONE: Failing = (&[], &[], &[]);

/// Two queries at once, and what they get.
const PLAIN: Conversation = (&[(0, TWO, 4_098)], 1_024);

const TWICE: &[&[u8]] = &[BY_B, BY_B];

/// Says octets behind quiet reads.
fn say(pieces: &mut LinkedList<Vec<u8>>, alloc: Global, saying: &Saying) -> Option<()> {
    let (quiets, octets, size) = saying;
    for _ in 0..*quiets {
        pieces.push_back(Vec::new(alloc)).ok()?;
    }
    for piece in octets.chunks((*size).max(1)) {
        pieces.push_back(Vec::from_slice(alloc, piece).ok()?).ok()?;
    }
    Some(())
}

fn pieces_of(alloc: Global, sayings: &[Saying]) -> Option<LinkedList<Vec<u8>>> {
    let mut pieces = LinkedList::new(alloc);
    for saying in sayings {
        say(&mut pieces, alloc, saying)?;
    }
    Some(pieces)
}

fn talk_of(alloc: Global, conversation: &Conversation) -> Option<MemTalk> {
    let (sayings, room) = conversation;
    MemTalk::new(alloc, CLIENT, pieces_of(alloc, sayings)?, *room).ok()
}

fn numbers_of(alloc: Global, numbers: &[u64]) -> Option<Vec<u64>> {
    Vec::from_slice(alloc, numbers).ok()
}

fn talks_of(alloc: Global, conversations: &[Conversation]) -> Option<LinkedList<MemTalk>> {
    let mut waiting = LinkedList::new(alloc);
    for conversation in conversations {
        waiting.push_back(talk_of(alloc, conversation)?).ok()?;
    }
    Some(waiting)
}

fn streams_of(
    alloc: Global,
    conversations: &[Conversation],
    failing: &Failing,
) -> Option<MemStreams> {
    let (answers, writes, _) = failing;
    let waiting = talks_of(alloc, conversations)?;
    let answers = numbers_of(alloc, answers)?;
    let writes = numbers_of(alloc, writes)?;
    MemStreams::new(alloc, waiting, Vec::new(alloc), answers, writes).ok()
}

fn serve_by<J: Naming>(
    worker: Worker<J>,
    streams: &mut MemStreams,
    gate: MemGate,
    door: MemDoor,
    notes: MemNotes<Note<J>>,
    turns: u64,
) -> Ended {
    let mut worker = worker;
    let mut gate = gate;
    let mut door = door;
    let mut notes = notes;
    serve_streams(
        &mut worker,
        streams,
        &mut gate,
        &mut door,
        &mut notes,
        turns,
    )
}

/// A lane that is served: its worker's number, its streams, its door, and how many turns it takes at most.
#[derive(Drop)]
struct Served<'s> {
    number: u8,
    streams: &'s mut MemStreams,
    door: MemDoor,
    turns: usize,
}

/// How a lane ends with a viewer, in at most its turns. Its gate stops it later.
fn serve<J: Naming>(alloc: Global, viewer: Viewer<J>, served: Served<'_>) -> Option<Ended> {
    let Served {
        number,
        streams,
        door,
        turns,
    } = served;
    let worker = Worker::new(viewer, number);
    match MemGate::new(alloc, 10_000) {
        Err(_) => None,
        Ok(gate) => match MemNotes::new(alloc, LinkedList::new(alloc)) {
            Err(_) => None,
            Ok(notes) => Some(serve_by(worker, streams, gate, door, notes, turns as u64)),
        },
    }
}

fn serve_last<J: Naming>(
    alloc: Global,
    viewers: Vec<Viewer<J>>,
    served: Served<'_>,
) -> Option<Ended> {
    let mut viewers = viewers;
    match viewers.pop() {
        None => None,
        Some(viewer) => serve(alloc, viewer, served),
    }
}

/// The same over a cell of that version that is opened and closed.
fn opened<J: Naming, R: Wait>(
    rt: &R,
    alloc: Global,
    history: EmptyHistory,
    version: MapVersion,
    served: Served<'_>,
) -> Option<Ended>
    requires history { history ≡ J.book }
    requires version { IsVersion version × (version.serial ≡ 0) }
{
    let mut first = PlainDoor::new();
    match open::<J, PlainDoor, R>(rt, alloc, history, version, 1, &mut first) {
        Err(_) => None,
        Ok((publisher, viewers)) => {
            let ended = serve_last(alloc, viewers, served);
            publisher.close(rt);
            ended
        }
    }
}

/// The same, of a history of its own.
fn ends<R: Wait>(rt: &R, alloc: Global, version: MapVersion, served: Served<'_>) -> Option<Ended>
    requires { IsVersion version × (version.serial ≡ 0) }
{
    opened::<Brand, R>(rt, alloc, EmptyHistory::new(), version, served)
}

/// Whether octets are these parts, one behind another.
fn is_all(octets: &[u8], parts: &[&[u8]]) -> bool {
    let mut rest = octets;
    for part in parts {
        match rest.strip_prefix(*part) {
            Some(behind) => rest = behind,
            None => return false,
        }
    }
    rest.is_empty()
}

/// Whether these conversations were closed, with that written to each.
fn are_written(closed: &[MemTalk], written: Written) -> bool {
    if closed.len() != written.len() {
        return false;
    }
    for (talk, parts) in closed.iter().zip(written.iter()) {
        if !is_all(talk.written(), parts) {
            return false;
        }
    }
    true
}

/// Whether a lane comes to that.
fn comes<R: Wait>(rt: &R, alloc: Global, row: &Row) -> Option<bool> {
    let (number, turns, conversations, failing, ended, written) = row;
    let mut streams = streams_of(alloc, conversations, failing)?;
    let door = MemDoor::new(Vec::new(alloc), numbers_of(alloc, failing.2)?);
    let version = first_version(alloc)?;
    let served = Served {
        number: *number,
        streams: &mut streams,
        door,
        turns: *turns,
    };
    let came = ends(rt, alloc, version, served)?;
    Some(came == *ended && are_written(streams.closed(), written))
}

/// The first row that comes otherwise, by its number.
fn first_other<R: Wait>(rt: &R, alloc: Global, rows: &[Row]) -> Option<usize> {
    for (number, row) in rows.iter().enumerate() {
        if comes(rt, alloc, row) != Some(true) {
            return Some(number);
        }
    }
    None
}

/// Conversations of worker 1 that end with the port, where nothing fails, and what is written.
type Whole = (&'static [Conversation], Written);

/// The first of them that comes otherwise in so many turns, by its number.
fn first_other_whole<R: Wait>(
    rt: &R,
    alloc: Global,
    turns: usize,
    rows: &[Whole],
) -> Option<usize> {
    for (number, (conversations, written)) in rows.iter().enumerate() {
        let row = (1, turns, *conversations, NONE, Ended::PortEnd, *written);
        if comes(rt, alloc, &row) != Some(true) {
            return Some(number);
        }
    }
    None
}

/// However the octets of a conversation are cut, the replies are the same: both queries in one piece, octet by octet, and
/// in pieces of 7, 34, 35, 36 and 69 octets.
const CUTS: &[Whole] = &[
    (&[PLAIN], &[TWICE]),
    (&[(&[(0, TWO, 1)], 102)], &[TWICE]),
    (&[(&[(0, TWO, 7)], 102)], &[TWICE]),
    (&[(&[(0, TWO, 34)], 102)], &[TWICE]),
    (&[(&[(0, TWO, 35)], 102)], &[TWICE]),
    (&[(&[(0, TWO, 36)], 102)], &[TWICE]),
    (&[(&[(0, TWO, 69)], 102)], &[TWICE]),
];

#[test]
fn answers_however_cut(rt: HostRuntime) -> Result<(), Fail> {
    assert!(rt; first_other_whole(&rt, rt.alloc(), 100, CUTS).is_none());
    Ok(())
}

/// A length of 4,097, and a query behind it.
const LONG: &[u8] = &[
    0x10, 1, 0, 0x21, 0x12, 0x34, 1, 0, 0, 1, 0, 0, 0, 0, 0, 0, 3, b'w', b'w', b'w', 3, b'c', b'd',
    b'n', 7, b'e', b'x', b'a', b'm', b'p', b'l', b'e', 0, 0, 1, 0, 1,
];

/// A length above 4,096 gives nothing, and closes the conversation, also octet by octet and behind a message; what a
/// conversation leaves unfinished is not that of the next one; and an empty message has no reply, but is counted: worker
/// 0 draws pool B first, then A, then B.
const LENGTHS: &[Whole] = &[
    (&[(&[(0, LONG, 4_098)], 1_024), PLAIN], &[&[], TWICE]),
    (&[(&[(0, LONG, 1)], 1_024), PLAIN], &[&[], TWICE]),
    (
        &[(
            &[(0, QUERY, 4_098), (0, LONG, 4_098), (0, QUERY, 4_098)],
            1_024,
        )],
        &[&[BY_B]],
    ),
    (&[(&[(0, FRONT_OF_B, 4_098)], 1_024), PLAIN], &[&[], TWICE]),
];

const OF_WORKER_0: &[Row] = &[
    (0, 100, &[PLAIN], NONE, Ended::PortEnd, &[&[BY_B, BY_A]]),
    (
        0,
        100,
        &[(&[(0, &[0, 0], 4_098), (0, TWO, 4_098)], 1_024)],
        NONE,
        Ended::PortEnd,
        &[&[BY_A, BY_B]],
    ),
];

#[test]
fn lengths(rt: HostRuntime) -> Result<(), Fail> {
    assert!(rt; first_other_whole(&rt, rt.alloc(), 100, LENGTHS).is_none());
    assert!(rt; first_other(&rt, rt.alloc(), OF_WORKER_0).is_none());
    Ok(())
}

/// A write that failed, or for which there was not all room, closes its conversation, and nothing behind it is answered.
const WRITES: &[Row] = &[
    (
        1,
        100,
        &[PLAIN, PLAIN],
        (&[], &[0], &[]),
        Ended::PortEnd,
        &[&[], TWICE],
    ),
    (
        1,
        100,
        &[PLAIN, PLAIN],
        (&[], &[1], &[]),
        Ended::PortEnd,
        &[&[BY_B], TWICE],
    ),
    (
        1,
        100,
        &[(&[(0, TWO, 4_098)], 60), PLAIN],
        NONE,
        Ended::PortEnd,
        &[&[BY_B, FRONT_OF_B], TWICE],
    ),
];

#[test]
fn failing_writes(rt: HostRuntime) -> Result<(), Fail> {
    assert!(rt; first_other(&rt, rt.alloc(), WRITES).is_none());
    Ok(())
}

/// The 200th quiet read in a row closes a conversation, and no earlier one.
const QUIETS: &[Whole] = &[
    (&[(&[(200, TWO, 4_098)], 1_024), PLAIN], &[&[], TWICE]),
    (&[(&[(199, TWO, 4_098)], 1_024)], &[TWICE]),
    (&[(&[(199, TWO, 35), (199, &[0], 1)], 1_024)], &[TWICE]),
    (
        &[(&[(0, QUERY, 4_098), (200, QUERY, 4_098)], 1_024)],
        &[&[BY_B]],
    ),
];

#[test]
fn quiet_reads(rt: HostRuntime) -> Result<(), Fail> {
    assert!(rt; first_other_whole(&rt, rt.alloc(), 1_000, QUIETS).is_none());
    Ok(())
}

/// A refused look ends the lane, and its message and all behind it have no reply; seven failed answers of accept do not
/// end it, nor seven failed calls of each kind, and the eighth does; an accept that failed waits no conversation away,
/// and a read that failed closes one.
const FAULTS: &[Row] = &[
    (
        1,
        100,
        &[PLAIN, PLAIN],
        (&[], &[], &[0]),
        Ended::CellFault,
        &[&[]],
    ),
    (
        1,
        100,
        &[PLAIN, PLAIN],
        (&[], &[], &[1]),
        Ended::CellFault,
        &[&[BY_B]],
    ),
    (
        1,
        100,
        &[PLAIN],
        (&[0, 1, 2, 3, 4, 5, 6], &[], &[]),
        Ended::PortEnd,
        &[TWICE],
    ),
    (
        1,
        100,
        &[PLAIN],
        (&[0, 1, 2, 3, 4, 5, 6, 7], &[], &[]),
        Ended::PortFault,
        &[],
    ),
    (
        1,
        100,
        &[PLAIN],
        (&[0, 1, 2, 3, 4, 5, 6], &[0], &[]),
        Ended::PortFault,
        &[&[]],
    ),
    (
        1,
        100,
        &[PLAIN, PLAIN],
        (&[1], &[], &[]),
        Ended::PortEnd,
        &[&[], TWICE],
    ),
];

#[test]
fn faults(rt: HostRuntime) -> Result<(), Fail> {
    assert!(rt; first_other(&rt, rt.alloc(), FAULTS).is_none());
    Ok(())
}

/// As many answers of accept and read as there are turns, whatever the messages of a piece; a conversation that is open
/// then is closed.
const SPENT: &[Row] = &[
    (1, 0, &[PLAIN], NONE, Ended::Spent, &[]),
    (1, 1, &[PLAIN], NONE, Ended::Spent, &[&[]]),
    (1, 2, &[PLAIN], NONE, Ended::Spent, &[TWICE]),
    (
        1,
        2,
        &[(&[(0, TWO, 35)], 1_024)],
        NONE,
        Ended::Spent,
        &[&[BY_B]],
    ),
    (1, 3, &[PLAIN], NONE, Ended::Spent, &[TWICE]),
    (1, 4, &[PLAIN], NONE, Ended::PortEnd, &[TWICE]),
];

#[test]
fn spent_turns(rt: HostRuntime) -> Result<(), Fail> {
    assert!(rt; first_other(&rt, rt.alloc(), SPENT).is_none());
    Ok(())
}
