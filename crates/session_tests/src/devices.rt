//! Commands of one output, whose calls of a device fail: each alone, each with all behind it, and an output whose room ends at each octet.
use glb::Status;
use no_memory::NoMemory;
use std::alloc::Global;
use std::process::Abort;
use std::sync::Wait;
use std::test::Fail;
use std::thread::Threads;
use trial_runs::Held::{self, Bytes, Topology};
use trial_runs::{
    Came, Fails, GOOD_REGION, NEVER, REGION, REGION_MAP, ROOM, are_joined, came_over, shelf_of,
};

/// A command, the files of its words in their order, and what it puts where nothing fails.
struct Command {
    words: &'static [&'static str],
    files: &'static [(&'static str, Held)],
    pieces: &'static [&'static str],
}

const CHANGES: &[u8] = b"demand g1 6\ncapacity A 9\n";

const COMMANDS: &[Command] = &[
    Command {
        words: &["glb", "check", "t", "m"],
        files: &[("t", Topology(REGION)), ("m", Bytes(GOOD_REGION))],
        pieces: &["good\n"],
    },
    Command {
        words: &["glb", "map", "t"],
        files: &[("t", Topology(REGION))],
        pieces: &[REGION_MAP],
    },
    Command {
        words: &["glb", "places", "t"],
        files: &[("t", Topology(REGION))],
        pieces: &["place 0 10\nplace 1 5\nunplaced 1\n"],
    },
    Command {
        words: &[
            "glb",
            "answer",
            "t",
            "m",
            "198.51.100.7",
            "000000000000000000000000",
        ],
        files: &[("t", Topology(REGION)), ("m", Bytes(GOOD_REGION))],
        pieces: &["answer 000080010000000000000000\n"],
    },
    Command {
        words: &["glb", "repair", "t", "m", "c"],
        files: &[
            ("t", Topology(REGION)),
            ("m", Bytes(GOOD_REGION)),
            ("c", Bytes(CHANGES)),
        ],
        pieces: &["glb map 2\nplace g1 A 6\nplace g2 A 3\nplace g2 B 5\nfull g2 A A\nend\n"],
    },
    Command {
        words: &["glb", "large", "1"],
        files: &[],
        pieces: &[
            "large 1\n",
            "nodes 5\n",
            "maps 17\n",
            "good 17\n",
            "placed 4\n",
            "unplaced 0\n",
            "full 0\n",
            "proposals 1\n",
            "answered 1\n",
            "servfail 0\n",
        ],
    },
    Command {
        words: &["glb", "check", "t"],
        files: &[],
        pieces: &["usage: glb check, answer, map, repair, serve or large\n"],
    },
];

/// So many calls, from one on.
fn calls_from(first: usize, count: u64) -> Fails {
    Fails {
        first: first as u64,
        count,
    }
}

/// The pieces, one behind the other.
fn joined(alloc: Global, pieces: &[&str]) -> Result<Vec<u8>, NoMemory> {
    let mut text = Vec::new(alloc);
    for piece in pieces {
        text.extend_from_slice(piece.as_bytes())?;
    }
    Ok(text)
}

/// The status where a call of this number fails, of so many.
fn status_at(first: usize, calls: usize, fault: Status, whole: Status) -> Status {
    if first < calls { fault } else { whole }
}

/// The status where nothing fails.
fn whole_status(command: &Command) -> Status {
    match command.words {
        ["glb", "check", "t"] => Status::Usage,
        _ => Status::Ok,
    }
}

/// Whether the load of this number failed: nothing was loaded behind it, and nothing was put.
fn stopped_at_load(came: &Came, command: &Command, first: usize) -> bool {
    let calls = command.files.len();
    let pieces = command.pieces;
    let puts = if first < calls { 0 } else { pieces.len() };
    came.status == status_at(first, calls, Status::SourceFault, whole_status(command))
        && came.loads() == calls.min(first.saturating_add(1))
        && came.puts() == puts as u64
        && are_joined(came.text(), pieces, puts)
}

/// Whether a command of which so many loads fail, from one on, stops there.
fn stops_at_load<R: Threads + Wait + Sync + AllocGlobal>(
    rt: &R,
    command: &Command,
    first: usize,
    count: u64,
) -> Result<bool, NoMemory> {
    let files = shelf_of(rt.alloc(), command.files, calls_from(first, count))?;
    let came = came_over(rt, command.words, files, NEVER, ROOM)?;
    Ok(stopped_at_load(&came, command, first))
}

fn assert_loads<R: Abort + Threads + Wait + Sync + AllocGlobal>(
    rt: &R,
    command: &Command,
    first: usize,
    count: u64,
) -> Result<(), Fail> {
    let is = stops_at_load(rt, command, first, count)?;
    assert!(rt; is, "at load {first} of {:?}", command.words);
    Ok(())
}

/// Whether the put of this number failed: what was put before it stands, and nothing was put behind it.
fn stopped_at_put(came: &Came, command: &Command, first: usize) -> bool {
    let calls = command.pieces.len();
    came.status == status_at(first, calls, Status::SinkFault, whole_status(command))
        && came.loads() == command.files.len()
        && came.puts() == calls.min(first.saturating_add(1)) as u64
        && are_joined(came.text(), command.pieces, first)
}

/// Whether a command of which so many puts fail, from one on, stops there.
fn stops_at_put<R: Threads + Wait + Sync + AllocGlobal>(
    rt: &R,
    command: &Command,
    first: usize,
    count: u64,
) -> Result<bool, NoMemory> {
    let files = shelf_of(rt.alloc(), command.files, NEVER)?;
    let came = came_over(rt, command.words, files, calls_from(first, count), ROOM)?;
    Ok(stopped_at_put(&came, command, first))
}

fn assert_puts<R: Abort + Threads + Wait + Sync + AllocGlobal>(
    rt: &R,
    command: &Command,
    first: usize,
    count: u64,
) -> Result<(), Fail> {
    let is = stops_at_put(rt, command, first, count)?;
    assert!(rt; is, "at put {first} of {:?}", command.words);
    Ok(())
}

/// Whether the output took as many octets of the whole text as it had room for.
fn filled(came: &Came, command: &Command, whole: &[u8], room: usize) -> bool {
    came.status == status_at(room, whole.len(), Status::SinkFault, whole_status(command))
        && came.text().len() == room.min(whole.len())
        && whole.starts_with(came.text())
}

/// Whether an output with room for so many octets was filled.
fn fills<R: Threads + Wait + Sync + AllocGlobal>(
    rt: &R,
    command: &Command,
    whole: &[u8],
    room: usize,
) -> Result<bool, NoMemory> {
    let files = shelf_of(rt.alloc(), command.files, NEVER)?;
    let came = came_over(rt, command.words, files, NEVER, room)?;
    Ok(filled(&came, command, whole, room))
}

fn assert_room<R: Abort + Threads + Wait + Sync + AllocGlobal>(
    rt: &R,
    command: &Command,
    whole: &[u8],
    room: usize,
) -> Result<(), Fail> {
    let is = fills(rt, command, whole, room)?;
    assert!(rt; is, "with room {room} of {:?}", command.words);
    Ok(())
}

/// Each call of a device fails, alone and with all behind it.
fn assert_calls<R: Abort + Threads + Wait + Sync + AllocGlobal>(
    rt: &R,
    command: &Command,
) -> Result<(), Fail> {
    for first in 0..=command.files.len() {
        assert_loads(rt, command, first, 1)?;
        assert_loads(rt, command, first, 64)?;
    }
    for first in 0..=command.pieces.len() {
        assert_puts(rt, command, first, 1)?;
        assert_puts(rt, command, first, 64)?;
    }
    Ok(())
}

/// The room ends at each octet.
fn assert_rooms<R: Abort + Threads + Wait + Sync + AllocGlobal>(
    rt: &R,
    command: &Command,
    whole: &[u8],
) -> Result<(), Fail> {
    for room in 0..=whole.len() {
        assert_room(rt, command, whole, room)?;
    }
    Ok(())
}

fn assert_command<R: Abort + Threads + Wait + Sync + AllocGlobal>(
    rt: &R,
    command: &Command,
) -> Result<(), Fail> {
    assert_calls(rt, command)?;
    let whole = joined(rt.alloc(), command.pieces)?;
    assert_rooms(rt, command, whole.as_slice())
}

fn assert_commands<R: Abort + Threads + Wait + Sync + AllocGlobal>(
    rt: &R,
    commands: &[Command],
) -> Result<(), Fail> {
    for command in commands {
        assert_command(rt, command)?;
    }
    Ok(())
}

#[test]
fn calls_that_fail(rt: HostRuntime) -> Result<(), Fail> {
    assert_commands(&rt, COMMANDS)
}
