//! Commands over files and one output, with nothing on the feed and nothing at the lanes.
ghost use Rattle.std.specs.Prelude.{◌≡◌, IfOk, vec_len};

use crate::came::{Came, came_by};
use crate::devices::{Devices, Sinks, devices_by, feeds_by, sink_of};
use crate::fails::{Fails, NEVER};
use crate::files::{Held, shelf_of};
use crate::streams::NO_TALKS;
use glb::Status;
use no_memory::NoMemory;
use outside::MemShelf;
use std::alloc::Global;
use std::sync::Wait;
use std::thread::Threads;

/// How many octets an output takes where it has room.
pub const ROOM: usize = 2048;

/// An output with room for so many octets, of which these puts fail, and none for maps.
fn outputs_over(alloc: Global, puts: Fails, room: usize) -> Result<Sinks, NoMemory> {
    let out = sink_of(alloc, room, puts)?;
    let maps = sink_of(alloc, 0, NEVER)?;
    Ok(Sinks { out, maps })
}

/// What a command is lent over these files: nothing on the feeds, and these outputs.
fn devices_over(
    alloc: Global,
    words: &[&str],
    files: MemShelf,
    outputs: Sinks,
) -> Result<Devices, NoMemory>
    ensures { IfOk result (λ d. vec_len d.feeds.more ≡ 3) }
{
    let feeds = feeds_by(alloc, b"", &[], NEVER, &[])?;
    devices_by(alloc, words, files, feeds, outputs)
}

/// A command over these files, and an output with room for so many octets, of which these puts fail.
pub fn came_over<R: Threads + Wait + Sync + AllocGlobal>(
    rt: &R,
    words: &[&str],
    files: MemShelf,
    puts: Fails,
    room: usize,
) -> Result<Came, NoMemory> {
    let outputs = outputs_over(rt.alloc(), puts, room)?;
    let devices = devices_over(rt.alloc(), words, files, outputs)?;
    came_by(rt, devices, &[], NO_TALKS, 100)
}

/// A command over what stands under these names, and an output that has room.
pub fn came_of<R: Threads + Wait + Sync + AllocGlobal>(
    rt: &R,
    words: &[&str],
    held: &[(&str, Held)],
) -> Result<Came, NoMemory> {
    let files = shelf_of(rt.alloc(), held, NEVER)?;
    came_over(rt, words, files, NEVER, ROOM)
}

/// Two files, and what comes of a command over them: the status, what the output got, and how many files were asked for.
pub type Row = (Held, Held, Status, &'static str, usize);

/// Whether a command over what stands under these names ends with this status, puts this text at once, or nothing where it
/// is empty, and asks for so many files.
pub fn comes_so<R: Threads + Wait + Sync + AllocGlobal>(
    rt: &R,
    words: &[&str],
    held: &[(&str, Held)],
    status: Status,
    text: &[u8],
    loads: usize,
) -> Result<bool, NoMemory> {
    let came = came_of(rt, words, held)?;
    Ok(came.is(status, text, loads))
}

/// Whether a command over what stands under these names ends with this status, and puts these pieces, one behind the other.
pub fn comes_with<R: Threads + Wait + Sync + AllocGlobal>(
    rt: &R,
    words: &[&str],
    held: &[(&str, Held)],
    status: Status,
    pieces: &[&str],
) -> Result<bool, NoMemory> {
    let came = came_of(rt, words, held)?;
    Ok(came.says(status, pieces))
}

/// The text that is due of the first row over which a command comes out otherwise, if there is one.
pub fn first_wrong<R: Threads + Wait + Sync + AllocGlobal>(
    rt: &R,
    words: &[&str],
    rows: &[Row],
) -> Result<Option<&'static str>, NoMemory> {
    for (topology, map, status, text, loads) in rows {
        let held = [("t", *topology), ("m", *map)];
        if !comes_so(rt, words, &held, *status, text.as_bytes(), *loads)? {
            return Ok(Some(*text));
        }
    }
    Ok(None)
}
