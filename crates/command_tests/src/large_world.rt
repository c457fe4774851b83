//! Worlds of thousands: `large`, the same at each run, and over an output that fails at its third line; and each command over the
//! files of such a world.
ghost use Rattle.std.specs.Prelude.{◌≤◌, length};

use big_world::make;
use glb::Status;
use no_memory::NoMemory;
use outside::{File, MemShelf};
use std::alloc::Global;
use std::sync::Wait;
use std::test::Fail;
use std::thread::Threads;
use trial_runs::{Came, Fails, NEVER, ROOM, came_over, shelf_of};

/// The first lines of the summary.
const BEGINS: &[u8] = b"large 64\nnodes 10\nmaps 17\ngood 17\n";

/// The first lines of the summary of a world of thousands, as a second implementation counts its nodes.
const THOUSANDS: &[u8] = b"large 2048\nnodes 165\nmaps 17\ngood 17\n";

/// What comes of `large` with so many groups over an output that fails at these puts.
fn large<R: Threads + Wait + Sync + AllocGlobal>(
    rt: &R,
    groups: &str,
    fails: Fails,
) -> Result<Came, NoMemory> {
    let files = shelf_of(rt.alloc(), &[], NEVER)?;
    came_over(rt, &["glb", "large", groups], files, fails, ROOM)
}

/// Whether a whole summary was put, line by line, that begins like this.
fn is_summary(came: &Came, begins: &[u8]) -> bool {
    came.status == Status::Ok && came.puts() == 10 && came.text().starts_with(begins)
}

/// Whether the summary is whole, and the same at each of two runs.
fn is_the_same<R: Threads + Wait + Sync + AllocGlobal>(rt: &R) -> Result<bool, NoMemory> {
    let first = large(rt, "64", NEVER)?;
    let second = large(rt, "64", NEVER)?;
    Ok(is_summary(&first, BEGINS) && first.text() == second.text())
}

#[test]
fn large_is_the_same_at_each_run(rt: HostRuntime) -> Result<(), Fail> {
    assert!(rt; is_the_same(&rt)?);
    Ok(())
}

/// Whether it stops at its third line, where that fails.
fn stops<R: Threads + Wait + Sync + AllocGlobal>(rt: &R) -> Result<bool, NoMemory> {
    let came = large(rt, "64", Fails { first: 2, count: 1 })?;
    Ok(came.status == Status::SinkFault && came.puts() == 3 && BEGINS.starts_with(came.text()))
}

#[test]
fn large_stops_at_a_line_that_fails(rt: HostRuntime) -> Result<(), Fail> {
    assert!(rt; stops(&rt)?);
    Ok(())
}

/// Whether the summary of a world of thousands is whole.
fn is_whole<R: Threads + Wait + Sync + AllocGlobal>(rt: &R) -> Result<bool, NoMemory> {
    let came = large(rt, "2048", NEVER)?;
    Ok(is_summary(&came, THOUSANDS))
}

#[test]
fn large_of_thousands_is_good(rt: HostRuntime) -> Result<(), Fail> {
    assert!(rt; is_whole(&rt)?);
    Ok(())
}

/// How many groups the world of the files has, and for how many octets its output has room.
const GROUPS: u32 = 2_048;

const LARGE_ROOM: usize = 1 << 20;

/// The changes of the files: a group's demand, and a pool that takes nothing more.
const CHANGES: &[u8] = b"demand g0 1\ncapacity r0-0 0\n";

/// A file of these octets.
fn file_of(alloc: Global, name: &'static str, octets: &[u8]) -> Result<File, NoMemory>
    requires { length name.now ≤ 255 }
{
    Ok(File::new(name, Vec::from_slice(alloc, octets)?))
}

/// The files of that world, with this map.
fn files_of(alloc: Global, topology: &[u8], map: &[u8]) -> Result<Vec<File>, NoMemory> {
    let mut files = Vec::new(alloc);
    files.push(file_of(alloc, "t", topology)?)?;
    files.push(file_of(alloc, "m", map)?)?;
    files.push(file_of(alloc, "c", CHANGES)?)?;
    Ok(files)
}

/// The shelf with these files, which never fails.
fn shelf_over(alloc: Global, topology: &[u8], map: &[u8]) -> Result<MemShelf, NoMemory> {
    let files = files_of(alloc, topology, map)?;
    MemShelf::new(alloc, files, 8, Vec::new(alloc))
}

/// What comes of a command over the files of that world, with this map.
fn over<R: Threads + Wait + Sync + AllocGlobal>(
    rt: &R,
    words: &[&str],
    topology: &[u8],
    map: &[u8],
) -> Result<Came, NoMemory> {
    let files = shelf_over(rt.alloc(), topology, map)?;
    came_over(rt, words, files, NEVER, LARGE_ROOM)
}

/// Whether a whole map of thousands of lines was put.
fn is_map(came: &Came) -> bool {
    let text = came.text();
    came.status == Status::Ok
        && text.len() > 20_000
        && text.starts_with(b"glb map 2\n")
        && text.ends_with(b"\nend\n")
}

/// Whether a map of that world is good by `check`.
fn is_checked<R: Threads + Wait + Sync + AllocGlobal>(
    rt: &R,
    topology: &[u8],
    map: &[u8],
) -> Result<bool, NoMemory> {
    let came = over(rt, &["glb", "check", "t", "m"], topology, map)?;
    Ok(came.is(Status::Ok, b"good\n", 2))
}

/// Whether another map comes of a repair of it.
fn is_repaired<R: Threads + Wait + Sync + AllocGlobal>(
    rt: &R,
    topology: &[u8],
    map: &[u8],
) -> Result<bool, NoMemory> {
    let came = over(rt, &["glb", "repair", "t", "m", "c"], topology, map)?;
    Ok(is_map(&came) && came.text() != map)
}

/// Whether a map of that world is whole, good, and can be repaired.
fn fits<R: Threads + Wait + Sync + AllocGlobal>(
    rt: &R,
    topology: &[u8],
    came: &Came,
) -> Result<bool, NoMemory> {
    if !is_map(came) {
        return Ok(false);
    }
    if !is_checked(rt, topology, came.text())? {
        return Ok(false);
    }
    is_repaired(rt, topology, came.text())
}

/// Whether each command does what it should over a world of thousands.
fn all_do<R: Threads + Wait + Sync + AllocGlobal>(rt: &R) -> Result<bool, NoMemory> {
    let (topology, _) = make(rt.alloc(), GROUPS)?;
    let mapped = over(rt, &["glb", "map", "t"], topology.as_slice(), b"")?;
    fits(rt, topology.as_slice(), &mapped)
}

#[test]
fn commands_over_thousands(rt: HostRuntime) -> Result<(), Fail> {
    assert!(rt; all_do(&rt)?);
    Ok(())
}
