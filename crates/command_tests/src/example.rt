//! The files of the example, through `check` and `map`.
use glb::Status;
use no_memory::NoMemory;
use outside::{File, MemShelf};
use std::alloc::Global;
use std::process::Abort;
use std::sync::Wait;
use std::test::Fail;
use std::thread::Threads;
use trial_runs::{GOOD_REGION, NEVER, REGION, ROOM, ZONE, came_over};

/// What stands in the region's topology, what is written there instead, and how that is refused.
const CHANGES: &[(&str, &str, &str)] = &[
    (
        "\"0.0.0.0/0\", \"::/0\"",
        "\"0.0.0.0/0\"",
        "14 no default at family 6",
    ),
    (
        "name = \"R\"
capacity = 15
[[node]]
name = \"A\"
parent = \"R\"
capacity = 10
pool = true
a = [\"192.0.2.1\"]
aaaa = [\"2001:db8::1\"]
",
        "name = \"A\"
parent = \"R\"
capacity = 10
pool = true
a = [\"192.0.2.1\"]
aaaa = [\"2001:db8::1\"]
[[node]]
name = \"R\"
capacity = 15
",
        "8 parent order at node 0 parent",
    ),
    ("ttl = 20", "color = 1", "2 missing key at zone ttl"),
    (
        "\"0.0.0.0/0\"",
        "\"198.51.100.1/24\"",
        "12 bad prefix at group 0 prefixes 0",
    ),
];

/// The changed topology.
fn changed_file(alloc: Global, whole: &str, old: &str, new: &str) -> Result<File, Fail> {
    let changed = whole.replacen(alloc, old, new, 1)?;
    Ok(File::new("t", changed.into_bytes()))
}

/// A topology beside the region's map.
fn files_of(alloc: Global, topology: File) -> Result<MemShelf, NoMemory> {
    let map = File::new("m", Vec::from_slice(alloc, GOOD_REGION)?);
    let files = vec![in alloc; topology, map]?;
    MemShelf::new(alloc, files, 8, Vec::new(alloc))
}

/// Whether a topology beside the region's map is refused for this fault.
fn is_refused<R: Threads + Wait + Sync + AllocGlobal>(
    rt: &R,
    topology: File,
    fault: &str,
) -> Result<bool, NoMemory> {
    let files = files_of(rt.alloc(), topology)?;
    let came = came_over(rt, &["glb", "check", "t", "m"], files, NEVER, ROOM)?;
    Ok(came.says(Status::Refused, &["refused topology ", fault, "\n"]))
}

fn assert_change<R: Abort + Threads + Wait + Sync + AllocGlobal>(
    rt: &R,
    whole: &str,
    (old, new, fault): (&str, &str, &str),
) -> Result<(), Fail> {
    let topology = changed_file(rt.alloc(), whole, old, new)?;
    assert!(rt; is_refused(rt, topology, fault)?, "for {fault}");
    Ok(())
}

fn assert_changes<R: Abort + Threads + Wait + Sync + AllocGlobal>(
    rt: &R,
    whole: &str,
    rows: &[(&str, &str, &str)],
) -> Result<(), Fail> {
    for row in rows {
        assert_change(rt, whole, *row)?;
    }
    Ok(())
}

#[test]
fn changed_topologies(rt: HostRuntime) -> Result<(), Fail> {
    let whole = format!(in rt.alloc(); "{ZONE}{REGION}")?;
    assert_changes(&rt, whole.as_str(), CHANGES)
}
