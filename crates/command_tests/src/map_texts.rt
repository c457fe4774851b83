//! Texts that are no maps, and how that is said.
use glb::Status;
use std::process::Abort;
use std::sync::Wait;
use std::test::Fail;
use std::thread::Threads;
use trial_runs::Held::{Bytes, Topology};
use trial_runs::{REGION, comes_with};

/// Texts over REGION that are no maps, and why.
const MAP_FAULTS: &[(&[u8], &str)] = &[
    (b"", "truncated"),
    (b"glb map 1", "truncated"),
    (b"glb map 1\n", "truncated"),
    (b"glb map 1\nend", "truncated"),
    (b"glb map 1\nend\n\xff", "truncated"),
    (b"glb map 1\nplace g1 A 8\nnonsense", "truncated"),
    (
        b"glb map 1\nplace g1 A 8\nplace g2 A 2\nplace g2 B 5\nfull g2 A A\n",
        "truncated",
    ),
    (b"\n", "bad line at line 1"),
    (b"end\n", "bad line at line 1"),
    (b"glb map 3\nend\n", "bad line at line 1"),
    (b"place g9 A 1\n", "bad line at line 1"),
    (b"glb map 1\nglb map 1\nend\n", "bad line at line 2"),
    (b"glb map 1\nend\n\n", "bad line at line 3"),
    (b"glb map 1\r\nend\r\n", "bad line at line 1"),
    (b"glb map 1\nplaces g1 A 8\nend\n", "bad line at line 2"),
    (b"glb map 1\nplace g1 A 8 \nend\n", "bad line at line 2"),
    (b"glb map 1\nplace g1  8\nend\n", "bad line at line 2"),
    (b"glb map 1\nplace g1 A\nend\n", "bad line at line 2"),
    (b"glb map 1\nplace g1 A 0\nend\n", "bad line at line 2"),
    (b"glb map 1\nplace g9 A 08\nend\n", "bad line at line 2"),
    (
        b"glb map 1\nplace g1 A 8\nplace g2 A 4294967296\nend\n",
        "bad line at line 3",
    ),
    (b"glb map 1\nplace g1 A +8\nend\n", "bad line at line 2"),
    (
        b"glb map 1\nplace g1 A 8\nfull g2 A C\nend\n",
        "unknown name at line 3",
    ),
    (b"glb map 1\nplace g1 R 8\nend\n", "unknown name at line 2"),
    (
        b"glb map 1\nplace g1 A 8\nplace g2 A 2\nplace g1 B 8\nplace g2 B 5\nend\n",
        "order at line 4",
    ),
    (
        b"glb map 1\nplace g1 A 8\nplace g1 A 8\nend\n",
        "order at line 3",
    ),
    (
        b"glb map 1\nfull g1 A A\nplace g2 A 8\nend\n",
        "order at line 3",
    ),
    (b"glb map 1\nplace g9 A 1\nend\n", "unknown name at line 2"),
];

fn assert_map_fault<R: Abort + Threads + Wait + Sync + AllocGlobal>(
    rt: &R,
    map: &'static [u8],
    wanted: &str,
) -> Result<(), Fail> {
    let held = &[("t", Topology(REGION)), ("m", Bytes(map))];
    let pieces = &["refused map ", wanted, "\n"];
    let is = comes_with(
        rt,
        &["glb", "check", "t", "m"],
        held,
        Status::Refused,
        pieces,
    )?;
    assert!(rt; is, "for {map:?}");
    Ok(())
}

fn assert_map_faults<R: Abort + Threads + Wait + Sync + AllocGlobal>(
    rt: &R,
    rows: &[(&'static [u8], &str)],
) -> Result<(), Fail> {
    for (map, wanted) in rows {
        assert_map_fault(rt, *map, *wanted)?;
    }
    Ok(())
}

#[test]
fn map_texts(rt: HostRuntime) -> Result<(), Fail> {
    assert_map_faults(&rt, MAP_FAULTS)
}
