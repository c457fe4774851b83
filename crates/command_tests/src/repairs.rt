//! `repair` over files: maps that were worked out by hand.
use glb::Status;
use std::process::Abort;
use std::sync::Wait;
use std::test::Fail;
use std::thread::Threads;
use trial_runs::Held::{self, Bytes, Missing, Topology, Zeros};
use trial_runs::{GOOD_REGION, REGION, REGION_MAP, TWO_GOOD, comes_so, first_wrong};

/// Two regions of two units. Each of the first two groups likes the other's region better than that likes it.
const TWO_REGIONS: &str = "node = [
{name = \"E\", capacity = 2},
{name = \"P\", parent = \"E\", capacity = 5, pool = true},
{name = \"F\", capacity = 2},
{name = \"Q\", parent = \"F\", capacity = 5, pool = true},
{name = \"Z\", capacity = 5, pool = true},
]
group = [
{name = \"a\", demand = 2, pools = [\"P\", \"Q\"], scores = [2, 1], prefixes = [\"0.0.0.0/0\", \"::/0\"]},
{name = \"b\", demand = 2, pools = [\"Q\", \"P\"], scores = [2, 1], prefixes = []},
{name = \"c\", demand = 3, pools = [\"Z\"], scores = [1], prefixes = []},
]
";

/// Three groups in a ring, each liked best where the one before it likes to be, and one by itself.
const RING: &str = "node = [
{name = \"P\", capacity = 1, pool = true},
{name = \"Q\", capacity = 1, pool = true},
{name = \"S\", capacity = 1, pool = true},
{name = \"Z\", capacity = 5, pool = true},
]
group = [
{name = \"a\", demand = 1, pools = [\"P\", \"Q\"], scores = [2, 1], prefixes = [\"0.0.0.0/0\", \"::/0\"]},
{name = \"b\", demand = 1, pools = [\"Q\", \"S\"], scores = [2, 1], prefixes = []},
{name = \"c\", demand = 1, pools = [\"S\", \"P\"], scores = [2, 1], prefixes = []},
{name = \"d\", demand = 4, pools = [\"Z\"], scores = [1], prefixes = []},
]
";

/// The worse of the two good maps of TWO_GOOD.
const SWAPPED: &[u8] =
    b"glb map 1\nplace a Q 1\nplace b P 1\nplace c Z 1\nfull a P P\nfull b Q Q\nend\n";

/// The worse of the two good maps of TWO_REGIONS.
const SWAPPED_REGIONS: &[u8] =
    b"glb map 1\nplace a Q 2\nplace b P 2\nplace c Z 3\nfull a P E\nfull b Q F\nend\n";

/// The worse of the two good maps of RING.
const TURNED: &[u8] =
    b"glb map 1\nplace a Q 1\nplace b S 1\nplace c P 1\nplace d Z 4\nfull a P P\nfull b Q Q\nfull c S S\nend\n";

const WORDS: &[&str] = &["glb", "repair", "t", "m", "c"];

/// Topology, map and changes, and what comes of them: the status, the text, and how many files were asked for.
type RepairRow = (Held, Held, Held, Status, &'static str, usize);

fn assert_repair<R: Abort + Threads + Wait + Sync + AllocGlobal>(
    rt: &R,
    row: &RepairRow,
) -> Result<(), Fail> {
    let (topology, map, changes, status, text, loads) = *row;
    let held = [("t", topology), ("m", map), ("c", changes)];
    let is = comes_so(rt, WORDS, &held, status, text.as_bytes(), loads)?;
    assert!(rt; is, "for {text}");
    Ok(())
}

fn assert_repairs<R: Abort + Threads + Wait + Sync + AllocGlobal>(
    rt: &R,
    rows: &[RepairRow],
) -> Result<(), Fail> {
    for row in rows {
        assert_repair(rt, row)?;
    }
    Ok(())
}

/// Changes of REGION with its good map, and the map for the numbers after them.
const REGION_ROWS: &[(&[u8], &str)] = &[
    // No change, and one that says the number that is there.
    (b"", REGION_MAP),
    (b"capacity A 10\n", REGION_MAP),
    // One: A has 4 units left, and then all are placed.
    (
        b"demand g1 6\n",
        "glb map 2\nplace g1 A 6\nplace g2 A 4\nplace g2 B 4\nfull g2 A A\nend\n",
    ),
    // One: the region has 4 units beside those of g1.
    (
        b"capacity R 12",
        "glb map 2\nplace g1 A 8\nplace g2 A 2\nplace g2 B 2\nfull g2 A A\nfull g2 B R\nend\n",
    ),
    // A pool that may hold nothing, and then a region.
    (
        b"capacity A 0\n",
        "glb map 2\nplace g1 B 8\nplace g2 B 2\nfull g1 A A\nfull g2 A A\nfull g2 B B\nend\n",
    ),
    (
        b"capacity R 0\n",
        "glb map 2\nfull g1 A R\nfull g1 B R\nfull g2 A R\nfull g2 B R\nend\n",
    ),
    // Several, with more spaces and zeros than it takes.
    (
        b"demand g1 6\ncapacity A 9\n",
        "glb map 2\nplace g1 A 6\nplace g2 A 3\nplace g2 B 5\nfull g2 A A\nend\n",
    ),
    (
        b" capacity  R 0020 \ndemand g2   009\ncapacity B 6",
        "glb map 2\nplace g1 A 8\nplace g2 A 2\nplace g2 B 6\nfull g2 A A\nfull g2 B B\nend\n",
    ),
    // The last of one name counts.
    (
        b"demand g1 1\ndemand g1 6\ndemand g1 10\n",
        "glb map 2\nplace g1 A 10\nplace g2 B 5\nfull g2 A A\nfull g2 B R\nend\n",
    ),
    (
        b"capacity R 0\ndemand g1 4294967295\ncapacity R 18\ndemand g1 8\n",
        "glb map 2\nplace g1 A 8\nplace g2 A 2\nplace g2 B 6\nfull g2 A A\nend\n",
    ),
];

fn assert_changes<R: Abort + Threads + Wait + Sync + AllocGlobal>(
    rt: &R,
    rows: &[(&'static [u8], &'static str)],
) -> Result<(), Fail> {
    for (changes, text) in rows {
        let (old, changes) = (Bytes(GOOD_REGION), Bytes(*changes));
        let row = (Topology(REGION), old, changes, Status::Ok, *text, 3usize);
        assert_repair(rt, &row)?;
    }
    Ok(())
}

#[test]
fn repairs_a_region(rt: HostRuntime) -> Result<(), Fail> {
    assert_changes(&rt, REGION_ROWS)
}

/// A world with two good maps: topology, the worse map, changes, the repaired map, and the map from scratch.
type TwoMaps = (
    &'static str,
    &'static [u8],
    &'static [u8],
    &'static str,
    &'static str,
);

const TWO_MAPS: &[TwoMaps] = &[
    (
        TWO_GOOD,
        SWAPPED,
        b"capacity Z 6\n",
        "glb map 2\nplace a Q 1\nplace b P 1\nplace c Z 1\nfull a P P\nfull b Q Q\nend\n",
        "glb map 2\nplace a P 1\nplace b Q 1\nplace c Z 1\nend\n",
    ),
    (
        TWO_REGIONS,
        SWAPPED_REGIONS,
        b"capacity P 4\ncapacity P 5\ndemand c 3\n",
        "glb map 2\nplace a Q 2\nplace b P 2\nplace c Z 3\nfull a P E\nfull b Q F\nend\n",
        "glb map 2\nplace a P 2\nplace b Q 2\nplace c Z 3\nend\n",
    ),
    (
        RING,
        TURNED,
        b"capacity Z 4\n",
        "glb map 2\nplace a Q 1\nplace b S 1\nplace c P 1\nplace d Z 4\nfull a P P\nfull b Q Q\nfull c S S\nend\n",
        "glb map 2\nplace a P 1\nplace b Q 1\nplace c S 1\nplace d Z 4\nend\n",
    ),
];

fn assert_two_maps<R: Abort + Threads + Wait + Sync + AllocGlobal>(
    rt: &R,
    rows: &[TwoMaps],
) -> Result<(), Fail> {
    for (topology, map, changes, repaired, scratch) in rows {
        let (topology, map, changes) = (Topology(*topology), Bytes(*map), Bytes(*changes));
        let row = (topology, map, changes, Status::Ok, *repaired, 3usize);
        assert_repair(rt, &row)?;
        let row = (topology, Missing, Status::Ok, *scratch, 1usize);
        assert_eq!(rt; first_wrong(rt, &["glb", "map", "t"], &[row])?, None);
    }
    Ok(())
}

#[test]
fn repairs_are_not_maps_from_scratch(rt: HostRuntime) -> Result<(), Fail> {
    assert_two_maps(&rt, TWO_MAPS)
}

/// Repairs of worlds with two good maps in which another tree is changed, and one that gives all their first place.
const MORE: &[RepairRow] = &[
    (
        Topology(TWO_GOOD),
        Bytes(SWAPPED),
        Bytes(b"demand c 2\n"),
        Status::Ok,
        "glb map 2\nplace a Q 1\nplace b P 1\nplace c Z 2\nfull a P P\nfull b Q Q\nend\n",
        3,
    ),
    (
        Topology(TWO_REGIONS),
        Bytes(SWAPPED_REGIONS),
        Bytes(b"capacity Z 2\ndemand c 9\n"),
        Status::Ok,
        "glb map 2\nplace a Q 2\nplace b P 2\nplace c Z 2\nfull a P E\nfull b Q F\nfull c Z Z\nend\n",
        3,
    ),
    (
        Topology(RING),
        Bytes(TURNED),
        Bytes(b"capacity P 2\n"),
        Status::Ok,
        "glb map 2\nplace a P 1\nplace b Q 1\nplace c S 1\nplace d Z 4\nend\n",
        3,
    ),
];

#[test]
fn repairs_leave_other_trees(rt: HostRuntime) -> Result<(), Fail> {
    assert_repairs(&rt, MORE)
}

/// Files that cannot be repaired.
const NO_REPAIRS: &[RepairRow] = &[
    (
        Topology(REGION),
        Bytes(GOOD_REGION),
        Bytes(b"demand g1 6\ndemand g9 1\n"),
        Status::Refused,
        "refused changes unknown name at line 2\n",
        3,
    ),
    (
        Topology(REGION),
        Bytes(GOOD_REGION),
        Bytes(b"capacity g1 1\n"),
        Status::Refused,
        "refused changes unknown name at line 1\n",
        3,
    ),
    (
        Topology(REGION),
        Bytes(GOOD_REGION),
        Bytes(b"demand g1 0\n"),
        Status::Refused,
        "refused changes out of range at line 1\n",
        3,
    ),
    (
        Topology(REGION),
        Bytes(GOOD_REGION),
        Bytes(b"capacity A 10\n\ncapacity A 9\n"),
        Status::Refused,
        "refused changes unknown word at line 2\n",
        3,
    ),
    (
        Topology(REGION),
        Bytes(GOOD_REGION),
        Bytes(b"demand g1 6\ncommit\n"),
        Status::Refused,
        "refused changes unknown word at line 2\n",
        3,
    ),
    (
        Topology(REGION),
        Bytes(GOOD_REGION),
        Bytes(b"capacity A\n"),
        Status::Refused,
        "refused changes wrong count at line 1\n",
        3,
    ),
    (
        Topology(REGION),
        Bytes(GOOD_REGION),
        Bytes(b"capacity A 1\r\n"),
        Status::Refused,
        "refused changes bad byte at line 1\n",
        3,
    ),
    (
        Topology(REGION),
        Bytes(GOOD_REGION),
        Bytes(b"capacity A -1\n"),
        Status::Refused,
        "refused changes bad number at line 1\n",
        3,
    ),
    (
        Topology(REGION),
        Bytes(GOOD_REGION),
        Zeros(1_048_577),
        Status::Refused,
        "refused changes too long\n",
        3,
    ),
    // A map that is not good, and the fault of the changes before that.
    (
        Topology(REGION),
        Bytes(
            b"glb map 1\nplace g1 A 8\nplace g2 A 2\nplace g2 B 4\nfull g2 A A\nfull g2 B R\nend\n",
        ),
        Bytes(b"demand g1 6\n"),
        Status::NotGood,
        "blocking g2 B\n",
        3,
    ),
    (
        Topology(REGION),
        Bytes(
            b"glb map 1\nplace g1 A 8\nplace g2 A 2\nplace g2 B 4\nfull g2 A A\nfull g2 B R\nend\n",
        ),
        Bytes(b"demand g1\n"),
        Status::Refused,
        "refused changes wrong count at line 1\n",
        3,
    ),
    // The old map is judged by the old numbers.
    (
        Topology(REGION),
        Bytes(b"glb map 1\nplace g1 A 6\nplace g2 A 4\nplace g2 B 4\nfull g2 A A\nend\n"),
        Bytes(b"demand g1 6\n"),
        Status::NotGood,
        "blocking g1 A\n",
        3,
    ),
    // The first file that is not there or is at fault ends it.
    (
        Topology(REGION),
        Bytes(b"glb map 1\nplace g9 A 1\n"),
        Bytes(b"demand g1\n"),
        Status::Refused,
        "refused map unknown name at line 2\n",
        2,
    ),
    (
        Missing,
        Bytes(GOOD_REGION),
        Bytes(b""),
        Status::SourceFault,
        "",
        1,
    ),
    (
        Topology(REGION),
        Missing,
        Bytes(b""),
        Status::SourceFault,
        "",
        2,
    ),
    (
        Topology(REGION),
        Bytes(GOOD_REGION),
        Missing,
        Status::SourceFault,
        "",
        3,
    ),
];

#[test]
fn repairs_that_are_none(rt: HostRuntime) -> Result<(), Fail> {
    assert_repairs(&rt, NO_REPAIRS)
}
