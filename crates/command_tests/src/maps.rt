//! `map` over files: maps that were worked out by hand, each of which is good by `check`.
use crate::circles;
use glb::Status;
use std::process::Abort;
use std::sync::Wait;
use std::test::Fail;
use std::thread::Threads;
use trial_runs::Held::{self, Bytes, Missing, Topology, Zeros};
use trial_runs::{
    EIGHT_LEVELS, EMPTY_POOL, GOOD_FLAT, NO_DEFAULT, NO_LONGER_FULL, REGION, REGION_MAP, Row,
    first_wrong,
};

/// The groups of TWO_GOOD, where the third one asks for one unit more.
pub const TWO_GOOD_CHANGED: &str = "node = [
{name = \"P\", capacity = 1, pool = true},
{name = \"Q\", capacity = 1, pool = true},
{name = \"Z\", capacity = 5, pool = true},
]
group = [
{name = \"a\", demand = 1, pools = [\"P\", \"Q\"], scores = [2, 1], prefixes = [\"0.0.0.0/0\", \"::/0\"]},
{name = \"b\", demand = 1, pools = [\"Q\", \"P\"], scores = [2, 1], prefixes = []},
{name = \"c\", demand = 2, pools = [\"Z\"], scores = [1], prefixes = []},
]
";

/// A region that holds less than its two pools.
const FULL_REGION: &str = "node = [
{name = \"R\", capacity = 10},
{name = \"A\", parent = \"R\", capacity = 10, pool = true},
{name = \"B\", parent = \"R\", capacity = 10, pool = true},
]
group = [
{name = \"a\", demand = 8, pools = [\"A\"], scores = [1], prefixes = [\"0.0.0.0/0\", \"::/0\"]},
{name = \"b\", demand = 8, pools = [\"B\"], scores = [2], prefixes = []},
]
";

/// A pool of five units in a region of none.
const EMPTY_REGION: &str = "node = [
{name = \"R\", capacity = 0},
{name = \"A\", parent = \"R\", capacity = 5, pool = true},
]
group = [{name = \"g\", demand = 1, pools = [\"A\"], scores = [1], prefixes = [\"0.0.0.0/0\", \"::/0\"]}]
";

/// The most that a group may ask for, of the most that a pool may hold.
const LARGEST: &str = "node = [{name = \"A\", capacity = 281474976710656, pool = true}]
group = [{name = \"g\", demand = 4294967295, pools = [\"A\"], scores = [1], prefixes = [\"0.0.0.0/0\", \"::/0\"]}]
";

/// Topologies, and the map that is written of each. It is good by `check`.
const MAPS: &[(Held, &str)] = &[
    (Topology(REGION), REGION_MAP),
    (
        Topology(NO_LONGER_FULL),
        "glb map 2\nplace a A 2\nplace c B 8\nfull a A R\nfull b A R\nend\n",
    ),
    (
        Topology(FULL_REGION),
        "glb map 2\nplace a A 8\nplace b B 2\nfull b B R\nend\n",
    ),
    (
        Topology(TWO_GOOD_CHANGED),
        "glb map 2\nplace a P 1\nplace b Q 1\nplace c Z 2\nend\n",
    ),
    (Topology(EMPTY_POOL), "glb map 2\nfull g A A\nend\n"),
    (Topology(EMPTY_REGION), "glb map 2\nfull g A R\nend\n"),
    (
        Topology(EIGHT_LEVELS),
        "glb map 2\nplace g n7 3\nfull g n7 n0\nend\n",
    ),
    (Topology(LARGEST), "glb map 2\nplace g A 4294967295\nend\n"),
    (Topology(circles::PAIR), circles::PAIR_MAP),
    (Topology(circles::DEEP_PAIR), circles::DEEP_PAIR_MAP),
    (Topology(circles::RING), circles::RING_MAP),
];

/// Each topology has this map, which is good.
fn assert_maps<R: Abort + Threads + Wait + Sync + AllocGlobal>(
    rt: &R,
    rows: &[(Held, &'static str)],
) -> Result<(), Fail> {
    for (topology, map) in rows {
        let row = (*topology, Missing, Status::Ok, *map, 1usize);
        assert_eq!(rt; first_wrong(rt, &["glb", "map", "t"], &[row])?, None);
        let row = (
            *topology,
            Bytes(map.as_bytes()),
            Status::Ok,
            "good\n",
            2usize,
        );
        assert_eq!(rt; first_wrong(rt, &["glb", "check", "t", "m"], &[row])?, None);
    }
    Ok(())
}

#[test]
fn maps(rt: HostRuntime) -> Result<(), Fail> {
    assert_maps(&rt, MAPS)
}

/// Files of which there is no map.
const NO_MAPS: &[Row] = &[
    (
        Zeros(67_108_865),
        Missing,
        Status::Refused,
        "refused topology too long\n",
        1,
    ),
    (
        Topology(NO_DEFAULT),
        Missing,
        Status::Refused,
        "refused topology 14 no default at family 6\n",
        1,
    ),
    (Missing, Bytes(GOOD_FLAT), Status::SourceFault, "", 1),
];

#[test]
fn topologies_without_a_map(rt: HostRuntime) -> Result<(), Fail> {
    assert_eq!(rt; first_wrong(&rt, &["glb", "map", "t"], NO_MAPS)?, None);
    Ok(())
}
