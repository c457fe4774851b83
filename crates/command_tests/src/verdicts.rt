//! `check` over files: verdicts on maps, and files of which it says nothing.
use glb::Status;
use std::test::Fail;
use trial_runs::Held::{Bytes, Missing, Topology, Zeros};
use trial_runs::{
    EIGHT_LEVELS, EMPTY_POOL, FLAT, GOOD_FLAT, GOOD_REGION, NO_DEFAULT, NO_LONGER_FULL, REGION,
    Row, TWO_GOOD, first_wrong,
};

/// Nine nodes on one path.
const NINE_LEVELS: &str = "node = [
{name = \"n0\", capacity = 3},
{name = \"n1\", parent = \"n0\", capacity = 9},
{name = \"n2\", parent = \"n1\", capacity = 9},
{name = \"n3\", parent = \"n2\", capacity = 9},
{name = \"n4\", parent = \"n3\", capacity = 9},
{name = \"n5\", parent = \"n4\", capacity = 9},
{name = \"n6\", parent = \"n5\", capacity = 9},
{name = \"n7\", parent = \"n6\", capacity = 9},
{name = \"n8\", parent = \"n7\", capacity = 9, pool = true},
]
group = [{name = \"g\", demand = 4, pools = [\"n8\"], scores = [0], prefixes = [\"0.0.0.0/0\", \"::/0\"]}]
";

/// A child before its parent.
const CHILD_FIRST: &str = "node = [
{name = \"A\", parent = \"R\", capacity = 10, pool = true},
{name = \"R\", capacity = 15},
]
group = [{name = \"g\", demand = 4, pools = [\"A\"], scores = [0], prefixes = [\"0.0.0.0/0\", \"::/0\"]}]
";

/// Topologies and maps, and what `check` says of them.
const VERDICTS: &[Row] = &[
    (Topology(FLAT), Bytes(GOOD_FLAT), Status::Ok, "good\n", 2),
    (
        Topology(FLAT),
        Bytes(b"glb map 1\nplace g A 3\nend\n"),
        Status::NotGood,
        "blocking g A\n",
        2,
    ),
    (
        Topology(FLAT),
        Bytes(b"glb map 1\nplace g A 5\nend\n"),
        Status::NotGood,
        "over demand g 5\n",
        2,
    ),
    (
        Topology(FLAT),
        Bytes(b"glb map 1\nplace g A 4294967295\nend\n"),
        Status::NotGood,
        "over demand g 4294967295\n",
        2,
    ),
    (
        Topology(EMPTY_POOL),
        Bytes(b"glb map 1\nfull g A A\nend\n"),
        Status::Ok,
        "good\n",
        2,
    ),
    (
        Topology(TWO_GOOD),
        Bytes(b"glb map 1\nplace a Q 1\nplace b P 1\nplace c Z 1\nfull a P P\nfull b Q Q\nend\n"),
        Status::Ok,
        "good\n",
        2,
    ),
    (
        Topology(TWO_GOOD),
        Bytes(b"glb map 1\nplace a P 1\nplace b Q 1\nplace c Z 1\nend\n"),
        Status::Ok,
        "good\n",
        2,
    ),
    (
        Topology(REGION),
        Bytes(GOOD_REGION),
        Status::Ok,
        "good\n",
        2,
    ),
    (
        Topology(NO_LONGER_FULL),
        Bytes(b"glb map 1\nplace a A 2\nplace c B 8\nfull a A R\nfull b A R\nend\n"),
        Status::Ok,
        "good\n",
        2,
    ),
    (
        Topology(REGION),
        Bytes(
            b"glb map 1\nplace g1 A 8\nplace g2 A 2\nplace g2 B 4\nfull g2 A A\nfull g2 B R\nend\n",
        ),
        Status::NotGood,
        "blocking g2 B\n",
        2,
    ),
    (
        Topology(REGION),
        Bytes(
            b"glb map 1\nplace g1 A 9\nplace g2 A 2\nplace g2 B 5\nfull g2 A A\nfull g2 B R\nend\n",
        ),
        Status::NotGood,
        "over demand g1 9\n",
        2,
    ),
    (
        Topology(REGION),
        Bytes(b"glb map 1\nplace g1 A 8\nplace g2 B 8\nend\n"),
        Status::NotGood,
        "over capacity R 16\n",
        2,
    ),
    (
        Topology(REGION),
        Bytes(b"glb map 1\nplace g1 A 6\nplace g2 A 5\nend\n"),
        Status::NotGood,
        "over capacity A 11\n",
        2,
    ),
    (
        Topology(REGION),
        Bytes(b"glb map 1\nplace g1 A 8\nplace g2 A 2\nplace g2 B 5\nfull g2 A A\nend\n"),
        Status::NotGood,
        "bad name 1\n",
        2,
    ),
    (
        Topology(REGION),
        Bytes(
            b"glb map 1\nplace g1 A 8\nplace g2 A 2\nplace g2 B 5\nfull g2 A R\nfull g2 B R\nend\n",
        ),
        Status::NotGood,
        "bad name 0\n",
        2,
    ),
    (
        Topology(EIGHT_LEVELS),
        Bytes(b"glb map 1\nplace g n7 3\nfull g n7 n0\nend\n"),
        Status::Ok,
        "good\n",
        2,
    ),
];

#[test]
fn verdicts(rt: HostRuntime) -> Result<(), Fail> {
    assert_eq!(rt;
        first_wrong(&rt, &["glb", "check", "t", "m"], VERDICTS)?,
        None
    );
    Ok(())
}

/// Files of which `check` says nothing: they are at fault, or are not there.
const REFUSALS: &[Row] = &[
    (
        Zeros(67_108_865),
        Bytes(GOOD_FLAT),
        Status::Refused,
        "refused topology too long\n",
        1,
    ),
    (
        Topology(FLAT),
        Zeros(268_435_457),
        Status::Refused,
        "refused map too long\n",
        2,
    ),
    (
        Bytes(b"name = \"\xff\"\n"),
        Bytes(GOOD_FLAT),
        Status::Refused,
        "refused topology 1 not toml\n",
        1,
    ),
    (
        Bytes(b"node ="),
        Missing,
        Status::Refused,
        "refused topology 1 not toml\n",
        1,
    ),
    (
        Bytes(b""),
        Bytes(b""),
        Status::Refused,
        "refused topology 2 missing key at top zone\n",
        1,
    ),
    (
        Topology(CHILD_FIRST),
        Bytes(GOOD_FLAT),
        Status::Refused,
        "refused topology 8 parent order at node 0 parent\n",
        1,
    ),
    (
        Topology(NINE_LEVELS),
        Bytes(GOOD_FLAT),
        Status::Refused,
        "refused topology 9 too deep at node 8 parent\n",
        1,
    ),
    (
        Topology(NO_DEFAULT),
        Bytes(GOOD_FLAT),
        Status::Refused,
        "refused topology 14 no default at family 6\n",
        1,
    ),
    (
        Topology(FLAT),
        Bytes(b"glb map 1\nplace g9 A 1\n"),
        Status::Refused,
        "refused map unknown name at line 2\n",
        2,
    ),
    (
        Bytes(GOOD_FLAT),
        Topology(FLAT),
        Status::Refused,
        "refused topology 1 not toml\n",
        1,
    ),
    (Missing, Bytes(GOOD_FLAT), Status::SourceFault, "", 1),
    (Topology(FLAT), Missing, Status::SourceFault, "", 2),
];

#[test]
fn refusals(rt: HostRuntime) -> Result<(), Fail> {
    assert_eq!(rt;
        first_wrong(&rt, &["glb", "check", "t", "m"], REFUSALS)?,
        None
    );
    Ok(())
}
