//! Offers with limits of their own: their map, what `check`, `places` and `repair` say of them, and files at fault.
use glb::Status;
use std::test::Fail;
use trial_runs::Held::{self, Bytes, Missing, Topology};
use trial_runs::{Row, comes_so, first_wrong};

/// Two pools in one region, of whose first one the better group takes five units at most.
const LIMITED: &str = "node = [
{name = \"R\", capacity = 15},
{name = \"A\", parent = \"R\", capacity = 10, pool = true},
{name = \"B\", parent = \"R\", capacity = 10, pool = true},
]
group = [
{name = \"g1\", demand = 8, pools = [\"A\", \"B\"], scores = [1, 2], limits = [5, 10], prefixes = [\"0.0.0.0/0\", \"::/0\"]},
{name = \"g2\", demand = 8, pools = [\"A\", \"B\"], scores = [3, 4], prefixes = [\"198.51.100.0/24\"]},
]
";

/// Its map, as a text and as octets.
const LIMITED_MAP: &str =
    "glb map 2\nplace g1 A 5\nplace g1 B 3\nplace g2 A 5\nplace g2 B 2\nlimit g1 A\nfull g2 A A\nfull g2 B R\nend\n";

const LIMITED_OCTETS: &[u8] =
    b"glb map 2\nplace g1 A 5\nplace g1 B 3\nplace g2 A 5\nplace g2 B 2\nlimit g1 A\nfull g2 A A\nfull g2 B R\nend\n";

/// The same with one limit too few, and with a limit of 0.
const ONE_LIMIT: &str =
    "node = [{name = \"A\", capacity = 10, pool = true}, {name = \"B\", capacity = 10, pool = true}]
group = [{name = \"g1\", demand = 8, pools = [\"A\", \"B\"], scores = [1, 2], limits = [5], prefixes = [\"0.0.0.0/0\", \"::/0\"]}]
";

const LIMIT_OF_NONE: &str =
    "node = [{name = \"A\", capacity = 10, pool = true}, {name = \"B\", capacity = 10, pool = true}]
group = [{name = \"g1\", demand = 8, pools = [\"A\", \"B\"], scores = [1, 2], limits = [5, 0], prefixes = [\"0.0.0.0/0\", \"::/0\"]}]
";

const MAPPED: &[Row] = &[
    (Topology(LIMITED), Missing, Status::Ok, LIMITED_MAP, 1),
    (
        Topology(ONE_LIMIT),
        Missing,
        Status::Refused,
        "refused topology 15 list shape at group 0 limits\n",
        1,
    ),
    (
        Topology(LIMIT_OF_NONE),
        Missing,
        Status::Refused,
        "refused topology 10 out of range at group 0 limits 1\n",
        1,
    ),
];

const CHECKED: &[Row] = &[
    (
        Topology(LIMITED),
        Bytes(LIMITED_OCTETS),
        Status::Ok,
        "good\n",
        2,
    ),
    (
        Topology(LIMITED),
        Bytes(
            b"glb map 2\nplace g1 A 6\nplace g1 B 2\nplace g2 A 5\nplace g2 B 2\nlimit g1 A\nfull g2 A A\nfull g2 B R\nend\n",
        ),
        Status::NotGood,
        "over limit g1 A 6\n",
        2,
    ),
    // The limit is named ahead of the full pool, and the older version of the text has no such line.
    (
        Topology(LIMITED),
        Bytes(
            b"glb map 2\nplace g1 A 5\nplace g1 B 3\nplace g2 A 5\nplace g2 B 2\nfull g1 A A\nfull g2 A A\nfull g2 B R\nend\n",
        ),
        Status::NotGood,
        "bad name 0\n",
        2,
    ),
    (
        Topology(LIMITED),
        Bytes(b"glb map 1\nplace g1 A 5\nlimit g1 A\nend\n"),
        Status::Refused,
        "refused map bad line at line 3\n",
        2,
    ),
];

const PLACED: &[Row] = &[(
    Topology(LIMITED),
    Missing,
    Status::Ok,
    "place 0 10\nplace 1 5\nunplaced 1\n",
    1,
)];

#[test]
fn limits(rt: HostRuntime) -> Result<(), Fail> {
    assert_eq!(rt; first_wrong(&rt, &["glb", "map", "t"], MAPPED)?, None);
    assert_eq!(rt;
        first_wrong(&rt, &["glb", "check", "t", "m"], CHECKED)?,
        None
    );
    assert_eq!(rt; first_wrong(&rt, &["glb", "places", "t"], PLACED)?, None);
    Ok(())
}

/// The better group asks for four units, which is within its limit.
const FEWER: &[(&str, Held)] = &[
    ("t", Topology(LIMITED)),
    ("m", Bytes(LIMITED_OCTETS)),
    ("c", Bytes(b"demand g1 4\n")),
];

#[test]
fn repairs_within_limits(rt: HostRuntime) -> Result<(), Fail> {
    let words = &["glb", "repair", "t", "m", "c"];
    let text = "glb map 2\nplace g1 A 4\nplace g2 A 6\nplace g2 B 2\nfull g2 A A\nend\n";
    assert!(rt; comes_so(&rt, words, FEWER, Status::Ok, text.as_bytes(), 3)?);
    Ok(())
}
