//! A group's demand for one service, as a unit of its own: the map, replies, and classes at fault.
use glb::Status;
use std::process::Abort;
use std::sync::Wait;
use std::test::Fail;
use std::thread::Threads;
use trial_runs::Held::{Bytes, Missing, Topology};
use trial_runs::{Row, comes_so, first_wrong};

/// Two pools in one region, and a class of the second group.
const CLASSED: &str = "node = [
{name = \"R\", capacity = 15},
{name = \"A\", parent = \"R\", capacity = 10, pool = true, a = [\"192.0.2.1\"]},
{name = \"B\", parent = \"R\", capacity = 10, pool = true, a = [\"192.0.2.2\"]},
]
group = [
{name = \"g1\", demand = 8, pools = [\"A\", \"B\"], scores = [1, 2], prefixes = [\"0.0.0.0/0\", \"::/0\"]},
{name = \"g2\", demand = 8, pools = [\"A\", \"B\"], scores = [3, 4], prefixes = [\"198.51.100.0/24\"]},
]
class = [{name = \"g2www\", group = \"g2\", service = \"www\", demand = 3, pools = [\"B\"], scores = [1]}]
";

const CLASSED_MAP: &str =
    "glb map 2\nplace g1 A 8\nplace g2 A 2\nplace g2 B 2\nplace g2www B 3\nfull g2 A A\nfull g2 B R\nend\n";

/// Two classes of one group and one service, whose letter case does not matter.
const TWICE: &str = "node = [{name = \"A\", capacity = 10, pool = true}]
group = [{name = \"g\", demand = 4, pools = [\"A\"], scores = [0], prefixes = [\"0.0.0.0/0\", \"::/0\"]}]
class = [
{name = \"one\", group = \"g\", service = \"www\", demand = 1, pools = [\"A\"], scores = [0]},
{name = \"two\", group = \"g\", service = \"WWW\", demand = 1, pools = [\"A\"], scores = [0]},
]
";

const MAPPED: &[Row] = &[
    (Topology(CLASSED), Missing, Status::Ok, CLASSED_MAP, 1),
    (
        Topology(TWICE),
        Missing,
        Status::Refused,
        "refused topology 6 duplicate name at class 1 service\n",
        1,
    ),
];

#[test]
fn classes(rt: HostRuntime) -> Result<(), Fail> {
    assert_eq!(rt; first_wrong(&rt, &["glb", "map", "t"], MAPPED)?, None);
    Ok(())
}

const QUERY: &str = "123401000001000000000000037777770363646e076578616d706c650000010001";

/// Who asks for the address of the service, and the line on the output.
const REPLIES: &[(&str, &str)] = &[
    (
        "198.51.100.7",
        "answer 123485000001000100000000037777770363646e076578616d706c650000010001c00c00010001000000140004c0000202\n",
    ),
    (
        "203.0.113.9",
        "answer 123485000001000100000000037777770363646e076578616d706c650000010001c00c00010001000000140004c0000201\n",
    ),
];

fn assert_reply<R: Abort + Threads + Wait + Sync + AllocGlobal>(
    rt: &R,
    from: &str,
    line: &str,
) -> Result<(), Fail> {
    let words = &["glb", "answer", "t", "m", from, QUERY];
    let held = [
        ("t", Topology(CLASSED)),
        ("m", Bytes(CLASSED_MAP.as_bytes())),
    ];
    let is = comes_so(rt, words, &held, Status::Ok, line.as_bytes(), 2)?;
    assert!(rt; is, "for {from}");
    Ok(())
}

fn assert_replies<R: Abort + Threads + Wait + Sync + AllocGlobal>(
    rt: &R,
    rows: &[(&str, &str)],
) -> Result<(), Fail> {
    for (from, line) in rows {
        assert_reply(rt, *from, *line)?;
    }
    Ok(())
}

#[test]
fn replies_by_class(rt: HostRuntime) -> Result<(), Fail> {
    assert_replies(&rt, REPLIES)
}

/// A change names a class as it names a group: two units of it go, and the group beside it has two more.
#[test]
fn a_change_of_a_class(rt: HostRuntime) -> Result<(), Fail> {
    let text =
        "glb map 2\nplace g1 A 8\nplace g2 A 2\nplace g2 B 4\nplace g2www B 1\nfull g2 A A\nfull g2 B R\nend\n";
    let words = &["glb", "repair", "t", "m", "c"];
    let held = [
        ("t", Topology(CLASSED)),
        ("m", Bytes(CLASSED_MAP.as_bytes())),
        ("c", Bytes(b"demand g2www 1\n")),
    ];
    assert!(rt; comes_so(&rt, words, &held, Status::Ok, text.as_bytes(), 3)?);
    Ok(())
}
