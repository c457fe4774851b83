//! Octets that nobody should send: datagrams and lines of the feed by a table, and files and feeds that are cut at each octet or differ in one.
ghost use Rattle.std.specs.Prelude.{◌≤◌, length};

use glb::Status;
use no_memory::NoMemory;
use outside::{File, MemShelf};
use std::alloc::Global;
use std::process::Abort;
use std::sync::Wait;
use std::test::Fail;
use std::thread::Threads;
use trial_runs::Held::{self, Bytes, Missing, Topology};
use trial_runs::{
    Came, GOOD_REGION, NEVER, PLAIN, REGION, ROOM, Row, Setting, ZONE, came_over, comes_with,
    first_wrong, session_of,
};

/// Datagrams from 198.51.100.7 on the region's map, and their replies.
const DATAGRAMS: &[(&str, &str)] = &[
    // A pointer in the question.
    (
        "123401000001000000000000c00c00010001",
        "123481010000000000000000",
    ),
    // A reserved length octet.
    (
        "123401000001000000000000437777770363646e076578616d706c650000010001",
        "123481010000000000000000",
    ),
    // Cut after 20 octets.
    (
        "123401000001000000000000037777770363646e",
        "123481010000000000000000",
    ),
    // Two questions are said, or a record, which aren't there.
    (
        "123401000002000000000000037777770363646e076578616d706c650000010001",
        "123481010000000000000000",
    ),
    (
        "123401000001000000000001037777770363646e076578616d706c650000010001",
        "123481010000000000000000",
    ),
    // 65,535 records are said, of which one is there.
    (
        "12340100000100000000ffff037777770363646e076578616d706c65000001000100002904d000000000000b0008000700011800c63364",
        "123481010000000000000000",
    ),
    // A record whose name is a pointer.
    (
        "123401000001000000000001037777770363646e076578616d706c650000010001c00c00010001000000000000",
        "123485000001000100000000037777770363646e076578616d706c650000010001c00c00010001000000140004c0000201",
    ),
    // An OPT record whose name isn't the root.
    (
        "123401000001000000000001037777770363646e076578616d706c650000010001c00c002904d0000000000000",
        "123481010000000000000000",
    ),
    // Options that end inside one's length.
    (
        "123401000001000000000001037777770363646e076578616d706c65000001000100002904d0000000000003000800",
        "123481010001000000000001037777770363646e076578616d706c65000001000100002904d0000000000000",
    ),
    // A subnet of family 3.
    (
        "123401000001000000000001037777770363646e076578616d706c65000001000100002904d00000000000080008000400031800",
        "123481010001000000000001037777770363646e076578616d706c65000001000100002904d0000000000000",
    ),
    // Seven octets behind the query.
    (
        "123401000001000000000000037777770363646e076578616d706c65000001000100000000000000",
        "123485000001000100000000037777770363646e076578616d706c650000010001c00c00010001000000140004c0000201",
    ),
    // A subnet of family 0, all 0.
    (
        "123401000001000000000001037777770363646e076578616d706c65000001000100002904d00000000000080008000400000000",
        "123485000001000100000001037777770363646e076578616d706c650000010001c00c00010001000000140004c000020100002904d0000000000000",
    ),
];

/// The region's topology and map.
const FILES: &[(&str, Held)] = &[("t", Topology(REGION)), ("m", Bytes(GOOD_REGION))];

/// One datagram is answered so.
fn assert_datagram<R: Abort + Threads + Wait + Sync + AllocGlobal>(
    rt: &R,
    datagram: &str,
    reply: &str,
) -> Result<(), Fail> {
    let words = &["glb", "answer", "t", "m", "198.51.100.7", datagram];
    let pieces = &["answer ", reply, "\n"];
    let is = comes_with(rt, words, FILES, Status::Ok, pieces)?;
    assert!(rt; is, "for {datagram}");
    Ok(())
}

fn assert_datagrams<R: Abort + Threads + Wait + Sync + AllocGlobal>(
    rt: &R,
    rows: &[(&str, &str)],
) -> Result<(), Fail> {
    for (datagram, reply) in rows {
        assert_datagram(rt, datagram, reply)?;
    }
    Ok(())
}

#[test]
fn datagrams(rt: HostRuntime) -> Result<(), Fail> {
    assert_datagrams(&rt, DATAGRAMS)
}

/// Files that hold no topology, and how that is said.
const NO_TOPOLOGIES: &[Row] = &[
    (
        Bytes(b""),
        Missing,
        Status::Refused,
        "refused topology 2 missing key at top zone\n",
        1,
    ),
    (
        Bytes(b"[zone]\n"),
        Missing,
        Status::Refused,
        "refused topology 2 missing key at top node\n",
        1,
    ),
    (
        Bytes(b"[zone]\napex = \"cdn.ex"),
        Missing,
        Status::Refused,
        "refused topology 1 not toml\n",
        1,
    ),
];

#[test]
fn files_that_hold_no_topology(rt: HostRuntime) -> Result<(), Fail> {
    assert_eq!(rt;
        first_wrong(&rt, &["glb", "map", "t"], NO_TOPOLOGIES)?,
        None
    );
    Ok(())
}

/// A session of one quiet lane over a feed.
fn session_over<R: Threads + Wait + Sync + AllocGlobal>(
    rt: &R,
    feed: &[u8],
) -> Result<Came, NoMemory> {
    let setting = Setting {
        turns: 1000,
        ..PLAIN
    };
    session_of(rt, setting, feed, &[])
}

/// A line, which is said so many times, and what is written of the last of them.
struct FeedLine {
    octets: &'static [u8],
    times: usize,
    text: &'static str,
}

const LINES: &[FeedLine] = &[
    FeedLine {
        octets: b"\xff\n",
        times: 1,
        text: "refused 1 bad byte\n",
    },
    FeedLine {
        octets: b"\n",
        times: 1,
        text: "refused 1 unknown word\n",
    },
    FeedLine {
        octets: b"demand g1 4 5\n",
        times: 1,
        text: "refused 1 wrong count\n",
    },
    FeedLine {
        octets: b"demand g1 x\n",
        times: 1,
        text: "refused 1 bad number\n",
    },
    FeedLine {
        octets: b"demand g1 0\n",
        times: 1,
        text: "refused 1 out of range\n",
    },
    FeedLine {
        octets: b"ask 1.2.3 00\n",
        times: 1,
        text: "refused 1 bad address\n",
    },
    FeedLine {
        octets: b"ask 1.2.3.4 abc\n",
        times: 1,
        text: "refused 1 bad hex\n",
    },
    FeedLine {
        octets: b"demand g1 8\n",
        times: 4_096,
        text: "",
    },
    FeedLine {
        octets: b"demand g1 8\n",
        times: 4_097,
        text: "refused 4097 batch full\n",
    },
    // A line of 8,300 octets, and of 8,301.
    FeedLine {
        octets: b"a",
        times: 8_300,
        text: "refused 1 unknown word\n",
    },
    FeedLine {
        octets: b"a",
        times: 8_301,
        text: "refused 1 too long\n",
    },
];

/// A feed of that line, so many times.
fn feed_of(alloc: Global, line: &FeedLine) -> Result<Vec<u8>, NoMemory> {
    let mut feed = Vec::new(alloc);
    for _ in 0..line.times {
        feed.extend_from_slice(line.octets)?;
    }
    Ok(feed)
}

/// Whether its session ends well, with the text that is due.
fn is_said<R: Threads + Wait + Sync + AllocGlobal>(
    rt: &R,
    line: &FeedLine,
) -> Result<bool, NoMemory> {
    let feed = feed_of(rt.alloc(), line)?;
    let came = session_over(rt, feed.as_slice())?;
    Ok(came.says(Status::Ok, &[line.text]))
}

fn assert_line<R: Abort + Threads + Wait + Sync + AllocGlobal>(
    rt: &R,
    line: &FeedLine,
) -> Result<(), Fail> {
    assert!(rt; is_said(rt, line)?, "for {}", line.text);
    Ok(())
}

fn assert_lines<R: Abort + Threads + Wait + Sync + AllocGlobal>(
    rt: &R,
    lines: &[FeedLine],
) -> Result<(), Fail> {
    for line in lines {
        assert_line(rt, line)?;
    }
    Ok(())
}

#[test]
fn lines_of_the_feed(rt: HostRuntime) -> Result<(), Fail> {
    assert_lines(&rt, LINES)
}

const CHANGES: &[u8] = b"demand g1 6\ncapacity A 9\n";

/// A feed, line by line, with what is written of each line.
const FEED: &[FeedLine] = &[
    FeedLine {
        octets: b"demand g2 4\n",
        times: 1,
        text: "",
    },
    FeedLine {
        octets: b"capacity R 12\n",
        times: 1,
        text: "",
    },
    FeedLine {
        octets: b"commit\n",
        times: 1,
        text: "published 1\n",
    },
    FeedLine {
        octets: b"ask 198.51.100.7 00\n",
        times: 1,
        text: "answer 1 -\n",
    },
    // Twelve units are at A and B, so that A and R are full.
    FeedLine {
        octets: b"show\n",
        times: 1,
        text: "show 1 placed 12 unplaced 0 full 2\n",
    },
    FeedLine {
        octets: b"commit\n",
        times: 1,
        text: "published 1\n",
    },
    FeedLine {
        octets: b"stop\n",
        times: 1,
        text: "",
    },
];

fn whole_feed(alloc: Global) -> Result<Vec<u8>, NoMemory> {
    let mut feed = Vec::new(alloc);
    for line in FEED {
        feed.extend_from_slice(line.octets)?;
    }
    Ok(feed)
}

/// What an octet is changed to, in turn.
const OTHERS: &[u8] = &[0, b'\n', b' ', b'"', b'9', b'=', 0x80, 0xff];

/// A text that ends before an octet, or has another one there.
#[derive(Clone, Copy)]
enum Harm {
    Cut,
    Change(u8),
}

fn harm_text(text: &mut Vec<u8>, at: usize, harm: Harm) {
    match harm {
        Harm::Cut => text.truncate(at),
        Harm::Change(octet) => {
            if let Some(changed) = text.get_mut(at) {
                *changed = octet;
            }
        }
    }
}

/// Whether a status is one that any files may lead to, and the text one of a refusal exactly where it is that.
fn is_allowed(status: Status, text: &[u8]) -> bool {
    match status {
        Status::Refused => text.starts_with(b"refused "),
        Status::Ok | Status::NotGood => !text.starts_with(b"refused"),
        _ => false,
    }
}

/// Which of the three files is harmed.
#[derive(Clone, Copy, PartialEq, Eq, Debug)]
enum Which {
    Topology,
    Map,
    Changes,
}

/// A harm, and where it is done.
#[derive(Clone, Copy)]
struct Damage {
    at: usize,
    harm: Harm,
}

/// A file, harmed where it is the one that is to be.
fn file_of(
    alloc: Global,
    name: &str,
    text: &[u8],
    is_harmed: bool,
    damage: Damage,
) -> Result<File, NoMemory>
    requires { length name.now ≤ 255 }
{
    let mut text = Vec::from_slice(alloc, text)?;
    if is_harmed {
        harm_text(&mut text, damage.at, damage.harm);
    }
    Ok(File::new(name, text))
}

/// Puts a file behind the others.
fn push_file(
    alloc: Global,
    files: &mut Vec<File>,
    name: &str,
    text: &[u8],
    is_harmed: bool,
    damage: Damage,
) -> Result<(), NoMemory>
    requires { length name.now ≤ 255 }
{
    let file = file_of(alloc, name, text, is_harmed, damage)?;
    files.push(file)?;
    Ok(())
}

fn files_of(
    alloc: Global,
    topology: &[u8],
    which: Which,
    at: usize,
    harm: Harm,
) -> Result<MemShelf, NoMemory> {
    let mut files = Vec::new(alloc);
    let damage = Damage { at, harm };
    let (is_topology, is_map) = (which == Which::Topology, which == Which::Map);
    push_file(alloc, &mut files, "t", topology, is_topology, damage)?;
    push_file(alloc, &mut files, "m", GOOD_REGION, is_map, damage)?;
    push_file(
        alloc,
        &mut files,
        "c",
        CHANGES,
        which == Which::Changes,
        damage,
    )?;
    MemShelf::new(alloc, files, 8, Vec::new(alloc))
}

/// Whether a command over a harmed file put one text that may be.
fn is_sound(came: &Came, which: Which, harm: Harm) -> bool {
    let text = came.text();
    let is_cut_map = which == Which::Map && matches!(harm, Harm::Cut);
    is_allowed(came.status, text)
        && came.puts() == 1
        && (!is_cut_map || text == b"refused map truncated\n".as_slice())
}

/// Whether `repair` over files of which one is harmed put one text that may be.
fn comes_sound<R: Threads + Wait + Sync + AllocGlobal>(
    rt: &R,
    topology: &[u8],
    which: Which,
    at: usize,
    harm: Harm,
) -> Result<bool, NoMemory> {
    let files = files_of(rt.alloc(), topology, which, at, harm)?;
    let came = came_over(rt, &["glb", "repair", "t", "m", "c"], files, NEVER, ROOM)?;
    Ok(is_sound(&came, which, harm))
}

fn assert_harmed<R: Abort + Threads + Wait + Sync + AllocGlobal>(
    rt: &R,
    topology: &[u8],
    which: Which,
    at: usize,
    harm: Harm,
) -> Result<(), Fail> {
    let is = comes_sound(rt, topology, which, at, harm)?;
    assert!(rt; is, "for {which:?} at {at}");
    Ok(())
}

/// What an octet at a place is changed to.
fn other_at(at: usize) -> u8 {
    OTHERS.get(at % 8).copied().unwrap_or(0)
}

fn assert_file<R: Abort + Threads + Wait + Sync + AllocGlobal>(
    rt: &R,
    topology: &[u8],
    which: Which,
    length: usize,
) -> Result<(), Fail> {
    for at in 0..length {
        assert_harmed(rt, topology, which, at, Harm::Cut)?;
        assert_harmed(rt, topology, which, at, Harm::Change(other_at(at)))?;
    }
    Ok(())
}

#[test]
fn harmed_files(rt: HostRuntime) -> Result<(), Fail> {
    let topology = format!(in rt.alloc(); "{ZONE}{REGION}")?;
    let topology = topology.as_bytes();
    assert_file(&rt, topology, Which::Topology, topology.len())?;
    assert_file(&rt, topology, Which::Map, GOOD_REGION.len())?;
    assert_file(&rt, topology, Which::Changes, CHANGES.len())
}

/// Whether a session ended well, and each line is one of control text.
fn says_lines(came: &Came) -> bool {
    came.status == Status::Ok
        && came
            .text()
            .split(|octet| *octet == b'\n')
            .all(is_control_line)
}

fn is_control_line(line: &[u8]) -> bool {
    line.is_empty()
        || line.starts_with(b"published ")
        || line.starts_with(b"refused ")
        || line.starts_with(b"answer ")
        || line.starts_with(b"show ")
}

fn count_lines(text: &[u8]) -> usize {
    text.iter().filter(|octet| **octet == b'\n').count()
}

/// Whether a text is what is written of the lines of the feed that end before a place, and at most one line more.
fn is_said_before(text: &[u8], at: usize) -> bool {
    let mut rest = text;
    let mut end = 0usize;
    for line in FEED {
        end = end.saturating_add(line.octets.len());
        if end <= at {
            if !rest.starts_with(line.text.as_bytes()) {
                return false;
            }
            rest = rest.get(line.text.len()..).unwrap_or(&[]);
        }
    }
    count_lines(rest) <= 1
}

/// Of how many lines of the feed something is written, whatever octet stands at a place: those that don't have it, nor
/// stand right behind it.
fn count_untouched(at: usize) -> usize {
    let mut begin = 0usize;
    let mut count = 0usize;
    for line in FEED {
        let end = begin.saturating_add(line.octets.len());
        let is_touched = begin <= at.saturating_add(1) && at < end;
        if !line.text.is_empty() && !is_touched {
            count = count.saturating_add(1);
        }
        begin = end;
    }
    count
}

/// Whether a text is one that may come of the feed, harmed at that place.
fn may_be_said(text: &[u8], at: usize, harm: Harm) -> bool {
    match harm {
        Harm::Cut => is_said_before(text, at),
        Harm::Change(_) => count_untouched(at) <= count_lines(text),
    }
}

/// Whether a session over the feed, harmed at that place, ends well and puts lines of control text that may be.
fn ends_well<R: Threads + Wait + Sync + AllocGlobal>(
    rt: &R,
    at: usize,
    harm: Harm,
) -> Result<bool, NoMemory> {
    let mut feed = whole_feed(rt.alloc())?;
    harm_text(&mut feed, at, harm);
    let came = session_over(rt, feed.as_slice())?;
    Ok(says_lines(&came) && may_be_said(came.text(), at, harm))
}

fn assert_feed<R: Abort + Threads + Wait + Sync + AllocGlobal>(
    rt: &R,
    at: usize,
    harm: Harm,
) -> Result<(), Fail> {
    assert!(rt; ends_well(rt, at, harm)?, "for a feed harmed at {at}");
    Ok(())
}

fn assert_cut_feeds<R: Abort + Threads + Wait + Sync + AllocGlobal>(
    rt: &R,
    length: usize,
) -> Result<(), Fail> {
    for at in 0..length {
        assert_feed(rt, at, Harm::Cut)?;
    }
    Ok(())
}

fn assert_changed_feeds<R: Abort + Threads + Wait + Sync + AllocGlobal>(
    rt: &R,
    length: usize,
) -> Result<(), Fail> {
    for at in 0..length {
        assert_feed(rt, at, Harm::Change(other_at(at)))?;
    }
    Ok(())
}

#[test]
fn cut_feeds(rt: HostRuntime) -> Result<(), Fail> {
    let length = whole_feed(rt.alloc())?.len();
    assert_cut_feeds(&rt, length)
}

#[test]
fn changed_feeds(rt: HostRuntime) -> Result<(), Fail> {
    let length = whole_feed(rt.alloc())?.len();
    assert_changed_feeds(&rt, length)
}
