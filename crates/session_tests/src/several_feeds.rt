//! `serve` over several feeds, in memory.
use glb::Status;
use no_memory::NoMemory;
use std::alloc::Global;
use std::sync::Wait;
use std::test::Fail;
use std::thread::Threads;
use trial_runs::{
    Came, EMPTY, Fails, FeedScript, NEVER, ONE, PLAIN as SETTING, REGION_MAP, Setting, session_of,
};

/// The words of a session with these further feeds.
const SECOND: &[&str] = &[
    "glb",
    "serve",
    "t",
    "--listen",
    "127.0.0.1:53",
    "--feed2",
    "capacities",
];

const FOURTH_ALONE: &[&str] = &[
    "glb",
    "serve",
    "t",
    "--listen",
    "127.0.0.1:53",
    "--feed4",
    "by hand",
];

const ALL_FOUR: &[&str] = &[
    "glb",
    "serve",
    "t",
    "--feed4",
    "fourth",
    "--feed2",
    "second",
    "--listen",
    "127.0.0.1:53",
    "--feed3",
    "third",
];

/// What each feed says.
const FIRST_FEED: &str = "demand g1 7\ncommit\n";

const SECOND_FEED: FeedScript = FeedScript {
    text: b"demand g2 4\ncommit\n",
    ..EMPTY
};

/// The map behind the first feed's batch alone, behind the second one's alone, and behind both.
const BY_FIRST: &str = "glb map 2\nplace g1 A 7\nplace g2 A 3\nplace g2 B 5\nfull g2 A A\nend\n";

const BY_SECOND: &str = "glb map 2\nplace g1 A 8\nplace g2 A 2\nplace g2 B 2\nfull g2 A A\nend\n";

const BY_BOTH: &str = "glb map 2\nplace g1 A 7\nplace g2 A 3\nplace g2 B 1\nfull g2 A A\nend\n";

/// What both outputs get.
type BothTexts = (&'static str, &'static [&'static str]);

/// A session, and what may come of it: the status, and what both outputs get. The names under which its further feeds were
/// opened are those that follow.
#[derive(Clone, Copy)]
struct Row {
    words: &'static [&'static str],
    feed: &'static str,
    more: &'static [FeedScript],
    lines: Fails,
    turns: u64,
    status: Status,
    outputs: &'static [BothTexts],
    names: [&'static str; 3],
}

/// Two feeds that both publish, in either order.
const PLAIN: Row = Row {
    words: SECOND,
    feed: FIRST_FEED,
    more: &[SECOND_FEED],
    lines: NEVER,
    turns: 100,
    status: Status::Ok,
    outputs: &[
        (
            "1 published 1\n2 published 2\n",
            &[REGION_MAP, BY_FIRST, BY_BOTH],
        ),
        (
            "2 published 1\n1 published 2\n",
            &[REGION_MAP, BY_SECOND, BY_BOTH],
        ),
    ],
    names: ["capacities", "", ""],
};

const ROWS: &[Row] = &[
    PLAIN,
    Row {
        words: FOURTH_ALONE,
        names: ["by hand", "", ""],
        ..PLAIN
    },
    // The second feed fails at its first read.
    Row {
        more: &[FeedScript {
            reads: Fails { first: 0, count: 1 },
            ..SECOND_FEED
        }],
        status: Status::SourceFault,
        outputs: &[("1 published 1\n", &[REGION_MAP, BY_FIRST])],
        ..PLAIN
    },
    // The second feed does not open.
    Row {
        more: &[FeedScript {
            opens: Fails { first: 0, count: 1 },
            ..SECOND_FEED
        }],
        status: Status::SourceFault,
        outputs: &[("", &[])],
        names: ["", "", ""],
        ..PLAIN
    },
    // The third feed does not open, and the fourth is not tried.
    Row {
        words: ALL_FOUR,
        more: &[
            SECOND_FEED,
            FeedScript {
                opens: Fails { first: 0, count: 1 },
                ..EMPTY
            },
        ],
        status: Status::SourceFault,
        outputs: &[("", &[])],
        names: ["second", "", ""],
        ..PLAIN
    },
    // All four, in the order of their options; the last two say nothing that publishes.
    Row {
        words: ALL_FOUR,
        feed: "",
        more: &[
            SECOND_FEED,
            EMPTY,
            FeedScript {
                text: b"stop\ndemand g1 7\ncommit\n",
                ..EMPTY
            },
        ],
        outputs: &[("2 published 1\n", &[REGION_MAP, BY_SECOND])],
        names: ["second", "third", "fourth"],
        ..PLAIN
    },
    // `stop` ends its own feed alone.
    Row {
        feed: "stop\ndemand g1 7\ncommit\n",
        outputs: &[("2 published 1\n", &[REGION_MAP, BY_SECOND])],
        ..PLAIN
    },
    // Lines are numbered in each feed by itself, and a batch that is spoiled spoils no other feed's.
    Row {
        feed: "demand nobody 3\ncommit\n",
        outputs: &[
            (
                "1 refused 1 unknown name\n1 refused commit lines 1\n2 published 1\n",
                &[REGION_MAP, BY_SECOND],
            ),
            (
                "1 refused 1 unknown name\n2 published 1\n1 refused commit lines 1\n",
                &[REGION_MAP, BY_SECOND],
            ),
            (
                "2 published 1\n1 refused 1 unknown name\n1 refused commit lines 1\n",
                &[REGION_MAP, BY_SECOND],
            ),
        ],
        ..PLAIN
    },
    // The first put of a line fails.
    Row {
        lines: Fails { first: 0, count: 1 },
        status: Status::SinkFault,
        outputs: &[
            ("", &[REGION_MAP, BY_FIRST]),
            ("", &[REGION_MAP, BY_SECOND]),
        ],
        ..PLAIN
    },
    // The second feed takes all its turns.
    Row {
        feed: "stop\n",
        more: &[FeedScript {
            text: b"show\nshow\n",
            sizes: &[5, 5],
            ..EMPTY
        }],
        turns: 1,
        status: Status::Spent,
        outputs: &[("2 show 0 placed 15 unplaced 1 full 2\n", &[REGION_MAP])],
        ..PLAIN
    },
];

/// Whether these octets are the pieces, one behind the other.
fn are_joined(octets: &[u8], pieces: &[&str]) -> bool {
    trial_runs::are_joined(octets, pieces, pieces.len())
}

/// Whether both outputs got that.
fn has_put(came: &Came, outputs: &BothTexts) -> bool {
    came.text() == outputs.0.as_bytes() && are_joined(came.lent.maps.bytes(), outputs.1)
}

/// Whether the further feeds were opened under these names, once each, those alone that have one.
fn are_named(came: &Came, names: &[&str; 3]) -> bool {
    for (feed, name) in came.lent.more.iter().zip(names) {
        let is = match feed.names() {
            [] => name.is_empty(),
            [one] => one.as_str() == *name,
            _ => false,
        };
        if !is {
            return false;
        }
    }
    true
}

/// Whether both outputs got one of these.
fn has_put_one(came: &Came, all: &[BothTexts]) -> bool {
    for outputs in all {
        if has_put(came, outputs) {
            return true;
        }
    }
    false
}

fn is_right(came: &Came, row: &Row) -> bool {
    came.status == row.status && has_put_one(came, row.outputs) && are_named(came, &row.names)
}

/// Whether one of the outcomes of a row comes of its session.
fn comes_right<R: Threads + Wait + Sync + AllocGlobal>(
    rt: &R,
    row: &Row,
) -> Result<bool, NoMemory> {
    let setting = Setting {
        words: row.words,
        more: row.more,
        lines: row.lines,
        turns: row.turns,
        ..SETTING
    };
    let came = session_of(rt, setting, row.feed.as_bytes(), &[ONE])?;
    Ok(is_right(&came, row))
}

/// The same of as many runs.
fn come_right<R: Threads + Wait + Sync + AllocGlobal>(
    rt: &R,
    row: &Row,
    runs: u32,
) -> Result<bool, NoMemory> {
    for _ in 0..runs {
        if !comes_right(rt, row)? {
            return Ok(false);
        }
    }
    Ok(true)
}

/// The number of the first row of which something else comes, of as many runs of each.
fn first_wrong<R: Threads + Wait + Sync + AllocGlobal>(
    rt: &R,
    rows: &[Row],
    runs: u32,
) -> Result<Option<usize>, NoMemory> {
    for (number, row) in rows.iter().enumerate() {
        if !come_right(rt, row, runs)? {
            return Ok(Some(number));
        }
    }
    Ok(None)
}

#[test]
fn several_feeds(rt: HostRuntime) -> Result<(), Fail> {
    assert_eq!(rt; first_wrong(&rt, ROWS, 20)?, None);
    Ok(())
}

/// How many changes a batch has at most.
const MOST_CHANGES: u32 = 4_096;

/// A session with a second feed, on which there is nothing, and turns for a long first one.
const BESIDE_A_LARGE_BATCH: Setting = Setting {
    words: SECOND,
    more: &[EMPTY],
    turns: 1_000,
    ..SETTING
};

/// The feed of one batch of as many changes as there may be, each to the same demand.
fn large_batch(alloc: Global) -> Result<Vec<u8>, NoMemory> {
    let mut feed = Vec::new(alloc);
    for _change in 0..MOST_CHANGES {
        feed.extend_from_slice(b"demand g1 7\n")?;
    }
    feed.extend_from_slice(b"commit\n")?;
    Ok(feed)
}

/// Whether that batch, which goes from a feed's reader to the mapper as a whole, is published.
fn is_taken<R: Threads + Wait + Sync + AllocGlobal>(rt: &R) -> Result<bool, NoMemory> {
    let feed = large_batch(rt.alloc())?;
    let came = session_of(rt, BESIDE_A_LARGE_BATCH, feed.as_slice(), &[ONE])?;
    let is_put = has_put(&came, &("1 published 1\n", &[REGION_MAP, BY_FIRST]));
    Ok(is_put && came.status == Status::Ok)
}

#[test]
fn the_largest_batch_goes_over_the_queue(rt: HostRuntime) -> Result<(), Fail> {
    assert!(rt; is_taken(&rt)?);
    Ok(())
}
