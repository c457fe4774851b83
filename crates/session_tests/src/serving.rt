//! `serve` over a region of two pools, in memory.
use glb::Status;
use no_memory::NoMemory;
use std::alloc::Global;
use std::process::Abort;
use std::sync::Wait;
use std::test::Fail;
use std::thread::Threads;
use trial_runs::{
    Came, Fails, MemLane, ONE, PLAIN as SETTING, REGION_MAP, SERVE_TWO, Script, Setting, session_of,
};

/// Three queries.
const THREE: Script = Script { queries: 3, ..ONE };

/// Five queries.
const FIVE: Script = Script { queries: 5, ..ONE };

/// The words of a session of sixteen workers, and of one that is named.
const SERVE_SIXTEEN: &[&str] = &[
    "glb",
    "serve",
    "t",
    "--listen",
    "127.0.0.1:53",
    "--workers",
    "16",
];

const SERVE_ONE: &[&str] = &[
    "glb",
    "serve",
    "t",
    "--listen",
    "127.0.0.1:53",
    "--workers",
    "1",
];

const TWO_WORKERS: Setting = Setting {
    words: SERVE_TWO,
    ..SETTING
};

/// The setting, the feed, the lanes, and what comes of it: the status, what both outputs get, and of the first lanes how many datagrams were taken, and how many replies went.
#[derive(Clone, Copy)]
struct Row {
    setting: Setting,
    feed: &'static str,
    lanes: &'static [Script],
    status: Status,
    out: &'static str,
    maps: &'static str,
    served: &'static [(usize, usize)],
}

/// The first map, and that where the second group asks for four units.
const BOTH: &str =
    "glb map 2\nplace g1 A 8\nplace g2 A 2\nplace g2 B 5\nfull g2 A A\nfull g2 B R\nend\nglb map 2\nplace g1 A 8\nplace g2 A 2\nplace g2 B 2\nfull g2 A A\nend\n";

/// One worker, who is not named.
const PLAIN: Row = Row {
    setting: SETTING,
    feed: "",
    lanes: &[],
    status: Status::Ok,
    out: "",
    maps: REGION_MAP,
    served: &[],
};

const ROWS: &[Row] = &[
    PLAIN,
    Row {
        setting: Setting {
            words: SERVE_ONE,
            ..SETTING
        },
        ..PLAIN
    },
    Row {
        feed: "show",
        out: "show 0 placed 15 unplaced 1 full 2\n",
        ..PLAIN
    },
    Row {
        feed: "demand g2 4\ncommit\nask 198.51.100.7 123401000001000000000000037777770363646e076578616d706c650000010001\nshow\ncommit\nstop\nshow\n",
        out: "published 1\nanswer 1 123485000001000100000000037777770363646e076578616d706c650000010001c00c00010001000000140004c0000201\nshow 1 placed 12 unplaced 0 full 1\npublished 1\n",
        maps: BOTH,
        ..PLAIN
    },
    Row {
        feed: "demand nobody 3\ndemand g1 5\ncommit\nstop\n",
        out: "refused 1 unknown name\nrefused commit lines 1\n",
        ..PLAIN
    },
    Row {
        lanes: &[THREE, ONE],
        served: &[(3, 3), (0, 0)],
        ..PLAIN
    },
    Row {
        setting: TWO_WORKERS,
        lanes: &[THREE, ONE, ONE],
        served: &[(3, 3), (1, 1), (0, 0)],
        ..PLAIN
    },
    Row {
        setting: Setting {
            words: SERVE_SIXTEEN,
            ..SETTING
        },
        lanes: &[ONE; 16],
        served: &[(1, 1); 16],
        ..PLAIN
    },
    Row {
        setting: TWO_WORKERS,
        lanes: &[
            THREE,
            Script {
                queries: 20,
                sends: Fails {
                    first: 6,
                    count: 14,
                },
                ..ONE
            },
        ],
        status: Status::PortFault,
        served: &[(3, 3), (14, 6)],
        ..PLAIN
    },
    Row {
        setting: TWO_WORKERS,
        lanes: &[
            THREE,
            Script {
                opens: Fails { first: 0, count: 1 },
                ..ONE
            },
        ],
        status: Status::PortFault,
        maps: "",
        served: &[(0, 0), (0, 0)],
        ..PLAIN
    },
    Row {
        lanes: &[THREE],
        setting: Setting {
            maps: Fails { first: 0, count: 1 },
            ..SETTING
        },
        status: Status::SinkFault,
        maps: "",
        served: &[(0, 0)],
        ..PLAIN
    },
    Row {
        feed: "demand g2 4\ncommit\nshow\n",
        lanes: &[THREE],
        setting: Setting {
            maps: Fails { first: 1, count: 1 },
            ..SETTING
        },
        status: Status::SinkFault,
        served: &[(3, 3)],
        ..PLAIN
    },
    Row {
        feed: "demand g2 4\ncommit\nshow\n",
        setting: Setting {
            lines: Fails { first: 0, count: 1 },
            ..SETTING
        },
        status: Status::SinkFault,
        maps: BOTH,
        ..PLAIN
    },
    Row {
        feed: "show\nshow\n",
        setting: Setting {
            sizes: &[5],
            reads: Fails { first: 1, count: 1 },
            ..SETTING
        },
        status: Status::SourceFault,
        out: "show 0 placed 15 unplaced 1 full 2\n",
        ..PLAIN
    },
    Row {
        feed: "show\nshow\n",
        setting: Setting {
            sizes: &[5, 1, 1],
            turns: 2,
            ..SETTING
        },
        status: Status::Spent,
        out: "show 0 placed 15 unplaced 1 full 2\n",
        ..PLAIN
    },
    Row {
        setting: Setting {
            turns: 3,
            ..SETTING
        },
        lanes: &[FIVE],
        status: Status::Spent,
        served: &[(3, 3)],
        ..PLAIN
    },
    Row {
        feed: "stop\n",
        lanes: &[Script {
            looks: Fails { first: 1, count: 1 },
            ..THREE
        }],
        status: Status::CellFault,
        served: &[(2, 1)],
        ..PLAIN
    },
    Row {
        feed: "stop\n",
        lanes: &[Script {
            places: Fails { first: 0, count: 1 },
            ..THREE
        }],
        status: Status::CellFault,
        maps: "",
        served: &[(0, 0)],
        ..PLAIN
    },
    Row {
        lanes: &[Script { goes: 2, ..FIVE }],
        served: &[(2, 2)],
        ..PLAIN
    },
];

/// How many datagrams a lane took, and how many replies went.
fn served_by(lane: &MemLane) -> (usize, usize) {
    (
        lane.port.taken().len(),
        lane.port.tries().iter().filter(|reply| reply.went).count(),
    )
}

/// Whether the first lanes served so many.
fn have_served(came: &Came, served: &[(usize, usize)]) -> bool {
    came.lent
        .lanes
        .iter()
        .map(served_by)
        .take(served.len())
        .eq(served.iter().copied())
}

/// Whether a session came out as its row says.
fn came_so(came: &Came, row: &Row) -> bool {
    came.status == row.status
        && came.text() == row.out.as_bytes()
        && came.lent.maps.bytes() == row.maps.as_bytes()
        && have_served(came, row.served)
}

/// Whether a row's session comes out as it says.
fn comes_so<R: Threads + Wait + Sync + AllocGlobal>(rt: &R, row: &Row) -> Result<bool, NoMemory> {
    let came = session_of(rt, row.setting, row.feed.as_bytes(), row.lanes)?;
    Ok(came_so(&came, row))
}

fn assert_rows<R: Abort + Threads + Wait + Sync + AllocGlobal>(
    rt: &R,
    rows: &[Row],
) -> Result<(), Fail> {
    for row in rows {
        assert!(rt; comes_so(rt, row)?, "for {}", row.feed);
    }
    Ok(())
}

#[test]
fn sessions(rt: HostRuntime) -> Result<(), Fail> {
    assert_rows(&rt, ROWS)
}

/// How many commits a long session makes, and the octets that each output has room for.
const COMMITS: u64 = 7_000;

const LONG: Setting = Setting {
    turns: 1_000,
    room: 1 << 20,
    ..SETTING
};

/// Two commits: the second group asks for four units, and for seven again.
const TWO_COMMITS: &[u8] = b"demand g2 4\ncommit\ndemand g2 7\ncommit\n";

/// The feed of a long session.
fn long_feed(alloc: Global) -> Result<Vec<u8>, NoMemory> {
    let mut feed = Vec::new(alloc);
    for _pair in 0..COMMITS / 2 {
        feed.extend_from_slice(TWO_COMMITS)?;
    }
    Ok(feed)
}

/// Whether each commit of a long session is published.
fn publishes_each<R: Threads + Wait + Sync + AllocGlobal>(rt: &R) -> Result<bool, NoMemory> {
    let feed = long_feed(rt.alloc())?;
    let came = session_of(rt, LONG, feed.as_slice(), &[])?;
    Ok(
        came.status == Status::Ok
            && came.puts() == COMMITS
            && came.text().ends_with(b"published 7000\n"),
    )
}

#[test]
fn thousands_of_commits(rt: HostRuntime) -> Result<(), Fail> {
    assert!(rt; publishes_each(&rt)?);
    Ok(())
}
