//! `serve` with two lanes, whose calls of a device fail: each alone, and each with all behind it.
use glb::Status;
use no_memory::NoMemory;
use std::process::Abort;
use std::sync::Wait;
use std::test::Fail;
use std::thread::Threads;
use trial_runs::{
    Came, Fails, MemLane, NEVER, ONE, PLAIN, REGION_MAP, SERVE_TWO, Script, Setting, are_joined,
    session_of,
};

/// A device of the session, with the number of its lane.
#[derive(Clone, Copy, PartialEq, Eq)]
enum Device {
    Load,
    Read,
    /// A put of the control text.
    Line,
    /// A put of a map's text.
    Map,
    Open(u8),
    Receive(u8),
    Send(u8),
    Place(u8),
    Look(u8),
}

use Device::{Line, Load, Look, Map, Open, Place, Read, Receive, Send};

/// So many calls of a device that fail, from one on.
#[derive(Clone, Copy)]
struct Failing {
    device: Device,
    first: usize,
    count: u64,
}

impl Failing {
    /// The failing calls of a device.
    fn of(self, device: Device) -> Fails {
        if self.device == device {
            Fails {
                first: self.first as u64,
                count: self.count,
            }
        } else {
            NEVER
        }
    }
}

/// How many queries wait at the two lanes.
const WAITING: &[u8] = &[3, 10];

/// It comes in pieces of twelve octets: the first commit ends in the second piece, `ask` and `show` in the ninth, and the rest in the tenth.
const FEED: &[u8] =
    b"demand g2 4\ncommit\nask 198.51.100.7 123401000001000000000000037777770363646e076578616d706c650000010001\nshow\ncommit\nstop\n";

/// The lines of control text.
const LINES: &[&str] = &[
    "published 1\n",
    "answer 1 123485000001000100000000037777770363646e076578616d706c650000010001c00c00010001000000140004c0000201\n",
    "show 1 placed 12 unplaced 0 full 1\n",
    "published 1\n",
];

/// The texts of both maps.
const MAPS: &[&str] = &[
    REGION_MAP,
    "glb map 2\nplace g1 A 8\nplace g2 A 2\nplace g2 B 2\nfull g2 A A\nend\n",
];

/// What was done at a lane: openings that went, turns of its gate, datagrams that it took, replies that went.
#[derive(Clone, Copy, PartialEq)]
struct Served {
    opens: usize,
    turns: usize,
    taken: usize,
    went: usize,
}

/// What comes of a session: the status, the loads, the pieces of the feed, the puts of both outputs, the lines and texts that they hold, and the two lanes.
#[derive(Clone, Copy, PartialEq)]
struct Due {
    status: Status,
    loads: usize,
    pieces: usize,
    line_puts: u64,
    lines: usize,
    map_puts: u64,
    maps: usize,
    first: Served,
    second: Served,
}

/// Nothing was done at a lane.
const UNTOUCHED: Served = Served {
    opens: 0,
    turns: 0,
    taken: 0,
    went: 0,
};

/// It was opened, and no more.
const OPENED: Served = Served {
    opens: 1,
    ..UNTOUCHED
};

/// Nothing fails: each query is answered, and the last turn of a lane is its port's end.
const WHOLE: Due = Due {
    status: Status::Ok,
    loads: 1,
    pieces: 10,
    line_puts: 4,
    lines: 4,
    map_puts: 2,
    maps: 2,
    first: Served {
        opens: 1,
        turns: 4,
        taken: 3,
        went: 3,
    },
    second: Served {
        opens: 1,
        turns: 11,
        taken: 10,
        went: 10,
    },
};

/// It ended before any port was opened.
const UNOPENED: Due = Due {
    pieces: 0,
    line_puts: 0,
    lines: 0,
    map_puts: 0,
    maps: 0,
    first: UNTOUCHED,
    second: UNTOUCHED,
    ..WHOLE
};

/// What is due where a load fails.
const AT_LOADS: &[Due] = &[Due {
    status: Status::SourceFault,
    ..UNOPENED
}];

/// A read of the feed fails: what came of the lines before it stands.
const AT_FIRST_READS: Due = Due {
    status: Status::SourceFault,
    pieces: 0,
    line_puts: 0,
    lines: 0,
    map_puts: 1,
    maps: 1,
    ..WHOLE
};

const AT_LATER_READS: Due = Due {
    line_puts: 1,
    lines: 1,
    map_puts: 2,
    maps: 2,
    ..AT_FIRST_READS
};

const AT_READS: &[Due] = &[
    AT_FIRST_READS,
    Due {
        pieces: 1,
        ..AT_FIRST_READS
    },
    Due {
        pieces: 2,
        ..AT_LATER_READS
    },
    Due {
        pieces: 3,
        ..AT_LATER_READS
    },
    Due {
        pieces: 4,
        ..AT_LATER_READS
    },
    Due {
        pieces: 5,
        ..AT_LATER_READS
    },
    Due {
        pieces: 6,
        ..AT_LATER_READS
    },
    Due {
        pieces: 7,
        ..AT_LATER_READS
    },
    Due {
        pieces: 8,
        ..AT_LATER_READS
    },
    Due {
        pieces: 9,
        line_puts: 3,
        lines: 3,
        ..AT_LATER_READS
    },
];

/// A line of control text fails: no further line is read.
const AT_LINES: &[Due] = &[
    Due {
        status: Status::SinkFault,
        pieces: 2,
        line_puts: 1,
        lines: 0,
        ..WHOLE
    },
    Due {
        status: Status::SinkFault,
        pieces: 9,
        line_puts: 2,
        lines: 1,
        ..WHOLE
    },
    Due {
        status: Status::SinkFault,
        pieces: 9,
        line_puts: 3,
        lines: 2,
        ..WHOLE
    },
    Due {
        status: Status::SinkFault,
        pieces: 10,
        line_puts: 4,
        lines: 3,
        ..WHOLE
    },
];

/// The first map's text fails, and no lane is served; or the second one's, and no further line is read.
const AT_MAPS: &[Due] = &[
    Due {
        status: Status::SinkFault,
        map_puts: 1,
        first: OPENED,
        second: OPENED,
        ..UNOPENED
    },
    Due {
        status: Status::SinkFault,
        pieces: 2,
        line_puts: 0,
        lines: 0,
        map_puts: 2,
        maps: 1,
        ..WHOLE
    },
];

/// A port is not opened, nor any behind it, and no text is put.
const AT_OPENS: &[Due] = &[
    Due {
        status: Status::PortFault,
        ..UNOPENED
    },
    Due {
        status: Status::PortFault,
        first: OPENED,
        ..UNOPENED
    },
];

/// The first lane's door refuses one of two places.
const AT_PLACES: &[Due] = &[
    Due {
        status: Status::CellFault,
        ..UNOPENED
    },
    Due {
        status: Status::CellFault,
        ..UNOPENED
    },
];

/// One failing receive costs a lane one turn. Eight end it.
fn at_receives(waiting: usize, first: usize, count: u64) -> (Status, Served) {
    let whole = all_of(waiting);
    if first > waiting {
        (Status::Ok, whole)
    } else if count == 1 {
        let turns = whole.turns.saturating_add(1);
        (Status::Ok, Served { turns, ..whole })
    } else {
        let served = Served {
            opens: 1,
            turns: first.saturating_add(8),
            taken: first,
            went: first,
        };
        (Status::PortFault, served)
    }
}

/// A send that fails costs its reply. Eight end the lane.
fn at_sends(waiting: usize, first: usize, count: u64) -> (Status, Served) {
    let whole = all_of(waiting);
    let left = waiting.saturating_sub(first);
    if left == 0 {
        (Status::Ok, whole)
    } else if count == 1 {
        let went = waiting.saturating_sub(1);
        (Status::Ok, Served { went, ..whole })
    } else if left < 8 {
        (
            Status::Ok,
            Served {
                went: first,
                ..whole
            },
        )
    } else {
        let taken = first.saturating_add(8);
        let served = Served {
            opens: 1,
            turns: taken,
            taken,
            went: first,
        };
        (Status::PortFault, served)
    }
}

/// A look that is refused ends a lane at its datagram, or at the look behind its end.
fn at_looks(waiting: usize, first: usize) -> (Status, Served) {
    let whole = all_of(waiting);
    if first > waiting {
        (Status::Ok, whole)
    } else if first == waiting {
        (Status::CellFault, whole)
    } else {
        let taken = first.saturating_add(1);
        let served = Served {
            opens: 1,
            turns: taken,
            taken,
            went: first,
        };
        (Status::CellFault, served)
    }
}

/// A lane that answered all its queries.
fn all_of(waiting: usize) -> Served {
    Served {
        opens: 1,
        turns: waiting.saturating_add(1),
        taken: waiting,
        went: waiting,
    }
}

/// One lane differs from what is due where nothing fails.
fn lane_differs(lane: u8, (status, served): (Status, Served)) -> Due {
    match lane {
        0 => Due {
            status,
            first: served,
            ..WHOLE
        },
        1 => Due {
            status,
            second: served,
            ..WHOLE
        },
        _ => WHOLE,
    }
}

/// How many queries wait at a lane.
fn waiting_at(lane: u8) -> u8 {
    WAITING.get(lane as usize).copied().unwrap_or(0)
}

/// The row of a table for a call, or what is due where nothing fails.
fn row_of(rows: &[Due], call: usize) -> Due {
    rows.get(call).copied().unwrap_or(WHOLE)
}

/// What is due.
fn due_at(failing: Failing) -> Due {
    let call = failing.first;
    let count = failing.count;
    match failing.device {
        Load => row_of(AT_LOADS, call),
        Read => row_of(AT_READS, call),
        Line => row_of(AT_LINES, call),
        Map => row_of(AT_MAPS, call),
        Open(lane) if call == 0 => row_of(AT_OPENS, lane as usize),
        Open(_) => WHOLE,
        Place(0) => row_of(AT_PLACES, call),
        Place(_) => WHOLE,
        Receive(lane) => lane_differs(lane, at_receives(waiting_at(lane) as usize, call, count)),
        Send(lane) => lane_differs(lane, at_sends(waiting_at(lane) as usize, call, count)),
        Look(lane) => lane_differs(lane, at_looks(waiting_at(lane) as usize, call)),
    }
}

/// What waits at a lane, and what fails there.
fn script_of(failing: Failing, lane: u8) -> Script {
    Script {
        queries: waiting_at(lane),
        opens: failing.of(Open(lane)),
        receives: failing.of(Receive(lane)),
        sends: failing.of(Send(lane)),
        places: failing.of(Place(lane)),
        looks: failing.of(Look(lane)),
        ..ONE
    }
}

/// A session of two workers, with a feed in pieces of twelve octets.
fn scene_of(failing: Failing) -> Setting {
    Setting {
        words: SERVE_TWO,
        sizes: &[12; 16],
        loads: failing.of(Load),
        reads: failing.of(Read),
        lines: failing.of(Line),
        maps: failing.of(Map),
        ..PLAIN
    }
}

fn came_of<R: Threads + Wait + Sync + AllocGlobal>(
    rt: &R,
    failing: Failing,
) -> Result<Came, NoMemory> {
    let lanes = [
        script_of(failing, 0),
        script_of(failing, 1),
        script_of(failing, 2),
    ];
    session_of(rt, scene_of(failing), FEED, &lanes)
}

fn served_by(lane: Option<&MemLane>) -> Served {
    match lane {
        None => UNTOUCHED,
        Some(lane) => Served {
            opens: lane.port.opens().len(),
            turns: lane.gate.turns().len(),
            taken: lane.port.taken().len(),
            went: lane.port.tries().iter().filter(|reply| reply.went).count(),
        },
    }
}

/// What was done, with so many lines and texts, which are compared by themselves.
fn done_by(came: &Came, lines: usize, maps: usize) -> Due {
    Due {
        status: came.status,
        loads: came.loads(),
        pieces: came.lent.feed.pieces(),
        line_puts: came.puts(),
        lines,
        map_puts: came.lent.maps.puts(),
        maps,
        first: served_by(came.lent.lanes.get(0)),
        second: served_by(came.lent.lanes.get(1)),
    }
}

/// Whether nothing was done at a lane.
fn is_untouched(lane: &MemLane) -> bool {
    served_by(Some(lane)) == UNTOUCHED
}

/// Whether a session came out so: what was done, both outputs, and nothing at any lane but the first two.
fn is_due(came: &Came, due: Due) -> bool {
    done_by(came, due.lines, due.maps) == due
        && are_joined(came.text(), LINES, due.lines)
        && are_joined(came.lent.maps.bytes(), MAPS, due.maps)
        && came.lent.lanes.iter().skip(2).all(is_untouched)
}

/// Whether a session in which these calls fail comes out as it has to.
fn comes_due<R: Threads + Wait + Sync + AllocGlobal>(
    rt: &R,
    failing: Failing,
) -> Result<bool, NoMemory> {
    let came = came_of(rt, failing)?;
    Ok(is_due(&came, due_at(failing)))
}

fn assert_session<R: Abort + Threads + Wait + Sync + AllocGlobal>(
    rt: &R,
    name: &str,
    failing: Failing,
) -> Result<(), Fail> {
    let Failing { first, count, .. } = failing;
    assert!(rt;
        comes_due(rt, failing)?,
        "at {name} {first}, {count} of them"
    );
    Ok(())
}

/// A device, with its name, and how many calls of it a session makes.
type Calls = (&'static str, Device, usize);

/// The calls where nothing fails. A failing call behind them changes nothing, so there are no more; each of them changes something, so there are no fewer.
const STREAMS: &[Calls] = &[
    ("load", Load, 1),
    ("read", Read, 10),
    ("line", Line, 4),
    ("map", Map, 2),
];

const OPENINGS: &[Calls] = &[
    ("opening of the first lane", Open(0), 1),
    ("opening of the second lane", Open(1), 1),
    ("opening of the third lane", Open(2), 0),
    ("place of the first lane", Place(0), 2),
    ("place of the second lane", Place(1), 0),
];

const RECEIVES: &[Calls] = &[
    ("receive of the first lane", Receive(0), 4),
    ("receive of the second lane", Receive(1), 11),
    ("receive of the third lane", Receive(2), 0),
];

const SENDS: &[Calls] = &[
    ("send of the first lane", Send(0), 3),
    ("send of the second lane", Send(1), 10),
    ("send of the third lane", Send(2), 0),
];

const LOOKS: &[Calls] = &[
    ("look of the first lane", Look(0), 4),
    ("look of the second lane", Look(1), 11),
    ("look of the third lane", Look(2), 0),
];

/// Each call of a device fails, alone and with all behind it.
fn assert_device<R: Abort + Threads + Wait + Sync + AllocGlobal>(
    rt: &R,
    (name, device, calls): Calls,
) -> Result<(), Fail> {
    for first in 0..=calls {
        for count in [1, 64] {
            assert_session(
                rt,
                name,
                Failing {
                    device,
                    first,
                    count,
                },
            )?;
        }
    }
    Ok(())
}

fn assert_devices<R: Abort + Threads + Wait + Sync + AllocGlobal>(
    rt: &R,
    rows: &[Calls],
) -> Result<(), Fail> {
    for row in rows {
        assert_device(rt, *row)?;
    }
    Ok(())
}

#[test]
fn streams_that_fail(rt: HostRuntime) -> Result<(), Fail> {
    assert_devices(&rt, STREAMS)
}

#[test]
fn openings_that_fail(rt: HostRuntime) -> Result<(), Fail> {
    assert_devices(&rt, OPENINGS)
}

#[test]
fn receives_that_fail(rt: HostRuntime) -> Result<(), Fail> {
    assert_devices(&rt, RECEIVES)
}

#[test]
fn sends_that_fail(rt: HostRuntime) -> Result<(), Fail> {
    assert_devices(&rt, SENDS)
}

#[test]
fn looks_that_are_refused(rt: HostRuntime) -> Result<(), Fail> {
    assert_devices(&rt, LOOKS)
}
