//! `serve` with a lane for conversations (RFC 1035 section 4.2.2), in memory.
use addr_text::{Addr, Listen};
use glb::Status;
use no_memory::NoMemory;
use outside::MemTalk;
use std::sync::Wait;
use std::test::Fail;
use std::thread::Threads;
use trial_runs::{
    Came, Fails, NO_TALKS, PLAIN as SETTING, REGION_MAP, Setting, StreamScript, session_of,
};

/// The words of a session that takes conversations at a port of its own.
const SERVE_OVER: &[&str] = &[
    "glb",
    "serve",
    "t",
    "--listen",
    "127.0.0.1:53",
    "--tcp",
    "127.0.0.2:54",
];

/// The same with as many workers as there may be beside conversations, and one more.
const SERVE_FIFTEEN: &[&str] = &[
    "glb",
    "serve",
    "t",
    "--tcp",
    "127.0.0.2:54",
    "--listen",
    "127.0.0.1:53",
    "--workers",
    "15",
];

const SERVE_SIXTEEN: &[&str] = &[
    "glb",
    "serve",
    "t",
    "--tcp",
    "127.0.0.2:54",
    "--listen",
    "127.0.0.1:53",
    "--workers",
    "16",
];

const SERVE_NOWHERE: &[&str] = &[
    "glb",
    "serve",
    "t",
    "--tcp",
    "localhost:54",
    "--listen",
    "127.0.0.1:53",
];

const USAGE: &str = "usage: glb check, answer, map, repair, serve or large\n";

/// Where conversations are taken.
const OVER: Listen = Listen {
    addr: Addr::V4(0x7f00_0002),
    port: 54,
};

/// A query of type A for www.cdn.example, behind its length.
const MESSAGE: &[u8] = &[
    0, 33, 0x12, 0x34, 1, 0, 0, 1, 0, 0, 0, 0, 0, 0, 3, b'w', b'w', b'w', 3, b'c', b'd', b'n', 7,
    b'e', b'x', b'a', b'm', b'p', b'l', b'e', 0, 0, 1, 0, 1,
];

/// Its beginning and its rest, cut behind the first octet of the length, and amid the name.
const FIRST_OCTET: &[u8] = &[0];

const FROM_SECOND: &[u8] = &[
    33, 0x12, 0x34, 1, 0, 0, 1, 0, 0, 0, 0, 0, 0, 3, b'w', b'w', b'w', 3, b'c', b'd',
];

const FROM_NAME: &[u8] = &[
    b'n', 7, b'e', b'x', b'a', b'm', b'p', b'l', b'e', 0, 0, 1, 0, 1,
];

/// Two queries and the beginning of a third.
const TWO_AND_MORE: &[u8] = &[
    0, 33, 0x12, 0x34, 1, 0, 0, 1, 0, 0, 0, 0, 0, 0, 3, b'w', b'w', b'w', 3, b'c', b'd', b'n', 7,
    b'e', b'x', b'a', b'm', b'p', b'l', b'e', 0, 0, 1, 0, 1, 0, 33, 0x12, 0x34, 1, 0, 0, 1, 0, 0,
    0, 0, 0, 0, 3, b'w', b'w', b'w', 3, b'c', b'd', b'n', 7, b'e', b'x', b'a', b'm', b'p', b'l',
    b'e', 0, 0, 1, 0, 1, 0, 33, 0x12,
];

/// A length of 4,097, and octets.
const TOO_LONG: &[u8] = &[0x10, 1, 0x12, 0x34, 1, 0];

/// An empty message, one of a single octet, and a reply: none of them is answered.
const SILENT: &[u8] = &[
    0, 0, 0, 1, 7, 0, 12, 0x12, 0x34, 0x80, 0, 0, 0, 0, 0, 0, 0, 0, 0,
];

/// The reply from the second pool, behind its length. The draws of worker 1 for its first four messages fall on this pool.
const SECOND_POOL: &[u8] = &[
    0, 49, 0x12, 0x34, 0x85, 0, 0, 1, 0, 1, 0, 0, 0, 0, 3, b'w', b'w', b'w', 3, b'c', b'd', b'n',
    7, b'e', b'x', b'a', b'm', b'p', b'l', b'e', 0, 0, 1, 0, 1, 0xc0, 12, 0, 1, 0, 1, 0, 0, 0, 20,
    0, 4, 192, 0, 2, 2,
];

/// A lane that takes conversations while there are some.
const TAKES: StreamScript = StreamScript {
    goes: 100,
    ..NO_TALKS
};

const OVER_SCENE: Setting = Setting {
    words: SERVE_OVER,
    ..SETTING
};

/// The setting, and what comes of it: the status, what both outputs get, where the streams were opened, and for each conversation that was closed how often the reply from the second pool was written to it, and nothing else.
#[derive(Clone, Copy)]
struct Row {
    setting: Setting,
    status: Status,
    out: &'static str,
    maps: &'static str,
    is_open: bool,
    replies: &'static [usize],
}

/// No conversation comes.
const PLAIN: Row = Row {
    setting: OVER_SCENE,
    status: Status::Ok,
    out: "",
    maps: REGION_MAP,
    is_open: true,
    replies: &[],
};

const ROWS: &[Row] = &[
    PLAIN,
    // without the option nothing is taken
    Row {
        setting: Setting {
            stream: StreamScript {
                talks: &[&[MESSAGE]],
                ..TAKES
            },
            ..SETTING
        },
        is_open: false,
        ..PLAIN
    },
    // two messages in one piece, of which the beginning of a third is left, and one that is cut
    Row {
        setting: Setting {
            stream: StreamScript {
                talks: &[&[TWO_AND_MORE], &[FIRST_OCTET, FROM_SECOND, FROM_NAME]],
                ..TAKES
            },
            ..OVER_SCENE
        },
        replies: &[2, 1],
        ..PLAIN
    },
    // two messages in two pieces
    Row {
        setting: Setting {
            stream: StreamScript {
                talks: &[&[MESSAGE, MESSAGE]],
                ..TAKES
            },
            ..OVER_SCENE
        },
        replies: &[2],
        ..PLAIN
    },
    // a length that is too great closes its conversation, and the next one is served
    Row {
        setting: Setting {
            stream: StreamScript {
                talks: &[&[TOO_LONG, MESSAGE], &[SILENT, MESSAGE]],
                ..TAKES
            },
            ..OVER_SCENE
        },
        replies: &[0, 1],
        ..PLAIN
    },
    // a read that is quiet leaves the conversation open
    Row {
        setting: Setting {
            stream: StreamScript {
                talks: &[&[FIRST_OCTET, &[], FROM_SECOND, &[], FROM_NAME]],
                ..TAKES
            },
            ..OVER_SCENE
        },
        replies: &[1],
        ..PLAIN
    },
    // a failed read closes its conversation, and the lane goes on
    Row {
        setting: Setting {
            stream: StreamScript {
                talks: &[&[MESSAGE], &[MESSAGE]],
                answers: Fails { first: 1, count: 1 },
                ..TAKES
            },
            ..OVER_SCENE
        },
        replies: &[0, 1],
        ..PLAIN
    },
    Row {
        setting: Setting {
            stream: StreamScript {
                talks: &[&[MESSAGE]],
                answers: Fails { first: 0, count: 8 },
                ..TAKES
            },
            ..OVER_SCENE
        },
        status: Status::PortFault,
        ..PLAIN
    },
    Row {
        setting: Setting {
            stream: StreamScript {
                opens: Fails { first: 0, count: 1 },
                talks: &[&[MESSAGE]],
                ..TAKES
            },
            ..OVER_SCENE
        },
        status: Status::PortFault,
        maps: "",
        is_open: false,
        ..PLAIN
    },
    Row {
        setting: Setting {
            stream: StreamScript {
                talks: &[&[MESSAGE], &[MESSAGE]],
                looks: Fails { first: 1, count: 1 },
                ..TAKES
            },
            ..OVER_SCENE
        },
        status: Status::CellFault,
        replies: &[1, 0],
        ..PLAIN
    },
    Row {
        setting: Setting {
            stream: StreamScript {
                talks: &[&[MESSAGE, MESSAGE], &[MESSAGE]],
                ..TAKES
            },
            turns: 3,
            ..OVER_SCENE
        },
        status: Status::Spent,
        replies: &[2],
        ..PLAIN
    },
    Row {
        setting: Setting {
            words: SERVE_SIXTEEN,
            ..OVER_SCENE
        },
        status: Status::Usage,
        out: USAGE,
        maps: "",
        is_open: false,
        ..PLAIN
    },
    Row {
        setting: Setting {
            words: SERVE_NOWHERE,
            ..OVER_SCENE
        },
        status: Status::Usage,
        out: USAGE,
        maps: "",
        is_open: false,
        ..PLAIN
    },
    Row {
        setting: Setting {
            words: SERVE_FIFTEEN,
            ..OVER_SCENE
        },
        ..PLAIN
    },
];

/// Whether the reply was written so often, and nothing else.
fn is_written(talk: &MemTalk, count: usize) -> bool {
    let mut rest = talk.written();
    for _ in 0..count {
        match rest.strip_prefix(SECOND_POOL) {
            Some(behind) => rest = behind,
            None => return false,
        }
    }
    rest.is_empty()
}

/// Whether the conversations that were closed got so many replies.
fn are_written(talks: &[MemTalk], counts: &[usize]) -> bool {
    talks.len() == counts.len()
        && talks
            .iter()
            .zip(counts.iter())
            .all(|(talk, count)| is_written(talk, *count))
}

/// Whether a session came out as its row says.
fn came_so(came: &Came, row: &Row) -> bool {
    let stream = &came.lent.stream;
    let streams = &stream.streams;
    let opens: &[Listen] = if row.is_open { &[OVER] } else { &[] };
    came.status == row.status
        && came.text() == row.out.as_bytes()
        && came.lent.maps.bytes() == row.maps.as_bytes()
        && streams.opens() == opens
        && are_written(streams.closed(), row.replies)
}

/// Whether a row's session comes out as it says.
fn comes_so<R: Threads + Wait + Sync + AllocGlobal>(rt: &R, row: &Row) -> Result<bool, NoMemory> {
    let came = session_of(rt, row.setting, b"", &[])?;
    Ok(came_so(&came, row))
}

/// The number of the first row that comes out otherwise, from 0.
fn first_wrong<R: Threads + Wait + Sync + AllocGlobal>(
    rt: &R,
    rows: &[Row],
) -> Result<Option<usize>, NoMemory> {
    for (i, row) in rows.iter().enumerate() {
        if !comes_so(rt, row)? {
            return Ok(Some(i));
        }
    }
    Ok(None)
}

#[test]
fn conversations(rt: HostRuntime) -> Result<(), Fail> {
    assert_eq!(rt; first_wrong(&rt, ROWS)?, None);
    Ok(())
}
