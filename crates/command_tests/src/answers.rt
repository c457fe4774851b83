//! Replies of `glb answer`, and its outcomes.
use glb::Status;
use no_memory::NoMemory;
use std::process::Abort;
use std::sync::Wait;
use std::test::Fail;
use std::thread::Threads;
use trial_runs::Held::{self, Bytes, Topology};
use trial_runs::{Came, EMPTY_POOL, FLAT, GOOD_FLAT, GOOD_REGION, REGION, came_of};

/// Two pools in one region, as REGION, but that the first group has half of the second one's prefix too.
const NARROWER: &str = "[[node]]
name = \"R\"
capacity = 15
[[node]]
name = \"A\"
parent = \"R\"
capacity = 10
pool = true
a = [\"192.0.2.1\"]
aaaa = [\"2001:db8::1\"]
[[node]]
name = \"B\"
parent = \"R\"
capacity = 10
pool = true
a = [\"192.0.2.2\"]
[[group]]
name = \"g1\"
demand = 8
pools = [\"A\", \"B\"]
scores = [1, 2]
prefixes = [\"0.0.0.0/0\", \"::/0\", \"198.51.100.128/25\"]
[[group]]
name = \"g2\"
demand = 8
pools = [\"A\", \"B\"]
scores = [3, 4]
prefixes = [\"198.51.100.0/24\"]
";

/// No units of the only group, whose pool is full of none.
const FULL_POOL: &[u8] = b"glb map 1\nfull g A A\nend\n";

/// The region's map, with a unit less than is good.
const SHORT_REGION: &[u8] =
    b"glb map 1\nplace g1 A 8\nplace g2 A 2\nplace g2 B 4\nfull g2 A A\nfull g2 B R\nend\n";

const CUT_REGION: &[u8] = b"glb map 1\nplace g1 A 8\nplace g2 A 2\nplace g2 B 5\nfull g2 A A\n";

/// Who asks, the octets of the datagram as digits, and the line on the output.
type Reply = (&'static str, &'static str, &'static str);

/// Replies of the region's good map, by the datagram, its subnet and its name.
const REPLIES: &[Reply] = &[
    // A subnet is given, and decides by 24 bits.
    (
        "203.0.113.9",
        "123401000001000000000001037777770363646e076578616d706c65000001000100002904d00000\
            0000000b0008000700011800c63364",
        "answer 123485000001000100000001037777770363646e076578616d706c650000010001c00c000\
            10001000000140004c000020100002904d000000000000b0008000700011818c63364",
    ),
    // A bit is set beyond the source of 20.
    (
        "203.0.113.9",
        "123401000001000000000001037777770363646e076578616d706c65000001000100002904d00000\
            0000000b0008000700011400c63364",
        "answer 123481010001000000000001037777770363646e076578616d706c6500000100010000290\
            4d0000000000000",
    ),
    // Eleven octets, and none.
    ("203.0.113.9", "0000000000000000000000", "answer -"),
    ("203.0.113.9", "", "answer -"),
    // Twelve octets 0.
    (
        "203.0.113.9",
        "000000000000000000000000",
        "answer 000080010000000000000000",
    ),
    // A response.
    (
        "203.0.113.9",
        "123481000001000000000000037777770363646e076578616d706c650000010001",
        "answer -",
    ),
    // An opcode other than query.
    (
        "203.0.113.9",
        "123411000001000000000000037777770363646e076578616d706c650000010001",
        "answer 123491040000000000000000",
    ),
    // Two OPT records.
    (
        "203.0.113.9",
        "123401000001000000000002037777770363646e076578616d706c65000001000100002904d00000\
            0000000b0008000700011800c6336400002904d000000000000b0008000700011800c63364",
        "answer 123481010000000000000000",
    ),
    // Version 1 of EDNS.
    (
        "203.0.113.9",
        "123401000001000000000001037777770363646e076578616d706c65000001000100002904d00001\
            0000000b0008000700011800c63364",
        "answer 123481000001000000000001037777770363646e076578616d706c6500000100010000290\
            4d0010000000000",
    ),
    // The question comes back letter for letter.
    (
        "198.51.100.7",
        "123401000001000000000000035777570343644e076558614d704c650000010001",
        "answer 123485000001000100000000035777570343644e076558614d704c650000010001c00c000\
            10001000000140004c0000201",
    ),
    // No such name, beside the service and below it.
    (
        "198.51.100.7",
        "12340100000100000000000001780363646e076578616d706c650000010001",
        "answer 12348503000100000001000001780363646e076578616d706c650000010001c00e0006000\
            1000000140038036e7331036f7073076578616d706c65000561646d696e036f7073076578616d706\
            c65000000000100000e1000000258000151800000003c",
    ),
    (
        "198.51.100.7",
        "1234010000010000000000000178037777770363646e076578616d706c650000010001",
        "answer 1234850300010000000100000178037777770363646e076578616d706c650000010001c01\
            200060001000000140038036e7331036f7073076578616d706c65000561646d696e036f707307657\
            8616d706c65000000000100000e1000000258000151800000003c",
    ),
    // A name outside the zone.
    (
        "198.51.100.7",
        "123401000001000000000000076578616d706c650000010001",
        "answer 123481050001000000000000076578616d706c650000010001",
    ),
    // The plain answer, from either family.
    (
        "198.51.100.7",
        "123401000001000000000000037777770363646e076578616d706c650000010001",
        "answer 123485000001000100000000037777770363646e076578616d706c650000010001c00c000\
            10001000000140004c0000201",
    ),
    (
        "2001:db8::7",
        "123401000001000000000000037777770363646e076578616d706c650000010001",
        "answer 123485000001000100000000037777770363646e076578616d706c650000010001c00c000\
            10001000000140004c0000201",
    ),
    // Type AAAA, and a pool that has no such address.
    (
        "198.51.100.7",
        "123401000001000000000000037777770363646e076578616d706c6500001c0001",
        "answer 123485000001000100000000037777770363646e076578616d706c6500001c0001c00c001\
            c000100000014001020010db8000000000000000000000001",
    ),
    // The bit DO, and a source of 0.
    (
        "198.51.100.7",
        "123401000001000000000001037777770363646e076578616d706c65000001000100002904d00000\
            800000080008000400010000",
        "answer 123485000001000100000001037777770363646e076578616d706c650000010001c00c000\
            10001000000140004c000020100002904d00000800000080008000400010000",
    ),
];

/// More of them, by the type that is asked for, and by how the question is spelled.
const TYPES: &[Reply] = &[
    // A type that a service does not have.
    (
        "198.51.100.7",
        "123401000001000000000000037777770363646e076578616d706c650000100001",
        "answer 123485000001000000010000037777770363646e076578616d706c650000100001c010000\
            60001000000140038036e7331036f7073076578616d706c65000561646d696e036f7073076578616\
            d706c65000000000100000e1000000258000151800000003c",
    ),
    // The apex: its name servers, its start of authority, and a type that it does not have.
    (
        "198.51.100.7",
        "1234010000010000000000000363646e076578616d706c650000020001",
        "answer 1234850000010002000000000363646e076578616d706c650000020001c00c00020001000\
            000140011036e7331036f7073076578616d706c6500c00c00020001000000140011036e7332036f7\
            073076578616d706c6500",
    ),
    (
        "198.51.100.7",
        "1234010000010000000000000363646e076578616d706c650000060001",
        "answer 1234850000010001000000000363646e076578616d706c650000060001c00c00060001000\
            000140038036e7331036f7073076578616d706c65000561646d696e036f7073076578616d706c650\
            00000000100000e1000000258000151800000003c",
    ),
    (
        "198.51.100.7",
        "1234010000010000000000000363646e076578616d706c650000010001",
        "answer 1234850000010000000100000363646e076578616d706c650000010001c00c00060001000\
            000140038036e7331036f7073076578616d706c65000561646d696e036f7073076578616d706c650\
            00000000100000e1000000258000151800000003c",
    ),
    // All types.
    (
        "198.51.100.7",
        "123401000001000000000000037777770363646e076578616d706c650000ff0001",
        "answer 123485000001000100000000037777770363646e076578616d706c650000ff0001c00c000\
            10001000000140004c0000201",
    ),
    // Another class.
    (
        "198.51.100.7",
        "123401000001000000000000037777770363646e076578616d706c650000010003",
        "answer 123481050001000000000000037777770363646e076578616d706c650000010003",
    ),
    // Types 0, 41, 255 and 65535, of the service and of the apex.
    (
        "198.51.100.7",
        "123401000001000000000000037777770363646e076578616d706c650000000001",
        "answer 123485000001000000010000037777770363646e076578616d706c650000000001c010000\
            60001000000140038036e7331036f7073076578616d706c65000561646d696e036f7073076578616\
            d706c65000000000100000e1000000258000151800000003c",
    ),
    (
        "198.51.100.7",
        "123401000001000000000000037777770363646e076578616d706c650000290001",
        "answer 123485000001000000010000037777770363646e076578616d706c650000290001c010000\
            60001000000140038036e7331036f7073076578616d706c65000561646d696e036f7073076578616\
            d706c65000000000100000e1000000258000151800000003c",
    ),
    (
        "198.51.100.7",
        "123401000001000000000000037777770363646e076578616d706c6500ffff0001",
        "answer 123485000001000000010000037777770363646e076578616d706c6500ffff0001c010000\
            60001000000140038036e7331036f7073076578616d706c65000561646d696e036f7073076578616\
            d706c65000000000100000e1000000258000151800000003c",
    ),
    (
        "198.51.100.7",
        "1234010000010000000000000363646e076578616d706c650000000001",
        "answer 1234850000010000000100000363646e076578616d706c650000000001c00c00060001000\
            000140038036e7331036f7073076578616d706c65000561646d696e036f7073076578616d706c650\
            00000000100000e1000000258000151800000003c",
    ),
    (
        "198.51.100.7",
        "1234010000010000000000000363646e076578616d706c650000290001",
        "answer 1234850000010000000100000363646e076578616d706c650000290001c00c00060001000\
            000140038036e7331036f7073076578616d706c65000561646d696e036f7073076578616d706c650\
            00000000100000e1000000258000151800000003c",
    ),
    (
        "198.51.100.7",
        "1234010000010000000000000363646e076578616d706c650000ff0001",
        "answer 1234850000010000000100000363646e076578616d706c650000ff0001c00c00060001000\
            000140038036e7331036f7073076578616d706c65000561646d696e036f7073076578616d706c650\
            00000000100000e1000000258000151800000003c",
    ),
    (
        "198.51.100.7",
        "1234010000010000000000000363646e076578616d706c6500ffff0001",
        "answer 1234850000010000000100000363646e076578616d706c6500ffff0001c00c00060001000\
            000140038036e7331036f7073076578616d706c65000561646d696e036f7073076578616d706c650\
            00000000100000e1000000258000151800000003c",
    ),
    // The apex in other letters: the name of the authority points to them.
    (
        "198.51.100.7",
        "1234010000010000000000000363444e074578616d706c650000010001",
        "answer 1234850000010000000100000363444e074578616d706c650000010001c00c00060001000\
            000140038036e7331036f7073076578616d706c65000561646d696e036f7073076578616d706c650\
            00000000100000e1000000258000151800000003c",
    ),
    // A subnet is repeated with scope 0 where no address is told.
    (
        "198.51.100.7",
        "1234010000010000000000010363646e076578616d706c65000006000100002904d000000000000b\
            0008000700011800c63364",
        "answer 1234850000010001000000010363646e076578616d706c650000060001c00c00060001000\
            000140038036e7331036f7073076578616d706c65000561646d696e036f7073076578616d706c650\
            00000000100000e1000000258000151800000003c00002904d000000000000b0008000700011800c\
            63364",
    ),
    (
        "198.51.100.7",
        "12340100000100000000000101780363646e076578616d706c65000001000100002904d000000000\
            000b0008000700011800c63364",
        "answer 12348503000100000001000101780363646e076578616d706c650000010001c00e0006000\
            1000000140038036e7331036f7073076578616d706c65000561646d696e036f7073076578616d706\
            c65000000000100000e1000000258000151800000003c00002904d000000000000b0008000700011\
            800c63364",
    ),
    // Digits in upper case.
    (
        "198.51.100.7",
        "123401000001000000000000037777770363646E076578616D706C650000010001",
        "answer 123485000001000100000000037777770363646e076578616d706c650000010001c00c000\
            10001000000140004c0000201",
    ),
];

/// A run of `answer`: its topology and map, who asks, the octets of the datagram as digits, and then the
/// status and the line on the output.
#[derive(Clone, Copy)]
struct Row {
    topology: Held,
    map: &'static [u8],
    from: &'static str,
    query: &'static str,
    status: Status,
    line: &'static str,
}

/// Other maps, files at fault, and words that are no address or no octets.
const ROWS: &[Row] = &[
    // Nothing is placed for the group.
    Row {
        topology: Topology(EMPTY_POOL),
        map: FULL_POOL,
        from: "203.0.113.9",
        query: "123401000001000000000000037777770363646e076578616d706c650000010001",
        status: Status::Ok,
        line: "answer 123481020001000000000000037777770363646e076578616d706c650000010001",
    },
    // A narrower prefix in the subnet: its first address decides the group, and the scope is above the source.
    Row {
        topology: Topology(NARROWER),
        map: GOOD_REGION,
        from: "203.0.113.9",
        query: "123401000001000000000001037777770363646e076578616d706c65000001000100002904d00000\
            0000000b0008000700011800c63364",
        status: Status::Ok,
        line: "answer 123485000001000100000001037777770363646e076578616d706c650000010001c00c000\
            10001000000140004c000020100002904d000000000000b0008000700011819c63364",
    },
    Row {
        topology: Topology(FLAT),
        map: GOOD_FLAT,
        from: "198.51.100.7",
        query: "123401000001000000000000037777770363646e076578616d706c6500001c0001",
        status: Status::Ok,
        line: "answer 123485000001000000010000037777770363646e076578616d706c6500001c0001c010000\
            60001000000140038036e7331036f7073076578616d706c65000561646d696e036f7073076578616\
            d706c65000000000100000e1000000258000151800000003c",
    },
    // One pool.
    Row {
        topology: Topology(FLAT),
        map: GOOD_FLAT,
        from: "203.0.113.9",
        query: "123401000001000000000000037777770363646e076578616d706c650000010001",
        status: Status::Ok,
        line: "answer 123485000001000100000000037777770363646e076578616d706c650000010001c00c000\
            10001000000140004c0000201",
    },
    // A map that is not good.
    Row {
        topology: Topology(REGION),
        map: SHORT_REGION,
        from: "198.51.100.7",
        query: "123401000001000000000000037777770363646e076578616d706c650000010001",
        status: Status::NotGood,
        line: "blocking g2 B",
    },
    // A map that ends early, and a topology that is none.
    Row {
        topology: Topology(REGION),
        map: CUT_REGION,
        from: "198.51.100.7",
        query: "123401000001000000000000037777770363646e076578616d706c650000010001",
        status: Status::Refused,
        line: "refused map truncated",
    },
    Row {
        topology: Bytes(GOOD_FLAT),
        map: GOOD_FLAT,
        from: "198.51.100.7",
        query: "123401000001000000000000037777770363646e076578616d706c650000010001",
        status: Status::Refused,
        line: "refused topology 1 not toml",
    },
    // Words that are no address, and no octets.
    Row {
        topology: Topology(REGION),
        map: GOOD_REGION,
        from: "203.0.113.256",
        query: "123401000001000000000000037777770363646e076578616d706c650000010001",
        status: Status::Usage,
        line: "usage: glb check, answer, map, repair, serve or large",
    },
    Row {
        topology: Topology(REGION),
        map: GOOD_REGION,
        from: "198.51.100.7",
        query: "123",
        status: Status::Usage,
        line: "usage: glb check, answer, map, repair, serve or large",
    },
    Row {
        topology: Topology(REGION),
        map: GOOD_REGION,
        from: "198.51.100.7",
        query: "12zz",
        status: Status::Usage,
        line: "usage: glb check, answer, map, repair, serve or large",
    },
];

/// The files that are due to be asked for.
fn due_loads(row: &Row) -> &'static [&'static str] {
    match row.status {
        Status::Usage => &[],
        Status::Refused if row.line.starts_with("refused topology") => &["t"],
        _ => &["t", "m"],
    }
}

/// Whether a run came out as its row says, with one put, and asked for just the files that are due.
fn came_so(came: &Came, row: &Row) -> bool {
    let asked = came
        .lent
        .files
        .asked()
        .iter()
        .map(|load| load.name.as_str());
    came.says(row.status, &[row.line, "\n"])
        && came.puts() == 1
        && asked.eq(due_loads(row).iter().copied())
}

/// Whether a row's datagram is answered as it says.
fn comes_so<R: Threads + Wait + Sync + AllocGlobal>(rt: &R, row: &Row) -> Result<bool, NoMemory> {
    let words = &["glb", "answer", "t", "m", row.from, row.query];
    let came = came_of(rt, words, &[("t", row.topology), ("m", Bytes(row.map))])?;
    Ok(came_so(&came, row))
}

fn assert_row<R: Abort + Threads + Wait + Sync + AllocGlobal>(
    rt: &R,
    row: &Row,
) -> Result<(), Fail> {
    assert!(rt; comes_so(rt, row)?, "for {} from {}", row.query, row.from);
    Ok(())
}

fn assert_rows<R: Abort + Threads + Wait + Sync + AllocGlobal>(
    rt: &R,
    rows: &[Row],
) -> Result<(), Fail> {
    for row in rows {
        assert_row(rt, row)?;
    }
    Ok(())
}

fn assert_replies<R: Abort + Threads + Wait + Sync + AllocGlobal>(
    rt: &R,
    rows: &[Reply],
) -> Result<(), Fail> {
    for (from, query, line) in rows {
        let row = Row {
            topology: Topology(REGION),
            map: GOOD_REGION,
            from: *from,
            query: *query,
            status: Status::Ok,
            line: *line,
        };
        assert_row(rt, &row)?;
    }
    Ok(())
}

#[test]
fn replies(rt: HostRuntime) -> Result<(), Fail> {
    assert_replies(&rt, REPLIES)
}

#[test]
fn replies_by_type(rt: HostRuntime) -> Result<(), Fail> {
    assert_replies(&rt, TYPES)
}

#[test]
fn other_answers(rt: HostRuntime) -> Result<(), Fail> {
    assert_rows(&rt, ROWS)
}
