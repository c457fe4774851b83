//! Readers and writers of std in memory, at the limit and past it; UDP on loopback; and the flag.
ghost use Rattle.std.specs.Prelude.{◌≡◌, ◌≤◌, length};

use crate::tests::peers::{peer_of, socket_addr};
use addr_text::{Addr, Listen, Peer};
use edges::{
    FileShelf, FlagGate, FlagPace, Knock, SharedUdp, StandardStream, StopFlag, StreamSink,
    StreamSource, UdpPort, arrival_of, is_broken, knock_of, read_within, sending_of,
};
use outside::{
    Arrival, Gate, LoadFault, Opening, Pace, Port, Put, Read, Sending, Shelf, Sink, Source, Turning,
};
use std::alloc::{AllocError, Global};
use std::io::Error;
use std::net::{Net, SocketAddr, UdpSocket};
use std::thread::{Threads, join_mut};
use std::time::Duration;

mod named;
mod peers;
mod tcp;

/// A limit, how many octets are expected, and whether four are read whole.
type LimitRow = (usize, u64, bool);

const LIMITS: &[LimitRow] = &[
    (3, 4, false),
    (3, 0, false),
    (4, 4, true),
    (5, 0, true),
    (5, u64::MAX, true),
];

const FOUR: &[u8] = b"abcd";

fn reads_so(alloc: Global, row: &LimitRow) -> bool {
    let (limit, expected, is_whole) = row;
    match read_within(FOUR, alloc, *limit, *expected) {
        Ok(bytes) => *is_whole && bytes.as_slice() == FOUR,
        Err(fault) => !*is_whole && fault == LoadFault::TooLong,
    }
}

fn all_read_so(alloc: Global, rows: &[LimitRow]) -> bool {
    for row in rows {
        if !reads_so(alloc, row) {
            return false;
        }
    }
    true
}

#[test]
fn reads_to_the_limit(rt: HostRuntime) {
    assert!(rt; all_read_so(rt.alloc(), LIMITS));
}

const THREE: &[u8] = b"abc";

/// What comes of a read, and what then stands at the front of the buffer.
type PieceRow = (Read, &'static [u8]);

const PIECES: &[PieceRow] = &[
    (Read::Got(2), b"ab"),
    (Read::Got(1), b"c"),
    (Read::End, b""),
    (Read::End, b""),
];

/// Whether these pieces come of three octets, in a buffer of two.
fn come_in_pieces(rows: &[PieceRow]) -> bool {
    let mut source = StreamSource::new(THREE);
    let mut buffer = [0u8; 2];
    for (want, piece) in rows {
        if source.read(&mut buffer) != *want || !buffer.starts_with(piece) {
            return false;
        }
    }
    true
}

/// Puts two pieces into a stream.
fn put_two(stream: &mut Vec<u8>) -> bool {
    let mut sink = StreamSink::new(stream);
    sink.put(b"ab") == Put::Done && sink.put(b"c") == Put::Done
}

/// Whether a stream has got them whole, one behind the other.
fn takes(alloc: Global) -> bool {
    let mut stream = Vec::new(alloc);
    put_two(&mut stream) && stream.as_slice() == THREE
}

#[test]
fn streams(rt: HostRuntime) {
    assert!(rt; come_in_pieces(PIECES));
    assert!(rt; takes(rt.alloc()));
}

/// How many octets a file has within a limit, or its fault.
fn size(
    files: &mut impl Shelf,
    alloc: Global,
    name: &str,
    limit: usize,
) -> Result<usize, LoadFault> {
    match files.load(alloc, name, limit) {
        Ok(bytes) => Ok(bytes.len()),
        Err(fault) => Err(fault),
    }
}

#[test]
fn files_within_a_limit(rt: HostRuntime) {
    let mut files = FileShelf::new(&rt);
    let alloc = rt.alloc();
    assert!(rt; size(&mut files, alloc, "there is no such file", 9) == Err(LoadFault::Failed));
    assert!(rt; size(&mut files, alloc, "/dev/null", 0) == Ok(0));
    assert!(rt; size(&mut files, alloc, "/dev/zero", 9) == Err(LoadFault::TooLong));
}

/// Whether both take a piece.
fn both_take<K: Sink>(out: &mut K, maps: &mut K) -> bool {
    out.put(b"") == Put::Done && maps.put(b"") == Put::Done
}

/// Standard output and standard error are sinks of one type.
#[test]
fn standard_streams(rt: HostRuntime) {
    let mut out = StreamSink::new(StandardStream::Output(rt.stdout()));
    let mut maps = StreamSink::new(StandardStream::Error(rt.stderr()));
    assert!(rt; both_take(&mut out, &mut maps));
}

/// The loopback addresses of both families, and where a client of each is bound.
const FAMILIES: &[(Addr, &str)] = &[
    (Addr::V4(0x7f00_0001), "127.0.0.1:0"),
    (Addr::V6(1), "[::1]:0"),
];

/// A place on loopback at a port that the system picks.
const LOCAL: Listen = Listen {
    addr: Addr::V4(0x7f00_0001),
    port: 0,
};

const QUESTION: &[u8] = b"question";

const ANSWER: &[u8] = b"answer";

/// A client that waits for five seconds at most.
fn client_at<N: Net>(net: &N, at: &str) -> Option<UdpSocket> {
    let client = UdpSocket::bind(net, at).ok()?;
    client.set_read_timeout(Some(Duration::from_secs(5))).ok()?;
    Some(client)
}

/// Whether a datagram gets through to a port, and its reply back.
fn exchanges<N: Net>(net: &N, addr: Addr, at: &str) -> Option<bool> {
    let shared = SharedUdp::new();
    let mut port = UdpPort::new(net, &shared);
    let client = client_at(net, at)?;
    let mut buffer = [0u8; 4_096];
    if port.open(&Listen { addr, port: 0 }) != Opening::Ready {
        return None;
    }
    let number = shared.port()?;
    client.send_to(QUESTION, socket_addr(addr, number)).ok()?;
    let Arrival::Arrived(len, peer) = port.recv(0, &mut buffer) else {
        return Some(false);
    };
    if &buffer[..len] != QUESTION || port.send(ANSWER, peer, 0) != Sending::Sent {
        return Some(false);
    }
    let (len, from) = client.recv_from(&mut buffer).ok()?;
    Some(from.port() == number && peer_of(from).addr == addr && &buffer[..len] == ANSWER)
}

/// Where nothing gets through, if there is such a family.
fn unreached<N: Net>(net: &N, families: &[(Addr, &'static str)]) -> Option<&'static str> {
    for (addr, at) in families {
        if exchanges(net, *addr, *at) != Some(true) {
            return Some(*at);
        }
    }
    None
}

#[test]
fn answers_on_loopback(rt: HostRuntime) {
    assert_eq!(rt; unreached(&rt, FAMILIES), None);
}

/// How long a datagram is, and what comes of it: a datagram, or one that is too long.
const LENGTHS: [(usize, bool); 4] = [(0, true), (12, true), (4_096, true), (4_097, false)];

/// Whether datagrams of these lengths come, or are too long, in a buffer.
fn come<N: Net>(
    port: &mut UdpPort<'_, N>,
    client: &UdpSocket,
    to: SocketAddr,
    buffer: &mut [u8],
) -> bool
    requires { 4096 ≤ length buffer.old }
{
    let octets = [7u8; 4_097];
    for (len, is_short) in LENGTHS {
        if client.send_to(&octets[..len], to).is_err() {
            return false;
        }
        let wanted = match port.recv(0, buffer) {
            Arrival::Arrived(seen, _) => is_short && seen == len,
            Arrival::Oversize => !is_short,
            _ => false,
        };
        if !wanted {
            return false;
        }
    }
    port.recv(0, buffer) == Arrival::Idle
}

/// Where a port of that socket is reached.
fn reached(shared: &SharedUdp) -> Option<SocketAddr> {
    Some(socket_addr(LOCAL.addr, shared.port()?))
}

/// Whether all lengths come as they are to, in a buffer for the longest datagram and in a longer one.
fn all_come<N: Net>(net: &N) -> Option<bool> {
    let shared = SharedUdp::new();
    let mut port = UdpPort::new(net, &shared);
    if port.open(&LOCAL) != Opening::Ready {
        return Some(false);
    }
    let client = client_at(net, "127.0.0.1:0")?;
    let to = reached(&shared)?;
    Some(
        come(&mut port, &client, to, &mut [0u8; 4_096])
            && come(&mut port, &client, to, &mut [0u8; 4_097]),
    )
}

#[test]
fn lengths(rt: HostRuntime) {
    assert!(rt; all_come(&rt) == Some(true));
}

/// Whether the first of two ports binds a socket, and the second one is opened at its place alone.
fn open_in_turn<N: Net>(
    shared: &SharedUdp,
    first: &mut UdpPort<'_, N>,
    second: &mut UdpPort<'_, N>,
) -> bool {
    let mut buffer = [0u8; 4_096];
    let elsewhere = Listen {
        addr: Addr::V6(1),
        port: 0,
    };
    shared.port().is_none()
        && first.recv(0, &mut buffer) == Arrival::Failed
        && first.open(&LOCAL) == Opening::Ready
        && second.open(&elsewhere) == Opening::Failed
        && second.open(&LOCAL) == Opening::Ready
        && first.open(&LOCAL) == Opening::Ready
}

/// Sends one datagram from each of so many clients. Answers how many went.
fn send_from_each<N: Net>(net: &N, to: SocketAddr, clients: u32) -> u32 {
    let mut count = 0u32;
    for _ in 0..clients {
        if let Some(client) = client_at(net, "127.0.0.1:0") {
            if client.send_to(QUESTION, to).is_ok() {
                count = count.saturating_add(1);
            }
        }
    }
    count
}

/// How many datagrams wait at a port, up to a hundred.
fn waiting<N: Net>(port: &mut UdpPort<'_, N>) -> u32 {
    let mut buffer = [0u8; 4_096];
    let mut count = 0u32;
    for _ in 0..100u32 {
        if port.recv(0, &mut buffer) == Arrival::Idle {
            return count;
        }
        count = count.saturating_add(1);
    }
    count
}

/// How many of a number of datagrams, each from a client of its own, come to each of two ports of one place.
fn shared_out<N: Net>(net: &N, clients: u32) -> Option<(u32, u32)> {
    let shared = SharedUdp::new();
    let mut first = UdpPort::new(net, &shared);
    let mut second = UdpPort::new(net, &shared);
    if !open_in_turn(&shared, &mut first, &mut second) {
        return None;
    }
    if send_from_each(net, reached(&shared)?, clients) != clients {
        return None;
    }
    Some((waiting(&mut first), waiting(&mut second)))
}

/// Each datagram comes to one port, and with that many clients no port has none.
#[test]
fn ports_have_sockets_of_their_own(rt: HostRuntime) {
    let (first, second) = shared_out(&rt, 64).expect(&rt, "two ports");
    assert_eq!(rt; first.saturating_add(second), 64);
    assert!(rt; first > 0 && second > 0);
}

/// What comes of opening a port of another server at a place that one port has, and then two.
fn taken_place<N: Net>(net: &N) -> Option<(Opening, Opening)> {
    let shared = SharedUdp::new();
    let mut first = UdpPort::new(net, &shared);
    let mut second = UdpPort::new(net, &shared);
    if first.open(&LOCAL) != Opening::Ready {
        return None;
    }
    let place = Listen {
        addr: LOCAL.addr,
        port: shared.port()?,
    };
    let (one, two) = (SharedUdp::new(), SharedUdp::new());
    let beside_one = UdpPort::new(net, &one).open(&place);
    if second.open(&LOCAL) != Opening::Ready {
        return None;
    }
    Some((beside_one, UdpPort::new(net, &two).open(&place)))
}

/// No other server comes to a place, though this one has several sockets there.
#[test]
fn a_place_is_one_servers(rt: HostRuntime) {
    assert_eq!(rt; taken_place(&rt), Some((Opening::Failed, Opening::Failed)));
}

/// Takes a datagram, and replies to a port 0, which the system refuses.
fn sends_nowhere<N: Net>(port: &mut UdpPort<'_, N>, client: &UdpSocket, to: SocketAddr) -> bool {
    let mut buffer = [0u8; 4_096];
    let nowhere = Peer {
        addr: Addr::V4(0x7f00_0001),
        port: 0,
    };
    if client.send_to(QUESTION, to).is_err() {
        return false;
    }
    match port.recv(0, &mut buffer) {
        Arrival::Arrived(_, _) => port.send(ANSWER, nowhere, 0) == Sending::Sent,
        _ => false,
    }
}

/// Whether so many such replies count as sent.
fn all_sent<N: Net>(
    port: &mut UdpPort<'_, N>,
    client: &UdpSocket,
    to: SocketAddr,
    count: u32,
) -> bool {
    for _ in 0..count {
        if !sends_nowhere(port, client, to) {
            return false;
        }
    }
    true
}

/// Whether a port goes on whatever the system refuses to send.
fn goes_on<N: Net>(net: &N) -> Option<bool> {
    let shared = SharedUdp::new();
    let mut port = UdpPort::new(net, &shared);
    if port.open(&LOCAL) != Opening::Ready {
        return Some(false);
    }
    let client = client_at(net, "127.0.0.1:0")?;
    let to = reached(&shared)?;
    Some(all_sent(&mut port, &client, to, 20))
}

#[test]
fn forged_senders_end_nothing(rt: HostRuntime) {
    assert!(rt; goes_on(&rt) == Some(true));
}

/// Numbers of Linux's errors: EPERM, EINTR, EAGAIN, ENOMEM, EACCES, EINVAL, EMSGSIZE, ENETUNREACH, ENOBUFS,
/// ECONNREFUSED, EHOSTUNREACH.
const OF_A_DATAGRAM: &[i32] = &[1, 4, 11, 12, 13, 22, 90, 101, 105, 111, 113];

/// EBADF, EPIPE, ENOTSOCK, EOPNOTSUPP, ENOTCONN, ESHUTDOWN.
const OF_A_SOCKET: &[i32] = &[9, 32, 88, 95, 107, 108];

fn is_of_a_datagram(code: i32) -> bool {
    let error = Error::from_raw_os_error(code);
    !is_broken(&error)
        && sending_of(Err(error)) == Sending::Sent
        && arrival_of(Err(error)) == Arrival::Idle
}

fn is_of_a_socket(code: i32) -> bool {
    let error = Error::from_raw_os_error(code);
    sending_of(Err(error)) == Sending::Failed && arrival_of(Err(error)) == Arrival::Failed
}

/// The first number that is not judged so.
fn misjudged(datagrams: &[i32], sockets: &[i32]) -> Option<i32> {
    for code in datagrams {
        if !is_of_a_datagram(*code) {
            return Some(*code);
        }
    }
    for code in sockets {
        if !is_of_a_socket(*code) {
            return Some(*code);
        }
    }
    None
}

#[test]
fn judges_errors(rt: HostRuntime) {
    assert_eq!(rt; misjudged(OF_A_DATAGRAM, OF_A_SOCKET), None);
}

/// What numbers of Linux's errors say of a listener: EBADF, EINVAL and ENOTSOCK; EPERM, EINTR, ENETDOWN, ECONNABORTED
/// and EHOSTUNREACH; ENFILE and EMFILE; EAGAIN, ENOMEM and ENOBUFS.
const KNOCKS: &[(Knock, &[i32])] = &[
    (Knock::Deaf, &[9, 22, 88]),
    (Knock::Gone, &[1, 4, 100, 103, 113]),
    (Knock::Full, &[23, 24]),
    (Knock::Quiet, &[11, 12, 105]),
];

fn all_knock(wanted: Knock, codes: &[i32]) -> bool {
    for code in codes {
        if knock_of(&Error::from_raw_os_error(*code)) != wanted {
            return false;
        }
    }
    true
}

/// The first kind of which a number is judged otherwise.
fn other_knock(rows: &[(Knock, &[i32])]) -> Option<Knock> {
    for (wanted, codes) in rows {
        if !all_knock(*wanted, codes) {
            return Some(*wanted);
        }
    }
    None
}

#[test]
fn judges_listeners(rt: HostRuntime) {
    assert!(rt; other_knock(KNOCKS).is_none());
}

fn stops_lanes(flag: &StopFlag) -> bool {
    let mut gate = FlagGate::new(flag);
    let mut pace = FlagPace::new(flag);
    pace.before(1);
    if gate.turn(0) != Turning::Go {
        return false;
    }
    pace.done(2);
    gate.turn(0) == Turning::Stop && gate.turn(2) == Turning::Stop
}

#[test]
fn a_flag_stops_lanes(rt: HostRuntime) {
    assert!(rt; stops_lanes(&StopFlag::new()));
}

/// Sends each datagram back until the gate stops it, and counts them.
fn echo<N: Net>(port: &mut UdpPort<'_, N>, gate: &mut impl Gate) -> u32 {
    let mut buffer = [0u8; 4_097];
    let mut count = 0u32;
    for _ in 0..1_000_000u32 {
        if gate.turn(0) == Turning::Stop {
            return count;
        }
        if let Arrival::Arrived(len, peer) = port.recv(0, &mut buffer) {
            if len <= 512 && port.send(&buffer[..len], peer, 0) == Sending::Sent {
                count = count.saturating_add(1);
            }
        }
    }
    count
}

/// Asks so many times, and counts the replies. Then the feed ends.
fn ask(client: &UdpSocket, to: SocketAddr, times: u32, pace: &mut impl Pace) -> u32 {
    let mut buffer = [0u8; 512];
    let mut count = 0u32;
    for _ in 0..times {
        if client.send_to(QUESTION, to).is_ok() && client.recv_from(&mut buffer).is_ok() {
            count = count.saturating_add(1);
        }
    }
    pace.done(0);
    count
}

fn both_open<N: Net>(first: &mut UdpPort<'_, N>, second: &mut UdpPort<'_, N>) -> bool {
    first.open(&LOCAL) == Opening::Ready && second.open(&LOCAL) == Opening::Ready
}

/// Two lanes in two threads and a client in a third, at one place.
#[test]
fn two_lanes_at_once(rt: HostRuntime) {
    let (shared, flag) = (SharedUdp::new(), StopFlag::new());
    let mut first = UdpPort::new(&rt, &shared);
    let mut second = UdpPort::new(&rt, &shared);
    let mut gate = FlagGate::new(&flag);
    let mut other_gate = FlagGate::new(&flag);
    let mut pace = FlagPace::new(&flag);
    assert!(rt; both_open(&mut first, &mut second));
    let client = client_at(&rt, "127.0.0.1:0").expect(&rt, "a client");
    let to = reached(&shared).expect(&rt, "a port");
    let (asked, (here, there)) = join_mut(
        &rt,
        &mut || ask(&client, to, 20, &mut pace),
        &mut || {
            join_mut(
                &rt,
                &mut || echo(&mut first, &mut gate),
                &mut || echo(&mut second, &mut other_gate),
            )
        },
    );
    assert_eq!(rt; asked, 20);
    assert_eq!(rt; here.saturating_add(there), 20);
}

/// A lane, as the program has them.
#[derive(Drop)]
struct TestLane<P, G> {
    port: P,
    gate: G,
}

/// Sixteen lanes at one place.
fn sixteen<'a, N: Net>(
    net: &'a N,
    alloc: Global,
    shared: &'a SharedUdp,
    flag: &'a StopFlag,
) -> Result<Vec<TestLane<UdpPort<'a, N>, FlagGate<'a>>>, AllocError> {
    let mut lanes = Vec::new(alloc);
    for _ in 0..16usize {
        lanes.push(TestLane {
            port: UdpPort::new(net, shared),
            gate: FlagGate::new(flag),
        })?;
    }
    Ok(lanes)
}

/// Opens all of them.
fn open_all<P: Port, G: Gate>(lanes: &mut [TestLane<P, G>], at: &Listen) -> bool {
    for lane in lanes {
        if lane.port.open(at) != Opening::Ready || lane.gate.turn(0) != Turning::Go {
            return false;
        }
    }
    true
}

fn all_sixteen_open<N: Net>(net: &N, alloc: Global) -> bool {
    let (shared, flag) = (SharedUdp::new(), StopFlag::new());
    match sixteen(net, alloc, &shared, &flag) {
        Ok(mut lanes) => open_all(lanes.as_mut_slice(), &LOCAL),
        Err(_) => false,
    }
}

#[test]
fn sixteen_lanes(rt: HostRuntime) {
    assert!(rt; all_sixteen_open(&rt, rt.alloc()));
}
