//! Streams over TCP on loopback: messages cut and put together, lengths that are too great, resets, and places that ran
//! out.
use super::peers::{peer_of, socket_addr};
use addr_text::{Addr, Listen, Peer};
use edges::{FlagGate, FlagPace, ManyStreams, SharedTcp, StopFlag};
use outside::{Accepting, Gate, Opening, Pace, Reading, Streams, Turning, Writing};
use std::alloc::Global;
use std::io::{Read, Write};
use std::net::{Net, TcpListener, TcpStream};
use std::thread::join_mut;
use std::time::{Clock, Duration};

const LOCAL: Addr = Addr::V4(0x7f00_0001);

/// The loopback addresses of both families.
const FAMILIES: &[Addr] = &[LOCAL, Addr::V6(1)];

/// A message of two octets and one of one, each behind its length.
const MESSAGES: &[u8] = b"\0\x02ab\0\x01c";

const REPLY: &[u8] = b"\0\x03xyz";

const OTHER_REPLY: &[u8] = b"\0\x01w";

/// A message of one octet, behind its length.
const SHORT: &[u8] = b"\0\x01c";

/// Twenty of them.
const TWENTY: &[u8] =
    b"\0\x01c\0\x01c\0\x01c\0\x01c\0\x01c\0\x01c\0\x01c\0\x01c\0\x01c\0\x01c\0\x01c\0\x01c\0\x01c\0\x01c\0\x01c\0\x01c\0\x01c\0\x01c\0\x01c\0\x01c";

/// A length of 4,097, and more.
const LONG: &[u8] = b"\x10\x01abc";

/// What streams share with those that ask and stop them.
#[derive(Drop)]
struct Shared {
    tcp: SharedTcp,
    flag: StopFlag,
}

impl Shared {
    fn new() -> Shared {
        Shared {
            tcp: SharedTcp::new(),
            flag: StopFlag::new(),
        }
    }
}

/// Streams at that address, at a port that the system picks.
fn opened<'a, R: Net + Clock>(
    alloc: Global,
    rt: &'a R,
    shared: &'a Shared,
    addr: Addr,
    places: usize,
    most_of_one: usize,
) -> Option<ManyStreams<'a, R>> {
    let mut streams = ManyStreams::new(alloc, rt, &shared.tcp, &shared.flag, places, most_of_one);
    match streams.open(&Listen { addr, port: 0 }) {
        Opening::Ready => Some(streams),
        Opening::Failed => None,
    }
}

/// A client that waits for five seconds at most.
fn client_of<N: Net<Listener = TcpListener, Stream = TcpStream>>(
    net: &N,
    shared: &Shared,
    addr: Addr,
) -> Option<TcpStream> {
    let client = TcpStream::connect(net, socket_addr(addr, shared.tcp.port()?)).ok()?;
    client.set_read_timeout(Some(Duration::from_secs(5))).ok()?;
    Some(client)
}

/// The next conversation, which comes within some seconds.
fn next_peer<Q: Streams>(streams: &mut Q) -> Option<Peer> {
    for _ in 0..100u32 {
        match streams.accept(0) {
            Accepting::Come(peer) => return Some(peer),
            Accepting::Idle => {}
            Accepting::End | Accepting::Failed => return None,
        }
    }
    None
}

/// Whether the open conversation says these octets, and no more.
fn says<Q: Streams>(streams: &mut Q, octets: &[u8]) -> bool {
    let mut buffer = [0u8; 4_098];
    match streams.read(0, &mut buffer) {
        Reading::Got(len) => {
            buffer.get(..len) == Some(octets) && streams.read(0, &mut buffer) == Reading::Closed
        }
        _ => false,
    }
}

/// Whether the next conversation says these octets.
fn comes<Q: Streams>(streams: &mut Q, octets: &[u8]) -> bool {
    next_peer(streams).is_some() && says(streams, octets)
}

/// Whether these octets come to a client.
fn gets(client: &mut TcpStream, octets: &[u8]) -> bool {
    let mut buffer = [0u8; 64];
    match buffer.get_mut(..octets.len()) {
        Some(front) => client.read_exact(front).is_ok() && buffer.starts_with(octets),
        None => false,
    }
}

/// Whether a client sees that its connection is closed.
fn is_closed(client: &mut TcpStream) -> bool {
    let mut buffer = [0u8; 1];
    match client.read(&mut buffer) {
        Ok(len) => len == 0,
        Err(_) => false,
    }
}

/// Whether no conversation comes for a while.
fn is_idle<Q: Streams>(streams: &mut Q) -> bool {
    streams.accept(0) == Accepting::Idle && streams.accept(0) == Accepting::Idle
}

/// Whether messages that a client sends come as one conversation, and a reply goes back.
fn exchanges<Q: Streams>(streams: &mut Q, client: &mut TcpStream) -> bool {
    if client.write_all(MESSAGES).is_err() || !comes(streams, MESSAGES) {
        return false;
    }
    let is_written = streams.write(0, REPLY) == Writing::Done;
    streams.close();
    is_written && gets(client, REPLY)
}

/// Whether a message comes when it is whole, and not before.
fn waits<Q: Streams>(streams: &mut Q, client: &mut TcpStream) -> bool {
    let Some((first, behind)) = MESSAGES.split_at_checked(3) else {
        return false;
    };
    if client.write_all(first).is_err() || !is_idle(streams) {
        return false;
    }
    if client.write_all(behind).is_err() || !comes(streams, MESSAGES) {
        return false;
    }
    streams.close();
    true
}

/// Replies to the next conversation: one way to that peer, and another way to any other.
fn replies_by_peer<Q: Streams>(streams: &mut Q, peer: Peer) -> bool {
    let Some(from) = next_peer(streams) else {
        return false;
    };
    let reply = if from == peer { REPLY } else { OTHER_REPLY };
    let is_written = says(streams, SHORT) && streams.write(0, reply) == Writing::Done;
    streams.close();
    is_written
}

/// Whether two clients that ask at once are told apart by their addresses and ports, and each gets its own reply.
fn tells_apart<Q: Streams>(
    streams: &mut Q,
    first: &mut TcpStream,
    second: &mut TcpStream,
) -> Option<bool> {
    let peer = peer_of(first.local_addr().ok()?);
    first.write_all(SHORT).ok()?;
    second.write_all(SHORT).ok()?;
    Some(
        replies_by_peer(streams, peer)
            && replies_by_peer(streams, peer)
            && gets(first, REPLY)
            && gets(second, OTHER_REPLY),
    )
}

fn all_exchange<R: Net<Listener = TcpListener, Stream = TcpStream> + Clock>(
    alloc: Global,
    rt: &R,
    addr: Addr,
) -> Option<bool> {
    let shared = Shared::new();
    let mut streams = opened(alloc, rt, &shared, addr, 4, 4)?;
    let mut client = client_of(rt, &shared, addr)?;
    let mut other = client_of(rt, &shared, addr)?;
    Some(
        exchanges(&mut streams, &mut client)
            && exchanges(&mut streams, &mut other)
            && waits(&mut streams, &mut other)
            && exchanges(&mut streams, &mut client)
            && tells_apart(&mut streams, &mut client, &mut other) == Some(true),
    )
}

/// Where nothing gets through, if there is such a family.
fn unreached<R: Net<Listener = TcpListener, Stream = TcpStream> + Clock>(
    alloc: Global,
    rt: &R,
    families: &[Addr],
) -> Option<Addr> {
    for addr in families {
        if all_exchange(alloc, rt, *addr) != Some(true) {
            return Some(*addr);
        }
    }
    None
}

/// Several connections at once, again and again, over both families. Each gets its own replies.
#[test]
fn exchanges_on_loopback(rt: HostRuntime) {
    assert!(rt; unreached(rt.alloc(), &rt, FAMILIES).is_none());
}

/// How many octets of a connection come in one conversation: at most eight messages.
const HANDED: &[usize] = &[24, 24, 12];

fn all_handed<Q: Streams>(streams: &mut Q, handed: &[usize]) -> bool {
    for len in handed {
        if !comes(streams, TWENTY.get(..*len).unwrap_or(TWENTY)) {
            return false;
        }
        streams.close();
    }
    true
}

/// Twenty messages, and then a length that is too great, which ends the connection.
fn ends<R: Net<Listener = TcpListener, Stream = TcpStream> + Clock>(
    alloc: Global,
    rt: &R,
) -> Option<bool> {
    let shared = Shared::new();
    let mut streams = opened(alloc, rt, &shared, LOCAL, 4, 4)?;
    let mut client = client_of(rt, &shared, LOCAL)?;
    client.write_all(TWENTY).ok()?;
    client.write_all(LONG).ok()?;
    if !all_handed(&mut streams, HANDED) || !comes(&mut streams, b"\x10\x01") {
        return Some(false);
    }
    streams.close();
    Some(is_idle(&mut streams))
}

#[test]
fn hands_over_whole_messages(rt: HostRuntime) {
    assert!(rt; ends(rt.alloc(), &rt) == Some(true));
}

/// Three clients where there are places for two, in all or for one address: the first one gives way, and the last one is
/// answered.
fn gives_way<R: Net<Listener = TcpListener, Stream = TcpStream> + Clock>(
    alloc: Global,
    rt: &R,
    places: usize,
    most_of_one: usize,
) -> Option<bool> {
    let shared = Shared::new();
    let mut streams = opened(alloc, rt, &shared, LOCAL, places, most_of_one)?;
    let mut first = client_of(rt, &shared, LOCAL)?;
    let is_first = is_idle(&mut streams);
    let _second = client_of(rt, &shared, LOCAL)?;
    let is_second = is_idle(&mut streams);
    let mut third = client_of(rt, &shared, LOCAL)?;
    let is_third = exchanges(&mut streams, &mut third);
    Some(is_first && is_second && is_third && is_closed(&mut first))
}

#[test]
fn oldest_gives_way(rt: HostRuntime) {
    assert!(rt; gives_way(rt.alloc(), &rt, 2, 8) == Some(true));
    assert!(rt; gives_way(rt.alloc(), &rt, 8, 2) == Some(true));
}

/// Clients of one address, each of which asks before any of them is taken in.
fn asking<N: Net<Listener = TcpListener, Stream = TcpStream>>(
    alloc: Global,
    net: &N,
    shared: &Shared,
    count: usize,
) -> Option<Vec<TcpStream>> {
    let mut clients = clients_of(alloc, net, shared, count)?;
    for client in &mut clients {
        client.write_all(SHORT).ok()?;
    }
    Some(clients)
}

/// Replies to so many conversations, one after another.
fn reply_to<Q: Streams>(streams: &mut Q, count: usize) -> bool {
    for _ in 0..count {
        if !comes(streams, SHORT) || streams.write(0, REPLY) != Writing::Done {
            return false;
        }
        streams.close();
    }
    true
}

/// Whether a reply comes to each of these clients.
fn all_get(clients: &mut [TcpStream]) -> bool {
    for client in clients {
        if !gets(client, REPLY) {
            return false;
        }
    }
    true
}

/// More clients than there are places, in all or for one address, have asked before the first one is taken in: each is
/// answered.
fn answers_a_crowd<R: Net<Listener = TcpListener, Stream = TcpStream> + Clock>(
    alloc: Global,
    rt: &R,
    places: usize,
    most_of_one: usize,
) -> Option<bool> {
    let shared = Shared::new();
    let mut streams = opened(alloc, rt, &shared, LOCAL, places, most_of_one)?;
    let mut clients = asking(alloc, rt, &shared, 20)?;
    Some(reply_to(&mut streams, 20) && all_get(&mut clients))
}

#[test]
fn a_crowd_is_answered(rt: HostRuntime) {
    assert!(rt; answers_a_crowd(rt.alloc(), &rt, 32, 4) == Some(true));
    assert!(rt; answers_a_crowd(rt.alloc(), &rt, 4, 32) == Some(true));
}

/// Two clients ask; the flag is set once the first one was taken in. Both are answered, and then the gate stops the lane.
fn ends_in_order<R: Net<Listener = TcpListener, Stream = TcpStream> + Clock>(
    alloc: Global,
    rt: &R,
) -> Option<bool> {
    let shared = Shared::new();
    let mut streams = opened(alloc, rt, &shared, LOCAL, 4, 4)?;
    let mut gate = FlagGate::of_streams(&shared.flag);
    let mut clients = asking(alloc, rt, &shared, 2)?;
    let is_first = comes(&mut streams, SHORT) && gate.turn(0) == Turning::Go;
    shared.flag.set();
    let goes_on = gate.turn(0) == Turning::Go && streams.write(0, REPLY) == Writing::Done;
    streams.close();
    let is_second = gate.turn(0) == Turning::Go && reply_to(&mut streams, 1);
    let is_last = is_idle(&mut streams) && gate.turn(0) == Turning::Stop;
    Some(is_first && goes_on && is_second && is_last && all_get(&mut clients))
}

#[test]
fn what_was_taken_is_answered(rt: HostRuntime) {
    assert!(rt; ends_in_order(rt.alloc(), &rt) == Some(true));
}

/// A client that asks, and goes before it reads its reply: its system resets the connection.
fn goes_early<R: Net<Listener = TcpListener, Stream = TcpStream> + Clock>(
    rt: &R,
    shared: &Shared,
    streams: &mut ManyStreams<'_, R>,
) -> Option<bool> {
    let mut client = client_of(rt, shared, LOCAL)?;
    client.write_all(SHORT).ok()?;
    client.write_all(b"\0").ok()?;
    if !comes(streams, SHORT) || streams.write(0, REPLY) != Writing::Done {
        return Some(false);
    }
    streams.close();
    Some(true)
}

fn all_go_early<R: Net<Listener = TcpListener, Stream = TcpStream> + Clock>(
    alloc: Global,
    rt: &R,
) -> Option<bool> {
    let shared = Shared::new();
    let mut streams = opened(alloc, rt, &shared, LOCAL, 4, 4)?;
    for _ in 0..20u32 {
        if goes_early(rt, &shared, &mut streams) != Some(true) {
            return Some(false);
        }
    }
    let mut client = client_of(rt, &shared, LOCAL)?;
    Some(is_idle(&mut streams) && exchanges(&mut streams, &mut client))
}

#[test]
fn resets_are_no_failures(rt: HostRuntime) {
    assert!(rt; all_go_early(rt.alloc(), &rt) == Some(true));
}

/// Whether nothing comes or goes where none is open.
fn is_shut<R: Net + Clock>(alloc: Global, rt: &R) -> bool {
    let shared = Shared::new();
    let mut streams = ManyStreams::new(alloc, rt, &shared.tcp, &shared.flag, 2, 2);
    let mut buffer = [0u8; 8];
    let is_unopened = shared.tcp.port().is_none() && streams.accept(0) == Accepting::Failed;
    is_unopened
        && streams.read(0, &mut buffer) == Reading::Closed
        && streams.write(0, REPLY) == Writing::Failed
}

#[test]
fn none_is_open(rt: HostRuntime) {
    assert!(rt; is_shut(rt.alloc(), &rt));
}

/// Replies to each conversation until the gate stops it, and counts them.
fn reply_all<Q: Streams>(streams: &mut Q, gate: &mut impl Gate) -> u32 {
    let mut count = 0u32;
    for _ in 0..1_000_000u32 {
        if gate.turn(0) == Turning::Stop {
            return count;
        }
        if let Accepting::Come(_) = streams.accept(0) {
            if says(streams, MESSAGES) && streams.write(0, REPLY) == Writing::Done {
                count = count.saturating_add(1);
            }
            streams.close();
        }
    }
    count
}

/// So many clients.
fn clients_of<N: Net<Listener = TcpListener, Stream = TcpStream>>(
    alloc: Global,
    net: &N,
    shared: &Shared,
    count: usize,
) -> Option<Vec<TcpStream>> {
    let mut clients = Vec::new(alloc);
    for _ in 0..count {
        clients.push(client_of(net, shared, LOCAL)?).ok()?;
    }
    Some(clients)
}

/// Has each client ask once, and counts the replies. Then the feed ends.
fn ask_all(clients: &mut [TcpStream], pace: &mut impl Pace) -> u32 {
    let mut count = 0u32;
    for client in clients {
        if client.write_all(MESSAGES).is_ok() && gets(client, REPLY) {
            count = count.saturating_add(1);
        }
    }
    pace.done(0);
    count
}

/// A lane in a thread, and clients in another.
#[test]
fn replies_in_a_thread(rt: HostRuntime) {
    let shared = Shared::new();
    let mut streams = opened(rt.alloc(), &rt, &shared, LOCAL, 32, 32).expect(
        &rt,
        "streams that are open",
    );
    let mut gate = FlagGate::of_streams(&shared.flag);
    let mut pace = FlagPace::new(&shared.flag);
    let mut clients = clients_of(rt.alloc(), &rt, &shared, 20).expect(&rt, "clients");
    let (replied, asked) = join_mut(
        &rt,
        &mut || reply_all(&mut streams, &mut gate),
        &mut || ask_all(&mut clients, &mut pace),
    );
    assert_eq!(rt; asked, 20);
    assert_eq!(rt; replied, 20);
}
