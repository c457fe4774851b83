//! A client on loopback and `serve` over real ports of UDP and TCP, in one process.
ghost use Rattle.std.specs.Prelude.{◌≡◌, IfOk, None, vec_len};
ghost use Rattle.map_cell.specs.declared.opening.TheConstants.{MOST_VIEWERS};

use crate::network::{Network, lanes_of};
use edges::{SharedTcp, SharedUdp, StopFlag};
use glb::{Lane, Status, StreamLane};
use map_cell::PlainDoor;
use no_memory::NoMemory;
use outside::{Gate, MemSink, Pace, Port, Streams};
use std::alloc::Global;
use std::io::{Read, Write};
use std::net::{IpAddr, Ipv4Addr, Net, SocketAddr, TcpListener, TcpStream, UdpSocket};
use std::test::Fail;
use std::thread::{self, join_mut};
use std::time::Duration;
use trial_runs::{AllLent, PLAIN, QUERY, Setting, devices_of, lent_of, run};

/// What the client gets: the header of an answer, the question, and one address of the first group's pool.
const REPLY: &[u8] = &[
    0x12, 0x34, 0x85, 0, 0, 1, 0, 1, 0, 0, 0, 0, 3, b'w', b'w', b'w', 3, b'c', b'd', b'n', 7, b'e',
    b'x', b'a', b'm', b'p', b'l', b'e', 0, 0, 1, 0, 1, 0xc0, 12, 0, 1, 0, 1, 0, 0, 0, 20, 0, 4,
    192, 0, 2, 1,
];

/// How long the client waits for a reply, and the pace for the client's word, in seconds.
const LONGEST_WAIT: u64 = 2;

/// How often the client looks whether a port is bound.
const LOOKS: u32 = 100_000_000;

/// A socket on loopback, whose `recv_from` waits for a while.
fn socket_of<N: Net>(net: &N) -> Option<UdpSocket> {
    let socket = UdpSocket::bind(net, "127.0.0.1:0").ok()?;
    let wait = Some(Duration::from_secs(LONGEST_WAIT));
    socket.set_read_timeout(wait).ok()?;
    Some(socket)
}

/// A pace whose `done` waits for the client's word, and then ends the lanes.
#[derive(Drop)]
struct WordPace<'a> {
    word: UdpSocket,
    flag: &'a StopFlag,
}

impl Pace for WordPace<'_> {
    ghost told = { λ _. record { past = None; faults = 0 } };

    fn before(&mut self, newest: u64) {
        let _ = newest;
    }

    fn done(&mut self, newest: u64) {
        let _ = newest;
        let mut word = [0u8; 1];
        let _ = self.word.recv_from(&mut word);
        self.flag.set();
    }
}

/// The ports of UDP and TCP that are served, as soon as there are both.
fn ports_of(udp: &SharedUdp, tcp: &SharedTcp) -> Option<(u16, u16)> {
    for _ in 0..LOOKS {
        if let (Some(udp_port), Some(tcp_port)) = (udp.port(), tcp.port()) {
            return Some((udp_port, tcp_port));
        }
        thread::yield_now();
    }
    None
}

/// A port on loopback.
fn server_at(port: u16) -> SocketAddr {
    SocketAddr::new(IpAddr::V4(Ipv4Addr::from_bits(0x7f00_0001)), port)
}

/// Asks by a datagram. Answers whether the reply was the right one.
fn ask(client: &UdpSocket, port: u16) -> bool {
    let mut buffer = [0u8; 512];
    if client.send_to(QUERY, server_at(port)).is_err() {
        return false;
    }
    match client.recv_from(&mut buffer) {
        Ok((len, _)) => len <= 512 && &buffer[..len] == REPLY,
        Err(_) => false,
    }
}

/// Asks in a conversation, by a message behind its length. Answers whether the reply was the right one behind its own.
fn converse<N: Net<Listener = TcpListener, Stream = TcpStream>>(net: &N, port: u16) -> bool {
    let Ok(mut client) = TcpStream::connect(net, server_at(port)) else {
        return false;
    };
    let wait = Some(Duration::from_secs(LONGEST_WAIT));
    let length = [0, QUERY.len() as u8];
    if client.set_read_timeout(wait).is_err()
        || client.write_all(&length).is_err()
        || client.write_all(QUERY).is_err()
    {
        return false;
    }
    let mut head = [0u8; 2];
    let mut reply = [0u8; REPLY.len()];
    client.read_exact(&mut head).is_ok()
        && client.read_exact(&mut reply).is_ok()
        && head == [0, REPLY.len() as u8]
        && reply.as_slice() == REPLY
}

/// Asks once each way, and gives the word. Answers whether both replies were the right ones.
fn ask_both<N: Net<Listener = TcpListener, Stream = TcpStream>>(
    net: &N,
    client: &UdpSocket,
    udp: &SharedUdp,
    tcp: &SharedTcp,
    word: SocketAddr,
) -> bool {
    let are_right = match ports_of(udp, tcp) {
        Some((udp_port, tcp_port)) => ask(client, udp_port) && converse(net, tcp_port),
        None => false,
    };
    client.send_to(b".", word).is_ok() && are_right
}

const WORDS: &[&str] = &[
    "glb",
    "serve",
    "t",
    "--listen",
    "127.0.0.1:0",
    "--workers",
    "2",
    "--tcp",
    "127.0.0.1:0",
];

const SETTING: Setting = Setting {
    words: WORDS,
    ..PLAIN
};

/// `serve` on loopback over the region, with an empty feed, and no room for control text.
fn lent_over<P: Port + Drop, Q: Streams + Drop, G: Gate + Drop, M: Pace + Drop>(
    alloc: Global,
    lanes: Vec<Lane<P, G, PlainDoor>>,
    stream: StreamLane<Q, G, PlainDoor>,
    pace: M,
) -> Result<AllLent<P, Q, G, PlainDoor, M>, NoMemory>
    requires { vec_len lanes ≡ MOST_VIEWERS }
    ensures { IfOk result (λ s. (vec_len s.lanes ≡ MOST_VIEWERS) × (vec_len s.more ≡ 3)) }
{
    let mut devices = devices_of(alloc, SETTING, b"")?;
    devices.outputs.out = MemSink::new(alloc, 0, Vec::new(alloc))?;
    Ok(lent_of(devices, lanes, stream, pace))
}

#[test]
fn serves_a_client_on_loopback(rt: HostRuntime) -> Result<(), Fail> {
    let (udp, tcp, flag) = (SharedUdp::new(), SharedTcp::new(), StopFlag::new());
    let Network { lanes, stream } = lanes_of(rt.alloc(), &rt, &udp, &tcp, &flag)?;
    let client = socket_of(&rt).ok_or("no client")?;
    let word = socket_of(&rt).ok_or("no socket for the word")?;
    let to = word.local_addr().map_err(|_| "no address")?;
    let mut lent = lent_over(rt.alloc(), lanes, stream, WordPace { word, flag: &flag })?;
    let mut asking = || ask_both(&rt, &client, &udp, &tcp, to);
    let mut serving = || -> Status
        requires { (vec_len lent.lanes ≡ MOST_VIEWERS) × (vec_len lent.more ≡ 3) }
    { run(&rt, rt.alloc(), &mut lent, 1_000_000) };
    let (are_right, status) = join_mut(&rt, &mut asking, &mut serving);
    assert!(rt; are_right);
    assert!(rt; status == Status::Ok);
    Ok(())
}
