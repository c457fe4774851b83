//! A port of UDP over a socket of its own, at an address and port that all ports have.
ghost use Rattle.std.specs.Prelude.{◌≡◌, ◌≢◌, ◌≤◌, ◌+◌, ℕ, Some, length};
ghost use Rattle.outside.specs.Port.{IsShort};
ghost use Rattle.past_log.specs.Port.{new_port};
ghost use Rattle.outside.specs.declared.limits.TheConstants.{LARGEST_DATAGRAM};

use crate::judged::{arrival_of, sending_of};
use crate::peers::socket_addr;
use addr_text::{Listen, Peer};
use outside::{Arrival, LARGEST_DATAGRAM, Opening, Port, Sending};
use past_log::{CallEvent, CallsPast, PortEvent, PortPast};
use socket_calls::{Unfit, bind_beside, grow_receive_buffer, handed_in, take_udp};
use std::io::ErrorKind;
use std::marker::Model;
use std::net::{Net, UdpSocket};
use std::os::fd::AsRawFd;
use std::sync::OnceLock;
use std::sync::atomic::AtomicU32;
use std::sync::atomic::Ordering::SeqCst;
use std::time::Duration;

/// How long `recv` waits for a datagram, in milliseconds. So long may a lane take to see that it is to stop.
const LONGEST_WAIT: u64 = 50;

/// How long `send` waits where the socket's buffer is full, in milliseconds. The reply is lost then: whoever fills the
/// buffer, with queries from neighbours that are not there, is not to hold up a lane.
const LONGEST_SEND: u64 = 1;

/// How many octets of datagrams may wait at a socket, where the system allows it: some 11,000 queries.
const RECEIVE_BUFFER: i32 = 4_194_304;

/// The first descriptor that is no standard stream's.
const FIRST_DESCRIPTOR: i32 = 3;

/// The first socket that was bound.
#[derive(Drop)]
struct Bound {
    socket: UdpSocket,
    /// Where it was asked to be bound.
    listen: Listen,
    /// The port that it has, also where the system chose it.
    port: u16,
    /// Whether it was handed in.
    is_handed: bool,
}

/// The address and port that ports share, with the first socket that was bound there. Ports are opened one after another,
/// before they are lent to threads.
#[derive(Drop)]
pub struct SharedUdp {
    bound: OnceLock<Bound>,
    /// The number of the next socket that was handed in, of which none was looked at from there on.
    next: AtomicU32,
}

impl SharedUdp {
    /// One that is not bound.
    pub fn new() -> SharedUdp {
        SharedUdp {
            bound: OnceLock::new(),
            next: AtomicU32::new(0),
        }
    }

    /// The UDP port of all sockets. There is none exactly where nothing is bound.
    pub fn port(&self) -> Option<u16> {
        Some(self.bound.get()?.port)
    }
}

/// The socket of a port.
#[derive(Drop)]
enum PortSocket<'a> {
    /// The first one that was bound.
    First(&'a UdpSocket),
    /// One of its own.
    Own(UdpSocket),
}

/// A port of UDP, as what it was asked and answered, and a count of the calls that failed. The first one that is opened
/// binds a socket, and each later one a socket of its own beside it. Where sockets at that place were handed in, each port
/// takes the next one of these, and ports for which none is left use the first one. What a datagram brings about is no
/// failure: a reply that the system refuses counts as lost.
#[derive(Drop)]
pub struct UdpPort<'a, N: Net> {
    net: &'a N,
    shared: &'a SharedUdp,
    socket: Option<PortSocket<'a>>,
    faults: u64,
    past: PortPast,
    /// The calls for a datagram, of which clauses alone speak.
    asked: CallsPast,
    /// The calls that handed a reply on, likewise.
    handed: CallsPast,
}

impl<'a, N: Net> Model for UdpPort<'a, N> {
    ghost use Rattle.edges.specs.Pasts.{PortNoted, IsAsked, IsGoing, IsHanded};

    ghost Value = { PortNoted };

    ghost view = { λ p. record { told = p.past.told; faults = p.faults } };

    ghost invariant = { λ p. IsGoing p.past.told
        × IsAsked p.asked.told p.past.told × IsHanded p.handed.told p.past.told };
}

impl<'a, N: Net> UdpPort<'a, N> {
    /// One at what these ports share, which is not open, without a fault so far.
    pub fn new(net: &'a N, shared: &'a SharedUdp) -> UdpPort<'a, N>
        ensures { result ≡ record { told = new_port; faults = 0 } }
    {
        UdpPort {
            net,
            shared,
            socket: None,
            faults: 0,
            past: PortPast::new(),
            asked: CallsPast::new(),
            handed: CallsPast::new(),
        }
    }
}

/// Limits how long the calls of a socket wait, and lets many datagrams wait at it, where the system does. One that was
/// handed in may be such that its calls wait for nothing: they do from now on. A process without a standard stream, whose
/// descriptor the next thing that is opened would get, gets none.
fn set_up(socket: &UdpSocket) -> Option<()> {
    socket.set_nonblocking(false).ok()?;
    let wait = Some(Duration::from_millis(LONGEST_WAIT));
    socket.set_read_timeout(wait).ok()?;
    let send = Some(Duration::from_millis(LONGEST_SEND));
    socket.set_write_timeout(send).ok()?;
    match grow_receive_buffer(socket, RECEIVE_BUFFER) {
        Err(error) if error.kind() == ErrorKind::InvalidInput => None,
        _ => Some(()),
    }
}

/// The next socket there that was handed in, if one is left.
fn next_handed<N: Net>(
    net: &N,
    shared: &SharedUdp,
    listen: Listen,
) -> Result<Option<UdpSocket>, Unfit> {
    let place = socket_addr(listen.addr, listen.port);
    for number in shared.next.load(SeqCst)..handed_in()? {
        shared.next.store(number.saturating_add(1), SeqCst);
        if let Some(socket) = take_udp(net, number, place)? {
            return Ok(Some(socket));
        }
    }
    Ok(None)
}

/// The first socket there: the first one that was handed in, or else one that is bound.
fn bind_first<N: Net>(net: &N, shared: &SharedUdp, listen: Listen) -> Option<Bound> {
    let Some(socket) = next_handed(net, shared, listen).ok()? else {
        return bind(net, listen);
    };
    set_up(&socket)?;
    Some(Bound {
        socket,
        listen,
        port: listen.port,
        is_handed: true,
    })
}

fn further<N: Net>(net: &N, shared: &SharedUdp, first: &Bound) -> Option<UdpSocket> {
    if !first.is_handed {
        return bind_beside(net, &first.socket).ok();
    }
    match next_handed(net, shared, first.listen).ok()? {
        Some(socket) => Some(socket),
        None => first.socket.try_clone().ok(),
    }
}

/// Binds the first socket there, where no other one is. Where a standard stream was closed at the start, the system may
/// give the socket its descriptor, and datagrams would be read as a feed: such a socket is given up.
fn bind<N: Net>(net: &N, listen: Listen) -> Option<Bound> {
    let socket = UdpSocket::bind(net, socket_addr(listen.addr, listen.port)).ok()?;
    if socket.as_raw_fd() < FIRST_DESCRIPTOR {
        return None;
    }
    set_up(&socket)?;
    let port = socket.local_addr().ok()?.port();
    Some(Bound {
        socket,
        listen,
        port,
        is_handed: false,
    })
}

/// A socket there: the first one, if none was bound yet, and else a further one beside it. A port that has one there keeps
/// it. There is none where the first one is bound elsewhere.
fn join<'a, N: Net>(
    net: &N,
    shared: &'a SharedUdp,
    held: Option<PortSocket<'a>>,
    listen: Listen,
) -> Option<PortSocket<'a>> {
    let Some(first) = shared.bound.get() else {
        let bound = bind_first(net, shared, listen)?;
        let _ = shared.bound.try_set(bound);
        return Some(PortSocket::First(&shared.bound.get()?.socket));
    };
    if first.listen != listen {
        return None;
    }
    if held.is_some() {
        return held;
    }
    let socket = further(net, shared, first)?;
    set_up(&socket)?;
    Some(PortSocket::Own(socket))
}

/// The socket, where there is one.
fn socket_of<'s>(socket: &'s Option<PortSocket<'_>>) -> Option<&'s UdpSocket> {
    match socket {
        Some(PortSocket::First(socket)) => Some(*socket),
        Some(PortSocket::Own(socket)) => Some(socket),
        None => None,
    }
}

/// Takes the next datagram, to the front of the buffer. One octet more than is answered has to be seen, so a buffer that
/// has no room for it is filled from a longer one.
fn take_datagram(socket: &UdpSocket, asked: &mut CallsPast, buffer: &mut [u8]) -> Arrival
    requires { LARGEST_DATAGRAM ≤ length buffer.old }
    ensures asked { asked.new.told ≡ asked.old.told + 1 }
    ensures short { IsShort result }
    ensures open { result ≢ Arrival.End }
    ensures buffer { length buffer.new ≡ length buffer.old }
{
    asked.note(&CallEvent::Made);
    if buffer.len() > LARGEST_DATAGRAM {
        return arrival_of(socket.recv_from(buffer));
    }
    let mut longer = [0u8; LARGEST_DATAGRAM + 1];
    let arrival = arrival_of(socket.recv_from(&mut longer));
    if let Arrival::Arrived(len, _) = arrival {
        buffer[..len].copy_from_slice(&longer[..len]);
    }
    arrival
}

/// Takes the next datagram of a socket, if there is one.
fn take_next(socket: Option<&UdpSocket>, asked: &mut CallsPast, buffer: &mut [u8]) -> Arrival
    requires { LARGEST_DATAGRAM ≤ length buffer.old }
    ensures asked { asked.old.told ≤ asked.new.told }
    ensures once { result ≢ Arrival.Failed → asked.new.told ≡ asked.old.told + 1 }
    ensures short { IsShort result }
    ensures open { result ≢ Arrival.End }
    ensures buffer { length buffer.new ≡ length buffer.old }
{
    match socket {
        Some(socket) => take_datagram(socket, asked, buffer),
        None => Arrival::Failed,
    }
}

/// Hands a reply on, where there is a socket.
fn send_next(
    socket: Option<&UdpSocket>,
    handed: &mut CallsPast,
    octets: &[u8],
    peer: Peer,
) -> Sending
    ensures later { handed.old.told ≤ handed.new.told }
    ensures once { result ≡ Sending.Sent → handed.new.told ≡ handed.old.told + 1 }
{
    match socket {
        Some(socket) => {
            handed.note(&CallEvent::Made);
            sending_of(socket.send_to(octets, socket_addr(peer.addr, peer.port)))
        }
        None => Sending::Failed,
    }
}

impl<N: Net> Port for UdpPort<'_, N> {
    ghost told = { λ p. record { past = Some p.told; faults = p.faults } };

    fn open(&mut self, listen: &Listen) -> Opening {
        self.past.note(&PortEvent::Opened(*listen));
        let held = self.socket.take();
        self.socket = join(self.net, self.shared, held, *listen);
        if self.socket.is_some() {
            Opening::Ready
        } else {
            self.faults = self.faults.saturating_add(1);
            Opening::Failed
        }
    }

    fn recv(&mut self, known: u64, buffer: &mut [u8]) -> Arrival {
        let arrival = take_next(socket_of(&self.socket), &mut self.asked, buffer);
        self.past.note(&PortEvent::Received(known, buffer, arrival));
        if let Arrival::Failed = arrival {
            self.faults = self.faults.saturating_add(1);
        }
        arrival
    }

    fn send(&mut self, octets: &[u8], peer: Peer, serial: u64) -> Sending {
        let sending = send_next(socket_of(&self.socket), &mut self.handed, octets, peer);
        self.past
            .note(&PortEvent::Tried(octets, peer, serial, sending));
        if let Sending::Failed = sending {
            self.faults = self.faults.saturating_add(1);
        }
        sending
    }
}
