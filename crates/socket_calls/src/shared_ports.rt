//! Sockets of UDP that have one address and port together (SO_REUSEPORT), how much may wait at one (SO_RCVBUF), and
//! connections of TCP that send at once (TCP_NODELAY).
//!
//! Proved is that no descriptor is taken from a call that failed.
ghost use Rattle.std.specs.Prelude.{IfErr, IfOk, pos, ◌<ℤ◌, ◌≤ℤ◌};
ghost use Rattle.std.specs.Net.Udp.{udp_raw_fd};

use libc::net as c;
use os::FromRawFd;
use std::io::{Error, ErrorKind, Result};
use std::net::{Net, SocketAddr, UdpSocket};
use std::os::fd::{AsRawFd, RawFd};

/// The first descriptor that is no standard stream's.
const FIRST_DESCRIPTOR: i32 = 3;

/// How many octets of an option's value are a number.
const NUMBER: u32 = 4;

/// How many octets an address takes at most.
const LONGEST_ADDRESS: u32 = 128;

/// A number as the value of an option.
fn value_of(number: i32) -> [u8; 16] {
    let mut value = [0u8; 16];
    value[..4].copy_from_slice(&number.to_ne_bytes());
    value
}

/// The error of a call that failed, which answers a negative number.
fn check(answer: i32) -> Result<()>
    ensures fine { IfOk result (λ _. pos 0 ≤ℤ answer) }
    ensures failed { IfErr result (λ _. answer <ℤ pos 0) }
{
    if answer < 0 {
        Err(Error::from_raw_os_error(os::errno()))
    } else {
        Ok(())
    }
}

/// A socket for addresses of the same family, which is not bound. Where a standard stream was closed, the system may give
/// a socket its descriptor, and whoever reads that stream would read datagrams: such a socket is given up.
fn unbound(like: &UdpSocket) -> Result<UdpSocket>
    ensures { IfOk result (λ s. pos 3 ≤ℤ udp_raw_fd s) }
{
    let kind = c::SOCK_DGRAM | c::SOCK_CLOEXEC;
    let fd = match like.local_addr()? {
        SocketAddr::V4(_) => unsafe { c::socket(c::AF_INET, kind, 0) },
        SocketAddr::V6(_) => unsafe { c::socket(c::AF_INET6, kind, 0) },
    };
    check(fd)?;
    let socket = unsafe { UdpSocket::from_raw_fd(fd) };
    if socket.as_raw_fd() < FIRST_DESCRIPTOR {
        return Err(Error::from(ErrorKind::InvalidInput));
    }
    Ok(socket)
}

/// Lets a socket be one of several.
fn allow_others(socket: &UdpSocket) -> Result<()> {
    let fd = socket.as_raw_fd();
    check(unsafe { c::setsockopt(fd, c::SOL_SOCKET, c::SO_REUSEPORT, &value_of(1), NUMBER) })
}

/// Binds a socket where another one is. From now on the system hands each datagram to one of all that are there, and those
/// of one sender's port to the same one.
///
/// The first one is let be one of several only now. So it could be bound only where no socket was at all, and only sockets
/// of the same user that ask for it come beside it.
///
/// The new socket has no standard stream's descriptor. Where it can't be had, the first one may have the leave all the same.
pub fn bind_beside<N: Net>(_net: &N, first: &UdpSocket) -> Result<UdpSocket>
    ensures { IfOk result (λ s. pos 3 ≤ℤ udp_raw_fd s) }
{
    let socket = unbound(first)?;
    allow_others(first)?;
    allow_others(&socket)?;
    let mut place = [0u8; c::_SS_SIZE];
    let mut len = LONGEST_ADDRESS;
    check(unsafe { c::getsockname(first.as_raw_fd(), &mut place, &mut len) })?;
    let len = len.min(LONGEST_ADDRESS);
    check(unsafe { c::bind(socket.as_raw_fd(), &place, len) })?;
    Ok(socket)
}

/// Lets a listener's connections send at once what they write, however little it is: they have the option from it.
pub fn send_at_once(listener: RawFd) -> Result<()> {
    check(unsafe {
        c::setsockopt(
            listener,
            c::IPPROTO_TCP,
            c::TCP_NODELAY,
            &value_of(1),
            NUMBER,
        )
    })
}

/// How much may wait at a socket, as the system counts it.
fn receive_buffer(socket: &UdpSocket) -> Result<i32> {
    let mut value = [0u8; 16];
    let mut len = NUMBER;
    let fd = socket.as_raw_fd();
    check(unsafe { c::getsockopt(fd, c::SOL_SOCKET, c::SO_RCVBUF, &mut value, &mut len) })?;
    Ok(i32::from_ne_bytes([value[0], value[1], value[2], value[3]]))
}

/// Asks for that many octets, of which the system gives no more than it allows.
fn set_receive_buffer(socket: &UdpSocket, octets: i32) -> Result<()> {
    let fd = socket.as_raw_fd();
    check(unsafe { c::setsockopt(fd, c::SOL_SOCKET, c::SO_RCVBUF, &value_of(octets), NUMBER) })
}

/// Lets up to that many octets of datagrams wait at a socket, or as many as the system allows. Where it has more already
/// it keeps them: to ask could only take some away, so another socket is asked first.
pub fn grow_receive_buffer(socket: &UdpSocket, octets: i32) -> Result<()> {
    let other = unbound(socket)?;
    set_receive_buffer(&other, octets)?;
    if receive_buffer(&other)? > receive_buffer(socket)? {
        set_receive_buffer(socket, octets)?;
    }
    Ok(())
}

#[cfg(test)]
mod tests;
