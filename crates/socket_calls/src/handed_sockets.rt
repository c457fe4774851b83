//! Sockets that were handed in by who started the process, as systemd does it (LISTEN_FDS and LISTEN_PID, sd_listen_fds(3)).
//! They outlive the process: what comes while none runs waits in their buffers.
//!
//! Proved is that no other descriptors are looked at than those that may have been handed in. That a descriptor is what the
//! environment says of it has to be trusted.
ghost use Rattle.std.specs.Prelude.{◌≡◌, ◌+◌, ◌<◌, ◌≤◌, ◌≤ℤ◌, IfOk, IfSome, pos};
ghost use Rattle.std.specs.Net.Udp.{udp_raw_fd};
ghost use Rattle.std.specs.Net.Tcp.{listener_raw_fd};

use libc::net as c;
use libc::types::pollfd;
use os::FromRawFd;
use std::net::{Net, SocketAddr, TcpListener, UdpSocket};
use std::os::fd::{AsRawFd, IntoRawFd};

/// The descriptor of the first one.
const FIRST: i32 = 3;

/// How many are taken at most.
pub const MOST_HANDED: u32 = 64;

/// The number that a variable of the environment has.
fn number_of(name: &[u8]) -> Option<u32> {
    let mut text = [0u8; 16];
    let len = os::env(name, &mut text);
    str::from_utf8(&text[..len]).ok()?.parse().ok()
}

/// Why no socket can be had of those that were handed in: the one at the place is connected, or does not listen; or more
/// were handed in than are looked at.
#[derive(Clone, Copy, Debug, PartialEq, Eq)]
pub struct Unfit;

/// How many descriptors were handed in. There are none where the environment means another process, from which this one
/// has it.
///
/// # Errors
///
/// `Unfit` where there are more than are looked at.
pub fn handed_in() -> Result<u32, Unfit>
    ensures { IfOk result (λ count. count ≤ 64) }
{
    match (number_of(b"LISTEN_PID"), number_of(b"LISTEN_FDS")) {
        (Some(pid), Some(count)) if i64::from(pid) == i64::from(libc::getpid()) => {
            if count > MOST_HANDED {
                return Err(Unfit);
            }
            Ok(count)
        }
        _ => Ok(0),
    }
}

/// The descriptor of that number, if it was handed in.
fn descriptor(number: u32) -> Option<i32>
    ensures place { IfSome result (λ fd. fd ≡ pos (3 + number)) }
    ensures few { IfSome result (λ fd. number < 64) }
    ensures valid { IfSome result (λ fd. pos 0 ≤ℤ fd) }
{
    match handed_in() {
        Ok(count) if number < count => Some(FIRST + number as i32),
        _ => None,
    }
}

/// Whether a descriptor is a socket of TCP: only there the option can be read.
fn is_tcp(fd: i32) -> bool {
    let mut value = [0u8; 16];
    let mut len = 4u32;
    let answer = unsafe { c::getsockopt(fd, c::IPPROTO_TCP, c::TCP_NODELAY, &mut value, &mut len) };
    answer >= 0
}

/// Whether a socket of TCP takes connections: of one that does not, the system says that it hung up.
fn is_listening(fd: i32) -> bool {
    let mut fds = [pollfd {
        fd,
        events: c::POLLIN,
        revents: 0,
    }];
    c::poll(&mut fds, 0) >= 0 && fds[0].revents & (c::POLLHUP | c::POLLNVAL) == 0
}

/// Takes the socket of that number, if it is one of UDP that is bound there; any other descriptor is left as it is. Take
/// each number once.
///
/// # Errors
///
/// `Unfit` where it is connected, and so takes datagrams of one peer alone.
pub fn take_udp<N: Net>(
    _net: &N,
    number: u32,
    place: SocketAddr,
) -> Result<Option<UdpSocket>, Unfit>
    ensures place { IfOk result (λ taken. IfSome taken (λ s. udp_raw_fd s ≡ pos (3 + number))) }
    ensures few { IfOk result (λ taken. IfSome taken (λ _. number < 64)) }
{
    let Some(fd) = descriptor(number) else {
        return Ok(None);
    };
    let socket = unsafe { UdpSocket::from_raw_fd(fd) };
    let is_there = socket.as_raw_fd() == fd
        && !is_tcp(fd)
        && socket.local_addr().ok() == Some(place);
    if is_there && socket.peer_addr().is_err() {
        return Ok(Some(socket));
    }
    let _ = socket.into_raw_fd();
    if is_there { Err(Unfit) } else { Ok(None) }
}

/// Takes the listener of that number, if it is one of TCP that is bound there, and lets it wait for nothing; any other
/// descriptor is left as it is. Take each number once.
///
/// # Errors
///
/// `Unfit` where it is one of TCP that is bound there and does not listen, as a connection.
pub fn take_tcp<N: Net>(
    _net: &N,
    number: u32,
    place: SocketAddr,
) -> Result<Option<TcpListener>, Unfit>
    ensures place { IfOk result (λ taken.
        IfSome taken (λ l. listener_raw_fd l ≡ pos (3 + number))) }
    ensures few { IfOk result (λ taken. IfSome taken (λ _. number < 64)) }
{
    let Some(fd) = descriptor(number) else {
        return Ok(None);
    };
    let listener = unsafe { TcpListener::from_raw_fd(fd) };
    let is_there = listener.as_raw_fd() == fd
        && is_tcp(fd)
        && listener.local_addr().ok() == Some(place);
    if is_there && is_listening(fd) && listener.set_nonblocking(true).is_ok() {
        return Ok(Some(listener));
    }
    let _ = listener.into_raw_fd();
    if is_there { Err(Unfit) } else { Ok(None) }
}

#[cfg(test)]
mod tests;
