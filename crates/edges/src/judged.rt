//! What the system's answers about a socket come to.
ghost use Rattle.std.specs.Prelude.{◌≡◌};
ghost use Rattle.edges.specs.Judged.{arrival_of, has_number, is_broken, knock_of, sending_of};

use crate::peers::peer_of;
use outside::{Arrival, LARGEST_DATAGRAM, Sending};
use std::io::{self, Error};
use std::net::SocketAddr;

/// The numbers of Linux that say of a socket that it is none, or can't be used any more: EBADF, EPIPE, ENOTSOCK,
/// EOPNOTSUPP, ENOTCONN, ESHUTDOWN.
const BROKEN_NUMBERS: [u32; 6] = [9, 32, 88, 95, 107, 108];

/// Whether an error says that a socket is broken. Every other one says that a wait ran out or was broken off, or
/// concerns one datagram: whoever sends datagrams can bring those about, by a source port 0 or an address without a
/// route.
#[tactic(auto, unfolding(crate::specs::Judged::is_broken))]
pub fn is_broken(error: &Error) -> bool
    ensures { result ≡ is_broken error.now }
{
    match error.raw_os_error() {
        Some(code) => BROKEN_NUMBERS.contains(&code.unsigned_abs()),
        None => false,
    }
}

/// What came of a wait for a datagram, by how many octets were seen and who sent them, or by the error.
pub fn arrival_of(received: io::Result<(usize, SocketAddr)>) -> Arrival
    ensures { result ≡ arrival_of received }
{
    match received {
        Ok((len, at)) if len <= LARGEST_DATAGRAM => Arrival::Arrived(len, peer_of(at)),
        Ok(_) => Arrival::Oversize,
        Err(error) if is_broken(&error) => Arrival::Failed,
        Err(_) => Arrival::Idle,
    }
}

/// What came of a reply. One that the system refuses counts as lost, as one that is lost on its way.
pub fn sending_of(sent: io::Result<usize>) -> Sending
    ensures { result ≡ sending_of sent }
{
    match sent {
        Err(error) if is_broken(&error) => Sending::Failed,
        _ => Sending::Sent,
    }
}

/// The numbers of Linux that say of a listener that it is none, or can't be used any more: EBADF, EINVAL, ENOTSOCK.
const DEAF_NUMBERS: [u32; 3] = [9, 22, 88];

/// The numbers of Linux that concern one connection, which was gone before it was taken: EPERM, EINTR, ENONET, EPROTO,
/// ENOPROTOOPT, EOPNOTSUPP, ENETDOWN, ENETUNREACH, ECONNABORTED, EHOSTDOWN, EHOSTUNREACH.
const GONE_NUMBERS: [u32; 11] = [1, 4, 64, 71, 92, 95, 100, 101, 103, 112, 113];

/// The numbers of Linux that say that there is no descriptor to be had: ENFILE, EMFILE.
const FULL_NUMBERS: [u32; 2] = [23, 24];

/// What came of a try to take a connection, where none was had.
#[derive(Clone, Copy, Debug, PartialEq, Eq)]
pub enum Knock {
    /// The listener is broken.
    Deaf,
    /// One was gone before it was taken. The next one may be had at once.
    Gone,
    /// There is no descriptor to be had.
    Full,
    /// None waits, or the system is short of something for a while.
    Quiet,
}

/// Whether the number of an error is one of these.
#[tactic(auto, unfolding(crate::specs::Judged::has_number))]
fn has_number(error: &Error, numbers: &[u32]) -> bool
    ensures { result ≡ has_number numbers.now error.now }
{
    match error.raw_os_error() {
        Some(code) => numbers.contains(&code.unsigned_abs()),
        None => false,
    }
}

/// What an error of a listener that takes connections comes to.
pub fn knock_of(error: &Error) -> Knock
    ensures { result ≡ knock_of error.now }
{
    if has_number(error, &DEAF_NUMBERS) {
        Knock::Deaf
    } else if has_number(error, &GONE_NUMBERS) {
        Knock::Gone
    } else if has_number(error, &FULL_NUMBERS) {
        Knock::Full
    } else {
        Knock::Quiet
    }
}
