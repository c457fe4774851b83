//! Sockets at one place, on loopback.
use super::{bind_beside, grow_receive_buffer, receive_buffer, set_receive_buffer};
use std::io::ErrorKind;
use std::net::{Net, UdpSocket};

/// Loopback addresses of both families, at a port that the system picks.
const FAMILIES: &[&str] = &["127.0.0.1:0", "[::1]:0"];

/// Whether two further sockets come to the place of a first one, and none by std's own call, before or after.
fn come_beside<N: Net>(net: &N, at: &str) -> Option<bool> {
    let first = UdpSocket::bind(net, at).ok()?;
    let place = first.local_addr().ok()?;
    let before = UdpSocket::bind(net, place);
    let second = bind_beside(net, &first).ok()?;
    let third = bind_beside(net, &first).ok()?;
    let after = UdpSocket::bind(net, place);
    Some(
        second.local_addr().ok()? == place
            && third.local_addr().ok()? == place
            && matches!(before, Err(error) if error.kind() == ErrorKind::AddrInUse)
            && matches!(after, Err(error) if error.kind() == ErrorKind::AddrInUse),
    )
}

/// The family in which they don't.
fn alone<N: Net>(net: &N, families: &[&'static str]) -> Option<&'static str> {
    for at in families {
        if come_beside(net, *at) != Some(true) {
            return Some(*at);
        }
    }
    None
}

#[test]
fn sockets_at_one_place(rt: HostRuntime) {
    assert_eq!(rt; alone(&rt, FAMILIES), None);
}

/// How much may wait at a socket that was asked for little, after it was asked for more, and for less again.
fn sizes<N: Net>(net: &N) -> Option<(i32, i32, i32)> {
    let socket = UdpSocket::bind(net, "127.0.0.1:0").ok()?;
    set_receive_buffer(&socket, 4_096).ok()?;
    let small = receive_buffer(&socket).ok()?;
    grow_receive_buffer(&socket, 65_536).ok()?;
    let grown = receive_buffer(&socket).ok()?;
    grow_receive_buffer(&socket, 4_096).ok()?;
    Some((small, grown, receive_buffer(&socket).ok()?))
}

/// Linux counts twice what was asked for.
#[test]
fn receive_buffers_grow_alone(rt: HostRuntime) {
    assert_eq!(rt; sizes(&rt), Some((8_192, 131_072, 131_072)));
}
