//! Where nothing was handed in. What comes where something was is in examples/handed_in.py.
use super::{handed_in, take_tcp, take_udp};
use std::net::{Net, OpenListener, TcpListener, UdpSocket};

/// Sockets that were bound here, and whether any of them is taken for one that was handed in.
fn take_own<N: Net>(net: &N) -> Option<bool> {
    let socket = UdpSocket::bind(net, "127.0.0.1:0").ok()?;
    let listener = TcpListener::bind(net, "127.0.0.1:0").ok()?;
    let place = socket.local_addr().ok()?;
    let other = listener.local_addr().ok()?;
    for number in 0..8u32 {
        let is_udp = take_udp(net, number, place).ok()?.is_some();
        if is_udp || take_tcp(net, number, other).ok()?.is_some() {
            return Some(true);
        }
    }
    Some(false)
}

#[test]
fn nothing_was_handed_in(rt: HostRuntime) {
    assert_eq!(rt; handed_in(), Ok(0));
    assert_eq!(rt; take_own(&rt), Some(false));
}
