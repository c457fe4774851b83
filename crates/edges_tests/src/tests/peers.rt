//! Addresses of the system, and the hosts that they name.
use addr_text::{Addr, Peer};
use std::net::{IpAddr, Ipv4Addr, Ipv6Addr, SocketAddr};

/// Who has that address of the system.
pub fn peer_of(at: SocketAddr) -> Peer {
    let addr = match at.ip() {
        IpAddr::V4(ip) => Addr::V4(ip.to_bits()),
        IpAddr::V6(ip) => Addr::V6(ip.to_bits()),
    };
    Peer {
        addr,
        port: at.port(),
    }
}

/// That address and port, for the system.
pub fn socket_addr(addr: Addr, port: u16) -> SocketAddr {
    let ip = match addr {
        Addr::V4(bits) => IpAddr::V4(Ipv4Addr::from_bits(bits)),
        Addr::V6(bits) => IpAddr::V6(Ipv6Addr::from_bits(bits)),
    };
    SocketAddr::new(ip, port)
}
