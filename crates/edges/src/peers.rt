//! Addresses of the system, and the hosts that they name.
ghost use Rattle.std.specs.Prelude.{◌≡◌};
ghost use Rattle.std.specs.Net.Socket.{socket_ip, socket_port};
ghost use Rattle.edges.specs.Peers.{IsIpOf, addr_of, peer_of};

use addr_text::{Addr, Peer};
use std::net::{IpAddr, Ipv4Addr, Ipv6Addr, SocketAddr};

/// An address of the system, as a number.
fn addr_of(ip: IpAddr) -> Addr
    ensures { result ≡ addr_of ip }
{
    match ip {
        IpAddr::V4(ip) => Addr::V4(ip.to_bits()),
        IpAddr::V6(ip) => Addr::V6(ip.to_bits()),
    }
}

/// Who sent a datagram. An IPv6 address keeps no scope.
pub(crate) fn peer_of(at: SocketAddr) -> Peer
    ensures { result ≡ peer_of at }
{
    Peer {
        addr: addr_of(at.ip()),
        port: at.port(),
    }
}

/// A number, as an address of the system.
fn ip_of(addr: Addr) -> IpAddr
    ensures { IsIpOf addr result }
{
    match addr {
        Addr::V4(bits) => IpAddr::V4(Ipv4Addr::from_bits(bits)),
        Addr::V6(bits) => IpAddr::V6(Ipv6Addr::from_bits(bits)),
    }
}

/// That address and port, for the system.
pub(crate) fn socket_addr(addr: Addr, port: u16) -> SocketAddr
    ensures { IsIpOf addr (socket_ip result) × (socket_port result ≡ port) }
{
    SocketAddr::new(ip_of(addr), port)
}
