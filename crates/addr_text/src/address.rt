//! Addresses, and what is made of them.
ghost use Rattle.std.specs.Prelude.{◌≡◌};
ghost use Rattle.addr_text.specs.Addresses.{bits_of};

/// An address of either family, as a number: its first octet is the highest.
#[derive(Clone, Copy, Debug, PartialEq, Eq, PartialOrd, Ord, Hash)]
pub enum Addr {
    /// An IPv4 address of 32 bits.
    V4(u32),
    /// An IPv6 address of 128 bits.
    V6(u128),
}

impl Addr {
    /// How many bits an address of the family has: 32 or 128.
    pub fn bits(self) -> u8
        ensures { result ≡ bits_of self }
    {
        match self {
            Addr::V4(_) => 32,
            Addr::V6(_) => 128,
        }
    }
}

/// The addresses whose first `len` bits are those of `addr`.
#[derive(Clone, Copy, Debug, PartialEq, Eq, PartialOrd, Ord, Hash)]
pub struct Prefix {
    /// The address, whose bits beyond the length are 0 where it was read.
    pub addr: Addr,
    /// 0 to 32 for IPv4, 0 to 128 for IPv6, where it was read.
    pub len: u8,
}

/// Where a datagram came from, or goes to.
#[derive(Clone, Copy, Debug, PartialEq, Eq, PartialOrd, Ord, Hash)]
pub struct Peer {
    /// The host's address.
    pub addr: Addr,
    /// The UDP port.
    pub port: u16,
}

/// Where a server listens.
#[derive(Clone, Copy, Debug, PartialEq, Eq, PartialOrd, Ord, Hash)]
pub struct Listen {
    /// An address of this host.
    pub addr: Addr,
    /// The port; 0 lets the system choose one.
    pub port: u16,
}
