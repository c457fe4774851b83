//! The two families of addresses, whose addresses are the numbers of so many bits.
ghost use Rattle.std.specs.Prelude.{◌≡◌};
ghost use Rattle.prefix_lookup.specs.Family.{bits_in, number_in};

use addr_text::Addr;

/// A family of addresses.
#[derive(Clone, Copy, Debug, PartialEq, Eq)]
pub enum Family {
    V4,
    V6,
}

impl Family {
    /// How many bits its addresses have.
    pub fn bits(self) -> u8
        ensures { result ≡ bits_in self }
    {
        match self {
            Family::V4 => 32,
            Family::V6 => 128,
        }
    }

    /// The number of an address, if it is of this family.
    pub fn number(self, addr: Addr) -> Option<u128>
        ensures { result ≡ number_in self addr }
    {
        match (self, addr) {
            (Family::V4, Addr::V4(number)) => Some(u128::from(number)),
            (Family::V6, Addr::V6(number)) => Some(number),
            _ => None,
        }
    }
}
