//! A client's subnet.
ghost use Rattle.std.specs.Prelude.{◌≡◌, ◌==◌, ◌≤◌, ◌<◌, ◌-◌, ◌%◌, ◌^◌, ◌/◌, length};
ghost use Rattle.client_subnet.specs.Options.{subnet_in, is_subnet_of, number_of};
ghost use Rattle.client_subnet.specs.View.{HasForm};

use crate::field::{u32_padded, u128_padded};
use crate::writing::{IPV4, IPV6};
use addr_text::Addr;
use dns_wire::octets::u16_in;

/// A client's subnet (RFC 7871 section 6).
#[derive(Clone, Copy, Debug, PartialEq, Eq)]
pub struct SubnetOpt {
    /// How many bits of the address are given.
    pub source: u8,
    /// The address, of the option's family and padded with zeros.
    pub addr: Addr,
}

/// What the options of a query say of the client's subnet.
#[derive(Clone, Copy, Debug, PartialEq, Eq)]
pub enum ClientSubnet {
    /// There is no such option.
    None,
    /// It is of family 0 and empty; no reply repeats it.
    Ignored,
    Given(SubnetOpt),
    /// It breaks its format, or the options do.
    Bad,
}

/// Whether no bit of a number of so many bits is set beyond the first `source`.
fn ends_in_zeros(bits: u8, source: u8, number: u128) -> bool
    requires source { source ≤ bits }
    requires bits { bits ≤ 128 }
    requires fits { number < 2 ^ bits }
    ensures { result ≡ (number % 2 ^ (bits - source) == 0) }
{
    if source == 0 {
        return number == 0;
    }
    number % (1 << (bits - source)) == 0
}

/// Whether the octets are a subnet of a family of so many bits, with that padded address.
fn is_subnet_of(bits: u8, number: u128, octets: &[u8]) -> bool
    requires bits { bits ≤ 128 }
    requires long { 4 ≤ length octets.now }
    requires fits { number < 2 ^ bits }
    requires number { number ≡ number_of (bits / 8) octets.now }
    ensures { result ≡ is_subnet_of bits octets.now }
{
    let source = octets[2];
    source <= bits
        && octets[3] == 0
        && octets.len() == 4 + (source as usize).div_ceil(8)
        && ends_in_zeros(bits, source, number)
}

/// What the octets of a client subnet say.
pub(crate) fn read_subnet(octets: &[u8]) -> ClientSubnet
    ensures exact { result ≡ subnet_in octets.now }
    ensures form { HasForm result }
{
    if octets.len() < 4 {
        return ClientSubnet::Bad;
    }
    let source = octets[2];
    match u16_in(octets, 0) {
        0 if octets.len() == 4 && source == 0 && octets[3] == 0 => ClientSubnet::Ignored,
        IPV4 => {
            let number = u32_padded(&octets[4..]);
            if is_subnet_of(32, u128::from(number), octets) {
                ClientSubnet::Given(SubnetOpt {
                    source,
                    addr: Addr::V4(number),
                })
            } else {
                ClientSubnet::Bad
            }
        }
        IPV6 => {
            let number = u128_padded(&octets[4..]);
            if is_subnet_of(128, number, octets) {
                ClientSubnet::Given(SubnetOpt {
                    source,
                    addr: Addr::V6(number),
                })
            } else {
                ClientSubnet::Bad
            }
        }
        _ => ClientSubnet::Bad,
    }
}
