//! Reading addresses, prefixes and listen texts.
ghost use Rattle.std.specs.Prelude.{◌≡◌, ◌≤◌, option_map, option_copied, length};
ghost use Rattle.addr_text.specs.Numbers.{in_base};
ghost use Rattle.addr_text.specs.Addresses.{addr_of, bits_of, host_of, in_brackets, is_clear, listen_of, prefix_of, v4_of, v6_of};

use crate::digits::read_number;
use crate::groups::{v4_numbers, v6_groups};
use crate::{Addr, Listen, Prefix};
use text_parts::{split_first, split_last};

/// The address of four octets, the first the highest.
fn v4_value(numbers: &[u8]) -> u32
    requires { length numbers.now ≤ 4 }
    ensures { result ≡ in_base 256 numbers.now }
{
    let mut value = 0;
    for number in numbers {
        value = 256 * value + u32::from(*number);
    }
    value
}

/// The address of eight groups, the first the highest.
fn v6_value(groups: &[u16]) -> u128
    requires { length groups.now ≤ 8 }
    ensures { result ≡ in_base 65536 groups.now }
{
    let mut value = 0;
    for group in groups {
        value = 65536 * value + u128::from(*group);
    }
    value
}

fn read_v4(text: &[u8]) -> Option<Addr>
    ensures { result ≡ v4_of text.now }
{
    let numbers = v4_numbers(text)?;
    Some(Addr::V4(v4_value(numbers.as_slice())))
}

fn read_v6(text: &[u8]) -> Option<Addr>
    ensures { result ≡ v6_of text.now }
{
    let groups = v6_groups(text)?;
    Some(Addr::V6(v6_value(groups.as_slice())))
}

/// Reads an IPv4 or IPv6 address (RFC 4291 section 2.2, forms 1 and 2, either case); None where the text is neither.
#[tactic(auto, unfolding(crate::specs::Addresses::addr_of))]
pub fn read_addr(text: &[u8]) -> Option<Addr>
    ensures { result ≡ addr_of text.now }
{
    match read_v4(text) {
        Some(addr) => Some(addr),
        None => read_v6(text),
    }
}

/// Whether no bit of an address is set beyond its first so many.
fn is_clear(addr: Addr, len: u8) -> bool
    requires { len ≤ bits_of addr }
    ensures { result ≡ is_clear addr len }
{
    match addr {
        Addr::V4(n) => u64::from(n) % (1u64 << (32 - len)) == 0,
        Addr::V6(n) => len == 0 && n == 0 || len > 0 && n % (1u128 << (128 - len)) == 0,
    }
}

/// Reads a prefix: an address, `/`, and a length of 0 to 32 or 0 to 128 beyond which no bit of the address is set.
#[tactic(auto, unfolding(crate::specs::Addresses::prefix_of))]
pub fn read_prefix(text: &[u8]) -> Option<Prefix>
    ensures { result ≡ prefix_of text.now }
{
    let (front, back) = split_first(text, b'/');
    let addr = read_addr(front)?;
    let len = read_number(back, u32::from(addr.bits()))? as u8;
    if is_clear(addr, len) {
        Some(Prefix { addr, len })
    } else {
        None
    }
}

/// What stands between a `[` at the front and a `]` at the end.
fn in_brackets(text: &[u8]) -> Option<&[u8]>
    ensures { option_copied result ≡ in_brackets text.now }
{
    match text {
        [b'[', inner @ .., b']'] => Some(inner),
        _ => None,
    }
}

/// An IPv4 text, or an IPv6 text in brackets.
fn read_host(text: &[u8]) -> Option<Addr>
    ensures { result ≡ host_of text.now }
{
    match read_v4(text) {
        Some(addr) => Some(addr),
        None => read_v6(in_brackets(text)?),
    }
}

/// Reads where to listen: `V4:PORT` or `[V6]:PORT`, the port 0 to 65535 without leading zeros.
#[tactic(auto, unfolding(crate::specs::Addresses::listen_of))]
pub fn read_listen(text: &[u8]) -> Option<Listen>
    ensures { result ≡ listen_of text.now }
{
    let (front, back) = split_last(text, b':');
    let addr = read_host(front)?;
    let port = read_number(back, u32::from(u16::MAX))? as u16;
    Some(Listen { addr, port })
}
