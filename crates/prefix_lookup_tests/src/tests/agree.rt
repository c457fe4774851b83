//! Which addresses have the same first bits.
ghost use Rattle.std.specs.Prelude.{◌≡◌, ◌<◌, ◌≤◌, ◌/◌, ◌-◌, ◌^◌, ◌==◌};
ghost use Rattle.addr_text.specs.Addresses.{bits_of};
ghost use Rattle.prefix_lookup.specs.Longest.{IsAddress, agrees, holds};

use addr_text::{Addr, Prefix};

/// How many bits an address has, beyond which its number has none.
pub fn width(addr: Addr) -> u8
    ensures bits { result ≡ bits_of addr }
    ensures fits { IsAddress addr }
{
    match addr {
        Addr::V4(bits) => {
            let _ = bits;
            32
        }
        Addr::V6(bits) => {
            let _ = bits;
            128
        }
    }
}

/// Whether two numbers of so many bits have the same first `len` bits.
fn agree_in(bits: u8, len: u8, a: u128, b: u128) -> bool
    requires bits { bits ≤ 128 }
    requires len { len ≤ bits }
    requires a { a < 2 ^ bits }
    requires b { b < 2 ^ bits }
    ensures { result ≡ (a / 2 ^ (bits - len) == b / 2 ^ (bits - len)) }
{
    len == 0 || a >> (bits - len) == b >> (bits - len)
}

/// Whether two addresses are of one family and have the same first `len` bits.
pub fn agree(len: u8, a: Addr, b: Addr) -> bool
    requires { len ≤ bits_of a }
    ensures { result ≡ agrees len a b }
{
    match (a, b) {
        (Addr::V4(a), Addr::V4(b)) => agree_in(32, len, u128::from(a), u128::from(b)),
        (Addr::V6(a), Addr::V6(b)) => agree_in(128, len, a, b),
        _ => false,
    }
}

/// Whether a prefix holds an address.
pub fn holds(prefix: Prefix, addr: Addr) -> bool
    requires { prefix.len ≤ bits_of prefix.addr }
    ensures { result ≡ holds prefix addr }
{
    agree(prefix.len, prefix.addr, addr)
}
