//! Octets of a message, as they are read and appended: numbers have their high octet first (RFC 1035 section 2.3.2).
ghost use Rattle.std.specs.Prelude.{◌≡◌, ◌≤◌, ◌+◌, ◌++◌, length};
ghost use Rattle.arrayvec.specs.ArrayVec.{array_vec_len};
ghost use Rattle.byteorder.specs.Endian.{big_bytes};
ghost use Rattle.dns_wire.specs.Room.{HasRoom};
ghost use Rattle.dns_wire.specs.Wire.{u16_at, u32_at};

use crate::numbers::LARGEST_REPLY;
use arrayvec::ArrayVec;
use byteorder::{BigEndian, ByteOrder};

/// The octets of a reply.
pub type ReplyBuffer = ArrayVec<u8, LARGEST_REPLY>;

/// The number of 16 bits that begins at an octet.
pub fn u16_in(octets: &[u8], at: usize) -> u16
    requires { at + 2 ≤ length octets.now }
    ensures { result ≡ u16_at at octets.now }
{
    BigEndian::read_u16(&octets[at..at + 2])
}

/// The number of 32 bits that begins at an octet.
pub fn u32_in(octets: &[u8], at: usize) -> u32
    requires { at + 4 ≤ length octets.now }
    ensures { result ≡ u32_at at octets.now }
{
    BigEndian::read_u32(&octets[at..at + 4])
}

/// The octets of a number of 16 bits.
pub fn u16_octets(number: u16) -> [u8; 2]
    ensures { result ≡ big_bytes 2 number }
{
    let mut octets = [0; 2];
    BigEndian::write_u16(&mut octets, number);
    octets
}

/// The octets of a number of 32 bits, as of an IPv4 address (RFC 1035 section 3.4.1).
pub fn u32_octets(number: u32) -> [u8; 4]
    ensures { result ≡ big_bytes 4 number }
{
    let mut octets = [0; 4];
    BigEndian::write_u32(&mut octets, number);
    octets
}

/// The octets of a number of 128 bits, as of an IPv6 address (RFC 3596 section 2.2).
pub fn u128_octets(number: u128) -> [u8; 16]
    ensures { result ≡ big_bytes 16 number }
{
    let mut octets = [0; 16];
    BigEndian::write_u128(&mut octets, number);
    octets
}

/// Appends octets.
pub fn put(out: &mut ReplyBuffer, octets: &[u8])
    requires { HasRoom (array_vec_len out.old) (length octets.now) }
    ensures items { out.new.items ≡ out.old.items ++ octets.now }
    ensures len { array_vec_len out.new ≡ array_vec_len out.old + length octets.now }
{
    let _ = out.try_extend_from_slice(octets);
}
