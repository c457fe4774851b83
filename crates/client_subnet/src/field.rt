//! Addresses of fewer octets, padded with zeros.
ghost use Rattle.std.specs.Prelude.{◌≡◌, slice_index};
ghost use Rattle.byteorder.specs.Endian.{big_number};

/// An octet, or 0 past the end.
fn octet(octets: &[u8], at: usize) -> u8
    ensures { result ≡ slice_index octets.now at }
{
    octets.get(at).copied().unwrap_or(0)
}

/// A number of 32 bits, padded with zeros past the end.
pub(crate) fn u32_padded(octets: &[u8]) -> u32
    ensures { result ≡ big_number 4 octets.now }
{
    u32::from_be_bytes([
        octet(octets, 0),
        octet(octets, 1),
        octet(octets, 2),
        octet(octets, 3),
    ])
}

/// A number of 128 bits, padded with zeros past the end.
pub(crate) fn u128_padded(octets: &[u8]) -> u128
    ensures { result ≡ big_number 16 octets.now }
{
    u128::from_be_bytes([
        octet(octets, 0),
        octet(octets, 1),
        octet(octets, 2),
        octet(octets, 3),
        octet(octets, 4),
        octet(octets, 5),
        octet(octets, 6),
        octet(octets, 7),
        octet(octets, 8),
        octet(octets, 9),
        octet(octets, 10),
        octet(octets, 11),
        octet(octets, 12),
        octet(octets, 13),
        octet(octets, 14),
        octet(octets, 15),
    ])
}
