//! Reading names.
ghost use Rattle.std.specs.Prelude.{◌≡◌, ◌≤◌, length, false, IfSome};
ghost use Rattle.std.specs.Option.{option_map};
ghost use Rattle.name_text.specs.Wire.{IsName};
ghost use Rattle.dns_wire.specs.Wire.{name_len, name_in};

use name_text::{LONGEST_LABEL, LONGEST_NAME};

/// The length octet of a label is no more.
const LABEL: u8 = LONGEST_LABEL as u8;

/// The first octet of a pointer is no less (RFC 1035 section 4.1.4).
const POINTER: u8 = 0xc0;

/// How many octets the name takes at the front.
fn name_length(octets: &[u8], pointers: bool) -> Option<usize>
    ensures exact { result ≡ name_len pointers 0 octets.now }
    ensures within { IfSome result (λ n. n ≤ length octets.now) }
{
    let mut at = 0;
    while at < octets.len() {
        match octets[at] {
            0 => return Some(at + 1),
            length @ 1..=LABEL => at += 1 + length as usize,
            POINTER..=u8::MAX if pointers && at + 1 < octets.len() => return Some(at + 2),
            _ => return None,
        }
    }
    None
}

/// A name of at most 255 octets, and what follows it. A pointer ends a name where pointers are allowed, and is not followed.
pub(crate) fn read_name(octets: &[u8], pointers: bool) -> Option<(&[u8], &[u8])>
    ensures exact { option_map (λ x. (x.0.now, x.1.now)) result ≡ name_in pointers octets.now }
    ensures name { pointers ≡ false → IfSome result (λ x. IsName x.0.now) }
{
    let length = name_length(octets, pointers)?;
    if length > LONGEST_NAME {
        return None;
    }
    Some(octets.split_at(length))
}
