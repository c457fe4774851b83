//! The options of an OPT record, one after the other.
ghost use Rattle.std.specs.Prelude.{◌≡◌, ◌<◌, length, IfSome};
ghost use Rattle.std.specs.Option.{option_map};
ghost use Rattle.dns_wire.specs.Edns.{option_in};
ghost use Rattle.dns_wire.specs.View.{option_view};

use crate::octets::u16_in;

/// An option of an OPT record (RFC 6891 section 6.1.2): its code, and its octets.
#[derive(Clone, Copy, Debug, PartialEq, Eq)]
pub struct EdnsOption<'a> {
    pub code: u16,
    pub octets: &'a [u8],
}

/// An option, and what follows it; None where there is no whole one.
pub fn read_option(octets: &[u8]) -> Option<(EdnsOption<'_>, &[u8])>
    ensures exact { option_map (λ x. (option_view x.0, x.1.now)) result ≡ option_in octets.now }
    ensures shorter { IfSome result (λ x. length x.1.now < length octets.now) }
{
    if octets.len() < 4 {
        return None;
    }
    let size = u16_in(octets, 2) as usize;
    if octets.len() < 4 + size {
        return None;
    }
    let (content, rest) = octets[4..].split_at(size);
    let code = u16_in(octets, 0);
    Some((
        EdnsOption {
            code,
            octets: content,
        },
        rest,
    ))
}
