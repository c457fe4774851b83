//! A name on the wire.
ghost use Rattle.std.specs.Prelude.{◌≡◌};
ghost use Rattle.name_text.specs.Wire.{IsName};

use arrayvec::ArrayVec;
use std::marker::Model;

/// How many octets a name may have on the wire (RFC 1035 section 3.1).
pub const LONGEST_NAME: usize = 255;

/// How many octets a label may have (RFC 1035 section 2.3.4).
pub const LONGEST_LABEL: usize = 63;

/// A DNS name, as its octets on the wire without pointers: labels of 1 to 63 octets, each behind an octet with its length, and an octet 0; 1 to 255 octets in all (RFC 1035 section 3.1). Two names are compared by `same_name`, whatever the case of their letters (RFC 4343), so there is no `==` of octets.
#[derive(Clone, Debug, Drop)]
pub struct Name {
    pub(crate) octets: ArrayVec<u8, LONGEST_NAME>,
}

impl Model for Name {
    ghost use Rattle.std.specs.Prelude.{List, ℕ};
    ghost use Rattle.name_text.specs.Wire.{IsName};

    ghost Value = { List ℕ };

    ghost view = { λ n. n.octets.items };

    ghost invariant = { λ n. IsName n.octets.items };

    ghost inverse = { λ octets. record { octets = record { items = octets } } };
}

impl Name {
    /// The octets on the wire, with the 0 at their end.
    pub fn wire(&self) -> &[u8]
        ensures octets { result.now ≡ self.now }
        ensures form { IsName self.now }
    {
        self.octets.as_slice()
    }
}
