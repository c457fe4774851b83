//! Comparing the name that is asked for: only octets that have the right length are compared.
ghost use Rattle.std.specs.Prelude.{◌≡◌, ◌≤◌, ◌+◌, ◌==◌, drop, length};
ghost use Rattle.std.specs.Char.{to_ascii_lowercase};
ghost use Rattle.byteorder.specs.Endian.{big_number};
ghost use Rattle.name_text.specs.Names.{is_same, is_under};
ghost use Rattle.name_text.specs.Wire.{IsName};

use byteorder::{BigEndian, ByteOrder};

/// Whether two octets are the same, whatever the case of an ASCII letter.
#[inline(always)]
fn is_same_octet(a: u8, b: u8) -> bool
    ensures { result ≡ (to_ascii_lowercase a == to_ascii_lowercase b) }
{
    a == b || a.eq_ignore_ascii_case(&b)
}

/// The number of 64 bits that begins at an octet.
#[inline(always)]
fn word(octets: &[u8], at: usize) -> u64
    requires { at + 8 ≤ length octets.now }
    ensures { result ≡ big_number 8 (drop at octets.now) }
{
    BigEndian::read_u64(&octets[at..at + 8])
}

/// How many octets at the front are the same, octet for octet, as far as whole words of eight are.
#[inline(always)]
fn same_words(name: &[u8], other: &[u8]) -> usize
    requires { length name.now ≡ length other.now }
    ensures { is_same (drop result name.now) (drop result other.now) ≡ is_same name.now other.now }
{
    let mut at = 0;
    while name.len() - at >= 8 {
        if word(name, at) != word(other, at) {
            return at;
        }
        at += 8;
    }
    at
}

/// Whether the octets of two names are the same, whatever the case of ASCII letters. Most differ in their length, or are the same octet for octet.
#[inline(always)]
pub(crate) fn same_name(name: &[u8], other: &[u8]) -> bool
    ensures { result ≡ is_same name.now other.now }
{
    if name.len() != other.len() {
        return false;
    }
    let mut at = same_words(name, other);
    while at < name.len() {
        if !is_same_octet(name[at], other[at]) {
            return false;
        }
        at += 1;
    }
    true
}

/// Whether a name is the apex or stands below it by whole labels. The one end of the name that is as long as the apex is compared with it, where a label begins there.
pub(crate) fn under(name: &[u8], apex: &[u8]) -> bool
    requires { IsName apex.now }
    ensures { result ≡ is_under name.now apex.now }
{
    if name.len() < apex.len() {
        return false;
    }
    let end = name.len() - apex.len();
    let mut at = 0;
    while at < end {
        at += 1 + usize::from(name[at]);
    }
    at == end && same_name(&name[end..], apex)
}
