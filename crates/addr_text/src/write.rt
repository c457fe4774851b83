//! Writing addresses.
ghost use Rattle.std.specs.Prelude.{◌≡◌, ℕ, List, ◌+◌, ◌*◌, ◌<◌, ◌≤◌, ◌^◌, ◌++◌, ◌∷◌, [], length, Some, None};
ghost use Rattle.std.specs.List.{flat_map};
ghost use Rattle.addr_text.specs.Numbers.{digits_in};
ghost use Rattle.addr_text.specs.Addresses.{addr_of};
ghost use Rattle.addr_text.specs.Groups.{v4_numbers, v6_groups};
ghost use Rattle.addr_text.specs.Written.{IsGroupsText, IsTextOf, colon_text, coloned, decimal_text, digit_char, dot_text, dotted, hex_text};

use crate::Addr;
use crate::runs::shortened;
use arrayvec::ArrayVec;
use text_parts::{after, before};

/// A digit below 16, a letter in lower case.
fn digit_char(digit: u16) -> u8
    requires { digit < 16 }
    ensures { result ≡ digit_char digit }
{
    if digit < 10 {
        b'0' + digit as u8
    } else {
        b'a' + (digit as u8 - 10)
    }
}

/// Adds a number of 0 to 255, without leading zeros.
#[tactic(auto, unfolding(crate::specs::Numbers::digits_in))]
fn push_decimal(out: &mut ArrayVec<u8, 39>, number: u16)
    requires room { length out.old.items + 3 ≤ 39 }
    requires number { number < 256 }
    ensures text { out.new.items ≡ out.old.items ++ decimal_text number }
    ensures room { length out.new.items ≤ length out.old.items + 3 }
{
    if number < 10 {
        out.push(digit_char(number % 10));
    } else if number < 100 {
        out.push(digit_char(number / 10 % 10));
        out.push(digit_char(number % 10));
    } else {
        out.push(digit_char(number / 10 / 10 % 10));
        out.push(digit_char(number / 10 % 10));
        out.push(digit_char(number % 10));
    }
}

/// Adds a group, without leading zeros.
#[tactic(auto, unfolding(crate::specs::Numbers::digits_in))]
fn push_hex(out: &mut ArrayVec<u8, 39>, group: u16)
    requires { length out.old.items + 4 ≤ 39 }
    ensures text { out.new.items ≡ out.old.items ++ hex_text group }
    ensures room { length out.new.items ≤ length out.old.items + 4 }
{
    if group < 16 {
        out.push(digit_char(group % 16));
    } else if group < 256 {
        out.push(digit_char(group / 16 % 16));
        out.push(digit_char(group % 16));
    } else if group < 4096 {
        out.push(digit_char(group / 16 / 16 % 16));
        out.push(digit_char(group / 16 % 16));
        out.push(digit_char(group % 16));
    } else {
        out.push(digit_char(group / 16 / 16 / 16 % 16));
        out.push(digit_char(group / 16 / 16 % 16));
        out.push(digit_char(group / 16 % 16));
        out.push(digit_char(group % 16));
    }
}

/// Adds a dot and a number, for each of some numbers.
fn push_dotted_rest(out: &mut ArrayVec<u8, 39>, numbers: &[u8])
    requires { length out.old.items + 4 * length numbers.now ≤ 39 }
    ensures text { out.new.items ≡ out.old.items ++ flat_map dot_text numbers.now }
    ensures room { length out.new.items ≤ length out.old.items + 4 * length numbers.now }
{
    for number in numbers {
        out.push(b'.');
        push_decimal(out, u16::from(*number));
    }
}

/// Adds numbers joined by dots.
fn push_dotted(out: &mut ArrayVec<u8, 39>, numbers: &[u8])
    requires { length out.old.items + 4 * length numbers.now ≤ 39 }
    ensures { out.new.items ≡ out.old.items ++ dotted numbers.now }
{
    if let Some((first, rest)) = numbers.split_first() {
        push_decimal(out, u16::from(*first));
        push_dotted_rest(out, rest);
    }
}

/// Adds a colon and a group, for each of some groups.
fn push_coloned_rest(out: &mut ArrayVec<u8, 39>, groups: &[u16])
    requires { length out.old.items + 5 * length groups.now ≤ 39 }
    ensures text { out.new.items ≡ out.old.items ++ flat_map colon_text groups.now }
    ensures room { length out.new.items ≤ length out.old.items + 5 * length groups.now }
{
    for group in groups {
        out.push(b':');
        push_hex(out, *group);
    }
}

/// Adds groups joined by colons.
fn push_coloned(out: &mut ArrayVec<u8, 39>, groups: &[u16])
    requires { length out.old.items + 5 * length groups.now ≤ 40 }
    ensures text { out.new.items ≡ out.old.items ++ coloned groups.now }
    ensures room { length out.new.items ≤ length out.old.items + 5 * length groups.now }
{
    if let Some((first, rest)) = groups.split_first() {
        push_hex(out, *first);
        push_coloned_rest(out, rest);
    }
}

/// Writes groups, with `::` for the longest run of two or more zeros, the first of equals.
fn push_groups(out: &mut ArrayVec<u8, 39>, groups: &[u16])
    requires empty { out.old.items ≡ [] }
    requires eight { length groups.now ≡ 8 }
    ensures text { IsGroupsText groups.now out.new.items }
    ensures only { (text : List ℕ) → IsGroupsText groups.now text → text ≡ out.new.items }
    ensures again { v6_groups out.new.items ≡ Some groups.now }
    ensures no_dot { v4_numbers out.new.items ≡ None }
{
    match shortened(groups) {
        None => push_coloned(out, groups),
        Some((start, len)) => {
            push_coloned(out, before(groups, start));
            out.push(b':');
            out.push(b':');
            push_coloned(out, after(groups, start + len));
        }
    }
}

/// The four numbers of an IPv4 address, the first the highest.
fn numbers_of(n: u32) -> ArrayVec<u8, 4>
    ensures numbers { result.items ≡ digits_in 256 4 n }
    ensures fits { n < 2 ^ 32 }
{
    let mut numbers = ArrayVec::new();
    let mut rest = n;
    while !numbers.is_full() {
        numbers.insert(0, (rest % 256) as u8);
        rest /= 256;
    }
    numbers
}

/// The eight groups of an IPv6 address, the first the highest.
fn groups_of(n: u128) -> ArrayVec<u16, 8>
    ensures groups { result.items ≡ digits_in 65536 8 n }
    ensures fits { n < 2 ^ 128 }
{
    let mut groups = ArrayVec::new();
    let mut rest = n;
    while !groups.is_full() {
        groups.insert(0, (rest % 65536) as u16);
        rest /= 65536;
    }
    groups
}

/// Writes an address into the buffer, which is cleared first: IPv4 dotted; IPv6 in lower case without leading zeros, with `::` for the longest run of two or more groups of zeros, the first of equals (RFC 5952 section 4).
pub fn write_addr(addr: Addr, out: &mut ArrayVec<u8, 39>)
    ensures text { IsTextOf addr out.new.items }
    ensures only { (text : List ℕ) → IsTextOf addr text → text ≡ out.new.items }
    ensures again { addr_of out.new.items ≡ Some addr }
{
    out.clear();
    match addr {
        Addr::V4(n) => push_dotted(out, numbers_of(n).as_slice()),
        Addr::V6(n) => push_groups(out, groups_of(n).as_slice()),
    }
}
