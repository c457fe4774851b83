//! The numbers in an address's text.
ghost use Rattle.std.specs.Prelude.{ℕ, ◌≡◌, ◌+◌, ◌<◌, ◌≤◌, ◌++◌, ◌∷◌, ◌==◌, ◌⊎◌, [], Some, None, IfSome, length, nat_le, option_map, replicate, true, false};
ghost use Rattle.addr_text.specs.Numbers.{all_of, number_of, only_if};
ghost use Rattle.text_parts.specs.Parts.{parts};
ghost use Rattle.addr_text.specs.Groups.{begins_double, filled, group_of, joined_groups, side_groups, sides, v4_numbers, v6_groups};

use crate::digits::{read_group, read_number};
use arrayvec::ArrayVec;
use text_parts::{after, before, position_of};

/// Adds a number of 0 to 255, where there is one and room for it.
fn push_number(numbers: &mut ArrayVec<u8, 4>, text: &[u8]) -> bool
    ensures pushed { result ≡ true → (v : ℕ) × (number_of 255 text.now ≡ Some v)
        × (numbers.new.items ≡ numbers.old.items ++ v ∷ []) }
    ensures fits { result ≡ true → length numbers.new.items ≤ 4 }
    ensures not { result ≡ false → (number_of 255 text.now ≡ None)
        ⊎ (length numbers.old.items ≡ 4) }
{
    match read_number(text, u32::from(u8::MAX)) {
        Some(number) => numbers.try_push(number as u8).is_ok(),
        None => false,
    }
}

/// Numbers joined by dots, at most four.
fn joined_numbers(text: &[u8]) -> Option<ArrayVec<u8, 4>>
    ensures { option_map (λ v. v.items) result
        ≡ only_if (λ ns. nat_le (length ns) 4) (all_of (number_of 255) (parts 46 text.now)) }
{
    let mut numbers = ArrayVec::new();
    let mut rest = text;
    while let Some(dot) = position_of(rest, b'.') {
        if !push_number(&mut numbers, before(rest, dot)) {
            return None;
        }
        rest = after(rest, dot + 1);
    }
    if push_number(&mut numbers, rest) {
        Some(numbers)
    } else {
        None
    }
}

/// The four numbers of an IPv4 text.
pub fn v4_numbers(text: &[u8]) -> Option<ArrayVec<u8, 4>>
    ensures { option_map (λ v. v.items) result ≡ v4_numbers text.now }
{
    let numbers = joined_numbers(text)?;
    if numbers.is_full() {
        Some(numbers)
    } else {
        None
    }
}

/// Adds a group, where there is one and room for it.
fn push_group(groups: &mut ArrayVec<u16, 8>, text: &[u8]) -> bool
    ensures pushed { result ≡ true → (v : ℕ) × (group_of text.now ≡ Some v)
        × (groups.new.items ≡ groups.old.items ++ v ∷ []) }
    ensures fits { result ≡ true → length groups.new.items ≤ 8 }
    ensures not { result ≡ false → (group_of text.now ≡ None) ⊎ (length groups.old.items ≡ 8) }
{
    match read_group(text) {
        Some(group) => groups.try_push(group).is_ok(),
        None => false,
    }
}

/// Groups joined by colons, at most eight.
fn joined_groups(text: &[u8]) -> Option<ArrayVec<u16, 8>>
    ensures { option_map (λ v. v.items) result
        ≡ only_if (λ gs. nat_le (length gs) 8) (joined_groups text.now) }
{
    let mut groups = ArrayVec::new();
    let mut rest = text;
    while let Some(colon) = position_of(rest, b':') {
        if !push_group(&mut groups, before(rest, colon)) {
            return None;
        }
        rest = after(rest, colon + 1);
    }
    if push_group(&mut groups, rest) {
        Some(groups)
    } else {
        None
    }
}

/// The groups on one side of `::`, where there may be none; at most eight.
fn side_groups(text: &[u8]) -> Option<ArrayVec<u16, 8>>
    ensures { option_map (λ v. v.items) result
        ≡ only_if (λ gs. nat_le (length gs) 8) (side_groups text.now) }
{
    if text.is_empty() {
        Some(ArrayVec::new())
    } else {
        joined_groups(text)
    }
}

/// Whether a text begins with `::`.
fn begins_double(text: &[u8]) -> bool
    ensures { result ≡ begins_double text.now }
{
    match text {
        [first, second, ..] => *first == b':' && *second == b':',
        _ => false,
    }
}

/// What stands before and what stands after the first `::`.
fn sides(text: &[u8]) -> Option<(&[u8], &[u8])>
    ensures { option_map (λ s. (s.0.now, s.1.now)) result ≡ sides text.now }
{
    for i in 0..text.len() {
        let rest = after(text, i);
        if begins_double(rest) {
            return Some((before(text, i), after(text, i + 2)));
        }
    }
    None
}

/// The groups of the two sides, and between them zeros for one or more groups, eight in all.
fn filled(left: &[u16], right: &[u16]) -> Option<ArrayVec<u16, 8>>
    ensures { option_map (λ v. v.items) result ≡ filled (Some left.now) (Some right.now) }
{
    let count = left.len() + right.len();
    if count > 7 {
        return None;
    }
    let mut groups = ArrayVec::new();
    push_all(&mut groups, left);
    push_zeros(&mut groups, 8 - count);
    push_all(&mut groups, right);
    Some(groups)
}

fn push_all(groups: &mut ArrayVec<u16, 8>, values: &[u16])
    requires { length groups.old.items + length values.now ≤ 8 }
    ensures { groups.new.items ≡ groups.old.items ++ values.now }
{
    for value in values {
        groups.push(*value);
    }
}

fn push_zeros(groups: &mut ArrayVec<u16, 8>, count: usize)
    requires { length groups.old.items + count ≤ 8 }
    ensures { groups.new.items ≡ groups.old.items ++ replicate count 0 }
{
    for _zero in 0..count {
        groups.push(0);
    }
}

/// The groups on the two sides of `::`, filled.
fn two_sides(before: &[u8], after: &[u8]) -> Option<ArrayVec<u16, 8>>
    ensures { option_map (λ v. v.items) result
        ≡ filled (side_groups before.now) (side_groups after.now) }
{
    match (side_groups(before), side_groups(after)) {
        (Some(left), Some(right)) => filled(left.as_slice(), right.as_slice()),
        _ => None,
    }
}

/// Eight groups joined by colons.
fn eight_groups(text: &[u8]) -> Option<ArrayVec<u16, 8>>
    ensures { option_map (λ v. v.items) result
        ≡ only_if (λ gs. length gs == 8) (joined_groups text.now) }
{
    let groups = joined_groups(text)?;
    if groups.is_full() { Some(groups) } else { None }
}

/// The eight groups of an IPv6 text.
pub fn v6_groups(text: &[u8]) -> Option<ArrayVec<u16, 8>>
    ensures { option_map (λ v. v.items) result ≡ v6_groups text.now }
{
    match sides(text) {
        Some((before, after)) => two_sides(before, after),
        None => eight_groups(text),
    }
}
