//! Reading the text of a name.
ghost use Rattle.std.specs.Prelude.{◌≡◌, ◌<◌, ◌≤◌, ◌+◌, ◌++◌, ◌∷◌, ◌==◌, [], None, Some, true, false, IfSome, length, take, drop, nat_le, option_map};
ghost use Rattle.std.specs.List.{list_all, position_from, slice_split};
ghost use Rattle.name_text.specs.Wire.{wire};
ghost use Rattle.name_text.specs.declared.name.TheConstants.{LONGEST_NAME};
ghost use Rattle.name_text.specs.Names.{first_fault, is_label_byte, label_fault, label_name_of, name_of, short_wire, undotted};

use crate::{LONGEST_LABEL, LONGEST_NAME, Name, NameFault};
use arrayvec::ArrayVec;
use text_parts::{after, before, position_of};

fn is_label_byte(b: u8) -> bool
    ensures { result ≡ is_label_byte b }
{
    matches!(b, b'a'..=b'z' | b'A'..=b'Z' | b'0'..=b'9' | b'-' | b'_')
}

fn are_label_bytes(label: &[u8]) -> bool
    ensures { result ≡ list_all is_label_byte label.now }
{
    label.iter().all(|b| is_label_byte(*b))
}

/// The first fault of a label.
fn label_fault(label: &[u8]) -> Option<NameFault>
    ensures { result ≡ label_fault label.now }
{
    if label.is_empty() {
        Some(NameFault::EmptyLabel)
    } else if !are_label_bytes(label) {
        Some(NameFault::BadByte)
    } else if label.len() > LONGEST_LABEL {
        Some(NameFault::LongLabel)
    } else {
        None
    }
}

/// The text without one dot at its end.
fn undotted(text: &[u8]) -> &[u8]
    ensures { result.now ≡ undotted text.now }
{
    text.strip_suffix(b".").unwrap_or(text)
}

/// The fault of the leftmost label that has one, among those that the dots of a text part.
fn first_fault(text: &[u8]) -> Option<NameFault>
    ensures { result ≡ first_fault (slice_split (λ b. b == 46) text.now) }
{
    let mut rest = text;
    while let Some(dot) = position_of(rest, b'.') {
        if let Some(fault) = label_fault(before(rest, dot)) {
            return Some(fault);
        }
        rest = after(rest, dot + 1);
    }
    label_fault(rest)
}

/// Adds a label and its length, where there is room.
fn push_label(octets: &mut ArrayVec<u8, LONGEST_NAME>, label: &[u8]) -> bool
    ensures pushed { result ≡ true → octets.new.items ≡ octets.old.items ++ length label.now
        ∷ label.now }
    ensures full { result ≡ false → LONGEST_NAME < length octets.old.items + 1 + length label.now }
{
    if octets.len() + 1 + label.len() > LONGEST_NAME {
        return false;
    }
    octets.push(label.len() as u8);
    octets.try_extend_from_slice(label).is_ok()
}

/// The name on the wire whose labels the dots of a text part, where it fits 255 octets.
fn wire_of(text: &[u8]) -> Option<ArrayVec<u8, LONGEST_NAME>>
    ensures { option_map (λ v. v.items) result ≡ short_wire (slice_split (λ b. b == 46) text.now) }
{
    let mut octets = ArrayVec::new();
    let mut rest = text;
    while let Some(dot) = position_of(rest, b'.') {
        if !push_label(&mut octets, before(rest, dot)) {
            return None;
        }
        rest = after(rest, dot + 1);
    }
    if !push_label(&mut octets, rest) || octets.is_full() {
        return None;
    }
    octets.push(0);
    Some(octets)
}

/// Reads a name as it is written in zone files (RFC 1035 section 5.1), without escapes: its labels, a dot between each two, and perhaps the dot of the root behind them. Letters keep their case.
///
/// # Errors
///
/// The fault is that of the leftmost label with one, and in a label the first of `EmptyLabel`, `BadByte` and `LongLabel`; `LongName` comes only where no label has a fault.
#[tactic(auto, unfolding(crate::specs::Names::name_of))]
pub fn read_name(text: &[u8]) -> Result<Name, NameFault>
    ensures { result ≡ name_of text.now }
{
    let text = undotted(text);
    match first_fault(text) {
        Some(fault) => Err(fault),
        None => match wire_of(text) {
            Some(octets) => Ok(Name { octets }),
            None => Err(NameFault::LongName),
        },
    }
}

/// Reads one label of 1 to 63 octets, with no dot, as a name of that label alone.
///
/// # Errors
///
/// The label's first fault, in the order of `read_name`; a dot is a `BadByte`.
#[tactic(auto, unfolding(crate::specs::Names::label_name_of))]
pub fn read_label(text: &[u8]) -> Result<Name, NameFault>
    ensures { result ≡ label_name_of text.now }
{
    match label_fault(text) {
        Some(fault) => Err(fault),
        None => match wire_of(text) {
            Some(octets) => Ok(Name { octets }),
            None => Err(NameFault::LongName),
        },
    }
}
