//! What one line of a feed says.
ghost use Rattle.std.specs.Prelude.{◌≡◌, ◌<◌, ◌≤◌, ◌^◌, true, Ok, Err, [], length, IfOk, IfSome, List, ℕ, None, Some, false, ◌∷◌, MatchOption, MatchResult};
ghost use Rattle.std.specs.Char.{is_ascii_digit};
ghost use Rattle.std.specs.List.{list_all};
ghost use Rattle.std.specs.Str.Parse.{digits_value};
ghost use Rattle.hex.specs.Hex.{is_hex_digit};
ghost use Rattle.demand_feed.specs.Line.{Said, alone, ask_of, by_word, by_words, capacity, change_of, demand, is_hex, is_number, is_visible, line_of, two_of, words_of};
ghost use Rattle.demand_feed.specs.SaidBy.{IsShort, said_by};
ghost use Rattle.demand_feed.specs.Changing.{IsChangeLine};
ghost use Rattle.demand_feed.specs.declared.limits.TheConstants.{LONGEST_LINE};

use crate::LineFault;
use crate::limits::{LONGEST_LINE, MOST_DIGITS};
use crate::words::next_word;
use addr_text::{Addr, read_addr};
use text_parts::{are_digits, decimal_value};

/// What a feed's line says.
#[derive(Clone, Copy, Debug, PartialEq, Eq)]
pub enum Line<'a> {
    /// A new demand of the group of that name.
    Demand { group: &'a [u8], number: u64 },
    /// A new capacity of the node of that name.
    Capacity { node: &'a [u8], number: u64 },
    /// The end of a batch.
    Commit,
    /// A query from an address, as an even number of hexadecimal digits.
    Ask { addr: Addr, digits: &'a [u8] },
    /// The totals of the newest map are asked for.
    Show,
    /// The end of the feed.
    Stop,
}

/// Whether an octet is a space or a visible one of ASCII.
fn is_visible(b: u8) -> bool
    ensures { result ≡ is_visible b }
{
    matches!(b, 32..=126)
}

pub(crate) fn are_visible(text: &[u8]) -> bool
    ensures { result ≡ list_all is_visible text.now }
{
    text.iter().all(|b| is_visible(*b))
}

/// Whether a word is a number: 1 to 19 decimal digits, of which zeros may lead.
fn is_number(word: &[u8]) -> bool
    ensures { result ≡ is_number word.now }
{
    !word.is_empty() && word.len() <= MOST_DIGITS && are_digits(word)
}

/// The number that a word writes.
fn read_number(word: &[u8]) -> Result<u64, LineFault>
    ensures { MatchResult result (λ n. (is_number word.now ≡ true) × (n ≡ digits_value 10 word.now))
        (λ e. (is_number word.now ≡ false) × (e ≡ LineFault.BadNumber)) }
{
    if !is_number(word) {
        return Err(LineFault::BadNumber);
    }
    // So few digits are a number below 2^64.
    match decimal_value(word) {
        Some(number) => Ok(number),
        None => Err(LineFault::BadNumber),
    }
}

fn is_hex_digit(b: u8) -> bool
    ensures { result ≡ is_hex_digit b }
{
    matches!(b, b'0'..=b'9' | b'a'..=b'f' | b'A'..=b'F')
}

fn are_hex_digits(word: &[u8]) -> bool
    ensures { result ≡ list_all is_hex_digit word.now }
{
    word.iter().all(|b| is_hex_digit(*b))
}

/// Whether a word is an even number of hexadecimal digits.
fn is_hex(word: &[u8]) -> bool
    ensures { result ≡ is_hex word.now }
{
    word.len() % 2 == 0 && are_hex_digits(word)
}

/// The two words of a text that has no others.
fn two_words(text: &[u8]) -> Option<(&[u8], &[u8])>
    ensures words { MatchOption result (two_of (words_of text.now) ≡ None) (λ r.
        two_of (words_of text.now) ≡ Some (r.0.now, r.1.now)) }
    ensures short { IfSome result (λ r. length r.1.now ≤ length text.now) }
{
    let (first, rest) = next_word(text)?;
    let (second, rest) = next_word(rest)?;
    match next_word(rest) {
        None => Some((first, second)),
        Some(_) => None,
    }
}

fn read_change(rest: &[u8]) -> Result<(&[u8], u64), LineFault>
    ensures { (said : List ℕ → ℕ → Said)
        → MatchResult result (λ r. change_of said (two_of (words_of rest.now))
        ≡ Ok (said r.0.now r.1)) (λ e. change_of said (two_of (words_of rest.now)) ≡ Err e) }
{
    match two_words(rest) {
        Some((name, word)) => match read_number(word) {
            Ok(number) => Ok((name, number)),
            Err(fault) => Err(fault),
        },
        None => Err(LineFault::WrongCount),
    }
}

/// The query of an address and digits.
fn read_ask(rest: &[u8]) -> Result<Line<'_>, LineFault>
    ensures short { IfOk result (IsShort (length rest.now)) }
    ensures said { MatchResult result (λ l. ask_of (two_of (words_of rest.now))
        ≡ Ok (said_by l)) (λ e. ask_of (two_of (words_of rest.now)) ≡ Err e) }
{
    let Some((addr, digits)) = two_words(rest) else {
        return Err(LineFault::WrongCount);
    };
    let Some(addr) = read_addr(addr) else {
        return Err(LineFault::BadAddress);
    };
    if is_hex(digits) {
        Ok(Line::Ask { addr, digits })
    } else {
        Err(LineFault::BadHex)
    }
}

/// The line of one word, where there is no other.
fn alone<'a>(line: Line<'a>, rest: &[u8]) -> Result<Line<'a>, LineFault>
    requires { IsShort 0 line }
    ensures short { IfOk result (IsShort (length rest.now)) }
    ensures said { MatchResult result (λ l. alone (said_by line.entry) (words_of rest.now)
        ≡ Ok (said_by l)) (λ e. alone (said_by line.entry) (words_of rest.now) ≡ Err e) }
{
    match next_word(rest) {
        None => Ok(line),
        Some(_) => Err(LineFault::WrongCount),
    }
}

pub(crate) fn demand_line(rest: &[u8]) -> Result<Line<'_>, LineFault>
    ensures change { IfOk result IsChangeLine }
    ensures short { IfOk result (IsShort (length rest.now)) }
    ensures said { MatchResult result (λ l. change_of demand (two_of (words_of rest.now))
        ≡ Ok (said_by l)) (λ e. change_of demand (two_of (words_of rest.now)) ≡ Err e) }
{
    match read_change(rest) {
        Ok((group, number)) => Ok(Line::Demand { group, number }),
        Err(fault) => Err(fault),
    }
}

pub(crate) fn capacity_line(rest: &[u8]) -> Result<Line<'_>, LineFault>
    ensures change { IfOk result IsChangeLine }
    ensures short { IfOk result (IsShort (length rest.now)) }
    ensures said { MatchResult result (λ l. change_of capacity (two_of (words_of rest.now))
        ≡ Ok (said_by l)) (λ e. change_of capacity (two_of (words_of rest.now)) ≡ Err e) }
{
    match read_change(rest) {
        Ok((node, number)) => Ok(Line::Capacity { node, number }),
        Err(fault) => Err(fault),
    }
}

/// A line by its first word and what follows that.
fn by_word<'a>(word: &[u8], rest: &'a [u8]) -> Result<Line<'a>, LineFault>
    ensures short { IfOk result (IsShort (length rest.entry.now)) }
    ensures said { MatchResult result (λ l. by_word word.now (words_of rest.entry.now)
        ≡ Ok (said_by l)) (λ e. by_word word.now (words_of rest.entry.now) ≡ Err e) }
{
    if word == b"demand".as_slice() {
        demand_line(rest)
    } else if word == b"capacity".as_slice() {
        capacity_line(rest)
    } else if word == b"commit".as_slice() {
        alone(Line::Commit, rest)
    } else if word == b"ask".as_slice() {
        read_ask(rest)
    } else if word == b"show".as_slice() {
        alone(Line::Show, rest)
    } else if word == b"stop".as_slice() {
        alone(Line::Stop, rest)
    } else {
        Err(LineFault::UnknownWord)
    }
}

/// What a line of a feed says. The line's LF is no part of it.
///
/// # Errors
///
/// The line's first fault.
#[tactic(auto, unfolding(crate::specs::Line::line_of))]
pub fn read_line(line: &[u8]) -> Result<Line<'_>, LineFault>
    ensures short { IfOk result (IsShort LONGEST_LINE) }
    ensures said { MatchResult result (λ l.
        line_of line.now ≡ Ok (said_by l)) (λ e. line_of line.now ≡ Err e) }
{
    if line.len() > LONGEST_LINE {
        return Err(LineFault::TooLong);
    }
    if !are_visible(line) {
        return Err(LineFault::BadByte);
    }
    match next_word(line) {
        Some((word, rest)) => by_word(word, rest),
        None => Err(LineFault::UnknownWord),
    }
}
