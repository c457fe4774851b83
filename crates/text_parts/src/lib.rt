//! Slices cut at a place, texts cut at the first or last of an octet, and decimal digits. None of it takes memory.
#![tactic(auto)]

ghost use Rattle.std.specs.Prelude.{◌≡◌, ◌<◌, ◌≤◌, ◌==◌, ◌+◌, ◌-◌, [], ◌∷◌, IfSome, MatchOption, length, not, take, drop};
ghost use Rattle.std.specs.List.{after_first, after_last, before_first, before_last, position_from, position_or_len, suffix_len};
ghost use Rattle.text_parts.specs.Parts.{parts};

mod decimal;

pub use decimal::{are_digits, decimal_value, read_count};

#[cfg(test)]
mod tests;

/// Where an octet first stands, counted from 0; `None` where it is nowhere.
pub fn position_of(text: &[u8], octet: u8) -> Option<usize>
    ensures first { result ≡ position_from (λ b. b == octet) 0 text.now }
    ensures within { IfSome result (λ i. i < length text.now) }
{
    text.iter().position(|b| *b == octet)
}

/// The first `i` items.
pub fn before<T>(items: &[T], i: usize) -> &[T]
    requires { i ≤ length items.now }
    ensures { result.now ≡ take i items.now }
{
    &items[..i]
}

/// The items from place `i` on.
pub fn after<T>(items: &[T], i: usize) -> &[T]
    requires { i ≤ length items.now }
    ensures { result.now ≡ drop i items.now }
{
    &items[i..]
}

/// What stands before and behind the first of an octet, where there is one.
pub fn cut(text: &[u8], octet: u8) -> Option<(&[u8], &[u8])>
    ensures parts { MatchOption result (parts octet text.now ≡ text.now
        ∷ []) (λ r. parts octet text.now ≡ r.0.now ∷ parts octet r.1.now) }
    ensures shorter { IfSome result (λ r. length r.0.now + length r.1.now < length text.now) }
{
    match position_of(text, octet) {
        Some(at) => Some((before(text, at), after(text, at + 1))),
        None => None,
    }
}

/// An octet's first place; the length where it is nowhere.
fn start_of_first(text: &[u8], octet: u8) -> usize
    ensures start { result ≡ position_or_len (λ b. b == octet) text.now }
    ensures within { result ≤ length text.now }
{
    position_of(text, octet).unwrap_or(text.len())
}

/// What stands before and after an octet's first place; all and nothing where it is nowhere.
pub fn split_first(text: &[u8], octet: u8) -> (&[u8], &[u8])
    ensures front { result.0.now ≡ before_first (λ b. b == octet) text.now }
    ensures back { result.1.now ≡ after_first (λ b. b == octet) text.now }
{
    let start = start_of_first(text, octet);
    let back = if start < text.len() {
        after(text, start + 1)
    } else {
        &[]
    };
    (before(text, start), back)
}

/// The place behind an octet's last one; 0 where it is nowhere.
fn end_of_last(text: &[u8], octet: u8) -> usize
    ensures end { result ≡ length text.now - suffix_len (λ b. not (b == octet)) text.now }
    ensures within { result ≤ length text.now }
{
    let mut end = text.len();
    while end > 0 && text[end - 1] != octet {
        end -= 1;
    }
    end
}

/// What stands before and after an octet's last place; nothing and all where it is nowhere.
pub fn split_last(text: &[u8], octet: u8) -> (&[u8], &[u8])
    ensures front { result.0.now ≡ before_last (λ b. b == octet) text.now }
    ensures back { result.1.now ≡ after_last (λ b. b == octet) text.now }
{
    let end = end_of_last(text, octet);
    (before(text, end.saturating_sub(1)), after(text, end))
}
