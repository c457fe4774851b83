//! Decimal digits.
ghost use Rattle.std.specs.Prelude.{◌≡◌, ◌^◌, ◌≤◌, true, length, IfSome, MatchOption};
ghost use Rattle.std.specs.Char.{is_ascii_digit};
ghost use Rattle.std.specs.List.{list_all};
ghost use Rattle.std.specs.Str.Parse.{digits_value};
ghost use Rattle.text_parts.specs.Counts.{count_of, is_plain};

/// Whether all octets are decimal digits.
pub fn are_digits(word: &[u8]) -> bool
    ensures { result ≡ list_all is_ascii_digit word.now }
{
    word.iter().all(|b| b.is_ascii_digit())
}

/// The number of decimal digits, where it is below 2^64. Zeros may lead.
pub fn decimal_value(digits: &[u8]) -> Option<u64>
    requires { list_all is_ascii_digit digits.now ≡ true }
    ensures { MatchOption result (2 ^ 64 ≤ digits_value 10 digits.now) (λ v. v
        ≡ digits_value 10 digits.now) }
{
    let mut value: u64 = 0;
    for digit in digits {
        let longer = u128::from(value) * 10 + u128::from(*digit - b'0');
        if longer > u128::from(u64::MAX) {
            return None;
        }
        value = longer as u64;
    }
    Some(value)
}

/// Whether a text is decimal digits, of which the first is not `0`.
fn is_plain(text: &[u8]) -> bool
    ensures { result ≡ is_plain text.now }
{
    match text {
        [] => false,
        [first, ..] => *first > b'0' && are_digits(text),
    }
}

/// The decimal number from 1 to the limit that a text writes, without sign or leading zeros.
#[tactic(auto, unfolding(crate::specs::Counts::count_of))]
pub fn read_count(text: &[u8], limit: u64) -> Option<u64>
    ensures count { result ≡ count_of limit text.now }
    ensures within { IfSome result (λ n. (1 ≤ n) × (n ≤ limit)) }
{
    if !is_plain(text) {
        return None;
    }
    match decimal_value(text) {
        Some(count) if count >= 1 && count <= limit => Some(count),
        _ => None,
    }
}
