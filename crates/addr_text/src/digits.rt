//! Numbers and their digits.
ghost use Rattle.std.specs.Prelude.{◌≡◌, ◌<◌, ◌≤◌, ◌*◌, IfSome, length, nat_le, option_map};
ghost use Rattle.addr_text.specs.Numbers.{all_of, decimal_digit, hex_digit, in_base, is_plain, number_of, only_if};
ghost use Rattle.addr_text.specs.Groups.{group_of};

fn decimal_digit(b: u8) -> Option<u32>
    ensures value { result ≡ decimal_digit b }
    ensures within { IfSome result (λ d. d < 10) }
{
    match b {
        b'0'..=b'9' => Some(u32::from(b - b'0')),
        _ => None,
    }
}

/// Whether a text has an octet, and no `0` in front of others.
fn is_plain(text: &[u8]) -> bool
    ensures { result ≡ is_plain text.now }
{
    match text {
        [] => false,
        [_] => true,
        [first, ..] => *first != b'0',
    }
}

/// The number that decimal digits stand for, where it is no higher than the limit.
fn digits_value(text: &[u8], limit: u32) -> Option<u32>
    requires { limit ≤ 65535 }
    ensures { result ≡ only_if (λ n. nat_le n limit)
        (option_map (in_base 10) (all_of decimal_digit text.now)) }
{
    let mut value = 0;
    for b in text {
        value = 10 * value + decimal_digit(*b)?;
        if value > limit {
            return None;
        }
    }
    Some(value)
}

/// Reads a decimal number without leading zeros, 0 to the limit.
pub fn read_number(text: &[u8], limit: u32) -> Option<u32>
    requires { limit ≤ 65535 }
    ensures number { result ≡ number_of limit text.now }
    ensures within { IfSome result (λ n. n ≤ limit) }
{
    if is_plain(text) {
        digits_value(text, limit)
    } else {
        None
    }
}

/// The value of a hexadecimal digit of either case.
fn hex_digit(b: u8) -> Option<u16>
    ensures value { result ≡ hex_digit b }
    ensures within { IfSome result (λ d. d < 16) }
{
    match b {
        b'0'..=b'9' => Some(u16::from(b - b'0')),
        b'a'..=b'f' => Some(u16::from(b - b'a' + 10)),
        b'A'..=b'F' => Some(u16::from(b - b'A' + 10)),
        _ => None,
    }
}

/// The number that up to four hexadecimal digits stand for.
fn hex_value(text: &[u8]) -> Option<u16>
    requires { length text.now ≤ 4 }
    ensures { result ≡ option_map (in_base 16) (all_of hex_digit text.now) }
{
    let mut value = 0;
    for b in text {
        value = 16 * value + hex_digit(*b)?;
    }
    Some(value)
}

/// Reads a group: one to four hexadecimal digits.
pub fn read_group(text: &[u8]) -> Option<u16>
    ensures { result ≡ group_of text.now }
{
    if text.is_empty() || text.len() > 4 {
        None
    } else {
        hex_value(text)
    }
}
