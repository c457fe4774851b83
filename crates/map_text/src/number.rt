//! An amount as a word.
ghost use Rattle.std.specs.Prelude.{◌≡◌, ◌<◌, IfSome};
ghost use Rattle.map_text.specs.Lines.{amount_of};

use text_parts::read_count;

/// The amount that a word writes: a decimal number from 1 to 2^32-1 without leading zeros.
pub fn read_amount(word: &[u8]) -> Option<u32>
    ensures value { result ≡ amount_of word.now }
    ensures range { IfSome result (λ v. 0 < v) }
{
    match read_count(word, u64::from(u32::MAX)) {
        Some(amount) => Some(amount as u32),
        None => None,
    }
}
