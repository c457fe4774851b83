//! How many whole messages are handed on at once.
ghost use Rattle.std.specs.Prelude.{◌≡◌, ◌≤◌, length, true, false, take};
ghost use Rattle.tcp_frames.specs.Fronts.{IsBatch};
ghost use Rattle.tcp_frames.specs.Split.{AreWhole, HasNoMessage, IsOverlong};

use crate::front::{first_message, is_overlong};

/// The most messages that are handed on at once.
pub const MOST_MESSAGES: usize = 8;

/// Octets at the front, to be handed on.
#[derive(Clone, Copy)]
pub struct Batch {
    /// How many octets these are.
    pub len: usize,
    /// Whether they are a length that is too great, and no messages.
    pub is_faulty: bool,
}

/// What stands behind the whole messages at the front, of which so many are looked at.
fn behind_whole(octets: &[u8], most: usize) -> &[u8]
    requires { 1 ≤ most }
    ensures { IsBatch most octets.now result.now }
{
    match first_message(octets) {
        None => octets,
        Some((_, behind)) => {
            if most == 1 {
                behind
            } else {
                behind_whole(behind, most - 1)
            }
        }
    }
}

/// What is to be handed on: the whole messages at the front, up to `MOST_MESSAGES` of them, or the two octets of a length
/// that is too great where it stands first. None are there where no message is whole.
pub fn batch_of(octets: &[u8]) -> Batch
    ensures within { result.len ≤ length octets.now }
    ensures whole { result.is_faulty ≡ false → AreWhole MOST_MESSAGES (take result.len octets.now) }
    ensures none { result.len ≡ 0 → HasNoMessage octets.now × (IsOverlong octets.now → ⊥) }
    ensures faulty { result.is_faulty ≡ true → (result.len ≡ 2) × IsOverlong octets.now }
{
    let rest = behind_whole(octets, MOST_MESSAGES);
    let len = octets.len() - rest.len();
    let is_faulty = len == 0 && is_overlong(octets);
    Batch {
        len: if is_faulty { 2 } else { len },
        is_faulty,
    }
}
