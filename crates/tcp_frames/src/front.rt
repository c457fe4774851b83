//! The first message of octets, behind its length.
ghost use Rattle.std.specs.Prelude.{◌≡◌, true, false, IfNone, IfSome};
ghost use Rattle.tcp_frames.specs.Fronts.{IsFront};
ghost use Rattle.tcp_frames.specs.Split.{IsFirst, IsOverlong, IsUnfinished};

use outside::LARGEST_DATAGRAM;

/// The most octets of a message that is answered, with its length before it.
pub const LARGEST_FRAME: usize = LARGEST_DATAGRAM + 2;

/// The most octets of a message that is not finished, with its length before it.
pub const LARGEST_REST: usize = LARGEST_DATAGRAM + 1;

/// What stands at the front.
#[derive(Clone, Copy)]
pub(crate) enum Front {
    Short,
    Long,
    Length(usize),
}

/// The length at the front of octets, where so many follow.
fn front_of(octets: &[u8]) -> Front
    ensures { IsFront octets.now result }
{
    if octets.len() < 2 {
        return Front::Short;
    }
    let len = octets[0] as usize * 256 + octets[1] as usize;
    if len > LARGEST_DATAGRAM {
        Front::Long
    } else if octets.len() - 2 < len {
        Front::Short
    } else {
        Front::Length(len)
    }
}

/// The first message, and what stands behind it. There is none where the octets are unfinished, or where the length at
/// the front is above that of the longest message that is answered.
pub fn first_message(octets: &[u8]) -> Option<(&[u8], &[u8])>
    ensures some { IfSome result (λ r. IsFirst octets.now r.0.now r.1.now) }
    ensures none { IfNone result (IsUnfinished octets.now) }
{
    match front_of(octets) {
        Front::Length(len) => Some((&octets[2..2 + len], &octets[2 + len..])),
        Front::Long => None,
        Front::Short => None,
    }
}

/// Whether the length at the front is above that of the longest message that is answered.
pub fn is_overlong(octets: &[u8]) -> bool
    ensures long { result ≡ true → IsOverlong octets.now }
    ensures short { result ≡ false → IsOverlong octets.now → ⊥ }
{
    match front_of(octets) {
        Front::Length(_) => false,
        Front::Long => true,
        Front::Short => false,
    }
}
