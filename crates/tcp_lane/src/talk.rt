//! The conversation of a lane.
ghost use Rattle.std.specs.Prelude.{◌≡◌, ◌≤◌, ◌<◌, ◌+◌, ◌++◌, ◌==◌, false, length, []};
ghost use Rattle.outside.specs.Faults.{BothTell};
ghost use Rattle.outside.specs.Streams.{closing};
ghost use Rattle.tcp_lane.specs.Moments.{talk_state_of};
ghost use Rattle.tcp_lane.specs.Turns.{IsLeft, closing_if, no_talk};

use addr_text::{Addr, Peer};
use arrayvec::ArrayVec;
use outside::Streams;
use tcp_frames::{LARGEST_FRAME, LARGEST_REST};

/// An unfinished message, and a piece behind it.
const LARGEST_HELD: usize = LARGEST_REST + LARGEST_FRAME;

/// How many reads in a row may be quiet.
const MOST_QUIETS: u8 = 200;

/// The conversation of a lane: whether one is open, with whom, the octets of its unfinished message, and how many reads
/// in a row were quiet.
#[derive(Drop)]
pub(crate) struct LaneTalk {
    pub(crate) is_open: bool,
    pub(crate) peer: Peer,
    pub(crate) held: ArrayVec<u8, LARGEST_REST>,
    pub(crate) quiets: u8,
}

/// Before the first conversation.
pub(crate) fn no_talk() -> LaneTalk
    ensures { talk_state_of result ≡ no_talk }
{
    LaneTalk {
        is_open: false,
        peer: Peer {
            addr: Addr::V4(0),
            port: 0,
        },
        held: ArrayVec::new(),
        quiets: 0,
    }
}

/// A held rest, and a piece behind it.
pub(crate) fn joined(held: &ArrayVec<u8, LARGEST_REST>, piece: &[u8]) -> ArrayVec<u8, LARGEST_HELD>
    requires { length piece.now ≤ LARGEST_FRAME }
    ensures { result.items ≡ held.now.items ++ piece.now }
{
    let mut octets = ArrayVec::new();
    let _ = octets.try_extend_from_slice(held.as_slice());
    let _ = octets.try_extend_from_slice(piece);
    octets
}

pub(crate) fn kept(rest: &[u8]) -> ArrayVec<u8, LARGEST_REST>
    requires { length rest.now ≤ LARGEST_REST }
    ensures { result.items ≡ rest.now }
{
    let mut held = ArrayVec::new();
    let _ = held.try_extend_from_slice(rest);
    held
}

/// Closes the conversation.
pub(crate) fn close<Q: Streams>(streams: &mut Q, talk: &mut LaneTalk)
    ensures told { BothTell (Q.told streams.old).past (Q.told streams.new).past (λ b c.
        c ≡ closing b) }
    ensures faults { (Q.told streams.new).faults ≡ (Q.told streams.old).faults }
    ensures shut { talk.new.is_open ≡ false }
    ensures quiets { talk.new.quiets ≡ talk.old.quiets }
{
    streams.close();
    talk.is_open = false;
}

/// Counts a read that was quiet. Too many in a row close the conversation.
pub(crate) fn rest_once<Q: Streams>(streams: &mut Q, talk: &mut LaneTalk)
    requires { talk.old.quiets < 200 }
    ensures told { BothTell (Q.told streams.old).past (Q.told streams.new).past (λ b c.
        c ≡ closing_if (talk.old.quiets + 1 == 200) b) }
    ensures faults { (Q.told streams.new).faults ≡ (Q.told streams.old).faults }
    ensures left { IsLeft (talk.old.quiets + 1 == 200) (record
        (talk_state_of talk.old) { quiets = talk.old.quiets + 1 }) (talk_state_of talk.new) }
    ensures few { talk.new.quiets < 200 }
{
    talk.quiets += 1;
    if talk.quiets == MOST_QUIETS {
        close(streams, talk);
        talk.quiets = 0;
    }
}
