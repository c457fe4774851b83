//! A reply behind its length.
ghost use Rattle.std.specs.Prelude.{◌≡◌};
ghost use Rattle.tcp_frames.specs.Split.{framed};

use arrayvec::ArrayVec;
use outside::LARGEST_REPLY;

/// The most octets of a reply, with its length before it.
pub const LARGEST_REPLY_FRAME: usize = LARGEST_REPLY + 2;

/// A reply behind its length.
pub fn frame_of(reply: &ArrayVec<u8, LARGEST_REPLY>) -> ArrayVec<u8, LARGEST_REPLY_FRAME>
    ensures { result.items ≡ framed reply.now.items }
{
    let mut frame = ArrayVec::new();
    let len = reply.len() as u16;
    frame.push((len / 256) as u8);
    frame.push((len % 256) as u8);
    let _ = frame.try_extend_from_slice(reply.as_slice());
    frame
}
