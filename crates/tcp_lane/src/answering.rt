//! The messages of a piece, answered one after another.
ghost use Rattle.std.specs.Prelude.{◌≡◌};
ghost use Rattle.answer_core.specs.declared.way.Way.TheVariants.{Stream};
ghost use Rattle.lane_model.specs.Lanes.{following};
ghost use Rattle.name_workers.specs.Moments.{eyes_of};
ghost use Rattle.name_workers.specs.Messages.{IsFared};
ghost use Rattle.tcp_lane.specs.Steps.{IsAnswered, is_on, writes};

use addr_text::Peer;
use answer_core::Way;
use arrayvec::ArrayVec;
use map_cell::{CellFault, Door, Naming};
use name_workers::{Fared, Worker};
use outside::{Streams, Writing};
use tcp_frames::{first_message, frame_of};

/// Answers a message.
fn answer_one<J: Naming, Q: Streams, D: Door>(
    worker: &mut Worker<J>,
    streams: &mut Q,
    door: &mut D,
    octets: &[u8],
    from: Peer,
) -> Fared
    ensures fared { IsFared writes Stream worker.old.number worker.old.count from.addr octets.now
        result (eyes_of D.told worker.old.viewer door.old)
        (eyes_of D.told worker.new.viewer door.new)
        (Q.told streams.old) (Q.told streams.new) }
    ensures count { (worker.new.count ≡ following worker.old.count)
        × (worker.new.number ≡ worker.old.number) }
    ensures asked { (D.told door.new).asked ≡ (D.told door.old).asked }
{
    let mut out = ArrayVec::new();
    match worker.answer(door, from.addr, octets, Way::Stream, &mut out) {
        Err(CellFault) => Fared::Refused,
        Ok(None) => Fared::Silent,
        Ok(Some(serial)) => match streams.write(serial, frame_of(&out).as_slice()) {
            Writing::Done => Fared::Sent,
            Writing::Failed => Fared::Failed,
        },
    }
}

/// Whether the lane goes on with the conversation.
pub(crate) fn is_on(fared: Fared) -> bool
    ensures { result ≡ is_on fared }
{
    match fared {
        Fared::Silent => true,
        Fared::Sent => true,
        Fared::Failed => false,
        Fared::Refused => false,
    }
}

/// Answers all whole messages at the front of octets, and gives what is left of these. Silent stands for all of them.
pub(crate) fn answer_all<'a, J: Naming, Q: Streams, D: Door>(
    worker: &mut Worker<J>,
    streams: &mut Q,
    door: &mut D,
    octets: &'a [u8],
    from: Peer,
) -> (Fared, &'a [u8])
    ensures answered { IsAnswered worker.old.number worker.old.count worker.new.count
        from octets.entry.now result.1.now result.0 (eyes_of D.told worker.old.viewer door.old)
        (eyes_of D.told worker.new.viewer door.new) (Q.told streams.old) (Q.told streams.new) }
    ensures number { worker.new.number ≡ worker.old.number }
    ensures asked { (D.told door.new).asked ≡ (D.told door.old).asked }
{
    // tells the prover what the type keeps
    let _ = worker.known();
    let mut rest = octets;
    while let Some((message, behind)) = first_message(rest) {
        let fared = answer_one(worker, streams, door, message, from);
        if !is_on(fared) {
            return (fared, behind);
        }
        rest = behind;
    }
    (Fared::Silent, rest)
}
