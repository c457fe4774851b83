//! A lane over streams: in each turn a conversation is taken, or a piece of the open one is read and its messages are
//! answered.
ghost use Rattle.std.specs.Prelude.{◌≡◌, ◌≤◌, ◌<◌, ◌-◌, true, false, length};
ghost use Rattle.name_workers.specs.Moments.{eyes_of};
ghost use Rattle.tcp_lane.specs.Calls.{IsStreamCall};
ghost use Rattle.tcp_lane.specs.Moments.{stream_moment_of, talk_state_of};
ghost use Rattle.tcp_lane.specs.Replies.{stream_replies};
ghost use Rattle.tcp_lane.specs.Steps.{IsPieceTaken, IsPlain, IsTaken};
ghost use Rattle.tcp_lane.specs.Turns.{no_talk};

use crate::answering::{answer_all, is_on};
use crate::talk::{LaneTalk, close, joined, kept, no_talk, rest_once};
use arrayvec::ArrayVec;
use lane_model::Ended;
use map_cell::{Door, Naming, Note};
use name_workers::{Step, Takes, Worker, serve_turns, step_after};
use outside::{Accepting, Gate, Notes, Reading, Streams};
use tcp_frames::{LARGEST_FRAME, is_overlong};

/// The conversation of a lane, and room for its next piece.
#[derive(Drop)]
struct Talking {
    talk: LaneTalk,
    piece: [u8; LARGEST_FRAME],
}

/// Takes all whole messages of a piece that was read.
fn take_piece<J: Naming, Q: Streams, D: Door>(
    worker: &mut Worker<J>,
    streams: &mut Q,
    door: &mut D,
    talk: &mut LaneTalk,
    piece: &[u8],
) -> Step
    requires piece { length piece.now ≤ LARGEST_FRAME }
    requires few { talk.old.quiets < 200 }
    ensures few { talk.new.quiets < 200 }
    ensures taken { IsPieceTaken worker.old.number worker.old.count worker.new.count piece.now
        (talk_state_of talk.old)
        (talk_state_of talk.new) result
        (eyes_of D.told worker.old.viewer door.old)
        (eyes_of D.told worker.new.viewer door.new)
        (Q.told streams.old) (Q.told streams.new) }
    ensures number { worker.new.number ≡ worker.old.number }
    ensures asked { (D.told door.new).asked ≡ (D.told door.old).asked }
{
    let octets = joined(&talk.held, piece);
    let (fared, rest) = answer_all(worker, streams, door, octets.as_slice(), talk.peer);
    if !is_on(fared) {
        close(streams, talk);
        return step_after(fared);
    }
    if is_overlong(rest) {
        close(streams, talk);
        return Step::On;
    }
    talk.held = kept(rest);
    talk.quiets = 0;
    Step::On
}

/// Takes the next conversation.
fn accept_one<Q: Streams>(known: u64, streams: &mut Q, talk: &mut LaneTalk) -> Step
    requires shut { talk.old.is_open ≡ false }
    requires few { talk.old.quiets < 200 }
    ensures few { talk.new.quiets < 200 }
    ensures plain { IsPlain known
        (talk_state_of talk.old)
        (talk_state_of talk.new) result
        (Q.told streams.old) (Q.told streams.new) }
{
    match streams.accept(known) {
        Accepting::Come(peer) => {
            talk.is_open = true;
            talk.peer = peer;
            talk.held = ArrayVec::new();
            talk.quiets = 0;
            Step::On
        }
        Accepting::Idle => Step::On,
        Accepting::End => Step::PortEnd,
        Accepting::Failed => Step::PortFailed,
    }
}

/// Reads the next piece of the conversation, and takes its messages.
fn read_one<J: Naming, Q: Streams, D: Door>(
    worker: &mut Worker<J>,
    streams: &mut Q,
    door: &mut D,
    talk: &mut LaneTalk,
    buffer: &mut [u8; LARGEST_FRAME],
) -> Step
    requires open_ { talk.old.is_open ≡ true }
    requires few { talk.old.quiets < 200 }
    ensures few { talk.new.quiets < 200 }
    ensures taken { IsTaken worker.old.number worker.old.count worker.new.count
        (talk_state_of talk.old)
        (talk_state_of talk.new) result
        (eyes_of D.told worker.old.viewer door.old)
        (eyes_of D.told worker.new.viewer door.new)
        (Q.told streams.old) (Q.told streams.new) }
    ensures number { worker.new.number ≡ worker.old.number }
    ensures asked { (D.told door.new).asked ≡ (D.told door.old).asked }
{
    match streams.read(worker.known(), buffer) {
        Reading::Got(len) => take_piece(worker, streams, door, talk, &buffer[..len]),
        Reading::Quiet => {
            rest_once(streams, talk);
            Step::On
        }
        Reading::Closed => {
            close(streams, talk);
            Step::On
        }
        Reading::Failed => {
            close(streams, talk);
            Step::PortFailed
        }
    }
}

impl<Q: Streams> Takes<Q> for Talking {
    ghost use Rattle.tcp_lane.specs.Moments.{talk_state_of};
    ghost use Rattle.tcp_lane.specs.Steps.{conversations};
    ghost use Rattle.tcp_lane.specs.Turns.{StreamTurn};

    ghost Took = { StreamTurn };

    ghost taking = { conversations (λ r. talk_state_of r.talk) Q.told };

    fn fresh() -> Talking {
        Talking {
            talk: no_talk(),
            piece: [0u8; LARGEST_FRAME],
        }
    }

    /// Takes the next conversation, or reads on in the one that is open.
    fn take<J: Naming, D: Door>(
        &mut self,
        port: &mut Q,
        worker: &mut Worker<J>,
        door: &mut D,
    ) -> Step {
        let Talking { talk, piece } = self;
        if talk.is_open {
            read_one(worker, port, door, talk, piece)
        } else {
            accept_one(worker.known(), port, talk)
        }
    }
}

/// Serves streams: in each of at most `turns` turns asks the gate, learns the notes, and takes the next conversation, or
/// reads on in the open one and answers all of its whole messages (RFC 1035 section 4.2.2). Each read is handed 4,098
/// octets: room for a message of 4,096, the longest that is answered, behind its length.
///
/// A conversation is closed where its peer is done, a read or a write failed, 200 reads in a row were quiet, or a length
/// is above 4,096; one that is open at the end is closed then. Of the replies, one failed write leaves a prefix.
///
/// It ends `Stopped` by its gate, `PortEnd` where `accept` answered `End`, `PortFault` at the eighth failed answer of
/// `accept`, `read` and `write`, `CellFault` where a look was refused, and `Spent` after `turns` answers of `accept` and
/// `read`.
pub fn serve_streams<J: Naming, Q: Streams, G: Gate, D: Door, N: Notes<Note<J>>>(
    worker: &mut Worker<J>,
    streams: &mut Q,
    gate: &mut G,
    door: &mut D,
    notes: &mut N,
    turns: u64,
) -> Ended
    ensures call { IsStreamCall stream_replies worker.old.number turns (stream_moment_of Q.told
        G.told N.told streams.old gate.old notes.old (eyes_of D.told worker.old.viewer door.old)
        worker.old.count no_talk) (stream_moment_of Q.told G.told N.told streams.new gate.new
        notes.new (eyes_of D.told worker.new.viewer door.new) worker.new.count no_talk) result }
    ensures number { worker.new.number ≡ worker.old.number }
    // No place is asked for.
    ensures asked { (D.told door.new).asked ≡ (D.told door.old).asked }
{
    let (ended, mut talking) = serve_turns::<J, Q, Talking, G, D, N>(
        worker, streams, gate, door, notes, turns,
    );
    if talking.talk.is_open {
        close(streams, &mut talking.talk);
    }
    ended
}
