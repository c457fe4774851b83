//! A lane of datagrams.
ghost use Rattle.std.specs.Prelude.{◌≡◌, IfSome};
ghost use Rattle.outside.specs.Port.{HasDue};
ghost use Rattle.answer_core.specs.declared.way.Way.TheVariants.{Datagram};
ghost use Rattle.lane_model.specs.Lanes.{following};
ghost use Rattle.lane_model.specs.Calls.{IsLaneCall};
ghost use Rattle.lane_model.specs.Replies.{replies};
ghost use Rattle.name_workers.specs.Messages.{IsFared};
ghost use Rattle.name_workers.specs.Moments.{eyes_of, moment_of};
ghost use Rattle.name_workers.specs.Ports.{puts_to};

use crate::ending::Step;
use crate::fared::{Fared, step_after};
use crate::takes::Takes;
use crate::turns::serve_turns;
use crate::worker::Worker;
use addr_text::Peer;
use answer_core::Way;
use arrayvec::ArrayVec;
use lane_model::Ended;
use map_cell::{CellFault, Door, Naming, Note};
use outside::{Arrival, Gate, LARGEST_DATAGRAM, LARGEST_REPLY, Notes, Port, Sending};

/// The room for a datagram: one octet more than the longest that is answered, so that a port sees a longer one without a
/// copy of its own.
const BUFFER: usize = LARGEST_DATAGRAM + 1;

/// Room for a datagram and for its reply.
#[derive(Drop)]
struct Room {
    datagram: [u8; BUFFER],
    reply: ArrayVec<u8, LARGEST_REPLY>,
}

/// Answers the datagram that was taken last. `out` is room for the reply.
fn answer_one<J: Naming, P: Port, D: Door>(
    worker: &mut Worker<J>,
    port: &mut P,
    door: &mut D,
    octets: &[u8],
    from: Peer,
    out: &mut ArrayVec<u8, LARGEST_REPLY>,
) -> Fared
    requires due { IfSome (P.told port.old).past HasDue }
    ensures fared { IsFared (puts_to from) Datagram worker.old.number worker.old.count from.addr
        octets.now result (eyes_of D.told worker.old.viewer door.old)
        (eyes_of D.told worker.new.viewer door.new) (P.told port.old) (P.told port.new) }
    ensures count { (worker.new.count ≡ following worker.old.count)
        × (worker.new.number ≡ worker.old.number) }
    ensures asked { (D.told door.new).asked ≡ (D.told door.old).asked }
{
    match worker.answer(door, from.addr, octets, Way::Datagram, out) {
        Err(CellFault) => Fared::Refused,
        Ok(None) => Fared::Silent,
        Ok(Some(serial)) => match port.send(out.as_slice(), from, serial) {
            Sending::Sent => Fared::Sent,
            Sending::Failed => Fared::Failed,
        },
    }
}

impl<P: Port> Takes<P> for Room {
    ghost use Rattle.lane_model.specs.Turns.{Turn};
    ghost use Rattle.name_workers.specs.Ports.{datagrams};

    ghost Took = { Turn };

    ghost taking = { datagrams P.told };

    fn fresh() -> Room {
        Room {
            datagram: [0u8; BUFFER],
            reply: ArrayVec::new(),
        }
    }

    fn take<J: Naming, D: Door>(
        &mut self,
        port: &mut P,
        worker: &mut Worker<J>,
        door: &mut D,
    ) -> Step {
        let Room { datagram, reply } = self;
        match port.recv(worker.known(), datagram) {
            Arrival::Arrived(len, from) => step_after(answer_one(
                worker,
                port,
                door,
                &datagram[..len],
                from,
                reply,
            )),
            Arrival::Idle => Step::On,
            Arrival::Oversize => Step::On,
            Arrival::End => Step::PortEnd,
            Arrival::Failed => Step::PortFailed,
        }
    }
}

/// Serves a port: in each turn asks the gate, learns the notes, and answers the next datagram.
pub fn serve_port<J: Naming, P: Port, G: Gate, D: Door, N: Notes<Note<J>>>(
    worker: &mut Worker<J>,
    port: &mut P,
    gate: &mut G,
    door: &mut D,
    notes: &mut N,
    turns: u64,
) -> Ended
    ensures call { IsLaneCall replies worker.old.number turns (moment_of P.told G.told N.told
        port.old gate.old notes.old (eyes_of D.told worker.old.viewer door.old) worker.old.count)
        (moment_of P.told G.told N.told port.new
        gate.new notes.new (eyes_of D.told worker.new.viewer door.new) worker.new.count) result }
    ensures number { worker.new.number ≡ worker.old.number }
    // No place is asked for.
    ensures asked { (D.told door.new).asked ≡ (D.told door.old).asked }
{
    let (ended, _) = serve_turns::<J, P, Room, G, D, N>(worker, port, gate, door, notes, turns);
    ended
}
