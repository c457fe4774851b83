//! A lane with its worker: its turns, and its closing look.
ghost use Rattle.std.specs.Prelude.{◌≡◌, ℕ};
ghost use Rattle.past_log.specs.Notes.{no_notes};
ghost use Rattle.name_workers.specs.Moments.{eyes_of};
ghost use Rattle.drive.specs.Closing.{IsClosing, shut};

use lane_model::Ended;
use map_cell::{CellFault, Door, Naming, Note, NoteRow, RowNotes};
use name_workers::{Worker, serve_port};
use outside::{Gate, Port};
use past_log::NotesPast;
use published_map::MapVersion;
use std::marker::Model;

/// What a worker is lent.
#[derive(Drop)]
pub struct Lane<P: Port, G: Gate, D: Door> {
    /// Where datagrams come from, and replies go to.
    pub port: P,
    /// Asked ahead of each turn.
    pub gate: G,
    /// The worker's way to the maps.
    pub door: D,
    /// The notes that the worker was given that served it last.
    pub notes: NotesPast,
}

impl<P: Port, G: Gate, D: Door> Model for Lane<P, G, D> {
    ghost use Rattle.drive.specs.Done.{LaneTold};

    ghost Value = { LaneTold };

    ghost view = { λ l. record {
      port = (P.told l.port).past;
      port_faults = (P.told l.port).faults;
      gate = (G.told l.gate).past;
      gate_faults = (G.told l.gate).faults;
      asked = (D.told l.door).asked;
      looks = (D.told l.door).looks;
      greatest = (D.told l.door).greatest;
      door_faults = (D.told l.door).faults;
      notes = l.notes.told;
    } };
}

impl<P: Port, G: Gate, D: Door> Lane<P, G, D> {
    /// One that served nobody so far.
    pub fn new(port: P, gate: G, door: D) -> Lane<P, G, D>
        ensures { result ≡ record {
          port = (P.told port).past;
          port_faults = (P.told port).faults;
          gate = (G.told gate).past;
          gate_faults = (G.told gate).faults;
          asked = (D.told door).asked;
          looks = (D.told door).looks;
          greatest = (D.told door).greatest;
          door_faults = (D.told door).faults;
          notes = no_notes;
        } }
    {
        Lane {
            port,
            gate,
            door,
            notes: NotesPast::new(),
        }
    }
}

/// A lane's worker, how many turns it has, and how its lane ended.
#[derive(Drop)]
pub(crate) struct LaneWorker<J: Naming> {
    pub worker: Worker<J>,
    pub turns: u64,
    pub ended: Ended,
}

/// How a lane ended whose closing look was refused.
fn shut(ended: Ended) -> Ended
    ensures { result ≡ shut ended }
{
    match ended {
        Ended::Stopped => Ended::CellFault,
        Ended::PortEnd => Ended::CellFault,
        Ended::PortFault => Ended::PortFault,
        Ended::CellFault => Ended::CellFault,
        Ended::Above { known, newest } => Ended::Above { known, newest },
        Ended::Spent => Ended::Spent,
    }
}

/// The closing look: the worker learns of the newest map, and looks once.
pub(crate) fn close_lane<J: Naming, D: Door>(
    worker: &mut Worker<J>,
    door: &mut D,
    note: &Note<J>,
    served: Ended,
) -> Ended
    ensures closing { IsClosing note.now.front
        (eyes_of D.told worker.old.viewer door.old)
        (eyes_of D.told worker.new.viewer door.new) served result }
    ensures asked { (D.told door.new).asked ≡ (D.told door.old).asked }
{
    door.learn(&mut worker.viewer, note);
    let looked = door.look(
        &mut worker.viewer,
        |m: &MapVersion| -> u64
            ensures { result ≡ m.now.serial }
        { m.serial() },
    );
    let within = worker.viewer.is_within(note);
    match looked {
        Err(CellFault) => shut(served),
        Ok(_serial) => {
            if within {
                served
            } else {
                Ended::Above {
                    known: worker.known(),
                    newest: note.serial(),
                }
            }
        }
    }
}

/// What runs in a thread of its own, over what all threads share, with what works in it.
pub(crate) trait Runs<W, H> {
    ghost ran: { Self → Self → H → H → Type 0 };

    fn run(&mut self, row: &W, work: &mut H)
        ensures { ran self.old self.new work.old work.new };
}

/// What is closed when the threads of all lanes have ended.
pub(crate) trait Closes<N, H> {
    ghost closed: { N → Self → Self → H → H → Type 0 };

    fn close(&mut self, note: &N, work: &mut H)
        ensures { closed note.now self.old self.new work.old work.new };
}

impl<J: Naming, P: Port, G: Gate, D: Door> Runs<NoteRow<J>, LaneWorker<J>> for Lane<P, G, D> {
    ghost use Rattle.drive.specs.AllDone.{IsServed};

    ghost ran = { λ a b v w. IsServed a b v w };

    fn run(&mut self, row: &NoteRow<J>, work: &mut LaneWorker<J>) {
        let mut notes = RowNotes::over(row);
        work.ended = serve_port(
            &mut work.worker,
            &mut self.port,
            &mut self.gate,
            &mut self.door,
            &mut notes,
            work.turns,
        );
        self.notes = notes.into_past();
    }
}

impl<J: Naming, P: Port, G: Gate, D: Door> Closes<Note<J>, LaneWorker<J>> for Lane<P, G, D> {
    ghost use Rattle.drive.specs.AllDone.{IsClosed};

    ghost closed = { λ note a b v w. IsClosed note.front a b v w };

    fn close(&mut self, note: &Note<J>, work: &mut LaneWorker<J>) {
        work.ended = close_lane(&mut work.worker, &mut self.door, note, work.ended);
    }
}
