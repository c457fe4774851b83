//! A lane for conversations with its worker: its turns, and its closing look.
ghost use Rattle.std.specs.Prelude.{◌≡◌};
ghost use Rattle.past_log.specs.Notes.{no_notes};

use crate::lane::{Closes, LaneWorker, Runs, close_lane};
use map_cell::{Door, Naming, Note, NoteRow, RowNotes};
use outside::{Gate, Streams};
use past_log::NotesPast;
use std::marker::Model;
use tcp_lane::serve_streams;

/// What a worker is lent that answers conversations.
#[derive(Drop)]
pub struct StreamLane<Q: Streams, G: Gate, D: Door> {
    /// Where conversations come from, and replies go to.
    pub streams: Q,
    /// Asked ahead of each turn.
    pub gate: G,
    /// The worker's way to the maps.
    pub door: D,
    /// The notes that the worker was given that served it last.
    pub notes: NotesPast,
}

impl<Q: Streams, G: Gate, D: Door> Model for StreamLane<Q, G, D> {
    ghost use Rattle.drive.specs.Done.{StreamLaneTold};

    ghost Value = { StreamLaneTold };

    ghost view = { λ l. record {
      port = (Q.told l.streams).past;
      port_faults = (Q.told l.streams).faults;
      gate = (G.told l.gate).past;
      gate_faults = (G.told l.gate).faults;
      asked = (D.told l.door).asked;
      looks = (D.told l.door).looks;
      greatest = (D.told l.door).greatest;
      door_faults = (D.told l.door).faults;
      notes = l.notes.told;
    } };
}

impl<Q: Streams, G: Gate, D: Door> StreamLane<Q, G, D> {
    /// One that served nobody so far.
    pub fn new(streams: Q, gate: G, door: D) -> StreamLane<Q, G, D>
        ensures { result ≡ record {
          port = (Q.told streams).past;
          port_faults = (Q.told streams).faults;
          gate = (G.told gate).past;
          gate_faults = (G.told gate).faults;
          asked = (D.told door).asked;
          looks = (D.told door).looks;
          greatest = (D.told door).greatest;
          door_faults = (D.told door).faults;
          notes = no_notes;
        } }
    {
        StreamLane {
            streams,
            gate,
            door,
            notes: NotesPast::new(),
        }
    }
}

impl<J: Naming, Q: Streams, G: Gate, D: Door> Runs<NoteRow<J>, LaneWorker<J>>
    for StreamLane<Q, G, D> {
    ghost use Rattle.drive.specs.AllDone.{IsStreamServed};

    ghost ran = { λ a b v w. IsStreamServed a b v w };

    fn run(&mut self, row: &NoteRow<J>, work: &mut LaneWorker<J>) {
        let mut notes = RowNotes::over(row);
        work.ended = serve_streams(
            &mut work.worker,
            &mut self.streams,
            &mut self.gate,
            &mut self.door,
            &mut notes,
            work.turns,
        );
        self.notes = notes.into_past();
    }
}

impl<J: Naming, Q: Streams, G: Gate, D: Door> Closes<Note<J>, LaneWorker<J>>
    for StreamLane<Q, G, D> {
    ghost use Rattle.drive.specs.AllDone.{IsClosed};

    ghost closed = { λ note a b v w. IsClosed note.front a b v w };

    fn close(&mut self, note: &Note<J>, work: &mut LaneWorker<J>) {
        work.ended = close_lane(&mut work.worker, &mut self.door, note, work.ended);
    }
}
