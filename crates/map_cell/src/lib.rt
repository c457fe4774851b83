//! The map cell: a published map that viewers look at without waiting, changed by deltas.
#![tactic(auto)]

mod addition;
mod door;
mod front;
mod notes;
mod opening;
mod publisher;
mod rule;
mod sealed;
mod tag;
mod viewer;

pub use door::{CellFault, Door, MemDoor, OpenFault, PlainDoor};
pub use front::{EmptyHistory, Front, Naming};
pub use notes::{KeptNote, NoteRow, RowNotes};
pub use opening::{MOST_VIEWERS, open};
pub use publisher::Publisher;
pub use viewer::{Note, Refused, Viewer};
