//! What a real thing was asked, and what it answered. It exists only in proofs: it has no bytes, and its methods do
//! nothing.
#![tactic(auto)]

mod calls;
mod gate;
mod line;
mod notes;
mod pace;
mod past;
mod port;
mod shelf;
mod sink;
mod source;
mod streams;

pub use calls::{CallEvent, CallsPast, CallsTelling};
pub use gate::{GateEvent, GatePast, GateTelling};
pub use line::{LineEvent, LinePast, LineTelling};
pub use notes::{NoteEvent, NotesPast, NotesTelling};
pub use pace::{PaceEvent, PacePast, PaceTelling};
pub use past::Past;
pub use port::{PortEvent, PortPast, PortTelling};
pub use shelf::{LoadEvent, ShelfPast, ShelfTelling};
pub use sink::{SinkEvent, SinkPast, SinkTelling};
pub use source::{NameEvent, SourceEvent, SourcePast, SourceTelling};
pub use streams::{StreamsEvent, StreamsPast, StreamsTelling};
