//! What the program asks of the outside: files, streams, ports, and who paces it, each with a count of its faults.
//!
//! A trait says what an object means by what it tells: a record of its past, where it tells that, and the count, which
//! every object tells. A call that fails raises the count, and one that does not leaves it. What a record says of the past, which is
//! what was read, taken, tried, put or turned so far, also an object over a system's calls can tell. What is still to
//! come stands in it as an `Option`, since those in memory alone can tell that. The clauses on content hold where it is
//! told.
#![tactic(auto)]

mod calls;
mod file;
mod gate;
mod hold;
mod hold_gate;
mod hold_pace;
mod limits;
mod mem_gate;
mod mem_named_source;
mod mem_notes;
mod mem_pace;
mod mem_port;
mod mem_shelf;
mod mem_sink;
mod mem_source;
mod mem_streams;
mod mem_talk;
mod named_source;
mod notes;
mod pace;
mod port;
mod shelf;
mod sink;
mod source;
mod streams;

pub use file::{Contents, File, NotedLoad};
pub use gate::{Gate, Turning};
pub use hold::{HeldLane, Milestones, Point, Wanted};
pub use hold_gate::HoldGate;
pub use hold_pace::HoldPace;
pub use limits::{LARGEST_DATAGRAM, LARGEST_REPLY, MOST_NOTES};
pub use mem_gate::{MemGate, MemShown};
pub use mem_named_source::MemNamedSource;
pub use mem_notes::{Due, MemGiven, MemNotes};
pub use mem_pace::MemPace;
pub use mem_port::{MemPacket, MemPort, MemTaken, MemTry};
pub use mem_shelf::MemShelf;
pub use mem_sink::MemSink;
pub use mem_source::MemSource;
pub use mem_streams::MemStreams;
pub use mem_talk::{MemPiece, MemTalk};
pub use named_source::NamedSource;
pub use notes::{Notes, Numbered};
pub use pace::{Pace, PaceCall};
pub use port::{Arrival, Opening, Port, Sending};
pub use shelf::{LoadFault, Shelf};
pub use sink::{Put, Sink};
pub use source::{Read, Source};
pub use streams::{Accepting, Reading, Streams, Writing};
