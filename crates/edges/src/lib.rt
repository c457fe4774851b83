//! The real things that the program asks: files of the system, its standard streams, UDP, TCP, and a flag that stops
//! lanes.
//!
//! They tell their past: what a call was handed and what it answered is noted in it, in some ten lines a device, and so
//! their clauses tie every answer to what went through the system's calls. Of a file they tell what was read of it in each
//! load, and not what it holds: it may change between two. What a source or a sink does with a reader or a writer of std is said of any that tells its bytes.
//!
//! What has to be trusted is that these lines note the call that they make; that files and sockets are opened as asked;
//! and that the system's readers, writers and sockets are true: that a datagram which is said to be sent goes out, and
//! that one which is said to be received came in. Of TCP, also that the octets of a place are those of its connection, and
//! that what the places hold comes in by `fill_once` and goes out by `flush_once` alone; and of all, how long their calls
//! wait, which descriptors they have, and by which tokens connections are known.
#![tactic(auto)]

mod ears;
mod file_shelf;
mod hall;
mod heard;
mod judged;
mod laws;
mod line;
mod many_streams;
mod named_stream;
mod peers;
mod pieces;
mod places;
mod room;
mod seat;
mod standard_stream;
mod stop_flag;
mod stream_sink;
mod stream_source;
mod udp_port;
mod watch;

pub use file_shelf::FileShelf;
pub use judged::{Knock, arrival_of, is_broken, knock_of, sending_of};
pub use laws::connections_are_in_order;
pub use many_streams::{ManyStreams, SharedTcp};
pub use named_stream::NamedStream;
pub use pieces::{put_whole, read_piece, read_within};
pub use standard_stream::StandardStream;
pub use stop_flag::{FlagGate, FlagPace, StopFlag};
pub use stream_sink::StreamSink;
pub use stream_source::StreamSource;
pub use udp_port::{SharedUdp, UdpPort};
