//! Replies: which pool a draw picks for a group, and the reply of a version of the map to a datagram. None of it takes memory or waits.
#![tactic(auto)]

mod columns;
mod limit;
mod names;
mod outcome;
mod picking;
mod replying;
mod request;
mod sections;
mod services;
mod way;
mod writing;

pub use picking::pick;
pub use replying::{Answer, reply, silent};
pub use way::Way;
