//! A mapper and its lanes at once, and behind their joins the closing look of each lane.
#![tactic(auto)]

mod beside;
mod feeders;
mod fork;
mod joins;
mod lane;
mod laws;
mod lent;
mod loan;
mod queue;
mod start_signal;
mod stream;
mod threads;
mod whole;

pub use lane::Lane;
pub use laws::{drives_are_taken, machines_are_kept};
pub use lent::Lent;
pub use stream::StreamLane;
pub use whole::{Crew, DriveEnd, drive};
