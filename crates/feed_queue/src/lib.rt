//! A queue by which several feeders hand items on to one taker.
//!
//! What is taken is, for each feeder, a beginning of what it sent, each item once and in order.
#![tactic(auto)]

mod feeder;
mod hand;
mod laws;
mod opening;
mod ring;
mod rule;
mod run;
mod sender;
mod taker;

pub use feeder::Feeder;
pub use laws::all_is_taken;
pub use opening::{MOST_FEEDERS, PLACES, open};
pub use rule::Numbers;
pub use taker::Taker;
