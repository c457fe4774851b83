//! How many units all groups together hold at each place of their lists, as a text.
#![tactic(auto)]

mod counting;
mod laws;
mod writing;

pub use laws::places_are_best;
pub use writing::write_places;
