//! The units that offers hold, with the worst offer under each node at hand.
#![tactic(auto)]

mod filing;
mod held;
mod lists;
mod queue;
mod table;

pub use held::Held;
