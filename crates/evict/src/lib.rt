//! One step of deferred acceptance: units are offered at one place, and each node of the path gives up
//! units of its worst offers until it is within its capacity.
#![tactic(auto)]

mod freed;
mod loading;
mod refuser;
mod relief;
mod rival;
mod settle;
mod state;

pub use freed::{Eviction, Freed};
pub use rival::Rival;
pub use state::State;
