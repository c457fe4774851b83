//! Whether the map of a state is the group-best one: it is, if no circle of groups can all do better.
#![tactic(auto)]

mod bars;
mod chains;
mod checking;
mod leads;
mod nearest;
mod parents;
mod ranked;
mod resumable;
mod table;

pub use checking::is_best;
pub use resumable::is_resumable;
