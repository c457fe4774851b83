//! Units that move up to places whose nodes have room again.
#![tactic(auto)]

mod asked;
mod looking;
mod moves;
mod node_set;
mod offers;
mod opening;
mod search;
mod settling;
mod turns;

pub use asked::Asked;
pub use search::Search;
pub use turns::move_up;
