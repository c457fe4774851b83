//! What a lane of the server does, said of plain lists: lane runs over a history of versions, what a lane was told, the
//! turns of one call, and the machine of commits, tells and takes, with the laws that join them.
//!
//! Versions and their replies are parameters of most of these definitions; `specs/Replies` and `specs/Histories` put the
//! published ones in.
#![tactic(auto)]

mod draws;
mod ended;

pub use draws::{draw_of, next_number};
pub use ended::Ended;
