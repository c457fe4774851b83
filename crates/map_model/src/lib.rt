//! Instances of stable allocation on trees of capacities, maps, and every definition of what a good map is.
#![tactic(auto)]

ghost use Rattle.std.specs.Prelude.{◌≡◌, ◌<◌, ◌≤◌, ◌^◌, length, Some, slice_get};

mod change;
mod instance;
mod limits;
mod lines;
mod steps;
mod validity;

pub use change::Change;
pub use instance::{Choice, ClientGroup, GroupId, Instance, Key, Node, NodeId, Offer, Units};
pub use limits::{LEVELS, MOST_CAPACITY, MOST_GROUPS, MOST_NODES, NO_LIMIT, PLACES};
pub use lines::{By, MapLine, MapLines, NameLine};
pub use steps::{Proposals, Steps};
