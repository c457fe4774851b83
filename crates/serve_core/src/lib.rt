//! The pure machine: what a server does, one atomic step after the other. It takes commits of maps, notes that lanes
//! are told of, and datagrams that lanes take and answer from one published version each, up to the first event that
//! is refused.
#![tactic(auto)]

mod event;
mod lane;
mod octets;
mod world;

pub use event::{Event, StepFault};
pub use octets::Octets;
pub use world::World;
