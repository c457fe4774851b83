//! A version of the map, in rows, with all that replies are made from, and what changes from one version to the next.
#![tactic(auto)]

mod delta;
mod parts;
mod row;
mod shared;
mod version;

pub use delta::Delta;
pub use row::GroupRow;
pub use shared::Shared;
pub use version::MapVersion;
