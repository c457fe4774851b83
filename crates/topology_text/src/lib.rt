//! Topologies: what a TOML text says of groups, nodes and the zone, or the first fault that it has.
#![tactic(auto)]

mod build;
mod classes;
mod fault;
mod limits;
mod links;
mod names;
mod pairs;
mod parts;
mod prefixes;
mod read;
mod rule;
mod schema;
mod soa;
mod texts;
mod topology;
mod unknown;
mod values;
mod visited;
mod walk;
mod zone;

pub use classes::Classes;
pub use fault::TopologyFault;
pub use read::read_topology;
pub use schema::{At, Key, Place, Spot};
pub use soa::SoaContent;
pub use topology::{Names, Topology, Zone};
