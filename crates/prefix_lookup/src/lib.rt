//! The group of the longest prefix that holds an address, and how many bits of the address decide it.
#![tactic(auto)]

mod block;
mod family;
mod lookup;
mod ranges;
mod scope;
mod sweep;

pub use lookup::Lookup;
