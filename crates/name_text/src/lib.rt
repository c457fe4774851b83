//! DNS names: their texts, and their octets on the wire. None of it takes memory.
#![tactic(auto)]

mod compare;
mod fault;
mod name;
mod read;
#[cfg(test)]
mod tests;

pub use compare::{same_name, under};
pub use fault::NameFault;
pub use name::{LONGEST_LABEL, LONGEST_NAME, Name};
pub use read::{read_label, read_name};
