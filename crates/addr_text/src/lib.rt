//! Texts of addresses, prefixes and listen addresses. None of it takes memory.
#![tactic(auto)]

mod address;
mod digits;
mod groups;
mod read;
mod runs;
mod write;

pub use address::{Addr, Listen, Peer, Prefix};
pub use read::{read_addr, read_listen, read_prefix};
pub use write::write_addr;
