//! The client subnet option (RFC 7871): what a query's options say of it, and how a reply repeats it. None of it takes memory.
#![tactic(auto)]

mod field;
mod options;
mod subnet;
#[cfg(test)]
mod tests;
mod writing;

pub use options::read_options;
pub use subnet::{ClientSubnet, SubnetOpt};
pub use writing::{option_size, write_subnet};
