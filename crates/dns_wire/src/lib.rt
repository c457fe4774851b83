//! DNS messages as octets (RFC 1035 section 4.1, RFC 6891 section 6.1): what a datagram asks, and the fields of a reply.
//!
//! Reading looks at the datagram in place and stops at the first field that is not whole, so it takes no memory and no more steps than the datagram has octets, whatever its counts say.
#![tactic(auto)]

mod edns;
mod message;
mod name;
pub mod numbers;
pub mod octets;
mod reading;
mod record;
#[cfg(test)]
mod tests;
mod writing;

pub use edns::{EdnsOption, read_option};
pub use message::{Head, Message, Opt, Query};
pub use octets::ReplyBuffer;
pub use reading::{is_silent, read_query};
pub use writing::{write_head, write_opt, write_opt_head, write_question, write_record};
