//! Messages of DNS over TCP: each behind two octets, which are its length (RFC 1035 section 4.2.2, RFC 7766 section 8).
//!
//! Octets that came, however they were cut, are messages one after another and a rest. Reading a message off the front,
//! a reply behind its length, and how many whole messages are handed on at once are here; connections are not.
#![tactic(auto)]

mod batch;
mod frame;
mod front;
mod laws;

pub use batch::{Batch, MOST_MESSAGES, batch_of};
pub use frame::{LARGEST_REPLY_FRAME, frame_of};
pub use front::{LARGEST_FRAME, LARGEST_REST, first_message, is_overlong};
pub use laws::{octets_split_once, whole_messages_join};
