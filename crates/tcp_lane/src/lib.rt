//! A lane over streams: a worker that reads conversations, one at a time, and answers their messages, each behind its
//! length (RFC 1035 section 4.2.2), over a cell of published maps. None of it takes memory, and it waits at its streams
//! alone.
#![tactic(auto)]

mod answering;
mod serve;
mod talk;

pub use serve::serve_streams;
