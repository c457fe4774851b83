//! What is promised, on one page: specs/Headline. Nothing runs here.
#![tactic(auto)]

mod laws;

pub use laws::{agreed, alike, promised};
