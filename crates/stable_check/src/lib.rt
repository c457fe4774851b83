//! Whether a map is good: in form, feasible, stable and named; and if not, its first fault.
#![tactic(auto)]

mod judge;
mod lines;
mod scans;
mod tallies;
mod verdict;

pub use judge::{CheckRoom, check};
pub use verdict::Verdict;
