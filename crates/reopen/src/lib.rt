//! A state of deferred acceptance, made to fit changed demands and capacities, and resumable again.
#![tactic(auto)]

mod cutting;
mod rolling;

pub use cutting::cut_and_trim;
pub use rolling::{back_place, is_marked, roll_back};
