//! Deferred acceptance: groups offer their free units place by place until no offer is left.
#![tactic(auto)]

mod bars;
mod circle;
mod finishing;
mod pace;
mod room;
mod running;
mod turn;
mod work;
mod work_list;

pub use finishing::{ended_map, finish};
pub use running::run;

#[cfg(test)]
mod tests;
