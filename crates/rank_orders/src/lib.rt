//! The order of an instance's offers: which of two is better, and which place comes next.
#![tactic(auto)]

mod orders;

pub use orders::Orders;

#[cfg(test)]
mod tests;
