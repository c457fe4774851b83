//! The trees of an instance with the units under each node: paths, roots and loads.
#![tactic(auto)]

mod tree;
mod walks;

pub use tree::Tree;

#[cfg(test)]
mod tests;
