//! Tests of the real things outside, in a crate of their own, so that they are proved without proving the library again.
#![tactic(auto)]

#[cfg(test)]
mod tests;
