//! Worked examples and builders for the tests of the other crates. Nothing that is served stands on this crate.
#![tactic(auto)]

mod build;
mod examples;
mod texts;

pub use build::{
    GroupAt, LIMIT, LimitAt, NameAt, NodeAt, Placed, World, instance_of, limited_instance_of,
    map_of,
};
pub use examples::{
    EMPTY_POOL, EXAMPLE, FULL_REGION, INNER, POOL, REFUSER_NO_LONGER_FULL, TWO_GOOD_MAPS,
};
pub use texts::{EXAMPLE_FEED, EXAMPLE_TREE, ZONE};
