//! Runs of the top call for the tests of other crates: topologies and maps, files, lanes by scripts, and what came of a run. Nothing that is served stands on this crate.
#![tactic(auto)]

mod came;
mod commands;
mod devices;
mod fails;
mod feeds;
mod files;
mod lanes;
mod sessions;
mod streams;
mod texts;

pub use came::{AllLent, Came, MemLent, are_joined, lent_of, run};
pub use commands::{ROOM, Row, came_of, came_over, comes_so, comes_with, first_wrong};
pub use devices::{Devices, Feeds, Sinks};
pub use fails::{Fails, NEVER};
pub use feeds::{EMPTY, FeedScript};
pub use files::{Held, shelf_of};
pub use lanes::{MemLane, ONE, QUERY, QUIET, Script, queries};
pub use sessions::{PLAIN, SERVE, SERVE_TWO, Setting, devices_of, session_of};
pub use streams::{MemStreamLane, NO_TALKS, StreamScript};
pub use texts::{
    EIGHT_LEVELS, EMPTY_POOL, FLAT, GOOD_FLAT, GOOD_REGION, NO_DEFAULT, NO_LONGER_FULL, REGION,
    REGION_MAP, TWO_GOOD, ZONE,
};
