//! The top call of the mapping system: words, files, a feed, outputs and lanes to a status.
#![tactic(auto)]

mod answer;
mod check;
mod ending;
mod files;
mod large;
mod laws;
mod map;
mod placing;
mod repair;
mod saying;
mod serve;
mod starting;
mod status;
mod text;
mod top;
mod words;

pub use demand_feed::MOST_TURNS;
pub use drive::{Lane, StreamLane};
pub use laws::runs_agree;
pub use status::Status;
pub use top::glb;
