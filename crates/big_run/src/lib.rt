//! A run over a large world: its map from scratch, its batches by repair, each map checked, and one reply for each group, told as a summary.
#![tactic(auto)]

mod judge;
mod putting;
mod replies;
mod run;
mod summary;
mod work;

pub use putting::put_lines;
pub use replies::{QUERY, client_of};
pub use run::run_world;
pub use summary::{LINE_ROOM, LINES, Summary, SummaryLine};
