//! A feed: lines that change demands and capacities, batch by batch, and ask about the map.
//!
//! LF ends each line, and spaces part its words. `demand GROUP N` and `capacity NODE N`
//! add a change to the batch, `commit` ends it, `ask ADDR HEX` and `show` ask, and `stop` ends the feed.
#![tactic(auto)]

mod batch;
mod changes;
mod clerk;
mod cutter;
mod fault;
mod laws;
mod limits;
mod line;
mod pieces;
mod run;
mod sent;
mod takes;
mod words;

pub use batch::{Batch, apply};
pub use changes::{ChangesFault, read_changes};
pub use clerk::{Clerk, Next};
pub use cutter::Cutter;
pub use fault::{BatchFault, LineFault, Refusal};
pub use laws::runs_agree;
pub use limits::{LONGEST_LINE, LONGEST_QUERY, MOST_CHANGES, MOST_TURNS, READ_SIZE};
pub use line::{Line, read_line};
pub use run::{FeedEnd, Intake, run_lines};
pub use sent::{Item, What};
pub use takes::{Taken, TakesTasks};
