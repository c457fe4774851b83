//! The text of a map: one line for each amount that is placed, and one for each name.
//!
//! Each line ends at LF, and one space stands between two words. The first line is `glb map 2` and the last one
//! `end`. Between them stands `place GROUP POOL AMOUNT` for each line of the map, and then `full GROUP POOL NODE`
//! or `limit GROUP POOL` for each of its names, both strictly increasing by the group's number and the pool's place in the group's list.
#![tactic(auto)]

mod after;
mod cutting;
mod fault;
mod lexicon;
mod line;
mod number;
mod offer;
mod read;
mod word;
mod words;
mod write;

pub use after::{Written, write_after, write_first};
pub use cutting::{Cut, Cuts};
pub use fault::MapFault;
pub use line::{Line, Version};
pub use read::read_map;
pub use write::{pool_name, write_map};
