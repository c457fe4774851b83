//! The mapper: a feed's batches become maps, each good, and its questions are answered by the newest one.
#![tactic(auto)]

mod adding;
mod current;
mod deed;
mod desk;
mod ends;
mod feed;
mod feeds;
mod laws;
mod mapper;
mod maps;
mod outputs;
mod saying;
mod told;

pub use laws::{batches_are_given, courses_agree, texts_are_merged, versions_agree};
pub use mapper::Mapper;
pub use outputs::Outputs;
pub use saying::{LINE_ROOM, Saying, Spoken, Totals, write_saying};
pub use told::Told;
