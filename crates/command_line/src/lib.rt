//! The words of the command line, read with `clap`.
//!
//! One command, `glb`, with a subcommand that has to be there. Each subcommand has so many positional words, and
//! `serve` six options of one value. Nothing else is declared: no help and no version.
#![tactic(auto)]

mod command;
mod declared;
mod reading;

pub use command::Command;
pub use reading::read_words;
