//! The command line of `citymerge`: its commands and options as `clap` reads them, and what the
//! words ask for ([`parse_words`]).
#![tactic(auto)]

mod choosing;
mod commands;
mod known;
mod merge_args;
mod parsing;
mod refusal;

pub use commands::citymerge_command;
pub use known::known_words;
pub use merge_args::{MergeArgs, paths_of};
pub use parsing::{Parsed, Paths, parse_words};
