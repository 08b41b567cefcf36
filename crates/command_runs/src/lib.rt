//! The runs of `citymerge`: the words that it is given ([`parse_args`]), what they ask for, done ([`answer`]), with its
//! files, its output, its statuses and its fault lines.
#![tactic(auto)]

mod answering;
mod cat;
mod fault_line;
mod output;
mod report;
mod run;
mod tiles;
mod words;

pub use answering::answer;
pub use cat::run_cat;
pub use fault_line::FaultLine;
pub use output::buffered;
pub use report::{report_fault, show_help, show_usage};
pub use run::{run_filter, run_merge};
pub use tiles::{Opener, SystemFiles, open_tiles};
pub use words::parse_args;
