//! The stream of one tile, line by line: [`Lines`] gives the lines of what a reader gives, while it is
//! read, and [`TileReader`] what they come to, the header of the tile and the texts of its features.
//! [`filter_stream`] writes the stream of those features that are chosen.
#![tactic(auto)]

mod filter;
mod laws;
mod limits;
mod lines;
mod tile_reader;
mod writing;

pub use byte_streams::{LineFault, MergeFault};
pub use filter::{filter_stream, filter_tile, pass_on};
pub use laws::tape_leaves_one_list;
pub use lines::{Lines, NumberedLine};
pub use tile_reader::{Head, Passed, ReadyTexts, TileReader};
pub use writing::{write_line, write_text};
