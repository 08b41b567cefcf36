//! Streams of several tiles: [`merge_in_turn`] and [`merge`], this with a thread for each tile, write
//! that of the features of the tiles that are chosen, each moved onto the grid that they share. What
//! either writes is an interleaving ([`turns_interleave`]).
#![tactic(auto)]

mod laws;
mod merging;

pub use laws::turns_interleave;
pub use merging::in_turn::merge_in_turn;
pub use merging::report::{Counts, Report};
pub use merging::threaded::merge;
pub use merging::tiles::tile_count;
pub use tile_stream::{LineFault, Lines, MergeFault, NumberedLine, filter_stream};
