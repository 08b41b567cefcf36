//! Tests of the public calls where memory is refused, of `tile_handoff`, `tile_stream` and the crates on them, as those
//! of `city_cut_tests` are of the crates below: how they end well stands there, and `tools/growths.sh` runs both.

mod handoff;
mod merges;
mod streams;
mod tiles;
mod without_memory;
