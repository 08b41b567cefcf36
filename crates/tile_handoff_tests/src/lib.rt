//! Tests of `byte_streams` and `tile_handoff` by their public calls. There is no code but these tests, so that the crates
//! whose code they run are not proved once more with them. What rows, queues and ends answer call by call is tested in
//! `tile_merge_tests`, with ample memory and with memory refused.
#![tactic(auto)]

#[cfg(test)]
mod bytes;
#[cfg(test)]
mod rings;
#[cfg(test)]
mod rows;
