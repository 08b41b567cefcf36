//! The two merges of several tiles, and what both are made of.
pub(crate) mod ends;
pub(crate) mod feed;
pub(crate) mod in_turn;
pub(crate) mod report;
pub(crate) mod threaded;
pub(crate) mod tiles;
