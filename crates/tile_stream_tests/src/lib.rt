//! Tests of the lines of a tile, and of the filter of one, by the public calls of `tile_stream`, and of the streams of
//! documents by those of `document_stream`. There is no code but these tests, so that the crates whose code they run are
//! not proved once more with them.
#![tactic(auto)]

#[cfg(test)]
mod chains;
#[cfg(test)]
mod document_streams;
#[cfg(test)]
mod filtering;
#[cfg(test)]
mod following;
#[cfg(test)]
mod hostile;
#[cfg(test)]
mod lines;
#[cfg(test)]
mod texts;
