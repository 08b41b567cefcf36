//! How long a line and a tile may be.
use byte_streams::limits::{MAX_LINE_BYTES, MAX_TILE_BYTES};

/// The most bytes that a line and a tile may have.
#[derive(Clone, Copy, Debug, PartialEq, Eq)]
pub struct Limits {
    pub line: u64,
    pub tile: u64,
}

/// The limits of a stream that the program reads.
pub const STREAM_LIMITS: Limits = Limits {
    line: MAX_LINE_BYTES,
    tile: MAX_TILE_BYTES,
};
