//! What a put, a close and a take of a row answer.
use crate::note::End;
use byte_streams::Line;

/// Why a line was not put, with the line.
#[derive(Debug, Drop)]
pub enum NoPut {
    /// The tile was closed.
    Closed(Line),
    /// The tile's queue has no place left.
    Full(Line),
    /// There is not enough memory for the mark.
    Memory(Line),
}

/// Why a tile was not closed.
#[derive(Clone, Copy, Debug, PartialEq, Eq)]
pub enum NoClose {
    /// The tile was closed before.
    Closed,
    /// The tile's queue has no place left for the end note.
    Full,
    /// There is not enough memory for the mark.
    Memory,
}

/// What a take found.
#[derive(Debug, Drop)]
pub enum Took {
    Line(Line),
    End(End),
    /// No note is there, and the end note was not taken.
    Empty,
    /// The end note was taken before.
    Drained,
}
