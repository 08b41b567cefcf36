//! What goes through a queue or a ring: lines, and an end note.
use byte_streams::Line;

/// What a tile says at its end.
#[derive(Clone, Copy, Debug, PartialEq, Eq)]
pub struct End {
    /// How many lines were put.
    pub count: u64,
    /// The line of the tile's fault, counted from 1, or 0 where there is none.
    pub line: u64,
    /// The number of the tile's fault, or 0 where there is none.
    pub number: u8,
}

/// What stands in a tile's queue: its lines, and after them its end.
#[derive(Debug, Drop)]
pub enum Note {
    Line(Line),
    End(End),
}
