//! The traces of accepted events, which a row keeps.
use byte_streams::Sequence;

/// What an accepted event did.
#[derive(Clone, Copy, Debug, PartialEq, Eq)]
pub enum Kind {
    Put,
    Take,
    Close,
}

/// The trace of an accepted event.
#[derive(Clone, Copy, Debug, PartialEq, Eq)]
pub struct Mark {
    /// The tile, counted from 0.
    pub tile: u32,
    pub kind: Kind,
    /// The note's place in its tile's list of notes, counted from 0.
    pub number: u64,
}

/// The accepted events of a row, in order.
pub type Marks = Sequence<Mark>;
