//! What is asked of a row, and what it replies.
use crate::note::End;
use byte_streams::{Line, Sequence};

/// What is asked of a row. Tiles are counted from 0.
#[derive(Debug, Drop)]
pub enum Event {
    Put(u32, Line),
    Take(u32),
    Close(u32, End),
}

/// What a row answers to an event.
#[derive(Debug, Drop)]
pub enum Reply {
    /// The put or the close was done.
    Accepted,
    /// The tile was closed before.
    Closed,
    /// The tile's queue has no place left.
    Full,
    /// The line that was taken.
    Line(Line),
    /// The end note that was taken.
    End(End),
    /// No note is there, and the end note was not taken.
    Empty,
    /// The end note was taken before.
    Drained,
}

/// Events, in order.
pub type Events = Sequence<Event>;

/// Replies, in order.
pub type Replies = Sequence<Reply>;
