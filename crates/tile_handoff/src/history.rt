//! What came of a run of a row, and the law of order and close.
ghost use Rattle.std.specs.Prelude.{ℕ};
ghost use Rattle.tile_handoff.specs.History.{History, IsLegal};
ghost use Rattle.tile_handoff.specs.OrderAndClose.{InOrder, WholeAtEnd, NothingAfterClose};

use crate::event::Replies;
use crate::row::Row;

/// What a row answered to a list of events, one reply for each, and the row after them.
#[derive(Debug, Drop)]
pub struct Run {
    pub replies: Replies,
    pub row: Row,
}

/// The law of order and close: in a history whose replies are those by counting, what was got of
/// each tile is a prefix of what was put, all of it where the end note was taken, and nothing is
/// accepted after a close. It is a law of the definitions alone; the call does nothing.
pub fn order_and_close()
    ensures in_order { (capacity : ℕ) (h : History) → IsLegal capacity h → InOrder h }
    ensures whole { (capacity : ℕ) (h : History) → IsLegal capacity h → WholeAtEnd h }
    ensures closed { (capacity : ℕ) (h : History) → IsLegal capacity h → NothingAfterClose h }
{}
