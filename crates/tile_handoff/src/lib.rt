//! The row: a queue of bounded capacity for each tile, for one thread. For every list of puts,
//! takes and closes, what was taken from each tile is a prefix of what it put, all of it after
//! close and drain, and nothing is accepted after close ([`run`]). Beneath it stand its queues
//! alone ([`Queues`]), which keep no history and so do not grow.
//!
//! The ends: a ring of bounded capacity for one tile, between two threads. Whatever the schedule,
//! what was taken is a prefix of what was put, all of it where nothing is left, and nothing can be
//! put after the end ([`ends`], [`Receiver::confirm`]). No call of theirs waits.
#![tactic(auto)]

mod event;
mod history;
mod mark;
mod note;
mod outcome;
mod queues;
mod ring;
mod row;
mod runs;

pub use byte_streams::limits::{MAX_CAPACITY, MAX_TILES};
pub use event::{Event, Events, Replies, Reply};
pub use history::{Run, order_and_close};
pub use mark::{Kind, Mark, Marks};
pub use note::{End, Note};
pub use outcome::{NoClose, NoPut, Took};
pub use queues::Queues;
pub use ring::{Closed, Receiver, Sender, Whole, ends};
pub use row::Row;
pub use runs::run;
