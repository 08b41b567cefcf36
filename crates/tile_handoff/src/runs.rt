//! Events that are asked of a row, one after the other.
ghost use Rattle.std.specs.Prelude.{◌≡◌, ◌<◌, ◌≤◌, length, IfOk, IfErr};
ghost use Rattle.std.specs.List.{All};
ghost use Rattle.tile_handoff.specs.Takes.{reply_of};
ghost use Rattle.tile_handoff.specs.History.{history_of, event_tile, IsLegal};
ghost use Rattle.tile_handoff.specs.OrderAndClose.{InOrder, WholeAtEnd, NothingAfterClose};
ghost use Rattle.tile_handoff.specs.Row.{SameShape};
ghost use Rattle.tile_handoff.specs.Reflects.{Reflects, Answers};

use crate::event::{Event, Events, Replies, Reply};
use crate::history::Run;
use crate::outcome::{NoClose, NoPut, Took};
use crate::row::Row;
use byte_streams::Fault;
use byte_streams::limits::{MAX_CAPACITY, MAX_TILES};
use std::alloc::Global;

/// Asks the events of a new row, one after the other. The replies are those by counting, so that,
/// of each tile, what the takes answered is a prefix of what was put, all of it where the end note
/// was taken, and nothing is accepted after a close.
///
/// # Errors
///
/// `Fault::Memory` where there is not enough memory for the row, its marks or the replies.
pub fn run(alloc: Global, tiles: u32, capacity: u32, events: Events) -> Result<Run, Fault>
    requires tiles { (0 < tiles) × (tiles ≤ MAX_TILES) }
    requires capacity { (0 < capacity) × (capacity ≤ MAX_CAPACITY) }
    requires events { All (λ event. event_tile event < tiles) events }
    ensures one_reply_each { IfOk result (λ run. length run.replies ≡ length events) }
    ensures legal { IfOk result (λ run. IsLegal capacity (history_of events run.replies)) }
    ensures reflects { IfOk result (λ run. Reflects run.row (history_of events run.replies)) }
    ensures shape { IfOk result (λ run.
        (run.row.capacity ≡ capacity) × (length run.row.left ≡ tiles)) }

    // The law of order and close.
    ensures in_order { IfOk result (λ run. InOrder (history_of events run.replies)) }
    ensures whole { IfOk result (λ run. WholeAtEnd (history_of events run.replies)) }
    ensures closed { IfOk result (λ run. NothingAfterClose (history_of events run.replies)) }

    ensures memory { IfErr result (λ fault. fault ≡ Fault.Memory) }
{
    let mut row = Row::new(alloc, tiles, capacity)?;
    let mut replies = Vec::new(alloc);
    for event in events.into_vec() {
        let reply = apply(&mut row, event)?;
        replies.push(reply)?;
    }
    let replies = Replies::from_vec(replies);
    Ok(Run { replies, row })
}

// Asks one event of a row.
fn apply(row: &mut Row, event: Event) -> Result<Reply, Fault>
    requires { event_tile event < length row.old.left }
    ensures answer { IfOk result (λ reply. Answers row.old event reply row.new) }
    ensures shape { SameShape row.old row.new }
    ensures memory { IfErr result (λ fault. fault ≡ Fault.Memory) }
{
    match event {
        Event::Put(t, line) => match row.put(t, line) {
            Ok(()) => Ok(Reply::Accepted),
            Err(NoPut::Closed(_)) => Ok(Reply::Closed),
            Err(NoPut::Full(_)) => Ok(Reply::Full),
            Err(NoPut::Memory(_)) => Err(Fault::Memory),
        },
        Event::Take(t) => Ok(reply_of(row.take(t)?)),
        Event::Close(t, end) => match row.close(t, end) {
            Ok(()) => Ok(Reply::Accepted),
            Err(NoClose::Closed) => Ok(Reply::Closed),
            Err(NoClose::Full) => Ok(Reply::Full),
            Err(NoClose::Memory) => Err(Fault::Memory),
        },
    }
}

fn reply_of(took: Took) -> Reply
    ensures { result ≡ reply_of took }
{
    match took {
        Took::Line(line) => Reply::Line(line),
        Took::End(end) => Reply::End(end),
        Took::Empty => Reply::Empty,
        Took::Drained => Reply::Drained,
    }
}
