//! The row of queues, what is asked of it in a run, and the ends between threads.
ghost use Rattle.std.specs.Prelude.{◌<◌, length, IfOk};
ghost use Rattle.std.specs.List.{All};
ghost use Rattle.tile_handoff.specs.History.{event_tile};
ghost use Rattle.tile_handoff.specs.Ends.{ArePair};
ghost use Rattle.tile_handoff.specs.Row.{SameShape};

use byte_streams::{Fault, Line};
use growth_support::{Call, expect, refused, wanted};
use std::alloc::{AllocError, Global};
use std::io::Eprint;
use tile_handoff::{
    End, Event, Events, Kind, Mark, NoClose, NoPut, Note, Queues, Receiver, Reply, Row, Sender,
    Took, Whole, ends, run,
};

pub(crate) const END: End = End {
    count: 4,
    line: 0,
    number: 0,
};

pub(crate) fn line(alloc: Global, text: &str) -> Result<Line, AllocError> {
    let bytes = Vec::from_slice(alloc, text.as_bytes())?;
    Ok(Line::from_vec(bytes))
}

/// Whether what was taken is the line of this text.
pub(crate) fn is_text(took: Took, text: &str) -> bool {
    match took {
        Took::Line(line) => line.items() == text.as_bytes(),
        _ => false,
    }
}

pub(crate) fn is_last(took: Took) -> bool {
    match took {
        Took::End(end) => end == END,
        _ => false,
    }
}

pub(crate) fn is_drained(took: Took) -> bool {
    matches!(took, Took::Drained)
}

/// How many marks the row has.
pub(crate) fn count(row: &Row) -> usize {
    row.marks().items().len()
}

/// A line that found no memory for its mark comes back, and is put again.
fn puts_again(rt: &(impl AllocGlobal + Eprint), row: &mut Row, refused: NoPut, text: &str) -> bool
    requires { 0 < length row.old.left }
    ensures { SameShape row.old row.new }
{
    let NoPut::Memory(back) = refused else {
        return false;
    };
    wanted(rt, Call("Row::put"));
    let is_same = back.items() == text.as_bytes();
    row.put(0, back).is_ok() && is_same
}

fn puts(rt: &(impl AllocGlobal + Eprint), row: &mut Row, text: &str) -> Result<bool, AllocError>
    requires { 0 < length row.old.left }
    ensures { SameShape row.old row.new }
{
    let marks = count(row);
    let is_put = match row.put(0, line(rt.alloc(), text)?) {
        Ok(()) => true,
        Err(refused) => puts_again(rt, row, refused, text),
    };
    Ok(is_put && count(row) == marks.saturating_add(1))
}

/// Whether what was taken is the line of this text, or the end.
fn is_taken(took: Took, text: Option<&str>) -> bool {
    match text {
        Some(text) => is_text(took, text),
        None => is_last(took),
    }
}

/// A note that finds no memory for its mark stays, and is taken again.
fn takes(rt: &(impl AllocGlobal + Eprint), row: &mut Row, text: Option<&str>) -> Result<bool, Fault>
    requires { 0 < length row.old.left }
    ensures { SameShape row.old row.new }
{
    let marks = count(row);
    let is_taken = match row.take(0) {
        Ok(took) => is_taken(took, text),
        Err(fault) => {
            wanted(rt, Call("Row::take"));
            is_taken(row.take(0)?, text) && fault == Fault::Memory
        }
    };
    Ok(is_taken && count(row) == marks.saturating_add(1))
}

/// A tile whose end finds no memory for its mark stays open, and is closed again.
fn closes(rt: &(impl AllocGlobal + Eprint), row: &mut Row) -> bool
    requires { 0 < length row.old.left }
    ensures { SameShape row.old row.new }
{
    let marks = count(row);
    let mut answer = row.close(0, END);
    if answer == Err(NoClose::Memory) {
        wanted(rt, Call("Row::close"));
        answer = row.close(0, END);
    }
    answer == Ok(()) && count(row) == marks.saturating_add(1)
}

fn puts_four(rt: &(impl AllocGlobal + Eprint), row: &mut Row) -> Result<bool, Fault>
    requires { 0 < length row.old.left }
    ensures { SameShape row.old row.new }
{
    Ok(puts(rt, row, "a")? && puts(rt, row, "b")? && puts(rt, row, "c")? && puts(rt, row, "d")?)
}

fn takes_two(
    rt: &(impl AllocGlobal + Eprint),
    row: &mut Row,
    first: &str,
    second: &str,
) -> Result<bool, Fault>
    requires { 0 < length row.old.left }
    ensures { SameShape row.old row.new }
{
    Ok(takes(rt, row, Some(first))? && takes(rt, row, Some(second))?)
}

fn is_filled_and_drained(rt: &(impl AllocGlobal + Eprint), row: &mut Row) -> Result<bool, Fault>
    requires { 0 < length row.old.left }
{
    let are_taken = puts_four(rt, row)?
        && takes_two(rt, row, "a", "b")?
        && takes_two(rt, row, "c", "d")?;
    Ok(are_taken && closes(rt, row) && takes(rt, row, None)? && is_drained(row.take(0)?))
}

/// The marks grow in a put, and in a take.
fn row_is_drained(rt: &(impl AllocGlobal + Eprint)) -> Result<bool, Fault> {
    match Row::new(rt.alloc(), 1, 8) {
        Ok(mut row) => is_filled_and_drained(rt, &mut row),
        Err(fault) => refused(rt, Call("Row::new"), fault),
    }
}

fn is_filled_and_closed(rt: &(impl AllocGlobal + Eprint), row: &mut Row) -> Result<bool, Fault>
    requires { 0 < length row.old.left }
{
    let is_closed = puts_four(rt, row)? && closes(rt, row) && takes(rt, row, Some("a"))?;
    Ok(is_closed && row.close(0, END) == Err(NoClose::Closed))
}

/// The marks grow in a close, and in the put of the first line.
fn row_is_closed(rt: &(impl AllocGlobal + Eprint)) -> Result<bool, Fault> {
    match Row::new(rt.alloc(), 2, 8) {
        Ok(mut row) => is_filled_and_closed(rt, &mut row),
        Err(fault) => refused(rt, Call("Row::new"), fault),
    }
}

fn asked(alloc: Global) -> Result<Events, AllocError>
    ensures { IfOk result (All (λ event. event_tile event < 1)) }
{
    let events = vec![in alloc;
        Event::Put(0, line(alloc, "x")?),
        Event::Put(0, line(alloc, "y")?),
        Event::Put(0, line(alloc, "z")?),
        Event::Take(0),
        Event::Close(0, END),
        Event::Put(0, line(alloc, "w")?),
        Event::Take(0),
        Event::Take(0),
        Event::Take(0),
        Event::Close(0, END),
    ]?;
    Ok(Events::from_vec(events))
}

fn mark(kind: Kind, number: u64) -> Mark {
    Mark {
        tile: 0,
        kind,
        number,
    }
}

/// The marks that the events leave.
fn marks() -> [Mark; 6] {
    [
        mark(Kind::Put, 0),
        mark(Kind::Put, 1),
        mark(Kind::Take, 0),
        mark(Kind::Close, 2),
        mark(Kind::Take, 1),
        mark(Kind::Take, 2),
    ]
}

/// What the events are answered: the text of a line, or what else it is.
const REPLIES: [&str; 10] = [
    "accepted", "accepted", "full", "x", "accepted", "closed", "y", "end", "drained", "closed",
];

fn is_answered(reply: &Reply, wanted: &str) -> bool {
    match reply {
        Reply::Accepted => wanted == "accepted",
        Reply::Closed => wanted == "closed",
        Reply::Full => wanted == "full",
        Reply::Line(line) => line.items() == wanted.as_bytes(),
        Reply::End(end) => wanted == "end" && *end == END,
        Reply::Empty => wanted == "empty",
        Reply::Drained => wanted == "drained",
    }
}

fn are_answered(replies: &[Reply]) -> bool {
    for (reply, wanted) in replies.iter().zip(REPLIES.iter()) {
        if !is_answered(reply, wanted) {
            return false;
        }
    }
    replies.len() == REPLIES.len()
}

fn events_are_answered(rt: &(impl AllocGlobal + Eprint)) -> Result<bool, Fault> {
    match run(rt.alloc(), 1, 2, asked(rt.alloc())?) {
        Ok(answer) => {
            let are_answered = are_answered(answer.replies.items());
            Ok(are_answered && answer.row.marks().items() == marks().as_slice())
        }
        Err(fault) => refused(rt, Call("run"), fault),
    }
}

/// Whether the queue of the first tile gives what it is given.
fn hands_over(queues: &mut Queues, x: Line) -> bool
    requires { 0 < length queues.old.tiles }
{
    let is_put = queues.put(0, x).is_ok() && queues.close(0, END).is_ok();
    let is_taken = is_text(queues.take(0), "x") && is_last(queues.take(0));
    is_put && is_taken && is_drained(queues.take(0))
}

fn queues_hand_over(rt: &(impl AllocGlobal + Eprint)) -> Result<bool, Fault> {
    let x = line(rt.alloc(), "x")?;
    match Queues::new(rt.alloc(), 1, 2) {
        Ok(mut queues) => Ok(hands_over(&mut queues, x)),
        Err(fault) => refused(rt, Call("Queues::new"), fault),
    }
}

/// Whether a note is the line of this text.
fn is_line(note: Option<Note>, text: &str) -> bool {
    match note {
        Some(Note::Line(line)) => line.items() == text.as_bytes(),
        _ => false,
    }
}

fn is_end(note: Option<Note>) -> bool {
    match note {
        Some(Note::End(end)) => end == END,
        _ => false,
    }
}

fn is_none(note: Option<Note>) -> bool {
    note.is_none()
}

/// Whether a line came back, as the ring is full.
fn is_given_back(answer: Result<(), Line>, text: &str) -> bool {
    match answer {
        Err(back) => back.items() == text.as_bytes(),
        Ok(()) => false,
    }
}

/// One place: what does not fit comes back, and stays out.
pub(crate) fn ends_hand_over(mut sender: Sender, mut receiver: Receiver, x: Line, y: Line) -> bool
    requires { ArePair sender receiver }
{
    let is_put = sender.try_put(x).is_ok();
    let is_full = is_given_back(sender.try_put(y), "y");
    let Err((sender, end)) = sender.try_end(END) else {
        return false;
    };
    let is_taken = is_line(receiver.try_take(), "x");
    let Ok(closed) = sender.try_end(end) else {
        return false;
    };
    let is_over = is_end(receiver.try_take()) && is_none(receiver.try_take());
    let is_whole = receiver.confirm(closed) == Ok(Whole { left: 0 });
    is_put && is_full && is_taken && is_over && is_whole
}

fn threads_hand_over(rt: &(impl AllocGlobal + Eprint)) -> Result<bool, Fault> {
    let (x, y) = (line(rt.alloc(), "x")?, line(rt.alloc(), "y")?);
    match ends(rt.alloc(), 1) {
        Ok((sender, receiver)) => Ok(ends_hand_over(sender, receiver, x, y)),
        Err(fault) => refused(rt, Call("ends"), fault),
    }
}

#[test]
fn rows_queues_and_ends(rt: HostRuntime) -> Result<(), Fault> {
    expect!(rt; row_is_drained(&rt));
    expect!(rt; row_is_closed(&rt));
    expect!(rt; events_are_answered(&rt));
    expect!(rt; queues_hand_over(&rt));
    expect!(rt; threads_hand_over(&rt));
    Ok(())
}
