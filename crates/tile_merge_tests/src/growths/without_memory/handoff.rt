//! Rows and queues that are full, closed, empty or drained, and the ends between threads.
ghost use Rattle.std.specs.Prelude.{◌<◌, length};

use crate::growths::handoff::{END, count, ends_hand_over, is_drained, is_last, is_text, line};
use byte_streams::{Fault, Line};
use growth_support::{give, take};
use std::alloc::Global;
use tile_handoff::{NoClose, NoPut, Queues, Row, Took, ends};

/// Whether a put was refused as of a full tile, or as of a closed one, and gave this text back.
fn is_full(answer: Result<(), NoPut>, text: &str) -> bool {
    match answer {
        Err(NoPut::Full(back)) => back.items() == text.as_bytes(),
        _ => false,
    }
}

fn is_closed(answer: Result<(), NoPut>, text: &str) -> bool {
    match answer {
        Err(NoPut::Closed(back)) => back.items() == text.as_bytes(),
        _ => false,
    }
}

fn is_done(answer: Result<(), NoPut>) -> bool {
    answer.is_ok()
}

fn is_empty(answer: Result<Took, Fault>) -> bool {
    matches!(answer, Ok(Took::Empty))
}

fn was_drained(answer: Result<Took, Fault>) -> bool {
    matches!(answer, Ok(Took::Drained))
}

fn row_is_full(row: &mut Row, y: Line) -> bool
    requires { 0 < length row.old.left }
{
    let is_full = is_full(row.put(0, y), "y");
    is_full && row.close(0, END) == Err(NoClose::Full) && count(row) == 1
}

fn full_row_answers(alloc: Global) -> Result<bool, Fault> {
    let (x, y) = (line(alloc, "x")?, line(alloc, "y")?);
    let mut row = Row::new(alloc, 1, 1)?;
    let is_put = is_done(row.put(0, x));
    let gone = take(alloc);
    let is_full = row_is_full(&mut row, y);
    Ok(give(alloc, gone) && is_put && is_full)
}

fn row_is_closed(row: &mut Row, y: Line) -> bool
    requires { 1 < length row.old.left }
{
    let is_closed = is_closed(row.put(0, y), "y") && row.close(0, END) == Err(NoClose::Closed);
    is_closed && is_empty(row.take(1)) && count(row) == 1
}

fn closed_row_answers(alloc: Global) -> Result<bool, Fault> {
    let y = line(alloc, "y")?;
    let mut row = Row::new(alloc, 2, 1)?;
    let is_done = row.close(0, END) == Ok(());
    let gone = take(alloc);
    let is_closed = row_is_closed(&mut row, y);
    Ok(give(alloc, gone) && is_done && is_closed)
}

fn row_is_drained(row: &mut Row) -> bool
    requires { 0 < length row.old.left }
{
    let is_drained = was_drained(row.take(0));
    is_drained && row.close(0, END) == Err(NoClose::Closed) && count(row) == 2
}

fn drained_row_answers(alloc: Global) -> Result<bool, Fault> {
    let mut row = Row::new(alloc, 1, 1)?;
    let is_done = row.close(0, END) == Ok(()) && is_last(row.take(0)?);
    let gone = take(alloc);
    let is_drained = row_is_drained(&mut row);
    Ok(give(alloc, gone) && is_done && is_drained)
}

#[test]
fn rows_answer(rt: HostRuntime) -> Result<(), Fault> {
    assert!(rt; full_row_answers(rt.alloc())?);
    assert!(rt; closed_row_answers(rt.alloc())?);
    assert!(rt; drained_row_answers(rt.alloc())?);
    Ok(())
}

/// Two places: take, put x, put y, put z, take, end, take, take, take.
fn queue_answers(queues: &mut Queues, x: Line, y: Line, z: Line) -> bool
    requires { 0 < length queues.old.tiles }
{
    let is_empty = matches!(queues.take(0), Took::Empty);
    let (is_first, is_second) = (is_done(queues.put(0, x)), is_done(queues.put(0, y)));
    let is_full = is_full(queues.put(0, z), "z") && is_text(queues.take(0), "x");
    let is_closed = queues.close(0, END) == Ok(()) && is_text(queues.take(0), "y");
    let is_over = is_last(queues.take(0)) && is_drained(queues.take(0));
    let is_left = queues.is_closed(0) && queues.is_empty(0);
    is_empty && is_first && is_second && is_full && is_closed && is_over && is_left
}

fn queues_answer(alloc: Global) -> Result<bool, Fault> {
    let (x, y, z) = (line(alloc, "x")?, line(alloc, "y")?, line(alloc, "z")?);
    let mut queues = Queues::new(alloc, 1, 2)?;
    let gone = take(alloc);
    let is_answered = queue_answers(&mut queues, x, y, z);
    Ok(give(alloc, gone) && is_answered)
}

/// One place: put x, put y, end, take, end, take, take, confirm.
fn ends_answer(alloc: Global) -> Result<bool, Fault> {
    let (x, y) = (line(alloc, "x")?, line(alloc, "y")?);
    let (sender, receiver) = ends(alloc, 1)?;
    let gone = take(alloc);
    let are_handed_over = ends_hand_over(sender, receiver, x, y);
    Ok(give(alloc, gone) && are_handed_over)
}

#[test]
fn queues_and_ends_that_were_made_answer(rt: HostRuntime) -> Result<(), Fault> {
    assert!(rt; queues_answer(rt.alloc())?);
    assert!(rt; ends_answer(rt.alloc())?);
    Ok(())
}
