//! What is asked of a row, and what it replies.
ghost use Rattle.std.specs.Prelude.{◌≡◌, ◌<◌, ◌≤◌, IfOk};
ghost use Rattle.std.specs.List.{All};
ghost use Rattle.tile_handoff.specs.History.{event_tile};

use byte_streams::{Fault, Line};
use std::alloc::{AllocError, Global};
use tile_handoff::{
    End, Event, Events, Kind, MAX_CAPACITY, MAX_TILES, Mark, Marks, Replies, Reply, Run,
    order_and_close, run,
};

const END: End = End {
    count: 2,
    line: 0,
    number: 0,
};

fn line(alloc: Global, text: &str) -> Result<Line, AllocError> {
    let bytes = Vec::from_slice(alloc, text.as_bytes())?;
    Ok(Line::from_vec(bytes))
}

fn mark(tile: u32, kind: Kind, number: u64) -> Mark {
    Mark { tile, kind, number }
}

// What a row is asked of a tile, and its reply: `take`, `close` or the text of a line that is put,
// and the reply with a line's bytes as a text and an end by its count.
type Step<'a> = (u32, &'a str, &'a str);

fn event_of(alloc: Global, tile: u32, asked: &str) -> Result<Event, AllocError>
    ensures { IfOk result (λ event. event_tile event ≡ tile) }
{
    Ok(match asked {
        "take" => Event::Take(tile),
        "close" => Event::Close(tile, END),
        text => Event::Put(tile, line(alloc, text)?),
    })
}

// Those of the steps that are of so many tiles.
fn events_of(alloc: Global, tiles: u32, steps: &[Step<'_>]) -> Result<Events, AllocError>
    ensures { IfOk result (All (λ event. event_tile event < tiles)) }
{
    let mut events = Vec::new(alloc);
    'asked: for (tile, asked, _) in steps {
        if *tile < tiles {
            events.push(event_of(alloc, *tile, asked)?)?;
        }
    }
    Ok(Events::from_vec(events))
}

fn is_shown(reply: &Reply, text: &str) -> bool {
    match reply {
        Reply::Accepted => text == "Accepted",
        Reply::Closed => text == "Closed",
        Reply::Full => text == "Full",
        Reply::Line(line) => text.as_bytes().strip_prefix(b"Line ") == Some(line.items()),
        Reply::End(end) => text == "End 2" && end.count == 2,
        Reply::Empty => text == "Empty",
        Reply::Drained => text == "Drained",
    }
}

fn are_shown(replies: &[Reply], steps: &[Step<'_>]) -> bool {
    for (reply, (_, _, text)) in replies.iter().zip(steps) {
        if !is_shown(reply, text) {
            return false;
        }
    }
    replies.len() == steps.len()
}

fn is_told(answer: &Run, steps: &[Step<'_>], marks: &[Mark]) -> bool {
    are_shown(answer.replies.items(), steps) && answer.row.marks().items() == marks
}

// Whether the steps have their replies, and leave these marks.
fn are_answered(
    alloc: Global,
    tiles: u32,
    capacity: u32,
    steps: &[Step<'_>],
    marks: &[Mark],
) -> Result<bool, Fault>
    requires tiles { (0 < tiles) × (tiles ≤ MAX_TILES) }
    requires capacity { (0 < capacity) × (capacity ≤ MAX_CAPACITY) }
{
    let answer = run(alloc, tiles, capacity, events_of(alloc, tiles, steps)?)?;
    Ok(is_told(&answer, steps, marks))
}

fn of_two_tiles() -> [Step<'static>; 10] {
    [
        (0, "x", "Accepted"),
        (1, "y", "Accepted"),
        (0, "z", "Full"),
        (1, "take", "Line y"),
        (1, "take", "Empty"),
        (0, "close", "Full"),
        (0, "take", "Line x"),
        (0, "close", "Accepted"),
        (0, "take", "End 2"),
        (0, "take", "Drained"),
    ]
}

fn marks_of_two_tiles() -> [Mark; 6] {
    [
        mark(0, Kind::Put, 0),
        mark(1, Kind::Put, 0),
        mark(1, Kind::Take, 0),
        mark(0, Kind::Take, 0),
        mark(0, Kind::Close, 1),
        mark(0, Kind::Take, 1),
    ]
}

#[test]
fn two_tiles_share_a_row(rt: HostRuntime) -> Result<(), Fault> {
    assert!(rt; are_answered(rt.alloc(), 2, 1, &of_two_tiles(), &marks_of_two_tiles())?);
    Ok(())
}

fn of_equal_lines() -> [Step<'static>; 8] {
    [
        (0, "x", "Accepted"),
        (0, "x", "Accepted"),
        (0, "x", "Full"),
        (0, "take", "Line x"),
        (0, "x", "Accepted"),
        (0, "take", "Line x"),
        (0, "take", "Line x"),
        (0, "take", "Empty"),
    ]
}

fn marks_of_equal_lines() -> [Mark; 6] {
    [
        mark(0, Kind::Put, 0),
        mark(0, Kind::Put, 1),
        mark(0, Kind::Take, 0),
        mark(0, Kind::Put, 2),
        mark(0, Kind::Take, 1),
        mark(0, Kind::Take, 2),
    ]
}

#[test]
fn equal_lines_are_all_kept(rt: HostRuntime) -> Result<(), Fault> {
    assert!(rt; are_answered(rt.alloc(), 1, 2, &of_equal_lines(), &marks_of_equal_lines())?);
    Ok(())
}

#[test]
fn no_events_leave_nothing(rt: HostRuntime) -> Result<(), Fault> {
    assert!(rt; are_answered(rt.alloc(), 64, 1024, &[], &[])?);
    Ok(())
}

fn marks_are_kept(alloc: Global) -> Result<bool, AllocError> {
    let marks = Marks::from_vec(vec![in alloc; mark(3, Kind::Take, 7)]?);
    Ok(marks.into_vec().as_slice() == [mark(3, Kind::Take, 7)].as_slice())
}

fn replies_are_kept(alloc: Global) -> Result<bool, AllocError> {
    let replies = Replies::from_vec(vec![in alloc; Reply::Empty]?);
    Ok(matches!(replies.into_vec().pop(), Some(Reply::Empty)))
}

fn events_are_kept(alloc: Global) -> Result<bool, AllocError> {
    let events = events_of(alloc, 2, &of_two_tiles())?;
    Ok(events.items().len() == 10 && events.into_vec().len() == 10)
}

#[test]
fn lists_keep_their_items(rt: HostRuntime) {
    assert!(rt; marks_are_kept(rt.alloc()) == Ok(true));
    assert!(rt; replies_are_kept(rt.alloc()) == Ok(true));
    assert!(rt; events_are_kept(rt.alloc()) == Ok(true));
    order_and_close();
}

// The line of tile `t` with this number.
fn numbered(alloc: Global, t: u32, number: u32) -> Result<Line, AllocError> {
    let mut bytes = Vec::from_slice(alloc, &t.to_le_bytes())?;
    bytes.extend_from_slice(&number.to_le_bytes())?;
    Ok(Line::from_vec(bytes))
}

fn is_numbered(alloc: Global, line: &Line, t: u32, number: u32) -> Result<bool, AllocError> {
    Ok(line.items() == numbered(alloc, t, number)?.items())
}

// How often each tile is asked something.
const ROUNDS: u32 = 2054;

// What tile `t` is asked in a round: to take lines in until it is full and one more, to close, to
// give a line, to close, to take a line in, to give all that is left and once more.
fn event_in(alloc: Global, round: u32, t: u32) -> Result<Event, AllocError>
    requires { t < MAX_TILES }
    ensures { IfOk result (λ event. event_tile event < MAX_TILES) }
{
    Ok(match round {
        ..=1024 | 1028 => Event::Put(t, numbered(alloc, t, round)?),
        1025 | 1027 => Event::Close(t, END),
        _ => Event::Take(t),
    })
}

fn is_reply_in(alloc: Global, round: u32, t: u32, reply: &Reply) -> Result<bool, AllocError> {
    Ok(match (round, reply) {
        (..=1023 | 1027, Reply::Accepted) => true,
        (1024 | 1025, Reply::Full) => true,
        (1026, Reply::Line(line)) => is_numbered(alloc, line, t, 0)?,
        (1028, Reply::Closed) => true,
        (1029..=2051, Reply::Line(line)) => is_numbered(alloc, line, t, round - 1028)?,
        (2052, Reply::End(end)) => *end == END,
        (2053, Reply::Drained) => true,
        _ => false,
    })
}

fn largest_row(alloc: Global) -> Result<Events, AllocError>
    ensures { IfOk result (All (λ event. event_tile event < MAX_TILES)) }
{
    let mut events = Vec::new(alloc);
    for i in 0..ROUNDS * MAX_TILES {
        events.push(event_in(alloc, i / MAX_TILES, i % MAX_TILES)?)?;
    }
    Ok(Events::from_vec(events))
}

// How many of the first replies are as they are to be.
fn count_replied(alloc: Global, replies: &[Reply]) -> Result<u32, AllocError> {
    let mut count = 0u32;
    for reply in replies {
        if !is_reply_in(alloc, count / MAX_TILES, count % MAX_TILES, reply)? {
            return Ok(count);
        }
        count = count.saturating_add(1);
    }
    Ok(count)
}

// How many replies and marks there are, and how many of the first replies are as they are to be.
fn largest_told(alloc: Global, answer: &Run) -> Result<(usize, usize, u32), AllocError> {
    let replies = answer.replies.items();
    let marks = answer.row.marks().items();
    Ok((replies.len(), marks.len(), count_replied(alloc, replies)?))
}

fn largest_row_answers(alloc: Global) -> Result<(usize, usize, u32), Fault> {
    let answer = run(alloc, MAX_TILES, MAX_CAPACITY, largest_row(alloc)?)?;
    Ok(largest_told(alloc, &answer)?)
}

#[test]
fn the_largest_row_is_filled_and_drained(rt: HostRuntime) -> Result<(), Fault> {
    let (count, marks, replied) = largest_row_answers(rt.alloc())?;
    assert!(rt; replied == ROUNDS * MAX_TILES);
    assert!(rt; count == (ROUNDS * MAX_TILES) as usize);
    assert!(rt; marks == (2 * (MAX_CAPACITY + 1) * MAX_TILES) as usize);
    Ok(())
}
