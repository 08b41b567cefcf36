//! A ring between its two ends, in one thread and in two.
ghost use Rattle.std.specs.Prelude.{◌≡◌, ◌<◌, ◌≤◌, [], ◌∷◌, ◌++◌, map, IfOk};
ghost use Rattle.tile_handoff.specs.Ends.{notes_put, notes_carried, notes_taken, IsSameSender, IsSameReceiver, EndedIn};
ghost use Rattle.tile_handoff.specs.declared.note.End.{End};
ghost use Rattle.tile_handoff.specs.declared.note.Note.{Note};

use byte_streams::{Fault, Line};
use std::alloc::{AllocError, Global};
use std::snapshot::Snapshot;
use std::sync::Wait;
use std::thread;
use std::thread::{Promise, Threads};
use tile_handoff::{Closed, End, MAX_CAPACITY, Note, Receiver, Sender, Whole, ends};

const END: End = End {
    count: 2,
    line: 7,
    number: 3,
};

fn line(alloc: Global, text: &str) -> Result<Line, AllocError> {
    let bytes = Vec::from_slice(alloc, text.as_bytes())?;
    Ok(Line::from_vec(bytes))
}

// Whether the line of this text is put.
fn is_put(sender: &mut Sender, alloc: Global, text: &str) -> bool
    ensures same { IsSameSender sender.old sender.new }
{
    match line(alloc, text) {
        Ok(line) => sender.try_put(line).is_ok(),
        Err(_) => false,
    }
}

fn is_note(note: Option<Note>, text: &str) -> bool {
    match note {
        Some(Note::Line(line)) => line.items() == text.as_bytes(),
        _ => false,
    }
}

// How many notes are left where two lines and an end note are put, and a line is taken.
fn left_of_three(alloc: Global) -> Result<Option<u32>, Fault> {
    let (mut sender, mut receiver) = ends(alloc, 4)?;
    let x = is_put(&mut sender, alloc, "x");
    let y = is_put(&mut sender, alloc, "y");
    let Ok(closed) = sender.try_end(END) else {
        return Ok(None);
    };
    let taken = is_note(receiver.try_take(), "x");
    let whole = receiver.confirm(closed)?;
    Ok((x && y && taken).then_some(whole.left))
}

#[test]
fn what_is_left_is_counted(rt: HostRuntime) {
    assert!(rt; left_of_three(rt.alloc()) == Ok(Some(2)));
}

// Waits until the line is put.
fn put(rt: &impl Wait, sender: &mut Sender, line: Line)
    ensures same { IsSameSender sender.old sender.new }
    ensures put { notes_put sender.new ≡ notes_put sender.old ++ Note.Line line ∷ [] }
{
    let mut line = line;
    'full: for _ in rt.forever() {
        match sender.try_put(line) {
            Ok(()) => return,
            Err(back) => line = back,
        }
        thread::yield_now();
    }
    unreachable!()
}

// Waits until the end note is put.
fn end(rt: &impl Wait, sender: Sender, end: End) -> Closed
    ensures own { EndedIn sender result }
    ensures put { notes_carried result ≡ notes_put sender ++ Note.End end ∷ [] }
{
    let mut sender = sender;
    'full: for _ in rt.forever() {
        match sender.try_end(end) {
            Ok(closed) => return closed,
            Err((back, _)) => sender = back,
        }
        thread::yield_now();
    }
    unreachable!()
}

// Puts all the lines, and then the end note.
fn feed(rt: &impl Wait, lines: Vec<Line>, sender: Sender) -> Closed
    ensures own { EndedIn sender result }
    ensures put { notes_carried result ≡
        notes_put sender ++ map (λ line. Note.Line line) lines.items ++ Note.End END ∷ [] }
{
    let mut sender = sender;
    'feeding: for line in lines {
        put(rt, &mut sender, line);
    }
    end(rt, sender, END)
}

// Waits for a note.
fn take(rt: &impl Wait, receiver: &mut Receiver) -> Note
    ensures same { IsSameReceiver receiver.old receiver.new }
    ensures taken { notes_taken receiver.new ≡ notes_taken receiver.old ++ result ∷ [] }
{
    'empty: for _ in rt.forever() {
        if let Some(note) = receiver.try_take() {
            return note;
        }
        thread::yield_now();
    }
    unreachable!()
}

// Takes lines up to the end note.
fn drain(rt: &impl Wait, alloc: Global, receiver: &mut Receiver) -> Result<Vec<Line>, AllocError>
    ensures same { IsSameReceiver receiver.old receiver.new }
    ensures taken { IfOk result (λ lines. (end : End) × (notes_taken receiver.new ≡
        notes_taken receiver.old ++ map (λ line. Note.Line line) lines.items
        ++ Note.End end ∷ [])) }
{
    let mut lines = Vec::new(alloc);
    'draining: for _ in rt.forever() {
        match take(rt, receiver) {
            Note::Line(line) => lines.push(line)?,
            Note::End(_) => return Ok(lines),
        }
    }
    unreachable!()
}

// What the feeding thread promises: all the lines and then the end note went through its sender.
#[derive(Drop)]
struct Feeds {
    lines: Snapshot<Vec<Line>>,
    sender: Snapshot<Sender>,
}

impl Promise<Closed> for Feeds {
    ghost use Rattle.tile_handoff_tests.specs.declared.rings.TheConstants.{END};

    ghost kept_by = { λ feeds closed. EndedIn feeds.sender.value closed
        × (notes_carried closed ≡ notes_put feeds.sender.value
        ++ map (λ line. Note.Line line) feeds.lines.value.items ++ Note.End END ∷ []) };
}

// What comes out of the ring in this thread is what another put into it, in order, whatever the
// schedule.
fn pass<R: Threads + Wait + Copy + Send + 'static>(
    rt: &R,
    alloc: Global,
    capacity: u32,
    lines: Vec<Line>,
) -> Result<(Vec<Line>, Whole), Fault>
    requires { (0 < capacity) × (capacity ≤ MAX_CAPACITY) }
    ensures { IfOk result (λ passed. (passed.0.items ≡ lines.items) × (passed.1.left ≡ 0)) }
{
    let (sender, mut receiver) = ends(alloc, capacity)?;
    let handle = *rt;
    let feeds = Feeds {
        lines: Snapshot::of(&lines),
        sender: Snapshot::of(&sender),
    };
    let Ok(feeder) = thread::spawn_with(rt, feeds, move || feed(&handle, lines, sender)) else {
        return Err(Fault::NoThread);
    };
    let Ok(passed) = drain(rt, alloc, &mut receiver) else {
        return Err(Fault::Memory);
    };
    let whole = receiver.confirm(feeder.join(rt))?;
    Ok((passed, whole))
}

fn numbered(alloc: Global, number: u32) -> Result<Line, AllocError> {
    let bytes = Vec::from_slice(alloc, &number.to_le_bytes())?;
    Ok(Line::from_vec(bytes))
}

fn numbered_lines(alloc: Global) -> Result<Vec<Line>, AllocError> {
    let mut lines = Vec::new(alloc);
    for number in 0..10_000u32 {
        lines.push(numbered(alloc, number)?)?;
    }
    Ok(lines)
}

// How many of the first lines have the number that they are to have.
fn count_numbered(lines: &[Line]) -> u32 {
    let mut number = 0u32;
    for line in lines {
        if line.items() != number.to_le_bytes().as_slice() {
            return number;
        }
        number = number.saturating_add(1);
    }
    number
}

// Whether all lines came, as they were put, and no notes are left.
fn all_pass<R: Threads + Wait + Copy + Send + 'static>(
    rt: &R,
    alloc: Global,
    capacity: u32,
) -> Result<bool, Fault>
    requires { (0 < capacity) × (capacity ≤ MAX_CAPACITY) }
{
    let (lines, whole) = pass(rt, alloc, capacity, numbered_lines(alloc)?)?;
    Ok(lines.len() == 10_000 && count_numbered(&lines) == 10_000 && whole.left == 0)
}

#[test]
fn two_threads(rt: HostRuntime) -> Result<(), Fault> {
    assert!(rt; all_pass(&rt, rt.alloc(), 1)?);
    assert!(rt; all_pass(&rt, rt.alloc(), 64)?);
    Ok(())
}
