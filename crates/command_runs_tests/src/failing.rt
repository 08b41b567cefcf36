//! The runs of the program where a reader or a writer fails in ways that a shell cannot make. All
//! others are in `tools/program_test.sh`.

use crate::texts::{A, A_AND_ELSE, A_B, A_B_DOCUMENT, B, B_A, HEADER};
use byte_streams::{Bin, Fault, Line, Sink, Tape, write_all};
use city_feature::Choice;
use command_line::{MergeArgs, Paths};
use command_runs::{buffered, run_cat, run_filter, run_merge};
use std::alloc::Global;
use std::io::{self, ErrorKind, Write};
use std::process::Abort;
use std::sync::Wait;
use std::sync::atomic::AtomicU64;
use std::sync::atomic::Ordering::SeqCst;
use std::thread::Threads;
use tile_stream::TileReader;

const NOT_WRITTEN: &str = "citymerge: the output could not be written\n";

#[derive(Clone, Copy)]
pub(crate) enum Command {
    Cat,
    Filter,
    InTurn,
    Threads,
}

/// What a run reads, so many bytes a read: a merge two tiles, each other command the last alone, which
/// may fail at its end.
#[derive(Clone, Copy)]
pub(crate) struct Given<'a> {
    pub(crate) command: Command,
    pub(crate) first: &'a str,
    pub(crate) last: &'a str,
    pub(crate) step: usize,
    pub(crate) fails: bool,
}

/// The features A and B, or the document of both.
fn both(command: Command, step: usize, fails: bool) -> Given<'static> {
    let last = match command {
        Command::Cat => A_B_DOCUMENT,
        Command::Filter => A_B,
        Command::InTurn | Command::Threads => B,
    };
    Given {
        command,
        first: A,
        last,
        step,
        fails,
    }
}

fn tape(alloc: Global, text: &str, step: usize, fails: bool) -> Result<Tape, Fault> {
    let bytes = text.as_bytes().to_vec(alloc)?;
    Ok(Tape::new(Line::from_vec(bytes), step.max(1), fails))
}

fn last_of(alloc: Global, given: &Given<'_>) -> Result<Tape, Fault> {
    tape(alloc, given.last, given.step, given.fails)
}

fn cat<W: Sink>(
    alloc: Global,
    given: &Given<'_>,
    output: &mut W,
    errors: &mut Bin,
) -> Result<u8, Fault> {
    let mut input = last_of(alloc, given)?;
    Ok(run_cat(alloc, &mut input, output, errors))
}

fn filter<W: Sink>(
    alloc: Global,
    given: &Given<'_>,
    output: &mut W,
    errors: &mut Bin,
) -> Result<u8, Fault> {
    let mut tile = TileReader::new(alloc, last_of(alloc, given)?);
    let every = Choice::new(None, None, false);
    Ok(run_filter(alloc, &mut tile, &every, output, errors))
}

fn readers_of(alloc: Global, given: &Given<'_>) -> Result<Vec<Tape>, Fault> {
    let first = tape(alloc, given.first, given.step, false)?;
    let last = last_of(alloc, given)?;
    Ok(vec![in alloc; first, last]?)
}

fn merge<H, W: Sink>(
    rt: &H,
    in_turn: bool,
    given: &Given<'_>,
    output: &mut W,
    errors: &mut Bin,
) -> Result<u8, Fault>
where
    H: Abort + AllocGlobal + Threads + Wait + Copy + Send + 'static,
{
    let readers = readers_of(rt.alloc(), given)?;
    assert!(rt; !readers.is_empty());
    let args = MergeArgs {
        choice: Choice::new(None, None, false),
        in_turn,
        least: false,
        paths: Paths::new(rt.alloc()),
    };
    Ok(run_merge(rt, rt.alloc(), &args, readers, output, errors))
}

/// Runs the command, and answers its status.
pub(crate) fn run<H, W: Sink>(
    rt: &H,
    given: &Given<'_>,
    output: &mut W,
    errors: &mut Bin,
) -> Result<u8, Fault>
where
    H: Abort + AllocGlobal + Threads + Wait + Copy + Send + 'static,
{
    match given.command {
        Command::Cat => cat(rt.alloc(), given, output, errors),
        Command::Filter => filter(rt.alloc(), given, output, errors),
        Command::InTurn => merge(rt, true, given, output, errors),
        Command::Threads => merge(rt, false, given, output, errors),
    }
}

/// Whether a run whose reader fails at its end, after so many bytes a read, writes this stream, or the
/// other, and says this.
fn is_unread<H>(
    rt: &H,
    command: Command,
    step: usize,
    stream: &str,
    other: &str,
    said: &str,
) -> Result<bool, Fault>
where
    H: Abort + AllocGlobal + Threads + Wait + Copy + Send + 'static,
{
    let mut output = Bin::new(rt.alloc(), 4096, step, false)?;
    let mut errors = Bin::new(rt.alloc(), 256, step, false)?;
    let given = both(command, step, true);
    let is_refused = run(rt, &given, &mut output, &mut errors) == Ok(1);
    let is_said = errors.bytes() == said.as_bytes();
    let is_written = output.bytes() == stream.as_bytes() || output.bytes() == other.as_bytes();
    Ok(is_refused && is_said && is_written)
}

/// The same of each command.
fn are_unread<H>(rt: &H, step: usize) -> Result<bool, Fault>
where
    H: Abort + AllocGlobal + Threads + Wait + Copy + Send + 'static,
{
    let of_filter = "citymerge: tile 1 line 4: the tile could not be read\n";
    let of_merge = "citymerge: tile 2 line 3: the tile could not be read\n";
    let of_cat = "citymerge: tile 1: the tile could not be read\n";
    Ok(
        is_unread(rt, Command::Filter, step, A_B, A_B, of_filter)?
            && is_unread(rt, Command::InTurn, step, A_B, A_B, of_merge)?
            && is_unread(rt, Command::Threads, step, A_B, B_A, of_merge)?
            && is_unread(rt, Command::Cat, step, "", "", of_cat)?,
    )
}

#[test]
fn a_failed_read_is_told_after_all_that_is_before_it(rt: HostRuntime) -> Result<(), Fault> {
    for step in [1usize, 7, 100_000].iter() {
        assert!(rt; are_unread(&rt, *step)?);
    }
    Ok(())
}

/// Whether a run says that it cannot write where so many bytes have room, are taken at a time, and are
/// taken of what is to be written.
fn is_unwritten<H>(
    rt: &H,
    command: Command,
    room: usize,
    step: usize,
    flush_fails: bool,
    taken: usize,
) -> Result<bool, Fault>
where
    H: Abort + AllocGlobal + Threads + Wait + Copy + Send + 'static,
{
    let mut output = Bin::new(rt.alloc(), room, step, flush_fails)?;
    let mut errors = Bin::new(rt.alloc(), 64, 64, false)?;
    let given = both(command, 50, false);
    let is_refused = run(rt, &given, &mut output, &mut errors) == Ok(1);
    let is_said = errors.bytes() == NOT_WRITTEN.as_bytes();
    let are_taken = output.bytes().len() == taken && A_B.as_bytes().starts_with(output.bytes());
    Ok(is_refused && is_said && are_taken)
}

/// How much room an output has, how much it takes at a time, and how much it takes.
const ROOMS: [(usize, usize, usize); 4] = [
    (0, 9, 0),
    (100, 7, 100),
    (200, 4096, 200),
    (4096, 0, 0),
];

/// The same in each of these rooms, and in one that takes so many bytes before a flush, which fails.
fn are_unwritten<H>(rt: &H, command: Command, flushed: usize) -> Result<bool, Fault>
where
    H: Abort + AllocGlobal + Threads + Wait + Copy + Send + 'static,
{
    for (room, step, taken) in ROOMS.iter() {
        if !is_unwritten(rt, command, *room, *step, false, *taken)? {
            return Ok(false);
        }
    }
    is_unwritten(rt, command, 4096, 4096, true, flushed)
}

#[test]
fn a_failed_write_is_told_of_no_tile(rt: HostRuntime) -> Result<(), Fault> {
    assert!(rt; are_unwritten(&rt, Command::Filter, HEADER.len())?);
    assert!(rt; are_unwritten(&rt, Command::InTurn, HEADER.len())?);
    assert!(rt; are_unwritten(&rt, Command::Cat, A_B.len())?);
    Ok(())
}

/// A writer of which so many first writes fail; it counts its calls where the test sees it.
#[derive(Drop)]
struct CountedWriter<'a> {
    failing: u64,
    writes: &'a AtomicU64,
    flushes: &'a AtomicU64,
}

impl<'a> Write for CountedWriter<'a> {
    fn write(&mut self, from: &[u8]) -> io::Result<usize> {
        if self.writes.fetch_add(1, SeqCst) < self.failing {
            return Err(io::Error::from(ErrorKind::Other));
        }
        Ok(from.len())
    }

    fn flush(&mut self) -> io::Result<()> {
        self.flushes.fetch_add(1, SeqCst);
        Ok(())
    }
}

/// Whether short texts are gathered until they are flushed, and a long one is passed on.
fn gathers<W: Sink>(output: &mut W, writes: &AtomicU64, flushes: &AtomicU64) -> bool {
    let are_taken = write_all(output, b"[1]\n") == Ok(())
        && write_all(output, b"[2]\n") == Ok(())
        && write_all(output, b"[3]\n") == Ok(());
    let are_gathered = are_taken && writes.load(SeqCst) == 0;
    let is_flushed = output.flush() == Ok(()) && flushes.load(SeqCst) == 1;
    let are_passed_on = is_flushed && writes.load(SeqCst) == 1;
    let is_taken = write_all(output, &[b'a'; 100_000]) == Ok(());
    are_gathered && are_passed_on && is_taken && writes.load(SeqCst) == 2
}

#[test]
fn short_writes_are_gathered(rt: HostRuntime) -> Result<(), Fault> {
    let writes = AtomicU64::new(0);
    let flushes = AtomicU64::new(0);
    let writer = CountedWriter {
        failing: 0,
        writes: &writes,
        flushes: &flushes,
    };
    let mut output = buffered(rt.alloc(), writer)?;
    assert!(rt; gathers(&mut output, &writes, &flushes));
    Ok(())
}

/// Whether a run after a buffer, of whose writes so many fail, answers this status, says this, and is
/// flushed unless a write failed.
fn is_ended<H>(
    rt: &H,
    given: &Given<'_>,
    failing: u64,
    status: u8,
    said: &str,
) -> Result<bool, Fault>
where
    H: Abort + AllocGlobal + Threads + Wait + Copy + Send + 'static,
{
    let writes = AtomicU64::new(0);
    let flushes = AtomicU64::new(0);
    let writer = CountedWriter {
        failing,
        writes: &writes,
        flushes: &flushes,
    };
    let mut errors = Bin::new(rt.alloc(), 128, 128, false)?;
    let mut output = buffered(rt.alloc(), writer)?;
    let is_right = run(rt, given, &mut output, &mut errors) == Ok(status);
    let is_said = errors.bytes() == said.as_bytes();
    let is_written = writes.load(SeqCst) > 0;
    let is_flushed = flushes.load(SeqCst) > 0;
    Ok(is_right && is_said && is_written && is_flushed == (failing == 0))
}

#[test]
fn what_is_gathered_is_passed_on_at_the_end(rt: HostRuntime) -> Result<(), Fault> {
    let no_feature = "citymerge: tile 1 line 3: the line is not a CityJSONFeature\n";
    let whole = both(Command::Filter, 4096, false);
    let ends_otherwise = Given {
        last: A_AND_ELSE,
        ..whole
    };
    assert!(rt; is_ended(&rt, &whole, 0, 0, "")?);
    assert!(rt; is_ended(&rt, &ends_otherwise, 0, 1, no_feature)?);
    assert!(rt; is_ended(&rt, &ends_otherwise, u64::MAX, 1, NOT_WRITTEN)?);
    assert!(rt; is_ended(&rt, &whole, u64::MAX, 1, NOT_WRITTEN)?);
    assert!(rt; is_ended(&rt, &both(Command::Cat, 4096, false), 1, 1, NOT_WRITTEN)?);
    Ok(())
}
