//! Tapes and bins, what is read to its end, and what is written whole.
ghost use Rattle.std.specs.Prelude.{◌≤◌};

use byte_streams::{Bin, Device, Fault, Line, Sink, Source, Stop, Tape, read_all, write_all};
use std::alloc::{AllocError, Global};

fn tape_of(alloc: Global, bytes: &[u8], step: usize, fails: bool) -> Result<Tape, AllocError>
    requires { 1 ≤ step }
{
    Ok(Tape::new(Line::from_vec(bytes.to_vec(alloc)?), step, fails))
}

/// For how many bytes a read has room, what it answers, and what stands in the room after it.
type Read<'a> = (usize, Result<usize, Fault>, &'a [u8]);

fn is_read_so(tape: &mut Tape, to: &mut [u8; 4], wanted: &Read<'_>) -> bool {
    let (size, answer, after) = *wanted;
    match to.get_mut(..size) {
        Some(front) => tape.read(front) == answer && to.as_slice() == after,
        None => false,
    }
}

/// Whether the reads go so, each after those before it.
fn are_read_so(tape: &mut Tape, reads: &[Read<'_>]) -> bool {
    let mut to = [b'.'; 4];
    for wanted in reads {
        if !is_read_so(tape, &mut to, wanted) {
            return false;
        }
    }
    true
}

const READS: [Read<'static>; 5] = [
    (4, Ok(2), b"ab.."),
    (0, Ok(0), b"ab.."),
    (4, Ok(1), b"cb.."),
    (4, Ok(0), b"cb.."),
    (4, Ok(0), b"cb.."),
];

#[test]
fn a_tape_gives_its_bytes_by_steps_and_ends(rt: HostRuntime) -> Result<(), AllocError> {
    let mut tape = tape_of(rt.alloc(), b"abc", 2, false)?;
    assert!(rt; are_read_so(&mut tape, &READS));
    Ok(())
}

const FAILED_READS: [Read<'static>; 3] = [
    (4, Ok(3), b"abc."),
    (4, Err(Fault::Read), b"abc."),
    (4, Err(Fault::Read), b"abc."),
];

#[test]
fn a_failing_tape_fails_after_its_last_byte(rt: HostRuntime) -> Result<(), AllocError> {
    let mut tape = tape_of(rt.alloc(), b"abc", 8, true)?;
    assert!(rt; are_read_so(&mut tape, &FAILED_READS));
    Ok(())
}

/// Bytes, and what a write of them answers.
type Write<'a> = (&'a [u8], Result<usize, Fault>);

/// Whether the writes are answered so.
fn are_written_so(bin: &mut Bin, writes: &[Write<'_>]) -> bool {
    for (bytes, answer) in writes {
        if bin.write(bytes) != *answer {
            return false;
        }
    }
    true
}

/// The same, and whether a flush after them answers this, and the bin has these bytes then.
fn is_filled(
    bin: &mut Bin,
    writes: &[Write<'_>],
    flushed: Result<(), Fault>,
    bytes: &[u8],
) -> bool {
    are_written_so(bin, writes) && bin.flush() == flushed && bin.bytes() == bytes
}

const WRITES: [Write<'static>; 4] = [
    (b"abcdef", Ok(3)),
    (b"def", Ok(2)),
    (b"f", Err(Fault::Write)),
    (b"", Ok(0)),
];

#[test]
fn a_bin_takes_what_it_has_room_for(rt: HostRuntime) -> Result<(), Fault> {
    let mut bin = Bin::new(rt.alloc(), 5, 3, false)?;
    assert!(rt; is_filled(&mut bin, &WRITES, Ok(()), b"abcde"));
    Ok(())
}

#[test]
fn a_bin_may_take_nothing_and_fail_to_flush(rt: HostRuntime) -> Result<(), Fault> {
    let mut bin = Bin::new(rt.alloc(), 5, 0, true)?;
    assert!(rt; is_filled(&mut bin, &[(b"abc", Ok(0))], Err(Fault::Write), b""));
    Ok(())
}

/// Whether a reading of `abcde`, of at most so many bytes, takes these and stops so.
fn stops_so(alloc: Global, tape: Tape, limit: u64, bytes: &[u8], stop: Stop) -> bool {
    let mut tape = tape;
    let intake = read_all(alloc, &mut tape, limit);
    intake.bytes.as_slice() == bytes && intake.stop == stop
}

fn is_ended(alloc: Global, step: usize, limit: u64) -> Result<bool, AllocError>
    requires { 1 ≤ step }
{
    let tape = tape_of(alloc, b"abcde", step, false)?;
    Ok(stops_so(alloc, tape, limit, b"abcde", Stop::End))
}

fn is_failed(alloc: Global, limit: u64, stop: Stop) -> Result<bool, AllocError> {
    let tape = tape_of(alloc, b"abcde", 2, true)?;
    Ok(stops_so(alloc, tape, limit, b"abcde", stop))
}

fn is_limited(alloc: Global, limit: u64, bytes: &[u8]) -> Result<bool, AllocError> {
    let tape = tape_of(alloc, b"abcde", 9, false)?;
    Ok(stops_so(alloc, tape, limit, bytes, Stop::Limit))
}

#[test]
fn a_reading_says_why_it_stopped(rt: HostRuntime) -> Result<(), AllocError> {
    assert!(rt; is_ended(rt.alloc(), 2, 5)?);
    assert!(rt; is_ended(rt.alloc(), 9, 9)?);
    assert!(rt; is_failed(rt.alloc(), 5, Stop::Failure)?);
    assert!(rt; is_failed(rt.alloc(), 4, Stop::Limit)?);
    assert!(rt; is_limited(rt.alloc(), 2, b"abc")?);
    assert!(rt; is_limited(rt.alloc(), 0, b"a")?);
    Ok(())
}

fn long_source_is_read(alloc: Global) -> Result<bool, AllocError> {
    let bytes = vec![in alloc; b'a'; 200_000]?;
    let mut device = Device::new(bytes.as_slice());
    let intake = read_all(alloc, &mut device, u64::MAX);
    Ok(intake.stop == Stop::End && intake.bytes.as_slice() == bytes.as_slice())
}

#[test]
fn a_long_source_is_read_in_pieces(rt: HostRuntime) {
    assert!(rt; long_source_is_read(rt.alloc()) == Ok(true));
}

/// Whether this is answered where `abcde` is written into such a bin, and the bin has these bytes then.
fn is_written(
    alloc: Global,
    room: usize,
    step: usize,
    answer: Result<(), Fault>,
    taken: &[u8],
) -> Result<bool, Fault> {
    let mut bin = Bin::new(alloc, room, step, false)?;
    Ok(write_all(&mut bin, b"abcde") == answer && bin.bytes() == taken)
}

#[test]
fn all_is_written_or_a_front_of_it(rt: HostRuntime) -> Result<(), Fault> {
    assert!(rt; is_written(rt.alloc(), 9, 9, Ok(()), b"abcde")?);
    assert!(rt; is_written(rt.alloc(), 5, 2, Ok(()), b"abcde")?);
    assert!(rt; is_written(rt.alloc(), 4, 3, Err(Fault::Write), b"abcd")?);
    assert!(rt; is_written(rt.alloc(), 9, 0, Err(Fault::Write), b"")?);
    Ok(())
}
