//! Readers that fail at a line, writers that fail at a call, and what is written then.
ghost use Rattle.std.specs.Prelude.{◌≤◌, length};

use crate::merging::{PLAIN, Way, merges_in_turn, readers_of, stream_of, writes_in_turn};
use crate::texts::text;
use byte_streams::{Bin, Device, Fault};
use std::alloc::{AllocError, Global};
use std::io::{self, ErrorKind, Read, Write};
use std::sync::atomic::AtomicU64;
use std::sync::atomic::Ordering::SeqCst;

/// What is answered where a write failed.
pub(crate) const NOT_WRITTEN: &str = "tile 0 line 0: Write";

/// A feature is cut short in the second.
const TILES: &str = "HEADER A1 A2 | HEADER B1 CUT";

/// Gives so many lines, one a read: a header and then the feature of this name again and again; then the end. It
/// counts its reads where the test sees it. The read after so many others fails, and those after it
/// go on.
#[derive(Drop)]
pub(crate) struct LineReader<'a> {
    pub(crate) feature: &'a str,
    pub(crate) lines: u64,
    pub(crate) reads: &'a AtomicU64,
    pub(crate) failing: Option<u64>,
}

impl<'a> Read for LineReader<'a> {
    fn read(&mut self, to: &mut [u8]) -> io::Result<usize> {
        let before = self.reads.fetch_add(1, SeqCst);
        if Some(before) == self.failing {
            return Err(io::Error::from(ErrorKind::Other));
        }
        if before >= self.lines {
            return Ok(0);
        }
        let name = if before == 0 { "HEADER" } else { self.feature };
        Ok(put_line(text(name), to))
    }
}

/// Puts a line at the start of `to`, where there is room for it, and answers its length.
fn put_line(text: &str, to: &mut [u8]) -> usize
    ensures { result ≤ length to.new }
{
    let bytes = text.as_bytes();
    if to.len() <= bytes.len() {
        return 0;
    }
    to[..bytes.len()].copy_from_slice(bytes);
    to[bytes.len()] = b'\n';
    bytes.len() + 1
}

/// It counts its calls where the test sees it; the write after so many others fails, and those after
/// it go on.
#[derive(Drop)]
struct CountedWriter<'a> {
    writes: &'a AtomicU64,
    flushes: &'a AtomicU64,
    failing: u64,
}

impl<'a> Write for CountedWriter<'a> {
    fn write(&mut self, from: &[u8]) -> io::Result<usize> {
        if self.writes.fetch_add(1, SeqCst) == self.failing {
            return Err(io::Error::from(ErrorKind::Other));
        }
        Ok(from.len())
    }

    fn flush(&mut self) -> io::Result<()> {
        self.flushes.fetch_add(1, SeqCst);
        Ok(())
    }
}

/// Whether the two tiles, merged to a writer with this room, are written as so much of the stream.
fn are_written(
    alloc: Global,
    (room, write, flush_fails): (usize, usize, bool),
    taken: &[u8],
) -> bool {
    let mut agree = true;
    for capacity in [1u32, 2, 64] {
        let way = Way {
            capacity,
            read: 50,
            is_ended: true,
            room,
            write,
            flush_fails,
        };
        agree = agree
            && writes_in_turn(alloc, (&PLAIN, &way), TILES, taken, NOT_WRITTEN) == Ok(true);
    }
    agree
}

fn fronts_are_written(alloc: Global) -> Result<bool, AllocError> {
    let stream = stream_of(alloc, "HEADER A1 B1 A2")?;
    let bytes = stream.as_bytes();
    let mut agree = true;
    for room in 0..bytes.len() {
        agree = agree && are_written(alloc, (room, 4096, false), &bytes[..room]);
    }
    let taken = &bytes[..bytes.len().min(200)];
    Ok(agree && are_written(alloc, (200, 1, false), taken))
}

fn header_is_written(alloc: Global) -> Result<bool, AllocError> {
    let header = stream_of(alloc, "HEADER")?;
    Ok(are_written(alloc, (4096, 4096, true), header.as_bytes()))
}

/// One byte a write, none, and a flush that fails after the header, which is the first to be passed on.
#[test]
fn a_failed_write_leaves_the_front_of_the_stream(rt: HostRuntime) {
    assert!(rt; fronts_are_written(rt.alloc()) == Ok(true));
    assert!(rt; are_written(rt.alloc(), (4096, 0, false), b""));
    assert!(rt; header_is_written(rt.alloc()) == Ok(true));
}

/// How many writes and flushes are made, where the write after so many others fails.
fn calls(alloc: Global, failing: u64) -> Result<Option<(u64, u64)>, AllocError> {
    let readers = readers_of(alloc, TILES, 4096, true)?;
    let writes = AtomicU64::new(0);
    let flushes = AtomicU64::new(0);
    let mut output = Device::new(CountedWriter {
        writes: &writes,
        flushes: &flushes,
        failing,
    });
    let is_told = merges_in_turn(alloc, readers, (&PLAIN, 1), &mut output, NOT_WRITTEN);
    Ok(is_told.then_some((writes.load(SeqCst), flushes.load(SeqCst))))
}

#[test]
fn nothing_is_written_after_a_failed_write(rt: HostRuntime) {
    for failing in 0..4u64 {
        let wanted = Some((failing.saturating_add(1), 0));
        assert!(rt; calls(rt.alloc(), failing) == Ok(wanted), "{failing}");
    }
}

/// How many lines a tile gives, the lines of which feature, and before which read it fails.
type Lines = (&'static str, u64, Option<u64>);

fn tile_of<'a>(reads: &'a AtomicU64, (feature, lines, failing): Lines) -> Device<LineReader<'a>> {
    Device::new(LineReader {
        feature,
        lines,
        reads,
        failing,
    })
}

/// How often each of three tiles is read, where their merge is written and answered so.
fn reads(
    alloc: Global,
    [a, b, c]: [Lines; 3],
    capacity: u32,
    written: &[u8],
    answer: &str,
) -> Result<Option<[u64; 3]>, Fault> {
    let (first, second, third) = (AtomicU64::new(0), AtomicU64::new(0), AtomicU64::new(0));
    let mut output = Bin::new(alloc, 4096, 4096, false)?;
    let readers = Vec::from_array(
        alloc,
        [tile_of(&first, a), tile_of(&second, b), tile_of(&third, c)],
    )?;
    let is_told = merges_in_turn(alloc, readers, (&PLAIN, capacity), &mut output, answer);
    let counts = [first.load(SeqCst), second.load(SeqCst), third.load(SeqCst)];
    Ok((is_told && output.bytes() == written).then_some(counts))
}

fn are_read(
    alloc: Global,
    tiles: [Lines; 3],
    (answer, names): (&str, &str),
    wanted: [u64; 3],
) -> Result<bool, AllocError> {
    let written = stream_of(alloc, names)?;
    let mut agree = true;
    for capacity in [1u32, 2, 64] {
        let counts = reads(alloc, tiles, capacity, written.as_bytes(), answer);
        agree = agree && counts == Ok(Some(wanted));
    }
    Ok(agree)
}

#[test]
fn a_tile_is_not_read_after_a_failed_read(rt: HostRuntime) {
    // The second fails after its first feature, and then would go on.
    let tiles = [("A1", 4, None), ("B1", 9, Some(2)), ("C1", 2, None)];
    let wanted = ("tile 2 line 3: Read", "HEADER A1 B1 C1 A1 A1");
    assert!(rt; are_read(rt.alloc(), tiles, wanted, [5, 3, 3]) == Ok(true));
    // The second has no header, so that the third is not read.
    let tiles = [("A1", 1, None), ("A1", 0, None), ("A1", 1, Some(0))];
    let wanted = ("tile 2 line 0: NoHeader", "");
    assert!(rt; are_read(rt.alloc(), tiles, wanted, [1, 1, 0]) == Ok(true));
}
