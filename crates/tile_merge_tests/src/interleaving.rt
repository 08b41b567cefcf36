//! Merges with a thread for each tile, whose features stand as they come. A line of a table tells after a further arrow
//! what is written of each tile. No two tiles share a text.

use crate::merging::{
    Asked, Way, choice_of, holds, is_told, readers_of, split_at_arrow, stream_of, with_room,
};
use byte_streams::{Bin, Fault, Sink, Source};
use std::alloc::{AllocError, AllocGlobal, Global};
use std::process::Abort;
use std::sync::Wait;
use std::thread::Threads;
use tile_handoff::MAX_CAPACITY;
use tile_merge::merge;

fn has_line(stream: &[u8], line: &[u8]) -> bool {
    for other in stream.split(|byte| *byte == b'\n') {
        if other == line {
            return true;
        }
    }
    false
}

/// What follows this line at the start of a stream.
fn after_line<'a>(stream: &'a [u8], line: &[u8]) -> Option<&'a [u8]> {
    stream.strip_prefix(line)?.strip_prefix(b"\n")
}

/// Whether the lines that are of the stream are the stream.
fn is_picked(lines: &[u8], stream: &[u8]) -> bool {
    let mut left = stream;
    for line in lines.split(|byte| *byte == b'\n') {
        if line.is_empty() || !has_line(stream, line) {
            continue;
        }
        match after_line(left, line) {
            Some(others) => left = others,
            None => return false,
        }
    }
    left.is_empty()
}

/// Whether the header was written, after it the lines of each tile in their order, and nothing else.
pub(crate) fn is_mixed(
    alloc: Global,
    written: &[u8],
    header: &str,
    tiles: &str,
) -> Result<bool, AllocError> {
    let header = stream_of(alloc, header)?;
    let Some(lines) = written.strip_prefix(header.as_bytes()) else {
        return Ok(false);
    };
    let mut length = 0usize;
    let mut agree = true;
    for names in tiles.split('|') {
        let stream = stream_of(alloc, names)?;
        agree = agree && is_picked(lines, stream.as_bytes());
        length = length.saturating_add(stream.len());
    }
    Ok(agree && lines.len() == length)
}

/// The stream of a tile but for the lines that stand among these, each after those before it.
fn left_after<'a>(lines: &[u8], stream: &'a [u8]) -> &'a [u8] {
    let mut left = stream;
    for line in lines.split(|byte| *byte == b'\n') {
        if let Some(others) = after_line(left, line) {
            left = others;
        }
    }
    left
}

/// Whole lines at the start of these, and what follows them.
fn split_lines(lines: &[u8]) -> (&[u8], &[u8]) {
    let mut begun = lines;
    for piece in lines.split(|byte| *byte == b'\n') {
        begun = piece;
    }
    lines.split_at(lines.len().saturating_sub(begun.len()))
}

/// Whether these are whole lines of the tiles, and then a front of the next one of a tile.
fn are_begun(alloc: Global, lines: &[u8], tiles: &str) -> Result<bool, AllocError> {
    let (whole, begun) = split_lines(lines);
    let mut length = 0usize;
    let mut is_next = begun.is_empty();
    for names in tiles.split('|') {
        let stream = stream_of(alloc, names)?;
        let left = left_after(whole, stream.as_bytes());
        length = length.saturating_add(stream.len().saturating_sub(left.len()));
        is_next = is_next || left.starts_with(begun);
    }
    Ok(is_next && whole.len() == length)
}

/// Whether what was written is a front of such a stream.
pub(crate) fn is_mixed_front(
    alloc: Global,
    written: &[u8],
    tiles: &str,
) -> Result<bool, AllocError> {
    let header = stream_of(alloc, "HEADER")?;
    match written.strip_prefix(header.as_bytes()) {
        Some(lines) => are_begun(alloc, lines, tiles),
        None => Ok(header.as_bytes().starts_with(written)),
    }
}

/// Whether these readers, merged with a thread for each, are answered so.
pub(crate) fn merges_with_threads<H, R, W>(
    rt: &H,
    readers: Vec<R>,
    (asked, capacity): (&Asked, u32),
    output: &mut W,
    answer: &str,
) -> bool
where
    H: Abort + AllocGlobal + Threads + Wait + Copy + Send + 'static,
    R: Source + Send + Drop + 'static,
    W: Sink,
{
    let alloc = rt.alloc();
    if readers.is_empty() || capacity == 0 || capacity > MAX_CAPACITY {
        return false;
    }
    match choice_of(alloc, asked) {
        Ok(choice) => {
            let merged = merge(rt, alloc, readers, &choice, asked.base, capacity, output);
            is_told(alloc, &merged, answer)
        }
        Err(_) => false,
    }
}

/// What is written of tiles that are merged with threads, where they are answered so.
pub(crate) fn written_with_threads<H>(
    rt: &H,
    (asked, way): (&Asked, &Way),
    tiles: &str,
    answer: &str,
) -> Result<Option<Bin>, Fault>
where
    H: Abort + AllocGlobal + Threads + Wait + Copy + Send + 'static,
{
    let alloc = rt.alloc();
    let readers = readers_of(alloc, tiles, way.read, way.is_ended)?;
    let mut output = Bin::new(alloc, way.room, way.write, way.flush_fails)?;
    if merges_with_threads(rt, readers, (asked, way.capacity), &mut output, answer) {
        Ok(Some(output))
    } else {
        Ok(None)
    }
}

/// Whether of these tiles the header and these lines of each are written, and they are answered so.
pub(crate) fn mixes<H>(
    rt: &H,
    (asked, way): (&Asked, &Way),
    tiles: &str,
    (header, lines): (&str, &str),
    answer: &str,
) -> bool
where
    H: Abort + AllocGlobal + Threads + Wait + Copy + Send + 'static,
{
    match written_with_threads(rt, (asked, way), tiles, answer) {
        Ok(Some(output)) => is_mixed(rt.alloc(), output.bytes(), header, lines) == Ok(true),
        _ => false,
    }
}

/// The first name.
fn first_of(names: &str) -> &str {
    match names.split_once(' ') {
        Some((first, _)) => first,
        None => names,
    }
}

/// Whether the line of a table holds with threads, with few and with many texts held and bytes a read and a write.
fn holds_with_threads<H>(rt: &H, asked: &Asked, line: &str) -> bool
where
    H: Abort + AllocGlobal + Threads + Wait + Copy + Send + 'static,
{
    let (tiles, wanted) = split_at_arrow(line);
    let (written, wanted) = split_at_arrow(wanted);
    let (answer, lines) = split_at_arrow(wanted);
    let mut agree = true;
    for way in [
        with_room(1, 7, true),
        with_room(2, 100_000, false),
        with_room(64, 500, true),
    ] {
        agree = agree && mixes(rt, (asked, &way), tiles, (first_of(written), lines), answer);
    }
    agree
}

/// Merges what the lines of a table tell, in turn and with threads.
pub(crate) fn expect_both_ways<H>(rt: &H, asked: &Asked, table: &str)
where
    H: Abort + AllocGlobal + Threads + Wait + Copy + Send + 'static,
{
    for line in table.lines() {
        let answer = holds(rt.alloc(), asked, line);
        assert!(rt;
            line.is_empty() || answer == Ok(true) && holds_with_threads(rt, asked, line),
            "{line}"
        );
    }
}
