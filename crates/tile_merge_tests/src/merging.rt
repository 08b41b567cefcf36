//! Merges in turn, and what is wanted of them. Texts are told by their names, and tiles with a bar between two. A line of a
//! table tells the texts of tiles; what is written; and what is answered. Between these stands an arrow.

use crate::texts::text;
use byte_streams::{Bin, Fault, Line, MergeFault, Sink, Source, Tape};
use city_feature::{Base, Choice, area, types};
use std::alloc::{AllocError, AllocGlobal, Global};
use std::process::Abort;
use tile_handoff::MAX_CAPACITY;
use tile_merge::{Report, merge_in_turn};

/// What a merge is asked: the types and the area of its features, where an empty text stands for all, whether those are
/// left out, and on whose grid they stand.
#[derive(Clone, Copy)]
pub(crate) struct Asked {
    pub(crate) types: &'static str,
    pub(crate) area: &'static str,
    pub(crate) exclude: bool,
    pub(crate) base: Base,
}

/// All features, on the grid of the first tile.
pub(crate) const PLAIN: Asked = Asked {
    types: "",
    area: "",
    exclude: false,
    base: Base::First,
};

/// The choice that is asked for.
pub(crate) fn choice_of(alloc: Global, asked: &Asked) -> Result<Choice, Fault> {
    Ok(Choice::new(types(alloc, asked.types)?, area(asked.area), asked.exclude))
}

/// The texts of these names, each followed by a newline.
pub(crate) fn stream_of(alloc: Global, names: &str) -> Result<String, AllocError> {
    let mut stream = String::new(alloc);
    for name in names.split_whitespace() {
        stream.push_str(text(name))?;
        stream.push('\n')?;
    }
    Ok(stream)
}

fn tape_of(alloc: Global, names: &str, step: usize, is_ended: bool) -> Result<Tape, AllocError> {
    let mut stream = stream_of(alloc, names)?;
    if !is_ended {
        stream.pop();
    }
    Ok(Tape::new(Line::from_vec(stream.into_bytes()), step.max(1), false))
}

/// The readers of tiles of these texts, that give so many bytes a read. The last line of each has a newline only where it
/// is to.
pub(crate) fn readers_of(
    alloc: Global,
    tiles: &str,
    step: usize,
    is_ended: bool,
) -> Result<Vec<Tape>, AllocError> {
    let mut readers = Vec::new(alloc);
    for names in tiles.split('|') {
        readers.push(tape_of(alloc, names, step, is_ended)?)?;
    }
    Ok(readers)
}

/// What a merge answered, as text: how many features of each tile, or the fault and where it is.
fn told(alloc: Global, answer: &Result<Report, MergeFault>) -> Result<String, AllocError> {
    match answer {
        Ok(report) => {
            let counts = report.counts.items();
            format!(in alloc; "{counts:?}")
        }
        Err(refused) => told_fault(alloc, refused),
    }
}

pub(crate) fn told_fault(alloc: Global, refused: &MergeFault) -> Result<String, AllocError> {
    let MergeFault { tile, line, fault } = *refused;
    format!(in alloc; "tile {tile} line {line}: {fault:?}")
}

pub(crate) fn is_told(alloc: Global, answer: &Result<Report, MergeFault>, wanted: &str) -> bool {
    match told(alloc, answer) {
        Ok(text) => text.as_str() == wanted,
        Err(_) => false,
    }
}

/// Whether these readers, merged in turn, are answered so.
pub(crate) fn merges_in_turn<R: Source + Drop, W: Sink>(
    alloc: Global,
    readers: Vec<R>,
    (asked, capacity): (&Asked, u32),
    output: &mut W,
    answer: &str,
) -> bool {
    if readers.is_empty() || capacity == 0 || capacity > MAX_CAPACITY {
        return false;
    }
    match choice_of(alloc, asked) {
        Ok(choice) => {
            let merged = merge_in_turn(alloc, readers, &choice, asked.base, capacity, output);
            is_told(alloc, &merged, answer)
        }
        Err(_) => false,
    }
}

/// How tiles are merged: how many texts are held, how many bytes are read at a time, and whether the last line of each tile
/// has a newline; how many bytes the writer takes in all and at a time, and whether its flush fails.
#[derive(Clone, Copy)]
pub(crate) struct Way {
    pub(crate) capacity: u32,
    pub(crate) read: usize,
    pub(crate) is_ended: bool,
    pub(crate) room: usize,
    pub(crate) write: usize,
    pub(crate) flush_fails: bool,
}

/// With ample room.
pub(crate) const fn with_room(capacity: u32, step: usize, is_ended: bool) -> Way {
    Way {
        capacity,
        read: step,
        is_ended,
        room: 65_536,
        write: step,
        flush_fails: false,
    }
}

/// Whether the tiles, merged in turn, are written as these bytes, and answered so.
pub(crate) fn writes_in_turn(
    alloc: Global,
    (asked, way): (&Asked, &Way),
    tiles: &str,
    written: &[u8],
    answer: &str,
) -> Result<bool, Fault> {
    let readers = readers_of(alloc, tiles, way.read, way.is_ended)?;
    let mut output = Bin::new(alloc, way.room, way.write, way.flush_fails)?;
    Ok(
        merges_in_turn(alloc, readers, (asked, way.capacity), &mut output, answer)
            && output.bytes() == written,
    )
}

/// The same with few and with many texts held and bytes a read and a write.
pub(crate) fn merges(
    alloc: Global,
    asked: &Asked,
    tiles: &str,
    written: &[u8],
    answer: &str,
) -> bool {
    let mut agree = true;
    for way in [
        with_room(1, 1, true),
        with_room(2, 7, false),
        with_room(64, 100_000, true),
    ] {
        agree = agree && writes_in_turn(alloc, (asked, &way), tiles, written, answer) == Ok(true);
    }
    agree
}

/// What stands before an arrow, and after it.
pub(crate) fn split_at_arrow(line: &str) -> (&str, &str) {
    match line.split_once("=>") {
        Some((before, after)) => (before.trim(), after.trim()),
        None => (line.trim(), ""),
    }
}

/// Whether the line of a table holds.
pub(crate) fn holds(alloc: Global, asked: &Asked, line: &str) -> Result<bool, AllocError> {
    let (tiles, wanted) = split_at_arrow(line);
    let (written, wanted) = split_at_arrow(wanted);
    let written = stream_of(alloc, written)?;
    Ok(merges(
        alloc,
        asked,
        tiles,
        written.as_bytes(),
        split_at_arrow(wanted).0,
    ))
}

/// Merges what the lines of a table tell.
pub(crate) fn expect_table(rt: &(impl Abort + AllocGlobal), asked: &Asked, table: &str) {
    for line in table.lines() {
        let answer = holds(rt.alloc(), asked, line);
        assert!(rt; line.is_empty() || answer == Ok(true), "{line}");
    }
}
