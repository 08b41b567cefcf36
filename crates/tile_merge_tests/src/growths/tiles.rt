//! What a tile gives, and what was written of several where a call gave up.

use byte_streams::{Fault, Line, MergeFault, Tape};
use std::alloc::{AllocError, Global};

/// The texts of a tile, the line of its header (its last part, where it has none), and the texts of its features, each
/// with the line that it comes of.
#[derive(Clone, Copy)]
pub(crate) struct Tile<'a> {
    pub(crate) input: &'a [&'a str],
    pub(crate) header: u64,
    pub(crate) texts: &'a [(u64, &'a str)],
}

/// No tile at all.
pub(crate) const NONE: Tile<'static> = Tile {
    input: &[],
    header: 0,
    texts: &[],
};

/// A tile beside no others, whose texts were read already.
pub(crate) fn alone<'a>(header: u64, texts: &'a [(u64, &'a str)]) -> [Tile<'a>; 3] {
    let tile = Tile {
        input: &[],
        header,
        texts,
    };
    [tile, NONE, NONE]
}

/// These texts, each followed by a newline.
pub(crate) fn bytes_of(alloc: Global, texts: &[&str]) -> Result<Vec<u8>, AllocError> {
    let mut stream = Vec::new(alloc);
    for text in texts.iter() {
        stream.extend_from_slice(text.as_bytes())?;
        stream.push(b'\n')?;
    }
    Ok(stream)
}

/// How many bytes a read gives, so that lines are put together of several reads.
pub(crate) const IN_PARTS: usize = 50;

/// How many bytes a read gives, so that all lines of a tile stand whole in one read.
pub(crate) const WHOLE: usize = 4_096;

/// A reader of these bytes, so many of them a read.
pub(crate) fn tape_of(alloc: Global, bytes: &[u8], step: usize) -> Result<Tape, AllocError> {
    Ok(Tape::new(Line::from_vec(bytes.to_vec(alloc)?), step.max(1), false))
}

/// What stands after a line.
pub(crate) fn after_line<'a>(written: &'a [u8], line: &str) -> Option<&'a [u8]> {
    let Some(left) = written.strip_prefix(line.as_bytes()) else {
        return None;
    };
    left.strip_prefix(b"\n")
}

/// How many lines of each tile stand here, each tile's first ones in their order; none where something else does.
pub(crate) fn lines_of(written: &[u8], tiles: &[Tile<'_>; 3]) -> Option<[usize; 3]> {
    let mut left = written;
    let mut counts = [0usize; 3];
    for _ in 0..9u32 {
        for at in 0..3usize {
            let count = counts[at];
            let Some((_, text)) = tiles[at].texts.get(count) else {
                continue;
            };
            if let Some(after) = after_line(left, text) {
                left = after;
                counts[at] = count.saturating_add(1);
            }
        }
    }
    if left.is_empty() { Some(counts) } else { None }
}

/// Whether so many lines of each tile stand here in turn.
pub(crate) fn are_turns(written: &[u8], tiles: &[Tile<'_>; 3], counts: [usize; 3]) -> bool {
    let mut left = written;
    for round in 0..9usize {
        for at in 0..3usize {
            if round >= counts[at] {
                continue;
            }
            let Some((_, text)) = tiles[at].texts.get(round) else {
                return false;
            };
            let Some(after) = after_line(left, text) else {
                return false;
            };
            left = after;
        }
    }
    left.is_empty()
}

/// How many texts a tile gives before this line.
fn before(tile: &Tile<'_>, line: u64) -> usize {
    let mut count = 0usize;
    for (number, _) in tile.texts.iter() {
        if *number < line {
            count = count.saturating_add(1);
        }
    }
    count
}

/// Of the tile that is named, the lines before the named one were written; of the tiles before it, all; and so of those
/// after it, unless there was no memory any more.
fn is_given_up(
    refused: MergeFault,
    number: u32,
    tile: &Tile<'_>,
    count: usize,
    is_gone: bool,
) -> bool {
    if number == refused.tile {
        let gives_at_header = before(tile, tile.header.saturating_add(1)) > 0;
        let is_after_header = refused.line > tile.header || gives_at_header;
        return is_after_header && count == before(tile, refused.line);
    }
    count == tile.texts.len() || (number > refused.tile && is_gone)
}

/// Whether a call may give up so for want of memory, after so many lines of each tile had been written, none where the
/// header was not. Once the header was, a tile is named. Nothing is written before all headers were read.
pub(crate) fn are_given_up(
    refused: MergeFault,
    counts: Option<[usize; 3]>,
    tiles: &[Tile<'_>; 3],
    is_gone: bool,
) -> bool {
    let names_tile = 0 < refused.tile && refused.tile <= 3;
    let names_none = refused.tile == 0 && refused.line == 0 && counts.is_none();
    let mut is_so = refused.fault == Fault::Memory && (names_tile || names_none);
    let mut number = 0u32;
    for at in 0..3usize {
        number = number.saturating_add(1);
        let tile = &tiles[at];
        is_so = is_so
            && match counts {
                Some(written) => is_given_up(refused, number, tile, written[at], is_gone),
                None => number != refused.tile || refused.line <= tile.header,
            };
    }
    is_so
}
