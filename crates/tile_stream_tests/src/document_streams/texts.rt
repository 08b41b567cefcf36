//! A document, what comes of it, and tables of such, a row on each line.
use byte_streams::{Bin, Fault, Line, MergeFault, Tape};
use document_stream::cat_document;
use std::alloc::{AllocError, AllocGlobal, Global};
use std::process::Abort;

pub(crate) const HEADER: &str =
    r#"{"type":"CityJSON","version":"2.0","transform":{"scale":[0.001,0.001,0.001],"translate":[0,0,0]},"CityObjects":{},"vertices":[]}"#;

pub(crate) const DOCUMENT: &str =
    r#"{"type":"CityJSON","version":"2.0","transform":{"scale":[0.001,0.001,0.001],"translate":[0,0,0]},"CityObjects":{"b":{"type":"Building","children":["p1","p2"]},"p1":{"type":"BuildingPart","parents":["b"],"geometry":[{"type":"MultiPoint","lod":"1","boundaries":[3,1]}]},"p2":{"type":"BuildingPart","parents":["b"],"geometry":[{"type":"MultiPoint","lod":"1","boundaries":[1,0]}]}},"vertices":[[0,0,0],[1,1,1],[2,2,2],[3,3,3]]}"#;

pub(crate) const FEATURE: &str =
    r#"{"type":"CityJSONFeature","id":"b","CityObjects":{"b":{"type":"Building","children":["p1","p2"]},"p1":{"type":"BuildingPart","parents":["b"],"geometry":[{"type":"MultiPoint","lod":"1","boundaries":[0,1]}]},"p2":{"type":"BuildingPart","parents":["b"],"geometry":[{"type":"MultiPoint","lod":"1","boundaries":[1,2]}]}},"vertices":[[3,3,3],[1,1,1],[0,0,0]]}"#;

/// The text, in which the texts above stand for their names, and newlines for `;`.
pub(crate) fn spelled(alloc: Global, text: &str) -> Result<String, AllocError> {
    text.replace(alloc, "HEADER", HEADER)?
        .replace(alloc, "FEATURE", FEATURE)?
        .replace(alloc, "DOCUMENT", DOCUMENT)?
        .replace(alloc, ";", "\n")
}

fn is_named(alloc: Global, fault: Fault, name: &str) -> bool {
    match format!(in alloc; "{fault:?}") {
        Ok(text) => text.as_str() == name,
        Err(_) => false,
    }
}

/// Whether this was answered: a count of features, or the fault of this name, of tile 1 and line 0; a failed write is that
/// of no tile.
pub(crate) fn is_told(alloc: Global, answer: Result<u64, MergeFault>, wanted: &str) -> bool {
    match answer {
        Ok(count) => wanted.parse::<u64>().ok() == Some(count),
        Err(MergeFault { tile, line, fault }) => {
            let of_tile = if fault == Fault::Write { 0u32 } else { 1 };
            tile == of_tile && line == 0 && is_named(alloc, fault, wanted)
        }
    }
}

/// How a document is read and written: bytes a read, whether the reader fails after the last, bytes that the writer takes
/// in all and at a time, and whether its flush fails.
#[derive(Clone, Copy)]
pub(crate) struct Way {
    pub(crate) read: usize,
    pub(crate) fails: bool,
    pub(crate) room: usize,
    pub(crate) write: usize,
    pub(crate) flush_fails: bool,
}

/// Whether these bytes are written of the input, and this is answered.
pub(crate) fn gives(
    alloc: Global,
    input: &[u8],
    way: &Way,
    written: &[u8],
    answer: &str,
) -> Result<bool, Fault> {
    let tape = Tape::new(
        Line::from_vec(input.to_vec(alloc)?),
        way.read.max(1),
        way.fails,
    );
    let mut output = Bin::new(alloc, way.room, way.write, way.flush_fails)?;
    let found = cat_document(alloc, tape, &mut output);
    Ok(output.bytes() == written && is_told(alloc, found, answer))
}

/// The same with ample memory, at few and at many bytes a read and a write.
pub(crate) fn gives_anyhow(
    alloc: Global,
    input: &[u8],
    fails: bool,
    written: &[u8],
    answer: &str,
) -> bool {
    let mut agree = true;
    for step in [1usize, 7, 100_000] {
        let way = Way {
            read: step,
            fails,
            room: 8192,
            write: step,
            flush_fails: false,
        };
        agree = agree && gives(alloc, input, &way, written, answer) == Ok(true);
    }
    agree
}

/// What stands before the first arrow of a row, and after it.
fn split(row: &str) -> (&str, &str) {
    match row.split_once(" => ") {
        Some(parts) => parts,
        None => (row, ""),
    }
}

/// Whether the row holds: what is put in place of what in the text; what is written then; and the answer.
fn holds(alloc: Global, text: &str, row: &str) -> Result<bool, AllocError> {
    let (old, change) = split(row);
    let (new, outcome) = split(change);
    let (lines, answer) = split(outcome);
    let input = spelled(alloc, &text.replace(alloc, old, new)?)?;
    let written = spelled(alloc, lines)?;
    Ok(gives_anyhow(alloc, input.as_bytes(), false, written.as_bytes(), answer))
}

/// The rows of a table hold.
pub(crate) fn expect(rt: &(impl Abort + AllocGlobal), text: &str, table: &str) {
    for row in table.lines() {
        assert!(rt; holds(rt.alloc(), text, row) == Ok(true), "{row}");
    }
}
