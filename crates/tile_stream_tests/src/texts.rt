//! Lines of a tile, and what a filter of it answers.
use byte_streams::{Bin, Fault, Line, MergeFault, Tape};
use city_feature::{Choice, area, types};
use std::alloc::{AllocError, Global};
use tile_stream::filter_stream;

pub(crate) const HEADER: &str =
    r#"{"type":"CityJSON","version":"2.0","transform":{"scale":[0.001,0.001,0.001],"translate":[0,0,0]},"CityObjects":{},"vertices":[]}"#;

pub(crate) const FEATURE_A: &str =
    r#"{"type":"CityJSONFeature","id":"a","CityObjects":{"a":{"type":"Building"}},"vertices":[]}"#;

pub(crate) const FEATURE_B: &str =
    r#"{"type":"CityJSONFeature","id":"b","CityObjects":{"b":{"type":"Building"}},"vertices":[]}"#;

/// A stream as people write it, and the same with no white space.
pub(crate) const SPACED_HEADER: &str =
    r#"{ "type": "CityJSON", "version": "2.0", "transform": {"scale": [0.001, 0.001, 0.001], "translate": [0, 0, 0]}, "CityObjects": {}, "vertices": [] }"#;

pub(crate) const SPACED_FEATURE: &str =
    r#"{"type":"CityJSONFeature", "id":"a", "CityObjects":{"a":{"type":"Building", "attributes":{"h":1.50e+3}}}, "vertices":[[1,2,3]]}"#;

pub(crate) const COMPACT_FEATURE: &str =
    r#"{"type":"CityJSONFeature","id":"a","CityObjects":{"a":{"type":"Building","attributes":{"h":1.50e+3}}},"vertices":[[1,2,3]]}"#;

/// The line of a word; other words stand for themselves.
fn line_of(word: &str) -> &str {
    match word {
        "HEADER" => HEADER,
        "A" => FEATURE_A,
        "B" => FEATURE_B,
        "SPACED_HEADER" => SPACED_HEADER,
        "SPACED_FEATURE" => SPACED_FEATURE,
        "COMPACT_FEATURE" => COMPACT_FEATURE,
        "EMPTY" => "",
        "BLANK" => " \t\r",
        _ => word,
    }
}

/// The lines of these words, each followed by a newline.
pub(crate) fn stream_of(alloc: Global, words: &str) -> Result<String, AllocError> {
    let mut stream = String::new(alloc);
    for word in words.split_whitespace() {
        stream.push_str(line_of(word))?;
        stream.push('\n')?;
    }
    Ok(stream)
}

/// A choice of all features.
pub(crate) fn every_feature() -> Choice {
    Choice::new(None, None, false)
}

/// The choice of these types and this area, of which an empty one stands for all, or of all other features.
pub(crate) fn choice_of(
    alloc: Global,
    names: &str,
    corners: &str,
    exclude: bool,
) -> Result<Choice, Fault> {
    Ok(Choice::new(types(alloc, names)?, area(corners), exclude))
}

/// What is answered where a write failed.
pub(crate) const NOT_WRITTEN: &str = "tile 0 line 0: Write";

fn told(alloc: Global, answer: Result<u64, MergeFault>) -> Result<String, AllocError> {
    match answer {
        Ok(count) => format!(in alloc; "{count}"),
        Err(MergeFault { tile, line, fault }) => {
            format!(in alloc; "tile {tile} line {line}: {fault:?}")
        }
    }
}

/// Whether this was answered: a count of features, or a fault and where it is.
pub(crate) fn is_told(alloc: Global, answer: Result<u64, MergeFault>, wanted: &str) -> bool {
    match told(alloc, answer) {
        Ok(text) => text.as_str() == wanted,
        Err(_) => false,
    }
}

/// How a tile is read and written: bytes a read, whether the reader fails after the last, bytes that the writer takes in
/// all and at a time, and whether its flush fails.
#[derive(Clone, Copy)]
pub(crate) struct Way {
    pub(crate) read: usize,
    pub(crate) fails: bool,
    pub(crate) room: usize,
    pub(crate) write: usize,
    pub(crate) flush_fails: bool,
}

/// Whether the filter answers this and writes these bytes.
pub(crate) fn filters(
    alloc: Global,
    choice: &Choice,
    input: &[u8],
    way: &Way,
    (written, answer): (&[u8], &str),
) -> Result<bool, Fault> {
    let tape = Tape::new(
        Line::from_vec(input.to_vec(alloc)?),
        way.read.max(1),
        way.fails,
    );
    let mut output = Bin::new(alloc, way.room, way.write, way.flush_fails)?;
    let found = filter_stream(alloc, tape, choice, &mut output);
    Ok(output.bytes() == written && is_told(alloc, found, answer))
}

/// The same with ample memory, at few and at many bytes a read and a write.
pub(crate) fn filters_anyhow(
    alloc: Global,
    choice: &Choice,
    (input, fails): (&[u8], bool),
    wanted: (&[u8], &str),
) -> bool {
    let mut agree = true;
    for step in [1usize, 7, 100_000] {
        let way = Way {
            read: step,
            fails,
            room: 65_536,
            write: step,
            flush_fails: false,
        };
        agree = agree && filters(alloc, choice, input, &way, wanted) == Ok(true);
    }
    agree
}
