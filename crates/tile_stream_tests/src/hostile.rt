//! One tile whose stream is cut short or has huge numbers, and a writer that fails at each byte.

use crate::texts::{
    FEATURE_A, HEADER, NOT_WRITTEN, SPACED_HEADER, Way, every_feature, filters, filters_anyhow,
    stream_of,
};
use std::alloc::{AllocError, Global};

/// What is written of a stream of two lines of which so many bytes are left, and what is answered.
fn of_cut(length: usize, whole: usize) -> (&'static str, &'static str) {
    let header = SPACED_HEADER.len();
    if length == 0 {
        ("", "tile 1 line 0: NoHeader")
    } else if length < header {
        ("", "tile 1 line 1: Syntax")
    } else if length <= header.saturating_add(1) {
        ("HEADER", "0")
    } else if length.saturating_add(1) < whole {
        ("HEADER", "tile 1 line 2: Syntax")
    } else {
        ("HEADER COMPACT_FEATURE", "1")
    }
}

fn is_cut(alloc: Global, input: &[u8], whole: usize) -> Result<bool, AllocError> {
    let (words, answer) = of_cut(input.len(), whole);
    let written = stream_of(alloc, words)?;
    Ok(filters_anyhow(
        alloc,
        &every_feature(),
        (input, false),
        (written.as_bytes(), answer),
    ))
}

/// At how many bytes a stream can be cut, so that what is left is filtered as it should be.
fn cuts(alloc: Global) -> Result<bool, AllocError> {
    let input = stream_of(alloc, "SPACED_HEADER SPACED_FEATURE")?;
    let bytes = input.as_bytes();
    let mut agree = true;
    for length in 0..=bytes.len() {
        agree = agree && is_cut(alloc, &bytes[..length], bytes.len()) == Ok(true);
    }
    Ok(agree)
}

#[test]
fn a_stream_may_be_cut_at_each_byte(rt: HostRuntime) {
    assert!(rt; cuts(rt.alloc()) == Ok(true));
}

/// A header and a line of ten thousand digits, and what is written of them.
struct Long {
    lines: &'static str,
    written: &'static str,
    answer: &'static str,
}

/// Ten thousand sevens stand for `SEVENS`, and zeros for `ZEROS`.
const LONG: [Long; 3] = [
    Long {
        lines: r#"HEADER {"type":"CityJSONFeature","id":"a","CityObjects":{"a":{"attributes":{"n":SEVENS,"m":-0.SEVENSe-SEVENS}}},"vertices":[]}"#,
        written: r#"HEADER {"type":"CityJSONFeature","id":"a","CityObjects":{"a":{"attributes":{"n":SEVENS,"m":-0.SEVENSe-SEVENS}}},"vertices":[]}"#,
        answer: "1",
    },
    Long {
        lines: r#"HEADER {"type":"CityJSONFeature","id":"a","CityObjects":{},"vertices":[[1,2,3],[1,SEVENS,3]]}"#,
        written: "HEADER",
        answer: "tile 1 line 2: VertexRange",
    },
    Long {
        lines: r#"{"type":"CityJSON","version":"2.0","transform":{"scale":[0.001,0.001,0.001],"translate":[0,0.ZEROS1,0]},"CityObjects":{},"vertices":[]} A"#,
        written: "",
        answer: "tile 1 line 1: Decimal",
    },
];

fn with_digits(alloc: Global, words: &str) -> Result<String, AllocError> {
    let words = words.replace(alloc, "SEVENS", &"7".repeat(alloc, 10_000)?)?;
    stream_of(
        alloc,
        &words.replace(alloc, "ZEROS", &"0".repeat(alloc, 10_000)?)?,
    )
}

fn is_filtered(alloc: Global, row: &Long) -> Result<bool, AllocError> {
    let input = with_digits(alloc, row.lines)?;
    let written = with_digits(alloc, row.written)?;
    Ok(filters_anyhow(
        alloc,
        &every_feature(),
        (input.as_bytes(), false),
        (written.as_bytes(), row.answer),
    ))
}

#[test]
fn numbers_may_have_ten_thousand_digits(rt: HostRuntime) {
    for row in LONG.iter() {
        assert!(rt; is_filtered(rt.alloc(), row) == Ok(true), "{}", row.lines);
    }
}

/// Whether the front of the stream is written that the writer has room for.
fn fails_at(alloc: Global, input: &[u8], room: usize, write: usize) -> bool {
    let way = Way {
        read: 50,
        fails: false,
        room,
        write,
        flush_fails: false,
    };
    let written = &input[..room.min(input.len())];
    filters(alloc, &every_feature(), input, &way, (written, NOT_WRITTEN)) == Ok(true)
}

/// Whether a write may fail at each byte of two lines; a third one changes nothing.
fn writes_fail(alloc: Global, words: &str) -> Result<bool, AllocError> {
    let input = stream_of(alloc, words)?;
    let mut agree = true;
    for room in 0..HEADER.len() + FEATURE_A.len() + 2 {
        for step in [1usize, 7, 4096] {
            agree = agree && fails_at(alloc, input.as_bytes(), room, step);
        }
    }
    Ok(agree)
}

#[test]
fn a_write_may_fail_at_each_byte(rt: HostRuntime) {
    assert!(rt; writes_fail(rt.alloc(), "HEADER A EMPTY") == Ok(true));
    assert!(rt; writes_fail(rt.alloc(), "HEADER A {}") == Ok(true));
}
