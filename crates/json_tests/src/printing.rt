//! The one spelling in which values are written.
use crate::texts::expect;
use byte_streams::{Fault, Line};
use city_json::{Json, Str, print, read};
use std::alloc::Global;

/// Texts and the one spelling in which they are written.
const WRITTEN: [(&str, &[u8]); 10] = [
    ("", b"\"\""),
    ("A/", b"\"A/\""),
    ("\"\\", b"\"\\\"\\\\\""),
    ("\n\u{8}", b"\"\\n\\b\""),
    ("\u{c}\r\t", b"\"\\f\\r\\t\""),
    ("\u{1f}", b"\"\\u001f\""),
    ("\u{0}\u{b}", b"\"\\u0000\\u000b\""),
    ("\u{7f}", b"\"\x7f\""),
    ("\u{1f600}", b"\"\xf0\x9f\x98\x80\""),
    // Runs and escapes alternate.
    (
        "a plain run of more than sixteen bytes\n\nthen \"quoted\", and a last run of many bytes",
        b"\"a plain run of more than sixteen bytes\\n\\nthen \\\"quoted\\\", and a last run of many bytes\"",
    ),
];

fn printed(alloc: Global, content: &str) -> Result<Line, Fault> {
    let mut line = Line::new(alloc);
    print(&Json::Text(Str::read(alloc, content)?), &mut line)?;
    Ok(line)
}

fn is_printed(alloc: Global, content: &str, written: &[u8]) -> bool {
    match printed(alloc, content) {
        Ok(line) => line.items() == written,
        Err(_) => false,
    }
}

#[test]
fn texts_are_written_in_one_spelling(rt: HostRuntime) {
    for (content, written) in WRITTEN.iter() {
        expect(&rt, is_printed(rt.alloc(), content, written), written);
    }
}

/// Whether this stands in a line after the value is written to its end.
fn is_written(alloc: Global, value: &Json, wanted: &[u8]) -> bool {
    let mut line = Line::new(alloc);
    line.append(b"7 ").is_ok() && print(value, &mut line).is_ok() && line.items() == wanted
}

/// A value of each kind.
fn values_are_written(alloc: Global) -> bool {
    let text =
        b"{\"z\": [null, true, false, [], {}], \"a\\n\": {\"b\": \"\\u00e9\", \"n\": 1.50e+3}}";
    let wanted = b"7 {\"z\":[null,true,false,[],{}],\"a\\n\":{\"b\":\"\xc3\xa9\",\"n\":1.50e+3}}";
    match read(alloc, text) {
        Ok(value) => is_written(alloc, &value, wanted),
        Err(_) => false,
    }
}

#[test]
fn values_are_written_without_white_space(rt: HostRuntime) {
    assert!(rt; values_are_written(rt.alloc()));
}
