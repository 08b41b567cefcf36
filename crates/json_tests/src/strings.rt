//! The texts that strings spell.
use crate::texts::{Pieces, expect, expect_at, text_of};
use city_json::{Json, read};
use std::alloc::Global;

/// Strings, which are given with their quotation marks, and what they spell.
const DECODED: [(&[u8], &[u8]); 14] = [
    (b"\"\\u0041\\/\"", b"A/"),
    (b"\"\\u0022\\u005c\"", b"\"\\"),
    (b"\"\\u000a\\u0008\"", b"\x0a\x08"),
    (b"\"\\u001F\"", b"\x1f"),
    (b"\"\\u007f\"", b"\x7f"),
    (b"\"\\u0000\"", b"\x00"),
    (b"\"\\u20aC\"", b"\xe2\x82\xac"),
    (
        b"\"\\\"\\\\\\/\\b\\f\\n\\r\\t\"",
        b"\"\\/\x08\x0c\x0a\x0d\x09",
    ),
    (b"\"\"", b""),
    (b"\"\\uD83D\\uDE00\"", b"\xf0\x9f\x98\x80"),
    (
        b"\"\\ud800\\udc00\\uDBFF\\uDFFF\"",
        b"\xf0\x90\x80\x80\xf4\x8f\xbf\xbf",
    ),
    // What needs no escape.
    (
        b"\"\xf0\x9f\x98\x80\xf0\x9f\x8f\x99\xf4\x8f\xbf\xbf\xf0\x90\x80\x80\"",
        b"\xf0\x9f\x98\x80\xf0\x9f\x8f\x99\xf4\x8f\xbf\xbf\xf0\x90\x80\x80",
    ),
    (b"\"\x20!#[]~\x7f/\"", b"\x20!#[]~\x7f/"),
    (
        b"\"Stra\xc3\x9fe \\u00e9 \xe2\x82\xac\\n\xf0\x9f\x98\x80\"",
        b"Stra\xc3\x9fe \xc3\xa9 \xe2\x82\xac\n\xf0\x9f\x98\x80",
    ),
];

fn spells(alloc: Global, spelling: &[u8], content: &[u8]) -> bool {
    match read(alloc, spelling) {
        Ok(Json::Text(text)) => text.as_str().as_bytes() == content,
        _ => false,
    }
}

#[test]
fn escapes_are_decoded(rt: HostRuntime) {
    for (spelling, content) in DECODED.iter() {
        expect(&rt, spells(rt.alloc(), spelling, content), spelling);
    }
}

fn long_text_is_read(alloc: Global, spelling: Pieces<'_>, content: Pieces<'_>) -> bool {
    match (text_of(alloc, spelling), text_of(alloc, content)) {
        (Ok(spelling), Ok(content)) => spells(alloc, &spelling, &content),
        _ => false,
    }
}

/// A run of so many bytes alone, and after an escape.
fn run_is_read(alloc: Global, length: usize) -> bool {
    let (mark, run) = ((b"\"".as_slice(), 1), (b"x".as_slice(), length));
    long_text_is_read(alloc, &[mark, run, mark], &[run])
        && long_text_is_read(alloc, &[mark, (b"\\n", 1), run, mark], &[(b"\n", 1), run])
}

#[test]
fn long_runs_are_read(rt: HostRuntime) {
    for length in [15, 16, 17, 31, 32, 33, 64, 1000].iter() {
        expect_at(&rt, run_is_read(rt.alloc(), *length), *length, b"");
    }
}
