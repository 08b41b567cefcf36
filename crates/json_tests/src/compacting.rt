//! Of the one pass: that it answers for the texts that users have, as the reader and the printer do.
use crate::texts::{Pieces, expect, expect_of_pieces, is_answered, is_compacted, text_of};
use byte_streams::Line;
use city_json::{Workspace, compact_object};
use std::alloc::{AllocError, Global};

/// Texts and their compact texts.
const COMPACTED: [(&[u8], &[u8]); 41] = [
    (b"null", b"null"),
    (b" \t\r\ntrue\n", b"true"),
    (b"false", b"false"),
    (b" [ ] ", b"[]"),
    (b" { } ", b"{}"),
    (b"[ 1 , -0.50e+3,[ 2 ] ]", b"[1,-0.50e+3,[2]]"),
    (b"{ \"b\" : 1 , \"a\" : [ { } ] }", b"{\"b\":1,\"a\":[{}]}"),
    (
        b"{\"a\":{\"a\":1},\"b\":{\"a\":2}}",
        b"{\"a\":{\"a\":1},\"b\":{\"a\":2}}",
    ),
    (b"\"\\u0041\\/\"", b"\"A/\""),
    (
        b"{\"k\":\"caf\\u00e9 \\/ \\ud83d\\ude00\",\"n\":1.50e+3}",
        b"{\"k\":\"caf\xc3\xa9 / \xf0\x9f\x98\x80\",\"n\":1.50e+3}",
    ),
    (b"\"\\u0022\\u005c\"", b"\"\\\"\\\\\""),
    (b"\"\\u000a\\u0008\"", b"\"\\n\\b\""),
    (b"\"\\u001F\"", b"\"\\u001f\""),
    (b"\"\\u007f\"", b"\"\x7f\""),
    (b"\"\\uD83D\\uDE00\"", b"\"\xf0\x9f\x98\x80\""),
    (b"{\"\\u0061\\n\":1,\"b\":2}", b"{\"a\\n\":1,\"b\":2}"),
    (b"{ \"caf\\u00e9\" : [ ] }", b"{\"caf\xc3\xa9\":[]}"),
    (
        b"{\"a\":{\"\\\\\":1},\"\\\\\":2}",
        b"{\"a\":{\"\\\\\":1},\"\\\\\":2}",
    ),
    (b"[1,2,\t3 ,\r\n4]", b"[1,2,3,4]"),
    (b"[[1,2],[3]]", b"[[1,2],[3]]"),
    (b"{\"v\":[[0,10,2],[],[3]]}", b"{\"v\":[[0,10,2],[],[3]]}"),
    (b"{\"v\":[[0, 1],[2]]}", b"{\"v\":[[0,1],[2]]}"),
    (b"[1, 22, 333]", b"[1,22,333]"),
    (
        b"[0, 10,2, 30 , 4,  5, null, -6, 7.5, \"a\", [8, 9], 1]",
        b"[0,10,2,30,4,5,null,-6,7.5,\"a\",[8,9],1]",
    ),
    (
        b"{\"v\": [[0, 1, 2], [12345678901234567890, 4, 5], []]}",
        b"{\"v\":[[0,1,2],[12345678901234567890,4,5],[]]}",
    ),
    (b"[1, 2, 3\t]", b"[1,2,3]"),
    (
        b"[[1, 2], [3, [4, 5], [], [ ], [ 6 ]], [[[7]] ], 8, [\"a\", [null]]]",
        b"[[1,2],[3,[4,5],[],[],[6]],[[[7]]],8,[\"a\",[null]]]",
    ),
    (
        b"{\"a\": [[[0, 1]], {\"b\": [[2, 3], [4]]}], \"c\": [-1, [2.5, 3]]}",
        b"{\"a\":[[[0,1]],{\"b\":[[2,3],[4]]}],\"c\":[-1,[2.5,3]]}",
    ),
    (b"-0", b"-0"),
    (
        b"[0.5,-1E-24,1e99999999999999999999]",
        b"[0.5,-1E-24,1e99999999999999999999]",
    ),
    (b"[\"\",\"a\",\"\\n\"]", b"[\"\",\"a\",\"\\n\"]"),
    (
        b"\n{\"a\":true,\"b\":false,\"c\":null}\r",
        b"{\"a\":true,\"b\":false,\"c\":null}",
    ),
    (
        b"\"\\\"\\\\\\/\\b\\f\\n\\r\\t\"",
        b"\"\\\"\\\\/\\b\\f\\n\\r\\t\"",
    ),
    (b"[[],{},[[]],{\"a\":{}}]", b"[[],{},[[]],{\"a\":{}}]"),
    (b"0", b"0"),
    (b"[-0]", b"[-0]"),
    (b"[-12,3]", b"[-12,3]"),
    (b"[184.25]", b"[184.25]"),
    (b"{\"a\":1.50e+3}", b"{\"a\":1.50e+3}"),
    (b"1E-24 ", b"1E-24"),
    (b"0e99999999999999999999\n", b"0e99999999999999999999"),
];

/// Compact texts, nested up to the limit or long.
const KEPT: [Pieces<'static>; 10] = [
    &[(b"[", 1), (b"]", 1)],
    &[(b"[", 128), (b"]", 128)],
    &[(b"[", 128), (b"0", 1), (b"]", 128)],
    &[(b"{\"a\":", 128), (b"0", 1), (b"}", 128)],
    &[(b"{\"a\":[", 64), (b"0", 1), (b"]}", 64)],
    &[(b"[0,", 128), (b"0", 1), (b"]", 128)],
    &[(b"7", 10_000)],
    &[(b"7", 1_000_000)],
    &[
        (b"{\"vertices\":[[0,0,0]", 1),
        (b",[123456,-7,1000]", 100_000),
        (b"]}", 1),
    ],
    &[(b"\"", 1), (b"caf\xc3\xa9 \\n", 200_000), (b"\"", 1)],
];

const WHITE: &[u8] = b" \t\r\n";

const SPACED: Pieces<'static> = &[
    (WHITE, 1000),
    (b"{", 1),
    (WHITE, 1000),
    (b"\"a\"", 1),
    (WHITE, 1000),
    (b":", 1),
    (WHITE, 1000),
    (b"[", 1),
    (WHITE, 1000),
    (b"1", 1),
    (WHITE, 1000),
    (b",", 1),
    (WHITE, 1000),
    (b"\"b\"", 1),
    (WHITE, 1000),
    (b"]", 1),
    (WHITE, 1000),
    (b"}", 1),
    (WHITE, 1000),
];

#[test]
fn texts_are_taken_in_all_their_spellings(rt: HostRuntime) {
    for (text, compact) in COMPACTED.iter() {
        expect(&rt, is_compacted(rt.alloc(), text, compact), text);
    }
}

#[test]
fn long_texts_are_taken(rt: HostRuntime) {
    for text in KEPT.iter() {
        expect_of_pieces(&rt, is_answered(rt.alloc(), text, None), text);
    }
}

fn spaced_text_is_taken(alloc: Global) -> bool {
    match text_of(alloc, SPACED) {
        Ok(text) => is_compacted(alloc, &text, b"{\"a\":[1,\"b\"]}"),
        Err(_) => false,
    }
}

#[test]
fn white_space_of_any_length_is_left_out(rt: HostRuntime) {
    assert!(rt; spaced_text_is_taken(rt.alloc()));
}

/// An object in pieces, between any two of which white space may stand.
const MARKED: [&[u8]; 15] = [
    b"{",
    b"\"a\"",
    b":",
    b"{",
    b"\"b\"",
    b":",
    b"1",
    b",",
    b"\"c\"",
    b":",
    b"\"d\"",
    b"}",
    b",",
    b"\"e\":[]",
    b"}",
];

/// White space that is left out in several ways: none, one blank, and all other.
const BETWEEN: [&[u8]; 8] = [b"", b" ", b"\t", b"\n", b"\r", b"  ", b" \t", b"\n "];

/// The object with white space after the piece at this place.
fn marked(alloc: Global, place: usize, white: &[u8]) -> Result<Vec<u8>, AllocError> {
    let mut text = Vec::new(alloc);
    for (at, piece) in MARKED.iter().enumerate() {
        text.extend_from_slice(piece)?;
        if at == place {
            text.extend_from_slice(white)?;
        }
    }
    Ok(text)
}

fn is_taken_at(alloc: Global, place: usize, white: &[u8]) -> bool {
    match marked(alloc, place, white) {
        Ok(text) => is_compacted(alloc, &text, b"{\"a\":{\"b\":1,\"c\":\"d\"},\"e\":[]}"),
        Err(_) => false,
    }
}

#[test]
fn white_space_beside_any_mark_is_left_out(rt: HostRuntime) {
    for white in BETWEEN.iter() {
        let all = (0..MARKED.len()).all(|place| is_taken_at(rt.alloc(), place, white));
        expect(&rt, all, white);
    }
}

/// A member of an object, as it stands in the compact text: its name with the colon, and its value.
type Part = (&'static [u8], &'static [u8]);

/// An object by its parts, or a text that is none.
struct Parted {
    text: &'static [u8],
    parts: Option<&'static [Part]>,
}

const PARTED: [Parted; 10] = [
    Parted {
        text: b" { \"type\" : \"CityJSONFeature\" , \"i\\u0064\":\"a\\/b\",\"vertices\":[ [1,2,3] ],\"n\":{\"m\":1.50} } ",
        parts: Some(&[
            (b"\"type\":", b"\"CityJSONFeature\""),
            (b"\"id\":", b"\"a/b\""),
            (b"\"vertices\":", b"[[1,2,3]]"),
            (b"\"n\":", b"{\"m\":1.50}"),
        ]),
    },
    Parted {
        text: b" {\t} ",
        parts: Some(&[]),
    },
    Parted {
        text: b"",
        parts: None,
    },
    Parted {
        text: b"[]",
        parts: None,
    },
    Parted {
        text: b"\"a\"",
        parts: None,
    },
    Parted {
        text: b"7",
        parts: None,
    },
    Parted {
        text: b"{\"a\":1,\"a\":2}",
        parts: None,
    },
    Parted {
        text: b"{\"a\":1",
        parts: None,
    },
    Parted {
        text: b"{\"a\":1} x",
        parts: None,
    },
    Parted {
        text: b"\xff",
        parts: None,
    },
];

fn is_part(line: &[u8], part: city_json::MemberPlace, name: &[u8], value: &[u8]) -> bool {
    line.get(part.at..part.value) == Some(name) && line.get(part.value..part.end) == Some(value)
}

fn are_parts(line: &[u8], found: &[city_json::MemberPlace], parts: &[Part]) -> bool {
    let mut agree = found.len() == parts.len();
    for (part, (name, value)) in found.iter().zip(parts.iter()) {
        agree = agree && is_part(line, *part, name, value);
    }
    agree
}

/// Whether an object is told by these parts, or none is told.
fn is_parted(alloc: Global, row: &Parted) -> bool {
    let mut workspace = Workspace::new(alloc, Line::new(alloc));
    match (compact_object(alloc, row.text, &mut workspace), row.parts) {
        (Ok(Some(found)), Some(parts)) => {
            let line = found.place.bytes(row.text, &workspace.line);
            are_parts(line, found.parts.as_slice(), parts)
        }
        (Ok(None) | Err(_), None) => true,
        _ => false,
    }
}

#[test]
fn only_an_object_is_told_by_its_parts(rt: HostRuntime) {
    for row in PARTED.iter() {
        expect(&rt, is_parted(rt.alloc(), row), row.text);
    }
}

/// Compact texts with white space at their end, and how long they are without it.
const GIVEN: [(&[u8], usize); 5] = [
    (b"{}", 2),
    (b"{\"a\":[1,-0.50e+3,\"n\"]}", 22),
    (b"{\"a\":{\"v\":[[1,2,3]]}}\n", 21),
    (b"{\"v\":[[1,2,3]]} \t\r\n", 15),
    (b"{\"caf\xc3\xa9\":null} ", 14),
];

/// How much more room than it needs a text has.
const ROOM: usize = 1_000;

/// What a text that is given away becomes, with room to spare for a copy.
fn given(alloc: Global, text: Vec<u8>, spare: Line) -> Option<Vec<u8>> {
    let mut workspace = Workspace::new(alloc, spare);
    let found = compact_object(alloc, &text, &mut workspace).ok()??;
    let Workspace { line: buffer, .. } = workspace;
    let line = found.place.into_line(text, buffer);
    Some(line.into_vec())
}

/// The text in more room than it needs.
fn roomy(alloc: Global, text: &[u8]) -> Result<Vec<u8>, AllocError> {
    let mut roomy = Vec::with_capacity(alloc, text.len().saturating_add(ROOM))?;
    roomy.extend_from_slice(text)?;
    Ok(roomy)
}

fn is_front(front: &[u8], text: &[u8], len: usize) -> bool {
    text.get(..len) == Some(front)
}

/// Whether the text is kept up to this length, with no more room than that.
fn is_kept(alloc: Global, text: &[u8], len: usize) -> Result<bool, AllocError> {
    Ok(match given(alloc, roomy(alloc, text)?, Line::new(alloc)) {
        Some(kept) => kept.capacity() == len && is_front(&kept, text, len),
        None => false,
    })
}

#[test]
fn a_compact_text_that_is_given_is_kept(rt: HostRuntime) {
    for (text, len) in GIVEN.iter() {
        let kept = is_kept(rt.alloc(), text, *len);
        expect(&rt, kept == Ok(true), text);
    }
}

/// How much room what comes of the text has, where a copy has all the room of what is spare.
fn room_of(alloc: Global, text: &[u8]) -> Result<usize, AllocError> {
    let spare = Line::from_vec(roomy(alloc, text)?);
    match given(alloc, roomy(alloc, text)?, spare) {
        Some(kept) => Ok(kept.capacity()),
        None => Ok(0),
    }
}

#[test]
fn a_compact_text_that_is_given_is_not_copied(rt: HostRuntime) {
    for (text, len) in GIVEN.iter() {
        let room = room_of(rt.alloc(), text);
        expect(&rt, room == Ok(*len), text);
    }
}

/// Texts that are not their own compact text, or have an escape.
const WRITTEN: [&[u8]; 4] = [b" {}", b"{\"a\": 1}", b"{\"a\":[1 ,2]}", b"{\"\\u0061\":1}"];

#[test]
fn a_text_that_is_given_and_not_compact_is_copied(rt: HostRuntime) {
    for text in WRITTEN.iter() {
        let room = room_of(rt.alloc(), text);
        expect(&rt, room.is_ok_and(|room| room >= ROOM), text);
    }
}

/// The same of a text with so many blanks at its end.
fn are_kept(alloc: Global, pieces: Pieces<'_>, blanks: usize) -> Result<bool, AllocError> {
    let text = text_of(alloc, pieces)?;
    is_kept(alloc, &text, text.len().saturating_sub(blanks))
}

#[test]
fn a_large_text_that_is_given_is_kept(rt: HostRuntime) {
    for count in [1usize, 1_000, 300_000] {
        for times in [0, 1, 12, 40] {
            let blanks = count.saturating_mul(times);
            let pieces: [(&'static [u8], usize); 4] = [
                (b"{\"a\":[0", 1),
                (b",[1,22,\"x\"]", count),
                (b"]}", 1),
                (b" ", blanks),
            ];
            let kept = are_kept(rt.alloc(), &pieces, blanks);
            expect_of_pieces(&rt, kept == Ok(true), &pieces);
        }
    }
}
