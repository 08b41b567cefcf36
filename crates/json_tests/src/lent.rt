//! Of texts that are lent: that they are where they are their own compact text, and else written, and that the same is
//! told of them as of others.
use crate::texts::{expect, expect_at, read_and_printed, text_of};
use byte_streams::Line;
use city_json::{CompactObject, TextPlace, Workspace, compact_object, members_of_compact};
use std::alloc::{AllocError, AllocGlobal, Global};
use std::process::Abort;

/// Texts that are their own compact text but for white space at their end, and how long they are without it.
const LENT: [(&[u8], usize); 14] = [
    (b"{}", 2),
    (b"{}\r\n", 2),
    (b"{\"a\":[1,-0.50e+3,\"n\"]}", 22),
    (b"{\"a\":{\"v\":[[1,2,3]]}}\n", 21),
    (b"{\"v\":[[1,2,3]]} \t\r\n", 15),
    (b"{\"caf\xc3\xa9\":null} ", 14),
    (b"{\"a\":1,\"b\":[[1,2,3],[4,5,6]],\"c\":{}}", 36),
    (b"{\"v\":[[1,2,3]],\"w\":[[4,5,6]],\"x\":-0}", 36),
    (b"{\"a\":\"\\n\"}", 10),
    (b"{\"a\":\"\\\"\\\\\\b\\f\\n\\r\\t\"}\n", 22),
    (b"{\"a\":[\"of two lines\\nand a tab\\t\",-1.5]}", 40),
    (b"{\"a\":[0]}", 9),
    (b"{\"a\":[-1.5,20]}", 15),
    (b"{\"a\":[1,[2],[3,4],[5,6,7]]}", 27),
];

/// Others, and their compact texts.
const WRITTEN: [(&[u8], &[u8]); 15] = [
    (b" {}", b"{}"),
    (b"\n{\"a\":1}\n", b"{\"a\":1}"),
    (b"{ }", b"{}"),
    (b"{\"a\" :1}", b"{\"a\":1}"),
    (b"{\"a\":1 }", b"{\"a\":1}"),
    (b"{\"a\": [[1,2,3]]}", b"{\"a\":[[1,2,3]]}"),
    (b"{\"a\":[[1,2,3], [4,5,6]]}", b"{\"a\":[[1,2,3],[4,5,6]]}"),
    (b"{\"\\u0061\":1}", b"{\"a\":1}"),
    (b"{\"\\n\":1}", b"{\"\\n\":1}"),
    (b"{\"a\":\"\\n\\u000a\"}", b"{\"a\":\"\\n\\n\"}"),
    (b"{\"a\":\"\\u001f\"}", b"{\"a\":\"\\u001f\"}"),
    (
        b"{\"a\":\"\\n\",\"b\":\"\\u0041\"}",
        b"{\"a\":\"\\n\",\"b\":\"A\"}",
    ),
    (b"{\"a\":[1, 2]}", b"{\"a\":[1,2]}"),
    (b"{\"a\":[1 ]}", b"{\"a\":[1]}"),
    (
        b"{\"v\":[[1,2,3]],\"a\":\"\\/\"}",
        b"{\"v\":[[1,2,3]],\"a\":\"/\"}",
    ),
];

/// Texts that are no objects, and texts at fault.
const NONE: [&[u8]; 8] = [
    b"",
    b" ",
    b"[]",
    b"7",
    b"{\"a\":1",
    b"{\"a\":1} x",
    b"{\"a\":1,\"a\":2}",
    b"{\"a\":\"\xff\"}",
];

/// Compact texts of other values.
const OTHERS: [&[u8]; 7] = [
    b"null",
    b"true",
    b"0",
    b"-1.5e3",
    b"\"{}\"",
    b"[]",
    b"[{\"a\":1}]",
];

/// A line that holds something, to be taken for its memory.
fn old_line(alloc: Global) -> Result<Line, AllocError> {
    Ok(Line::from_vec(b"an old line".to_vec(alloc)?))
}

/// What is told of a text, and the buffer that it was given.
#[derive(Drop)]
struct Found {
    object: CompactObject,
    buffer: Line,
}

/// The object that is told of a text, if one is.
fn told(alloc: Global, text: &[u8]) -> Option<Found> {
    let mut workspace = Workspace::new(alloc, old_line(alloc).ok()?);
    let object = compact_object(alloc, text, &mut workspace).ok()??;
    let Workspace { line: buffer, .. } = workspace;
    Some(Found { object, buffer })
}

/// Whether its members are where they are found in its compact text.
fn has_same_object(alloc: Global, text: &[u8]) -> bool {
    let Some(Found { object, buffer }) = told(alloc, text) else {
        return false;
    };
    match members_of_compact(alloc, object.place.bytes(text, &buffer)) {
        Ok(Some(parts)) => object.parts.as_slice() == parts.as_slice(),
        Ok(None) | Err(_) => false,
    }
}

/// Whether the reader gives the same text.
fn is_read_so(alloc: Global, text: &[u8]) -> bool {
    let Some(Found { object, buffer }) = told(alloc, text) else {
        return false;
    };
    read_and_printed(alloc, text).is_some_and(|line| line.items()
        == object.place.bytes(text, &buffer))
}

/// Whether the text is this in memory of its own, too.
fn is_held(alloc: Global, text: &[u8], told: Found, compact: &[u8]) -> bool {
    let Found { object, mut buffer } = told;
    if object.place.copy_to_buffer(text, &mut buffer).is_err() {
        return false;
    }
    let Ok(copy) = text.to_vec(alloc) else {
        return false;
    };
    buffer.items() == compact && object.place.into_line(copy, buffer).items() == compact
}

/// Whether the text up to this length is lent, and nothing stands in the buffer.
fn is_lent(alloc: Global, text: &[u8], len: usize) -> bool {
    let Some(told) = told(alloc, text) else {
        return false;
    };
    told.object.place == TextPlace::Read(len)
        && told.buffer.items().is_empty()
        && is_held(alloc, text, told, text.get(..len).unwrap_or(b""))
}

/// Whether this compact text is written for the text.
fn is_written(alloc: Global, text: &[u8], compact: &[u8]) -> bool {
    let Some(told) = told(alloc, text) else {
        return false;
    };
    told.object.place == TextPlace::Written
        && told.buffer.items() == compact
        && is_held(alloc, text, told, compact)
}

#[test]
fn a_compact_text_is_lent(rt: HostRuntime) {
    for (text, len) in LENT.iter() {
        expect(&rt, is_lent(rt.alloc(), text, *len), text);
        expect(&rt, has_same_object(rt.alloc(), text), text);
        expect(&rt, is_read_so(rt.alloc(), text), text);
    }
}

#[test]
fn another_text_is_written(rt: HostRuntime) {
    for (text, compact) in WRITTEN.iter() {
        expect(&rt, is_written(rt.alloc(), text, compact), text);
        expect(&rt, has_same_object(rt.alloc(), text), text);
        expect(&rt, is_read_so(rt.alloc(), text), text);
    }
}

#[test]
fn of_no_object_nothing_is_told(rt: HostRuntime) {
    for text in NONE.iter() {
        expect(&rt, told(rt.alloc(), text).is_none(), text);
    }
}

#[test]
fn another_value_has_no_members(rt: HostRuntime) {
    for text in OTHERS.iter() {
        let members = members_of_compact(rt.alloc(), text);
        expect(&rt, matches!(members, Ok(None)), text);
    }
}

/// A large object with so many triples, and so many blanks before its last member.
fn large(alloc: Global, count: usize, blanks: usize) -> Result<Vec<u8>, AllocError> {
    text_of(
        alloc,
        &[
            (b"{\"v\":[[0,0,0]", 1),
            (b",[1,-22,333]", count),
            (b"],", 1),
            (b" ", blanks),
            (b"\"n\":\"caf\xc3\xa9\"}", 1),
        ],
    )
}

/// Whether it is lent, and written where there are blanks.
fn is_told(alloc: Global, count: usize, blanks: usize) -> Result<bool, AllocError> {
    let text = large(alloc, count, blanks)?;
    let compact = large(alloc, count, 0)?;
    let is_so = if blanks == 0 {
        is_lent(alloc, &text, compact.len())
    } else {
        is_written(alloc, &text, &compact)
    };
    Ok(is_so && has_same_object(alloc, &text))
}

/// Objects with many names, with names in escapes, and with names that are long where others are short.
const NAMED: [&[u8]; 6] = [
    b"{\"a\":1,\"b\":{\"a\":2,\"c\":{\"d\":3}},\"c\":4,\"d\":5,\"e\":6,\"f\":7,\"g\":8,\"h\":9}",
    b"{\"a\":1}",
    b"{\"\\u0061\":1,\"\\n\":{\"\\t\":2},\"b\":3}",
    b"{\"b\":1,\"a\":{\"b\":2,\"a\":3}}",
    b"{\"a name of many letters, as those of attributes are\":{\"\\u00e9\":null}}",
    b"{\"\":0}",
];

/// Whether the same is told of a text in memory that was used for others as in memory of its own.
fn is_told_in(alloc: Global, text: &[u8], workspace: &mut Workspace) -> bool {
    match (compact_object(alloc, text, workspace), told(alloc, text)) {
        (
            Ok(Some(object)),
            Some(
                Found {
                    object: own,
                    buffer,
                },
            ),
        ) => {
            let is_same = object.place == own.place
                && object.triples == own.triples
                && object.parts.as_slice() == own.parts.as_slice()
                && object.place.bytes(text, &workspace.line) == own.place.bytes(text, &buffer);
            workspace.take_back(object.parts);
            is_same
        }
        (Ok(None) | Err(_), None) => true,
        _ => false,
    }
}

/// Asks it of all texts in turn; the memory is trimmed after each where that is asked for.
fn are_told_in(
    rt: &(impl AllocGlobal + Abort),
    texts: &[&[u8]],
    workspace: &mut Workspace,
    is_trimmed: bool,
) {
    for text in texts.iter() {
        expect(rt, is_told_in(rt.alloc(), text, workspace), text);
        if is_trimmed {
            workspace.trim();
        }
    }
}

#[test]
fn memory_of_other_texts_changes_nothing(rt: HostRuntime) {
    let mut workspace = Workspace::new(rt.alloc(), Line::new(rt.alloc()));
    for is_trimmed in [false, true] {
        are_told_in(&rt, &NAMED, &mut workspace, is_trimmed);
        for (text, _) in LENT.iter() {
            are_told_in(&rt, &[text, b"{\"a\":1}"], &mut workspace, is_trimmed);
        }
        are_told_in(&rt, &NONE, &mut workspace, is_trimmed);
        for (text, _) in WRITTEN.iter() {
            are_told_in(
                &rt,
                &[text, b"{\"b\":[[1,2,3]]}"],
                &mut workspace,
                is_trimmed,
            );
        }
        are_told_in(&rt, &NAMED, &mut workspace, is_trimmed);
    }
}

/// An object with so many members, each of another name.
fn many_named(alloc: Global, count: usize) -> Result<Vec<u8>, AllocError> {
    let mut text = b"{\"a\":0".to_vec(alloc)?;
    for at in 0..count {
        text.extend_from_slice(b",\"")?;
        let mut rest = at;
        for _ in 0..4 {
            text.push(b'a' + (rest & 15) as u8)?;
            rest >>= 4;
        }
        text.extend_from_slice(b"\":[]")?;
    }
    text.push(b'}')?;
    Ok(text)
}

#[test]
fn memory_of_a_large_text_changes_nothing(rt: HostRuntime) -> Result<(), AllocError> {
    let mut workspace = Workspace::new(rt.alloc(), Line::new(rt.alloc()));
    for count in [0usize, 40, 41, 1, 5_000, 3, 5_000] {
        let text = many_named(rt.alloc(), count)?;
        let is_same = is_told_in(rt.alloc(), &text, &mut workspace);
        expect_at(&rt, is_same, count, b"");
        if count < 5_000 {
            workspace.trim();
        }
    }
    Ok(())
}

/// Pieces of an array with white space in them, and without it. Between two of these stand so few bytes that they are
/// copied by one move, just as many as that, or more; or an escape stands there.
const PIECES: [(&[u8], &[u8]); 7] = [
    (b", 1", b",1"),
    (b",\t12345678901234", b",12345678901234"),
    (b", 123456789012345", b",123456789012345"),
    (b", 1234567890123456", b",1234567890123456"),
    (
        b" ,\"of more than sixteen bytes\"",
        b",\"of more than sixteen bytes\"",
    ),
    (
        b",\"\\/\\u0001\\u00e9\\ud83c\\udfe0\"",
        b",\"/\\u0001\xc3\xa9\xf0\x9f\x8f\xa0\"",
    ),
    (b",{\"\\u0061\": \"\\u0062\"}", b",{\"a\":\"b\"}"),
];

/// Whether the compact text of an object that holds so many of a piece is written in memory that was used for others.
fn is_written_in(
    alloc: Global,
    piece: &'static [u8],
    compact: &'static [u8],
    count: usize,
    workspace: &mut Workspace,
) -> Result<bool, AllocError> {
    let text = text_of(alloc, &[(b"{\"n\":[ 0", 1), (piece, count), (b"]}", 1)])?;
    let compact = text_of(alloc, &[(b"{\"n\":[0", 1), (compact, count), (b"]}", 1)])?;
    let Ok(Some(object)) = compact_object(alloc, &text, workspace) else {
        return Ok(false);
    };
    let is_so = object.place == TextPlace::Written && workspace.line.items() == compact.as_slice();
    workspace.take_back(object.parts);
    Ok(is_so)
}

#[test]
fn a_text_is_written_over_longer_and_shorter_ones(rt: HostRuntime) -> Result<(), AllocError> {
    let mut workspace = Workspace::new(rt.alloc(), Line::new(rt.alloc()));
    for count in [0usize, 3, 300, 1, 70, 64, 2_000, 0, 299, 5] {
        for (piece, compact) in PIECES.iter() {
            let is_so = is_written_in(rt.alloc(), piece, compact, count, &mut workspace)?;
            expect_at(&rt, is_so, count, piece);
        }
    }
    Ok(())
}

#[test]
fn large_texts_are_lent_or_written(rt: HostRuntime) {
    for count in [1usize, 1_000, 300_000] {
        for blanks in [0, 1, count] {
            let told = is_told(rt.alloc(), count, blanks);
            expect_at(&rt, told == Ok(true), blanks, b"");
        }
    }
}
