//! Of arrays that begin as triples, and of nested whole numbers: wherever in a block something else stands, or a bracket,
//! the answer is the reader's.
use crate::texts::{Pieces, expect_at, has_one_answer, read_and_printed, text_of};
use std::alloc::{AllocError, Global};

/// Whether the answer is the reader's, which takes the text or not, as is wanted.
fn is_told(alloc: Global, text: &[u8], is_taken: bool) -> bool {
    read_and_printed(alloc, text).is_some() == is_taken && has_one_answer(alloc, text)
}

fn are_told(alloc: Global, pieces: Pieces<'_>, is_taken: bool) -> bool {
    match text_of(alloc, pieces) {
        Ok(text) => is_told(alloc, &text, is_taken),
        Err(_) => false,
    }
}

/// What stands after triples, and whether it may.
const LATE: [(&[u8], bool); 38] = [
    (b"[-0,1,1]", true),
    (b"[1,-0,1]", true),
    (b"[9007199254740991,1,1]", true),
    (b"[1,2,-9007199254740991]", true),
    (b"[1,2,3,4]", true),
    (b"[1,2]", true),
    (b"[1]", true),
    (b"[]", true),
    (b"[1,2,3.5]", true),
    (b"[1,2e3,3]", true),
    (b"[1,2,[3]]", true),
    (b"[[1,2,3]]", true),
    (b"{\"a\":1,\"b\":[]}", true),
    (b"\"s\\u00e9\"", true),
    (b"7", true),
    (b"null", true),
    (b" [1,2,3]", true),
    (b"[1, 2,3]", true),
    (b"[1,2,3] ", true),
    (b"[1,2,3] ,[4,5,6]", true),
    (b"\n[1,2],[4,5,6]", true),
    (b"[1,2,3,4],[-0,5,6],[7,8,9]", true),
    (
        b"[4,5,6,7],[1,2,3],[1,2,3],[1,2,3],[1,2,3],[1,2,3],\"s\"",
        true,
    ),
    (b"[1,2,3", false),
    (b"[1,2,3]]]", false),
    (b"[1,2,3],", false),
    (b",[1,2,3]", false),
    (b"[1,,3]", false),
    (b"[1,2,]", false),
    (b"[01,2,3]", false),
    (b"[-,2,3]", false),
    (b"[1,2,3.]", false),
    (b"[1,2,-01]", false),
    (b"[1,2,3][4,5,6]", false),
    (b"[1,2,3}", false),
    (b"nul", false),
    (b"\"s", false),
    (b"", false),
];

/// How the text goes on after that, and whether it may.
const ENDS: [(&[u8], bool); 6] = [
    (b"]}", true),
    (b"],\"w\":[[7,8,9],[1,[2]]]}", true),
    (
        b"] , \"w\" : \"some bytes more, so that the text goes on for longer than a block\" }",
        true,
    ),
    (b"", false),
    (b"}", false),
    (b",]}", false),
];

/// Whether all this is told after a triple that begins with so many digits, and so many of twelve bytes.
fn late_is_told(alloc: Global, digits: usize, count: usize, late: &(&'static [u8], bool)) -> bool {
    let (item, may_stand) = *late;
    for (end, may_end) in ENDS.iter() {
        let pieces: Pieces<'_> = &[
            (b"{\"v\":[[", 1),
            (b"7", digits),
            (b",-2,345],", 1),
            (b"[10,-2,345],", count),
            (item, 1),
            (end, 1),
        ];
        if !are_told(alloc, pieces, may_stand && *may_end) {
            return false;
        }
    }
    true
}

fn lates_are_told(alloc: Global, digits: usize, late: &(&'static [u8], bool)) -> bool {
    for count in 0..6 {
        if !late_is_told(alloc, digits, count, late) {
            return false;
        }
    }
    true
}

/// It begins at any place of a block.
#[test]
fn what_stands_after_triples_is_taken_as_anywhere(rt: HostRuntime) {
    for late in LATE.iter() {
        for digits in 1..13 {
            expect_at(
                &rt,
                lates_are_told(rt.alloc(), digits, late),
                digits,
                late.0,
            );
        }
    }
}

/// Whether arrays that nest so deep may stand after so many triples, in an array in an object.
fn deep_are_told(alloc: Global, count: usize, depth: usize) -> bool {
    let pieces: Pieces<'_> = &[
        (b"{\"v\":[", 1),
        (b"[10,-2,345],", count),
        (b"[", depth),
        (b"]", depth),
        (b",1]}", 1),
    ];
    are_told(alloc, pieces, depth <= 126)
}

#[test]
fn arrays_after_triples_nest_no_deeper(rt: HostRuntime) {
    for count in 0..14 {
        for depth in 120..132 {
            expect_at(&rt, deep_are_told(rt.alloc(), count, depth), depth, b"[");
        }
    }
}

/// The bytes of short arrays.
const LETTERS: &[u8] = b"[],1";

/// Two opening brackets and so many letters, by a number.
fn shape(alloc: Global, count: usize, number: usize, end: &[u8]) -> Result<Vec<u8>, AllocError> {
    let mut text = b"{\"v\":[[".to_vec(alloc)?;
    let mut left = number;
    for _ in 0..count {
        text.push(LETTERS.get(left % 4).copied().unwrap_or(b'1'))?;
        left /= 4;
    }
    text.extend_from_slice(end)?;
    Ok(text)
}

fn shape_has_one_answer(alloc: Global, count: usize, number: usize) -> bool {
    let short = shape(alloc, count, number, b"}");
    let long = shape(alloc, count, number, b",\"more\":[0,1,2,3,4,5,6,7]}");
    match (short, long) {
        (Ok(short), Ok(long)) => has_one_answer(alloc, &short) && has_one_answer(alloc, &long),
        _ => false,
    }
}

#[test]
fn short_arrays_have_one_answer(rt: HostRuntime) {
    let mut numbers = 1usize;
    for count in 0..8 {
        for number in 0..numbers {
            expect_at(
                &rt,
                shape_has_one_answer(rt.alloc(), count, number),
                number,
                LETTERS,
            );
        }
        numbers = numbers.saturating_mul(4);
    }
}

/// So many brackets close and open again between two numbers.
const TURNS: [&[u8]; 7] = [
    b",8",
    b"],[8",
    b"]],[[8",
    b"]]],[[[8",
    b"]]]],[[[[8",
    b"]]]]],[[[[[8",
    b"]]]]]],[[[[[[8",
];

/// A number of so many digits in arrays that nest so deep, such turns, and a bracket too few, none, or one too many.
fn turns_are_told(alloc: Global, depth: usize, digits: usize, turn: usize, times: usize) -> bool {
    let piece = TURNS.get(turn).copied().unwrap_or(b"");
    let fewer = depth.saturating_sub(1);
    for more in 0..3 {
        let pieces: Pieces<'_> = &[
            (b"{\"v\":", 1),
            (b"[", depth),
            (b"7", digits),
            (piece, times),
            (b"]", fewer.saturating_add(more)),
            (b",\"w\":[0]}", 1),
        ];
        if !are_told(alloc, pieces, turn < depth && more == 1) {
            return false;
        }
    }
    true
}

fn all_turns_are_told(alloc: Global, depth: usize, digits: usize) -> bool {
    for turn in 0..7 {
        for times in [1, 3, 9, 20] {
            if !turns_are_told(alloc, depth, digits, turn, times) {
                return false;
            }
        }
    }
    true
}

/// A block of the pass, and each of its four parts, ends at any place among the brackets.
#[test]
fn brackets_close_at_any_place_of_a_block(rt: HostRuntime) {
    for depth in 1..7 {
        for digits in 1..67 {
            expect_at(
                &rt,
                all_turns_are_told(rt.alloc(), depth, digits),
                digits,
                b"7",
            );
        }
    }
}
