//! Of the one pass where it takes many bytes at once: at each place of a block it says what the reader says.
use crate::texts::{expect_at, has_one_answer, is_answered, text_of};
use std::alloc::{AllocGlobal, Global};
use std::process::Abort;

/// What stands so many times in an array.
const ITEMS: [&[u8]; 3] = [b"10,", b"[0,120],", b"[[7],[]],[3],"];

const ENDS: [&[u8]; 3] = [
    b"0]}",
    b"0],\"b\":[[1,2],[3]]}",
    b"0],\"b\":\"some bytes more, so that the text goes on for longer than a block of 64 bytes\"}",
];

fn array_is_taken(alloc: Global, count: usize, item: &'static [u8], end: &'static [u8]) -> bool {
    let name = (b"n".as_slice(), count % 5);
    is_answered(
        alloc,
        &[(b"{\"", 1), name, (b"\":[", 1), (item, count), (end, 1)],
        None,
    )
}

fn arrays_are_taken(alloc: Global, count: usize, item: &'static [u8]) -> bool {
    for end in ENDS.iter() {
        if !array_is_taken(alloc, count, item, end) {
            return false;
        }
    }
    true
}

fn expect_arrays(rt: &(impl Abort + AllocGlobal), item: &'static [u8]) {
    for count in 0..48 {
        expect_at(rt, arrays_are_taken(rt.alloc(), count, item), count, item);
    }
}

#[test]
fn arrays_of_any_length_are_taken(rt: HostRuntime) {
    for item in ITEMS.iter() {
        expect_arrays(&rt, item);
    }
}

const TEXT: &[u8] =
    b"{\"v\":[[10,200,3000],[4],[],[[5,60],[0]],[708,90,1],[20,3,4],[[[5]]],[67,8,90],[123456789],0,[1,2,3],[45,6]],\"w\":[0,[1]]}";

/// What is written at a place of the text, for so many bytes of it.
const EDITS: [(&[u8], usize); 23] = [
    (b"[", 1),
    (b"]", 1),
    (b",", 1),
    (b"0", 1),
    (b"-", 1),
    (b" ", 1),
    (b"\"", 1),
    (b"", 0),
    (b" ", 0),
    (b"]", 0),
    (b"[", 0),
    (b",", 0),
    (b"0", 0),
    (b"[]", 0),
    (b",[0", 0),
    (b"", 1000),
    (b" ", 1000),
    (b"]", 1000),
    (b"[", 1000),
    (b",", 1000),
    (b"0", 1000),
    (b"[]", 1000),
    (b",[0", 1000),
];

fn edited_has_one_answer(
    alloc: Global,
    text: &'static [u8],
    at: usize,
    bytes: &'static [u8],
    count: usize,
) -> bool {
    let front = text.get(..at).unwrap_or(b"");
    let back = text.get(at.saturating_add(count)..).unwrap_or(b"");
    match text_of(alloc, &[(front, 1), (bytes, 1), (back, 1)]) {
        Ok(text) => has_one_answer(alloc, &text),
        Err(_) => false,
    }
}

fn all_edited_have_one_answer(alloc: Global, text: &'static [u8], at: usize) -> bool {
    for (bytes, count) in EDITS.iter() {
        if !edited_has_one_answer(alloc, text, at, bytes, *count) {
            return false;
        }
    }
    true
}

#[test]
fn a_byte_is_wrong_at_the_same_places(rt: HostRuntime) {
    let text: &'static [u8] = TEXT;
    for at in 0..text.len() {
        let holds = all_edited_have_one_answer(rt.alloc(), text, at);
        expect_at(&rt, holds, at, text);
    }
}

/// A text in which one piece stands so many times, and another as often after it.
struct Repeated {
    front: &'static [u8],
    piece: &'static [u8],
    middle: &'static [u8],
    closing: &'static [u8],
    back: &'static [u8],
}

const REPEATED: [Repeated; 16] = [
    Repeated {
        front: b"{\"n\":[",
        piece: b"[",
        middle: b"",
        closing: b"]",
        back: b"]}",
    },
    Repeated {
        front: b"{\"n\":[",
        piece: b"[",
        middle: b"",
        closing: b"]",
        back: b"]]}",
    },
    Repeated {
        front: b"{\"n\":[",
        piece: b"[",
        middle: b"",
        closing: b"]",
        back: b",1]}",
    },
    Repeated {
        front: b"{\"n\":[",
        piece: b"[",
        middle: b"0",
        closing: b"]",
        back: b"]}",
    },
    Repeated {
        front: b"{\"n\":[",
        piece: b"[",
        middle: b"0",
        closing: b"]",
        back: b"]]}",
    },
    Repeated {
        front: b"{\"n\":[",
        piece: b"[",
        middle: b"0",
        closing: b"]",
        back: b",1]}",
    },
    Repeated {
        front: b"{\"n\":[",
        piece: b"[",
        middle: b"[],1,[2]",
        closing: b"]",
        back: b"]}",
    },
    Repeated {
        front: b"{\"n\":[",
        piece: b"[",
        middle: b"[],1,[2]",
        closing: b"]",
        back: b"]]}",
    },
    Repeated {
        front: b"{\"n\":[",
        piece: b"[",
        middle: b"[],1,[2]",
        closing: b"]",
        back: b",1]}",
    },
    Repeated {
        front: b"{\"n\":[",
        piece: b"[[3],",
        middle: b"4",
        closing: b"],[[5]]",
        back: b"]}",
    },
    Repeated {
        front: b"{\"n\":[",
        piece: b"[[3],",
        middle: b"4",
        closing: b"],[[5]]",
        back: b"]]}",
    },
    Repeated {
        front: b"{\"n\":[",
        piece: b"[",
        middle: b"1234567890123456",
        closing: b"]",
        back: b"],[[10,11,12,13,14,15,16,17,18,19,20,21,22,23,24,25,26,27,28,29]]}",
    },
    Repeated {
        front: b"[\"",
        piece: b"w",
        middle: b"",
        closing: b"",
        back: b"\" , 1 ]",
    },
    Repeated {
        front: b" [ \"",
        piece: b"w",
        middle: b"",
        closing: b"",
        back: b"\"\t]",
    },
    Repeated {
        front: b"{ \"a\" :\n[ 1 ,\"",
        piece: b"w",
        middle: b"",
        closing: b"",
        back: b"\" , 23 , [ ] ,[4 , 5],\"x\" ] , \"more\" : null }",
    },
    Repeated {
        front: b"[ -1, 2, 3.5, \"\\u00e9\" , \"",
        piece: b"w",
        middle: b"",
        closing: b"",
        back: b"\" , \"\\n\"] ",
    },
];

fn repeated_has_one_answer(alloc: Global, row: &Repeated, count: usize) -> bool {
    let pieces = [
        (row.front, 1),
        (row.piece, count),
        (row.middle, 1),
        (row.closing, count),
        (row.back, 1),
    ];
    match text_of(alloc, &pieces) {
        Ok(text) => has_one_answer(alloc, &text),
        Err(_) => false,
    }
}

fn expect_repeated(rt: &(impl Abort + AllocGlobal), row: &Repeated) {
    for count in 0..200 {
        let holds = repeated_has_one_answer(rt.alloc(), row, count);
        expect_at(rt, holds, count, row.back);
    }
}

/// Arrays nest up to the limit, and where all were closed none goes on, wherever in a block the brackets stand. Texts
/// between white space are copied in two ways, by their length and by what stands after them.
#[test]
fn pieces_may_stand_there_any_number_of_times(rt: HostRuntime) {
    for row in REPEATED.iter() {
        expect_repeated(&rt, row);
    }
}
