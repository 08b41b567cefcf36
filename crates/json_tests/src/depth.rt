//! Which texts are too deep. This is looked for before the text is read, so that it says nothing of what
//! else is wrong with it.
use crate::texts::{Pieces, expect_of_pieces, has_one_answer, is_answered, text_of};
use byte_streams::Fault;
use city_json::read;
use std::alloc::Global;

const DEEP: [Pieces<'static>; 23] = [
    &[(b"[", 129)],
    &[(b"[", 300)],
    &[(b"[", 1048576)],
    &[(b"[", 129), (b"]", 129)],
    &[(b"[", 300), (b"]", 300)],
    &[(b" {\"a\":", 1), (b"{", 128)],
    &[(b" {\"a\":", 1), (b"{", 129)],
    &[(b" {\"a\":", 1), (b"{", 300)],
    &[(b"]", 1), (b"[", 130)],
    &[(b"}{", 1), (b"{", 129)],
    &[(b"[", 129), (b"0", 1), (b"]", 129)],
    &[(b"{\"a\":", 129), (b"0", 1), (b"}", 129)],
    &[(b"{\"a\":[", 65), (b"0", 1), (b"]}", 65)],
    &[(b"[0,", 129), (b"0", 1), (b"]", 129)],
    &[(b"\"", 1), (b"[", 200), (b"\"", 1), (b"[", 129)],
    &[(b"[1,\"a\",\"", 1), (b"[", 200), (b"\"", 1), (b"[", 129)],
    &[(b"\"\\\"", 1), (b"[", 200), (b"\"", 1), (b"[", 129)],
    &[(b"\"\\\\\\\"", 1), (b"[", 200), (b"\"", 1), (b"[", 129)],
    &[
        (b"\"a long text before the bracket \\u0041\\\"", 1),
        (b"[", 200),
        (b"\"", 1),
        (b"[", 129),
    ],
    &[(b"\"\\\"\"", 1), (b"[", 129)],
    &[(b"\"\\\\\"", 1), (b"[", 129)],
    &[(b"\"\"", 1), (b"[", 129)],
    &[
        (b"\"a long text before the brackets\\\\\\\"\"", 1),
        (b"[", 129),
    ],
];

/// Brackets up to the limit, or past it in strings and where one was closed too often.
const SHALLOW: [Pieces<'static>; 22] = [
    &[],
    &[(b"[", 1)],
    &[(b"[", 128)],
    &[(b" {\"a\":", 1)],
    &[(b" {\"a\":{", 1)],
    &[(b"]", 1), (b"[", 129)],
    &[(b"[[", 1), (b"]", 300)],
    &[(b"]", 1048576)],
    &[(b"\"", 1), (b"[", 200)],
    &[(b"\"", 1), (b"[", 200), (b"\"", 1)],
    &[(b"[1,\"a\",\"", 1), (b"[", 200)],
    &[(b"[1,\"a\",\"", 1), (b"[", 200), (b"\"", 1)],
    &[(b"\"\\\"", 1), (b"[", 200)],
    &[(b"\"\\\"", 1), (b"[", 200), (b"\"", 1)],
    &[(b"\"\\\\\\\"", 1), (b"[", 200)],
    &[(b"\"\\\\\\\"", 1), (b"[", 200), (b"\"", 1)],
    &[
        (b"\"a long text before the bracket \\u0041\\\"", 1),
        (b"[", 200),
    ],
    &[
        (b"\"a long text before the bracket \\u0041\\\"", 1),
        (b"[", 200),
        (b"\"", 1),
    ],
    &[(b"\"\\\"\"", 1), (b"[", 128)],
    &[(b"\"\\\\\"", 1), (b"[", 128)],
    &[(b"\"\"", 1), (b"[", 128)],
    &[
        (b"\"a long text before the brackets\\\\\\\"\"", 1),
        (b"[", 128),
    ],
];

#[test]
fn nesting_is_deep_past_the_limit(rt: HostRuntime) {
    for text in DEEP.iter() {
        let is_refused = is_answered(rt.alloc(), text, Some(Fault::TooDeep));
        expect_of_pieces(&rt, is_refused, text);
    }
}

fn is_shallow(alloc: Global, pieces: Pieces<'_>) -> bool {
    match text_of(alloc, pieces) {
        Ok(text) => {
            read(alloc, &text).err() != Some(Fault::TooDeep) && has_one_answer(alloc, &text)
        }
        Err(_) => false,
    }
}

#[test]
fn nesting_up_to_the_limit_is_not_deep(rt: HostRuntime) {
    for text in SHALLOW.iter() {
        expect_of_pieces(&rt, is_shallow(rt.alloc(), text), text);
    }
}
