//! What is said of a text with more than one fault, and of names in objects that stand in one another.
use crate::texts::{Pieces, expect_of_pieces, has_one_answer, is_answered, object_text};
use byte_streams::Fault;
use std::alloc::Global;
use std::process::Abort;

/// Texts with two faults or more, and the one that is told.
const FAULTS: [(Pieces<'static>, Fault); 19] = [
    (&[(b"[", 129), (b"\xff", 1)], Fault::NotUtf8),
    (&[(b"{\"a\":1,\"a\":\xc3}", 1)], Fault::NotUtf8),
    (&[(b"[1,]\x80", 1)], Fault::NotUtf8),
    (&[(b"{\"a\":1,\"a\":2}", 1), (b"[", 129)], Fault::TooDeep),
    (&[(b"[1,]", 1), (b"[", 129), (b"]", 129)], Fault::TooDeep),
    (&[(b"{\"a\":1,\"a\":2} x", 1)], Fault::Syntax),
    (&[(b"{\"a\":1,\"a\":2},", 1)], Fault::Syntax),
    (&[(b"{\"a\":1,\"a\":2", 1)], Fault::Syntax),
    (&[(b"{\"a\":1,\"a\":2,}", 1)], Fault::Syntax),
    (&[(b"{\"a\":1,\"a\"}", 1)], Fault::Syntax),
    (&[(b"{\"a\":1,\"a\":tru}", 1)], Fault::Syntax),
    (&[(b"[{\"a\":1,\"a\":2},]", 1)], Fault::Syntax),
    (&[(b"[{\"a\":1,\"a\":2},\"\\ud800\"]", 1)], Fault::Syntax),
    (&[(b"[{\"a\":1,\"a\":2},\"\\n\\udc00\"]", 1)], Fault::Syntax),
    (
        &[(b"[{\"a\":1,\"a\":2},{\"\\ud83d\":1}]", 1)],
        Fault::Syntax,
    ),
    (&[(b"{\"a\":{\"b\":1,\"b\":2},\"c\":01}", 1)], Fault::Syntax),
    (&[(b"{\"a\":1,\"a\":{\"b\":[1,2}}", 1)], Fault::Syntax),
    (
        &[(b"[{\"a\":1,\"a\":2}", 1), (b",1.", 1), (b"]", 1)],
        Fault::Syntax,
    ),
    (
        &[(b"{\"a\":1,\"a\":2}", 1), (b" ", 70), (b"]", 1)],
        Fault::Syntax,
    ),
];

/// Objects in one another, or beside one another, of which one has a name twice.
const REPEATED: [Pieces<'static>; 12] = [
    &[(b"{\"a\":{\"b\":1},\"b\":2,\"a\":3}", 1)],
    &[(b"{\"a\":{\"a\":{\"a\":1,\"a\":2}}}", 1)],
    &[(b"{\"a\":{\"b\":1,\"c\":{}},\"a\":{}}", 1)],
    &[(b"{\"a\":[{\"b\":1},{\"b\":1}],\"a\":1}", 1)],
    &[(b"[{\"a\":1,\"b\":2},{\"b\":1,\"b\":2}]", 1)],
    &[(b"[{\"b\":1,\"b\":2},{\"a\":1,\"b\":2}]", 1)],
    &[(b"{\"c\":{\"b\":1,\"b\":2},\"d\":{\"a\":1,\"b\":2}}", 1)],
    &[(b"{\"\":{\"\":{\"\":1}},\"\":1}", 1)],
    &[(b"{\"ab\":1,\"c\":2,\"a\\u0062\":3}", 1)],
    &[(b"{\"\\u00e9\":[{\"\\n\":1}],\"\xc3\xa9\":3}", 1)],
    &[(b"{\"a\":", 127), (b"{\"a\":1,\"a\":1}", 1), (b"}", 127)],
    &[
        (b"{\"b\":{\"a\":0},\"a\":", 127),
        (b"{\"a\":1}", 1),
        (b",\"a\":0}", 1),
        (b"}", 126),
    ],
];

/// The same, where all names of an object differ.
const DISTINCT: [Pieces<'static>; 9] = [
    &[(b"{\"a\":{\"a\":{\"a\":{}}},\"b\":{\"a\":1}}", 1)],
    &[(b"{\"a\":1,\"b\":{\"a\":1,\"b\":{\"a\":1,\"b\":1}}}", 1)],
    &[(b"{\"a\":{\"b\":1,\"c\":2},\"b\":1,\"c\":2}", 1)],
    &[(b"[{\"a\":1},{\"a\":1},{\"a\":[{\"a\":1}]}]", 1)],
    &[(b"{\"a\":[{\"b\":1},{\"b\":1}],\"b\":1}", 1)],
    &[(b"{\"ab\":1,\"a\":2,\"b\":3,\"\":4}", 1)],
    &[(b"{\"a\":{\"bc\":1},\"ab\":{\"c\":1}}", 1)],
    &[(b"{\"\\n\":{\"\\n\":\"\\n\"},\"n\":\"\\n\"}", 1)],
    &[
        (b"{\"b\":{\"a\":0},\"a\":", 127),
        (b"{\"a\":1}", 1),
        (b"}", 127),
    ],
];

#[test]
fn the_first_fault_in_their_order_is_told(rt: HostRuntime) {
    for (text, fault) in FAULTS.iter() {
        expect_of_pieces(&rt, is_answered(rt.alloc(), text, Some(*fault)), text);
    }
}

#[test]
fn names_of_other_objects_say_nothing(rt: HostRuntime) {
    for text in REPEATED.iter() {
        let is_refused = is_answered(rt.alloc(), text, Some(Fault::DuplicateName));
        expect_of_pieces(&rt, is_refused, text);
    }
    for text in DISTINCT.iter() {
        expect_of_pieces(&rt, is_answered(rt.alloc(), text, None), text);
    }
}

/// Every byte of a text that is taken is left out, and every front of it is taken by itself.
const WHOLE: &[u8] =
    b"{\"a\":[1,-2.5e3,true,false,null,\"\\ud83d\\ude00x\",{}],\"\\u0062\":{\"a\":\"\xc3\xa9\"},\"\":[[],[{}]]}";

fn is_cut_alike(alloc: Global, at: usize) -> bool {
    let Ok(mut text) = WHOLE.to_vec(alloc) else {
        return false;
    };
    if at >= text.len() {
        return false;
    }
    text.remove(at);
    has_one_answer(alloc, &text) && has_one_answer(alloc, &WHOLE[..at])
}

#[test]
fn broken_texts_are_refused_as_they_are_read(rt: HostRuntime) {
    assert!(rt; object_text(rt.alloc(), WHOLE).is_ok_and(|line| line.is_some()));
    for at in 0..WHOLE.len() {
        assert!(rt; is_cut_alike(rt.alloc(), at), "{at}");
    }
}

/// Texts of values that are no objects.
const OTHERS: [&str; 10] = [
    "[{}]",
    " [{\"a\":1}]",
    "\"{\"",
    "\"{}\"",
    "0",
    "-1.5 ",
    "true",
    "false",
    " \t\r\nnull",
    "[[],[{}]]",
];

fn is_no_object(alloc: Global, text: &str) -> bool {
    match object_text(alloc, text.as_bytes()) {
        Ok(line) => line.is_none(),
        Err(_) => false,
    }
}

#[test]
fn what_is_no_object_is_told(rt: HostRuntime) {
    for text in OTHERS.iter() {
        assert!(rt; is_no_object(rt.alloc(), text), "{text}");
    }
    for text in ["{}", " \t\r\n{\"a\":[1]} "] {
        assert!(rt;
            object_text(rt.alloc(), text.as_bytes()).is_ok_and(|line| line.is_some()),
            "{text}"
        );
    }
}
