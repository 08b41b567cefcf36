//! Texts that are refused, of which the one pass says nothing.
use crate::texts::{expect, is_refused};
use byte_streams::Fault;

const NO_JSON: [&[u8]; 93] = [
    b"",
    b"01",
    b"1.",
    b".5",
    b"+1",
    b"-",
    b"1e",
    b"[1,]",
    b"{\"a\":1,}",
    b"{\"a\"}",
    b"{a:1}",
    b"'a'",
    b"nul",
    b"1 2",
    b"[",
    b"]",
    b"\xef\xbb\xbf{}",
    b"{\"a\":1,\"a\":2",
    b"[1 2]",
    b"[,1]",
    b"{\"a\":1 \"b\":2}",
    b"\"\\ud83d\"",
    b"\"\\ud800\"",
    b"\"\\ude00\"",
    b"\"\\ude00\\ud83d\"",
    b"\"\\x\"",
    b"\"\\u12\"",
    b"\"a\tb\"",
    b"{\"\\ud800\":1}",
    b"[1, 2, ]",
    b"[1, 2,",
    b"[1, 2, ",
    b"[1, 02, 3]",
    b"[1, , 2]",
    b"[1, 2 3]",
    b"[[1, 2], [3]",
    b"[[1, 2]], [3]]",
    b"[[1, 2] [3]]",
    b"[[1, 2], [3], ]",
    b"[[1, 2}, [3]]",
    b"{\"v\":[1,2,03]}",
    b"{\"v\":[1,2,]}",
    b"{\"v\":[[1,2],[3]}",
    b"{\"v\":[1,2,[]",
    b"{\"v\":[1 2]}",
    b"{\"v\":[1,,2]}",
    b"{\"a\" 1}",
    b"{\"a\",1}",
    b"{\"a\", 1}",
    b"{\"a\":1:\"b\":2}",
    b"{\"a\":1: \"b\":2}",
    b"{\"a\":1]",
    b"{\"a\":1 ,}",
    b"{\"a\":1, }",
    b"{\"a\":1,",
    b"{\"a\":1 ",
    b"{\"a\":",
    b"{\"a\": ",
    b"{\"a\"",
    b"{\"a\":1}}",
    b"{,\"a\":1}",
    b"[\"a]",
    b"00.5",
    b"-1.0.5",
    b"2e5e5",
    b"7-7",
    b"\"\\ud83d\\ud83d\"",
    b"\"\\ud83dx\\ude00\"",
    b"\"\\ud83d\\n\"",
    b"\"\\u12",
    b"\"\\U0041\"",
    b"\"\\u00g0\"",
    b"\"\\",
    b"\"\\\"",
    b"\"\\na\x1f\"",
    b"\"",
    b"\"open",
    b"[,0]",
    b"[-,0]",
    b"[+1,0]",
    b"[.5,0]",
    b"[-.5,0]",
    b"[1.,0]",
    b"[1.e5,0]",
    b"[1.,2,0]",
    b"[1e,0]",
    b"[1e+,0]",
    b"[1E-],0]",
    b"[-a,0]",
    b"[--1,0]",
    b"[e5,0]",
    b"[NaN,0]",
    b"[1x,0]",
];

const NOT_UTF8: [&[u8]; 5] = [
    b"\xff",
    b"\"\xed\xa0\x80\"",
    b"[\xc0\xaf",
    b"\"\xff\"",
    b"\"\\n\xc3\"",
];

const DUPLICATE_NAMES: [&[u8]; 3] = [
    b"{\"a\":1,\"\\u0061\":2}",
    b"[{\"b\":{\"a\":1,\"c\":2,\"a\":1}}]",
    b"{\"\":1,\"\":2}",
];

#[test]
fn what_is_no_json_text_is_refused(rt: HostRuntime) {
    for text in NO_JSON.iter() {
        expect(&rt, is_refused(rt.alloc(), text, Fault::Syntax), text);
    }
}

#[test]
fn what_is_no_text_is_refused(rt: HostRuntime) {
    for text in NOT_UTF8.iter() {
        expect(&rt, is_refused(rt.alloc(), text, Fault::NotUtf8), text);
    }
}

#[test]
fn a_name_that_stands_twice_is_refused(rt: HostRuntime) {
    for text in DUPLICATE_NAMES.iter() {
        let is_refused = is_refused(rt.alloc(), text, Fault::DuplicateName);
        expect(&rt, is_refused, text);
    }
}
