//! That the items of an array are given as they stand in its compact text, one after another; that a text that begins with
//! no bracket has none; and that no more are given than a text has bytes, whatever it is.
use byte_streams::Line;
use city_json::ItemTexts;
use std::alloc::{AllocError, Global};

/// A text, and its items, each with a bar after it; `none` where it has the text of no array.
type Row = (&'static [u8], &'static [u8]);

const ROWS: [Row; 17] = [
    (b"[]", b""),
    (b"[1]", b"1|"),
    (b"[1,2.50,-3e4,0]", b"1|2.50|-3e4|0|"),
    (b"[null,true,false]", b"null|true|false|"),
    (b"[\"\"]", b"\"\"|"),
    (
        b"[\"a,b\",\"]\",\"\\\"\",\"\\\\\"]",
        b"\"a,b\"|\"]\"|\"\\\"\"|\"\\\\\"|",
    ),
    (b"[[],[[1],2],{}]", b"[]|[[1],2]|{}|"),
    (
        b"[{\"a\":[1,2],\"b\":\"}\"},3]",
        b"{\"a\":[1,2],\"b\":\"}\"}|3|",
    ),
    (b"[[[[[]]]]]", b"[[[[]]]]|"),
    (
        b"[[1000,2000,3000],[4000,5000,6000],[7000,8000,9000],[10000,11000,12000],[13000,14000,15000]]",
        b"[1000,2000,3000]|[4000,5000,6000]|[7000,8000,9000]|[10000,11000,12000]|[13000,14000,15000]|",
    ),
    (b"", b"none"),
    (b"{}", b"none"),
    (b"{\"a\":[1]}", b"none"),
    (b"1", b"none"),
    (b"\"[1]\"", b"none"),
    (b"null", b"none"),
    (b" [1]", b"none"),
];

/// The items of a text, as a row has them.
fn listed(alloc: Global, text: &[u8]) -> Result<Line, AllocError> {
    let mut line = Line::new(alloc);
    let Some(mut items) = ItemTexts::new(text) else {
        line.append(b"none")?;
        return Ok(line);
    };
    for _ in 0..text.len() {
        let is_over = items.is_over();
        let Some(one) = items.next() else {
            line.append(if is_over { b"" } else { b"over" })?;
            return Ok(line);
        };
        line.append(one)?;
        line.append(b"|")?;
    }
    line.append(b"more than there are bytes")?;
    Ok(line)
}

#[test]
fn items_are_given_as_they_stand(rt: HostRuntime) {
    for row in ROWS.iter() {
        let (text, wanted) = *row;
        let found = listed(rt.alloc(), text);
        assert!(rt; found.is_ok_and(|line| line.items() == wanted));
    }
}

/// No compact texts of arrays.
const OTHERS: [&[u8]; 12] = [
    b"[", b"[[", b"[,", b"[,,,]", b"[1", b"[1,", b"[1 2]", b"[1}2,3]", b"[\"", b"[\"a\\", b"[}}}",
    b"[]]]",
];

/// Whether no more items are given of it than it has bytes.
fn ends(text: &[u8]) -> bool {
    let Some(mut items) = ItemTexts::new(text) else {
        return false;
    };
    for _ in 0..text.len() {
        let _ = items.next();
    }
    items.next().is_none()
}

#[test]
fn whatever_stands_there_comes_to_an_end(rt: HostRuntime) {
    for text in OTHERS.iter() {
        assert!(rt; ends(text));
    }
}
