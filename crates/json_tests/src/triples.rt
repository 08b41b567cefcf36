//! Of triples of whole numbers, as vertices are: which are noted, and that a text has one answer with and without them.
use crate::chance::Chance;
use crate::texts::{Pieces, expect, expect_at, has_one_answer, text_of};
use byte_streams::Line;
use city_json::{Span, Workspace, compact_object};
use std::alloc::{AllocError, Global};

/// A text, and what is noted of it.
const NOTED: [(&[u8], &[u8]); 33] = [
    (b"{\"vertices\":[[1,2,3]]}", b"[[1,2,3]]"),
    (
        b"{\"vertices\":[[0,-1,-20],[7,0,10]]}",
        b"[[0,-1,-20],[7,0,10]]",
    ),
    (
        b"{\"a\":[[1,2]],\"v\":[[4,5,6],[7,8,9]],\"b\":[[[1,2,3]]]}",
        b"[[4,5,6],[7,8,9]]",
    ),
    (b"{\"v\":[[1,2,3]],\"x\":[[4,5,6]]}", b"[[4,5,6]]"),
    (
        b"{\"v\":[[999999999999999,-999999999999999,0]]}",
        b"[[999999999999999,-999999999999999,0]]",
    ),
    (
        b"{\"v\":[[-999999999999999,-999999999999999,-999999999999999],[123456789012345,123456789012345,12345678901234]] , \"more\":1}",
        b"[[-999999999999999,-999999999999999,-999999999999999],[123456789012345,123456789012345,12345678901234]]",
    ),
    (
        b" { \"a\" : \"\\u00e9\", \"v\": [[1,2,3],[-40,5,6]], \"b\" : [ 1 ] } ",
        b"[[1,2,3],[-40,5,6]]",
    ),
    (
        b"{\"v\":[[1,2,3]],\"n\":\"\\/\\/\" , \"t\":[ ]}",
        b"[[1,2,3]]",
    ),
    (
        b"{\"v\":[[1,2,3]], \"\\u0077\":[[4,5,6]] ,\"x\":0}",
        b"[[4,5,6]]",
    ),
    (b"{\"v\":[[1000000000000000,2,3]]}", b""),
    (b"{\"v\":[[1,2,-1000000000000000]]}", b""),
    (b"{\"v\":[[1,2,3],[-0,2,3]]}", b""),
    (b"{\"v\":[[1,2,3.5]]}", b""),
    (b"{\"v\":[[1,2,3e1]]}", b""),
    (b"{\"v\":[]}", b""),
    (b"{\"v\":[[]]}", b""),
    (b"{\"v\":[1,2,3]}", b""),
    (b"{\"v\":[[1,2]]}", b""),
    (b"{\"v\":[[1,2,3,4]]}", b""),
    (b"{\"v\":[[1,2,3],[4,5],[6,7,8,9]]}", b""),
    (b"{\"v\":[[1,2,[3]]]}", b""),
    (b"{\"v\":[[1,2,\"3\"]]}", b""),
    (b"{\"v\":[[1, 2,3]]}", b""),
    (b"{\"v\":{\"v\":[[1,2,3]]}}", b""),
    (b"{\"v\":[[[1,2,3]]]}", b""),
    (b"{\"v\":[[1,2,3]],\"x\":[0,[4,5,6]]}", b"[[1,2,3]]"),
    (
        b"{\"v\":[[1,2,3],[4,5,6]],\"x\":[[7,8,9],[7,8,9.5]]}",
        b"[[1,2,3],[4,5,6]]",
    ),
    (b"{\"v\":[[0,0,0],[10,-10,0]]}", b"[[0,0,0],[10,-10,0]]"),
    (b"{\"v\":[[1,2,3],4]}", b""),
    (b"{\"v\":[[1,2,3],[[4],5,6]]}", b""),
    (b"{\"v\":[[],[1,2,3]]}", b""),
    (
        b"{\"v\":[[1,2,3],[-999999999999999,0,-1234567890123456]]}",
        b"",
    ),
    (b"{\"v\":[[1234567890123456,2,3],[1,2,3]]}", b""),
];

/// Whether the triples that are noted of a text are these, or none are noted where there are none of these. `None`:
/// nothing is told of the text.
fn noted(alloc: Global, text: &[u8], wanted: &[u8]) -> Option<bool> {
    let mut workspace = Workspace::new(alloc, Line::new(alloc));
    let Ok(Some(found)) = compact_object(alloc, text, &mut workspace) else {
        return None;
    };
    let Span { from, end } = found.triples;
    let line = found.place.bytes(text, &workspace.line);
    Some(line.get(from..end) == Some(wanted))
}

fn notes(alloc: Global, text: &[u8], wanted: &[u8]) -> bool {
    noted(alloc, text, wanted) == Some(true)
}

fn is_noted_alike(alloc: Global, text: &[u8], wanted: &[u8]) -> bool {
    notes(alloc, text, wanted) && has_one_answer(alloc, text)
}

#[test]
fn triples_of_few_digits_are_noted(rt: HostRuntime) {
    for (text, wanted) in NOTED.iter() {
        expect(&rt, is_noted_alike(rt.alloc(), text, wanted), text);
    }
}

fn many_are_noted(alloc: Global, count: usize) -> bool {
    let pieces: Pieces<'_> = &[
        (b"{\"v\":[", 1),
        (b"[1234567,-7,0],", count),
        (b"[20,3000,-1]]}", 1),
    ];
    match text_of(alloc, pieces) {
        Ok(text) => notes(
            alloc,
            &text,
            text.get(5..text.len().saturating_sub(1)).unwrap_or(b""),
        ),
        Err(_) => false,
    }
}

#[test]
fn any_number_of_triples_is_noted(rt: HostRuntime) {
    for count in 0..150 {
        expect_at(&rt, many_are_noted(rt.alloc(), count), count, b"");
    }
    expect_at(&rt, many_are_noted(rt.alloc(), 100_000), 100_000, b"");
}

const TEXT: &[u8] =
    b"{\"v\":[[10,200,3000],[-4,0,7],[708,-90,1],[20,3,-4],[67,8,90],[0,0,0],[-123456789,5,45]],\"w\":[0,[1]]}";

/// What is written in place of a byte of the text, or before it.
const PIECES: [&[u8]; 12] = [
    b"[",
    b"]",
    b",",
    b"0",
    b"7",
    b"-",
    b" ",
    b"\"",
    b"",
    b"],[",
    b"-0",
    b",1,2,3],[",
];

fn changed_has_same_answer(alloc: Global, at: usize, piece: &'static [u8], count: usize) -> bool {
    let front = TEXT.get(..at).unwrap_or(b"");
    let back = TEXT.get(at.saturating_add(count)..).unwrap_or(b"");
    match text_of(alloc, &[(front, 1), (piece, 1), (back, 1)]) {
        Ok(text) => has_one_answer(alloc, &text),
        Err(_) => false,
    }
}

fn all_changed_have_same_answer(alloc: Global, at: usize) -> bool {
    for piece in PIECES.iter() {
        if !changed_has_same_answer(alloc, at, piece, 0)
            || !changed_has_same_answer(alloc, at, piece, 1)
        {
            return false;
        }
    }
    true
}

#[test]
fn a_byte_changed_in_triples_has_one_answer(rt: HostRuntime) {
    expect(&rt, noted(rt.alloc(), TEXT, b"").is_some(), TEXT);
    for at in 0..TEXT.len() {
        let holds = all_changed_have_same_answer(rt.alloc(), at);
        expect_at(&rt, holds, at, TEXT);
    }
}

/// Digits of numbers of up to sixteen.
const DIGITS: &[u8] = b"9080706050403021";

/// Whether two triples and a short one, of numbers of so many digits, are noted with and without signs, or none of them
/// where a number has sixteen.
fn shape_is_noted(alloc: Global, x: usize, y: usize, z: usize) -> bool {
    let shape = [
        DIGITS.get(..x).unwrap_or(b""),
        DIGITS.get(..y).unwrap_or(b""),
        DIGITS.get(..z).unwrap_or(b""),
    ];
    let are_few = x < 16 && y < 16 && z < 16;
    are_noted(alloc, shape, b"", are_few) && are_noted(alloc, shape, b"-", are_few)
}

fn are_noted(alloc: Global, shape: [&'static [u8]; 3], sign: &'static [u8], are_few: bool) -> bool {
    let [x, y, z] = shape;
    let comma = (b",".as_slice(), 1);
    let pieces: Pieces<'_> = &[
        (b"{\"v\":[[", 1),
        (x, 1),
        comma,
        (sign, 1),
        (y, 1),
        comma,
        (z, 1),
        (b"],[", 1),
        (sign, 1),
        (z, 1),
        comma,
        (x, 1),
        comma,
        (sign, 1),
        (y, 1),
        (b"],[0,-1,2]]}", 1),
    ];
    match text_of(alloc, pieces) {
        Ok(text) if are_few => notes(
            alloc,
            &text,
            text.get(5..text.len().saturating_sub(1)).unwrap_or(b""),
        ),
        Ok(text) => notes(alloc, &text, b""),
        Err(_) => false,
    }
}

fn shapes_are_noted(alloc: Global, x: usize, y: usize) -> bool {
    for z in 1..17 {
        if !shape_is_noted(alloc, x, y, z) {
            return false;
        }
    }
    true
}

/// A block of the pass ends at any place in such triples.
#[test]
fn triples_of_up_to_fifteen_digits_are_noted(rt: HostRuntime) {
    for x in 1..17 {
        for y in 1..17 {
            expect_at(&rt, shapes_are_noted(rt.alloc(), x, y), x, DIGITS);
        }
    }
}

fn is_at(text: &[u8], at: usize, byte: u8) -> bool {
    text.get(at).copied() == Some(byte)
}

/// Where a number of at most fifteen digits ends, spelled as it would be written, one byte after the other.
fn number_end(text: &[u8], at: usize) -> Option<usize> {
    let signed = is_at(text, at, b'-');
    let start = at.saturating_add(usize::from(signed));
    let mut end = start;
    for byte in text.get(start..)? {
        if !byte.is_ascii_digit() {
            break;
        }
        end = end.saturating_add(1);
    }
    let count = end.saturating_sub(start);
    let is_vain = is_at(text, start, b'0') && (signed || count > 1);
    if count == 0 || count > 15 || is_vain {
        return None;
    }
    Some(end)
}

/// Where a number and the byte after it end.
fn end_with(text: &[u8], at: usize, byte: u8) -> Option<usize> {
    let end = number_end(text, at)?;
    if !is_at(text, end, byte) {
        return None;
    }
    Some(end.saturating_add(1))
}

fn triple_end(text: &[u8], at: usize) -> Option<usize> {
    if !is_at(text, at, b'[') {
        return None;
    }
    let first = end_with(text, at.saturating_add(1), b',')?;
    let second = end_with(text, first, b',')?;
    end_with(text, second, b']')
}

/// Whether the text is an array of triples, by looking at one byte after the other.
fn are_triples(text: &[u8]) -> bool {
    if !is_at(text, 0, b'[') {
        return false;
    }
    let mut at = 1;
    for _ in 0..text.len() {
        let Some(end) = triple_end(text, at) else {
            return false;
        };
        at = end.saturating_add(1);
        if !is_at(text, end, b',') {
            return is_at(text, end, b']') && at == text.len();
        }
    }
    false
}

fn put_number(text: &mut Vec<u8>, chance: &mut Chance) -> Result<(), AllocError> {
    if chance.below(12) == 0 {
        text.push(b'0')?;
        return Ok(());
    }
    if chance.below(3) == 0 {
        text.push(b'-')?;
    }
    text.push(chance.one_of(b"123456789"))?;
    let count = if chance.below(50) == 0 { 16 } else { 15 };
    for _ in 0..chance.below(count) {
        text.push(chance.one_of(b"0123456789"))?;
    }
    Ok(())
}

fn put_triple(text: &mut Vec<u8>, chance: &mut Chance) -> Result<(), AllocError> {
    text.push(b'[')?;
    put_number(text, chance)?;
    text.push(b',')?;
    put_number(text, chance)?;
    text.push(b',')?;
    put_number(text, chance)?;
    text.push(b']')?;
    Ok(())
}

/// Some triples, half of the times with a byte of another kind somewhere among them.
fn drawn(alloc: Global, chance: &mut Chance) -> Result<Vec<u8>, AllocError> {
    let mut text = b"[".to_vec(alloc)?;
    put_triple(&mut text, chance)?;
    for _ in 0..chance.below(7) {
        text.push(b',')?;
        put_triple(&mut text, chance)?;
    }
    text.push(b']')?;
    if chance.below(2) == 0 {
        return Ok(text);
    }
    let at = chance.below(text.len() as u64) as usize;
    let mut changed = text.get(..at).unwrap_or(b"").to_vec(alloc)?;
    changed.push(chance.one_of(b"0079-,[] .e"))?;
    changed.extend_from_slice(text.get(at.saturating_add(1)..).unwrap_or(b""))?;
    Ok(changed)
}

/// An object that has the triples as its first member, and this end.
fn object_of(alloc: Global, triples: &[u8], end: &[u8]) -> Result<Vec<u8>, AllocError> {
    let mut text = b"{\"v\":".to_vec(alloc)?;
    text.extend_from_slice(triples)?;
    text.extend_from_slice(end)?;
    Ok(text)
}

fn are_noted_in(alloc: Global, text: &[u8], triples: &[u8]) -> bool {
    let are = are_triples(triples);
    let wanted = if are { triples } else { b"" };
    noted(alloc, text, wanted).unwrap_or(!are)
}

fn is_noted_as(alloc: Global, triples: &[u8], end: &[u8]) -> bool {
    match object_of(alloc, triples, end) {
        Ok(text) => are_noted_in(alloc, &text, triples),
        Err(_) => false,
    }
}

fn drawn_is_noted(alloc: Global, seed: u64) -> bool {
    let mut chance = Chance { state: seed };
    let Ok(triples) = drawn(alloc, &mut chance) else {
        return false;
    };
    is_noted_as(alloc, &triples, b"}") && is_noted_as(alloc, &triples, b",\"w\":[[7,8,9],[1,[2]]]}")
}

#[test]
fn drawn_triples_are_noted_as_byte_by_byte(rt: HostRuntime) {
    for seed in 0..4000 {
        expect_at(&rt, drawn_is_noted(rt.alloc(), seed as u64), seed, b"");
    }
}
