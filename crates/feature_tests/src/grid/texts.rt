//! Vertices in compact texts: what is read of them, and what is looked at, at each length of their numbers.
use crate::grid::expect;
use byte_streams::{Fault, Line};
use city_grid::{SpelledVertex, Vertex, append_vertex, spelled_vertex_at, vertex_end};
use std::alloc::{AllocError, AllocGlobal, Global};
use std::process::Abort;

/// Integers of 1 to 16 digits, the first and the last of each length.
pub(crate) const INTEGERS: [i64; 33] = [
    0,
    9,
    10,
    99,
    100,
    999,
    1_000,
    9_999,
    10_000,
    99_999,
    100_000,
    999_999,
    1_000_000,
    9_999_999,
    10_000_000,
    99_999_999,
    100_000_000,
    999_999_999,
    1_000_000_000,
    9_999_999_999,
    10_000_000_000,
    99_999_999_999,
    100_000_000_000,
    999_999_999_999,
    1_000_000_000_000,
    9_999_999_999_999,
    10_000_000_000_000,
    99_999_999_999_999,
    100_000_000_000_000,
    999_999_999_999_999,
    1_000_000_000_000_000,
    9_007_199_254_740_990,
    9_007_199_254_740_991,
];

/// What may stand after a vertex: little of it, and more than is read at once.
const AFTER: [&str; 3] = ["", "]", ",[1,2,3],[400,500,600],[7000,8000,9000]]}"];

/// Whether nothing is said of a vertex after the first byte, neither where it is read nor where it is looked at.
fn has_none(bytes: &[u8]) -> bool {
    if bytes.is_empty() {
        return false;
    }
    vertex_end(bytes, 1).is_none() && spelled_vertex_at(bytes, 1).is_none()
}

/// Whether the vertex ends here, and stands in a text as it is written: it is read, and its end is found.
fn has_vertex(bytes: &[u8], vertex: Vertex, end: usize) -> bool {
    if bytes.is_empty() {
        return false;
    }
    let spelled = SpelledVertex {
        vertex,
        end,
        as_written: true,
    };
    vertex_end(bytes, 1) == Some(end) && spelled_vertex_at(bytes, 1) == Some(spelled)
}

/// Whether the vertex ends here, and stands in a text otherwise than it is written: only the one call reads it.
fn has_spelled(bytes: &[u8], vertex: Vertex, end: usize) -> bool {
    if bytes.is_empty() {
        return false;
    }
    let spelled = SpelledVertex {
        vertex,
        end,
        as_written: false,
    };
    spelled_vertex_at(bytes, 1) == Some(spelled) && vertex_end(bytes, 1).is_none()
}

/// Whether the vertex is found whatever stands after it.
fn is_found(alloc: Global, written: &str, vertex: Vertex) -> Result<bool, AllocError> {
    for after in AFTER.iter() {
        let text = format!(in alloc; "[{written}{after}")?;
        if !has_vertex(
            text.as_bytes(),
            vertex,
            text.len().saturating_sub(after.len()),
        ) {
            return Ok(false);
        }
    }
    Ok(true)
}

fn is_appended(alloc: Global, written: &str, vertex: Vertex) -> Result<bool, Fault> {
    let mut line = Line::new(alloc);
    append_vertex(b',', &vertex, &mut line)?;
    Ok(line.items().split_first() == Some((&b',', written.as_bytes())))
}

/// Whether a vertex is written so that it is found.
fn is_taken(alloc: Global, x: i64, y: i64, z: i64) -> Result<bool, Fault> {
    let vertex = Vertex::new(x, y, z).ok_or(Fault::VertexRange)?;
    let written = format!(in alloc; "[{x},{y},{z}]")?;
    Ok(is_found(alloc, &written, vertex)? && is_appended(alloc, &written, vertex)?)
}

fn are_taken(alloc: Global, integer: i64) -> Result<bool, Fault> {
    Ok(
        is_taken(alloc, integer, 0, -7)?
            && is_taken(alloc, 12_345_678, integer, 123_456_789)?
            && is_taken(alloc, -1, 85_000_000, integer)?
            && is_taken(alloc, integer, integer, integer)?,
    )
}

/// Whether the integer and the one of the other sign are.
fn both_are_taken(alloc: Global, integer: i64) -> bool {
    are_taken(alloc, integer) == Ok(true)
        && are_taken(alloc, i64::wrapping_neg(integer)) == Ok(true)
}

#[test]
fn vertices_of_all_lengths_are_taken(rt: HostRuntime) {
    for integer in INTEGERS.iter() {
        assert!(rt; both_are_taken(rt.alloc(), *integer), "{integer}");
    }
}

/// What is none of the numbers of a vertex.
const NUMBERS: [&str; 28] = [
    "-00",
    "00",
    "01",
    "-01",
    "007",
    "00000001",
    "000000000000000000001",
    "-",
    "--1",
    "+1",
    "",
    " 1",
    "1 ",
    "1.0",
    "1e2",
    "1a",
    "1/",
    "1:",
    "9007199254740992",
    "-9007199254740992",
    "9999999999999999",
    "10000000000000000",
    "-123456789012345678",
    "18446744073709551617",
    "100000000000000000000000000000000000000001",
    "null",
    "\"1\"",
    "[1]",
];

/// Where it stands for `ROW`.
const PLACES: [&str; 3] = ["[ROW,2,3]", "[10,ROW,30000000]", "[-1,2,ROW]"];

/// What is no vertex.
const FRONTS: [&str; 18] = [
    "",
    "[",
    "[]",
    "[1",
    "[1,",
    "[1,2",
    "[1,2,",
    "[1,2]",
    "[1,2,3,",
    "[1,2,3,4]",
    "[1,2,3}",
    "{1,2,3]",
    "(1,2,3]",
    "1,2,3]",
    "[[1,2,3]]",
    "[1;2,3]",
    "[1,2;3]",
    "null",
];

/// Whether nothing is said of it, whatever stands after it.
fn is_passed_over(alloc: Global, front: &str) -> Result<bool, AllocError> {
    let mut all = true;
    for after in AFTER.iter() {
        let text = format!(in alloc; "[{front}{after}")?;
        all = all && has_none(text.as_bytes());
    }
    Ok(all)
}

fn number_is_passed_over(alloc: Global, place: &str, number: &str) -> Result<bool, AllocError> {
    is_passed_over(alloc, &place.replace(alloc, "ROW", number)?)
}

#[test]
fn what_is_no_vertex_is_passed_over(rt: HostRuntime) {
    for front in FRONTS.iter() {
        expect(&rt, is_passed_over(rt.alloc(), front) == Ok(true), front);
    }
}

fn expect_others(rt: &(impl Abort + AllocGlobal), place: &str) {
    for number in NUMBERS.iter() {
        let is_passed_over = number_is_passed_over(rt.alloc(), place, number);
        expect(rt, is_passed_over == Ok(true), number);
    }
}

#[test]
fn other_numbers_are_passed_over(rt: HostRuntime) {
    for place in PLACES.iter() {
        expect_others(&rt, place);
    }
}

/// Vertices of which a zero has a minus sign.
const ZEROS: [(&str, [i64; 3]); 4] = [
    ("[-0,2,3]", [0, 2, 3]),
    ("[10,-0,30000000]", [10, 0, 30_000_000]),
    ("[-1,2,-0]", [-1, 2, 0]),
    ("[-0,-0,-0]", [0, 0, 0]),
];

fn is_spelled(alloc: Global, spelling: &str, numbers: [i64; 3]) -> Result<bool, Fault> {
    let [x, y, z] = numbers;
    let vertex = Vertex::new(x, y, z).ok_or(Fault::VertexRange)?;
    for after in AFTER.iter() {
        let text = format!(in alloc; "[{spelling}{after}")?;
        if !has_spelled(
            text.as_bytes(),
            vertex,
            text.len().saturating_sub(after.len()),
        ) {
            return Ok(false);
        }
    }
    Ok(true)
}

#[test]
fn a_zero_may_have_a_minus_sign(rt: HostRuntime) {
    for (spelling, numbers) in ZEROS.iter() {
        let is_spelled = is_spelled(rt.alloc(), spelling, *numbers);
        expect(&rt, is_spelled == Ok(true), spelling);
    }
}
