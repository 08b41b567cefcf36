//! Vertices as values: read, refused, moved and written.
use crate::grid::expect;
use byte_streams::{Fault, Line};
use city_grid::{Shift, Vertex, moved, three_numbers, vertex, vertex_json, write_vertex};
use city_json::{Json, print, read};
use std::alloc::Global;

/// The three numbers of a value, as they are written.
const NUMBERS: [&[u8]; 3] = [b"1.50", b"-0", b"2e+3"];

/// Values that are no three numbers.
const NO_NUMBERS: [&str; 5] = ["[1, 2]", "[1, 2, 3, 4]", "[1, \"2\", 3]", "{}", "3"];

fn are_numbers(value: &Json, wanted: &[&[u8]; 3]) -> bool {
    match three_numbers(value) {
        Some(numbers) => {
            numbers.x.as_bytes() == wanted[0]
                && numbers.y.as_bytes() == wanted[1]
                && numbers.z.as_bytes() == wanted[2]
        }
        None => false,
    }
}

fn has_numbers(alloc: Global, text: &str, wanted: &[&[u8]; 3]) -> bool {
    match read(alloc, text.as_bytes()) {
        Ok(value) => are_numbers(&value, wanted),
        Err(_) => false,
    }
}

fn has_no_numbers(alloc: Global, text: &str) -> bool {
    match read(alloc, text.as_bytes()) {
        Ok(value) => three_numbers(&value).is_none(),
        Err(_) => false,
    }
}

#[test]
fn three_numbers_are_as_written(rt: HostRuntime) {
    assert!(rt; has_numbers(rt.alloc(), "[1.50, -0, 2e+3]", &NUMBERS));
    for text in NO_NUMBERS.iter() {
        expect(&rt, has_no_numbers(rt.alloc(), text), text);
    }
}

/// Texts of vertices, and where these are.
const VERTICES: [(&str, [i64; 3]); 3] = [
    ("[1, 20, -300]", [1, 20, -300]),
    ("[-0, 0, 0]", [0, 0, 0]),
    (
        "[9007199254740991, -9007199254740991, 0]",
        [9_007_199_254_740_991, -9_007_199_254_740_991, 0],
    ),
];

/// Texts of values that are no vertices.
const NO_VERTICES: [(&str, Fault); 9] = [
    ("[1.0, 0, 0]", Fault::VertexNotInteger),
    ("[1e2, 0, 0]", Fault::VertexNotInteger),
    ("[9007199254740992, 0, 0E0]", Fault::VertexNotInteger),
    ("[9007199254740992, 0, 0]", Fault::VertexRange),
    ("[0, 0, -9007199254740992]", Fault::VertexRange),
    ("[1, 2]", Fault::VertexShape),
    ("[1, 2, 3, 4e1]", Fault::VertexShape),
    ("[\"1\", 2, 3]", Fault::VertexShape),
    ("null", Fault::VertexShape),
];

/// What is said of the value of this text, which is to be a vertex.
fn vertex_in(alloc: Global, text: &str) -> Result<Vertex, Fault> {
    vertex(&read(alloc, text.as_bytes())?)
}

fn is_vertex(found: Result<Vertex, Fault>, wanted: &[i64; 3]) -> bool {
    let [x, y, z] = *wanted;
    found.is_ok() && found.ok() == Vertex::new(x, y, z)
}

fn long_integer(alloc: Global) -> Result<Vertex, Fault> {
    let digits = "9".repeat(alloc, 10_000)?;
    vertex_in(alloc, &format!(in alloc; "[{digits}, 0, 0]")?)
}

#[test]
fn vertices_are_read(rt: HostRuntime) {
    for (text, wanted) in VERTICES.iter() {
        expect(&rt, is_vertex(vertex_in(rt.alloc(), text), wanted), text);
    }
}

#[test]
fn other_values_are_refused(rt: HostRuntime) {
    for (text, fault) in NO_VERTICES.iter() {
        expect(&rt, vertex_in(rt.alloc(), text) == Err(*fault), text);
    }
}

#[test]
fn a_long_integer_is_out_of_range(rt: HostRuntime) {
    assert!(rt; long_integer(rt.alloc()) == Err(Fault::VertexRange));
}

/// How a vertex at the end of the range is moved, and where it is then.
const MOVED: [([i64; 3], [i64; 3]); 3] = [
    ([0, 0, 0], [9_007_199_254_740_991, 0, 0]),
    ([-1, 0, 0], [9_007_199_254_740_990, 0, 0]),
    (
        [0, 7, -9_007_199_254_740_991],
        [9_007_199_254_740_991, 7, -9_007_199_254_740_991],
    ),
];

fn far_moved(steps: &[i64; 3]) -> Result<Vertex, Fault> {
    let [x, y, z] = *steps;
    match (
        Vertex::new(9_007_199_254_740_991, 0, 0),
        Shift::new(x, y, z),
    ) {
        (Some(far), Some(shift)) => moved(far, shift),
        _ => Err(Fault::ShiftRange),
    }
}

#[test]
fn vertices_are_moved(rt: HostRuntime) {
    for (steps, wanted) in MOVED.iter() {
        assert!(rt; is_vertex(far_moved(steps), wanted));
    }
    assert!(rt; far_moved(&[1, 0, 0]) == Err(Fault::VertexRange));
}

fn is_printed(alloc: Global, value: &Json, wanted: &[u8]) -> bool {
    let mut line = Line::new(alloc);
    print(value, &mut line).is_ok() && line.items() == wanted
}

/// Values whose place a vertex takes.
const BEFORE: [&str; 6] = [
    "[1,2,3]",
    "[-0,12345678901234567890123,1.5]",
    "[]",
    "[1,[2],3,4,5]",
    "{\"a\":1}",
    "null",
];

fn is_replaced(alloc: Global, text: &str) -> Result<bool, Fault> {
    let vertex = Vertex::new(-9_007_199_254_740_991, 0, 17).ok_or(Fault::VertexRange)?;
    let mut value = read(alloc, text.as_bytes())?;
    let is_done = write_vertex(alloc, &vertex, &mut value).is_ok();
    Ok(is_done && is_printed(alloc, &value, b"[-9007199254740991,0,17]"))
}

fn vertex_is_written(alloc: Global) -> Result<bool, Fault> {
    let vertex = Vertex::new(9_007_199_254_740_990, 0, -9_007_199_254_740_991);
    let value = vertex_json(alloc, &vertex.ok_or(Fault::VertexRange)?)?;
    Ok(is_printed(alloc, &value, b"[9007199254740990,0,-9007199254740991]"))
}

#[test]
fn a_vertex_is_written_as_a_value(rt: HostRuntime) {
    assert!(rt; vertex_is_written(rt.alloc()) == Ok(true));
}

#[test]
fn a_vertex_takes_the_place_of_any_value(rt: HostRuntime) {
    for text in BEFORE.iter() {
        expect(&rt, is_replaced(rt.alloc(), text) == Ok(true), text);
    }
}
