//! Decimals, transforms, shifts and vertices.

use byte_streams::Fault;
use city_grid::{
    Shift, SpelledVertex, Transform, Vertex, decimal, least_of, moved, shift_of, spelled_vertex_at,
    three_numbers, transform, vertex, vertex_end,
};
use city_json::{NumText, read};
use growth_support::{give, take};
use std::alloc::Global;

/// Numbers and their units of 10^-24.
const DECIMALS: [(&str, i128); 9] = [
    ("0.001", 1_000_000_000_000_000_000_000),
    ("1e-3", 1_000_000_000_000_000_000_000),
    ("1.0E-3", 1_000_000_000_000_000_000_000),
    ("0.00100", 1_000_000_000_000_000_000_000),
    ("0.0010000000474974513", 1_000_000_047_497_451_300_000),
    ("1.5", 1_500_000_000_000_000_000_000_000),
    ("-0.0", 0),
    ("0e99999999999999999999", 0),
    ("1e-24", 1),
];

/// Numbers outside the profile.
const NO_DECIMALS: [&str; 4] = [
    "1e-25",
    "0.0000000000000000000000001",
    "1000000000000",
    "-1e12",
];

/// The units of a number, none outside the profile; nothing where it takes memory.
fn units_of(alloc: Global, text: &str) -> Option<Result<i128, Fault>> {
    let Ok(number) = NumText::read(alloc, text.as_bytes()) else {
        return None;
    };
    let gone = take(alloc);
    let units = decimal(&number).map(|read| read.units());
    if give(alloc, gone) { Some(units) } else { None }
}

#[test]
fn decimals_are_read(rt: HostRuntime) {
    for (text, units) in DECIMALS.iter() {
        assert!(rt; units_of(rt.alloc(), text) == Some(Ok(*units)), "{text}");
    }
    for text in NO_DECIMALS.iter() {
        assert!(rt;
            units_of(rt.alloc(), text) == Some(Err(Fault::Decimal)),
            "{text}"
        );
    }
}

/// A transform, which is read where there is no memory.
fn transform_of(alloc: Global, text: &str) -> Result<Transform, Fault> {
    let value = read(alloc, text.as_bytes())?;
    let gone = take(alloc);
    let answer = transform(&value);
    if give(alloc, gone) {
        answer
    } else {
        Err(Fault::Memory)
    }
}

const HERE: &str = r#"{"scale":[0.001,0.001,0.001],"translate":[0,2,0]}"#;

const THERE: &str = r#"{"scale":[1e-3,0.0010,0.001],"translate":[1.5,0,0]}"#;

fn transforms_are_joined(alloc: Global) -> Result<bool, Fault> {
    let origin = transform_of(alloc, HERE)?;
    let other = transform_of(alloc, THERE)?;
    let gone = take(alloc);
    let least = least_of(&origin, &other);
    let is_made = Transform::new(least.scale(), least.translate()) == Some(least);
    let to_origin = shift_of(&other, &origin).ok() == Shift::new(1500, -2000, 0);
    let to_least = shift_of(&origin, &least).ok() == Shift::new(0, 2000, 0);
    Ok(give(alloc, gone) && is_made && to_origin && to_least)
}

/// Two transforms, and why there is no shift from the first to the second.
const NO_SHIFTS: [(&str, &str, Fault); 3] = [
    (
        r#"{"scale":[0.001,0.001,0.001],"translate":[0.0005,0,0]}"#,
        HERE,
        Fault::OffGrid,
    ),
    (
        r#"{"scale":[0.01,0.01,0.01],"translate":[0,0,0]}"#,
        HERE,
        Fault::ScaleDiffers,
    ),
    (
        r#"{"scale":[0.000001,0.000001,0.000001],"translate":[100000000000,0,0]}"#,
        r#"{"scale":[0.000001,0.000001,0.000001],"translate":[0,0,0]}"#,
        Fault::ShiftRange,
    ),
];

fn has_no_shift(alloc: Global, from: &str, to: &str, fault: Fault) -> Result<bool, Fault> {
    let from = transform_of(alloc, from)?;
    let to = transform_of(alloc, to)?;
    let gone = take(alloc);
    let has_none = shift_of(&from, &to) == Err(fault);
    Ok(give(alloc, gone) && has_none)
}

/// Others, and why they are refused.
const NO_TRANSFORMS: [(&str, Fault); 3] = [
    (
        r#"{"scale":[0,0.001,0.001],"translate":[0,0,0]}"#,
        Fault::ScaleNotPositive,
    ),
    (
        r#"{"scale":[1,1,1],"translate":[1e12,0,0]}"#,
        Fault::Decimal,
    ),
    (r#"{"scale":[1,1],"translate":[0,0,0]}"#, Fault::NoTransform),
];

#[test]
fn transforms_are_read_and_compared(rt: HostRuntime) -> Result<(), Fault> {
    assert!(rt; transforms_are_joined(rt.alloc())?);
    for (from, to, fault) in NO_SHIFTS.iter() {
        assert!(rt; has_no_shift(rt.alloc(), from, to, *fault)?, "{from}");
    }
    for (text, fault) in NO_TRANSFORMS.iter() {
        assert!(rt; transform_of(rt.alloc(), text) == Err(*fault), "{text}");
    }
    Ok(())
}

/// Whether a text is three numbers, and the vertex that it is, or why it is none; nothing where it takes memory.
fn vertex_of(alloc: Global, text: &str) -> Option<(bool, Result<Vertex, Fault>)> {
    let Ok(value) = read(alloc, text.as_bytes()) else {
        return None;
    };
    let gone = take(alloc);
    let answer = (three_numbers(&value).is_some(), vertex(&value));
    if give(alloc, gone) {
        Some(answer)
    } else {
        None
    }
}

fn is_vertex(alloc: Global, text: &str, x: i64, y: i64, z: i64) -> bool {
    match vertex_of(alloc, text) {
        Some((has_three, answer)) => has_three && answer.ok() == Vertex::new(x, y, z),
        None => false,
    }
}

/// Vertices as they stand, and why they are refused.
const NO_VERTICES: [(&str, Fault); 5] = [
    ("[1.0,0,0]", Fault::VertexNotInteger),
    ("[1e2,0,0]", Fault::VertexNotInteger),
    ("[1,2]", Fault::VertexShape),
    ("[\"1\",2,3]", Fault::VertexShape),
    ("[9007199254740992,0,0]", Fault::VertexRange),
];

fn is_no_vertex(alloc: Global, text: &str, fault: Fault) -> bool {
    match vertex_of(alloc, text) {
        Some((has_three, answer)) => {
            has_three == (fault != Fault::VertexShape) && answer == Err(fault)
        }
        None => false,
    }
}

#[test]
fn vertices_are_read(rt: HostRuntime) {
    let alloc = rt.alloc();
    assert!(rt; is_vertex(alloc, "[1,2,3]", 1, 2, 3));
    assert!(rt;
        is_vertex(
            alloc,
            "[-0,0,9007199254740991]",
            0,
            0,
            9_007_199_254_740_991
        )
    );
    for (text, fault) in NO_VERTICES.iter() {
        assert!(rt; is_no_vertex(alloc, text, *fault), "{text}");
    }
}

/// What a vertex comes to after a shift.
fn moved_by(start: Option<Vertex>, shift: Option<Shift>) -> Result<Vertex, Fault> {
    moved(
        start.ok_or(Fault::VertexRange)?,
        shift.ok_or(Fault::ShiftRange)?,
    )
}

#[test]
fn vertices_are_moved(rt: HostRuntime) {
    let gone = take(rt.alloc());
    let shift = Shift::new(1, -1, 0);
    assert!(rt; moved_by(Vertex::new(1, 2, 3), shift).ok() == Vertex::new(2, 1, 3));
    let last = Vertex::new(9_007_199_254_740_991, 0, 0);
    assert!(rt; last.is_some() && moved_by(last, shift) == Err(Fault::VertexRange));
    assert!(rt; moved_by(last, Some(Shift::zero())).ok() == last);
    assert!(rt; give(rt.alloc(), gone));
}

fn is_found(found: Option<SpelledVertex>, vertex: Option<Vertex>, end: usize) -> bool {
    match found {
        Some(found) => Some(found.vertex) == vertex && found.end == end && found.as_written,
        None => false,
    }
}

fn is_spelled(found: Option<SpelledVertex>, vertex: Option<Vertex>, end: usize) -> bool {
    match found {
        Some(found) => Some(found.vertex) == vertex && found.end == end && !found.as_written,
        None => false,
    }
}

#[test]
fn vertices_are_found_in_a_text(rt: HostRuntime) {
    let gone = take(rt.alloc());
    let text = b"[[-17,0,12345],[-0,1,2]]";
    assert!(rt; is_found(spelled_vertex_at(text, 1), Vertex::new(-17, 0, 12345), 14));
    assert!(rt; vertex_end(text, 1) == Some(14));
    assert!(rt; is_spelled(spelled_vertex_at(text, 15), Vertex::new(0, 1, 2), 23));
    assert!(rt; give(rt.alloc(), gone));
}
