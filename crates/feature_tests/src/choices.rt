//! What is asked for, read from texts.
use crate::texts::{below, repeated, split};
use byte_streams::Fault;
use city_feature::{Choice, area, types};
use city_json::Str;
use std::alloc::{AllocError, Global};

/// Texts, and the least x and y of their areas, and the greatest.
const AREAS: [(&str, [i64; 4]); 4] = [
    ("1,1,1,1", [1, 1, 1, 1]),
    ("-5,0,10,10", [-5, 0, 10, 10]),
    ("-05,-0,10,0010", [-5, 0, 10, 10]),
    (
        "-9007199254740991,-9007199254740991,9007199254740991,9007199254740991",
        [
            -9_007_199_254_740_991,
            -9_007_199_254_740_991,
            9_007_199_254_740_991,
            9_007_199_254_740_991,
        ],
    ),
];

/// Texts that name no area, one on each line, the empty one among them.
const NO_AREAS: &str = "
,,,
1,1,1
+1,0,1,1
1,1,1,1,
1,1,1,1,1
,1,1,1,1
0,0,9007199254740992,1
-9007199254740992,0,1,1
0,0,99999999999999999999999,1
0,0,-,1
0,0,--1,1
0,0,1.0,1
0,0,1e1,1
0, 0,1,1
2,0,1,1
0,2,1,1
";

fn is_area(text: &str, wanted: &[i64; 4]) -> bool {
    match area(text) {
        Some(area) => [area.min_x, area.min_y, area.max_x, area.max_y] == *wanted,
        None => false,
    }
}

#[test]
fn areas_are_read(rt: HostRuntime) {
    for (text, wanted) in AREAS.iter() {
        assert!(rt; is_area(text, wanted), "{text}");
    }
}

#[test]
fn texts_that_name_no_area_are_refused(rt: HostRuntime) {
    for text in NO_AREAS.lines() {
        assert!(rt; area(text).is_none(), "{text}");
    }
}

/// Texts, and the types that they name.
const TYPES: &str = "
A => A
Building,+Geb\u{e4}ude, ,Building => Building|+Geb\u{e4}ude| |Building
";

/// Texts in which a name is empty.
const NO_TYPES: &str = "
,
A,
,A
A,,B
";

fn are_named(names: &[Str], wanted: &str) -> bool {
    let mut agree = names.len() == wanted.split('|').count();
    for (name, text) in names.iter().zip(wanted.split('|')) {
        agree = agree && name.as_str() == text;
    }
    agree
}

fn has_types(choice: &Choice, wanted: &str) -> bool {
    match &choice.types {
        Some(names) => are_named(names.items(), wanted),
        None => false,
    }
}

/// Whether the text names these types, which are copied, too.
fn names_types(alloc: Global, text: &str, wanted: &str) -> Result<bool, Fault> {
    let choice = Choice::new(types(alloc, text)?, None, false);
    let copy = choice.copy(alloc)?;
    Ok(has_types(&choice, wanted) && has_types(&copy, wanted))
}

fn names_no_types(alloc: Global, text: &str) -> bool {
    matches!(types(alloc, text), Ok(None))
}

/// A thousand types.
fn thousand(alloc: Global) -> Result<String, AllocError> {
    let row = repeated(
        alloc,
        "GIVEN => WANTED",
        "GIVEN",
        ("TypeNUMBER", ","),
        below(1000),
    )?;
    repeated(alloc, &row, "WANTED", ("TypeNUMBER", "|"), below(1000))
}

fn thousand_are_named(alloc: Global) -> Result<bool, Fault> {
    let row = thousand(alloc)?;
    let (text, wanted) = split(&row);
    names_types(alloc, text, wanted)
}

#[test]
fn types_are_the_names_between_commas(rt: HostRuntime) {
    for row in TYPES.lines() {
        let (text, wanted) = split(row);
        let answer = names_types(rt.alloc(), text, wanted);
        assert!(rt; row.is_empty() || answer == Ok(true), "{row}");
    }
    assert!(rt; thousand_are_named(rt.alloc()) == Ok(true));
}

#[test]
fn no_name_is_empty(rt: HostRuntime) {
    for text in NO_TYPES.lines() {
        assert!(rt; names_no_types(rt.alloc(), text), "{text}");
    }
}
