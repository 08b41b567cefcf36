//! Headers that name more extensions than are found by the hash of their names.
use crate::texts::{Numbers, below, repeated};
use crate::tiles::joins;
use city_feature::Base;
use std::alloc::{AllocError, Global};

/// A header, in which its extensions stand for `ROW`.
const HEADER: &str =
    r#"{"type":"CityJSON","version":"2.0","transform":{"scale":[1,1,1],"translate":[0,0,0]},"extensions":{ROW}}"#;

fn join(alloc: Global, row: &str) -> bool {
    joins(alloc, Base::First, HEADER, row)
}

/// An extension whose name is a number.
const NUMBERED: (&str, &str) = (r#""NUMBER":{"version":"1"}"#, ",");

/// The numbers below this one, in an order of their own. It has no factor 7.
fn mixed(last: u32) -> Numbers {
    Numbers {
        step: 7,
        ..below(last)
    }
}

/// New names go last in their order: `NAMES` stands for three hundred, `OTHERS` for some of these and new ones.
const UNITED: &str =
    r#"NAMES | OTHERS | "x149":1,"1000":1,"0":{"version":"1"},"999":1,"x0":1 | OTHERS => .. => NAMES,NEW,"1000":1,"999":1"#;

fn united(alloc: Global) -> Result<String, AllocError> {
    let numbers = Numbers {
        step: 11,
        ..below(150)
    };
    let row = repeated(alloc, UNITED, "NAMES", NUMBERED, mixed(300))?;
    let row = repeated(
        alloc,
        &row,
        "OTHERS",
        (r#""xNUMBER":1,"NUMBER":{"version":"1"}"#, ","),
        numbers,
    )?;
    repeated(alloc, &row, "NEW", (r#""xNUMBER":1"#, ","), numbers)
}

#[test]
fn new_names_go_last_in_their_order(rt: HostRuntime) -> Result<(), AllocError> {
    assert!(rt; join(rt.alloc(), &united(rt.alloc())?));
    Ok(())
}

const COUNTS: [u32; 14] = [1, 2, 15, 16, 17, 18, 31, 32, 33, 64, 65, 255, 256, 257];

fn are_known(alloc: Global, count: u32) -> Result<bool, AllocError> {
    let row = " | NAMES | NAMES | NAMES => .. => NAMES";
    let row = repeated(alloc, row, "NAMES", NUMBERED, mixed(count))?;
    Ok(join(alloc, &row))
}

#[test]
fn any_number_of_names_is_known_to_the_tiles_after(rt: HostRuntime) {
    for count in COUNTS.iter() {
        assert!(rt; are_known(rt.alloc(), *count) == Ok(true), "{count}");
    }
}

/// How many extensions there are, and the one that has another text in the third tile.
const CHANGES: [(u32, u32); 32] = [
    (1, 0),
    (16, 0),
    (16, 1),
    (16, 7),
    (16, 14),
    (16, 15),
    (17, 0),
    (17, 1),
    (17, 7),
    (17, 14),
    (17, 15),
    (17, 16),
    (40, 0),
    (40, 1),
    (40, 7),
    (40, 14),
    (40, 15),
    (40, 16),
    (40, 17),
    (40, 18),
    (40, 39),
    (300, 0),
    (300, 1),
    (300, 7),
    (300, 14),
    (300, 15),
    (300, 16),
    (300, 17),
    (300, 18),
    (300, 39),
    (300, 150),
    (300, 299),
];

/// The extensions, of which this one has another text.
fn with_change(alloc: Global, names: &str, changed: u32) -> Result<String, AllocError> {
    let name = format!(in alloc; "\"{changed}\":")?;
    names.replace(alloc, &name, &format!(in alloc; "{name}1.0,\"x\":")?)
}

fn change_is_found(alloc: Global, count: u32, changed: u32) -> Result<bool, AllocError> {
    let names = repeated(alloc, "NAMES", "NAMES", NUMBERED, mixed(count))?;
    let other = with_change(alloc, &names, changed)?;
    let row = format!(in alloc; "{names} | {names} | {other} | {other} => tile 3: ExtensionClash")?;
    Ok(join(alloc, &row))
}

#[test]
fn another_text_is_found_wherever_it_stands(rt: HostRuntime) {
    for (count, changed) in CHANGES.iter() {
        assert!(rt;
            change_is_found(rt.alloc(), *count, *changed) == Ok(true),
            "{changed} of {count}"
        );
    }
}

/// The first tile that clashes is named; `NAMES` stands for a hundred.
const CLASHING: &str =
    r#"NAMES | "3":{"version":"1"},"100":1,"101":1,"102":1 | "102":1,"99":{"version":"1"},"0":{"version":"1"} | "5":{"version":"1"},"101":2 | "5":{"version":"1"},"50":{"version":"2"} => tile 4: ExtensionClash"#;

/// Names are compared as decoded; `NAMES` stands for twenty.
const DECODED: &str =
    r#"NAMES | "b":1,"a":1,"ab":1,"":1,"A":1,"é":1,"🏠":1,"a\\":1,"a\"":1 | "\u0061":1,"\u00e9":1,"e":1,"\ud83c\udfe0":1,"abc":1,"a\u005c":1 | "":1,"aa":1,"é":1,"ab":1 => .. => NAMES,"b":1,"a":1,"ab":1,"":1,"A":1,"é":1,"🏠":1,"a\\":1,"a\"":1,"e":1,"abc":1,"aa":1,"é":1"#;

fn is_joined(alloc: Global, row: &str, count: u32) -> Result<bool, AllocError> {
    Ok(join(
        alloc,
        &repeated(alloc, row, "NAMES", NUMBERED, mixed(count))?,
    ))
}

#[test]
fn names_are_compared_as_decoded(rt: HostRuntime) {
    assert!(rt; is_joined(rt.alloc(), CLASHING, 100) == Ok(true));
    assert!(rt; is_joined(rt.alloc(), DECODED, 20) == Ok(true));
}

/// An extension whose name is made to have the hash of the others in a map whose seed is fixed.
const OF_ONE_HASH: (&str, &str) = (
    r#""of_one_hash_296eG$EoGp5vDIGITS_is_of_one_hash_":{"version":"1"}"#,
    ",",
);

/// Two tiles of two thousand such extensions, of which they share a half, and one of all of them, or of most and one that
/// has another text.
const SHARED: &str = "BELOW | ABOVE | ALL => .. => ALL";

const OTHER: &str =
    r#"BELOW | ABOVE | MOST,"of_one_hash_296eG$EoGp5v00002500_is_of_one_hash_":{"version":"2"} => tile 3: ExtensionClash"#;

fn is_kept_apart(alloc: Global, row: &str) -> Result<bool, AllocError> {
    let above = Numbers {
        first: 1000,
        ..below(3000)
    };
    let row = repeated(alloc, row, "BELOW", OF_ONE_HASH, below(2000))?;
    let row = repeated(alloc, &row, "ABOVE", OF_ONE_HASH, above)?;
    let row = repeated(alloc, &row, "MOST", OF_ONE_HASH, below(2500))?;
    Ok(join(
        alloc,
        &repeated(alloc, &row, "ALL", OF_ONE_HASH, below(3000))?,
    ))
}

#[test]
fn names_of_one_hash_are_kept_apart(rt: HostRuntime) {
    assert!(rt; is_kept_apart(rt.alloc(), SHARED) == Ok(true));
    assert!(rt; is_kept_apart(rt.alloc(), OTHER) == Ok(true));
}
