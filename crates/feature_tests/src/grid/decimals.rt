//! Numbers that are decimals, and those that are none.
use crate::grid::expect;
use byte_streams::Fault;
use city_grid::decimal;
use city_json::NumText;
use std::alloc::{AllocError, Global};

fn units(alloc: Global, text: &str) -> Result<i128, Fault> {
    let number = NumText::read(alloc, text.as_bytes())?;
    Ok(decimal(&number)?.units())
}

const ONE: i128 = 1_000_000_000_000_000_000_000_000;

const DECIMALS: [(&str, i128); 15] = [
    ("0.001", 1_000_000_000_000_000_000_000),
    ("1e-3", 1_000_000_000_000_000_000_000),
    ("1.0E-3", 1_000_000_000_000_000_000_000),
    ("0.00100", 1_000_000_000_000_000_000_000),
    ("0.0010000000474974513", 1_000_000_047_497_451_300_000),
    ("1.5", 1_500_000_000_000_000_000_000_000),
    ("-1.5e+0", -1_500_000_000_000_000_000_000_000),
    ("-0.0", 0),
    ("0e99999999999999999999", 0),
    ("-0.000e-99999999999999999999", 0),
    ("1e-24", 1),
    (
        "999999999999.5",
        999_999_999_999_500_000_000_000_000_000_000_000,
    ),
    ("10000000000000000000000000000000000000000e-40", ONE),
    ("0.0000000000000000000000000000001e31", ONE),
    (
        "12e0000000000000000000000000000000000000000000000000000",
        12 * ONE,
    ),
];

/// Numbers that are no decimals.
const OTHERS: [&str; 10] = [
    "1e-25",
    "0.0000000000000000000000001",
    "1000000000000",
    "1e12",
    "-1e12",
    "1e-99999999999999999999",
    "1e99999999999999999999",
    "1e340282366920938463463374607431768211456",
    "1e-340282366920938463463374607431768211456",
    "1e18446744073709551616",
];

#[test]
fn decimals_are_exact(rt: HostRuntime) {
    for (text, wanted) in DECIMALS.iter() {
        expect(&rt, units(rt.alloc(), text) == Ok(*wanted), text);
    }
}

#[test]
fn other_numbers_are_refused(rt: HostRuntime) {
    for text in OTHERS.iter() {
        expect(&rt, units(rt.alloc(), text) == Err(Fault::Decimal), text);
    }
}

/// The units of a number that begins with this digit, goes on with another one, so many times, and ends so.
fn long_units(
    alloc: Global,
    first: &str,
    digit: &str,
    end: &str,
) -> Result<Result<i128, Fault>, AllocError> {
    let text = long_text(alloc, first, digit, end)?;
    Ok(units(alloc, &text))
}

fn long_text(alloc: Global, first: &str, digit: &str, end: &str) -> Result<String, AllocError> {
    let digits = digit.repeat(alloc, 9999)?;
    format!(in alloc; "{first}{digits}{end}")
}

#[test]
fn long_numbers_are_read(rt: HostRuntime) {
    let alloc = rt.alloc();
    assert!(rt; long_units(alloc, "7", "7", "") == Ok(Err(Fault::Decimal)));
    assert!(rt; long_units(alloc, "7", "7", "e-9999") == Ok(Err(Fault::Decimal)));
    assert!(rt; long_units(alloc, "3", "0", "e-9999") == Ok(Ok(3 * ONE)));
}
