//! Which texts are numbers, how they are kept, and their parts.
use crate::texts::{expect, expect_at, is_answered};
use byte_streams::Fault;
use city_json::{Json, NumText};
use std::alloc::Global;

const NUMBERS: [&[u8]; 15] = [
    b"0.001",
    b"1e-3",
    b"1.0E-3",
    b"0.00100",
    b"0.0010000000474974513",
    b"1.5",
    b"-0.0",
    b"0e99999999999999999999",
    b"1e-24",
    b"0.0000000000000000000000001",
    b"999999999999.5",
    b"1000000000000",
    b"-1e12",
    b"1234567890123456789012",
    b"12345678901234567890123",
];

fn copied(alloc: Global, number: NumText) -> Option<NumText> {
    match Json::Num(number).copy(alloc) {
        Ok(Json::Num(copy)) => Some(copy),
        _ => None,
    }
}

/// Whether the number is as it was written, and its copy is so too.
fn is_kept(alloc: Global, text: &[u8]) -> bool {
    match NumText::read(alloc, text) {
        Ok(number) => {
            number.as_bytes() == text
                && copied(alloc, number).is_some_and(|copy| copy.as_bytes() == text)
        }
        Err(_) => false,
    }
}

fn long_number_is_kept(alloc: Global) -> bool {
    match "7".repeat(alloc, 10_000) {
        Ok(digits) => is_kept(alloc, digits.as_bytes()),
        Err(_) => false,
    }
}

#[test]
fn numbers_are_kept_as_written(rt: HostRuntime) {
    for text in NUMBERS.iter() {
        expect(&rt, is_kept(rt.alloc(), text), text);
    }
}

#[test]
fn a_long_number_is_kept_as_written(rt: HostRuntime) {
    assert!(rt; long_number_is_kept(rt.alloc()));
}

const NO_NUMBERS: [&[u8]; 21] = [
    b"", b"-", b"+1", b".5", b"-.5", b"1.", b"1.e5", b"1.,2", b"1e", b"1e+", b"1E-]", b"-a",
    b"--1", b"e5", b"NaN", b"1x", b" 1", b"1 ", b"1 2", b"0x10", b"01",
];

fn is_no_number(alloc: Global, text: &[u8]) -> bool {
    NumText::read(alloc, text).err() == Some(Fault::Syntax)
}

#[test]
fn other_texts_are_no_numbers(rt: HostRuntime) {
    for text in NO_NUMBERS.iter() {
        expect(&rt, is_no_number(rt.alloc(), text), text);
    }
}

/// A number and its parts.
struct Parted {
    text: &'static [u8],
    is_negative: bool,
    whole: &'static [u8],
    fraction: &'static [u8],
    exponent: &'static [u8],
}

const PARTED: [Parted; 6] = [
    Parted {
        text: b"0",
        is_negative: false,
        whole: b"0",
        fraction: b"",
        exponent: b"",
    },
    Parted {
        text: b"-0.0",
        is_negative: true,
        whole: b"0",
        fraction: b"0",
        exponent: b"",
    },
    Parted {
        text: b"-184.250",
        is_negative: true,
        whole: b"184",
        fraction: b"250",
        exponent: b"",
    },
    Parted {
        text: b"1.50e+3",
        is_negative: false,
        whole: b"1",
        fraction: b"50",
        exponent: b"+3",
    },
    Parted {
        text: b"20E-24",
        is_negative: false,
        whole: b"20",
        fraction: b"",
        exponent: b"-24",
    },
    Parted {
        text: b"7e05",
        is_negative: false,
        whole: b"7",
        fraction: b"",
        exponent: b"05",
    },
];

fn has_parts(alloc: Global, row: &Parted) -> bool {
    let Ok(number) = NumText::read(alloc, row.text) else {
        return false;
    };
    let parts = number.parts();
    parts.is_negative == row.is_negative
        && parts.whole == row.whole
        && parts.fraction == row.fraction
        && parts.exponent == row.exponent
}

#[test]
fn numbers_have_their_parts(rt: HostRuntime) {
    for row in PARTED.iter() {
        expect(&rt, has_parts(rt.alloc(), row), row.text);
    }
}

fn is_shown(alloc: Global, number: &NumText, wanted: &str) -> bool {
    match format!(in alloc; "{number:?}") {
        Ok(shown) => shown.as_str() == wanted,
        Err(_) => false,
    }
}

fn number_is_shown(alloc: Global, text: &[u8], wanted: &str) -> bool {
    match NumText::read(alloc, text) {
        Ok(number) => is_shown(alloc, &number, wanted),
        Err(_) => false,
    }
}

#[test]
fn a_number_shows_its_bytes(rt: HostRuntime) {
    assert!(rt; number_is_shown(rt.alloc(), b"-3", "NumText { text: [45, 51] }"));
}

/// Whether numbers of so many digits are taken as they are, and none with a byte more in the digits' midst, whatever
/// stands after them.
fn are_taken(alloc: Global, digits: usize) -> bool {
    let ends: [&'static [u8]; 4] = [
        b"",
        b",1",
        b",12345678901234567",
        b",\"0123456789012345678901234567890123456789\"",
    ];
    for end in ends {
        let whole = [(b"[7".as_slice(), 1), (b"3", digits), (end, 1), (b"]", 1)];
        let fraction = [(b"[7.0".as_slice(), 1), (b"3", digits), (end, 1), (b"]", 1)];
        let broken = [
            (b"[7".as_slice(), 1),
            (b"3", digits),
            (b"/", 1),
            (b"3", digits),
            (end, 1),
            (b"]", 1),
        ];
        if !is_answered(alloc, &whole, None)
            || !is_answered(alloc, &fraction, None)
            || !is_answered(alloc, &broken, Some(Fault::Syntax))
        {
            return false;
        }
    }
    true
}

#[test]
fn numbers_of_any_length_are_taken(rt: HostRuntime) {
    for digits in 0..80 {
        expect_at(&rt, are_taken(rt.alloc(), digits), digits, b"");
    }
    expect_at(&rt, are_taken(rt.alloc(), 100_001), 100_001, b"");
}
