//! Lines by readers that give few or many bytes a read, fail, or have no end.

use crate::texts::{FEATURE_A, HEADER};
use byte_streams::{Device, Fault, Line, LineFault, Source, Tape};
use std::alloc::{AllocError, Global};
use std::io::{self, ErrorKind, Read};
use std::sync::atomic::AtomicU64;
use std::sync::atomic::Ordering::SeqCst;
use tile_stream::Lines;

fn is_next<R: Source>(lines: &mut Lines<R>, number: u64, text: &str) -> bool {
    match lines.next() {
        Ok(Some(line)) => line.number == number && line.bytes.items() == text.as_bytes(),
        _ => false,
    }
}

/// Whether the next line is that of the row: its number, and after a space its text. Of an empty row there is none.
fn is_of_row<R: Source>(lines: &mut Lines<R>, row: &str) -> bool {
    let Some((number, text)) = row.split_once(' ') else {
        return row.is_empty();
    };
    match number.parse::<u64>() {
        Ok(number) => is_next(lines, number, text),
        Err(_) => false,
    }
}

fn is_named(alloc: Global, fault: LineFault, name: &str) -> bool {
    let LineFault { line, fault } = fault;
    match format!(in alloc; "{line}: {fault:?}") {
        Ok(text) => text.as_str() == name,
        Err(_) => false,
    }
}

/// Whether there is no line left: the fault comes that is named, or none where the name is empty.
fn is_over<R: Source>(alloc: Global, lines: &mut Lines<R>, last: &str) -> bool {
    match lines.next() {
        Ok(line) => line.is_none() && last.is_empty(),
        Err(fault) => is_named(alloc, fault, last),
    }
}

/// Whether the lines are those of these rows, and twice what comes after them is the last.
fn are<R: Source + Drop>(alloc: Global, mut lines: Lines<R>, rows: &str, last: &str) -> bool {
    let mut agree = true;
    for row in rows.split('\n') {
        agree = agree && is_of_row(&mut lines, row);
    }
    agree && is_over(alloc, &mut lines, last) && is_over(alloc, &mut lines, last)
}

/// The text, in which a header stands for `HEADER` and a feature for `FEATURE`.
fn spelled(alloc: Global, text: &str) -> Result<String, AllocError> {
    let text = text.replace(alloc, "HEADER", HEADER)?;
    text.replace(alloc, "FEATURE", FEATURE_A)
}

/// What a reader gives, whether it fails after it, its lines, and what comes after them.
struct Cut {
    text: &'static str,
    fails: bool,
    lines: &'static str,
    last: &'static str,
}

const CUTS: [Cut; 8] = [
    Cut {
        text: "\nHEADER\r\n \t\r\nFEATURE\r\n{",
        fails: false,
        lines: "2 HEADER\r\n4 FEATURE\r\n5 {",
        last: "",
    },
    Cut {
        text: "\nHEADER\r\n \t\r\nFEATURE\r\nFEATURE",
        fails: false,
        lines: "2 HEADER\r\n4 FEATURE\r\n5 FEATURE",
        last: "",
    },
    Cut {
        text: "{ \"type\": \"CityJSON\" }\n{\"type\":\"CityJSONFeature\", \"id\":\"a\"}\n",
        fails: false,
        lines: "1 { \"type\": \"CityJSON\" }\n2 {\"type\":\"CityJSONFeature\", \"id\":\"a\"}",
        last: "",
    },
    Cut {
        text: "HEADER\nFEATURE\n",
        fails: true,
        lines: "1 HEADER\n2 FEATURE",
        last: "3: Read",
    },
    Cut {
        text: "",
        fails: false,
        lines: "",
        last: "",
    },
    Cut {
        text: "",
        fails: true,
        lines: "",
        last: "1: Read",
    },
    Cut {
        text: "\n \t\r\n",
        fails: false,
        lines: "",
        last: "",
    },
    Cut {
        text: "\n \t\r\n",
        fails: true,
        lines: "",
        last: "3: Read",
    },
];

/// Where a line has at most four bytes, and a tile ten.
const SHORT_CUTS: [Cut; 10] = [
    Cut {
        text: "ab\nabcde\n",
        fails: false,
        lines: "1 ab",
        last: "2: LineTooLong",
    },
    Cut {
        text: "ab\nabcd\nabc",
        fails: false,
        lines: "1 ab\n2 abcd",
        last: "3: TileTooLong",
    },
    Cut {
        text: "ab\nabcd\nab",
        fails: false,
        lines: "1 ab\n2 abcd\n3 ab",
        last: "",
    },
    Cut {
        text: "     \nab",
        fails: false,
        lines: "",
        last: "1: LineTooLong",
    },
    Cut {
        text: "\n\n\n\n\n\n\n\n\n\n",
        fails: false,
        lines: "",
        last: "",
    },
    Cut {
        text: "\n\n\n\n\n\n\n\n\n\n\n",
        fails: false,
        lines: "",
        last: "11: TileTooLong",
    },
    Cut {
        text: "ab\nc",
        fails: true,
        lines: "1 ab",
        last: "2: Read",
    },
    Cut {
        text: "abcde",
        fails: true,
        lines: "",
        last: "1: LineTooLong",
    },
    Cut {
        text: "ab\nabcd\nab",
        fails: true,
        lines: "1 ab\n2 abcd",
        last: "3: Read",
    },
    Cut {
        text: "ab\nabcd\nabc",
        fails: true,
        lines: "1 ab\n2 abcd",
        last: "3: TileTooLong",
    },
];

/// A reader of the text that gives so many bytes a read.
fn tape_of(alloc: Global, text: &str, step: usize, fails: bool) -> Result<Tape, AllocError> {
    Ok(Tape::new(
        Line::from_vec(text.as_bytes().to_vec(alloc)?),
        step.max(1),
        fails,
    ))
}

fn are_of(alloc: Global, tape: Tape, is_short: bool, rows: &str, last: &str) -> bool {
    let lines = if is_short {
        Lines::with_limits(alloc, tape, 4, 10)
    } else {
        Lines::new(alloc, tape)
    };
    are(alloc, lines, rows, last)
}

/// Whether the tile has these lines by 1 byte at a time, by 2, and so on up to 200.
fn holds(alloc: Global, cut: &Cut, is_short: bool) -> Result<bool, AllocError> {
    let text = spelled(alloc, cut.text)?;
    let rows = spelled(alloc, cut.lines)?;
    let mut agree = true;
    for step in 1..=200usize {
        let tape = tape_of(alloc, &text, step, cut.fails)?;
        agree = agree && are_of(alloc, tape, is_short, &rows, cut.last);
    }
    Ok(agree)
}

#[test]
fn any_cut(rt: HostRuntime) {
    for cut in CUTS.iter() {
        assert!(rt; holds(rt.alloc(), cut, false) == Ok(true), "{}", cut.text);
    }
}

#[test]
fn any_cut_at_the_limits(rt: HostRuntime) {
    for cut in SHORT_CUTS.iter() {
        assert!(rt; holds(rt.alloc(), cut, true) == Ok(true), "{}", cut.text);
    }
}

/// A tape that counts its reads where the test sees it.
#[derive(Drop)]
struct CountedTape<'a> {
    tape: Tape,
    reads: &'a AtomicU64,
}

impl<'a> Source for CountedTape<'a> {
    ghost use Rattle.std.specs.Prelude.{refl};
    ghost use Rattle.byte_streams.specs.Tape.{PlaysOut};

    ghost gives = { λ reader. PlaysOut reader.tape };

    ghost failures = { λ reader. reader.tape.failures };

    ghost gives_something = { λ reader. (reader.tape.left, (reader.tape.fails, (refl, refl))) };

    fn read(&mut self, to: &mut [u8]) -> Result<usize, Fault> {
        self.reads.fetch_add(1, SeqCst);
        self.tape.read(to)
    }
}

/// Whether a line is given before the tile is read on, and a failed read is not tried again.
fn reads_late(alloc: Global) -> Result<bool, AllocError> {
    let text = spelled(alloc, "HEADER\n")?;
    let reads = AtomicU64::new(0);
    let reader = CountedTape {
        tape: tape_of(alloc, &text, 200, true)?,
        reads: &reads,
    };
    let mut lines = Lines::new(alloc, reader);
    Ok(
        is_next(&mut lines, 1, HEADER)
            && reads.load(SeqCst) == 1
            && are(alloc, lines, "", "2: Read")
            && reads.load(SeqCst) == 2,
    )
}

#[test]
fn no_early_read(rt: HostRuntime) {
    assert!(rt; reads_late(rt.alloc()) == Ok(true));
}

/// Its first read fails, and the others give a line.
#[derive(Drop)]
struct FailsOnce {
    has_failed: bool,
}

impl Read for FailsOnce {
    fn read(&mut self, to: &mut [u8]) -> io::Result<usize> {
        if self.has_failed {
            let count = to.len().min(2);
            to[..count].copy_from_slice(&b"a\n"[..count]);
            return Ok(count);
        }
        self.has_failed = true;
        Err(io::Error::from(ErrorKind::Other))
    }
}

#[test]
fn a_failed_read_is_not_tried_again(rt: HostRuntime) {
    let reader = Device::new(FailsOnce { has_failed: false });
    assert!(rt; are(rt.alloc(), Lines::new(rt.alloc(), reader), "", "1: Read"));
}

fn is_ended(alloc: Global, byte: u8, last: &str) -> bool {
    let reader = Device::new(io::repeat(byte));
    are(alloc, Lines::with_limits(alloc, reader, 8, 64), "", last)
}

#[test]
fn a_reader_without_end_is_ended(rt: HostRuntime) {
    assert!(rt; is_ended(rt.alloc(), b'\n', "65: TileTooLong"));
    assert!(rt; is_ended(rt.alloc(), b'a', "1: LineTooLong"));
}

/// The lines of a text that is read at once, of so many bytes at most.
fn are_measured(
    alloc: Global,
    text: &str,
    (line, tile): (u64, u64),
    rows: &str,
    last: &str,
) -> bool {
    let reader = Device::new(text.as_bytes());
    are(
        alloc,
        Lines::with_limits(alloc, reader, line, tile.min(1 << 40)),
        rows,
        last,
    )
}

fn long_lines_are_taken(alloc: Global) -> Result<bool, AllocError> {
    let long = "long".repeat(alloc, 1_000_000)?;
    let text = format!(in alloc; "{long}\n{long}")?;
    let rows = format!(in alloc; "1 {long}\n2 {long}")?;
    Ok(are_measured(alloc, &text, (1 << 28, 1 << 40), &rows, ""))
}

fn long_line_is_measured(alloc: Global) -> Result<bool, AllocError> {
    let long = "a".repeat(alloc, 200_000)?;
    let text = format!(in alloc; "{long}\n")?;
    let row = format!(in alloc; "1 {long}")?;
    Ok(
        are_measured(alloc, &text, (200_000, 200_001), &row, "")
            && are_measured(alloc, &text, (199_999, 200_001), "", "1: LineTooLong")
            && are_measured(alloc, &text, (200_000, 200_000), "", "1: TileTooLong"),
    )
}

#[test]
fn a_line_may_have_several_megabytes(rt: HostRuntime) {
    assert!(rt; long_lines_are_taken(rt.alloc()) == Ok(true));
    assert!(rt; long_line_is_measured(rt.alloc()) == Ok(true));
}

/// Whether a tile of one line of so many bytes, which are made as they are read, gives it whole.
fn is_given_whole(alloc: Global, count: u64) -> bool {
    let mut lines = Lines::new(alloc, Device::new(io::repeat(b'a').take(count)));
    match lines.next() {
        Ok(Some(line)) => line.number == 1 && line.bytes.items().len() as u64 == count,
        _ => false,
    }
}

fn is_too_long(alloc: Global, count: u64) -> bool {
    let lines = Lines::new(alloc, Device::new(io::repeat(b'a').take(count)));
    are(alloc, lines, "", "1: LineTooLong")
}

#[test]
fn a_line_of_a_stream_has_2_to_the_28_bytes_at_most(rt: HostRuntime) {
    assert!(rt; is_given_whole(rt.alloc(), 1 << 28));
    assert!(rt; is_too_long(rt.alloc(), (1 << 28) + 1));
}

/// Whether a tile of two lines of so many bytes, of which no newline ends the second, gives them by so many bytes a read;
/// where the reader fails at its end, only the first.
fn are_two(
    alloc: Global,
    (first, second): (usize, usize),
    step: usize,
    fails: bool,
) -> Result<bool, AllocError> {
    let first = "a".repeat(alloc, first)?;
    let second = "b".repeat(alloc, second)?;
    let text = format!(in alloc; "{first}\n{second}")?;
    let tape = tape_of(alloc, &text, step, fails)?;
    if fails {
        let rows = format!(in alloc; "1 {first}")?;
        return Ok(are_of(alloc, tape, false, &rows, "2: Read"));
    }
    let rows = format!(in alloc; "1 {first}\n2 {second}")?;
    Ok(are_of(alloc, tape, false, &rows, ""))
}

/// The lengths of two lines, where 65,536 bytes are read at once: the first ends within what is read at first, at its end,
/// or after it; the second ends with what is read, or takes several reads, also after one that was given room.
const PAIRS: [(usize, usize); 8] = [
    (10, 65_525),
    (65_535, 65_536),
    (65_536, 1),
    (65_537, 65_534),
    (131_071, 10),
    (131_072, 65_535),
    (200_000, 200_000),
    (400_000, 70_000),
];

/// Whether the lines are taken where each read gives all that is asked for, or less, and where the reader fails after the
/// front of the second.
fn are_taken_from_pieces(alloc: Global, lengths: (usize, usize)) -> Result<bool, AllocError> {
    let mut agree = true;
    for step in [1_000_000usize, 65_536, 50_000, 30_001].iter() {
        agree = agree && are_two(alloc, lengths, *step, false)?;
        agree = agree && are_two(alloc, lengths, *step, true)?;
    }
    Ok(agree)
}

#[test]
fn lines_end_anywhere_in_what_is_read(rt: HostRuntime) {
    for lengths in PAIRS.iter() {
        let (first, second) = *lengths;
        assert!(rt;
            are_taken_from_pieces(rt.alloc(), *lengths) == Ok(true),
            "{first} {second}"
        );
    }
}
