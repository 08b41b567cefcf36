//! One tile, filtered: what is written, and what is refused where.

use crate::texts::{
    FEATURE_A, HEADER, NOT_WRITTEN, Way, choice_of, every_feature, filters, filters_anyhow,
    is_told, stream_of,
};
use byte_streams::{Bin, Device, Fault, Line, Source, Tape};
use city_feature::Choice;
use std::alloc::{AllocError, AllocGlobal, Global};
use std::io::{self, ErrorKind, Write};
use std::process::Abort;
use std::sync::atomic::AtomicU64;
use std::sync::atomic::Ordering::SeqCst;
use tile_stream::{TileReader, filter_stream, filter_tile};

/// What stands before the first arrow of a row, and after it.
fn split(row: &str) -> (&str, &str) {
    match row.split_once("=>") {
        Some((before, after)) => (before.trim(), after.trim()),
        None => (row.trim(), ""),
    }
}

/// Whether the row holds: the lines of a tile by their words, those that are written, and the answer.
fn holds(alloc: Global, choice: &Choice, row: &str, fails: bool) -> Result<bool, AllocError> {
    let (words, wanted) = split(row);
    let (written, answer) = split(wanted);
    let input = stream_of(alloc, words)?;
    let written = stream_of(alloc, written)?;
    Ok(filters_anyhow(
        alloc,
        choice,
        (input.as_bytes(), fails),
        (written.as_bytes(), answer),
    ))
}

/// All features are asked for.
fn expect(rt: &(impl Abort + AllocGlobal), table: &str, fails: bool) {
    for row in table.lines() {
        let answer = holds(rt.alloc(), &every_feature(), row, fails);
        assert!(rt; answer == Ok(true), "{row}");
    }
}

/// Blank lines alone are no stream; white space is left out, and a header stays as it is; lines and vertices are refused
/// where they stand.
const WHOLE: &str = r#" =>  => tile 1 line 0: NoHeader
EMPTY BLANK =>  => tile 1 line 0: NoHeader
SPACED_HEADER SPACED_FEATURE => HEADER COMPACT_FEATURE => 1
{"type":"CityJSON","version":"2.0","transform":{"scale":[0.001,0.001,0.001],"translate":[0,0,0]},"CityObjects":{},"vertices":[],"metadata":{"geographicalExtent":[0,0,0,1,1,1],"title":"t"}} => {"type":"CityJSON","version":"2.0","transform":{"scale":[0.001,0.001,0.001],"translate":[0,0,0]},"CityObjects":{},"vertices":[],"metadata":{"geographicalExtent":[0,0,0,1,1,1],"title":"t"}} => 0
HEADER HEADER => HEADER => tile 1 line 2: NotAFeature
[] A =>  => tile 1 line 1: NotCityJson
[ A =>  => tile 1 line 1: Syntax
HEADER {"type":"CityJSONFeature","id":"a","CityObjects":{"a":{"type":"Building"}},"vertices":[[1.0,0,0]]} B => HEADER => tile 1 line 2: VertexNotInteger
HEADER {"type":"CityJSONFeature","id":"a","CityObjects":{"a":{"type":"Building"}},"vertices":[[1e2,0,0]]} B => HEADER => tile 1 line 2: VertexNotInteger
HEADER {"type":"CityJSONFeature","id":"a","CityObjects":{"a":{"type":"Building"}},"vertices":[[1,2]]} B => HEADER => tile 1 line 2: VertexShape
HEADER {"type":"CityJSONFeature","id":"a","CityObjects":{"a":{"type":"Building"}},"vertices":[["1",2,3]]} B => HEADER => tile 1 line 2: VertexShape
HEADER {"type":"CityJSONFeature","id":"a","CityObjects":{"a":{"type":"Building"}},"vertices":[[9007199254740992,0,0]]} B => HEADER => tile 1 line 2: VertexRange
HEADER {"type":"CityJSONFeature","id":"a","CityObjects":{"a":{"type":"Building"}},"vertices":[[-0,0,0]]} => HEADER {"type":"CityJSONFeature","id":"a","CityObjects":{"a":{"type":"Building"}},"vertices":[[0,0,0]]} => 1"#;

/// Lines before a failed read are written.
const FAILING: &str = " =>  => tile 1 line 1: Read
HEADER => HEADER => tile 1 line 2: Read
HEADER A => HEADER A => tile 1 line 3: Read";

#[test]
fn tiles_are_filtered(rt: HostRuntime) {
    expect(&rt, WHOLE, false);
    expect(&rt, FAILING, true);
}

/// Tiles that begin with a document whose features share objects: a chain of five, with no appearance, with one, and with
/// one that is no object; and two groups with one building, which has an address before its geometries.
const SHARED: &str =
    r#"{"type":"CityJSON","version":"2.0","transform":{"scale":[0.001,0.001,0.001],"translate":[0,0,0]},"CityObjects":{"a":{"children":["b"],"geometry":[{"boundaries":[3]}]},"b":{"children":["c"],"geometry":[{"boundaries":[[1],[3]]}]},"c":{"children":["d"]},"d":{"children":["e"],"geometry":[{"boundaries":[0,1]}]},"e":{"geometry":[{"boundaries":[]},{"boundaries":[2,0]}]}},"vertices":[[0,0,0],[1,1,1],[2,2,2],[3,3,3]]} B => HEADER {"type":"CityJSONFeature","id":"a","CityObjects":{"a":{"children":["b"],"geometry":[{"boundaries":[0]}]},"b":{"children":["c"],"geometry":[{"boundaries":[[1],[0]]}]},"c":{"children":["d"]},"d":{"children":["e"],"geometry":[{"boundaries":[2,1]}]},"e":{"geometry":[{"boundaries":[]},{"boundaries":[3,2]}]}},"vertices":[[3,3,3],[1,1,1],[0,0,0],[2,2,2]]} {"type":"CityJSONFeature","id":"b","CityObjects":{"b":{"children":["c"],"geometry":[{"boundaries":[[0],[1]]}]},"c":{"children":["d"]},"d":{"children":["e"],"geometry":[{"boundaries":[2,0]}]},"e":{"geometry":[{"boundaries":[]},{"boundaries":[3,2]}]}},"vertices":[[1,1,1],[3,3,3],[0,0,0],[2,2,2]]} {"type":"CityJSONFeature","id":"c","CityObjects":{"c":{"children":["d"]},"d":{"children":["e"],"geometry":[{"boundaries":[0,1]}]},"e":{"geometry":[{"boundaries":[]},{"boundaries":[2,0]}]}},"vertices":[[0,0,0],[1,1,1],[2,2,2]]} {"type":"CityJSONFeature","id":"d","CityObjects":{"d":{"children":["e"],"geometry":[{"boundaries":[0,1]}]},"e":{"geometry":[{"boundaries":[]},{"boundaries":[2,0]}]}},"vertices":[[0,0,0],[1,1,1],[2,2,2]]} {"type":"CityJSONFeature","id":"e","CityObjects":{"e":{"geometry":[{"boundaries":[]},{"boundaries":[0,1]}]}},"vertices":[[2,2,2],[0,0,0]]} B => 6
{"type":"CityJSON","version":"2.0","transform":{"scale":[0.001,0.001,0.001],"translate":[0,0,0]},"appearance":{"materials":[]},"CityObjects":{"a":{"children":["b"],"geometry":[{"boundaries":[3]}]},"b":{"children":["c"],"geometry":[{"boundaries":[[1],[3]]}]},"c":{"children":["d"]},"d":{"children":["e"],"geometry":[{"boundaries":[0,1]}]},"e":{"geometry":[{"boundaries":[]},{"boundaries":[2,0]}]}},"vertices":[[0,0,0],[1,1,1],[2,2,2],[3,3,3]]} B => HEADER {"type":"CityJSONFeature","id":"a","CityObjects":{"a":{"children":["b"],"geometry":[{"boundaries":[0]}]},"b":{"children":["c"],"geometry":[{"boundaries":[[1],[0]]}]},"c":{"children":["d"]},"d":{"children":["e"],"geometry":[{"boundaries":[2,1]}]},"e":{"geometry":[{"boundaries":[]},{"boundaries":[3,2]}]}},"vertices":[[3,3,3],[1,1,1],[0,0,0],[2,2,2]],"appearance":{"materials":[]}} {"type":"CityJSONFeature","id":"b","CityObjects":{"b":{"children":["c"],"geometry":[{"boundaries":[[0],[1]]}]},"c":{"children":["d"]},"d":{"children":["e"],"geometry":[{"boundaries":[2,0]}]},"e":{"geometry":[{"boundaries":[]},{"boundaries":[3,2]}]}},"vertices":[[1,1,1],[3,3,3],[0,0,0],[2,2,2]],"appearance":{"materials":[]}} {"type":"CityJSONFeature","id":"c","CityObjects":{"c":{"children":["d"]},"d":{"children":["e"],"geometry":[{"boundaries":[0,1]}]},"e":{"geometry":[{"boundaries":[]},{"boundaries":[2,0]}]}},"vertices":[[0,0,0],[1,1,1],[2,2,2]],"appearance":{"materials":[]}} {"type":"CityJSONFeature","id":"d","CityObjects":{"d":{"children":["e"],"geometry":[{"boundaries":[0,1]}]},"e":{"geometry":[{"boundaries":[]},{"boundaries":[2,0]}]}},"vertices":[[0,0,0],[1,1,1],[2,2,2]],"appearance":{"materials":[]}} {"type":"CityJSONFeature","id":"e","CityObjects":{"e":{"geometry":[{"boundaries":[]},{"boundaries":[0,1]}]}},"vertices":[[2,2,2],[0,0,0]],"appearance":{"materials":[]}} B => 6
{"type":"CityJSON","version":"2.0","transform":{"scale":[0.001,0.001,0.001],"translate":[0,0,0]},"appearance":[],"CityObjects":{"a":{"children":["b"],"geometry":[{"boundaries":[3]}]},"b":{"children":["c"],"geometry":[{"boundaries":[[1],[3]]}]},"c":{"children":["d"]},"d":{"children":["e"],"geometry":[{"boundaries":[0,1]}]},"e":{"geometry":[{"boundaries":[]},{"boundaries":[2,0]}]}},"vertices":[[0,0,0],[1,1,1],[2,2,2],[3,3,3]]} B => HEADER {"type":"CityJSONFeature","id":"a","CityObjects":{"a":{"children":["b"],"geometry":[{"boundaries":[0]}]},"b":{"children":["c"],"geometry":[{"boundaries":[[1],[0]]}]},"c":{"children":["d"]},"d":{"children":["e"],"geometry":[{"boundaries":[2,1]}]},"e":{"geometry":[{"boundaries":[]},{"boundaries":[3,2]}]}},"vertices":[[3,3,3],[1,1,1],[0,0,0],[2,2,2]],"appearance":[]} {"type":"CityJSONFeature","id":"b","CityObjects":{"b":{"children":["c"],"geometry":[{"boundaries":[[0],[1]]}]},"c":{"children":["d"]},"d":{"children":["e"],"geometry":[{"boundaries":[2,0]}]},"e":{"geometry":[{"boundaries":[]},{"boundaries":[3,2]}]}},"vertices":[[1,1,1],[3,3,3],[0,0,0],[2,2,2]],"appearance":[]} {"type":"CityJSONFeature","id":"c","CityObjects":{"c":{"children":["d"]},"d":{"children":["e"],"geometry":[{"boundaries":[0,1]}]},"e":{"geometry":[{"boundaries":[]},{"boundaries":[2,0]}]}},"vertices":[[0,0,0],[1,1,1],[2,2,2]],"appearance":[]} {"type":"CityJSONFeature","id":"d","CityObjects":{"d":{"children":["e"],"geometry":[{"boundaries":[0,1]}]},"e":{"geometry":[{"boundaries":[]},{"boundaries":[2,0]}]}},"vertices":[[0,0,0],[1,1,1],[2,2,2]],"appearance":[]} {"type":"CityJSONFeature","id":"e","CityObjects":{"e":{"geometry":[{"boundaries":[]},{"boundaries":[0,1]}]}},"vertices":[[2,2,2],[0,0,0]],"appearance":[]} B => 6
{"type":"CityJSON","version":"2.0","transform":{"scale":[0.001,0.001,0.001],"translate":[0,0,0]},"CityObjects":{"g":{"type":"CityObjectGroup","children":["x","s"]},"h":{"type":"CityObjectGroup","children":["s","y"]},"x":{"parents":["g"],"geometry":[{"boundaries":[0]}]},"s":{"parents":["g","h"],"address":[{"location":{"boundaries":[3]}}],"geometry":[{"boundaries":[2,1]}]},"y":{"parents":["h"],"geometry":[{"boundaries":[1,3]}]}},"vertices":[[0,0,0],[1,1,1],[2,2,2],[3,3,3]]} => HEADER {"type":"CityJSONFeature","id":"g","CityObjects":{"g":{"type":"CityObjectGroup","children":["x","s"]},"x":{"parents":["g"],"geometry":[{"boundaries":[0]}]},"s":{"parents":["g","h"],"address":[{"location":{"boundaries":[3]}}],"geometry":[{"boundaries":[1,2]}]}},"vertices":[[0,0,0],[2,2,2],[1,1,1],[3,3,3]]} {"type":"CityJSONFeature","id":"h","CityObjects":{"h":{"type":"CityObjectGroup","children":["s","y"]},"s":{"parents":["g","h"],"address":[{"location":{"boundaries":[2]}}],"geometry":[{"boundaries":[0,1]}]},"y":{"parents":["h"],"geometry":[{"boundaries":[1,2]}]}},"vertices":[[2,2,2],[1,1,1],[3,3,3]]} => 2"#;

#[test]
fn documents_whose_features_share_objects_are_filtered(rt: HostRuntime) {
    expect(&rt, SHARED, false);
}

/// What stands in a tile of blank lines, and a last line that no newline ends.
fn blanks_are_left_out(
    alloc: Global,
    (last, fails): (&str, bool),
    written: &str,
    answer: &str,
) -> Result<bool, AllocError> {
    let input = format!(in alloc; "\n{HEADER}\r\n \t\r\n{FEATURE_A}\r\n{last}")?;
    let written = stream_of(alloc, written)?;
    Ok(filters_anyhow(
        alloc,
        &every_feature(),
        (input.as_bytes(), fails),
        (written.as_bytes(), answer),
    ))
}

#[test]
fn blank_lines_are_counted_and_left_out(rt: HostRuntime) {
    let alloc = rt.alloc();
    let answer = "tile 1 line 5: Syntax";
    assert!(rt; blanks_are_left_out(alloc, ("{", false), "HEADER A", answer) == Ok(true));
    assert!(rt; blanks_are_left_out(alloc, (FEATURE_A, false), "HEADER A A", "2") == Ok(true));
    // A line that no newline ends is at fault with the read.
    let answer = "tile 1 line 5: Read";
    assert!(rt; blanks_are_left_out(alloc, (FEATURE_A, true), "HEADER A", answer) == Ok(true));
}

/// Features p, q and r, and one whose identifier names no object.
const PLACED: &str =
    r#"{"type":"CityJSONFeature","id":"p","CityObjects":{"p":{"type":"Building"}},"vertices":[[0,0,0],[10,10,0]]}
{"type":"CityJSONFeature","id":"q","CityObjects":{"q":{"type":"Building"}},"vertices":[[10,20,0]]}
{"type":"CityJSONFeature","id":"r","CityObjects":{"r":{"type":"Building"}},"vertices":[]}
{"type":"CityJSONFeature","id":"z","CityObjects":{"y":{"type":"Building"}},"vertices":[]}"#;

/// The types and the area of what is chosen, whether all others are, and which of the four it is.
const CHOSEN: [(&str, &str, bool, &str); 8] = [
    ("", "10,10,20,20", false, "pq"),
    ("", "-5,0,10,10", false, "p"),
    ("", "10,10,20,20", true, "rz"),
    ("", "", true, ""),
    ("", "", false, "pqrz"),
    ("Building", "", false, "pqr"),
    ("Building", "", true, "z"),
    ("Bridge", "10,10,20,20", false, ""),
];

/// The header and those of the four that are named.
fn stream_of_placed(alloc: Global, names: &str) -> Result<String, AllocError> {
    let mut stream = stream_of(alloc, "HEADER")?;
    for (line, name) in PLACED.lines().zip("pqrz".chars()) {
        if names.contains(name) {
            stream.push_str(line)?;
            stream.push('\n')?;
        }
    }
    Ok(stream)
}

fn chooses(alloc: Global, choice: &Choice, names: &str) -> Result<bool, Fault> {
    let input = stream_of_placed(alloc, "pqrz")?;
    let written = stream_of_placed(alloc, names)?;
    let answer = format!(in alloc; "{}", names.len())?;
    Ok(filters_anyhow(
        alloc,
        choice,
        (input.as_bytes(), false),
        (written.as_bytes(), &answer),
    ))
}

/// And so does a copy of the choice.
fn copies_choose(alloc: Global, choice: &Choice, names: &str) -> Result<bool, Fault> {
    let copy = choice.copy(alloc)?;
    Ok(chooses(alloc, choice, names) == Ok(true) && chooses(alloc, &copy, names) == Ok(true))
}

fn are_chosen(
    alloc: Global,
    types: &str,
    corners: &str,
    exclude: bool,
    names: &str,
) -> Result<bool, Fault> {
    let choice = choice_of(alloc, types, corners, exclude)?;
    copies_choose(alloc, &choice, names)
}

#[test]
fn features_that_are_chosen_are_written(rt: HostRuntime) {
    for (types, corners, exclude, names) in CHOSEN.iter() {
        assert!(rt;
            are_chosen(rt.alloc(), types, corners, *exclude, names) == Ok(true),
            "{names}"
        );
    }
}

/// How a writer fails: how many bytes it has room for, and takes a write, and whether its flush fails; and how many it
/// then has taken.
const FAILURES: [(usize, usize, bool, usize); 6] = [
    (200, 4096, false, 200),
    (200, 1, false, 200),
    (100, 4096, false, 100),
    (128, 4096, false, 128),
    (4096, 0, false, 0),
    (4096, 4096, true, 129),
];

fn fails_to_write(
    alloc: Global,
    words: &str,
    (room, write, flush_fails): (usize, usize, bool),
    taken: usize,
) -> Result<bool, Fault> {
    let input = stream_of(alloc, words)?;
    let way = Way {
        read: 50,
        fails: false,
        room,
        write,
        flush_fails,
    };
    let bytes = input.as_bytes();
    let written = &bytes[..taken.min(bytes.len())];
    filters(alloc, &every_feature(), bytes, &way, (written, NOT_WRITTEN))
}

#[test]
fn a_failed_write_is_answered(rt: HostRuntime) {
    for (room, write, flush_fails, taken) in FAILURES.iter() {
        let writer = (*room, *write, *flush_fails);
        assert!(rt;
            fails_to_write(rt.alloc(), "HEADER A B", writer, *taken) == Ok(true),
            "{room}"
        );
    }
    assert!(rt; fails_to_write(rt.alloc(), "HEADER", (4096, 4096, true), 129) == Ok(true));
}

/// All is read before the first line is taken, so that nothing is flushed before a fault.
fn flush(alloc: Global, row: &str, fails: bool, flush_fails: bool) -> Result<bool, Fault> {
    let (words, wanted) = split(row);
    let (written, answer) = split(wanted);
    let input = stream_of(alloc, words)?;
    let written = stream_of(alloc, written)?;
    let way = Way {
        read: 4096,
        fails,
        room: 4096,
        write: 4096,
        flush_fails,
    };
    filters(
        alloc,
        &every_feature(),
        input.as_bytes(),
        &way,
        (written.as_bytes(), answer),
    )
}

/// Nothing is flushed where nothing was written; a failed flush is answered before a fault.
#[test]
fn a_failed_flush_is_answered_before_a_fault(rt: HostRuntime) {
    for (row, fails, flush_fails) in [
        (
            "HEADER A {} => HEADER A => tile 1 line 3: NotAFeature",
            false,
            false,
        ),
        (
            "HEADER A {} => HEADER A => tile 0 line 0: Write",
            false,
            true,
        ),
        (
            "HEADER A EMPTY => HEADER A => tile 1 line 4: Read",
            true,
            false,
        ),
        (
            "HEADER A EMPTY => HEADER A => tile 0 line 0: Write",
            true,
            true,
        ),
        (" =>  => tile 1 line 0: NoHeader", false, true),
        ("{} =>  => tile 1 line 1: NotCityJson", false, true),
    ] {
        assert!(rt;
            flush(rt.alloc(), row, fails, flush_fails) == Ok(true),
            "{row}"
        );
    }
}

/// It counts its calls where the test sees it; the write after so many others fails.
#[derive(Drop)]
struct CountedWriter<'a> {
    writes: &'a AtomicU64,
    flushes: &'a AtomicU64,
    failing: Option<u64>,
}

impl<'a> Write for CountedWriter<'a> {
    fn write(&mut self, from: &[u8]) -> io::Result<usize> {
        if Some(self.writes.fetch_add(1, SeqCst)) == self.failing {
            return Err(io::Error::from(ErrorKind::Other));
        }
        Ok(from.len())
    }

    fn flush(&mut self) -> io::Result<()> {
        self.flushes.fetch_add(1, SeqCst);
        Ok(())
    }
}

/// Whether so many writes and flushes are made where one of the writes fails.
fn are_counted(
    alloc: Global,
    failing: Option<u64>,
    answer: &str,
    wanted: (u64, u64),
) -> Result<bool, AllocError> {
    let input = stream_of(alloc, "HEADER A B")?;
    let tape = Tape::new(Line::from_vec(input.into_bytes()), 4096, false);
    let writes = AtomicU64::new(0);
    let flushes = AtomicU64::new(0);
    let mut output = Device::new(CountedWriter {
        writes: &writes,
        flushes: &flushes,
        failing,
    });
    let found = filter_stream(alloc, tape, &every_feature(), &mut output);
    Ok(is_told(alloc, found, answer) && (writes.load(SeqCst), flushes.load(SeqCst)) == wanted)
}

#[test]
fn each_text_and_each_newline_is_one_write(rt: HostRuntime) {
    assert!(rt; are_counted(rt.alloc(), None, "2", (6, 2)) == Ok(true));
    for failing in 0..3u64 {
        let answer = are_counted(
            rt.alloc(),
            Some(failing),
            NOT_WRITTEN,
            (failing.saturating_add(1), 0),
        );
        assert!(rt; answer == Ok(true), "{failing}");
    }
}

/// A tape that counts its reads where the test sees it.
#[derive(Drop)]
struct CountedTape<'a> {
    tape: Tape,
    reads: &'a AtomicU64,
}

impl<'a> Source for CountedTape<'a> {
    ghost use Rattle.std.specs.Prelude.{refl};
    ghost use Rattle.byte_streams.specs.Tape.{PlaysOut};

    ghost gives = { λ reader. PlaysOut reader.tape };

    ghost failures = { λ reader. reader.tape.failures };

    ghost gives_something = { λ reader. (reader.tape.left, (reader.tape.fails, (refl, refl))) };

    fn read(&mut self, to: &mut [u8]) -> Result<usize, Fault> {
        self.reads.fetch_add(1, SeqCst);
        self.tape.read(to)
    }
}

/// A stream of which each read gives the header's line, a line that is no feature, or a part of the others.
fn faulty_stream(alloc: Global) -> Result<String, AllocError> {
    let wrong = " ".repeat(alloc, 127)?;
    format!(in alloc; "{HEADER}\n{wrong}1\n{FEATURE_A}\n{FEATURE_A}\n")
}

fn reads_two_lines(alloc: Global) -> Result<bool, Fault> {
    let input = faulty_stream(alloc)?;
    let mut output = Bin::new(alloc, 4096, 4096, false)?;
    let reads = AtomicU64::new(0);
    let reader = CountedTape {
        tape: Tape::new(Line::from_vec(input.into_bytes()), 129, true),
        reads: &reads,
    };
    let mut tile = TileReader::new(alloc, reader);
    let found = filter_tile(alloc, &mut tile, &every_feature(), &mut output);
    Ok(
        is_told(alloc, found, "tile 1 line 2: NotAFeature")
            && reads.load(SeqCst) == 2
            && output.bytes().strip_suffix(b"\n") == Some(HEADER.as_bytes()),
    )
}

#[test]
fn nothing_is_read_after_a_fault(rt: HostRuntime) {
    assert!(rt; reads_two_lines(rt.alloc()) == Ok(true));
}

fn put_numbered(input: &mut String, alloc: Global, number: u32) -> Result<(), AllocError> {
    let form =
        "{\"type\":\"CityJSONFeature\",\"id\":\"NUMBER\",\"CityObjects\":{\"NUMBER\":{\"type\":\"Building\"}},\"vertices\":[[NUMBER,2,-3]]}\n";
    input.push_str(&form.replace(alloc, "NUMBER", &format!(in alloc; "{number}")?)?)
}

/// A tile of ten thousand features, and one of a long type.
fn large_tile(alloc: Global) -> Result<String, AllocError> {
    let mut input = stream_of(alloc, "HEADER")?;
    for number in 0..10_000u32 {
        put_numbered(&mut input, alloc, number)?;
    }
    let long = "long".repeat(alloc, 1_000_000)?;
    input.push_str(&FEATURE_A.replace(alloc, "Building", &long)?)?;
    input.push('\n')?;
    Ok(input)
}

fn large_tile_is_filtered(alloc: Global) -> Result<bool, Fault> {
    let input = large_tile(alloc)?;
    let way = Way {
        read: 100_000,
        fails: false,
        room: input.len(),
        write: 100_000,
        flush_fails: false,
    };
    let bytes = input.as_bytes();
    filters(alloc, &every_feature(), bytes, &way, (bytes, "10001"))
}

#[test]
fn a_tile_may_have_many_features_and_long_lines(rt: HostRuntime) {
    assert!(rt; large_tile_is_filtered(rt.alloc()) == Ok(true));
}
