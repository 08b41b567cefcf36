//! Readers and writers that fail.
use crate::document_streams::texts::{
    DOCUMENT, HEADER, Way, gives, gives_anyhow, is_told, spelled,
};
use byte_streams::{Bin, Device, Fault, Line, Source, Tape};
use document_stream::{cat_document, cat_source};
use std::alloc::{AllocError, Global};
use std::io::{self, ErrorKind, Read, Write};
use std::sync::atomic::AtomicU64;
use std::sync::atomic::Ordering::SeqCst;

/// Whether nothing is written where the read after so many bytes fails.
fn read_fails(alloc: Global, taken: usize) -> bool {
    let input = DOCUMENT.as_bytes();
    gives_anyhow(alloc, &input[..taken.min(input.len())], true, b"", "Read")
}

#[test]
fn a_read_that_fails_leaves_nothing_written(rt: HostRuntime) {
    for taken in [0usize, 1, 200, DOCUMENT.len() - 1, DOCUMENT.len()] {
        assert!(rt; read_fails(rt.alloc(), taken));
    }
}

/// It gives the document in pieces and counts its reads where the test sees it; the read after so many
/// others fails, and no other does.
#[derive(Drop)]
struct CountedReader<'a> {
    left: &'a [u8],
    reads: &'a AtomicU64,
    failing: u64,
}

impl<'a> Read for CountedReader<'a> {
    fn read(&mut self, to: &mut [u8]) -> io::Result<usize> {
        if self.reads.fetch_add(1, SeqCst) == self.failing {
            return Err(io::Error::from(ErrorKind::Other));
        }
        let count = self.left.len().min(to.len()).min(200);
        to[..count].copy_from_slice(&self.left[..count]);
        self.left = &self.left[count..];
        Ok(count)
    }
}

/// Whether the document is read so often, and is written where no read failed.
fn is_read(alloc: Global, failing: u64, reads: u64, answer: &str) -> Result<bool, Fault> {
    let counted = AtomicU64::new(0);
    let mut output = Bin::new(alloc, 1024, 1024, false)?;
    let mut source = Device::new(CountedReader {
        left: DOCUMENT.as_bytes(),
        reads: &counted,
        failing,
    });
    let found = cat_source(alloc, &mut source, &mut output);
    Ok(
        is_told(alloc, found, answer)
            && counted.load(SeqCst) == reads
            && output.bytes().is_empty() == found.is_err(),
    )
}

#[test]
fn nothing_is_read_after_a_failed_read(rt: HostRuntime) {
    // 423 bytes are three reads, and the end is a fourth one.
    assert!(rt; is_read(rt.alloc(), 0, 1, "Read") == Ok(true));
    assert!(rt; is_read(rt.alloc(), 1, 2, "Read") == Ok(true));
    assert!(rt; is_read(rt.alloc(), 3, 4, "Read") == Ok(true));
    assert!(rt; is_read(rt.alloc(), 4, 4, "1") == Ok(true));
}

/// Whether the source fails three times, and once more where it is read, and nothing is written.
fn stays_refused(alloc: Global, source: &mut Tape, output: &mut Bin) -> bool {
    let mut agree = true;
    for _ in 0..3u8 {
        agree = agree && is_told(alloc, cat_source(alloc, source, output), "Read");
    }
    agree && source.read(&mut [0u8]) == Err(Fault::Read) && output.bytes().is_empty()
}

fn is_source_left(alloc: Global) -> Result<bool, Fault> {
    let mut tape = Tape::new(Line::from_vec(b"[1]".to_vec(alloc)?), 2, true);
    let mut output = Bin::new(alloc, 64, 64, false)?;
    Ok(stays_refused(alloc, &mut tape, &mut output))
}

#[test]
fn what_is_left_of_a_refused_source_is_not_taken(rt: HostRuntime) {
    assert!(rt; is_source_left(rt.alloc()) == Ok(true));
}

/// Whether the front of the stream is written that the writer has room for.
fn write_fails(alloc: Global, document: &str, stream: &[u8], room: usize, write: usize) -> bool {
    let way = Way {
        read: 100,
        fails: false,
        room,
        write,
        flush_fails: false,
    };
    let written = &stream[..room.min(stream.len())];
    gives(alloc, document.as_bytes(), &way, written, "Write") == Ok(true)
}

fn writes_fail(alloc: Global, document: &str, stream: &[u8], write: usize) -> bool {
    let mut agree = true;
    for room in 0..stream.len() {
        agree = agree && write_fails(alloc, document, stream, room, write);
    }
    agree
}

/// Whether a write may fail at each byte, where a write takes one, some or all.
fn fails_anywhere(alloc: Global) -> Result<bool, AllocError> {
    let stream = spelled(alloc, "HEADER;FEATURE;")?;
    let bytes = stream.as_bytes();
    Ok(
        writes_fail(alloc, DOCUMENT, bytes, 1)
            && writes_fail(alloc, DOCUMENT, bytes, 100)
            && writes_fail(alloc, DOCUMENT, bytes, 4096),
    )
}

#[test]
fn a_failed_write_leaves_a_front_of_the_stream(rt: HostRuntime) {
    assert!(rt; fails_anywhere(rt.alloc()) == Ok(true));
}

/// A document of two objects that name each other, and the stream of its features.
const SHARED: &str =
    r#"{"type":"CityJSON","version":"2.0","transform":{"scale":[0.001,0.001,0.001],"translate":[0,0,0]},"CityObjects":{"a":{"children":["b"],"geometry":[{"boundaries":[[2,0]]}]},"b":{"children":["a"],"geometry":[{"boundaries":[0]}]}},"vertices":[[0,0,0],[9,9,9],[1,-1,1]]}"#;

const OF_SHARED: &str =
    r#"HEADER;{"type":"CityJSONFeature","id":"a","CityObjects":{"a":{"children":["b"],"geometry":[{"boundaries":[[0,1]]}]},"b":{"children":["a"],"geometry":[{"boundaries":[1]}]}},"vertices":[[1,-1,1],[0,0,0]]};{"type":"CityJSONFeature","id":"b","CityObjects":{"a":{"children":["b"],"geometry":[{"boundaries":[[0,1]]}]},"b":{"children":["a"],"geometry":[{"boundaries":[1]}]}},"vertices":[[1,-1,1],[0,0,0]]};"#;

/// Whether a write of features that share their objects may fail at each byte.
fn fails_where_shared(alloc: Global) -> Result<bool, AllocError> {
    let stream = spelled(alloc, OF_SHARED)?;
    Ok(writes_fail(alloc, SHARED, stream.as_bytes(), 9))
}

#[test]
fn a_failed_write_of_what_is_made_leaves_a_front_of_the_stream(rt: HostRuntime) {
    assert!(rt; fails_where_shared(rt.alloc()) == Ok(true));
}

/// Whether these lines are written by so many bytes a write, and then a write or the flush fails.
fn fails_after(
    alloc: Global,
    document: &str,
    write: usize,
    flush_fails: bool,
    lines: &str,
) -> Result<bool, Fault> {
    let way = Way {
        read: 100,
        fails: false,
        room: 4096,
        write,
        flush_fails,
    };
    let written = spelled(alloc, lines)?;
    gives(
        alloc,
        document.as_bytes(),
        &way,
        written.as_bytes(),
        "Write",
    )
}

#[test]
fn a_write_of_no_bytes_and_a_failed_flush_are_failures(rt: HostRuntime) {
    let alloc = rt.alloc();
    assert!(rt; fails_after(alloc, DOCUMENT, 0, false, "") == Ok(true));
    assert!(rt; fails_after(alloc, DOCUMENT, 4096, true, "HEADER;FEATURE;") == Ok(true));
    assert!(rt; fails_after(alloc, HEADER, 4096, true, "HEADER;") == Ok(true));
    assert!(rt; fails_after(alloc, HEADER, 0, true, "") == Ok(true));
}

/// It counts its calls where the test sees it; the write after so many others fails.
#[derive(Drop)]
struct CountedWriter<'a> {
    writes: &'a AtomicU64,
    flushes: &'a AtomicU64,
    failing: Option<u64>,
}

impl<'a> Write for CountedWriter<'a> {
    fn write(&mut self, from: &[u8]) -> io::Result<usize> {
        if Some(self.writes.fetch_add(1, SeqCst)) == self.failing {
            return Err(io::Error::from(ErrorKind::Other));
        }
        Ok(from.len())
    }

    fn flush(&mut self) -> io::Result<()> {
        self.flushes.fetch_add(1, SeqCst);
        Ok(())
    }
}

const ROADS: &str =
    r#""CityObjects":{"a":{"type":"Road","attributes":{"name":"Via Appia Antica, from Rome to Capua"}},"b":{"type":"Road","attributes":{"name":"Via Egnatia, from the sea to Byzantium"}},"c":{"type":"Road","attributes":{"name":"Via Domitia, from Gaul to Hispania, 118 BC"}}}"#;

/// Whether three roads are so many writes and flushes.
fn is_written(
    alloc: Global,
    failing: Option<u64>,
    written: u64,
    flushed: u64,
    answer: &str,
) -> Result<bool, Fault> {
    let document = HEADER.replace(alloc, "\"CityObjects\":{}", ROADS)?;
    let tape = Tape::new(Line::from_vec(document.into_bytes()), 4096, false);
    let writes = AtomicU64::new(0);
    let flushes = AtomicU64::new(0);
    let mut output = Device::new(CountedWriter {
        writes: &writes,
        flushes: &flushes,
        failing,
    });
    let found = cat_document(alloc, tape, &mut output);
    Ok(
        is_told(alloc, found, answer)
            && writes.load(SeqCst) == written
            && flushes.load(SeqCst) == flushed,
    )
}

#[test]
fn each_text_is_written_and_none_follows_a_failure(rt: HostRuntime) {
    let alloc = rt.alloc();
    // Of each feature its own part, the common part and the newline.
    assert!(rt; is_written(alloc, None, 11, 1, "3") == Ok(true));
    assert!(rt; is_written(alloc, Some(0), 1, 0, "Write") == Ok(true));
    assert!(rt; is_written(alloc, Some(1), 2, 0, "Write") == Ok(true));
    assert!(rt; is_written(alloc, Some(2), 3, 0, "Write") == Ok(true));
    assert!(rt; is_written(alloc, Some(6), 7, 0, "Write") == Ok(true));
    assert!(rt; is_written(alloc, Some(10), 11, 0, "Write") == Ok(true));
}
