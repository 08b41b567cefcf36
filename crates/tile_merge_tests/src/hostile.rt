//! Merges whose reader fails after each byte, and whose writer fails at each byte, or takes one at a time.

use crate::devices::NOT_WRITTEN;
use crate::interleaving::{
    is_mixed, is_mixed_front, merges_with_threads, mixes, written_with_threads,
};
use crate::merging::{PLAIN, Way, merges_in_turn, stream_of, with_room, writes_in_turn};
use byte_streams::{Bin, Fault, Line, Tape};
use std::alloc::{AllocError, AllocGlobal, Global};
use std::process::Abort;
use std::sync::Wait;
use std::thread::Threads;

/// A feature is cut short in the second.
const FAULTY: &str = "HEADER A1 A2 | HEADER B1 CUT";

const WHOLE: &str = "HEADER A1 A2 A3 | HEADER B1 | HEADER C1 C2";

/// A reader that gives seven bytes a read, and fails after these where it is to.
fn tape_of(alloc: Global, bytes: &[u8], fails: bool) -> Result<Tape, AllocError> {
    Ok(Tape::new(Line::from_vec(bytes.to_vec(alloc)?), 7, fails))
}

/// The readers of the two faulty tiles; that of the first gives these bytes and then fails.
fn failing_tiles(alloc: Global, bytes: &[u8]) -> Result<Vec<Tape>, AllocError> {
    let second = stream_of(alloc, "HEADER B1 CUT")?;
    let mut readers = Vec::new(alloc);
    readers.push(tape_of(alloc, bytes, true)?)?;
    readers.push(tape_of(alloc, second.as_bytes(), false)?)?;
    Ok(readers)
}

fn newlines(bytes: &[u8]) -> usize {
    let mut count = 0usize;
    for byte in bytes {
        if *byte == b'\n' {
            count = count.saturating_add(1);
        }
    }
    count
}

/// What is written and answered, by how many lines of the first tile are whole: in turn, and of each tile after the header.
struct Front {
    header: &'static str,
    written: &'static str,
    lines: &'static str,
    answer: &'static str,
}

const FRONTS: [Front; 4] = [
    Front {
        header: "",
        written: "",
        lines: "",
        answer: "tile 1 line 1: Read",
    },
    Front {
        header: "HEADER",
        written: "HEADER B1",
        lines: " | B1",
        answer: "tile 1 line 2: Read",
    },
    Front {
        header: "HEADER",
        written: "HEADER A1 B1",
        lines: "A1 | B1",
        answer: "tile 1 line 3: Read",
    },
    Front {
        header: "HEADER",
        written: "HEADER A1 B1 A2",
        lines: "A1 A2 | B1",
        answer: "tile 1 line 4: Read",
    },
];

fn fails_in_turn(alloc: Global, bytes: &[u8], front: &Front, capacity: u32) -> Result<bool, Fault> {
    let readers = failing_tiles(alloc, bytes)?;
    let mut output = Bin::new(alloc, 4096, 4096, false)?;
    let is_told = merges_in_turn(
        alloc,
        readers,
        (&PLAIN, capacity),
        &mut output,
        front.answer,
    );
    Ok(is_told && output.bytes() == stream_of(alloc, front.written)?.as_bytes())
}

fn fails_with_threads<H>(rt: &H, bytes: &[u8], front: &Front, capacity: u32) -> Result<bool, Fault>
where
    H: Abort + AllocGlobal + Threads + Wait + Copy + Send + 'static,
{
    let alloc = rt.alloc();
    let readers = failing_tiles(alloc, bytes)?;
    let mut output = Bin::new(alloc, 4096, 4096, false)?;
    let is_told = merges_with_threads(rt, readers, (&PLAIN, capacity), &mut output, front.answer);
    Ok(is_told && is_mixed(alloc, output.bytes(), front.header, front.lines)?)
}

/// Whether the reader of the first tile may fail after these bytes, in turn and with threads.
fn read_fails<H>(rt: &H, bytes: &[u8]) -> bool
where
    H: Abort + AllocGlobal + Threads + Wait + Copy + Send + 'static,
{
    let front = &FRONTS[newlines(bytes).min(3)];
    let mut agree = true;
    for capacity in [1u32, 64] {
        agree = agree
            && fails_in_turn(rt.alloc(), bytes, front, capacity) == Ok(true)
            && fails_with_threads(rt, bytes, front, capacity) == Ok(true);
    }
    agree
}

fn reads_fail<H>(rt: &H) -> Result<bool, AllocError>
where
    H: Abort + AllocGlobal + Threads + Wait + Copy + Send + 'static,
{
    let stream = stream_of(rt.alloc(), "HEADER A1 A2")?;
    let bytes = stream.as_bytes();
    let mut agree = true;
    for length in 0..=bytes.len() {
        agree = agree && read_fails(rt, &bytes[..length]);
    }
    Ok(agree)
}

#[test]
fn a_read_may_fail_after_each_byte(rt: HostRuntime) {
    assert!(rt; reads_fail(&rt) == Ok(true));
}

/// How many texts are held, and bytes are taken a write: three in turn, since each merge of many takes its time.
fn way_at(room: usize) -> Way {
    let (capacity, write) = match room % 3 {
        0 => (1, 1),
        1 => (2, 7),
        _ => (64, 4096),
    };
    Way {
        capacity,
        read: 500,
        is_ended: true,
        room,
        write,
        flush_fails: false,
    }
}

fn writes_fail(alloc: Global) -> Result<bool, AllocError> {
    let stream = stream_of(alloc, "HEADER A1 B1 C1 A2 C2 A3")?;
    let bytes = stream.as_bytes();
    let mut agree = true;
    for room in 0..bytes.len() {
        let answer = writes_in_turn(
            alloc,
            (&PLAIN, &way_at(room)),
            WHOLE,
            &bytes[..room],
            NOT_WRITTEN,
        );
        agree = agree && answer == Ok(true);
    }
    Ok(agree)
}

#[test]
fn a_write_may_fail_at_each_byte(rt: HostRuntime) {
    assert!(rt; writes_fail(rt.alloc()) == Ok(true));
}

/// How much of these tiles, of which these are the features, is written with threads to a writer that fails; nothing where
/// it is no front of the stream.
fn front_of<H>(rt: &H, (tiles, lines): (&str, &str), way: &Way) -> Option<usize>
where
    H: Abort + AllocGlobal + Threads + Wait + Copy + Send + 'static,
{
    match written_with_threads(rt, (&PLAIN, way), tiles, NOT_WRITTEN) {
        Ok(Some(output)) => {
            let is_front = is_mixed_front(rt.alloc(), output.bytes(), lines) == Ok(true);
            is_front.then_some(output.bytes().len())
        }
        _ => None,
    }
}

/// The features of the tiles of [`WHOLE`], and of [`FAULTY`].
const WHOLE_LINES: &str = "A1 A2 A3 | B1 | C1 C2";

const FAULTY_LINES: &str = "A1 A2 | B1";

fn writes_fail_beside<H>(rt: &H, tiles: (&str, &str), stream: &str) -> Result<bool, AllocError>
where
    H: Abort + AllocGlobal + Threads + Wait + Copy + Send + 'static,
{
    let length = stream_of(rt.alloc(), stream)?.len();
    let mut agree = true;
    for room in 0..length {
        agree = agree && front_of(rt, tiles, &way_at(room)) == Some(room);
    }
    Ok(agree)
}

/// A failed write is told before a faulty line.
#[test]
fn a_write_beside_threads_may_fail_at_each_byte(rt: HostRuntime) {
    let (whole, faulty) = ((WHOLE, WHOLE_LINES), (FAULTY, FAULTY_LINES));
    assert!(rt; writes_fail_beside(&rt, whole, "HEADER A1 A2 A3 B1 C1 C2") == Ok(true));
    assert!(rt; writes_fail_beside(&rt, faulty, "HEADER A1 A2 B1") == Ok(true));
}

#[test]
fn a_writer_beside_threads_may_take_nothing_or_not_flush(rt: HostRuntime) {
    for capacity in [1u32, 64] {
        let way = Way {
            capacity,
            read: 500,
            is_ended: true,
            room: 4096,
            write: 0,
            flush_fails: false,
        };
        assert!(rt; front_of(&rt, (WHOLE, WHOLE_LINES), &way) == Some(0));
        let way = Way {
            write: 4096,
            flush_fails: true,
            ..way
        };
        let length = front_of(&rt, (WHOLE, WHOLE_LINES), &way);
        assert!(rt; length.unwrap_or(0) > 128);
    }
}

/// A writer takes a byte at a time.
#[test]
fn a_writer_beside_threads_may_take_a_byte_at_a_time(rt: HostRuntime) {
    for capacity in [1u32, 64] {
        let way = Way {
            write: 1,
            ..with_room(capacity, 50, true)
        };
        assert!(rt;
            mixes(
                &rt,
                (&PLAIN, &way),
                WHOLE,
                ("HEADER", WHOLE_LINES),
                "[3, 1, 2]"
            )
        );
        let answer = "tile 2 line 3: Syntax";
        assert!(rt;
            mixes(
                &rt,
                (&PLAIN, &way),
                FAULTY,
                ("HEADER", FAULTY_LINES),
                answer
            )
        );
    }
}
