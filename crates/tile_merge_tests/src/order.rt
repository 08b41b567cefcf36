//! In which order two tiles that are merged in turn are read, and what comes of them is written and passed on.
ghost use Rattle.std.specs.Prelude.{◌≤◌, length};

use crate::merging::{PLAIN, choice_of, merges_in_turn, split_at_arrow, stream_of};
use byte_streams::Device;
use std::alloc::{AllocError, Global};
use std::io::{self, ErrorKind, Read, Write};
use std::process::Abort;
use std::sync::atomic::AtomicUsize;
use std::sync::atomic::Ordering::SeqCst;
use tile_stream::filter_stream;

/// Pipes, the stream that is to be written, and the calls that are to be made, in their order: `1` and `2` for a read of
/// that tile, `w` for a line that is written, `f` where what was written is passed on. Beside them how many were made.
#[derive(Drop)]
struct Scene {
    pipes: Vec<Pipe>,
    stream: Vec<u8>,
    wanted: Vec<u8>,
    made: AtomicUsize,
}

impl Scene {
    /// A call fails where it is not the next that is wanted.
    fn make(&self, call: u8) -> io::Result<()> {
        let before = self.made.fetch_add(1, SeqCst);
        if self.wanted.get(before) == Some(&call) {
            Ok(())
        } else {
            Err(io::Error::from(ErrorKind::Other))
        }
    }
}

/// What comes through a pipe, a piece a read, and how many reads there were.
#[derive(Drop)]
struct Pipe {
    pieces: Vec<Vec<u8>>,
    reads: AtomicUsize,
}

/// The pieces of these texts, with a bar between two. The last line of a piece has its newline, unless a tilde follows it.
fn pipe_of(alloc: Global, texts: &str) -> Result<Pipe, AllocError> {
    let mut pieces = Vec::new(alloc);
    for names in texts.split('|') {
        let names = names.trim();
        let mut piece = stream_of(alloc, names.trim_end_matches('~'))?;
        if names.ends_with('~') {
            piece.pop();
        }
        pieces.push(piece.into_bytes())?;
    }
    Ok(Pipe {
        pieces,
        reads: AtomicUsize::new(0),
    })
}

/// The pipes of these texts, or one alone.
fn pipes_of(alloc: Global, first: &str, second: &str) -> Result<Vec<Pipe>, AllocError> {
    let mut pipes = Vec::new(alloc);
    pipes.push(pipe_of(alloc, first)?)?;
    if !second.is_empty() {
        pipes.push(pipe_of(alloc, second)?)?;
    }
    Ok(pipes)
}

/// A tile that comes through the pipe at a place.
#[derive(Drop)]
struct PipeEnd<'a> {
    scene: &'a Scene,
    place: usize,
    call: u8,
}

impl<'a> Read for PipeEnd<'a> {
    fn read(&mut self, to: &mut [u8]) -> io::Result<usize> {
        self.scene.make(self.call)?;
        let Some(pipe) = self.scene.pipes.get(self.place) else {
            return Ok(0);
        };
        let before = pipe.reads.fetch_add(1, SeqCst);
        match pipe.pieces.get(before) {
            Some(piece) => Ok(put(piece.as_slice(), to)),
            None => Ok(0),
        }
    }
}

/// Puts a piece at the start of `to`, where there is room for it, and answers its length.
fn put(piece: &[u8], to: &mut [u8]) -> usize
    ensures { result ≤ length to.new }
{
    if to.len() < piece.len() {
        return 0;
    }
    to[..piece.len()].copy_from_slice(piece);
    piece.len()
}

/// Takes the stream, of which so many bytes were taken, and nothing else.
#[derive(Drop)]
struct Taker<'a> {
    scene: &'a Scene,
    taken: usize,
}

/// Whether a text goes on from a place with these bytes.
fn goes_on(text: &[u8], at: usize, bytes: &[u8]) -> bool {
    at <= text.len() && text[at..].starts_with(bytes)
}

impl<'a> Write for Taker<'a> {
    fn write(&mut self, from: &[u8]) -> io::Result<usize> {
        if !goes_on(&self.scene.stream, self.taken, from) {
            return Err(io::Error::from(ErrorKind::Other));
        }
        if from.ends_with(b"\n") {
            self.scene.make(b'w')?;
        }
        self.taken = self.taken.saturating_add(from.len());
        Ok(from.len())
    }

    fn flush(&mut self) -> io::Result<()> {
        self.scene.make(b'f')
    }
}

/// Whether two tiles that come through the first pipe and the last, merged in turn, are written as the stream, and
/// answered so, by the calls that are wanted.
fn merges(alloc: Global, capacity: u32, scene: &Scene, answer: &str) -> Result<bool, AllocError> {
    let first = PipeEnd {
        scene,
        place: 0,
        call: b'1',
    };
    let second = PipeEnd {
        scene,
        place: scene.pipes.len().saturating_sub(1),
        call: b'2',
    };
    let readers = Vec::from_array(alloc, [Device::new(first), Device::new(second)])?;
    let mut output = Device::new(Taker { scene, taken: 0 });
    let is_told = merges_in_turn(alloc, readers, (&PLAIN, capacity), &mut output, answer);
    Ok(is_told && scene.made.load(SeqCst) == scene.wanted.len())
}

/// Whether the line of a table holds: the pipe of the first tile, and of the second, if that has one of its own; what is
/// written; what is answered; and the calls.
fn holds(alloc: Global, capacity: u32, line: &str) -> Result<bool, AllocError> {
    let (first, line) = split_at_arrow(line);
    let (second, line) = split_at_arrow(line);
    let (written, line) = split_at_arrow(line);
    let (answer, wanted) = split_at_arrow(line);
    let scene = Scene {
        pipes: pipes_of(alloc, first, second)?,
        stream: stream_of(alloc, written)?.into_bytes(),
        wanted: wanted.as_bytes().to_vec(alloc)?,
        made: AtomicUsize::new(0),
    };
    merges(alloc, capacity, &scene, answer)
}

fn expect_order(rt: &(impl Abort + AllocGlobal), capacity: u32, table: &str) {
    for line in table.lines() {
        let answer = holds(rt.alloc(), capacity, line);
        assert!(rt; line.is_empty() || answer == Ok(true), "{capacity}: {line}");
    }
}

/// Before a tile is read, what was written is passed on, and its queued texts are written: of two tiles that come through
/// one pipe, so that the one takes what the other would; where a line has begun after a blank one; before the end; with no
/// blank line. Where a line stands after blank ones, nothing is passed on at these.
const IN_TURN: &str = "
HEADER | HEADER | A1 EMPTY | B1 | C1 =>=> HEADER A1 B1 C1 => [2, 1] => 12wf1wf2wf1wf2f1f
HEADER A1 EMPTY {\"type\":\"CityJSONFeature\",~ | \"id\":\"b1\",\"CityObjects\":{\"b1\":{\"type\":\"Building\"}},\"vertices\":[[1,2,3]]} => HEADER C1 => HEADER A1 C1 B1 => [2, 1] => 12wwwf1wf2f1f
HEADER A1 SPACE_RETURN EMPTY => HEADER B1 => HEADER A1 B1 => [1, 1] => 12wwwf1f2f
HEADER A1 | B1 => HEADER C1 => HEADER A1 C1 B1 => [2, 1] => 12wwwf1wf2f1f
HEADER A1 EMPTY SPACE B1 TAB => HEADER C1 => HEADER A1 C1 B1 => [2, 1] => 12wwwwf2f1f
";

#[test]
fn what_was_written_in_turn_is_passed_on_before_a_read(rt: HostRuntime) {
    for capacity in [1u32, 2, 64] {
        expect_order(&rt, capacity, IN_TURN);
    }
}

/// Whether what comes through the pipe is filtered, and so many features counted, by the calls that are wanted.
fn filters(alloc: Global, scene: &Scene, count: usize) -> bool {
    let reader = Device::new(PipeEnd {
        scene,
        place: 0,
        call: b'1',
    });
    let mut output = Device::new(Taker { scene, taken: 0 });
    let Ok(choice) = choice_of(alloc, &PLAIN) else {
        return false;
    };
    match filter_stream(alloc, reader, &choice, &mut output) {
        Ok(found) => found == count as u64 && scene.made.load(SeqCst) == scene.wanted.len(),
        Err(_) => false,
    }
}

/// Whether the line of a table holds: the pipe; what is written, a header and features; and the calls.
fn is_filtered(alloc: Global, line: &str) -> Result<bool, AllocError> {
    let (pipe, line) = split_at_arrow(line);
    let (written, wanted) = split_at_arrow(line);
    let scene = Scene {
        pipes: pipes_of(alloc, pipe, "")?,
        stream: stream_of(alloc, written)?.into_bytes(),
        wanted: wanted.as_bytes().to_vec(alloc)?,
        made: AtomicUsize::new(0),
    };
    let features = written.split_whitespace().skip(1);
    Ok(filters(alloc, &scene, features.count()))
}

/// The same of a filter: blank lines and lines of white space, with a line after them, with the front of one, with none;
/// one by one; after the header; after a document.
const FILTERED: &str = "
HEADER | A1 | B1 => HEADER A1 B1 => 1wff1wf1wf1f
HEADER A1 EMPTY | B1 => HEADER A1 B1 => 1wwf1wf1f
HEADER A1 SPACE_RETURN EMPTY TAB | B1 => HEADER A1 B1 => 1wwf1wf1f
HEADER A1 EMPTY SPACE B1 EMPTY TAB C1 => HEADER A1 B1 C1 => 1wwwwf1f
HEADER A1 EMPTY {\"type\":\"CityJSONFeature\",~ | \"id\":\"b1\",\"CityObjects\":{\"b1\":{\"type\":\"Building\"}},\"vertices\":[[1,2,3]]} => HEADER A1 B1 => 1wwf1wf1f
HEADER A1 | EMPTY | SPACE | B1 => HEADER A1 B1 => 1wwf111wf1f
HEADER EMPTY | A1 => HEADER A1 => 1wff1wf1f
POINTS EMPTY | A1 => HEADER X Y Z A1 => 1wfwwwf1wf1f
";

#[test]
fn what_was_filtered_is_passed_on_before_a_read(rt: HostRuntime) {
    for line in FILTERED.lines() {
        let answer = is_filtered(rt.alloc(), line);
        assert!(rt; line.is_empty() || answer == Ok(true), "{line}");
    }
}
