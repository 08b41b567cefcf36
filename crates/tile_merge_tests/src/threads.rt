//! Merges with a thread for each tile: that the threads run beside one another and wait for each other's places.

use crate::devices::NOT_WRITTEN;
use crate::documents::of_types;
use crate::interleaving::{expect_both_ways, merges_with_threads, written_with_threads};
use crate::merging::{Asked, PLAIN, Way, merges_in_turn, stream_of, with_room};
use crate::texts::text;
use byte_streams::{Bin, Device, Fault, Sink};
use std::alloc::{AllocError, AllocGlobal, Global};
use std::io::{self, ErrorKind, Read, Write};
use std::process::Abort;
use std::sync::atomic::AtomicU64;
use std::sync::atomic::Ordering::SeqCst;
use std::sync::{Arc, Wait};
use std::thread::Threads;

/// How many turns of one load a reader waits at most.
const TURNS: u64 = 1_000_000_000;

/// Whole tiles keep their order; a faulty one ends, and the others are written whole; the lowest of them is told.
const ORDERED: &str = "
HEADER A1 A2 A3 | HEADER B1 | HEADER C1 C2 => HEADER A1 B1 C1 A2 C2 A3 => [3, 1, 2] => A1 A2 A3 | B1 | C1 C2
HEADER A1 A2 | HEADER B1 CUT => HEADER A1 B1 A2 => tile 2 line 3: Syntax => A1 A2 | B1
HEADER B1 CUT | HEADER A1 A2 => HEADER B1 A1 A2 => tile 1 line 3: Syntax => B1 | A1 A2
HEADER A1 A2 A3 | HEADER B1 CUT | HEADER CUT => HEADER A1 B1 A2 A3 => tile 2 line 3: Syntax => A1 A2 A3 | B1 |
";

#[test]
fn tiles_keep_their_order(rt: HostRuntime) {
    expect_both_ways(&rt, &PLAIN, ORDERED);
}

/// Whether these are the first two hundred bytes of the stream of these texts.
fn are_front(alloc: Global, bytes: &[u8], names: &str) -> Result<bool, AllocError> {
    let stream = stream_of(alloc, names)?;
    Ok(bytes.len() == 200 && stream.as_bytes().starts_with(bytes))
}

fn front_is_written<H>(rt: &H, capacity: u32) -> Result<bool, Fault>
where
    H: Abort + AllocGlobal + Threads + Wait + Copy + Send + 'static,
{
    let alloc = rt.alloc();
    let way = Way {
        room: 200,
        write: 7,
        ..with_room(capacity, 50, true)
    };
    match written_with_threads(
        rt,
        (&PLAIN, &way),
        "HEADER A1 A2 | HEADER B1 CUT",
        NOT_WRITTEN,
    )? {
        Some(output) => Ok(
            are_front(alloc, output.bytes(), "HEADER A1 A2")?
                || are_front(alloc, output.bytes(), "HEADER B1 A1")?,
        ),
        None => Ok(false),
    }
}

#[test]
fn a_failed_write_leaves_the_front_of_a_stream(rt: HostRuntime) {
    assert!(rt; front_is_written(&rt, 1) == Ok(true));
    assert!(rt; front_is_written(&rt, 64) == Ok(true));
}

/// How much is written of three tiles of a thousand features.
fn written_of_many<H>(rt: &H) -> Result<Option<usize>, Fault>
where
    H: Abort + AllocGlobal + Threads + Wait + Copy + Send + 'static,
{
    let many = "A1 ".repeat(rt.alloc(), 1_000)?;
    let tiles = format!(in rt.alloc(); "HEADER {many}| HEADER {many}| HEADER {many}")?;
    let way = Way {
        room: 200,
        write: 200,
        ..with_room(1, 50, true)
    };
    match written_with_threads(rt, (&PLAIN, &way), &tiles, NOT_WRITTEN)? {
        Some(output) => Ok(Some(output.bytes().len())),
        None => Ok(None),
    }
}

/// An output that fails while all rings are full.
#[test]
fn drain(rt: HostRuntime) {
    assert!(rt; written_of_many(&rt) == Ok(Some(200)));
}

/// It gives its header and then a feature so many times, a line a read, and says how many reads have
/// begun. Before one of them it waits until a number that others see to is large enough, and fails
/// where that takes too long.
#[derive(Drop)]
struct Gated {
    features: u64,
    reads: u64,
    begun: Arc<AtomicU64, Global>,
    waits_at: u64,
    seen: Arc<AtomicU64, Global>,
    least: u64,
    beyond: &'static str,
}

impl Gated {
    /// Whether the number that others see to became large enough in time.
    fn waited(&self) -> bool {
        for _ in 0..TURNS {
            if self.seen.load(SeqCst) >= self.least {
                return true;
            }
        }
        false
    }

    /// The line of the read that has begun, without its newline; none after the last.
    fn line(&self) -> Option<&'static str> {
        if self.reads <= 1 {
            return Some(text("HEADER"));
        }
        if self.reads - 1 > self.features {
            return None;
        }
        Some(text("A1"))
    }
}

impl Read for Gated {
    fn read(&mut self, to: &mut [u8]) -> io::Result<usize> {
        self.reads = self.reads.saturating_add(1);
        self.begun.store(self.reads, SeqCst);
        if self.reads == self.waits_at && !self.waited() {
            return Err(io::Error::from(ErrorKind::Other));
        }
        let Some(line) = self.line() else {
            return Ok(0);
        };
        let (line, beyond) = (line.as_bytes(), self.beyond.as_bytes());
        if to.len() < line.len() || to.len() - line.len() < beyond.len() {
            return Err(io::Error::from(ErrorKind::Other));
        }
        let end = line.len() + beyond.len();
        to[..line.len()].copy_from_slice(line);
        to[line.len()..end].copy_from_slice(beyond);
        Ok(end)
    }
}

/// A number that several threads see.
fn shared(alloc: Global) -> Result<Arc<AtomicU64, Global>, AllocError> {
    Ok(Arc::new(alloc, AtomicU64::new(0))?)
}

/// A reader of so many features that says in `begun` how many of its reads have begun, and before one of them waits
/// until it has seen enough.
fn waiting(
    features: u64,
    begun: &Arc<AtomicU64, Global>,
    gate: (u64, &Arc<AtomicU64, Global>, u64),
) -> Result<Device<Gated>, AllocError> {
    waiting_after(features, begun, gate, "\n")
}

/// The same with these bytes after each line.
fn waiting_after(
    features: u64,
    begun: &Arc<AtomicU64, Global>,
    (waits_at, seen, least): (u64, &Arc<AtomicU64, Global>, u64),
    beyond: &'static str,
) -> Result<Device<Gated>, AllocError> {
    Ok(Device::new(Gated {
        features,
        reads: 0,
        begun: Arc::try_clone(begun)?,
        waits_at,
        seen: Arc::try_clone(seen)?,
        least,
        beyond,
    }))
}

/// So many readers of so many features each, which wait for nothing and say in `begun` how many reads have begun.
fn counted(
    alloc: Global,
    count: u32,
    features: u64,
    begun: &Arc<AtomicU64, Global>,
) -> Result<Vec<Device<Gated>>, AllocError> {
    let mut readers = Vec::new(alloc);
    for _ in 0..count {
        readers.push(waiting(features, begun, (0, begun, 0))?)?;
    }
    Ok(readers)
}

/// How much is read and written of these readers, where they are answered so.
fn read_and_written<H>(
    rt: &H,
    readers: Vec<Device<Gated>>,
    begun: &AtomicU64,
    answer: &str,
) -> Result<Option<(u64, usize)>, Fault>
where
    H: Abort + AllocGlobal + Threads + Wait + Copy + Send + 'static,
{
    let mut output = Bin::new(rt.alloc(), 4096, 4096, false)?;
    let is_told = merges_with_threads(rt, readers, (&PLAIN, 64), &mut output, answer);
    Ok(is_told.then_some((begun.load(SeqCst), output.bytes().len())))
}

fn many_are_refused<H>(rt: &H) -> Result<bool, Fault>
where
    H: Abort + AllocGlobal + Threads + Wait + Copy + Send + 'static,
{
    let begun = shared(rt.alloc())?;
    let readers = counted(rt.alloc(), 65, 1, &begun)?;
    let found = read_and_written(rt, readers, &begun, "tile 0 line 0: TooManyTiles")?;
    Ok(found == Some((0, 0)))
}

#[test]
fn sixty_five_tiles_are_refused_before_one_is_read(rt: HostRuntime) {
    assert!(rt; many_are_refused(&rt) == Ok(true));
}

/// Three tiles, of which the second has no header, and how many reads of the first and of the third have begun.
fn three(
    alloc: Global,
    first: &Arc<AtomicU64, Global>,
    third: &Arc<AtomicU64, Global>,
) -> Result<Vec<Device<Gated>>, AllocError> {
    let second = shared(alloc)?;
    let mut readers = counted(alloc, 1, 1, first)?;
    readers.push(Device::new(Gated {
        features: 0,
        reads: 1,
        begun: Arc::try_clone(&second)?,
        waits_at: 0,
        seen: second,
        least: 0,
        beyond: "\n",
    }))?;
    readers.push(waiting(1, third, (0, third, 0))?)?;
    Ok(readers)
}

fn third_is_not_read<H>(rt: &H) -> Result<bool, Fault>
where
    H: Abort + AllocGlobal + Threads + Wait + Copy + Send + 'static,
{
    let (first, third) = (shared(rt.alloc())?, shared(rt.alloc())?);
    let readers = three(rt.alloc(), &first, &third)?;
    let found = read_and_written(rt, readers, &third, "tile 2 line 0: NoHeader")?;
    Ok(found == Some((0, 0)) && first.load(SeqCst) == 1)
}

#[test]
fn tiles_after_one_with_no_header_are_not_read(rt: HostRuntime) {
    assert!(rt; third_is_not_read(&rt) == Ok(true));
}

/// Two tiles, of which neither gives its feature before the other's thread has come as far.
fn gates(alloc: Global) -> Result<Vec<Device<Gated>>, AllocError> {
    let (one, two) = (shared(alloc)?, shared(alloc)?);
    let mut readers = Vec::new(alloc);
    readers.push(waiting(1, &one, (2, &two, 2))?)?;
    readers.push(waiting(1, &two, (2, &one, 2))?)?;
    Ok(readers)
}

fn gates_open<H>(rt: &H, capacity: u32) -> Result<bool, Fault>
where
    H: Abort + AllocGlobal + Threads + Wait + Copy + Send + 'static,
{
    let readers = gates(rt.alloc())?;
    let mut output = Bin::new(rt.alloc(), 4096, 4096, false)?;
    Ok(merges_with_threads(rt, readers, (&PLAIN, capacity), &mut output, "[1, 1]"))
}

#[test]
fn gate(rt: HostRuntime) {
    assert!(rt; gates_open(&rt, 1) == Ok(true));
    assert!(rt; gates_open(&rt, 64) == Ok(true));
}

/// How much is written of tiles that do not end by themselves, to a writer with this room.
fn written_of_endless<H>(
    rt: &H,
    (asked, capacity): (&Asked, u32),
    room: usize,
) -> Result<Option<usize>, Fault>
where
    H: Abort + AllocGlobal + Threads + Wait + Copy + Send + 'static,
{
    let begun = shared(rt.alloc())?;
    let readers = counted(rt.alloc(), 3, u64::MAX, &begun)?;
    let mut output = Bin::new(rt.alloc(), room, 7, false)?;
    let is_told = merges_with_threads(rt, readers, (asked, capacity), &mut output, NOT_WRITTEN);
    Ok(is_told.then_some(output.bytes().len()))
}

/// Something is chosen of them, and nothing is.
#[test]
fn endless_tiles_end_where_the_output_is_gone(rt: HostRuntime) {
    for capacity in [1u32, 64] {
        assert!(rt; written_of_endless(&rt, (&PLAIN, capacity), 200) == Ok(Some(200)));
        let nothing = of_types("Nothing");
        assert!(rt; written_of_endless(&rt, (&nothing, capacity), 10) == Ok(Some(10)));
    }
}

/// It says how many bytes it has taken. Its first write waits, and each fails where more texts have
/// been given than the lines it has taken and two.
#[derive(Drop)]
struct Watched {
    taken: Arc<AtomicU64, Global>,
    lines: u64,
    begun: Arc<AtomicU64, Global>,
    turns: u64,
    most: u64,
}

impl Write for Watched {
    fn write(&mut self, from: &[u8]) -> io::Result<usize> {
        for _ in 0..self.turns {
            self.begun.load(SeqCst);
        }
        self.turns = 0;
        let given = self.begun.load(SeqCst).saturating_sub(1);
        if given > self.lines.saturating_add(self.most) {
            return Err(io::Error::from(ErrorKind::Other));
        }
        for byte in from {
            if *byte == b'\n' {
                self.lines = self.lines.saturating_add(1);
            }
        }
        self.taken.fetch_add(from.len() as u64, SeqCst);
        Ok(from.len())
    }

    fn flush(&mut self) -> io::Result<()> {
        Ok(())
    }
}

/// A tile that does not end before its first feature was written.
fn flows<H>(rt: &H, capacity: u32) -> Result<bool, AllocError>
where
    H: Abort + AllocGlobal + Threads + Wait + Copy + Send + 'static,
{
    let (begun, taken) = (shared(rt.alloc())?, shared(rt.alloc())?);
    let mut readers = Vec::new(rt.alloc());
    readers.push(waiting(1, &begun, (3, &taken, 130))?)?;
    let mut output = Device::new(Watched {
        taken,
        lines: 0,
        begun,
        turns: 0,
        most: u64::MAX,
    });
    Ok(merges_with_threads(rt, readers, (&PLAIN, capacity), &mut output, "[1]"))
}

#[test]
fn flow(rt: HostRuntime) {
    assert!(rt; flows(&rt, 1) == Ok(true));
    assert!(rt; flows(&rt, 64) == Ok(true));
}

/// How many turns of one load the first flush of an output takes.
const PAUSE: u64 = 5_000_000;

/// It counts its flushes, and the first takes its time.
#[derive(Drop)]
struct Pausing {
    flushes: Arc<AtomicU64, Global>,
}

impl Write for Pausing {
    fn write(&mut self, from: &[u8]) -> io::Result<usize> {
        Ok(from.len())
    }

    fn flush(&mut self) -> io::Result<()> {
        if self.flushes.fetch_add(1, SeqCst) == 0 {
            for _ in 0..PAUSE {
                self.flushes.load(SeqCst);
            }
        }
        Ok(())
    }
}

/// A tile that ends while the output is flushed for the first time, just before the caller would sleep: nothing would wake
/// it after that.
fn ends_in_a_flush<H>(rt: &H) -> Result<bool, AllocError>
where
    H: Abort + AllocGlobal + Threads + Wait + Copy + Send + 'static,
{
    let (begun, flushes) = (shared(rt.alloc())?, shared(rt.alloc())?);
    let mut readers = Vec::new(rt.alloc());
    readers.push(waiting(1, &begun, (3, &flushes, 1))?)?;
    let mut output = Device::new(Pausing { flushes });
    Ok(merges_with_threads(rt, readers, (&PLAIN, 64), &mut output, "[1]"))
}

#[test]
fn what_comes_before_it_sleeps_is_taken(rt: HostRuntime) {
    assert!(rt; ends_in_a_flush(&rt) == Ok(true));
}

/// Whether they are answered so, merged in turn or with threads.
fn merges<H, W>(
    rt: &H,
    readers: Vec<Device<Gated>>,
    (in_turn, capacity): (bool, u32),
    output: &mut W,
    answer: &str,
) -> bool
where
    H: Abort + AllocGlobal + Threads + Wait + Copy + Send + 'static,
    W: Sink,
{
    if in_turn {
        merges_in_turn(rt.alloc(), readers, (&PLAIN, capacity), output, answer)
    } else {
        merges_with_threads(rt, readers, (&PLAIN, capacity), output, answer)
    }
}

/// Beside the line that is written no more texts were given than the ring holds and the one that
/// waits for a place in it.
fn is_bound<H>(rt: &H, in_turn: bool) -> Result<bool, AllocError>
where
    H: Abort + AllocGlobal + Threads + Wait + Copy + Send + 'static,
{
    let (begun, taken) = (shared(rt.alloc())?, shared(rt.alloc())?);
    let readers = counted(rt.alloc(), 1, 100, &begun)?;
    let mut output = Device::new(Watched {
        taken,
        lines: 0,
        begun,
        turns: 1_000_000,
        most: 2,
    });
    Ok(merges(rt, readers, (in_turn, 1), &mut output, "[100]"))
}

#[test]
fn bound(rt: HostRuntime) {
    assert!(rt; is_bound(&rt, false) == Ok(true));
    assert!(rt; is_bound(&rt, true) == Ok(true));
}

/// It gathers what it takes, and says how many bytes it has passed on.
#[derive(Drop)]
struct Gathering {
    gathered: u64,
    passed_on: Arc<AtomicU64, Global>,
}

impl Write for Gathering {
    fn write(&mut self, from: &[u8]) -> io::Result<usize> {
        self.gathered = self.gathered.saturating_add(from.len() as u64);
        Ok(from.len())
    }

    fn flush(&mut self) -> io::Result<()> {
        self.passed_on.store(self.gathered, SeqCst);
        Ok(())
    }
}

/// A tile that does not end before its first feature was passed on, with these bytes after each line.
fn passes_on<H>(
    rt: &H,
    in_turn: bool,
    capacity: u32,
    beyond: &'static str,
) -> Result<bool, AllocError>
where
    H: Abort + AllocGlobal + Threads + Wait + Copy + Send + 'static,
{
    let (begun, passed_on) = (shared(rt.alloc())?, shared(rt.alloc())?);
    let mut readers = Vec::new(rt.alloc());
    readers.push(waiting_after(1, &begun, (3, &passed_on, 130), beyond)?)?;
    let mut output = Device::new(Gathering {
        gathered: 0,
        passed_on,
    });
    Ok(merges(rt, readers, (in_turn, capacity), &mut output, "[1]"))
}

#[test]
fn what_has_come_is_passed_on(rt: HostRuntime) {
    for beyond in ["\n", "\n\n", "\n \t\r\n\n"] {
        for (in_turn, capacity) in [(false, 1u32), (false, 64), (true, 1), (true, 4), (true, 64)] {
            let passes = passes_on(&rt, in_turn, capacity, beyond);
            assert!(rt; passes == Ok(true), "{capacity} {beyond:?}");
        }
    }
}
