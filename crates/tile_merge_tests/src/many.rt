//! Many tiles, and tiles of many features, in turn and with threads.

use crate::devices::LineReader;
use crate::interleaving::written_with_threads;
use crate::merging::{PLAIN, Way, merges_in_turn, stream_of, with_room, writes_in_turn};
use byte_streams::{Bin, Device, Fault, MergeFault};
use std::alloc::{AllocError, AllocGlobal, Global};
use std::process::Abort;
use std::sync::Wait;
use std::sync::atomic::AtomicU64;
use std::sync::atomic::Ordering::SeqCst;
use std::thread::Threads;
use tile_merge::tile_count;

/// So many tiles of one feature.
fn tiles_of(alloc: Global, count: usize) -> Result<String, AllocError> {
    let mut tiles = "HEADER A1 |".repeat(alloc, count)?;
    tiles.pop();
    Ok(tiles)
}

/// What is written of sixty-four.
fn written_of(alloc: Global) -> Result<String, AllocError> {
    let names = "A1 ".repeat(alloc, 64)?;
    stream_of(alloc, &format!(in alloc; "HEADER {names}")?)
}

fn counts_of(alloc: Global) -> Result<String, AllocError> {
    let ones = "1, ".repeat(alloc, 63)?;
    format!(in alloc; "[{ones}1]")
}

fn many_take_turns(alloc: Global, capacity: u32) -> Result<bool, Fault> {
    let (tiles, written, answer) = (tiles_of(alloc, 64)?, written_of(alloc)?, counts_of(alloc)?);
    let way = with_room(capacity, 10_000, true);
    writes_in_turn(alloc, (&PLAIN, &way), &tiles, written.as_bytes(), &answer)
}

/// Where all features are equal, threads write the same.
fn many_run_beside<H>(rt: &H, capacity: u32) -> Result<bool, Fault>
where
    H: Abort + AllocGlobal + Threads + Wait + Copy + Send + 'static,
{
    let alloc = rt.alloc();
    let (tiles, answer) = (tiles_of(alloc, 64)?, counts_of(alloc)?);
    let output = written_with_threads(
        rt,
        (&PLAIN, &with_room(capacity, 50, true)),
        &tiles,
        &answer,
    )?;
    match output {
        Some(output) => Ok(output.bytes() == written_of(alloc)?.as_bytes()),
        None => Ok(false),
    }
}

/// Sixty-four tiles of one feature.
#[test]
fn many(rt: HostRuntime) {
    for capacity in [1u32, 64] {
        assert!(rt; many_take_turns(rt.alloc(), capacity) == Ok(true));
        assert!(rt; many_run_beside(&rt, capacity) == Ok(true));
    }
}

fn readers_of<'a>(
    alloc: Global,
    count: u32,
    reads: &'a AtomicU64,
) -> Result<Vec<Device<LineReader<'a>>>, AllocError> {
    let mut readers = Vec::new(alloc);
    for _ in 0..count {
        readers.push(Device::new(LineReader {
            feature: "A1",
            lines: 2,
            reads,
            failing: None,
        }))?;
    }
    Ok(readers)
}

/// How much is read and written of so many tiles, where they are too many.
fn read_and_written(alloc: Global, count: u32) -> Result<Option<(u64, usize)>, Fault> {
    let reads = AtomicU64::new(0);
    let mut output = Bin::new(alloc, 4096, 4096, false)?;
    let readers = readers_of(alloc, count, &reads)?;
    let answer = "tile 0 line 0: TooManyTiles";
    let is_told = merges_in_turn(alloc, readers, (&PLAIN, 64), &mut output, answer);
    Ok(is_told.then_some((reads.load(SeqCst), output.bytes().len())))
}

#[test]
fn sixty_five_tiles_are_refused_before_one_is_read(rt: HostRuntime) {
    assert!(rt; read_and_written(rt.alloc(), 65) == Ok(Some((0, 0))));
}

#[test]
fn tiles_are_counted(rt: HostRuntime) {
    assert!(rt; tile_count(64) == Ok(()));
    let refusal = MergeFault::of_no_line(Fault::TooManyTiles);
    assert!(rt; tile_count(65) == Err(refusal));
}

/// Three tiles of a thousand features, of which the first has one more.
fn long_tiles(alloc: Global) -> Result<String, AllocError> {
    let longer = "A1 ".repeat(alloc, 1_000)?;
    let shorter = "B1 ".repeat(alloc, 1_000)?;
    format!(in alloc; "HEADER C1 {longer}| HEADER {shorter}| HEADER {shorter}")
}

fn turns_of(alloc: Global) -> Result<String, AllocError> {
    let turns = "B1 B1 A1 ".repeat(alloc, 1_000)?;
    stream_of(alloc, &format!(in alloc; "HEADER C1 {turns}")?)
}

fn long_take_turns(alloc: Global, capacity: u32) -> Result<bool, Fault> {
    let (tiles, written) = (long_tiles(alloc)?, turns_of(alloc)?);
    let way = with_room(capacity, 10_000, true);
    let way = Way {
        room: written.len(),
        ..way
    };
    writes_in_turn(
        alloc,
        (&PLAIN, &way),
        &tiles,
        written.as_bytes(),
        "[1001, 1000, 1000]",
    )
}

#[test]
fn tiles_of_many_features_are_merged(rt: HostRuntime) {
    for capacity in [1u32, 3, 64, 1024] {
        assert!(rt;
            long_take_turns(rt.alloc(), capacity) == Ok(true),
            "{capacity}"
        );
    }
}
