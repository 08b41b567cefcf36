//! Streams that are merged, in turn and with threads.

use crate::growths::tiles::{
    IN_PARTS, NONE, Tile, WHOLE, after_line, are_given_up, are_turns, bytes_of, lines_of,
};
use byte_streams::{Bin, Device, Fault, MergeFault};
use city_feature::{Base, Choice};
use growth_support::texts::{
    A, A1, A2, A3, B, B1, C1, C2, CUT, FAR_B, FAR_CHAIN, FAR_CHAIN_A, FAR_CHAIN_B, FAR_CHAIN_C,
    FAR_HEADER, HEADER, POINTS, X, Y,
};
use growth_support::{Call, expect, is_gone, wanted};
use std::alloc::{AllocError, Global};
use std::io::{self, Eprint, Read};
use std::sync::{Arc, Wait};
use std::thread::Threads;
use tile_handoff::MAX_CAPACITY;
use tile_merge::{Report, merge, merge_in_turn};

/// Tiles that are merged, and what a merge of them answers: how many lines of each, or a fault.
#[derive(Clone, Copy)]
struct Merged<'a> {
    tiles: [Tile<'a>; 3],
    comes: Result<&'a [u64], MergeFault>,
}

const TWO: [Tile<'static>; 3] = [
    Tile {
        input: &[HEADER, A],
        header: 1,
        texts: &[(2, A)],
    },
    Tile {
        input: &[FAR_HEADER, B],
        header: 1,
        texts: &[(2, FAR_B)],
    },
    NONE,
];

const THREE: [Tile<'static>; 3] = [
    Tile {
        input: &[HEADER, A1, A2, A3],
        header: 1,
        texts: &[(2, A1), (3, A2), (4, A3)],
    },
    Tile {
        input: &[HEADER, B1],
        header: 1,
        texts: &[(2, B1)],
    },
    Tile {
        input: &[HEADER, C1, C2],
        header: 1,
        texts: &[(2, C1), (3, C2)],
    },
];

/// A feature is cut short in the second.
const FAULTY: [Tile<'static>; 3] = [
    Tile {
        input: &[HEADER, A1, A2],
        header: 1,
        texts: &[(2, A1), (3, A2)],
    },
    Tile {
        input: &[HEADER, B1, CUT],
        header: 1,
        texts: &[(2, B1)],
    },
    NONE,
];

/// The first line of the first is a document.
const WITH_DOCUMENT: [Tile<'static>; 3] = [
    Tile {
        input: &[POINTS, A1],
        header: 1,
        texts: &[(1, X), (1, Y), (2, A1)],
    },
    Tile {
        input: &[FAR_HEADER, B],
        header: 1,
        texts: &[(2, FAR_B)],
    },
    NONE,
];

/// The second is a document whose features share objects.
const WITH_CHAIN: [Tile<'static>; 3] = [
    Tile {
        input: &[HEADER, A1],
        header: 1,
        texts: &[(2, A1)],
    },
    Tile {
        input: &[FAR_CHAIN, B],
        header: 1,
        texts: &[
            (1, FAR_CHAIN_A),
            (1, FAR_CHAIN_B),
            (1, FAR_CHAIN_C),
            (2, FAR_B),
        ],
    },
    NONE,
];

const CUT_SHORT: MergeFault = MergeFault {
    tile: 2,
    line: 3,
    fault: Fault::Syntax,
};

/// How many lines of each tile were written after the header, none where nothing was; nothing at all where something
/// else was.
fn written_of(written: &[u8], tiles: &[Tile<'_>; 3]) -> Option<Option<[usize; 3]>> {
    if written.is_empty() {
        return Some(None);
    }
    match after_line(written, HEADER) {
        Some(left) => lines_of(left, tiles).map(Some),
        None => None,
    }
}

/// Whether so many lines of each tile were written in turn.
fn are_in_turn(written: &[u8], tiles: &[Tile<'_>; 3]) -> bool {
    let Some(left) = after_line(written, HEADER) else {
        return written.is_empty();
    };
    match lines_of(left, tiles) {
        Some(counts) => are_turns(left, tiles, counts),
        None => false,
    }
}

/// Whether a merge is done, or refused for a tile's fault.
fn is_told(answer: &Result<Report, MergeFault>, comes: Result<&[u64], MergeFault>) -> bool {
    match answer {
        Ok(report) => comes == Ok(report.counts.items()),
        Err(told) => comes == Err(*told),
    }
}

/// A merge is done, refused for a tile's fault with all else written, or wants memory.
fn is_merged(
    rt: &(impl AllocGlobal + Eprint),
    call: Call,
    merged: &Merged<'_>,
    answer: &Result<Report, MergeFault>,
    written: &[u8],
) -> Result<bool, Fault> {
    let is_gone = is_gone(rt.alloc());
    let tiles = &merged.tiles;
    let Some(counts) = written_of(written, tiles) else {
        return Ok(false);
    };
    match answer {
        Err(told) if told.fault == Fault::Memory => {
            wanted(rt, call);
            let is_so = are_given_up(*told, counts, tiles, is_gone);
            if is_so { Err(Fault::Memory) } else { Ok(false) }
        }
        _ => {
            let whole = [
                tiles[0].texts.len(),
                tiles[1].texts.len(),
                tiles[2].texts.len(),
            ];
            Ok(counts == Some(whole) && is_told(answer, merged.comes))
        }
    }
}

/// Gives the bytes of a tile, so many at a read, and shares `alive` until it is gone.
#[derive(Drop)]
struct TileBytes {
    left: Vec<u8>,
    step: usize,
    _alive: Arc<u8, Global>,
}

impl Read for TileBytes {
    fn read(&mut self, to: &mut [u8]) -> io::Result<usize> {
        let count = self.left.len().min(to.len()).min(self.step);
        to[..count].copy_from_slice(&self.left[..count]);
        self.left.drain(..count);
        Ok(count)
    }
}

/// The readers of the tiles.
fn readers_of(
    alloc: Global,
    tiles: &[Tile<'_>; 3],
    step: usize,
    alive: &Arc<u8, Global>,
) -> Result<Vec<Device<TileBytes>>, AllocError> {
    let mut readers = Vec::new(alloc);
    for tile in tiles {
        if !tile.input.is_empty() {
            readers.push(Device::new(TileBytes {
                left: bytes_of(alloc, tile.input)?,
                step,
                _alive: Arc::try_clone(alive)?,
            }))?;
        }
    }
    Ok(readers)
}

/// Merges in turn, with so many texts held of each tile.
fn merges_in_turn(
    rt: &(impl AllocGlobal + Eprint),
    merged: &Merged<'_>,
    readers: Vec<Device<TileBytes>>,
    capacity: u32,
    output: &mut Bin,
) -> Result<bool, Fault> {
    if readers.is_empty() || capacity == 0 || capacity > MAX_CAPACITY {
        return Ok(false);
    }
    let every = Choice::new(None, None, false);
    let answer = merge_in_turn(rt.alloc(), readers, &every, Base::First, capacity, output);
    let is_merged = is_merged(rt, Call("merge_in_turn"), merged, &answer, output.bytes());
    if are_in_turn(output.bytes(), &merged.tiles) {
        is_merged
    } else {
        Ok(false)
    }
}

fn take_turns(
    rt: &(impl AllocGlobal + Eprint),
    merged: &Merged<'_>,
    (step, capacity): (usize, u32),
) -> Result<bool, Fault> {
    let alive = Arc::new(rt.alloc(), 0u8)?;
    let readers = readers_of(rt.alloc(), &merged.tiles, step, &alive)?;
    let mut output = Bin::new(rt.alloc(), 4096, 100, false)?;
    merges_in_turn(rt, merged, readers, capacity, &mut output)
}

/// The same; where a thread cannot be started, nothing was written.
fn is_threaded(
    rt: &(impl AllocGlobal + Eprint),
    merged: &Merged<'_>,
    answer: &Result<Report, MergeFault>,
    written: &[u8],
) -> Result<bool, Fault> {
    match answer {
        Err(told) if told.line == 0 && told.fault == Fault::NoThread => {
            wanted(rt, Call("merge, a thread"));
            let is_tile = told.tile == 1 || told.tile == 2 || told.tile == 3;
            if is_tile && written.is_empty() {
                Err(Fault::Memory)
            } else {
                Ok(false)
            }
        }
        _ => is_merged(rt, Call("merge"), merged, answer, written),
    }
}

/// Merges with a thread for each tile.
fn merges_beside<H>(
    rt: &H,
    merged: &Merged<'_>,
    readers: Vec<Device<TileBytes>>,
    capacity: u32,
    output: &mut Bin,
) -> Result<bool, Fault>
where
    H: AllocGlobal + Eprint + Threads + Wait + Copy + Send + 'static,
{
    if readers.is_empty() || capacity == 0 || capacity > MAX_CAPACITY {
        return Ok(false);
    }
    let every = Choice::new(None, None, false);
    let answer = merge(
        rt,
        rt.alloc(),
        readers,
        &every,
        Base::First,
        capacity,
        output,
    );
    is_threaded(rt, merged, &answer, output.bytes())
}

fn is_unshared(alive: &mut Arc<u8, Global>) -> bool {
    Arc::get_mut(alive).is_some()
}

/// The threads that ran have ended after the merge.
fn work_beside<H>(
    rt: &H,
    merged: &Merged<'_>,
    (step, capacity): (usize, u32),
) -> Result<bool, Fault>
where
    H: AllocGlobal + Eprint + Threads + Wait + Copy + Send + 'static,
{
    let mut alive = Arc::new(rt.alloc(), 0u8)?;
    let readers = readers_of(rt.alloc(), &merged.tiles, step, &alive)?;
    let mut output = Bin::new(rt.alloc(), 4096, 100, false)?;
    let is_merged = merges_beside(rt, merged, readers, capacity, &mut output);
    if is_unshared(&mut alive) {
        is_merged
    } else {
        Ok(false)
    }
}

/// Which tiles are merged.
#[derive(Clone, Copy)]
enum Case {
    Two,
    Three,
    Faulty,
    WithDocument,
    WithChain,
}

fn merged_of(case: Case) -> Merged<'static> {
    match case {
        Case::Two => Merged {
            tiles: TWO,
            comes: Ok([1u64, 1].as_slice()),
        },
        Case::Three => Merged {
            tiles: THREE,
            comes: Ok([3u64, 1, 2].as_slice()),
        },
        Case::Faulty => Merged {
            tiles: FAULTY,
            comes: Err(CUT_SHORT),
        },
        Case::WithDocument => Merged {
            tiles: WITH_DOCUMENT,
            comes: Ok([3u64, 1].as_slice()),
        },
        Case::WithChain => Merged {
            tiles: WITH_CHAIN,
            comes: Ok([1u64, 4].as_slice()),
        },
    }
}

/// What is merged in turn, and how many texts are held of each tile.
const IN_TURN: [(Case, u32); 6] = [
    (Case::Two, 64),
    (Case::Three, 1),
    (Case::Three, 2),
    (Case::Faulty, 64),
    (Case::WithDocument, 2),
    (Case::WithChain, 2),
];

/// The same with a thread for each tile.
const BESIDE: [(Case, u32); 4] = [
    (Case::Three, 1),
    (Case::Faulty, 64),
    (Case::WithDocument, 2),
    (Case::WithChain, 2),
];

#[test]
fn tiles_take_turns(rt: HostRuntime) -> Result<(), Fault> {
    for (case, capacity) in IN_TURN.iter() {
        expect!(rt; take_turns(&rt, &merged_of(*case), (IN_PARTS, *capacity)));
    }
    Ok(())
}

#[test]
fn tiles_of_whole_lines_take_turns(rt: HostRuntime) -> Result<(), Fault> {
    for (case, capacity) in IN_TURN.iter() {
        expect!(rt; take_turns(&rt, &merged_of(*case), (WHOLE, *capacity)));
    }
    Ok(())
}

#[test]
fn tiles_are_merged_by_threads(rt: HostRuntime) -> Result<(), Fault> {
    for (case, capacity) in BESIDE.iter() {
        expect!(rt; work_beside(&rt, &merged_of(*case), (IN_PARTS, *capacity)));
    }
    Ok(())
}

#[test]
fn tiles_of_whole_lines_are_merged_by_threads(rt: HostRuntime) -> Result<(), Fault> {
    for (case, capacity) in BESIDE.iter() {
        expect!(rt; work_beside(&rt, &merged_of(*case), (WHOLE, *capacity)));
    }
    Ok(())
}
