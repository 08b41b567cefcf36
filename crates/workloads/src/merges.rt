use crate::digest::{Order, Output, Written};
use crate::filters::{Chosen, choice_of};
use crate::plan::Plan;
use crate::shapes::{PLAIN, SIGNED};
use crate::tally::Tally;
use crate::tile::Tile;
use byte_streams::limits::MAX_PIECE_BYTES;
use byte_streams::{Device, Fault, Line, MergeFault, Tape};
use city_feature::Base;
use std::alloc::{AllocError, Global};
use std::sync::Wait;
use std::thread::Threads;
use tile_merge::{Report, merge, merge_in_turn};

/// How many texts of a tile are held at most: with threads and in turn, as the program has it.
const CAPACITY: u32 = 64;

const IN_TURN_CAPACITY: u32 = 4;

/// The thousand bytes of the tiles.
const THOUSANDS: [u32; 16] = [
    300, 300, 300, 300, 60, 60, 60, 60, 60, 60, 60, 60, 1_200, 60, 60, 60,
];

/// A merge of some of the tiles, from one to before another.
#[derive(Clone, Copy)]
struct Merge {
    from: usize,
    to: usize,
    chosen: Chosen,
}

/// What each round merges: four tiles, sixteen, and four of which one is much larger than the others.
const MERGES: [Merge; 4] = [
    Merge {
        from: 0,
        to: 4,
        chosen: Chosen::All,
    },
    Merge {
        from: 0,
        to: 16,
        chosen: Chosen::All,
    },
    Merge {
        from: 12,
        to: 16,
        chosen: Chosen::All,
    },
    Merge {
        from: 0,
        to: 4,
        chosen: Chosen::InBox,
    },
];

/// In each round each merge is made in turn, and thrice with threads, which takes about as long; each
/// time its tiles are changed before.
pub(crate) fn run_merges<H>(rt: &H, alloc: Global, plan: Plan, output: &mut Output) -> Option<Tally>
where
    H: Threads + Wait + Copy + Send + 'static,
{
    let mut tiles = tiles_of(alloc, plan)?;
    let mut lines = Output::new(alloc, Order::Any).ok()?;
    let mut tally = Tally::new();
    for _ in 0..plan.rounds {
        run_in_turn(alloc, &mut tiles, output, &mut tally);
        for _ in 0..3 {
            run_threaded(rt, alloc, &mut tiles, &mut lines, &mut tally);
        }
    }
    Some(tally)
}

/// Each second tile has negative vertices.
fn tiles_of(alloc: Global, plan: Plan) -> Option<Vec<Tile>> {
    let mut tiles = Vec::new(alloc);
    let mut number = 10u64;
    for thousands in THOUSANDS {
        let shape = if number % 2 == 0 { PLAIN } else { SIGNED };
        let seed = plan.seed.wrapping_add(number << 32);
        let tile = Tile::of_features(alloc, &shape, (seed, number), plan.size(thousands))?;
        tiles.push(tile).ok()?;
        number = number.wrapping_add(1);
    }
    Some(tiles)
}

fn run_in_turn(alloc: Global, tiles: &mut [Tile], output: &mut Output, tally: &mut Tally) {
    for merge in MERGES {
        if let Some(tiles) = tiles.get_mut(merge.from..merge.to) {
            change(tiles);
            let outcome = merge_one_by_one(alloc, tiles, merge.chosen, output);
            end(tally, outcome, output.end());
        }
    }
}

fn run_threaded<H>(rt: &H, alloc: Global, tiles: &mut [Tile], lines: &mut Output, tally: &mut Tally)
where
    H: Threads + Wait + Copy + Send + 'static,
{
    for merge in MERGES {
        if let Some(tiles) = tiles.get_mut(merge.from..merge.to) {
            change(tiles);
            let outcome = merge_at_once(rt, alloc, tiles, merge.chosen, lines);
            end(tally, outcome, lines.end());
        }
    }
}

fn change(tiles: &mut [Tile]) {
    for tile in tiles {
        tile.change();
    }
}

fn merge_one_by_one(
    alloc: Global,
    tiles: &[Tile],
    chosen: Chosen,
    output: &mut Output,
) -> Result<Report, MergeFault> {
    let choice = choice_of(alloc, chosen)?;
    let readers = readers_of(alloc, tiles)?;
    if readers.is_empty() {
        return Err(MergeFault::of_no_line(Fault::Memory));
    }
    merge_in_turn(
        alloc,
        readers,
        &choice,
        Base::First,
        IN_TURN_CAPACITY,
        output,
    )
}

fn readers_of(alloc: Global, tiles: &[Tile]) -> Result<Vec<Device<&[u8]>>, AllocError> {
    let mut readers = Vec::new(alloc);
    for tile in tiles {
        readers.push(Device::new(tile.bytes()))?;
    }
    Ok(readers)
}

fn merge_at_once<H>(
    rt: &H,
    alloc: Global,
    tiles: &[Tile],
    chosen: Chosen,
    lines: &mut Output,
) -> Result<Report, MergeFault>
where
    H: Threads + Wait + Copy + Send + 'static,
{
    let choice = choice_of(alloc, chosen)?;
    let tapes = tapes_of(alloc, tiles)?;
    if tapes.is_empty() {
        return Err(MergeFault::of_no_line(Fault::Memory));
    }
    merge(rt, alloc, tapes, &choice, Base::First, CAPACITY, lines)
}

/// What threads read is their own: a copy.
fn tapes_of(alloc: Global, tiles: &[Tile]) -> Result<Vec<Tape>, AllocError> {
    let mut tapes = Vec::new(alloc);
    for tile in tiles {
        let copy = Vec::from_slice(alloc, tile.bytes())?;
        tapes.push(Tape::new(Line::from_vec(copy), MAX_PIECE_BYTES, false))?;
    }
    Ok(tapes)
}

/// Counts a merge, and what it wrote.
fn end(tally: &mut Tally, outcome: Result<Report, MergeFault>, written: Written) {
    match outcome {
        Ok(report) => count(tally, &report),
        Err(refusal) => tally.refuse(&refusal),
    }
    tally.add(written);
}

fn count(tally: &mut Tally, report: &Report) {
    for features in report.counts.items() {
        tally.count(*features);
    }
}
