//! The merge with a thread for each tile.
ghost use Rattle.std.specs.Prelude.{◌≡◌, ◌⊎◌, ◌≤◌, ◌<◌, ◌+◌, List, All, Err, true, length, IfOk, IfErr, OnOk};
ghost use Rattle.city_feature.specs.Choice.{IsChosen};
ghost use Rattle.tile_merge.specs.Giving.{merging};
ghost use Rattle.tile_merge.specs.Feeds.{Course};
ghost use Rattle.tile_stream.specs.Filtered.{failures_after_merge};
ghost use Rattle.tile_merge.specs.Interleaves.{Interleaves};
ghost use Rattle.tile_merge.specs.Merged.{MergedAll, IsOutputFault, IsRefusedEarly};
ghost use Rattle.tile_merge.specs.Opened.{AllThree};
ghost use Rattle.tile_merge.specs.Threaded.{HasNoThread, IsRefusedThreaded, WroteInterleaved};
ghost use Rattle.tile_merge.specs.Threads.{are_all_ended, HaveGiven, IsRunOf, IsUnstarted};
ghost use Rattle.tile_stream.specs.TileState.{most_to_come, most_texts};

mod cancelling;
mod feeder;
mod running;
mod waiting;
mod writing;

use crate::merging::ends::TileEnd;
use crate::merging::report::Report;
use crate::merging::threaded::feeder::FedTile;
use crate::merging::threaded::running::{RunningTile, start};
use crate::merging::threaded::waiting::Bell;
use crate::merging::threaded::writing::write_stream;
use crate::merging::tiles::{JoinedTiles, OpenTile, join_tiles};
use byte_streams::{Fault, MergeFault, Sink, Source};
use city_feature::{Base, Choice};
use city_grid::Shift;
use std::alloc::Global;
use std::sync::Wait;
use std::thread::Threads;
use tile_handoff::MAX_CAPACITY;
use tile_stream::ReadyTexts;

/// Merges the tiles that the readers give, with a thread for each: the joined header, and then the
/// features that are chosen, each moved by its tile's shift, those of a tile in their order and
/// those of several as they come. Of a tile up to `capacity` texts wait to be written, beside those
/// of a first line that is a document. The report has how many features were written of each tile.
/// It waits for the threads, and each has ended when it returns.
///
/// # Errors
///
/// Before a byte is written: [`Fault::TooManyTiles`], of no tile, above 64 readers; else that of the
/// first tile that has no header; else that of joining, at the line of the tile's header; else
/// [`Fault::NoThread`] of the first tile whose thread could not be started; of no tile
/// [`Fault::Memory`] may come in place of these. A faulty line ends its tile there, and the others
/// are written whole: then that of the lowest tile that ran out of memory, or else of the lowest
/// that is faulty. Of no tile [`Fault::Write`] where a write or the flush failed.
pub fn merge<H, R, W>(
    rt: &H,
    alloc: Global,
    readers: Vec<R>,
    choice: &Choice,
    base: Base,
    capacity: u32,
    output: &mut W,
) -> Result<Report, MergeFault>
where
    H: Threads + Wait + Copy + Send + 'static,
    R: Source + Send + Drop + 'static,
    W: Sink,
    requires some { 0 < length readers.items }
    requires capacity { (0 < capacity) × (capacity ≤ MAX_CAPACITY) }
    ensures ok { IfOk result (λ report. MergedAll (merging R.gives (IsChosen choice.now) base Interleaves
        readers.items) report.counts (W.taken output.old) (W.taken output.new)) }
    ensures flushed { OnOk result (W.is_flushed output.new) }
    ensures refused { IfErr result (λ e. IsRefusedThreaded R.gives (IsChosen choice.now) base
        readers.items e (W.taken output.old) (W.taken output.new)) }

    // Where it succeeds, and the bytes are known, what was written is the joined header and an
    // interleaving of the tiles' chosen, moved features, each tile in its own order.
    ensures interleaved { OnOk result (WroteInterleaved R.gives (IsChosen choice.now) base
        readers.items (W.taken output.old) (W.taken output.new)) }

    // The fault of a tile that stopped is answered once what was written was passed on.
    ensures passed_on { IfErr result (λ e. HasNoThread R.gives base readers.items e
        ⊎ IsRefusedEarly R.gives base readers.items e ⊎ IsOutputFault e
        ⊎ W.is_flushed output.new) }

    ensures too_many { 64 < length readers.items → result ≡ Err (record {
      tile = 0;
      line = 0;
      fault = Fault.TooManyTiles;
    }) }
    ensures failures { W.failures output.new ≡ failures_after_merge result (W.failures output.old) }
{
    let JoinedTiles {
        tiles,
        line,
        shifts,
        ends,
    } = join_tiles(alloc, readers, base)?;
    let filled = Bell::new(alloc)?;
    let mut running = start_all(rt, alloc, tiles, shifts.items(), choice, capacity, &filled)?;
    let wrote = write_stream(rt, &filled, &mut running, line, output);
    let ends = ends.gather(&running);
    join_all(rt, running);
    wrote?;
    ends.report()
}

/// Starts a thread for each tile. Where one cannot be started, those that run are stopped.
fn start_all<H, R>(
    rt: &H,
    alloc: Global,
    tiles: Vec<OpenTile<R>>,
    shifts: &[Shift],
    choice: &Choice,
    capacity: u32,
    filled: &Bell,
) -> Result<Vec<RunningTile<R>>, MergeFault>
where
    H: Threads + Wait + Copy + Send + 'static,
    R: Source + Send + Drop + 'static,
    requires few { length tiles.items ≤ 64 }
    requires shifts { length shifts.now ≡ length tiles.items }
    requires most { All (λ tile. most_to_come tile.unread ≤ most_texts) tiles.items }
    requires capacity { (0 < capacity) × (capacity ≤ MAX_CAPACITY) }
    ensures ok { IfOk result (λ running.
        AllThree (IsRunOf R.gives choice.now) tiles.items shifts.now running.items) }
    ensures long { IfOk result (λ running. length running.items ≡ length tiles.items) }
    ensures refused { IfErr result (IsUnstarted (length tiles.items)) }
{
    let mut running = Vec::with_capacity(alloc, tiles.len())?;
    for tile in tiles {
        let shift = shifts[running.len()];
        match start_tile(rt, alloc, tile, shift, choice, capacity, filled) {
            Ok(started) => running.push_reserved(started),
            Err(fault) => {
                let refusal = refusal_at_start(fault, running.len() as u32 + 1);
                stop_all(rt, running, filled);
                return Err(refusal);
            }
        }
    }
    Ok(running)
}

/// Takes the texts of a tile's first line, and starts the thread of the tile, with a choice of its own.
fn start_tile<H, R>(
    rt: &H,
    alloc: Global,
    tile: OpenTile<R>,
    shift: Shift,
    choice: &Choice,
    capacity: u32,
    filled: &Bell,
) -> Result<RunningTile<R>, Fault>
where
    H: Threads + Wait + Copy + Send + 'static,
    R: Source + Send + Drop + 'static,
    requires most { most_to_come tile.unread ≤ most_texts }
    requires capacity { (0 < capacity) × (capacity ≤ MAX_CAPACITY) }
    ensures ok { IfOk result (IsRunOf R.gives choice.now tile shift) }
    ensures refused { IfErr result (λ fault.
        (fault ≡ Fault.Memory) ⊎ (fault ≡ Fault.NoThread)) }
{
    let OpenTile { mut reader, .. } = tile;
    let choice = choice.copy(alloc)?;
    let (first, stop) = match reader.take_held(alloc, shift, &choice) {
        Ok(first) => (first, None),
        Err(at) => (ReadyTexts::none(alloc), Some(at)),
    };
    let fed = FedTile {
        reader,
        shift,
        choice,
        begun: TileEnd::new(first.len() as u64, stop),
    };
    start(rt, alloc, fed, first, capacity, filled)
}

/// Where a refusal to start belongs: that of a thread to the tile, and that of memory to none.
fn refusal_at_start(fault: Fault, tile: u32) -> MergeFault
    ensures thread { fault ≡ Fault.NoThread
        → result ≡ record { tile = tile; line = 0; fault = Fault.NoThread } }
    ensures memory { fault ≡ Fault.Memory
        → result ≡ record { tile = 0; line = 0; fault = Fault.Memory } }
{
    match fault {
        Fault::NoThread => MergeFault {
            tile,
            line: 0,
            fault,
        },
        _ => MergeFault::of_no_line(fault),
    }
}

/// Takes what is left of the tiles, and joins their threads.
fn stop_all<H: Threads + Wait, R: Source + Drop>(
    rt: &H,
    tiles: Vec<RunningTile<R>>,
    filled: &Bell,
) {
    for tile in tiles {
        tile.stop(rt, filled);
    }
}

/// Joins the threads of all tiles, and confirms what was taken of each.
fn join_all<H: Threads, R: Source + Drop>(rt: &H, tiles: Vec<RunningTile<R>>)
    requires { are_all_ended tiles.items ≡ true }
    ensures { (courses : List Course) × HaveGiven R.gives tiles.items courses }
{
    for tile in tiles {
        tile.finish(rt);
    }
}
