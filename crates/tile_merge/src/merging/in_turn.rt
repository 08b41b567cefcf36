//! The merge in which the tiles take turns, in one thread.
ghost use Rattle.std.specs.Prelude.{◌≡◌, ◌⊎◌, ◌≤◌, ◌<◌, ◌+◌, All, Err, [], length, IfOk, IfErr, OnOk, OnErr};
ghost use Rattle.byte_streams.specs.Failures.{after_call};
ghost use Rattle.city_feature.specs.Choice.{IsChosen};
ghost use Rattle.tile_stream.specs.Filtered.{failures_after_merge};
ghost use Rattle.tile_stream.specs.Stream.{with_newline};
ghost use Rattle.tile_merge.specs.Giving.{merging};
ghost use Rattle.tile_merge.specs.Interleaves.{Interleaves};
ghost use Rattle.tile_merge.specs.Merged.{MergedAll, IsOutputFault, IsRefusedEarly, IsRefusedMerge};
ghost use Rattle.tile_merge.specs.Opened.{AllThree};
ghost use Rattle.tile_merge.specs.Turns.{AreTurns};
ghost use Rattle.tile_stream.specs.TileState.{most_to_come, most_texts};
ghost use Rattle.tile_merge.specs.Rounds.{IsFeedOf, MayTakeAll, SomeCourses, WroteRound, WroteTurns, WroteTurnsFront};

use crate::merging::feed::Feed;
use crate::merging::report::Report;
use crate::merging::tiles::{JoinedTiles, OpenTile, join_tiles};
use byte_streams::{Fault, Line, MergeFault, Sink, Source};
use city_feature::{Base, Choice};
use city_grid::Shift;
use std::alloc::Global;
use tile_handoff::{MAX_CAPACITY, Queues};
use tile_stream::write_line;

/// Merges the tiles that the readers give, in turn: the joined header, then the first feature that
/// is chosen of each tile that has one, in the tiles' order, then the second ones, and so on. Each
/// is moved by its tile's shift and then chosen. Of a tile up to `capacity` texts are held, beside
/// those of a first line that is a document. The report has how many features were written of each
/// tile.
///
/// # Errors
///
/// Before a byte is written: [`Fault::TooManyTiles`], of no tile, above 64 readers; else that of the
/// first tile that has no header; else that of joining, at the line of the tile's header; of no tile
/// [`Fault::Memory`] may come in place of these. A faulty line ends its tile there, and the others
/// are written whole: then that of the lowest tile that ran out of memory, or else of the lowest
/// that is faulty. Of no tile [`Fault::Write`] where a write or the flush failed.
pub fn merge_in_turn<R: Source + Drop, W: Sink>(
    alloc: Global,
    readers: Vec<R>,
    choice: &Choice,
    base: Base,
    capacity: u32,
    output: &mut W,
) -> Result<Report, MergeFault>
    requires some { 0 < length readers.items }
    requires capacity { (0 < capacity) × (capacity ≤ MAX_CAPACITY) }
    ensures ok { IfOk result (λ report. MergedAll (merging R.gives (IsChosen choice.now) base AreTurns
        readers.items) report.counts (W.taken output.old) (W.taken output.new)) }
    ensures flushed { OnOk result (W.is_flushed output.new) }
    ensures refused { IfErr result (λ e. IsRefusedMerge (merging R.gives (IsChosen choice.now) base AreTurns
        readers.items) e (W.taken output.old) (W.taken output.new)) }

    // Where it succeeds, the stream is the joined header and an interleaving of the tiles' chosen,
    // moved features, each tile in its own order.
    ensures interleaved { IfOk result (λ report. MergedAll (merging R.gives (IsChosen choice.now) base
        Interleaves readers.items) report.counts (W.taken output.old) (W.taken output.new)) }

    // The fault of a tile that stopped is answered once what was written was passed on.
    ensures passed_on { IfErr result (λ e. IsRefusedEarly R.gives base readers.items e
        ⊎ IsOutputFault e ⊎ W.is_flushed output.new) }

    ensures too_many { 64 < length readers.items → result ≡ Err (record {
      tile = 0;
      line = 0;
      fault = Fault.TooManyTiles;
    }) }
    ensures failures { W.failures output.new ≡ failures_after_merge result (W.failures output.old) }
{
    let JoinedTiles {
        tiles,
        line,
        shifts,
        ends,
    } = join_tiles(alloc, readers, base)?;
    let mut feeds = feeds_of(alloc, tiles, shifts.items(), choice, capacity)?;
    write_stream(alloc, &mut feeds, line, choice, output)?;
    ends.gather(&feeds).report()
}

/// The tiles, each with its shift, the texts of its first line and a queue.
fn feeds_of<R: Source + Drop>(
    alloc: Global,
    tiles: Vec<OpenTile<R>>,
    shifts: &[Shift],
    choice: &Choice,
    capacity: u32,
) -> Result<Vec<Feed<R>>, Fault>
    requires few { length tiles.items ≤ 64 }
    requires shifts { length shifts.now ≡ length tiles.items }
    requires most { All (λ tile. most_to_come tile.unread ≤ most_texts) tiles.items }
    requires capacity { (0 < capacity) × (capacity ≤ MAX_CAPACITY) }
    ensures ok { IfOk result (λ feeds.
        AllThree (IsFeedOf R.gives (IsChosen choice.now)) tiles.items shifts.now feeds.items) }
    ensures long { IfOk result (λ feeds. length feeds.items ≡ length tiles.items) }
    ensures memory { IfErr result (λ fault. fault ≡ Fault.Memory) }
{
    let mut feeds = Vec::with_capacity(alloc, tiles.len())?;
    for tile in tiles {
        let shift = shifts[feeds.len()];
        let notes = Queues::new(alloc, 1, capacity)?;
        feeds.push(Feed::new(alloc, tile, shift, choice, notes))?;
    }
    Ok(feeds)
}

/// Writes the line of the header, and then the texts of the tiles in turn, to the end of each, and
/// passes them on.
///
/// # Errors
///
/// [`Fault::Write`] where a write or the flush failed.
fn write_stream<R: Source, W: Sink>(
    alloc: Global,
    feeds: &mut [Feed<R>],
    header: Line,
    choice: &Choice,
    output: &mut W,
) -> Result<(), Fault>
    requires { SomeCourses (MayTakeAll R.gives (IsChosen choice.now) feeds.old) }
    ensures ok { OnOk result (WroteTurns R.gives (IsChosen choice.now) (with_newline header)
        feeds.old feeds.new (W.taken output.old) (W.taken output.new)) }
    ensures failed { OnErr result (WroteTurnsFront R.gives (IsChosen choice.now)
        (with_newline header) feeds.old (W.taken output.old) (W.taken output.new)) }
    ensures flushed { OnOk result (W.is_flushed output.new) }
    ensures fault { IfErr result (λ fault. fault ≡ Fault.Write) }
    ensures failures { W.failures output.new ≡ after_call result (W.failures output.old) }
{
    write_line(output, header)?;
    write_turns(alloc, feeds, choice, output)?;
    output.flush()
}

/// Writes the texts of the tiles in turn, to the end of each.
fn write_turns<R: Source, W: Sink>(
    alloc: Global,
    feeds: &mut [Feed<R>],
    choice: &Choice,
    output: &mut W,
) -> Result<(), Fault>
    requires { SomeCourses (MayTakeAll R.gives (IsChosen choice.now) feeds.old) }
    ensures ok { OnOk result (WroteTurns R.gives (IsChosen choice.now) [] feeds.old feeds.new
        (W.taken output.old) (W.taken output.new)) }
    ensures failed { OnErr result (WroteTurnsFront R.gives (IsChosen choice.now) [] feeds.old
        (W.taken output.old) (W.taken output.new)) }
    ensures fault { IfErr result (λ fault. fault ≡ Fault.Write) }
    ensures failures { W.failures output.new ≡ after_call result (W.failures output.old) }
{
    'rounds: loop {
        match write_round(alloc, feeds, choice, output) {
            Ok(true) => {}
            Ok(false) => return Ok(()),
            Err(fault) => return Err(fault),
        }
    }
}

/// Writes the next text of each tile that has one, and says whether one had. What was written is
/// passed on where a tile has to be waited for.
fn write_round<R: Source, W: Sink>(
    alloc: Global,
    feeds: &mut [Feed<R>],
    choice: &Choice,
    output: &mut W,
) -> Result<bool, Fault>
    requires { SomeCourses (MayTakeAll R.gives (IsChosen choice.now) feeds.old) }
    ensures ok { IfOk result (λ any. WroteRound R.gives (IsChosen choice.now) feeds.old feeds.new
        any (W.taken output.old) (W.taken output.new)) }
    ensures failed { OnErr result (WroteTurnsFront R.gives (IsChosen choice.now) [] feeds.old
        (W.taken output.old) (W.taken output.new)) }
    ensures fault { IfErr result (λ fault. fault ≡ Fault.Write) }
    ensures failures { W.failures output.new ≡ after_call result (W.failures output.old) }
{
    let mut any = false;
    'tiles: for feed in feeds.iter_mut() {
        let wrote = match feed.write_next(alloc, choice, output) {
            Ok(wrote) => wrote,
            Err(fault) => return Err(fault),
        };
        any |= wrote;
    }
    Ok(any)
}
