//! The lines that come from the threads, written as they come.
ghost use Rattle.std.specs.Prelude.{◌≡◌, ◌≤◌, ◌<◌, ◌++◌, ◌∷◌, ℕ, List, Option, Some, None, true, [], IfOk, IfErr, OnOk, IsOk, IsTrue, filter_map};
ghost use Rattle.byte_streams.specs.Failures.{Wrote, after_call};
ghost use Rattle.tile_stream.specs.Stream.{stream};
ghost use Rattle.tile_merge.specs.Threads.{AreFresh, are_all_ended, GoesOnCancelling, GoesOnWriting, LinesSoFar, TextsGoOn, begun_of, first_texts};

use crate::merging::ends::Ending;
use crate::merging::threaded::running::RunningTile;
use crate::merging::threaded::waiting::{Bell, Patience};
use byte_streams::{Fault, Line, Sink, Source};
use crossbeam_utils::sync::Key;
use std::sync::Wait;
use tile_stream::write_line;

/// Writes the line of the header and those of the tiles' first lines, and then the lines of the tiles as they come, until
/// the end note of each was taken. A write that fails ends the writing, and not the taking: the threads are asked to
/// stop, and what they have put is taken. Where nothing comes for a while, what was written is passed
/// on, and the caller sleeps until the bell `filled` is rung.
///
/// # Errors
///
/// [`Fault::Write`] where a write or the flush failed.
pub(super) fn write_stream<H: Wait, R: Source + Drop, W: Sink>(
    rt: &H,
    filled: &Bell,
    tiles: &mut [RunningTile<R>],
    header: Line,
    output: &mut W,
) -> Result<(), Fault>
    requires fresh { AreFresh tiles.old }
    ensures ended { are_all_ended tiles.new ≡ true }
    ensures written { LinesSoFar (begun_of tiles.old) header tiles.new result
        (W.taken output.old) (W.taken output.new) (W.failures output.old) (W.failures output.new) }
    ensures flushed { OnOk result (W.is_flushed output.new) }
{
    let mut patience = Patience::new();
    let mut wrote = write_first(header, tiles, output);
    'rounds: for _ in rt.forever() {
        if are_ended(tiles) {
            break;
        }
        wrote = flush_if(output, patience.is_over(), wrote);
        let sleep = filled.listen(patience.is_over());
        wrote = write_round(tiles, output, wrote, &mut patience);
        cancel_if_failed(tiles, wrote);
        match sleep {
            Some(key) => wait_unless(rt, key, !patience.is_over() || are_ended(tiles)),
            None => patience.pause(),
        }
    }
    wrote?;
    output.flush()
}

/// Writes the line of the header, and then the texts of the first line of each tile.
///
/// # Errors
///
/// [`Fault::Write`] where a write failed; some first bytes were written then.
fn write_first<R: Source + Drop, W: Sink>(
    header: Line,
    tiles: &mut [RunningTile<R>],
    output: &mut W,
) -> Result<(), Fault>
    ensures written { Wrote result (W.taken output.old) (W.taken output.new) (stream header (first_texts tiles.old)) }
    ensures failures { W.failures output.new ≡ after_call result (W.failures output.old) }
    ensures fault { IfErr result (λ fault. fault ≡ Fault.Write) }
    ensures same { tiles.new ≡ tiles.old }
{
    write_line(output, header)?;
    'tiles: for at in 0..tiles.len() {
        tiles[at].write_first(output)?;
    }
    Ok(())
}

/// Takes a note of each tile whose end note was not taken yet, and writes it where it is a line.
fn write_round<R: Source + Drop, W: Sink>(
    tiles: &mut [RunningTile<R>],
    output: &mut W,
    wrote: Result<(), Fault>,
    patience: &mut Patience,
) -> Result<(), Fault>
    ensures { GoesOnWriting tiles.old tiles.new wrote result
        (W.taken output.old) (W.taken output.new) (W.failures output.old) (W.failures output.new) }
{
    let mut wrote = wrote;
    'tiles: for tile in tiles.iter_mut() {
        wrote = write_note(tile, output, wrote, patience);
    }
    wrote
}

/// Takes a note of the tile, unless its end note was taken, and writes it where it is a line.
fn write_note<R: Source + Drop, W: Sink>(
    tile: &mut RunningTile<R>,
    output: &mut W,
    wrote: Result<(), Fault>,
    patience: &mut Patience,
) -> Result<(), Fault>
    ensures begun { tile.new.begun ≡ tile.old.begun }
    ensures cancels { tile.new.cancels ≡ tile.old.cancels }
    ensures written { TextsGoOn tile.old.lines tile.new.lines wrote result
        (W.taken output.old) (W.taken output.new) (W.failures output.old) (W.failures output.new) }
    ensures after { OnOk result (IsOk wrote) }
{
    let Some(line) = tile.take() else {
        return wrote;
    };
    patience.renew();
    write_unless_failed(output, line, wrote)
}

/// Asks the threads to stop, where a write failed.
fn cancel_if_failed<R: Source + Drop>(tiles: &mut [RunningTile<R>], wrote: Result<(), Fault>)
    ensures { GoesOnCancelling tiles.old tiles.new wrote }
{
    if wrote.is_ok() {
        return;
    }
    'tiles: for tile in tiles.iter_mut() {
        tile.cancel();
    }
}

/// Whether the end note of each tile was taken.
fn are_ended<R: Source + Drop>(tiles: &[RunningTile<R>]) -> bool
    ensures { result ≡ are_all_ended tiles.now }
{
    tiles.iter().all(|tile| tile.last().is_some())
}

/// Sleeps, unless there is something to do.
fn wait_unless<H: Wait>(rt: &H, key: Key<'_>, is_busy: bool) {
    if is_busy {
        return;
    }
    key.wait(rt);
}

/// Passes on what was written, where that is asked for and nothing failed before.
fn flush_if<W: Sink>(output: &mut W, is_asked: bool, wrote: Result<(), Fault>) -> Result<(), Fault>
    ensures written { (bytes : List ℕ) (old : Option (List ℕ))
        → Wrote wrote old (W.taken output.old) bytes
        → Wrote result old (W.taken output.new) bytes }
    ensures failures { (count : ℕ) → W.failures output.old ≡ after_call wrote count
        → W.failures output.new ≡ after_call result count }
    ensures fault { IfErr wrote (λ fault. fault ≡ Fault.Write)
        → IfErr result (λ fault. fault ≡ Fault.Write) }
    ensures after { OnOk result (IsOk wrote) }
{
    if !is_asked {
        return wrote;
    }
    wrote?;
    output.flush()
}

/// Writes a line, where nothing failed before.
fn write_unless_failed<W: Sink>(
    output: &mut W,
    line: Line,
    wrote: Result<(), Fault>,
) -> Result<(), Fault>
    ensures written { (before now : List (List ℕ)) → now ≡ before ++ line ∷ []
        → TextsGoOn before now wrote result
        (W.taken output.old) (W.taken output.new) (W.failures output.old) (W.failures output.new) }
    ensures after { OnOk result (IsOk wrote) }
{
    wrote?;
    write_line(output, line)?;
    Ok(())
}
