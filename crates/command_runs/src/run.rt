//! Runs of `filter` and of `merge`, and their status.
ghost use Rattle.std.specs.Prelude.{◌≡◌, ◌⊎◌, ◌<◌, ℕ, List, false, length, IfOk, IfErr, OnOk};
ghost use Rattle.city_feature.specs.Choice.{IsChosen};
ghost use Rattle.command_runs.specs.FaultLine.{fault_line};
ghost use Rattle.command_runs.specs.Merging.{base_of, mixes_of, IsRefusedAsked, PassedOnAsked};
ghost use Rattle.command_runs.specs.Passing.{WroteOrFailed};
ghost use Rattle.tile_stream.specs.Filtered.{WroteStream, IsRefusedFilter, CountsReads, PassedOn, failures_after_merge, failures_after_refusal, failures_after_write};
ghost use Rattle.tile_stream.specs.Head.{SomeTile};
ghost use Rattle.tile_merge.specs.Giving.{merging};
ghost use Rattle.tile_merge.specs.Interleaves.{Interleaves};
ghost use Rattle.tile_merge.specs.Merged.{MergedAll};
ghost use Rattle.tile_stream.specs.Unread.{Leaves, has_failed};
ghost use Rattle.byte_streams.specs.declared.places.MergeFault.{MergeFault};

use crate::report::report_fault;
use byte_streams::{MergeFault, Sink, Source};
use city_feature::{Base, Choice};
use command_line::MergeArgs;
use std::alloc::Global;
use std::sync::Wait;
use std::thread::Threads;
use tile_merge::{Report, merge, merge_in_turn};
use tile_stream::{TileReader, filter_tile};

/// How many texts of a tile are held at most, where each tile has a thread.
const CAPACITY: u32 = 64;

/// The same where the tiles take turns: few, which stay in the processor's cache until they are
/// written. The stream is the same whatever their number.
const IN_TURN_CAPACITY: u32 = 4;

/// Writes the stream of the chosen features of a tile, of which nothing was taken yet, to `output`,
/// and answers the status to end with: 0, or 1 with a fault line on `errors`. What was written is
/// passed on either way; that it could not be is told before a fault of the tile.
pub fn run_filter<R: Source, W: Sink, E: Sink>(
    alloc: Global,
    tile: &mut TileReader<R>,
    choice: &Choice,
    output: &mut W,
    errors: &mut E,
) -> u8
    ensures status { (result ≡ 0) ⊎ (result ≡ 1) }
    ensures done { result ≡ 0 → SomeTile (Leaves R.gives tile.old.lines) (λ lines. (count : ℕ)
        × WroteStream lines (IsChosen choice.now) count (W.taken output.old) (W.taken output.new)) }
    ensures done_flushed { result ≡ 0 → W.is_flushed output.new }
    ensures done_failures { result ≡ 0 → W.failures output.new ≡ W.failures output.old }
    ensures done_reads { result ≡ 0 → has_failed tile.old.lines ≡ false
        → R.failures tile.new.lines.ahead.reader ≡ R.failures tile.old.lines.ahead.reader }
    ensures refused { result ≡ 1 → (e : MergeFault)
        × IsRefusedFilter (Leaves R.gives tile.old.lines) (IsChosen choice.now) e.fault e.tile e.line
        (W.taken output.old) (W.taken output.new)
        × PassedOn (Leaves R.gives tile.old.lines) (W.is_flushed output.new) e
        (W.taken output.old) (W.taken output.new)
        × (W.failures output.new ≡ failures_after_write e.fault (W.failures output.old))
        × (has_failed tile.old.lines ≡ false → CountsReads e.fault
        (R.failures tile.old.lines.ahead.reader) (R.failures tile.new.lines.ahead.reader))
        × WroteOrFailed (fault_line e) (E.taken errors.old) (E.taken errors.new)
        (E.failures errors.old) (E.failures errors.new) }
    ensures silent { result ≡ 0 → errors.new ≡ errors.old }
{
    match filter_tile(alloc, tile, choice, output) {
        Ok(_) => 0,
        Err(refusal) => report_fault(&refusal, errors),
    }
}

/// Merges the tiles that the readers give to `output` as the options say, and answers the status to
/// end with: 0, or 1 with a fault line on `errors`. What was written is passed on either way; that it
/// could not be is told before a fault of a tile. The tiles take turns with `--in-turn`; without it
/// each has a thread, and its features stand as they come.
pub fn run_merge<H, R, W, E>(
    rt: &H,
    alloc: Global,
    args: &MergeArgs,
    readers: Vec<R>,
    output: &mut W,
    errors: &mut E,
) -> u8
where
    H: Threads + Wait + Copy + Send + 'static,
    R: Source + Send + Drop + 'static,
    W: Sink,
    E: Sink,
    requires { 0 < length readers.items }
    ensures status { (result ≡ 0) ⊎ (result ≡ 1) }
    ensures done { result ≡ 0 → (counts : List ℕ)
        × MergedAll (merging R.gives (IsChosen args.now.choice) (base_of args.now.least)
        (mixes_of args.now.in_turn)
        readers.items) counts (W.taken output.old) (W.taken output.new) }

    // In turn or not, the stream is the joined header and an interleaving of the tiles' chosen, moved
    // features, each tile in its own order.
    ensures interleaved { result ≡ 0 → (counts : List ℕ)
        × MergedAll (merging R.gives (IsChosen args.now.choice) (base_of args.now.least) Interleaves
        readers.items) counts (W.taken output.old) (W.taken output.new) }

    ensures done_flushed { result ≡ 0 → W.is_flushed output.new }
    ensures done_failures { result ≡ 0 → W.failures output.new ≡ W.failures output.old }
    ensures refused { result ≡ 1 → (e : MergeFault)
        × IsRefusedAsked args.now.in_turn R.gives (IsChosen args.now.choice)
        (base_of args.now.least) readers.items e (W.taken output.old) (W.taken output.new)
        × PassedOnAsked args.now.in_turn R.gives (base_of args.now.least) readers.items
        (W.is_flushed output.new) e
        × (W.failures output.new ≡ failures_after_refusal e (W.failures output.old))
        × WroteOrFailed (fault_line e) (E.taken errors.old) (E.taken errors.new)
        (E.failures errors.old) (E.failures errors.new) }
    ensures silent { result ≡ 0 → errors.new ≡ errors.old }
{
    let Err(refusal) = merge_asked(rt, alloc, args, readers, output) else {
        return 0;
    };
    report_fault(&refusal, errors)
}

/// The merge that the options ask for.
fn merge_asked<H, R, W>(
    rt: &H,
    alloc: Global,
    args: &MergeArgs,
    readers: Vec<R>,
    output: &mut W,
) -> Result<Report, MergeFault>
where
    H: Threads + Wait + Copy + Send + 'static,
    R: Source + Send + Drop + 'static,
    W: Sink,
    requires { 0 < length readers.items }
    ensures ok { IfOk result (λ report. MergedAll (merging R.gives (IsChosen args.now.choice)
        (base_of args.now.least) (mixes_of args.now.in_turn)
        readers.items) report.counts (W.taken output.old) (W.taken output.new)) }
    ensures interleaved { IfOk result (λ report. MergedAll (merging R.gives (IsChosen args.now.choice)
        (base_of args.now.least) Interleaves
        readers.items) report.counts (W.taken output.old) (W.taken output.new)) }
    ensures flushed { OnOk result (W.is_flushed output.new) }
    ensures refused { IfErr result (λ e. IsRefusedAsked args.now.in_turn R.gives
        (IsChosen args.now.choice) (base_of args.now.least)
        readers.items e (W.taken output.old) (W.taken output.new)) }
    ensures passed_on { IfErr result (PassedOnAsked args.now.in_turn R.gives
        (base_of args.now.least) readers.items (W.is_flushed output.new)) }
    ensures failures { W.failures output.new ≡ failures_after_merge result (W.failures output.old) }
{
    let base = base_of(args.least);
    if args.in_turn {
        return merge_in_turn(alloc, readers, &args.choice, base, IN_TURN_CAPACITY, output);
    }
    merge(rt, alloc, readers, &args.choice, base, CAPACITY, output)
}

/// Whose translation the tiles share.
fn base_of(least: bool) -> Base
    ensures { result ≡ base_of least }
{
    if least { Base::Least } else { Base::First }
}
