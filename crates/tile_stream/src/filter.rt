//! The filter of one tile: the stream of its chosen features.
ghost use Rattle.std.specs.Prelude.{◌≡◌, ◌≢◌, ◌⊎◌, ◌≤◌, ◌<◌, ◌+◌, ◌++◌, ℕ, List, [], length, take, false, Some, None, IfOk, IfErr, OnOk, OnErr};
ghost use Rattle.std.specs.Io.KnownBytes.{Appends, Keeps};
ghost use Rattle.city_json.specs.Compact.{compact};
ghost use Rattle.byte_streams.specs.Failures.{after_call};
ghost use Rattle.city_feature.specs.Choice.{IsChosen};
ghost use Rattle.city_feature.specs.Header.{HeaderValue};
ghost use Rattle.city_feature.specs.Values.{header_value};
ghost use Rattle.tile_stream.specs.Coming.{LinesMayComeTo, MayComeTo, MayLeave};
ghost use Rattle.tile_stream.specs.Filtered.{WroteStream, IsRefusedFilter, CountsReads, PassedOn, ToldAfter, failures_after_filter, failed_reads_after_filter};
ghost use Rattle.city_feature.specs.LineTexts.{no_steps};
ghost use Rattle.tile_stream.specs.Head.{HasNoHead, SomeTile, GivesHeld};
ghost use Rattle.tile_stream.specs.Progress.{SoFar, WroteTexts, IsRefusedAfter};
ghost use Rattle.tile_stream.specs.Stream.{with_newline};
ghost use Rattle.tile_stream.specs.Tile.{TileLines, stream_limits};
ghost use Rattle.tile_stream.specs.TileState.{most_to_come, most_texts};
ghost use Rattle.tile_stream.specs.Unread.{IsOfTile, Leaves, most_left, has_failed, is_read, failed_reads_between};
ghost use Rattle.tile_stream.specs.Whole.{HoldsLine};

use crate::tile_reader::writing::write_next;
use crate::tile_reader::{Head, TileReader};
use crate::writing::write_line;
use byte_streams::{Fault, Line, LineFault, MergeFault, Sink, Source};
use city_feature::Choice;
use city_grid::Shift;
use city_json::print;
use std::alloc::Global;

/// Writes the stream of the features of a tile that are chosen, each as it stands, with the tile's
/// own header, and answers how many features were written. The lines are taken while they are read.
///
/// # Errors
///
/// Of tile 1: [`Fault::NoHeader`] at line 0 where all lines are blank; else that of the first line
/// at fault, or [`Fault::Memory`] at the line that did not find room. A fault of the header's line
/// leaves nothing written, but [`Fault::Memory`], which may come once its text is; one of a later
/// line leaves the stream of the features before it, and is told once that was passed on. Of no tile
/// and no line, before these: [`Fault::Write`] where a write or a flush failed.
pub fn filter_stream<R: Source + Drop, W: Sink>(
    alloc: Global,
    reader: R,
    choice: &Choice,
    output: &mut W,
) -> Result<u64, MergeFault>
    ensures ok { IfOk result (λ count. SomeTile (IsOfTile (R.gives reader) stream_limits) (λ tile.
        WroteStream tile (IsChosen choice.now) count (W.taken output.old) (W.taken output.new))) }
    ensures flushed { OnOk result (W.is_flushed output.new) }
    ensures refused { IfErr result (λ e. IsRefusedFilter (IsOfTile (R.gives reader) stream_limits)
        (IsChosen choice.now) e.fault e.tile e.line (W.taken output.old) (W.taken output.new)) }

    // The fault of a line after the header is answered once what was written was passed on.
    ensures passed_on { IfErr result (λ e. PassedOn (IsOfTile (R.gives reader) stream_limits)
        (W.is_flushed output.new) e (W.taken output.old) (W.taken output.new)) }

    ensures failures { W.failures output.new
        ≡ failures_after_filter result (W.failures output.old) }
{
    let mut tile = TileReader::new(alloc, reader);
    filter_tile(alloc, &mut tile, choice, output)
}

/// The same of a tile of which nothing was taken yet; whoever holds it can tell afterwards whether
/// a read failed.
///
/// # Errors
///
/// Those of [`filter_stream`].
pub fn filter_tile<R: Source, W: Sink>(
    alloc: Global,
    tile: &mut TileReader<R>,
    choice: &Choice,
    output: &mut W,
) -> Result<u64, MergeFault>
    ensures ok { IfOk result (λ count. SomeTile (Leaves R.gives tile.old.lines) (λ lines.
        WroteStream lines (IsChosen choice.now) count (W.taken output.old) (W.taken output.new))) }
    ensures flushed { OnOk result (W.is_flushed output.new) }
    ensures refused { IfErr result (λ e. IsRefusedFilter (Leaves R.gives tile.old.lines)
        (IsChosen choice.now) e.fault e.tile e.line (W.taken output.old) (W.taken output.new)) }
    ensures passed_on { IfErr result (λ e. PassedOn (Leaves R.gives tile.old.lines)
        (W.is_flushed output.new) e (W.taken output.old) (W.taken output.new)) }
    ensures failures { W.failures output.new
        ≡ failures_after_filter result (W.failures output.old) }
    ensures reads { has_failed tile.old.lines ≡ false → OnOk result
        (R.failures tile.new.lines.ahead.reader ≡ R.failures tile.old.lines.ahead.reader) }
    ensures failed_reads { has_failed tile.old.lines ≡ false → IfErr result (λ e. CountsReads e.fault
        (R.failures tile.old.lines.ahead.reader) (R.failures tile.new.lines.ahead.reader)) }
{
    let line = match take_header_line(alloc, tile) {
        Ok(line) => line,
        Err(at) => return Err(MergeFault::of_line(at.line, at.fault)),
    };
    let text = match write_on(tile, output, line) {
        Ok(text) => text,
        Err(_) => return Err(MergeFault::of_no_line(Fault::Write)),
    };
    let count = match write_features(alloc, tile, choice, text, output) {
        Ok(count) => count,
        Err(refusal) => return Err(told_after(refusal, output)),
    };
    match output.flush() {
        Ok(()) => Ok(count),
        Err(_) => Err(MergeFault::of_no_line(Fault::Write)),
    }
}

/// Passes on what was written before a refusal, unless a write failed, and gives what is told: that
/// it could not be passed on, or else the refusal.
fn told_after<W: Sink>(refusal: MergeFault, output: &mut W) -> MergeFault
    ensures bytes { Keeps (W.taken output.old) (W.taken output.new) }
    ensures told { ToldAfter refusal (W.is_flushed output.new) result
        (W.failures output.old) (W.failures output.new) }
{
    if refusal.fault == Fault::Write {
        return refusal;
    }
    match output.flush() {
        Ok(()) => refusal,
        Err(_) => MergeFault::of_no_line(Fault::Write),
    }
}

/// Takes the header of a tile, and gives its line in the stream.
fn take_header_line<R: Source>(alloc: Global, tile: &mut TileReader<R>) -> Result<Line, LineFault>
    ensures ok { IfOk result (λ line. (header : HeaderValue)
        × (line ≡ compact header.value)
        × GivesHeld (Leaves R.gives tile.old.lines) (Leaves R.gives tile.new.lines)
        header tile.new.held) }
    ensures later { OnOk result (tile.new.held.line < tile.new.lines.number) }
    ensures refused { IfErr result (λ e. SomeTile (Leaves R.gives tile.old.lines) (λ lines.
        HasNoHead lines (record { line = e.line; fault = e.fault }))) }
    ensures not_written { IfErr result (λ e. e.fault ≢ Fault.Write) }
    ensures some { (left : TileLines) × MayLeave R.gives tile.new.lines left }
    ensures most { OnOk result (most_to_come tile.new ≤ most_texts) }
    ensures had_not_failed { OnOk result (has_failed tile.old.lines ≡ false) }
    ensures not_failed { OnOk result (has_failed tile.new.lines ≡ false) }
    ensures failed { IfErr result (λ e. has_failed tile.new.lines ≡ is_read e.fault) }
    ensures failures { R.failures tile.new.lines.ahead.reader ≡ failed_reads_between
        (has_failed tile.old.lines) (has_failed tile.new.lines) (R.failures tile.old.lines.ahead.reader) }
{
    let head = match tile.take_head(alloc) {
        Ok(head) => head,
        Err(at) => return Err(at),
    };
    header_line(alloc, &head)
}

/// The line of a header: its compact text.
fn header_line(alloc: Global, head: &Head) -> Result<Line, LineFault>
    ensures ok { IfOk result (λ line. line ≡ compact (header_value head.now.header).value) }
    ensures err { IfErr result (λ e. e ≡ record { line = head.now.line; fault = Fault.Memory }) }
{
    let mut text = Line::new(alloc);
    match print(head.header.json(), &mut text) {
        Ok(()) => Ok(text),
        Err(_) => Err(LineFault {
            line: head.line,
            fault: Fault::Memory,
        }),
    }
}

/// Writes the lines of those chosen features that the header's line holds, and says how many there are. What all of them
/// end in is held once.
fn write_held<R: Source, W: Sink>(
    alloc: Global,
    tile: &mut TileReader<R>,
    choice: &Choice,
    output: &mut W,
) -> Result<u64, MergeFault>
    requires not_failed { has_failed tile.old.lines ≡ false }
    ensures ok { IfOk result (λ count. SoFar
        (MayComeTo R.gives (IsChosen choice.now) no_steps tile.old)
        (LinesMayComeTo R.gives (IsChosen choice.now) no_steps tile.new.lines) count
        (W.taken output.old) (W.taken output.new)) }
    ensures fewer { IfOk result (λ count.
        count + most_left tile.new.lines ≤ most_to_come tile.old) }
    ensures refused { IfErr result (λ e. IsRefusedAfter
        (MayComeTo R.gives (IsChosen choice.now) no_steps tile.old) e.fault e.tile e.line
        (W.taken output.old) (W.taken output.new)) }
    ensures kind { IfErr result (λ e. is_read e.fault ≡ false) }
    ensures failures { W.failures output.new
        ≡ failures_after_filter result (W.failures output.old) }
    ensures lines { tile.new.lines ≡ tile.old.lines }
{
    let mut texts = match tile.take_held(alloc, Shift::zero(), choice) {
        Ok(texts) => texts,
        Err(at) => return Err(MergeFault::of_line(at.line, at.fault)),
    };
    match texts.write(output) {
        Ok(()) => {}
        Err(_) => return Err(MergeFault::of_no_line(Fault::Write)),
    }
    match pass_on(tile, output) {
        Ok(()) => Ok(texts.len() as u64),
        Err(_) => Err(MergeFault::of_no_line(Fault::Write)),
    }
}

/// Writes the lines of a tile's chosen features, and says how many there are. `text` is a buffer
/// to reuse.
fn write_features<R: Source, W: Sink>(
    alloc: Global,
    tile: &mut TileReader<R>,
    choice: &Choice,
    mut text: Line,
    output: &mut W,
) -> Result<u64, MergeFault>
    requires most { most_to_come tile.old ≤ most_texts }
    requires had_not_failed { has_failed tile.old.lines ≡ false }
    ensures ok { IfOk result (λ count. WroteTexts
        (MayComeTo R.gives (IsChosen choice.now) no_steps tile.old) count
        (W.taken output.old) (W.taken output.new)) }
    ensures refused { IfErr result (λ e. IsRefusedAfter
        (MayComeTo R.gives (IsChosen choice.now) no_steps tile.old) e.fault e.tile e.line
        (W.taken output.old) (W.taken output.new)) }
    ensures failures { W.failures output.new
        ≡ failures_after_filter result (W.failures output.old) }
    ensures reads { R.failures tile.new.lines.ahead.reader
        ≡ failed_reads_after_filter result (R.failures tile.old.lines.ahead.reader) }
{
    let mut count = write_held(alloc, tile, choice, output)?;
    'features: loop {
        let texts = match write_next(alloc, tile, Shift::zero(), choice, &mut text, output) {
            Ok(Some(texts)) => texts,
            Ok(None) => return Ok(count),
            Err(refusal) => return Err(refusal),
        };
        match pass_on(tile, output) {
            Ok(()) => {}
            Err(_) => return Err(MergeFault::of_no_line(Fault::Write)),
        }
        count += texts;
    }
}

/// Writes a line and its newline, and passes on what was written where the tile's next line has to be
/// read first. Gives the line back empty, for its memory.
///
/// # Errors
///
/// [`Fault::Write`] where a write or the flush failed; some first bytes of the line were written
/// then, or all.
fn write_on<R: Source, W: Sink>(
    tile: &TileReader<R>,
    output: &mut W,
    line: Line,
) -> Result<Line, Fault>
    ensures all { IfOk result (λ text. (text ≡ [])
        × Appends (W.taken output.old) (W.taken output.new) (with_newline line)) }
    ensures some { OnErr result ((count : ℕ)
        × Appends (W.taken output.old) (W.taken output.new) (take count (with_newline line))) }
    ensures failures { W.failures output.new ≡ after_call result (W.failures output.old) }
    ensures fault { IfErr result (λ fault. fault ≡ Fault.Write) }
{
    let text = match write_line(output, line) {
        Ok(text) => text,
        Err(fault) => return Err(fault),
    };
    match pass_on(tile, output) {
        Ok(()) => Ok(text),
        Err(fault) => Err(fault),
    }
}

/// Passes on what was written where the tile's next line that is not blank has to be read first, which may take long.
///
/// # Errors
///
/// [`Fault::Write`] where the flush failed.
pub fn pass_on<R: Source, W: Sink>(tile: &TileReader<R>, output: &mut W) -> Result<(), Fault>
    ensures passed { OnOk result (HoldsLine tile.now.lines.ahead.held ⊎ W.is_flushed output.new) }
    ensures bytes { Keeps (W.taken output.old) (W.taken output.new) }
    ensures failures { W.failures output.new ≡ after_call result (W.failures output.old) }
    ensures fault { IfErr result (λ fault. fault ≡ Fault.Write) }
{
    if tile.holds_line() {
        return Ok(());
    }
    output.flush()
}
