//! The next line of a tile, passed on to an output.
ghost use Rattle.std.specs.Prelude.{◌≡◌, ◌≤◌, ◌<◌, false, [], None, option_map, IfOk, IfErr, IfSome, IfNone, OnOk, OnErr};
ghost use Rattle.byte_streams.specs.Failures.{after_call};
ghost use Rattle.city_feature.specs.Choice.{IsChosen};
ghost use Rattle.city_json.specs.TextPlace.{placed_text};
ghost use Rattle.tile_stream.specs.Coming.{LinesMayComeTo, SomethingComes};
ghost use Rattle.tile_stream.specs.Filtered.{failed_reads_after_filter, failures_after_filter};
ghost use Rattle.tile_stream.specs.Progress.{HasBegun, HasWritten, IsRefusedAfter, SoFar};
ghost use Rattle.tile_stream.specs.Unread.{has_failed, most_left};

use crate::tile_reader::TileReader;
use crate::writing::write_text;
use byte_streams::{Fault, Line, MergeFault, Sink, Source};
use city_feature::{Choice, feature_text};
use city_grid::Shift;
use city_json::TextPlace;
use std::alloc::Global;

/// Writes the text that a line came to, if it did, with its newline, and says how many texts that are.
///
/// # Errors
///
/// [`Fault::Write`] where a write failed; some first bytes of the line were written then.
fn write_given<W: Sink>(
    given: Option<TextPlace>,
    line: &[u8],
    buffer: &Line,
    output: &mut W,
) -> Result<u64, Fault>
    ensures all { IfOk result (λ count. HasWritten
        (option_map (λ place. placed_text place line.now buffer.now) given) count
        (W.taken output.old) (W.taken output.new)) }
    ensures some { OnErr result (HasBegun
        (option_map (λ place. placed_text place line.now buffer.now) given)
        (W.taken output.old) (W.taken output.new)) }
    ensures failures { W.failures output.new ≡ after_call result (W.failures output.old) }
{
    let Some(place) = given else {
        return Ok(0);
    };
    match write_text(output, place.bytes(line, buffer)) {
        Ok(()) => Ok(1),
        Err(fault) => Err(fault),
    }
}

/// Takes the next line of a tile, and writes the text of its feature, moved by the shift, where it is chosen when it is so
/// moved, from where it stands. Gives how many texts that are, none or one; none at all after the last line. `text` is a
/// buffer; what it held is lost.
///
/// # Errors
///
/// Of tile 1 that of the line, or [`Fault::Memory`] at the line that did not find room; of no tile and no line
/// [`Fault::Write`], where a write failed. Then nothing more is to be taken of the tile.
pub(crate) fn write_next<R: Source, W: Sink>(
    alloc: Global,
    tile: &mut TileReader<R>,
    shift: Shift,
    choice: &Choice,
    text: &mut Line,
    output: &mut W,
) -> Result<Option<u64>, MergeFault>
    requires not_failed { has_failed tile.old.lines ≡ false }
    ensures step { IfOk result (λ next. IfSome next (λ count. SoFar
        (LinesMayComeTo R.gives (IsChosen choice.now) shift tile.old.lines)
        (LinesMayComeTo R.gives (IsChosen choice.now) shift tile.new.lines) count
        (W.taken output.old) (W.taken output.new))) }
    ensures over { IfOk result (λ next. IfNone next
        (LinesMayComeTo R.gives (IsChosen choice.now) shift tile.old.lines [] None
        × (W.taken output.new ≡ W.taken output.old))) }
    ensures refused { IfErr result (λ e. IsRefusedAfter
        (LinesMayComeTo R.gives (IsChosen choice.now) shift tile.old.lines) e.fault e.tile e.line
        (W.taken output.old) (W.taken output.new)) }
    ensures some { SomethingComes
        (LinesMayComeTo R.gives (IsChosen choice.now) shift tile.new.lines) }
    ensures one { IfOk result (λ next. IfSome next (λ count. count ≤ 1)) }
    ensures fewer { IfOk result (λ next. IfSome next (λ count.
        most_left tile.new.lines < most_left tile.old.lines)) }
    ensures not_failed { OnOk result (has_failed tile.new.lines ≡ false) }
    ensures failures { W.failures output.new
        ≡ failures_after_filter result (W.failures output.old) }
    ensures reads { R.failures tile.new.lines.ahead.reader
        ≡ failed_reads_after_filter result (R.failures tile.old.lines.ahead.reader) }
{
    let count = match tile.lines.next_len() {
        Ok(Some(count)) => count,
        Ok(None) => return Ok(None),
        Err(at) => return Err(MergeFault::of_line(at.line, at.fault)),
    };
    let line = tile.lines.front(count);
    let given = match feature_text(alloc, line, shift, choice, &mut tile.workspace, text) {
        Ok(given) => given,
        Err(fault) => {
            let number = tile.lines.leave_line(count);
            return Err(MergeFault::of_line(number, fault));
        }
    };
    let written = write_given(given, line, text, output);
    tile.lines.leave_line(count);
    tile.workspace.trim();
    text.trim();
    match written {
        Ok(texts) => return Ok(Some(texts)),
        Err(_) => return Err(MergeFault::of_no_line(Fault::Write)),
    }
}
