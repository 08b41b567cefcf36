//! A tile that is being read: its head, and what each of its lines comes to.
ghost use Rattle.std.specs.Prelude.{◌≡◌, ◌≢◌, ◌≤◌, ◌<◌, ◌↔◌, ℕ, List, [], true, false, Some, None, IfOk, IfErr, IfSome, IfNone, IsTrue, OnOk, OnErr, ◌+◌, length};
ghost use Rattle.city_feature.specs.Choice.{IsChosen};
ghost use Rattle.city_feature.specs.FeatureLine.{GivesFeature, RefusesFeatureLine};
ghost use Rattle.city_feature.specs.Values.{header_value};
ghost use Rattle.tile_stream.specs.Coming.{LinesMayComeTo, MayComeTo, MayLeave, GivesText, GivesTexts, ComesBack, SomethingComes};
ghost use Rattle.tile_stream.specs.Head.{HasNoHead, SomeTile, GivesHeld, RanOutAt};
ghost use Rattle.tile_stream.specs.Tile.{TileLines, stream_limits};
ghost use Rattle.tile_stream.specs.TileState.{most_to_come, most_texts};
ghost use Rattle.tile_stream.specs.Unread.{Leaves, IsOfTile, most_left, has_failed, is_read, is_refused, failed_reads_between};
ghost use Rattle.tile_stream.specs.Whole.{HoldsLine};

mod head;
mod held;
mod ready;
pub(crate) mod writing;

use crate::lines::Lines;
pub use crate::tile_reader::head::Head;
use crate::tile_reader::head::{FirstLine, read_first_line};
use crate::tile_reader::held::{Held, texts_of};
pub use crate::tile_reader::ready::ReadyTexts;
use byte_streams::{Fault, Line, LineFault, Source};
use city_cut::FeatureTexts;
use city_feature::{Choice, feature_text};
use city_grid::Shift;
use city_json::Workspace;
use std::alloc::Global;
use std::marker::Model;
use std::mem;

/// A tile that is being read: first its header is taken; then, where its first line is a document, the
/// texts of the features that are cut from it, at once; then those of the lines after it, one by one.
#[derive(Debug)]
pub struct TileReader<R> {
    lines: Lines<R>,
    held: Held,
    // memory that goes round
    workspace: Workspace,
}

impl<R: Drop> Drop for TileReader<R> {
    fn drop(self) {
        let TileReader {
            lines: _lines,
            held: _held,
            workspace: _workspace,
        } = self;
    }
}

/// What the next line of a tile came to: the text of its feature, or, where that is not chosen,
/// nothing.
#[derive(Debug, Drop)]
pub struct Passed {
    pub is_chosen: bool,
    pub text: Line,
}

impl<R> Model for TileReader<R> {
    ghost use Rattle.std.specs.Coded.{codes};
    ghost use Rattle.city_families.specs.HeldTexts.{AreOwnParts, texts_in};
    ghost use Rattle.cut_on_text.specs.contracts.held.FeatureTexts as texts_type;
    ghost use Rattle.tile_stream.specs.TileState.{TileState};
    ghost use Rattle.tile_stream.specs.Unread.{EndsFrom};

    ghost Value = { TileState R };

    ghost coded = { Prim.hlevel (codes, texts_type.the_row.coded) };

    ghost view = { λ tile. record {
      held = record { line = tile.held.line; texts = texts_in tile.held.texts };
      lines = tile.lines;
    } };

    ghost invariant = { λ tile. EndsFrom tile.lines.number tile.lines.ended × AreOwnParts tile.held.texts };
}

impl<R: Source> TileReader<R> {
    /// The tile that the reader gives, of lines of at most 2^28 bytes and of at most 2^40 bytes.
    pub fn new(alloc: Global, reader: R) -> TileReader<R>
        ensures tile { (left : TileLines) → Leaves R.gives result.lines left
            ↔ IsOfTile (R.gives reader) stream_limits left }
        ensures not_failed { has_failed result.lines ≡ false }
        ensures failures { R.failures result.lines.ahead.reader ≡ R.failures reader }
    {
        TileReader {
            lines: Lines::new(alloc, reader),
            held: Held {
                line: 0,
                texts: FeatureTexts::none(alloc),
            },
            workspace: Workspace::new(alloc, Line::new(alloc)),
        }
    }

    /// Takes the head of the tile, of which nothing was taken yet: the header that the first line
    /// spells, or that of the document that it is, whose features come first then.
    ///
    /// # Errors
    ///
    /// [`Fault::NoHeader`] at line 0 where there is no line; else that of the line, of its text, of
    /// the value as a header, or of the document's [`cut`](city_cut::cut). [`Fault::Memory`] at the
    /// line that did not find room.
    pub fn take_head(&mut self, alloc: Global) -> Result<Head, LineFault>
        ensures head { IfOk result (λ head. GivesHeld (Leaves R.gives self.old.lines)
            (Leaves R.gives self.new.lines) (header_value head.header) self.new.held) }
        ensures line { IfOk result (λ head. head.line ≡ self.new.held.line) }
        ensures counted { IfOk result (λ head. 0 < head.line) }
        ensures later { IfOk result (λ head. head.line < self.new.lines.number) }
        ensures refused { IfErr result (λ e. SomeTile (Leaves R.gives self.old.lines) (λ tile.
            HasNoHead tile (record { line = e.line; fault = e.fault }))) }
        ensures not_written { IfErr result (λ e. e.fault ≢ Fault.Write) }

        // Out of memory is told at the line at which reading stands, or at the one that was taken.
        ensures memory { IfErr result (λ e. e.fault ≡ Fault.Memory
            → is_refused self.old.lines ≡ false
            → RanOutAt R.gives e.line self.old.lines self.new.lines) }

        ensures some { (left : TileLines) × MayLeave R.gives self.new.lines left }
        ensures most { OnOk result (most_to_come self.new ≤ most_texts) }
        ensures had_not_failed { OnOk result (has_failed self.old.lines ≡ false) }
        ensures not_failed { OnOk result (has_failed self.new.lines ≡ false) }
        ensures failed { IfErr result (λ e. has_failed self.new.lines ≡ is_read e.fault) }
        ensures failures { R.failures self.new.lines.ahead.reader ≡ failed_reads_between
            (has_failed self.old.lines) (has_failed self.new.lines)
            (R.failures self.old.lines.ahead.reader) }
    {
        self.held.texts = FeatureTexts::none(alloc);
        let count = match self.lines.next_len() {
            Ok(Some(count)) => count,
            Ok(None) => {
                return Err(LineFault {
                    line: 0,
                    fault: Fault::NoHeader,
                });
            }
            Err(at) => return Err(at),
        };
        let first = read_first_line(alloc, self.lines.front(count));
        let line = self.lines.leave_line(count);
        match first {
            Ok(FirstLine { header, texts }) => {
                // that there are fewer than 2^63 bounds what may come
                let _ = texts.len();
                self.held = Held { line, texts };
                Ok(Head { header, line })
            }
            Err(fault) => Err(LineFault { line, fault }),
        }
    }

    /// Takes the texts of the features that the first line holds and that are chosen when they are moved
    /// by the shift, so moved. After that it holds none.
    ///
    /// # Errors
    ///
    /// Those of that line, which then gives no text: one of its features cannot be moved so, or
    /// [`Fault::Memory`].
    pub fn take_held(
        &mut self,
        alloc: Global,
        shift: Shift,
        choice: &Choice,
    ) -> Result<ReadyTexts, LineFault>
        ensures texts { IfOk result (λ texts. GivesTexts
            (MayComeTo R.gives (IsChosen choice.now) shift self.old)
            (LinesMayComeTo R.gives (IsChosen choice.now) shift self.new.lines) texts) }
        ensures refused { IfErr result (λ e. MayComeTo R.gives (IsChosen choice.now) shift
            self.old [] (Some (record { line = e.line; fault = e.fault }))) }
        ensures kind { IfErr result (λ e. (e.fault ≢ Fault.Write) × (is_read e.fault ≡ false)) }
        ensures some { SomethingComes
            (LinesMayComeTo R.gives (IsChosen choice.now) shift self.new.lines) }
        ensures fewer { IfOk result (λ texts.
            length texts + most_left self.new.lines ≤ most_to_come self.old) }
        ensures none_held { self.new.held.texts ≡ [] }
        ensures lines { self.new.lines ≡ self.old.lines }
    {
        if self.held.texts.len() == 0 {
            return Ok(ReadyTexts::none(alloc));
        }
        let held = mem::replace(&mut self.held.texts, FeatureTexts::none(alloc));
        match texts_of(alloc, held, shift, choice) {
            Ok(texts) => return Ok(texts),
            Err(fault) => {
                return Err(LineFault {
                    line: self.held.line,
                    fault,
                });
            }
        }
    }

    /// Takes the next of the lines after the first, which may come to nothing, and gives the compact
    /// text of its feature, moved by the shift, where it is chosen when it is so moved. None after the
    /// last. `spare` is a buffer to reuse, and comes back empty where the line comes to nothing.
    ///
    /// # Errors
    ///
    /// That of the line, or [`Fault::Memory`] at the line that did not find room. Then nothing more is to
    /// be taken of the tile.
    pub fn pass(
        &mut self,
        alloc: Global,
        shift: Shift,
        choice: &Choice,
        spare: Line,
    ) -> Result<Option<Passed>, LineFault>
        ensures text { IfOk result (λ taken. IfSome taken (λ passed. passed.is_chosen ≡ true
            → GivesText (LinesMayComeTo R.gives (IsChosen choice.now) shift self.old.lines)
            (LinesMayComeTo R.gives (IsChosen choice.now) shift self.new.lines) passed.text)) }
        ensures skipped { IfOk result (λ taken. IfSome taken (λ passed. passed.is_chosen ≡ false
            → (passed.text ≡ [])
            × ComesBack (LinesMayComeTo R.gives (IsChosen choice.now) shift self.old.lines)
            (LinesMayComeTo R.gives (IsChosen choice.now) shift self.new.lines))) }
        ensures over { IfOk result (λ taken. IfNone taken
            (LinesMayComeTo R.gives (IsChosen choice.now) shift self.old.lines [] None)) }
        ensures refused { IfErr result (λ e. LinesMayComeTo R.gives (IsChosen choice.now) shift
            self.old.lines [] (Some (record { line = e.line; fault = e.fault }))) }
        ensures not_written { IfErr result (λ e. e.fault ≢ Fault.Write) }
        ensures some { SomethingComes
            (LinesMayComeTo R.gives (IsChosen choice.now) shift self.new.lines) }
        ensures fewer { IfOk result (λ taken. IfSome taken (λ passed.
            most_left self.new.lines < most_left self.old.lines)) }
        ensures held { self.new.held ≡ self.old.held }
        ensures had_not_failed { OnOk result (has_failed self.old.lines ≡ false) }
        ensures not_failed { OnOk result (has_failed self.new.lines ≡ false) }
        ensures failed { IfErr result (λ e. has_failed self.new.lines ≡ is_read e.fault) }
        ensures failures { R.failures self.new.lines.ahead.reader ≡ failed_reads_between
            (has_failed self.old.lines) (has_failed self.new.lines)
            (R.failures self.old.lines.ahead.reader) }
    {
        let count = match self.lines.next_len() {
            Ok(Some(count)) => count,
            Ok(None) => return Ok(None),
            Err(at) => return Err(at),
        };
        let bytes = self.lines.front(count);
        let passed = passed_line(alloc, bytes, shift, choice, &mut self.workspace, spare);
        let line = self.lines.leave_line(count);
        self.workspace.trim();
        match passed {
            Ok(passed) => return Ok(Some(passed)),
            Err(fault) => return Err(LineFault { line, fault }),
        }
    }

    /// Whether the next line that is not blank was read already, so that taking it does not wait for the reader. It
    /// may be false where the tile is over.
    pub fn holds_line(&self) -> bool
        ensures { IsTrue result ↔ HoldsLine self.now.lines.ahead.held }
    {
        self.lines.holds_line()
    }
}

/// What the line of a feature comes to, moved by the shift. `text` is a buffer; what it held is lost.
fn passed_line(
    alloc: Global,
    line: &[u8],
    shift: Shift,
    choice: &Choice,
    workspace: &mut Workspace,
    mut text: Line,
) -> Result<Passed, Fault>
    ensures chosen { IfOk result (λ passed. passed.is_chosen ≡ true
        → GivesFeature (IsChosen choice.now) shift line.now (Some passed.text)) }
    ensures skipped { IfOk result (λ passed. passed.is_chosen ≡ false → (passed.text ≡ [])
        × GivesFeature (IsChosen choice.now) shift line.now None) }
    ensures refusal { IfErr result (λ fault. RefusesFeatureLine shift fault line.now) }
{
    let Some(place) = feature_text(alloc, line, shift, choice, workspace, &mut text)? else {
        text.truncate(0);
        return Ok(Passed {
            is_chosen: false,
            text,
        });
    };
    place.copy_to_buffer(line, &mut text)?;
    Ok(Passed {
        is_chosen: true,
        text,
    })
}
