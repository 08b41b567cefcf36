//! A tile of a merge in turn, and what was read ahead of it.
ghost use Rattle.std.specs.Prelude.{◌≡◌, ◌≤◌, ◌<◌, ◌+◌, false, length, IfOk, IfErr, OnOk, OnErr, IsTrue};
ghost use Rattle.std.specs.Io.KnownBytes.{Keeps};
ghost use Rattle.byte_streams.specs.Failures.{after_call};
ghost use Rattle.city_feature.specs.Choice.{IsChosen};
ghost use Rattle.tile_handoff.specs.Queues.{queue_of, empty_queue};
ghost use Rattle.tile_merge.specs.Feeds.{MayTake, ReadsOn, SomeCourse, HasFreePlace, IsAhead, most_ahead, most_lines};
ghost use Rattle.tile_merge.specs.Rounds.{IsFeedOf, WroteTurn, WroteTurnFront};
ghost use Rattle.tile_stream.specs.TileState.{most_to_come, most_texts};

use crate::merging::ends::{Ending, TileEnd};
use crate::merging::tiles::OpenTile;
use byte_streams::{Fault, Line, Sink, Source};
use city_feature::Choice;
use city_grid::Shift;
use std::alloc::Global;
use std::marker::Model;
use std::mem;
use tile_handoff::{Queues, Took};
use tile_stream::{Passed, ReadyTexts, TileReader, pass_on, write_line};

/// A tile that is merged in turn: its reader, the texts of its first line, and a queue of those of later lines that were
/// read ahead.
#[derive(Debug, Drop)]
pub(crate) struct Feed<R> {
    reader: TileReader<R>,
    shift: Shift,
    first: ReadyTexts,
    // How many of these were written.
    written: usize,
    notes: Queues,
    count: u64,
    last: Option<TileEnd>,
    spare: Line,
}

impl<R> Model for Feed<R> {
    ghost use Rattle.std.specs.Coded.{codes};
    ghost use Rattle.city_feature.specs.contracts.features.values.Feature as feature_type;
    ghost use Rattle.std.specs.Prelude.{◌≡◌, ◌≤◌, ◌<◌, ◌+◌, [], false, drop, length};
    ghost use Rattle.tile_handoff.specs.Notes.{has_end};
    ghost use Rattle.tile_handoff.specs.Queues.{queue_of};
    ghost use Rattle.tile_merge.specs.Feeds.{FeedState, queue_after};
    ghost use Rattle.tile_stream.specs.TileState.{most_texts};
    ghost use Rattle.tile_stream.specs.Unread.{most_left};

    ghost Value = { FeedState R };

    ghost coded = { Prim.hlevel (codes, feature_type.the_row.coded) };

    ghost view = { λ feed. record {
      unread = feed.reader.lines;
      shift = feed.shift;
      capacity = feed.notes.capacity;
      notes = queue_after (drop feed.written feed.first) (queue_of feed.notes 0);
      count = feed.count;
      last = feed.last;
    } };

    ghost invariant = { λ feed. (feed.spare ≡ []) × (length feed.notes.tiles ≡ 1) × (0 < feed.notes.capacity)
        × ((queue_of feed.notes 0).closed ≡ false
        → (feed.count + most_left feed.reader.lines ≤ most_texts)
        × (has_end (queue_of feed.notes 0).left ≡ false)) };
}

impl<R: Source> Feed<R> {
    /// What the tile gives, moved by the shift: the texts of its first line, which are made here, and then those of
    /// later lines, which are read ahead into the queue of one tile.
    pub(crate) fn new(
        alloc: Global,
        tile: OpenTile<R>,
        shift: Shift,
        choice: &Choice,
        notes: Queues,
    ) -> Feed<R>
        requires one { length notes.tiles ≡ 1 }
        requires capacity { 0 < notes.capacity }
        requires empty { queue_of notes 0 ≡ empty_queue }
        requires most { most_to_come tile.unread ≤ most_texts }
        ensures { IsFeedOf R.gives (IsChosen choice.now) tile shift result }
    {
        let OpenTile { mut reader, .. } = tile;
        let mut notes = notes;
        let first = match reader.take_held(alloc, shift, choice) {
            Ok(texts) => texts,
            Err(at) => {
                notes.store_end(0, TileEnd::new(0, Some(at)).note());
                ReadyTexts::none(alloc)
            }
        };
        Feed {
            reader,
            shift,
            count: first.len() as u64,
            first,
            written: 0,
            notes,
            last: None,
            spare: Line::new(alloc),
        }
    }

    /// Writes the text of the next feature that is chosen, and says whether there was one; texts that need no waiting are
    /// read ahead, as many as the queue holds. Where a line has to be read that may be long in coming, what was written is
    /// passed on first.
    ///
    /// # Errors
    ///
    /// [`Fault::Write`] where a write or the flush failed.
    pub(crate) fn write_next<W: Sink>(
        &mut self,
        alloc: Global,
        choice: &Choice,
        output: &mut W,
    ) -> Result<bool, Fault>
        requires { SomeCourse (MayTake R.gives (IsChosen choice.now) self.old) }
        ensures ok { IfOk result (λ any. WroteTurn R.gives (IsChosen choice.now) self.old self.new any
            (W.taken output.old) (W.taken output.new)) }
        ensures failed { OnErr result (WroteTurnFront R.gives (IsChosen choice.now) self.old
            (W.taken output.old) (W.taken output.new)) }
        ensures failures { W.failures output.new ≡ after_call result (W.failures output.old) }
        ensures fault { IfErr result (λ fault. fault ≡ Fault.Write) }
    {
        match self.read_ahead(alloc, choice, output) {
            Ok(()) => {}
            Err(fault) => return Err(fault),
        }
        if self.written < self.first.len() {
            match self.first.write_at(self.written, output) {
                Ok(()) => {}
                Err(fault) => return Err(fault),
            }
            self.written += 1;
            return Ok(true);
        }
        match self.notes.take(0) {
            Took::Line(text) => match write_line(output, text) {
                Ok(spare) => {
                    self.spare = spare;
                    return Ok(true);
                }
                Err(fault) => return Err(fault),
            },
            Took::End(end) => {
                self.last = Some(TileEnd::of(end));
                return Ok(false);
            }
            Took::Empty | Took::Drained => return Ok(false),
        }
    }

    /// Reads until there is a text or a note, and then on while lines are held and there is a place for theirs.
    ///
    /// # Errors
    ///
    /// [`Fault::Write`] where the flush before a read failed.
    fn read_ahead<W: Sink>(
        &mut self,
        alloc: Global,
        choice: &Choice,
        output: &mut W,
    ) -> Result<(), Fault>
        requires { SomeCourse (MayTake R.gives (IsChosen choice.now) self.old) }
        ensures ahead { OnOk result (IsAhead self.new) }
        ensures reads { ReadsOn (MayTake R.gives (IsChosen choice.now) self.old)
            (MayTake R.gives (IsChosen choice.now) self.new) }
        ensures fewer { most_ahead self.new ≤ most_ahead self.old }
        ensures bytes { Keeps (W.taken output.old) (W.taken output.new) }
        ensures failures { W.failures output.new ≡ after_call result (W.failures output.old) }
        ensures fault { IfErr result (λ fault. fault ≡ Fault.Write) }
    {
        'lines: while self.reads_on() {
            match pass_on(&self.reader, output) {
                Ok(()) => self.read_line(alloc, choice),
                Err(fault) => return Err(fault),
            }
        }
        Ok(())
    }

    /// Whether a line more is to be read: where all texts of the first line were written, and there is no note yet, or
    /// the line is held already and there is a place for its note.
    fn reads_on(&self) -> bool
        ensures room { IsTrue result → HasFreePlace self.now }
        ensures ahead { result ≡ false → IsAhead self.now }
    {
        self.written >= self.first.len()
            && !self.notes.is_closed(0)
            && (self.notes.is_empty(0) || (self.reader.holds_line() && !self.notes.is_full(0)))
    }

    /// Reads the next line, and puts its text into the queue where it is chosen, or the end.
    fn read_line(&mut self, alloc: Global, choice: &Choice)
        requires room { HasFreePlace self.old }
        requires some { SomeCourse (MayTake R.gives (IsChosen choice.now) self.old) }
        ensures reads { ReadsOn (MayTake R.gives (IsChosen choice.now) self.old)
            (MayTake R.gives (IsChosen choice.now) self.new) }
        ensures fewer { most_ahead self.new ≤ most_ahead self.old }
        ensures lines { most_lines self.new < most_lines self.old }
    {
        let spare = mem::replace(&mut self.spare, Line::new(alloc));
        let passed = match self.reader.pass(alloc, self.shift, choice, spare) {
            Ok(Some(passed)) => passed,
            Ok(None) => {
                self.notes
                    .store_end(0, TileEnd::new(self.count, None).note());
                return;
            }
            Err(at) => {
                self.notes
                    .store_end(0, TileEnd::new(self.count, Some(at)).note());
                return;
            }
        };
        let Passed { is_chosen, text } = passed;
        if !is_chosen {
            self.spare = text;
            return;
        }
        self.notes.store_line(0, text);
        self.count += 1;
    }
}

impl<R: Source> Ending for Feed<R> {
    ghost last_of = { λ feed. feed.last };

    fn last(&self) -> Option<TileEnd> {
        self.last
    }
}
