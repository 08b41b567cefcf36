//! The lines of a tile, taken from its reader while it is read.
ghost use Rattle.std.specs.Prelude.{◌≡◌, ◌≤◌, ◌<◌, ◌+◌, ◌++◌, ◌∷◌, ◌↔◌, false, length, take, Some, IfOk, IfErr, IfSome, IfNone, IsTrue};
ghost use Rattle.byte_streams.specs.Limits.{max_tile_bytes};
ghost use Rattle.city_json.specs.Bytes.{newline};
ghost use Rattle.tile_stream.specs.Ahead.{MayCome};
ghost use Rattle.tile_stream.specs.Stretches.{HoldsNewline};
ghost use Rattle.tile_stream.specs.Tile.{TileLines, only_fault, limits_of, stream_limits};
ghost use Rattle.tile_stream.specs.Unread.{Unread, Leaves, IsOfTile, GivesStretch, GivesLine, MayBeOver, StandsAt, IsRefused, IsLineFault, IsAgain, BeginsFrom, EndsFrom, is_refused, most_left, has_failed, failed_reads_between};
ghost use Rattle.tile_stream.specs.Whole.{HoldsLine, IsNext, IsNextLine, IsWholeLine, TakesLine};

mod read_ahead;
mod state;
mod stretches;

use crate::limits::{Limits, STREAM_LIMITS};
use crate::lines::read_ahead::ReadAhead;
use crate::lines::state::State;
use crate::lines::stretches::{complete_stretch, is_blank};
use byte_streams::{Fault, Line, LineFault, Source};
use std::alloc::Global;
use std::marker::Model;

/// A line that is not blank, and its number in its tile, counted from 1.
#[derive(Debug, Drop)]
pub struct NumberedLine {
    pub number: u64,
    pub bytes: Line,
}

/// The lines of a tile, taken from its reader while it is read. Of the tile it holds the line that it is at, and at
/// most 64 KiB after that.
#[derive(Debug, Drop)]
pub struct Lines<R> {
    alloc: Global,
    ahead: ReadAhead<R>,
    limits: Limits,
    start: u64,
    number: u64,
    state: State,
}

impl<R> Model for Lines<R> {
    ghost use Rattle.std.specs.Prelude.{◌≤◌, ◌<◌, ◌+◌};
    ghost use Rattle.byte_streams.specs.Limits.{max_tile_bytes};
    ghost use Rattle.tile_stream.specs.Unread.{Unread, ended_by, IsKeptFrom};

    ghost Value = { Unread R };

    ghost view = { λ l. record {
      ahead = l.ahead;
      limits = l.limits;
      number = l.number;
      start = l.start;
      ended = ended_by l.state;
    } };

    ghost invariant = { λ l. (l.limits.tile ≤ max_tile_bytes) × (l.start ≤ l.limits.tile)
        × (0 < l.number) × IsKeptFrom l.number l.start l.state };
}

impl<R: Source> Lines<R> {
    /// The lines of what the reader gives, of at most 2^28 bytes each in a tile of at most 2^40.
    pub fn new(alloc: Global, reader: R) -> Lines<R>
        ensures tile { (left : TileLines) → Leaves R.gives result left
            ↔ IsOfTile (R.gives reader) stream_limits left }
        ensures number { result.number ≡ 1 }
        ensures most { most_left result ≤ max_tile_bytes + 1 }
        ensures is_open { result.ended ≡ None }
        ensures not_failed { has_failed result ≡ false }
        ensures failures { R.failures result.ahead.reader ≡ R.failures reader }
    {
        Lines::with_limits(alloc, reader, STREAM_LIMITS.line, STREAM_LIMITS.tile)
    }

    /// The lines of what the reader gives, of at most `line` bytes each in a tile of at most
    /// `tile`.
    pub fn with_limits(alloc: Global, reader: R, line: u64, tile: u64) -> Lines<R>
        requires { tile ≤ max_tile_bytes }
        ensures tile { (left : TileLines) → Leaves R.gives result left
            ↔ IsOfTile (R.gives reader) (limits_of line tile) left }
        ensures number { result.number ≡ 1 }
        ensures most { most_left result ≤ tile + 1 }
        ensures is_open { result.ended ≡ None }
        ensures not_failed { has_failed result ≡ false }
        ensures failures { R.failures result.ahead.reader ≡ R.failures reader }
    {
        Lines {
            alloc,
            ahead: ReadAhead::new(alloc, reader),
            limits: Limits { line, tile },
            start: 0,
            number: 1,
            state: State::Open,
        }
    }

    /// The next line that is not blank, or none after the last. It reads on only where no such line
    /// stands whole among the bytes that it holds.
    ///
    /// # Errors
    ///
    /// `LineTooLong`, `TileTooLong` or `Read` of the line at which the limit was passed or the read
    /// failed, and `Memory` of the line that did not find room. The same error comes again then.
    pub fn next(&mut self) -> Result<Option<NumberedLine>, LineFault>
        ensures line { IfOk result (λ next. IfSome next (λ line.
            GivesLine (Leaves R.gives self.old) (Leaves R.gives self.new) line.number line.bytes)) }
        ensures over { IfOk result (λ next. IfNone next (MayBeOver (Leaves R.gives self.old))) }
        ensures stays_over { IfOk result (λ next. IfNone next
            (MayBeOver (λ left. self.new.ended ≡ Some left))) }
        ensures refused { IfErr result (λ e. IsRefused e.fault e.line (Leaves R.gives self.old)) }
        ensures kind { IfErr result (λ e. IsLineFault e.fault) }
        ensures stays { IfErr result (λ e. self.new.ended ≡ Some (only_fault e.line e.fault)) }
        ensures again { IsAgain self.old.ended result }
        ensures first { IfOk result (λ next. IfSome next (λ line. self.old.number ≤ line.number)) }
        ensures later { IfOk result (λ next. IfSome next (λ line. line.number < self.new.number)) }
        ensures at { IfErr result (λ e. self.old.number ≤ e.line) }
        ensures stands { IfErr result (λ e. e.fault ≡ Fault.Memory → is_refused self.old ≡ false
            → StandsAt e.line self.new.limits (Leaves R.gives self.old)
            (MayCome R.gives self.new.ahead)) }
        ensures counted { IfErr result (λ e. 0 < e.line) }
        ensures given_counted { IfOk result (λ next. IfSome next (λ line. 0 < line.number)) }
        ensures fewer { IfOk result (λ next. IfSome next (λ line.
            most_left self.new < most_left self.old)) }
        ensures most { most_left self.new ≤ max_tile_bytes + 1 }
        ensures some { (left : TileLines) × Leaves R.gives self.new left
            × BeginsFrom self.new.number left.lines left.fault }
        ensures ended { EndsFrom self.new.number self.new.ended }
        ensures had_not_failed { IfOk result (λ next. has_failed self.old ≡ false) }
        ensures not_failed { IfOk result (λ next. has_failed self.new ≡ false) }
        ensures not_read { HoldsLine self.old.ahead.held
            → self.new.ahead.reader ≡ self.old.ahead.reader }
        ensures failures { R.failures self.new.ahead.reader ≡ failed_reads_between
            (has_failed self.old) (has_failed self.new) (R.failures self.old.ahead.reader) }
    {
        let count = match self.next_len() {
            Ok(Some(count)) => count,
            Ok(None) => return Ok(None),
            Err(at) => return Err(at),
        };
        let mut bytes = Line::new(self.alloc);
        let Ok(()) = bytes.append(self.front(count)) else {
            return Err(self.refuse(Fault::Memory));
        };
        let number = self.leave_line(count);
        Ok(Some(NumberedLine { number, bytes }))
    }

    /// Whether the next line that is not blank was read already, and the newline that ends it.
    pub fn holds_line(&self) -> bool
        ensures { IsTrue result ↔ HoldsLine self.now.ahead.held }
    {
        self.ahead.holds_line()
    }

    /// Makes the next line that is not blank stand whole in front, and gives its length, or none after the last line.
    /// It reads on only where no such line stands whole among the bytes that it holds.
    ///
    /// # Errors
    ///
    /// Those of [`Lines::next`].
    pub(crate) fn next_len(&mut self) -> Result<Option<usize>, LineFault>
        ensures line { IfOk result (λ next. IfSome next (λ count.
            IsNextLine R.gives self.old self.new count)) }
        ensures over { IfOk result (λ next. IfNone next (MayBeOver (Leaves R.gives self.old))) }
        ensures stays_over { IfOk result (λ next. IfNone next
            (MayBeOver (λ left. self.new.ended ≡ Some left))) }
        ensures refused { IfErr result (λ e. IsRefused e.fault e.line (Leaves R.gives self.old)) }
        ensures kind { IfErr result (λ e. IsLineFault e.fault) }
        ensures stays { IfErr result (λ e. self.new.ended ≡ Some (only_fault e.line e.fault)) }
        ensures again { IsAgain self.old.ended result }
        ensures at { IfErr result (λ e. self.old.number ≤ e.line) }
        ensures stands { IfErr result (λ e. e.fault ≡ Fault.Memory → is_refused self.old ≡ false
            → StandsAt e.line self.new.limits (Leaves R.gives self.old)
            (MayCome R.gives self.new.ahead)) }
        ensures counted { IfErr result (λ e. 0 < e.line) }
        ensures fewer { most_left self.new ≤ most_left self.old }
        ensures most { most_left self.new ≤ max_tile_bytes + 1 }
        ensures ended { EndsFrom self.new.number self.new.ended }
        ensures had_not_failed { IfOk result (λ next. has_failed self.old ≡ false) }
        ensures not_failed { IfOk result (λ next. has_failed self.new ≡ false) }
        ensures not_read { HoldsLine self.old.ahead.held
            → self.new.ahead.reader ≡ self.old.ahead.reader }
        ensures failures { R.failures self.new.ahead.reader ≡ failed_reads_between
            (has_failed self.old) (has_failed self.new) (R.failures self.old.ahead.reader) }
    {
        'stretches: loop {
            match self.state {
                State::Open => {}
                State::Over(_) => return Ok(None),
                State::Refused(fault) => return Err(fault),
            }
            match complete_stretch(&mut self.ahead, self.limits, self.start) {
                Ok(count) => {
                    if !is_blank(self.front(count)) {
                        return Ok(Some(count));
                    }
                    self.leave_line(count);
                }
                Err(fault) => return Err(self.refuse(fault)),
            }
        }
    }

    /// The first bytes that were read and not taken yet, this many.
    pub(crate) fn front(&self, count: usize) -> &[u8]
        requires { count ≤ length self.now.ahead.held }
        ensures { result.now ≡ take count self.now.ahead.held }
    {
        &self.ahead.held()[..count]
    }

    /// Leaves the line that stands whole in front, of this length, blank or not: its number. After one that no newline
    /// ends the tile is over.
    pub(crate) fn leave_line(&mut self, count: usize) -> u64
        requires { IsWholeLine self.old count }
        ensures stretch { (before : Unread R) → IsNext R.gives before self.old count
            → GivesStretch (Leaves R.gives before) (Leaves R.gives self.new) result
            (take count self.old.ahead.held) }
        ensures line { (before : Unread R) → IsNextLine R.gives before self.old count
            → TakesLine R.gives before self.new result (take count self.old.ahead.held) }
        ensures number { result ≡ self.old.number }
        ensures counted { 0 < result }
        ensures later { result < self.new.number }
        ensures fewer { most_left self.new < most_left self.old }
        ensures most { most_left self.new ≤ max_tile_bytes + 1 }
        ensures ended { EndsFrom self.new.number self.new.ended }
        ensures not_refused { is_refused self.new ≡ false }
        ensures not_failed { has_failed self.new ≡ false }
        ensures of_held { HoldsNewline self.old.ahead.held → self.old.ahead.held
            ≡ take count self.old.ahead.held ++ newline ∷ self.new.ahead.held }
        ensures reader { self.new.ahead.reader ≡ self.old.ahead.reader }
    {
        let number = self.number;
        self.number += 1;
        if count < self.ahead.held().len() {
            self.ahead.skip(self.alloc, count + 1);
            self.start += count as u64 + 1;
        } else {
            self.ahead.skip(self.alloc, count);
            self.state = State::Over(number);
        }
        number
    }

    /// Nothing more is read: the next line is refused.
    fn refuse(&mut self, fault: Fault) -> LineFault
        requires { IsLineFault fault }
        ensures at { result ≡ record { line = self.old.number; fault = fault } }
        ensures refused { self.new
            ≡ record self.old { ended = Some (only_fault self.old.number fault) } }
    {
        let at = LineFault {
            line: self.number,
            fault,
        };
        self.state = State::Refused(at);
        at
    }
}
