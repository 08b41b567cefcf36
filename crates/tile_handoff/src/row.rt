//! Queues with the marks of what was accepted.
ghost use Rattle.std.specs.Prelude.{◌≡◌, ◌<◌, ◌≤◌, [], length, OnOk, OnErr, IfOk, IfErr, MatchResult};
ghost use Rattle.tile_handoff.specs.Refusals.{line_of, PutCause, CloseCause, RefusesPut, RefusesClose};
ghost use Rattle.tile_handoff.specs.Takes.{Takes, reply_of};
ghost use Rattle.tile_handoff.specs.declared.event.Event.{Event};
ghost use Rattle.tile_handoff.specs.declared.event.Reply.{Reply};
ghost use Rattle.tile_handoff.specs.declared.note.Note.{Note};
ghost use Rattle.tile_handoff.specs.Row.{fresh, left_of, with_note, HasRoom, SameShape};
ghost use Rattle.tile_handoff.specs.Reflects.{Reflects, Answers, WouldChange};

use crate::mark::{Kind, Mark, Marks};
use crate::note::End;
use crate::outcome::{NoClose, NoPut, Took};
use crate::queues::{Queues, took_of};
use byte_streams::limits::{MAX_CAPACITY, MAX_TILES};
use byte_streams::{Fault, Line};
use std::alloc::Global;
use std::marker::Model;

/// A queue of notes for each tile, and the marks of what was accepted. Tiles are counted from 0.
///
/// A contract sees it as its capacity, its marks and the notes left of each tile.
#[derive(Debug, Drop)]
pub struct Row {
    queues: Queues,
    // How many notes were taken of each tile.
    taken: Vec<u64>,
    marks: Marks,
}

impl Model for Row {
    ghost use Rattle.tile_handoff.specs.Row.{RowState};

    ghost Value = { RowState };

    ghost use Rattle.tile_handoff.specs.Kept.{state_of, IsWellKept};

    ghost view = { state_of };

    ghost invariant = { IsWellKept };
}

impl Row {
    /// A row of empty queues, each of which holds up to `capacity` notes.
    ///
    /// # Errors
    ///
    /// `Fault::Memory` where there is not enough memory for the queues.
    pub fn new(alloc: Global, tiles: u32, capacity: u32) -> Result<Row, Fault>
        requires tiles { (0 < tiles) × (tiles ≤ MAX_TILES) }
        requires capacity { (0 < capacity) × (capacity ≤ MAX_CAPACITY) }
        ensures fresh { IfOk result (λ row. row ≡ fresh tiles capacity) }
        ensures reflects { IfOk result (λ row. Reflects row []) }
        ensures memory { IfErr result (λ fault. fault ≡ Fault.Memory) }
    {
        let queues = Queues::new(alloc, tiles, capacity)?;
        let taken = vec![in alloc; 0; tiles as usize]?;
        Ok(Row {
            queues,
            taken,
            marks: Marks::new(alloc),
        })
    }

    /// Puts a line at the end of tile `t`'s queue.
    ///
    /// # Errors
    ///
    /// `NoPut::Closed` where the tile was closed, or else `NoPut::Full` where its queue is full,
    /// or else `NoPut::Memory` where there is not enough memory for the mark. Each hands the line
    /// back, and the row is as before.
    pub fn put(&mut self, t: u32, line: Line) -> Result<(), NoPut>
        requires { t < length self.old.left }
        ensures accepted { OnOk result (HasRoom self.old t
            × (self.new ≡ with_note self.old t (Note.Line line))) }
        ensures refused { IfErr result (λ refusal.
            (line_of refusal ≡ line) × (self.new ≡ self.old)) }
        ensures cause { IfErr result (PutCause self.old t) }
        ensures shape { SameShape self.old self.new }
        ensures answer { MatchResult result
            (λ _. Answers self.old (Event.Put t line) Reply.Accepted self.new)
            (RefusesPut self.old (Event.Put t line)) }
    {
        if self.queues.is_closed(t) {
            return Err(NoPut::Closed(line));
        }
        if self.queues.is_full(t) {
            return Err(NoPut::Full(line));
        }
        let mark = Mark {
            tile: t,
            kind: Kind::Put,
            number: self.taken[t as usize] + self.queues.len(t) as u64,
        };
        if self.marks.push(mark).is_err() {
            return Err(NoPut::Memory(line));
        }
        self.queues.store_line(t, line);
        Ok(())
    }

    /// Takes the first note of tile `t`'s queue. Where none is there, no memory is taken.
    ///
    /// # Errors
    ///
    /// `Fault::Memory` where a note is there and there is not enough memory for the mark; then the
    /// row is as before.
    pub fn take(&mut self, t: u32) -> Result<Took, Fault>
        requires { t < length self.old.left }
        ensures took { IfOk result (λ took. Takes self.old t took self.new) }
        ensures memory { IfErr result (λ fault. (fault ≡ Fault.Memory) × (self.new ≡ self.old)) }
        ensures cause { OnErr result (0 < length (left_of self.old t)) }
        ensures shape { SameShape self.old self.new }
        ensures answer { MatchResult result
            (λ took. Answers self.old (Event.Take t) (reply_of took) self.new)
            (λ _. WouldChange self.old (Event.Take t)) }
    {
        if self.queues.is_empty(t) {
            return Ok(if self.queues.is_closed(t) {
                Took::Drained
            } else {
                Took::Empty
            });
        }
        let mark = Mark {
            tile: t,
            kind: Kind::Take,
            number: self.taken[t as usize],
        };
        self.marks.push(mark)?;
        self.taken[t as usize] += 1;
        Ok(took_of(self.queues.fetch(t)))
    }

    /// Puts the end note at the end of tile `t`'s queue, where it takes a place as a line does.
    /// Nothing more is put after it.
    ///
    /// # Errors
    ///
    /// `NoClose::Closed` where the tile was closed, or else `NoClose::Full` where its queue is
    /// full, or else `NoClose::Memory` where there is not enough memory for the mark. The row is
    /// then as before.
    pub fn close(&mut self, t: u32, end: End) -> Result<(), NoClose>
        requires { t < length self.old.left }
        ensures accepted { OnOk result (HasRoom self.old t
            × (self.new ≡ with_note self.old t (Note.End end))) }
        ensures refused { OnErr result (self.new ≡ self.old) }
        ensures cause { IfErr result (CloseCause self.old t) }
        ensures shape { SameShape self.old self.new }
        ensures answer { MatchResult result
            (λ _. Answers self.old (Event.Close t end) Reply.Accepted self.new)
            (RefusesClose self.old (Event.Close t end)) }
    {
        if self.queues.is_closed(t) {
            return Err(NoClose::Closed);
        }
        if self.queues.is_full(t) {
            return Err(NoClose::Full);
        }
        let mark = Mark {
            tile: t,
            kind: Kind::Close,
            number: self.taken[t as usize] + self.queues.len(t) as u64,
        };
        if self.marks.push(mark).is_err() {
            return Err(NoClose::Memory);
        }
        self.queues.store_end(t, end);
        Ok(())
    }

    /// The accepted events in order, with their places.
    pub fn marks(&self) -> &Marks
        ensures { result.now ≡ self.now.marks }
    {
        &self.marks
    }
}
