//! A queue of notes for each tile, for one thread.
ghost use Rattle.std.specs.Prelude.{◌≡◌, ◌+◌, ◌^◌, ◌<◌, ◌≤◌, ◌==◌, true, false, [], ◌∷◌, ◌++◌, drop, length, slice_get, OnOk, OnErr, IfOk, IfErr};
ghost use Rattle.circular_buffer.specs.Buffer.{buffer};
ghost use Rattle.tile_handoff.specs.Queues.{queue_of, empty_queues, longer, shorter, with_queue, HasPlace, HaveSameShape};
ghost use Rattle.tile_handoff.specs.QueueCalls.{RefusesLine, RefusesEnd, TakesNote};
ghost use Rattle.tile_handoff.specs.Refusals.{line_of};
ghost use Rattle.tile_handoff.specs.Takes.{took_of};

use crate::note::{End, Note};
use crate::outcome::{NoClose, NoPut, Took};
use byte_streams::limits::{MAX_CAPACITY, MAX_TILES};
use byte_streams::{Fault, Line};
use circular_buffer::HeapCircularBuffer;
use std::alloc::{AllocError, Global};
use std::marker::Model;

// The queue of one tile.
#[derive(Debug, Drop)]
struct Tile {
    ring: HeapCircularBuffer<Note>,
    closed: bool,
}

impl Tile {
    fn new(alloc: Global, capacity: u32) -> Result<Tile, AllocError>
        ensures ring { IfOk result (λ tile. tile.ring ≡ buffer [] capacity) }
        ensures open { IfOk result (λ tile. tile.closed ≡ false) }
    {
        let ring = HeapCircularBuffer::with_capacity(alloc, capacity as usize)?;
        Ok(Tile {
            ring,
            closed: false,
        })
    }

    fn store(&mut self, note: Note)
        requires { length self.old.ring.items < self.old.ring.capacity }
        ensures { self.new ≡ record self.old {
          ring = buffer (self.old.ring.items ++ note ∷ []) self.old.ring.capacity;
        } }
    {
        let _ = self.ring.try_push_back(note);
    }

    fn close(&mut self, end: End)
        requires { length self.old.ring.items < self.old.ring.capacity }
        ensures { self.new ≡ record self.old {
          ring = buffer (self.old.ring.items ++ Note.End end ∷ []) self.old.ring.capacity;
          closed = true;
        } }
    {
        self.store(Note::End(end));
        self.closed = true;
    }

    fn fetch(&mut self) -> Note
        requires { 0 < length self.old.ring.items }
        ensures note { slice_get self.old.ring.items 0 ≡ Some result }
        ensures rest { self.new ≡ record self.old {
          ring = buffer (drop 1 self.old.ring.items) self.old.ring.capacity;
        } }
    {
        self.ring.pop_front().unwrap()
    }
}

/// A queue of notes for each tile. Tiles are counted from 0. Once made, queues take no memory.
///
/// A contract sees them as their capacity and, of each tile, whether it was closed and the notes
/// left.
#[derive(Debug, Drop)]
pub struct Queues {
    capacity: u32,
    tiles: Vec<Tile>,
}

impl Model for Queues {
    ghost use Rattle.tile_handoff.specs.Queues.{QueuesState};

    ghost Value = { QueuesState };

    ghost use Rattle.tile_handoff.specs.KeptQueues.{queues_state, HaveRings};

    ghost view = { queues_state };

    ghost invariant = { HaveRings };
}

impl Queues {
    /// Empty queues, each of which holds up to `capacity` notes.
    ///
    /// # Errors
    ///
    /// `Fault::Memory` where there is not enough memory for them.
    pub fn new(alloc: Global, tiles: u32, capacity: u32) -> Result<Queues, Fault>
        requires tiles { (0 < tiles) × (tiles ≤ MAX_TILES) }
        requires capacity { (0 < capacity) × (capacity ≤ MAX_CAPACITY) }
        ensures empty { IfOk result (λ queues. queues ≡ empty_queues tiles capacity) }
        ensures memory { IfErr result (λ fault. fault ≡ Fault.Memory) }
    {
        let mut queues = Vec::with_capacity(alloc, tiles as usize)?;
        for _tile in 0..tiles {
            queues.push_reserved(Tile::new(alloc, capacity)?);
        }
        Ok(Queues {
            capacity,
            tiles: queues,
        })
    }

    /// Whether tile `t` was closed.
    pub fn is_closed(&self, t: u32) -> bool
        requires { t < length self.now.tiles }
        ensures { result ≡ (queue_of self.now t).closed }
    {
        self.tiles[t as usize].closed
    }

    /// Whether tile `t`'s queue has no place left.
    pub fn is_full(&self, t: u32) -> bool
        requires { t < length self.now.tiles }
        ensures full { result ≡ (length (queue_of self.now t).left == self.now.capacity) }
        ensures within { length (queue_of self.now t).left ≤ self.now.capacity }
    {
        self.tiles[t as usize].ring.is_full()
    }

    /// Whether no note is left of tile `t`.
    pub fn is_empty(&self, t: u32) -> bool
        requires { t < length self.now.tiles }
        ensures { result ≡ (length (queue_of self.now t).left == 0) }
    {
        self.tiles[t as usize].ring.is_empty()
    }

    /// How many notes are left of tile `t`.
    pub fn len(&self, t: u32) -> usize
        requires { t < length self.now.tiles }
        ensures { result ≡ length (queue_of self.now t).left }
    {
        self.tiles[t as usize].ring.len()
    }

    /// Puts a line at the end of tile `t`'s queue.
    ///
    /// # Errors
    ///
    /// `NoPut::Closed` where the tile was closed, or else `NoPut::Full` where its queue is full.
    /// Each hands the line back, and the queues are as before. `NoPut::Memory` never comes.
    pub fn put(&mut self, t: u32, line: Line) -> Result<(), NoPut>
        requires { t < length self.old.tiles }
        ensures accepted { OnOk result (HasPlace self.old t
            × (self.new ≡ with_queue self.old t (longer (queue_of self.old t) (Note.Line line)))) }
        ensures refused { IfErr result (λ refusal.
            (line_of refusal ≡ line) × (self.new ≡ self.old)) }
        ensures cause { IfErr result (RefusesLine self.old t) }
        ensures shape { HaveSameShape self.old self.new }
    {
        if self.is_closed(t) {
            return Err(NoPut::Closed(line));
        }
        if self.is_full(t) {
            return Err(NoPut::Full(line));
        }
        self.store_line(t, line);
        Ok(())
    }

    /// Takes the first note of tile `t`'s queue.
    pub fn take(&mut self, t: u32) -> Took
        requires { t < length self.old.tiles }
        ensures took { TakesNote self.old t result self.new }
        ensures shape { HaveSameShape self.old self.new }
    {
        if self.is_empty(t) {
            return if self.is_closed(t) {
                Took::Drained
            } else {
                Took::Empty
            };
        }
        took_of(self.fetch(t))
    }

    /// Puts the end note at the end of tile `t`'s queue, where it takes a place as a line does.
    /// Nothing more is put after it.
    ///
    /// # Errors
    ///
    /// `NoClose::Closed` where the tile was closed, or else `NoClose::Full` where its queue is
    /// full. The queues are then as before. `NoClose::Memory` never comes.
    pub fn close(&mut self, t: u32, end: End) -> Result<(), NoClose>
        requires { t < length self.old.tiles }
        ensures accepted { OnOk result (HasPlace self.old t
            × (self.new ≡ with_queue self.old t (longer (queue_of self.old t) (Note.End end)))) }
        ensures refused { OnErr result (self.new ≡ self.old) }
        ensures cause { IfErr result (RefusesEnd self.old t) }
        ensures shape { HaveSameShape self.old self.new }
    {
        if self.is_closed(t) {
            return Err(NoClose::Closed);
        }
        if self.is_full(t) {
            return Err(NoClose::Full);
        }
        self.store_end(t, end);
        Ok(())
    }

    /// Puts a line at the end of tile `t`'s queue, where there is a place.
    pub fn store_line(&mut self, t: u32, line: Line)
        requires within { t < length self.old.tiles }
        requires place { HasPlace self.old t }
        ensures { self.new ≡ with_queue self.old t (longer (queue_of self.old t) (Note.Line line)) }
    {
        self.tiles[t as usize].store(Note::Line(line));
    }

    /// Puts the end note at the end of tile `t`'s queue, where there is a place. Nothing more is put
    /// after it.
    pub fn store_end(&mut self, t: u32, end: End)
        requires within { t < length self.old.tiles }
        requires place { HasPlace self.old t }
        ensures { self.new ≡ with_queue self.old t (longer (queue_of self.old t) (Note.End end)) }
    {
        self.tiles[t as usize].close(end);
    }

    // Takes the first of the notes that are there.
    pub(crate) fn fetch(&mut self, t: u32) -> Note
        requires within { t < length self.old.tiles }
        requires some { 0 < length (queue_of self.old t).left }
        ensures note { slice_get (queue_of self.old t).left 0 ≡ Some result }
        ensures rest { self.new ≡ with_queue self.old t (shorter (queue_of self.old t)) }
    {
        self.tiles[t as usize].fetch()
    }
}

pub(crate) fn took_of(note: Note) -> Took
    ensures { result ≡ took_of note }
{
    match note {
        Note::Line(line) => Took::Line(line),
        Note::End(end) => Took::End(end),
    }
}
