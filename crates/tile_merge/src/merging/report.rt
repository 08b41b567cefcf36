//! What a merge says of its tiles: how many features of each were written, or the fault that is told.
ghost use Rattle.std.specs.Prelude.{◌≡◌, ◌≤◌, ◌<◌, ◌^◌, ◌++◌, [], ◌∷◌, Some, None, true, length, filter_map, IfOk, IfErr};
ghost use Rattle.tile_merge.specs.EndNotes.{outcomes_in, totals_in};
ghost use Rattle.tile_merge.specs.Told.{first_refusal, first_where, is_memory, fault_of_tile};

use crate::merging::ends::{Ending, TileEnd};
use byte_streams::{Fault, MergeFault, Sequence};
use std::alloc::{AllocError, Global};
use std::marker::Model;

/// A count for each tile, in order.
pub type Counts = Sequence<u64>;

/// What a merge that succeeded says.
#[derive(Debug, Drop)]
pub struct Report {
    /// How many features were written of each tile.
    pub counts: Counts,
}

/// How the tiles of a merge ended, in order. The memory for this and for the report of their counts
/// is there from the start, so that neither can fail once the stream is written.
#[derive(Debug, Drop)]
pub(crate) struct Ends {
    room: usize,
    ends: Vec<TileEnd>,
    counts: Vec<u64>,
}

impl Model for Ends {
    ghost use Rattle.std.specs.Prelude.{◌≡◌, ◌≤◌, [], vec_len, vec_capacity};
    ghost use Rattle.tile_merge.specs.EndNotes.{EndsState};

    ghost Value = { EndsState };

    ghost view = { λ all. record { room = all.room; ends = all.ends.items } };

    ghost invariant = { λ all. (vec_len all.ends ≤ all.room) × (all.room ≤ vec_capacity all.ends)
        × (all.room ≤ vec_capacity all.counts) × (all.counts.items ≡ []) };
}

impl Ends {
    /// None yet, and room for those of so many tiles.
    pub(crate) fn new(alloc: Global, tiles: usize) -> Result<Ends, AllocError>
        ensures { IfOk result (λ all. all ≡ record { room = tiles; ends = [] }) }
    {
        Ok(Ends {
            room: tiles,
            ends: Vec::with_capacity(alloc, tiles)?,
            counts: Vec::with_capacity(alloc, tiles)?,
        })
    }

    /// The ends of these tiles, as far as they were taken.
    pub(crate) fn gather<T: Ending>(self, tiles: &[T]) -> Ends
        requires none { self.ends ≡ [] }
        requires room { length tiles.now ≤ self.room }
        ensures ends { result.ends ≡ filter_map T.last_of tiles.now }
        ensures few { length result.ends ≤ length tiles.now }
    {
        let mut ends = self;
        for tile in tiles {
            let Some(end) = tile.last() else {
                continue;
            };
            ends.add(end);
        }
        ends
    }

    /// Adds the end of the next tile.
    fn add(&mut self, end: TileEnd)
        requires room { length self.old.ends < self.old.room }
        ensures { self.new ≡ record self.old { ends = self.old.ends ++ end ∷ [] } }
    {
        self.ends.push_reserved(end);
    }

    /// The counts of the tiles, where none has a fault.
    ///
    /// # Errors
    ///
    /// That of the lowest tile that ran out of memory, or else of the lowest that has one.
    pub(crate) fn report(self) -> Result<Report, MergeFault>
        requires few { length self.ends < 2 ^ 32 }
        ensures ok { IfOk result (λ report. (first_refusal 1 (outcomes_in self.ends) ≡ None)
            × (report.counts ≡ totals_in self.ends)) }
        ensures refused { IfErr result (λ e. first_refusal 1 (outcomes_in self.ends) ≡ Some e) }
    {
        let Ends {
            ends,
            mut counts,
            ..
        } = self;
        if let Some(refusal) = first_refusal(&ends) {
            return Err(refusal);
        }
        for end in &ends {
            counts.push_reserved(end.count);
        }
        Ok(Report {
            counts: Sequence::from_vec(counts),
        })
    }
}

/// What is answered of tiles that ended so, if one of them stopped.
fn first_refusal(ends: &[TileEnd]) -> Option<MergeFault>
    requires few { length ends.now < 2 ^ 32 }
    ensures { result ≡ first_refusal 1 (outcomes_in ends.now) }
{
    match first_memory(ends) {
        Some(refusal) => Some(refusal),
        None => first_stop(ends),
    }
}

fn first_memory(ends: &[TileEnd]) -> Option<MergeFault>
    requires few { length ends.now < 2 ^ 32 }
    ensures { result ≡ first_where is_memory 1 (outcomes_in ends.now) }
{
    let mut tile = 0u32;
    for end in ends {
        tile += 1;
        if let Some(at) = end.stop {
            if at.fault == Fault::Memory {
                return Some(at.of_tile(tile));
            }
        }
    }
    None
}

fn first_stop(ends: &[TileEnd]) -> Option<MergeFault>
    requires few { length ends.now < 2 ^ 32 }
    ensures { result ≡ first_where (λ fault. true) 1 (outcomes_in ends.now) }
{
    let mut tile = 0u32;
    for end in ends {
        tile += 1;
        if let Some(at) = end.stop {
            return Some(at.of_tile(tile));
        }
    }
    None
}
