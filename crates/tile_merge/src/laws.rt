//! Laws of the definitions alone: each is the contract of a function that does nothing.
ghost use Rattle.std.specs.Prelude.{ℕ, List};
ghost use Rattle.tile_merge.specs.Interleaves.{Interleaves};
ghost use Rattle.tile_merge.specs.Turns.{turns};

/// Lists of texts, taken in turn, interleave: those of each stand in their order, and there are no others.
pub fn turns_interleave()
    ensures { (lists : List (List (List ℕ))) → Interleaves lists (turns lists) }
{}
