//! Laws of the definitions alone: each is the contract of a function that does nothing.
ghost use Rattle.std.specs.Prelude.{◌↔◌, ◌≡◌};
ghost use Rattle.byte_streams.specs.Tape.{TapeState, PlaysOut};
ghost use Rattle.tile_stream.specs.TapeLines.{left_on_tape};
ghost use Rattle.tile_stream.specs.Tile.{TileLines};
ghost use Rattle.tile_stream.specs.Unread.{Unread, Leaves};

/// Of a tape one list of lines is left, so that each clause on what may be left is an equation.
pub fn tape_leaves_one_list()
    ensures { (lines : Unread TapeState) (left : TileLines) → Leaves PlaysOut lines left
        ↔ (left ≡ left_on_tape lines) }
{}
