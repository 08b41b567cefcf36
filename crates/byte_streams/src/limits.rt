//! How much there may be of each thing that the program takes or keeps, each limit once. Those that a definition
//! speaks of stand in `specs/Limits.antt` too, and are held to it below.
ghost use Rattle.std.specs.Prelude.{◌≡◌};
ghost use Rattle.byte_streams.specs.Limits.{max_capacity, max_depth, max_line_bytes, max_steps, max_tile_bytes, max_tiles};

/// In bytes: a line without its newline, and a document, which is read as one line. 256 MiB, our own choice: far above
/// any feature or document in use, and little enough to be held in memory.
pub const MAX_LINE_BYTES: u64 = 1 << 28;

/// In bytes: all that one reader gives. 1 TiB, our own choice: it bounds how many lines come of a reader that never
/// ends.
pub const MAX_TILE_BYTES: u64 = 1 << 40;

/// In bytes: what is asked of a reader, or gathered for a writer, at once. 64 KiB, our own choice: many lines to each
/// call of the system, and little memory.
pub const MAX_PIECE_BYTES: usize = 64 * 1024;

/// In arrays and objects: how many are open at one place of a text, and how deep those of a value nest. RFC 8259,
/// section 9, lets a reader set such a limit; the number is our own choice, and bounds the stack.
pub const MAX_DEPTH: usize = 128;

/// In steps of the grid: the size of a vertex's component, of a shift's, and of an area's edge. 2^53 - 1, up to which
/// every reader of JSON takes an integer exactly (RFC 8259, section 6).
pub const MAX_STEPS: u64 = 9_007_199_254_740_991;

/// In tiles: how many are merged at once. Our own choice: each takes an open file, a queue, and mostly a thread.
pub const MAX_TILES: u32 = 64;

/// In notes: how many are kept of one tile until they are taken. Our own choice.
pub const MAX_CAPACITY: u32 = 1024;

/// The limits of the code are those of the definitions.
pub fn limits_are_as_defined()
    ensures line { MAX_LINE_BYTES ≡ max_line_bytes }
    ensures tile { MAX_TILE_BYTES ≡ max_tile_bytes }
    ensures depth { MAX_DEPTH ≡ max_depth }
    ensures steps { MAX_STEPS ≡ max_steps }
    ensures tiles { MAX_TILES ≡ max_tiles }
    ensures capacity { MAX_CAPACITY ≡ max_capacity }
{}
