//! Where a fault belongs: its line, and its tile.
ghost use Rattle.std.specs.Prelude.{◌≡◌};

use crate::fault::Fault;
use std::alloc::{AllocError, AllocFailed};

/// Why the line of this number was refused. Lines count from 1; 0 is the tile as a whole, which has no line.
#[derive(Clone, Copy, Debug, PartialEq, Eq)]
pub struct LineFault {
    pub line: u64,
    pub fault: Fault,
}

/// A refusal, and where it belongs: a tile counted from 1, or 0, and a line of it counted from 1,
/// or 0.
#[derive(Clone, Copy, Debug, PartialEq, Eq)]
pub struct MergeFault {
    pub tile: u32,
    pub line: u64,
    pub fault: Fault,
}

impl MergeFault {
    /// The fault of a line of the one tile, or at line 0 of the tile as a whole.
    pub fn of_line(line: u64, fault: Fault) -> MergeFault
        ensures { result ≡ record { tile = 1; line = line; fault = fault } }
    {
        MergeFault {
            tile: 1,
            line,
            fault,
        }
    }

    /// A fault that belongs to no tile.
    pub fn of_no_line(fault: Fault) -> MergeFault
        ensures { result ≡ record { tile = 0; line = 0; fault = fault } }
    {
        MergeFault {
            tile: 0,
            line: 0,
            fault,
        }
    }
}

impl LineFault {
    /// The fault as that of a tile, counted from 1.
    pub fn of_tile(self, tile: u32) -> MergeFault
        ensures { result ≡ record { tile = tile; line = self.line; fault = self.fault } }
    {
        MergeFault {
            tile,
            line: self.line,
            fault: self.fault,
        }
    }
}

/// A fault of which no tile is named belongs to none.
impl From<Fault> for MergeFault {
    ghost use Rattle.std.specs.Prelude.{◌≡◌};

    ghost from_gives = { λ fault refusal. refusal ≡ record { tile = 0; line = 0; fault = fault } };

    fn from(fault: Fault) -> MergeFault {
        MergeFault::of_no_line(fault)
    }
}

/// Out of memory, where no line is named, belongs to no tile.
impl From<AllocError> for MergeFault {
    ghost use Rattle.std.specs.Prelude.{◌≡◌};
    ghost use Rattle.byte_streams.specs.declared.fault.Fault.TheVariants.{Memory};

    ghost from_gives = { λ _ refusal. refusal ≡ record { tile = 0; line = 0; fault = Memory } };

    fn from(_: AllocError) -> MergeFault {
        MergeFault::of_no_line(Fault::Memory)
    }
}

impl<T: Drop> From<AllocFailed<T>> for MergeFault {
    ghost use Rattle.std.specs.Prelude.{◌≡◌};
    ghost use Rattle.byte_streams.specs.declared.fault.Fault.TheVariants.{Memory};

    ghost from_gives = { λ _ refusal. refusal ≡ record { tile = 0; line = 0; fault = Memory } };

    fn from(_: AllocFailed<T>) -> MergeFault {
        MergeFault::from(AllocError)
    }
}
