//! How a tile ended, and the end note that says it.
ghost use Rattle.std.specs.Prelude.{◌≡◌, Option};
ghost use Rattle.tile_merge.specs.EndNotes.{IsToldBy, end_of, ended_so};
ghost use Rattle.tile_merge.specs.declared.merging.ends.TileEnd.{TileEnd};

use byte_streams::{Fault, LineFault};
use tile_handoff::End;

/// How a tile ended: how many texts it gave in all, and where it stopped and why, if it did.
#[derive(Clone, Copy, Debug)]
pub(crate) struct TileEnd {
    pub(crate) count: u64,
    pub(crate) stop: Option<LineFault>,
}

impl TileEnd {
    pub(crate) fn new(count: u64, stop: Option<LineFault>) -> TileEnd
        ensures { result ≡ ended_so count stop }
    {
        TileEnd { count, stop }
    }

    /// The end note that hands it on.
    pub(crate) fn note(self) -> End
        ensures { result ≡ end_of self }
    {
        match self.stop {
            None => End {
                count: self.count,
                line: 0,
                number: 0,
            },
            Some(at) => End {
                count: self.count,
                line: at.line,
                number: at.fault.number(),
            },
        }
    }

    /// What an end note hands on.
    pub(crate) fn of(note: End) -> TileEnd
        ensures { IsToldBy result note }
    {
        let Some(fault) = Fault::of(note.number) else {
            return TileEnd::new(note.count, None);
        };
        let at = LineFault {
            line: note.line,
            fault,
        };
        TileEnd::new(note.count, Some(at))
    }
}

/// A tile whose end note is taken at last.
pub(crate) trait Ending {
    // How the tile ended, once its end note was taken.
    ghost last_of: { Self → Option TileEnd };

    /// How the tile ended, once its end note was taken.
    fn last(&self) -> Option<TileEnd>
        ensures { result ≡ last_of self.now };
}
