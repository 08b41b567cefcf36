//! The files of tiles, opened by their paths.
ghost use Rattle.std.specs.Prelude.{◌≡◌, ◌<◌, ◌+◌, ℕ, List, Err, length, ⊤, IfErr, IfNone, IfOk, IfSome};
ghost use Rattle.std.specs.List.{AllZip};
ghost use Rattle.byte_streams.specs.Limits.{max_tiles};
ghost use Rattle.command_runs.specs.Opening.{RefusesFiles};

use byte_streams::{Device, Fault, MergeFault, Source};
use command_line::Paths;
use std::alloc::Global;
use std::fs::{self, File};
use tile_merge::tile_count;

/// What opens tiles by their paths.
pub trait Opener {
    type Reader: Source + Drop;

    // Opening this path may give this reader.
    ghost may_give: { Self → List ℕ → Self.Reader → Type 0 };

    // Opening this path may fail.
    ghost may_fail: { Self → List ℕ → Type 0 };

    /// Opens the tile of this path; none where it cannot be opened.
    fn open(&self, path: &str) -> Option<Self::Reader>
        ensures given { IfSome result (may_give self.now path.now) }
        ensures failed { IfNone result (may_fail self.now path.now) };
}

/// The files of the system, of which nothing is known.
#[derive(Drop)]
pub struct SystemFiles {
    rt: HostRuntime,
}

impl SystemFiles {
    /// The files of the system that the program runs on.
    pub fn new(rt: HostRuntime) -> SystemFiles {
        SystemFiles { rt }
    }
}

impl Opener for SystemFiles {
    type Reader = Device<File>;

    ghost may_give = { λ _ _ _. ⊤ };

    ghost may_fail = { λ _ _. ⊤ };

    fn open(&self, path: &str) -> Option<Device<File>> {
        match fs::open(&self.rt, path) {
            Ok(file) => Some(Device::new(file)),
            Err(_) => None,
        }
    }
}

/// Opens the tiles of the paths, in order.
///
/// # Errors
///
/// [`Fault::TooManyTiles`], of no tile, above 64, before one is opened; [`Fault::Read`] at line 0 of
/// the first tile that cannot be opened; [`Fault::Memory`], of no tile.
pub fn open_tiles<O: Opener>(
    alloc: Global,
    opener: &O,
    paths: &Paths,
) -> Result<Vec<O::Reader>, MergeFault>
    ensures all { IfOk result (λ readers.
        AllZip (O.may_give opener.now) paths.now readers.items) }
    ensures refused { IfErr result
        (RefusesFiles (O.may_give opener.now) (O.may_fail opener.now) paths.now) }
    ensures too_many { max_tiles < length paths.now → result ≡ Err (record {
      tile = 0;
      line = 0;
      fault = Fault.TooManyTiles;
    }) }
{
    let paths = paths.items();
    tile_count(paths.len())?;
    let mut readers = Vec::with_capacity(alloc, paths.len())?;
    for path in paths {
        let Some(reader) = opener.open(path.as_str()) else {
            return Err(not_opened(readers.len()));
        };
        readers.push(reader)?;
    }
    Ok(readers)
}

/// The fault of the tile after so many, which could not be opened.
fn not_opened(before: usize) -> MergeFault
    requires { before < max_tiles }
    ensures { result ≡ record { tile = before + 1; line = 0; fault = Fault.Read } }
{
    MergeFault {
        tile: before as u32 + 1,
        line: 0,
        fault: Fault::Read,
    }
}
