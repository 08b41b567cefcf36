//! The stretches of a tile, which newlines end, and the limits of each.
ghost use Rattle.std.specs.Prelude.{◌≡◌, ◌≤◌, false, IfOk, IfErr, IfSome};
ghost use Rattle.byte_streams.specs.Limits.{max_tile_bytes};
ghost use Rattle.tile_stream.specs.Ahead.{MayCome};
ghost use Rattle.tile_stream.specs.Stretches.{BytesComeBack, HoldsNewline, IsLimitFault, IsNextStretch, IsRefusal, failed_reads_after_call};
ghost use Rattle.tile_stream.specs.Tile.{fault_between, is_blank};

use crate::limits::Limits;
use crate::lines::read_ahead::ReadAhead;
use byte_streams::{Fault, Source};
use memchr::memchr;

/// Makes the stretch that begins at byte `start` of the tile stand whole in front, and gives its length: a newline ends
/// it, or it is all that is held, and the reader came to its end. Reads only while no newline is held.
///
/// # Errors
///
/// `LineTooLong` or `TileTooLong` once the stretch is past a limit, `Read` where a read failed, and `Memory` where there
/// was no memory to read into.
pub fn complete_stretch<R: Source>(
    ahead: &mut ReadAhead<R>,
    limits: Limits,
    start: u64,
) -> Result<usize, Fault>
    requires start { start ≤ limits.tile }
    requires tile { limits.tile ≤ max_tile_bytes }
    ensures stretch { IfOk result (λ count. IsNextStretch R.gives limits start ahead.old ahead.new count) }
    ensures refused { IfErr result (λ fault. IsRefusal fault limits start
        (MayCome R.gives ahead.old)) }
    ensures stands { IfErr result (λ fault. fault ≡ Fault.Memory
        → BytesComeBack (MayCome R.gives ahead.old) (MayCome R.gives ahead.new)) }
    ensures held { HoldsNewline ahead.old.held → ahead.new ≡ ahead.old }
    ensures failures { R.failures ahead.new.reader
        ≡ failed_reads_after_call result (R.failures ahead.old.reader) }
{
    let mut seen = 0usize;
    'pieces: loop {
        let held = ahead.held();
        if let Some(more) = memchr(b'\n', &held[seen..]) {
            let count = seen + more;
            let end = start + count as u64;
            return match fault_between(limits, end + 1, start, end) {
                Some(fault) => Err(fault),
                None => Ok(count),
            };
        }
        seen = held.len();
        let end = start + seen as u64;
        if let Some(fault) = fault_between(limits, end, start, end) {
            return Err(fault);
        }
        match ahead.fill() {
            Ok(0) => return Ok(seen),
            Ok(_) => {}
            Err(fault) => return Err(fault),
        }
    }
}

/// Why a line from `start` to `end` is refused, in a tile of `size` bytes in which no read failed.
pub fn fault_between(limits: Limits, size: u64, start: u64, end: u64) -> Option<Fault>
    requires order { start ≤ end }
    requires start { start ≤ limits.tile }
    requires tile { limits.tile ≤ max_tile_bytes }
    ensures fault { result ≡ fault_between limits size false start end }
    ensures kind { IfSome result IsLimitFault }
{
    let Limits { line, tile } = limits;
    if end - start > line && line < tile - start {
        Some(Fault::LineTooLong)
    } else if tile <= end && tile < size {
        Some(Fault::TileTooLong)
    } else {
        None
    }
}

/// Whether there is nothing but spaces, tabs and carriage returns.
pub fn is_blank(line: &[u8]) -> bool
    ensures { result ≡ is_blank line.now }
{
    line.iter()
        .all(|b| *b == b' ' || *b == b'\t' || *b == b'\r')
}
