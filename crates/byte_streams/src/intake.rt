//! A source read to its end, or to where the reading stops.
ghost use Rattle.std.specs.Prelude.{◌≡◌, ◌≤◌, ◌<◌, ◌+◌, true, false, [], length, take, drop, vec_len, IfOk, OnOk, OnErr};
ghost use Rattle.byte_streams.specs.Failures.{after_call};
ghost use Rattle.byte_streams.specs.Intake.{Stopped, after_stop};
ghost use Rattle.byte_streams.specs.Source.{GivesFirst};

use crate::fault::Fault;
use crate::limits::MAX_PIECE_BYTES;
use crate::source::Source;
use std::alloc::{AllocError, Global};

/// Why a reading stopped.
#[derive(Clone, Copy, Debug, PartialEq, Eq)]
pub enum Stop {
    /// The source came to its end.
    End,
    /// A read failed.
    Failure,
    /// More bytes than the limit were read.
    Limit,
    /// There was not enough memory to read on.
    Memory,
}

/// The bytes that were read from a source, and why the reading stopped.
#[derive(Debug, Drop)]
pub struct Intake {
    pub bytes: Vec<u8>,
    pub stop: Stop,
}

/// Reads from the source up to its end, and stops early at an error, past `limit` bytes, and where there
/// is not enough memory. At most one byte past the limit is read.
pub fn read_all<S: Source>(alloc: Global, source: &mut S, limit: u64) -> Intake
    ensures stopped { Stopped result.stop (S.gives source.old) (S.gives source.new)
        limit result.bytes.items }
    ensures length { vec_len result.bytes ≤ limit + 1 }
    ensures failures { S.failures source.new ≡ after_stop result.stop (S.failures source.old) }
{
    let mut bytes = Vec::new(alloc);
    let mut filled = 0usize;
    'pieces: while filled as u64 <= limit {
        if make_room(&mut bytes, filled, limit).is_err() {
            return intake_of(bytes, filled, Stop::Memory);
        }
        match read_after(source, bytes.as_mut_slice(), filled) {
            Ok(0) => return intake_of(bytes, filled, Stop::End),
            Ok(count) => filled += count,
            Err(_) => return intake_of(bytes, filled, Stop::Failure),
        }
    }
    intake_of(bytes, filled, Stop::Limit)
}

/// Makes room for a read after the bytes that are filled, where there is none.
fn make_room(bytes: &mut Vec<u8>, filled: usize, limit: u64) -> Result<(), AllocError>
    requires filled { filled ≤ vec_len bytes.old }
    requires below { filled ≤ limit }
    requires most { vec_len bytes.old ≤ limit + 1 }
    ensures front { take filled bytes.new.items ≡ take filled bytes.old.items }
    ensures filled { filled ≤ vec_len bytes.new }
    ensures room { OnOk result (filled < vec_len bytes.new) }
    ensures most { vec_len bytes.new ≤ limit + 1 }
{
    if filled < bytes.len() {
        return Ok(());
    }
    let room = (limit - filled as u64).min(MAX_PIECE_BYTES as u64 - 1) as usize + 1;
    bytes.resize(filled + room, 0)
}

/// One read into what stands after the first `filled` bytes, which stay.
fn read_after<S: Source>(source: &mut S, bytes: &mut [u8], filled: usize) -> Result<usize, Fault>
    requires { filled < length bytes.old }
    ensures front { take filled bytes.new ≡ take filled bytes.old }
    ensures bound { IfOk result (λ count. filled + count ≤ length bytes.new) }
    ensures given { IfOk result (λ count. GivesFirst (S.gives source.old) (S.gives source.new)
        (take count (drop filled bytes.new))) }
    ensures end { IfOk result (λ count. count ≡ 0 → S.gives source.old [] false) }
    ensures failure { OnErr result (S.gives source.old [] true) }
    ensures failures { S.failures source.new ≡ after_call result (S.failures source.old) }
{
    source.read(&mut bytes[filled..])
}

fn intake_of(mut bytes: Vec<u8>, filled: usize, stop: Stop) -> Intake
    ensures bytes { result.bytes.items ≡ take filled bytes.items }
    ensures stop { result.stop ≡ stop }
{
    bytes.truncate(filled);
    Intake { bytes, stop }
}
