//! Bytes written to a sink, all of them.
ghost use Rattle.std.specs.Prelude.{◌≡◌, ℕ, take, OnOk, OnErr, IfErr};
ghost use Rattle.std.specs.Io.KnownBytes.{Appends};
ghost use Rattle.byte_streams.specs.Failures.{after_call};

use crate::fault::Fault;
use crate::sink::Sink;

/// Writes all bytes to the sink.
///
/// # Errors
///
/// `Fault::Write` where a write failed or took none of the bytes that were left; some first bytes were
/// taken then.
pub fn write_all<W: Sink>(sink: &mut W, bytes: &[u8]) -> Result<(), Fault>
    ensures all { OnOk result (Appends (W.taken sink.old) (W.taken sink.new) bytes.now) }
    ensures some { OnErr result ((count : ℕ)
        × Appends (W.taken sink.old) (W.taken sink.new) (take count bytes.now)) }
    ensures failures { W.failures sink.new ≡ after_call result (W.failures sink.old) }
    ensures fault { IfErr result (λ fault. fault ≡ Fault.Write) }
{
    let mut written = 0usize;
    'pieces: while written < bytes.len() {
        let count = sink.write(&bytes[written..])?;
        if count == 0 {
            return Err(Fault::Write);
        }
        written += count;
    }
    Ok(())
}
