//! Lines of a stream, written to an output, each with its newline.
ghost use Rattle.std.specs.Prelude.{◌≡◌, ◌++◌, ℕ, [], take, IfOk, IfErr, OnOk, OnErr};
ghost use Rattle.std.specs.Io.KnownBytes.{Appends};
ghost use Rattle.byte_streams.specs.Failures.{after_call};
ghost use Rattle.tile_stream.specs.Stream.{with_newline};

use byte_streams::{Fault, Line, Sink, write_all};

/// Writes a line and its newline, and gives the line back empty, for its memory, of which it keeps what [`Line::trim`]
/// leaves.
///
/// # Errors
///
/// [`Fault::Write`] where a write failed; some first bytes of the line were written then.
pub fn write_line<W: Sink>(output: &mut W, mut line: Line) -> Result<Line, Fault>
    ensures all { IfOk result (λ text. (text ≡ [])
        × Appends (W.taken output.old) (W.taken output.new) (with_newline line)) }
    ensures some { OnErr result ((count : ℕ)
        × Appends (W.taken output.old) (W.taken output.new) (take count (with_newline line))) }
    ensures failures { W.failures output.new ≡ after_call result (W.failures output.old) }
    ensures fault { IfErr result (λ fault. fault ≡ Fault.Write) }
{
    match write_text(output, line.items()) {
        Ok(()) => {}
        Err(fault) => return Err(fault),
    }
    line.truncate(0);
    line.trim();
    Ok(line)
}

/// Writes a text in two parts, and its newline.
///
/// # Errors
///
/// [`Fault::Write`] where a write failed; some first bytes of the line were written then.
pub(crate) fn write_parts<W: Sink>(own: &[u8], common: &[u8], output: &mut W) -> Result<(), Fault>
    ensures ok { OnOk result (Appends (W.taken output.old) (W.taken output.new)
        (with_newline (own.now ++ common.now))) }
    ensures some { OnErr result ((count : ℕ) × Appends (W.taken output.old) (W.taken output.new)
        (take count (with_newline (own.now ++ common.now)))) }
    ensures failures { W.failures output.new ≡ after_call result (W.failures output.old) }
    ensures fault { IfErr result (λ fault. fault ≡ Fault.Write) }
{
    write_all(output, own)?;
    write_text(output, common)
}

/// Writes a text and its newline.
///
/// # Errors
///
/// [`Fault::Write`] where a write failed; some first bytes of the line were written then.
pub fn write_text<W: Sink>(output: &mut W, text: &[u8]) -> Result<(), Fault>
    ensures all { OnOk result
        (Appends (W.taken output.old) (W.taken output.new) (with_newline text.now)) }
    ensures some { OnErr result ((count : ℕ)
        × Appends (W.taken output.old) (W.taken output.new) (take count (with_newline text.now))) }
    ensures failures { W.failures output.new ≡ after_call result (W.failures output.old) }
    ensures fault { IfErr result (λ fault. fault ≡ Fault.Write) }
{
    match write_all(output, text) {
        Ok(()) => {}
        Err(fault) => return Err(fault),
    }
    match write_all(output, b"\n") {
        Ok(()) => return Ok(()),
        Err(fault) => return Err(fault),
    }
}
