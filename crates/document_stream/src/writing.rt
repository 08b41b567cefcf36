//! The stream of a document that was cut, written.
ghost use Rattle.std.specs.Prelude.{◌≡◌, ◌<◌, ◌++◌, [], ℕ, flat_map, get_or, length, take, IfErr, OnOk, OnErr};
ghost use Rattle.std.specs.Io.KnownBytes.{Appends};
ghost use Rattle.byte_streams.specs.Failures.{after_call};
ghost use Rattle.city_families.specs.HeldTexts.{texts_in};
ghost use Rattle.tile_stream.specs.Stream.{stream, with_newline};

use crate::taking::CutStream;
use byte_streams::{Fault, Sink};
use city_cut::FeatureTexts;
use tile_stream::write_text;

/// Writes a stream, and flushes.
///
/// # Errors
///
/// [`Fault::Write`] where a write or the flush failed.
pub(crate) fn write_stream<W: Sink>(cut: &mut CutStream, output: &mut W) -> Result<(), Fault>
    ensures ok { OnOk result (Appends (W.taken output.old) (W.taken output.new)
        (stream cut.old.header (texts_in cut.old.texts))) }
    ensures some { OnErr result ((count : ℕ) × Appends (W.taken output.old) (W.taken output.new)
        (take count (stream cut.old.header (texts_in cut.old.texts)))) }
    ensures flushed { OnOk result (W.is_flushed output.new) }
    ensures failures { W.failures output.new ≡ after_call result (W.failures output.old) }
    ensures fault { IfErr result (λ fault. fault ≡ Fault.Write) }
    ensures same { cut.new.texts ≡ cut.old.texts }
{
    write_text(output, cut.header.items())?;
    write_texts(&mut cut.texts, output)?;
    output.flush()
}

/// Writes the texts of features, each with its newline.
fn write_texts<W: Sink>(texts: &mut FeatureTexts, output: &mut W) -> Result<(), Fault>
    ensures ok { OnOk result (Appends (W.taken output.old) (W.taken output.new)
        (flat_map with_newline (texts_in texts.old))) }
    ensures some { OnErr result ((count : ℕ) × Appends (W.taken output.old) (W.taken output.new)
        (take count (flat_map with_newline (texts_in texts.old)))) }
    ensures failures { W.failures output.new ≡ after_call result (W.failures output.old) }
    ensures fault { IfErr result (λ fault. fault ≡ Fault.Write) }
    ensures same { texts.new ≡ texts.old }
{
    for at in 0..texts.len() {
        write_at(texts, at, output)?;
    }
    Ok(())
}

/// Writes the text of the feature at a place, and its newline.
fn write_at<W: Sink>(texts: &mut FeatureTexts, at: usize, output: &mut W) -> Result<(), Fault>
    requires { at < length texts.old.own }
    ensures ok { OnOk result (Appends (W.taken output.old) (W.taken output.new)
        (with_newline (get_or texts.old.own at [] ++ texts.old.common))) }
    ensures some { OnErr result ((count : ℕ) × Appends (W.taken output.old) (W.taken output.new)
        (take count (with_newline (get_or texts.old.own at [] ++ texts.old.common)))) }
    ensures failures { W.failures output.new ≡ after_call result (W.failures output.old) }
    ensures fault { IfErr result (λ fault. fault ≡ Fault.Write) }
    ensures same { texts.new ≡ texts.old }
{
    texts.write_own(at, output)?;
    write_text(output, texts.common())
}
