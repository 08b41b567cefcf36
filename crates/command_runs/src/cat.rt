//! A run of `cat`, and its status.
ghost use Rattle.std.specs.Prelude.{◌≡◌, ◌⊎◌, ℕ};
ghost use Rattle.command_runs.specs.FaultLine.{fault_line};
ghost use Rattle.command_runs.specs.Passing.{WroteOrFailed};
ghost use Rattle.document_stream.specs.CutStream.{IsRefusedDocument, WroteCut};
ghost use Rattle.document_stream.specs.Input.{SomeInput};
ghost use Rattle.tile_stream.specs.Filtered.{failures_after_write};
ghost use Rattle.tile_stream.specs.Unread.{failed_reads_after};
ghost use Rattle.byte_streams.specs.declared.places.MergeFault.{MergeFault};

use crate::report::report_fault;
use byte_streams::{Sink, Source};
use document_stream::cat_source;
use std::alloc::Global;

/// Writes the stream of the document that the input is to `output`, and answers the status to end with:
/// 0, or 1 with a fault line on `errors`. What was written is passed on, or that it could not be is
/// told; each other refusal leaves nothing written.
pub fn run_cat<R: Source, W: Sink, E: Sink>(
    alloc: Global,
    input: &mut R,
    output: &mut W,
    errors: &mut E,
) -> u8
    ensures status { (result ≡ 0) ⊎ (result ≡ 1) }
    ensures done { result ≡ 0 → SomeInput (R.gives input.old) (λ document. (count : ℕ)
        × WroteCut document count (W.taken output.old) (W.taken output.new)) }
    ensures done_flushed { result ≡ 0 → W.is_flushed output.new }
    ensures done_failures { result ≡ 0 → W.failures output.new ≡ W.failures output.old }
    ensures done_reads { result ≡ 0 → R.failures input.new ≡ R.failures input.old }
    ensures refused { result ≡ 1 → (e : MergeFault)
        × IsRefusedDocument (R.gives input.old) e.fault e.tile e.line
        (W.taken output.old) (W.taken output.new)
        × (W.failures output.new ≡ failures_after_write e.fault (W.failures output.old))
        × (R.failures input.new ≡ failed_reads_after e.fault (R.failures input.old))
        × WroteOrFailed (fault_line e) (E.taken errors.old) (E.taken errors.new)
        (E.failures errors.old) (E.failures errors.new) }
    ensures silent { result ≡ 0 → errors.new ≡ errors.old }
{
    match cat_source(alloc, input, output) {
        Ok(_) => 0,
        Err(refusal) => report_fault(&refusal, errors),
    }
}
