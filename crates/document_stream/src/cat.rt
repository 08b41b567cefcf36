//! A document read to its end, and the stream of the features that it is cut into.
ghost use Rattle.std.specs.Prelude.{◌≡◌, IfOk, IfErr, OnOk};
ghost use Rattle.document_stream.specs.CutStream.{IsRefusedDocument, WroteCut};
ghost use Rattle.document_stream.specs.Input.{SomeInput};
ghost use Rattle.tile_stream.specs.Filtered.{failed_reads_after_filter, failures_after_filter};

use crate::taking::take_stream;
use crate::writing::write_stream;
use byte_streams::{Fault, MergeFault, Sink, Source};
use std::alloc::Global;

/// Reads a document to its end, and writes the stream of the features that it is cut into: the header's
/// line, and one for each feature, in order. Answers how many features were written. The document and then
/// its compact text are held in memory, and what is written, the appearance once: but where features share objects, or
/// many vertices, their texts are made when they are written. Nothing is written before the document was cut.
///
/// # Errors
///
/// Of tile 1 and line 0, the first of these: [`Fault::LineTooLong`](city_json::Fault::LineTooLong) where
/// the input has more than 2^28 bytes, or [`Fault::Read`](city_json::Fault::Read) where a read of those
/// failed; [`Fault::NoHeader`](city_json::Fault::NoHeader) where it is blank; that of
/// [`read`](city_json::read); that of [`cut`](city_cut::cut). [`Fault::Memory`](city_json::Fault::Memory),
/// of tile 1 and line 0 too, may come in place of each of them. They leave nothing written. Of no tile and
/// no line: [`Fault::Write`](city_json::Fault::Write) where a write or the flush failed.
pub fn cat_document<R: Source + Drop, W: Sink>(
    alloc: Global,
    reader: R,
    output: &mut W,
) -> Result<u64, MergeFault>
    ensures ok { IfOk result (λ count. SomeInput (R.gives reader) (λ input.
        WroteCut input count (W.taken output.old) (W.taken output.new))) }
    ensures flushed { OnOk result (W.is_flushed output.new) }
    ensures refused { IfErr result (λ e. IsRefusedDocument (R.gives reader) e.fault e.tile e.line
        (W.taken output.old) (W.taken output.new)) }
    ensures failures { W.failures output.new
        ≡ failures_after_filter result (W.failures output.old) }
{
    let mut source = reader;
    cat_source(alloc, &mut source, output)
}

/// The same of a reader that is lent; whoever holds it can tell afterwards whether a read failed.
///
/// # Errors
///
/// Those of [`cat_document`].
pub fn cat_source<R: Source, W: Sink>(
    alloc: Global,
    source: &mut R,
    output: &mut W,
) -> Result<u64, MergeFault>
    ensures ok { IfOk result (λ count. SomeInput (R.gives source.old) (λ input.
        WroteCut input count (W.taken output.old) (W.taken output.new))) }
    ensures flushed { OnOk result (W.is_flushed output.new) }
    ensures refused { IfErr result (λ e. IsRefusedDocument (R.gives source.old) e.fault e.tile e.line
        (W.taken output.old) (W.taken output.new)) }
    ensures failures { W.failures output.new
        ≡ failures_after_filter result (W.failures output.old) }
    ensures reads { R.failures source.new
        ≡ failed_reads_after_filter result (R.failures source.old) }
{
    let mut stream = match take_stream(alloc, source) {
        Ok(stream) => stream,
        Err(fault) => return Err(MergeFault::of_line(0, fault)),
    };
    match write_stream(&mut stream, output) {
        Ok(()) => Ok(stream.texts.len() as u64),
        Err(_) => Err(MergeFault::of_no_line(Fault::Write)),
    }
}
