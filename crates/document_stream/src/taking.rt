//! A document that is read whole, and cut.
ghost use Rattle.std.specs.Prelude.{◌≡◌, ◌≢◌, IfOk, IfErr, length};
ghost use Rattle.city_json.specs.Compact.{compact};
ghost use Rattle.city_feature.specs.Values.{header_value};
ghost use Rattle.city_families.specs.HeldTexts.{texts_in};
ghost use Rattle.document_stream.specs.CutStream.{IsStreamOf};
ghost use Rattle.document_stream.specs.Input.{SomeInput};
ghost use Rattle.document_stream.specs.Taking.{GivesCut, HasCut, IsRefusedInput, RefusesCutting, failed_reads_after_taking, is_white_space};
ghost use Rattle.tile_stream.specs.Stream.{stream};

use byte_streams::limits::MAX_LINE_BYTES;
use byte_streams::{Fault, Line, Source, Stop, read_all};
use city_cut::{CutTexts, FeatureTexts, cut_text};
use city_feature::Header;
use city_json::{ObjectText, Workspace, compact_object, print};
use std::alloc::Global;

/// The stream of a document that was cut.
#[derive(Drop)]
pub(crate) struct CutStream {
    /// The compact text of the header.
    pub(crate) header: Line,
    pub(crate) texts: FeatureTexts,
}

/// Takes the document that the input is, cuts it, and gives its stream.
///
/// # Errors
///
/// Those of [`take_cut`].
pub(crate) fn take_stream<R: Source>(alloc: Global, source: &mut R) -> Result<CutStream, Fault>
    ensures ok { IfOk result (λ cut. SomeInput (R.gives source.old) (λ input.
        IsStreamOf input (length cut.texts.own) (stream cut.header (texts_in cut.texts)))) }
    ensures refused { IfErr result (λ fault. IsRefusedInput (R.gives source.old) fault) }
    ensures not_written { IfErr result (λ fault. fault ≢ Fault.Write) }
    ensures failures { R.failures source.new
        ≡ failed_reads_after_taking result (R.failures source.old) }
{
    let cut = take_cut(alloc, source)?;
    let header = header_text(alloc, &cut.header)?;
    Ok(CutStream {
        header,
        texts: cut.texts,
    })
}

/// The compact text of a header. The only fault is [`Fault::Memory`].
fn header_text(alloc: Global, header: &Header) -> Result<Line, Fault>
    ensures ok { IfOk result (λ text. text ≡ compact (header_value header.now).value) }
    ensures fault { IfErr result (λ fault. fault ≡ Fault.Memory) }
{
    let mut text = Line::new(alloc);
    print(header.json(), &mut text)?;
    Ok(text)
}

/// Takes the document that the input is, and cuts it.
///
/// # Errors
///
/// In this order: [`Fault::LineTooLong`] or [`Fault::Read`], and those of [`cut_read`]. [`Fault::Memory`] may come in
/// place of each.
fn take_cut<R: Source>(alloc: Global, source: &mut R) -> Result<CutTexts, Fault>
    ensures ok { IfOk result (λ cut. GivesCut (R.gives source.old) (header_value cut.header) (texts_in cut.texts)) }
    ensures refused { IfErr result (λ fault. IsRefusedInput (R.gives source.old) fault) }
    ensures not_written { IfErr result (λ fault. fault ≢ Fault.Write) }
    ensures failures { R.failures source.new
        ≡ failed_reads_after_taking result (R.failures source.old) }
{
    let intake = read_all(alloc, source, MAX_LINE_BYTES);
    match intake.stop {
        Stop::End => cut_read(alloc, intake.bytes),
        Stop::Failure => Err(Fault::Read),
        Stop::Limit => Err(Fault::LineTooLong),
        Stop::Memory => Err(Fault::Memory),
    }
}

/// Cuts the document that a text spells. The text is kept where it is compact, but for white space at its end, and no
/// string in it has an escape; else it is dropped as soon as its compact text is there.
///
/// # Errors
///
/// [`Fault::NoHeader`] where the text is blank, then those of [`compact_object`] and [`cut_text`].
fn cut_read(alloc: Global, text: Vec<u8>) -> Result<CutTexts, Fault>
    ensures ok { IfOk result (λ cut. HasCut text.items (header_value cut.header) (texts_in cut.texts)) }
    ensures refused { IfErr result (λ fault. RefusesCutting fault text.items) }
{
    if is_white_space(&text) {
        return Err(Fault::NoHeader);
    }
    let mut workspace = Workspace::new(alloc, Line::new(alloc));
    let Some(found) = compact_object(alloc, &text, &mut workspace)? else {
        return Err(Fault::NotCityJson);
    };
    let line = found.place.into_line(text, workspace.into_line());
    let document = ObjectText::new(line.items(), &found.parts);
    cut_text(alloc, &document, found.triples)
}

fn is_white_space(text: &[u8]) -> bool
    ensures { result ≡ is_white_space text.now }
{
    text.iter().all(|b| *b == b' ' || *b == b'\t' || *b == b'\n' || *b == b'\r')
}
