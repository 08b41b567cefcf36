//! What the first line of a tile stands for.
ghost use Rattle.std.specs.Prelude.{◌≡◌, ◌⊎◌, List, IfOk, IfErr, IfNone, IfSome};
ghost use Rattle.city_json.specs.ObjectTexts.{object_of};
ghost use Rattle.city_json.specs.Triples.{HasTriples};
ghost use Rattle.city_families.specs.HeldTexts.{AreOwnParts, texts_in};
ghost use Rattle.city_families.specs.Lines.{texts_of};
ghost use Rattle.city_feature.specs.Feature.{FeatureValue};
ghost use Rattle.city_feature.specs.Header.{HoldsCity};
ghost use Rattle.city_feature.specs.Values.{header_value};
ghost use Rattle.tile_stream.specs.Head.{SpellsHeadOf, RefusesHead, HoldsHead, RefusesHeadValue, SpellsNoCity};

use byte_streams::{Fault, Line};
use city_cut::{CutTexts, FeatureTexts, cut_text};
use city_feature::{Header, header, holds_city};
use city_json::{ObjectText, Span, Workspace, compact_object, read};
use std::alloc::Global;

/// The header of a tile, and the number of the line that spells it, from 1.
#[derive(Debug, Drop)]
pub struct Head {
    pub header: Header,
    pub line: u64,
}

/// What a first line stands for: a header, and the texts of the features that the line holds itself.
#[derive(Debug, Drop)]
pub(crate) struct FirstLine {
    pub(crate) header: Header,
    pub(crate) texts: FeatureTexts,
}

/// What a first line stands for.
///
/// # Errors
///
/// Why it spells no value that is taken; else why that is no header, or why a document is not cut.
pub(crate) fn read_first_line(alloc: Global, bytes: &[u8]) -> Result<FirstLine, Fault>
    ensures ok { IfOk result (λ first.
        SpellsHeadOf bytes.now (header_value first.header) (texts_in first.texts)) }
    ensures own { IfOk result (λ first. AreOwnParts first.texts) }
    ensures refused { IfErr result (λ fault. RefusesHead fault bytes.now) }
{
    if let Some(first) = document_of(alloc, bytes)? {
        return Ok(first);
    }
    header_line(alloc, bytes)
}

/// The same of a line that spells a document with city objects or vertices; nothing where it spells another object.
fn document_of(alloc: Global, bytes: &[u8]) -> Result<Option<FirstLine>, Fault>
    ensures ok { IfOk result (λ found. IfSome found (λ first.
        SpellsHeadOf bytes.now (header_value first.header) (texts_in first.texts))) }
    ensures own { IfOk result (λ found. IfSome found (λ first. AreOwnParts first.texts)) }
    ensures none { IfOk result (λ found. IfNone found (SpellsNoCity bytes.now)) }
    ensures refused { IfErr result (λ fault. RefusesHead fault bytes.now) }
{
    let mut workspace = Workspace::new(alloc, Line::new(alloc));
    let Some(found) = compact_object(alloc, bytes, &mut workspace)? else {
        return Err(Fault::NotCityJson);
    };
    let buffer = workspace.into_line();
    document_line(alloc, &found.text(bytes, &buffer), found.triples)
}

/// The same of the object whose compact text this is, in which these triples stand.
fn document_line(
    alloc: Global,
    line: &ObjectText<'_>,
    triples: Span,
) -> Result<Option<FirstLine>, Fault>
    requires { HasTriples line.now.text triples }
    ensures ok { IfOk result (λ found. IfSome found (λ first. (features : List FeatureValue)
        × HoldsHead (object_of line.now) (header_value first.header) features
        × (texts_in first.texts ≡ texts_of features))) }
    ensures own { IfOk result (λ found. IfSome found (λ first. AreOwnParts first.texts)) }
    ensures none { IfOk result (λ found. IfNone found (¬ HoldsCity (object_of line.now))) }
    ensures refused { IfErr result (λ fault.
        (fault ≡ Fault.Memory) ⊎ RefusesHeadValue fault (object_of line.now)) }
{
    if !holds_city(line) {
        return Ok(None);
    }
    match cut_text(alloc, line, triples) {
        Ok(CutTexts { header, texts }) => Ok(Some(FirstLine { header, texts })),
        Err(fault) => Err(fault),
    }
}

/// The header that a line spells which spells no document with city objects or vertices.
fn header_line(alloc: Global, bytes: &[u8]) -> Result<FirstLine, Fault>
    requires { SpellsNoCity bytes.now }
    ensures ok { IfOk result (λ first.
        SpellsHeadOf bytes.now (header_value first.header) (texts_in first.texts)) }
    ensures own { IfOk result (λ first. AreOwnParts first.texts) }
    ensures refused { IfErr result (λ fault. RefusesHead fault bytes.now) }
{
    let value = read(alloc, bytes)?;
    let header = header(value)?;
    let texts = FeatureTexts::none(alloc);
    Ok(FirstLine { header, texts })
}
