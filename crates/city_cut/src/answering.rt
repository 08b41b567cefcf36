//! A document cut on its compact text, with an answer always: on the text, or, where that is silent, by its value.
ghost use Rattle.std.specs.Prelude.{◌≡◌, IfErr, IfOk};
ghost use Rattle.city_json.specs.CompactTexts.{IsCompactOf};
ghost use Rattle.city_json.specs.Fits.{IsDistinct};
ghost use Rattle.city_json.specs.ObjectTexts.{object_of};
ghost use Rattle.city_json.specs.Tree.{Tree, tree};
ghost use Rattle.city_json.specs.Triples.{HasTriples};
ghost use Rattle.city_feature.specs.Values.{header_value};
ghost use Rattle.city_cut.specs.CutTexts.{CutsInto, RefusesRead};
ghost use Rattle.city_families.specs.HeldTexts.{AreOwnParts, texts_in};

use crate::cutting::cut_texts;
use byte_streams::Fault;
use city_json::{Json, ObjectText, Span, read};
use cut_on_text::{CutTexts, cut_known};
use std::alloc::Global;

/// Cuts the document whose compact text this is, in which triples of whole numbers may be known to stand, both as
/// [`city_json::compact_object`] gives them (CityJSON 2.0, Text sequences and streaming with CityJSONFeature).
///
/// # Errors
///
/// Those of [`cut`](crate::cut), in the same order. [`Fault::Memory`] may come in place of each, and of a cut.
pub fn cut_text(alloc: Global, document: &ObjectText<'_>, triples: Span) -> Result<CutTexts, Fault>
    requires { HasTriples document.now.text triples }
    ensures ok { IfOk result (λ cut.
        CutsInto (object_of document.now) (header_value cut.header) (texts_in cut.texts)) }
    ensures own { IfOk result (λ cut. AreOwnParts cut.texts) }
    ensures refused { IfErr result (λ fault. RefusesRead fault (object_of document.now)) }
{
    if let Some(told) = cut_known(alloc, document, triples) {
        return told;
    }
    let text = document.text();
    let value = read_again(alloc, text)?;
    cut_texts(alloc, value)
}

/// The value of the document whose compact text this is. The only fault is [`Fault::Memory`].
fn read_again(alloc: Global, text: &[u8]) -> Result<Json, Fault>
    requires { (document : Tree) × IsCompactOf text.now document }
    ensures value { IfOk result (λ value. (document : Tree) → IsCompactOf text.now document → tree value ≡ document) }
    ensures distinct { IfOk result (λ value. IsDistinct (tree value)) }
    ensures fault { IfErr result (λ fault. fault ≡ Fault.Memory) }
{
    read(alloc, text)
}
