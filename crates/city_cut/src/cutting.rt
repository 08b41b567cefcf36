//! A document cut by its value into texts.
ghost use Rattle.std.specs.Prelude.{◌≡◌, [], ◌∷◌, List, IfOk, IfErr, OnOk};
ghost use Rattle.city_json.specs.Bytes.{close_brace};
ghost use Rattle.city_json.specs.Fits.{IsDistinct};
ghost use Rattle.city_json.specs.Tree.{tree};
ghost use Rattle.city_feature.specs.Feature.{FeatureValue};
ghost use Rattle.city_feature.specs.Values.{header_value};
ghost use Rattle.city_families.specs.Cut.{IsCut, IsCuttable, RefusesCut};
ghost use Rattle.city_families.specs.HeldTexts.{texts_in};
ghost use Rattle.city_families.specs.Lines.{texts_of};

use byte_streams::{Fault, Line};
use city_json::Json;
use cut_by_value::{OpenCut, open_cut};
use cut_on_text::{CutTexts, FeatureTexts};
use std::alloc::{AllocError, Global};

/// The end that texts have in common where each has its appearance before it.
fn brace(alloc: Global) -> Result<Line, AllocError>
    ensures { IfOk result (λ line. line ≡ close_brace ∷ []) }
{
    let mut line = Line::new(alloc);
    line.append(b"}")?;
    Ok(line)
}

/// Cuts a document as [`cut`](cut_by_value::cut) does, and writes each feature out once it is made, so that no more than one
/// is held as a value. The texts end in a brace in common.
///
/// # Errors
///
/// Those of [`cut`](cut_by_value::cut).
pub fn cut_texts(alloc: Global, document: Json) -> Result<CutTexts, Fault>
    requires { IsDistinct (tree document) }
    ensures ok { IfOk result (λ cut. (features : List FeatureValue)
        × IsCut (tree document) (header_value cut.header) features
        × (texts_in cut.texts ≡ texts_of features)) }
    ensures ends { IfOk result (λ cut. cut.texts.common ≡ close_brace ∷ []) }
    ensures cuttable { OnOk result (IsCuttable (tree document)) }
    ensures refusal { IfErr result (λ fault. RefusesCut fault (tree document)) }
{
    let OpenCut { header, own, ends } = open_cut(alloc, document)?;
    let texts = FeatureTexts::held(own, ends, brace(alloc)?);
    Ok(CutTexts { header, texts })
}
