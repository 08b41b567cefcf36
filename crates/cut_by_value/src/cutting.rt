//! A document cut by its value.
ghost use Rattle.std.specs.Prelude.{◌≡◌, [], ◌∷◌, List, IfOk, IfErr, OnOk, length, map};
ghost use Rattle.city_json.specs.Bytes.{close_brace};
ghost use Rattle.city_json.specs.Fits.{IsDistinct};
ghost use Rattle.city_json.specs.OpenNames.{AreEnds};
ghost use Rattle.city_json.specs.Tree.{tree};
ghost use Rattle.city_feature.specs.Feature.{FeatureValue};
ghost use Rattle.city_feature.specs.Values.{feature_value, header_value};
ghost use Rattle.city_families.specs.Cut.{HasFeatures, IsCut, IsCuttable, RefusesCut};
ghost use Rattle.city_families.specs.HeldTexts.{pieces, with_end};
ghost use Rattle.city_families.specs.Lines.{texts_of};

use crate::boundaries::check_boundaries;
use crate::cuts::{Cut, OpenCut};
use crate::documents::check_document;
use crate::features::keep_features;
use crate::headers::document_header;
use crate::keeping::{Keep, OpenTexts};
use crate::kin::kin_of;
use crate::values::{items_named, members_named};
use byte_streams::{Fault, Sequence};
use city_json::Json;
use std::alloc::Global;

/// Keeps the features of a document, once nothing of it is refused.
fn keep_document<K: Keep>(alloc: Global, document: &Json, kept: &mut K) -> Result<(), Fault>
    requires distinct { IsDistinct (tree document.now) }
    requires none { K.keeps kept.old [] }
    ensures ok { OnOk result ((features : List FeatureValue) × K.keeps kept.new features
        × HasFeatures (tree document.now) features) }
    ensures cuttable { OnOk result (IsCuttable (tree document.now)) }
    ensures refusal { IfErr result (λ fault. RefusesCut fault (tree document.now)) }
{
    check_document(document)?;
    let objects = members_named(document, "CityObjects");
    let kin = kin_of(alloc, objects)?;
    let vertices = items_named(document, "vertices");
    check_boundaries(alloc, objects, vertices.len())?;
    let appearance = document.get("appearance");
    keep_features(alloc, objects, vertices, appearance, &kin, kept)?;
    Ok(())
}

/// Cuts a document into a header and features (CityJSON 2.0, Text sequences and streaming with
/// CityJSONFeature). Each city object without parents begins a feature, with the objects that are reached from
/// it through children, in the document's order, and the vertices that their boundaries name, numbered by
/// first use. The appearance goes with each feature as a whole.
///
/// # Errors
///
/// In this order: [`Fault::NotCityJson`] where the value is no CityJSON object, or a city object is no object
/// or its parents or children are there and no array of texts; [`Fault::Version`]; [`Fault::NoTransform`],
/// [`Fault::Decimal`] or [`Fault::ScaleNotPositive`] by the transform; [`Fault::VertexShape`],
/// [`Fault::VertexNotInteger`] or [`Fault::VertexRange`] by the first faulty vertex; [`Fault::ChildMissing`]
/// where a child names no object; [`Fault::Orphan`] where an object is in no feature;
/// [`Fault::BoundaryIndex`] where a `geometry` is there and no array of objects, or a boundary no nested array
/// of plain decimal numbers of vertices. [`Fault::Memory`] may come in place of the last three, or of a cut.
pub fn cut(alloc: Global, document: Json) -> Result<Cut, Fault>
    requires { IsDistinct (tree document) }
    ensures ok { IfOk result (λ cut.
        IsCut (tree document) (header_value cut.header) (map feature_value cut.features)) }
    ensures cuttable { OnOk result (IsCuttable (tree document)) }
    ensures refusal { IfErr result (λ fault. RefusesCut fault (tree document)) }
{
    let mut features = Vec::new(alloc);
    keep_document(alloc, &document, &mut features)?;
    let header = document_header(alloc, document)?;
    let features = Sequence::from_vec(features);
    Ok(Cut { header, features })
}

/// Cuts a document as [`cut`] does, and writes each feature out once it is made, so that no more than one
/// is held as a value.
///
/// # Errors
///
/// Those of [`cut`].
pub fn open_cut(alloc: Global, document: Json) -> Result<OpenCut, Fault>
    requires { IsDistinct (tree document) }
    ensures ok { IfOk result (λ cut. (features : List FeatureValue)
        × IsCut (tree document) (header_value cut.header) features
        × AreEnds 0 cut.ends.items (length cut.own)
        × (with_end (close_brace ∷ []) (pieces cut.own 0 cut.ends.items) ≡ texts_of features)) }
    ensures cuttable { OnOk result (IsCuttable (tree document)) }
    ensures refusal { IfErr result (λ fault. RefusesCut fault (tree document)) }
{
    let mut open = OpenTexts::new(alloc);
    keep_document(alloc, &document, &mut open)?;
    let header = document_header(alloc, document)?;
    let OpenTexts { own, ends } = open;
    Ok(OpenCut { header, own, ends })
}
