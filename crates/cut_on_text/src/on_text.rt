//! A document cut on its compact text, with no tree of its objects.
//!
//! A step that answers `None` found its text at fault, or ran out of memory: [`cut_fault`](faults::cut_fault) tells why, or
//! the document is cut by its value.

mod bounds;
mod city_objects;
mod drafts;
mod faults;
mod features;
mod graph;
mod headers;
mod holders;
mod items;
mod kin;
pub(crate) mod made;
mod moving;
mod names;
mod notes;
mod numbers;
mod objects;
mod overview;
mod points;
mod ranges;
mod short_parts;
mod skeletons;
mod texts;
pub(crate) mod triples;

ghost use Rattle.std.specs.Prelude.{◌≡◌, ◌≢◌, ◌<◌, ◌^◌, ℕ, List, Option, IfErr, IfOk, IfSome, Some, Contains, codes, length};
ghost use Rattle.city_json.specs.Members.{first_named};
ghost use Rattle.city_json.specs.Triples.{HasTriples};
ghost use Rattle.city_json.specs.ObjectTexts.{IsPlacedObject, members_of, object_of};
ghost use Rattle.city_json.specs.Tree.{MemberTrees, Tree, member_trees, object};
ghost use Rattle.city_grid.specs.Axes.{Triple};
ghost use Rattle.city_feature.specs.Feature.{FeatureValue};
ghost use Rattle.city_feature.specs.Values.{header_value};
ghost use Rattle.city_families.specs.Boundaries.{IsBounded};
ghost use Rattle.city_families.specs.CityObjects.{AllBelong, AreCityObjects, IsReached, LacksChild, roots};
ghost use Rattle.city_families.specs.Cut.{AreFeatures, IsCut, IsCuttable, RefusesCut};
ghost use Rattle.city_families.specs.Families.{AreRelated};
ghost use Rattle.cut_on_text.specs.FeatureText.{IsTail, tail_text};
ghost use Rattle.city_families.specs.HeldTexts.{AreOwnParts, texts_in};
ghost use Rattle.cut_on_text.specs.PlacedObjects.{AreObjects};
ghost use Rattle.cut_on_text.specs.OwnFeatures.{AreOwnTexts};
ghost use Rattle.city_families.specs.Search.{InRange};
ghost use Rattle.city_families.specs.Lines.{texts_of};
ghost use Rattle.city_json.specs.CompactTexts.{IsCompactOf};
ghost use Rattle.cut_on_text.specs.VertexTexts.{HasPoints, HoldVertices, StandAt};

use crate::cuts::CutTexts;
use crate::held::FeatureTexts;
use byte_streams::{Fault, Line};
use city_families::Kin;
use city_feature::is_array;
use city_json::{ObjectText, Span};
use city_objects::CityObjects;
use faults::cut_fault;
use features::{are_short, feature_texts};
use graph::kin_of;
use headers::header_of;
use made::MadeTexts;
use overview::{Overview, overview_of};
use points::{GrownVertices, VertexTexts, written_vertices};
use skeletons::skeletons_of;
use std::alloc::Global;
use texts::{append_text, objects_text, vertices_text};
use triples::{starts_of_triples, triples_text};

/// Tells a proof that the document's text is compact, and does nothing.
fn known(document: &ObjectText<'_>)
    ensures is { IsPlacedObject document.now }
    ensures short { length document.now.text < 2 ^ 64 }
{
    let _ = document.text();
}

/// What stands after the vertices of each feature.
fn tail_of(alloc: Global, document: &ObjectText<'_>) -> Option<Line>
    ensures { IfSome result (λ tail. tail ≡ tail_text (first_named (codes "appearance") (members_of document.now))) }
{
    let mut tail = Line::new(alloc);
    let Some(appearance) = document.value(4, b"\"appearance\":") else {
        append_text(b"}", &mut tail)?;
        return Some(tail);
    };
    append_text(b",\"appearance\":", &mut tail)?;
    append_text(appearance, &mut tail)?;
    append_text(b"}", &mut tail)?;
    Some(tail)
}

/// The features that the families of the objects are: what each text has of its own is made when it is asked for.
/// `None`: a boundary is at fault, or a place is 2^32 or more, or out of memory.
fn made_texts(
    alloc: Global,
    objects: CityObjects<'_>,
    vertices: &VertexTexts<'_>,
    kin: Kin,
) -> Option<MadeTexts>
    requires places { length kin.children ≡ length objects.places }
    requires graph { InRange kin.children (length kin.children) }
    requires parents { length kin.parents.items ≡ length kin.children }
    requires objects { (pairs : List (List ℕ × Tree)) × AreObjects objects pairs
        × AreRelated pairs kin.children kin.parents.items }
    requires vertices { HoldVertices vertices.now.text.now vertices.now.starts.items }
    ensures { IfSome result (λ own. (pairs : List (List ℕ × Tree)) (appearance : Option Tree) (points : List Triple)
        → StandAt vertices.now.text.now vertices.now.starts.items points
        → AreObjects objects.entry pairs
        → AreRelated pairs kin.children kin.parents.items
        → AreOwnTexts (member_trees pairs) appearance points own) }
{
    let count = vertices.starts.len().saturating_sub(1);
    let skeletons = skeletons_of(alloc, &objects, count)?;
    drop(objects);
    MadeTexts::new(alloc, skeletons, vertices, kin)
}

/// Whether the texts of the features may be held: no object stands in two of them, and what they have beside their
/// objects is not the most of them.
fn can_be_held(objects: &CityObjects<'_>, vertices: &VertexTexts<'_>, kin: &Kin) -> bool {
    if kin.meets {
        return false;
    }
    !are_short(objects, vertices)
}

/// The texts of the features of the city objects whose compact text this is, on these vertices. Each ends in `tail`.
fn texts_on(
    alloc: Global,
    text: &[u8],
    vertices: &VertexTexts<'_>,
    tail: Line,
) -> Option<FeatureTexts>
    requires objects { (value : Tree) × IsCompactOf text.now value }
    requires vertices { HoldVertices vertices.now.text.now vertices.now.starts.items }
    requires tail { IsTail tail }
    ensures texts { IfSome result (λ texts. (value : Tree) (appearance : Option Tree) (points : List Triple)
        → IsCompactOf text.now value → StandAt vertices.now.text.now vertices.now.starts.items points
        → tail ≡ tail_text appearance
        → (members : MemberTrees) × (value ≡ object members)
        × AreCityObjects members
        × (¬ LacksChild members)
        × AllBelong members
        × (features : List FeatureValue)
        × (texts_in texts ≡ texts_of features)
        × AreFeatures members appearance points features
        × ((id name : List ℕ) (value : Tree) → Contains (roots members) id → IsReached members id name
        → first_named name members ≡ Some value → IsBounded (length points) value)) }
    ensures common { IfSome result (λ texts. texts.common ≡ tail) }
{
    let Overview {
        places,
        parents,
        children,
        held,
    } = overview_of(alloc, text)?;
    let objects = CityObjects::new(text, places, held);
    let Ok(kin) = kin_of(alloc, &objects, parents, children)? else {
        return None;
    };
    if can_be_held(&objects, vertices, &kin) {
        if let Some(own) = feature_texts(alloc, &objects, vertices, &kin)? {
            return Some(FeatureTexts::new(own, tail));
        }
    }
    let own = made_texts(alloc, objects, vertices, kin)?;
    Some(FeatureTexts::made(own, tail))
}

/// Cuts the document into features on these vertices, which are its own.
fn cut_on(alloc: Global, document: &ObjectText<'_>, vertices: &VertexTexts<'_>) -> Option<CutTexts>
    requires { HoldVertices vertices.now.text.now vertices.now.starts.items }
    ensures { IfSome result (λ cut. (points : List Triple) → HasPoints (members_of document.now) points
        → StandAt vertices.now.text.now vertices.now.starts.items points
        → IsCuttable (object_of document.now)
        × AreOwnParts cut.texts
        × (features : List FeatureValue) × IsCut (object_of document.now) (header_value cut.header) features
        × (texts_in cut.texts ≡ texts_of features)) }
{
    known(document);
    let objects = objects_text(document);
    let tail = tail_of(alloc, document)?;
    let header = header_of(alloc, document)?;
    let texts = texts_on(alloc, objects, vertices, tail)?;
    Some(CutTexts { header, texts })
}

/// Cuts the document, in which triples of whole numbers may be known to stand. `None`: it is at fault, or a place is
/// 2^32 or more, or out of memory.
fn cut_compacted_triples(
    alloc: Global,
    document: &ObjectText<'_>,
    triples: Span,
) -> Option<CutTexts>
    requires { HasTriples document.now.text triples }
    ensures { IfSome result (λ cut. IsCuttable (object_of document.now)
        × AreOwnParts cut.texts
        × (features : List FeatureValue) × IsCut (object_of document.now) (header_value cut.header) features
        × (texts_in cut.texts ≡ texts_of features)) }
{
    if let Some(text) = triples_text(document, triples) {
        let starts = starts_of_triples(alloc, text)?;
        return cut_on(alloc, document, &VertexTexts { text, starts });
    }
    let text = vertices_text(document);
    if !is_array(text) {
        return None;
    }
    let Ok(GrownVertices { text, starts }) = written_vertices(alloc, text) else {
        return None;
    };
    let text = text.items();
    cut_on(alloc, document, &VertexTexts { text, starts })
}

/// What its compact text tells of a document, in which triples of whole numbers may be known to stand, both as
/// [`city_json::compact_object`] gives them: it is cut, or refused for a fault that is not want of memory. `None`: a place
/// is 2^32 or more, or out of memory.
pub fn cut_known(
    alloc: Global,
    document: &ObjectText<'_>,
    triples: Span,
) -> Option<Result<CutTexts, Fault>>
    requires { HasTriples document.now.text triples }
    ensures cut { IfSome result (λ told. IfOk told (λ cut. IsCuttable (object_of document.now)
        × (features : List FeatureValue) × IsCut (object_of document.now) (header_value cut.header) features
        × (texts_in cut.texts ≡ texts_of features))) }
    ensures own { IfSome result (λ told. IfOk told (λ cut. AreOwnParts cut.texts)) }
    ensures refused { IfSome result (λ told. IfErr told (λ fault. RefusesCut fault (object_of document.now))) }
    ensures decided { IfSome result (λ told. IfErr told (λ fault. fault ≢ Fault.Memory)) }
{
    if let Some(cut) = cut_compacted_triples(alloc, document, triples) {
        return Some(Ok(cut));
    }
    Some(Err(cut_fault(alloc, document)?))
}
