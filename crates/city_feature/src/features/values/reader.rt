//! A value taken as a feature, or why it is none.
ghost use Rattle.std.specs.Prelude.{◌≡◌, ◌⊎◌, ◌↔◌, IsTrue, IfOk, IfErr, IfSome, IfNone, Some, codes};
ghost use Rattle.city_json.specs.Members.{member_of};
ghost use Rattle.city_json.specs.Tree.{array, items_tree, tree};
ghost use Rattle.city_feature.specs.Feature.{AreVertices, HasFeatureShape, IsFeature};
ghost use Rattle.city_feature.specs.Feature.{RefusesFeature, RefusesFirst};
ghost use Rattle.city_feature.specs.Shapes.{IsArray, IsThere};

use crate::features::values::Feature;
use crate::kinds::{MemberKind, is_there, says};
use byte_streams::Fault;
use city_grid::{Vertex, vertex};
use city_json::Json;
use std::alloc::Global;

fn has_feature_shape(value: &Json) -> bool
    ensures { IsTrue result ↔ HasFeatureShape (tree value.now) }
{
    says(value, "type", "CityJSONFeature")
        && is_there(value, "id", MemberKind::Text)
        && is_there(value, "CityObjects", MemberKind::Object)
        && is_there(value, "vertices", MemberKind::Array)
}

/// The items of the array of that name.
fn array_named<'a>(value: &'a Json, name: &str) -> Option<&'a [Json]>
    ensures some { IfSome result (λ items.
        member_of name.now (tree value.now) ≡ Some (array (items_tree items.now))) }
    ensures none { IfNone result (¬ IsThere IsArray (member_of name.now (tree value.now))) }
{
    let Some(Json::List(items)) = value.get(name) else {
        return None;
    };
    Some(items)
}

/// The vertices that the items are, in order.
fn read_vertices(alloc: Global, items: &[Json]) -> Result<Vec<Vertex>, Fault>
    ensures ok { IfOk result (λ vertices. AreVertices (items_tree items.now) vertices.items) }
    ensures refusal { IfErr result (λ fault.
        (fault ≡ Fault.Memory) ⊎ RefusesFirst fault (items_tree items.now)) }
{
    let mut vertices = Vec::with_capacity(alloc, items.len())?;
    for item in items {
        vertices.push_reserved(vertex(item)?);
    }
    Ok(vertices)
}

/// The vertices of a value that is a feature.
fn feature_vertices(alloc: Global, value: &Json) -> Result<Vec<Vertex>, Fault>
    ensures ok { IfOk result (λ vertices. IsFeature (tree value.now) vertices.items) }
    ensures refusal { IfErr result (λ fault. RefusesFeature fault (tree value.now)) }
{
    if !has_feature_shape(value) {
        return Err(Fault::NotAFeature);
    }
    let Some(items) = array_named(value, "vertices") else {
        return Err(Fault::NotAFeature);
    };
    read_vertices(alloc, items)
}

/// Takes a value as a feature.
///
/// # Errors
///
/// [`Fault::NotAFeature`] where it is no object, or its `type` is not the text `CityJSONFeature`,
/// or its `id` is no text, or its `CityObjects` is no object, or its `vertices` is no array; else
/// [`Fault::VertexShape`], [`Fault::VertexNotInteger`] or [`Fault::VertexRange`] by the first of
/// its vertices that is at fault. [`Fault::Memory`] where there is not enough memory for the
/// vertices.
pub fn feature(alloc: Global, json: Json) -> Result<Feature, Fault>
    ensures ok { IfOk result (λ feature.
        (feature.json ≡ json) × IsFeature (tree json) feature.vertices) }
    ensures refusal { IfErr result (λ fault. RefusesFeature fault (tree json)) }
{
    let vertices = feature_vertices(alloc, &json)?;
    Ok(Feature { json, vertices })
}
