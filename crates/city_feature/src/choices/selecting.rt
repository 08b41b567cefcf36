//! Whether a choice selects a feature.
ghost use Rattle.std.specs.Prelude.{◌↔◌, ℕ, List, IsTrue, IfSome, IfNone};
ghost use Rattle.city_json.specs.Tree.{tree};
ghost use Rattle.city_feature.specs.Area.{Meets};
ghost use Rattle.city_feature.specs.Choice.{HasType, IsChosen, IsTypeOf, Matches};
ghost use Rattle.city_feature.specs.Shapes.{Says};
ghost use Rattle.city_feature.specs.Values.{feature_value};

use crate::choices::Choice;
use crate::choices::area::Area;
use crate::choices::extents::meets;
use crate::choices::types::Types;
use crate::features::values::Feature;
use city_grid::Vertex;
use city_json::Json;

/// The text that is the value of the first member of that name.
fn text_at<'a>(value: &'a Json, name: &str) -> Option<&'a str>
    ensures some { IfSome result (λ text. Says name.now text.now (tree value.now)) }
    ensures none { IfNone result ((text : List ℕ) → ¬ Says name.now text (tree value.now)) }
{
    let Some(value) = value.get(name) else {
        return None;
    };
    let Json::Text(text) = value else {
        return None;
    };
    Some(text.as_str())
}

/// The type of the city object that the feature's `id` names.
fn type_of(feature: &Json) -> Option<&str>
    ensures some { IfSome result (λ name. IsTypeOf name.now (tree feature.now)) }
    ensures none { IfNone result ((name : List ℕ) → ¬ IsTypeOf name (tree feature.now)) }
{
    let Some(id) = text_at(feature, "id") else {
        return None;
    };
    let Some(objects) = feature.get("CityObjects") else {
        return None;
    };
    let Some(object) = objects.get(id) else {
        return None;
    };
    text_at(object, "type")
}

fn has_type(types: &Types, feature: &Json) -> bool
    ensures { IsTrue result ↔ HasType types.now (tree feature.now) }
{
    let Some(name) = type_of(feature) else {
        return false;
    };
    types.items().iter().any(|each| each.as_str() == name)
}

/// Whether the feature has one of the types, where there are any.
fn has_given_type(types: &Option<Types>, feature: &Json) -> bool
    ensures { IsTrue result ↔ IfSome types.now (λ types. HasType types (tree feature.now)) }
{
    match types {
        Some(types) => has_type(types, feature),
        None => true,
    }
}

/// Whether the extent of the vertices meets the area, where there is one.
pub fn meets_given_area(area: &Option<Area>, vertices: &[Vertex]) -> bool
    ensures { IsTrue result ↔ IfSome area.now (λ area. Meets area vertices.now) }
{
    match area {
        Some(area) => meets(area, vertices),
        None => true,
    }
}

fn matches(choice: &Choice, feature: &Feature) -> bool
    ensures { IsTrue result ↔ Matches choice.now (feature_value feature.now) }
{
    has_given_type(&choice.types, feature.json())
        && meets_given_area(&choice.area, feature.vertices())
}

/// Whether the choice selects the feature: it does where the feature's type is one of the given and
/// its extent meets the given area, as far as they are given; where they are excluded, it selects
/// all other features.
pub fn selects(choice: &Choice, feature: &Feature) -> bool
    ensures { IsTrue result ↔ IsChosen choice.now (feature_value feature.now) }
{
    matches(choice, feature) != choice.exclude
}
