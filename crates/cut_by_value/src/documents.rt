//! Whether a value is a document that can be cut, as far as it takes no memory to tell.
ghost use Rattle.std.specs.Prelude.{◌↔◌, IsTrue, IfErr, OnOk, ℕ, List};
ghost use Rattle.city_json.specs.Members.{member_of};
ghost use Rattle.city_json.specs.Tree.{tree, items_tree, members_tree};
ghost use Rattle.city_grid.specs.Axes.{Triple};
ghost use Rattle.city_feature.specs.Feature.{AreVertices, RefusesFirst};
ghost use Rattle.city_feature.specs.Shapes.{WhereThere};
ghost use Rattle.city_families.specs.CityObjects.{AllTexts, AreCityObjects, AreTexts, IsCityObject};
ghost use Rattle.city_families.specs.Cut.{HasFrame, HasValidVertices, RefusesCut};

use crate::values::{is_object, is_text, items_named, members_named, value_of};
use byte_streams::Fault;
use city_feature::header_transform;
use city_grid::vertex;
use city_json::{Json, Member};

fn all_texts(items: &[Json]) -> bool
    ensures { IsTrue result ↔ AllTexts (items_tree items.now) }
{
    for item in items {
        if !is_text(item) {
            return false;
        }
    }
    true
}

/// Whether the member of this name is an array of texts, where it is there.
fn are_texts_where_there(value: &Json, name: &str) -> bool
    ensures { IsTrue result ↔ WhereThere AreTexts (member_of name.now (tree value.now)) }
{
    match value.get(name) {
        Some(Json::List(items)) => all_texts(items),
        Some(_) => false,
        None => true,
    }
}

fn is_city_object(value: &Json) -> bool
    ensures { IsTrue result ↔ IsCityObject (tree value.now) }
{
    is_object(value)
        && are_texts_where_there(value, "parents")
        && are_texts_where_there(value, "children")
}

fn are_city_objects(objects: &[Member]) -> bool
    ensures { IsTrue result ↔ AreCityObjects (members_tree objects.now) }
{
    for member in objects {
        if !is_city_object(value_of(member)) {
            return false;
        }
    }
    true
}

/// Refuses a value that is no CityJSON object of version 2.0 on a grid.
fn check_frame(value: &Json) -> Result<(), Fault>
    ensures ok { OnOk result (HasFrame (tree value.now)) }
    ensures refusal { IfErr result (λ fault. RefusesCut fault (tree value.now)) }
{
    if !are_city_objects(members_named(value, "CityObjects")) {
        return Err(Fault::NotCityJson);
    }
    let _ = header_transform(value)?;
    Ok(())
}

/// Refuses the first item that is no vertex.
fn check_vertices(items: &[Json]) -> Result<(), Fault>
    ensures ok { OnOk result ((points : List Triple) × AreVertices (items_tree items.now) points) }
    ensures refusal { IfErr result (λ fault. RefusesFirst fault (items_tree items.now)) }
{
    for item in items {
        let _ = vertex(item)?;
    }
    Ok(())
}

/// Refuses anything but a CityJSON document with valid vertices. It takes no memory.
pub(crate) fn check_document(value: &Json) -> Result<(), Fault>
    ensures ok { OnOk result (HasValidVertices (tree value.now)) }
    ensures refusal { IfErr result (λ fault. RefusesCut fault (tree value.now)) }
{
    check_frame(value)?;
    check_vertices(items_named(value, "vertices"))
}
