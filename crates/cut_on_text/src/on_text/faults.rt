//! Why a document is not cut, found on its compact text.
ghost use Rattle.std.specs.Prelude.{◌≡◌, ◌≢◌, ◌↔◌, List, IfSome, IsTrue, length};
ghost use Rattle.city_json.specs.ObjectTexts.{object_of};
ghost use Rattle.city_json.specs.Tree.{MemberTrees, Tree, object};
ghost use Rattle.city_grid.specs.Axes.{Triple};
ghost use Rattle.city_feature.specs.LineTexts.{SpellsVertices};
ghost use Rattle.city_json.specs.CompactTexts.{IsCompactOf};
ghost use Rattle.city_families.specs.CityObjects.{IsCityObject};
ghost use Rattle.city_families.specs.Cut.{RefusesCut};
ghost use Rattle.cut_on_text.specs.Faults.{HoldsCityObjects, RefusesObjects};

use super::bounds::boundary_fault;
use super::city_objects::CityObjects;
use super::graph::kin_of;
use super::headers::transform_there;
use super::kin::is_array_of_texts;
use super::overview::{Overview, overview_of};
use super::points::count_vertices;
use super::texts::{member_or, objects_text, parts_of, vertices_text};
use byte_streams::Fault;
use city_feature::{is_array, is_object};
use city_json::{ObjectText, between};
use std::alloc::Global;

/// Whether the value whose compact text this is is a city object. `None`: out of memory.
fn is_city_object(alloc: Global, text: &[u8]) -> Option<bool>
    ensures { IfSome result (λ is. (value : Tree) → IsCompactOf text.now value → (IsTrue is ↔ IsCityObject value)) }
{
    if !is_object(text) {
        return Some(false);
    }
    let parts = parts_of(alloc, text)?;
    let parents = member_or(text, &parts, b"\"parents\":", b"[]")?;
    if !is_array_of_texts(parents) {
        return Some(false);
    }
    let children = member_or(text, &parts, b"\"children\":", b"[]")?;
    Some(is_array_of_texts(children))
}

/// Whether it is an object of city objects.
fn are_city_objects(alloc: Global, text: &[u8]) -> Option<bool>
    ensures { IfSome result (λ are. (value : Tree) → IsCompactOf text.now value → (IsTrue are ↔ HoldsCityObjects value)) }
{
    if !is_object(text) {
        return Some(false);
    }
    let parts = parts_of(alloc, text)?;
    for part in &parts {
        let value = between(text, part.value, part.end)?;
        let is_one = is_city_object(alloc, value)?;
        if !is_one {
            return Some(false);
        }
    }
    Some(true)
}

/// Why the city objects of this text are refused, whose boundaries name so many vertices. `None`: none was found, or
/// out of memory.
fn objects_fault(alloc: Global, text: &[u8], vertices: usize) -> Option<Fault>
    requires { (value : Tree) × IsCompactOf text.now value }
    ensures { IfSome result (λ fault. (value : Tree) → IsCompactOf text.now value
        → (members : MemberTrees) × (value ≡ object members) × RefusesObjects fault vertices members) }
{
    let Overview {
        places,
        parents,
        children,
        held,
    } = overview_of(alloc, text)?;
    let objects = CityObjects::new(text, places, held);
    if let Err(fault) = kin_of(alloc, &objects, parents, children)? {
        return Some(fault);
    }
    boundary_fault(alloc, &objects, vertices)
}

/// The fault, unless it is want of memory.
fn unless_memory(fault: Fault) -> Option<Fault>
    ensures same { IfSome result (λ told. told ≡ fault) }
    ensures decided { IfSome result (λ told. told ≢ Fault.Memory) }
{
    if fault == Fault::Memory {
        return None;
    }
    Some(fault)
}

/// Why the document whose compact text this is is not cut. `None`: no fault was found, as where it is cut,
/// or out of memory.
pub(super) fn cut_fault(alloc: Global, document: &ObjectText<'_>) -> Option<Fault>
    ensures refused { IfSome result (λ fault. RefusesCut fault (object_of document.now)) }
    ensures decided { IfSome result (λ fault. fault ≢ Fault.Memory) }
{
    let objects = objects_text(document);
    let vertices = vertices_text(document);
    if !is_array(vertices) {
        return Some(Fault::NotCityJson);
    }
    let holds = are_city_objects(alloc, objects)?;
    if !holds {
        return Some(Fault::NotCityJson);
    }
    if let Err(fault) = transform_there(alloc, document)? {
        return Some(fault);
    }
    match count_vertices(alloc, vertices) {
        Ok(count) => objects_fault(alloc, objects, count),
        Err(fault) => unless_memory(fault),
    }
}
