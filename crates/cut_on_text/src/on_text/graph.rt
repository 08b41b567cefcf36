//! Which city objects are children of which, by their texts.
ghost use Rattle.std.specs.Prelude.{◌≡◌, ◌≢◌, ℕ, List, Contains, IfErr, IfOk, IfSome, IsUtf8, OnSome, Some, map, slice_get};
ghost use Rattle.std.specs.Borrow.{Bor};
ghost use Rattle.std.specs.List.{AllByRecursion, AllZip};
ghost use Rattle.city_json.specs.Compact.{quoted};
ghost use Rattle.city_json.specs.Tree.{Tree, string};
ghost use Rattle.cut_on_text.specs.PlacedObjects.{AreObjects};
ghost use Rattle.cut_on_text.specs.Faults.{RefusesKin};
ghost use Rattle.cut_on_text.specs.Graphs.{AreKin, HasRow, HaveRows, NamesMissing, SomeNamesMissing};
ghost use Rattle.cut_on_text.specs.Overviews.{HasChildrenIn, HasParentsIn};
ghost use Rattle.city_families.specs.Places.{ArePlaced};
ghost use Rattle.city_families.specs.Table.{IsTable};

use super::city_objects::CityObjects;
use super::kin::texts_of;
use super::names::ObjectNames;
use byte_streams::Fault;
use city_families::{Graph, Kin, check_belonging};
use std::alloc::Global;

/// The places of these names. `None`: one is not there, or out of memory.
fn places_of(alloc: Global, named: &[&[u8]], table: &ObjectNames<'_>) -> Option<Vec<usize>>
    ensures { IfSome result (λ places. (names : List (List ℕ)) → IsTable names table.now
        → ArePlaced names (map (λ (one : Bor (List ℕ)). string one.now) named.now) places.items) }
{
    let mut places = Vec::new(alloc);
    for name in named {
        let place = table.place(name)?;
        places.push(place).ok()?;
    }
    Some(places)
}

/// The places of the children that this text of an array names.
fn row_of(alloc: Global, text: &[u8], table: &ObjectNames<'_>) -> Option<Vec<usize>>
    ensures { IfSome result (λ row. (names : List (List ℕ)) → AllByRecursion IsUtf8 names
        → IsTable (map quoted names) table.now → HasRow names text.now row.items) }
{
    let named = texts_of(alloc, text)?;
    places_of(alloc, &named, table)
}

/// For each object the places of its children, of which the texts are given.
pub(super) fn graph_of(alloc: Global, children: &[&[u8]], table: &ObjectNames<'_>) -> Option<Graph>
    ensures { IfSome result (λ graph. (names : List (List ℕ)) → AllByRecursion IsUtf8 names
        → IsTable (map quoted names) table.now → HaveRows names children.now graph) }
{
    let mut graph = Graph::with_capacity(alloc, children.len()).ok()?;
    for text in children {
        let row = row_of(alloc, text, table)?;
        graph = graph.and_row(&row).ok()?;
    }
    Some(graph)
}

/// That one of these names is not there. `None`: all are.
fn missing_one(named: &[&[u8]], table: &ObjectNames<'_>) -> Option<()>
    ensures { OnSome result ((names : List (List ℕ)) → IsTable names table.now → (one : Bor (List ℕ))
        × Contains named.now one × ((k : ℕ) → slice_get names k ≢ Some one.now)) }
{
    for name in named {
        let Some(_) = table.place(name) else {
            return Some(());
        };
    }
    None
}

/// The fault that a child is missing which the array of this text names. `None`: none is, or it is no array of
/// texts, or out of memory.
fn missing_name(alloc: Global, text: &[u8], table: &ObjectNames<'_>) -> Option<Fault>
    ensures told { IfSome result (λ fault. fault ≡ Fault.ChildMissing) }
    ensures is { OnSome result ((names : List (List ℕ)) → AllByRecursion IsUtf8 names
        → IsTable (map quoted names) table.now → NamesMissing names text.now) }
{
    let named = texts_of(alloc, text)?;
    missing_one(&named, table)?;
    Some(Fault::ChildMissing)
}

/// The fault that a child is missing which an object names, of which the texts of the children are given. `None`:
/// none was found, or out of memory.
fn missing_child(alloc: Global, children: &[&[u8]], table: &ObjectNames<'_>) -> Option<Fault>
    ensures told { IfSome result (λ fault. fault ≡ Fault.ChildMissing) }
    ensures is { OnSome result ((names : List (List ℕ)) → AllByRecursion IsUtf8 names
        → IsTable (map quoted names) table.now → SomeNamesMissing names children.now) }
{
    for text in children {
        if let Some(fault) = missing_name(alloc, text, table) {
            return Some(fault);
        }
    }
    None
}

/// The city objects, of which these have parents, with these children, each in a family; or why they are refused. `None`:
/// some children are no array of texts, or out of memory.
pub(super) fn kin_of(
    alloc: Global,
    objects: &CityObjects<'_>,
    parents: Vec<bool>,
    children: Vec<&[u8]>,
) -> Option<Result<Kin, Fault>>
    requires objects { (pairs : List (List ℕ × Tree)) × AreObjects objects.now pairs }
    requires parents { AllZip (HasParentsIn objects.now.text) objects.now.places parents.items }
    requires children { AllZip (HasChildrenIn objects.now.text) objects.now.places children.items }
    ensures kin { IfSome result (λ kin. IfOk kin (λ kin. AreKin objects.now kin.children kin.parents.items)) }
    ensures refused { IfSome result (λ kin. IfErr kin (RefusesKin objects.now)) }
{
    let table = ObjectNames::new(alloc, objects)?;
    let Some(graph) = graph_of(alloc, &children, &table) else {
        let fault = missing_child(alloc, &children, &table)?;
        return Some(Err(fault));
    };
    drop(children);
    drop(table);
    match check_belonging(alloc, &graph, &parents) {
        Ok(meets) => Some(Ok(Kin {
            children: graph,
            parents,
            meets,
        })),
        Err(Fault::Orphan) => Some(Err(Fault::Orphan)),
        Err(_) => None,
    }
}
