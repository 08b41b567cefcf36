//! City objects by their identifiers, and their children.
ghost use Rattle.std.specs.Prelude.{◌≡◌, ◌≢◌, ◌⊎◌, ℕ, List, map, Some, Contains, IfOk, IfErr};
ghost use Rattle.std.specs.Prelude.{MatchOption, slice_get};
ghost use Rattle.city_json.specs.Members.{names};
ghost use Rattle.city_json.specs.Tree.{Tree, tree, named_tree, members_tree, string};
ghost use Rattle.city_families.specs.CityObjects.{children, has_parents, is_filled};
ghost use Rattle.city_families.specs.Places.{ArePlaced, IsGraph};
ghost use Rattle.city_families.specs.Items.{values};
ghost use Rattle.city_families.specs.Table.{IsTable};

use crate::values::{items_named, name_of, text_of, value_of};
use byte_streams::Fault;
use city_families::Graph;
use city_json::{Json, Member};
use std::alloc::Global;

/// The names of the objects with their places, in the order of the names. The only fault is [`Fault::Memory`].
fn table(alloc: Global, objects: &[Member]) -> Result<Vec<(&[u8], usize)>, Fault>
    ensures ok { IfOk result (λ pairs. IsTable (names (members_tree objects.now)) pairs.items) }
    ensures fault { IfErr result (λ fault. fault ≡ Fault.Memory) }
{
    let mut pairs = Vec::with_capacity(alloc, objects.len())?;
    for (at, member) in objects.iter().enumerate() {
        pairs.push_reserved((name_of(member).as_bytes(), at));
    }
    pairs.sort_unstable();
    Ok(pairs)
}

/// The place of a name.
fn place(table: &[(&[u8], usize)], name: &[u8]) -> Option<usize>
    ensures { (names : List (List ℕ)) → IsTable names table.now
        → MatchOption result ((k : ℕ) → slice_get names k ≢ Some name.now)
        (λ k. slice_get names k ≡ Some name.now) }
{
    match table.binary_search_by_key(&name, |pair| pair.0) {
        Ok(at) => Some(table[at].1),
        Err(_) => None,
    }
}

/// The places of the names that stand among the values.
fn places_of(alloc: Global, named: &[Json], table: &[(&[u8], usize)]) -> Result<Vec<usize>, Fault>
    ensures ok { IfOk result (λ places. (names : List (List ℕ)) → IsTable names table.now
        → ArePlaced names (map tree named.now) places.items) }
    ensures fault { IfErr result (λ fault. (fault ≡ Fault.Memory)
        ⊎ ((fault ≡ Fault.ChildMissing) × ((names : List (List ℕ)) → IsTable names table.now
        → (name : List ℕ) × Contains (map tree named.now) (string name)
        × ((k : ℕ) → slice_get names k ≢ Some name)))) }
{
    let mut places = Vec::new(alloc);
    for value in named {
        let Some(name) = text_of(value) else {
            continue;
        };
        let Some(place) = place(table, name.as_bytes()) else {
            return Err(Fault::ChildMissing);
        };
        places.push(place)?;
    }
    Ok(places)
}

/// The places of an object's children.
fn children_of(alloc: Global, object: &Json, table: &[(&[u8], usize)]) -> Result<Vec<usize>, Fault>
    ensures ok { IfOk result (λ places. (names : List (List ℕ)) → IsTable names table.now
        → ArePlaced names (children (tree object.now)) places.items) }
    ensures fault { IfErr result (λ fault. (fault ≡ Fault.Memory)
        ⊎ ((fault ≡ Fault.ChildMissing) × ((names : List (List ℕ)) → IsTable names table.now
        → (name : List ℕ) × Contains (children (tree object.now)) (string name)
        × ((k : ℕ) → slice_get names k ≢ Some name)))) }
{
    places_of(alloc, items_named(object, "children"), table)
}

/// For each object the places of its children.
pub(crate) fn children(alloc: Global, objects: &[Member]) -> Result<Graph, Fault>
    ensures ok { IfOk result (λ graph. IsGraph (members_tree objects.now) graph) }
    ensures fault { IfErr result (λ fault. (fault ≡ Fault.Memory)
        ⊎ ((fault ≡ Fault.ChildMissing) × (object : Tree)
        × Contains (values (members_tree objects.now)) object
        × (name : List ℕ) × Contains (children object) (string name)
        × ((k : ℕ) → slice_get (names (members_tree objects.now)) k ≢ Some name))) }
{
    let table = table(alloc, objects)?;
    let mut graph = Graph::with_capacity(alloc, objects.len())?;
    for member in objects {
        let row = children_of(alloc, value_of(member), &table)?;
        graph = graph.and_row(&row)?;
    }
    Ok(graph)
}

/// Whether it is no empty array.
fn is_filled(value: &Json) -> bool
    ensures { result ≡ is_filled (Some (tree value.now)) }
{
    match value {
        Json::List(items) => !items.is_empty(),
        _ => true,
    }
}

/// Whether the object names parents.
pub(crate) fn has_parents(object: &Json) -> bool
    ensures { result ≡ has_parents (tree object.now) }
{
    match object.get("parents") {
        Some(found) => is_filled(found),
        None => false,
    }
}

/// Whether each object names parents. The only fault is [`Fault::Memory`].
pub(crate) fn parents(alloc: Global, objects: &[Member]) -> Result<Vec<bool>, Fault>
    ensures ok { IfOk result (λ parents. parents.items ≡ map (λ pair. has_parents pair.1) (map named_tree objects.now)) }
    ensures fault { IfErr result (λ fault. fault ≡ Fault.Memory) }
{
    let mut parents = Vec::with_capacity(alloc, objects.len())?;
    for member in objects {
        parents.push(has_parents(value_of(member)))?;
    }
    Ok(parents)
}
