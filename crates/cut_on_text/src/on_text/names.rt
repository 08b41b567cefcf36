//! The objects of a text in the order of their names.
ghost use Rattle.std.specs.Prelude.{◌≡◌, ◌≢◌, ℕ, List, IfSome, MatchOption, Some, map, slice_get};
ghost use Rattle.std.specs.Cmp.Lexicographic.{slice_cmp};
ghost use Rattle.std.specs.Ordering.{is_lt, nat_cmp};
ghost use Rattle.std.specs.List.Sorted.{IsPermutation, IsSortedBy};
ghost use Rattle.city_json.specs.Compact.{quoted};
ghost use Rattle.city_json.specs.Tree.{Tree};
ghost use Rattle.city_families.specs.Table.{AreFirst, IsTable, name_in};
ghost use Rattle.cut_on_text.specs.PlacedObjects.{AreObjects};

use super::city_objects::CityObjects;
use super::ranges::between;
use super::short_parts::ShortPart;
use std::alloc::Global;
use std::marker::Model;

/// The objects that lie in these parts of a text, in the order of their names. Contracts see the name of each, with its
/// marks, and its place.
#[derive(Drop)]
pub(super) struct ObjectNames<'a> {
    text: &'a [u8],
    parts: &'a [ShortPart],
    order: Vec<u32>,
}

impl<'a> Model for ObjectNames<'a> {
    ghost use Rattle.std.specs.Prelude.{ℕ, List, map};
    ghost use Rattle.std.specs.Borrow.{Bor};
    ghost use Rattle.city_families.specs.Table.{names_with};

    ghost Value = { List (Bor (List ℕ) × ℕ) };

    ghost view = { λ names. names_with names.text.now names.parts.now names.order.items };
}

/// The name of the object at a place, with its marks.
pub(super) fn name_at<'a>(text: &'a [u8], parts: &[ShortPart], at: usize) -> &'a [u8]
    ensures { result.now ≡ name_in text.now parts.now at }
{
    if at >= parts.len() {
        return between(text, 0, 0);
    }
    let part = parts[at].part();
    let name = between(text, part.at, part.value);
    between(name, 0, name.len().saturating_sub(1))
}

/// As many places as there are, in their order. `None`: out of memory.
fn first_places(alloc: Global, count: u32) -> Option<Vec<u32>>
    ensures { IfSome result (λ places. AreFirst count places.items) }
{
    let mut places = Vec::with_capacity(alloc, count as usize).ok()?;
    for at in 0..count {
        places.push(at).ok()?;
    }
    Some(places)
}

/// These places in the order of the names.
fn sort_places(text: &[u8], parts: &[ShortPart], places: &mut [u32])
    ensures permutation { IsPermutation places.old places.new }
    ensures sorted { IsSortedBy (λ x y. is_lt (slice_cmp nat_cmp (name_in text.now parts.now x)
        (name_in text.now parts.now y))) places.new }
{
    places.sort_unstable_by(|a, b| {
        name_at(text, parts, *a as usize).cmp(name_at(text, parts, *b as usize))
    });
}

impl<'a> ObjectNames<'a> {
    /// The names of these objects. `None`: there are 2^32 or more, or out of memory.
    pub(super) fn new(alloc: Global, objects: &'a CityObjects<'_>) -> Option<ObjectNames<'a>>
        ensures { IfSome result (λ table. (pairs : List (List ℕ × Tree)) → AreObjects objects.now pairs
            → IsTable (map (λ (pair : List ℕ × Tree). quoted pair.0) pairs) table) }
    {
        let text = objects.text();
        let parts = objects.places();
        let Ok(count) = u32::try_from(parts.len()) else {
            return None;
        };
        let mut order = first_places(alloc, count)?;
        sort_places(text, parts, &mut order);
        Some(ObjectNames { text, parts, order })
    }

    /// The place of a name.
    pub(super) fn place(&self, name: &[u8]) -> Option<usize>
        ensures { (names : List (List ℕ)) → IsTable names self.now
            → MatchOption result ((k : ℕ) → slice_get names k ≢ Some name.now)
            (λ k. slice_get names k ≡ Some name.now) }
    {
        let text = self.text;
        let parts = self.parts;
        match self
            .order
            .binary_search_by(|at| name_at(text, parts, *at as usize).cmp(name))
        {
            Ok(at) => Some(self.order[at] as usize),
            Err(_) => None,
        }
    }
}
