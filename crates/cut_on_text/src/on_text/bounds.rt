//! Boundaries that are at fault (CityJSON 2.0, Geometry Objects), found on the texts of city objects with no value of them.
//! A boundary is an array of arrays, down to numbers of vertices, each below the count of the document's vertices. What is
//! found to be wrong is so; where nothing is found, nothing is said.
ghost use Rattle.std.specs.Prelude.{◌≡◌, ◌∷◌, [], ◌++◌, ◌<◌, ◌^◌, ℕ, List, Option, Some, IfNone, IfSome, OnSome, IsUtf8};
ghost use Rattle.std.specs.List.{AllByRecursion};
ghost use Rattle.city_json.specs.Bytes.{colon};
ghost use Rattle.city_json.specs.Compact.{quoted};
ghost use Rattle.city_json.specs.Members.{member_of};
ghost use Rattle.city_json.specs.Parts.{AreParts};
ghost use Rattle.city_json.specs.Tree.{ItemTrees, MemberTrees, Tree, array, member_trees, object};
ghost use Rattle.city_json.specs.declared.compacting.places.MemberPlace.{MemberPlace};
ghost use Rattle.city_json.specs.CompactTexts.{IsCompactOf};
ghost use Rattle.city_families.specs.Boundaries.{IsBounded, own_boundary};
ghost use Rattle.cut_on_text.specs.Bounds.{AreBounds};
ghost use Rattle.cut_on_text.specs.Holders.{AreHeld, IsHeld};
ghost use Rattle.city_families.specs.Items.{item_list, values};
ghost use Rattle.city_families.specs.Leaves.{IsBoundary};
ghost use Rattle.cut_on_text.specs.PlacedObjects.{AreObjects};
ghost use Rattle.cut_on_text.specs.Overviews.{HasHolders, IsHolderPart};

use super::city_objects::CityObjects;
use super::holders::{HeldParts, Holder};
use super::texts::parts_of;
use byte_streams::Fault;
use city_feature::{is_array, is_object};
use city_json::{ItemTexts, MemberPlace, between, part_named};
use std::alloc::Global;

/// The number that the digits write up to this one, where those before it write `value`; 0 after a bracket or a comma.
/// `None`: no boundary has this byte there.
fn value_with(value: u128, byte: u8, count: usize) -> Option<u128>
    requires { value < 2 ^ 64 }
    ensures small { IfSome result (λ next. next < 2 ^ 64) }
    ensures on { IfSome result (λ next. (rest : List ℕ) → AreBounds count value (byte ∷ rest)
        → AreBounds count next rest) }
    ensures none { IfNone result ((rest : List ℕ) → ¬ AreBounds count value (byte ∷ rest)) }
{
    if byte == b'[' || byte == b']' || byte == b',' {
        return Some(0);
    }
    if !byte.is_ascii_digit() {
        return None;
    }
    let next = value * 10 + u128::from(byte - b'0');
    if next >= count as u128 {
        return None;
    }
    Some(next)
}

/// That a byte stands here which stands in no boundary of so many vertices. `None`: there is none.
fn wrong_byte(text: &[u8], count: usize) -> Option<()>
    ensures { OnSome result (¬ AreBounds count 0 text.now) }
{
    let mut value = 0u128;
    for byte in text {
        let Some(next) = value_with(value, *byte, count) else {
            return Some(());
        };
        value = next;
    }
    None
}

/// That no boundary of so many vertices has this compact text. `None`: none was found that would say so.
fn wrong_boundary(text: &[u8], count: usize) -> Option<()>
    ensures { OnSome result ((value : Tree) → IsCompactOf text.now value → ¬ IsBoundary count value) }
{
    if !is_array(text) {
        return Some(());
    }
    wrong_byte(text, count)
}

/// The text of a member of the value whose compact text this is. The name is given with its marks and its colon. `None`: there
/// is no such member, or out of memory.
fn text_named<'a>(alloc: Global, text: &'a [u8], name: &[u8]) -> Option<&'a [u8]>
    ensures { IfSome result (λ found. (value : Tree) → IsCompactOf text.now value → (named : List ℕ) → IsUtf8 named
        → name.now ≡ quoted named ++ colon ∷ []
        → (inner : Tree) × (member_of named value ≡ Some inner) × IsCompactOf found.now inner) }
{
    let parts = parts_of(alloc, text)?;
    let part = part_named(text, &parts, name)?;
    between(text, part.value, part.end)
}

/// What is wrong with the member `boundaries` of a geometry or a location.
fn wrong_own(alloc: Global, text: &[u8], count: usize) -> Option<()>
    ensures { OnSome result ((value : Tree) → IsCompactOf text.now value
        → ¬ AllByRecursion (IsBoundary count) (own_boundary value)) }
{
    let boundary = text_named(alloc, text, b"\"boundaries\":")?;
    wrong_boundary(boundary, count)
}

/// A geometry that is no object, or a wrong boundary of a geometry or an address.
fn wrong_item(alloc: Global, text: &[u8], holder: Holder, count: usize) -> Option<()>
    ensures { OnSome result ((value : Tree) → IsCompactOf text.now value → ¬ IsHeld holder count value) }
{
    match holder {
        Holder::Geometry => {
            if !is_object(text) {
                return Some(());
            }
            wrong_own(alloc, text, count)
        }
        Holder::Address => {
            let location = text_named(alloc, text, b"\"location\":")?;
            wrong_own(alloc, location, count)
        }
    }
}

/// One of these items that is wrong so.
fn wrong_one(alloc: Global, items: &mut ItemTexts<'_>, holder: Holder, count: usize) -> Option<()>
    ensures { OnSome result ((all : ItemTrees) → IsCompactOf items.old (array all)
        → ¬ AllByRecursion (IsHeld holder count) (item_list all)) }
{
    'items: loop {
        let one = items.next()?;
        if let Some(()) = wrong_item(alloc, one, holder, count) {
            return Some(());
        }
    }
}

/// Geometries that are no array, or one of them, or one of the addresses, that is wrong.
fn wrong_text(alloc: Global, text: &[u8], holder: Holder, count: usize) -> Option<()>
    ensures { OnSome result ((value : Tree) → IsCompactOf text.now value → ¬ AreHeld holder count value) }
{
    if let Some(mut items) = ItemTexts::new(text) {
        return wrong_one(alloc, &mut items, holder, count);
    }
    match holder {
        Holder::Geometry => Some(()),
        Holder::Address => None,
    }
}

/// What is wrong with those in this part of a city object, if it has them.
fn wrong_part(
    alloc: Global,
    text: &[u8],
    part: Option<MemberPlace>,
    holder: Holder,
    count: usize,
) -> Option<()>
    ensures { OnSome result ((parts : List MemberPlace) → IsHolderPart holder text.now parts part
        → (members : MemberTrees) → IsCompactOf text.now (object members) → AreParts 1 parts members
        → ¬ IsBounded count (object members)) }
{
    let part = part?;
    let held = between(text, part.value, part.end)?;
    wrong_text(alloc, held, holder, count)
}

/// What is wrong with the boundaries of a city object.
fn wrong_object(alloc: Global, text: &[u8], held: &HeldParts, count: usize) -> Option<()>
    requires { HasHolders text.now held.now }
    ensures { OnSome result ((value : Tree) → IsCompactOf text.now value → ¬ IsBounded count value) }
{
    if let Some(()) = wrong_part(alloc, text, held.geometry, Holder::Geometry, count) {
        return Some(());
    }
    wrong_part(alloc, text, held.address, Holder::Address, count)
}

/// The fault of city objects of which one has a wrong boundary. `None`: none was found.
pub(super) fn boundary_fault(
    alloc: Global,
    objects: &CityObjects<'_>,
    vertices: usize,
) -> Option<Fault>
    ensures { IfSome result (λ fault. (fault ≡ Fault.BoundaryIndex)
        × ((pairs : List (List ℕ × Tree)) → AreObjects objects.now pairs
        → ¬ AllByRecursion (IsBounded vertices) (values (member_trees pairs)))) }
{
    for at in 0..objects.len() {
        let one = objects.object(at)?;
        if let Some(()) = wrong_object(alloc, one.value, &one.held, vertices) {
            return Some(Fault::BoundaryIndex);
        }
    }
    None
}
