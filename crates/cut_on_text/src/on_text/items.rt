//! Geometries and addresses, copied with labels of their own at the leaves of their boundaries.
ghost use Rattle.std.specs.Prelude.{◌≡◌, ◌++◌, ◌≤◌, ◌<◌, ◌⊎◌, ◌∷◌, [], ℕ, List, length, drop, take, slice_index, IfSome, OnSome, IsTrue, codes};
ghost use Rattle.std.specs.List.{flat_map};
ghost use Rattle.city_json.specs.Bytes.{close_brace, colon, comma};
ghost use Rattle.city_json.specs.Compact.{compact, quoted};
ghost use Rattle.city_json.specs.CompactEnds.{LeavesValue};
ghost use Rattle.city_json.specs.CompactMembers.{HasParts};
ghost use Rattle.city_json.specs.Tree.{ItemTrees, Tree, array, item, no_items};
ghost use Rattle.city_json.specs.Writable.{IsWritable};
ghost use Rattle.city_json.specs.declared.compacting.places.MemberPlace.{MemberPlace};
ghost use Rattle.city_families.specs.Boundaries.{IsAddress, IsGeometry, address_boundary, in_member, own_boundary};
ghost use Rattle.city_families.specs.Boundaries.{relabelled_boundary};
ghost use Rattle.city_json.specs.FrontMembers.{HasFrontParts, IsValuePlace};
ghost use Rattle.cut_on_text.specs.Holders.{AreHeld, IsHeld, boundary_in, held_uses, relabelled_held, relabelled_in};
ghost use Rattle.city_families.specs.Leaves.{IsBoundary, leaves, relabelled};
ghost use Rattle.cut_on_text.specs.Walks.{Walks};
ghost use Rattle.city_json.specs.CompactTexts.{IsCompactOf};

use super::drafts::{Copier, Labels, copy_items};
use super::holders::Holder;
use super::texts::{append_back, append_front, append_text, parts_of};
use city_grid::byte_is;
use city_json::{
    ItemTexts, MemberPlace, between, end_after, members_at, members_of_compact, part_named,
    value_place,
};

/// Brackets nest no deeper than this in the brackets of a boundary.
const MAX_LEVELS: usize = 127;

/// Whether a member of an object ends at a place.
#[inline(always)]
fn ends_member(text: &[u8], at: usize) -> bool
    ensures { IsTrue result → (at < length text.now)
        × ((slice_index text.now at ≡ comma) ⊎ (slice_index text.now at ≡ close_brace)) }
{
    if byte_is(text, at, b',') {
        return true;
    }
    byte_is(text, at, b'}')
}

/// Copies a boundary.
fn append_boundary<L: Labels>(text: &[u8], copier: &mut Copier<L>) -> Option<()>
    ensures count { OnSome result (L.count copier.new.labels ≡ L.count copier.old.labels) }
    ensures made { OnSome result ((value : Tree) → IsWritable value → text.now ≡ compact value
        → IsBoundary (L.count copier.old.labels) value
        × Walks L.labelled copier.old.labels copier.old.draft.line copier.new.labels copier.new.draft.line
        (leaves value) (λ change. compact (relabelled change value))) }
{
    if !byte_is(text, 0, b'[') {
        return None;
    }
    copier.draft.from = 0;
    let end = copy_items(text, 1, MAX_LEVELS, copier)?;
    if end < text.len() {
        return None;
    }
    let last = between(text, copier.draft.from, end)?;
    append_text(last, &mut copier.draft.line)
}

/// Copies a geometry, whose members lie in these parts.
fn append_listed<L: Labels>(
    text: &[u8],
    parts: &[MemberPlace],
    copier: &mut Copier<L>,
) -> Option<()>
    requires { HasParts text.now parts.now }
    ensures count { OnSome result (L.count copier.new.labels ≡ L.count copier.old.labels) }
    ensures made { OnSome result ((value : Tree) → IsCompactOf text.now value
        → IsGeometry (L.count copier.old.labels) value
        × Walks L.labelled copier.old.labels copier.old.draft.line copier.new.labels copier.new.draft.line
        (flat_map leaves (own_boundary value)) (λ change. compact (relabelled_boundary change value))) }
{
    let Some(part) = part_named(text, parts, b"\"boundaries\":") else {
        return append_text(text, &mut copier.draft.line);
    };
    let boundary = between(text, part.value, part.end)?;
    append_front(text, &part, &mut copier.draft.line)?;
    append_boundary(boundary, copier)?;
    append_back(text, &part, &mut copier.draft.line)
}

/// Copies an address. It may be no object, or its location none: it has no boundary.
fn append_address<L: Labels>(text: &[u8], copier: &mut Copier<L>) -> Option<()>
    ensures count { OnSome result (L.count copier.new.labels ≡ L.count copier.old.labels) }
    ensures made { OnSome result ((value : Tree) → IsCompactOf text.now value
        → IsAddress (L.count copier.old.labels) value
        × Walks L.labelled copier.old.labels copier.old.draft.line copier.new.labels copier.new.draft.line
        (flat_map leaves (address_boundary value))
        (λ change. compact (in_member (codes "location") (relabelled_boundary change) value))) }
{
    if !byte_is(text, 0, b'{') {
        return append_text(text, &mut copier.draft.line);
    }
    let parts = parts_of(copier.alloc, text)?;
    let Some(part) = part_named(text, &parts, b"\"location\":") else {
        return append_text(text, &mut copier.draft.line);
    };
    let location = between(text, part.value, part.end)?;
    if !byte_is(location, 0, b'{') {
        return append_text(text, &mut copier.draft.line);
    }
    append_front(text, &part, &mut copier.draft.line)?;
    let Ok(Some(members)) = members_of_compact(copier.alloc, location) else {
        return None;
    };
    append_listed(location, &members, copier)?;
    append_back(text, &part, &mut copier.draft.line)
}

/// Copies the geometry that stands in front, the boundaries of which begin at `value`: where it ends.
fn append_walked<L: Labels>(text: &[u8], value: usize, copier: &mut Copier<L>) -> Option<usize>
    requires { IsValuePlace text.now (quoted (codes "boundaries") ++ colon ∷ []) value }
    ensures within { IfSome result (λ end. end ≤ length text.now) }
    ensures is { IfSome result (λ end. (parts : List MemberPlace) × HasFrontParts text.now parts end) }
    ensures count { OnSome result (L.count copier.new.labels ≡ L.count copier.old.labels) }
    ensures made { IfSome result (λ end. (value : Tree) → IsCompactOf (take end text.now) value
        → IsGeometry (L.count copier.old.labels) value
        × Walks L.labelled copier.old.labels copier.old.draft.line copier.new.labels copier.new.draft.line
        (flat_map leaves (own_boundary value)) (λ change. compact (relabelled_boundary change value))) }
{
    if !byte_is(text, value, b'[') {
        return None;
    }
    copier.draft.from = 0;
    let boundary_end = copy_items(text, value + 1, MAX_LEVELS, copier)?;
    if !ends_member(text, boundary_end) {
        return None;
    }
    let end = end_after(text, boundary_end)?;
    let last = between(text, copier.draft.from, end)?;
    append_text(last, &mut copier.draft.line)?;
    Some(end)
}

/// Copies the geometry that stands in front: how long it is.
fn append_geometry<L: Labels>(text: &[u8], copier: &mut Copier<L>) -> Option<usize>
    ensures within { IfSome result (λ len. len ≤ length text.now) }
    ensures leaves { IfSome result (λ len. LeavesValue 128 text.now (drop len text.now)) }
    ensures count { OnSome result (L.count copier.new.labels ≡ L.count copier.old.labels) }
    ensures made { IfSome result (λ len. (value : Tree) → IsCompactOf (take len text.now) value
        → IsGeometry (L.count copier.old.labels) value
        × Walks L.labelled copier.old.labels copier.old.draft.line copier.new.labels copier.new.draft.line
        (flat_map leaves (own_boundary value)) (λ change. compact (relabelled_boundary change value))) }
{
    let Some(value) = value_place(text, b"\"boundaries\":") else {
        let Ok(Some(found)) = members_at(copier.alloc, text, 0) else {
            return None;
        };
        append_listed(&text[..found.end], &found.parts, copier)?;
        return Some(found.end);
    };
    append_walked(text, value, copier)
}

/// Copies the next one of these geometries or addresses.
fn append_item<L: Labels>(
    items: &mut ItemTexts<'_>,
    holder: Holder,
    copier: &mut Copier<L>,
) -> Option<()>
    requires { ¬ IsCompactOf items.old (array no_items) }
    ensures shorter { OnSome result (length items.new < length items.old) }
    ensures count { OnSome result (L.count copier.new.labels ≡ L.count copier.old.labels) }
    ensures made { OnSome result ((all : ItemTrees) → IsCompactOf items.old (array all)
        → (first : Tree) × (others : ItemTrees) × (all ≡ item first others) × IsCompactOf items.new (array others)
        × IsHeld holder (L.count copier.old.labels) first
        × Walks L.labelled copier.old.labels copier.old.draft.line copier.new.labels copier.new.draft.line
        (flat_map leaves (boundary_in holder first)) (λ change. compact (relabelled_in holder change first))) }
{
    match holder {
        Holder::Geometry => {
            let len = append_geometry(items.rest(), copier)?;
            if len == 0 {
                return None;
            }
            items.skip(len);
            Some(())
        }
        Holder::Address => {
            let one = items.next()?;
            append_address(one, copier)
        }
    }
}

/// Copies an array of these geometries or addresses.
fn append_items<L: Labels>(
    items: &mut ItemTexts<'_>,
    holder: Holder,
    copier: &mut Copier<L>,
) -> Option<()>
    ensures count { OnSome result (L.count copier.new.labels ≡ L.count copier.old.labels) }
    ensures made { OnSome result ((all : ItemTrees) → IsCompactOf items.old (array all)
        → AreHeld holder (L.count copier.old.labels) (array all)
        × Walks L.labelled copier.old.labels copier.old.draft.line copier.new.labels copier.new.draft.line
        (held_uses holder (array all)) (λ change. compact (relabelled_held holder change (array all)))) }
{
    append_text(b"[", &mut copier.draft.line)?;
    if items.is_over() {
        return append_text(b"]", &mut copier.draft.line);
    }
    'items: loop {
        append_item(items, holder, copier)?;
        if items.is_over() {
            return append_text(b"]", &mut copier.draft.line);
        }
        append_text(b",", &mut copier.draft.line)?;
    }
}

/// Copies what stands in the member `geometry` or `address` of a city object. An address may be no array: it has no
/// boundary.
pub(super) fn append_held<L: Labels>(
    text: &[u8],
    holder: Holder,
    copier: &mut Copier<L>,
) -> Option<()>
    ensures count { OnSome result (L.count copier.new.labels ≡ L.count copier.old.labels) }
    ensures made { OnSome result ((value : Tree) → IsCompactOf text.now value
        → AreHeld holder (L.count copier.old.labels) value
        × Walks L.labelled copier.old.labels copier.old.draft.line copier.new.labels copier.new.draft.line
        (held_uses holder value) (λ change. compact (relabelled_held holder change value))) }
{
    if let Some(mut items) = ItemTexts::new(text) {
        return append_items(&mut items, holder, copier);
    }
    let Holder::Address = holder else {
        return None;
    };
    append_text(text, &mut copier.draft.line)
}
