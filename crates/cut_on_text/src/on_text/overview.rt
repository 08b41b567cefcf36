//! What is looked at of each city object, in one walk over their texts.
ghost use Rattle.std.specs.Prelude.{◌≡◌, ◌++◌, ◌∷◌, [], ◌<◌, ◌≤◌, length, drop, slice_range, IfSome, OnSome};
ghost use Rattle.std.specs.List.{AllZip};
ghost use Rattle.city_json.specs.CompactMembers.{HasParts, LeavesMember};
ghost use Rattle.cut_on_text.specs.Overviews.{AreHolders, HasChildrenIn, HasHolders, HasParentsIn, IsHolderPart};

use super::holders::{HeldParts, Holder, ShortHeld};
use super::kin::{children_text, has_parents};
use super::short_parts::ShortPart;
use byte_streams::push;
use city_json::{MemberPlace, between, colon_after, members_at, part_named};
use std::alloc::Global;

/// How many bytes the text of a city object has mostly at least.
const COMMON_LEN: usize = 256;

/// The city objects, each at its place.
#[derive(Drop)]
pub(super) struct Overview<'a> {
    /// Where each lies.
    pub places: Vec<ShortPart>,
    /// Whether each names parents.
    pub parents: Vec<bool>,
    /// The text of the children of each; of an empty array, where there are none.
    pub children: Vec<&'a [u8]>,
    /// Where boundaries may stand in each.
    pub held: Vec<ShortHeld>,
}

/// A city object with its name, and its members.
#[derive(Drop)]
struct PlacedObject {
    part: MemberPlace,
    members: Vec<MemberPlace>,
}

/// What is looked at of a city object, as [`Overview`] lists it.
#[derive(Drop)]
struct SeenObject<'a> {
    part: MemberPlace,
    parents: bool,
    children: &'a [u8],
    held: HeldParts,
}

/// Where the member lies that begins at `at`, which is a city object.
fn object_at(alloc: Global, text: &[u8], at: usize) -> Option<PlacedObject>
    ensures onward { IfSome result (λ found. at < found.part.end) }
    ensures within { IfSome result (λ found. found.part.end < length text.now) }
    ensures is { IfSome result (λ found. LeavesMember at found.part (drop at text.now) (drop found.part.end text.now)) }
    ensures members { IfSome result (λ found.
        HasParts (slice_range text.now found.part.value found.part.end) found.members.items) }
{
    let colon = colon_after(text, at)?;
    let Ok(Some(found)) = members_at(alloc, text, colon + 1) else {
        return None;
    };
    if found.end == text.len() {
        return None;
    }
    Some(PlacedObject {
        part: MemberPlace {
            at,
            value: colon + 1,
            end: found.end,
        },
        members: found.parts,
    })
}

/// The part of the member in which these boundaries stand, if it is there.
fn part_of(text: &[u8], parts: &[MemberPlace], holder: Holder) -> Option<Option<MemberPlace>>
    ensures { IfSome result (λ found. IsHolderPart holder text.now parts.now found) }
{
    let Some(part) = part_named(text, parts, holder.mark()) else {
        return Some(None);
    };
    Some(Some(part))
}

/// Where boundaries may stand in an object.
fn held_parts(text: &[u8], parts: &[MemberPlace]) -> Option<HeldParts>
    ensures { IfSome result (λ held. HasParts text.now parts.now → HasHolders text.now held) }
{
    let geometry = part_of(text, parts, Holder::Geometry)?;
    let address = part_of(text, parts, Holder::Address)?;
    Some(HeldParts { geometry, address })
}

fn list_held(one: HeldParts, to: &mut Vec<ShortHeld>) -> Option<()>
    ensures { OnSome result (to.new.items ≡ to.old.items ++ one ∷ []) }
{
    let short = ShortHeld::new(one)?;
    to.push(short).ok()
}

/// Looks at the object that begins at `at`.
fn seen_at(alloc: Global, text: &[u8], at: usize) -> Option<SeenObject<'_>>
    ensures onward { IfSome result (λ seen. at < seen.part.end) }
    ensures within { IfSome result (λ seen. seen.part.end < length text.now) }
    ensures is { IfSome result (λ seen. LeavesMember at seen.part (drop at text.now) (drop seen.part.end text.now)) }
    ensures parents { IfSome result (λ seen. HasParentsIn text.now seen.part seen.parents) }
    ensures children { IfSome result (λ seen. HasChildrenIn text.now seen.part seen.children) }
    ensures held { IfSome result (λ seen. HasHolders (slice_range text.now seen.part.value seen.part.end) seen.held) }
{
    let found = object_at(alloc, text, at)?;
    let value = between(text, found.part.value, found.part.end)?;
    let parents = has_parents(alloc, value, &found.members)?;
    let children = children_text(value, &found.members)?;
    let held = held_parts(value, &found.members)?;
    Some(SeenObject {
        part: found.part,
        parents,
        children,
        held,
    })
}

/// How many objects come from `at` on in a text of this length, where they are as long as those before.
fn expected(len: usize, at: usize, count: usize) -> usize {
    if count == 0 {
        return 1;
    }
    let mean = (at / count).max(1);
    (len.saturating_sub(at) / mean).saturating_add(1)
}

/// Makes room for an object at `at` and for those that may come after it, so that little is copied and left after.
fn make_room(len: usize, at: usize, to: &mut Overview<'_>) -> Option<()>
    ensures places { to.new.places.items ≡ to.old.places.items }
    ensures parents { to.new.parents.items ≡ to.old.parents.items }
    ensures children { to.new.children.items ≡ to.old.children.items }
    ensures held { to.new.held.items ≡ to.old.held.items }
{
    let count = to.places.len();
    if count < to.places.capacity() {
        return Some(());
    }
    let more = expected(len, at, count);
    to.places.reserve(more).ok()?;
    to.parents.reserve(more).ok()?;
    to.children.reserve(more).ok()?;
    to.held.reserve(more).ok()
}

/// Lists what is looked at of one more object, of a text of this length.
fn list_object<'a>(seen: SeenObject<'a>, len: usize, to: &mut Overview<'a>) -> Option<()>
    ensures places { OnSome result (to.new.places.items ≡ to.old.places.items ++ seen.entry.part ∷ []) }
    ensures parents { OnSome result (to.new.parents.items ≡ to.old.parents.items ++ seen.entry.parents ∷ []) }
    ensures children { OnSome result (to.new.children.items ≡ to.old.children.items ++ seen.entry.children ∷ []) }
    ensures held { OnSome result (to.new.held.items ≡ to.old.held.items ++ seen.entry.held ∷ []) }
{
    make_room(len, seen.part.at, to)?;
    push(ShortPart::new(seen.part)?, &mut to.places)?;
    push(seen.parents, &mut to.parents)?;
    push(seen.children, &mut to.children)?;
    list_held(seen.held, &mut to.held)
}

/// Looks at the object that begins at `at`, and lists it: where it lies.
fn add_object<'a>(
    alloc: Global,
    text: &'a [u8],
    at: usize,
    to: &mut Overview<'a>,
) -> Option<MemberPlace>
    ensures onward { IfSome result (λ part. at < part.end) }
    ensures within { IfSome result (λ part. part.end < length text.now) }
    ensures is { IfSome result (λ part. LeavesMember at part (drop at text.now) (drop part.end text.now)) }
    ensures places { IfSome result (λ part. to.new.places.items ≡ to.old.places.items ++ part ∷ []) }
    ensures parents { OnSome result (AllZip (HasParentsIn text.now) to.old.places.items to.old.parents.items
        → AllZip (HasParentsIn text.now) to.new.places.items to.new.parents.items) }
    ensures children { OnSome result (AllZip (HasChildrenIn text.now) to.old.places.items to.old.children.items
        → AllZip (HasChildrenIn text.now) to.new.places.items to.new.children.items) }
    ensures held { OnSome result (AreHolders text.now to.old.places.items to.old.held.items
        → AreHolders text.now to.new.places.items to.new.held.items) }
{
    let seen = seen_at(alloc, text, at)?;
    let part = seen.part;
    list_object(seen, text.len(), to)?;
    Some(part)
}

/// No objects, with room for those of a text of this length.
fn no_objects<'a>(alloc: Global, len: usize) -> Option<Overview<'a>>
    ensures places { IfSome result (λ found. found.places.items ≡ []) }
    ensures parents { IfSome result (λ found. found.parents.items ≡ []) }
    ensures children { IfSome result (λ found. found.children.items ≡ []) }
    ensures held { IfSome result (λ found. found.held.items ≡ []) }
{
    let room = len / COMMON_LEN;
    Some(Overview {
        places: Vec::with_capacity(alloc, room).ok()?,
        parents: Vec::with_capacity(alloc, room).ok()?,
        children: Vec::with_capacity(alloc, room).ok()?,
        held: Vec::with_capacity(alloc, room).ok()?,
    })
}

/// What is looked at of the city objects, whose compact text this is.
pub(super) fn overview_of(alloc: Global, text: &[u8]) -> Option<Overview<'_>>
    ensures places { IfSome result (λ found. HasParts text.now found.places.items) }
    ensures parents { IfSome result (λ found.
        AllZip (HasParentsIn text.now) found.places.items found.parents.items) }
    ensures children { IfSome result (λ found.
        AllZip (HasChildrenIn text.now) found.places.items found.children.items) }
    ensures held { IfSome result (λ found. AreHolders text.now found.places.items found.held.items) }
{
    if text.len() < 2 {
        return None;
    }
    if text[0] != b'{' {
        return None;
    }
    let mut found = no_objects(alloc, text.len())?;
    if text[1] == b'}' {
        return Some(found);
    }
    let mut at = 1usize;
    'objects: loop {
        let part = add_object(alloc, text, at, &mut found)?;
        if text[part.end] == b'}' {
            return Some(found);
        }
        at = part.end + 1;
    }
}
