//! The members of an object in its compact text.
ghost use Rattle.std.specs.Prelude.{◌≡◌, ◌++◌, ◌∷◌, [], List, ℕ, codes, drop, take, unwrap_or, IfSome, IsUtf8, OnSome};
ghost use Rattle.city_json.specs.Bytes.{colon};
ghost use Rattle.city_json.specs.Compact.{quoted};
ghost use Rattle.city_json.specs.Members.{first_named};
ghost use Rattle.city_json.specs.ObjectTexts.{members_of};
ghost use Rattle.city_json.specs.Parts.{AreParts};
ghost use Rattle.city_json.specs.Tree.{Tree, MemberTrees, array, no_items, no_members, object};
ghost use Rattle.city_json.specs.CompactTexts.{IsCompactOf};

use byte_streams::Line;
use city_json::{MemberPlace, ObjectText, between, members_of_compact, part_named};
use std::alloc::Global;

/// Where the members lie of the object whose compact text this is.
pub(super) fn parts_of(alloc: Global, text: &[u8]) -> Option<Vec<MemberPlace>>
    ensures { IfSome result (λ parts. (value : Tree) → IsCompactOf text.now value
        → (members : MemberTrees) × (value ≡ object members) × AreParts 1 parts.items members) }
{
    let Ok(found) = members_of_compact(alloc, text) else {
        return None;
    };
    found
}

/// The compact text of the value of a member; another one, where there is no member of this name, which is given
/// as in [`part_named`].
pub(super) fn member_or<'a>(
    text: &'a [u8],
    parts: &[MemberPlace],
    name: &[u8],
    other: &'a [u8],
) -> Option<&'a [u8]>
    ensures { IfSome result (λ found. (members : MemberTrees) → IsCompactOf text.now (object members)
        → AreParts 1 parts.now members → (named : List ℕ) → IsUtf8 named → name.now ≡ quoted named ++ colon ∷ []
        → (value : Tree) → IsCompactOf other.now value
        → IsCompactOf found.now (unwrap_or (first_named named members) value)) }
{
    let Some(part) = part_named(text, parts, name) else {
        return Some(other);
    };
    between(text, part.value, part.end)
}

/// The text of the document's vertices, of which there may be none.
pub(super) fn vertices_text<'a>(document: &'a ObjectText<'_>) -> &'a [u8]
    ensures { IsCompactOf result.now
        (unwrap_or (first_named (codes "vertices") (members_of document.now)) (array no_items)) }
{
    document.value_or(3, b"\"vertices\":", b"[]")
}

/// The text of its city objects, of which there may be none.
pub(super) fn objects_text<'a>(document: &'a ObjectText<'_>) -> &'a [u8]
    ensures { IsCompactOf result.now
        (unwrap_or (first_named (codes "CityObjects") (members_of document.now)) (object no_members)) }
{
    document.value_or(2, b"\"CityObjects\":", b"{}")
}

/// Appends a text.
#[inline(always)]
pub(super) fn append_text(text: &[u8], line: &mut Line) -> Option<()>
    ensures { OnSome result (line.new ≡ line.old ++ text.now) }
{
    let Ok(_) = line.append(text) else {
        return None;
    };
    Some(())
}

/// Appends what stands before the value of a member.
pub(super) fn append_front(text: &[u8], part: &MemberPlace, line: &mut Line) -> Option<()>
    ensures { OnSome result (line.new ≡ line.old ++ take part.now.value text.now) }
{
    let front = between(text, 0, part.value)?;
    append_text(front, line)
}

/// Appends what stands after the value of a member.
pub(super) fn append_back(text: &[u8], part: &MemberPlace, line: &mut Line) -> Option<()>
    ensures { OnSome result (line.new ≡ line.old ++ drop part.now.end text.now) }
{
    let back = between(text, part.end, text.len())?;
    append_text(back, line)
}
