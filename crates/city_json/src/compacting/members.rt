//! Where the members of an object lie in its compact text, of one that stands in front of other bytes, too.
//!
//! As the ends of values, this knows that the text is compact, and checks nothing of it.
ghost use Rattle.std.specs.Prelude.{◌≡◌, ◌++◌, ◌∷◌, [], ◌+◌, ◌<◌, ◌≤◌, length, drop, slice_range, IfNone, IfOk, IfSome, OnSome};
ghost use Rattle.city_json.specs.CompactEnds.{LeavesString, LeavesValue};
ghost use Rattle.city_json.specs.CompactMembers.{HasNoMember, HasNoString, HasNoValue, HasParts, LeavesMember};
ghost use Rattle.city_json.specs.CompactTexts.{IsCompactOf};
ghost use Rattle.city_json.specs.FrontMembers.{EndsAfter, HasFrontParts, HasNoObject, IsValuePlace};
ghost use Rattle.city_json.specs.Tree.{MemberTrees, object};

use super::ends::{string_end, value_end};
use super::places::{COMMON_PARTS, MemberPlace, is_between};
use std::alloc::{AllocError, Global};

/// The members of an object, and where it ends.
#[derive(Drop)]
pub struct PlacedMembers {
    /// Where they lie, in bytes from the beginning of the object.
    pub parts: Vec<MemberPlace>,
    pub end: usize,
}

/// Where the name ends of the member that begins at `at`: the place of the colon.
#[inline(always)]
pub fn colon_after(text: &[u8], at: usize) -> Option<usize>
    ensures onward { IfSome result (λ colon. at < colon) }
    ensures within { IfSome result (λ colon. colon < length text.now) }
    ensures is { IfSome result (λ colon. LeavesString (drop (at + 1) text.now) (drop colon text.now)) }
    ensures none { IfNone result (at < length text.now → HasNoString (drop (at + 1) text.now)) }
{
    if at >= text.len() {
        return None;
    }
    let colon = string_end(text, at + 1);
    if colon == text.len() {
        return None;
    }
    Some(colon)
}

/// Where the member lies that begins at `at`, and whose name ends at `colon`.
#[inline(always)]
fn member_from(text: &[u8], at: usize, colon: usize) -> Option<MemberPlace>
    requires order { at < colon }
    requires within { colon < length text.now }
    requires is { LeavesString (drop (at + 1) text.now) (drop colon text.now) }
    ensures onward { IfSome result (λ part. at < part.end) }
    ensures within { IfSome result (λ part. part.end < length text.now) }
    ensures is { IfSome result (λ part. LeavesMember at part (drop at text.now) (drop part.end text.now)) }
    ensures none { IfNone result (HasNoValue (drop (colon + 1) text.now)) }
{
    let end = value_end(text, colon + 1);
    if end == text.len() {
        return None;
    }
    Some(MemberPlace {
        at,
        value: colon + 1,
        end,
    })
}

/// Where the member lies that begins at `at`.
#[inline(always)]
fn member_at(text: &[u8], at: usize) -> Option<MemberPlace>
    ensures onward { IfSome result (λ part. at < part.end) }
    ensures within { IfSome result (λ part. part.end < length text.now) }
    ensures is { IfSome result (λ part. LeavesMember at part (drop at text.now) (drop part.end text.now)) }
    ensures none { IfNone result (HasNoMember (drop at text.now)) }
{
    let colon = colon_after(text, at)?;
    member_from(text, at, colon)
}

/// The members of the object that stands in front, in compact text; none where none does.
fn front_members(alloc: Global, text: &[u8]) -> Result<Option<PlacedMembers>, AllocError>
    ensures within { IfOk result (λ found. IfSome found (λ found. found.end ≤ length text.now)) }
    ensures is { IfOk result (λ found. IfSome found (λ found. HasFrontParts text.now found.parts.items found.end)) }
    ensures none { IfOk result (λ found. IfNone found (HasNoObject text.now)) }
{
    if text.len() < 2 {
        return Ok(None);
    }
    if text[0] != b'{' {
        return Ok(None);
    }
    let mut parts = Vec::with_capacity(alloc, COMMON_PARTS)?;
    if text[1] == b'}' {
        return Ok(Some(PlacedMembers { parts, end: 2 }));
    }
    let mut at = 1usize;
    'members: loop {
        let Some(part) = member_at(text, at) else {
            return Ok(None);
        };
        parts.push(part)?;
        if text[part.end] == b'}' {
            return Ok(Some(PlacedMembers {
                parts,
                end: part.end + 1,
            }));
        }
        at = part.end + 1;
    }
}

/// Where the members lie of the object whose compact text this is, in their order; none exactly where the value whose
/// compact text this is is no object.
pub fn members_of_compact(
    alloc: Global,
    text: &[u8],
) -> Result<Option<Vec<MemberPlace>>, AllocError>
    ensures some { IfOk result (λ parts. IfSome parts (λ parts. HasParts text.now parts.items)) }
    ensures none { IfOk result (λ parts. IfNone parts ((members : MemberTrees) → ¬ IsCompactOf text.now (object members))) }
{
    let Some(found) = front_members(alloc, text)? else {
        return Ok(None);
    };
    Ok(Some(found.parts))
}

/// The members of the object that begins at `at`, in compact text; none where none does.
pub fn members_at(
    alloc: Global,
    text: &[u8],
    at: usize,
) -> Result<Option<PlacedMembers>, AllocError>
    requires { at ≤ length text.now }
    ensures onward { IfOk result (λ found. IfSome found (λ found. at ≤ found.end)) }
    ensures within { IfOk result (λ found. IfSome found (λ found. found.end ≤ length text.now)) }
    ensures leaves { IfOk result (λ found. IfSome found (λ found.
        LeavesValue 128 (drop at text.now) (drop found.end text.now))) }
    ensures parts { IfOk result (λ found. IfSome found (λ found.
        HasParts (slice_range text.now at found.end) found.parts.items)) }
    ensures none { IfOk result (λ found. IfNone found (HasNoObject (drop at text.now))) }
{
    let Some(found) = front_members(alloc, &text[at..])? else {
        return Ok(None);
    };
    Ok(Some(PlacedMembers {
        parts: found.parts,
        end: at + found.end,
    }))
}

/// Where the value begins of the first member of this name in the object that stands in front. The name is given with
/// its marks and its colon. `None`: none is found.
pub fn value_place(text: &[u8], name: &[u8]) -> Option<usize>
    ensures within { IfSome result (λ value. value ≤ length text.now) }
    ensures is { IfSome result (λ value. IsValuePlace text.now name.now value) }
{
    if text.len() < 2 {
        return None;
    }
    if text[0] != b'{' {
        return None;
    }
    if text[1] == b'}' {
        return None;
    }
    let mut at = 1usize;
    'members: loop {
        let colon = colon_after(text, at)?;
        if is_between(text, at, colon + 1, name) {
            return Some(colon + 1);
        }
        let part = member_from(text, at, colon)?;
        if text[part.end] == b'}' {
            return None;
        }
        at = part.end + 1;
    }
}

/// Where the object ends of which a member ends at `end`.
pub fn end_after(text: &[u8], end: usize) -> Option<usize>
    requires { end < length text.now }
    ensures onward { IfSome result (λ stop. end < stop) }
    ensures within { IfSome result (λ stop. stop ≤ length text.now) }
    ensures is { IfSome result (λ stop. EndsAfter text.now end stop) }
{
    let mut last = end;
    'members: loop {
        if text[last] == b'}' {
            return Some(last + 1);
        }
        let part = member_at(text, last + 1)?;
        last = part.end;
    }
}
