//! The type of a feature, found on the compact text of its line.
ghost use Rattle.std.specs.Prelude.{◌≡◌, ◌≤◌, ◌++◌, ◌∷◌, [], ◌↔◌, List, ℕ, length, take, Contains, Some, codes, unwrap_or, IsUtf8, IfErr, IfOk, IfSome, IsTrue};
ghost use Rattle.city_json.specs.Bytes.{colon, quotation_mark};
ghost use Rattle.city_json.specs.Compact.{quoted};
ghost use Rattle.city_json.specs.Members.{first_named, member_of};
ghost use Rattle.city_json.specs.ObjectTexts.{members_of, object_of};
ghost use Rattle.city_json.specs.Tree.{Tree, null, string, tree};
ghost use Rattle.city_feature.specs.Choice.{HasType};
ghost use Rattle.city_feature.specs.LineTexts.{AreLetters, IsLetter};
ghost use Rattle.city_feature.specs.Shapes.{IsText, IsThere, member_in};
ghost use Rattle.city_json.specs.CompactTexts.{IsCompactOf};

use crate::choices::types::Types;
use crate::features::shape::value_in;
use byte_streams::{Fault, Line};
use city_grid::byte_is;
use city_json::{Json, ObjectText, members_of_compact, read};
use std::alloc::{AllocError, Global};

/// The compact text of a member of the value whose compact text this is; that of `null`, where there is none. The name is
/// given as it stands in the text, with its marks and its colon.
fn member_text<'a>(alloc: Global, text: &'a [u8], name: &[u8]) -> Result<&'a [u8], AllocError>
    requires { (value : Tree) × IsCompactOf text.now value }
    ensures { IfOk result (λ found. (value : Tree) → IsCompactOf text.now value
        → (named : List ℕ) → IsUtf8 named → name.now ≡ quoted named ++ colon ∷ []
        → IsCompactOf found.now (unwrap_or (member_of named value) null)) }
{
    let Some(parts) = members_of_compact(alloc, text)? else {
        return Ok(b"null");
    };
    let Some(part) = ObjectText::new(text, &parts).part(0, name) else {
        return Ok(b"null");
    };
    Ok(value_in(text, part))
}

/// The text that is the line's `id`, with its marks, and a colon after it.
fn id_and_colon(alloc: Global, line: &ObjectText<'_>) -> Result<Line, AllocError>
    ensures { IfOk result (λ name.
        (id : List ℕ) → first_named (codes "id") (members_of line.now) ≡ Some (string id)
        → IsUtf8 id × (name ≡ quoted id ++ colon ∷ [])) }
{
    let mut name = Line::new(alloc);
    name.append(line.value_or(1, b"\"id\":", b"null"))?;
    name.append(b":")?;
    Ok(name)
}

/// The compact text of the member `type` of the city object that the line's `id` names; that of `null`, where there is
/// none.
#[inline(never)]
fn type_text<'a>(alloc: Global, line: &ObjectText<'a>) -> Result<&'a [u8], AllocError>
    requires { IsThere IsText (first_named (codes "id") (members_of line.now)) }
    ensures { IfOk result (λ found. (id : List ℕ) → first_named (codes "id") (members_of line.now) ≡ Some (string id)
        → IsCompactOf found.now (unwrap_or
        (member_in (codes "type") (member_in id (first_named (codes "CityObjects") (members_of line.now)))) null)) }
{
    let id = id_and_colon(alloc, line)?;
    let Some(objects) = line.value(2, b"\"CityObjects\":") else {
        return Ok(b"null");
    };
    let object = member_text(alloc, objects, id.items())?;
    member_text(alloc, object, b"\"type\":")
}

/// What stands in a text after these first bytes. None: it does not begin with them.
fn after_front<'a>(text: &'a [u8], front: &[u8]) -> Option<&'a [u8]>
    ensures { IfSome result (λ rest. text.now ≡ front.now ++ rest.now) }
{
    if text.starts_with(front) {
        Some(&text[front.len()..])
    } else {
        None
    }
}

/// Whether the byte is a letter, a digit or a plus: the names of most types have no others.
#[inline(always)]
fn is_letter(byte: u8) -> bool
    ensures { IsTrue result → IsLetter byte }
{
    matches!(byte, b'a'..=b'z' | b'A'..=b'Z' | b'0'..=b'9' | b'+')
}

/// How many letters stand first.
fn letters_len(text: &[u8]) -> usize
    ensures within { result ≤ length text.now }
    ensures letters { AreLetters (take result text.now) }
{
    let mut end = 0usize;
    while end < text.len() && is_letter(text[end]) {
        end += 1;
    }
    end
}

/// The letters that stand first, up to a quotation mark.
fn letters_of(text: &[u8]) -> Option<&[u8]>
    ensures { IfSome result (λ name. AreLetters name.now
        × (more : List ℕ) × (text.now ≡ name.now ++ quotation_mark ∷ more)) }
{
    let end = letters_len(text);
    if end == text.len() || text[end] != b'"' {
        return None;
    }
    Some(&text[..end])
}

/// The text of that type, where the city object stands first among the objects and its type first in it.
fn first_type<'a>(line: &ObjectText<'a>) -> Option<&'a [u8]>
    ensures { IfSome result (λ name.
        (id : List ℕ) → first_named (codes "id") (members_of line.now) ≡ Some (string id)
        → member_in (codes "type") (member_in id (first_named (codes "CityObjects") (members_of line.now)))
        ≡ Some (string name.now)) }
{
    let id = line.value(1, b"\"id\":")?;
    let objects = line.value(2, b"\"CityObjects\":")?;
    let first = after_front(objects, b"{")?;
    let object = after_front(first, id)?;
    let value = after_front(object, b":{\"type\":\"")?;
    letters_of(value)
}

/// Whether the name is one of the types.
fn is_one_of(types: &Types, name: &[u8]) -> bool
    ensures { IsTrue result ↔ Contains types.now name.now }
{
    types
        .items()
        .iter()
        .any(|each| each.as_str().as_bytes() == name)
}

/// Whether a value is a text that is one of the types.
fn is_text_of(types: &Types, value: &Json) -> bool
    ensures { IsTrue result ↔ ((name : List ℕ) × (tree value.now ≡ string name) × Contains types.now name) }
{
    let Json::Text(name) = value else {
        return false;
    };
    is_one_of(types, name.as_str().as_bytes())
}

/// Whether the value whose compact text this is is one of the types; one that is no text is none. The only fault is
/// [`Fault::Memory`].
#[inline(never)]
fn spells_one_of(alloc: Global, types: &Types, text: &[u8]) -> Result<bool, Fault>
    requires { (value : Tree) × IsCompactOf text.now value }
    ensures ok { IfOk result (λ is. (value : Tree) → IsCompactOf text.now value
        → (IsTrue is ↔ ((name : List ℕ) × (value ≡ string name) × Contains types.now name))) }
    ensures fault { IfErr result (λ fault. fault ≡ Fault.Memory) }
{
    if !byte_is(text, 0, b'"') {
        return Ok(false);
    }
    if let Some(name) = letters_of(&text[1..]) {
        return Ok(is_one_of(types, name));
    }
    let value = read(alloc, text)?;
    Ok(is_text_of(types, &value))
}

/// Whether the feature of a line has one of the types, where there are any. The only fault is [`Fault::Memory`].
pub fn has_given_type(
    alloc: Global,
    types: &Option<Types>,
    line: &ObjectText<'_>,
) -> Result<bool, Fault>
    requires { IsThere IsText (first_named (codes "id") (members_of line.now)) }
    ensures ok { IfOk result (λ has.
        (IsTrue has ↔ IfSome types.now (λ types. HasType types (object_of line.now)))) }
    ensures fault { IfErr result (λ fault. fault ≡ Fault.Memory) }
{
    let Some(types) = types else {
        return Ok(true);
    };
    if let Some(name) = first_type(line) {
        return Ok(is_one_of(types, name));
    }
    let text = type_text(alloc, line)?;
    spells_one_of(alloc, types, text)
}
