//! What a text comes to where the pass over it is silent: its fault, that it spells no object, or its object by the value.
ghost use Rattle.std.specs.Prelude.{◌≡◌, ◌+◌, ◌++◌, ◌∷◌, [], Err, length, IfNone, IfOk, IfErr, IfSome, IsUtf8, OnOk};
ghost use Rattle.city_json.specs.Bytes.{colon, comma};
ghost use Rattle.city_json.specs.Compact.{compact, compact_members, quoted};
ghost use Rattle.city_json.specs.Depth.{IsDeep};
ghost use Rattle.city_json.specs.Parts.{AreParts};
ghost use Rattle.city_json.specs.PrintedParts.{AddsPart};
ghost use Rattle.city_json.specs.Refusals.{RefusesText};
ghost use Rattle.city_json.specs.SpelledObjects.{SpellsObject, SpellsOther};
ghost use Rattle.city_json.specs.TextPlace.{placed_text};
ghost use Rattle.city_json.specs.Tree.{MemberTrees, members_tree, named_tree, object, tree};
ghost use Rattle.city_json.specs.Triples.{HasTriples};

use super::object::{CompactObject, TextPlace};
use super::places::{MemberPlace, Span};
use super::workspace::Workspace;
use crate::json::{Json, Member};
use crate::printing::{put_string, put_value};
use crate::reading::{check, read, spells_no_object};
use byte_streams::{Fault, Line};
use std::alloc::{AllocError, Global};

/// Appends a member in its compact text, and puts its place after the parts.
fn put_part(
    line: &mut Line,
    member: &Member,
    parts: &mut Vec<MemberPlace>,
) -> Result<(), AllocError>
    ensures line { OnOk result (line.new ≡ line.old
        ++ (quoted (named_tree member.now).0 ++ colon ∷ compact (named_tree member.now).1)) }
    ensures part { OnOk result (AddsPart (length line.old) (length line.new) (named_tree member.now).0
        (named_tree member.now).1 parts.old.items parts.new.items) }
{
    let at = line.items().len();
    put_string(line, member.name.as_str())?;
    line.append(b":")?;
    let value = line.items().len();
    put_value(line, &member.value)?;
    let end = line.items().len();
    parts.push(MemberPlace { at, value, end })?;
    Ok(())
}

/// The same after a comma.
fn put_next_part(
    line: &mut Line,
    member: &Member,
    parts: &mut Vec<MemberPlace>,
) -> Result<(), AllocError>
    ensures line { OnOk result (line.new ≡ line.old
        ++ comma ∷ (quoted (named_tree member.now).0 ++ colon ∷ compact (named_tree member.now).1)) }
    ensures part { OnOk result (AddsPart (length line.old + 1) (length line.new) (named_tree member.now).0
        (named_tree member.now).1 parts.old.items parts.new.items) }
{
    line.append(b",")?;
    put_part(line, member, parts)
}

/// Appends members in their compact text, with a comma between them, and puts their places after the parts, of which there
/// are none.
fn put_parts(
    line: &mut Line,
    members: &[Member],
    parts: &mut Vec<MemberPlace>,
) -> Result<(), AllocError>
    requires { parts.old.items ≡ [] }
    ensures line { OnOk result (line.new ≡ line.old ++ compact_members (members_tree members.now)) }
    ensures parts { OnOk result (AreParts (length line.old) parts.new.items (members_tree members.now)) }
{
    let [first, others @ ..] = members else {
        return Ok(());
    };
    put_part(line, first, parts)?;
    for member in others {
        put_next_part(line, member, parts)?;
    }
    Ok(())
}

/// Makes a line the compact text of the object of these members, and puts their places after the parts, of which there are
/// none.
fn put_object(
    line: &mut Line,
    members: &[Member],
    parts: &mut Vec<MemberPlace>,
) -> Result<(), AllocError>
    requires { parts.old.items ≡ [] }
    ensures line { OnOk result (line.new ≡ compact (object (members_tree members.now))) }
    ensures parts { OnOk result (AreParts 1 parts.new.items (members_tree members.now)) }
{
    line.truncate(0);
    line.append(b"{")?;
    put_parts(line, members, parts)?;
    line.append(b"}")
}

/// The members of a value, where it is an object.
fn members_of(value: &Json) -> Option<&[Member]>
    ensures some { IfSome result (λ members. tree value.now ≡ object (members_tree members.now)) }
    ensures none { IfNone result ((members : MemberTrees) → ¬ (tree value.now ≡ object members)) }
{
    match value {
        Json::Map(members) => Some(members),
        Json::Null | Json::Bool(_) | Json::Num(_) | Json::Text(_) | Json::List(_) => None,
    }
}

/// The compact text of the object that the text spells, in the buffer, by its value; none where it spells another value.
///
/// # Errors
///
/// Those of [`read`].
fn read_object(
    alloc: Global,
    text: &[u8],
    workspace: &mut Workspace,
) -> Result<Option<CompactObject>, Fault>
    ensures object { IfOk result (λ found. IfSome found (λ found.
        SpellsObject text.now (placed_text found.place text.now workspace.new.line) found.parts.items)) }
    ensures triples { IfOk result (λ found. IfSome found (λ found.
        HasTriples (placed_text found.place text.now workspace.new.line) found.triples)) }
    ensures other { IfOk result (λ found. IfNone found (SpellsOther text.now)) }
    ensures refused { IfErr result (λ fault. RefusesText fault text.now) }
{
    let value = read(alloc, text)?;
    let Some(members) = members_of(&value) else {
        return Ok(None);
    };
    let mut parts = Vec::new(alloc);
    put_object(&mut workspace.line, members, &mut parts)?;
    Ok(Some(CompactObject {
        place: TextPlace::Written,
        parts,
        triples: Span { from: 0, end: 0 },
    }))
}

/// What the text comes to: its fault, or none where it spells another value, with no value held; else its object.
///
/// # Errors
///
/// Those of [`read`].
#[inline(never)]
pub(super) fn told_object(
    alloc: Global,
    text: &[u8],
    workspace: &mut Workspace,
) -> Result<Option<CompactObject>, Fault>
    ensures object { IfOk result (λ found. IfSome found (λ found.
        SpellsObject text.now (placed_text found.place text.now workspace.new.line) found.parts.items)) }
    ensures triples { IfOk result (λ found. IfSome found (λ found.
        HasTriples (placed_text found.place text.now workspace.new.line) found.triples)) }
    ensures other { IfOk result (λ found. IfNone found (SpellsOther text.now)) }
    ensures refused { IfErr result (λ fault. RefusesText fault text.now) }
    ensures not_utf8 { (¬ IsUtf8 text.now) → result ≡ Err Fault.NotUtf8 }
    ensures too_deep { IsUtf8 text.now → IsDeep text.now → result ≡ Err Fault.TooDeep }
{
    check(alloc, text)?;
    if spells_no_object(text) {
        return Ok(None);
    }
    read_object(alloc, text, workspace)
}
