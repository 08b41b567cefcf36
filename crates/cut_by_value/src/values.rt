//! The parts of values.
ghost use Rattle.std.specs.Prelude.{◌↔◌, IsTrue, ◌≡◌, ◌≢◌, ℕ, List, Some, IfOk, IfErr, IfSome, IfNone, map};
ghost use Rattle.city_json.specs.Members.{member_of};
ghost use Rattle.city_json.specs.Tree.{tree, named_tree, items_tree, members_tree, string};
ghost use Rattle.city_feature.specs.Shapes.{IsObject, IsText};
ghost use Rattle.city_json.specs.ObjectTexts.{members_in};
ghost use Rattle.city_families.specs.Items.{items_in, items_of};

use byte_streams::Fault;
use city_json::{Json, Member};
use std::alloc::Global;

pub(crate) fn name_of(member: &Member) -> &str
    ensures { result.now ≡ (named_tree member.now).0 }
{
    member.name.as_str()
}

pub(crate) fn value_of(member: &Member) -> &Json
    ensures { tree result.now ≡ (named_tree member.now).1 }
{
    &member.value
}

pub(crate) fn text_of(value: &Json) -> Option<&str>
    ensures some { IfSome result (λ name. tree value.now ≡ string name.now) }
    ensures none { IfNone result ((name : List ℕ) → tree value.now ≢ string name) }
{
    match value {
        Json::Text(name) => Some(name.as_str()),
        Json::Null | Json::Bool(_) | Json::Num(_) | Json::List(_) | Json::Map(_) => None,
    }
}

pub(crate) fn is_text(value: &Json) -> bool
    ensures { IsTrue result ↔ IsText (tree value.now) }
{
    matches!(value, Json::Text(_))
}

pub(crate) fn is_object(value: &Json) -> bool
    ensures { IsTrue result ↔ IsObject (tree value.now) }
{
    matches!(value, Json::Map(_))
}

/// The items of a value that is an array, and else none.
fn items(value: &Json) -> &[Json]
    ensures list { map tree result.now ≡ items_of (Some (tree value.now)) }
    ensures items { items_tree result.now ≡ items_in (Some (tree value.now)) }
{
    match value {
        Json::List(items) => items,
        Json::Null | Json::Bool(_) | Json::Num(_) | Json::Text(_) | Json::Map(_) => &[],
    }
}

/// The items of the member of this name, where it is an array.
pub(crate) fn items_named<'a>(value: &'a Json, name: &str) -> &'a [Json]
    ensures list { map tree result.now ≡ items_of (member_of name.now (tree value.now)) }
    ensures items { items_tree result.now ≡ items_in (member_of name.now (tree value.now)) }
{
    let Some(member) = value.get(name) else {
        return &[];
    };
    items(member)
}

/// The members of a value that is an object, and else none.
fn members(value: &Json) -> &[Member]
    ensures { members_tree result.now ≡ members_in (Some (tree value.now)) }
{
    match value {
        Json::Map(members) => members,
        Json::Null | Json::Bool(_) | Json::Num(_) | Json::Text(_) | Json::List(_) => &[],
    }
}

/// The members of the member of this name, where it is an object.
pub(crate) fn members_named<'a>(value: &'a Json, name: &str) -> &'a [Member]
    ensures { members_tree result.now ≡ members_in (member_of name.now (tree value.now)) }
{
    let Some(member) = value.get(name) else {
        return &[];
    };
    members(member)
}
