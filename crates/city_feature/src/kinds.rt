//! Tests of a member's kind and text.
ghost use Rattle.std.specs.Prelude.{◌↔◌, IsTrue};
ghost use Rattle.city_json.specs.Members.{member_of};
ghost use Rattle.city_json.specs.Tree.{tree};
ghost use Rattle.city_feature.specs.Shapes.{Says, IsThere, WhereThere, IsOf};

use city_json::Json;

/// A kind of value.
#[derive(Clone, Copy)]
pub(crate) enum MemberKind {
    Text,
    Array,
    FilledArray,
    Object,
    FilledObject,
}

/// Whether the member of that name is that text.
pub(crate) fn says(value: &Json, name: &str, text: &str) -> bool
    ensures { IsTrue result ↔ Says name.now text.now (tree value.now) }
{
    match value.get(name) {
        Some(Json::Text(found)) => found.as_str() == text,
        _ => false,
    }
}

fn is_of(value: &Json, kind: MemberKind) -> bool
    ensures { IsTrue result ↔ IsOf kind (tree value.now) }
{
    match (kind, value) {
        (MemberKind::Text, Json::Text(_)) => true,
        (MemberKind::Array, Json::List(_)) => true,
        (MemberKind::FilledArray, Json::List(items)) => !items.is_empty(),
        (MemberKind::Object, Json::Map(_)) => true,
        (MemberKind::FilledObject, Json::Map(members)) => !members.is_empty(),
        _ => false,
    }
}

/// Whether there is a member of that name, and it is of that kind.
pub(crate) fn is_there(value: &Json, name: &str, kind: MemberKind) -> bool
    ensures { IsTrue result ↔ IsThere (IsOf kind) (member_of name.now (tree value.now)) }
{
    match value.get(name) {
        Some(found) => is_of(found, kind),
        None => false,
    }
}

/// Whether the member of that name is of that kind, where it is there.
pub(crate) fn is_where_there(value: &Json, name: &str, kind: MemberKind) -> bool
    ensures { IsTrue result ↔ WhereThere (IsOf kind) (member_of name.now (tree value.now)) }
{
    match value.get(name) {
        Some(found) => is_of(found, kind),
        None => true,
    }
}
