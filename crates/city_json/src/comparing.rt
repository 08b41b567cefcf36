//! Whether two values are the same.
ghost use Rattle.std.specs.Prelude.{◌≡◌, ◌↔◌, IsTrue, IsUtf8};
ghost use Rattle.city_json.specs.Compact.{compact};
ghost use Rattle.city_json.specs.Tree.{tree, named_tree, items_tree, members_tree};
ghost use Rattle.city_json.specs.Writable.{IsWritable, AreWritableItems, AreWritableMembers};

use crate::json::{Json, Member};

/// Whether the compact texts of two values are equal: the same kinds, members in the same order, numbers as
/// they were written.
pub fn same(a: &Json, b: &Json) -> bool
    ensures { IsTrue result ↔ (compact (tree a.now) ≡ compact (tree b.now)) }
{
    if equal(a, b) {
        return true;
    }
    writable(a);
    writable(b);
    false
}

/// Looks at each number and text of a value, whose types say that it can be written: of two such values the
/// compact texts differ where the values do.
#[cycle(writable)]
fn writable(value: &Json)
    ensures { IsWritable (tree value.now) }
{
    match value {
        Json::Null | Json::Bool(_) => {}
        Json::Num(number) => {
            let _ = number.as_bytes();
        }
        Json::Text(text) => {
            let _ = text.as_str();
        }
        Json::List(items) => writable_items(items),
        Json::Map(members) => writable_members(members),
    }
}

#[cycle(writable)]
fn writable_items(items: &[Json])
    ensures { AreWritableItems (items_tree items.now) }
{
    for item in items {
        writable(item);
    }
}

#[cycle(writable)]
fn writable_members(members: &[Member])
    ensures { AreWritableMembers (members_tree members.now) }
{
    for member in members {
        writable_member(member);
    }
}

#[cycle(writable)]
fn writable_member(member: &Member)
    ensures { IsUtf8 (named_tree member.now).0 × IsWritable (named_tree member.now).1 }
{
    let _ = member.name.as_str();
    writable(&member.value);
}

#[cycle(equal)]
fn equal(a: &Json, b: &Json) -> bool
    ensures { IsTrue result ↔ (tree a.now ≡ tree b.now) }
{
    match (a, b) {
        (Json::Null, Json::Null) => true,
        (Json::Bool(a), Json::Bool(b)) => a == b,
        (Json::Num(a), Json::Num(b)) => a.as_bytes() == b.as_bytes(),
        (Json::Text(a), Json::Text(b)) => a.as_str() == b.as_str(),
        (Json::List(a), Json::List(b)) => equal_items(a, b),
        (Json::Map(a), Json::Map(b)) => equal_members(a, b),
        _ => false,
    }
}

#[cycle(equal)]
fn equal_items(a: &[Json], b: &[Json]) -> bool
    ensures { IsTrue result ↔ (items_tree a.now ≡ items_tree b.now) }
{
    let mut rest = b;
    for x in a {
        let [y, others @ ..] = rest else {
            return false;
        };
        if !equal(x, y) {
            return false;
        }
        rest = others;
    }
    rest.is_empty()
}

#[cycle(equal)]
fn equal_members(a: &[Member], b: &[Member]) -> bool
    ensures { IsTrue result ↔ (members_tree a.now ≡ members_tree b.now) }
{
    let mut rest = b;
    for x in a {
        let [y, others @ ..] = rest else {
            return false;
        };
        if !equal_member(x, y) {
            return false;
        }
        rest = others;
    }
    rest.is_empty()
}

#[cycle(equal)]
fn equal_member(a: &Member, b: &Member) -> bool
    ensures { IsTrue result ↔ (named_tree a.now ≡ named_tree b.now) }
{
    a.name.as_str() == b.name.as_str() && equal(&a.value, &b.value)
}
