//! JSON values.
ghost use Rattle.std.specs.Prelude.{◌≡◌, IfOk, IfErr, option_copied, option_map};
ghost use Rattle.city_json.specs.Members.{member_of};
ghost use Rattle.city_json.specs.Tree.{tree, named_tree, items_tree, members_tree};

use crate::text::{NumText, Str};
use byte_streams::Fault;
use std::alloc::{AllocError, Global};

/// The items of an array, in order.
pub type Items = Vec<Json>;

/// The members of an object, in order.
pub type Members = Vec<Member>;

/// A JSON value (RFC 8259, section 3).
#[derive(Debug, Drop)]
#[cycle(json)]
pub enum Json {
    Null,
    Bool(bool),
    Num(NumText),
    Text(Str),
    List(Items),
    Map(Members),
}

/// A member of an object: its decoded name and its value (RFC 8259, section 4).
#[derive(Debug, Drop)]
#[cycle(json)]
pub struct Member {
    pub name: Str,
    pub value: Json,
}

impl Json {
    /// The value of the first member of that name. `None` where there is none, and for a value that is no
    /// object.
    pub fn get(&self, name: &str) -> Option<&Json>
        ensures { option_map tree (option_copied result) ≡ member_of name.now (tree self.now) }
    {
        let Json::Map(members) = self else {
            return None;
        };
        for member in members {
            if member.name.as_str() == name {
                return Some(&member.value);
            }
        }
        None
    }

    /// An equal value that shares no memory with this one. The only fault is [`Fault::Memory`].
    pub fn copy(&self, alloc: Global) -> Result<Json, Fault>
        ensures ok { IfOk result (λ copy. tree copy ≡ tree self.now) }
        ensures fault { IfErr result (λ fault. fault ≡ Fault.Memory) }
    {
        Ok(copy_value(alloc, self)?)
    }
}

#[cycle(copy)]
fn copy_value(alloc: Global, value: &Json) -> Result<Json, AllocError>
    ensures { IfOk result (λ copy. tree copy ≡ tree value.now) }
{
    Ok(match value {
        Json::Null => Json::Null,
        Json::Bool(truth) => Json::Bool(*truth),
        Json::Num(number) => Json::Num(number.copy(alloc)?),
        Json::Text(text) => Json::Text(text.copy(alloc)?),
        Json::List(items) => Json::List(copy_items(alloc, items)?),
        Json::Map(members) => Json::Map(copy_members(alloc, members)?),
    })
}

#[cycle(copy)]
fn copy_items(alloc: Global, items: &[Json]) -> Result<Items, AllocError>
    ensures { IfOk result (λ copies. items_tree copies.items ≡ items_tree items.now) }
{
    let mut copies = Vec::with_capacity(alloc, items.len())?;
    for item in items {
        copies.push(copy_value(alloc, item)?)?;
    }
    Ok(copies)
}

#[cycle(copy)]
fn copy_members(alloc: Global, members: &[Member]) -> Result<Members, AllocError>
    ensures { IfOk result (λ copies. members_tree copies.items ≡ members_tree members.now) }
{
    let mut copies = Vec::with_capacity(alloc, members.len())?;
    for member in members {
        copies.push(copy_member(alloc, member)?)?;
    }
    Ok(copies)
}

#[cycle(copy)]
fn copy_member(alloc: Global, member: &Member) -> Result<Member, AllocError>
    ensures { IfOk result (λ copy. named_tree copy ≡ named_tree member.now) }
{
    Ok(Member {
        name: member.name.copy(alloc)?,
        value: copy_value(alloc, &member.value)?,
    })
}
