//! Objects of which one member is changed.
ghost use Rattle.std.specs.Prelude.{◌≡◌, ◌++◌, [], ◌∷◌, IfOk, IfErr, OnOk, bytes_eq, map, position};
ghost use Rattle.city_json.specs.Tree.{tree, named_tree, members_tree};
ghost use Rattle.city_feature.specs.Changes.{with_named, without_named};
ghost use Rattle.city_feature.specs.Changes.{with_member, without_member};

use byte_streams::Fault;
use city_json::{Json, Member, Members, Str};
use std::alloc::Global;

fn has_name(member: &Member, name: &str) -> bool
    ensures { result ≡ bytes_eq (named_tree member.now).0 name.now }
{
    member.name.as_str() == name
}

/// Where the first member of this name stands.
fn place_of(members: &[Member], name: &str) -> Option<usize>
    ensures { result ≡ position (λ member. bytes_eq (named_tree member).0 name.now) members.now }
{
    members.iter().position(|member| has_name(member, name))
}

fn set_value(member: &mut Member, value: Json)
    ensures { named_tree member.new ≡ ((named_tree member.old).0, tree value) }
{
    member.value = value;
}

fn drop_named(members: &mut Members, name: &str)
    ensures { members_tree members.new.items
        ≡ without_named name.now (members_tree members.old.items) }
{
    if let Some(place) = place_of(members, name) {
        members.remove(place);
    }
}

fn set_named(alloc: Global, members: &mut Members, name: &str, value: Json) -> Result<(), Fault>
    ensures ok { OnOk result (members_tree members.new.items
        ≡ with_named name.now (tree value) (members_tree members.old.items)) }
    ensures fault { IfErr result (λ fault. fault ≡ Fault.Memory) }
{
    if let Some(place) = place_of(members, name) {
        set_value(&mut members[place], value);
        return Ok(());
    }
    let member = new_member(alloc, name, value)?;
    members.push(member)?;
    Ok(())
}

/// The member of this name and value. The only fault is [`Fault::Memory`].
pub(crate) fn new_member(alloc: Global, name: &str, value: Json) -> Result<Member, Fault>
    ensures ok { IfOk result (λ member. named_tree member ≡ (name.now, tree value)) }
    ensures fault { IfErr result (λ fault. fault ≡ Fault.Memory) }
{
    let name = Str::read(alloc, name)?;
    Ok(Member { name, value })
}

/// Drops the first member of this name from an object; a value that is no object stays as it is.
pub fn drop_member(object: &mut Json, name: &str)
    ensures { tree object.new ≡ without_member name.now (tree object.old) }
{
    if let Json::Map(members) = object {
        drop_named(members, name);
    }
}

/// Gives the first member of this name in an object the value, or adds such a member as the last.
/// The only fault is [`Fault::Memory`].
pub fn set_member(alloc: Global, object: &mut Json, name: &str, value: Json) -> Result<(), Fault>
    ensures ok { OnOk result (tree object.new
        ≡ with_member name.now (tree value) (tree object.old)) }
    ensures fault { IfErr result (λ fault. fault ≡ Fault.Memory) }
{
    match object {
        Json::Map(members) => set_named(alloc, members, name, value),
        _ => Ok(()),
    }
}
