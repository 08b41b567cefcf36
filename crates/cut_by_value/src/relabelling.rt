//! Copies of city objects with other numbers at the leaves of their boundaries. The only fault is
//! [`Fault::Memory`].
ghost use Rattle.std.specs.Prelude.{◌≡◌, map, IfOk, IfErr, codes};
ghost use Rattle.std.specs.Fmt.{decimal};
ghost use Rattle.city_json.specs.Tree.{Tree, tree, named_tree, items_tree};
ghost use Rattle.city_families.specs.Boundaries.{changed, in_items, in_member, relabelled_addresses};
ghost use Rattle.city_families.specs.Boundaries.{relabelled_geometries, relabelled_object};
ghost use Rattle.city_families.specs.Boundaries.{relabelled_part};
ghost use Rattle.city_families.specs.Leaves.{relabelled, relabelled_items};
ghost use Rattle.city_families.specs.Relabelling.{own_text};

use crate::changes::new_member;
use crate::leaves::index;
use crate::values::{name_of, value_of};
use byte_streams::Fault;
use city_json::{Items, Json, Member, Members, NumText};
use itoa::Buffer;
use std::alloc::Global;

/// A number in plain decimal digits.
fn plain(alloc: Global, value: usize) -> Result<NumText, Fault>
    ensures ok { IfOk result (λ text. text ≡ decimal value) }
    ensures fault { IfErr result (λ fault. fault ≡ Fault.Memory) }
{
    let mut digits = Buffer::new();
    NumText::read(alloc, digits.format(value).as_bytes())
}

/// The number that the table has for the vertex that the text names; a text that names none as it is.
fn own_number(alloc: Global, text: &NumText, table: &[usize]) -> Result<NumText, Fault>
    ensures ok { IfOk result (λ own. own ≡ own_text table.now text.now) }
    ensures fault { IfErr result (λ fault. fault ≡ Fault.Memory) }
{
    let Some(vertex) = index(text.as_bytes(), table.len()) else {
        return NumText::read(alloc, text.as_bytes());
    };
    plain(alloc, table[vertex])
}

#[cycle(relabel)]
fn relabelled(alloc: Global, value: &Json, table: &[usize]) -> Result<Json, Fault>
    ensures ok { IfOk result (λ new. tree new ≡ relabelled (own_text table.now) (tree value.now)) }
    ensures fault { IfErr result (λ fault. fault ≡ Fault.Memory) }
{
    match value {
        Json::Num(text) => Ok(Json::Num(own_number(alloc, text, table)?)),
        Json::List(items) => Ok(Json::List(relabelled_items(alloc, items, table)?)),
        Json::Null | Json::Bool(_) | Json::Text(_) | Json::Map(_) => value.copy(alloc),
    }
}

#[cycle(relabel)]
fn relabelled_items(alloc: Global, items: &[Json], table: &[usize]) -> Result<Items, Fault>
    ensures ok { IfOk result (λ new.
        items_tree new.items ≡ relabelled_items (own_text table.now) (items_tree items.now)) }
    ensures fault { IfErr result (λ fault. fault ≡ Fault.Memory) }
{
    let mut copies = Vec::with_capacity(alloc, items.len())?;
    for item in items {
        copies.push(relabelled(alloc, item, table)?)?;
    }
    Ok(copies)
}

/// A change of values, of which copies are made.
trait Change {
    // What becomes of a value.
    ghost change: { Self → Tree → Tree };

    /// The changed value.
    fn changed(&self, alloc: Global, value: &Json) -> Result<Json, Fault>
        ensures ok { IfOk result (λ new. tree new ≡ change self.now (tree value.now)) }
        ensures fault { IfErr result (λ fault. fault ≡ Fault.Memory) };
}

/// Other numbers at the leaves of a boundary.
#[derive(Clone, Copy, Drop)]
struct AtLeaves<'a> {
    table: &'a [usize],
}

impl Change for AtLeaves<'_> {
    ghost change = { λ leaves. relabelled (own_text leaves.table.now) };

    fn changed(&self, alloc: Global, value: &Json) -> Result<Json, Fault> {
        relabelled(alloc, value, self.table)
    }
}

/// A change of the member of this name, in an object.
#[derive(Drop)]
struct InMember<C> {
    name: &'static str,
    inner: C,
}

impl<C: Change> Change for InMember<C> {
    ghost change = { λ held. in_member held.name.now (C.change held.inner) };

    fn changed(&self, alloc: Global, value: &Json) -> Result<Json, Fault> {
        let Json::Map(members) = value else {
            return value.copy(alloc);
        };
        Ok(Json::Map(changed_members(alloc, members, self.name, &self.inner)?))
    }
}

/// A change of each item, in an array.
#[derive(Drop)]
struct InItems<C> {
    inner: C,
}

impl<C: Change> Change for InItems<C> {
    ghost change = { λ held. in_items (C.change held.inner) };

    fn changed(&self, alloc: Global, value: &Json) -> Result<Json, Fault> {
        let Json::List(items) = value else {
            return value.copy(alloc);
        };
        Ok(Json::List(changed_items(alloc, items, &self.inner)?))
    }
}

/// A copy of a member, changed if it has this name.
fn changed_member<C: Change>(
    alloc: Global,
    member: &Member,
    name: &str,
    change: &C,
) -> Result<Member, Fault>
    ensures ok { IfOk result (λ new. named_tree new
        ≡ changed name.now (C.change change.now) (named_tree member.now)) }
    ensures fault { IfErr result (λ fault. fault ≡ Fault.Memory) }
{
    let own = name_of(member);
    if own == name {
        let value = change.changed(alloc, value_of(member))?;
        return new_member(alloc, own, value);
    }
    let value = value_of(member).copy(alloc)?;
    new_member(alloc, own, value)
}

fn changed_members<C: Change>(
    alloc: Global,
    members: &[Member],
    name: &str,
    change: &C,
) -> Result<Members, Fault>
    ensures ok { IfOk result (λ new. map named_tree new.items
        ≡ map (changed name.now (C.change change.now)) (map named_tree members.now)) }
    ensures fault { IfErr result (λ fault. fault ≡ Fault.Memory) }
{
    let mut copies = Vec::with_capacity(alloc, members.len())?;
    for member in members {
        copies.push(changed_member(alloc, member, name, change)?)?;
    }
    Ok(copies)
}

fn changed_items<C: Change>(alloc: Global, items: &[Json], change: &C) -> Result<Items, Fault>
    ensures ok { IfOk result (λ new. map tree new.items ≡ map (C.change change.now) (map tree items.now)) }
    ensures fault { IfErr result (λ fault. fault ≡ Fault.Memory) }
{
    let mut copies = Vec::with_capacity(alloc, items.len())?;
    for item in items {
        copies.push(change.changed(alloc, item)?)?;
    }
    Ok(copies)
}

/// What becomes of a geometry or a location.
fn in_boundaries(table: &[usize]) -> InMember<AtLeaves<'_>>
    ensures name { result.name.now ≡ codes "boundaries" }
    ensures table { result.inner.table.now ≡ table.now }
{
    InMember {
        name: "boundaries",
        inner: AtLeaves { table },
    }
}

/// A copy of the geometries of an object with their boundaries relabelled.
fn with_geometries(alloc: Global, value: &Json, table: &[usize]) -> Result<Json, Fault>
    ensures ok { IfOk result (λ new. tree new
        ≡ relabelled_geometries (own_text table.now) (tree value.now)) }
    ensures fault { IfErr result (λ fault. fault ≡ Fault.Memory) }
{
    let geometries = InItems {
        inner: in_boundaries(table),
    };
    geometries.changed(alloc, value)
}

/// A copy of the addresses of an object with the boundaries of their locations relabelled.
fn with_addresses(alloc: Global, value: &Json, table: &[usize]) -> Result<Json, Fault>
    ensures ok { IfOk result (λ new. tree new
        ≡ relabelled_addresses (own_text table.now) (tree value.now)) }
    ensures fault { IfErr result (λ fault. fault ≡ Fault.Memory) }
{
    let addresses = InItems {
        inner: InMember {
            name: "location",
            inner: in_boundaries(table),
        },
    };
    addresses.changed(alloc, value)
}

/// A copy of a member of a city object.
fn with_part(alloc: Global, member: &Member, table: &[usize]) -> Result<Member, Fault>
    ensures ok { IfOk result (λ new. named_tree new
        ≡ relabelled_part (own_text table.now) (named_tree member.now)) }
    ensures fault { IfErr result (λ fault. fault ≡ Fault.Memory) }
{
    let name = name_of(member);
    if name == "geometry" {
        let value = with_geometries(alloc, value_of(member), table)?;
        return new_member(alloc, name, value);
    }
    if name == "address" {
        let value = with_addresses(alloc, value_of(member), table)?;
        return new_member(alloc, name, value);
    }
    let value = value_of(member).copy(alloc)?;
    new_member(alloc, name, value)
}

fn members_with_parts(alloc: Global, members: &[Member], table: &[usize]) -> Result<Members, Fault>
    ensures ok { IfOk result (λ new. map named_tree new.items
        ≡ map (relabelled_part (own_text table.now)) (map named_tree members.now)) }
    ensures fault { IfErr result (λ fault. fault ≡ Fault.Memory) }
{
    let mut copies = Vec::with_capacity(alloc, members.len())?;
    for member in members {
        copies.push(with_part(alloc, member, table)?)?;
    }
    Ok(copies)
}

/// A copy of a city object with its boundaries relabelled.
pub(crate) fn relabelled_object(alloc: Global, value: &Json, table: &[usize]) -> Result<Json, Fault>
    ensures ok { IfOk result (λ new. tree new
        ≡ relabelled_object (own_text table.now) (tree value.now)) }
    ensures fault { IfErr result (λ fault. fault ≡ Fault.Memory) }
{
    let Json::Map(members) = value else {
        return value.copy(alloc);
    };
    Ok(Json::Map(members_with_parts(alloc, members, table)?))
}
