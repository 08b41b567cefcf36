//! The extensions of headers, each name with the value that it has where it first appears.
ghost use Rattle.std.specs.Prelude.{◌≡◌, ◌++◌, [], ◌∷◌, None, OnOk, IfErr, option_map, option_copied};
ghost use Rattle.city_json.specs.Compact.{compact, compact_members};
ghost use Rattle.city_json.specs.Members.{first_named};
ghost use Rattle.city_json.specs.Tree.{tree, members_tree, no_members, object};
ghost use Rattle.city_feature.specs.Joined.{RefusesExtensions, TakesIn, extensions_of, with_last};
ghost use Rattle.city_feature.specs.JoinedMembers.{has_members};
ghost use Rattle.city_feature.specs.Pieces.{members_text};
ghost use Rattle.city_feature.specs.Values.{header_value, lent_members};

mod ordered;

use crate::headers::Header;
use crate::joining::extensions::ordered::Ordered;
use crate::joining::members::append_member;
use byte_streams::{Fault, Line};
use city_json::{Json, Member, same};
use indexmap::IndexMap;
use std::alloc::Global;
use std::marker::Model;

/// The most extensions that are found by the hash of their names. Its seed is fixed, so names can be
/// made that all have one hash.
const MAX_HASHED: usize = 16;

/// Names and values of extensions, in the order in which the names first appeared.
#[derive(Drop)]
pub(crate) struct Extensions<'a> {
    first: IndexMap<&'a str, &'a Json>,
    later: Ordered<'a>,
}

impl<'a> Model for Extensions<'a> {
    ghost use Rattle.std.specs.Prelude.{◌++◌, ℕ, List};
    ghost use Rattle.std.specs.Borrow.{Bor};
    ghost use Rattle.std.specs.Coded.{codes};
    ghost use Rattle.city_json.specs.contracts.json.Json as json_type;
    ghost use Rattle.city_json.specs.declared.json.Json.{Json};

    ghost Value = { List (Bor (List ℕ) × Bor Json) };

    ghost coded = { Prim.hlevel (codes, json_type.the_row.coded) };

    ghost view = { λ extensions. extensions.first.entries ++ extensions.later };
}

/// The extensions of one header.
fn extensions_of(header: &Header) -> &[Member]
    ensures { members_tree result.now ≡ extensions_of (header_value header.now) }
{
    match header.json().get("extensions") {
        Some(Json::Map(members)) => members,
        _ => &[],
    }
}

/// Appends extensions that are found by the hash of their names, the first of them as the first members.
fn append_hashed(alloc: Global, line: &mut Line, known: &IndexMap<&str, &Json>) -> Result<(), Fault>
    ensures ok { OnOk result (line.new
        ≡ line.old ++ compact_members (lent_members known.now.entries)) }
    ensures fault { IfErr result (λ fault. fault ≡ Fault.Memory) }
{
    let mut is_first = true;
    for (name, value) in known.iter() {
        append_member(alloc, line, *name, *value, is_first)?;
        is_first = false;
    }
    Ok(())
}

fn append_pairs(
    alloc: Global,
    line: &mut Line,
    pairs: &[(&str, &Json)],
    are_first: bool,
) -> Result<(), Fault>
    ensures ok { OnOk result (line.new
        ≡ line.old ++ members_text are_first (lent_members pairs.now)) }
    ensures fault { IfErr result (λ fault. fault ≡ Fault.Memory) }
{
    let mut is_first = are_first;
    for (name, value) in pairs {
        append_member(alloc, line, *name, *value, is_first)?;
        is_first = false;
    }
    Ok(())
}

impl<'a> Extensions<'a> {
    /// No extensions. It takes no memory.
    pub(crate) fn new(alloc: Global) -> Extensions<'a>
        ensures { lent_members result ≡ no_members }
    {
        Extensions {
            first: IndexMap::new(alloc),
            later: Ordered::new(alloc),
        }
    }

    /// The value that a name has.
    fn value_of(&self, name: &str) -> Option<&'a Json>
        ensures { option_map tree (option_copied result)
            ≡ first_named name.now (lent_members self.now) }
    {
        if let Some(value) = self.first.get(name) {
            return Some(*value);
        }
        self.later.value_of(name)
    }

    /// Adds a new name, as the last.
    fn append(&mut self, name: &'a str, value: &'a Json) -> Result<(), Fault>
        requires { first_named name.now (lent_members self.old) ≡ None }
        ensures ok { OnOk result (lent_members self.new
            ≡ with_last (lent_members self.old) name.now (tree value.now)) }
        ensures fault { IfErr result (λ fault. fault ≡ Fault.Memory) }
    {
        if self.later.is_empty() && self.first.len() < MAX_HASHED {
            self.first.insert(name, value)?;
            return Ok(());
        }
        self.later.append(name, value)
    }

    /// Takes in one extension.
    fn take_one(&mut self, member: &'a Member) -> Result<(), Fault>
        ensures ok { OnOk result (TakesIn (lent_members self.old)
            (members_tree (member.now ∷ [])) (lent_members self.new)) }
        ensures refusal { IfErr result (λ fault.
            RefusesExtensions fault (lent_members self.old) (members_tree (member.now ∷ []))) }
    {
        let (name, value) = (member.name.as_str(), &member.value);
        let Some(known) = self.value_of(name) else {
            return self.append(name, value);
        };
        if !same(known, value) {
            return Err(Fault::ExtensionClash);
        }
        Ok(())
    }

    /// Takes in the extensions of a header: those with a new name go last, in their order.
    ///
    /// # Errors
    ///
    /// [`Fault::ExtensionClash`] where one has another text than the known one of its name, and
    /// [`Fault::Memory`] where there is not enough memory.
    pub(crate) fn take_in(&mut self, header: &'a Header) -> Result<(), Fault>
        ensures ok { OnOk result (TakesIn (lent_members self.old)
            (extensions_of (header_value header.now)) (lent_members self.new)) }
        ensures refusal { IfErr result (λ fault.
            RefusesExtensions fault (lent_members self.old) (extensions_of (header_value header.now))) }
    {
        for member in extensions_of(header) {
            self.take_one(member)?;
        }
        Ok(())
    }

    /// Whether there are any.
    pub(crate) fn has_some(&self) -> bool
        ensures { result ≡ has_members (lent_members self.now) }
    {
        if self.first.is_empty() {
            return !self.later.is_empty();
        }
        true
    }

    /// Appends the compact text of an object of them, with no copy of a value. The only fault is
    /// [`Fault::Memory`].
    pub(crate) fn append_to(&self, alloc: Global, line: &mut Line) -> Result<(), Fault>
        ensures ok { OnOk result (line.new
            ≡ line.old ++ compact (object (lent_members self.now))) }
        ensures fault { IfErr result (λ fault. fault ≡ Fault.Memory) }
    {
        line.append(b"{")?;
        append_hashed(alloc, line, &self.first)?;
        append_pairs(alloc, line, self.later.pairs(), self.first.is_empty())?;
        line.append(b"}")?;
        Ok(())
    }
}
