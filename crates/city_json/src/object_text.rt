//! The compact text of an object with its members, by their names.
ghost use Rattle.std.specs.Prelude.{◌≡◌, IfNone, IfSome};
ghost use Rattle.city_json.specs.CompactTexts.{IsCompactOf};
ghost use Rattle.city_json.specs.ObjectTexts.{HasNone, IsPlacedObject, IsValueOf, IsValueOr, members_of, object_of};
ghost use Rattle.city_json.specs.Parts.{AreParts, IsPartNamed};
ghost use Rattle.city_json.specs.Tree.{MemberTrees, object};

use crate::compacting::{MemberPlace, between, is_between, part_named};
use std::marker::Model;

/// The compact text of an object that fits (RFC 8259, section 4; at most 128 levels, no name twice), and where each of its
/// members lies in it, in their order.
#[derive(Debug, Drop)]
pub struct ObjectText<'a> {
    text: &'a [u8],
    parts: &'a [MemberPlace],
}

impl<'a> Model for ObjectText<'a> {
    ghost use Rattle.city_json.specs.ObjectTexts.{IsPlacedObject, PlacedObject};

    ghost Value = { PlacedObject };

    ghost view = { λ object. record { text = object.text.now; parts = object.parts.now } };

    ghost invariant = { λ object. IsPlacedObject (record { text = object.text.now; parts = object.parts.now }) };
}

impl<'a> ObjectText<'a> {
    /// This text, with the parts of its members.
    pub fn new(text: &'a [u8], parts: &'a [MemberPlace]) -> ObjectText<'a>
        requires { (members : MemberTrees) × IsCompactOf text.now (object members) × AreParts 1 parts.now members }
        ensures { result ≡ record { text = text.now; parts = parts.now } }
    {
        ObjectText { text, parts }
    }

    /// The whole text.
    pub fn text(&self) -> &'a [u8]
        ensures is { result.now ≡ self.now.text }
        ensures of { IsCompactOf result.now (object_of self.now) }
        ensures placed { IsPlacedObject self.now }
    {
        self.text
    }

    /// The parts of its members.
    pub fn parts(&self) -> &'a [MemberPlace]
        ensures is { result.now ≡ self.now.parts }
        ensures are { AreParts 1 result.now (members_of self.now) }
    {
        self.parts
    }

    /// Where the member of this name lies, which is given as it stands in the text, with its marks and its colon. It is
    /// looked for first at this place among the members, counted from 0, where most writers put it. None exactly where there
    /// is no member of the name.
    #[inline(always)]
    pub fn part(&self, place: usize, name: &[u8]) -> Option<MemberPlace>
        ensures some { IfSome result (IsPartNamed self.now.text self.now.parts name.now) }
        ensures none { IfNone result (HasNone name.now self.now) }
    {
        if place < self.parts.len() {
            let part = self.parts[place];
            if is_between(self.text, part.at, part.value, name) {
                return Some(part);
            }
        }
        part_named(self.text, self.parts, name)
    }

    /// The compact text of the value of that member.
    #[inline(always)]
    pub fn value(&self, place: usize, name: &[u8]) -> Option<&'a [u8]>
        ensures some { IfSome result (λ found. IsValueOf name.now self.now found.now) }
        ensures none { IfNone result (HasNone name.now self.now) }
    {
        let part = self.part(place, name)?;
        between(self.text, part.value, part.end)
    }

    /// The same, or another text where there is no member of the name.
    #[inline(always)]
    pub fn value_or<'b>(&'b self, place: usize, name: &[u8], other: &'b [u8]) -> &'b [u8]
        ensures { IsValueOr name.now self.now other.now result.now }
    {
        match self.value(place, name) {
            Some(value) => value,
            None => other,
        }
    }
}
