//! The names of the members of the objects that are open while a text is read, and whether those of one object differ.
ghost use Rattle.std.specs.Prelude.{◌≡◌, ◌↔◌, ◌++◌, ◌∷◌, ◌+◌, ◌<◌, ◌≤◌, [], take, drop, length, map, IfOk, IsTrue, OnOk};
ghost use Rattle.city_json.specs.Distinct.{are_apart};
ghost use Rattle.city_json.specs.Fits.{HasDistinctNames};
ghost use Rattle.city_json.specs.Members.{names};
ghost use Rattle.city_json.specs.OpenNames.{AreEnds, names_between, begin_of};
ghost use Rattle.city_json.specs.Tree.{MemberTrees};

use std::alloc::{AllocError, Global};
use std::marker::Model;

/// Names, decoded, in the order in which they were put. All lie in the same bytes, one after another.
#[derive(Drop)]
pub(super) struct OpenNames {
    alloc: Global,
    bytes: Vec<u8>,
    ends: Vec<usize>,
}

impl Model for OpenNames {
    ghost use Rattle.std.specs.Prelude.{List, ℕ, length};
    ghost use Rattle.city_json.specs.OpenNames.{AreEnds, names_between};

    ghost Value = { List (List ℕ) };

    ghost view = { λ names. names_between 0 names.ends.items names.bytes.items };

    ghost invariant = { λ names. AreEnds 0 names.ends.items (length names.bytes.items) };
}

impl OpenNames {
    pub(super) fn new(alloc: Global) -> OpenNames
        ensures { result ≡ [] }
    {
        OpenNames {
            alloc,
            bytes: Vec::new(alloc),
            ends: Vec::new(alloc),
        }
    }

    pub(super) fn len(&self) -> usize
        ensures { result ≡ length self.now }
    {
        self.ends.len()
    }

    /// Puts a name after the others.
    pub(super) fn push(&mut self, name: &[u8]) -> Result<(), AllocError>
        ensures { OnOk result (self.new ≡ self.old ++ name.now ∷ []) }
    {
        self.ends.reserve(1)?;
        self.bytes.extend_from_slice(name)?;
        self.ends.push_reserved(self.bytes.len());
        Ok(())
    }

    /// Leaves out the names from `base` on.
    pub(super) fn truncate(&mut self, base: usize)
        requires { base ≤ length self.old }
        ensures { self.new ≡ take base self.old }
    {
        let end = begin_of(&self.ends, base);
        self.bytes.truncate(end);
        self.ends.truncate(base);
    }

    /// The name at this place.
    fn name(&self, place: usize) -> &[u8]
        requires { place < length self.now }
        ensures { drop place self.now ≡ result.now ∷ drop (place + 1) self.now }
    {
        text_at(&self.bytes, &self.ends, place)
    }

    /// Whether no two of the names from `base` on are equal. The time is near linear in the names' bytes, whatever they are.
    pub(super) fn are_apart_from(&self, base: usize) -> Result<bool, AllocError>
        requires { base ≤ length self.now }
        ensures { IfOk result (λ apart. apart ≡ are_apart (drop base self.now)) }
    {
        if self.len() - base < 2 {
            return Ok(true);
        }
        let listed = self.listed_from(base)?;
        Ok(are_apart_when_sorted(listed))
    }

    fn listed_from(&self, base: usize) -> Result<Vec<&[u8]>, AllocError>
        requires { base ≤ length self.now }
        ensures { IfOk result (λ listed. map (λ name. name.now) listed.items ≡ drop base self.now) }
    {
        let mut listed = Vec::with_capacity(self.alloc, self.len() - base)?;
        for place in base..self.len() {
            listed.push_reserved(self.name(place));
        }
        Ok(listed)
    }
}

/// Where the name at this place begins.
fn begin_of(ends: &[usize], place: usize) -> usize
    requires { place ≤ length ends.now }
    ensures { result ≡ begin_of 0 place ends.now }
{
    if place == 0 { 0 } else { ends[place - 1] }
}

/// The bytes up to the end at this place, from the one before it on.
fn text_at<'a>(bytes: &'a [u8], ends: &[usize], place: usize) -> &'a [u8]
    requires ends { AreEnds 0 ends.now (length bytes.now) }
    requires place { place < length ends.now }
    ensures { drop place (names_between 0 ends.now bytes.now)
        ≡ result.now ∷ drop (place + 1) (names_between 0 ends.now bytes.now) }
{
    let start = begin_of(ends, place);
    let end = ends[place];
    &bytes[start..end]
}

/// Whether the names are pairwise different: they are sorted, and neighbours compared.
pub(crate) fn are_apart_when_sorted(listed: Vec<&[u8]>) -> bool
    ensures { (members : MemberTrees) → names members ≡ map (λ name. name.now) listed.entry.items
        → (IsTrue result ↔ HasDistinctNames members) }
{
    let mut listed = listed;
    listed.sort_unstable();
    listed.is_sorted_by(|first, second| first.cmp(second).is_lt())
}
