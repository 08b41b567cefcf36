//! City objects copied without their leaves, which are noted.
ghost use Rattle.std.specs.Prelude.{◌≡◌, ◌<◌, ◌++◌, ◌∷◌, [], All, IfSome, OnSome};
ghost use Rattle.std.specs.List.{flat_map};
ghost use Rattle.city_json.specs.Compact.{compact};
ghost use Rattle.city_json.specs.Tree.{Tree};
ghost use Rattle.city_json.specs.CompactTexts.{IsCompactOf};
ghost use Rattle.city_families.specs.Boundaries.{IsBounded, boundaries, relabelled_object};
ghost use Rattle.city_families.specs.Leaves.{leaves};
ghost use Rattle.cut_on_text.specs.Overviews.{HasHolders};
ghost use Rattle.cut_on_text.specs.Sketches.{IsNoted};

use super::drafts::{Copier, CopyDraft, Labels};
use super::holders::HeldParts;
use super::numbers::append_between;
use super::objects::append_member;
use super::skeletons::Leaf;
use super::texts::append_text;
use city_json::between;
use std::alloc::Global;

/// The leaves that were come upon, of boundaries that name vertices below a count.
#[derive(Drop)]
pub(super) struct NotedLeaves {
    pub leaves: Vec<Leaf>,
    pub count: usize,
    ghost within: { All (λ leaf. leaf.vertex < count) leaves.items },
}

impl NotedLeaves {
    ghost use Rattle.cut_on_text.specs.Skeletons.{LeafPlace};

    pub(super) fn new(alloc: Global, count: usize) -> NotedLeaves
        ensures none { result.leaves.items ≡ [] }
        ensures count { result.count ≡ count }
    {
        NotedLeaves {
            leaves: Vec::new(alloc),
            count,
        }
    }

    /// Notes a leaf that belongs at a place.
    fn note(&mut self, at: usize, vertex: usize) -> Option<()>
        requires { vertex < self.old.count }
        ensures count { OnSome result (self.new.count ≡ self.old.count) }
        ensures noted { OnSome result (self.new.leaves.items
            ≡ self.old.leaves.items ++ record { at = at; vertex = vertex } ∷ []) }
    {
        let leaf = Leaf::new(at, vertex)?;
        let Ok(_) = self.leaves.push(leaf) else {
            return None;
        };
        Some(())
    }
}

/// Each leaf is noted, and nothing is written for it.
impl Labels for NotedLeaves {
    ghost use Rattle.cut_on_text.specs.Sketches.{LeafNoted};

    ghost count = { λ notes. notes.count };

    ghost labelled = { λ notes line after longer vertex.
        LeafNoted notes.leaves.items line after.leaves.items longer vertex };

    fn count(&self) -> usize {
        self.count
    }

    fn label(
        &mut self,
        text: &[u8],
        at: usize,
        vertex: usize,
        draft: &mut CopyDraft,
    ) -> Option<()> {
        if draft.from > at {
            return None;
        }
        append_between(text, draft.from, at, &mut draft.line)?;
        self.note(draft.line.items().len(), vertex)
    }
}

/// Copies a city object without the leaves of its boundaries, which may stand in these parts: how many leaves are noted
/// where those of its geometries begin.
pub(super) fn note_object(
    text: &[u8],
    held: &HeldParts,
    copier: &mut Copier<NotedLeaves>,
) -> Option<usize>
    requires { HasHolders text.now held.now }
    ensures count { OnSome result (copier.new.labels.count ≡ copier.old.labels.count) }
    ensures made { IfSome result (λ split. (value : Tree) → IsCompactOf text.now value
        → IsBounded copier.old.labels.count value
        × IsNoted copier.old.labels.leaves.items copier.old.draft.line split copier.new.labels.leaves.items copier.new.draft.line
        (flat_map leaves (boundaries value)) (λ change. compact (relabelled_object change value))) }
{
    let first = held.first();
    let last = first.other();
    let before = copier.labels.leaves.len();
    let middle = append_member(text, 0, held.part(first), first, copier)?;
    let after = copier.labels.leaves.len();
    let end = append_member(text, middle, held.part(last), last, copier)?;
    let back = between(text, end, text.len())?;
    append_text(back, &mut copier.draft.line)?;
    Some(first.split(before, after))
}
