//! The objects of a feature, copied with numbers of their own at the leaves of their boundaries.
ghost use Rattle.std.specs.Prelude.{◌≡◌, ◌++◌, ◌≤◌, ℕ, List, length, IfSome, OnSome};
ghost use Rattle.std.specs.List.{flat_map};
ghost use Rattle.city_json.specs.Compact.{compact};
ghost use Rattle.city_json.specs.Parts.{AreParts};
ghost use Rattle.city_json.specs.Tree.{MemberTrees, Tree, object};
ghost use Rattle.city_json.specs.declared.compacting.places.MemberPlace.{MemberPlace};
ghost use Rattle.city_families.specs.Boundaries.{IsBounded, boundaries, relabelled_object};
ghost use Rattle.city_families.specs.Copied.{Copies, Numbers};
ghost use Rattle.cut_on_text.specs.Holders.{AreHeldIn, copied_to, part_end, other_than, uses_in};
ghost use Rattle.city_families.specs.Leaves.{leaves};
ghost use Rattle.cut_on_text.specs.Overviews.{HasHolders, IsHolderPart};
ghost use Rattle.cut_on_text.specs.Walks.{Walks};
ghost use Rattle.city_json.specs.CompactTexts.{IsCompactOf};

use super::drafts::{Copier, Labels};
use super::holders::{HeldParts, Holder};
use super::items::append_held;
use super::texts::append_text;
use city_families::Numbering;
use city_json::{MemberPlace, between};

/// Copies the text of an object from a place on up to the end of a member in which boundaries stand, if it is there: where
/// that is.
pub(super) fn append_member<L: Labels>(
    text: &[u8],
    from: usize,
    part: Option<MemberPlace>,
    holder: Holder,
    copier: &mut Copier<L>,
) -> Option<usize>
    ensures count { OnSome result (L.count copier.new.labels ≡ L.count copier.old.labels) }
    ensures end { IfSome result (λ end. end ≡ part_end from part) }
    ensures ordered { OnSome result (IfSome part (λ part. from ≤ part.value)) }
    ensures made { OnSome result ((parts : List MemberPlace) (members : MemberTrees)
        → IsCompactOf text.now (object members) → AreParts 1 parts members → IsHolderPart holder text.now parts part
        → AreHeldIn holder (L.count copier.old.labels) (object members)
        × Walks L.labelled copier.old.labels copier.old.draft.line copier.new.labels copier.new.draft.line (uses_in holder (object members))
        (λ change. copied_to text.now from part holder change (object members))) }
{
    let Some(part) = part else {
        return Some(from);
    };
    let front = between(text, from, part.value)?;
    let held = between(text, part.value, part.end)?;
    append_text(front, &mut copier.draft.line)?;
    append_held(held, holder, copier)?;
    Some(part.end)
}

/// Copies an object in which boundaries may stand in these members, of which the one of `first` comes first.
fn append_members<L: Labels>(
    text: &[u8],
    held: &HeldParts,
    first: Holder,
    copier: &mut Copier<L>,
) -> Option<()>
    requires { HasHolders text.now held.now }
    ensures count { OnSome result (L.count copier.new.labels ≡ L.count copier.old.labels) }
    ensures made { OnSome result ((value : Tree) → IsCompactOf text.now value
        → IsBounded (L.count copier.old.labels) value
        × Walks L.labelled copier.old.labels copier.old.draft.line copier.new.labels copier.new.draft.line
        (uses_in first value ++ uses_in (other_than first) value) (λ change. compact (relabelled_object change value))) }
{
    let last = first.other();
    let middle = append_member(text, 0, held.part(first), first, copier)?;
    let end = append_member(text, middle, held.part(last), last, copier)?;
    let back = between(text, end, text.len())?;
    append_text(back, &mut copier.draft.line)
}

/// Numbers the vertices that stand in the geometries, and writes nothing.
fn number_geometries(text: &[u8], held: &HeldParts, copier: &mut Copier<Numbering>) -> Option<()>
    requires { HasHolders text.now held.now }
    ensures long { OnSome result (length copier.new.labels.table.items ≡ length copier.old.labels.table.items) }
    ensures made { OnSome result ((value : Tree) → IsCompactOf text.now value
        → (copier.new.draft.line ≡ copier.old.draft.line)
        × Numbers copier.old.labels.table.items copier.old.labels.order.items
        copier.new.labels.table.items copier.new.labels.order.items (uses_in Holder.Geometry value)) }
{
    let len = copier.draft.line.items().len();
    append_member(text, 0, held.geometry, Holder::Geometry, copier)?;
    copier.draft.line.truncate(len);
    Some(())
}

/// Copies a city object, in which boundaries may stand in these parts. The vertices of the geometries are numbered first,
/// wherever they stand.
pub(super) fn append_object(
    text: &[u8],
    held: &HeldParts,
    copier: &mut Copier<Numbering>,
) -> Option<()>
    requires { HasHolders text.now held.now }
    ensures long { OnSome result (length copier.new.labels.table.items ≡ length copier.old.labels.table.items) }
    ensures made { OnSome result ((value : Tree) → IsCompactOf text.now value
        → IsBounded (length copier.old.labels.table.items) value
        × Copies copier.old.labels.table.items copier.old.labels.order.items copier.old.draft.line
        copier.new.labels.table.items copier.new.labels.order.items copier.new.draft.line
        (flat_map leaves (boundaries value)) (λ change. compact (relabelled_object change value))) }
{
    match held.first() {
        Holder::Geometry => append_members(text, held, Holder::Geometry, copier),
        Holder::Address => {
            number_geometries(text, held, copier)?;
            append_members(text, held, Holder::Address, copier)
        }
    }
}
