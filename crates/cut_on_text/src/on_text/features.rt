//! The texts of features, written from the compact texts of a document's parts.
ghost use Rattle.std.specs.Prelude.{◌≡◌, ◌++◌, ◌∷◌, [], ◌<◌, ◌≤◌, ◌+◌, ℕ, List, Option, Some, Contains, length, map, IfSome, OnSome};
ghost use Rattle.std.specs.List.{flat_map, AllByRecursion};
ghost use Rattle.city_json.specs.Bytes.{colon};
ghost use Rattle.city_json.specs.Compact.{compact, compact_members, compact_more_members, quoted};
ghost use Rattle.city_json.specs.Tree.{Tree, member_trees};
ghost use Rattle.city_grid.specs.Axes.{Triple};
ghost use Rattle.city_feature.specs.Feature.{FeatureValue, vertices_tree};
ghost use Rattle.city_families.specs.Boundaries.{IsBounded, boundaries, relabelled_object, relabelled_objects, uses};
ghost use Rattle.city_families.specs.Chosen.{named_at, point_at};
ghost use Rattle.city_families.specs.Copied.{Copies};
ghost use Rattle.city_families.specs.Cut.{IsFeatureOf};
ghost use Rattle.city_families.specs.Families.{AreRelated};
ghost use Rattle.cut_on_text.specs.FeatureText.{head_text, middle_text, tail_text};
ghost use Rattle.city_families.specs.Leaves.{leaves};
ghost use Rattle.city_families.specs.HeldTexts.{HasGrown};
ghost use Rattle.cut_on_text.specs.OwnFeatures.{AreOwnTexts};
ghost use Rattle.cut_on_text.specs.PlacedObjects.{AreObjects};
ghost use Rattle.city_families.specs.Places.{IsFamily, name_at};
ghost use Rattle.city_families.specs.Search.{InRange};
ghost use Rattle.cut_on_text.specs.VertexTexts.{StandAt};

use super::city_objects::CityObjects;
use super::drafts::{Copier, CopyDraft};
use super::objects::append_object;
use super::points::{VertexTexts, append_points};
use super::texts::append_text;
use crate::held::Pieces;
use byte_streams::Line;
use city_families::{Family, Kin, Numbering, family_at, no_marks};
use std::alloc::Global;

/// Copies the object at a place, with its name.
fn append_named(objects: &CityObjects<'_>, at: usize, copier: &mut Copier<Numbering>) -> Option<()>
    ensures long { OnSome result (length copier.new.labels.table.items ≡ length copier.old.labels.table.items) }
    ensures made { OnSome result ((pairs : List (List ℕ × Tree))
        → AreObjects objects.now pairs
        → (at < length pairs)
        × IsBounded (length copier.old.labels.table.items) (named_at pairs at).1
        × Copies copier.old.labels.table.items copier.old.labels.order.items copier.old.draft.line
        copier.new.labels.table.items copier.new.labels.order.items copier.new.draft.line
        (flat_map leaves (boundaries (named_at pairs at).1))
        (λ change. quoted (named_at pairs at).0 ++ colon ∷ compact (relabelled_object change (named_at pairs at).1))) }
{
    let one = objects.object(at)?;
    append_text(one.name, &mut copier.draft.line)?;
    append_object(one.value, &one.held, copier)
}

/// Copies the objects at these places, with a comma before each.
fn append_others(
    objects: &CityObjects<'_>,
    places: &[usize],
    copier: &mut Copier<Numbering>,
) -> Option<()>
    ensures long { OnSome result (length copier.new.labels.table.items ≡ length copier.old.labels.table.items) }
    ensures made { OnSome result ((pairs : List (List ℕ × Tree))
        → AreObjects objects.now pairs
        → AllByRecursion (λ named. IsBounded (length copier.old.labels.table.items) named.1) (map (named_at pairs) places.now)
        × Copies copier.old.labels.table.items copier.old.labels.order.items copier.old.draft.line
        copier.new.labels.table.items copier.new.labels.order.items copier.new.draft.line
        (uses (map (named_at pairs) places.now))
        (λ change. compact_more_members (member_trees (relabelled_objects change (map (named_at pairs) places.now))))) }
{
    for at in places {
        append_text(b",", &mut copier.draft.line)?;
        append_named(objects, *at, copier)?;
    }
    Some(())
}

/// Copies the objects at these places.
fn append_objects(
    objects: &CityObjects<'_>,
    places: &[usize],
    copier: &mut Copier<Numbering>,
) -> Option<()>
    ensures long { OnSome result (length copier.new.labels.table.items ≡ length copier.old.labels.table.items) }
    ensures made { OnSome result ((pairs : List (List ℕ × Tree))
        → AreObjects objects.now pairs
        → AllByRecursion (λ named. IsBounded (length copier.old.labels.table.items) named.1) (map (named_at pairs) places.now)
        × Copies copier.old.labels.table.items copier.old.labels.order.items copier.old.draft.line
        copier.new.labels.table.items copier.new.labels.order.items copier.new.draft.line
        (uses (map (named_at pairs) places.now))
        (λ change. compact_members (member_trees (relabelled_objects change (map (named_at pairs) places.now))))) }
{
    let [first, others @ ..] = places else {
        return None;
    };
    append_named(objects, *first, copier)?;
    append_others(objects, others, copier)
}

/// Appends what stands before the objects of a feature. The name is given with its marks.
fn append_head(id: &[u8], line: &mut Line) -> Option<()>
    ensures { OnSome result ((name : List ℕ) → id.now ≡ quoted name → line.new ≡ line.old ++ head_text name) }
{
    append_text(b"{\"type\":\"CityJSONFeature\",\"id\":", line)?;
    append_text(id, line)?;
    append_text(b",\"CityObjects\":{", line)
}

/// Appends the vertices of these numbers, and what stands before them.
fn append_rest(vertices: &VertexTexts<'_>, numbers: &[usize], line: &mut Line) -> Option<()>
    ensures { OnSome result ((points : List Triple) → StandAt vertices.now.text.now vertices.now.starts.items points
        → line.new ≡ line.old ++ (middle_text ++ compact (vertices_tree (map (point_at points) numbers.now)))) }
{
    append_text(b"},\"vertices\":", line)?;
    append_points(vertices, numbers, line)
}

/// Appends the text of the feature that a family is, up to its vertices.
fn append_feature(
    objects: &CityObjects<'_>,
    vertices: &VertexTexts<'_>,
    family: &Family,
    copier: &mut Copier<Numbering>,
) -> Option<()>
    requires long { length copier.old.labels.table.items + 1 ≡ length vertices.now.starts.items }
    ensures long { OnSome result (length copier.new.labels.table.items + 1 ≡ length vertices.now.starts.items) }
    ensures made { OnSome result ((pairs : List (List ℕ × Tree)) (appearance : Option Tree) (points : List Triple)
        → StandAt vertices.now.text.now vertices.now.starts.items points
        → AreObjects objects.now pairs
        → IsFamily (member_trees pairs) family.now.root family.now.places.items
        → (feature : FeatureValue)
        × IsFeatureOf (member_trees pairs) appearance points (name_at (member_trees pairs) family.now.root) feature
        × HasGrown copier.old.draft.line copier.new.draft.line (tail_text appearance) (compact feature.value)
        × ((k : ℕ) → Contains family.now.places.items k → IsBounded (length points) (named_at pairs k).1)) }
{
    let id = objects.id(family.root)?;
    append_head(id, &mut copier.draft.line)?;
    copier.labels.order.clear();
    append_objects(objects, &family.places, copier)?;
    append_rest(vertices, &copier.labels.order, &mut copier.draft.line)
}

/// Notes that a text ends where a line ends that had this length before it.
fn note_end(before: usize, line: &Line, ends: &mut Vec<usize>) -> Option<()>
    ensures onward { OnSome result (before ≤ length line.now) }
    ensures noted { OnSome result (ends.new.items ≡ ends.old.items ++ length line.now ∷ []) }
{
    let end = line.items().len();
    if end < before {
        return None;
    }
    ends.push(end).ok()
}

/// Numbers for so many vertices as there are starts of their texts, of which one stands after the last. `None`: there is
/// none, or out of memory.
fn no_numbers(alloc: Global, vertices: &VertexTexts<'_>) -> Option<Numbering>
    ensures { IfSome result (λ numbering. length numbering.table.items + 1 ≡ length vertices.now.starts.items) }
{
    if vertices.starts.is_empty() {
        return None;
    }
    Some(Numbering {
        table: vec![in alloc; 0usize; vertices.starts.len() - 1].ok()?,
        order: Vec::new(alloc),
    })
}

/// How many bytes the fixed text of a feature has at most.
const FIXED_LEN: usize = 64;

/// Whether the fixed texts of as many features as there are objects are longer than the objects and the vertices.
pub(super) fn are_short(objects: &CityObjects<'_>, vertices: &VertexTexts<'_>) -> bool {
    objects.len().saturating_mul(FIXED_LEN) > objects.text().len() + vertices.text.len()
}

/// How many bytes the texts of features may have that are held: each object and each vertex may stand in them twice.
fn most_held(objects: &CityObjects<'_>, vertices: &VertexTexts<'_>) -> usize {
    (objects.text().len() + vertices.text.len())
        .saturating_mul(2)
        .saturating_add(objects.len().saturating_mul(FIXED_LEN))
}

/// The features that the families of the objects are: what each text has of its own. No more than one family is held.
/// `None`: a boundary is at fault, or out of memory. `Some(None)`: there is too much of it to be held.
pub(super) fn feature_texts(
    alloc: Global,
    objects: &CityObjects<'_>,
    vertices: &VertexTexts<'_>,
    kin: &Kin,
) -> Option<Option<Pieces>>
    requires graph { InRange kin.now.children (length kin.now.children) }
    requires parents { length kin.now.parents.items ≡ length kin.now.children }
    ensures { IfSome result (λ found. IfSome found (λ own.
        (pairs : List (List ℕ × Tree)) (appearance : Option Tree) (points : List Triple)
        → StandAt vertices.now.text.now vertices.now.starts.items points
        → AreObjects objects.now pairs
        → AreRelated pairs kin.now.children kin.now.parents.items
        → AreOwnTexts (member_trees pairs) appearance points own)) }
{
    let mut copier = Copier {
        alloc,
        draft: CopyDraft {
            line: Line::from_vec(Vec::with_capacity(alloc, objects.text().len()).ok()?),
            from: 0,
        },
        labels: no_numbers(alloc, vertices)?,
    };
    let most = most_held(objects, vertices);
    let mut ends = Vec::with_capacity(alloc, objects.len()).ok()?;
    let Ok(mut marks) = no_marks(alloc, kin) else {
        return None;
    };
    for at in 0..kin.children.len() {
        let Ok(found) = family_at(alloc, kin, at, &mut marks) else {
            return None;
        };
        let Some(family) = found else {
            continue;
        };
        let before = copier.draft.line.items().len();
        append_feature(objects, vertices, &family, &mut copier)?;
        note_end(before, &copier.draft.line, &mut ends)?;
        if copier.draft.line.items().len() > most {
            return Some(None);
        }
    }
    Some(Some(Pieces::new(copier.draft.line, ends)))
}
