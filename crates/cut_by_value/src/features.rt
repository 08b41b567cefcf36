//! The features of a document.
ghost use Rattle.std.specs.Prelude.{◌≡◌, ◌⊎◌, ◌<◌, ℕ, List, All, Some, Contains, IfOk, IfErr, OnOk, [], codes, length, map};
ghost use Rattle.std.specs.Prelude.{option_copied, option_map};
ghost use Rattle.std.specs.List.{AllByRecursion};
ghost use Rattle.city_json.specs.Fits.{IsDistinct};
ghost use Rattle.city_json.specs.Members.{first_named};
ghost use Rattle.city_json.specs.Tree.{Tree, array, items_tree, members_tree, named_tree, no_members, object, string, tree};
ghost use Rattle.city_grid.specs.Axes.{Triple};
ghost use Rattle.city_feature.specs.Changes.{with_member};
ghost use Rattle.city_feature.specs.Feature.{AreVertices, FeatureValue};
ghost use Rattle.city_feature.specs.Values.{feature_value};
ghost use Rattle.city_families.specs.Boundaries.{IsBounded};
ghost use Rattle.city_families.specs.Chosen.{appearance_added, chosen_objects, named_tree_at};
ghost use Rattle.city_families.specs.CityObjects.{IsReached, roots};
ghost use Rattle.city_families.specs.Cut.{AreFeatures, IsFeatureOf, feature_tree};
ghost use Rattle.city_families.specs.Families.{AreRelated};
ghost use Rattle.city_families.specs.Items.{values};
ghost use Rattle.city_families.specs.Places.{IsFamily, name_at};

use crate::assembling::{Assembled, assemble};
use crate::changes::set_member;
use crate::keeping::Keep;
use crate::values::name_of;
use byte_streams::Fault;
use city_families::{Family, Kin, Numbering, family_at, no_marks};
use city_feature::{Feature, feature, text_json};
use city_json::{Json, Member, Str};
use std::alloc::Global;

/// The objects at these places. The only fault is [`Fault::Memory`].
fn objects_at<'a>(
    alloc: Global,
    objects: &'a [Member],
    places: &[usize],
) -> Result<Vec<&'a Member>, Fault>
    requires { All (λ k. k < length objects.now) places.now }
    ensures ok { IfOk result (λ chosen.
        chosen_objects chosen.items ≡ map (named_tree_at objects.now) places.now) }
    ensures fault { IfErr result (λ fault. fault ≡ Fault.Memory) }
{
    let mut chosen = Vec::with_capacity(alloc, places.len())?;
    for place in places {
        chosen.push(&objects[*place])?;
    }
    Ok(chosen)
}

/// Gives an object a text as the member of this name. The only fault is [`Fault::Memory`].
fn set_text(alloc: Global, object: &mut Json, name: &str, text: &str) -> Result<(), Fault>
    ensures ok { OnOk result (tree object.new
        ≡ with_member name.now (string text.now) (tree object.old)) }
    ensures fault { IfErr result (λ fault. fault ≡ Fault.Memory) }
{
    let json = text_json(alloc, text)?;
    set_member(alloc, object, name, json)
}

/// Gives a feature an appearance, where there is one. The only fault is [`Fault::Memory`].
fn set_appearance(alloc: Global, feature: &mut Json, appearance: Option<&Json>) -> Result<(), Fault>
    ensures ok { OnOk result (tree feature.new
        ≡ appearance_added (option_map tree (option_copied appearance.entry)) (tree feature.old)) }
    ensures fault { IfErr result (λ fault. fault ≡ Fault.Memory) }
{
    let Some(appearance) = appearance else {
        return Ok(());
    };
    let copy = appearance.copy(alloc)?;
    set_member(alloc, feature, "appearance", copy)
}

/// Gives an object without members those of a feature. The only fault is [`Fault::Memory`].
fn fill_feature(
    alloc: Global,
    feature: &mut Json,
    id: &str,
    assembled: Assembled,
    appearance: Option<&Json>,
) -> Result<(), Fault>
    requires { tree feature.old ≡ object no_members }
    ensures ok { OnOk result (tree feature.new ≡ feature_tree id.now
        (map named_tree assembled.objects.items) (array (items_tree assembled.vertices.items))
        (option_map tree (option_copied appearance.entry))) }
    ensures fault { IfErr result (λ fault. fault ≡ Fault.Memory) }
{
    let Assembled { objects, vertices } = assembled;
    set_text(alloc, feature, "type", "CityJSONFeature")?;
    set_text(alloc, feature, "id", id)?;
    set_member(alloc, feature, "CityObjects", Json::Map(objects))?;
    set_member(alloc, feature, "vertices", Json::List(vertices))?;
    set_appearance(alloc, feature, appearance)
}

/// The only fault is [`Fault::Memory`].
fn feature_json(
    alloc: Global,
    id: &str,
    assembled: Assembled,
    appearance: Option<&Json>,
) -> Result<Json, Fault>
    ensures ok { IfOk result (λ json. tree json ≡ feature_tree id.now
        (map named_tree assembled.objects.items) (array (items_tree assembled.vertices.items))
        (option_map tree (option_copied appearance.entry))) }
    ensures fault { IfErr result (λ fault. fault ≡ Fault.Memory) }
{
    let mut json = Json::Map(Vec::new(alloc));
    fill_feature(alloc, &mut json, id, assembled, appearance)?;
    Ok(json)
}

/// The feature that a family is.
///
/// # Errors
///
/// [`Fault::BoundaryIndex`] where a boundary index is invalid, and [`Fault::Memory`].
fn feature_of(
    alloc: Global,
    objects: &[Member],
    vertices: &[Json],
    appearance: Option<&Json>,
    family: &Family,
    numbering: &mut Numbering,
) -> Result<Feature, Fault>
    requires distinct { IsDistinct (object (members_tree objects.now)) }
    requires family { IsFamily (members_tree objects.now) family.now.root family.now.places.items }
    requires root { family.now.root < length objects.now }
    requires long { length numbering.old.table.items ≡ length vertices.now }
    ensures long { length numbering.new.table.items ≡ length numbering.old.table.items }
    ensures ok { IfOk result (λ feature. (points : List Triple)
        → AreVertices (items_tree vertices.now) points
        → IsFeatureOf (members_tree objects.now) (option_map tree (option_copied appearance.entry))
        points (name_at (members_tree objects.now) family.now.root) (feature_value feature)) }
    ensures bounded { OnOk result ((k : ℕ) → Contains family.now.places.items k
        → IsBounded (length vertices.now) (named_tree_at objects.now k).1) }
    ensures fault { IfErr result (λ fault. (points : List Triple)
        → AreVertices (items_tree vertices.now) points → (fault ≡ Fault.Memory)
        ⊎ ((fault ≡ Fault.BoundaryIndex) × ¬ AllByRecursion (IsBounded (length vertices.now))
        (values (members_tree objects.now)))) }
{
    let chosen = objects_at(alloc, objects, &family.places)?;
    let assembled = assemble(alloc, &chosen, vertices, numbering)?;
    let id = name_of(&objects[family.root]);
    let json = feature_json(alloc, id, assembled, appearance)?;
    feature(alloc, json)
}

/// Keeps the features that the families of the objects are, in their order. No more than one family is held.
///
/// # Errors
///
/// [`Fault::BoundaryIndex`] where a boundary in one is none, and [`Fault::Memory`].
pub(crate) fn keep_features<K: Keep>(
    alloc: Global,
    objects: &[Member],
    vertices: &[Json],
    appearance: Option<&Json>,
    kin: &Kin,
    kept: &mut K,
) -> Result<(), Fault>
    requires distinct { IsDistinct (object (members_tree objects.now)) }
    requires related { AreRelated (map named_tree objects.now) kin.now.children kin.now.parents.items }
    requires none { K.keeps kept.old [] }
    ensures ok { OnOk result ((features : List FeatureValue) × K.keeps kept.new features
        × ((points : List Triple) → AreVertices (items_tree vertices.now) points
        → AreFeatures (members_tree objects.now) (option_map tree (option_copied appearance.entry))
        points features)) }
    ensures bounded { OnOk result ((id name : List ℕ) (value : Tree)
        → Contains (roots (members_tree objects.now)) id
        → IsReached (members_tree objects.now) id name
        → first_named name (members_tree objects.now) ≡ Some value
        → IsBounded (length vertices.now) value) }
    ensures fault { IfErr result (λ fault. (points : List Triple)
        → AreVertices (items_tree vertices.now) points → (fault ≡ Fault.Memory)
        ⊎ ((fault ≡ Fault.BoundaryIndex) × ¬ AllByRecursion (IsBounded (length vertices.now))
        (values (members_tree objects.now)))) }
{
    let mut numbering = Numbering {
        table: vec![in alloc; 0usize; vertices.len()]?,
        order: Vec::new(alloc),
    };
    let mut marks = no_marks(alloc, kin)?;
    for at in 0..kin.children.len() {
        let found = family_at(alloc, kin, at, &mut marks)?;
        let Some(family) = found else {
            continue;
        };
        let feature = feature_of(
            alloc,
            objects,
            vertices,
            appearance,
            &family,
            &mut numbering,
        )?;
        kept.keep(feature)?;
    }
    Ok(())
}
