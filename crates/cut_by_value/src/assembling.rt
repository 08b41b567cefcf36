//! The objects of a feature, with vertices of their own.
ghost use Rattle.std.specs.Prelude.{◌≡◌, ◌⊎◌, ◌<◌, ◌++◌, ℕ, List, [], ◌∷◌, map, length, All, OnOk, IfOk, IfErr};
ghost use Rattle.std.specs.List.{AllByRecursion};
ghost use Rattle.city_json.specs.Fits.{IsDistinct};
ghost use Rattle.city_json.specs.Tree.{array, items_tree, tree, named_tree};
ghost use Rattle.city_grid.specs.Axes.{IsInRange, Triple};
ghost use Rattle.city_grid.specs.Vertex.{IsVertex, vertex_tree};
ghost use Rattle.city_feature.specs.Feature.{AreReadAgain, AreVertices, vertices_tree};
ghost use Rattle.city_families.specs.Boundaries.{IsBounded, relabelled_object, relabelled_objects, uses};
ghost use Rattle.city_families.specs.Chosen.{chosen_objects, point_at};
ghost use Rattle.city_families.specs.Numbered.{AreNumbered};
ghost use Rattle.city_families.specs.Assembled.{IsAssembled};
ghost use Rattle.city_families.specs.Relabelling.{own_text};

use crate::boundaries::number_object;
use crate::changes::new_member;
use crate::relabelling::relabelled_object;
use crate::values::{name_of, value_of};
use byte_streams::Fault;
use city_families::Numbering;
use city_grid::{vertex, write_vertex};
use city_json::{Items, Json, Member, Members};
use std::alloc::Global;

fn number_named(member: &Member, numbering: &mut Numbering) -> Result<(), Fault>
    ensures long { length numbering.new.table.items ≡ length numbering.old.table.items }
    ensures bounded { OnOk result
        (IsBounded (length numbering.old.table.items) (named_tree member.now).1) }
    ensures ok { OnOk result ((done : List ℕ)
        → AreNumbered done numbering.old.table.items numbering.old.order.items
        → AreNumbered (done ++ uses (named_tree member.now ∷ [])) numbering.new.table.items
        numbering.new.order.items) }
    ensures fault { IfErr result (λ fault. (fault ≡ Fault.Memory)
        ⊎ ((fault ≡ Fault.BoundaryIndex)
        × ¬ (IsBounded (length numbering.old.table.items) (named_tree member.now).1))) }
{
    number_object(value_of(member), numbering)
}

/// Numbers the vertices that the objects name.
fn number_chosen(chosen: &[&Member], numbering: &mut Numbering) -> Result<(), Fault>
    ensures long { length numbering.new.table.items ≡ length numbering.old.table.items }
    ensures bounded { OnOk result (AllByRecursion
        (λ named. IsBounded (length numbering.old.table.items) named.1) (chosen_objects chosen.now)) }
    ensures ok { OnOk result ((done : List ℕ)
        → AreNumbered done numbering.old.table.items numbering.old.order.items
        → AreNumbered (done ++ uses (chosen_objects chosen.now)) numbering.new.table.items
        numbering.new.order.items) }
    ensures fault { IfErr result (λ fault. (fault ≡ Fault.Memory)
        ⊎ ((fault ≡ Fault.BoundaryIndex) × ¬ AllByRecursion
        (λ named. IsBounded (length numbering.old.table.items) named.1) (chosen_objects chosen.now))) }
{
    for member in chosen {
        number_named(member, numbering)?;
    }
    Ok(())
}

fn relabelled_named(alloc: Global, member: &Member, table: &[usize]) -> Result<Member, Fault>
    ensures ok { IfOk result (λ new. named_tree new
        ≡ ((named_tree member.now).0, relabelled_object (own_text table.now) (named_tree member.now).1)) }
    ensures fault { IfErr result (λ fault. fault ≡ Fault.Memory) }
{
    let value = relabelled_object(alloc, value_of(member), table)?;
    new_member(alloc, name_of(member), value)
}

/// Copies of the objects with their boundaries relabelled.
fn relabelled_chosen(alloc: Global, chosen: &[&Member], table: &[usize]) -> Result<Members, Fault>
    ensures ok { IfOk result (λ new. map named_tree new.items
        ≡ relabelled_objects (own_text table.now) (chosen_objects chosen.now)) }
    ensures fault { IfErr result (λ fault. fault ≡ Fault.Memory) }
{
    let mut copies = Vec::with_capacity(alloc, chosen.len())?;
    for member in chosen {
        copies.push(relabelled_named(alloc, member, table)?)?;
    }
    Ok(copies)
}

/// The vertex at this place, in plain decimal integers.
fn own_vertex(alloc: Global, values: &[Json], at: usize) -> Result<Json, Fault>
    requires { at < length values.now }
    ensures ok { IfOk result (λ json. (points : List Triple) → AreVertices (items_tree values.now) points
        → tree json ≡ vertex_tree (point_at points at)) }
    ensures again { OnOk result ((points : List Triple) → AreVertices (items_tree values.now) points
        → IsVertex (vertex_tree (point_at points at)) (point_at points at) × IsInRange (point_at points at)) }
    ensures fault { IfErr result (λ fault. (points : List Triple)
        → AreVertices (items_tree values.now) points → fault ≡ Fault.Memory) }
{
    let vertex = vertex(&values[at])?;
    let mut json = Json::Null;
    write_vertex(alloc, &vertex, &mut json)?;
    Ok(json)
}

/// The vertices at these places.
fn own_vertices(alloc: Global, values: &[Json], order: &[usize]) -> Result<Items, Fault>
    requires { All (λ k. k < length values.now) order.now }
    ensures ok { IfOk result (λ items. (points : List Triple) → AreVertices (items_tree values.now) points
        → array (items_tree items.items) ≡ vertices_tree (map (point_at points) order.now)) }
    ensures again { OnOk result ((points : List Triple) → AreVertices (items_tree values.now) points
        → AreReadAgain (map (point_at points) order.now)) }
    ensures fault { IfErr result (λ fault. (points : List Triple)
        → AreVertices (items_tree values.now) points → fault ≡ Fault.Memory) }
{
    let mut own = Vec::with_capacity(alloc, order.len())?;
    for at in order {
        own.push(own_vertex(alloc, values, *at)?)?;
    }
    Ok(own)
}

/// What a feature is made of.
#[derive(Drop)]
pub(crate) struct Assembled {
    pub objects: Members,
    pub vertices: Items,
}

/// The chosen objects with vertices of their own.
///
/// # Errors
///
/// [`Fault::BoundaryIndex`] where a boundary of theirs is none, and [`Fault::Memory`].
pub(crate) fn assemble(
    alloc: Global,
    chosen: &[&Member],
    values: &[Json],
    numbering: &mut Numbering,
) -> Result<Assembled, Fault>
    requires long { length numbering.old.table.items ≡ length values.now }
    requires distinct { AllByRecursion (λ named. IsDistinct named.1) (chosen_objects chosen.now) }
    ensures long { length numbering.new.table.items ≡ length numbering.old.table.items }
    ensures bounded { OnOk result (AllByRecursion (λ named. IsBounded (length values.now) named.1)
        (chosen_objects chosen.now)) }
    ensures ok { IfOk result (λ assembled. (points : List Triple)
        → AreVertices (items_tree values.now) points
        → IsAssembled points (chosen_objects chosen.now) (map named_tree assembled.objects.items)
        (array (items_tree assembled.vertices.items))) }
    ensures fault { IfErr result (λ fault. (points : List Triple)
        → AreVertices (items_tree values.now) points → (fault ≡ Fault.Memory)
        ⊎ ((fault ≡ Fault.BoundaryIndex) × ¬ AllByRecursion
        (λ named. IsBounded (length values.now) named.1) (chosen_objects chosen.now))) }
{
    numbering.order.clear();
    number_chosen(chosen, numbering)?;
    let objects = relabelled_chosen(alloc, chosen, &numbering.table)?;
    let vertices = own_vertices(alloc, values, &numbering.order)?;
    Ok(Assembled { objects, vertices })
}
