//! The boundaries of a city object.
ghost use Rattle.std.specs.Prelude.{◌≡◌, ◌⊎◌, ◌↔◌, ◌++◌, ℕ, List, map, length, IsTrue, OnOk, IfErr};
ghost use Rattle.std.specs.List.{flat_map, AllByRecursion};
ghost use Rattle.city_json.specs.Members.{member_of};
ghost use Rattle.city_json.specs.Tree.{Tree, members_tree, named_tree, tree, items_tree};
ghost use Rattle.city_feature.specs.Shapes.{IsArray, IsObject, WhereThere};
ghost use Rattle.city_families.specs.Boundaries.{IsAddress, IsBounded, IsGeometry};
ghost use Rattle.city_families.specs.Boundaries.{address_boundary, boundaries, own_boundary};
ghost use Rattle.city_families.specs.Items.{values};
ghost use Rattle.city_families.specs.Leaves.{IsBoundary, leaves};
ghost use Rattle.city_families.specs.Numbered.{AreNumbered};

use crate::leaves::number_items;
use crate::values::{is_object, items_named, value_of};
use byte_streams::Fault;
use city_families::Numbering;
use city_json::{Json, Member};
use std::alloc::Global;

/// Numbers the vertices of the member `boundaries`, if there is one.
fn number_boundaries(value: &Json, numbering: &mut Numbering) -> Result<(), Fault>
    ensures long { length numbering.new.table.items ≡ length numbering.old.table.items }
    ensures bounded { OnOk result
        (AllByRecursion (IsBoundary (length numbering.old.table.items)) (own_boundary (tree value.now))) }
    ensures ok { OnOk result ((uses : List ℕ)
        → AreNumbered uses numbering.old.table.items numbering.old.order.items
        → AreNumbered (uses ++ flat_map leaves (own_boundary (tree value.now)))
        numbering.new.table.items numbering.new.order.items) }
    ensures fault { IfErr result (λ fault. (fault ≡ Fault.Memory)
        ⊎ ((fault ≡ Fault.BoundaryIndex)
        × ¬ (AllByRecursion (IsBoundary (length numbering.old.table.items)) (own_boundary (tree value.now))))) }
{
    let Some(boundary) = value.get("boundaries") else {
        return Ok(());
    };
    let Json::List(items) = boundary else {
        return Err(Fault::BoundaryIndex);
    };
    number_items(items, numbering)
}

/// Values in which boundaries may stand.
trait HoldsBoundaries {
    // The boundaries in one, and whether these are right, of so many vertices.
    ghost held: { Self → Tree → List Tree };

    ghost is_held: { Self → ℕ → Tree → Type 0 };

    /// Numbers the vertices that one names.
    fn number(&self, value: &Json, numbering: &mut Numbering) -> Result<(), Fault>
        ensures long { length numbering.new.table.items ≡ length numbering.old.table.items }
        ensures bounded { OnOk result
            (is_held self.now (length numbering.old.table.items) (tree value.now)) }
        ensures ok { OnOk result ((uses : List ℕ)
            → AreNumbered uses numbering.old.table.items numbering.old.order.items
            → AreNumbered (uses ++ flat_map leaves (held self.now (tree value.now)))
            numbering.new.table.items numbering.new.order.items) }
        ensures fault { IfErr result (λ fault. (fault ≡ Fault.Memory)
            ⊎ ((fault ≡ Fault.BoundaryIndex)
            × ¬ (is_held self.now (length numbering.old.table.items) (tree value.now)))) };
}

#[derive(Clone, Copy, Drop)]
struct Geometry;

impl HoldsBoundaries for Geometry {
    ghost held = { λ kind. own_boundary };

    ghost is_held = { λ kind. IsGeometry };

    fn number(&self, value: &Json, numbering: &mut Numbering) -> Result<(), Fault> {
        if !is_object(value) {
            return Err(Fault::BoundaryIndex);
        }
        number_boundaries(value, numbering)
    }
}

#[derive(Clone, Copy, Drop)]
struct Address;

impl HoldsBoundaries for Address {
    ghost held = { λ kind. address_boundary };

    ghost is_held = { λ kind. IsAddress };

    fn number(&self, value: &Json, numbering: &mut Numbering) -> Result<(), Fault> {
        let Some(location) = value.get("location") else {
            return Ok(());
        };
        number_boundaries(location, numbering)
    }
}

/// Numbers the vertices that the items name, each of this kind.
fn number_each<H: HoldsBoundaries>(
    kind: &H,
    items: &[Json],
    numbering: &mut Numbering,
) -> Result<(), Fault>
    ensures long { length numbering.new.table.items ≡ length numbering.old.table.items }
    ensures bounded { OnOk result (AllByRecursion
        (H.is_held kind.now (length numbering.old.table.items)) (map tree items.now)) }
    ensures ok { OnOk result ((uses : List ℕ)
        → AreNumbered uses numbering.old.table.items numbering.old.order.items
        → AreNumbered (uses ++ flat_map leaves (flat_map (H.held kind.now) (map tree items.now)))
        numbering.new.table.items numbering.new.order.items) }
    ensures fault { IfErr result (λ fault. (fault ≡ Fault.Memory)
        ⊎ ((fault ≡ Fault.BoundaryIndex) × ¬ (AllByRecursion
        (H.is_held kind.now (length numbering.old.table.items)) (map tree items.now)))) }
{
    for item in items {
        kind.number(item, numbering)?;
    }
    Ok(())
}

/// Whether the member of this name is an array, if it is there.
fn is_array_where_there(value: &Json, name: &str) -> bool
    ensures { IsTrue result ↔ WhereThere IsArray (member_of name.now (tree value.now)) }
{
    match value.get(name) {
        None | Some(Json::List(_)) => true,
        Some(_) => false,
    }
}

/// Numbers the vertices that a city object names: those of its geometries, then those of its addresses.
pub(crate) fn number_object(value: &Json, numbering: &mut Numbering) -> Result<(), Fault>
    ensures long { length numbering.new.table.items ≡ length numbering.old.table.items }
    ensures bounded { OnOk result (IsBounded (length numbering.old.table.items) (tree value.now)) }
    ensures ok { OnOk result ((uses : List ℕ)
        → AreNumbered uses numbering.old.table.items numbering.old.order.items
        → AreNumbered (uses ++ flat_map leaves (boundaries (tree value.now)))
        numbering.new.table.items numbering.new.order.items) }
    ensures fault { IfErr result (λ fault. (fault ≡ Fault.Memory)
        ⊎ ((fault ≡ Fault.BoundaryIndex)
        × ¬ (IsBounded (length numbering.old.table.items) (tree value.now)))) }
{
    if !is_array_where_there(value, "geometry") {
        return Err(Fault::BoundaryIndex);
    }
    number_each(&Geometry, items_named(value, "geometry"), numbering)?;
    number_each(&Address, items_named(value, "address"), numbering)
}

/// Refuses objects of which one has a boundary that is none of so many vertices, before anything is made of them.
///
/// # Errors
///
/// [`Fault::BoundaryIndex`] where a boundary index is invalid, and [`Fault::Memory`].
pub(crate) fn check_boundaries(
    alloc: Global,
    objects: &[Member],
    vertices: usize,
) -> Result<(), Fault>
    ensures fault { IfErr result (λ fault. (fault ≡ Fault.Memory)
        ⊎ ((fault ≡ Fault.BoundaryIndex)
        × ¬ AllByRecursion (IsBounded vertices) (values (members_tree objects.now)))) }
{
    let mut numbering = Numbering {
        table: vec![in alloc; 0usize; vertices]?,
        order: Vec::new(alloc),
    };
    for member in objects {
        number_object(value_of(member), &mut numbering)?;
    }
    Ok(())
}
