//! Features whose vertices are moved by a shift, in their values.
ghost use Rattle.std.specs.Prelude.{◌≡◌, ◌↔◌, IfOk, IfErr, IsTrue};
ghost use Rattle.std.specs.Prelude.{OnOk, codes, length};
ghost use Rattle.city_json.specs.Members.{first_named, member_of};
ghost use Rattle.city_json.specs.Tree.{array, items_tree, members_tree, named_tree, tree};
ghost use Rattle.city_feature.specs.Changes.{with_member, with_named};
ghost use Rattle.city_feature.specs.Feature.{AreReadAgain, HasItems, IsMovable, RefusesMove};
ghost use Rattle.city_feature.specs.Feature.{moved, vertices_tree};
ghost use Rattle.city_feature.specs.Shapes.{IsThere};
ghost use Rattle.city_feature.specs.Values.{feature_value};

use crate::features::moving::moved_all;
use crate::features::values::Feature;
use byte_streams::Fault;
use city_grid::{Shift, Vertex, write_vertex};
use city_json::{Items, Json, Member, Members};
use std::alloc::Global;

/// Writes the vertices over as many items.
fn write_items(alloc: Global, vertices: &[Vertex], items: &mut Items) -> Result<(), Fault>
    requires { length items.old.items ≡ length vertices.now }
    ensures ok { OnOk result (array (items_tree items.new.items) ≡ vertices_tree vertices.now) }
    ensures again { OnOk result (AreReadAgain vertices.now) }
    ensures fault { IfErr result (λ fault. fault ≡ Fault.Memory) }
{
    for (at, vertex) in vertices.iter().enumerate() {
        write_vertex(alloc, vertex, &mut items[at])?;
    }
    Ok(())
}

/// Writes the vertices over an array of as many items.
fn write_array(alloc: Global, vertices: &[Vertex], value: &mut Json) -> Result<(), Fault>
    requires { HasItems (length vertices.now) (tree value.old) }
    ensures ok { OnOk result (tree value.new ≡ vertices_tree vertices.now) }
    ensures again { OnOk result (AreReadAgain vertices.now) }
    ensures fault { IfErr result (λ fault. fault ≡ Fault.Memory) }
{
    let Json::List(items) = value else {
        return Ok(());
    };
    write_items(alloc, vertices, items)
}

fn write_member(alloc: Global, vertices: &[Vertex], member: &mut Member) -> Result<(), Fault>
    requires { HasItems (length vertices.now) (named_tree member.old).1 }
    ensures ok { OnOk result (named_tree member.new
        ≡ ((named_tree member.old).0, vertices_tree vertices.now)) }
    ensures again { OnOk result (AreReadAgain vertices.now) }
    ensures fault { IfErr result (λ fault. fault ≡ Fault.Memory) }
{
    write_array(alloc, vertices, &mut member.value)
}

fn is_named(member: &Member, name: &str) -> bool
    ensures { IsTrue result ↔ ((named_tree member.now).0 ≡ name.now) }
{
    member.name.as_str() == name
}

/// Writes the vertices over those of the member `vertices`.
fn write_members(alloc: Global, vertices: &[Vertex], members: &mut Members) -> Result<(), Fault>
    requires { IsThere (HasItems (length vertices.now))
        (first_named (codes "vertices") (members_tree members.old.items)) }
    ensures ok { OnOk result (members_tree members.new.items ≡ with_named (codes "vertices")
        (vertices_tree vertices.now) (members_tree members.old.items)) }
    ensures again { OnOk result (AreReadAgain vertices.now) }
    ensures fault { IfErr result (λ fault. fault ≡ Fault.Memory) }
{
    for member in members.iter_mut() {
        if is_named(member, "vertices") {
            return write_member(alloc, vertices, member);
        }
    }
    Ok(())
}

/// Writes the vertices over those of a feature's value.
fn write_vertices(alloc: Global, vertices: &[Vertex], json: &mut Json) -> Result<(), Fault>
    requires { IsThere (HasItems (length vertices.now))
        (member_of (codes "vertices") (tree json.old)) }
    ensures ok { OnOk result (tree json.new
        ≡ with_member (codes "vertices") (vertices_tree vertices.now) (tree json.old)) }
    ensures again { OnOk result (AreReadAgain vertices.now) }
    ensures fault { IfErr result (λ fault. fault ≡ Fault.Memory) }
{
    let Json::Map(members) = json else {
        return Ok(());
    };
    write_members(alloc, vertices, members)
}

/// The feature with each vertex moved by the shift, and written as three integers in decimal; every
/// other member stays as it was, at its place (CityJSON 2.0, Transform Object).
///
/// # Errors
///
/// [`Fault::VertexRange`] where a component of a moved vertex is above 2^53 - 1 in size, and
/// [`Fault::Memory`] where there is not enough memory.
pub fn shifted(alloc: Global, feature: Feature, shift: Shift) -> Result<Feature, Fault>
    ensures ok { IfOk result (λ shifted.
        (feature_value shifted ≡ moved (feature_value feature) shift)
        × IsMovable (feature_value feature) shift) }
    ensures refusal { IfErr result (λ fault. RefusesMove fault (feature_value feature) shift) }
{
    let Feature { mut json, vertices } = feature;
    let vertices = moved_all(vertices, shift)?;
    write_vertices(alloc, &vertices, &mut json)?;
    Ok(Feature { json, vertices })
}
