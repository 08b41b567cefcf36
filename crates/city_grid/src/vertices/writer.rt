//! A vertex written as a value.
ghost use Rattle.std.specs.Prelude.{◌≡◌, ◌++◌, ◌∷◌, [], IfOk, IfErr, OnOk, map};
ghost use Rattle.std.specs.Fmt.{signed_decimal};
ghost use Rattle.city_json.specs.Tree.{array, items_tree, number, tree};
ghost use Rattle.city_grid.specs.Axes.{IsInRange};
ghost use Rattle.city_grid.specs.Vertex.{IsVertex, vertex_tree};

use crate::vertices::Vertex;
use byte_streams::Fault;
use city_json::{Items, Json, NumText};
use itoa::Buffer;
use std::alloc::Global;

/// Adds a component as an integer in decimal.
fn push_integer(alloc: Global, numbers: &mut Items, component: i64) -> Result<(), Fault>
    ensures ok { OnOk result (map tree numbers.new.items
        ≡ map tree numbers.old.items ++ number (signed_decimal component) ∷ []) }
    ensures fault { IfErr result (λ fault. fault ≡ Fault.Memory) }
{
    let mut digits = Buffer::new();
    let number = NumText::read(alloc, digits.format(component).as_bytes())?;
    numbers.push(Json::Num(number))?;
    Ok(())
}

/// Puts the vertex in place of the numbers.
fn write_numbers(alloc: Global, numbers: &mut Items, vertex: &Vertex) -> Result<(), Fault>
    ensures ok { OnOk result (array (items_tree numbers.new.items) ≡ vertex_tree vertex.now) }
    ensures fault { IfErr result (λ fault. fault ≡ Fault.Memory) }
{
    let steps = vertex.steps();
    numbers.clear();
    push_integer(alloc, numbers, steps.x)?;
    push_integer(alloc, numbers, steps.y)?;
    push_integer(alloc, numbers, steps.z)
}

/// The vertex as an array of three integers in decimal. The only fault is [`Fault::Memory`].
pub fn vertex_json(alloc: Global, vertex: &Vertex) -> Result<Json, Fault>
    ensures ok { IfOk result (λ json. tree json ≡ vertex_tree vertex.now) }
    ensures fault { IfErr result (λ fault. fault ≡ Fault.Memory) }
{
    let mut numbers = Vec::with_capacity(alloc, 3)?;
    write_numbers(alloc, &mut numbers, vertex)?;
    Ok(Json::List(numbers))
}

/// Makes the value the array of the vertex's three integers in decimal. An array keeps its memory,
/// so that one of three numbers takes no more. The only fault is [`Fault::Memory`].
pub fn write_vertex(alloc: Global, vertex: &Vertex, value: &mut Json) -> Result<(), Fault>
    ensures ok { OnOk result (tree value.new ≡ vertex_tree vertex.now) }
    ensures vertex { IsVertex (vertex_tree vertex.now) vertex.now × IsInRange vertex.now }
    ensures fault { IfErr result (λ fault. fault ≡ Fault.Memory) }
{
    let _ = vertex.steps();
    let Json::List(numbers) = value else {
        *value = vertex_json(alloc, vertex)?;
        return Ok(());
    };
    write_numbers(alloc, numbers, vertex)
}
