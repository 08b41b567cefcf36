//! Why the vertices of a feature are refused, found in their compact text.
ghost use Rattle.std.specs.Prelude.{◌≡◌, ◌↔◌, ◌⊎◌, ◌++◌, ◌∷◌, [], ℕ, List, false, All, IfOk, IfErr, IsTrue, OnOk};
ghost use Rattle.city_json.specs.Tree.{ItemTrees, Tree, array, item, number};
ghost use Rattle.city_grid.specs.Axes.{IsInRange, Triple};
ghost use Rattle.city_grid.specs.Vertex.{IsVertex, RefusesVertex};
ghost use Rattle.city_feature.specs.Faults.{AreThreeNumbers, BeginsWithNumber, IsArrayText, IsNumberTree, RefusesVertices};
ghost use Rattle.city_feature.specs.Feature.{AreVertices, RefusesFirst};
ghost use Rattle.city_feature.specs.LineTexts.{SpellsVertices};
ghost use Rattle.city_json.specs.CompactTexts.{IsCompactOf};

use byte_streams::Fault;
use city_grid::{Vertex, spelled_vertex_at, vertex};
use city_json::{ItemTexts, read};
use std::alloc::{AllocError, Global};

/// Whether the value whose compact text this is is a number.
fn is_number(text: &[u8]) -> bool
    ensures { (value : Tree) → IsCompactOf text.now value → (IsTrue result ↔ IsNumberTree value) }
{
    if text.is_empty() {
        return false;
    }
    // only numbers begin with one of these bytes
    text[0] >= b'-' && text[0] <= b'9'
}

/// Passes the next item: whether it is a number.
fn passes_number(items: &mut ItemTexts<'_>) -> bool
    ensures yes { IsTrue result → BeginsWithNumber items.old items.new }
    ensures no { result ≡ false → (n : List ℕ) (others : ItemTrees)
        → ¬ IsCompactOf items.old (array (item (number n) others)) }
{
    let Some(one) = items.next() else {
        return false;
    };
    is_number(one)
}

/// Whether the value whose compact text this is is an array of three numbers.
fn is_three_numbers(text: &[u8]) -> bool
    ensures yes { IsTrue result → (value : Tree) → IsCompactOf text.now value → AreThreeNumbers value }
    ensures no { (value : Tree) → IsCompactOf text.now value → AreThreeNumbers value → IsTrue result }
{
    let Some(mut items) = ItemTexts::new(text) else {
        return false;
    };
    if !passes_number(&mut items) {
        return false;
    }
    if !passes_number(&mut items) {
        return false;
    }
    if !passes_number(&mut items) {
        return false;
    }
    items.is_over()
}

/// The vertex whose compact text this is.
///
/// # Errors
///
/// [`Fault::VertexShape`], [`Fault::VertexNotInteger`] or [`Fault::VertexRange`], as it is none, or [`Fault::Memory`].
pub fn vertex_of(alloc: Global, text: &[u8]) -> Result<Vertex, Fault>
    ensures vertex { IfOk result (λ vertex. (value : Tree) → IsCompactOf text.now value → IsVertex value vertex) }
    ensures range { IfOk result IsInRange }
    ensures refusal { IfErr result (λ fault. (value : Tree) → IsCompactOf text.now value
        → (fault ≡ Fault.Memory) ⊎ RefusesVertex fault value) }
{
    if let Some(found) = spelled_vertex_at(text, 0) {
        if found.end == text.len() {
            return Ok(found.vertex);
        }
    }
    if !is_three_numbers(text) {
        return Err(Fault::VertexShape);
    }
    let json = read(alloc, text)?;
    vertex(&json)
}

/// What is done with the vertices of an array, one after another.
pub trait TakeVertex {
    // These were taken.
    ghost has: { Self → List Triple → Type 0 };

    /// Takes the next one.
    fn take(&mut self, vertex: Vertex) -> Result<(), AllocError>
        ensures { OnOk result ((taken : List Triple) → has self.old taken → has self.new (taken ++ vertex ∷ [])) };
}

/// They are listed.
impl TakeVertex for Vec<Vertex> {
    ghost has = { λ vertices taken. vertices.items ≡ taken };

    fn take(&mut self, vertex: Vertex) -> Result<(), AllocError> {
        self.push(vertex)?;
        Ok(())
    }
}

/// Takes the vertices of the array whose compact text this is, up to the first that is at fault.
///
/// # Errors
///
/// Its fault, [`Fault::VertexShape`], [`Fault::VertexNotInteger`] or [`Fault::VertexRange`], or [`Fault::Memory`].
pub fn take_vertices<T: TakeVertex>(alloc: Global, text: &[u8], to: &mut T) -> Result<(), Fault>
    requires { T.has to.old [] }
    ensures taken { OnOk result ((items : ItemTrees) → IsCompactOf text.now (array items)
        → (taken : List Triple) × T.has to.new taken × AreVertices items taken) }
    ensures refused { IfErr result (λ fault. (items : ItemTrees) → IsCompactOf text.now (array items)
        → (fault ≡ Fault.Memory) ⊎ RefusesFirst fault items) }
{
    let Some(mut items) = ItemTexts::new(text) else {
        return Ok(());
    };
    'vertices: loop {
        let Some(one) = items.next() else {
            return Ok(());
        };
        to.take(vertex_of(alloc, one)?)?;
    }
}

/// The vertices of the array whose compact text this is, however their integers are written.
///
/// # Errors
///
/// Those of [`take_vertices`].
#[inline(never)]
pub(super) fn told_vertices(alloc: Global, text: &[u8]) -> Result<Vec<Vertex>, Fault>
    requires { IsArrayText text.now }
    ensures spelled { IfOk result (λ vertices. SpellsVertices text.now vertices.items) }
    ensures range { IfOk result (λ vertices. All IsInRange vertices.items) }
    ensures refused { IfErr result (λ fault. RefusesVertices fault text.now) }
{
    let mut vertices = Vec::new(alloc);
    take_vertices(alloc, text, &mut vertices)?;
    Ok(vertices)
}
