//! The vertices of a feature in their compact text.
ghost use Rattle.std.specs.Prelude.{◌≡◌, ◌++◌, ◌∷◌, [], slice_range, All, IfSome, IsTrue, OnSome, OnOk};
ghost use Rattle.city_json.specs.Compact.{compact};
ghost use Rattle.city_json.specs.Triples.{IsTriplesText};
ghost use Rattle.city_grid.specs.Axes.{IsInRange};
ghost use Rattle.city_feature.specs.Feature.{vertices_tree};
ghost use Rattle.city_feature.specs.LineTexts.{IsVerticesText, SpellsVertices};

use byte_streams::{Line, push};
use city_grid::{Vertex, append_vertex, byte_is, spelled_vertex_at, triple_vertex_at, vertex_end};
use std::alloc::{AllocError, Global};

/// How many bytes the text of a vertex and a comma have mostly at least.
const COMMON_LEN: usize = 20;

/// The text of an array of one vertex or more has at least so many bytes.
pub(super) const MIN_LEN: usize = 4;

/// The vertices that a text spells, and whether it is the text that would be written for them.
#[derive(Drop)]
pub(super) struct SpelledVertices {
    pub(super) vertices: Vec<Vertex>,
    pub(super) as_written: bool,
}

#[inline(always)]
fn both(one: bool, other: bool) -> bool
    ensures { IsTrue result → (IsTrue one × IsTrue other) }
{
    one && other
}

/// The vertices that the text spells. `None`: it spells none, or an integer has more than sixteen digits, or out of memory.
#[inline(never)]
pub(super) fn vertices_of(alloc: Global, text: &[u8]) -> Option<SpelledVertices>
    ensures spelled { IfSome result (λ found. SpellsVertices text.now found.vertices.items) }
    ensures written { IfSome result (λ found. IsTrue found.as_written
        → text.now ≡ compact (vertices_tree found.vertices.items)) }
    ensures range { IfSome result (λ found. All IsInRange found.vertices.items) }
{
    let mut vertices = Vec::with_capacity(alloc, text.len() / COMMON_LEN).ok()?;
    let mut as_written = true;
    if text == b"[]".as_slice() {
        return Some(SpelledVertices {
            vertices,
            as_written,
        });
    }
    if !byte_is(text, 0, b'[') {
        return None;
    }
    let mut at = 1usize;
    'vertices: loop {
        let found = spelled_vertex_at(text, at)?;
        push(found.vertex, &mut vertices)?;
        as_written = both(as_written, found.as_written);
        if byte_is(text, found.end, b']') {
            if found.end + 1 < text.len() {
                return None;
            }
            return Some(SpelledVertices {
                vertices,
                as_written,
            });
        }
        if !byte_is(text, found.end, b',') {
            return None;
        }
        at = found.end + 1;
    }
}

/// The vertices that stand between two places of a text as triples of short whole numbers, so that they need no check;
/// `None`: there are none, or out of memory.
#[inline(never)]
pub(super) fn vertices_of_triples(
    alloc: Global,
    text: &[u8],
    from: usize,
    end: usize,
) -> Option<Vec<Vertex>>
    requires { IsTriplesText text.now from end }
    ensures written { IfSome result (λ vertices.
        slice_range text.now from end ≡ compact (vertices_tree vertices.items)) }
    ensures range { IfSome result (λ vertices. All IsInRange vertices.items) }
{
    if end > text.len() || from >= end || end - from < MIN_LEN {
        return None;
    }
    let mut vertices = Vec::with_capacity(alloc, (end - from) / COMMON_LEN).ok()?;
    let mut at = from + 1;
    'vertices: loop {
        let found = triple_vertex_at(text, at)?;
        push(found.vertex, &mut vertices)?;
        if found.end + 1 >= end {
            return Some(vertices);
        }
        at = found.end + 1;
    }
}

/// That the text is what would be written for its vertices. `None`: it is not.
#[inline(never)]
pub(super) fn stands_as_written(text: &[u8]) -> Option<()>
    ensures { OnSome result (IsVerticesText text.now) }
{
    if text == b"[]".as_slice() {
        return Some(());
    }
    if !byte_is(text, 0, b'[') {
        return None;
    }
    let mut at = 1usize;
    'vertices: loop {
        let end = vertex_end(text, at)?;
        if byte_is(text, end, b']') {
            if end + 1 < text.len() {
                return None;
            }
            return Some(());
        }
        if !byte_is(text, end, b',') {
            return None;
        }
        at = end + 1;
    }
}

/// Appends the compact text of an array of the vertices.
#[inline(never)]
pub(super) fn append_vertices(vertices: &[Vertex], to: &mut Line) -> Result<(), AllocError>
    ensures { OnOk result (to.new ≡ to.old ++ compact (vertices_tree vertices.now)) }
{
    let [first, others @ ..] = vertices else {
        return to.append(b"[]");
    };
    append_vertex(b'[', first, to)?;
    for vertex in others {
        append_vertex(b',', vertex, to)?;
    }
    to.append(b"]")
}
