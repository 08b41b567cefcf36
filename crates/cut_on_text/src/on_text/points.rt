//! The vertices of a document, by where they stand in its compact text.
ghost use Rattle.std.specs.Prelude.{◌≡◌, ◌++◌, ◌∷◌, [], ◌<◌, ◌+◌, ◌^◌, List, length, map, IfErr, IfOk, OnOk, OnSome};
ghost use Rattle.city_json.specs.Compact.{compact, compact_more_items};
ghost use Rattle.city_json.specs.CompactTexts.{IsCompactOf};
ghost use Rattle.city_json.specs.Tree.{ItemTrees, array, item_trees};
ghost use Rattle.city_grid.specs.Axes.{Triple};
ghost use Rattle.city_grid.specs.Vertex.{vertex_tree};
ghost use Rattle.city_feature.specs.Faults.{RefusesVertices};
ghost use Rattle.city_feature.specs.Feature.{AreVertices, vertices_tree};
ghost use Rattle.city_families.specs.Chosen.{point_at};
ghost use Rattle.cut_on_text.specs.Made.{vertex_in};
ghost use Rattle.cut_on_text.specs.VertexTexts.{IsGrown, StandAt};

use super::numbers::append_between;
use super::ranges::between;
use super::texts::append_text;
use byte_streams::{Fault, Line};
use city_families::push_place;
use city_feature::{TakeVertex, take_vertices};
use city_grid::{Vertex, append_vertex};
use std::alloc::{AllocError, Global};

/// How many bytes the text of a vertex and a comma have mostly at least.
pub(super) const COMMON_LEN: usize = 20;

/// The compact text of an array of vertices. The one of number `k` stands from `starts[k]` on, up to the byte before
/// `starts[k + 1]`.
#[derive(Drop)]
pub(super) struct VertexTexts<'a> {
    pub text: &'a [u8],
    pub starts: Vec<u32>,
}

/// The texts of vertices, each with a comma before it, and where each begins, as [`VertexTexts`] has it.
#[derive(Debug, Drop)]
pub(super) struct GrownVertices {
    pub text: Line,
    pub starts: Vec<u32>,
}

impl GrownVertices {
    /// None, with room for so many and for texts of this length in all.
    pub(super) fn with_room(
        alloc: Global,
        len: usize,
        count: usize,
    ) -> Result<GrownVertices, AllocError>
        ensures { IfOk result (λ vertices. IsGrown vertices.text vertices.starts.items []) }
    {
        let text = Line::from_vec(Vec::with_capacity(alloc, len)?);
        let mut starts = Vec::with_capacity(alloc, count)?;
        push_place(1, &mut starts)?;
        Ok(GrownVertices { text, starts })
    }

    /// One more.
    pub(super) fn push(&mut self, vertex: &Vertex) -> Result<(), AllocError>
        ensures { OnOk result ((points : List Triple) → IsGrown self.old.text self.old.starts.items points
            → IsGrown self.new.text self.new.starts.items (points ++ vertex.now ∷ [])) }
    {
        append_vertex(b',', vertex, &mut self.text)?;
        push_place(self.text.items().len() + 1, &mut self.starts)?;
        Ok(())
    }

    /// The text of a vertex.
    pub(super) fn vertex(&self, at: usize) -> &[u8]
        requires { at + 1 < length self.now.starts.items }
        ensures { result.now ≡ vertex_in self.now.text self.now.starts.items at }
    {
        let from = self.starts[at] as usize;
        let next = self.starts[at + 1] as usize;
        between(self.text.items(), from, next.saturating_sub(1))
    }
}

impl TakeVertex for GrownVertices {
    ghost has = { λ vertices taken. IsGrown vertices.text vertices.starts.items taken };

    fn take(&mut self, vertex: Vertex) -> Result<(), AllocError> {
        self.push(&vertex)
    }
}

/// The vertices of the array whose compact text this is, written anew.
///
/// # Errors
///
/// Those of [`take_vertices`].
pub(super) fn written_vertices(alloc: Global, text: &[u8]) -> Result<GrownVertices, Fault>
    ensures { IfOk result (λ vertices. (items : ItemTrees) → IsCompactOf text.now (array items)
        → (points : List Triple) × AreVertices items points × StandAt vertices.text vertices.starts.items points) }
{
    let mut vertices = GrownVertices::with_room(alloc, text.len(), text.len() / COMMON_LEN)?;
    take_vertices(alloc, text, &mut vertices)?;
    Ok(vertices)
}

/// How many vertices were taken.
#[derive(Drop)]
struct Counted {
    count: usize,
}

impl TakeVertex for Counted {
    ghost has = { λ counted taken. length taken < 2 ^ 64 → counted.count ≡ length taken };

    fn take(&mut self, _vertex: Vertex) -> Result<(), AllocError> {
        self.count = self.count.wrapping_add(1);
        Ok(())
    }
}

/// How many vertices the array has whose compact text this is.
///
/// # Errors
///
/// Those of [`take_vertices`].
pub(super) fn count_vertices(alloc: Global, text: &[u8]) -> Result<usize, Fault>
    ensures ok { IfOk result (λ count. (items : ItemTrees) → IsCompactOf text.now (array items)
        → (points : List Triple) × AreVertices items points × (length points ≡ count)) }
    ensures refused { IfErr result (λ fault. RefusesVertices fault text.now) }
{
    let mut counted = Counted { count: 0 };
    take_vertices(alloc, text, &mut counted)?;
    Ok(counted.count)
}

/// Appends the text of the vertex of a number.
fn append_point(vertices: &VertexTexts<'_>, number: usize, line: &mut Line) -> Option<()>
    ensures { OnSome result ((points : List Triple) → StandAt vertices.now.text.now vertices.now.starts.items points
        → line.new ≡ line.old ++ compact (vertex_tree (point_at points number))) }
{
    if number >= vertices.starts.len() {
        return None;
    }
    if number + 1 >= vertices.starts.len() {
        return None;
    }
    let next = vertices.starts[number + 1] as usize;
    if next == 0 {
        return None;
    }
    let start = vertices.starts[number] as usize;
    if start > next - 1 || next - 1 > vertices.text.len() {
        return None;
    }
    append_between(vertices.text, start, next - 1, line)
}

/// Appends the texts of the vertices of these numbers, with a comma before each.
fn append_more_points(vertices: &VertexTexts<'_>, numbers: &[usize], line: &mut Line) -> Option<()>
    ensures { OnSome result ((points : List Triple) → StandAt vertices.now.text.now vertices.now.starts.items points
        → line.new ≡ line.old ++ compact_more_items (item_trees (map vertex_tree (map (point_at points) numbers.now)))) }
{
    for number in numbers {
        append_text(b",", line)?;
        append_point(vertices, *number, line)?;
    }
    Some(())
}

/// Appends the compact text of an array of the vertices of these numbers.
pub(super) fn append_points(
    vertices: &VertexTexts<'_>,
    numbers: &[usize],
    line: &mut Line,
) -> Option<()>
    ensures { OnSome result ((points : List Triple) → StandAt vertices.now.text.now vertices.now.starts.items points
        → line.new ≡ line.old ++ compact (vertices_tree (map (point_at points) numbers.now))) }
{
    let [first, others @ ..] = numbers else {
        return append_text(b"[]", line);
    };
    append_text(b"[", line)?;
    append_point(vertices, *first, line)?;
    append_more_points(vertices, others, line)?;
    append_text(b"]", line)
}
