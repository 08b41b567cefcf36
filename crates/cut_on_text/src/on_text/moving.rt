//! Vertices that are moved by a shift, as texts of their own.
ghost use Rattle.std.specs.Prelude.{◌≡◌, List, All, IfErr, IfOk, map};
ghost use Rattle.city_grid.specs.Axes.{IsInRange, Triple};
ghost use Rattle.cut_on_text.specs.Moved.{moved_or_same};
ghost use Rattle.cut_on_text.specs.VertexTexts.{HoldVertices, StandAt};

use super::points::GrownVertices;
use byte_streams::Fault;
use city_feature::vertex_of;
use city_grid::{Shift, Vertex, moved};
use std::alloc::Global;

/// The vertex moved by the shift; where it was, if it would leave the range.
fn move_vertex(vertex: Vertex, shift: Shift) -> Vertex
    ensures { result ≡ moved_or_same shift vertex }
{
    match moved(vertex, shift) {
        Ok(there) => there,
        Err(_) => vertex,
    }
}

/// The vertices, each moved by the shift; one that would leave the range stays where it was. The only fault is
/// [`Fault::Memory`].
pub(super) fn moved_vertices(
    alloc: Global,
    vertices: &GrownVertices,
    shift: Shift,
) -> Result<GrownVertices, Fault>
    requires { HoldVertices vertices.now.text vertices.now.starts.items }
    ensures ok { IfOk result (λ there. (points : List Triple)
        → StandAt vertices.now.text vertices.now.starts.items points → All IsInRange points
        → StandAt there.text there.starts.items (map (moved_or_same shift) points)) }
    ensures fault { IfErr result (λ fault. fault ≡ Fault.Memory) }
{
    let count = vertices.starts.len().saturating_sub(1);
    let mut there = GrownVertices::with_room(alloc, vertices.text.items().len(), count)?;
    for at in 0..count {
        let vertex = vertex_of(alloc, vertices.vertex(at))?;
        there.push(&move_vertex(vertex, shift))?;
    }
    Ok(there)
}
