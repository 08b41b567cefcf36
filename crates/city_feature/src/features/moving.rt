//! Vertices that are moved by a shift.
ghost use Rattle.std.specs.Prelude.{◌≡◌, All, IfOk, IfErr};
ghost use Rattle.city_grid.specs.Axes.{IsInRange};
ghost use Rattle.city_feature.specs.Feature.{moved_vertices};

use byte_streams::Fault;
use city_grid::{Shift, Vertex, moved};

/// The vertices, each moved by the shift.
pub(super) fn moved_all(mut vertices: Vec<Vertex>, shift: Shift) -> Result<Vec<Vertex>, Fault>
    ensures ok { IfOk result (λ moved. (moved.items ≡ moved_vertices vertices.items shift)
        × All IsInRange moved.items) }
    ensures refusal { IfErr result (λ fault. (fault ≡ Fault.VertexRange)
        × ¬ All IsInRange (moved_vertices vertices.items shift)) }
{
    for vertex in vertices.iter_mut() {
        *vertex = moved(*vertex, shift)?;
    }
    Ok(vertices)
}
