//! Decimals, transforms, exact shifts and vertices: the arithmetic of CityJSON's grid (CityJSON
//! 2.0, Transform Object), in whole numbers alone. A shift `k` has `k * scale` equal to the
//! difference of the translations exactly ([`shift_of`]).
#![tactic(auto)]

mod axes;
mod decimals;
mod shifts;
mod steps;
mod transforms;
mod vertices;

pub use axes::{Axes, three_numbers};
pub use decimals::Decimal;
pub use decimals::reader::decimal;
pub use shifts::{Shift, shift_of};
pub use transforms::reader::transform;
pub use transforms::{Transform, least_of};
pub use vertices::reader::vertex;
pub use vertices::spelled::{PlacedVertex, SpelledVertex, spelled_vertex_at};
pub use vertices::texts::{Digits, append_vertex, byte_is, number_at, put_byte, vertex_end};
pub use vertices::triples::{PlacedPlan, triple_plan_at, triple_vertex_at};
pub use vertices::writer::{vertex_json, write_vertex};
pub use vertices::{Vertex, moved};
