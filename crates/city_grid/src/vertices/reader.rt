//! A value read as a vertex, or why it is none.
ghost use Rattle.std.specs.Prelude.{◌≡◌, IfOk, IfErr, IfSome, IfNone};
ghost use Rattle.city_json.specs.Tree.{tree};
ghost use Rattle.city_grid.specs.Axes.{Each, IsInRange, Triple, number_texts};
ghost use Rattle.city_grid.specs.Vertex.{IsInteger, IsSameOrLarge, IsVertex, RefusesVertex};

use crate::axes::{Axes, three_numbers};
use crate::vertices::Vertex;
use crate::vertices::integers::integer;
use byte_streams::Fault;
use city_json::{Json, NumText};

/// The integers that the numbers write, as far as they are not too large; none where one has a
/// fraction or an exponent.
fn all_integers(numbers: &Axes<&NumText>) -> Option<Axes<i64>>
    ensures some { IfSome result (λ read. (p : Triple)
        × Each IsInteger (number_texts numbers.now) p
        × IsSameOrLarge p.x read.x × IsSameOrLarge p.y read.y × IsSameOrLarge p.z read.z) }
    ensures none { IfNone result ((p : Triple)
        → ¬ Each IsInteger (number_texts numbers.now) p) }
{
    Some(Axes {
        x: integer(numbers.x)?,
        y: integer(numbers.y)?,
        z: integer(numbers.z)?,
    })
}

/// Reads a vertex: an array of exactly three integers (CityJSON 2.0, Transform Object).
///
/// # Errors
///
/// [`Fault::VertexShape`] where the value is no array of exactly three numbers, else
/// [`Fault::VertexNotInteger`] where a number is written with a fraction or an exponent, else
/// [`Fault::VertexRange`] where one is above 2^53 - 1 in size.
pub fn vertex(value: &Json) -> Result<Vertex, Fault>
    ensures ok { IfOk result (λ vertex. IsVertex (tree value.now) vertex) }
    ensures range { IfOk result IsInRange }
    ensures only { (p : Triple)
        → IsVertex (tree value.now) p → IsInRange p → result ≡ Ok p }
    ensures refusal { IfErr result (λ fault. RefusesVertex fault (tree value.now)) }
{
    let Some(numbers) = three_numbers(value) else {
        return Err(Fault::VertexShape);
    };
    let Some(read) = all_integers(&numbers) else {
        return Err(Fault::VertexNotInteger);
    };
    Vertex::new(read.x, read.y, read.z).ok_or(Fault::VertexRange)
}
