//! Vertices, in steps of the grid, and how they are moved.
ghost use Rattle.std.specs.Prelude.{◌≡◌, IfOk, IfErr};
ghost use Rattle.std.specs.Option.{SomeIff};
ghost use Rattle.city_grid.specs.Axes.{IsInRange, sum, triple};

mod digits;
mod integers;
pub(crate) mod reader;
pub(crate) mod spelled;
pub(crate) mod texts;
pub(crate) mod triples;
pub(crate) mod writer;

use crate::axes::Axes;
use crate::shifts::Shift;
use crate::steps::Steps;
use byte_streams::Fault;
use std::marker::Model;

/// A vertex in steps of the grid, each component at most 2^53 - 1 in size (CityJSON 2.0,
/// Transform Object).
#[derive(Clone, Copy, Debug, PartialEq, Eq)]
pub struct Vertex {
    steps: Steps,
}

impl Model for Vertex {
    ghost use Rattle.city_grid.specs.Axes.{Triple};

    ghost Value = { Triple };

    ghost view = { λ vertex. vertex.steps };

    ghost inverse = { λ steps. record { steps = steps } };
}

impl Vertex {
    /// The vertex of three components, where none is above 2^53 - 1 in size.
    pub fn new(x: i64, y: i64, z: i64) -> Option<Vertex>
        ensures { SomeIff result (IsInRange (triple x y z)) (triple x y z) }
    {
        let Some(steps) = Steps::new(Axes {
            x: i128::from(x),
            y: i128::from(y),
            z: i128::from(z),
        }) else {
            return None;
        };
        Some(Vertex { steps })
    }

    /// Where it lies, in grid units on each axis.
    pub fn steps(&self) -> Axes<i64>
        ensures value { result ≡ self.now }
        ensures range { IsInRange result }
    {
        self.steps.axes()
    }
}

/// The vertex after the shift: the sum in each component; [`Fault::VertexRange`] where one is above
/// 2^53 - 1 in size.
pub fn moved(vertex: Vertex, shift: Shift) -> Result<Vertex, Fault>
    ensures ok { IfOk result (λ moved. moved ≡ sum vertex shift) }
    ensures range { IfOk result IsInRange }
    ensures refusal { IfErr result (λ fault.
        (fault ≡ Fault.VertexRange) × ¬ IsInRange (sum vertex shift)) }
{
    let (from, by) = (vertex.steps(), shift.steps());
    Vertex::new(from.x + by.x, from.y + by.y, from.z + by.z).ok_or(Fault::VertexRange)
}
