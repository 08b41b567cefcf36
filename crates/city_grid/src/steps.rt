//! Whole steps along each axis, as vertices and shifts have them.
ghost use Rattle.std.specs.Prelude.{◌≡◌, ◌≤◌, ◌↔◌, IsTrue, pos, unsigned_abs};
ghost use Rattle.std.specs.Option.{SomeIff};
ghost use Rattle.city_grid.specs.Axes.{IsInRange, triple};
ghost use Rattle.byte_streams.specs.Limits.{max_steps};

use crate::axes::Axes;
use byte_streams::limits::MAX_STEPS;
use std::marker::Model;

/// Whole steps of the grid along each axis, none above 2^53 - 1 in size.
#[derive(Clone, Copy, Debug, PartialEq, Eq)]
pub struct Steps {
    axes: Axes<i64>,
}

impl Model for Steps {
    ghost use Rattle.city_grid.specs.Axes.{Triple, IsInRange};

    ghost Value = { Triple };

    ghost view = { λ steps. steps.axes };

    ghost invariant = { λ steps. IsInRange steps.axes };

    ghost inverse = { λ axes. record { axes = axes } };
}

impl Steps {
    /// None on each axis.
    pub fn zero() -> Steps
        ensures { result ≡ triple (pos 0) (pos 0) (pos 0) }
    {
        Steps {
            axes: Axes { x: 0, y: 0, z: 0 },
        }
    }

    /// The steps of three components, where none is above 2^53 - 1 in size.
    pub fn new(axes: Axes<i128>) -> Option<Steps>
        ensures { SomeIff result (IsInRange axes) axes }
    {
        if is_few(axes.x) && is_few(axes.y) && is_few(axes.z) {
            let axes = Axes {
                x: axes.x as i64,
                y: axes.y as i64,
                z: axes.z as i64,
            };
            Some(Steps { axes })
        } else {
            None
        }
    }

    /// In grid units on each axis.
    pub fn axes(&self) -> Axes<i64>
        ensures value { result ≡ self.now }
        ensures range { IsInRange result }
    {
        self.axes
    }
}

/// Whether a component is at most 2^53 - 1 in size.
fn is_few(steps: i128) -> bool
    ensures { IsTrue result ↔ (unsigned_abs steps ≤ max_steps) }
{
    steps.unsigned_abs() <= u128::from(MAX_STEPS)
}
