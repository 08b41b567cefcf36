//! Transforms: how long a step of a grid is, and where the grid begins.
ghost use Rattle.std.specs.Prelude.{◌≡◌, ◌↔◌, IsTrue, pos, ◌<ℤ◌};
ghost use Rattle.std.specs.Int.{int_min};
ghost use Rattle.std.specs.Option.{SomeIff};
ghost use Rattle.city_grid.specs.Axes.{least};
ghost use Rattle.city_grid.specs.Transform.{IsAboveZero};

pub(crate) mod reader;

use crate::axes::Axes;
use crate::decimals::Decimal;
use std::marker::Model;

/// A transform (CityJSON 2.0, Transform Object): how long a step of the grid is, above 0 in each
/// component, and where the grid begins.
#[derive(Clone, Copy, Debug, PartialEq, Eq)]
pub struct Transform {
    scale: Axes<Decimal>,
    translate: Axes<Decimal>,
}

impl Model for Transform {
    ghost use Rattle.city_grid.specs.Transform.{Grid, IsAboveZero};

    ghost Value = { Grid };

    ghost view = { λ t. record { scale = t.scale; translate = t.translate } };

    ghost invariant = { λ transform. IsAboveZero transform.scale };

    ghost inverse = { λ grid. record { scale = grid.scale; translate = grid.translate } };
}

fn is_above_zero(decimal: Decimal) -> bool
    ensures { IsTrue result ↔ (pos 0 <ℤ decimal) }
{
    decimal.units() > 0
}

impl Transform {
    /// The transform of a scale and a translation, where each scale is above 0.
    pub fn new(scale: Axes<Decimal>, translate: Axes<Decimal>) -> Option<Transform>
        ensures { SomeIff result (IsAboveZero scale)
            (record { scale = scale; translate = translate }) }
    {
        if is_above_zero(scale.x) && is_above_zero(scale.y) && is_above_zero(scale.z) {
            Some(Transform { scale, translate })
        } else {
            None
        }
    }

    /// The length of a grid unit on each axis, in 10^-24.
    pub fn scale(&self) -> Axes<Decimal>
        ensures value { result ≡ self.now.scale }
        ensures above_zero { IsAboveZero result }
    {
        self.scale
    }

    /// The origin of the grid on each axis, in 10^-24.
    pub fn translate(&self) -> Axes<Decimal>
        ensures { result ≡ self.now.translate }
    {
        self.translate
    }
}

/// The lesser of two decimals.
fn lesser(a: Decimal, b: Decimal) -> Decimal
    ensures { result ≡ int_min a b }
{
    if b.units() < a.units() { b } else { a }
}

/// The scale of `a`, and in each component the lesser translation of the two.
pub fn least_of(a: &Transform, b: &Transform) -> Transform
    ensures scale { result.scale ≡ a.now.scale }
    ensures translate { result.translate ≡ least a.now.translate b.now.translate }
{
    let (of_a, of_b) = (a.translate(), b.translate());
    Transform {
        scale: a.scale(),
        translate: Axes {
            x: lesser(of_a.x, of_b.x),
            y: lesser(of_a.y, of_b.y),
            z: lesser(of_a.z, of_b.z),
        },
    }
}
