//! Shifts between grids, in whole steps.
ghost use Rattle.std.specs.Prelude.{◌≡◌, ◌≢◌, ℤ, pos, ◌<ℤ◌, ◌-ℤ◌, ◌*ℤ◌};
ghost use Rattle.std.specs.Prelude.{IfOk, IfErr, IfSome, IfNone};
ghost use Rattle.std.specs.Option.{SomeIff};
ghost use Rattle.city_grid.specs.Axes.{IsInRange, Triple, triple};
ghost use Rattle.city_grid.specs.Shift.{IsShift, RefusesShift};

use crate::axes::Axes;
use crate::decimals::Decimal;
use crate::steps::Steps;
use crate::transforms::Transform;
use byte_streams::Fault;
use std::marker::Model;

/// A shift in whole steps of the grid, each component at most 2^53 - 1 in size.
#[derive(Clone, Copy, Debug, PartialEq, Eq)]
pub struct Shift {
    steps: Steps,
}

impl Model for Shift {
    ghost use Rattle.city_grid.specs.Axes.{Triple};

    ghost Value = { Triple };

    ghost view = { λ shift. shift.steps };

    ghost inverse = { λ steps. record { steps = steps } };
}

impl Shift {
    /// The shift of no steps.
    pub fn zero() -> Shift
        ensures { result ≡ triple (pos 0) (pos 0) (pos 0) }
    {
        Shift {
            steps: Steps::zero(),
        }
    }

    /// The shift of three components, where none is above 2^53 - 1 in size.
    pub fn new(x: i64, y: i64, z: i64) -> Option<Shift>
        ensures { SomeIff result (IsInRange (triple x y z)) (triple x y z) }
    {
        Shift::of_steps(Axes {
            x: i128::from(x),
            y: i128::from(y),
            z: i128::from(z),
        })
    }

    /// The shift of three components of any size, where none is above 2^53 - 1.
    fn of_steps(steps: Axes<i128>) -> Option<Shift>
        ensures { SomeIff result (IsInRange steps) steps }
    {
        let Some(steps) = Steps::new(steps) else {
            return None;
        };
        Some(Shift { steps })
    }

    /// By how much it moves, in grid units on each axis.
    pub fn steps(&self) -> Axes<i64>
        ensures value { result ≡ self.now }
        ensures range { IsInRange result }
    {
        self.steps.axes()
    }
}

/// The whole number of steps that a difference is, where it is one.
fn quotient(difference: i128, step: i128) -> Option<i128>
    requires { pos 0 <ℤ step }
    ensures some { IfSome result (λ k. k *ℤ step ≡ difference) }
    ensures none { IfNone result ((k : ℤ) → k *ℤ step ≢ difference) }
{
    if difference % step != 0 {
        return None;
    }
    Some(difference / step)
}

/// How many steps of this length lead from one place to the other, where that is a whole number.
fn whole_steps(to: Decimal, from: Decimal, step: Decimal) -> Option<i128>
    requires { pos 0 <ℤ step }
    ensures some { IfSome result (λ k. k *ℤ step ≡ to -ℤ from) }
    ensures none { IfNone result ((k : ℤ) → k *ℤ step ≢ to -ℤ from) }
{
    quotient(to.units() - from.units(), step.units())
}

/// The steps from the base's origin to the tile's, where they are whole.
fn steps_between(tile: &Transform, base: &Transform) -> Option<Axes<i128>>
    ensures some { IfSome result (λ k.
        (k.x *ℤ base.now.scale.x ≡ tile.now.translate.x -ℤ base.now.translate.x)
        × (k.y *ℤ base.now.scale.y ≡ tile.now.translate.y -ℤ base.now.translate.y)
        × (k.z *ℤ base.now.scale.z ≡ tile.now.translate.z -ℤ base.now.translate.z)) }
    ensures none { IfNone result ((k : Triple) → ¬ IsShift tile.now base.now k) }
{
    let (scale, to, from) = (base.scale(), tile.translate(), base.translate());
    Some(Axes {
        x: whole_steps(to.x, from.x, scale.x)?,
        y: whole_steps(to.y, from.y, scale.y)?,
        z: whole_steps(to.z, from.z, scale.z)?,
    })
}

/// The shift of a tile's transform against a base, in whole steps: in each component the steps
/// times the scale are the tile's translation less the base's, exactly.
///
/// # Errors
///
/// [`Fault::ScaleDiffers`] where a scale differs in value, else [`Fault::OffGrid`] where a
/// difference is no whole multiple of its scale, else [`Fault::ShiftRange`] where a multiple is
/// above 2^53 - 1 in size.
pub fn shift_of(tile: &Transform, base: &Transform) -> Result<Shift, Fault>
    ensures ok { IfOk result (λ k. IsShift tile.now base.now k) }
    ensures range { IfOk result IsInRange }
    ensures only { (k : Triple) → IsShift tile.now base.now k → IsInRange k → result ≡ Ok k }
    ensures refusal { IfErr result (λ fault. RefusesShift fault tile.now base.now) }
{
    if tile.scale() != base.scale() {
        return Err(Fault::ScaleDiffers);
    }
    let Some(steps) = steps_between(tile, base) else {
        return Err(Fault::OffGrid);
    };
    Shift::of_steps(steps).ok_or(Fault::ShiftRange)
}
