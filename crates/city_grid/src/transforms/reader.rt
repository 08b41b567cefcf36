//! A value read as a transform, or why it is none.
ghost use Rattle.std.specs.Prelude.{◌≡◌, ◌≢◌, Some, IfOk, IfErr, IfSome, IfNone};
ghost use Rattle.city_json.specs.Members.{member_of};
ghost use Rattle.city_json.specs.Tree.{tree};
ghost use Rattle.city_grid.specs.Axes.{Each, Texts, Triple, number_texts, three};
ghost use Rattle.city_grid.specs.Decimal.{IsUnits};
ghost use Rattle.city_grid.specs.Transform.{Grid, IsAboveZero, IsTransform, RefusesTransform};

use crate::axes::{Axes, three_numbers};
use crate::decimals::Decimal;
use crate::decimals::reader::decimal_of;
use crate::transforms::Transform;
use byte_streams::Fault;
use city_json::{Json, NumText};

/// The three numbers of a member.
fn numbers_named<'a>(value: &'a Json, name: &str) -> Option<Axes<&'a NumText>>
    ensures some { IfSome result (λ numbers. member_of name.now (tree value.now)
        ≡ Some (three (number_texts numbers))) }
    ensures none { IfNone result ((texts : Texts)
        → member_of name.now (tree value.now) ≢ Some (three texts)) }
{
    let Some(member) = value.get(name) else {
        return None;
    };
    three_numbers(member)
}

/// Three numbers as decimals; none where one is no decimal.
fn decimals(numbers: &Axes<&NumText>) -> Option<Axes<Decimal>>
    ensures some { IfSome result (λ read.
        Each IsUnits (number_texts numbers.now) read) }
    ensures none { IfNone result ((units : Triple)
        → ¬ Each IsUnits (number_texts numbers.now) units) }
    ensures only { IfSome result (λ read. (units : Triple)
        → Each IsUnits (number_texts numbers.now) units → units ≡ read) }
{
    Some(Axes {
        x: decimal_of(numbers.x)?,
        y: decimal_of(numbers.y)?,
        z: decimal_of(numbers.z)?,
    })
}

/// Reads a transform, the value of the member `transform` (CityJSON 2.0, Transform Object). Of
/// members with one name the first counts.
///
/// # Errors
///
/// [`Fault::NoTransform`] where the value is no object whose `scale` and `translate` are arrays of
/// exactly three numbers, else [`Fault::Decimal`] where one of the six is no decimal, else
/// [`Fault::ScaleNotPositive`] where a scale is not above 0.
pub fn transform(value: &Json) -> Result<Transform, Fault>
    ensures ok { IfOk result (λ transform. IsTransform (tree value.now) transform) }
    ensures above_zero { IfOk result (λ transform. IsAboveZero transform.scale) }
    ensures only { (grid : Grid)
        → IsTransform (tree value.now) grid → IsAboveZero grid.scale → result ≡ Ok grid }
    ensures refusal { IfErr result (λ fault. RefusesTransform fault (tree value.now)) }
{
    let Some(scale) = numbers_named(value, "scale") else {
        return Err(Fault::NoTransform);
    };
    let Some(translate) = numbers_named(value, "translate") else {
        return Err(Fault::NoTransform);
    };
    let Some(scale) = decimals(&scale) else {
        return Err(Fault::Decimal);
    };
    let Some(translate) = decimals(&translate) else {
        return Err(Fault::Decimal);
    };
    Transform::new(scale, translate).ok_or(Fault::ScaleNotPositive)
}
