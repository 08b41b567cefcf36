//! A number read as a decimal.
ghost use Rattle.std.specs.Prelude.{◌≡◌, ℤ, IfOk, IfErr, IfSome, IfNone};
ghost use Rattle.city_grid.specs.Decimal.{IsUnits};

use crate::decimals::Decimal;
use crate::decimals::digits::{move_place, place_point};
use byte_streams::Fault;
use city_json::NumText;

/// The places of decimals that a unit has.
const UNIT_PLACES: u128 = 24;

/// Reads a number exactly; [`Fault::Decimal`] where it is no whole number of units or not below
/// 10^36 of them in size.
pub fn decimal(number: &NumText) -> Result<Decimal, Fault>
    ensures value { IfOk result (λ n. IsUnits number.now n) }
    ensures only { (n : ℤ) → IsUnits number.now n → result ≡ Ok n }
    ensures refusal { IfErr result (λ fault. fault ≡ Fault.Decimal) }
{
    decimal_of(number).ok_or(Fault::Decimal)
}

/// The decimal that a number stands for, where there is one.
pub(crate) fn decimal_of(number: &NumText) -> Option<Decimal>
    ensures some { IfSome result (λ n. IsUnits number.now n) }
    ensures none { IfNone result ((n : ℤ) → ¬ IsUnits number.now n) }
    ensures only { (n : ℤ) → IsUnits number.now n → result ≡ Some n }
{
    let parts = number.parts();
    let place = move_place(parts.whole.len() as u128 + UNIT_PLACES, parts.exponent);
    let size = place_point(parts.whole, parts.fraction, place)?;
    Some(Decimal::with_sign(parts.is_negative, size))
}
