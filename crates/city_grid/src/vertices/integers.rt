//! A number read as an integer, as long as it is not too large.
ghost use Rattle.std.specs.Prelude.{◌≡◌, ◌≤◌, ◌<◌, ◌+◌, ◌*◌, ℤ, IfSome, IfNone};
ghost use Rattle.std.specs.Str.Parse.{AllDigits, digits_value};
ghost use Rattle.byte_streams.specs.Limits.{max_steps};
ghost use Rattle.city_grid.specs.Vertex.{IsInteger, IsCapped, IsSameOrLarge};

use crate::decimals::digits::digit_of;
use byte_streams::limits::MAX_STEPS;
use city_json::NumText;

/// One digit more, after a number that is not above 2^53 - 1.
fn append_digit(size: u64, digit: u8) -> u64
    requires { (size ≤ 10 * max_steps + 9) × (digit < 10) }
    ensures more { size ≤ max_steps → result ≡ size * 10 + digit }
    ensures large { max_steps < size → result ≡ size }
    ensures small { result ≤ 10 * max_steps + 9 }
{
    if size <= MAX_STEPS {
        size * 10 + u64::from(digit)
    } else {
        size
    }
}

/// The number that the digits write, or one above 2^53 - 1 where it is above that.
fn capped_value(digits: &[u8]) -> u64
    requires { AllDigits 10 digits.now }
    ensures value { IsCapped (digits_value 10 digits.now) result }
    ensures small { result ≤ 10 * max_steps + 9 }
{
    let mut size = 0u64;
    for digit in digits {
        size = append_digit(size, digit_of(*digit));
    }
    size
}

/// The integer that a number writes, or one above 2^53 - 1 in size where it is above that; none
/// where it has a fraction or an exponent.
pub fn integer(number: &NumText) -> Option<i64>
    ensures some { IfSome result (λ read. (z : ℤ) × IsInteger number.now z × IsSameOrLarge z read) }
    ensures none { IfNone result ((z : ℤ) → ¬ IsInteger number.now z) }
{
    let parts = number.parts();
    if !parts.fraction.is_empty() {
        return None;
    }
    if !parts.exponent.is_empty() {
        return None;
    }
    let size = capped_value(parts.whole) as i64;
    Some(if parts.is_negative { -size } else { size })
}
