//! What digits, a point and an exponent write, as long as it is small.
ghost use Rattle.std.specs.Prelude.{◌≡◌, ℕ, ◌+◌, ◌-◌, ◌*◌, ◌^◌, ◌<◌, min, true, false};
ghost use Rattle.std.specs.Prelude.{◌↔◌, ◌++◌, All, IsTrue, IfSome, IfNone};
ghost use Rattle.std.specs.Option.{SomeIff};
ghost use Rattle.std.specs.Char.{digit_value};
ghost use Rattle.std.specs.Str.Parse.{AllDigits, digits_value, digits_value_after};
ghost use Rattle.std.specs.Str.Parse.{starts_with_minus, without_leading_sign};
ghost use Rattle.city_json.specs.Bytes.{digit_zero};
ghost use Rattle.city_grid.specs.Decimal.{decimal_bound, IsPlaced};

/// Sizes stay below this many units.
const BOUND: u128 = 1_000_000_000_000_000_000_000_000_000_000_000_000;

/// The value of a decimal digit's byte.
pub fn digit_of(byte: u8) -> u8
    requires { digit_value byte < 10 }
    ensures { result ≡ digit_value byte }
{
    byte - b'0'
}

/// The number that the digits write, or the greatest that there is where it is greater.
fn saturated_value(digits: &[u8]) -> u128
    requires { AllDigits 10 digits.now }
    ensures { result ≡ min (digits_value 10 digits.now) (2 ^ 128 - 1) }
{
    let mut value = 0u128;
    for digit in digits {
        value = value
            .saturating_mul(10)
            .saturating_add(u128::from(digit_of(*digit)));
    }
    value
}

/// The place of the point after an exponent, its sign and digits, has moved it from `place`.
pub fn move_place(place: u128, exponent: &[u8]) -> u128
    requires { AllDigits 10 (without_leading_sign exponent.now) }
    ensures right { starts_with_minus exponent.now ≡ false
        → result ≡ min (place + digits_value 10 (without_leading_sign exponent.now)) (2 ^ 128 - 1) }
    ensures left { starts_with_minus exponent.now ≡ true
        → result ≡ place - digits_value 10 (without_leading_sign exponent.now) }
{
    match exponent {
        [b'-', digits @ ..] => place.saturating_sub(saturated_value(digits)),
        [b'+', digits @ ..] => place.saturating_add(saturated_value(digits)),
        digits => place.saturating_add(saturated_value(digits)),
    }
}

/// The number that the digits write after those of `value`, where it stays small.
fn append_digits(mut value: u128, digits: &[u8]) -> Option<u128>
    requires small { value < decimal_bound }
    requires digits { AllDigits 10 digits.now }
    ensures { let extended = digits_value_after 10 value digits.now
        in SomeIff result (extended < decimal_bound) extended }
{
    for digit in digits {
        value = value * 10 + u128::from(digit_of(*digit));
        if value >= BOUND {
            return None;
        }
    }
    Some(value)
}

fn are_zeros(digits: &[u8]) -> bool
    ensures { IsTrue result ↔ All (λ digit. digit ≡ digit_zero) digits.now }
{
    digits.iter().all(|digit| *digit == b'0')
}

/// `value` times ten to the power `by`, where it stays small.
fn append_zeros(mut value: u128, by: u128) -> Option<u128>
    requires { value < decimal_bound }
    ensures { SomeIff result (value * 10 ^ by < decimal_bound) (value * 10 ^ by) }
{
    if value == 0 {
        return Some(0);
    }
    for _ in 0..by {
        value *= 10;
        if value >= BOUND {
            return None;
        }
    }
    Some(value)
}

/// The number that digits and further digits and then zeros write, where it stays small.
fn join_digits(front: &[u8], more: &[u8], zeros: u128) -> Option<u128>
    requires front { AllDigits 10 front.now }
    requires more { AllDigits 10 more.now }
    ensures { SomeIff result
        (digits_value 10 (front.now ++ more.now) * 10 ^ zeros < decimal_bound)
        (digits_value 10 (front.now ++ more.now) * 10 ^ zeros) }
{
    append_zeros(append_digits(append_digits(0, front)?, more)?, zeros)
}

/// The number below 10^36 that digits write with the point after the first `place` of them; none
/// where it is not whole or not so small.
pub fn place_point(whole: &[u8], places: &[u8], place: u128) -> Option<u128>
    requires whole { AllDigits 10 whole.now }
    requires places { AllDigits 10 places.now }
    ensures some { IfSome result (λ n.
        (n < decimal_bound) × IsPlaced (whole.now ++ places.now) place n) }
    ensures none { IfNone result ((n : ℕ)
        → n < decimal_bound → ¬ IsPlaced (whole.now ++ places.now) place n) }
{
    let kept = place.min(whole.len() as u128) as usize;
    let left = place - kept as u128;
    let more = left.min(places.len() as u128) as usize;
    if !are_zeros(&whole[kept..]) {
        return None;
    }
    if !are_zeros(&places[more..]) {
        return None;
    }
    join_digits(&whole[..kept], &places[..more], left - more as u128)
}
