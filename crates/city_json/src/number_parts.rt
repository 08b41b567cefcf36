//! The parts of a number (RFC 8259, section 6).
ghost use Rattle.std.specs.Prelude.{◌≡◌, ◌==◌, [], ◌∷◌, drop, slice_index, if◌then◌else◌};
ghost use Rattle.std.specs.Str.Parse.{AllDigits, without_leading_sign};
ghost use Rattle.city_json.specs.Bytes.{minus, point};
ghost use Rattle.city_json.specs.Number.{IsNumber};
ghost use Rattle.city_json.specs.NumberAt.{past_digits, split_before};

use crate::reading::numbers::{past_digits, past_minus};

/// A number's text, taken apart.
#[derive(Clone, Copy, Debug)]
pub struct NumberParts<'a> {
    pub is_negative: bool,
    /// The digits before the point.
    pub whole: &'a [u8],
    /// The digits after the point; none where there is no fraction.
    pub fraction: &'a [u8],
    /// The exponent's sign and digits; nothing where there is no exponent.
    pub exponent: &'a [u8],
}

/// The parts of the bytes of a number.
pub(crate) fn number_parts(bytes: &[u8]) -> NumberParts<'_>
    requires { IsNumber bytes.now }
    ensures sign { (n : IsNumber bytes.now)
        → n.minus_sign ≡ (if result.is_negative then minus ∷ [] else []) }
    ensures whole { (n : IsNumber bytes.now) → result.whole.now ≡ n.whole }
    ensures fraction { (n : IsNumber bytes.now) → result.fraction.now ≡ drop 1 n.fraction }
    ensures exponent { (n : IsNumber bytes.now) → result.exponent.now ≡ drop 1 n.exponent }
    ensures digits { AllDigits 10 result.whole.now × AllDigits 10 result.fraction.now
        × AllDigits 10 (without_leading_sign result.exponent.now) }
{
    let unsigned = past_minus(bytes);
    let (whole, rest) = split_digits(unsigned);
    let (fraction, rest) = split_digits(past_point(rest));
    NumberParts {
        is_negative: unsigned.len() < bytes.len(),
        whole,
        fraction,
        exponent: past_mark(rest),
    }
}

/// The digits at the front of the bytes, and what follows them.
#[tactic(auto, using(crate::proofs::PartsOfNumbers::rest_of_digits_is_short))]
fn split_digits(bytes: &[u8]) -> (&[u8], &[u8])
    ensures { (result.0.now, result.1.now) ≡ split_before bytes.now (past_digits bytes.now) }
{
    let rest = past_digits(bytes);
    (&bytes[..bytes.len() - rest.len()], rest)
}

fn past_point(bytes: &[u8]) -> &[u8]
    ensures { result.now
        ≡ (if slice_index bytes.now 0 == point then drop 1 bytes.now else bytes.now) }
{
    match bytes {
        [b'.', rest @ ..] => rest,
        _ => bytes,
    }
}

fn past_mark(bytes: &[u8]) -> &[u8]
    ensures { result.now ≡ drop 1 bytes.now }
{
    match bytes {
        [_, rest @ ..] => rest,
        [] => bytes,
    }
}
