//! Reading of numbers (RFC 8259, section 6).
ghost use Rattle.std.specs.Prelude.{◌≡◌, ◌↔◌, IsTrue};
ghost use Rattle.std.specs.Option.{option_map};
ghost use Rattle.city_json.specs.Number.{IsNumber};
ghost use Rattle.city_json.specs.NumberAt.{number_at, past_number, past_minus, past_whole, past_fraction, past_exponent, past_sign, past_some_digits, past_digits};

use crate::reading::digits::digits_end;

/// The number at the front of the bytes, and what follows it.
#[tactic(auto, using(crate::proofs::NumberLaws::rest_is_short))]
#[inline]
pub(crate) fn number(bytes: &[u8]) -> Option<(&[u8], &[u8])>
    ensures { option_map (λ read. (read.0.now, read.1.now)) result ≡ number_at bytes.now }
{
    let rest = past_number(bytes)?;
    Some((&bytes[..bytes.len() - rest.len()], rest))
}

/// Whether the bytes are a number.
pub(crate) fn is_number(bytes: &[u8]) -> bool
    ensures { IsTrue result ↔ IsNumber bytes.now }
{
    match past_number(bytes) {
        Some(rest) => rest.is_empty(),
        None => false,
    }
}

/// What follows the number at the front of the bytes.
#[inline]
fn past_number(bytes: &[u8]) -> Option<&[u8]>
    ensures { option_map (λ rest. rest.now) result ≡ past_number bytes.now }
{
    past_exponent(past_fraction(past_whole(past_minus(bytes))?)?)
}

#[inline]
pub(crate) fn past_minus(bytes: &[u8]) -> &[u8]
    ensures { result.now ≡ past_minus bytes.now }
{
    match bytes {
        [b'-', rest @ ..] => rest,
        _ => bytes,
    }
}

#[inline]
fn past_whole(bytes: &[u8]) -> Option<&[u8]>
    ensures { option_map (λ rest. rest.now) result ≡ past_whole bytes.now }
{
    match bytes {
        [b'0', rest @ ..] => Some(rest),
        _ => past_some_digits(bytes),
    }
}

#[inline]
fn past_fraction(bytes: &[u8]) -> Option<&[u8]>
    ensures { option_map (λ rest. rest.now) result ≡ past_fraction bytes.now }
{
    match bytes {
        [b'.', rest @ ..] => past_some_digits(rest),
        _ => Some(bytes),
    }
}

#[inline]
fn past_exponent(bytes: &[u8]) -> Option<&[u8]>
    ensures { option_map (λ rest. rest.now) result ≡ past_exponent bytes.now }
{
    match bytes {
        [b'e' | b'E', rest @ ..] => past_some_digits(past_sign(rest)),
        _ => Some(bytes),
    }
}

#[inline]
fn past_sign(bytes: &[u8]) -> &[u8]
    ensures { result.now ≡ past_sign bytes.now }
{
    match bytes {
        [b'+' | b'-', rest @ ..] => rest,
        _ => bytes,
    }
}

#[inline]
fn past_some_digits(bytes: &[u8]) -> Option<&[u8]>
    ensures { option_map (λ rest. rest.now) result ≡ past_some_digits bytes.now }
{
    match bytes {
        [b'0'..=b'9', rest @ ..] => Some(past_digits(rest)),
        _ => None,
    }
}

#[inline]
pub(crate) fn past_digits(bytes: &[u8]) -> &[u8]
    ensures { result.now ≡ past_digits bytes.now }
{
    &bytes[digits_end(bytes, 0)..]
}
