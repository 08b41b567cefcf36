//! Scalars that stand in their compact spelling: words, numbers, and strings without escapes.
ghost use Rattle.std.specs.Prelude.{◌≡◌, ◌<◌, ◌≤◌, ◌-◌, length, drop, slice_range, slice_index, IfSome, IsUtf8};
ghost use Rattle.city_json.specs.Bytes.{minus, quotation_mark};
ghost use Rattle.city_json.specs.Compacting.{IsScalarText, IsPlainString};
ghost use Rattle.city_json.specs.Number.{IsFraction, IsWhole};
ghost use Rattle.city_json.specs.Reading.{after_white};

use crate::reading::digits::digits_end;
use crate::reading::numbers::number;
use crate::reading::plain::plain_len;

/// The closing mark of the string whose opening mark stands before `at`, where it has no escapes.
#[inline(always)]
pub(super) fn plain_string(text: &[u8], at: usize) -> Option<usize>
    requires utf8 { IsUtf8 text.now }
    requires some { 0 < at }
    requires within { at ≤ length text.now }
    requires opened { slice_index text.now (at - 1) ≡ quotation_mark }
    ensures onward { IfSome result (λ close. at ≤ close) }
    ensures within { IfSome result (λ close. close < length text.now) }
    ensures plain { IfSome result (λ close. IsPlainString text.now at close) }
{
    let close = at + plain_len(&text[at..]);
    if close < text.len() && text[close] == b'"' {
        Some(close)
    } else {
        None
    }
}

/// The end of a word that begins at `at`.
fn word_end(text: &[u8], at: usize, word: &[u8]) -> Option<usize>
    requires some { 0 < length word.now }
    requires within { at ≤ length text.now }
    ensures onward { IfSome result (λ end. at < end) }
    ensures within { IfSome result (λ end. end ≤ length text.now) }
    ensures is { IfSome result (λ end. slice_range text.now at end ≡ word.now) }
{
    if text[at..].starts_with(word) {
        Some(at + word.len())
    } else {
        None
    }
}

/// The end of a number that begins at `at`.
fn number_end(text: &[u8], at: usize) -> Option<usize>
    requires within { at ≤ length text.now }
    ensures onward { IfSome result (λ end. at < end) }
    ensures within { IfSome result (λ end. end ≤ length text.now) }
    ensures is { IfSome result (λ end. IsScalarText text.now at end) }
{
    let (found, _) = number(&text[at..])?;
    Some(at + found.len())
}

/// The end of a word or a number that begins at `at`.
pub(super) fn scalar_end(text: &[u8], at: usize) -> Option<usize>
    requires within { at < length text.now }
    ensures onward { IfSome result (λ end. at < end) }
    ensures within { IfSome result (λ end. end ≤ length text.now) }
    ensures is { IfSome result (λ end. IsScalarText text.now at end) }
{
    match text[at] {
        b'n' => word_end(text, at, b"null"),
        b't' => word_end(text, at, b"true"),
        b'f' => word_end(text, at, b"false"),
        _ => number_end(text, at),
    }
}

/// The end of a whole number without a sign that begins at `at`, or `at` where there is none.
#[inline(always)]
pub(super) fn integer_end(text: &[u8], at: usize) -> usize
    requires { at ≤ length text.now }
    ensures onward { at ≤ result }
    ensures within { result ≤ length text.now }
    ensures is { at < result → IsScalarText text.now at result }
    ensures whole { at < result → IsWhole (slice_range text.now at result) }
    ensures clear { at < result → after_white (drop at text.now) ≡ drop at text.now }
{
    if at == text.len() {
        return at;
    }
    if text[at] == b'0' {
        return at + 1;
    }
    digits_end(text, at)
}

/// The end of the fraction that stands at `at`, a point and digits, which may be of no bytes.
#[inline(never)]
fn fraction_end(text: &[u8], at: usize) -> usize
    requires { at ≤ length text.now }
    ensures onward { at ≤ result }
    ensures within { result ≤ length text.now }
    ensures is { IsFraction (slice_range text.now at result) }
{
    if at == text.len() {
        return at;
    }
    if text[at] != b'.' {
        return at;
    }
    let end = digits_end(text, at + 1);
    if end == at + 1 {
        return at;
    }
    end
}

/// The end of a number without an exponent whose minus sign stands at `at`, or `at` where there is none.
#[inline(never)]
fn negative_end(text: &[u8], at: usize) -> usize
    requires within { at < length text.now }
    requires signed { slice_index text.now at ≡ minus }
    ensures onward { at ≤ result }
    ensures within { result ≤ length text.now }
    ensures is { at < result → IsScalarText text.now at result }
{
    let whole = integer_end(text, at + 1);
    if whole == at + 1 {
        return at;
    }
    fraction_end(text, whole)
}

/// Whether an item or a member may end at `at`.
#[inline(always)]
pub(super) fn may_end(text: &[u8], at: usize) -> bool {
    at < text.len() && matches!(text[at], b',' | b']' | b'}')
}

/// The end of a number without an exponent that begins at `at`, or `at` where there is none. Most have neither a sign nor
/// a fraction.
#[inline(always)]
pub(super) fn decimal_end(text: &[u8], at: usize) -> usize
    requires { at ≤ length text.now }
    ensures onward { at ≤ result }
    ensures within { result ≤ length text.now }
    ensures is { at < result → IsScalarText text.now at result }
{
    let whole = integer_end(text, at);
    if at < whole {
        if may_end(text, whole) {
            return whole;
        }
        return fraction_end(text, whole);
    }
    if at == text.len() {
        return at;
    }
    if text[at] == b'-' {
        return negative_end(text, at);
    }
    at
}
