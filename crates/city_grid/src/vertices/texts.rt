//! Vertices in a compact text: read and written with no tree between them.
ghost use Rattle.std.specs.Prelude.{◌≡◌, ◌++◌, ◌∷◌, [], ◌^◌, ◌<◌, ◌≤◌, ◌+◌, ◌↔◌, length, drop, map, not, slice_range, slice_index, IfSome, OnOk, IsTrue, unsigned_abs};
ghost use Rattle.std.specs.Char.{is_ascii_digit};
ghost use Rattle.std.specs.Fmt.{decimal, signed_decimal};
ghost use Rattle.std.specs.Simd.Lanes.{mask_l};
ghost use Rattle.std.specs.Str.Parse.{AllDigits, digits_value};
ghost use Rattle.city_json.specs.Compact.{compact};
ghost use Rattle.city_grid.specs.Axes.{IsInRange};
ghost use Rattle.byte_streams.specs.Limits.{max_steps};
ghost use Rattle.city_grid.specs.Vertex.{vertex_tree, IsShortNumber, IsShortInteger, IsVertexText};

use crate::vertices::Vertex;
use crate::vertices::digits::digits_value_between;
use byte_streams::Line;
use byte_streams::limits::MAX_STEPS;
use city_json::not_digits;
use core::dec2flt::read_digits;
use itoa::write_digits;
use std::alloc::AllocError;
use std::simd::prelude::*;

/// How many digits a number has at most that is read here: as many as the largest component.
const MAX_DIGITS: usize = 16;

/// How long the text of a vertex and a byte before it is at most, and some bytes more.
const MAX_LEN: usize = 64;

/// The number that digits write, and where they end.
#[derive(Clone, Copy, Drop)]
pub struct Digits {
    pub size: u64,
    pub end: usize,
}

/// Whether this byte stands at that place.
#[inline(always)]
pub fn byte_is(text: &[u8], at: usize, byte: u8) -> bool
    ensures { IsTrue result ↔ ((at < length text.now) × (slice_index text.now at ≡ byte)) }
{
    at < text.len() && text[at] == byte
}

/// The digits from `at` on, where there are at most sixteen; else none of them.
#[inline(always)]
fn digits_at(text: &[u8], at: usize) -> Digits
    requires { at ≤ length text.now }
    ensures onward { at ≤ result.end }
    ensures within { result.end ≤ length text.now }
    ensures few { result.end ≤ at + 16 }
    ensures digits { AllDigits 10 (slice_range text.now at result.end) }
    ensures value { result.size ≡ digits_value 10 (slice_range text.now at result.end) }
{
    if text.len() - at >= 16 {
        let end = few_digits_end(text, at);
        if at < end {
            return Digits {
                size: digits_value_between(text, at, end),
                end,
            };
        }
    }
    digits_at_slowly(text, at)
}

/// The same digit by digit, wherever the text ends.
#[inline(never)]
fn digits_at_slowly(text: &[u8], at: usize) -> Digits
    requires { at ≤ length text.now }
    ensures onward { at ≤ result.end }
    ensures within { result.end ≤ length text.now }
    ensures few { result.end ≤ at + 16 }
    ensures digits { AllDigits 10 (slice_range text.now at result.end) }
    ensures value { result.size ≡ digits_value 10 (slice_range text.now at result.end) }
{
    let (end, size) = read_digits(text, at, 0);
    if end - at > MAX_DIGITS {
        return Digits { size: 0, end: at };
    }
    Digits { size, end }
}

/// The number at `at`. `None`: none stands there, it has more than sixteen digits, or a zero stands before others.
#[inline(always)]
pub fn number_at(text: &[u8], at: usize) -> Option<Digits>
    requires { at ≤ length text.now }
    ensures onward { IfSome result (λ found. at < found.end) }
    ensures within { IfSome result (λ found. found.end ≤ length text.now) }
    ensures written { IfSome result (λ found. slice_range text.now at found.end ≡ decimal found.size) }
    ensures small { IfSome result (λ found. found.size < 10 ^ 16) }
{
    let digits = digits_at(text, at);
    if digits.end == at {
        return None;
    }
    if text[at] == b'0' {
        if digits.end - at > 1 {
            return None;
        }
        return Some(digits);
    }
    Some(digits)
}

/// The end of the digits from `at` on, which are fewer than sixteen, or `at`.
#[inline(always)]
fn few_digits_end(text: &[u8], at: usize) -> usize
    requires { at + 16 ≤ length text.now }
    ensures onward { at ≤ result }
    ensures few { result ≤ at + 15 }
    ensures digits { AllDigits 10 (slice_range text.now at result) }
{
    let stops = not_digits(u8x16::from_slice(&text[at..]));
    if stops == 0 {
        return at;
    }
    let count = stops.trailing_zeros() as usize;
    if count > 15 {
        return at;
    }
    at + count
}

/// Where the number at `at` ends. `None`: none stands there, it is out of range, or a zero stands before other digits.
#[inline(always)]
fn number_end(text: &[u8], at: usize) -> Option<usize>
    requires { at ≤ length text.now }
    ensures onward { IfSome result (λ end. at < end) }
    ensures within { IfSome result (λ end. end ≤ length text.now) }
    ensures is { IfSome result (λ end. IsShortNumber text.now at end) }
{
    if text.len() - at < 16 {
        return long_number_end(text, at);
    }
    let end = few_digits_end(text, at);
    if end == at {
        return long_number_end(text, at);
    }
    if text[at] == b'0' {
        if end > at + 1 {
            return None;
        }
        return Some(end);
    }
    Some(end)
}

/// The same of a number of more digits, or one near the end of the text.
#[inline(never)]
fn long_number_end(text: &[u8], at: usize) -> Option<usize>
    requires { at ≤ length text.now }
    ensures onward { IfSome result (λ end. at < end) }
    ensures within { IfSome result (λ end. end ≤ length text.now) }
    ensures is { IfSome result (λ end. IsShortNumber text.now at end) }
{
    let found = number_at(text, at)?;
    if found.size > MAX_STEPS {
        return None;
    }
    Some(found.end)
}

/// Where the integer at `at` ends. `None`: none stands there as it would be printed, or it is out of range.
#[inline(always)]
fn integer_end(text: &[u8], at: usize) -> Option<usize>
    requires { at ≤ length text.now }
    ensures onward { IfSome result (λ end. at < end) }
    ensures within { IfSome result (λ end. end ≤ length text.now) }
    ensures is { IfSome result (λ end. IsShortInteger text.now at end) }
{
    if byte_is(text, at, b'-') {
        let end = number_end(text, at + 1)?;
        if text[at + 1] == b'0' {
            return None;
        }
        return Some(end);
    }
    number_end(text, at)
}

/// Where the vertex at `at` ends. `None`: none stands there in the text that would be written for it, or a component is out
/// of range.
#[inline(always)]
pub fn vertex_end(text: &[u8], at: usize) -> Option<usize>
    requires { at ≤ length text.now }
    ensures onward { IfSome result (λ end. at < end) }
    ensures within { IfSome result (λ end. end ≤ length text.now) }
    ensures is { IfSome result (λ end. IsVertexText text.now at end) }
{
    if !byte_is(text, at, b'[') {
        return None;
    }
    let x = integer_end(text, at + 1)?;
    if !byte_is(text, x, b',') {
        return None;
    }
    let y = integer_end(text, x + 1)?;
    if !byte_is(text, y, b',') {
        return None;
    }
    let z = integer_end(text, y + 1)?;
    if !byte_is(text, z, b']') {
        return None;
    }
    Some(z + 1)
}

/// Puts a byte before `end`: where it stands.
#[inline(always)]
pub fn put_byte(byte: u8, to: &mut [u8], end: usize) -> usize
    requires some { 0 < end }
    requires within { end ≤ length to.old }
    ensures place { result + 1 ≡ end }
    ensures put { drop result to.new ≡ byte ∷ drop end to.old }
{
    let at = end - 1;
    to[at] = byte;
    at
}

/// Puts an integer in decimal before `end`: where it begins.
#[inline(always)]
fn put_integer(value: i64, to: &mut [u8], end: usize) -> usize
    requires small { unsigned_abs value ≤ max_steps }
    requires room { 17 ≤ end }
    requires within { end ≤ length to.old }
    ensures short { end ≤ result + 17 }
    ensures onward { result ≤ end }
    ensures put { drop result to.new ≡ signed_decimal value ++ drop end to.old }
{
    let start = write_digits(value.unsigned_abs(), to, end);
    if value < 0 {
        put_byte(b'-', to, start)
    } else {
        start
    }
}

/// Appends a byte and the compact text of a vertex.
#[inline(always)]
pub fn append_vertex(before: u8, vertex: &Vertex, to: &mut Line) -> Result<(), AllocError>
    ensures { OnOk result (to.new ≡ to.old ++ before ∷ compact (vertex_tree vertex.now)) }
{
    let steps = vertex.steps();
    let mut text = [0u8; MAX_LEN];
    let closed = put_byte(b']', &mut text, MAX_LEN);
    let z = put_integer(steps.z, &mut text, closed);
    let second = put_byte(b',', &mut text, z);
    let y = put_integer(steps.y, &mut text, second);
    let first = put_byte(b',', &mut text, y);
    let x = put_integer(steps.x, &mut text, first);
    let opened = put_byte(b'[', &mut text, x);
    let start = put_byte(before, &mut text, opened);
    to.append(&text[start..])
}
