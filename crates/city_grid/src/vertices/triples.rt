//! Vertices in a text in which arrays of three short whole numbers are known to stand (CityJSON 2.0, CityJSONFeature):
//! they are read, and not checked again. In any other text some vertices are found, or none.
ghost use Rattle.std.specs.Prelude.{◌≡◌, ◌<◌, ◌≤◌, ◌+◌, ◌↔◌, IsTrue, ℕ, ℤ, List, drop, take, length, map, slice_range, unsigned_abs, IfSome};
ghost use Rattle.std.specs.Fmt.{signed_decimal};
ghost use Rattle.std.specs.Simd.Lanes.{mask_l};
ghost use Rattle.std.specs.Str.Parse.{AllDigits, digits_value};
ghost use Rattle.byte_streams.specs.Limits.{max_steps};
ghost use Rattle.city_json.specs.Compact.{compact};
ghost use Rattle.city_json.specs.Tree.{Tree};
ghost use Rattle.city_json.specs.Triples.{IsShortNumeral, IsTriple};
ghost use Rattle.city_grid.specs.Axes.{IsInRange, triple};
ghost use Rattle.city_grid.specs.NumberEnds.{AreTripleEnds, ends_number, number_len};
ghost use Rattle.city_grid.specs.Vertex.{vertex_tree};

use crate::vertices::Vertex;
use crate::vertices::digits::digits_value_between;
use crate::vertices::spelled::PlacedVertex;
use byte_streams::limits::MAX_STEPS;
use std::simd::prelude::*;

/// How many bytes are looked at at once: more than the text of most vertices has.
const WINDOW: usize = 32;

/// The same where that is too few: more than three numbers of [`MAX_DIGITS`] digits have.
const WIDE_WINDOW: usize = 64;

/// At most so many digits are read.
const MAX_DIGITS: usize = 16;

/// Where the three numbers of a vertex end.
#[derive(Clone, Copy, Drop)]
struct NumberEnds {
    first: usize,
    second: usize,
    third: usize,
}

/// How long a number is, and a bit for each byte that may end one after the byte that ends it.
#[derive(Clone, Copy, Drop)]
struct NumberRun {
    len: usize,
    after: u64,
}

/// A bit for each byte that ends a number.
#[inline(always)]
fn stops_in(bytes: u8x32) -> u64
    ensures { result ≡ mask_l (map ends_number bytes) }
{
    (bytes.simd_eq(u8x32::splat(b',')) | bytes.simd_gt(u8x32::splat(b'9'))).to_bitmask()
}

/// The same of more bytes.
#[inline(always)]
fn stops_in_more(bytes: u8x64) -> u64
    ensures { result ≡ mask_l (map ends_number bytes) }
{
    (bytes.simd_eq(u8x64::splat(b',')) | bytes.simd_gt(u8x64::splat(b'9'))).to_bitmask()
}

/// The run up to the first of the bits; `None`: there is none.
#[inline(always)]
fn first_run(stops: u64) -> Option<NumberRun>
    ensures few { IfSome result (λ run. run.len ≤ 63) }
    ensures is { IfSome result (λ run. (bytes : List ℕ) → length bytes ≤ 64
        → stops ≡ mask_l (map ends_number bytes)
        → (run.len ≡ number_len bytes) × (run.len < length bytes)
        × (run.after ≡ mask_l (map ends_number (drop (run.len + 1) bytes)))) }
{
    if stops == 0 {
        return None;
    }
    let len = stops.trailing_zeros();
    if len > 63 {
        return None;
    }
    Some(NumberRun {
        len: len as usize,
        after: (stops >> len) >> 1,
    })
}

/// Where the three numbers end of the array whose opening bracket is at `at`, where they end among the bytes whose bits
/// these are: those from the bracket on.
#[inline(always)]
fn ends_by(text: &[u8], at: usize, stops: u64) -> Option<NumberEnds>
    requires { at < length text.now }
    ensures { IfSome result (λ ends. (count : ℕ) → count ≤ 64 → at + count ≤ length text.now
        → stops ≡ mask_l (map ends_number (take count (drop at text.now)))
        → AreTripleEnds text.now at ends.first ends.second ends.third × (ends.third < at + count)) }
{
    let x = first_run(stops >> 1)?;
    let y = first_run(x.after)?;
    let z = first_run(y.after)?;
    let first = at + 1 + x.len;
    let second = first + 1 + y.len;
    Some(NumberEnds {
        first,
        second,
        third: second + 1 + z.len,
    })
}

/// Where the number that begins at `at` ends, with a byte that ends it; `None`: there is none.
fn number_end(text: &[u8], at: usize) -> Option<usize>
    ensures is { IfSome result (λ end. end ≡ at + number_len (drop at text.now)) }
    ensures within { IfSome result (λ end. end < length text.now) }
{
    let mut end = at;
    while end < text.len() && text[end] != b',' && text[end] <= b'9' {
        end += 1;
    }
    if end >= text.len() {
        return None;
    }
    Some(end)
}

/// Where the three numbers end of the array whose opening bracket is at `at`, wherever that is, number by number.
fn ends_by_numbers(text: &[u8], at: usize) -> Option<NumberEnds>
    requires { at < length text.now }
    ensures are { IfSome result (λ ends. AreTripleEnds text.now at ends.first ends.second ends.third) }
    ensures within { IfSome result (λ ends. ends.third < length text.now) }
{
    let first = number_end(text, at + 1)?;
    let second = number_end(text, first + 1)?;
    let third = number_end(text, second + 1)?;
    Some(NumberEnds {
        first,
        second,
        third,
    })
}

/// The same, where they are not near, or the text ends soon.
#[inline(never)]
fn far_ends(text: &[u8], at: usize) -> Option<NumberEnds>
    requires { at < length text.now }
    ensures are { IfSome result (λ ends. AreTripleEnds text.now at ends.first ends.second ends.third) }
    ensures within { IfSome result (λ ends. ends.third < length text.now) }
{
    if text.len() - at >= WIDE_WINDOW {
        let stops = stops_in_more(u8x64::from_slice(&text[at..]));
        if let Some(ends) = ends_by(text, at, stops) {
            return Some(ends);
        }
    }
    ends_by_numbers(text, at)
}

/// Where the three numbers end of the array whose opening bracket is at `at`.
#[inline(always)]
fn ends_at(text: &[u8], at: usize) -> Option<NumberEnds>
    requires { at < length text.now }
    ensures are { IfSome result (λ ends. AreTripleEnds text.now at ends.first ends.second ends.third) }
    ensures within { IfSome result (λ ends. ends.third < length text.now) }
{
    if text.len() - at >= WINDOW {
        let stops = stops_in(u8x32::from_slice(&text[at..]));
        if let Some(ends) = ends_by(text, at, stops) {
            return Some(ends);
        }
    }
    far_ends(text, at)
}

/// The number that the digits between two places write. `None`: there are none, or too many.
#[inline(always)]
fn size_between(text: &[u8], at: usize, end: usize) -> Option<u64>
    requires { end ≤ length text.now }
    ensures { IfSome result (λ size. AllDigits 10 (slice_range text.now at end)
        → size ≡ digits_value 10 (slice_range text.now at end)) }
{
    if at >= end || end - at > MAX_DIGITS {
        return None;
    }
    Some(digits_value_between(text, at, end))
}

/// The integer that stands between two places. `None`: it has no digits, or too many.
#[inline(always)]
fn integer_between(text: &[u8], at: usize, end: usize) -> Option<i64>
    requires { end ≤ length text.now }
    ensures { IfSome result (λ integer. IsShortNumeral (slice_range text.now at end)
        → slice_range text.now at end ≡ signed_decimal integer) }
{
    if at >= end {
        return None;
    }
    if text[at] == b'-' {
        let size = size_between(text, at + 1, end)?;
        return Some(size.cast_signed().wrapping_neg());
    }
    let size = size_between(text, at, end)?;
    Some(size.cast_signed())
}

/// The vertex whose text begins at `at`, where the text of an array of three short whole numbers does. `None`: three
/// numbers do not end there, or one has no digits, or more than sixteen, or is out of range.
#[inline(always)]
pub fn triple_vertex_at(text: &[u8], at: usize) -> Option<PlacedVertex>
    ensures onward { IfSome result (λ found. at < found.end) }
    ensures within { IfSome result (λ found. found.end ≤ length text.now) }
    ensures is { IfSome result (λ found. (end : ℕ) (value : Tree) → end ≤ length text.now
        → IsTriple value → slice_range text.now at end ≡ compact value
        → (found.end ≡ end) × (slice_range text.now at end ≡ compact (vertex_tree found.vertex))) }
    ensures range { IfSome result (λ found. IsInRange found.vertex) }
{
    if at >= text.len() {
        return None;
    }
    let ends = ends_at(text, at)?;
    let x = integer_between(text, at + 1, ends.first)?;
    let y = integer_between(text, ends.first + 1, ends.second)?;
    let z = integer_between(text, ends.second + 1, ends.third)?;
    let vertex = Vertex::new(x, y, z)?;
    Some(PlacedVertex {
        vertex,
        end: ends.third + 1,
    })
}

/// The x and y of a vertex in grid units, and where its text ends.
#[derive(Clone, Copy, Debug, PartialEq, Eq)]
pub struct PlacedPlan {
    pub x: i64,
    pub y: i64,
    pub end: usize,
}

/// Whether a component is at most 2^53 - 1 in size.
#[inline(always)]
fn is_near(steps: i64) -> bool
    ensures { IsTrue result ↔ (unsigned_abs steps ≤ max_steps) }
{
    steps.unsigned_abs() <= MAX_STEPS
}

/// The x and y of the vertex whose text begins at `at`, where the text of an array of three short whole numbers does; its
/// z is passed over. `None`: three numbers do not end there, or x or y has no digits, or more than sixteen, or is out of range.
#[inline(always)]
pub fn triple_plan_at(text: &[u8], at: usize) -> Option<PlacedPlan>
    ensures onward { IfSome result (λ found. at < found.end) }
    ensures within { IfSome result (λ found. found.end ≤ length text.now) }
    ensures is { IfSome result (λ found. (end : ℕ) (value : Tree) → end ≤ length text.now
        → IsTriple value → slice_range text.now at end ≡ compact value
        → (found.end ≡ end) × (z : ℤ) × IsInRange (triple found.x found.y z)
        × (slice_range text.now at end ≡ compact (vertex_tree (triple found.x found.y z)))) }
    ensures range { IfSome result (λ found.
        (unsigned_abs found.x ≤ max_steps) × (unsigned_abs found.y ≤ max_steps)) }
{
    if at >= text.len() {
        return None;
    }
    let ends = ends_at(text, at)?;
    let x = integer_between(text, at + 1, ends.first)?;
    let y = integer_between(text, ends.first + 1, ends.second)?;
    if !is_near(x) || !is_near(y) {
        return None;
    }
    Some(PlacedPlan {
        x,
        y,
        end: ends.third + 1,
    })
}
