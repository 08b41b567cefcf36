//! Arrays of three whole numbers each, as the vertices of a feature are (CityJSON 2.0, CityJSONFeature), in their
//! compact text, 64 bytes at a time.
ghost use Rattle.std.specs.Prelude.{◌≡◌, ◌<◌, ◌≤◌, ◌+◌, ◌-◌, false, true, ℕ, length, drop, take, max, min, bit_or, slice_index, slice_range, IsTrue};
ghost use Rattle.std.specs.Int.{bit_at};
ghost use Rattle.city_json.specs.Bytes.{open_bracket};
ghost use Rattle.city_json.specs.Triples.{IsTriplesText};
ghost use Rattle.city_json.specs.TriplesFound.{AreApart, AreKinds, AreNext, AreWithout, ClosesTriples, DoEndsFit, DoNumbersFit, EndsRuns, HasBit, HasNoBit, HasNoneUpTo, IsAfter, PassesTriples};

use super::whole_arrays::digit_marks;
use crate::reading::depth::marks_of;
use std::simd::prelude::*;

/// How many bytes are gone through at a time: more than a triple and what stands after it may have.
const BLOCK: usize = 64;

/// A bit for each byte of a block that is of a kind.
#[derive(Clone, Copy, Drop)]
struct Kinds {
    digits: u64,
    zeros: u64,
    minuses: u64,
    commas: u64,
    opens: u64,
    closes: u64,
}

/// A bit for each byte that stands in a number, and for each with which a number may begin: a minus sign elsewhere
/// stands in none.
#[derive(Clone, Copy, Drop)]
struct Numbers {
    inner: u64,
    starts: u64,
}

/// A bit for each byte that ends the first number after an opening bracket, and the second, and the third.
#[derive(Clone, Copy, Drop)]
struct EndMarks {
    first: u64,
    second: u64,
    third: u64,
}

/// A bit for each comma after a triple, for each closing bracket there, and for each byte that may not stand where it
/// stands. What the first two tell holds as far as no byte up to there is wrong.
#[derive(Clone, Copy, Drop)]
struct Found {
    going: u64,
    closing: u64,
    wrong: u64,
}

/// How many bytes at the front of a block are triples, each with the comma after it, or after the last of all the
/// bracket that closes the array around them; and whether something is wrong in what comes next.
#[derive(Clone, Copy, Drop)]
struct Front {
    len: usize,
    closed: bool,
    stuck: bool,
}

/// How far the triples of an array go: up to its end, or up to an item of it, with a comma after each triple before.
#[derive(Clone, Copy, Drop)]
pub(super) struct Look {
    pub(super) at: usize,
    pub(super) closed: bool,
}

#[inline(always)]
fn kinds_in(bytes: &[u8]) -> Kinds
    requires long { length bytes.now ≡ 64 }
    ensures { AreKinds bytes.now result.digits result.zeros result.minuses result.commas result.opens result.closes }
{
    let block = u8x64::from_slice(bytes);
    Kinds {
        digits: digit_marks(block),
        zeros: marks_of(block, b'0'),
        minuses: marks_of(block, b'-'),
        commas: marks_of(block, b','),
        opens: marks_of(block, b'['),
        closes: marks_of(block, b']'),
    }
}

/// Each mark one place on.
#[inline(always)]
fn one_on(marks: u64) -> u64
    ensures { IsAfter marks result }
{
    marks << 1
}

/// The marks that are not among the others.
#[inline(always)]
fn difference(marks: u64, others: u64) -> u64
    ensures { AreWithout marks others result }
{
    marks & !others
}

#[inline(always)]
fn numbers_of(kinds: Kinds) -> Numbers
    ensures inner { (i : ℕ) → bit_at result.inner i
        ≡ max (bit_at kinds.digits i) (min (bit_at kinds.minuses i) (bit_at result.starts i)) }
    ensures starts { IsAfter (bit_or kinds.opens kinds.commas) result.starts }
{
    let starts = one_on(kinds.opens | kinds.commas);
    Numbers {
        inner: kinds.digits | (kinds.minuses & starts),
        starts,
    }
}

/// The first byte in no number after each of the marks: a carry runs through the number that begins there.
#[inline(always)]
fn ends_after(marks: u64, numbers: u64) -> u64
    requires apart { AreApart marks numbers }
    ensures next { AreNext marks numbers result }
    ensures apart { AreApart result numbers }
{
    (marks << 1).wrapping_add(numbers) & !numbers
}

#[inline(always)]
fn ends_of(opens: u64, numbers: u64) -> EndMarks
    requires apart { AreApart opens numbers }
    ensures first { AreNext opens numbers result.first }
    ensures second { AreNext result.first numbers result.second }
    ensures third { AreNext result.second numbers result.third }
{
    let first = ends_after(opens, numbers);
    let second = ends_after(first, numbers);
    let third = ends_after(second, numbers);
    EndMarks {
        first,
        second,
        third,
    }
}

/// A bit for each byte that may not stand where it stands: at the end of a number, two places after a triple, or at the
/// block's front.
#[inline(always)]
fn wrong_ends(kinds: Kinds, ends: EndMarks) -> u64
    ensures { (i : ℕ) → i < 64 → HasNoBit result i
        → DoEndsFit kinds.commas kinds.opens kinds.closes ends.first ends.second ends.third i }
{
    let no_comma = difference(ends.first | ends.second, kinds.commas);
    let no_close = difference(ends.third, kinds.closes);
    let no_more = difference(
        one_on(one_on(ends.third)),
        one_on(kinds.commas) & kinds.opens,
    );
    no_comma | no_close | no_more | difference(1, kinds.opens)
}

/// A bit for the last of any sixteen digits.
#[inline(always)]
fn long_runs(digits: u64) -> u64
    ensures { EndsRuns digits result }
{
    let two = digits & (digits << 1);
    let four = two & (two << 2);
    let eight = four & (four << 4);
    eight & (eight << 8)
}

/// A bit for each byte at which it shows that a number is none, or not as it would be written, or too long.
#[inline(always)]
fn wrong_numbers(kinds: Kinds, numbers: Numbers) -> u64
    ensures { (i : ℕ) → i < 64 → HasNoBit result i
        → DoNumbersFit kinds.digits kinds.zeros kinds.minuses kinds.opens numbers.inner numbers.starts i }
{
    let empty = difference(numbers.starts, numbers.inner | kinds.opens);
    let bare = difference(one_on(kinds.minuses), difference(kinds.digits, kinds.zeros));
    let led_by_zero = one_on(kinds.zeros & numbers.starts) & kinds.digits;
    empty | bare | led_by_zero | long_runs(kinds.digits)
}

/// Those of the marks at which and before which nothing is wrong.
#[inline(always)]
fn before_wrong(marks: u64, wrong: u64) -> u64
    ensures { (i : ℕ) → HasBit result i → HasBit marks i × HasNoneUpTo i wrong }
{
    marks & (wrong.wrapping_sub(1) & !wrong)
}

/// What is found in 64 bytes, the first of which begins a triple.
#[inline(always)]
fn found_in(bytes: &[u8]) -> Found
    requires long { length bytes.now ≡ 64 }
    ensures going { (at : ℕ) → at < 64 → HasBit result.going at → HasNoneUpTo at result.wrong
        → PassesTriples (take (at + 1) bytes.now) }
    ensures closing { (at : ℕ) → at < 64 → HasBit result.closing at → HasNoneUpTo at result.wrong
        → ClosesTriples (take (at + 1) bytes.now) }
{
    let kinds = kinds_in(bytes);
    let numbers = numbers_of(kinds);
    let ends = ends_of(kinds.opens, numbers.inner);
    let after = one_on(ends.third);
    Found {
        going: after & kinds.commas,
        closing: after & kinds.closes,
        wrong: wrong_ends(kinds, ends) | wrong_numbers(kinds, numbers),
    }
}

/// How many bytes there are up to the last of the marks.
#[inline(always)]
fn up_to_last(marks: u64) -> usize
    ensures within { result ≤ 64 }
    ensures last { 0 < result → HasBit marks (result - 1) }
{
    64 - marks.leading_zeros() as usize
}

/// The front of 64 bytes, the first of which should begin a triple; of no bytes where it begins none. Mostly nothing is wrong in
/// them, and then what comes next need not wait until it is known what is. A bracket that closes the array as the last
/// byte is left to the next look then, which begins at the last triple: one alone is never so long.
#[inline(always)]
fn front_of(bytes: &[u8]) -> Front
    requires long { length bytes.now ≡ 64 }
    ensures within { result.len ≤ 64 }
    ensures goes_on { result.closed ≡ false → PassesTriples (take result.len bytes.now) }
    ensures closed { result.closed ≡ true → ClosesTriples (take result.len bytes.now) }
{
    let found = found_in(bytes);
    if found.wrong == 0 {
        return Front {
            len: up_to_last(found.going),
            closed: false,
            stuck: false,
        };
    }
    let closing = before_wrong(found.closing, found.wrong);
    if closing != 0 {
        return Front {
            len: closing.trailing_zeros() as usize + 1,
            closed: true,
            stuck: false,
        };
    }
    Front {
        len: up_to_last(before_wrong(found.going, found.wrong)),
        closed: false,
        stuck: true,
    }
}

/// The front of what stands from `at` on.
#[inline(always)]
fn front_at(text: &[u8], at: usize) -> Front
    requires within { at ≤ length text.now }
    ensures within { at + result.len ≤ length text.now }
    ensures goes_on { result.closed ≡ false → PassesTriples (slice_range text.now at (at + result.len)) }
    ensures closed { result.closed ≡ true
        → ClosesTriples (slice_range text.now at (at + result.len)) }
{
    if text.len() - at < BLOCK {
        return short_front(text, at);
    }
    front_of(&text[at..at + BLOCK])
}

/// What stands from `at` on, and zeros up to 64 bytes.
#[inline(always)]
fn block_at(text: &[u8], at: usize) -> [u8; BLOCK]
    requires within { at ≤ length text.now }
    requires few { length text.now < at + 64 }
    ensures { take (length text.now - at) result ≡ drop at text.now }
{
    let mut block = [0u8; BLOCK];
    block[..text.len() - at].copy_from_slice(&text[at..]);
    block
}

/// The same near the end of the text.
#[inline(never)]
fn short_front(text: &[u8], at: usize) -> Front
    requires within { at ≤ length text.now }
    requires few { length text.now < at + 64 }
    ensures within { at + result.len ≤ length text.now }
    ensures goes_on { result.closed ≡ false → PassesTriples (slice_range text.now at (at + result.len)) }
    ensures closed { result.closed ≡ true
        → ClosesTriples (slice_range text.now at (at + result.len)) }
{
    let block = block_at(text, at);
    let front = front_of(&block);
    if front.len > text.len() - at {
        return Front {
            len: 0,
            closed: false,
            stuck: true,
        };
    }
    front
}

/// Whether the first byte that stands in no whole number and is no comma is a closing bracket after two commas, where
/// there is one among the bytes.
#[inline(always)]
fn may_hold_three(bytes: u8x16) -> bool {
    let stops = (bytes.simd_lt(u8x16::splat(b','))
        | bytes.simd_gt(u8x16::splat(b'9'))
        | bytes.simd_eq(u8x16::splat(b'.'))).to_bitmask();
    if stops == 0 {
        return true;
    }
    let before = stops.wrapping_sub(1) & !stops;
    let commas = bytes.simd_eq(u8x16::splat(b',')).to_bitmask();
    let closes = bytes.simd_eq(u8x16::splat(b']')).to_bitmask();
    closes & before.wrapping_add(1) != 0 && (commas & before).count_ones() == 2
}

/// Whether an array of triples may begin at `at`. Most other values are told from it by their first bytes.
#[inline(always)]
pub(super) fn may_begin_triples(text: &[u8], at: usize) -> bool
    requires { at ≤ length text.now }
    ensures within { IsTrue result → at < length text.now }
    ensures opened { IsTrue result → slice_index text.now at ≡ open_bracket }
{
    if text.len() - at < 3 || text[at] != b'[' || text[at + 1] != b'[' {
        return false;
    }
    if !matches!(text[at + 2], b'-' | b'0'..=b'9') {
        return false;
    }
    text.len() - at < 18 || may_hold_three(u8x16::from_slice(&text[at + 2..]))
}

/// Goes over the triples of the array whose opening bracket is at `at`.
#[inline(never)]
pub(super) fn look_at_triples(text: &[u8], at: usize) -> Look
    requires within { at < length text.now }
    requires opened { slice_index text.now at ≡ open_bracket }
    ensures onward { at < result.at }
    ensures within { result.at ≤ length text.now }
    ensures passed { result.closed ≡ false
        → PassesTriples (slice_range text.now (at + 1) result.at) }
    ensures is { result.closed ≡ true → IsTriplesText text.now at result.at }
{
    let mut i = at + 1;
    'fronts: while i < text.len() {
        let front = front_at(text, i);
        if front.closed {
            return Look {
                at: i + front.len,
                closed: true,
            };
        }
        if front.stuck || front.len == 0 {
            return Look {
                at: i + front.len,
                closed: false,
            };
        }
        i += front.len;
    }
    Look {
        at: i,
        closed: false,
    }
}
