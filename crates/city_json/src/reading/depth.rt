//! Whether a text is too deep, 64 bytes at a time.
ghost use Rattle.std.specs.Prelude.{◌≡◌, ◌↔◌, ◌||◌, ◌==◌, ◌<◌, ◌≤◌, ◌+◌, ◌-◌, ◌%◌, ◌^◌, ℕ, List, IsTrue, count_ones, drop, if◌then◌else◌, length, map, take};
ghost use Rattle.std.specs.Int.{bit_at};
ghost use Rattle.std.specs.List.{position_or_len};
ghost use Rattle.std.specs.Simd.Lanes.{mask_l};
ghost use Rattle.city_json.specs.Bytes.{backslash};
ghost use Rattle.city_json.specs.Depth.{IsDeep};
ghost use Rattle.city_json.specs.BracketRun.{IsBracketRun, outside_after, place_of};

use byte_streams::limits::MAX_DEPTH;
use std::simd::prelude::*;

/// How many bytes are looked at in one step.
const BLOCK: usize = 64;

/// Whether at some place more than 128 brackets are open. Brackets in strings do not count.
pub(crate) fn is_deep(bytes: &[u8]) -> bool
    ensures { IsTrue result ↔ IsDeep bytes.now }
{
    if bytes.len() <= MAX_DEPTH {
        return false;
    }
    let mut rest = bytes;
    let mut in_string = false;
    let mut opened = 0usize;
    let mut closed = 0usize;
    while opened <= closed + MAX_DEPTH {
        if rest.is_empty() {
            return false;
        }
        let run = next_run(rest, in_string, closed + MAX_DEPTH - opened);
        opened += run.opened;
        closed += run.closed;
        in_string = run.in_string;
        rest = &rest[run.len..];
    }
    true
}

/// A front of the bytes: how long it is, how many opening and closing brackets stand in it outside
/// strings, and whether it ends in a string.
#[derive(Clone, Copy)]
struct BracketRun {
    len: usize,
    opened: usize,
    closed: usize,
    in_string: bool,
}

/// A front of bytes that begin in a string or not. It is of one byte where it has more than `room`
/// opening brackets.
#[inline(always)]
fn next_run(bytes: &[u8], in_string: bool, room: usize) -> BracketRun
    requires { 0 < length bytes.now }
    ensures run { IsBracketRun in_string (take result.len bytes.now) (drop result.len bytes.now)
        result.opened result.closed result.in_string }
    ensures some { 0 < result.len }
    ensures within { result.len ≤ length bytes.now }
    ensures short { room < result.opened → result.len ≡ 1 }
{
    if bytes.len() >= BLOCK && room >= BLOCK {
        let block = u8x64::from_slice(bytes);
        let len = before_backslash(block);
        if len > 0 {
            return run_of_block(block, len, in_string);
        }
    }
    run_of_byte(bytes, in_string)
}

/// The first byte, with the byte that it escapes.
fn run_of_byte(bytes: &[u8], in_string: bool) -> BracketRun
    requires { 0 < length bytes.now }
    ensures run { IsBracketRun in_string (take result.len bytes.now) (drop result.len bytes.now)
        result.opened result.closed result.in_string }
    ensures some { 0 < result.len }
    ensures within { result.len ≤ length bytes.now }
    ensures short { 0 < result.opened → result.len ≡ 1 }
{
    let byte = bytes[0];
    if !in_string {
        return BracketRun {
            len: 1,
            opened: usize::from(byte == b'[' || byte == b'{'),
            closed: usize::from(byte == b']' || byte == b'}'),
            in_string: byte == b'"',
        };
    }
    BracketRun {
        len: 1 + usize::from(byte == b'\\' && bytes.len() > 1),
        opened: 0,
        closed: 0,
        in_string: byte != b'"',
    }
}

/// The first `len` bytes of a block, which have no backslash among them.
#[inline(always)]
fn run_of_block(block: u8x64, len: usize, in_string: bool) -> BracketRun
    requires some { 0 < len }
    requires plain { len ≤ position_or_len (λ b. b == backslash) block }
    ensures run { (back : List ℕ) → IsBracketRun in_string (take len block) back
        result.opened result.closed result.in_string }
    ensures len { result.len ≡ len }
    ensures few { result.opened ≤ len }
{
    let outside = outside_marks(block, len, in_string);
    BracketRun {
        len,
        opened: (marks_of_either(block, b'[', b'{') & outside).count_ones() as usize,
        closed: (marks_of_either(block, b']', b'}') & outside).count_ones() as usize,
        in_string: (outside >> (len - 1)) & 1 == 0,
    }
}

/// A bit for each of the first `len` bytes, which have no backslash among them: whether what follows
/// it stands outside strings. Each quotation mark leads into a string or out of one, so an odd number
/// of them up to a byte tells that.
#[inline(always)]
fn outside_marks(block: u8x64, len: usize, in_string: bool) -> u64
    requires some { 0 < len }
    requires plain { len ≤ position_or_len (λ b. b == backslash) block }
    ensures { result ≡ mask_l (outside_after (place_of in_string) (take len block)) }
{
    let ends = parities(marks_of(block, b'"'));
    (ends ^ all_or_none(!in_string)) & (u64::MAX >> (BLOCK - len))
}

/// All bits, or none.
#[inline(always)]
fn all_or_none(all: bool) -> u64
    ensures { result ≡ (if all then 2 ^ 64 - 1 else 0) }
{
    if all { u64::MAX } else { 0 }
}

/// For each bit, whether an odd number of the bits up to it are set.
#[inline(always)]
fn parities(bits: u64) -> u64
    ensures { (i : ℕ) → i < 64 → bit_at result i ≡ count_ones (bits % 2 ^ (i + 1)) % 2 }
{
    let mut sums = bits;
    let mut reach = 1u32;
    while reach < 64 {
        sums ^= sums << reach;
        reach *= 2;
    }
    sums
}

/// How many bytes stand before the first backslash.
#[inline(always)]
fn before_backslash(block: u8x64) -> usize
    ensures place { result ≡ position_or_len (λ b. b == backslash) block }
    ensures within { result ≤ 64 }
{
    let marks = marks_of(block, b'\\');
    if marks == 0 {
        return BLOCK;
    }
    marks.trailing_zeros() as usize
}

/// A bit for each byte: whether it is this one.
#[inline(always)]
pub(crate) fn marks_of(block: u8x64, byte: u8) -> u64
    ensures { result ≡ mask_l (map (λ b. b == byte) block) }
{
    block.simd_eq(u8x64::splat(byte)).to_bitmask()
}

/// A bit for each byte: whether it is one of the two.
#[inline(always)]
fn marks_of_either(block: u8x64, one: u8, other: u8) -> u64
    ensures { result ≡ mask_l (map (λ b. (b == one) || (b == other)) block) }
{
    (block.simd_eq(u8x64::splat(one)) | block.simd_eq(u8x64::splat(other))).to_bitmask()
}
