//! Runs of digits, sixteen bytes at a time.
ghost use Rattle.std.specs.Prelude.{◌≡◌, ◌≤◌, length, drop, map, not};
ghost use Rattle.std.specs.Char.{is_ascii_digit};
ghost use Rattle.std.specs.Simd.Lanes.{mask_l};
ghost use Rattle.city_json.specs.NumberAt.{past_digits};

use std::simd::prelude::*;

/// The end of the digits from `at` on.
#[inline(always)]
pub(crate) fn digits_end(text: &[u8], at: usize) -> usize
    requires { at ≤ length text.now }
    ensures onward { at ≤ result }
    ensures within { result ≤ length text.now }
    ensures passed { drop result text.now ≡ past_digits (drop at text.now) }
{
    if text.len() - at >= 16 {
        let stops = not_digits(u8x16::from_slice(&text[at..]));
        if stops != 0 {
            return at + stops.trailing_zeros() as usize;
        }
    }
    digits_end_slowly(text, at)
}

/// A bit for each byte that is no digit.
#[inline(always)]
pub fn not_digits(bytes: u8x16) -> u64
    ensures { result ≡ mask_l (map (λ b. not (is_ascii_digit b)) bytes) }
{
    (bytes.simd_lt(u8x16::splat(b'0')) | bytes.simd_gt(u8x16::splat(b'9'))).to_bitmask()
}

/// The same of any number of digits, wherever the text ends.
#[inline(never)]
fn digits_end_slowly(text: &[u8], at: usize) -> usize
    requires { at ≤ length text.now }
    ensures onward { at ≤ result }
    ensures within { result ≤ length text.now }
    ensures passed { drop result text.now ≡ past_digits (drop at text.now) }
{
    let mut end = at;
    while text.len() - end >= 16 {
        let stops = not_digits(u8x16::from_slice(&text[end..]));
        if stops != 0 {
            return end + stops.trailing_zeros() as usize;
        }
        end += 16;
    }
    last_digits_end(text, end)
}

/// The same byte by byte.
fn last_digits_end(text: &[u8], at: usize) -> usize
    requires { at ≤ length text.now }
    ensures onward { at ≤ result }
    ensures within { result ≤ length text.now }
    ensures passed { drop result text.now ≡ past_digits (drop at text.now) }
{
    let mut end = at;
    while end < text.len() && matches!(text[end], b'0'..=b'9') {
        end += 1;
    }
    end
}
