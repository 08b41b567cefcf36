//! Runs of bytes that stand for themselves in a string (RFC 8259, section 7).
ghost use Rattle.std.specs.Prelude.{◌≡◌, ◌≤◌, length, map, not};
ghost use Rattle.std.specs.List.{prefix_len};
ghost use Rattle.std.specs.Simd.Lanes.{mask_l};
ghost use Rattle.city_json.specs.ReadString.{is_plain};

use std::simd::prelude::*;

/// How many bytes at the front stand for themselves.
#[inline]
pub(crate) fn plain_len(bytes: &[u8]) -> usize
    ensures value { result ≡ prefix_len is_plain bytes.now }
    ensures within { result ≤ length bytes.now }
{
    let mut at = 0usize;
    while bytes.len() - at >= 16 {
        let stops = stops(u8x16::from_slice(&bytes[at..]));
        if stops != 0 {
            return at + stops.trailing_zeros() as usize;
        }
        at += 16;
    }
    at + short_plain_len(&bytes[at..])
}

/// A bit for each byte that does not stand for itself.
#[inline]
fn stops(bytes: u8x16) -> u64
    ensures { result ≡ mask_l (map (λ b. not (is_plain b)) bytes) }
{
    (bytes.simd_lt(u8x16::splat(b' '))
        | bytes.simd_eq(u8x16::splat(b'"'))
        | bytes.simd_eq(u8x16::splat(b'\\'))).to_bitmask()
}

/// The same, a byte at a time.
fn short_plain_len(bytes: &[u8]) -> usize
    ensures value { result ≡ prefix_len is_plain bytes.now }
    ensures within { result ≤ length bytes.now }
{
    let mut at = 0usize;
    while at < bytes.len() && bytes[at] >= b' ' && bytes[at] != b'"' && bytes[at] != b'\\' {
        at += 1;
    }
    at
}
