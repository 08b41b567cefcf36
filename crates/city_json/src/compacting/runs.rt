//! Runs of bytes in a compact text that end no item and no member.
ghost use Rattle.std.specs.Prelude.{◌≡◌, ◌≤◌, length, map};
ghost use Rattle.std.specs.List.{prefix_len};
ghost use Rattle.std.specs.Simd.Lanes.{mask_l};
ghost use Rattle.city_json.specs.CompactEnds.{goes_on, is_stop};

use std::simd::prelude::*;

/// How many bytes at the front end no item and no member.
#[inline(always)]
pub(super) fn run_len(bytes: &[u8]) -> usize
    ensures value { result ≡ prefix_len goes_on bytes.now }
    ensures within { result ≤ length bytes.now }
{
    let mut at = 0usize;
    while bytes.len() - at >= 16 {
        let stops = run_stops(u8x16::from_slice(&bytes[at..]));
        if stops != 0 {
            return at + stops.trailing_zeros() as usize;
        }
        at += 16;
    }
    at + short_run_len(&bytes[at..])
}

/// A bit for each byte that ends an item or a member.
#[inline(always)]
fn run_stops(bytes: u8x16) -> u64
    ensures { result ≡ mask_l (map is_stop bytes) }
{
    (bytes.simd_eq(u8x16::splat(b','))
        | bytes.simd_eq(u8x16::splat(b']'))
        | bytes.simd_eq(u8x16::splat(b'}'))).to_bitmask()
}

/// The same as of many bytes, a byte at a time.
fn short_run_len(bytes: &[u8]) -> usize
    ensures value { result ≡ prefix_len goes_on bytes.now }
    ensures within { result ≤ length bytes.now }
{
    let mut at = 0usize;
    while at < bytes.len() && bytes[at] != b',' && bytes[at] != b']' && bytes[at] != b'}' {
        at += 1;
    }
    at
}
