//! The vertices of a document that are known to stand in its compact text as arrays of three short whole numbers each:
//! where they begin is found by the brackets that close them, 64 bytes at a time, and no number is looked at.
ghost use Rattle.std.specs.Prelude.{◌≡◌, ◌++◌, ◌≤◌, ◌<◌, ◌+◌, List, length, map, slice_range, All, IfSome, OnSome};
ghost use Rattle.std.specs.Simd.Lanes.{mask_l};
ghost use Rattle.city_json.specs.Compact.{compact};
ghost use Rattle.city_json.specs.ObjectTexts.{members_of};
ghost use Rattle.city_json.specs.Triples.{HasTriples};
ghost use Rattle.city_grid.specs.Axes.{IsInRange, Triple};
ghost use Rattle.city_feature.specs.Feature.{vertices_tree};
ghost use Rattle.city_feature.specs.LineTexts.{SpellsVertices};
ghost use Rattle.cut_on_text.specs.TripleStarts.{IsTriplesArray, is_close_bracket, starts_after_closes};
ghost use Rattle.cut_on_text.specs.VertexTexts.{HasPoints, StandAt};

use super::points::COMMON_LEN;
use city_families::push_place;
use city_json::{ObjectText, Span, between};
use std::alloc::Global;
use std::simd::prelude::*;

/// How many bytes are looked at at once.
const BLOCK: usize = 64;

/// The text of the document's vertices, where it is these triples. `None`: it is not.
pub fn triples_text<'a>(document: &ObjectText<'a>, triples: Span) -> Option<&'a [u8]>
    requires { HasTriples document.now.text triples }
    ensures vertices { IfSome result (λ found. (points : List Triple) → SpellsVertices found.now points
        → HasPoints (members_of document.now) points) }
    ensures triples { IfSome result (λ found. IsTriplesArray found.now) }
{
    let part = document.part(3, b"\"vertices\":")?;
    if !triples.is_value_of(part) {
        return None;
    }
    between(document.text(), part.value, part.end)
}

/// A bit for each byte that closes an array.
#[inline(always)]
fn closes_in(block: u8x64) -> u64
    ensures { result ≡ mask_l (map is_close_bracket block) }
{
    block.simd_eq(u8x64::splat(b']')).to_bitmask()
}

/// Appends the starts that the closing brackets tell of among the 64 bytes from `at` on.
#[inline(always)]
fn push_block(text: &[u8], at: usize, starts: &mut Vec<u32>) -> Option<()>
    requires { at + 64 ≤ length text.now }
    ensures { OnSome result (starts.new.items
        ≡ starts.old.items ++ starts_after_closes at (slice_range text.now at (at + 64))) }
{
    let mut closes = closes_in(u8x64::from_slice(&text[at..]));
    let mut place = at;
    'closes: while closes != 0 {
        let len = closes.trailing_zeros() as usize;
        let Ok(()) = push_place(place + len + 2, starts) else {
            return None;
        };
        closes = (closes >> len) >> 1;
        place += len + 1;
    }
    Some(())
}

/// The same of the byte at `at`.
#[inline(always)]
fn push_byte(text: &[u8], at: usize, starts: &mut Vec<u32>) -> Option<()>
    requires { at < length text.now }
    ensures { OnSome result (starts.new.items
        ≡ starts.old.items ++ starts_after_closes at (slice_range text.now at (at + 1))) }
{
    if text[at] == b']' {
        return push_place(at + 2, starts).ok();
    }
    Some(())
}

/// Where the vertices begin of an array of triples, and where one after the last would. `None`: out of memory, or
/// the text has 2^32 bytes or more.
pub(super) fn starts_of_triples(alloc: Global, text: &[u8]) -> Option<Vec<u32>>
    requires { IsTriplesArray text.now }
    ensures { IfSome result (λ starts. (points : List Triple) × (text.now ≡ compact (vertices_tree points))
        × All IsInRange points × StandAt text.now starts.items points) }
{
    if text.is_empty() {
        return None;
    }
    let last = text.len() - 1;
    let mut starts = Vec::with_capacity(alloc, text.len() / COMMON_LEN).ok()?;
    let Ok(()) = push_place(1, &mut starts) else {
        return None;
    };
    let mut at = 0usize;
    'blocks: while last - at >= BLOCK {
        push_block(text, at, &mut starts)?;
        at += BLOCK;
    }
    'bytes: while at < last {
        push_byte(text, at, &mut starts)?;
        at += 1;
    }
    Some(starts)
}
