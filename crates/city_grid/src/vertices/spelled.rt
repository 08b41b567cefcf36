//! Vertices that are read where they stand in a compact text.
ghost use Rattle.std.specs.Prelude.{◌≡◌, ◌<◌, ◌≤◌, length, slice_range, IfSome, IsTrue};
ghost use Rattle.std.specs.Fmt.{signed_decimal};
ghost use Rattle.city_json.specs.Compact.{compact};
ghost use Rattle.city_grid.specs.Axes.{IsInRange};
ghost use Rattle.city_grid.specs.Vertex.{IsInteger, SpellsVertex, vertex_tree};

use crate::vertices::Vertex;
use crate::vertices::texts::{byte_is, number_at};

/// An integer, where its text ends, and whether that is the text that would be written for it.
#[derive(Clone, Copy, Drop)]
struct SpelledInteger {
    value: i64,
    end: usize,
    as_written: bool,
}

/// A vertex, and where its text ends.
#[derive(Clone, Copy, Debug, PartialEq, Eq)]
pub struct PlacedVertex {
    pub vertex: Vertex,
    pub end: usize,
}

/// A vertex, where its text ends, and whether that is the text that would be written for it.
#[derive(Clone, Copy, Debug, PartialEq, Eq)]
pub struct SpelledVertex {
    pub vertex: Vertex,
    pub end: usize,
    pub as_written: bool,
}

/// The integer at `at`, which is written in at most sixteen digits.
#[inline(always)]
fn integer_at(text: &[u8], at: usize) -> Option<SpelledInteger>
    requires { at ≤ length text.now }
    ensures onward { IfSome result (λ found. at < found.end) }
    ensures within { IfSome result (λ found. found.end ≤ length text.now) }
    ensures spelled { IfSome result (λ found. IsInteger (slice_range text.now at found.end) found.value) }
    ensures written { IfSome result (λ found. IsTrue found.as_written
        → slice_range text.now at found.end ≡ signed_decimal found.value) }
{
    if byte_is(text, at, b'-') {
        let found = number_at(text, at + 1)?;
        return Some(SpelledInteger {
            value: -(found.size as i64),
            end: found.end,
            as_written: found.size > 0,
        });
    }
    let found = number_at(text, at)?;
    Some(SpelledInteger {
        value: found.size as i64,
        end: found.end,
        as_written: true,
    })
}

#[inline(always)]
fn all_three(x: bool, y: bool, z: bool) -> bool
    ensures { IsTrue result → (IsTrue x × IsTrue y × IsTrue z) }
{
    x && y && z
}

/// The vertex at `at`, where each of its integers is written in at most sixteen digits; `-0` is 0. `None`: none stands
/// there so.
#[inline(always)]
pub fn spelled_vertex_at(text: &[u8], at: usize) -> Option<SpelledVertex>
    requires { at ≤ length text.now }
    ensures onward { IfSome result (λ found. at < found.end) }
    ensures within { IfSome result (λ found. found.end ≤ length text.now) }
    ensures spelled { IfSome result (λ found.
        SpellsVertex (slice_range text.now at found.end) found.vertex) }
    ensures written { IfSome result (λ found. IsTrue found.as_written
        → slice_range text.now at found.end ≡ compact (vertex_tree found.vertex)) }
    ensures range { IfSome result (λ found. IsInRange found.vertex) }
{
    if !byte_is(text, at, b'[') {
        return None;
    }
    let x = integer_at(text, at + 1)?;
    if !byte_is(text, x.end, b',') {
        return None;
    }
    let y = integer_at(text, x.end + 1)?;
    if !byte_is(text, y.end, b',') {
        return None;
    }
    let z = integer_at(text, y.end + 1)?;
    if !byte_is(text, z.end, b']') {
        return None;
    }
    let vertex = Vertex::new(x.value, y.value, z.value)?;
    Some(SpelledVertex {
        vertex,
        end: z.end + 1,
        as_written: all_three(x.as_written, y.as_written, z.as_written),
    })
}
