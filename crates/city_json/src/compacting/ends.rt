//! Where the parts of a compact text end.
//!
//! These know that a text is compact, and check nothing of it: in any other text they find some place at or after the
//! given one.

ghost use Rattle.std.specs.Prelude.{◌≡◌, ◌≤◌, length, drop};
ghost use Rattle.city_json.specs.CompactEnds.{LeavesItems, LeavesMembers, LeavesRun, LeavesString, LeavesValue};

use super::runs::run_len;
use super::whole_arrays::whole_from;
use crate::reading::plain::plain_len;
use byte_streams::limits::MAX_DEPTH;

/// Where the string ends whose opening mark stands before `at`.
pub(super) fn string_end(text: &[u8], at: usize) -> usize
    requires { at ≤ length text.now }
    ensures onward { at ≤ result }
    ensures within { result ≤ length text.now }
    ensures is { LeavesString (drop at text.now) (drop result text.now) }
{
    let mut i = at;
    while i < text.len() {
        i += plain_len(&text[i..]);
        if i == text.len() {
            return i;
        }
        if text[i] == b'"' {
            return i + 1;
        }
        if text.len() - i < 2 {
            return text.len();
        }
        i += 2;
    }
    i
}

/// Where the word or number ends that begins at `at`.
fn scalar_stop(text: &[u8], at: usize) -> usize
    requires { at ≤ length text.now }
    ensures onward { at ≤ result }
    ensures within { result ≤ length text.now }
    ensures is { LeavesRun (drop at text.now) (drop result text.now) }
{
    at + run_len(&text[at..])
}

/// Where the value ends that begins at `at`.
pub(crate) fn value_end(text: &[u8], at: usize) -> usize
    requires { at ≤ length text.now }
    ensures onward { at ≤ result }
    ensures within { result ≤ length text.now }
    ensures is { LeavesValue 128 (drop at text.now) (drop result text.now) }
{
    end_of(text, at, MAX_DEPTH)
}

#[cycle(end_of)]
fn end_of(text: &[u8], at: usize, levels: usize) -> usize
    requires { at ≤ length text.now }
    ensures onward { at ≤ result }
    ensures within { result ≤ length text.now }
    ensures is { LeavesValue levels (drop at text.now) (drop result text.now) }
{
    if at == text.len() {
        return at;
    }
    match text[at] {
        b'"' => string_end(text, at + 1),
        b'[' => {
            if levels == 0 {
                return text.len();
            }
            array_end(text, at + 1, levels - 1)
        }
        b'{' => {
            if levels == 0 {
                return text.len();
            }
            object_end(text, at + 1, levels - 1)
        }
        _ => scalar_stop(text, at),
    }
}

#[cycle(end_of)]
fn array_end(text: &[u8], at: usize, levels: usize) -> usize
    requires { at ≤ length text.now }
    ensures onward { at ≤ result }
    ensures within { result ≤ length text.now }
    ensures is { LeavesItems levels (drop at text.now) (drop result text.now) }
{
    if let Some(end) = whole_from(text, at, levels) {
        return end;
    }
    if at == text.len() {
        return at;
    }
    if text[at] == b']' {
        return at + 1;
    }
    let mut i = at;
    'items: loop {
        let end = end_of(text, i, levels);
        if end == text.len() {
            return end;
        }
        if text[end] == b']' {
            return end + 1;
        }
        i = end + 1;
    }
}

#[cycle(end_of)]
fn object_end(text: &[u8], at: usize, levels: usize) -> usize
    requires { at ≤ length text.now }
    ensures onward { at ≤ result }
    ensures within { result ≤ length text.now }
    ensures is { LeavesMembers levels (drop at text.now) (drop result text.now) }
{
    if at == text.len() {
        return at;
    }
    if text[at] == b'}' {
        return at + 1;
    }
    let mut i = at;
    'members: loop {
        if i == text.len() {
            return i;
        }
        let colon = string_end(text, i + 1);
        if colon == text.len() {
            return colon;
        }
        let end = end_of(text, colon + 1, levels);
        if end == text.len() {
            return end;
        }
        if text[end] == b'}' {
            return end + 1;
        }
        i = end + 1;
    }
}
