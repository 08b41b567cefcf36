//! Values, one within another.
ghost use Rattle.std.specs.Prelude.{◌≡◌, ◌+◌, ◌<◌, ◌≤◌, ℕ, List, length, drop, IfSome, OnSome, IsUtf8};
ghost use Rattle.city_json.specs.Compacting.{shown, Taken, TakenItems, ItemsFrom, TakenMembers, TakenMember};
ghost use Rattle.city_json.specs.Flat.{ItemIsNext};
ghost use Rattle.city_json.specs.ListedNames.{names_in};
ghost use Rattle.city_json.specs.Reading.{after_white};

use super::draft::{Draft, skip};
use super::flat::{ItemPlace, after_item, numbers, opens_array};
use super::marks::{after_member, is_bare};
use super::scalars::{decimal_end, may_end, scalar_end};
use super::strings::{name_and_colon, text_value};
use super::whole_arrays::{whole_after_comma, whole_from};

/// A member's value that begins at `at`, most often a string or a number: where it ends.
#[cycle(value)]
#[inline(always)]
pub(super) fn member_value(
    text: &[u8],
    at: usize,
    levels: usize,
    draft: &mut Draft,
) -> Option<usize>
    requires utf8 { IsUtf8 text.now }
    requires copied { draft.old.from ≤ at }
    requires within { at ≤ length text.now }
    ensures onward { IfSome result (λ end. at < end) }
    ensures within { IfSome result (λ end. end ≤ length text.now) }
    ensures copied { IfSome result (λ end. draft.new.from ≤ end) }
    ensures names { OnSome result (names_in text.now draft.new.names ≡ names_in text.now draft.old.names) }
    ensures taken { IfSome result (λ end. Taken levels (drop at text.now) (drop end text.now)
        (shown draft.old.line text.now draft.old.from at)
        (shown draft.new.line text.now draft.new.from end)) }
{
    if at == text.len() {
        return None;
    }
    if text[at] == b'"' {
        return text_value(text, at, levels, draft);
    }
    if text[at] <= b'9' {
        let end = decimal_end(text, at);
        if at < end && may_end(text, end) {
            return Some(end);
        }
    }
    let end = value(text, at, levels, draft)?;
    Some(end)
}

/// A value that begins at `at` and nests at most `levels` deep: where it ends.
#[cycle(value)]
pub(super) fn value(text: &[u8], at: usize, levels: usize, draft: &mut Draft) -> Option<usize>
    requires utf8 { IsUtf8 text.now }
    requires copied { draft.old.from ≤ at }
    requires within { at ≤ length text.now }
    ensures onward { IfSome result (λ end. at < end) }
    ensures within { IfSome result (λ end. end ≤ length text.now) }
    ensures copied { IfSome result (λ end. draft.new.from ≤ end) }
    ensures names { OnSome result (names_in text.now draft.new.names ≡ names_in text.now draft.old.names) }
    ensures taken { IfSome result (λ end. Taken levels (drop at text.now) (drop end text.now)
        (shown draft.old.line text.now draft.old.from at)
        (shown draft.new.line text.now draft.new.from end)) }
{
    if at == text.len() {
        return None;
    }
    match text[at] {
        b'"' => text_value(text, at, levels, draft),
        b'[' => {
            if levels == 0 {
                return None;
            }
            array(text, at + 1, levels - 1, draft)
        }
        b'{' => {
            if levels == 0 {
                return None;
            }
            object(text, at + 1, levels - 1, draft)
        }
        _ => scalar_end(text, at),
    }
}

/// The items after an opening bracket, and the closing one: where it ends.
#[cycle(value)]
fn array(text: &[u8], at: usize, levels: usize, draft: &mut Draft) -> Option<usize>
    requires utf8 { IsUtf8 text.now }
    requires copied { draft.old.from ≤ at }
    requires within { at ≤ length text.now }
    ensures onward { IfSome result (λ end. at < end) }
    ensures within { IfSome result (λ end. end ≤ length text.now) }
    ensures copied { IfSome result (λ end. draft.new.from ≤ end) }
    ensures names { OnSome result (names_in text.now draft.new.names ≡ names_in text.now draft.old.names) }
    ensures taken { IfSome result (λ end. TakenItems levels (drop at text.now) (drop end text.now)
        (shown draft.old.line text.now draft.old.from at)
        (shown draft.new.line text.now draft.new.from end)) }
{
    if let Some(end) = whole_from(text, at, levels) {
        return Some(end);
    }
    let first = skip(text, at, draft);
    if first == text.len() {
        return None;
    }
    if text[first] == b']' {
        return Some(first + 1);
    }
    items(text, first, levels, draft)
}

/// One or more items from `at` on, and the closing bracket: where it ends.
#[cycle(value)]
fn items(text: &[u8], at: usize, levels: usize, draft: &mut Draft) -> Option<usize>
    requires utf8 { IsUtf8 text.now }
    requires copied { draft.old.from ≤ at }
    requires within { at ≤ length text.now }
    ensures onward { IfSome result (λ end. at < end) }
    ensures within { IfSome result (λ end. end ≤ length text.now) }
    ensures copied { IfSome result (λ end. draft.new.from ≤ end) }
    ensures names { OnSome result (names_in text.now draft.new.names ≡ names_in text.now draft.old.names) }
    ensures taken { IfSome result (λ end. ItemsFrom levels (after_white (drop at text.now))
        (drop end text.now)
        (shown draft.old.line text.now draft.old.from at)
        (shown draft.new.line text.now draft.new.from end)) }
{
    let mut i = at;
    let mut depth = 1usize;
    'items: loop {
        let next = next_item(text, i, depth, levels, draft)?;
        if next.depth == 0 {
            return Some(next.at);
        }
        i = next.at;
        depth = next.depth;
    }
}

/// The same of the items after others. Most often they are whole numbers, or arrays of them.
pub(super) fn more_items(text: &[u8], at: usize, levels: usize, draft: &mut Draft) -> Option<usize>
    requires utf8 { IsUtf8 text.now }
    requires copied { draft.old.from ≤ at }
    requires within { at ≤ length text.now }
    ensures onward { IfSome result (λ end. at < end) }
    ensures within { IfSome result (λ end. end ≤ length text.now) }
    ensures copied { IfSome result (λ end. draft.new.from ≤ end) }
    ensures names { OnSome result (names_in text.now draft.new.names ≡ names_in text.now draft.old.names) }
    ensures taken { IfSome result (λ end. ItemsFrom levels (after_white (drop at text.now))
        (drop end text.now)
        (shown draft.old.line text.now draft.old.from at)
        (shown draft.new.line text.now draft.new.from end)) }
{
    if let Some(end) = whole_after_comma(text, at, levels) {
        return Some(end);
    }
    items(text, at, levels, draft)
}

/// Goes over the item that is next at `at`, or into it where it is an array, with so many arrays open.
#[cycle(value)]
#[inline(always)]
fn next_item(
    text: &[u8],
    at: usize,
    depth: usize,
    levels: usize,
    draft: &mut Draft,
) -> Option<ItemPlace>
    requires utf8 { IsUtf8 text.now }
    requires copied { draft.old.from ≤ at }
    requires within { at ≤ length text.now }
    requires some { 0 < depth }
    requires few { depth ≤ levels + 1 }
    ensures onward { IfSome result (λ next. at < next.at) }
    ensures within { IfSome result (λ next. next.at ≤ length text.now) }
    ensures copied { IfSome result (λ next. draft.new.from ≤ next.at) }
    ensures names { OnSome result (names_in text.now draft.new.names ≡ names_in text.now draft.old.names) }
    ensures few { IfSome result (λ next. next.depth ≤ levels + 1) }
    ensures goes_on { IfSome result (λ next. (rest after : List ℕ)
        → ItemIsNext next.depth (levels + 1) (drop next.at text.now) rest
        (shown draft.new.line text.now draft.new.from next.at) after
        → ItemIsNext depth (levels + 1) (drop at text.now) rest
        (shown draft.old.line text.now draft.old.from at) after) }
{
    let start = skip(text, at, draft);
    if start == text.len() {
        return None;
    }
    let run = numbers(text, start, draft)?;
    if run.closed {
        return after_item(text, run.at, depth - 1, draft);
    }
    let item = skip(text, run.at, draft);
    if item == text.len() {
        return None;
    }
    if depth < levels {
        if opens_array(text, item) {
            return Some(ItemPlace {
                at: item + 1,
                depth: depth + 1,
            });
        }
    }
    let end = value(text, item, levels - (depth - 1), draft)?;
    after_item(text, end, depth, draft)
}

/// The members after an opening brace, and the closing one: where it ends.
#[cycle(value)]
fn object(text: &[u8], at: usize, levels: usize, draft: &mut Draft) -> Option<usize>
    requires utf8 { IsUtf8 text.now }
    requires copied { draft.old.from ≤ at }
    requires within { at ≤ length text.now }
    ensures onward { IfSome result (λ end. at < end) }
    ensures within { IfSome result (λ end. end ≤ length text.now) }
    ensures copied { IfSome result (λ end. draft.new.from ≤ end) }
    ensures names { OnSome result (names_in text.now draft.new.names ≡ names_in text.now draft.old.names) }
    ensures taken { IfSome result (λ end. TakenMembers levels (drop at text.now) (drop end text.now)
        (shown draft.old.line text.now draft.old.from at)
        (shown draft.new.line text.now draft.new.from end)) }
{
    let base = draft.names.len();
    let mut i = skip(text, at, draft);
    if i == text.len() {
        return None;
    }
    if text[i] == b'}' {
        return Some(i + 1);
    }
    'members: loop {
        let end = member(text, i, levels, draft)?;
        if is_bare(text, end, b',') {
            i = end + 1;
            continue 'members;
        }
        let after = after_member(text, end, draft);
        if after.at == text.len() {
            return None;
        }
        if after.closed {
            draft.names.are_apart_from(draft.alloc, text, base)?;
            draft.names.truncate(base);
            return Some(after.at + 1);
        }
        i = after.at;
    }
}

/// A member that begins at `at`: where it ends. Its name stands last among the names.
#[cycle(value)]
fn member(text: &[u8], at: usize, levels: usize, draft: &mut Draft) -> Option<usize>
    requires utf8 { IsUtf8 text.now }
    requires copied { draft.old.from ≤ at }
    requires within { at ≤ length text.now }
    ensures onward { IfSome result (λ end. at < end) }
    ensures within { IfSome result (λ end. end ≤ length text.now) }
    ensures copied { IfSome result (λ end. draft.new.from ≤ end) }
    ensures taken { IfSome result (λ end. TakenMember levels (drop at text.now) (drop end text.now)
        (shown draft.old.line text.now draft.old.from at)
        (shown draft.new.line text.now draft.new.from end)
        (names_in text.now draft.old.names) (names_in text.now draft.new.names)) }
{
    let start = name_and_colon(text, at, draft)?;
    let end = member_value(text, start, levels, draft)?;
    Some(end)
}
