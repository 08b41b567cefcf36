//! What the pass has written, and how it goes on over white space.
ghost use Rattle.std.specs.Prelude.{◌≡◌, ◌<◌, ◌≤◌, ◌+◌, [], length, drop, slice_index, IfSome, OnSome};
ghost use Rattle.city_json.specs.Compacting.{shown};
ghost use Rattle.city_json.specs.ListedNames.{names_in};
ghost use Rattle.city_json.specs.Reading.{after_white};

use super::names::Names;
use super::written::{SHORT, Written};
use byte_streams::Line;
use std::alloc::Global;

/// What is written so far: the line, and after it the text from `from` on, which is still to be copied. Beside it
/// the names of the objects that are open, those of an inner one last.
#[derive(Drop)]
pub(super) struct Draft {
    pub(super) alloc: Global,
    pub(super) line: Written,
    pub(super) from: usize,
    pub(super) names: Names,
}

/// A draft with nothing written, and these names.
pub(super) fn new_draft(alloc: Global, line: Line, names: Names) -> Draft
    ensures line { result.line ≡ [] }
    ensures from { result.from ≡ 0 }
    ensures names { result.names ≡ names }
{
    Draft {
        alloc,
        line: Written::in_memory(line),
        from: 0,
        names,
    }
}

/// Copies the text up to `at`, and goes on from `next`.
#[inline(always)]
pub(super) fn copy_to(text: &[u8], at: usize, next: usize, draft: &mut Draft) -> Option<()>
    requires copied { draft.old.from ≤ at }
    requires order { at ≤ next }
    requires within { next ≤ length text.now }
    ensures line { OnSome result (draft.new.line
        ≡ shown draft.old.line text.now draft.old.from at) }
    ensures from { OnSome result (draft.new.from ≡ next) }
    ensures names { OnSome result (names_in text.now draft.new.names ≡ names_in text.now draft.old.names) }
{
    let from = draft.from;
    if at - from <= SHORT && text.len() - from >= SHORT && draft.line.append_short(text, from, at) {
        draft.from = next;
        return Some(());
    }
    copy_long(text, at, next, draft)
}

/// The same, whatever the text's length.
#[inline(never)]
fn copy_long(text: &[u8], at: usize, next: usize, draft: &mut Draft) -> Option<()>
    requires copied { draft.old.from ≤ at }
    requires order { at ≤ next }
    requires within { next ≤ length text.now }
    ensures line { OnSome result (draft.new.line
        ≡ shown draft.old.line text.now draft.old.from at) }
    ensures from { OnSome result (draft.new.from ≡ next) }
    ensures names { OnSome result (names_in text.now draft.new.names ≡ names_in text.now draft.old.names) }
{
    draft.line.append(&text[draft.from..at])?;
    draft.from = next;
    Some(())
}

/// The place of the next byte that is no white space; the end of the text where there is none, or memory is out.
#[inline(always)]
pub(super) fn skip(text: &[u8], at: usize, draft: &mut Draft) -> usize
    requires copied { draft.old.from ≤ at }
    requires within { at ≤ length text.now }
    ensures within { result ≤ length text.now }
    ensures onward { result < length text.now → at ≤ result }
    ensures copied { result < length text.now → draft.new.from ≤ result }
    ensures skipped { result < length text.now
        → drop result text.now ≡ after_white (drop at text.now) }
    ensures is_shown { result < length text.now
        → shown draft.new.line text.now draft.new.from result
        ≡ shown draft.old.line text.now draft.old.from at }
    ensures names { result < length text.now → names_in text.now draft.new.names ≡ names_in text.now draft.old.names }
{
    if at < text.len() && text[at] > b' ' {
        return at;
    }
    if text.len() - at > 1 && text[at] == b' ' && text[at + 1] > b' ' {
        return skip_blank(text, at, draft);
    }
    skip_or_end(text, at, draft)
}

/// The same, where one blank stands at the place and no white space after it.
#[inline(never)]
fn skip_blank(text: &[u8], at: usize, draft: &mut Draft) -> usize
    requires copied { draft.old.from ≤ at }
    requires within { at + 1 < length text.now }
    requires blank { slice_index text.now at ≡ 32 }
    requires ends { 32 < slice_index text.now (at + 1) }
    ensures within { result ≤ length text.now }
    ensures onward { result < length text.now → at ≤ result }
    ensures copied { result < length text.now → draft.new.from ≤ result }
    ensures skipped { result < length text.now
        → drop result text.now ≡ after_white (drop at text.now) }
    ensures is_shown { result < length text.now
        → shown draft.new.line text.now draft.new.from result
        ≡ shown draft.old.line text.now draft.old.from at }
    ensures names { result < length text.now → names_in text.now draft.new.names ≡ names_in text.now draft.old.names }
{
    leave_blank(text, at, draft)
}

/// Leaves out the blank that stands at a place, and goes on from the byte after it, which is no white space.
#[inline(always)]
pub(super) fn leave_blank(text: &[u8], at: usize, draft: &mut Draft) -> usize
    requires copied { draft.old.from ≤ at }
    requires within { at + 1 < length text.now }
    requires blank { slice_index text.now at ≡ 32 }
    requires ends { 32 < slice_index text.now (at + 1) }
    ensures within { result ≤ length text.now }
    ensures onward { result < length text.now → at ≤ result }
    ensures copied { result < length text.now → draft.new.from ≤ result }
    ensures skipped { result < length text.now
        → drop result text.now ≡ after_white (drop at text.now) }
    ensures is_shown { result < length text.now
        → shown draft.new.line text.now draft.new.from result
        ≡ shown draft.old.line text.now draft.old.from at }
    ensures names { result < length text.now → names_in text.now draft.new.names ≡ names_in text.now draft.old.names }
{
    match copy_to(text, at, at + 1, draft) {
        Some(()) => at + 1,
        None => text.len(),
    }
}

/// The same, where there may be white space.
#[inline(never)]
fn skip_or_end(text: &[u8], at: usize, draft: &mut Draft) -> usize
    requires copied { draft.old.from ≤ at }
    requires within { at ≤ length text.now }
    ensures within { result ≤ length text.now }
    ensures onward { result < length text.now → at ≤ result }
    ensures copied { result < length text.now → draft.new.from ≤ result }
    ensures skipped { result < length text.now
        → drop result text.now ≡ after_white (drop at text.now) }
    ensures is_shown { result < length text.now
        → shown draft.new.line text.now draft.new.from result
        ≡ shown draft.old.line text.now draft.old.from at }
    ensures names { result < length text.now → names_in text.now draft.new.names ≡ names_in text.now draft.old.names }
{
    match skip_white(text, at, draft) {
        Some(end) => end,
        None => text.len(),
    }
}

/// Leaves out the white space from `at` on: where it ends.
#[inline(always)]
pub(super) fn skip_white(text: &[u8], at: usize, draft: &mut Draft) -> Option<usize>
    requires copied { draft.old.from ≤ at }
    requires within { at ≤ length text.now }
    ensures onward { IfSome result (λ end. at ≤ end) }
    ensures within { IfSome result (λ end. end ≤ length text.now) }
    ensures copied { IfSome result (λ end. draft.new.from ≤ end) }
    ensures skipped { IfSome result (λ end. drop end text.now ≡ after_white (drop at text.now)) }
    ensures is_shown { IfSome result (λ end. shown draft.new.line text.now draft.new.from end
        ≡ shown draft.old.line text.now draft.old.from at) }
    ensures names { OnSome result (names_in text.now draft.new.names ≡ names_in text.now draft.old.names) }
{
    let end = white_end(text, at);
    if end == at {
        return Some(at);
    }
    copy_to(text, at, end, draft)?;
    Some(end)
}

/// The place of the first byte from `at` on that is no white space.
#[inline(always)]
pub(super) fn white_end(text: &[u8], at: usize) -> usize
    requires { at ≤ length text.now }
    ensures onward { at ≤ result }
    ensures within { result ≤ length text.now }
    ensures skipped { drop result text.now ≡ after_white (drop at text.now) }
{
    let mut end = at;
    while end < text.len() && matches!(text[end], b' ' | b'\t' | b'\n' | b'\r') {
        end += 1;
    }
    end
}

/// How long what is written is, where the text up to `at` is taken.
#[inline(always)]
pub(super) fn written_len(text: &[u8], at: usize, draft: &Draft) -> Option<usize>
    requires copied { draft.now.from ≤ at }
    requires within { at ≤ length text.now }
    ensures { IfSome result (λ n. n ≡ length (shown draft.now.line text.now draft.now.from at)) }
{
    draft.line.len().checked_add(at - draft.from)
}
