//! The members of an object that is compacted, and where they lie in what is written.
ghost use Rattle.std.specs.Prelude.{◌≡◌, ◌<◌, ◌≤◌, [], false, length, drop, IsTrue, IfSome, OnSome, IsUtf8};
ghost use Rattle.city_json.specs.Compacting.{shown, Taken, TakenPart, TakenParts};
ghost use Rattle.city_json.specs.ListedNames.{names_in};
ghost use Rattle.city_json.specs.Triples.{HasTriples, IsTriplesText};

use super::draft::{Draft, skip, written_len};
use super::marks::{after_member, is_bare};
use super::places::{MemberPlace, Span};
use super::strings::name_and_colon;
use super::triples::{look_at_triples, may_begin_triples};
use super::values::{member_value, more_items};
use byte_streams::push;

/// The members after the first brace, and the closing one: where it ends.
pub(super) fn members(
    text: &[u8],
    at: usize,
    levels: usize,
    draft: &mut Draft,
    parts: &mut Vec<MemberPlace>,
    triples: &mut Span,
) -> Option<usize>
    requires utf8 { IsUtf8 text.now }
    requires copied { draft.old.from ≤ at }
    requires within { at ≤ length text.now }
    requires none { names_in text.now draft.old.names ≡ [] }
    requires no_parts { parts.old.items ≡ [] }
    requires triples { HasTriples (shown draft.old.line text.now draft.old.from at) triples.old }
    ensures onward { IfSome result (λ end. at < end) }
    ensures within { IfSome result (λ end. end ≤ length text.now) }
    ensures copied { IfSome result (λ end. draft.new.from ≤ end) }
    ensures taken { IfSome result (λ end. TakenParts levels (drop at text.now) (drop end text.now)
        (shown draft.old.line text.now draft.old.from at)
        (shown draft.new.line text.now draft.new.from end)
        parts.new.items) }
    ensures triples { IfSome result (λ end.
        HasTriples (shown draft.new.line text.now draft.new.from end) triples.new) }
{
    let mut i = skip(text, at, draft);
    if i == text.len() {
        return None;
    }
    if text[i] == b'}' {
        return Some(i + 1);
    }
    'members: loop {
        let end = member(text, i, levels, draft, parts, triples)?;
        if is_bare(text, end, b',') {
            i = end + 1;
            continue 'members;
        }
        let after = after_member(text, end, draft);
        if after.at == text.len() {
            return None;
        }
        if after.closed {
            draft.names.are_apart_from(draft.alloc, text, 0)?;
            return Some(after.at + 1);
        }
        i = after.at;
    }
}

/// A member that begins at `at`: where it ends. Its name stands last among the names, its place last among the parts.
/// Where its value is triples, that is noted.
fn member(
    text: &[u8],
    at: usize,
    levels: usize,
    draft: &mut Draft,
    parts: &mut Vec<MemberPlace>,
    triples: &mut Span,
) -> Option<usize>
    requires utf8 { IsUtf8 text.now }
    requires copied { draft.old.from ≤ at }
    requires within { at ≤ length text.now }
    requires triples { HasTriples (shown draft.old.line text.now draft.old.from at) triples.old }
    ensures onward { IfSome result (λ end. at < end) }
    ensures within { IfSome result (λ end. end ≤ length text.now) }
    ensures copied { IfSome result (λ end. draft.new.from ≤ end) }
    ensures taken { IfSome result (λ end. TakenPart levels (drop at text.now) (drop end text.now)
        (shown draft.old.line text.now draft.old.from at)
        (shown draft.new.line text.now draft.new.from end)
        (names_in text.now draft.old.names) (names_in text.now draft.new.names) parts.old.items parts.new.items) }
    ensures triples { IfSome result (λ end.
        HasTriples (shown draft.new.line text.now draft.new.from end) triples.new) }
{
    let named = written_len(text, at, draft)?;
    let start = name_and_colon(text, at, draft)?;
    let valued = written_len(text, start, draft)?;
    let value = top_value(text, start, levels, draft)?;
    let ended = written_len(text, value.end, draft)?;
    *triples = triples_or(*triples, value.are_triples, valued, ended);
    let part = MemberPlace {
        at: named,
        value: valued,
        end: ended,
    };
    push(part, parts)?;
    Some(value.end)
}

/// Where a member's value ends, and whether it is triples, and nothing was copied.
#[derive(Clone, Copy, Drop)]
struct TopValue {
    end: usize,
    are_triples: bool,
}

/// Where triples stand in what is written: these, where they are some, or those before.
#[inline(always)]
fn triples_or(before: Span, are_triples: bool, from: usize, end: usize) -> Span
    ensures some { IsTrue are_triples → (result.from ≡ from) × (result.end ≡ end) }
    ensures none { are_triples ≡ false → result ≡ before }
{
    if are_triples {
        Span { from, end }
    } else {
        before
    }
}

/// The value of a member of the whole object that begins at `at`.
#[inline(always)]
fn top_value(text: &[u8], at: usize, levels: usize, draft: &mut Draft) -> Option<TopValue>
    requires utf8 { IsUtf8 text.now }
    requires copied { draft.old.from ≤ at }
    requires within { at ≤ length text.now }
    ensures onward { IfSome result (λ value. at < value.end) }
    ensures within { IfSome result (λ value. value.end ≤ length text.now) }
    ensures copied { IfSome result (λ value. draft.new.from ≤ value.end) }
    ensures names { OnSome result (names_in text.now draft.new.names ≡ names_in text.now draft.old.names) }
    ensures taken { IfSome result (λ value. Taken levels (drop at text.now) (drop value.end text.now)
        (shown draft.old.line text.now draft.old.from at)
        (shown draft.new.line text.now draft.new.from value.end)) }
    ensures triples { IfSome result (λ value. IsTrue value.are_triples
        → IsTriplesText text.now at value.end × (draft.new.line ≡ draft.old.line)
        × (draft.new.from ≡ draft.old.from)) }
{
    if levels > 1 && may_begin_triples(text, at) {
        let look = look_at_triples(text, at);
        if look.closed {
            return Some(TopValue {
                end: look.at,
                are_triples: true,
            });
        }
        if look.at > at + 1 {
            let end = more_items(text, look.at, levels - 1, draft)?;
            return Some(TopValue {
                end,
                are_triples: false,
            });
        }
    }
    let end = member_value(text, at, levels, draft)?;
    Some(TopValue {
        end,
        are_triples: false,
    })
}
