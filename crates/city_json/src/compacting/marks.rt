//! The marks between the parts of an object: a colon after a name, a comma or the closing brace after a member.
//!
//! In most texts no white space stands around them, so that two bytes tell what comes.
ghost use Rattle.std.specs.Prelude.{◌≡◌, ◌<◌, ◌≤◌, ◌+◌, false, true, length, drop, IsTrue};
ghost use Rattle.city_json.specs.Bytes.{comma};
ghost use Rattle.city_json.specs.Compacting.{shown};
ghost use Rattle.city_json.specs.ListedNames.{names_in};
ghost use Rattle.city_json.specs.Marks.{IsBareMark, IsMarkBeforeBlank, TakenBrace, TakenMark};

use super::draft::{Draft, leave_blank, skip};

/// What comes after a member: where the next one begins, or the place of the brace that closes the object; the end of
/// the text where neither is found, or memory is out.
#[derive(Clone, Copy, Drop)]
pub(super) struct AfterMember {
    pub(super) at: usize,
    pub(super) closed: bool,
}

/// Whether this mark stands at `at`, and after it no white space.
#[inline(always)]
pub(super) fn is_bare(text: &[u8], at: usize, mark: u8) -> bool
    requires { at ≤ length text.now }
    ensures is { IsTrue result → IsBareMark mark text.now at }
    ensures told { IsBareMark mark text.now at → IsTrue result }
{
    text.len() - at > 1 && text[at] == mark && text[at + 1] > b' '
}

/// Goes over a mark that is next at `at`, and white space around it, most often one blank after it: where what follows
/// begins; the end of the text where another byte stands there, or nothing follows, or memory is out.
#[inline(never)]
pub(super) fn past_spaced_mark(text: &[u8], at: usize, mark: u8, draft: &mut Draft) -> usize
    requires copied { draft.old.from ≤ at }
    requires within { at ≤ length text.now }
    requires no_white { 32 < mark }
    ensures within { result ≤ length text.now }
    ensures onward { result < length text.now → at < result }
    ensures copied { result < length text.now → draft.new.from ≤ result }
    ensures names { result < length text.now → names_in text.now draft.new.names ≡ names_in text.now draft.old.names }
    ensures taken { result < length text.now → TakenMark mark (drop at text.now) (drop result text.now)
        (shown draft.old.line text.now draft.old.from at)
        (shown draft.new.line text.now draft.new.from result) }
{
    if is_before_blank(text, at, mark) {
        return leave_blank(text, at + 1, draft);
    }
    past_mark_in_white(text, at, mark, draft)
}

/// Whether this mark stands at `at`, after it one blank, and after that no white space.
#[inline(always)]
fn is_before_blank(text: &[u8], at: usize, mark: u8) -> bool
    requires { at ≤ length text.now }
    ensures is { IsTrue result → IsMarkBeforeBlank mark text.now at }
    ensures told { IsMarkBeforeBlank mark text.now at → IsTrue result }
{
    text.len() - at > 2 && text[at] == mark && text[at + 1] == b' ' && text[at + 2] > b' '
}

/// The same, where any white space may stand around the mark.
fn past_mark_in_white(text: &[u8], at: usize, mark: u8, draft: &mut Draft) -> usize
    requires copied { draft.old.from ≤ at }
    requires within { at ≤ length text.now }
    ensures within { result ≤ length text.now }
    ensures onward { result < length text.now → at < result }
    ensures copied { result < length text.now → draft.new.from ≤ result }
    ensures names { result < length text.now → names_in text.now draft.new.names ≡ names_in text.now draft.old.names }
    ensures taken { result < length text.now → TakenMark mark (drop at text.now) (drop result text.now)
        (shown draft.old.line text.now draft.old.from at)
        (shown draft.new.line text.now draft.new.from result) }
{
    let place = skip(text, at, draft);
    if place == text.len() || text[place] != mark {
        return text.len();
    }
    skip(text, place + 1, draft)
}

/// Goes over white space to the closing brace, or over the comma that is next at `at`, and white space around it.
#[inline(always)]
pub(super) fn after_member(text: &[u8], at: usize, draft: &mut Draft) -> AfterMember
    requires copied { draft.old.from ≤ at }
    requires within { at ≤ length text.now }
    ensures within { result.at ≤ length text.now }
    ensures onward { result.at < length text.now → at ≤ result.at }
    ensures copied { result.at < length text.now → draft.new.from ≤ result.at }
    ensures names { result.at < length text.now → names_in text.now draft.new.names ≡ names_in text.now draft.old.names }
    ensures further { result.at < length text.now → result.closed ≡ false → at < result.at }
    ensures goes_on { result.at < length text.now → result.closed ≡ false
        → TakenMark comma (drop at text.now) (drop result.at text.now)
        (shown draft.old.line text.now draft.old.from at)
        (shown draft.new.line text.now draft.new.from result.at) }
    ensures closes { result.at < length text.now → result.closed ≡ true
        → TakenBrace (drop at text.now) (drop (result.at + 1) text.now)
        (shown draft.old.line text.now draft.old.from at)
        (shown draft.new.line text.now draft.new.from (result.at + 1)) }
{
    if at < text.len() && text[at] == b'}' {
        return AfterMember { at, closed: true };
    }
    after_spaced_member(text, at, draft)
}

/// The same, where white space may stand around the mark, most often one blank after a comma.
#[inline(never)]
fn after_spaced_member(text: &[u8], at: usize, draft: &mut Draft) -> AfterMember
    requires copied { draft.old.from ≤ at }
    requires within { at ≤ length text.now }
    ensures within { result.at ≤ length text.now }
    ensures onward { result.at < length text.now → at ≤ result.at }
    ensures copied { result.at < length text.now → draft.new.from ≤ result.at }
    ensures names { result.at < length text.now → names_in text.now draft.new.names ≡ names_in text.now draft.old.names }
    ensures further { result.at < length text.now → result.closed ≡ false → at < result.at }
    ensures goes_on { result.at < length text.now → result.closed ≡ false
        → TakenMark comma (drop at text.now) (drop result.at text.now)
        (shown draft.old.line text.now draft.old.from at)
        (shown draft.new.line text.now draft.new.from result.at) }
    ensures closes { result.at < length text.now → result.closed ≡ true
        → TakenBrace (drop at text.now) (drop (result.at + 1) text.now)
        (shown draft.old.line text.now draft.old.from at)
        (shown draft.new.line text.now draft.new.from (result.at + 1)) }
{
    if is_before_blank(text, at, b',') {
        return AfterMember {
            at: leave_blank(text, at + 1, draft),
            closed: false,
        };
    }
    after_member_in_white(text, at, draft)
}

/// The same, where any white space may stand around the mark.
fn after_member_in_white(text: &[u8], at: usize, draft: &mut Draft) -> AfterMember
    requires copied { draft.old.from ≤ at }
    requires within { at ≤ length text.now }
    ensures within { result.at ≤ length text.now }
    ensures onward { result.at < length text.now → at ≤ result.at }
    ensures copied { result.at < length text.now → draft.new.from ≤ result.at }
    ensures names { result.at < length text.now → names_in text.now draft.new.names ≡ names_in text.now draft.old.names }
    ensures further { result.at < length text.now → result.closed ≡ false → at < result.at }
    ensures goes_on { result.at < length text.now → result.closed ≡ false
        → TakenMark comma (drop at text.now) (drop result.at text.now)
        (shown draft.old.line text.now draft.old.from at)
        (shown draft.new.line text.now draft.new.from result.at) }
    ensures closes { result.at < length text.now → result.closed ≡ true
        → TakenBrace (drop at text.now) (drop (result.at + 1) text.now)
        (shown draft.old.line text.now draft.old.from at)
        (shown draft.new.line text.now draft.new.from (result.at + 1)) }
{
    let place = skip(text, at, draft);
    if place == text.len() {
        return AfterMember {
            at: place,
            closed: false,
        };
    }
    if text[place] == b'}' {
        return AfterMember {
            at: place,
            closed: true,
        };
    }
    AfterMember {
        at: past_spaced_mark(text, place, b',', draft),
        closed: false,
    }
}
