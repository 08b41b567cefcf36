//! Strings and names: as they stand where no escape is in them, else written anew.
ghost use Rattle.std.specs.Prelude.{◌≡◌, ◌+◌, ◌++◌, ◌∷◌, ◌<◌, ◌≤◌, [], Some, List, ℕ, length, drop, slice_index, IfSome, OnSome, IsUtf8};
ghost use Rattle.std.specs.List.{flat_map};
ghost use Rattle.city_json.specs.Bytes.{backslash, quotation_mark};
ghost use Rattle.city_json.specs.Compact.{written};
ghost use Rattle.city_json.specs.Compacting.{shown, Taken, TakenAnew, TakenEscape, TakenName, TakenStart};
ghost use Rattle.city_json.specs.ListedNames.{as_decoded, names_in};
ghost use Rattle.city_json.specs.ReadString.{decoded};
ghost use Rattle.city_json.specs.WrittenLetters.{is_letter_written};

use super::draft::{Draft, copy_to};
use super::marks::{is_bare, past_spaced_mark};
use super::names::Names;
use super::scalars::plain_string;
use crate::printing::character_bytes;
use crate::reading::plain::plain_len;
use crate::reading::strings::{decode_into, escape};
use std::alloc::Global;

/// A string whose opening mark is at `at`: where it ends.
#[inline(always)]
pub(super) fn text_value(text: &[u8], at: usize, levels: usize, draft: &mut Draft) -> Option<usize>
    requires utf8 { IsUtf8 text.now }
    requires copied { draft.old.from ≤ at }
    requires within { at < length text.now }
    requires opened { slice_index text.now at ≡ quotation_mark }
    ensures onward { IfSome result (λ end. at < end) }
    ensures within { IfSome result (λ end. end ≤ length text.now) }
    ensures copied { IfSome result (λ end. draft.new.from ≤ end) }
    ensures names { OnSome result (names_in text.now draft.new.names ≡ names_in text.now draft.old.names) }
    ensures taken { IfSome result (λ end. Taken levels (drop at text.now) (drop end text.now)
        (shown draft.old.line text.now draft.old.from at)
        (shown draft.new.line text.now draft.new.from end)) }
{
    match plain_string(text, at + 1) {
        Some(close) => Some(close + 1),
        None => {
            let end = respelled(text, at, draft)?;
            Some(end)
        }
    }
}

/// A string whose opening mark is at `at`, written in its one spelling piece by piece: where it ends.
#[inline(never)]
fn respelled(text: &[u8], at: usize, draft: &mut Draft) -> Option<usize>
    requires utf8 { IsUtf8 text.now }
    requires copied { draft.old.from ≤ at }
    requires within { at < length text.now }
    requires opened { slice_index text.now at ≡ quotation_mark }
    ensures onward { IfSome result (λ end. at < end) }
    ensures within { IfSome result (λ end. end ≤ length text.now) }
    ensures copied { IfSome result (λ end. draft.new.from < end) }
    ensures names { OnSome result (names_in text.now draft.new.names ≡ names_in text.now draft.old.names) }
    ensures taken { IfSome result (λ end. TakenAnew text.now at end
        (shown draft.old.line text.now draft.old.from at)
        (shown draft.new.line text.now draft.new.from end)) }
{
    let mut i = at + 1;
    'pieces: loop {
        let stop = i + plain_len(&text[i..]);
        if stop == text.len() {
            return None;
        }
        if text[stop] == b'"' {
            return Some(stop + 1);
        }
        if text[stop] != b'\\' {
            return None;
        }
        i = respelled_escape(text, stop, draft)?;
    }
}

/// Whether a character is written by a backslash and this letter, which stands for it.
#[inline(always)]
fn is_letter_written(letter: u8) -> bool
    ensures { result ≡ is_letter_written letter }
{
    matches!(letter, b'"' | b'\\' | b'b' | b'f' | b'n' | b'r' | b't')
}

/// An escape whose backslash is at `at`, as its character is written: where it ends. Most are written so already.
#[inline(always)]
fn respelled_escape(text: &[u8], at: usize, draft: &mut Draft) -> Option<usize>
    requires copied { draft.old.from ≤ at }
    requires within { at < length text.now }
    requires escapes { slice_index text.now at ≡ backslash }
    ensures onward { IfSome result (λ end. at < end) }
    ensures within { IfSome result (λ end. end ≤ length text.now) }
    ensures copied { IfSome result (λ end. draft.new.from ≤ end) }
    ensures names { OnSome result (names_in text.now draft.new.names ≡ names_in text.now draft.old.names) }
    ensures taken { IfSome result (λ end. TakenEscape (drop (at + 1) text.now) (drop end text.now)
        (shown draft.old.line text.now draft.old.from at)
        (shown draft.new.line text.now draft.new.from end)) }
{
    if at + 1 < text.len() {
        if is_letter_written(text[at + 1]) {
            return Some(at + 2);
        }
    }
    rewritten_escape(text, at, draft)
}

/// The same, written anew.
fn rewritten_escape(text: &[u8], at: usize, draft: &mut Draft) -> Option<usize>
    requires copied { draft.old.from ≤ at }
    requires within { at < length text.now }
    ensures onward { IfSome result (λ end. at < end) }
    ensures within { IfSome result (λ end. end ≤ length text.now) }
    ensures copied { IfSome result (λ end. draft.new.from ≤ end) }
    ensures names { OnSome result (names_in text.now draft.new.names ≡ names_in text.now draft.old.names) }
    ensures taken { IfSome result (λ end. TakenEscape (drop (at + 1) text.now) (drop end text.now)
        (shown draft.old.line text.now draft.old.from at)
        (shown draft.new.line text.now draft.new.from end)) }
{
    let (character, rest) = escape(&text[at + 1..])?;
    let end = text.len() - rest.len();
    copy_to(text, at, end, draft)?;
    draft.line.append(character_bytes(character, &mut [0; 6]))?;
    Some(end)
}

/// A name with escapes whose opening mark is at `at`: where it ends. It stands last among the names.
#[inline(never)]
fn respelled_name(text: &[u8], at: usize, draft: &mut Draft) -> Option<usize>
    requires utf8 { IsUtf8 text.now }
    requires copied { draft.old.from ≤ at }
    requires within { at < length text.now }
    requires opened { slice_index text.now at ≡ quotation_mark }
    ensures onward { IfSome result (λ end. at < end) }
    ensures within { IfSome result (λ end. end ≤ length text.now) }
    ensures copied { IfSome result (λ end. draft.new.from ≤ end) }
    ensures taken { IfSome result (λ end. TakenName (drop at text.now) (drop end text.now)
        (shown draft.old.line text.now draft.old.from at)
        (shown draft.new.line text.now draft.new.from end)
        (names_in text.now draft.old.names) (names_in text.now draft.new.names)) }
{
    copy_to(text, at, at, draft)?;
    let mark = draft.line.items().len();
    let end = respelled(text, at, draft)?;
    copy_to(text, end - 1, end - 1, draft)?;
    push_content(
        draft.alloc,
        &text[at + 1..],
        &draft.line.items()[mark + 1..],
        &mut draft.names,
    )?;
    Some(end)
}

/// Puts the content of the string whose opening mark stands before `bytes`, and whose characters are written as in
/// `line`, after the names.
fn push_content(alloc: Global, bytes: &[u8], line: &[u8], names: &mut Names) -> Option<()>
    ensures { OnSome result ((content rest : List ℕ) → decoded bytes.now ≡ Some (content, rest)
        → flat_map written content ≡ line.now → names.new ≡ names.old ++ as_decoded content ∷ []) }
{
    if plain_len(line) == line.len() {
        return names.push_held(line);
    }
    let mut content = Vec::new(alloc);
    decode_into(bytes, &mut content)?;
    names.push_held(&content)
}

/// A member's name whose opening mark is at `at`: where it ends. It stands last among the names.
#[inline(always)]
fn name(text: &[u8], at: usize, draft: &mut Draft) -> Option<usize>
    requires utf8 { IsUtf8 text.now }
    requires copied { draft.old.from ≤ at }
    requires within { at < length text.now }
    requires opened { slice_index text.now at ≡ quotation_mark }
    ensures onward { IfSome result (λ end. at < end) }
    ensures within { IfSome result (λ end. end ≤ length text.now) }
    ensures copied { IfSome result (λ end. draft.new.from ≤ end) }
    ensures taken { IfSome result (λ end. TakenName (drop at text.now) (drop end text.now)
        (shown draft.old.line text.now draft.old.from at)
        (shown draft.new.line text.now draft.new.from end)
        (names_in text.now draft.old.names) (names_in text.now draft.new.names)) }
{
    match plain_string(text, at + 1) {
        Some(close) => {
            draft.names.push(at + 1, close)?;
            Some(close + 1)
        }
        None => respelled_name(text, at, draft),
    }
}

/// A member's name that begins at `at`, and the colon: where the member's value begins.
#[inline(always)]
pub(super) fn name_and_colon(text: &[u8], at: usize, draft: &mut Draft) -> Option<usize>
    requires utf8 { IsUtf8 text.now }
    requires copied { draft.old.from ≤ at }
    requires within { at ≤ length text.now }
    ensures onward { IfSome result (λ start. at < start) }
    ensures within { IfSome result (λ start. start < length text.now) }
    ensures copied { IfSome result (λ start. draft.new.from ≤ start) }
    ensures taken { IfSome result (λ start. TakenStart (drop at text.now) (drop start text.now)
        (shown draft.old.line text.now draft.old.from at)
        (shown draft.new.line text.now draft.new.from start)
        (names_in text.now draft.old.names) (names_in text.now draft.new.names)) }
{
    if at == text.len() || text[at] != b'"' {
        return None;
    }
    let end = name(text, at, draft)?;
    if is_bare(text, end, b':') {
        return Some(end + 1);
    }
    let start = past_spaced_mark(text, end, b':', draft);
    if start == text.len() {
        return None;
    }
    Some(start)
}
