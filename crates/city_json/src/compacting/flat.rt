//! Arrays within arrays, gone through in one loop: whole numbers in them, and the brackets that close them.
ghost use Rattle.std.specs.Prelude.{◌≡◌, ◌<◌, ◌≤◌, ◌+◌, ℕ, List, false, true, length, drop, slice_index, IfSome, OnSome, IsTrue};
ghost use Rattle.city_json.specs.Bytes.{open_bracket};
ghost use Rattle.city_json.specs.Compacting.{shown, ItemsFrom};
ghost use Rattle.city_json.specs.Flat.{ItemIsNext, ItemWasTaken};
ghost use Rattle.city_json.specs.ListedNames.{names_in};
ghost use Rattle.city_json.specs.Reading.{after_white};

use super::draft::{Draft, copy_to, skip};
use super::scalars::integer_end;

/// Where a run of whole numbers ends: after the bracket that closes the array, or before an item.
#[derive(Clone, Copy, Drop)]
pub(super) struct NumbersEnd {
    pub(super) at: usize,
    pub(super) closed: bool,
}

/// Where the next item begins, and how many arrays are open there; with none open, where the last one ended.
#[derive(Clone, Copy, Drop)]
pub(super) struct ItemPlace {
    pub(super) at: usize,
    pub(super) depth: usize,
}

/// Goes over whole numbers from `at` on, where an item is next. One blank may stand before each but the first.
#[inline(always)]
pub(super) fn numbers(text: &[u8], at: usize, draft: &mut Draft) -> Option<NumbersEnd>
    requires copied { draft.old.from ≤ at }
    requires within { at ≤ length text.now }
    ensures onward { IfSome result (λ run. at ≤ run.at) }
    ensures within { IfSome result (λ run. run.at ≤ length text.now) }
    ensures further { IfSome result (λ run. run.closed ≡ true → at < run.at) }
    ensures copied { IfSome result (λ run. draft.new.from ≤ run.at) }
    ensures names { OnSome result (names_in text.now draft.new.names ≡ names_in text.now draft.old.names) }
    ensures goes_on { IfSome result (λ run. run.closed ≡ false → (levels : ℕ) (rest after : List ℕ)
        → ItemsFrom levels (after_white (drop run.at text.now)) rest
        (shown draft.new.line text.now draft.new.from run.at) after
        → ItemsFrom levels (after_white (drop at text.now)) rest
        (shown draft.old.line text.now draft.old.from at) after) }
    ensures closes { IfSome result (λ run. run.closed ≡ true → (levels : ℕ)
        → ItemsFrom levels (after_white (drop at text.now)) (drop run.at text.now)
        (shown draft.old.line text.now draft.old.from at)
        (shown draft.new.line text.now draft.new.from run.at)) }
{
    let mut i = at;
    'numbers: loop {
        let stop = integer_end(text, i);
        if i == stop || stop == text.len() {
            return Some(NumbersEnd {
                at: i,
                closed: false,
            });
        }
        if text[stop] == b']' {
            return Some(NumbersEnd {
                at: stop + 1,
                closed: true,
            });
        }
        if text[stop] != b',' {
            return Some(NumbersEnd {
                at: i,
                closed: false,
            });
        }
        i = past_blank(text, stop + 1, draft)?;
    }
}

/// Leaves out a blank that stands before an item: where to go on.
#[inline(always)]
fn past_blank(text: &[u8], at: usize, draft: &mut Draft) -> Option<usize>
    requires copied { draft.old.from ≤ at }
    requires within { at ≤ length text.now }
    ensures onward { IfSome result (λ next. at ≤ next) }
    ensures within { IfSome result (λ next. next ≤ length text.now) }
    ensures copied { IfSome result (λ next. draft.new.from ≤ next) }
    ensures names { OnSome result (names_in text.now draft.new.names ≡ names_in text.now draft.old.names) }
    ensures goes_on { IfSome result (λ next. (levels : ℕ) (rest after : List ℕ)
        → ItemsFrom levels (after_white (drop next text.now)) rest
        (shown draft.new.line text.now draft.new.from next) after
        → ItemsFrom levels (after_white (drop at text.now)) rest
        (shown draft.old.line text.now draft.old.from at) after) }
{
    if at == text.len() || text[at] != b' ' {
        return Some(at);
    }
    copy_to(text, at, at + 1, draft)?;
    Some(at + 1)
}

/// Goes on after an item that ends at `at`, with so many arrays open: over brackets that close them, and a comma.
#[inline(always)]
pub(super) fn after_item(
    text: &[u8],
    at: usize,
    depth: usize,
    draft: &mut Draft,
) -> Option<ItemPlace>
    requires copied { draft.old.from ≤ at }
    requires within { at ≤ length text.now }
    ensures onward { IfSome result (λ next. at ≤ next.at) }
    ensures within { IfSome result (λ next. next.at ≤ length text.now) }
    ensures copied { IfSome result (λ next. draft.new.from ≤ next.at) }
    ensures fewer { IfSome result (λ next. next.depth ≤ depth) }
    ensures names { OnSome result (names_in text.now draft.new.names ≡ names_in text.now draft.old.names) }
    ensures goes_on { IfSome result (λ next. (total : ℕ) (rest after : List ℕ)
        → ItemIsNext next.depth total (drop next.at text.now) rest
        (shown draft.new.line text.now draft.new.from next.at) after
        → ItemWasTaken depth total (drop at text.now) rest
        (shown draft.old.line text.now draft.old.from at) after) }
{
    let mut end = at;
    let mut left = depth;
    'closing: while left > 0 {
        let place = skip(text, end, draft);
        if place == text.len() {
            return None;
        }
        if text[place] == b',' {
            return Some(ItemPlace {
                at: place + 1,
                depth: left,
            });
        }
        if text[place] != b']' {
            return None;
        }
        left -= 1;
        end = place + 1;
    }
    Some(ItemPlace { at: end, depth: 0 })
}

/// Whether an array with an item begins at `at`, and no white space stands in it before that.
#[inline(always)]
pub(super) fn opens_array(text: &[u8], at: usize) -> bool
    requires { at < length text.now }
    ensures { IsTrue result → slice_index text.now at ≡ open_bracket }
{
    if text[at] != b'[' {
        return false;
    }
    at + 1 < text.len() && text[at + 1] > b' ' && text[at + 1] != b']'
}
