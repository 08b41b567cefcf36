//! Boundaries copied with labels of their own at their leaves.
ghost use Rattle.std.specs.Prelude.{◌≡◌, ◌<◌, ◌≤◌, ◌++◌, ◌-◌, ℕ, length, drop, slice_range, slice_index, IfSome, OnSome, IsTrue, ◌⊎◌};
ghost use Rattle.std.specs.Fmt.{decimal};
ghost use Rattle.city_json.specs.Bytes.{comma, close_bracket};
ghost use Rattle.city_json.specs.Compacting.{shown};
ghost use Rattle.city_families.specs.Copied.{CopiesItems, CopiesPart};
ghost use Rattle.cut_on_text.specs.NumberWalks.{NumberLabelled};
ghost use Rattle.cut_on_text.specs.Walks.{Labelling, Walks};

use super::numbers::{append_between, append_number};
use city_families::Numbering;
use city_grid::{byte_is, number_at};
use city_json::Line;
use std::alloc::Global;

/// What is written so far: a line, and after it the text from `from` on, which is still to be copied.
#[derive(Drop)]
pub(super) struct CopyDraft {
    pub line: Line,
    pub from: usize,
}

/// Whether an item ends at a place.
#[inline(always)]
fn ends_item(text: &[u8], at: usize) -> bool
    ensures { IsTrue result → (at < length text.now)
        × ((slice_index text.now at ≡ comma) ⊎ (slice_index text.now at ≡ close_bracket)) }
{
    if byte_is(text, at, b',') {
        return true;
    }
    byte_is(text, at, b']')
}

/// Copies the text up to the byte before `at`.
#[inline(always)]
fn put_front(text: &[u8], at: usize, draft: &mut CopyDraft) -> Option<()>
    requires some { draft.old.from < at }
    requires within { at ≤ length text.now }
    ensures { OnSome result (draft.new.line ≡ shown draft.old.line text.now draft.old.from (at - 1)) }
{
    if at - draft.from == 1 {
        return Some(());
    }
    append_between(text, draft.from, at - 1, &mut draft.line)
}

/// Copies the text up to `at`, and writes a number.
#[inline(always)]
fn put_number(text: &[u8], at: usize, number: usize, draft: &mut CopyDraft) -> Option<()>
    requires { at ≤ length text.now }
    ensures { OnSome result (draft.new.line ≡ shown draft.old.line text.now draft.old.from at ++ decimal number) }
{
    if draft.from >= at {
        return None;
    }
    put_front(text, at, draft)?;
    append_number(text[at - 1], number, &mut draft.line)
}

/// What is put in place of the leaves of boundaries that are copied.
pub(super) trait Labels {
    // How many vertices there are.
    ghost count: { Self → ℕ };

    // What was done at a leaf.
    ghost labelled: { Labelling Self };

    /// How many vertices there are.
    fn count(&self) -> usize
        ensures { result ≡ count self.now };

    /// Copies the text up to `at`, and puts a vertex's label there.
    fn label(&mut self, text: &[u8], at: usize, vertex: usize, draft: &mut CopyDraft) -> Option<()>
        requires within { at ≤ length text.now }
        requires known { vertex < count self.old }
        ensures count { OnSome result (count self.new ≡ count self.old) }
        ensures labelled { OnSome result (labelled self.old
            (shown draft.old.line text.now draft.old.from at) self.new draft.new.line vertex) };
}

/// Each vertex has the number that it has, or the next one.
impl Labels for Numbering {
    ghost count = { λ numbering. length numbering.table.items };

    ghost labelled = { NumberLabelled };

    #[inline(always)]
    fn count(&self) -> usize {
        self.table.len()
    }

    #[inline(always)]
    fn label(
        &mut self,
        text: &[u8],
        at: usize,
        vertex: usize,
        draft: &mut CopyDraft,
    ) -> Option<()> {
        let Ok(_) = self.note(vertex) else {
            return None;
        };
        put_number(text, at, self.table[vertex], draft)
    }
}

/// Boundaries that are copied: what is written so far, and what is put in place of their leaves.
#[derive(Drop)]
pub(super) struct Copier<L> {
    pub alloc: Global,
    pub draft: CopyDraft,
    pub labels: L,
}

/// The leaf at `at`: where it ends.
#[inline(always)]
fn copy_leaf<L: Labels>(text: &[u8], at: usize, copier: &mut Copier<L>) -> Option<usize>
    requires { at ≤ length text.now }
    ensures onward { IfSome result (λ end. at < end) }
    ensures within { IfSome result (λ end. end ≤ length text.now) }
    ensures copied { IfSome result (λ end. copier.new.draft.from ≤ end) }
    ensures count { OnSome result (L.count copier.new.labels ≡ L.count copier.old.labels) }
    ensures made { IfSome result (λ end. CopiesPart (L.count copier.old.labels)
        (drop at text.now) (drop end text.now) (Walks L.labelled copier.old.labels
        (shown copier.old.draft.line text.now copier.old.draft.from at) copier.new.labels
        (shown copier.new.draft.line text.now copier.new.draft.from end))) }
{
    let digits = number_at(text, at)?;
    if !ends_item(text, digits.end) {
        return None;
    }
    if digits.size >= copier.labels.count() as u64 {
        return None;
    }
    let vertex = digits.size as usize;
    copier.labels.label(text, at, vertex, &mut copier.draft)?;
    copier.draft.from = digits.end;
    Some(digits.end)
}

/// A part of a boundary at `at`: where it ends.
#[cycle(copy)]
fn copy_part<L: Labels>(
    text: &[u8],
    at: usize,
    levels: usize,
    copier: &mut Copier<L>,
) -> Option<usize>
    requires within { at ≤ length text.now }
    requires copied { copier.old.draft.from ≤ at }
    ensures onward { IfSome result (λ end. at < end) }
    ensures within { IfSome result (λ end. end ≤ length text.now) }
    ensures copied { IfSome result (λ end. copier.new.draft.from ≤ end) }
    ensures count { OnSome result (L.count copier.new.labels ≡ L.count copier.old.labels) }
    ensures made { IfSome result (λ end. CopiesPart (L.count copier.old.labels)
        (drop at text.now) (drop end text.now) (Walks L.labelled copier.old.labels
        (shown copier.old.draft.line text.now copier.old.draft.from at) copier.new.labels
        (shown copier.new.draft.line text.now copier.new.draft.from end))) }
{
    if !byte_is(text, at, b'[') {
        return copy_leaf(text, at, copier);
    }
    if levels == 0 {
        return None;
    }
    copy_items(text, at + 1, levels - 1, copier)
}

/// The parts after an opening bracket, and the closing one: where it ends.
#[cycle(copy)]
pub(super) fn copy_items<L: Labels>(
    text: &[u8],
    at: usize,
    levels: usize,
    copier: &mut Copier<L>,
) -> Option<usize>
    requires within { at ≤ length text.now }
    requires copied { copier.old.draft.from ≤ at }
    ensures onward { IfSome result (λ end. at < end) }
    ensures within { IfSome result (λ end. end ≤ length text.now) }
    ensures copied { IfSome result (λ end. copier.new.draft.from ≤ end) }
    ensures count { OnSome result (L.count copier.new.labels ≡ L.count copier.old.labels) }
    ensures made { IfSome result (λ end. CopiesItems (L.count copier.old.labels)
        (drop at text.now) (drop end text.now) (Walks L.labelled copier.old.labels
        (shown copier.old.draft.line text.now copier.old.draft.from at) copier.new.labels
        (shown copier.new.draft.line text.now copier.new.draft.from end))) }
{
    if byte_is(text, at, b']') {
        return Some(at + 1);
    }
    let mut i = at;
    'items: loop {
        let end = copy_part(text, i, levels, copier)?;
        if byte_is(text, end, b']') {
            return Some(end + 1);
        }
        if !byte_is(text, end, b',') {
            return None;
        }
        i = end + 1;
    }
}
