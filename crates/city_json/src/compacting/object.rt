//! The compact text of an object, which stays where it was read where it is compact already.
ghost use Rattle.std.specs.Prelude.{◌≡◌, ◌≤◌, ℕ, List, [], Err, length, IfErr, IfNone, IfOk, IfSome, IsUtf8, OnOk};
ghost use Rattle.city_json.specs.Compacting.{shown};
ghost use Rattle.city_json.specs.Depth.{IsDeep};
ghost use Rattle.city_json.specs.ListedNames.{names_in};
ghost use Rattle.city_json.specs.ObjectTexts.{SpellsThere};
ghost use Rattle.city_json.specs.Refusals.{RefusesText};
ghost use Rattle.city_json.specs.SpelledObjects.{SpellsObject, SpellsOther};
ghost use Rattle.city_json.specs.TextPlace.{placed_text};
ghost use Rattle.city_json.specs.Triples.{HasTriples};

use super::draft::{Draft, copy_to, skip_white, white_end};
use super::floor::told_object;
use super::parts::members;
use super::places::{MemberPlace, Span};
use super::workspace::Workspace;
use crate::object_text::ObjectText;
use byte_streams::limits::MAX_DEPTH;
use byte_streams::{Fault, Line};
use std::alloc::{AllocError, Global};

/// Where a compact text stands.
#[derive(Clone, Copy, Debug, PartialEq, Eq)]
pub enum TextPlace {
    /// Where it was read: it is the text that was read, up to this place, in bytes from its beginning.
    Read(usize),
    /// In the buffer that was given for it.
    Written,
}

impl TextPlace {
    /// The text that stands there, of what was read and the buffer that was given for it.
    pub fn bytes<'a>(&self, read: &'a [u8], buffer: &'a Line) -> &'a [u8]
        ensures { result.now ≡ placed_text self.now read.now buffer.now }
    {
        match *self {
            TextPlace::Read(end) => &read[..end.min(read.len())],
            TextPlace::Written => buffer.items(),
        }
    }

    /// Puts the text into the buffer, where it does not stand there already. Out of memory, the buffer is lost.
    pub fn copy_to_buffer(self, read: &[u8], buffer: &mut Line) -> Result<(), AllocError>
        ensures { OnOk result (buffer.new ≡ placed_text self read.now buffer.old) }
    {
        match self {
            TextPlace::Read(end) => {
                buffer.truncate(0);
                buffer.append(&read[..end.min(read.len())])
            }
            TextPlace::Written => Ok(()),
        }
    }

    /// The text in the memory in which it stands; the other memory is dropped. Room after a text that stands where it
    /// was read is given back.
    pub fn into_line(self, read: Vec<u8>, buffer: Line) -> Line
        ensures { result ≡ placed_text self read.items buffer }
    {
        let TextPlace::Read(end) = self else {
            return buffer;
        };
        let mut bytes = read;
        bytes.truncate(end);
        bytes.shrink_to_fit();
        Line::from_vec(bytes)
    }
}

/// Where the compact text of an object stands, where each of its members lies in it, in their order, and where in it an
/// array stands of arrays of three whole numbers each, as the vertices of a feature are (CityJSON 2.0, CityJSONFeature).
/// Whose value these triples are is not promised, nor that some are noted where there are any; who uses them compares
/// the places.
#[derive(Debug, Drop)]
pub struct CompactObject {
    pub place: TextPlace,
    pub parts: Vec<MemberPlace>,
    pub triples: Span,
}

impl CompactObject {
    /// The compact text with its members; `read` is the text that was read, and `buffer` that of the workspace.
    pub fn text<'a>(&'a self, read: &'a [u8], buffer: &'a Line) -> ObjectText<'a>
        requires { (spelled : List ℕ)
            × SpellsObject spelled (placed_text self.now.place read.now buffer.now) self.now.parts.items }
        ensures is { result
            ≡ record { text = placed_text self.now.place read.now buffer.now; parts = self.now.parts.items } }
        ensures spelled { (spelled : List ℕ)
            → SpellsObject spelled (placed_text self.now.place read.now buffer.now) self.now.parts.items
            → SpellsThere spelled result }
    {
        ObjectText::new(self.place.bytes(read, buffer), &self.parts)
    }
}

/// The compact text of the object that a text spells; none where it spells a value that is no object. The text stays where
/// it was read where white space stands at its end alone, no name in it has an escape, and each escape in another string is
/// a letter's, in the one spelling; else it stands in the buffer of the workspace, which is taken for all its memory. The
/// parts are in that, too, until [`Workspace::take_back`] takes them back.
///
/// # Errors
///
/// Those of [`read`](crate::read), in the same order. [`Fault::NotUtf8`] and [`Fault::TooDeep`] come whatever memory there
/// is, though room may be asked for before they are told; [`Fault::Memory`] may stand in place of the others, and of an
/// answer.
pub fn compact_object(
    alloc: Global,
    text: &[u8],
    workspace: &mut Workspace,
) -> Result<Option<CompactObject>, Fault>
    ensures object { IfOk result (λ found. IfSome found (λ found.
        SpellsObject text.now (placed_text found.place text.now workspace.new.line) found.parts.items)) }
    ensures triples { IfOk result (λ found. IfSome found (λ found.
        HasTriples (placed_text found.place text.now workspace.new.line) found.triples)) }
    ensures other { IfOk result (λ found. IfNone found (SpellsOther text.now)) }
    ensures refused { IfErr result (λ fault. RefusesText fault text.now) }
    ensures not_utf8 { (¬ IsUtf8 text.now) → result ≡ Err Fault.NotUtf8 }
    ensures too_deep { IsUtf8 text.now → IsDeep text.now → result ≡ Err Fault.TooDeep }
{
    if let Some(object) = passed_object(alloc, text, workspace) {
        return Ok(Some(object));
    }
    told_object(alloc, text, workspace)
}

/// The same in one pass, which copies what is in its compact spelling. None where the text spells no object that is taken,
/// or memory is out; which of them it is [`told_object`] tells.
fn passed_object(alloc: Global, text: &[u8], workspace: &mut Workspace) -> Option<CompactObject>
    ensures object { IfSome result (λ found.
        SpellsObject text.now (placed_text found.place text.now workspace.new.line) found.parts.items) }
    ensures triples { IfSome result (λ found.
        HasTriples (placed_text found.place text.now workspace.new.line) found.triples) }
{
    let mut draft = workspace.draft(alloc, text.len());
    let parts = workspace.no_parts(alloc)?;
    let WholeObject {
        end,
        parts,
        triples,
    } = pass(text, parts, &mut draft)?;
    let place = place_of(text, end, &mut draft)?;
    workspace.keep(draft);
    Some(CompactObject {
        place,
        parts,
        triples,
    })
}

/// What the pass over a whole text found: where its object ends, where its members lie in what is written, and where
/// triples stand there.
#[derive(Drop)]
struct WholeObject {
    end: usize,
    parts: Vec<MemberPlace>,
    triples: Span,
}

/// Goes over a whole text, of which nothing was written yet. The places of its members come after `parts`.
fn pass(text: &[u8], parts: Vec<MemberPlace>, draft: &mut Draft) -> Option<WholeObject>
    requires no_parts { parts.items ≡ [] }
    requires line { draft.old.line ≡ [] }
    requires from { draft.old.from ≡ 0 }
    requires names { names_in text.now draft.old.names ≡ [] }
    ensures object { IfSome result (λ found.
        SpellsObject text.now (shown draft.new.line text.now draft.new.from found.end) found.parts.items) }
    ensures copied { IfSome result (λ found. draft.new.from ≤ found.end) }
    ensures within { IfSome result (λ found. found.end ≤ length text.now) }
    ensures triples { IfSome result (λ found.
        HasTriples (shown draft.new.line text.now draft.new.from found.end) found.triples) }
{
    if !simdutf8::is_utf8(text) {
        return None;
    }
    let mut parts = parts;
    let mut triples = Span { from: 0, end: 0 };
    let at = skip_white(text, 0, draft)?;
    if at == text.len() || text[at] != b'{' {
        return None;
    }
    let levels = MAX_DEPTH - 1;
    let end = members(text, at + 1, levels, draft, &mut parts, &mut triples)?;
    if white_end(text, end) < text.len() {
        return None;
    }
    Some(WholeObject {
        end,
        parts,
        triples,
    })
}

/// Where the text stands that a draft shows up to this place: where it was read, if nothing was written.
fn place_of(text: &[u8], end: usize, draft: &mut Draft) -> Option<TextPlace>
    requires copied { draft.old.from ≤ end }
    requires within { end ≤ length text.now }
    ensures { IfSome result (λ place. placed_text place text.now draft.new.line
        ≡ shown draft.old.line text.now draft.old.from end) }
{
    if draft.from == 0 && draft.line.items().is_empty() {
        return Some(TextPlace::Read(end));
    }
    copy_to(text, end, end, draft)?;
    Some(TextPlace::Written)
}
