//! Memory that goes from one text to the next.
ghost use Rattle.std.specs.Prelude.{◌≡◌, [], IfSome};

use super::draft::{Draft, new_draft};
use super::name::Name;
use super::names::Names;
use super::places::{COMMON_PARTS, MemberPlace};
use byte_streams::Line;
use std::alloc::Global;
use std::mem;

/// So many places of names or members, or bytes of decoded names, are kept at most: a text with more is rare.
const MAX_KEPT: usize = 4096;

/// Memory for the compact texts of one object after another, so that it is not asked for anew for each: a buffer for a
/// text that is written, and room for the places of names and members.
#[derive(Debug, Drop)]
pub struct Workspace {
    /// The buffer. What it holds is promised only where a compact text was written.
    pub line: Line,
    listed: Vec<Name>,
    held: Vec<u8>,
    parts: Vec<MemberPlace>,
}

impl Workspace {
    /// This buffer, and no room beside it yet.
    pub fn new(alloc: Global, line: Line) -> Workspace
        ensures { result.line ≡ line }
    {
        Workspace {
            line,
            listed: Vec::new(alloc),
            held: Vec::new(alloc),
            parts: Vec::new(alloc),
        }
    }

    /// The buffer, and what it holds. The rest of the memory is given back.
    pub fn into_line(self) -> Line
        ensures { result ≡ self.line }
    {
        self.line
    }

    /// Takes the memory of places that were found in it back. What they say is dropped.
    pub fn take_back(&mut self, parts: Vec<MemberPlace>)
        ensures { self.new.line ≡ self.old.line }
    {
        self.parts = parts;
    }

    /// Gives memory back of which little is used, as [`Line::trim`] does, and the room of a text with many names or
    /// members.
    pub fn trim(&mut self)
        ensures { self.new.line ≡ self.old.line }
    {
        self.line.trim();
        give_back(&mut self.listed);
        give_back(&mut self.held);
        give_back(&mut self.parts);
    }

    /// A draft of a text of this length in this memory, with nothing written.
    pub(super) fn draft(&mut self, alloc: Global, text_len: usize) -> Draft
        ensures line { result.line ≡ [] }
        ensures from { result.from ≡ 0 }
        ensures names { result.names ≡ [] }
    {
        let line = mem::replace(&mut self.line, Line::new(alloc));
        let listed = mem::replace(&mut self.listed, Vec::new(alloc));
        let held = mem::replace(&mut self.held, Vec::new(alloc));
        new_draft(alloc, line, Names::in_memory(text_len, listed, held))
    }

    /// Keeps the memory of a draft, and what was written in it.
    pub(super) fn keep(&mut self, draft: Draft)
        ensures { self.new.line ≡ draft.line }
    {
        let Draft { line, names, .. } = draft;
        let (listed, held) = names.into_memory();
        self.line = line.into_line();
        self.listed = listed;
        self.held = held;
    }

    /// No parts, with room for some.
    pub(super) fn no_parts(&mut self, alloc: Global) -> Option<Vec<MemberPlace>>
        ensures { IfSome result (λ parts. parts.items ≡ []) }
    {
        let mut parts = mem::replace(&mut self.parts, Vec::new(alloc));
        parts.truncate(0);
        parts.reserve(COMMON_PARTS).ok()?;
        Some(parts)
    }
}

/// Gives the room of a list back that has more than is kept.
#[inline(always)]
fn give_back<T: Drop>(room: &mut Vec<T>) {
    if room.capacity() > MAX_KEPT {
        room.truncate(0);
        room.shrink_to_fit();
    }
}
