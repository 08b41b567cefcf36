//! Bytes that are written one after another, in room that is made ahead of them.
ghost use Rattle.std.specs.Prelude.{◌≡◌, ◌++◌, ◌+◌, ◌≤◌, [], false, length, take, IsTrue, OnSome};
ghost use Rattle.city_json.specs.Compacting.{shown};

use byte_streams::Line;
use std::marker::Model;
use std::simd::prelude::*;

/// At most so many bytes are few, and are copied by one move of as many.
pub(super) const SHORT: usize = 16;

/// Where there is too little room, so much more is made than is wanted at once.
const AHEAD: usize = 1024;

/// What is written so far, and the room after it, in which any bytes stand: few bytes are written by a move of
/// [`SHORT`], and those that are too many are written over.
#[derive(Drop)]
pub(super) struct Written {
    room: Vec<u8>,
    len: usize,
}

impl Model for Written {
    ghost use Rattle.std.specs.Prelude.{List, ℕ, ◌≤◌, length, take};

    ghost Value = { List ℕ };

    ghost view = { λ written. take written.len written.room.items };

    ghost invariant = { λ written. written.len ≤ length written.room.items };
}

impl Written {
    /// Nothing yet, in the memory of a line. What the line held is dropped.
    pub(super) fn in_memory(line: Line) -> Written
        ensures { result ≡ [] }
    {
        Written {
            room: line.into_vec(),
            len: 0,
        }
    }

    /// The bytes, without the room after them.
    pub(super) fn into_line(self) -> Line
        ensures { result ≡ self }
    {
        let Written { room, len } = self;
        let mut bytes = room;
        bytes.truncate(len);
        Line::from_vec(bytes)
    }

    #[inline(always)]
    pub(super) fn len(&self) -> usize
        ensures { result ≡ length self.now }
    {
        self.len
    }

    pub(super) fn items(&self) -> &[u8]
        ensures { result.now ≡ self.now }
    {
        &self.room[..self.len]
    }

    /// Appends the bytes of a text from `from` on up to `at`, where there is room for [`SHORT`]; `false`: there is none.
    #[inline(always)]
    pub(super) fn append_short(&mut self, text: &[u8], from: usize, at: usize) -> bool
        requires order { from ≤ at }
        requires few { at ≤ from + 16 }
        requires within { from + 16 ≤ length text.now }
        ensures appended { IsTrue result → self.new ≡ shown self.old text.now from at }
        ensures full { result ≡ false → self.new ≡ self.old }
    {
        let len = self.len;
        if self.room.len() - len < SHORT {
            return false;
        }
        u8x16::from_slice(&text[from..]).copy_to_slice(&mut self.room.as_mut_slice()[len..]);
        self.len = len + (at - from);
        true
    }

    /// Appends any bytes, and makes room where there is too little. `None`: out of memory.
    pub(super) fn append(&mut self, bytes: &[u8]) -> Option<()>
        ensures { OnSome result (self.new ≡ self.old ++ bytes.now) }
    {
        let len = self.len;
        let end = len.checked_add(bytes.len())?;
        make_room(&mut self.room, end)?;
        self.room.as_mut_slice()[len..end].copy_from_slice(bytes);
        self.len = end;
        Some(())
    }
}

/// Makes the room longer where it is shorter than `end`. What stood in it stays.
fn make_room(room: &mut Vec<u8>, end: usize) -> Option<()>
    ensures long { OnSome result (end ≤ length room.new.items) }
    ensures longer { length room.old.items ≤ length room.new.items }
    ensures stays { room.old.items ≡ take (length room.old.items) room.new.items }
{
    if end > room.len() {
        room.resize(end.checked_add(AHEAD)?, 0).ok()?;
    }
    Some(())
}
