//! Bytes that grow at their end.
ghost use Rattle.std.specs.Prelude.{◌≡◌, ◌++◌, [], take, OnOk, OnErr};

use crate::limits::MAX_PIECE_BYTES;
use std::alloc::{AllocError, Global};
use std::marker::Model;

/// The bytes of a line, or of any text that grows at its end.
#[derive(Debug, Drop)]
pub struct Line {
    bytes: Vec<u8>,
}

impl Model for Line {
    ghost use Rattle.std.specs.Prelude.{List, ℕ};

    ghost Value = { List ℕ };

    ghost view = { λ line. line.bytes.items };
}

impl Line {
    /// A line with no bytes.
    pub fn new(alloc: Global) -> Line
        ensures { result ≡ [] }
    {
        Line {
            bytes: Vec::new(alloc),
        }
    }

    /// The line of these bytes.
    pub fn from_vec(bytes: Vec<u8>) -> Line
        ensures { result ≡ bytes.items }
    {
        Line { bytes }
    }

    /// Its bytes.
    pub fn into_vec(self) -> Vec<u8>
        ensures { result.items ≡ self }
    {
        self.bytes
    }

    /// Its bytes, lent.
    pub fn items(&self) -> &[u8]
        ensures { result.now ≡ self.now }
    {
        &self.bytes
    }

    /// Adds the bytes at the end. Out of memory, the line is as before.
    pub fn append(&mut self, bytes: &[u8]) -> Result<(), AllocError>
        ensures ok { OnOk result (self.new ≡ self.old ++ bytes.now) }
        ensures err { OnErr result (self.new ≡ self.old) }
    {
        self.bytes.extend_from_slice(bytes)
    }

    /// Makes room for this many bytes more, and asks for no more than that. Out of memory, the room is as before.
    pub fn reserve_exact(&mut self, more: usize) -> Result<(), AllocError>
        ensures { self.new ≡ self.old }
    {
        self.bytes.reserve_exact(more)
    }

    /// Keeps the first bytes, this many at most.
    pub fn truncate(&mut self, len: usize)
        ensures { self.new ≡ take len self.old }
    {
        self.bytes.truncate(len);
    }

    /// Gives memory back of which little is used: more than a quarter of a megabyte, and more than four times the bytes.
    /// Where that is refused, it stays.
    pub fn trim(&mut self)
        ensures { self.new ≡ self.old }
    {
        if self.bytes.capacity() / 4 > self.bytes.len().max(MAX_PIECE_BYTES) {
            self.bytes.shrink_to_fit();
        }
    }
}
