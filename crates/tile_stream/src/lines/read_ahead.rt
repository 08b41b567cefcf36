//! A reader, and what was read from it and not taken yet, in a buffer that grows where it must.
ghost use Rattle.std.specs.Prelude.{◌≡◌, ◌≤◌, ◌<◌, ◌-◌, ◌+◌, ◌^◌, ◌↔◌, ℕ, true, false, [], length, take, drop, slice_index, slice_range, vec_len, IfOk, IfErr, OnOk, OnErr, IsTrue};
ghost use Rattle.std.specs.Vec.{VecUnchanged};
ghost use Rattle.byte_streams.specs.Failures.{after_call};
ghost use Rattle.byte_streams.specs.Source.{GivesFirst};
ghost use Rattle.tile_stream.specs.Stretches.{HasNoNewline, IsFillFault, ReadsMore, failed_reads_after_call};
ghost use Rattle.tile_stream.specs.Whole.{EndsTexts, HoldsLine, is_blank_or_newline};

use crate::lines::stretches::is_blank;
use byte_streams::limits::MAX_PIECE_BYTES;
use byte_streams::{Fault, Source};
use memchr::memrchr;
use std::alloc::{AllocError, Global};
use std::marker::Model;

/// In bytes: how long a buffer may be that is kept once the line was left that it grew for. 256 KiB, our own choice:
/// lines of up to some 100 kB find their room there, and longer ones hoard nothing.
const MAX_KEPT_BYTES: usize = 4 * MAX_PIECE_BYTES;

/// A reader, and the bytes that were read and not taken yet: those of `piece` from `at` to `filled`.
#[derive(Debug, Drop)]
pub struct ReadAhead<R> {
    reader: R,
    // as long as it was ever filled since it was made
    piece: Vec<u8>,
    at: usize,
    filled: usize,
    // after the last byte of a line that is not blank and ends among those that are held, or not after `at`
    texts: usize,
}

impl<R> Model for ReadAhead<R> {
    ghost use Rattle.std.specs.Prelude.{◌≤◌, ◌-◌, slice_range, vec_len};
    ghost use Rattle.tile_stream.specs.Ahead.{Ahead};
    ghost use Rattle.tile_stream.specs.Whole.{EndsTexts};

    ghost Value = { Ahead R };

    ghost view = { λ a. record {
      reader = a.reader;
      held = slice_range a.piece.items a.at a.filled;
    } };

    ghost invariant = { λ a. (a.at ≤ a.filled) × (a.filled ≤ vec_len a.piece)
        × EndsTexts (slice_range a.piece.items a.at a.filled) (a.texts - a.at) };
}

impl<R: Source> ReadAhead<R> {
    /// Nothing is read yet, and no memory taken.
    pub fn new(alloc: Global, reader: R) -> ReadAhead<R>
        ensures { result ≡ record { reader = reader; held = [] } }
    {
        ReadAhead {
            reader,
            piece: Vec::new(alloc),
            at: 0,
            filled: 0,
            texts: 0,
        }
    }

    /// The bytes that were read and not taken yet.
    pub fn held(&self) -> &[u8]
        ensures { result.now ≡ self.now.held }
    {
        &self.piece[self.at..self.filled]
    }

    /// Whether a line that is not blank ends among the bytes that are held.
    pub fn holds_line(&self) -> bool
        ensures { IsTrue result ↔ HoldsLine self.now.held }
    {
        self.at < self.texts
    }

    /// Takes the first of the bytes that are held, and gives a large buffer back where few are left.
    pub fn skip(&mut self, alloc: Global, count: usize)
        requires { count ≤ length self.old.held }
        ensures { self.new ≡ record self.old { held = drop count self.old.held } }
    {
        self.at += count;
        self.shrink(alloc);
    }

    /// Gives a large buffer back where few bytes are held, unless there is no memory for these.
    fn shrink(&mut self, alloc: Global)
        ensures { self.new ≡ self.old }
    {
        if self.piece.len() <= MAX_KEPT_BYTES || self.filled - self.at > MAX_PIECE_BYTES {
            return;
        }
        let Ok(mut piece) = Vec::with_capacity(alloc, 2 * MAX_PIECE_BYTES) else {
            return;
        };
        let Ok(()) = piece.extend_from_slice(&self.piece[self.at..self.filled]) else {
            return;
        };
        self.piece = piece;
        self.texts = self.texts.saturating_sub(self.at);
        self.filled -= self.at;
        self.at = 0;
    }

    /// One read, after the bytes that are held, among which no line ends. Returns how many bytes came, which is 0 at
    /// the end.
    ///
    /// # Errors
    ///
    /// `Read` where the read failed, and `Memory` where there was no memory to read into. What is held stays.
    pub fn fill(&mut self) -> Result<usize, Fault>
        requires { HasNoNewline self.old.held }
        ensures more { IfOk result (λ count. ReadsMore R.gives self.old self.new count) }
        ensures end { IfOk result (λ count. count ≡ 0 → R.gives self.old.reader [] false) }
        ensures failed { IfErr result (λ fault. fault ≡ Fault.Read
            → R.gives self.old.reader [] true) }
        ensures kind { IfErr result IsFillFault }
        ensures held { OnErr result (self.new.held ≡ self.old.held) }
        ensures kept { IfErr result (λ fault. fault ≡ Fault.Memory → self.new ≡ self.old) }
        ensures failures { R.failures self.new.reader
            ≡ failed_reads_after_call result (R.failures self.old.reader) }
    {
        make_room(&mut self.piece, self.at, self.filled)?;
        let held = self.filled - self.at;
        self.at = 0;
        self.filled = held;
        self.texts = 0;
        let count = read_after(&mut self.reader, &mut self.piece, held)?;
        self.filled = held + count;
        self.texts = texts_end(&self.piece[..self.filled], held);
        Ok(count)
    }
}

/// Makes room after the bytes from `at` to `filled`: they are moved to the front, or, where they stand there, the buffer
/// grows if it is full, by 64 KiB.
fn make_room(piece: &mut Vec<u8>, at: usize, filled: usize) -> Result<(), AllocError>
    requires order { at ≤ filled }
    requires filled { filled ≤ vec_len piece.old }
    ensures front { OnOk result (take (filled - at) piece.new.items
        ≡ slice_range piece.old.items at filled) }
    ensures room { OnOk result (filled - at < vec_len piece.new) }
    ensures stays { filled - at < vec_len piece.old → vec_len piece.new ≡ vec_len piece.old }
    ensures most { vec_len piece.new ≤ vec_len piece.old + MAX_PIECE_BYTES }
    ensures err { OnErr result (VecUnchanged piece.old piece.new) }
{
    if at > 0 {
        piece.copy_within(at..filled, 0);
        return Ok(());
    }
    if filled < piece.len() {
        return Ok(());
    }
    piece.resize(filled + MAX_PIECE_BYTES, 0)
}

/// One read into what stands after the first `held` bytes, which stay, of at most 64 KiB.
fn read_after<R: Source>(reader: &mut R, piece: &mut [u8], held: usize) -> Result<usize, Fault>
    requires { held < length piece.old }
    ensures front { take held piece.new ≡ take held piece.old }
    ensures length { length piece.new ≡ length piece.old }
    ensures bound { IfOk result (λ count. held + count ≤ length piece.new) }
    ensures most { IfOk result (λ count. count ≤ MAX_PIECE_BYTES) }
    ensures given { IfOk result (λ count. GivesFirst (R.gives reader.old) (R.gives reader.new)
        (take count (drop held piece.new))) }
    ensures end { IfOk result (λ count. count ≡ 0 → R.gives reader.old [] false) }
    ensures failure { OnErr result (R.gives reader.old [] true) }
    ensures failures { R.failures reader.new ≡ after_call result (R.failures reader.old) }
    ensures fault { IfErr result (λ fault. fault ≡ Fault.Read) }
{
    let end = piece.len().min(held + MAX_PIECE_BYTES);
    reader.read(&mut piece[held..end])
}

/// Whether a byte may stand in a blank line, or ends a line.
fn is_blank_or_newline(byte: u8) -> bool
    ensures { result ≡ is_blank_or_newline byte }
{
    byte == b'\n' || is_blank(&[byte])
}

/// The place after the last byte before `end` that is not white, or 0 where there is none.
fn full_end(bytes: &[u8], end: usize) -> usize
    requires { end ≤ length bytes.now }
    ensures within { result ≤ end }
    ensures full { 0 < result → is_blank_or_newline (slice_index bytes.now (result - 1)) ≡ false }
    ensures white { (i : ℕ) → result ≤ i → i < end → is_blank_or_newline (slice_index bytes.now i) ≡ true }
{
    let mut at = end;
    'bytes: while at > 0 && is_blank_or_newline(bytes[at - 1]) {
        at -= 1;
    }
    at
}

/// The place after the last byte of a line that is not blank and that a newline ends, or 0 where there is none. No
/// newline stands among the first `seen` bytes.
fn texts_end(bytes: &[u8], seen: usize) -> usize
    requires within { seen ≤ length bytes.now }
    requires seen { HasNoNewline (take seen bytes.now) }
    ensures { EndsTexts bytes.now result }
{
    match memrchr(b'\n', &bytes[seen..]) {
        Some(last) => full_end(bytes, seen + last),
        None => 0,
    }
}
