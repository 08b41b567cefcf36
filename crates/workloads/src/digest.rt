use byte_streams::{Fault, Sink};
use memchr::memchr;
use std::alloc::{AllocError, Global};

/// How many bytes wait at most until they are digested: a multiple of the lanes' bytes, and few enough
/// for the processor's nearest cache.
const ROOM: usize = 16 * 1024;

/// How many bytes the lanes take at once.
const STEP: usize = 64;

/// Eight numbers, each of which takes every eighth word of eight bytes.
type Lanes = [u64; 8];

const LANES: Lanes = [
    0x243f_6a88_85a3_08d3,
    0x1319_8a2e_0370_7344,
    0xa409_3822_299f_31d0,
    0x082e_fa98_ec4e_6c89,
    0x4528_21e6_38d0_1377,
    0xbe54_66cf_34e9_0c6c,
    0xc0ac_29b7_c97c_50dd,
    0x3f84_d5b5_b547_0917,
];

/// What a digest is of.
#[derive(Clone, Copy, PartialEq, Eq)]
pub(crate) enum Order {
    /// The bytes as they were written, however they were cut.
    AsWritten,
    /// The lines, in whatever order they stand.
    Any,
}

/// Takes what is written, and gives a digest of it.
#[derive(Drop)]
pub(crate) struct Output {
    held: Vec<u8>,
    order: Order,
    lanes: Lanes,
    digested: u64,
    failures: u64,
}

/// What was written.
#[derive(Clone, Copy)]
pub(crate) struct Written {
    pub(crate) bytes: u64,
    pub(crate) digest: u64,
}

impl Output {
    ghost use Rattle.std.specs.Prelude.{◌≡◌, ◌≤◌, length};

    pub(crate) fn new(alloc: Global, order: Order) -> Result<Output, AllocError> {
        Ok(Output {
            held: Vec::with_capacity(alloc, ROOM)?,
            order,
            lanes: LANES,
            digested: 0,
            failures: 0,
        })
    }

    /// Takes the first bytes, as many as there is room for, and answers how many.
    fn take(&mut self, from: &[u8]) -> usize
        ensures bound { result ≤ length from.now }
        ensures failures { self.new.failures ≡ self.old.failures }
    {
        let mut taken = from;
        if self.order == Order::AsWritten {
            self.make_room();
            taken = &from[..from.len().min(ROOM.saturating_sub(self.held.len()))];
        }
        match self.held.extend_from_slice(taken) {
            Ok(()) => taken.len(),
            Err(_) => 0,
        }
    }

    fn make_room(&mut self)
        ensures { self.new.failures ≡ self.old.failures }
    {
        if self.held.len() >= ROOM {
            self.lanes = folded(self.lanes, &self.held);
            self.digested = self.digested.wrapping_add(ROOM as u64);
            self.held.clear();
        }
    }

    /// What was written since the start, or since this was asked before.
    pub(crate) fn end(&mut self) -> Written {
        let bytes = self.digested.wrapping_add(self.held.len() as u64);
        let digest = match self.order {
            Order::AsWritten => summed(with_rest(self.lanes, &self.held), bytes),
            Order::Any => lines_digest(&self.held),
        };
        self.held.clear();
        self.lanes = LANES;
        self.digested = 0;
        Written { bytes, digest }
    }
}

impl Sink for Output {
    ghost use Rattle.std.specs.Prelude.{None};

    ghost taken = { λ _. None };

    ghost is_flushed = { λ _. Unit {0} };

    ghost failures = { λ output. output.failures };

    fn write(&mut self, from: &[u8]) -> Result<usize, Fault> {
        let count = self.take(from);
        if count == 0 && !from.is_empty() {
            self.failures = self.failures.saturating_add(1);
        }
        Ok(count)
    }

    fn flush(&mut self) -> Result<(), Fault> {
        Ok(())
    }
}

/// The sum of the digests of the lines.
fn lines_digest(text: &[u8]) -> u64 {
    let mut sum = 0u64;
    let mut rest = text;
    for _ in 0..text.len() {
        let Some(at) = memchr(b'\n', rest) else {
            break;
        };
        let (line, after) = rest.split_at(at);
        sum = sum.wrapping_add(summed(with_rest(LANES, line), at as u64));
        rest = &after[1..];
    }
    sum.wrapping_add(summed(with_rest(LANES, rest), rest.len() as u64))
}

/// The lanes after the bytes, and zeros up to a whole step.
fn with_rest(lanes: Lanes, bytes: &[u8]) -> Lanes {
    let (steps, rest) = bytes.split_at(bytes.len() - bytes.len() % STEP);
    let mut last = [0u8; STEP];
    for (to, from) in last.iter_mut().zip(rest) {
        *to = *from;
    }
    folded(folded(lanes, steps), &last)
}

/// The lanes after the bytes, but for those after the last whole step.
fn folded(lanes: Lanes, bytes: &[u8]) -> Lanes {
    let [mut a, mut b, mut c, mut d, mut e, mut f, mut g, mut h] = lanes;
    let (words, _) = bytes.as_chunks::<8>();
    let (steps, _) = words.as_chunks::<8>();
    for step in steps {
        a = carried(a, &step[0]);
        b = carried(b, &step[1]);
        c = carried(c, &step[2]);
        d = carried(d, &step[3]);
        e = carried(e, &step[4]);
        f = carried(f, &step[5]);
        g = carried(g, &step[6]);
        h = carried(h, &step[7]);
    }
    [a, b, c, d, e, f, g, h]
}

/// A lane after a word: a step of a multiply-with-carry generator, whose product of two halves the
/// processor can make for several lanes at once.
#[inline(always)]
fn carried(lane: u64, word: &[u8; 8]) -> u64 {
    let both = lane ^ u64::from_le_bytes(*word);
    (both & 0xffff_ffff)
        .wrapping_mul(0xffff_da61)
        .wrapping_add(both >> 32)
}

/// A number that depends on both.
pub(crate) fn stirred(digest: u64, word: u64) -> u64 {
    (digest ^ word)
        .wrapping_mul(0x9e37_79b9_7f4a_7c15)
        .rotate_left(29)
}

/// One number for the lanes of so many bytes.
fn summed(lanes: Lanes, bytes: u64) -> u64 {
    let mut sum = bytes;
    for lane in lanes {
        sum = stirred(sum, lane);
    }
    stirred(sum, bytes)
}
