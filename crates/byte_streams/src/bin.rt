//! A sink in memory, for tests, which may take little at a time, fill up, or fail to flush.
ghost use Rattle.std.specs.Prelude.{◌≡◌, ◌≤◌, ◌↔◌, true, Some, [], length, IfOk, IfErr, IsErr, IsTrue, OnOk, OnErr};
ghost use Rattle.std.specs.Io.KnownBytes.{Keeps, WriteAppends};
ghost use Rattle.byte_streams.specs.Failures.{after_call, after_write};
ghost use Rattle.byte_streams.specs.Bin.{BinState, bin_answer, flushed_after};

use crate::fault::Fault;
use crate::sink::Sink;
use std::alloc::Global;
use std::marker::Model;

/// A sink in memory, for tests: it holds at most `room` bytes, and a write takes at most `step`.
#[derive(Debug, Drop)]
pub struct Bin {
    bytes: Vec<u8>,
    room: usize,
    step: usize,
    flush_fails: bool,
    flushed: bool,
    failures: u64,
}

impl Model for Bin {
    ghost use Rattle.std.specs.Prelude.{◌≤◌, vec_len, vec_capacity};
    ghost use Rattle.byte_streams.specs.Bin.{BinState};

    ghost Value = { BinState };

    ghost view = { λ bin. record { bytes = bin.bytes.items; room = bin.room; step = bin.step; flush_fails = bin.flush_fails; flushed = bin.flushed; failures = bin.failures } };

    ghost invariant = { λ bin. (vec_len bin.bytes ≤ bin.room) × (bin.room ≤ vec_capacity bin.bytes) };
}

impl Bin {
    /// An empty bin, which has the memory for its room from the start.
    ///
    /// # Errors
    ///
    /// `Fault::Memory` where there is not enough memory for `room` bytes.
    pub fn new(alloc: Global, room: usize, step: usize, flush_fails: bool) -> Result<Bin, Fault>
        ensures made { IfOk result (λ bin. bin ≡ record { bytes = []; room = room; step = step; flush_fails = flush_fails; flushed = true; failures = 0 }) }
        ensures fault { IfErr result (λ fault. fault ≡ Fault.Memory) }
    {
        Ok(Bin {
            bytes: Vec::with_capacity(alloc, room)?,
            room,
            step,
            flush_fails,
            flushed: true,
            failures: 0,
        })
    }

    /// The bytes that were taken.
    pub fn bytes(&self) -> &[u8]
        ensures { result.now ≡ self.now.bytes }
    {
        &self.bytes
    }
}

impl Sink for Bin {
    ghost taken = { λ bin. Some bin.bytes };

    ghost is_flushed = { λ bin. bin.flushed ≡ true };

    ghost failures = { λ bin. bin.failures };

    fn write(&mut self, from: &[u8]) -> Result<usize, Fault>
        ensures bound { IfOk result (λ count. count ≤ length from.now) }
        ensures bytes { WriteAppends (Some self.old.bytes) (Some self.new.bytes) result from.now }
        ensures failures { self.new.failures ≡ after_write result from.now self.old.failures }
        ensures fault { IfErr result (λ fault. fault ≡ Fault.Write) }

        // The whole answer; what a bin is made with stays.
        ensures answer { result ≡ bin_answer self.old from.now }
        ensures flushed { self.new.flushed ≡ flushed_after result self.old.flushed }
        ensures same { self.new ≡ record self.old { bytes = self.new.bytes; flushed = self.new.flushed; failures = self.new.failures } }
    {
        if from.is_empty() {
            return Ok(0);
        }
        if self.bytes.len() >= self.room {
            self.failures = self.failures.saturating_add(1);
            return Err(Fault::Write);
        }
        let count = from.len().min(self.room - self.bytes.len()).min(self.step);
        if self.bytes.extend_from_slice(&from[..count]).is_err() {
            unreachable!();
        }
        if count == 0 {
            self.failures = self.failures.saturating_add(1);
            return Ok(0);
        }
        self.flushed = false;
        Ok(count)
    }

    fn flush(&mut self) -> Result<(), Fault>
        ensures bytes { Keeps (Some self.old.bytes) (Some self.new.bytes) }
        ensures flushed { OnOk result (self.new.flushed ≡ true) }
        ensures failures { self.new.failures ≡ after_call result self.old.failures }
        ensures fault { IfErr result (λ fault. fault ≡ Fault.Write) }

        // The whole answer; all but whether it was flushed and the count of failures stays.
        ensures answer { IsErr result ↔ IsTrue self.old.flush_fails }
        ensures unflushed { OnErr result (self.new.flushed ≡ self.old.flushed) }
        ensures same { self.new ≡ record self.old { flushed = self.new.flushed; failures = self.new.failures } }
    {
        if self.flush_fails {
            self.failures = self.failures.saturating_add(1);
            return Err(Fault::Write);
        }
        self.flushed = true;
        Ok(())
    }
}
