//! What takes bytes.
ghost use Rattle.std.specs.Prelude.{◌≡◌, ◌≤◌, ℕ, List, length, Option, IfOk, IfErr, OnOk};
ghost use Rattle.std.specs.Io.KnownBytes.{Keeps, WriteAppends};
ghost use Rattle.byte_streams.specs.Failures.{after_call, after_write};

use crate::fault::Fault;

/// A writer of bytes.
pub trait Sink {
    // The bytes that were taken, where they are known.
    ghost taken: { Self → Option (List ℕ) };

    // All that was taken was passed on, so far as that is known.
    ghost is_flushed: { Self → Type 0 };

    // How many calls failed; a count that stays at 2^64 - 1 once there.
    ghost failures: { Self → ℕ };

    /// Takes the first bytes of `from`, and returns how many. A write of some bytes that takes none
    /// counts as a failed call.
    ///
    /// # Errors
    ///
    /// `Fault::Write` where the write failed; no byte was taken then.
    fn write(&mut self, from: &[u8]) -> Result<usize, Fault>
        ensures bound { IfOk result (λ count. count ≤ length from.now) }
        ensures bytes { WriteAppends (taken self.old) (taken self.new) result from.now }
        ensures failures { failures self.new ≡ after_write result from.now (failures self.old) }
        ensures fault { IfErr result (λ fault. fault ≡ Fault.Write) };

    /// Passes on what was taken.
    ///
    /// # Errors
    ///
    /// `Fault::Write` where the flush failed.
    fn flush(&mut self) -> Result<(), Fault>
        ensures bytes { Keeps (taken self.old) (taken self.new) }
        ensures flushed { OnOk result (is_flushed self.new) }
        ensures failures { failures self.new ≡ after_call result (failures self.old) }
        ensures fault { IfErr result (λ fault. fault ≡ Fault.Write) };
}
