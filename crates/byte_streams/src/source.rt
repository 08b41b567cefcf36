//! What gives bytes.
ghost use Rattle.std.specs.Prelude.{◌≡◌, ◌≤◌, ◌<◌, ℕ, Bool, true, false, List, [], length, take, IfOk, IfErr, OnErr};
ghost use Rattle.byte_streams.specs.Failures.{after_call};
ghost use Rattle.byte_streams.specs.Source.{GivesFirst};

use crate::fault::Fault;

/// A reader of bytes.
pub trait Source {
    // From here reads may give these bytes up to the first end or error; whether it is an error.
    ghost gives: { Self → List ℕ → Bool → Type 0 };

    // How many reads failed; a count that stays at 2^64 - 1 once there.
    ghost failures: { Self → ℕ };

    /// Puts the next bytes at the start of `to`, and returns how many there are: 0 at the end, or where
    /// `to` is empty.
    ///
    /// # Errors
    ///
    /// `Fault::Read` where the read failed.
    fn read(&mut self, to: &mut [u8]) -> Result<usize, Fault>
        ensures bound { IfOk result (λ count. count ≤ length to.new) }
        ensures bytes { IfOk result (λ count. GivesFirst (gives self.old) (gives self.new)
            (take count to.new)) }
        ensures end { IfOk result (λ count. count ≡ 0 → 0 < length to.new
            → gives self.old [] false) }
        ensures failure { OnErr result (gives self.old [] true) }
        ensures failures { failures self.new ≡ after_call result (failures self.old) }
        ensures fault { IfErr result (λ fault. fault ≡ Fault.Read) };

    // Each source gives something.
    ghost gives_something: { (source : Self) → (bytes : List ℕ) × ((fails : Bool) × gives source bytes fails) };
}
