//! A source in memory, for tests, which gives a few bytes a read, and ends or fails.
ghost use Rattle.std.specs.Prelude.{◌≡◌, ◌≤◌, ◌<◌, ◌++◌, true, false, [], length, take, drop, IfOk, IfErr, OnErr, refl};
ghost use Rattle.byte_streams.specs.Failures.{after_call, one_more};
ghost use Rattle.byte_streams.specs.Source.{GivesFirst};
ghost use Rattle.byte_streams.specs.Tape.{PlaysOut, tape_answer};

use crate::fault::Fault;
use crate::line::Line;
use crate::source::Source;
use std::marker::Model;

/// A source over bytes in memory, for tests: it gives at most `step` bytes a read, and after the last
/// byte the end or, if it fails, `Fault::Read`.
#[derive(Debug, Drop)]
pub struct Tape {
    bytes: Line,
    at: usize,
    step: usize,
    fails: bool,
    failures: u64,
}

impl Model for Tape {
    ghost use Rattle.std.specs.Prelude.{◌≤◌, drop, length};
    ghost use Rattle.byte_streams.specs.Tape.{TapeState};

    ghost Value = { TapeState };

    ghost view = { λ tape. record { left = drop tape.at tape.bytes; step = tape.step; fails = tape.fails; failures = tape.failures } };

    ghost invariant = { λ tape. (tape.at ≤ length tape.bytes) × (1 ≤ tape.step) };
}

impl Tape {
    /// A tape of these bytes, read `step` at a time at most; after them it ends, or fails where `fails`.
    pub fn new(bytes: Line, step: usize, fails: bool) -> Tape
        requires { 1 ≤ step }
        ensures { result ≡ record { left = bytes; step = step; fails = fails; failures = 0 } }
    {
        Tape {
            bytes,
            at: 0,
            step,
            fails,
            failures: 0,
        }
    }
}

impl Source for Tape {
    ghost gives = { PlaysOut };

    ghost failures = { λ tape. tape.failures };

    ghost gives_something = { λ tape. (tape.left, (tape.fails, (refl, refl))) };

    fn read(&mut self, to: &mut [u8]) -> Result<usize, Fault>
        ensures bound { IfOk result (λ count. count ≤ length to.new) }
        ensures bytes { IfOk result (λ count. GivesFirst (PlaysOut self.old) (PlaysOut self.new)
            (take count to.new)) }
        ensures end { IfOk result (λ count. count ≡ 0 → 0 < length to.new
            → PlaysOut self.old [] false) }
        ensures failure { OnErr result (PlaysOut self.old [] true) }
        ensures failures { self.new.failures ≡ after_call result self.old.failures }
        ensures fault { IfErr result (λ fault. fault ≡ Fault.Read) }

        // The whole answer.
        ensures answer { result ≡ tape_answer self.old (length to.old) }
        ensures copied { IfOk result (λ count. to.new
            ≡ take count self.old.left ++ drop count to.old) }
        ensures moved { IfOk result (λ count. self.new
            ≡ record self.old { left = drop count self.old.left }) }
        ensures failed { OnErr result (self.new
            ≡ record self.old { failures = one_more self.old.failures }) }
        ensures untouched { OnErr result (to.new ≡ to.old) }
    {
        let left = &self.bytes.items()[self.at..];
        if left.is_empty() && self.fails {
            self.failures = self.failures.saturating_add(1);
            return Err(Fault::Read);
        }
        let count = left.len().min(to.len()).min(self.step);
        to[..count].copy_from_slice(&left[..count]);
        self.at += count;
        Ok(count)
    }
}
