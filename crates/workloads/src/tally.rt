use crate::digest::{Written, stirred};
use byte_streams::MergeFault;

/// What the calls of a job came to.
#[derive(Clone, Copy)]
pub(crate) struct Tally {
    pub(crate) calls: u64,
    pub(crate) refused: u64,
    pub(crate) features: u64,
    pub(crate) bytes: u64,
    pub(crate) digest: u64,
}

impl Tally {
    pub(crate) fn new() -> Tally {
        Tally {
            calls: 0,
            refused: 0,
            features: 0,
            bytes: 0,
            digest: 0,
        }
    }

    /// Counts a call, and what it wrote.
    pub(crate) fn add(&mut self, written: Written) {
        self.calls = self.calls.wrapping_add(1);
        self.bytes = self.bytes.wrapping_add(written.bytes);
        self.digest = stirred(self.digest, written.digest);
    }

    /// Counts the features of a tile.
    pub(crate) fn count(&mut self, features: u64) {
        self.features = self.features.wrapping_add(features);
        self.digest = stirred(self.digest, features);
    }

    /// Counts a refusal.
    pub(crate) fn refuse(&mut self, refusal: &MergeFault) {
        self.refused = self.refused.wrapping_add(1);
        self.digest = stirred(self.digest, u64::from(refusal.fault.number()));
        self.digest = stirred(self.digest, u64::from(refusal.tile));
        self.digest = stirred(self.digest, refusal.line);
    }

    /// Counts a call that answers how many features it wrote, and what it wrote.
    pub(crate) fn end(&mut self, outcome: Result<u64, MergeFault>, written: Written) {
        match outcome {
            Ok(features) => self.count(features),
            Err(refusal) => self.refuse(&refusal),
        }
        self.add(written);
    }
}
