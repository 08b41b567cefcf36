//! Whether lines of a tile are still to come.
use byte_streams::LineFault;

/// Whether lines are still to be read.
#[derive(Clone, Copy, Debug, PartialEq, Eq)]
pub enum State {
    /// Lines may be to come.
    Open,
    /// The last stretch was taken, which has this number.
    Over(u64),
    /// A line was refused.
    Refused(LineFault),
}
