//! Whose translation joined tiles share.
/// Whose translation the joined tiles share.
#[derive(Clone, Copy, Debug, PartialEq, Eq)]
pub enum Base {
    /// The first tile's.
    First,
    /// In each component the least of all tiles, so that no shift is negative.
    Least,
}
