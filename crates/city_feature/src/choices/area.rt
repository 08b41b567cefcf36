//! The area that features are to meet.
ghost use Rattle.std.specs.Prelude.{◌≤ℤ◌};

pub(crate) mod reader;

/// A rectangle in x and y, in steps of the grid, with its edges.
#[derive(Clone, Copy, Debug, PartialEq, Eq)]
pub struct Area {
    pub min_x: i64,
    pub min_y: i64,
    pub max_x: i64,
    pub max_y: i64,
    pub ghost ordered_x: { min_x ≤ℤ max_x },
    pub ghost ordered_y: { min_y ≤ℤ max_y },
}
