//! The extent of vertices in x and y, and whether it meets an area.
ghost use Rattle.std.specs.Prelude.{◌≡◌, ◌↔◌, ◌⊎◌, ◌≤ℤ◌, ◌++◌, ℤ, List, [], ◌∷◌, IsTrue};
ghost use Rattle.city_feature.specs.Area.{Meets};
ghost use Rattle.city_feature.specs.Extent.{IsExtent, IsExtentSoFar};
ghost use Rattle.city_grid.specs.Axes.{Triple, triple};

use crate::choices::area::Area;
use city_grid::{Axes, PlacedPlan, Vertex};

/// The numbers from a least to a greatest one.
#[derive(Clone, Copy)]
struct Range {
    least: i64,
    greatest: i64,
}

/// The ranges of x and y.
#[derive(Clone, Copy)]
pub(crate) struct Extent {
    x: Range,
    y: Range,
}

/// The range up to a number, or down to it, as well.
fn widened(range: Range, number: i64) -> Range
    ensures least { (n : ℤ) → (result.least ≤ℤ n) ↔ ((range.least ≤ℤ n) ⊎ (number ≤ℤ n)) }
    ensures greatest { (n : ℤ)
        → (n ≤ℤ result.greatest) ↔ ((n ≤ℤ range.greatest) ⊎ (n ≤ℤ number)) }
{
    Range {
        least: range.least.min(number),
        greatest: range.greatest.max(number),
    }
}

fn range_at(number: i64) -> Range
    ensures least { result.least ≡ number }
    ensures greatest { result.greatest ≡ number }
{
    Range {
        least: number,
        greatest: number,
    }
}

fn extent_at(steps: Axes<i64>) -> Extent
    ensures { IsExtent (steps ∷ []) result }
{
    Extent {
        x: range_at(steps.x),
        y: range_at(steps.y),
    }
}

/// The extent of the vertices before, if there are any, and of one more.
#[inline(always)]
pub(crate) fn extended(extent: Option<Extent>, plan: PlacedPlan) -> Extent
    ensures { (read : List Triple) (z : ℤ) → IsExtentSoFar read extent
        → IsExtent (read ++ triple plan.x plan.y z ∷ []) result }
{
    let Some(extent) = extent else {
        return Extent {
            x: range_at(plan.x),
            y: range_at(plan.y),
        };
    };
    Extent {
        x: widened(extent.x, plan.x),
        y: widened(extent.y, plan.y),
    }
}

/// The extent of a vertex, in steps, and of all others.
fn extent_of(first: Axes<i64>, others: &[Vertex]) -> Extent
    ensures { IsExtent (first ∷ others.now) result }
{
    let mut extent = extent_at(first);
    for vertex in others {
        let steps = vertex.steps();
        extent = Extent {
            x: widened(extent.x, steps.x),
            y: widened(extent.y, steps.y),
        };
    }
    extent
}

/// Whether the numbers of the range and those from `min` to `max` have one in common.
fn overlaps(range: Range, min: i64, max: i64) -> bool
    ensures { IsTrue result ↔ ((range.least ≤ℤ max) × (min ≤ℤ range.greatest)) }
{
    range.least <= max && min <= range.greatest
}

/// Whether the extent meets the area, if only at an edge.
pub(crate) fn reaches(extent: Extent, area: &Area) -> bool
    ensures { (vertices : List Triple) → IsExtent vertices extent
        → (IsTrue result ↔ Meets area.now vertices) }
{
    overlaps(extent.x, area.min_x, area.max_x) && overlaps(extent.y, area.min_y, area.max_y)
}

/// Whether the extent of the vertices meets the area, if only at an edge.
pub fn meets(area: &Area, vertices: &[Vertex]) -> bool
    ensures { IsTrue result ↔ Meets area.now vertices.now }
{
    let [first, others @ ..] = vertices else {
        return false;
    };
    reaches(extent_of(first.steps(), others), area)
}
