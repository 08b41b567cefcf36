//! An area, read from the text of an option.
ghost use Rattle.std.specs.Prelude.{◌≡◌, ◌++◌, ◌∷◌, ℕ, ℤ, List, IfSome, IfNone};
ghost use Rattle.city_json.specs.Bytes.{comma};
ghost use Rattle.city_feature.specs.Area.{IsAreaText, IsStepsText};
ghost use Rattle.city_feature.specs.declared.choices.area.Area as areas;

use crate::choices::area::Area;
use byte_streams::limits::MAX_STEPS;

/// The number of steps that a text writes.
fn steps(text: &str) -> Option<i64>
    ensures some { IfSome result (IsStepsText text.now) }
    ensures none { IfNone result ((steps : ℤ) → ¬ IsStepsText text.now steps) }
{
    if text.starts_with('+') {
        return None;
    }
    let Ok(steps) = text.parse::<i64>() else {
        return None;
    };
    if steps.unsigned_abs() <= MAX_STEPS {
        Some(steps)
    } else {
        None
    }
}

/// The number of steps that a text writes up to its first comma, and what follows the comma.
fn steps_and_rest(text: &str) -> Option<(i64, &str)>
    ensures some { IfSome result (λ cut. (front : List ℕ)
        × (text.now ≡ front ++ comma ∷ cut.1.now) × IsStepsText front cut.0) }
    ensures none { IfNone result ((front rest : List ℕ) (steps : ℤ)
        → text.now ≡ front ++ comma ∷ rest → ¬ IsStepsText front steps) }
{
    let Some((front, rest)) = text.split_once(',') else {
        return None;
    };
    let Some(steps) = steps(front) else {
        return None;
    };
    Some((steps, rest))
}

/// The area that a text writes: exactly four numbers with commas between them, each an optional
/// `-` and one or more digits and at most 2^53 - 1 in size: least x, least y, greatest x, greatest y,
/// in steps of the grid. None for any other text, and where a least is above its greatest.
pub fn area(text: &str) -> Option<Area>
    ensures some { IfSome result (IsAreaText text.now) }
    ensures none { IfNone result ((area : areas.Area) → ¬ IsAreaText text.now area) }
{
    let Some((min_x, rest)) = steps_and_rest(text) else {
        return None;
    };
    let Some((min_y, rest)) = steps_and_rest(rest) else {
        return None;
    };
    let Some((max_x, rest)) = steps_and_rest(rest) else {
        return None;
    };
    let Some(max_y) = steps(rest) else {
        return None;
    };
    if max_x < min_x {
        return None;
    }
    if max_y < min_y {
        return None;
    }
    Some(Area {
        min_x,
        min_y,
        max_x,
        max_y,
    })
}
