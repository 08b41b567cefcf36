//! A value for each axis, and arrays of three numbers.
ghost use Rattle.std.specs.Prelude.{◌≡◌, ◌≢◌, ℕ, List, IfSome, IfNone};
ghost use Rattle.city_json.specs.Tree.{tree, number};
ghost use Rattle.city_grid.specs.Axes.{Texts, number_texts, three};

use city_json::{Json, NumText};

/// One value for each axis.
#[derive(Clone, Copy, Debug, PartialEq, Eq)]
pub struct Axes<T> {
    pub x: T,
    pub y: T,
    pub z: T,
}

fn as_number(value: &Json) -> Option<&NumText>
    ensures some { IfSome result (λ text. tree value.now ≡ number text.now) }
    ensures none { IfNone result ((text : List ℕ) → tree value.now ≢ number text) }
{
    match value {
        Json::Num(text) => Some(text),
        _ => None,
    }
}

/// The numbers of an array of exactly three.
pub fn three_numbers(value: &Json) -> Option<Axes<&NumText>>
    ensures some { IfSome result (λ numbers. tree value.now ≡ three (number_texts numbers)) }
    ensures none { IfNone result ((texts : Texts) → tree value.now ≢ three texts) }
{
    let Json::List(items) = value else {
        return None;
    };
    let [x, y, z] = items.as_slice() else {
        return None;
    };
    Some(Axes {
        x: as_number(x)?,
        y: as_number(y)?,
        z: as_number(z)?,
    })
}
