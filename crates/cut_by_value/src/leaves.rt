//! The vertex indices in nested arrays (CityJSON 2.0, Geometry Objects).
ghost use Rattle.std.specs.Prelude.{◌≡◌, ◌⊎◌, ◌<◌, ◌++◌, ℕ, List, length, IfErr, OnOk, IfSome, IfNone};
ghost use Rattle.std.specs.Str.Parse.{digits_value};
ghost use Rattle.std.specs.Fmt.{decimal};
ghost use Rattle.city_json.specs.Number.{IsNumber};
ghost use Rattle.city_json.specs.Tree.{tree, items_tree};
ghost use Rattle.city_families.specs.Leaves.{IsIndex, IsNested, AreNested, leaves, item_leaves};
ghost use Rattle.city_families.specs.Numbered.{AreNumbered};

use byte_streams::Fault;
use city_families::Numbering;
use city_json::Json;

/// The number below `count` that the text is in plain decimal digits.
pub(crate) fn index(text: &[u8], count: usize) -> Option<usize>
    requires { IsNumber text.now }
    ensures some { IfSome result (λ k.
        (k < count) × (text.now ≡ decimal k) × (k ≡ digits_value 10 text.now)) }
    ensures none { IfNone result (¬ IsIndex count text.now) }
{
    let mut value = 0u128;
    for byte in text {
        if !byte.is_ascii_digit() {
            return None;
        }
        value = value * 10 + u128::from(*byte - b'0');
        if value >= count as u128 {
            return None;
        }
    }
    Some(value as usize)
}

/// Numbers the vertices that a nested array names, from left to right.
#[cycle(number)]
pub(crate) fn number_items(items: &[Json], numbering: &mut Numbering) -> Result<(), Fault>
    ensures long { length numbering.new.table.items ≡ length numbering.old.table.items }
    ensures parts { OnOk result
        (AreNested (length numbering.old.table.items) (items_tree items.now)) }
    ensures ok { OnOk result ((uses : List ℕ)
        → AreNumbered uses numbering.old.table.items numbering.old.order.items
        → AreNumbered (uses ++ item_leaves (items_tree items.now)) numbering.new.table.items
        numbering.new.order.items) }
    ensures fault { IfErr result (λ fault. (fault ≡ Fault.Memory)
        ⊎ ((fault ≡ Fault.BoundaryIndex)
        × ¬ AreNested (length numbering.old.table.items) (items_tree items.now))) }
{
    for item in items {
        number_part(item, numbering)?;
    }
    Ok(())
}

#[cycle(number)]
fn number_part(value: &Json, numbering: &mut Numbering) -> Result<(), Fault>
    ensures long { length numbering.new.table.items ≡ length numbering.old.table.items }
    ensures parts { OnOk result (IsNested (length numbering.old.table.items) (tree value.now)) }
    ensures ok { OnOk result ((uses : List ℕ)
        → AreNumbered uses numbering.old.table.items numbering.old.order.items
        → AreNumbered (uses ++ leaves (tree value.now)) numbering.new.table.items
        numbering.new.order.items) }
    ensures fault { IfErr result (λ fault. (fault ≡ Fault.Memory)
        ⊎ ((fault ≡ Fault.BoundaryIndex)
        × ¬ IsNested (length numbering.old.table.items) (tree value.now))) }
{
    match value {
        Json::Num(text) => {
            let Some(vertex) = index(text.as_bytes(), numbering.table.len()) else {
                return Err(Fault::BoundaryIndex);
            };
            numbering.note(vertex)
        }
        Json::List(items) => number_items(items, numbering),
        Json::Null | Json::Bool(_) | Json::Text(_) | Json::Map(_) => Err(Fault::BoundaryIndex),
    }
}
