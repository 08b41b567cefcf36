//! What the compact text of a value says of the city that it holds.
ghost use Rattle.std.specs.Prelude.{◌↔◌, IsTrue};
ghost use Rattle.city_json.specs.ObjectTexts.{object_of};
ghost use Rattle.city_json.specs.Tree.{Tree};
ghost use Rattle.city_feature.specs.Header.{HoldsCity};
ghost use Rattle.city_feature.specs.Shapes.{IsFilledArray, IsFilledObject};
ghost use Rattle.city_json.specs.CompactTexts.{IsCompactOf};

use crate::features::shape::{is_array, is_object};
use city_json::ObjectText;

/// Whether the value whose compact text this is is an object with a member.
fn is_filled_object(text: &[u8]) -> bool
    ensures { (value : Tree) → IsCompactOf text.now value → (IsTrue result ↔ IsFilledObject value) }
{
    is_object(text) && text != b"{}".as_slice()
}

/// Whether it is an array with an item.
fn is_filled_array(text: &[u8]) -> bool
    ensures { (value : Tree) → IsCompactOf text.now value → (IsTrue result ↔ IsFilledArray value) }
{
    is_array(text) && text != b"[]".as_slice()
}

/// Whether the object whose compact text this is holds city objects or vertices, as
/// [`is_document`](super::reader::is_document) tells of a value.
pub fn holds_city(line: &ObjectText<'_>) -> bool
    ensures { IsTrue result ↔ HoldsCity (object_of line.now) }
{
    let objects = line.value_or(2, b"\"CityObjects\":", b"null");
    let vertices = line.value_or(3, b"\"vertices\":", b"null");
    is_filled_object(objects) || is_filled_array(vertices)
}
