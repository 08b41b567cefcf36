//! What a feature is, on the compact text of its line (CityJSON 2.0, CityJSONFeature).
ghost use Rattle.std.specs.Prelude.{◌≡◌, ◌≤◌, ◌++◌, ◌∷◌, [], codes, length, slice_range, ◌↔◌, IfNone, IfSome, IsTrue};
ghost use Rattle.city_json.specs.Bytes.{colon};
ghost use Rattle.city_json.specs.Compact.{quoted};
ghost use Rattle.city_json.specs.CompactTexts.{IsCompactOf};
ghost use Rattle.city_json.specs.ObjectTexts.{object_of};
ghost use Rattle.city_json.specs.Parts.{IsPartNamed};
ghost use Rattle.city_json.specs.Tree.{Tree, string};
ghost use Rattle.city_feature.specs.Feature.{HasFeatureShape};
ghost use Rattle.city_feature.specs.Shapes.{IsArray, IsObject, IsText};

use city_grid::byte_is;
use city_json::{MemberPlace, ObjectText};

/// Whether the value whose compact text this is is the type of a feature.
fn is_feature_type(text: &[u8]) -> bool
    ensures { (value : Tree) → IsCompactOf text.now value
        → (IsTrue result ↔ (value ≡ string (codes "CityJSONFeature"))) }
{
    text == b"\"CityJSONFeature\"".as_slice()
}

/// Whether the value whose compact text this is is a text.
pub fn is_text(text: &[u8]) -> bool
    ensures { (value : Tree) → IsCompactOf text.now value → (IsTrue result ↔ IsText value) }
{
    byte_is(text, 0, b'"')
}

/// The same for an object.
pub fn is_object(text: &[u8]) -> bool
    ensures { (value : Tree) → IsCompactOf text.now value → (IsTrue result ↔ IsObject value) }
{
    byte_is(text, 0, b'{')
}

/// The same for an array.
pub fn is_array(text: &[u8]) -> bool
    ensures { (value : Tree) → IsCompactOf text.now value → (IsTrue result ↔ IsArray value) }
{
    byte_is(text, 0, b'[')
}

/// What stands in the part of a member after its name.
pub(super) fn value_in(text: &[u8], part: MemberPlace) -> &[u8]
    requires ordered { part.value ≤ part.end }
    requires within { part.end ≤ length text.now }
    ensures { result.now ≡ slice_range text.now part.value part.end }
{
    &text[part.value..part.end]
}

/// Where the vertices of an object lie that has what a feature has, whatever they are. None exactly where it has not.
pub(super) fn placed_vertices(line: &ObjectText<'_>) -> Option<MemberPlace>
    ensures shape { IfSome result (λ part. HasFeatureShape (object_of line.now)) }
    ensures part { IfSome result (IsPartNamed line.now.text line.now.parts (quoted (codes "vertices") ++ colon ∷ [])) }
    ensures none { IfNone result (¬ HasFeatureShape (object_of line.now)) }
{
    let kind = line.value_or(0, b"\"type\":", b"null");
    if !is_feature_type(kind) {
        return None;
    }
    let id = line.value_or(1, b"\"id\":", b"null");
    if !is_text(id) {
        return None;
    }
    let objects = line.value_or(2, b"\"CityObjects\":", b"null");
    if !is_object(objects) {
        return None;
    }
    let part = line.part(3, b"\"vertices\":")?;
    if !is_array(value_in(line.text(), part)) {
        return None;
    }
    Some(part)
}
