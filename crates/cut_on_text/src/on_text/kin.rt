//! What the texts of city objects say of their parents and their children.
//!
//! Names are compared by their compact texts, which are the same where the names are.
ghost use Rattle.std.specs.Prelude.{◌↔◌, IfSome, IsTrue};
ghost use Rattle.city_json.specs.CompactMembers.{HasParts};
ghost use Rattle.city_json.specs.Tree.{Tree};
ghost use Rattle.city_families.specs.CityObjects.{AreTexts};
ghost use Rattle.cut_on_text.specs.Kin.{AreQuoted, HasChildrenText, HasParents};
ghost use Rattle.city_json.specs.CompactTexts.{IsCompactOf};

use super::texts::member_or;
use byte_streams::push;
use city_feature::is_text;
use city_json::{ItemTexts, MemberPlace};
use std::alloc::Global;

/// The texts in the array whose compact text this is, each with its marks. `None`: some item is no text, or out of
/// memory.
pub(super) fn texts_of(alloc: Global, text: &[u8]) -> Option<Vec<&[u8]>>
    ensures { IfSome result (λ found. (value : Tree) → IsCompactOf text.now value → AreQuoted found.items value) }
{
    let mut found = Vec::new(alloc);
    let mut items = ItemTexts::new(text)?;
    'texts: loop {
        let Some(one) = items.next() else {
            return Some(found);
        };
        if !is_text(one) {
            return None;
        }
        push(one, &mut found)?;
    }
}

/// Whether the value whose compact text this is is an array of texts.
pub(super) fn is_array_of_texts(text: &[u8]) -> bool
    ensures { (value : Tree) → IsCompactOf text.now value → (IsTrue result ↔ AreTexts value) }
{
    let Some(mut items) = ItemTexts::new(text) else {
        return false;
    };
    'texts: loop {
        let Some(one) = items.next() else {
            return true;
        };
        if !is_text(one) {
            return false;
        }
    }
}

/// Whether a city object, whose members lie in these parts, names parents.
pub(super) fn has_parents(alloc: Global, text: &[u8], parts: &[MemberPlace]) -> Option<bool>
    ensures { IfSome result (λ has. HasParts text.now parts.now → (value : Tree) → IsCompactOf text.now value
        → HasParents value has) }
{
    let parents = member_or(text, parts, b"\"parents\":", b"[]")?;
    let named = texts_of(alloc, parents)?;
    Some(!named.is_empty())
}

/// The text of the children of a city object, whose members lie in these parts; of an empty array, where there are
/// none.
pub(super) fn children_text<'a>(text: &'a [u8], parts: &[MemberPlace]) -> Option<&'a [u8]>
    ensures { IfSome result (λ children. HasParts text.now parts.now → (value : Tree) → IsCompactOf text.now value
        → HasChildrenText value children) }
{
    member_or(text, parts, b"\"children\":", b"[]")
}
