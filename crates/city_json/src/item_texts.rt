//! The items of an array, one after another in its compact text.
ghost use Rattle.std.specs.Prelude.{◌≡◌, ◌<◌, ◌∷◌, ℕ, List, false, length, drop, take, IfNone, IfSome, IsTrue, OnSome};
ghost use Rattle.city_json.specs.Bytes.{open_bracket};
ghost use Rattle.city_json.specs.CompactEnds.{LeavesValue};
ghost use Rattle.city_json.specs.CompactTexts.{IsCompactOf};
ghost use Rattle.city_json.specs.NextItems.{HasNoItem, IsNextItem};
ghost use Rattle.city_json.specs.Tree.{ItemTrees, Tree, array, no_items};

use crate::compacting::value_end;
use std::marker::Model;

/// The items that are left of an array (RFC 8259, section 5), in its compact text. Contracts see the text of the array of
/// these. Of any other text they are some bytes.
#[derive(Debug, Drop)]
pub struct ItemTexts<'a> {
    text: &'a [u8],
    at: usize,
}

impl<'a> Model for ItemTexts<'a> {
    ghost use Rattle.std.specs.Prelude.{◌∷◌, ◌≤◌, ℕ, List, drop, length};
    ghost use Rattle.city_json.specs.Bytes.{open_bracket};

    ghost Value = { List ℕ };

    ghost view = { λ items. open_bracket ∷ drop items.at items.text.now };

    ghost invariant = { λ items. items.at ≤ length items.text.now };
}

impl<'a> ItemTexts<'a> {
    /// Those of this text of an array. None where it begins with no bracket.
    pub fn new(text: &'a [u8]) -> Option<ItemTexts<'a>>
        ensures some { IfSome result (λ items. items ≡ text.now) }
        ensures array { OnSome result ((value : Tree) → IsCompactOf text.now value
            → (items : ItemTrees) × (value ≡ array items)) }
        ensures none { IfNone result ((items : ItemTrees) → ¬ IsCompactOf text.now (array items)) }
    {
        if text.is_empty() {
            return None;
        }
        if text[0] != b'[' {
            return None;
        }
        Some(ItemTexts { text, at: 1 })
    }

    /// The text from the next item on.
    pub fn rest(&self) -> &'a [u8]
        ensures { self.now ≡ open_bracket ∷ result.now }
    {
        &self.text[self.at..]
    }

    /// Whether no items are left.
    pub fn is_over(&self) -> bool
        ensures yes { IsTrue result → HasNoItem self.now }
        ensures no { result ≡ false → ¬ IsCompactOf self.now (array no_items) }
    {
        let rest = self.rest();
        if rest.is_empty() {
            return true;
        }
        rest[0] == b']'
    }

    /// Leaves the next item out, whose text has this length.
    pub fn skip(&mut self, len: usize)
        requires some { ¬ IsCompactOf self.old (array no_items) }
        requires within { len < length self.old }
        requires is { LeavesValue 128 (drop 1 self.old) (drop len (drop 1 self.old)) }
        ensures next { IsNextItem self.old (take len (drop 1 self.old)) self.new }
        ensures shorter { 0 < len → length self.new < length self.old }
    {
        let end = self.at + len;
        self.at = end;
        if end == self.text.len() {
            return;
        }
        if self.text[end] == b',' {
            self.at = end + 1;
        }
    }

    /// The text of the next item.
    pub fn next(&mut self) -> Option<&'a [u8]>
        ensures some { IfSome result (λ one. IsNextItem self.old one.now self.new) }
        ensures shorter { OnSome result (length self.new < length self.old) }
        ensures none { IfNone result (HasNoItem self.old) }
    {
        if self.is_over() {
            return None;
        }
        let rest = self.rest();
        let len = value_end(rest, 0);
        if len == 0 {
            return None;
        }
        self.skip(len);
        Some(&rest[..len])
    }
}
