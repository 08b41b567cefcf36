//! Laws of the definitions alone: each is the contract of a function that does nothing.
ghost use Rattle.std.specs.Prelude.{◌≡◌, ◌≢◌, ◌↔◌, ◌≤◌, ◌<◌, ℕ, List, All, length, slice_index_or};
ghost use Rattle.city_json.specs.Bytes.{newline};
ghost use Rattle.city_json.specs.Compact.{compact};
ghost use Rattle.city_json.specs.Depth.{IsDeep};
ghost use Rattle.city_json.specs.Fits.{depth};
ghost use Rattle.byte_streams.specs.Limits.{max_depth};
ghost use Rattle.city_json.specs.Grammar.{Spells};
ghost use Rattle.city_json.specs.Parts.{AreParts, IsMemberText, with_value, replaced};
ghost use Rattle.city_json.specs.Tree.{Tree, MemberTrees, object};
ghost use Rattle.city_json.specs.Writable.{IsWritable};
ghost use Rattle.city_json.specs.declared.compacting.places.MemberPlace.{MemberPlace};

/// A text spells at most one value.
pub fn a_text_has_one_meaning()
    ensures { (text : List ℕ) (a b : Tree) → Spells text a → Spells text b → a ≡ b }
{}

/// The compact text of a value spells that value.
pub fn compact_text_spells_its_value()
    ensures { (value : Tree) → IsWritable value → Spells (compact value) value }
{}

/// No byte of a compact text is a newline, so that it is one line.
pub fn compact_text_is_one_line()
    ensures { (value : Tree) → IsWritable value → All (λ b. b ≢ newline) (compact value) }
{}

/// A text nests too deeply exactly where the value that it spells does.
pub fn texts_nest_as_their_values()
    ensures { (text : List ℕ) (value : Tree) → Spells text value
        → ((¬ IsDeep text) ↔ (depth value ≤ max_depth)) }
{}

/// Different values have different compact texts.
pub fn compact_text_tells_its_value()
    ensures { (a b : Tree) → IsWritable a → IsWritable b → compact a ≡ compact b → a ≡ b }
{}

/// What a text spells can be written: its numbers are numbers, its texts and names UTF-8.
pub fn spelled_value_is_writable()
    ensures { (text : List ℕ) (value : Tree) → Spells text value → IsWritable value }
{}

/// A compact text spells no value but its own.
pub fn compact_text_is_read_as_its_value()
    ensures { (value found : Tree) → IsWritable value → Spells (compact value) found
        → value ≡ found }
{}

/// To exchange the text of one member's value, where it lies in the compact text of an object, is to exchange the
/// value.
pub fn exchanged_text_is_exchanged_value()
    ensures { (members : MemberTrees) (parts : List MemberPlace) (k : ℕ) (part : MemberPlace) (value : Tree)
        → AreParts 1 parts members → k < length parts
        → with_value (compact (object members)) (slice_index_or parts k part) (compact value)
        ≡ compact (object (replaced k value members)) }
{}

/// In each part of the compact text of an object lie the name and the value of the member at its place.
pub fn members_lie_in_their_parts()
    ensures { (members : MemberTrees) (parts : List MemberPlace) (k : ℕ) (part : MemberPlace)
        → AreParts 1 parts members → k < length parts
        → IsMemberText (compact (object members)) (slice_index_or parts k part) k members }
{}
