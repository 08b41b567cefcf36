//! What is made of a JSON text while it is read: its value, or nothing.
ghost use Rattle.std.specs.Prelude.{List, ℕ, ◌≡◌, IfOk, OnOk};
ghost use Rattle.city_json.specs.Makes.{onto_items, onto_members};
ghost use Rattle.city_json.specs.Number.{IsNumber};
ghost use Rattle.city_json.specs.Tree.{Tree, ItemTrees, MemberTrees, null, boolean, number, string, array, object, no_items, item, no_members, member, tree, items_tree, members_tree};

use crate::json::{Items, Json, Member, Members};
use crate::text::{NumText, Str};
use std::alloc::{AllocError, Global};

/// What is made of a text, one part after another.
pub(super) trait Make {
    /// What is made of a value.
    type Value: Drop;

    /// What is made of a member's name.
    type Name: Drop;

    /// What is made of the items of an array that is open.
    type Items: Drop;

    /// What is made of the members of an object that is open.
    type Members: Drop;

    // It is made of this value.
    ghost is: { Self.Value → Tree → Type 0 };

    // It is made of this name.
    ghost is_name: { Self.Name → List ℕ → Type 0 };

    // They are made of these items.
    ghost are_items: { Self.Items → ItemTrees → Type 0 };

    // They are made of these members.
    ghost are_members: { Self.Members → MemberTrees → Type 0 };

    fn null() -> Self::Value
        ensures { is result null };

    fn boolean(truth: bool) -> Self::Value
        ensures { is result (boolean truth) };

    fn number(alloc: Global, text: &[u8]) -> Result<Self::Value, AllocError>
        requires { IsNumber text.now }
        ensures { IfOk result (λ made. is made (number text.now)) };

    fn string(alloc: Global, text: &str) -> Result<Self::Value, AllocError>
        ensures { IfOk result (λ made. is made (string text.now)) };

    fn name(alloc: Global, text: &str) -> Result<Self::Name, AllocError>
        ensures { IfOk result (λ made. is_name made text.now) };

    fn no_items(alloc: Global) -> Self::Items
        ensures { are_items result no_items };

    /// Puts an item after the others.
    fn push_item(items: &mut Self::Items, value: Self::Value) -> Result<(), AllocError>
        ensures { OnOk result ((before : ItemTrees) (one : Tree) → are_items items.old before → is value one
            → are_items items.new (onto_items before (item one no_items))) };

    fn array(alloc: Global, items: Self::Items) -> Result<Self::Value, AllocError>
        ensures { IfOk result (λ made. (trees : ItemTrees) → are_items items trees → is made (array trees)) };

    fn no_members(alloc: Global) -> Self::Members
        ensures { are_members result no_members };

    /// Puts a member after the others.
    fn push_member(
        members: &mut Self::Members,
        name: Self::Name,
        value: Self::Value,
    ) -> Result<(), AllocError>
        ensures { OnOk result ((before : MemberTrees) (one : List ℕ × Tree) → are_members members.old before
            → is_name name one.0 → is value one.1
            → are_members members.new (onto_members before (member one.0 one.1 no_members))) };

    fn object(alloc: Global, members: Self::Members) -> Result<Self::Value, AllocError>
        ensures { IfOk result (λ made. (trees : MemberTrees) → are_members members trees → is made (object trees)) };
}

/// The values themselves.
pub(super) enum Values {}

impl Make for Values {
    type Value = Json;

    type Name = Str;

    type Items = Items;

    type Members = Members;

    ghost is = { λ json value. tree json ≡ value };

    ghost is_name = { λ text name. text ≡ name };

    ghost are_items = { λ items trees. items_tree items.items ≡ trees };

    ghost are_members = { λ members trees. members_tree members.items ≡ trees };

    fn null() -> Json {
        Json::Null
    }

    fn boolean(truth: bool) -> Json {
        Json::Bool(truth)
    }

    fn number(alloc: Global, text: &[u8]) -> Result<Json, AllocError> {
        Ok(Json::Num(NumText::of(alloc, text)?))
    }

    fn string(alloc: Global, text: &str) -> Result<Json, AllocError> {
        Ok(Json::Text(Str::of(alloc, text)?))
    }

    fn name(alloc: Global, text: &str) -> Result<Str, AllocError> {
        Str::of(alloc, text)
    }

    fn no_items(alloc: Global) -> Items {
        Vec::new(alloc)
    }

    #[tactic(auto, using(crate::proofs::Fronts::item_pushed))]
    fn push_item(items: &mut Items, value: Json) -> Result<(), AllocError> {
        items.push(value)?;
        Ok(())
    }

    fn array(alloc: Global, items: Items) -> Result<Json, AllocError> {
        Ok(Json::List(fitted(alloc, items)?))
    }

    fn no_members(alloc: Global) -> Members {
        Vec::new(alloc)
    }

    fn push_member(members: &mut Members, name: Str, value: Json) -> Result<(), AllocError> {
        members.push(Member { name, value })?;
        Ok(())
    }

    fn object(alloc: Global, members: Members) -> Result<Json, AllocError> {
        Ok(Json::Map(fitted(alloc, members)?))
    }
}

/// Nothing, where it is only asked whether the text is taken.
pub(super) enum Nothing {}

impl Make for Nothing {
    type Value = ();

    type Name = ();

    type Items = ();

    type Members = ();

    ghost is = { λ nothing value. Unit {0} };

    ghost is_name = { λ nothing name. Unit {0} };

    ghost are_items = { λ nothing trees. Unit {0} };

    ghost are_members = { λ nothing trees. Unit {0} };

    fn null() {}

    fn boolean(_truth: bool) {}

    fn number(_alloc: Global, _text: &[u8]) -> Result<(), AllocError> {
        Ok(())
    }

    fn string(_alloc: Global, _text: &str) -> Result<(), AllocError> {
        Ok(())
    }

    fn name(_alloc: Global, _text: &str) -> Result<(), AllocError> {
        Ok(())
    }

    fn no_items(_alloc: Global) {}

    fn push_item(_items: &mut (), _value: ()) -> Result<(), AllocError> {
        Ok(())
    }

    fn array(_alloc: Global, _items: ()) -> Result<(), AllocError> {
        Ok(())
    }

    fn no_members(_alloc: Global) {}

    fn push_member(_members: &mut (), _name: (), _value: ()) -> Result<(), AllocError> {
        Ok(())
    }

    fn object(_alloc: Global, _members: ()) -> Result<(), AllocError> {
        Ok(())
    }
}

/// The most items that are moved to memory of their own: a longer list is cut short where it lies.
const MAX_MOVED: usize = 64;

/// The items, in no more memory than they need. A block that is cut short leaves a piece that is too small for much,
/// and so a few items get a new one.
fn fitted<T: Drop>(alloc: Global, items: Vec<T>) -> Result<Vec<T>, AllocError>
    ensures { IfOk result (λ fitted. fitted.items ≡ items.items) }
{
    let mut items = items;
    if items.len() == items.capacity() || items.len() > MAX_MOVED {
        items.shrink_to_fit();
        return Ok(items);
    }
    let mut fitted = Vec::with_capacity(alloc, items.len())?;
    fitted.append(&mut items)?;
    Ok(fitted)
}
