//! The types that features are to have, read from the text of an option.
ghost use Rattle.std.specs.Prelude.{◌≡◌, ◌↔◌, ◌++◌, ◌∷◌, [], IfOk, IfErr, IfSome, IsTrue, OnOk};
ghost use Rattle.city_feature.specs.Choice.{names_between_commas, HasEmptyName};

use byte_streams::{Fault, Sequence};
use city_json::Str;
use std::alloc::Global;

/// Names of types of city objects, in order.
pub type Types = Sequence<Str>;

fn has_empty_name(text: &str) -> bool
    ensures { IsTrue result ↔ HasEmptyName text.now }
{
    text.split(',').any(|name| name.is_empty())
}

/// Lists one more name. The only fault is [`Fault::Memory`].
fn list_name(alloc: Global, name: &str, names: &mut Vec<Str>) -> Result<(), Fault>
    ensures ok { OnOk result (names.new.items ≡ names.old.items ++ name.now ∷ []) }
    ensures fault { IfErr result (λ fault. fault ≡ Fault.Memory) }
{
    names.push(Str::read(alloc, name)?)?;
    Ok(())
}

/// The names between the commas of a text; none where one has no characters.
///
/// # Errors
///
/// [`Fault::Memory`] where there is not enough memory for the names.
pub fn types(alloc: Global, text: &str) -> Result<Option<Types>, Fault>
    ensures none { (result ≡ Ok None) ↔ HasEmptyName text.now }
    ensures some { IfOk result (λ read. IfSome read (λ types.
        types ≡ names_between_commas text.now)) }
    ensures fault { IfErr result (λ fault. fault ≡ Fault.Memory) }
{
    if has_empty_name(text) {
        return Ok(None);
    }
    let mut names = Vec::new(alloc);
    for name in text.split(',') {
        list_name(alloc, name, &mut names)?;
    }
    Ok(Some(Sequence::from_vec(names)))
}

/// An equal list that shares no memory with this one. The only fault is [`Fault::Memory`].
pub fn copied(alloc: Global, types: &Types) -> Result<Types, Fault>
    ensures ok { IfOk result (λ copy. copy ≡ types.now) }
    ensures fault { IfErr result (λ fault. fault ≡ Fault.Memory) }
{
    let names = types.items();
    let mut copies = Vec::with_capacity(alloc, names.len())?;
    for name in names {
        list_name(alloc, name.as_str(), &mut copies)?;
    }
    Ok(Sequence::from_vec(copies))
}
