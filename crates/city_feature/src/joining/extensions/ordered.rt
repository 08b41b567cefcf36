//! Names and values that are found by the order of the names, so that no choice of names makes this slow.
ghost use Rattle.std.specs.Prelude.{◌≡◌, ◌↔◌, ◌++◌, [], ◌∷◌, IsTrue, None, IfOk, OnOk, IfErr, bytes_eq, option_copied};
ghost use Rattle.std.specs.Map.{lookup};

use byte_streams::Fault;
use city_json::Json;
use std::alloc::Global;
use std::collections::BTreeMap;
use std::marker::Model;

/// Names and values, in the order in which they were appended.
#[derive(Drop)]
pub(crate) struct Ordered<'a> {
    pairs: Vec<(&'a str, &'a Json)>,
    values: BTreeMap<&'a str, &'a Json>,
}

impl<'a> Model for Ordered<'a> {
    ghost use Rattle.std.specs.Prelude.{◌≡◌, ℕ, List, bytes_eq};
    ghost use Rattle.std.specs.Borrow.{Bor};
    ghost use Rattle.std.specs.Coded.{codes};
    ghost use Rattle.std.specs.Map.{lookup};
    ghost use Rattle.city_json.specs.contracts.json.Json as json_type;
    ghost use Rattle.city_json.specs.declared.json.Json.{Json};
    ghost use Rattle.city_feature.specs.Values.{value_by_order};

    ghost Value = { List (Bor (List ℕ) × Bor Json) };

    ghost coded = { Prim.hlevel (codes, json_type.the_row.coded) };

    ghost view = { λ ordered. ordered.pairs.items };

    ghost invariant = { λ ordered. (name : List ℕ) → value_by_order name ordered.values
        ≡ lookup (λ key. bytes_eq name key.now) ordered.pairs.items };
}

impl<'a> Ordered<'a> {
    /// No names. It takes no memory.
    pub(crate) fn new(alloc: Global) -> Ordered<'a>
        ensures { result ≡ [] }
    {
        Ordered {
            pairs: Vec::new(alloc),
            values: BTreeMap::new(alloc),
        }
    }

    pub(crate) fn is_empty(&self) -> bool
        ensures { IsTrue result ↔ (self.now ≡ []) }
    {
        self.pairs.is_empty()
    }

    pub(crate) fn pairs(&self) -> &[(&'a str, &'a Json)]
        ensures { result.now ≡ self.now }
    {
        &self.pairs
    }

    /// The value that a name has.
    pub(crate) fn value_of(&self, name: &str) -> Option<&'a Json>
        ensures { result ≡ lookup (λ key. bytes_eq name.now key.now) self.now }
    {
        self.values.get(name).copied()
    }

    /// Adds a new name, as the last. The only fault is [`Fault::Memory`].
    pub(crate) fn append(&mut self, name: &'a str, value: &'a Json) -> Result<(), Fault>
        requires { lookup (λ key. bytes_eq name.now key.now) self.old ≡ None }
        ensures ok { OnOk result (self.new ≡ self.old ++ (name.entry, value.entry) ∷ []) }
        ensures fault { IfErr result (λ fault. fault ≡ Fault.Memory) }
    {
        self.pairs.reserve(1)?;
        self.values.insert(name, value)?;
        self.pairs.push_reserved((name, value));
        Ok(())
    }
}
