//! Which features are wanted.
ghost use Rattle.std.specs.Prelude.{◌≡◌, IfOk, IfErr};

pub(crate) mod area;
pub(crate) mod extents;
pub(crate) mod selecting;
pub(crate) mod types;

use crate::choices::area::Area;
use crate::choices::types::{Types, copied};
use byte_streams::Fault;
use std::alloc::Global;

/// Which features are wanted: those of some types, those that meet an area, those that do both, or
/// all; or, with `exclude`, all others.
#[derive(Debug, Drop)]
pub struct Choice {
    pub types: Option<Types>,
    pub area: Option<Area>,
    pub exclude: bool,
}

impl Choice {
    /// A choice of the features that have one of the types and meet the area, as far as they are
    /// given. It takes no memory.
    pub fn new(types: Option<Types>, area: Option<Area>, exclude: bool) -> Choice
        ensures { result ≡ record { types = types; area = area; exclude = exclude } }
    {
        Choice {
            types,
            area,
            exclude,
        }
    }

    /// An equal choice that shares no memory with this one. The only fault is [`Fault::Memory`].
    pub fn copy(&self, alloc: Global) -> Result<Choice, Fault>
        ensures ok { IfOk result (λ copy. copy ≡ self.now) }
        ensures fault { IfErr result (λ fault. fault ≡ Fault.Memory) }
    {
        let types = match &self.types {
            Some(types) => Some(copied(alloc, types)?),
            None => None,
        };
        Ok(Choice::new(types, self.area, self.exclude))
    }
}
