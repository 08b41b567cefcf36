//! The city objects of a value with their children and parents.
ghost use Rattle.std.specs.Prelude.{map, IfOk, IfErr, OnOk};
ghost use Rattle.city_json.specs.Fits.{HasDistinctNames};
ghost use Rattle.city_json.specs.Tree.{members_tree, named_tree};
ghost use Rattle.city_families.specs.CityObjects.{AllBelong, LacksChild};
ghost use Rattle.city_families.specs.Families.{AreRelated, RefusesFamilies};

use crate::objects::{children, parents};
use byte_streams::Fault;
use city_families::{Kin, check_belonging};
use city_json::Member;
use std::alloc::Global;

/// The objects with their children and parents, each of which is in a family.
///
/// # Errors
///
/// [`Fault::ChildMissing`] where a child names no object, else [`Fault::Orphan`] where an object is in
/// no family. [`Fault::Memory`] may come in place of both.
pub(crate) fn kin_of(alloc: Global, objects: &[Member]) -> Result<Kin, Fault>
    requires { HasDistinctNames (members_tree objects.now) }
    ensures ok { IfOk result (λ kin. AreRelated (map named_tree objects.now) kin.children kin.parents.items) }
    ensures children { OnOk result (¬ LacksChild (members_tree objects.now)) }
    ensures belong { OnOk result (AllBelong (members_tree objects.now)) }
    ensures refusal { IfErr result (λ fault. RefusesFamilies fault (members_tree objects.now)) }
{
    let graph = children(alloc, objects)?;
    let parents = parents(alloc, objects)?;
    let meets = check_belonging(alloc, &graph, &parents)?;
    Ok(Kin {
        children: graph,
        parents,
        meets,
    })
}
