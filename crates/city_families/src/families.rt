//! The objects that belong together.
ghost use Rattle.std.specs.Prelude.{◌+◌, ◌≡◌, ◌≢◌, ◌<◌, ◌↔◌, ◌⊎◌, [], ℕ, List, length, map, slice_index, All, IfOk, IfErr, OnOk};
ghost use Rattle.city_json.specs.Fits.{HasDistinctNames};
ghost use Rattle.city_json.specs.Tree.{MemberTrees, Tree, member_trees, members_tree, named_tree};
ghost use Rattle.city_families.specs.CityObjects.{AllBelong, HasOrphan, LacksChild};
ghost use Rattle.city_families.specs.Families.{AreListed, AreRelated, IsBegun, IsInFamily, IsMarkedSoFar, RefusesFamilies};
ghost use Rattle.city_families.specs.Places.{IsFamily, IsGraph, ReachesPlace};
ghost use Rattle.city_families.specs.Search.{InRange, IsMarked};

use crate::graphs::Graph;
use crate::reach::{note, reached, search_on};
use byte_streams::Fault;
use city_json::Member;
use std::alloc::Global;

/// City objects, each at its place in the document.
#[derive(Drop)]
pub struct Kin {
    /// The places of the children of each.
    pub children: Graph,
    /// Whether each has parents.
    pub parents: Vec<bool>,
    /// Whether an object may be in more than one family: where not, each is named as a child once, or begins a family.
    pub meets: bool,
}

/// The objects that the one at the place `root` reaches through children, it among them.
#[derive(Drop)]
pub struct Family {
    pub root: usize,
    /// Where they stand, in the order of the document.
    pub places: Vec<usize>,
}

/// The family of the object at `root`. The mark of each member becomes `root`, and all others stay.
/// The only fault is [`Fault::Memory`].
fn family_of(
    alloc: Global,
    graph: &Graph,
    root: usize,
    marks: &mut [usize],
) -> Result<Family, Fault>
    requires graph { InRange graph.now (length graph.now) }
    requires root { root < length graph.now }
    requires marks { length marks.old ≡ length graph.now }
    requires unmarked { All (λ mark. mark ≢ root) marks.old }
    ensures root { IfOk result (λ family. family.root ≡ root) }
    ensures family { IfOk result (λ family. (objects : MemberTrees) → HasDistinctNames objects
        → IsGraph objects graph.now → IsFamily objects root family.places.items) }
    ensures long { OnOk result (length marks.new ≡ length marks.old) }
    ensures marks { OnOk result ((objects : MemberTrees) → HasDistinctNames objects → IsGraph objects graph.now
        → (k : ℕ) → k < length marks.old → (slice_index marks.new k ≡ root) ↔ ReachesPlace objects root k) }
    ensures others { OnOk result ((k : ℕ) → k < length marks.old → slice_index marks.new k ≢ root
        → slice_index marks.new k ≡ slice_index marks.old k) }
    ensures fault { IfErr result (λ fault. fault ≡ Fault.Memory) }
{
    let mut places = reached(alloc, graph, root, marks)?;
    places.sort_unstable();
    places.dedup();
    Ok(Family { root, places })
}

/// The marks of a search for families, before the first of them. The only fault is [`Fault::Memory`].
pub fn no_marks(alloc: Global, kin: &Kin) -> Result<Vec<usize>, Fault>
    ensures ok { IfOk result (λ marks. IsMarkedSoFar (length kin.now.children) 0 marks.items) }
    ensures fault { IfErr result (λ fault. fault ≡ Fault.Memory) }
{
    let count = kin.children.len();
    let marks = vec![in alloc; count; count]?;
    Ok(marks)
}

/// The family of the object at this place, where it begins one. The places are asked for in order, with the marks that
/// [`no_marks`] gave. The only fault is [`Fault::Memory`].
pub fn family_at(
    alloc: Global,
    kin: &Kin,
    at: usize,
    marks: &mut Vec<usize>,
) -> Result<Option<Family>, Fault>
    requires graph { InRange kin.now.children (length kin.now.children) }
    requires parents { length kin.now.parents.items ≡ length kin.now.children }
    requires at { at < length kin.now.children }
    requires marked { IsMarkedSoFar (length kin.now.children) at marks.old.items }
    ensures marked { OnOk result (IsMarkedSoFar (length kin.now.children) (at + 1) marks.new.items) }
    ensures begun { IfOk result (λ found. (pairs : List (List ℕ × Tree))
        → AreRelated pairs kin.now.children kin.now.parents.items → IsBegun pairs at found) }
    ensures fault { IfErr result (λ fault. fault ≡ Fault.Memory) }
{
    if kin.parents[at] {
        return Ok(None);
    }
    let family = family_of(alloc, &kin.children, at, marks)?;
    Ok(Some(family))
}

/// Marks the objects without parents with 1, and lists them. The only fault is [`Fault::Memory`].
fn list_beginners(
    parents: &[bool],
    marks: &mut [usize],
    found: &mut Vec<usize>,
) -> Result<(), Fault>
    requires long { length marks.old ≡ length parents.now }
    requires unmarked { All (λ mark. mark ≡ 0) marks.old }
    requires none { found.old.items ≡ [] }
    ensures ok { OnOk result (AreListed parents.now (length parents.now) marks.new found.new.items) }
    ensures fault { IfErr result (λ fault. fault ≡ Fault.Memory) }
{
    for at in 0..parents.len() {
        if parents[at] {
            continue;
        }
        note(at, 1, marks, found)?;
    }
    Ok(())
}

/// Marks the objects that are in a family with 1. Whether one may be in two. The only fault is [`Fault::Memory`].
fn mark_families(
    alloc: Global,
    graph: &Graph,
    parents: &[bool],
    marks: &mut [usize],
) -> Result<bool, Fault>
    requires graph { InRange graph.now (length graph.now) }
    requires parents { length parents.now ≡ length graph.now }
    requires long { length marks.old ≡ length graph.now }
    requires unmarked { All (λ mark. mark ≡ 0) marks.old }
    ensures long { OnOk result (length marks.new ≡ length graph.now) }
    ensures marked { OnOk result ((k : ℕ) → IsMarked marks.new 1 k ↔ IsInFamily graph.now parents.now k) }
    ensures others { OnOk result ((k : ℕ) → k < length marks.new → slice_index marks.new k ≢ 1
        → slice_index marks.new k ≡ 0) }
    ensures fault { IfErr result (λ fault. fault ≡ Fault.Memory) }
{
    let mut found = Vec::with_capacity(alloc, graph.len())?;
    list_beginners(parents, marks, &mut found)?;
    let meets = search_on(graph, 1, marks, &mut found)?;
    Ok(meets)
}

/// Sees that each of the objects that have these children, and of which these have parents, is in a family. Each is
/// looked at once, however many families it is in. Whether one may be in more than one, as [`Kin`] tells.
///
/// # Errors
///
/// [`Fault::Orphan`] where an object is in no family. [`Fault::Memory`] may come in its place.
pub fn check_belonging(alloc: Global, graph: &Graph, parents: &[bool]) -> Result<bool, Fault>
    requires graph { InRange graph.now (length graph.now) }
    requires parents { length parents.now ≡ length graph.now }
    ensures belong { OnOk result ((pairs : List (List ℕ × Tree)) → AreRelated pairs graph.now parents.now
        → AllBelong (member_trees pairs)) }
    ensures fault { IfErr result (λ fault. (fault ≡ Fault.Memory) ⊎ ((fault ≡ Fault.Orphan)
        × ((pairs : List (List ℕ × Tree)) → AreRelated pairs graph.now parents.now
        → HasOrphan (member_trees pairs)))) }
{
    let mut marks = vec![in alloc; 0usize; graph.len()]?;
    let meets = mark_families(alloc, graph, parents, &mut marks)?;
    if marks.contains(&0) {
        return Err(Fault::Orphan);
    }
    Ok(meets)
}
