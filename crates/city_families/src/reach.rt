//! What is reached from one thing through those that come after each.
ghost use Rattle.std.specs.Prelude.{◌≡◌, ◌≢◌, ◌<◌, ◌++◌, ◌↔◌, ℕ, [], ◌∷◌, length, All, Contains};
ghost use Rattle.std.specs.Prelude.{slice_index, slice_set, IfOk, IfErr, OnOk};
ghost use Rattle.city_families.specs.Reach.{Reached};
ghost use Rattle.city_families.specs.Search.{After, InRange, IsMarked, IsReachedFrom, Grows};

use crate::graphs::Graph;
use byte_streams::Fault;
use std::alloc::Global;

/// Marks one thing with the root and puts it after those that were found, unless it has that mark.
pub(crate) fn note(
    new: usize,
    root: usize,
    marks: &mut [usize],
    found: &mut Vec<usize>,
) -> Result<(), Fault>
    requires { new < length marks.old }
    ensures again { slice_index marks.old new ≡ root
        → (marks.new ≡ marks.old) × (found.new.items ≡ found.old.items) }
    ensures first { slice_index marks.old new ≢ root
        → OnOk result ((marks.new ≡ slice_set marks.old new root)
        × (found.new.items ≡ found.old.items ++ new ∷ [])) }
    ensures fault { IfErr result (λ fault. fault ≡ Fault.Memory) }
{
    if marks[new] == root {
        return Ok(());
    }
    found.push(new)?;
    marks[new] = root;
    Ok(())
}

/// Notes each of the new things.
fn note_all(
    new: &[u32],
    root: usize,
    marks: &mut [usize],
    found: &mut Vec<usize>,
) -> Result<(), Fault>
    requires { All (λ k. k < length marks.old) new.now }
    ensures ok { OnOk result (Grows root new.now marks.old marks.new found.old.items found.new.items) }
    ensures fault { IfErr result (λ fault. fault ≡ Fault.Memory) }
{
    for one in new {
        note(*one as usize, root, marks, found)?;
    }
    Ok(())
}

/// Notes what comes after one thing. Whether there is less of it that is new than is named.
fn note_row(
    row: &[u32],
    mark: usize,
    marks: &mut [usize],
    found: &mut Vec<usize>,
) -> Result<bool, Fault>
    requires { All (λ k. k < length marks.old) row.now }
    ensures ok { OnOk result (Grows mark row.now marks.old marks.new found.old.items found.new.items) }
    ensures fault { IfErr result (λ fault. fault ≡ Fault.Memory) }
{
    let before = found.len();
    note_all(row, mark, marks, found)?;
    Ok(found.len() - before < row.len())
}

/// Goes on from the things that were found, which alone have the mark, to all that is reached from them, each once.
/// Nothing is come to twice where the answer is no. The only fault is [`Fault::Memory`].
pub(crate) fn search_on(
    graph: &Graph,
    mark: usize,
    marks: &mut [usize],
    found: &mut Vec<usize>,
) -> Result<bool, Fault>
    requires graph { InRange graph.now (length graph.now) }
    requires marks { length marks.old ≡ length graph.now }
    requires found { (k : ℕ) → Contains found.old.items k ↔ IsMarked marks.old mark k }
    ensures ok { OnOk result ((k : ℕ)
        → Contains found.new.items k ↔ IsReachedFrom graph.now found.old.items k) }
    ensures marks { OnOk result ((k : ℕ)
        → IsMarked marks.new mark k ↔ IsReachedFrom graph.now found.old.items k) }
    ensures others { OnOk result ((k : ℕ) → k < length marks.old → slice_index marks.new k ≢ mark
        → slice_index marks.new k ≡ slice_index marks.old k) }
    ensures long { OnOk result (length marks.new ≡ length marks.old) }
    ensures fault { IfErr result (λ fault. fault ≡ Fault.Memory) }
{
    let mut again = false;
    let mut at = 0usize;
    while at < found.len() {
        let next = found[at];
        if note_row(graph.row(next), mark, marks, found)? {
            again = true;
        }
        at += 1;
    }
    Ok(again)
}

/// What is reached from the root, each once. The marks tell afterwards for each thing whether it is: its mark
/// is then the root. All else keeps its mark. The only fault is [`Fault::Memory`].
pub(crate) fn reached(
    alloc: Global,
    graph: &Graph,
    root: usize,
    marks: &mut [usize],
) -> Result<Vec<usize>, Fault>
    requires graph { InRange graph.now (length graph.now) }
    requires root { root < length graph.now }
    requires marks { length marks.old ≡ length graph.now }
    requires unmarked { All (λ mark. mark ≢ root) marks.old }
    ensures ok { IfOk result (λ found. (k : ℕ)
        → Contains found.items k ↔ Reached (After graph.now) root k) }
    ensures marks { OnOk result ((k : ℕ)
        → IsMarked marks.new root k ↔ Reached (After graph.now) root k) }
    ensures others { OnOk result ((k : ℕ) → k < length marks.old → slice_index marks.new k ≢ root
        → slice_index marks.new k ≡ slice_index marks.old k) }
    ensures long { OnOk result (length marks.new ≡ length marks.old) }
    ensures fault { IfErr result (λ fault. fault ≡ Fault.Memory) }
{
    let mut found = Vec::with_capacity(alloc, 1)?;
    note(root, root, marks, &mut found)?;
    search_on(graph, root, marks, &mut found)?;
    Ok(found)
}
