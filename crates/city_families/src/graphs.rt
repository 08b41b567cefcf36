//! Which of some numbered things come after each of them.
ghost use Rattle.std.specs.Prelude.{◌≡◌, ◌<◌, ◌≤◌, ◌++◌, ◌∷◌, [], IfOk, OnOk, Some, get_or, length, slice_get, slice_range};
ghost use Rattle.city_json.specs.OpenNames.{AreEnds};
ghost use Rattle.city_families.specs.HeldTexts.{pieces};

use crate::placing::push_place;
use std::alloc::{AllocError, Global};
use std::marker::Model;

/// For each thing the places of those that come after it, in one list for all of them.
#[derive(Debug, Drop)]
pub struct Graph {
    places: Vec<u32>,
    /// Where in the list the places of each end.
    ends: Vec<u32>,
}

impl Model for Graph {
    ghost use Rattle.std.specs.Prelude.{List, ℕ, length};
    ghost use Rattle.city_json.specs.OpenNames.{AreEnds};
    ghost use Rattle.city_families.specs.HeldTexts.{pieces};

    ghost Value = { List (List ℕ) };

    ghost view = { λ graph. pieces graph.places.items 0 graph.ends.items };

    ghost invariant = { λ graph. AreEnds 0 graph.ends.items (length graph.places.items) };
}

impl Graph {
    /// No things, with room for so many.
    pub fn with_capacity(alloc: Global, count: usize) -> Result<Graph, AllocError>
        ensures { IfOk result (λ graph. graph ≡ []) }
    {
        Ok(Graph {
            places: Vec::new(alloc),
            ends: Vec::with_capacity(alloc, count)?,
        })
    }

    /// How many things there are.
    pub fn len(&self) -> usize
        ensures { result ≡ length self.now }
    {
        self.ends.len()
    }

    /// The places of those that come after one.
    pub fn row(&self, at: usize) -> &[u32]
        requires { at < length self.now }
        ensures { slice_get self.now at ≡ Some result.now }
    {
        row(&self.places, &self.ends, at)
    }

    /// The same with one more thing, after which those at these places come. Places of 2^32 or more have no room in it.
    pub fn and_row(self, row: &[usize]) -> Result<Graph, AllocError>
        ensures { IfOk result (λ graph. graph ≡ self ++ row.now ∷ []) }
    {
        let Graph { places, ends } = self;
        let mut places = places;
        let mut ends = ends;
        append_short(row, &mut places)?;
        push_place(places.len(), &mut ends)?;
        Ok(Graph { places, ends })
    }
}

/// Where the places of one begin.
fn start_of(ends: &[u32], at: usize) -> usize
    requires { at < length ends.now }
    ensures { result ≡ get_or (0 ∷ ends.now) at 0 }
{
    if at == 0 {
        return 0;
    }
    ends[at - 1] as usize
}

fn part_of(places: &[u32], start: usize, end: usize) -> &[u32]
    requires ordered { start ≤ end }
    requires within { end ≤ length places.now }
    ensures { result.now ≡ slice_range places.now start end }
{
    &places[start..end]
}

/// The places of those that come after one.
fn row<'a>(places: &'a [u32], ends: &[u32], at: usize) -> &'a [u32]
    requires ends { AreEnds 0 ends.now (length places.now) }
    requires within { at < length ends.now }
    ensures { result.now ≡ get_or (pieces places.now 0 ends.now) at [] }
{
    part_of(places, start_of(ends, at), ends[at] as usize)
}

/// Puts these numbers after the others.
fn append_short(row: &[usize], to: &mut Vec<u32>) -> Result<(), AllocError>
    ensures { OnOk result (to.new.items ≡ to.old.items ++ row.now) }
{
    for one in row {
        push_place(*one, to)?;
    }
    Ok(())
}
