//! Vertices that stay as they stand and are not read: they are looked at or, where an area is asked for and they are
//! triples, measured in their text, with no list of them and no z.
ghost use Rattle.std.specs.Prelude.{◌≡◌, ◌≤◌, ◌+◌, ◌↔◌, List, All, length, slice_range, IfSome, IsTrue, OnSome};
ghost use Rattle.city_grid.specs.Axes.{IsInRange, Triple};
ghost use Rattle.city_json.specs.Compact.{compact};
ghost use Rattle.city_json.specs.Triples.{HasTriples, IsTriplesText};
ghost use Rattle.city_feature.specs.Area.{Meets};
ghost use Rattle.city_feature.specs.Extent.{IsExtent};
ghost use Rattle.city_feature.specs.Feature.{vertices_tree};
ghost use Rattle.city_feature.specs.LineTexts.{IsVerticesText};

use crate::choices::area::Area;
use crate::choices::extents::{Extent, extended, reaches};
use crate::features::texts::{MIN_LEN, stands_as_written};
use city_grid::triple_plan_at;
use city_json::{MemberPlace, Span, between};

/// The extent of the vertices that stand between two places of a text as triples of short whole numbers, so that they need
/// no check. `None`: a vertex is not found by [`triple_plan_at`].
#[inline(never)]
fn extent_of_triples(text: &[u8], from: usize, end: usize) -> Option<Extent>
    requires triples { IsTriplesText text.now from end }
    requires within { end ≤ length text.now }
    requires long { from + 4 ≤ end }
    ensures { IfSome result (λ extent. (ps : List Triple)
        × (slice_range text.now from end ≡ compact (vertices_tree ps)) × All IsInRange ps
        × IsExtent ps extent) }
{
    let mut extent = None;
    let mut at = from + 1;
    'vertices: loop {
        let found = triple_plan_at(text, at)?;
        let wider = extended(extent, found);
        if found.end + 1 >= end {
            return Some(wider);
        }
        extent = Some(wider);
        at = found.end + 1;
    }
}

/// Whether the vertices that stand in a text as triples have an extent that meets the area. `None`: there are none, or one
/// is not found so.
pub fn triples_meet(area: &Area, text: &[u8], triples: Span) -> Option<bool>
    requires triples { HasTriples text.now triples }
    ensures { IfSome result (λ meets. (ps : List Triple)
        × (slice_range text.now triples.from triples.end ≡ compact (vertices_tree ps)) × All IsInRange ps
        × (IsTrue meets ↔ Meets area.now ps)) }
{
    let Span { from, end } = triples;
    if end > text.len() || from >= end || end - from < MIN_LEN {
        return None;
    }
    let extent = extent_of_triples(text, from, end)?;
    Some(reaches(extent, area))
}

/// That what stands in a part of a line is what would be written for its vertices, which most often are the triples that
/// were found there. `None`: it is not.
#[inline(always)]
fn part_as_written(line: &[u8], triples: Span, part: MemberPlace) -> Option<()>
    requires triples { HasTriples line.now triples }
    ensures { OnSome result ((part.value ≤ part.end) × IsVerticesText (slice_range line.now part.value part.end)) }
{
    if triples.is_value_of(part) {
        return Some(());
    }
    let text = between(line, part.value, part.end)?;
    stands_as_written(text)
}

/// Whether the vertices in a part of a line, which need not be read to stay as they stand, meet the area, where there is
/// one. `None`: they have to be read.
#[inline(always)]
pub(super) fn unread_vertices_meet(
    area: &Option<Area>,
    line: &[u8],
    triples: Span,
    part: MemberPlace,
) -> Option<bool>
    requires triples { HasTriples line.now triples }
    ensures { IfSome result (λ meets. (part.value ≤ part.end) × (ps : List Triple)
        × (slice_range line.now part.value part.end ≡ compact (vertices_tree ps)) × All IsInRange ps
        × (IsTrue meets ↔ IfSome area.now (λ area. Meets area ps))) }
{
    let Some(area) = area else {
        part_as_written(line, triples, part)?;
        return Some(true);
    };
    if !triples.is_value_of(part) {
        return None;
    }
    triples_meet(area, line, triples)
}
