//! The line of a feature on its compact text: its members are looked up there, and its vertices looked at, measured or
//! moved.
ghost use Rattle.std.specs.Prelude.{◌≡◌, ◌≤◌, ◌↔◌, ℕ, List, All, length, slice_range, option_map, IfErr, IfOk, IfSome, IsTrue, OnOk};
ghost use Rattle.city_json.specs.Compact.{compact};
ghost use Rattle.city_json.specs.ObjectTexts.{SpellsThere, object_of};
ghost use Rattle.city_json.specs.Parts.{with_value};
ghost use Rattle.city_json.specs.TextPlace.{placed_text};
ghost use Rattle.city_json.specs.Tree.{Tree};
ghost use Rattle.city_json.specs.Triples.{HasTriples};
ghost use Rattle.city_grid.specs.Axes.{IsInRange, Triple};
ghost use Rattle.city_feature.specs.Area.{Meets};
ghost use Rattle.city_feature.specs.Choice.{HasType, IsChosen};
ghost use Rattle.city_feature.specs.Faults.{IsArrayText, RefusesMoved, RefusesVertices};
ghost use Rattle.city_feature.specs.Feature.{moved_vertices, vertices_tree};
ghost use Rattle.city_feature.specs.FeatureLine.{GivesFeature};
ghost use Rattle.city_feature.specs.LineVertices.{AreKnown, BecomeOf, LieIn, text_with};
ghost use Rattle.city_feature.specs.LineTexts.{SpellsVertices, no_steps};

mod types;
pub(crate) mod unread;

use crate::choices::Choice;
use crate::choices::area::Area;
use crate::choices::selecting::meets_given_area;
use crate::features::faults::told_vertices;
use crate::features::moving::moved_all;
use crate::features::shape::placed_vertices;
use crate::features::texts::{SpelledVertices, append_vertices, vertices_of, vertices_of_triples};
use byte_streams::{Fault, Line};
use city_grid::{Shift, Vertex};
use city_json::{MemberPlace, ObjectText, Span, TextPlace};
use std::alloc::{AllocError, Global};
use std::mem::swap;
use types::has_given_type;
use unread::unread_vertices_meet;

/// What becomes of the vertices of a feature's line.
#[derive(Drop)]
pub(super) enum Vertices {
    /// They stay as they stand. Whether their extent meets the area, where one is asked for.
    Stay(bool),
    /// What stands in this part is exchanged for the text of these.
    Move(MemberPlace, Vec<Vertex>),
}

/// The vertices in a part of a line where an array stands, which most often are the triples that were found there.
fn spelled_vertices(
    alloc: Global,
    line: &[u8],
    triples: Span,
    part: MemberPlace,
) -> Result<SpelledVertices, Fault>
    requires triples { HasTriples line.now triples }
    requires ordered { part.value ≤ part.end }
    requires within { part.end ≤ length line.now }
    requires array { IsArrayText (slice_range line.now part.value part.end) }
    ensures spelled { IfOk result (λ found.
        SpellsVertices (slice_range line.now part.value part.end) found.vertices.items) }
    ensures written { IfOk result (λ found. IsTrue found.as_written
        → slice_range line.now part.value part.end ≡ compact (vertices_tree found.vertices.items)) }
    ensures range { IfOk result (λ found. All IsInRange found.vertices.items) }
    ensures refused { IfErr result (λ fault. RefusesVertices fault (slice_range line.now part.value part.end)) }
{
    if triples.is_value_of(part) {
        if let Some(vertices) = vertices_of_triples(alloc, line, triples.from, triples.end) {
            return Ok(SpelledVertices {
                vertices,
                as_written: true,
            });
        }
    }
    let text = &line[part.value..part.end];
    if let Some(found) = vertices_of(alloc, text) {
        return Ok(found);
    }
    let vertices = told_vertices(alloc, text)?;
    Ok(SpelledVertices {
        vertices,
        as_written: false,
    })
}

/// Whether all vertices stay where they are.
fn is_still(shift: Shift) -> bool
    ensures { IsTrue result → shift ≡ no_steps }
{
    shift == Shift::zero()
}

/// The vertices, each moved by the shift.
fn shifted_vertices(vertices: Vec<Vertex>, shift: Shift) -> Result<Vec<Vertex>, Fault>
    ensures ok { IfOk result (λ moved. All IsInRange vertices.items
        → (moved.items ≡ moved_vertices vertices.items shift) × All IsInRange moved.items) }
    ensures refusal { IfErr result (λ fault. (fault ≡ Fault.VertexRange)
        × ¬ All IsInRange (moved_vertices vertices.items shift)) }
{
    if is_still(shift) {
        return Ok(vertices);
    }
    moved_all(vertices, shift)
}

/// What becomes of the vertices of a feature, which is moved by the shift.
#[inline(always)]
fn line_vertices(
    alloc: Global,
    line: &ObjectText<'_>,
    triples: Span,
    shift: Shift,
    area: &Option<Area>,
) -> Result<Vertices, Fault>
    requires triples { HasTriples line.now.text triples }
    ensures is { IfOk result (BecomeOf area.now shift line.now) }
    ensures inside { IfOk result (LieIn line.now.text) }
    ensures refused { IfErr result (λ fault. RefusesMoved shift fault (object_of line.now)) }
{
    let Some(part) = placed_vertices(line) else {
        return Err(Fault::NotAFeature);
    };
    let text = line.text();
    let stay = is_still(shift);
    if stay {
        if let Some(meets) = unread_vertices_meet(area, text, triples, part) {
            return Ok(Vertices::Stay(meets));
        }
    }
    let found = spelled_vertices(alloc, text, triples, part)?;
    if found.as_written && stay {
        return Ok(Vertices::Stay(meets_given_area(area, &found.vertices)));
    }
    let vertices = shifted_vertices(found.vertices, shift)?;
    Ok(Vertices::Move(part, vertices))
}

/// Whether the extent of the vertices meets the area, where there is one.
fn vertices_meet(area: &Option<Area>, vertices: &Vertices) -> bool
    ensures { (ps : List Triple) → AreKnown area.now ps vertices.now
        → (IsTrue result ↔ IfSome area.now (λ area. Meets area ps)) }
{
    match vertices {
        Vertices::Stay(meets) => *meets,
        Vertices::Move(_, vertices) => meets_given_area(area, vertices),
    }
}

/// Whether the choice selects the feature of these vertices; `has_type` says whether it has one of the types, where the
/// choice gives any.
fn selects_vertices(choice: &Choice, has_type: bool, vertices: &Vertices) -> bool
    ensures { (value : Tree) (ps : List Triple)
        → (IsTrue has_type ↔ IfSome choice.now.types (λ types. HasType types value))
        → AreKnown choice.now.area ps vertices.now
        → (IsTrue result ↔ IsChosen choice.now (record { value = value; vertices = ps })) }
{
    (has_type && vertices_meet(&choice.area, vertices)) != choice.exclude
}

/// What becomes of the vertices of a feature, where the choice selects it once it is moved by the shift.
#[inline(always)]
pub(super) fn chosen_vertices(
    alloc: Global,
    line: &ObjectText<'_>,
    triples: Span,
    shift: Shift,
    choice: &Choice,
) -> Result<Option<Vertices>, Fault>
    requires triples { HasTriples line.now.text triples }
    ensures ok { IfOk result (λ chosen. (bytes : List ℕ) → SpellsThere bytes line.now
        → GivesFeature (IsChosen choice.now) shift bytes
        (option_map (λ vertices. text_with vertices line.now.text) chosen)) }
    ensures inside { IfOk result (λ chosen. IfSome chosen (LieIn line.now.text)) }
    ensures refused { IfErr result (λ fault. RefusesMoved shift fault (object_of line.now)) }
{
    let vertices = line_vertices(alloc, line, triples, shift, &choice.area)?;
    let has_type = has_given_type(alloc, &choice.types, line)?;
    if !selects_vertices(choice, has_type, &vertices) {
        return Ok(None);
    }
    Ok(Some(vertices))
}

/// Writes a line with these vertices in a part of it. What `text` held is lost.
fn write_moved(
    line: &[u8],
    part: MemberPlace,
    vertices: &[Vertex],
    text: &mut Line,
) -> Result<(), AllocError>
    requires ordered { part.value ≤ part.end }
    requires within { part.end ≤ length line.now }
    ensures { OnOk result (text.new ≡ with_value line.now part (compact (vertices_tree vertices.now))) }
{
    text.truncate(0);
    // vertices that are moved away from 0 have more digits
    let room = line.len().saturating_add(line.len() / 4);
    text.reserve_exact(room)?;
    text.append(&line[..part.value])?;
    append_vertices(vertices, text)?;
    text.append(&line[part.end..])
}

/// Puts a compact text that was written into the other buffer.
fn hand_over(place: TextPlace, compact: &mut Line, text: &mut Line)
    ensures { (read : List ℕ) → placed_text place read text.new ≡ placed_text place read compact.old }
{
    if place == TextPlace::Written {
        swap(compact, text);
    }
}

/// Where the text of a feature stands, whose compact text stands at a place of `bytes` or in `compact`, with what becomes of
/// its vertices. Both buffers lose what they held.
#[inline(always)]
pub(super) fn place_text(
    bytes: &[u8],
    place: TextPlace,
    vertices: Vertices,
    compact: &mut Line,
    text: &mut Line,
) -> Result<TextPlace, AllocError>
    requires inside { LieIn (placed_text place bytes.now compact.old) vertices }
    ensures { IfOk result (λ given. placed_text given bytes.now text.new
        ≡ text_with vertices (placed_text place bytes.now compact.old)) }
{
    match vertices {
        Vertices::Stay(_) => {
            hand_over(place, compact, text);
            Ok(place)
        }
        Vertices::Move(part, vertices) => {
            write_moved(place.bytes(bytes, compact), part, &vertices, text)?;
            Ok(TextPlace::Written)
        }
    }
}
