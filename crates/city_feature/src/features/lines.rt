//! The line of a feature, from its bytes to its text.
ghost use Rattle.std.specs.Prelude.{option_map, IfOk, IfErr};
ghost use Rattle.city_json.specs.TextPlace.{placed_text};
ghost use Rattle.city_feature.specs.Choice.{IsChosen};
ghost use Rattle.city_feature.specs.FeatureLine.{GivesFeature, RefusesFeatureLine};

use crate::choices::Choice;
use crate::features::on_text::{chosen_vertices, place_text};
use byte_streams::{Fault, Line};
use city_grid::Shift;
use city_json::{TextPlace, Workspace, compact_object};
use std::alloc::Global;

/// The compact text of the feature that a line spells, moved by the shift, where it is chosen then: none, or where it
/// stands, in the line as it was read or in `text`. The workspace is taken for all its memory, and `text` is a buffer; what
/// they held is lost.
///
/// # Errors
///
/// That of reading the line, [`Fault::NotUtf8`], [`Fault::TooDeep`], [`Fault::Syntax`] or
/// [`Fault::DuplicateName`], in this order; else [`Fault::NotAFeature`]; else that of the first faulty
/// vertex, [`Fault::VertexShape`], [`Fault::VertexNotInteger`] or [`Fault::VertexRange`]; else
/// [`Fault::VertexRange`] where a vertex leaves the range when it is moved. [`Fault::Memory`] may come
/// in place of all but the first two.
pub fn feature_text(
    alloc: Global,
    bytes: &[u8],
    shift: Shift,
    choice: &Choice,
    workspace: &mut Workspace,
    text: &mut Line,
) -> Result<Option<TextPlace>, Fault>
    ensures ok { IfOk result (λ given. GivesFeature (IsChosen choice.now) shift bytes.now
        (option_map (λ place. placed_text place bytes.now text.new) given)) }
    ensures refusal { IfErr result (λ fault. RefusesFeatureLine shift fault bytes.now) }
{
    let Some(object) = compact_object(alloc, bytes, workspace)? else {
        return Err(Fault::NotAFeature);
    };
    let line = object.text(bytes, &workspace.line);
    let Some(vertices) = chosen_vertices(alloc, &line, object.triples, shift, choice)? else {
        workspace.take_back(object.parts);
        return Ok(None);
    };
    let place = place_text(bytes, object.place, vertices, &mut workspace.line, text)?;
    workspace.take_back(object.parts);
    Ok(Some(place))
}
