//! The texts of a document's features, which all end in the same: its appearance, or a brace.
ghost use Rattle.std.specs.Prelude.{◌≡◌, ◌⊎◌, ◌++◌, ◌∷◌, [], ℕ, List, option_map, IfErr, IfOk, OnOk};
ghost use Rattle.city_json.specs.Bytes.{close_brace};
ghost use Rattle.city_json.specs.TextPlace.{placed_text};
ghost use Rattle.city_feature.specs.Choice.{IsChosen};
ghost use Rattle.city_feature.specs.Ended.{IsOwnPart};
ghost use Rattle.city_feature.specs.FeatureLine.{GivesFeature, RefusesFeatureLine, TellsWanted};

use crate::choices::Choice;
use crate::features::lines::feature_text;
use byte_streams::{Fault, Line};
use city_grid::Shift;
use city_json::{TextPlace, Workspace};
use std::alloc::{AllocError, Global};

/// Memory that goes from one text to the next.
#[derive(Drop)]
pub struct OwnBuffers {
    /// For its compact text.
    workspace: Workspace,
    /// For that of moved vertices.
    text: Line,
}

impl OwnBuffers {
    /// No memory yet.
    pub fn new(alloc: Global) -> OwnBuffers {
        OwnBuffers {
            workspace: Workspace::new(alloc, Line::new(alloc)),
            text: Line::new(alloc),
        }
    }
}

/// What stands before the brace at the end, in memory of its own.
fn before_brace(alloc: Global, text: &[u8]) -> Result<Line, AllocError>
    requires { (front : List ℕ) × (text.now ≡ front ++ close_brace ∷ []) }
    ensures { IfOk result (λ front. text.now ≡ front ++ close_brace ∷ []) }
{
    let front = &text[..text.len() - 1];
    let mut line = Line::from_vec(Vec::with_capacity(alloc, front.len())?);
    line.append(front)?;
    Ok(line)
}

/// The text of the feature whose own part this is, closed by a brace in the line, as [`feature_text`] gives it.
///
/// # Errors
///
/// Those of [`feature_text`].
fn closed_text(
    alloc: Global,
    own: &mut Line,
    shift: Shift,
    choice: &Choice,
    buffers: &mut OwnBuffers,
) -> Result<Option<TextPlace>, Fault>
    ensures line { OnOk result (own.new ≡ own.old ++ close_brace ∷ []) }
    ensures ok { IfOk result (λ given. GivesFeature (IsChosen choice.now) shift own.new
        (option_map (λ place. placed_text place own.new buffers.new.text) given)) }
    ensures refused { IfErr result (λ fault. (fault ≡ Fault.Memory)
        ⊎ RefusesFeatureLine shift fault (own.old ++ close_brace ∷ [])) }
{
    own.append(b"}")?;
    let closed = own.items();
    let workspace = &mut buffers.workspace;
    feature_text(alloc, closed, shift, choice, workspace, &mut buffers.text)
}

/// What the compact text of a feature has of its own before an end that others share, a brace or an appearance and a brace,
/// moved by the shift, where it is chosen then; none where it is not. Whatever that end is, it comes after what is given.
/// What the line holds is lost.
///
/// # Errors
///
/// Those of [`feature_text`], of the whole text: where this is a feature's own part, [`Fault::VertexRange`] where a vertex
/// leaves the range when it is moved, or [`Fault::Memory`].
pub fn own_text(
    alloc: Global,
    own: &mut Line,
    shift: Shift,
    choice: &Choice,
    buffers: &mut OwnBuffers,
) -> Result<Option<Line>, Fault>
    ensures ok { IfOk result (λ given. (end : List ℕ) → IsOwnPart own.old end
        → GivesFeature (IsChosen choice.now) shift (own.old ++ end) (option_map (λ front. front ++ end) given)) }
    ensures refused { IfErr result (λ fault. (end : List ℕ) → IsOwnPart own.old end
        → (fault ≡ Fault.Memory) ⊎ RefusesFeatureLine shift fault (own.old ++ end)) }
{
    let Some(place) = closed_text(alloc, own, shift, choice, buffers)? else {
        return Ok(None);
    };
    let front = before_brace(alloc, place.bytes(own.items(), &buffers.text))?;
    Ok(Some(front))
}

/// Whether [`own_text`] gives a text. What the line holds is lost.
///
/// # Errors
///
/// Those of [`own_text`].
pub fn own_is_wanted(
    alloc: Global,
    own: &mut Line,
    shift: Shift,
    choice: &Choice,
    buffers: &mut OwnBuffers,
) -> Result<bool, Fault>
    ensures ok { IfOk result (λ is. (end : List ℕ) → IsOwnPart own.old end
        → TellsWanted (IsChosen choice.now) shift (own.old ++ end) is) }
    ensures refused { IfErr result (λ fault. (end : List ℕ) → IsOwnPart own.old end
        → (fault ≡ Fault.Memory) ⊎ RefusesFeatureLine shift fault (own.old ++ end)) }
{
    let given = closed_text(alloc, own, shift, choice, buffers)?;
    Ok(given.is_some())
}
