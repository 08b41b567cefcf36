//! The features that the first line of a tile holds, moved and chosen.
ghost use Rattle.std.specs.Prelude.{◌≡◌, ◌≤◌, ◌<◌, ◌⊎◌, ◌++◌, [], IfOk, IfErr, OnOk, length, get_or, option_map, option_to_list, true};
ghost use Rattle.city_families.specs.HeldTexts.{AreOwnParts, texts_in};
ghost use Rattle.city_feature.specs.Choice.{IsChosen};
ghost use Rattle.city_feature.specs.Ended.{IsOwnPart};
ghost use Rattle.city_feature.specs.FeatureLine.{GivesFeature, RefusesFeatureLine, TellsWanted};
ghost use Rattle.tile_stream.specs.Held.{LinesGive, RefusesLines, TellWanted};

use crate::tile_reader::ready::ReadyTexts;
use byte_streams::{Fault, Line};
use city_cut::FeatureTexts;
use city_feature::{Choice, OwnBuffers, own_is_wanted, own_text};
use city_grid::Shift;
use std::alloc::{AllocError, Global};

/// The texts of the features that the first line of a tile holds itself.
#[derive(Debug, Drop)]
pub(crate) struct Held {
    /// The number of that line, from 1.
    pub(crate) line: u64,
    pub(crate) texts: FeatureTexts,
}

/// The texts of those features that are chosen when they are moved by the shift. All are moved before the first is given.
///
/// # Errors
///
/// [`Fault::VertexRange`] where one of them cannot be moved so, and [`Fault::Memory`].
pub(crate) fn texts_of(
    alloc: Global,
    held: FeatureTexts,
    shift: Shift,
    choice: &Choice,
) -> Result<ReadyTexts, Fault>
    requires some { 0 < length held.own }
    requires own { AreOwnParts held }
    ensures ok { IfOk result (λ texts.
        LinesGive (IsChosen choice.now) shift (texts_in held) texts) }
    ensures fewer { IfOk result (λ texts. length texts ≤ length (texts_in held)) }
    ensures refused { IfErr result (λ fault. RefusesLines shift fault (texts_in held)) }
{
    let mut held = held;
    if held.is_made() {
        return made_texts(alloc, held, shift, choice);
    }
    stored_texts(alloc, &mut held, shift, choice)
}

/// The same of texts that are made when they are asked for: what is given is made of moved vertices.
fn made_texts(
    alloc: Global,
    held: FeatureTexts,
    shift: Shift,
    choice: &Choice,
) -> Result<ReadyTexts, Fault>
    requires some { 0 < length held.own }
    requires own { AreOwnParts held }
    requires made { held.is_made ≡ true }
    ensures ok { IfOk result (λ texts.
        LinesGive (IsChosen choice.now) shift (texts_in held) texts) }
    ensures fewer { IfOk result (λ texts. length texts ≤ length (texts_in held)) }
    ensures refused { IfErr result (λ fault. RefusesLines shift fault (texts_in held)) }
{
    let mut held = held;
    let wanted = wanted_of(alloc, &mut held, shift, choice)?;
    held.move_by(alloc, shift)?;
    held.keep(&wanted);
    Ok(ReadyTexts::made(held))
}

/// Which of the features are chosen when they are moved by the shift, as all can be.
fn wanted_of(
    alloc: Global,
    held: &mut FeatureTexts,
    shift: Shift,
    choice: &Choice,
) -> Result<Vec<bool>, Fault>
    requires some { 0 < length held.old.own }
    requires own { AreOwnParts held.old }
    ensures ok { IfOk result (λ wanted.
        TellWanted (IsChosen choice.now) shift (texts_in held.old) wanted.items) }
    ensures refused { IfErr result (λ fault. RefusesLines shift fault (texts_in held.old)) }
    ensures same { held.new ≡ held.old }
{
    let mut wanted = Vec::with_capacity(alloc, held.len())?;
    let mut buffers = Buffers::new(alloc);
    let mut at = 0usize;
    'held: while at < held.len() {
        wanted.push(is_wanted_at(held, at, shift, choice, &mut buffers)?)?;
        at += 1;
    }
    Ok(wanted)
}

/// The same texts, held with their common end once.
fn stored_texts(
    alloc: Global,
    held: &mut FeatureTexts,
    shift: Shift,
    choice: &Choice,
) -> Result<ReadyTexts, Fault>
    requires some { 0 < length held.old.own }
    requires own { AreOwnParts held.old }
    ensures ok { IfOk result (λ texts.
        LinesGive (IsChosen choice.now) shift (texts_in held.old) texts) }
    ensures fewer { IfOk result (λ texts. length texts ≤ length (texts_in held.old)) }
    ensures refused { IfErr result (λ fault. RefusesLines shift fault (texts_in held.old)) }
{
    let mut texts = Vec::new(alloc);
    let mut buffers = Buffers::new(alloc);
    let mut at = 0usize;
    'held: while at < held.len() {
        let given = text_at(held, at, shift, choice, &mut buffers)?;
        push_given(given, &mut texts)?;
        at += 1;
    }
    let ready = ReadyTexts::that_end_in(alloc, texts, held.common())?;
    Ok(ready)
}

/// Puts a text, where there is one, after the others.
fn push_given(given: Option<Line>, texts: &mut Vec<Line>) -> Result<(), AllocError>
    ensures { OnOk result (texts.new.items ≡ texts.old.items ++ option_to_list given) }
{
    let Some(text) = given else {
        return Ok(());
    };
    texts.push(text)?;
    Ok(())
}

/// Memory to reuse: what it holds is lost.
#[derive(Drop)]
struct Buffers {
    alloc: Global,
    /// For what a text has of its own.
    own: Line,
    /// For what becomes of it.
    given: OwnBuffers,
}

impl Buffers {
    fn new(alloc: Global) -> Buffers {
        Buffers {
            alloc,
            own: Line::new(alloc),
            given: OwnBuffers::new(alloc),
        }
    }
}

/// What the feature at a place has of its own, in the line.
fn take_own(
    alloc: Global,
    held: &mut FeatureTexts,
    at: usize,
    own: &mut Line,
) -> Result<(), AllocError>
    requires within { at < length held.old.own }
    requires parts { AreOwnParts held.old }
    ensures own { OnOk result (own.new ≡ get_or held.old.own at []) }
    ensures part { OnOk result (IsOwnPart own.new held.old.common) }
    ensures whole { OnOk result (get_or (texts_in held.old) at [] ≡ own.new ++ held.old.common) }
    ensures same { held.new ≡ held.old }
{
    own.truncate(0);
    held.append_own(alloc, at, own)
}

/// What the text of the feature at a place has before the end that all share, where it is chosen when it is moved by the
/// shift.
fn text_at(
    held: &mut FeatureTexts,
    at: usize,
    shift: Shift,
    choice: &Choice,
    buffers: &mut Buffers,
) -> Result<Option<Line>, Fault>
    requires within { at < length held.old.own }
    requires own { AreOwnParts held.old }
    ensures ok { IfOk result (λ given. GivesFeature (IsChosen choice.now) shift (get_or (texts_in held.old) at [])
        (option_map (λ front. front ++ held.old.common) given)) }
    ensures refused { IfErr result (λ fault. (fault ≡ Fault.Memory)
        ⊎ RefusesFeatureLine shift fault (get_or (texts_in held.old) at [])) }
    ensures same { held.new ≡ held.old }
{
    take_own(buffers.alloc, held, at, &mut buffers.own)?;
    let own = &mut buffers.own;
    own_text(buffers.alloc, own, shift, choice, &mut buffers.given)
}

/// Whether the feature at a place is chosen when it is moved by the shift.
fn is_wanted_at(
    held: &mut FeatureTexts,
    at: usize,
    shift: Shift,
    choice: &Choice,
    buffers: &mut Buffers,
) -> Result<bool, Fault>
    requires within { at < length held.old.own }
    requires own { AreOwnParts held.old }
    ensures ok { IfOk result (TellsWanted (IsChosen choice.now) shift (get_or (texts_in held.old) at [])) }
    ensures refused { IfErr result (λ fault. (fault ≡ Fault.Memory)
        ⊎ RefusesFeatureLine shift fault (get_or (texts_in held.old) at [])) }
    ensures same { held.new ≡ held.old }
{
    take_own(buffers.alloc, held, at, &mut buffers.own)?;
    let own = &mut buffers.own;
    own_is_wanted(buffers.alloc, own, shift, choice, &mut buffers.given)
}
