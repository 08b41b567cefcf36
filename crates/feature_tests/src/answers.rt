//! What is answered of a feature's line, by its value and without one. A row tells which features are asked for; a line;
//! and the text of its feature, `chosen` for any text, `none` where the feature is not chosen, or the fault.
use crate::texts::{filled, is_named, split};
use byte_streams::{Fault, Line};
use city_feature::{Choice, Feature, area, feature, feature_text, line, selects, shifted, types};
use city_grid::Shift;
use city_json::{TextPlace, Workspace, read};
use std::alloc::{AllocError, Global};

/// A field of what is asked for: how far features are moved, their types, their area, and `others` where all but these
/// are asked for. An empty field stands for no move, all types or all areas.
fn field(asked: &str, place: usize) -> &str {
    match asked.split(';').nth(place) {
        Some(text) => text.trim(),
        None => "",
    }
}

/// The shift of three numbers between commas, and none of a text with no comma.
pub(crate) fn shift_of(text: &str) -> Option<Shift> {
    let Some((x, others)) = text.split_once(',') else {
        return Some(Shift::zero());
    };
    let (y, z) = others.split_once(',')?;
    match (x.parse::<i64>(), y.parse::<i64>(), z.parse::<i64>()) {
        (Ok(x), Ok(y), Ok(z)) => Shift::new(x, y, z),
        _ => None,
    }
}

pub(crate) fn choice_of(
    alloc: Global,
    names: &str,
    corners: &str,
    exclude: bool,
) -> Result<Choice, Fault> {
    Ok(Choice::new(types(alloc, names)?, area(corners), exclude))
}

/// What a buffer holds before it is used.
const FRONT: &[u8] = b"front ";

fn front(alloc: Global) -> Result<Line, AllocError> {
    Ok(Line::from_vec(FRONT.to_vec(alloc)?))
}

/// Whether the line is answered with this fault, or with this text, which is empty where its feature is not chosen, in
/// buffers that hold other lines.
pub(crate) fn is_answered(
    alloc: Global,
    bytes: &[u8],
    (shift, choice): (Shift, &Choice),
    added: &[u8],
    fault: Option<Fault>,
) -> bool {
    let (Ok(compact), Ok(mut text)) = (front(alloc), front(alloc)) else {
        return false;
    };
    let mut is_so = true;
    let mut workspace = Workspace::new(alloc, compact);
    for _ in 0..3 {
        let answer = feature_text(alloc, bytes, shift, choice, &mut workspace, &mut text);
        is_so &= is_answer(answer, place_bytes(answer, bytes, &text), added, fault);
        workspace.trim();
    }
    is_so
}

/// The text that was answered, or an empty one.
fn place_bytes<'a>(
    answer: Result<Option<TextPlace>, Fault>,
    bytes: &'a [u8],
    text: &'a Line,
) -> &'a [u8] {
    match answer {
        Ok(Some(place)) => place.bytes(bytes, text),
        _ => b"",
    }
}

/// Whether this is the answer: the fault, or else the text, which is empty where the feature is not chosen.
fn is_answer(
    answer: Result<Option<TextPlace>, Fault>,
    given: &[u8],
    added: &[u8],
    fault: Option<Fault>,
) -> bool {
    match answer {
        Ok(place) => fault.is_none() && place.is_none() == added.is_empty() && given == added,
        Err(found) => fault == Some(found),
    }
}

fn moved_feature(alloc: Global, bytes: &[u8], shift: Shift) -> Result<Feature, Fault> {
    shifted(alloc, feature(alloc, read(alloc, bytes)?)?, shift)
}

fn copy_selects(alloc: Global, choice: &Choice, feature: &Feature) -> bool {
    match choice.copy(alloc) {
        Ok(copy) => selects(&copy, feature),
        Err(_) => false,
    }
}

/// The text of the feature, or an empty one where the choice does not select it; a fault that no line has where its copy
/// does not do the same.
fn text_of(alloc: Global, feature: &Feature, choice: &Choice) -> Result<Line, Fault> {
    let is_chosen = selects(choice, feature);
    if copy_selects(alloc, choice, feature) != is_chosen {
        return Err(Fault::Handoff);
    }
    if is_chosen {
        line(alloc, feature)
    } else {
        Ok(Line::new(alloc))
    }
}

/// What the value of the line gives.
pub(crate) fn answer_of_value(
    alloc: Global,
    bytes: &[u8],
    shift: Shift,
    choice: &Choice,
) -> Result<Line, Fault> {
    let feature = moved_feature(alloc, bytes, shift)?;
    text_of(alloc, &feature, choice)
}

fn is_meant(text: &[u8], wanted: &str) -> bool {
    match wanted {
        "chosen" => !text.is_empty(),
        "none" => text.is_empty(),
        _ => text == wanted.as_bytes(),
    }
}

/// Whether the value gives what the row tells, and the line is answered so.
pub(crate) fn gives(
    alloc: Global,
    bytes: &[u8],
    shift: Shift,
    choice: &Choice,
    wanted: &str,
) -> bool {
    match answer_of_value(alloc, bytes, shift, choice) {
        Ok(text) => {
            is_meant(text.items(), wanted)
                && is_answered(alloc, bytes, (shift, choice), text.items(), None)
        }
        Err(fault) => {
            is_named(alloc, fault, wanted)
                && is_answered(alloc, bytes, (shift, choice), b"", Some(fault))
        }
    }
}

/// How far features are to be moved.
pub(crate) fn asked_shift(asked: &str) -> Option<Shift> {
    shift_of(field(asked, 0))
}

/// The choice that is asked for.
pub(crate) fn asked_choice(alloc: Global, asked: &str) -> Result<Choice, Fault> {
    let exclude = field(asked, 3) == "others";
    choice_of(alloc, field(asked, 1), field(asked, 2), exclude)
}

/// The same of what is asked for.
pub(crate) fn gives_asked(alloc: Global, line: &str, asked: &str, wanted: &str) -> bool {
    let Some(shift) = asked_shift(asked) else {
        return false;
    };
    match asked_choice(alloc, asked) {
        Ok(choice) => gives(alloc, line.as_bytes(), shift, &choice, wanted),
        Err(_) => false,
    }
}

/// More than any line of these tests has.
const ROOM: usize = 1 << 24;

/// Whether the feature is chosen, and its text stands where it was read, or in the memory that was given for the compact
/// text of the line.
fn stays_in_place(alloc: Global, line: &str, choice: &Choice) -> bool {
    let Ok(room) = Vec::with_capacity(alloc, ROOM) else {
        return false;
    };
    let mut workspace = Workspace::new(alloc, Line::from_vec(room));
    let mut text = Line::new(alloc);
    let (bytes, still) = (line.as_bytes(), Shift::zero());
    match feature_text(alloc, bytes, still, choice, &mut workspace, &mut text) {
        Ok(Some(TextPlace::Read(_))) => true,
        Ok(Some(TextPlace::Written)) => text.into_vec().capacity() >= ROOM,
        _ => false,
    }
}

fn takes_over(alloc: Global, line: &str, names: &str, exclude: bool) -> bool {
    match choice_of(alloc, names, "", exclude) {
        Ok(choice) => stays_in_place(alloc, line, &choice),
        Err(_) => false,
    }
}

/// Whether the line is answered with no value built, where features of these types are asked for, or all others. That
/// is seen by where its text stands: the compact text of such a line is its text, and a value is printed into memory of its
/// own.
pub(crate) fn takes_memory_over(alloc: Global, line: &str, names: &str) -> bool {
    takes_over(alloc, line, names, false) || takes_over(alloc, line, names, true)
}

/// Where the text of the line stands, in the common words for it: `read`, up to the end or a place before it, `written`, or
/// `none` where it is not chosen.
pub(crate) fn place_of(alloc: Global, line: &str, asked: &str) -> Result<&'static str, Fault> {
    let shift = asked_shift(asked).ok_or(Fault::ShiftRange)?;
    let choice = asked_choice(alloc, asked)?;
    let mut workspace = Workspace::new(alloc, Line::new(alloc));
    let mut text = Line::new(alloc);
    let bytes = line.as_bytes();
    Ok(
        match feature_text(alloc, bytes, shift, &choice, &mut workspace, &mut text)? {
            Some(TextPlace::Read(end)) if end == line.trim().len() => "read",
            Some(TextPlace::Read(_)) => "elsewhere",
            Some(TextPlace::Written) => "written",
            None => "none",
        },
    )
}

/// The form in which what is wanted is put: a fault, `chosen` and `none` stand for themselves.
fn form_of<'a>(form: &'a str, wanted: &str) -> &'a str {
    match wanted.as_bytes().first() {
        Some(b'[' | b'{') => form,
        _ => "ROW",
    }
}

/// Whether the row holds: its line and its text are this form, in which they stand for `ROW`. Where it needs no value, none
/// is built.
pub(crate) fn holds(
    alloc: Global,
    form: &str,
    row: &str,
    needs_no_value: bool,
) -> Result<bool, AllocError> {
    let (asked, texts) = split(row);
    let (given, wanted) = split(texts);
    let line = filled(alloc, form, given)?;
    let text = filled(alloc, form_of(form, wanted), wanted)?;
    Ok(
        gives_asked(alloc, &line, asked, &text)
            && (!needs_no_value || takes_memory_over(alloc, &line, field(asked, 1))),
    )
}

/// Whether the text has room for a quarter more than the line that it is written from: it is asked for at once where no
/// value is built, and vertices are written anew.
fn has_room_for_more(alloc: Global, line: &[u8], shift: Shift, choice: &Choice) -> bool {
    let mut workspace = Workspace::new(alloc, Line::new(alloc));
    let mut text = Line::new(alloc);
    let answer = feature_text(alloc, line, shift, choice, &mut workspace, &mut text);
    answer == Ok(Some(TextPlace::Written))
        && text.into_vec().capacity() == line.len() + line.len() / 4
}

/// The same of the line of a row.
pub(crate) fn has_room(alloc: Global, form: &str, row: &str) -> Result<bool, Fault> {
    let (asked, texts) = split(row);
    let line = filled(alloc, form, split(texts).0)?;
    let choice = asked_choice(alloc, asked)?;
    match shift_of(field(asked, 0)) {
        Some(shift) => Ok(has_room_for_more(alloc, line.as_bytes(), shift, &choice)),
        None => Ok(false),
    }
}
