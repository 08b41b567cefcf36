//! Texts for the tests of both ways: the reader and the printer, and the compact text with no value.
use byte_streams::{Fault, Line};
use city_json::{Workspace, compact_object, print, read};
use std::alloc::{AllocError, Global};
use std::process::Abort;

/// A text by its pieces, each with how often it stands there.
pub(crate) type Pieces<'a> = &'a [(&'static [u8], usize)];

/// Ends the test where something does not hold of this text.
pub(crate) fn expect(rt: &impl Abort, holds: bool, text: &[u8]) {
    assert!(rt; holds, "{text:?}");
}

/// The same of a text by its pieces.
pub(crate) fn expect_of_pieces(rt: &impl Abort, holds: bool, text: Pieces<'_>) {
    assert!(rt; holds, "{text:?}");
}

/// The same of a text and a number.
pub(crate) fn expect_at(rt: &impl Abort, holds: bool, number: usize, text: &[u8]) {
    assert!(rt; holds, "{number} {text:?}");
}

fn put(text: &mut Vec<u8>, piece: &[u8], times: usize) -> Result<(), AllocError> {
    for _ in 0..times {
        text.extend_from_slice(piece)?;
    }
    Ok(())
}

pub(crate) fn text_of(alloc: Global, pieces: Pieces<'_>) -> Result<Vec<u8>, AllocError> {
    let mut text = Vec::new(alloc);
    for (piece, times) in pieces {
        put(&mut text, piece, *times)?;
    }
    Ok(text)
}

/// The compact text of the value that the bytes spell.
fn written(alloc: Global, text: &[u8]) -> Result<Line, Fault> {
    let mut line = Line::new(alloc);
    print(&read(alloc, text)?, &mut line)?;
    Ok(line)
}

/// The compact text, where the reader takes the text.
pub(crate) fn read_and_printed(alloc: Global, text: &[u8]) -> Option<Line> {
    written(alloc, text).ok()
}

fn is_written(alloc: Global, text: &[u8], wanted: &[u8]) -> bool {
    match written(alloc, text) {
        Ok(line) => line.items() == wanted,
        Err(_) => false,
    }
}

/// The compact text of the object that the text spells, in memory that held something; none where it spells another value.
pub(crate) fn object_text(alloc: Global, text: &[u8]) -> Result<Option<Line>, Fault> {
    let mut workspace = Workspace::new(alloc, Line::from_vec(b"an old line".to_vec(alloc)?));
    let Some(object) = compact_object(alloc, text, &mut workspace)? else {
        return Ok(None);
    };
    let Workspace { mut line, .. } = workspace;
    object.place.copy_to_buffer(text, &mut line)?;
    Ok(Some(line))
}

/// An object that has this value alone.
fn holding(alloc: Global, text: &[u8]) -> Result<Vec<u8>, AllocError> {
    let mut object = b"{\"\":".to_vec(alloc)?;
    object.extend_from_slice(text)?;
    object.push(b'}')?;
    Ok(object)
}

/// The compact text of a value that is no object, as it stands in the object that has it alone, unless that nests too deeply.
fn held_text(alloc: Global, text: &[u8]) -> Result<Line, Fault> {
    match object_text(alloc, &holding(alloc, text)?) {
        Ok(Some(line)) => match line.items() {
            [b'{', b'"', b'"', b':', inner @ .., b'}'] => Ok(Line::from_vec(inner.to_vec(alloc)?)),
            _ => Err(Fault::Syntax),
        },
        Ok(None) => Err(Fault::Syntax),
        Err(Fault::TooDeep) => written(alloc, text),
        Err(fault) => Err(fault),
    }
}

/// The compact text of the value that the text spells, with none held that is an object; or why there is none.
fn compacted(alloc: Global, text: &[u8]) -> Result<Line, Fault> {
    match object_text(alloc, text)? {
        Some(line) => Ok(line),
        None => held_text(alloc, text),
    }
}

fn is_told(answer: Result<Line, Fault>, wanted: &[u8]) -> bool {
    match answer {
        Ok(line) => line.items() == wanted,
        Err(_) => false,
    }
}

fn is_fault(answer: Result<Line, Fault>, fault: Fault) -> bool {
    match answer {
        Ok(_) => false,
        Err(other) => other == fault,
    }
}

/// Whether both ways give this compact text.
pub(crate) fn is_compacted(alloc: Global, text: &[u8], wanted: &[u8]) -> bool {
    is_written(alloc, text, wanted) && is_told(compacted(alloc, text), wanted)
}

/// Whether both ways have this fault.
pub(crate) fn is_refused(alloc: Global, text: &[u8], fault: Fault) -> bool {
    is_fault(written(alloc, text), fault) && is_fault(compacted(alloc, text), fault)
}

/// Whether both ways have one answer.
pub(crate) fn has_one_answer(alloc: Global, text: &[u8]) -> bool {
    match written(alloc, text) {
        Ok(line) => is_told(compacted(alloc, text), line.items()),
        Err(fault) => is_fault(compacted(alloc, text), fault),
    }
}

/// Whether the text is refused for this fault, or is as it is where there is none.
pub(crate) fn is_answered(alloc: Global, pieces: Pieces<'_>, fault: Option<Fault>) -> bool {
    match (text_of(alloc, pieces), fault) {
        (Ok(text), Some(fault)) => is_refused(alloc, &text, fault),
        (Ok(text), None) => is_compacted(alloc, &text, &text),
        (Err(_), _) => false,
    }
}
