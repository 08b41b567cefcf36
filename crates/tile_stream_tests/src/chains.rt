//! A first line whose features share objects, taken by the reader of a tile.
use crate::texts::{choice_of, every_feature};
use byte_streams::{Bin, Fault, Line, LineFault, Tape};
use city_feature::Choice;
use city_grid::Shift;
use std::alloc::{AllocError, Global};
use tile_stream::{ReadyTexts, TileReader};

/// Each object has the next one as its child, and none names a parent: each begins a feature, with all below it.
const CHAIN: &str =
    r#"{"type":"CityJSON","version":"2.0","transform":{"scale":[0.001,0.001,0.001],"translate":[0,0,0]},"CityObjects":{"a":{"type":"Building","children":["b"],"geometry":[{"type":"MultiPoint","lod":"1","boundaries":[1,0]}]},"b":{"type":"Road","children":["c"],"geometry":[{"type":"MultiPoint","lod":"1","boundaries":[2,1]}]},"c":{"type":"Bridge","geometry":[{"type":"MultiPoint","lod":"1","boundaries":[0]}]}},"vertices":[[1,2,3],[4,5,6],[LAST,8,9]]}"#;

/// Its features, moved by a thousand steps.
const MOVED: [&str; 3] = [
    r#"{"type":"CityJSONFeature","id":"a","CityObjects":{"a":{"type":"Building","children":["b"],"geometry":[{"type":"MultiPoint","lod":"1","boundaries":[0,1]}]},"b":{"type":"Road","children":["c"],"geometry":[{"type":"MultiPoint","lod":"1","boundaries":[2,0]}]},"c":{"type":"Bridge","geometry":[{"type":"MultiPoint","lod":"1","boundaries":[1]}]}},"vertices":[[1004,5,6],[1001,2,3],[1007,8,9]]}"#,
    r#"{"type":"CityJSONFeature","id":"b","CityObjects":{"b":{"type":"Road","children":["c"],"geometry":[{"type":"MultiPoint","lod":"1","boundaries":[0,1]}]},"c":{"type":"Bridge","geometry":[{"type":"MultiPoint","lod":"1","boundaries":[2]}]}},"vertices":[[1007,8,9],[1004,5,6],[1001,2,3]]}"#,
    r#"{"type":"CityJSONFeature","id":"c","CityObjects":{"c":{"type":"Bridge","geometry":[{"type":"MultiPoint","lod":"1","boundaries":[0]}]}},"vertices":[[1001,2,3]]}"#,
];

/// The reader of a tile that is such a document, with this number in its last vertex.
fn reader_of(alloc: Global, last: &str) -> Result<TileReader<Tape>, AllocError> {
    let text = CHAIN.replace(alloc, "LAST", last)?;
    let tape = Tape::new(Line::from_vec(text.into_bytes()), 100, false);
    Ok(TileReader::new(alloc, tape))
}

/// What is chosen of the features of such a document when they are moved by a thousand steps.
fn taken(
    alloc: Global,
    last: &str,
    choice: &Choice,
) -> Result<Result<ReadyTexts, LineFault>, Fault> {
    let mut reader = reader_of(alloc, last)?;
    let Some(shift) = Shift::new(1_000, 0, 0) else {
        return Err(Fault::ShiftRange);
    };
    match reader.take_head(alloc) {
        Ok(_) => Ok(reader.take_held(alloc, shift, choice)),
        Err(told) => Err(told.fault),
    }
}

/// Whether the text at a place is written so, by a writer that takes so many bytes a write.
fn is_written(
    alloc: Global,
    texts: &mut ReadyTexts,
    at: usize,
    step: usize,
    wanted: &str,
) -> Result<bool, Fault> {
    let mut output = Bin::new(alloc, 4_096, step, false)?;
    if at >= texts.len() {
        return Ok(false);
    }
    texts.write_at(at, &mut output)?;
    let line = format!(in alloc; "{wanted}\n")?;
    Ok(output.bytes() == line.as_bytes())
}

/// Whether the text at a place fails where the writer is full, and what was written then begins the text.
fn fails_in(
    alloc: Global,
    texts: &mut ReadyTexts,
    at: usize,
    room: usize,
    wanted: &str,
) -> Result<bool, Fault> {
    let mut output = Bin::new(alloc, room, 7, false)?;
    if at >= texts.len() || room > wanted.len() {
        return Ok(false);
    }
    let is_refused = texts.write_at(at, &mut output) == Err(Fault::Write);
    Ok(is_refused && output.bytes() == &wanted.as_bytes()[..room])
}

/// Whether these are the features that are chosen. Each may be written before another, again, and after a write that
/// failed.
fn gives(alloc: Global, choice: &Choice, wanted: &[&str]) -> Result<bool, Fault> {
    let Ok(mut texts) = taken(alloc, "7", choice)? else {
        return Ok(false);
    };
    let mut agree = texts.len() == wanted.len();
    for step in [1usize, 100_000] {
        for at in (0..wanted.len()).rev() {
            agree = agree
                && is_written(alloc, &mut texts, at, step, wanted[at])?
                && fails_in(alloc, &mut texts, at, 150, wanted[at])?
                && is_written(alloc, &mut texts, at, step, wanted[at])?;
        }
    }
    Ok(agree)
}

/// Whether nothing is given, for a vertex that leaves the range.
fn leaves_range(alloc: Global, choice: &Choice) -> Result<bool, Fault> {
    match taken(alloc, "9007199254740000", choice)? {
        Ok(_) => Ok(false),
        Err(told) => Ok((told.line, told.fault) == (1, Fault::VertexRange)),
    }
}

#[test]
fn features_that_share_objects_are_moved_and_chosen(rt: HostRuntime) -> Result<(), Fault> {
    let alloc = rt.alloc();
    assert!(rt; gives(alloc, &every_feature(), &MOVED)?);
    assert!(rt; gives(alloc, &choice_of(alloc, "Road", "", false)?, &MOVED[1..2])?);
    assert!(rt;
        gives(
            alloc,
            &choice_of(alloc, "Road", "", true)?,
            &[MOVED[0], MOVED[2]]
        )?
    );
    assert!(rt; gives(alloc, &choice_of(alloc, "TINRelief", "", false)?, &[])?);
    Ok(())
}

/// One leaves it, chosen or not.
#[test]
fn features_that_share_objects_are_given_all_or_none(rt: HostRuntime) -> Result<(), Fault> {
    let alloc = rt.alloc();
    assert!(rt; leaves_range(alloc, &every_feature())?);
    assert!(rt; leaves_range(alloc, &choice_of(alloc, "Bridge", "", false)?)?);
    Ok(())
}
