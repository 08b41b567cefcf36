//! Texts that are made when they are asked for: moved by a shift, and kept.
use crate::answers::cut_on_its_text;
use crate::texts::filled;
use byte_streams::{Fault, Line};
use city_cut::FeatureTexts;
use city_grid::Shift;
use std::alloc::{AllocError, AllocGlobal, Global};
use std::process::Abort;

/// Two groups and an object of both, with an appearance, and one alone.
const GROUPS: &str =
    r#"HEAD,"appearance":{"textures":[]},"CityObjects":{"g":{"children":["s"]},"s":{"parents":["g","h"],"geometry":[{"boundaries":[[3,1]]}]},"h":{"children":["s"],"geometry":[{"boundaries":[0,1]}]},"a":{}},"vertices":ROW}"#;

const OF_GROUP: &str =
    r#"{"type":"CityJSONFeature","id":"g","CityObjects":{"g":{"children":["s"]},"s":{"parents":["g","h"],"geometry":[{"boundaries":[[0,1]]}]}},"vertices":[[13,2,4],[11,0,2]],"appearance":{"textures":[]}}
{"type":"CityJSONFeature","id":"a","CityObjects":{"a":{}},"vertices":[],"appearance":{"textures":[]}}
"#;

const OF_OTHER: &str =
    r#"{"type":"CityJSONFeature","id":"h","CityObjects":{"s":{"parents":["g","h"],"geometry":[{"boundaries":[[0,1]]}]},"h":{"children":["s"],"geometry":[{"boundaries":[2,1]}]}},"vertices":[[9007199254740991,-9007199254740991,4],[11,0,2],[10,-1,1]],"appearance":{"textures":[]}}
"#;

/// The texts, each with a newline.
fn lines_of(alloc: Global, texts: &mut FeatureTexts) -> Result<Line, Fault> {
    let mut lines = Line::new(alloc);
    for at in 0..texts.len() {
        texts.append_own(alloc, at, &mut lines)?;
        lines.append(texts.common())?;
        lines.append(b"\n")?;
    }
    Ok(lines)
}

/// The lines of the document's texts that are chosen, moved by ten, minus one and one.
fn moved_and_kept(alloc: Global, document: &str, chosen: &[bool]) -> Result<Line, Fault> {
    let (Some(mut cut), Some(shift)) = (
        cut_on_its_text(alloc, document.as_bytes()),
        Shift::new(10, -1, 1),
    ) else {
        return Err(Fault::NotCityJson);
    };
    if !cut.texts.move_by(alloc, shift)? || !cut.texts.keep(chosen) {
        return Err(Fault::NotCityJson);
    }
    lines_of(alloc, &mut cut.texts)
}

/// Whether these lines come of the groups with these vertices.
fn gives(alloc: Global, points: &str, chosen: &[bool], wanted: &str) -> Result<bool, AllocError> {
    let document = filled(alloc, GROUPS, points)?;
    match moved_and_kept(alloc, &document, chosen) {
        Ok(lines) => Ok(lines.items() == wanted.as_bytes()),
        Err(_) => Ok(false),
    }
}

#[test]
fn made_texts_are_moved_and_kept(rt: HostRuntime) {
    let alloc = rt.alloc();
    assert!(rt; gives(alloc, "POINTS", &[true, false, true], OF_GROUP) == Ok(true));
    assert!(rt;
        gives(
            alloc,
            "[[0,0,0],[1,1,1],[2,2,2],[9007199254740981,-9007199254740990,3]]",
            &[false, true],
            OF_OTHER,
        ) == Ok(true)
    );
    assert!(rt; gives(alloc, "POINTS", &[], "") == Ok(true));
}
