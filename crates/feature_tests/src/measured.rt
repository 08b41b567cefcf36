//! Triples are measured in their text, and an answer is given: else each feature of which an area is asked would be read.
use crate::texts::{filled, split};
use byte_streams::Line;
use city_feature::{area, triples_meet};
use city_json::{Workspace, compact_object, part_named};
use std::alloc::{AllocError, Global};

/// A feature whose vertices are the last triples of its line, and the same with other members.
const FORMS: &str =
    r#"{"type":"CityJSONFeature","id":"b","CityObjects":{"b":{"type":"Building"}},"vertices":ROW}
{"vertices":ROW,"x":[[20,30]],"id":"b","CityObjects":{},"type":"CityJSONFeature"}
{"type":"CityJSONFeature","x":[[20,30,0]], "id":"b","CityObjects":{}, "vertices":ROW}"#;

/// Areas, triples, and whether their extent meets the area.
const TRIPLES: &str = "
10,20,30,40 => [[10,20,5]] => meets
10,20,30,40 => [[30,40,-5]] => meets
10,20,30,40 => [[9,30,20]] => apart
10,20,30,40 => [[31,30,20]] => apart
10,20,30,40 => [[20,19,20]] => apart
10,20,30,40 => [[20,41,20]] => apart
10,20,30,40 => [[0,0,0],[100,100,0]] => meets
10,20,30,40 => [[0,0,0],[9,50,20],[5,100,0]] => apart
10,20,30,40 => [[100,0,0],[31,100,20],[50,60,7]] => apart
10,20,30,40 => [[20,0,0],[30,19,20],[20,-60,7]] => apart
10,20,30,40 => [[10,50,0],[30,41,20],[20,60,7]] => apart
-30,-40,-10,-20 => [[-31,-20,5],[-9,-50,5]] => meets
-30,-40,-10,-20 => [[-9,-20,5],[7,-30,-25]] => apart
100000000000000,20,200000000000000,40 => [[123456789012345,30,-123456789012345]] => meets
100000000000000,20,200000000000000,40 => [[99999999999999,30,-123456789012345]] => apart
";

/// Whether the vertices of a line meet an area. `None`: that is not said.
fn meets(alloc: Global, line: &str, corners: &str) -> Option<bool> {
    let mut workspace = Workspace::new(alloc, Line::new(alloc));
    let bytes = line.as_bytes();
    let Ok(Some(object)) = compact_object(alloc, bytes, &mut workspace) else {
        return None;
    };
    let text = object.place.bytes(bytes, &workspace.line);
    let part = part_named(text, &object.parts, b"\"vertices\":")?;
    if !object.triples.is_value_of(part) {
        return None;
    }
    let area = area(corners)?;
    triples_meet(&area, text, object.triples)
}

/// Whether it is said of a row what it tells.
fn is_told(alloc: Global, form: &str, row: &str) -> Result<bool, AllocError> {
    let (corners, texts) = split(row);
    let (vertices, wanted) = split(texts);
    let line = filled(alloc, form, vertices)?;
    Ok(meets(alloc, &line, corners) == Some(wanted == "meets"))
}

#[test]
fn triples_are_measured(rt: HostRuntime) {
    for form in FORMS.lines() {
        for row in TRIPLES.lines() {
            assert!(rt;
                row.is_empty() || is_told(rt.alloc(), form, row) == Ok(true),
                "{row}"
            );
        }
    }
}
