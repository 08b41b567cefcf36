//! Documents that are cut, and the streams that are written.
use crate::document_streams::texts::{DOCUMENT, Way, expect, gives, spelled};
use byte_streams::Fault;
use std::alloc::{AllocError, Global};

/// What stands in the place of the document: the same, documents with no features, and one of which the features come in
/// its order.
const WHOLE: &str = r#"DOCUMENT => DOCUMENT => HEADER;FEATURE; => 1
DOCUMENT => HEADER => HEADER; => 0
DOCUMENT => {"type":"CityJSON","version":"2.0","transform":{"scale":[0.001,0.001,0.001],"translate":[0,0,0]},"CityObjects":{},"vertices":[[1,2,3]]} => HEADER; => 0
DOCUMENT => {"CityObjects":{"r":{"type":"Road","geometry":[{"type":"MultiSurface","lod":"1","boundaries":[[[4,0,2,4]]]}]},"w":{"type":"BuildingPart","parents":["h"],"geometry":[{"type":"MultiPoint","lod":"1","boundaries":[1]},{"type":"MultiPoint","lod":"2","boundaries":[3,1]}]},"h":{"type":"Building","children":["x","w","v"]},"x":{"type":"BuildingPart","parents":["h"],"geometry":[{"type":"MultiPoint","lod":"1","boundaries":[0,3]}]},"v":{"type":"BuildingPart","parents":["h"]},"l":{"type":"LandUse","attributes":{"since":1.50e+3}}},"appearance":{"materials":[{"name":"brick"}]},"vertices":[[0,0,0],[10,0,0],[-0,20,0],[0,0,30],[40,40,40]],"metadata":{"title":"three"},"type":"CityJSON","version":"2.0","transform":{"scale":[1,1,1],"translate":[5,0,0.50]}} => {"CityObjects":{},"vertices":[],"metadata":{"title":"three"},"type":"CityJSON","version":"2.0","transform":{"scale":[1,1,1],"translate":[5,0,0.50]}};{"type":"CityJSONFeature","id":"r","CityObjects":{"r":{"type":"Road","geometry":[{"type":"MultiSurface","lod":"1","boundaries":[[[0,1,2,0]]]}]}},"vertices":[[40,40,40],[0,0,0],[0,20,0]],"appearance":{"materials":[{"name":"brick"}]}};{"type":"CityJSONFeature","id":"h","CityObjects":{"w":{"type":"BuildingPart","parents":["h"],"geometry":[{"type":"MultiPoint","lod":"1","boundaries":[0]},{"type":"MultiPoint","lod":"2","boundaries":[1,0]}]},"h":{"type":"Building","children":["x","w","v"]},"x":{"type":"BuildingPart","parents":["h"],"geometry":[{"type":"MultiPoint","lod":"1","boundaries":[2,1]}]},"v":{"type":"BuildingPart","parents":["h"]}},"vertices":[[10,0,0],[0,0,30],[0,0,0]],"appearance":{"materials":[{"name":"brick"}]}};{"type":"CityJSONFeature","id":"l","CityObjects":{"l":{"type":"LandUse","attributes":{"since":1.50e+3}}},"vertices":[],"appearance":{"materials":[{"name":"brick"}]}}; => 3"#;

/// The same of documents whose features share objects: a chain of five, with an appearance, and two groups with one
/// building, which has an address before its geometries.
const SHARED: &str =
    r#"DOCUMENT => {"type":"CityJSON","version":"2.0","transform":{"scale":[0.001,0.001,0.001],"translate":[0,0,0]},"appearance":{"materials":[]},"CityObjects":{"a":{"children":["b"],"geometry":[{"boundaries":[3]}]},"b":{"children":["c"],"geometry":[{"boundaries":[[1],[3]]}]},"c":{"children":["d"]},"d":{"children":["e"],"geometry":[{"boundaries":[0,1]}]},"e":{"geometry":[{"boundaries":[]},{"boundaries":[2,0]}]}},"vertices":[[0,0,0],[1,1,1],[2,2,2],[3,3,3]]} => HEADER;{"type":"CityJSONFeature","id":"a","CityObjects":{"a":{"children":["b"],"geometry":[{"boundaries":[0]}]},"b":{"children":["c"],"geometry":[{"boundaries":[[1],[0]]}]},"c":{"children":["d"]},"d":{"children":["e"],"geometry":[{"boundaries":[2,1]}]},"e":{"geometry":[{"boundaries":[]},{"boundaries":[3,2]}]}},"vertices":[[3,3,3],[1,1,1],[0,0,0],[2,2,2]],"appearance":{"materials":[]}};{"type":"CityJSONFeature","id":"b","CityObjects":{"b":{"children":["c"],"geometry":[{"boundaries":[[0],[1]]}]},"c":{"children":["d"]},"d":{"children":["e"],"geometry":[{"boundaries":[2,0]}]},"e":{"geometry":[{"boundaries":[]},{"boundaries":[3,2]}]}},"vertices":[[1,1,1],[3,3,3],[0,0,0],[2,2,2]],"appearance":{"materials":[]}};{"type":"CityJSONFeature","id":"c","CityObjects":{"c":{"children":["d"]},"d":{"children":["e"],"geometry":[{"boundaries":[0,1]}]},"e":{"geometry":[{"boundaries":[]},{"boundaries":[2,0]}]}},"vertices":[[0,0,0],[1,1,1],[2,2,2]],"appearance":{"materials":[]}};{"type":"CityJSONFeature","id":"d","CityObjects":{"d":{"children":["e"],"geometry":[{"boundaries":[0,1]}]},"e":{"geometry":[{"boundaries":[]},{"boundaries":[2,0]}]}},"vertices":[[0,0,0],[1,1,1],[2,2,2]],"appearance":{"materials":[]}};{"type":"CityJSONFeature","id":"e","CityObjects":{"e":{"geometry":[{"boundaries":[]},{"boundaries":[0,1]}]}},"vertices":[[2,2,2],[0,0,0]],"appearance":{"materials":[]}}; => 5
DOCUMENT => {"type":"CityJSON","version":"2.0","transform":{"scale":[0.001,0.001,0.001],"translate":[0,0,0]},"CityObjects":{"g":{"type":"CityObjectGroup","children":["x","s"]},"h":{"type":"CityObjectGroup","children":["s","y"]},"x":{"parents":["g"],"geometry":[{"boundaries":[0]}]},"s":{"parents":["g","h"],"address":[{"location":{"boundaries":[3]}}],"geometry":[{"boundaries":[2,1]}]},"y":{"parents":["h"],"geometry":[{"boundaries":[1,3]}]}},"vertices":[[0,0,0],[1,1,1],[2,2,2],[3,3,3]]} => HEADER;{"type":"CityJSONFeature","id":"g","CityObjects":{"g":{"type":"CityObjectGroup","children":["x","s"]},"x":{"parents":["g"],"geometry":[{"boundaries":[0]}]},"s":{"parents":["g","h"],"address":[{"location":{"boundaries":[3]}}],"geometry":[{"boundaries":[1,2]}]}},"vertices":[[0,0,0],[2,2,2],[1,1,1],[3,3,3]]};{"type":"CityJSONFeature","id":"h","CityObjects":{"h":{"type":"CityObjectGroup","children":["s","y"]},"s":{"parents":["g","h"],"address":[{"location":{"boundaries":[2]}}],"geometry":[{"boundaries":[0,1]}]},"y":{"parents":["h"],"geometry":[{"boundaries":[1,2]}]}},"vertices":[[2,2,2],[1,1,1],[3,3,3]]}; => 2"#;

const FRAMED: &str = "DOCUMENT => ; \tDOCUMENT\r;; => HEADER;FEATURE; => 1";

/// Changes of the document: white space, a cycle, and a location.
const CHANGED: &str = r#", => ,; => HEADER;FEATURE; => 1
"children":["p1","p2"] => "children":["p1","p2","b"] => HEADER;{"type":"CityJSONFeature","id":"b","CityObjects":{"b":{"type":"Building","children":["p1","p2","b"]},"p1":{"type":"BuildingPart","parents":["b"],"geometry":[{"type":"MultiPoint","lod":"1","boundaries":[0,1]}]},"p2":{"type":"BuildingPart","parents":["b"],"geometry":[{"type":"MultiPoint","lod":"1","boundaries":[1,2]}]}},"vertices":[[3,3,3],[1,1,1],[0,0,0]]}; => 1
"children":["p1","p2"] => "children":["p1","p2"],"address":[{"location":{"type":"MultiPoint","boundaries":[2]}}] => HEADER;{"type":"CityJSONFeature","id":"b","CityObjects":{"b":{"type":"Building","children":["p1","p2"],"address":[{"location":{"type":"MultiPoint","boundaries":[0]}}]},"p1":{"type":"BuildingPart","parents":["b"],"geometry":[{"type":"MultiPoint","lod":"1","boundaries":[1,2]}]},"p2":{"type":"BuildingPart","parents":["b"],"geometry":[{"type":"MultiPoint","lod":"1","boundaries":[2,3]}]}},"vertices":[[2,2,2],[3,3,3],[1,1,1],[0,0,0]]}; => 1"#;

#[test]
fn documents_are_written_as_streams(rt: HostRuntime) {
    expect(&rt, "DOCUMENT", WHOLE);
    expect(&rt, "DOCUMENT", SHARED);
    expect(&rt, "DOCUMENT", FRAMED);
    expect(&rt, DOCUMENT, CHANGED);
}

/// A document of points, each an object that also names the first vertex.
const POINTS: &str =
    r#"{"type":"CityJSON","version":"2.0","transform":{"scale":[0.001,0.001,0.001],"translate":[0,0,0]},"CityObjects":{"o0":{"type":"Building","geometry":[{"type":"MultiPoint","boundaries":[0,0]}]}OBJECTS},"vertices":[[0,2,-3]VERTICES]}"#;

const OBJECT: &str =
    r#","oNUMBER":{"type":"Building","geometry":[{"type":"MultiPoint","boundaries":[NUMBER,0]}]}"#;

/// Its stream.
const STREAM: &str =
    r#"HEADER;{"type":"CityJSONFeature","id":"o0","CityObjects":{"o0":{"type":"Building","geometry":[{"type":"MultiPoint","boundaries":[0,0]}]}},"vertices":[[0,2,-3]]};LINES"#;

const LINE: &str =
    r#"{"type":"CityJSONFeature","id":"oNUMBER","CityObjects":{"oNUMBER":{"type":"Building","geometry":[{"type":"MultiPoint","boundaries":[0,1]}]}},"vertices":[[NUMBER,2,-3],[0,2,-3]]}
"#;

fn put_numbered(
    text: &mut String,
    alloc: Global,
    form: &str,
    number: u32,
) -> Result<(), AllocError> {
    text.push_str(&form.replace(alloc, "NUMBER", &format!(in alloc; "{number}")?)?)
}

/// The form for each point but the first, in which its number stands for `NUMBER`.
fn of_points(alloc: Global, form: &str) -> Result<String, AllocError> {
    let mut text = String::new(alloc);
    for number in 1..10_000u32 {
        put_numbered(&mut text, alloc, form, number)?;
    }
    Ok(text)
}

/// The text, in which these stand for the word.
fn with_points(alloc: Global, text: &str, word: &str, form: &str) -> Result<String, AllocError> {
    text.replace(alloc, word, &of_points(alloc, form)?)
}

/// Whether the document is written as this stream.
fn is_written(alloc: Global, document: &[u8], stream: &[u8], count: &str) -> Result<bool, Fault> {
    let way = Way {
        read: 100_000,
        fails: false,
        room: stream.len(),
        write: 100_000,
        flush_fails: false,
    };
    gives(alloc, document, &way, stream, count)
}

fn are_points_written(alloc: Global) -> Result<bool, Fault> {
    let document = with_points(
        alloc,
        &with_points(alloc, POINTS, "OBJECTS", OBJECT)?,
        "VERTICES",
        ",[NUMBER,2,-3]",
    )?;
    let stream = with_points(alloc, &spelled(alloc, STREAM)?, "LINES", LINE)?;
    is_written(alloc, document.as_bytes(), stream.as_bytes(), "10000")
}

/// The text, in which the building has a type of four million bytes.
fn lengthened(alloc: Global, text: &str) -> Result<String, AllocError> {
    text.replacen(alloc, "Building", &"long".repeat(alloc, 1_000_000)?, 1)
}

fn is_long_written(alloc: Global) -> Result<bool, Fault> {
    let document = lengthened(alloc, DOCUMENT)?;
    let stream = lengthened(alloc, &spelled(alloc, "HEADER;FEATURE;")?)?;
    is_written(alloc, document.as_bytes(), stream.as_bytes(), "1")
}

#[test]
fn a_document_may_have_many_features_and_long_texts(rt: HostRuntime) {
    assert!(rt; are_points_written(rt.alloc()) == Ok(true));
    assert!(rt; is_long_written(rt.alloc()) == Ok(true));
}
