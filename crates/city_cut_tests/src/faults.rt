//! Why documents are refused, found on their compact texts and by their values.
use crate::answers::given;
use crate::texts::{expect, filled, with_repeated};
use byte_streams::Fault;
use city_json::{ObjectText, Span};
use cut_on_text::cut_known;
use std::alloc::{AllocError, AllocGlobal, Global};
use std::process::Abort;

/// Why the document is refused, as its compact text tells.
fn told(alloc: Global, document: &str) -> Option<Fault> {
    let given = given(alloc, document)?;
    let document = ObjectText::new(given.line.items(), &given.parts);
    cut_known(alloc, &document, Span { from: 0, end: 0 })?.err()
}

/// Whether the fault of this name is told of the document, or `None`.
fn is_told(alloc: Global, document: &str, wanted: &str) -> Result<bool, AllocError> {
    let Some(fault) = told(alloc, document) else {
        return Ok(wanted == "None");
    };
    let name = format!(in alloc; "{fault:?}")?;
    Ok(name.as_str() == wanted)
}

/// The same of a row: what stands for `ROW` in the form of the document, and the name.
fn is_row_told(alloc: Global, form: &str, row: &str) -> Result<bool, AllocError> {
    let Some((given, wanted)) = row.split_once(" => ") else {
        return Ok(false);
    };
    is_told(alloc, &filled(alloc, form, given)?, wanted)
}

/// The rows of a table hold, as the compact texts tell.
fn expect_told(rt: &(impl Abort + AllocGlobal), form: &str, table: &str) {
    for row in table.lines() {
        assert!(rt; is_row_told(rt.alloc(), form, row) == Ok(true), "{row}");
    }
}

/// The rows of a table hold, as the compact texts tell and by the values.
pub(crate) fn expect_refused(rt: &(impl Abort + AllocGlobal), form: &str, table: &str) {
    expect(rt, form, "ROW", table);
    expect_told(rt, form, table);
}

const OBJECTS: &str = r#"HEAD,"CityObjects":{ROW},"vertices":POINTS}"#;

/// Each fault of city objects, in the first, the middle and the last.
const OBJECT_FAULTS: &str = r#""a":3,"b":{},"c":{} => NotCityJson
"a":{},"b":[],"c":{} => NotCityJson
"a":{},"b":{},"c":null => NotCityJson
"a":"{}","b":{},"c":{} => NotCityJson
"a":{"parents":"b"},"b":{},"c":{} => NotCityJson
"a":{},"b":{"parents":{}},"c":{} => NotCityJson
"a":{},"b":{},"c":{"parents":[1]} => NotCityJson
"a":{"parents":["b",null]},"b":{},"c":{} => NotCityJson
"a":{},"b":{"parents":[["a"]]},"c":{} => NotCityJson
"a":{},"b":{},"c":{"parents":[[],"a"]} => NotCityJson
"a":{"children":true},"b":{},"c":{} => NotCityJson
"a":{},"b":{"children":["a",1]},"c":{} => NotCityJson
"a":{},"b":{},"c":{"children":["a",{"a":"b"},"b"]} => NotCityJson
"a":{"children":["d"]},"b":{},"c":{} => ChildMissing
"a":{},"b":{"children":["c","a","A"]},"c":{} => ChildMissing
"a":{},"b":{},"c":{"children":["","a"]} => ChildMissing
"a":{"parents":["b"]},"b":{},"c":{} => Orphan
"a":{},"b":{"parents":["d"]},"c":{} => Orphan
"a":{},"b":{},"c":{"parents":["c"],"children":["c"]} => Orphan
"a":{"geometry":[{"boundaries":[4]}]},"b":{},"c":{} => BoundaryIndex
"a":{},"b":{"geometry":[{"boundaries":[3]},{"boundaries":[[0,1],[2,4]]}]},"c":{} => BoundaryIndex
"a":{},"b":{"geometry":[{"boundaries":[0]}]},"c":{"geometry":[{"boundaries":[1]},{"boundaries":[[[[1e0]]]]}]} => BoundaryIndex
"a":{},"b":{},"c":{"geometry":[{"boundaries":[[[["0"]]]]}]} => BoundaryIndex
"a":{"address":[{"location":{"boundaries":[4]}}]},"b":{},"c":{} => BoundaryIndex
"a":{},"b":{"geometry":[{"boundaries":[3]}],"address":[{"location":{"boundaries":[[-1]]}}]},"c":{} => BoundaryIndex
"a":{},"b":{},"c":{"address":[{},{"location":{"boundaries":{}}}],"geometry":[]} => BoundaryIndex
"a":{"geometry":{}},"b":{},"c":{} => BoundaryIndex
"a":{},"b":{"geometry":null},"c":{} => BoundaryIndex
"a":{},"b":{},"c":{"geometry":[[]]} => BoundaryIndex
"a":{"geometry":"boundaries"},"b":{},"c":{} => BoundaryIndex"#;

/// Two faults of city objects, of which the first in the order is told.
const OBJECT_ORDERS: &str = r#""a":{"children":["z"]},"b":3 => NotCityJson
"a":{"parents":["b"]},"b":{"children":null} => NotCityJson
"a":{"geometry":3},"b":{"parents":false} => NotCityJson
"a":{"parents":["a"]},"b":{"children":["z"]} => ChildMissing
"a":{"geometry":3},"b":{"children":["z"]} => ChildMissing
"a":{"geometry":3},"b":{"parents":["a"]} => Orphan
"a":{"geometry":3,"parents":["a"],"children":["z",0]} => NotCityJson
"a":{"geometry":3,"parents":["a"],"children":["z"]} => ChildMissing"#;

/// Nothing is told of documents that are cut.
const CUT: &str = r#""a":{},"b":{},"c":{} => None
 => None
"a":{"children":["b","b"]},"b":{"parents":["a","z"],"children":["a"]} => None
"\u0061":{"children":["b","c"]},"b":{"parents":["a"]},"c":{"parents":["a"]} => None
"a":{"children":["\u0062","\ud83d\ude00"]},"b":{"parents":["a"]},"😀":{"parents":["a"]} => None
"a":{"address":3},"b":{"address":[3,{"location":null}]},"c":{"address":{"location":{"boundaries":[4]}}} => None
"a":{"geometry":[{"boundaries":[3]},{}]},"b":{"attributes":{"geometry":3,"boundaries":[9]}} => None"#;

const VERTICES: &str =
    r#"HEAD,"CityObjects":{"a":{"children":["z"],"geometry":[{"boundaries":[9]}]},"b":{"parents":["a"]}},"vertices":ROW}"#;

/// Vertices, of which the first that is at fault is told, before a child that is missing.
const VERTEX_FAULTS: &str = r#"{} => NotCityJson
"[]" => NotCityJson
null => NotCityJson
[[1,2],[0,0,0],[0,0,0]] => VertexShape
[[0,0,0],[1,2,3,4],[0,0,0]] => VertexShape
[[0,0,0],[0,0,0],3] => VertexShape
[[0,0,0],[0,0,"0"]] => VertexShape
[[],[0.5,0,0]] => VertexShape
[[0.5,0,0],[0,0,0]] => VertexNotInteger
[[0,0,0],[0,1.0,0],[1]] => VertexNotInteger
[[0,0,0],[0,0,0],[0,0,1e-1]] => VertexNotInteger
[[9007199254740992,0,0],[0.5,0,0]] => VertexRange
[[0,0,0],[0,-9007199254740992,0],[1]] => VertexRange
[[0,0,0],[0,0,0],[0,0,100000000000000000000]] => VertexRange
[] => ChildMissing
[[0,0,0],[-0,1,1]] => ChildMissing
[[0,0,0],[9007199254740991,1,-9007199254740991]] => ChildMissing"#;

/// What stands before the vertices in the order.
const FRAMES: &str =
    r#"{"type":"CityJSON","version":"1.1","extensions":[],"vertices":[3]} => NotCityJson
{"type":"cityjson","version":"1.1","vertices":[3]} => NotCityJson
{"type":["CityJSON"],"version":"2.0","CityObjects":{}} => NotCityJson
{"type":"CityJSON","version":"1.1","CityObjects":null,"transform":3} => NotCityJson
{"type":"CityJSON","version":"1.1","CityObjects":{"a":{"parents":[0]}},"transform":3} => NotCityJson
{"type":"CityJSON","version":"2.0","metadata":3,"CityObjects":{"a":{}},"vertices":[]} => NotCityJson
{"type":"CityJSON","version":2.0,"transform":3,"vertices":[3]} => Version
{"type":"CityJSON","CityObjects":{"a":{"children":["z"]}},"vertices":[3]} => Version
{"type":"CityJSON","version":"2.0","transform":3,"CityObjects":{"a":{"children":["z"]}},"vertices":[3]} => NoTransform
{"type":"CityJSON","version":"2.0","transform":{"scale":[1,1,1],"translate":[0,0]},"appearance":{},"vertices":[3]} => NoTransform
{"type":"CityJSON","version":"2.0","transform":{"scale":[1,0,1],"translate":[0,0,1e-25]},"geometry-templates":{},"vertices":[3]} => Decimal
{"type":"CityJSON","version":"2.0","transform":{"scale":[1,1,-1],"translate":[0,0,0]},"appearance":{},"geometry-templates":{},"vertices":[3]} => ScaleNotPositive
{"vertices":[3],"transform":{"scale":[1,1,1],"translate":[0,0,0]},"version":"2.0","type":"CityJSON"} => VertexShape
{"\u0076ertices":[3],"transform":{"scale":[1,1,1],"translate":[0,0,0]},"version":"2.\u0030","type":"CityJSON"} => VertexShape"#;

/// Many objects, each of which names the last one as its child.
const MANY: &str = r#"HEAD,"CityObjects":{MANY"o300":{"parents":["o0"]ROW}},"vertices":POINTS}"#;

const EACH: &str = r#""oNUMBER":{"children":["o300"],"geometry":[{"boundaries":[[0,1,2]]}]},"#;

const ENDS: &str = r#","geometry":[{"boundaries":[4]}] => BoundaryIndex
,"address":[{"location":{"boundaries":[0.0]}}] => BoundaryIndex
,"children":["o301"] => ChildMissing
},"o301":{"parents":["o300"] => Orphan
},"o301":{"parents":"o300" => NotCityJson
,"geometry":[{"boundaries":[3]}] => None"#;

fn is_end_told(alloc: Global, row: &str) -> Result<bool, AllocError> {
    let form = with_repeated(alloc, MANY, "MANY", EACH, 300)?;
    is_row_told(alloc, &form, row)
}

#[test]
fn faults_of_objects_are_told(rt: HostRuntime) {
    expect_refused(&rt, OBJECTS, OBJECT_FAULTS);
    expect_refused(&rt, OBJECTS, OBJECT_ORDERS);
    expect_told(&rt, OBJECTS, CUT);
}

#[test]
fn faults_of_vertices_are_told(rt: HostRuntime) {
    expect_refused(&rt, VERTICES, VERTEX_FAULTS);
}

#[test]
fn faults_of_frames_are_told(rt: HostRuntime) {
    expect_refused(&rt, "ROW", FRAMES);
}

#[test]
fn faults_of_the_last_of_many_are_told(rt: HostRuntime) {
    for row in ENDS.lines() {
        assert!(&rt; is_end_told(rt.alloc(), row) == Ok(true), "{row}");
    }
}
