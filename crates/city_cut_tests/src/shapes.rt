//! Documents that are cut.
use crate::texts::{cut_text, expect, filled, repeated, with_repeated};
use city_cut::Cut;
use std::alloc::{AllocError, Global};

/// A document with white space.
const SPACED: &str = r#"{ "type":"CityJSON",
"version":"2.0",
"transform":{"scale":[1,
1,1],"translate":[0,0,0]},
"CityObjects":{"a":{"geometry":[{"boundaries":[1,
0]}]}},
"vertices":[[0,0,0],
[7,
8,9]]}
"#;

const OF_SPACED: &str =
    r#" => {"type":"CityJSON","version":"2.0","transform":{"scale":[1,1,1],"translate":[0,0,0]},"CityObjects":{},"vertices":[]} {"type":"CityJSONFeature","id":"a","CityObjects":{"a":{"geometry":[{"boundaries":[0,1]}]}},"vertices":[[7,8,9],[0,0,0]]}"#;

/// A child of two parents stands in both features; children go round; objects stand in the order of the document; there
/// are no objects; the header keeps the other members; an appearance goes with each feature, and stays in the header with
/// templates alone.
const SHAPES: &str =
    r#"HEAD,"CityObjects":{"a":{"type":"Building","children":["c"]},"b":{"type":"Building","children":["c"],"geometry":[{"boundaries":[0]}]},"c":{"type":"BuildingPart","parents":["a","b"],"geometry":[{"boundaries":[2,0]}]}},"vertices":POINTS} => HEAD,"CityObjects":{},"vertices":[]} {"type":"CityJSONFeature","id":"a","CityObjects":{"a":{"type":"Building","children":["c"]},"c":{"type":"BuildingPart","parents":["a","b"],"geometry":[{"boundaries":[0,1]}]}},"vertices":[[2,2,2],[0,0,0]]} {"type":"CityJSONFeature","id":"b","CityObjects":{"b":{"type":"Building","children":["c"],"geometry":[{"boundaries":[0]}]},"c":{"type":"BuildingPart","parents":["a","b"],"geometry":[{"boundaries":[1,0]}]}},"vertices":[[0,0,0],[2,2,2]]}
HEAD,"CityObjects":{"a":{"children":["b","b"]},"b":{"parents":["a"],"children":["c"]},"c":{"parents":["b"],"children":["a","c"]}},"vertices":POINTS} => HEAD,"CityObjects":{},"vertices":[]} {"type":"CityJSONFeature","id":"a","CityObjects":{"a":{"children":["b","b"]},"b":{"parents":["a"],"children":["c"]},"c":{"parents":["b"],"children":["a","c"]}},"vertices":[]}
HEAD,"CityObjects":{"c":{"parents":["b"],"geometry":[{"boundaries":[3]}]},"z":{},"b":{"parents":["a"],"children":["c"],"geometry":[{"boundaries":[2]}]},"a":{"children":["b"],"geometry":[{"boundaries":[1]}]}},"vertices":POINTS} => HEAD,"CityObjects":{},"vertices":[]} {"type":"CityJSONFeature","id":"z","CityObjects":{"z":{}},"vertices":[]} {"type":"CityJSONFeature","id":"a","CityObjects":{"c":{"parents":["b"],"geometry":[{"boundaries":[0]}]},"b":{"parents":["a"],"children":["c"],"geometry":[{"boundaries":[1]}]},"a":{"children":["b"],"geometry":[{"boundaries":[2]}]}},"vertices":[[3,3,3],[2,2,2],[1,1,1]]}
HEAD,"CityObjects":{},"vertices":POINTS} => HEAD,"CityObjects":{},"vertices":[]}
{"type":"CityJSON","version":"2.0","transform":{"scale":[1,1,1],"translate":[0,0,0]}} => {"type":"CityJSON","version":"2.0","transform":{"scale":[1,1,1],"translate":[0,0,0]}}
{"type":"CityJSON","version":"2.0","transform":{"scale":[1,1,1],"translate":[0,0,0]},"CityObjects":{}} => {"type":"CityJSON","version":"2.0","transform":{"scale":[1,1,1],"translate":[0,0,0]},"CityObjects":{}}
{"extensions":{},"vertices":[[-0,20,0]],"+x":[1.50],"type":"CityJSON","CityObjects":{"a\u0062":{"geometry":[{"boundaries":[0]}]}},"metadata":{"title":"t"},"transform":{"translate":[1e0,2,3],"scale":[0.10,1,1]},"version":"2.0"} => {"extensions":{},"vertices":[],"+x":[1.50],"type":"CityJSON","CityObjects":{},"metadata":{"title":"t"},"transform":{"translate":[1e0,2,3],"scale":[0.10,1,1]},"version":"2.0"} {"type":"CityJSONFeature","id":"ab","CityObjects":{"ab":{"geometry":[{"boundaries":[0]}]}},"vertices":[[0,20,0]]}
{"type":"CityJSON","version":"2.0","transform":{"scale":[1,1,1],"translate":[0,0,0]},"appearance":{"materials":[{"name":"m","shininess":0.20}]},"CityObjects":{"a":{},"b":{}},"vertices":[]} => {"type":"CityJSON","version":"2.0","transform":{"scale":[1,1,1],"translate":[0,0,0]},"CityObjects":{},"vertices":[]} {"type":"CityJSONFeature","id":"a","CityObjects":{"a":{}},"vertices":[],"appearance":{"materials":[{"name":"m","shininess":0.20}]}} {"type":"CityJSONFeature","id":"b","CityObjects":{"b":{}},"vertices":[],"appearance":{"materials":[{"name":"m","shininess":0.20}]}}
{"type":"CityJSON","version":"2.0","transform":{"scale":[1,1,1],"translate":[0,0,0]},"appearance":{"materials":[{"name":"m","shininess":0.20}]},"geometry-templates":{"templates":[{"boundaries":[3]}]},"CityObjects":{"a":{},"b":{}},"vertices":[]} => {"type":"CityJSON","version":"2.0","transform":{"scale":[1,1,1],"translate":[0,0,0]},"appearance":{"materials":[{"name":"m","shininess":0.20}]},"geometry-templates":{"templates":[{"boundaries":[3]}]},"CityObjects":{},"vertices":[]} {"type":"CityJSONFeature","id":"a","CityObjects":{"a":{}},"vertices":[],"appearance":{"materials":[{"name":"m","shininess":0.20}]}} {"type":"CityJSONFeature","id":"b","CityObjects":{"b":{}},"vertices":[],"appearance":{"materials":[{"name":"m","shininess":0.20}]}}"#;

#[test]
fn documents_are_cut(rt: HostRuntime) {
    expect(&rt, SPACED, "ROW", OF_SPACED);
    expect(&rt, "ROW", "ROW", SHAPES);
}

/// City objects of a document with four vertices.
const OBJECTS: &str = r#"HEAD,"CityObjects":ROW,"vertices":POINTS}"#;

/// The header and the feature of an object, in which stand its objects and its vertices.
const OF_ALONE: &str =
    r#"HEAD,"CityObjects":{},"vertices":[]} {"type":"CityJSONFeature","id":"a","CityObjects":ROW}"#;

const ALONE: &str =
    r#"{"a":{"geometry":[{"boundaries":[[1,1],[1,0,1]]}]}} => {"a":{"geometry":[{"boundaries":[[0,0],[0,1,0]]}]}},"vertices":[[1,1,1],[0,0,0]]
{"a":{"geometry":[{"type":"MultiSolid","lod":"2","boundaries":[[[[[3,1,0]],[[0,1,2]]]],[[[[2,3,1]]]]]}]}} => {"a":{"geometry":[{"type":"MultiSolid","lod":"2","boundaries":[[[[[0,1,2]],[[2,1,3]]]],[[[[3,0,1]]]]]}]}},"vertices":[[3,3,3],[1,1,1],[0,0,0],[2,2,2]]
{"a":{"geometry":[{"boundaries":[[[2,1]],[3,[0]]]},{"boundaries":[]},{"lod":1.50},{"boundaries":[1]}]}} => {"a":{"geometry":[{"boundaries":[[[0,1]],[2,[3]]]},{"boundaries":[]},{"lod":1.50},{"boundaries":[1]}]}},"vertices":[[2,2,2],[1,1,1],[3,3,3],[0,0,0]]
{"a":{"address":[{"location":{"boundaries":[2]}},{"location":{"boundaries":[0,3]}}],"geometry":[{"boundaries":[3]}]}} => {"a":{"address":[{"location":{"boundaries":[1]}},{"location":{"boundaries":[2,0]}}],"geometry":[{"boundaries":[0]}]}},"vertices":[[3,3,3],[2,2,2],[0,0,0]]
{"a":{"address":[{"location":"x"},3,{"boundaries":[9]},{"location":{"boundaries":[]}}]}} => {"a":{"address":[{"location":"x"},3,{"boundaries":[9]},{"location":{"boundaries":[]}}]}},"vertices":[]
{"a":{"address":{"location":{"boundaries":[9]}}}} => {"a":{"address":{"location":{"boundaries":[9]}}}},"vertices":[]
{"a":{"geometry":[{"type":"GeometryInstance","template":3,"boundaries":[2],"transformationMatrix":[1,0,0,3]}]}} => {"a":{"geometry":[{"type":"GeometryInstance","template":3,"boundaries":[0],"transformationMatrix":[1,0,0,3]}]}},"vertices":[[2,2,2]]
{"a":{"attributes":{"boundaries":[3],"geometry":[{"boundaries":[3]}],"h":1.50e+3},"geometry":[{"semantics":{"values":[3,1]},"boundaries":[3],"location":{"boundaries":[3]}}],"boundaries":[3]}} => {"a":{"attributes":{"boundaries":[3],"geometry":[{"boundaries":[3]}],"h":1.50e+3},"geometry":[{"semantics":{"values":[3,1]},"boundaries":[0],"location":{"boundaries":[3]}}],"boundaries":[3]}},"vertices":[[3,3,3]]
{"a":{"geometry":[]}} => {"a":{"geometry":[]}},"vertices":[]"#;

/// The same of a building and its two parts.
const OF_FAMILY: &str =
    r#"HEAD,"CityObjects":{},"vertices":[]} {"type":"CityJSONFeature","id":"b","CityObjects":ROW}"#;

const FAMILIES: &str =
    r#"{"b":{"type":"Building","children":["p1","p2"]},"p1":{"type":"BuildingPart","parents":["b"],"geometry":[{"type":"MultiPoint","lod":"1","boundaries":[3,1]}]},"p2":{"type":"BuildingPart","parents":["b"],"geometry":[{"type":"MultiPoint","lod":"1","boundaries":[1,0]}]}} => {"b":{"type":"Building","children":["p1","p2"]},"p1":{"type":"BuildingPart","parents":["b"],"geometry":[{"type":"MultiPoint","lod":"1","boundaries":[0,1]}]},"p2":{"type":"BuildingPart","parents":["b"],"geometry":[{"type":"MultiPoint","lod":"1","boundaries":[1,2]}]}},"vertices":[[3,3,3],[1,1,1],[0,0,0]]
{"b":{"type":"Building","children":["p1","p2","b"]},"p1":{"type":"BuildingPart","parents":["b"],"geometry":[{"type":"MultiPoint","lod":"1","boundaries":[3,1]}]},"p2":{"type":"BuildingPart","parents":["b"],"geometry":[{"type":"MultiPoint","lod":"1","boundaries":[1,0]}]}} => {"b":{"type":"Building","children":["p1","p2","b"]},"p1":{"type":"BuildingPart","parents":["b"],"geometry":[{"type":"MultiPoint","lod":"1","boundaries":[0,1]}]},"p2":{"type":"BuildingPart","parents":["b"],"geometry":[{"type":"MultiPoint","lod":"1","boundaries":[1,2]}]}},"vertices":[[3,3,3],[1,1,1],[0,0,0]]
{"b":{"type":"Building","children":["p2","p1"],"parents":[]},"p1":{"type":"BuildingPart","parents":["b"],"geometry":[{"type":"MultiPoint","lod":"1","boundaries":[3,1]}]},"p2":{"type":"BuildingPart","parents":["b"],"geometry":[{"type":"MultiPoint","lod":"1","boundaries":[1,0]}]}} => {"b":{"type":"Building","children":["p2","p1"],"parents":[]},"p1":{"type":"BuildingPart","parents":["b"],"geometry":[{"type":"MultiPoint","lod":"1","boundaries":[0,1]}]},"p2":{"type":"BuildingPart","parents":["b"],"geometry":[{"type":"MultiPoint","lod":"1","boundaries":[1,2]}]}},"vertices":[[3,3,3],[1,1,1],[0,0,0]]
{"b":{"type":"Building","children":["p1","p2"],"address":[{"location":{"type":"MultiPoint","boundaries":[2]}}]},"p1":{"type":"BuildingPart","parents":["b"],"geometry":[{"type":"MultiPoint","lod":"1","boundaries":[3,1]}]},"p2":{"type":"BuildingPart","parents":["b"],"geometry":[{"type":"MultiPoint","lod":"1","boundaries":[1,0]}]}} => {"b":{"type":"Building","children":["p1","p2"],"address":[{"location":{"type":"MultiPoint","boundaries":[0]}}]},"p1":{"type":"BuildingPart","parents":["b"],"geometry":[{"type":"MultiPoint","lod":"1","boundaries":[1,2]}]},"p2":{"type":"BuildingPart","parents":["b"],"geometry":[{"type":"MultiPoint","lod":"1","boundaries":[2,3]}]}},"vertices":[[2,2,2],[3,3,3],[1,1,1],[0,0,0]]"#;

#[test]
fn vertices_are_numbered_by_first_use(rt: HostRuntime) {
    expect(&rt, OBJECTS, OF_ALONE, ALONE);
    expect(&rt, OBJECTS, OF_FAMILY, FAMILIES);
}

/// A root with many children, and objects alone.
const LARGE: &str =
    r#"HEAD,"CityObjects":{"root":{"children":[CHILDREN"shared"]},"shared":{"parents":["root"],"geometry":[{"boundaries":[0]}]}ROW},"vertices":POINTS}"#;

const CHILDREN: &str = r#""sharedNUMBER0","sharedNUMBER1","sharedNUMBER2","sharedNUMBER3","#;

/// Four children and four objects alone.
const FOUR: &str =
    r#","aloneNUMBER0":{},"sharedNUMBER0":{"parents":["root"],"geometry":[{"boundaries":[0]}]},"aloneNUMBER1":{},"sharedNUMBER1":{"parents":["root"],"geometry":[{"boundaries":[1]}]},"aloneNUMBER2":{},"sharedNUMBER2":{"parents":["root"],"geometry":[{"boundaries":[2]}]},"aloneNUMBER3":{},"sharedNUMBER3":{"parents":["root"],"geometry":[{"boundaries":[3]}]}"#;

fn shares_vertices(cut: &Cut) -> bool {
    let features = cut.features.items();
    match features.first() {
        Some(root) => features.len() == 2001 && root.vertices().len() == 4,
        None => false,
    }
}

/// Whether the root and the objects alone are features, and the children share four vertices.
fn is_cut_large(alloc: Global, document: &str) -> bool {
    match cut_text(alloc, document) {
        Ok(cut) => shares_vertices(&cut),
        Err(_) => false,
    }
}

fn large_document_is_cut(alloc: Global) -> Result<bool, AllocError> {
    let form = with_repeated(alloc, LARGE, "CHILDREN", CHILDREN, 500)?;
    let document = filled(alloc, &form, &repeated(alloc, FOUR, 500)?)?;
    Ok(is_cut_large(alloc, &document))
}

#[test]
fn a_large_document_is_cut(rt: HostRuntime) {
    assert!(rt; large_document_is_cut(rt.alloc()) == Ok(true));
}
