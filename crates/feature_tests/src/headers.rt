//! Headers that are taken, those that are refused, and which of them are documents.
use crate::texts::{filled, is_named, split};
use byte_streams::{Fault, Line};
use city_feature::{Header, header, holds_city, is_document};
use city_json::{Workspace, compact_object, print, read};
use std::alloc::{AllocGlobal, Global};
use std::process::Abort;

/// Headers whose vertices are in millimetres, from the origin, and documents.
const KEPT: &str =
    r#"{"type":"CityJSON","version":"2.0","transform":{"scale":[0.001,0.001,0.001],"translate":[0,0,0]},"CityObjects":{},"vertices":[]}
{"vertices":[],"CityObjects":{},"transform":{"translate":[0,0,0],"scale":[1e-3,1.0E-3,0.00100]},"version":"2.0","type":"CityJSON"}
{"x":[1.50e+3],"transform":{"scale":[0.001,0.001,0.001],"translate":[0,0,0],"y":{}},"type":"CityJSON","version":"2.0"}
{"type":"CityJSON","version":"2.0","transform":{"scale":[0.001,0.001,0.001],"translate":[0,0,0]},"CityObjects":{},"vertices":[],"metadata":{"geographicalExtent":[0,0,0,1,1,1],"title":"t"}}
{"type":"CityJSON","version":"2.0","transform":{"scale":[0.001,0.001,0.001],"translate":[0,0,0]},"extensions":{"A":{"version":"1"}},"metadata":{}}
{"type":"CityJSON","version":"2.0","transform":{"scale":[0.001,0.001,0.001],"translate":[0,0,0]},"CityObjects":{},"vertices":[[0,0,0]]}
{"type":"CityJSON","version":"2.0","transform":{"scale":[0.001,0.001,0.001],"translate":[0,0,0]},"CityObjects":{"a":{"type":"Building"}},"vertices":[]}
{"type":"CityJSON","version":"2.0","transform":{"scale":[0.001,0.001,0.001],"translate":[0,0,0]},"CityObjects":{"a":1}}
{"type":"CityJSON","version":"2.0","transform":{"scale":[0.001,0.001,0.001],"translate":[0,0,0]},"vertices":[null]}"#;

fn header_of(alloc: Global, text: &str) -> Result<Header, Fault> {
    header(read(alloc, text.as_bytes())?)
}

fn is_printed(alloc: Global, header: &Header, wanted: &str) -> bool {
    let mut line = Line::new(alloc);
    print(header.json(), &mut line).is_ok() && line.items() == wanted.as_bytes()
}

fn is_in_millimetres(header: &Header) -> bool {
    let scale = header.transform().scale();
    scale.x.units() == 1_000_000_000_000_000_000_000
        && scale.z.units() == 1_000_000_000_000_000_000_000
        && header.transform().translate().y.units() == 0
}

fn is_kept(alloc: Global, text: &str) -> Result<bool, Fault> {
    let header = header_of(alloc, text)?;
    Ok(is_in_millimetres(&header) && is_printed(alloc, &header, text))
}

fn is_moved(header: &Header) -> bool {
    let origin = header.transform().translate();
    origin.x.units() == 1_500_000_000_000_000_000_000_000
        && origin.y.units() == -2_000_000_000_000_000_000_000_000
        && origin.z.units() == 100_000_000_000_000_000_000_000_000
}

fn knows_its_translation(alloc: Global) -> bool {
    let text =
        r#"{"type":"CityJSON","version":"2.0","transform":{"scale":[0.001,0.001,0.001],"translate":[1.5,-2,1e2]},"CityObjects":{},"vertices":[]}"#;
    match header_of(alloc, text) {
        Ok(header) => is_moved(&header),
        Err(_) => false,
    }
}

#[test]
fn headers_are_kept_as_they_are(rt: HostRuntime) {
    for text in KEPT.lines() {
        assert!(rt; is_kept(rt.alloc(), text) == Ok(true), "{text}");
    }
    assert!(rt; knows_its_translation(rt.alloc()));
}

/// A header of this version.
const VERSION: &str =
    r#"{"type":"CityJSON","version":ROW,"transform":{"scale":[0.001,0.001,0.001],"translate":[0,0,0]},"CityObjects":{},"vertices":[]}"#;

/// A header of this scale and translation.
const TRANSFORM: &str =
    r#"{"type":"CityJSON","version":"2.0","transform":{ROW},"CityObjects":{},"vertices":[]}"#;

/// A header with this member.
const MEMBER: &str =
    r#"{"type":"CityJSON","version":"2.0","transform":{"scale":[0.001,0.001,0.001],"translate":[0,0,0]},ROW}"#;

/// Texts that are refused, some of them for the first of several faults.
const ALONE: &str = r#"[] => NotCityJson
null => NotCityJson
"CityJSON" => NotCityJson
{} => NotCityJson
{"type":"CityJSONFeature","version":"2.0"} => NotCityJson
{"type":"CityJSON2","version":"2.0"} => NotCityJson
{"type":["CityJSON"],"version":"2.0"} => NotCityJson
{"a":{"type":"CityJSON","version":"2.0"}} => NotCityJson
{"type":"CityJSON","version":"1.1","transform":{"scale":[0,0,0],"translate":[0,0,0]},"CityObjects":[],"vertices":[[0,0,0]]} => NotCityJson
{"type":"CityJSON","version":"2.0","transform":{"scale":[0,0,0],"translate":[0,0,0]},"CityObjects":{},"vertices":[[0,0,0]]} => ScaleNotPositive
{"type":"CityJSON","version":"2.0","CityObjects":{},"vertices":[]} => NoTransform"#;

/// Members of another kind.
const MEMBERS: &str = r#""CityObjects":[] => NotCityJson
"CityObjects":null => NotCityJson
"metadata":[] => NotCityJson
"metadata":"m" => NotCityJson
"extensions":[] => NotCityJson
"extensions":1 => NotCityJson
"vertices":{} => NotCityJson
"vertices":false => NotCityJson"#;

/// Other versions.
const VERSIONS: &str = r#""1.1" => Version
"2.0.1" => Version
"2" => Version
"2." => Version
"" => Version
2.0 => Version
null => Version"#;

/// Without a version, or without 2.0.
const BARE: &str = r#" => Version
,"version":"1.1","transform":{"scale":[0,0,0],"translate":[0,0,0]},"CityObjects":{},"vertices":[[0,0,0]] => Version"#;

/// Scales and translations that are none.
const TRANSFORMS: &str = r#""scale":[0,0,0],"translate":[0,0,0] => ScaleNotPositive
"scale":[0.001,0.001,-0.001],"translate":[0,0,0] => ScaleNotPositive
"scale":[1e-25,0.001,0.001],"translate":[0,0,0] => Decimal
"scale":[0,0,0],"translate":[0,0,1000000000000] => Decimal
"scale":[0.001,0.001],"translate":[0,0,0] => NoTransform
"scale":[0.001,0.001,0.001],"translate":[0,0,"0"] => NoTransform"#;

fn refuses(alloc: Global, form: &str, row: &str) -> Result<bool, Fault> {
    let (given, fault) = split(row);
    let text = filled(alloc, form, given)?;
    match header_of(alloc, &text) {
        Ok(_) => Ok(false),
        Err(found) => Ok(is_named(alloc, found, fault)),
    }
}

fn expect_refused(rt: &(impl Abort + AllocGlobal), form: &str, table: &str) {
    for row in table.lines() {
        assert!(rt; refuses(rt.alloc(), form, row) == Ok(true), "{row}");
    }
}

#[test]
fn the_first_fault_in_order_is_told(rt: HostRuntime) {
    expect_refused(&rt, "ROW", ALONE);
    expect_refused(&rt, MEMBER, MEMBERS);
    expect_refused(&rt, VERSION, VERSIONS);
    expect_refused(&rt, r#"{"type":"CityJSON"ROW}"#, BARE);
    expect_refused(&rt, TRANSFORM, TRANSFORMS);
}

/// Values that hold city objects or vertices.
const DOCUMENTS: &str = r#"{"CityObjects":{"a":1}}
{"CityObjects":{"a":{}},"vertices":[]}
{"CityObjects":{"a":{}},"vertices":{}}
{"vertices":[[0,0,0]]}
{"vertices":[null],"CityObjects":{}}
{"vertices":[[]],"CityObjects":[]}
{"type":"CityJSON","CityObjects":{"a":{},"b":{}},"vertices":[[0,0,0],[1,1,1]]}
{"type":"CityJSON","version":"2.0","transform":{"scale":[0.001,0.001,0.001],"translate":[0,0,0]},"CityObjects":{},"vertices":[[0,0,0]]}
{"type":"CityJSON","version":"2.0","transform":{"scale":[0.001,0.001,0.001],"translate":[0,0,0]},"CityObjects":{"a":{"type":"Building"}},"vertices":[]}
{"type":"CityJSON","version":"2.0","transform":{"scale":[0.001,0.001,0.001],"translate":[0,0,0]},"CityObjects":{"a":1}}
{"type":"CityJSON","version":"2.0","transform":{"scale":[0.001,0.001,0.001],"translate":[0,0,0]},"vertices":[null]}"#;

/// Values that hold neither.
const OTHERS: &str = r#"{}
{"CityObjects":{},"vertices":[]}
{"CityObjects":{}}
{"vertices":[]}
{"CityObjects":[1]}
{"CityObjects":"a"}
{"vertices":{"a":1}}
{"vertices":1,"CityObjects":null}
{"CityObjects":[{"a":1}],"vertices":{"0":[0,0,0]}}
{"a":{"CityObjects":{"a":1},"vertices":[[0,0,0]]}}
[{"CityObjects":{"a":1}}]
[[0,0,0]]
"vertices"
null"#;

fn is_document_of(alloc: Global, text: &str) -> Result<bool, Fault> {
    Ok(is_document(&read(alloc, text.as_bytes())?))
}

/// The same of its compact text, which is asked of objects alone.
fn is_document_text(alloc: Global, text: &[u8]) -> Option<bool> {
    let mut workspace = Workspace::new(alloc, Line::new(alloc));
    let Ok(Some(object)) = compact_object(alloc, text, &mut workspace) else {
        return None;
    };
    let line = object.text(text, &workspace.line);
    Some(holds_city(&line))
}

fn expect_documents(rt: &(impl Abort + AllocGlobal), table: &str, wanted: bool) {
    for text in table.lines() {
        assert!(rt; is_document_of(rt.alloc(), text) == Ok(wanted), "{text}");
        let told = is_document_text(rt.alloc(), text.as_bytes());
        assert!(rt; told == text.starts_with('{').then_some(wanted), "{text}");
    }
}

#[test]
fn documents_hold_city_objects_or_vertices(rt: HostRuntime) {
    expect_documents(&rt, DOCUMENTS, true);
    expect_documents(&rt, OTHERS, false);
}
