//! Geometries by where their boundaries stand among their members, cut by the cut on the text.
use crate::answers::{cut_on_its_text, expect_answers};
use crate::texts::{cut_text, filled, with_repeated};
use std::alloc::{AllocError, AllocGlobal, Global};
use std::process::Abort;

/// A geometry alone, among others, and in a part.
const PLACES: &str = r#"HEAD,"CityObjects":{"a":{"geometry":[ROW]}},"vertices":POINTS}
HEAD,"CityObjects":{"a":{"type":"Building","geometry":[{"boundaries":[3]},ROW,{"type":"MultiPoint"},ROW,{}],"x":[]}},"vertices":POINTS}
HEAD,"CityObjects":{"p":{"parents":["a"],"geometry":[ROW]},"a":{"children":["p"],"geometry":[ROW,{"lod":"0","boundaries":[[0]]}],"y":"}"}},"vertices":POINTS}"#;

/// Boundaries in front of other members, after them and between them, and names that look like theirs.
const ANSWERED: &str = r#"{"boundaries":[3,1]}
{"boundaries":[[2],[]],"lod":"1"}
{"lod":"1","boundaries":[[],2]}
{"type":"MultiPoint","lod":"1","boundaries":[2,1,2]}
{"boundaries":[2,1,2],"type":"MultiPoint","lod":"1"}
{"semantics":{"surfaces":[{"type":"+]}","x":[1,[2]]}],"values":[[0,null],[1]]},"boundaries":[[[3,1]]],"lod":1.50}
{"lod":2,"boundaries":[[[3,1]]],"semantics":{"surfaces":[{"boundaries":[9]}],"values":[0]}}
{"texture":{"boundaries":{"values":[[9]]}},"material":{"boundaries":"[3]"},"boundaries":[1],"boundaries2":[9]}
{"boundarie":[9],"boundaries ":[9],"Boundaries":[9],"oundaries":{"boundaries":[9]},"boundaries":[0],"":"boundaries"}
{"\"boundaries":[9],"boundaries\"":[9],"\"boundaries\":":[9],"boundaries":[3],"boundaries\\":[9],"\\boundaries":[9]}
{"boundaries\":[1":"[2]","boundaries":[2],",\"boundaries\":[3]":0}
{"bound\u0061ries":[3,0],"lod":"1"}
{"\u0062oundaries\u005c":[9],"type":"x","\u0062oundaries":[3]}
{"type":"GeometryInstance","template":0,"boundaries":[2],"transformationMatrix":[2,0,0,0,0,1e0,0,0,0,0,1,-1,0,0,0,1]}
{"template":0,"transformationMatrix":[],"boundaries":[2],"type":"GeometryInstance"}
{"type":"MultiPoint","lod":"1"}
{"boundary":[9],"values":{"boundaries":[9]}}
{}
 { "lod" : "1" , "boundaries" : [ [ 3 , 1 ] , [ ] ] , "x" : [ { } ] } "#;

#[test]
fn boundaries_are_found_among_other_members(rt: HostRuntime) {
    for form in PLACES.lines() {
        expect_answers(&rt, form, ANSWERED);
    }
}

/// What the plain cut refuses.
const REFUSED: &str = r#"{"boundaries":3}
{"boundaries":"[0]","lod":"1"}
{"boundaries":{},"lod":"1"}
{"lod":"1","boundaries":null}
{"lod":"1","boundaries":true,"x":[]}
{"boundaries":[4]}
{"lod":"1","boundaries":[0,[4]],"x":[]}
{"boundaries":[[0],[10000000000000000]],"lod":"1"}
{"boundaries":[18446744073709551616]}
{"boundaries":[-1],"lod":"1"}
{"boundaries":[-0],"lod":"1"}
{"boundaries":[1.0],"lod":"1"}
{"boundaries":[1e0],"lod":"1"}
{"boundaries":[00],"lod":"1"}
{"boundaries":[[0],["1"]],"lod":"1"}
{"boundaries":[[0],{"x":0}],"lod":"1"}
{"boundaries":[[0],null],"lod":"1"}
{"boundaries":[0],"lod":"1","boundaries":[0]}
{"boundaries":[0],"lod":"1","bound\u0061ries":[1]}
{"boundaries":[0],"lod":"1","lod":"1"}
{"boundaries":[0],"lod":"1",}
{"boundaries":[0]"lod":"1"}
{"boundaries":[0]]
{"boundaries":[0]
[{"boundaries":[0]}]
"{\"boundaries\":[0]}"
3"#;

/// Whether the cut on the text leaves the document to the cut by value, which refuses it.
fn is_left_and_refused(alloc: Global, document: &str) -> bool {
    cut_on_its_text(alloc, document.as_bytes()).is_none() && cut_text(alloc, document).is_err()
}

fn is_row_refused(alloc: Global, form: &str, row: &str) -> Result<bool, AllocError> {
    Ok(is_left_and_refused(alloc, &filled(alloc, form, row)?))
}

fn expect_refusals(rt: &(impl Abort + AllocGlobal), form: &str, table: &str) {
    for row in table.lines() {
        assert!(rt; is_row_refused(rt.alloc(), form, row) == Ok(true), "{row}");
    }
}

#[test]
fn other_boundaries_are_left_to_the_plain_cut(rt: HostRuntime) {
    for form in PLACES.lines() {
        expect_refusals(&rt, form, REFUSED);
    }
}

/// Boundaries in front of another member, with so many brackets more.
const NESTED: &str =
    r#"HEAD,"CityObjects":{"a":{"geometry":[{"boundaries":[ROW3,0CLOSED],"lod":"1"}]}},"vertices":POINTS}"#;

/// The form with so many closing brackets, and as many opening ones.
fn nested(alloc: Global, levels: usize) -> Result<(String, String), AllocError> {
    let form = NESTED.replace(alloc, "CLOSED", &"]".repeat(alloc, levels)?)?;
    Ok((form, "[".repeat(alloc, levels)?))
}

fn is_deepest_answered(rt: &(impl Abort + AllocGlobal)) -> Result<(), AllocError> {
    let (form, row) = nested(rt.alloc(), 122)?;
    expect_answers(rt, &form, &row);
    Ok(())
}

fn is_deeper_refused(alloc: Global) -> Result<bool, AllocError> {
    let (form, row) = nested(alloc, 123)?;
    is_row_refused(alloc, &form, &row)
}

#[test]
fn boundaries_nest_as_deep_as_documents(rt: HostRuntime) {
    assert!(rt; is_deepest_answered(&rt).is_ok());
    assert!(rt; is_deeper_refused(rt.alloc()) == Ok(true));
}

/// Boundaries that name the last of many vertices first, and then each; some numbers have many brackets between them.
const MANY: &str =
    r#"HEAD,"CityObjects":{"a":{"geometry":[{"boundaries":[[[12000,LEAVES3]],[[]],[9,[[[[[[[[[[[[[[[[[[[[[[[[[[[5]]]]]]]]]]]]]]]]]]]]]]]]]]],12000],0]}]}},"vertices":[CORNERS[1,2,3]]}"#;

fn with_many(alloc: Global) -> Result<String, AllocError> {
    let form = with_repeated(alloc, MANY, "LEAVES", "NUMBER,", 12_000)?;
    with_repeated(alloc, &form, "CORNERS", "[NUMBER,7,NUMBER],", 12_000)
}

fn is_many_answered(rt: &(impl Abort + AllocGlobal)) -> Result<(), AllocError> {
    expect_answers(rt, &with_many(rt.alloc())?, "one row");
    Ok(())
}

#[test]
fn numbers_of_many_digits_are_written(rt: HostRuntime) {
    assert!(rt; is_many_answered(&rt).is_ok());
}
