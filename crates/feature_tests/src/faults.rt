//! The faults of vertices and of lines. A row tells a text, and its fault, or `none`.
use crate::answers::{gives, shift_of};
use crate::texts::{below, filled, is_named, repeated, split};
use byte_streams::Fault;
use city_feature::{Choice, is_array, take_vertices};
use city_grid::Vertex;
use std::alloc::{AllocError, AllocGlobal, Global};
use std::process::Abort;

/// Whether a fault is the one that is meant.
fn is_meant(alloc: Global, fault: Option<Fault>, wanted: &str) -> bool {
    match fault {
        Some(fault) => is_named(alloc, fault, wanted),
        None => wanted == "none",
    }
}

/// Compact texts of arrays, and the fault of the first of their vertices that is at fault. The long ones have 17 digits.
const ARRAYS: &str = r#"
[] => none
[[1,2,3]] => none
[[0,0,0],[-1,-2,-3],[9007199254740991,-9007199254740991,0]] => none
[[-0,-0,-0]] => none
[[1,2]] => VertexShape
[[1,2,3,4]] => VertexShape
[[1]] => VertexShape
[[]] => VertexShape
[[],[1,2,3]] => VertexShape
[[[1,2,3]]] => VertexShape
[[[1],2,3]] => VertexShape
[[1,[2],3]] => VertexShape
[[1,2,[3]]] => VertexShape
[[1,2,[]]] => VertexShape
[[1,2,3,[]]] => VertexShape
[["1",2,3]] => VertexShape
[[1,"2",3]] => VertexShape
[[1,2,"3"]] => VertexShape
[["[1,2,3]"]] => VertexShape
[["1,2,3"]] => VertexShape
[[1,"],[",3]] => VertexShape
[[1,2,null]] => VertexShape
[[true,2,3]] => VertexShape
[[1,false,3]] => VertexShape
[[1,2,{}]] => VertexShape
[[{"x":1},2,3]] => VertexShape
[1,2,3] => VertexShape
[1] => VertexShape
[-1] => VertexShape
["a"] => VertexShape
[""] => VertexShape
[null] => VertexShape
[true] => VertexShape
[false] => VertexShape
[{}] => VertexShape
[{"x":1,"y":2,"z":3}] => VertexShape
[[1.5,2]] => VertexShape
[[9007199254740992,2]] => VertexShape
[[1.5,9007199254740992,"3"]] => VertexShape
[[1.0,2,3]] => VertexNotInteger
[[1,2.5,3]] => VertexNotInteger
[[1,2,0.0]] => VertexNotInteger
[[1e2,0,0]] => VertexNotInteger
[[1,1E2,0]] => VertexNotInteger
[[1,0,1e+2]] => VertexNotInteger
[[1,0,-0.0]] => VertexNotInteger
[[0,0e0,0]] => VertexNotInteger
[[1.0,9007199254740992,3]] => VertexNotInteger
[[9007199254740992,2,3.0]] => VertexNotInteger
[[9007199254740992,2,3]] => VertexRange
[[1,-9007199254740992,3]] => VertexRange
[[1,2,9999999999999999]] => VertexRange
[[1,2,10000000000000000]] => VertexRange
[[1,2,-12345678901234567]] => VertexRange
[[123456789012345678901234567890,2,3]] => VertexRange
[[1,2,3],[1,2]] => VertexShape
[[1,2,3],[1.0,2,3]] => VertexNotInteger
[[1,2,3],[9007199254740992,2,3]] => VertexRange
[[1,2,3],7] => VertexShape
[[1,2,3],[]] => VertexShape
[[1,2,3],[4,5,6],[7,8,9,0]] => VertexShape
[[1,2],[1.0,2,3],[9007199254740992,2,3]] => VertexShape
[[1.0,2,3],[9007199254740992,2,3],[1,2]] => VertexNotInteger
[[9007199254740992,2,3],[1,2],[1.0,2,3]] => VertexRange
[[-0,0,0],[1e0,0,0],[1,2]] => VertexNotInteger
[[-0,0,0],[-0,-0]] => VertexShape
{} => none
{"a":[[1,2]]} => none
null => none
7 => none
"[[1,2]]" => none
"#;

/// The fault of the first of many vertices that is at fault.
const MANY: &str = "
[VERTICES] => none
[VERTICES,[1,2]] => VertexShape
[VERTICES,[1,2,3.0]] => VertexNotInteger
[VERTICES,[1,2,9007199254740992]] => VertexRange
[[1,2],VERTICES] => VertexShape
[[1,2,3.0],VERTICES] => VertexNotInteger
[[1,2,9007199254740992],VERTICES] => VertexRange
[VERTICES,[1,2,3.0],VERTICES,[1,2]] => VertexNotInteger
[VERTICES,[1,2,9007199254740992],[1,2],VERTICES] => VertexRange
[[VERTICES]] => VertexShape
[[1,2,[VERTICES]]] => VertexShape
[[[VERTICES],2,3]] => VertexShape
[VERTICES,[VERTICES],[1,2,3.0]] => VertexShape
";

/// Why the items of this array are no vertices; `None`, where they are, or it is none.
fn items_fault(alloc: Global, text: &[u8]) -> Option<Fault> {
    if !is_array(text) {
        return None;
    }
    let mut vertices: Vec<Vertex> = Vec::new(alloc);
    take_vertices(alloc, text, &mut vertices).err()
}

fn expect_arrays(rt: &(impl Abort + AllocGlobal), table: &str) {
    for row in table.lines() {
        let (text, wanted) = split(row);
        let fault = items_fault(rt.alloc(), text.as_bytes());
        assert!(rt;
            row.is_empty() || is_meant(rt.alloc(), fault, wanted),
            "{row}"
        );
    }
}

#[test]
fn the_first_vertex_at_fault_is_told(rt: HostRuntime) {
    expect_arrays(&rt, ARRAYS);
}

fn with_vertices(alloc: Global, table: &str, form: &str) -> Result<String, AllocError> {
    repeated(alloc, table, "VERTICES", (form, ","), below(1000))
}

#[test]
fn it_is_told_among_many(rt: HostRuntime) -> Result<(), AllocError> {
    expect_arrays(&rt, &with_vertices(rt.alloc(), MANY, "[NUMBER,-NUMBER,0]")?);
    expect_arrays(
        &rt,
        &with_vertices(rt.alloc(), MANY, "[900719DIGITS,-0,-1DIGITS]")?,
    );
    Ok(())
}

/// Whether this is the fault of a line, by its value, too.
fn is_told(alloc: Global, line: &str, moved: &str, wanted: &str) -> bool {
    let Some(shift) = shift_of(moved) else {
        return false;
    };
    let wanted = if wanted == "none" { "chosen" } else { wanted };
    let choice = Choice::new(None, None, false);
    gives(alloc, line.as_bytes(), shift, &choice, wanted)
}

fn is_row_told(alloc: Global, form: &str, row: &str) -> Result<bool, AllocError> {
    let (moved, texts) = split(row);
    let (given, wanted) = split(texts);
    let line = filled(alloc, form, given)?;
    Ok(is_told(alloc, &line, moved, wanted))
}

fn expect_lines(rt: &(impl Abort + AllocGlobal), form: &str, table: &str) {
    for row in table.lines() {
        let told = is_row_told(rt.alloc(), form, row);
        assert!(rt; row.is_empty() || told == Ok(true), "{row}");
    }
}

/// How far the vertices are moved, the line, and its fault.
const LINES: &str = r#"
all => {} => NotAFeature
all => {"type":"CityJSONFeature"} => NotAFeature
all => {"id":"a","CityObjects":{},"vertices":[]} => NotAFeature
all => {"type":null,"id":"a","CityObjects":{},"vertices":[]} => NotAFeature
all => {"type":"CityJSON","id":"a","CityObjects":{},"vertices":[]} => NotAFeature
all => {"type":"CityJSONFeatures","id":"a","CityObjects":{},"vertices":[]} => NotAFeature
all => {"type":"CityJSONFeatur","id":"a","CityObjects":{},"vertices":[]} => NotAFeature
all => {"type":"","id":"a","CityObjects":{},"vertices":[]} => NotAFeature
all => {"type":["CityJSONFeature"],"id":"a","CityObjects":{},"vertices":[]} => NotAFeature
all => {"Type":"CityJSONFeature","id":"a","CityObjects":{},"vertices":[]} => NotAFeature
all => {"type":"CityJSONFeature","CityObjects":{},"vertices":[]} => NotAFeature
all => {"type":"CityJSONFeature","id":7,"CityObjects":{},"vertices":[]} => NotAFeature
all => {"type":"CityJSONFeature","id":null,"CityObjects":{},"vertices":[]} => NotAFeature
all => {"type":"CityJSONFeature","id":["a"],"CityObjects":{},"vertices":[]} => NotAFeature
all => {"type":"CityJSONFeature","id":"a","vertices":[]} => NotAFeature
all => {"type":"CityJSONFeature","id":"a","CityObjects":[],"vertices":[]} => NotAFeature
all => {"type":"CityJSONFeature","id":"a","CityObjects":"{}","vertices":[]} => NotAFeature
all => {"type":"CityJSONFeature","id":"a","CityObjects":null,"vertices":[]} => NotAFeature
all => {"type":"CityJSONFeature","id":"a","CityObjects":{}} => NotAFeature
all => {"type":"CityJSONFeature","id":"a","CityObjects":{},"vertices":{}} => NotAFeature
all => {"type":"CityJSONFeature","id":"a","CityObjects":{},"vertices":null} => NotAFeature
all => {"type":"CityJSONFeature","id":"a","CityObjects":{},"vertices":"[]"} => NotAFeature
all => {"type":"CityJSONFeature","id":"a","CityObjects":{},"vertices":7} => NotAFeature
all => {"type":"CityJSONFeature","id":7,"CityObjects":{},"vertices":[1.5]} => NotAFeature
all => {"vertices":[[1,2]],"type":"CityJSONFeature","id":7,"CityObjects":{}} => NotAFeature
all => {"a":{"type":"CityJSONFeature","id":"a","CityObjects":{},"vertices":[]}} => NotAFeature
10,20,30 => {"vertices":[[9007199254740991,0,0]],"type":"CityJSONFeature","id":"a"} => NotAFeature
all => {"type":"CityJSONFeature","id":"a","CityObjects":{},"vertices":[]} => none
10,20,30 => {"type":"CityJSONFeature","id":"a","CityObjects":{},"vertices":[]} => none
all => {"type":"CityJSONFeature","id":"a","CityObjects":{},"vertices":[[1,2,3],[-0,0,0]]} => none
all =>  { "type" : "CityJSONFeature" , "id" : "\u00e9" , "CityObjects" : { } , "vertices" : [ [ 1 , 2 ] ] }  => VertexShape
all => {"\u0074ype":"CityJSON\u0046eature","\u0069d":"","Cit\u0079Objects":{},"vertice\u0073":[[1.0,2,3]]} => VertexNotInteger
all => {"type":"CityJSONFeature","id":"\"","CityObjects":{"\\":{}},"vertices":[[1,2,9007199254740992]],"x":"\/"} => VertexRange
all => {"\u0074ype":"CityJSON\u0046eatures","id":"","CityObjects":{},"vertices":[]} => NotAFeature
all => {"type":"CityJSONFeature","id":"a","CityObjects":{},"Vertices":[[1,2]],"vertices":[]} => none
all => {"type":"CityJSONFeature","id":"a","CityObjects":{"a":{"vertices":[[1,2]]}},"x":[[1,2]],"vertices":[[1,2,3]]} => none
all => {"type":"CityJSONFeature","id":"a","CityObjects":{},"x":[[1,2,3]],"vertices":[[1,2,3],[1,2]]} => VertexShape
all => {"type":"CityJSONFeature","id":"a","CityObjects":{},"vertices":[],"id":"b"} => DuplicateName
all => {"type":"CityJSONFeature","id":"a","CityObjects":{},"vertices":[] => Syntax
all => [] => NotAFeature
all => "CityJSONFeature" => NotAFeature
all =>  => Syntax
"#;

/// A feature, and the same with white space and with escapes, so that it is not lent.
const FORMS: &str =
    r#"{"type":"CityJSONFeature","id":"b","CityObjects":{"b":{"type":"Building"}},"vertices":ROW}
{ "vertices" : ROW , "x" : "\u0041", "id":"b","CityObjects":{},"type":"CityJSONFeature"}
{"type":"CityJSONFeature","x":[[20,30,0]],"\u0069d":"b","CityObjects":{"b":{}},"vertices":ROW,"y":[[1,2]]}"#;

/// How far the vertices are moved, the vertices, and their fault: those that are at fault where they stand come first.
const MOVED: &str = "
1,0,0 => [[9007199254740991,0,0]] => VertexRange
-1,0,0 => [[9007199254740991,0,0]] => none
0,0,0 => [[9007199254740991,0,0]] => none
0,-1,0 => [[0,-9007199254740991,0]] => VertexRange
0,0,2 => [[0,0,9007199254740990]] => VertexRange
0,0,1 => [[0,0,9007199254740990]] => none
1,0,0 => [[0,0,0],[1,2,3],[9007199254740991,0,0]] => VertexRange
1,0,0 => [[9007199254740991,0,0],[0,0,0]] => VertexRange
1,0,0 => [[9007199254740991,0,0],[1,2]] => VertexShape
1,0,0 => [[9007199254740991,0,0],[1,2,3.0]] => VertexNotInteger
1,0,0 => [[1,2,3e0],[9007199254740991,0,0]] => VertexNotInteger
-1,0,0 => [[9007199254740992,0,0]] => VertexRange
-1,0,0 => [[9007199254740992,0,0],[1,2]] => VertexRange
0,0,0 => [[9007199254740992,0,0]] => VertexRange
9007199254740991,0,0 => [[-9007199254740991,0,0]] => none
9007199254740991,0,0 => [[-0,0,0],[1,0,0]] => VertexRange
1,0,0 => [[-0,0,0],[1,2,3,4]] => VertexShape
1,0,0 => [] => none
1,0,0 => [[]] => VertexShape
1,0,0 => [[[1,2,3]]] => VertexShape
1,0,0 => {} => NotAFeature
";

#[test]
fn the_fault_of_a_line_is_told(rt: HostRuntime) {
    expect_lines(&rt, "ROW", LINES);
    for form in FORMS.lines() {
        expect_lines(&rt, form, MOVED);
    }
}
