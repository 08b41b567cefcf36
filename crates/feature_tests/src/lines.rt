//! Lines of features: which are chosen, how they are moved, and which fault they have.
use crate::answers::{gives_asked, has_room, holds, is_answered, place_of};
use crate::texts::{Numbers, below, filled, repeated, split};
use byte_streams::Fault;
use city_feature::Choice;
use city_grid::Shift;
use std::alloc::{AllocError, AllocGlobal, Global};
use std::process::Abort;

/// The rows of a table hold.
fn expect(rt: &(impl Abort + AllocGlobal), form: &str, table: &str, needs_no_value: bool) {
    for row in table.lines() {
        let answer = holds(rt.alloc(), form, row, needs_no_value);
        assert!(rt; row.is_empty() || answer == Ok(true), "{row}");
    }
}

/// Lines of a common spelling, which are answered with no value built. The area is that of the feature as it is moved.
const TAKEN: &str = r#"
10,20,30 => {"type":"CityJSONFeature","id":"a","CityObjects":{},"vertices":[]} => {"type":"CityJSONFeature","id":"a","CityObjects":{},"vertices":[]}
10,20,30 => {"vertices":[[1,2,3],[-4,-5,-6]],"CityObjects":{"a":{"type":"Building"}},"id":"a","type":"CityJSONFeature"} => {"vertices":[[11,22,33],[6,15,24]],"CityObjects":{"a":{"type":"Building"}},"id":"a","type":"CityJSONFeature"}
10,20,30 =>  { "type" : "CityJSONFeature" , "more" : [1.50] , "id" : "\u00e9" , "vertices" : [ [ 1 , 2 , 3 ] ] , "CityObjects" : { "\u0061" : { } } }  => {"type":"CityJSONFeature","more":[1.50],"id":"é","vertices":[[11,22,33]],"CityObjects":{"a":{}}}
10,20,30 => {"type":"CityJSONFeature","id":"","CityObjects":{},"vertices":[[9007199254740981,-9007199254740991,0],[-10,-20,-30],[1000000000000000,0,0]]} => {"type":"CityJSONFeature","id":"","CityObjects":{},"vertices":[[9007199254740991,-9007199254740971,30],[0,0,0],[1000000000000010,20,30]]}
all =>  {"vertices": [[1,2,3], [-4,0,6]], "id":"a", "type":"CityJSONFeature", "CityObjects":{}} => {"vertices":[[1,2,3],[-4,0,6]],"id":"a","type":"CityJSONFeature","CityObjects":{}}
all => {"type":"CityJSONFeature", "id":"a", "CityObjects":{"a":{"type":"Building", "attributes":{"h":1.50e+3}}}, "vertices":[[1,2,3]]} => {"type":"CityJSONFeature","id":"a","CityObjects":{"a":{"type":"Building","attributes":{"h":1.50e+3}}},"vertices":[[1,2,3]]}
1500,0,0;;1510,0,1510,100 => {"type":"CityJSONFeature","id":"b","CityObjects":{"b":{"type":"Building"}},"vertices":[[10,20,30]]} => {"type":"CityJSONFeature","id":"b","CityObjects":{"b":{"type":"Building"}},"vertices":[[1510,20,30]]}
10,20,30;Road,Building => {"type":"CityJSONFeature","id":"\u00e9","CityObjects":{"é":{"type":""},"a":{"type":"Building"}},"vertices":[[1,2,3]]} => none
10,20,30;Building;0,0,10,20;others => {"type":"CityJSONFeature","id":"\u00e9","CityObjects":{"é":{"type":""},"a":{"type":"Building"}},"vertices":[[1,2,3]]} => chosen
"#;

/// The vertices of a building.
const BUILDING: &str =
    r#"{"type":"CityJSONFeature","id":"b","CityObjects":{"b":{"type":"Building"}},"vertices":ROW}"#;

/// Vertices are moved along each axis, and the area is tried on them as they are moved.
const MOVED: &str = "
1500,0,0 => [[10,20,30]] => [[1510,20,30]]
0,0,0 => [[1,2,3]] => [[1,2,3]]
7,0,0 => [] => []
0,0,0 => [[-0,0,0]] => [[0,0,0]]
5,0,0 => [[-5,-0,-7],[5,1,2],[0,0,0],[1,2,3]] => [[0,0,-7],[10,1,2],[5,0,0],[6,2,3]]
-1,0,0 => [[9007199254740991,0,0]] => [[9007199254740990,0,0]]
9007199254740991,0,0 => [[-9007199254740991,0,0]] => [[0,0,0]]
100,-20,3 => [[1,2,3],[4,5,6]] => [[101,-18,6],[104,-15,9]]
10,20,30;;15,25,40,40 => [[0,0,0],[5,5,5]] => chosen
10,20,30;;15,25,40,40;others => [[0,0,0],[5,5,5]] => none
10,20,30;;16,25,40,40 => [[0,0,0],[5,5,5]] => none
10,20,30;;16,25,40,40;others => [[0,0,0],[5,5,5]] => chosen
10,20,30;;0,0,10,20 => [[0,0,0],[5,5,5]] => chosen
10,20,30;;0,0,10,20;others => [[0,0,0],[5,5,5]] => none
10,20,30;;0,0,9,20 => [[0,0,0],[5,5,5]] => none
10,20,30;;0,0,9,20;others => [[0,0,0],[5,5,5]] => chosen
1500,0,0;;10,0,10,100 => [[10,20,30]] => none
";

/// Vertices that stay where they are, and of which an area is asked: what counts is their extent in x and y.
const MEASURED: &str = "
;;10,20,30,40 => [[10,20,5]] => chosen
;;10,20,30,40 => [[30,40,-5]] => chosen
;;10,20,30,40 => [[9,30,0]] => none
;;10,20,30,40 => [[31,30,0]] => none
;;10,20,30,40 => [[20,19,0]] => none
;;10,20,30,40 => [[20,41,0]] => none
;;10,20,30,40 => [[0,0,0],[100,100,0]] => chosen
;;10,20,30,40 => [[0,30,0],[9,30,20]] => none
;;10,20,30,40 => [[31,30,0],[200,30,20],[40,-5,20]] => none
;;10,20,30,40 => [[0,0,0],[5,100,0],[10,50,0]] => chosen
;;10,20,30,40 => [[0,0,0],[10,50,0],[5,100,0]] => chosen
;;10,20,30,40 => [[0,0,0],[9,50,0],[5,100,0]] => none
;;10,20,30,40 => [[100,0,0],[30,100,0],[50,60,7]] => chosen
;;10,20,30,40 => [[100,0,0],[31,100,0],[50,60,7]] => none
;;10,20,30,40 => [[10,0,0],[30,20,0],[20,-60,7]] => chosen
;;10,20,30,40 => [[10,0,0],[30,19,0],[20,-60,7]] => none
;;10,20,30,40 => [[10,50,0],[30,40,0],[20,60,7]] => chosen
;;10,20,30,40 => [[10,50,0],[30,41,0],[20,60,7]] => none
;;10,20,30,40;others => [[10,20,5]] => none
;;10,20,30,40;others => [[9,30,0]] => chosen
;Building;10,20,30,40 => [[10,20,5]] => chosen
;Building;10,20,30,40 => [[9,20,5]] => none
;Road;10,20,30,40 => [[10,20,5]] => none
;Road;10,20,30,40;others => [[10,20,5]] => chosen
;Building;10,20,30,40;others => [[9,20,5]] => chosen
;;-30,-40,-10,-20 => [[-10,-20,5]] => chosen
;;-30,-40,-10,-20 => [[-9,-20,5]] => none
;;-30,-40,-10,-20 => [[-31,-20,5],[-9,-50,5]] => chosen
;;10,20,30,40 => [] => none
;;10,20,30,40;others => [] => chosen
;;100000000000000,20,200000000000000,40 => [[123456789012345,30,-123456789012345]] => chosen
;;100000000000000,20,200000000000000,40 => [[99999999999999,30,-123456789012345]] => none
;;10,20,30,40 => [[20,30,9007199254740992]] => VertexRange
;;10,20,30,40;others => [[20,30,9007199254740992]] => VertexRange
;;10,20,30,40 => [[20,30,0],[20,30,1.5]] => VertexNotInteger
;;10,20,30,40 => [[20,30]] => VertexShape
;;10,20,30,40 => [[0,0,0],[20,30,0,1]] => VertexShape
;;10,20,30,40 => [[0,0,0],[20,30,-0]] => chosen
;;10,20,30,40 => [[9007199254740991,30,0]] => none
;;10,20,30,40 => [ [ 10 , 20 , 5 ] ] => chosen
";

/// Only those in the member of that name are measured.
const OTHER_TRIPLES: &str = r#"
;;10,20,30,40 => {"type":"CityJSONFeature","id":"a","CityObjects":{},"vertices":[[0,0,0]],"x":[[20,30,0]]} => none
;;10,20,30,40 => {"type":"CityJSONFeature","id":"a","CityObjects":{},"vertices":[[20,30,0]],"x":[[0,0,0]]} => chosen
;;10,20,30,40 => {"type":"CityJSONFeature","id":"a","CityObjects":{},"x":[[20,30,0]],"vertices":[[0,0,0]]} => none
;;10,20,30,40 => {"type":"CityJSONFeature","id":"a","CityObjects":{},"x":[[0,0,0]],"vertices":[[20,30,0]]} => chosen
"#;

/// All else is kept.
const KEPT: &str = r#"
0,0,0 => {"vertices":[[1,2,3]],"x":[[1,2,3]],"CityObjects":{"a":{"attributes":{"h":12.30,"e":1.50e+3,"vertices":[[1,2,3]]}}},"id":"a","type":"CityJSONFeature"} => {"vertices":[[1,2,3]],"x":[[1,2,3]],"CityObjects":{"a":{"attributes":{"h":12.30,"e":1.50e+3,"vertices":[[1,2,3]]}}},"id":"a","type":"CityJSONFeature"}
1,0,0 => {"vertices":[[1,2,3]],"x":[[1,2,3]],"CityObjects":{"a":{"attributes":{"h":12.30,"e":1.50e+3,"vertices":[[1,2,3]]}}},"id":"a","type":"CityJSONFeature"} => {"vertices":[[2,2,3]],"x":[[1,2,3]],"CityObjects":{"a":{"attributes":{"h":12.30,"e":1.50e+3,"vertices":[[1,2,3]]}}},"id":"a","type":"CityJSONFeature"}
0,0,0 => {"vertices":[[1,2,3]],"x":[[4,5,6]],"y":[[7,8,9],[1,2,3]],"CityObjects":{},"id":"a","type":"CityJSONFeature"} => {"vertices":[[1,2,3]],"x":[[4,5,6]],"y":[[7,8,9],[1,2,3]],"CityObjects":{},"id":"a","type":"CityJSONFeature"}
1,0,0 => {"vertices":[[1,2,3]],"x":[[4,5,6]],"y":[[7,8,9],[1,2,3]],"CityObjects":{},"id":"a","type":"CityJSONFeature"} => {"vertices":[[2,2,3]],"x":[[4,5,6]],"y":[[7,8,9],[1,2,3]],"CityObjects":{},"id":"a","type":"CityJSONFeature"}
0,0,0 => {"id":"","vertices":[[1,2,3]],"Vertices":[[-0,0]],"vertices-texture":[[0.5,-0]],"transform":{"scale":[1,1,1],"translate":[1,1,1]},"type":"CityJSONFeature","CityObjects":{}} => {"id":"","vertices":[[1,2,3]],"Vertices":[[-0,0]],"vertices-texture":[[0.5,-0]],"transform":{"scale":[1,1,1],"translate":[1,1,1]},"type":"CityJSONFeature","CityObjects":{}}
1,0,0 => {"id":"","vertices":[[1,2,3]],"Vertices":[[-0,0]],"vertices-texture":[[0.5,-0]],"transform":{"scale":[1,1,1],"translate":[1,1,1]},"type":"CityJSONFeature","CityObjects":{}} => {"id":"","vertices":[[2,2,3]],"Vertices":[[-0,0]],"vertices-texture":[[0.5,-0]],"transform":{"scale":[1,1,1],"translate":[1,1,1]},"type":"CityJSONFeature","CityObjects":{}}
"#;

/// Vertices at fault, of which the first is told.
const FAULTY_VERTICES: &str = r#"
all => [[1.0,0,0]] => VertexNotInteger
all => [[1e2,0,0]] => VertexNotInteger
all => [[0,0,0],[0,0,0],[1.0,0,0],[1,2]] => VertexNotInteger
all => [[1,2]] => VertexShape
all => [["1",2,3]] => VertexShape
all => [[0,0,0],[1,2],[1.0,0,0],[9007199254740992,0,0]] => VertexShape
all => [[0,0,0],null] => VertexShape
all => [1,2,3] => VertexShape
all => [[9007199254740992,0,0]] => VertexRange
all => [[0,0,0],[0,0,9007199254740992],[1,2],[0,0,1.0]] => VertexRange
10,20,30 => [[1,2,3,4]] => VertexShape
10,20,30 => [[1,2,3],[1,2],[1,2,3]] => VertexShape
10,20,30 => [[1,2,3],[1.0,2,3]] => VertexNotInteger
10,20,30 => [[1,2,10000000000000000]] => VertexRange
10,20,30 => [[1,2,9007199254740991]] => VertexRange
10,20,30 => [[1,2,3],[1,2]] => VertexShape
10,20,30 => [[1e2,0,0]] => VertexNotInteger
10,20,30 => [[0,0,0],[9007199254740991,0,0]] => VertexRange
all => [[9007199254740991,0,0]] => chosen
1,0,0 => [[9007199254740991,0,0]] => VertexRange
all => [[0,0,0],[1,2,3],[9007199254740991,0,0]] => chosen
1,0,0 => [[0,0,0],[1,2,3],[9007199254740991,0,0]] => VertexRange
all => [[9007199254740991,0,0],[0,0,0]] => chosen
1,0,0 => [[9007199254740991,0,0],[0,0,0]] => VertexRange
"#;

/// Texts that are no feature.
const NO_FEATURES: &str = r#"
all => [] => NotAFeature
all => {} => NotAFeature
all => {"type":"CityJSON","version":"2.0","transform":{"scale":[0.001,0.001,0.001],"translate":[0,0,0]},"CityObjects":{},"vertices":[]} => NotAFeature
all => {"type":"CityJSONFeature","id":7,"CityObjects":{},"vertices":[]} => NotAFeature
all => {"type":"CityJSONFeature","CityObjects":{},"vertices":[]} => NotAFeature
all => {"type":"CityJSONFeature","id":"a","CityObjects":[],"vertices":[]} => NotAFeature
all => {"type":"CityJSONFeature","id":"a","vertices":[]} => NotAFeature
all => {"type":"CityJSONFeature","id":"a","CityObjects":{},"vertices":{}} => NotAFeature
all => {"type":"CityJSONFeature","id":"a","CityObjects":{}} => NotAFeature
all => {"type":"CityJSONFeatures","id":"a","CityObjects":{},"vertices":[]} => NotAFeature
all => {"type":"CityJSONFeature","id":7,"CityObjects":{},"vertices":[1.5]} => NotAFeature
10,20,30 => {"type":"CityJSON","id":"a","CityObjects":{},"vertices":[]} => NotAFeature
10,20,30 => {"type":"CityJSONFeature","id":1,"CityObjects":{},"vertices":[]} => NotAFeature
10,20,30 => {"type":"CityJSONFeature","id":"a","CityObjects":[],"vertices":[]} => NotAFeature
10,20,30 => {"type":"CityJSONFeature","id":"a","CityObjects":{}} => NotAFeature
10,20,30 => {"type":"CityJSONFeature","id":"a","CityObjects":{},"vertices":{}} => NotAFeature
10,20,30 => {"type":"CityJSONFeature","id":"a","CityObjects":{},"vertices":[[1,2,3]],"id":"b"} => DuplicateName
10,20,30 => { => Syntax
10,20,30 => {"a":1,"\u0061":2} => DuplicateName
10,20,30 => [] => NotAFeature
"#;

/// Vertices of any size, which stay as they are.
const SIZES: &str =
    "0 7 -8 12345678 -123456789 999999999999999 -1000000000000000 9007199254740991 -9007199254740991";

const SIZED: &str = "
all => [[ROW,2,3],[1,ROW,3],[1,2,ROW]] => [[ROW,2,3],[1,ROW,3],[1,2,ROW]]
;;0,0,100,100 => [[ROW,2,3],[1,ROW,3],[1,2,ROW]] => [[ROW,2,3],[1,ROW,3],[1,2,ROW]]
all => [[ROW,2,3],[1,ROW,3],[1,2,ROW],[1,2,3]] => [[ROW,2,3],[1,ROW,3],[1,2,ROW],[1,2,3]]
;;0,0,100,100 => [[ROW,2,3],[1,ROW,3],[1,2,ROW],[1,2,3]] => [[ROW,2,3],[1,ROW,3],[1,2,ROW],[1,2,3]]
all => [[ROW,2,3],[1,ROW,3],[1,2,ROW],[10000000,20000000,30000000],[-4,-5,-6]] => [[ROW,2,3],[1,ROW,3],[1,2,ROW],[10000000,20000000,30000000],[-4,-5,-6]]
;;0,0,100,100 => [[ROW,2,3],[1,ROW,3],[1,2,ROW],[10000000,20000000,30000000],[-4,-5,-6]] => [[ROW,2,3],[1,ROW,3],[1,2,ROW],[10000000,20000000,30000000],[-4,-5,-6]]
";

/// Vertices, and members that are no vertices.
const ZERO: &str =
    r#"{"id":"a","vertices":ROW,"more":[-0,-0.0],"CityObjects":{"a":{"type":"Building"}},"type":"CityJSONFeature"}"#;

/// A zero with a minus sign is one without when it is written, where the vertices are moved and where they are not.
const ZEROS: &str = "
;Building => [[-0,2,3]] => [[0,2,3]]
;Building => [[1,2,3],[4,-0,-6],[7,8,-9]] => [[1,2,3],[4,0,-6],[7,8,-9]]
;Building => [[100,200,300],[1,2,-0]] => [[100,200,300],[1,2,0]]
;Building => [[-0,-0,-0],[-0,0,-0]] => [[0,0,0],[0,0,0]]
10,20,30;Building => [[-0,2,3]] => [[10,22,33]]
10,20,30;Building => [[1,2,3],[4,-0,-6],[7,8,-9]] => [[11,22,33],[14,20,24],[17,28,21]]
10,20,30;Building => [[100,200,300],[1,2,-0]] => [[110,220,330],[11,22,30]]
10,20,30;Building => [[-0,-0,-0],[-0,0,-0]] => [[10,20,30],[10,20,30]]
";

/// The same where an area is asked for.
const ZEROS_IN_AREA: &str = "
;Building;0,0,100,100 => [[-0,2,3]] => [[0,2,3]]
;Building;0,0,100,100 => [[1,2,3],[4,-0,-6],[7,8,-9]] => [[1,2,3],[4,0,-6],[7,8,-9]]
;Building;0,0,100,100 => [[100,200,300],[1,2,-0]] => [[100,200,300],[1,2,0]]
;Building;0,0,100,100 => [[-0,-0,-0],[-0,0,-0]] => [[0,0,0],[0,0,0]]
10,20,30;Building;0,0,100,100 => [[-0,2,3]] => [[10,22,33]]
10,20,30;Building;0,0,100,100 => [[1,2,3],[4,-0,-6],[7,8,-9]] => [[11,22,33],[14,20,24],[17,28,21]]
10,20,30;Building;0,0,100,100 => [[100,200,300],[1,2,-0]] => [[110,220,330],[11,22,30]]
10,20,30;Building;0,0,100,100 => [[-0,-0,-0],[-0,0,-0]] => [[10,20,30],[10,20,30]]
";

/// Nothing is chosen in an area where there is nothing.
const FAR_ZEROS: &str = "
;;-9,-9,-8,-8 => [[-0,2,3]] => none
;;-9,-9,-8,-8 => [[1,2,3],[4,-0,-6],[7,8,-9]] => none
;;-9,-9,-8,-8 => [[100,200,300],[1,2,-0]] => none
;;-9,-9,-8,-8 => [[-0,-0,-0],[-0,0,-0]] => none
10,20,30;;-9,-9,-8,-8 => [[-0,2,3]] => none
10,20,30;;-9,-9,-8,-8 => [[1,2,3],[4,-0,-6],[7,8,-9]] => none
10,20,30;;-9,-9,-8,-8 => [[100,200,300],[1,2,-0]] => none
10,20,30;;-9,-9,-8,-8 => [[-0,-0,-0],[-0,0,-0]] => none
";

/// Vertices beside triples that are none, which stand before them, or after them.
const BESIDE_TRIPLES: &str =
    r#"{"type":"CityJSONFeature","x":[[20,30,0],[25,35,0]],"id":"a","CityObjects":{},"vertices":ROW}
{"type":"CityJSONFeature","id":"a","CityObjects":{},"vertices":ROW,"x":[[20,30,0],[25,35,0]]}"#;

/// None, and some with a zero that has a minus sign, with sixteen digits, and at fault.
const BESIDE: &str = "
all => [] => []
10,20,30 => [] => []
;;10,20,30,40 => [] => none
10,20,30;;10,20,30,40 => [] => none
;;10,20,30,40;others => [] => chosen
all => [[-0,1,2],[5,5,5]] => [[0,1,2],[5,5,5]]
10,20,30 => [[5,5,5],[-0,1,2]] => [[15,25,35],[10,21,32]]
;;10,20,30,40 => [[-0,1,2],[5,5,5]] => none
;;0,1,0,1 => [[-0,1,2]] => [[0,1,2]]
10,20,30;;10,20,30,40 => [[-0,1,2]] => [[10,21,32]]
10,20,30;;0,1,0,1 => [[-0,1,2]] => none
all => [[1,2,9007199254740991]] => [[1,2,9007199254740991]]
10,20,30 => [[1,2,9007199254740961]] => [[11,22,9007199254740991]]
;;10,20,30,40 => [[1,2,9007199254740991]] => none
;;1,2,1,2 => [[1,2,9007199254740991]] => chosen
all => [[1,2]] => VertexShape
10,20,30 => [[5,5,5],[1,2,3,4]] => VertexShape
;;10,20,30,40 => [[1,2]] => VertexShape
10,20,30;;10,20,30,40 => [[5,5,5],7] => VertexShape
all => [[1,2,3.0]] => VertexNotInteger
10,20,30 => [[5,5,5],[1e0,2,3]] => VertexNotInteger
;;10,20,30,40 => [[5,5,5],[1,2.0,3]] => VertexNotInteger
all => [[1,2,9007199254740992]] => VertexRange
10,20,30 => [[1,2,9007199254740962]] => VertexRange
;;10,20,30,40 => [[5,5,5],[1,2,9007199254740992]] => VertexRange
;;10,20,30,40 => {} => NotAFeature
10,20,30 => {} => NotAFeature
";

#[test]
fn other_triples_are_no_vertices(rt: HostRuntime) {
    for form in BESIDE_TRIPLES.lines() {
        expect(&rt, form, BESIDE, false);
    }
}

#[test]
fn lines_are_answered_as_their_values_are(rt: HostRuntime) {
    expect(&rt, "ROW", TAKEN, true);
    expect(&rt, BUILDING, MOVED, false);
    expect(&rt, BUILDING, MEASURED, false);
    expect(&rt, "ROW", OTHER_TRIPLES, false);
    expect(&rt, "ROW", KEPT, false);
    expect(&rt, BUILDING, FAULTY_VERTICES, false);
    expect(&rt, "ROW", NO_FEATURES, false);
    expect(&rt, ZERO, ZEROS, false);
    expect(&rt, ZERO, ZEROS_IN_AREA, false);
    expect(&rt, ZERO, FAR_ZEROS, false);
}

/// Vertices that are triples, and are moved.
const MOVED_TRIPLES: &str = "
10,20,30;Building => [[1,2,3]] => [[11,22,33]]
-1,0,0;Building => [[1,2,3],[4,-5,-6],[0,8,-9]] => [[0,2,3],[3,-5,-6],[-1,8,-9]]
10,20,30;Building => [[100000,200000,300000],[123456789012345,-123456789012345,0]] => [[100010,200020,300030],[123456789012355,-123456789012325,30]]
10,20,30;Building;0,0,100,100 => [[1,2,3],[4000,-5,-6]] => [[11,22,33],[4010,15,24]]
10,20,30;Road;0,0,100,100;others => [[1,2,3],[4,-5,-6]] => [[11,22,33],[14,15,24]]
";

/// They are read where they stand: a line whose value is built has other room.
#[test]
fn triples_are_moved(rt: HostRuntime) {
    expect(&rt, ZERO, MOVED_TRIPLES, false);
    expect_room(&rt, MOVED_TRIPLES);
}

fn expect_room(rt: &(impl Abort + AllocGlobal), table: &str) {
    for row in table.lines() {
        assert!(rt;
            row.is_empty() || has_room(rt.alloc(), ZERO, row) == Ok(true),
            "{row}"
        );
    }
}

#[test]
fn a_moved_line_has_room_for_more(rt: HostRuntime) {
    expect_room(&rt, ZEROS);
    expect_room(&rt, ZEROS_IN_AREA);
}

fn is_refused(alloc: Global, bytes: &[u8], fault: Fault) -> bool {
    let choice = Choice::new(None, None, false);
    match Shift::new(10, 20, 30) {
        Some(shift) => is_answered(alloc, bytes, (shift, &choice), b"", Some(fault)),
        None => false,
    }
}

fn deep_line_is_refused(alloc: Global) -> bool {
    match "[".repeat(alloc, 129) {
        Ok(line) => is_refused(alloc, line.as_bytes(), Fault::TooDeep),
        Err(_) => false,
    }
}

#[test]
fn bytes_that_are_no_text_and_deep_lines_are_refused(rt: HostRuntime) {
    assert!(rt; is_refused(rt.alloc(), b"\xff", Fault::NotUtf8));
    assert!(rt; deep_line_is_refused(rt.alloc()));
}

/// The rows of a table hold, where these rows stand for `ROW` in the form and in the table.
fn expect_filled(
    rt: &(impl Abort + AllocGlobal),
    (form, row): (&str, &str),
    (table, other): (&str, &str),
    needs_no_value: bool,
) -> Result<(), AllocError> {
    let form = filled(rt.alloc(), form, row)?;
    let table = filled(rt.alloc(), table, other)?;
    expect(rt, &form, &table, needs_no_value);
    Ok(())
}

/// Where a vertex may stand among others.
const PLACES: &str = "[ROW,[4,5,6],[7,8,9]] [[4,5,6],ROW,[7,8,9]] [[4,5,6],[7,8,9],ROW]";

const FAULTS: &str = r#"
1,0,0 => [1,2] => VertexShape
1,0,0 => [1,2,3,4] => VertexShape
1,0,0 => 7 => VertexShape
1,0,0 => [1,"2",3] => VertexShape
1,0,0 => [1,2.0,3] => VertexNotInteger
1,0,0 => [1,2,3e0] => VertexNotInteger
1,0,0 => [1,2,9007199254740992] => VertexRange
1,0,0 => [1,-10000000000000000,3] => VertexRange
1,0,0 => [9007199254740991,2,3] => VertexRange
"#;

#[test]
fn vertices_are_told_or_kept_wherever_they_stand(rt: HostRuntime) -> Result<(), AllocError> {
    for place in PLACES.split(' ') {
        expect_filled(&rt, (BUILDING, place), (FAULTS, ""), false)?;
    }
    for number in SIZES.split(' ') {
        expect_filled(&rt, (BUILDING, "ROW"), (SIZED, number), true)?;
    }
    Ok(())
}

/// A feature of these members.
const MEMBERS: &str = r#"{"type":"CityJSONFeature",ROW,"vertices":[[1,-2,30]]}"#;

/// Members of a feature, and its type, wherever it stands: it is that of the object that the identifier names.
const TYPES: &str = r#"
"id":"a","CityObjects":{"a":{"type":"Road"}} => Road
"CityObjects":{"a":{"type":"Road"},"b":{"type":"Bridge"}},"id":"a" => Road
"id":"b","CityObjects":{"a":{"type":"Bridge"},"b":{"type":"Road"}} => Road
"id":"a","CityObjects":{"ab":{"type":"Bridge"},"a":{"type":"Road"}} => Road
"id":"ab","CityObjects":{"a":{"type":"Bridge"},"ab":{"type":"Road"}} => Road
"id":"a","CityObjects":{"a":{"attributes":{"type":"Bridge"},"type":"Road"}} => Road
"id":"a","CityObjects":{"a":{"typ":"Bridge","type":"Road"}} => Road
"id":"a","CityObjects":{"a" : { "type" : "Road" , "x":1}} => Road
"id":"a","CityObjects":{ "a":{"t\u0079pe":"Road"}} => Road
"id":"a","CityObjects":{"a":{"type":"Ro\u0061d"}} => Road
"id":"a\"","CityObjects":{"a\"":{"type":"Road"},"a":{"type":"Bridge"}} => Road
"id":"\u00e9","CityObjects":{"é":{"type":"Road"}} => Road
"id":"é","CityObjects":{"\u00e9":{"type":"Road"}} => Road
"id":"","CityObjects":{"":{"type":"+GenericCityObject2"}} => +GenericCityObject2
"id":"a","CityObjects":{"a":{"type":"+Noise-Barrier"}} => +Noise-Barrier
"id":"a","CityObjects":{"a":{"type":"Straße"}} => Straße
"id":"a","CityObjects":{"a":{"type":"Ro ad"}} => Ro ad
"id":"a","CityObjects":{"a":{"type":"[Road]"}} => [Road]
"id":"\u00e9","CityObjects":{"a":{"type":"Bridge"},"é":{"attributes":{"type":"Road"},"type":"Building"},"type":{"type":"Tunnel"}} => Building
"id":"\u00e9","CityObjects":{ "\u00e9" : { "type" : "\u0042uilding", "children" : ["é"] } } => Building
"#;

/// Types that are asked for, of which `ROW` is that of the feature, and whether it is chosen.
const ASKED: &str = "
;ROW => it => chosen
;Tunnel,ROW,Bridge2 => it => chosen
;Bridge => it => none
;Roa => it => none
;oad => it => none
;road => it => none
;Tunnel,BuildingPart => it => none
;ROWs => it => none
10,20,30;Road,ROW,Bridge => it => chosen
10,20,30;ROW;0,0,10,20;others => it => chosen
";

#[test]
fn the_type_is_told_wherever_it_stands(rt: HostRuntime) -> Result<(), AllocError> {
    for row in TYPES.lines() {
        let (members, name) = split(row);
        if !row.is_empty() {
            expect_filled(&rt, (MEMBERS, members), (ASKED, name), true)?;
        }
    }
    Ok(())
}

/// The city object of a feature.
const OBJECT: &str = r#"{"type":"CityJSONFeature","id":"a","CityObjects":ROW,"vertices":[]}"#;

/// A type that is no text, or that of another object, is none of the types.
const OTHER_TYPES: &str = r#"
;Road => {"a":{"type":1}} => none
;Road => {"a":{"type":["Road"]}} => none
;Road => {"a":{"type":{"type":"Road"}}} => none
;Road => {"a":{}} => none
;Road => {"a":{"Type":"Road","type ":"Road","typ":"Road"}} => none
;Road => {"a":{"a":{"type":"Road"}}} => none
;Road => {"a":[]} => none
;Road => {"a":[{"type":"Road"}]} => none
;Road => {"a":"Road"} => none
;Road => {"a":7} => none
;Road => {"a":null} => none
;Road => {"b":{"type":"Road"},"type":"Road"} => none
;null,true,7,[],{} => {"a":{"type":null}} => none
;null,true,7,[],{} => {"a":{"type":true}} => none
;null,true,7,[],{} => {"a":{"type":[]}} => none
;null,true,7,[],{} => {} => none
;null,true,7,[],{} => {"a":{"type":"7"}} => chosen
;Road => {"b":[1,{"a":2}],"a":{"x":{"type":"Bridge"},"type":"Road","y":[]}} => chosen
;Road => {"a":{"x":1,"type":"R\u006fad"}} => chosen
;"Road" => {"a":{"type":"Road"}} => none
;Ro"ad => {"a":{"type":"Ro\"ad"}} => chosen
;Ro\"ad => {"a":{"type":"Ro\"ad"}} => none
;Bridge,Ro\ad => {"a":{"type":"Ro\\ad"}} => chosen
;Road => {"a":{"type":"Road\u0000"}} => none
;Road => {"a":{"type":"\tRoad"}} => none
;Bridge,Gebäude => {"b":{"type":"Gebäude"},"a":{"type":"Road"}} => none
;Bridge,Gebäude => {"b":{"type":"Road"},"a":{"type":"Gebäude"}} => chosen
;Bridge,Gebäude => {"b":{"type":"Gebäude"},"a":{}} => none
;Bridge,Gebäude => {"a":{"type":["Gebäude"]}} => none
;Bridge,Gebäude => {"a":"Gebäude"} => none
;Bridge,Gebäude => {"a":null} => none
;Bridge,Gebäude => {"A":{"type":"Gebäude"}} => none
;Bridge,Gebäude => {} => none
;Bridge,Gebäude => {"\u0061":{"type":"Geb\u00e4ude"}} => chosen
;Road;;others => {"a":{"type":1}} => chosen
;Road;;others => {"a":{"type":["Road"]}} => chosen
;Road;;others => {"a":{}} => chosen
;Road;;others => {"a":[{"type":"Road"}]} => chosen
;Road;;others => {"a":7} => chosen
;Road;;others => {} => chosen
;Road;;others => {"b":{"type":"Road"}} => chosen
;Road;;others => {"a":{"x":1,"type":"R\u006fad"}} => none
;Ro"ad;;others => {"a":{"type":"Ro\"ad"}} => none
10,20,30;Road;;others => {"b":{"type":"Road"}} => chosen
"#;

/// No value is built of such a line.
#[test]
fn a_type_that_is_no_text_is_none_of_the_types(rt: HostRuntime) {
    expect(&rt, OBJECT, OTHER_TYPES, true);
}

/// Members of a feature whose identifier names no object that has a type.
const UNTYPED: &str = r#"
"id":"a\"","CityObjects":{"a":{"type":"Road"}}
"id":"a","CityObjects":{"a\"":{"type":"Road"}}
"id":"a\\","CityObjects":{"a\\\\":{"type":"Road"},"a":{"type":"Road"}}
"id":"\n","CityObjects":{"n":{"type":"Road"},"\\n":{"type":"Road"}}
"id":"\u00e9","CityObjects":{"e\u0301":{"type":"Road"}}
"id":"\u0000","CityObjects":{"":{"type":"Road"},"\\u0000":{"type":"Road"}}
"id":"","CityObjects":{"id":{"type":"Road"},"a":{"type":"Road"}}
"id":"type","CityObjects":{"a":{"type":"Road"}},"x":{"type":{"type":"Road"}}
"CityObjects":{"a":{"type":"Road","b":{"type":"Road"}}},"id":"b"
"b":{"type":"Road"},"id":"b","CityObjects":{}
"#;

/// It is among all features but those of some types.
const UNASKED: &str = "
;Road => it => none
;Road;;others => it => chosen
;Bridge,Road;;others => it => chosen
10,20,30;Road => it => none
10,20,30;Road;;others => it => chosen
;Road;0,-10,10,10 => it => none
;Road;0,-10,10,10;others => it => chosen
";

/// Nor is one built of these.
#[test]
fn a_feature_without_a_type_is_among_all_others(rt: HostRuntime) -> Result<(), AllocError> {
    for members in UNTYPED.lines() {
        if !members.is_empty() {
            expect_filled(&rt, (MEMBERS, members), (UNASKED, ""), true)?;
        }
    }
    Ok(())
}

/// Lines of a building, and where the text stands of a feature whose vertices stay as they stand.
const LINES: &str = r#"
{"type":"CityJSONFeature","id":"b","CityObjects":{"b":{"type":"Building"}},"vertices":ROW} => read
{"vertices":ROW,"type":"CityJSONFeature","id":"b","CityObjects":{"b":{"type":"Building"}}} => read
{"type":"CityJSONFeature","id":"b","CityObjects":{"b":{"type":"Building"}},"vertices":ROW}  => read
 {"type":"CityJSONFeature","id":"b","CityObjects":{"b":{"type":"Building"}},"vertices":ROW} => written
{"type":"CityJSONFeature","id":"b","CityObjects":{"b":{"type":"Building"}},"vertices": ROW } => written
{"type": "CityJSONFeature", "id": "b", "vertices": ROW, "CityObjects": {"b": {"type": "Building"}}} => written
{"type":"CityJSONFeature","id":"\u0062","CityObjects":{"b":{"type":"Building"}},"vertices":ROW} => written
"#;

/// What is asked for, vertices, and where the text stands: `there` for where such a line says.
const STANDING: &str = "
all => [] => there
all => [[10,20,30]] => there
;Building => [] => there
;Building => [[10,20,30]] => there
;Building => [[10,20,30],[-1,0,9007199254740991]] => there
;Building;0,0,20,30 => [] => none
;Building;0,0,20,30 => [[10,20,30]] => there
;Building;0,0,20,30 => [[10,20,30],[-1,0,9007199254740991]] => there
;Building;0,0,20,30;others => [] => there
;Building;0,0,20,30;others => [[10,20,30]] => none
;Building;0,0,9,30 => [[10,20,30]] => none
;Road => [[10,20,30]] => none
;Road => [[10,20,9007199254740991]] => none
all => [[10,-0,30]] => written
;Building;0,0,20,30 => [[10,-0,30]] => written
;Building;0,0,9,30 => [[10,-0,30]] => none
10,20,30 => [[10,20,30]] => written
10,20,30;Building;20,40,20,40 => [[10,20,30]] => written
10,20,30;Building;0,0,19,39 => [[10,20,30]] => none
10,20,30;Road => [[10,20,30]] => none
10,20,30 => [[10,20,9007199254740000]] => written
";

fn stands(alloc: Global, form: &str, row: &str, there: &str) -> Result<bool, Fault> {
    let (asked, texts) = split(row);
    let (vertices, wanted) = split(texts);
    let line = filled(alloc, form, vertices)?;
    let wanted = if wanted == "there" { there } else { wanted };
    Ok(place_of(alloc, &line, asked)? == wanted)
}

/// The text of a compact line whose vertices stay as they stand is the line; each other one is written.
#[test]
fn texts_stand_where_they_were_read_or_are_written(rt: HostRuntime) {
    for form in LINES.lines() {
        let (form, there) = split(form);
        for row in STANDING.lines() {
            let is_so = form.is_empty() || row.is_empty();
            assert!(rt;
                is_so || stands(rt.alloc(), form, row, there) == Ok(true),
                "{form} {row}"
            );
        }
    }
}

/// Many vertices, `GIVEN` in a line and `WRITTEN` in its text, are all moved.
const MANY: &str = "
100000000,0,0 => [[7,-7,7]GIVEN] => [[100000007,-7,7]WRITTEN]
100000000,0,0;;100000001,-1,100000001,-1 => [[7,-7,7]GIVEN] => [[100000007,-7,7]WRITTEN]
";

/// All of them count.
const CORNERS: &str = "
;;9999,-9999,9999,-9999 => [[7,-7,7]GIVEN] => chosen
;;1,-1,1,-1 => [[7,-7,7]GIVEN] => chosen
;;10000,-9999,10000,0 => [[7,-7,7]GIVEN] => none
;;0,-10001,9999,-10000 => [[7,-7,7]GIVEN] => none
;;-5,-5,0,0 => [[7,-7,7]GIVEN] => none
;;0,0,5,5 => [[7,-7,7]GIVEN] => none
";

fn with_many(alloc: Global, table: &str, last: u32) -> Result<String, AllocError> {
    let numbers = Numbers {
        first: 1,
        ..below(last)
    };
    let table = repeated(alloc, table, "GIVEN", (",[NUMBER,-NUMBER,7]", ""), numbers)?;
    repeated(
        alloc,
        &table,
        "WRITTEN",
        (",[1DIGITS,-NUMBER,7]", ""),
        numbers,
    )
}

#[test]
fn many_vertices_are_moved_and_count(rt: HostRuntime) -> Result<(), AllocError> {
    expect(&rt, BUILDING, &with_many(rt.alloc(), MANY, 100_000)?, true);
    expect(
        &rt,
        BUILDING,
        &with_many(rt.alloc(), CORNERS, 10_000)?,
        true,
    );
    Ok(())
}

/// Features p, q, r and z, of which z has no object that its identifier names.
const FEATURES: &str =
    r#"{"type":"CityJSONFeature","id":"p","CityObjects":{"p":{"type":"Building"}},"vertices":[[0,0,0],[10,10,0]]}
{"type":"CityJSONFeature","id":"q","CityObjects":{"q":{"type":"Building"}},"vertices":[[10,20,0]]}
{"type":"CityJSONFeature","id":"r","CityObjects":{"r":{"type":"Building"}},"vertices":[]}
{"type":"CityJSONFeature","id":"z","CityObjects":{"y":{"type":"Building"}},"vertices":[]}"#;

/// What is asked for, and which of them it selects.
const SELECTED: &str = "
all => pqrz
;;;others => ----
;Building => pqr-
;Building;;others => ---z
;Bridge,Road,Building => pqr-
;Bridge => ----
;building,Buildin,Buildings => ----
;;10,10,20,20 => pq--
;;-5,0,10,10 => p---
;;10,10,20,20;others => --rz
;;3,4,5,6 => p---
;;11,0,20,19 => ----
;;-9,-9,-1,99 => ----
;Bridge;10,10,20,20 => ----
;Building;10,10,20,20 => pq--
;Building;10,20,20,20;others => p-rz
";

fn are_selected(alloc: Global, asked: &str, marks: &str) -> bool {
    let mut agree = !marks.is_empty();
    for (line, mark) in FEATURES.lines().zip(marks.bytes()) {
        let wanted = if mark == b'-' { "none" } else { line };
        agree = agree && gives_asked(alloc, line, asked, wanted);
    }
    agree
}

#[test]
fn types_and_areas_select_features(rt: HostRuntime) {
    for row in SELECTED.lines() {
        let (asked, marks) = split(row);
        assert!(rt;
            row.is_empty() || are_selected(rt.alloc(), asked, marks),
            "{row}"
        );
    }
}
