//! Documents that are refused.
use crate::faults::expect_refused;
use crate::texts::expect;

/// A building with these members, and two parts.
const BUILDING: &str =
    r#"HEAD,"CityObjects":{"b":{"type":"Building"ROW},"p1":{"type":"BuildingPart","parents":["b"],"geometry":[{"type":"MultiPoint","lod":"1","boundaries":[3,1]}]},"p2":{"type":"BuildingPart","parents":["b"],"geometry":[{"type":"MultiPoint","lod":"1","boundaries":[1,0]}]}},"vertices":POINTS}"#;

const BUILDINGS: &str = r#","children":["p1","p3"] => ChildMissing
,"children":["p3"] => ChildMissing
,"children":["p1","p2",""] => ChildMissing
,"children":["p1"] => Orphan
 => Orphan
,"children":["p1","p2"],"parents":["p1"] => Orphan
,"children":["p1","p2"],"geometry":{} => BoundaryIndex
,"children":["p1","p2"],"geometry":[3] => BoundaryIndex
,"children":["p1","p2"],"address":[{"location":{"boundaries":[4]}}] => BoundaryIndex
,"children":"p1" => NotCityJson
,"children":["p1",2] => NotCityJson
,"children":null => NotCityJson
,"children":["p1","p2"],"parents":{} => NotCityJson
,"children":["p1","p2"]},"p9":3,"p10":{"type":"x" => NotCityJson"#;

/// The same, where the first part has a boundary that is at fault, too.
const FAULTY_BUILDING: &str =
    r#"HEAD,"CityObjects":{"b":{"type":"Building"ROW},"p1":{"type":"BuildingPart","parents":["b"],"geometry":[{"type":"MultiPoint","lod":"1","boundaries":[4,1]}]},"p2":{"type":"BuildingPart","parents":["b"],"geometry":[{"type":"MultiPoint","lod":"1","boundaries":[1,0]}]}},"vertices":POINTS}"#;

const FAULTY_BUILDINGS: &str = r#","children":["p1","p3"] => ChildMissing
,"children":["p1"] => Orphan"#;

/// A building whose parts have these boundaries, the first of them or the second.
const FIRST_PART: &str =
    r#"HEAD,"CityObjects":{"b":{"type":"Building","children":["p1","p2"]},"p1":{"type":"BuildingPart","parents":["b"],"geometry":[{"type":"MultiPoint","lod":"1","boundaries":ROW}]},"p2":{"type":"BuildingPart","parents":["b"],"geometry":[{"type":"MultiPoint","lod":"1","boundaries":[1,0]}]}},"vertices":POINTS}"#;

const FIRST_BOUNDARIES: &str = r#"[4,1] => BoundaryIndex
["3",1] => BoundaryIndex"#;

const SECOND_PART: &str =
    r#"HEAD,"CityObjects":{"b":{"type":"Building","children":["p1","p2"]},"p1":{"type":"BuildingPart","parents":["b"],"geometry":[{"type":"MultiPoint","lod":"1","boundaries":[3,1]}]},"p2":{"type":"BuildingPart","parents":["b"],"geometry":[{"type":"MultiPoint","lod":"1","boundaries":ROW}]}},"vertices":POINTS}"#;

const SECOND_BOUNDARIES: &str = "[1,4] => BoundaryIndex
[-0] => BoundaryIndex
[-1] => BoundaryIndex
[1.0] => BoundaryIndex
[1e0] => BoundaryIndex
[18446744073709551616] => BoundaryIndex
[340282366920938463463374607431768211456] => BoundaryIndex
[[[1],[null]]] => BoundaryIndex
[{}] => BoundaryIndex
1 => BoundaryIndex
{} => BoundaryIndex";

/// Values that are no objects.
const NO_OBJECTS: &str = "[] => NotCityJson
3 => NotCityJson";

/// Documents that are none, or have a member that is not what it should be.
const WHOLE: &str =
    r#"{"version":"2.0","transform":{"scale":[1,1,1],"translate":[0,0,0]}} => NotCityJson
{"type":"CityJSONFeature","version":"2.0","transform":{"scale":[1,1,1],"translate":[0,0,0]}} => NotCityJson
{"type":"CityJSON","version":"1.1","CityObjects":{"a":3},"vertices":[3]} => NotCityJson
{"type":"CityJSON","version":"1.1","CityObjects":{"a":{"children":["b"]}},"vertices":[3]} => Version
{"type":"CityJSON","version":"2.0","CityObjects":{"a":{"children":["b"]}},"vertices":[3]} => NoTransform
{"type":"CityJSON","version":"2.0","transform":{"scale":[1,1],"translate":[0,0,0]},"vertices":[3]} => NoTransform
{"type":"CityJSON","version":"2.0","transform":{"scale":[0,1,1],"translate":[0,1e-25,0]},"vertices":[3]} => Decimal
{"type":"CityJSON","version":"2.0","transform":{"scale":[0,1,1],"translate":[0,0,0]},"vertices":[3]} => ScaleNotPositive"#;

/// Further members of a document.
const MEMBERS: &str =
    r#"{"type":"CityJSON","version":"2.0","transform":{"scale":[1,1,1],"translate":[0,0,0]},ROW}"#;

/// The vertices are looked at before the objects are, and the first that is at fault is told; children and parents do not
/// belong together, where there are no vertices.
const FURTHER: &str = r#""metadata":[] => NotCityJson
"CityObjects":[] => NotCityJson
"vertices":{} => NotCityJson
"CityObjects":{"a":{"children":["b"]}},"vertices":[[0,0,0],[1,2],[1.0,0,0]] => VertexShape
"CityObjects":{"a":{"children":["b"]}},"vertices":[[0,0,0],[1.0,0,0],[1,2]] => VertexNotInteger
"CityObjects":{"a":{"children":["b"]}},"vertices":[[0,0,9007199254740992],[1,2]] => VertexRange
"CityObjects":{"a":{"geometry":[{"boundaries":[0]}]}} => BoundaryIndex
"CityObjects":{"a":{"parents":["b"]},"b":{"parents":["a"]}} => Orphan
"CityObjects":{"a":{"parents":["b"],"children":["b"]},"b":{"parents":["a"],"children":["a"]},"c":{}} => Orphan
"CityObjects":{"a":{"parents":["b"],"children":["d"]},"b":{"parents":["a"]},"c":{}} => ChildMissing"#;

#[test]
fn documents_are_refused(rt: HostRuntime) {
    expect_refused(&rt, BUILDING, BUILDINGS);
    expect_refused(&rt, FAULTY_BUILDING, FAULTY_BUILDINGS);
    expect_refused(&rt, FIRST_PART, FIRST_BOUNDARIES);
    expect_refused(&rt, SECOND_PART, SECOND_BOUNDARIES);
    expect(&rt, "ROW", "ROW", NO_OBJECTS);
    expect_refused(&rt, "ROW", WHOLE);
    expect_refused(&rt, MEMBERS, FURTHER);
}
