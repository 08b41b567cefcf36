//! Headers and features as the texts of their lines, documents, and streams of them.

/// A header of this scale and translation, with these members at its end.
macro_rules! header {
    ($scale:literal, $translate:literal, $members:literal) => {
        concat!(
            r#"{"type":"CityJSON","version":"2.0","transform":{"scale":["#,
            $scale,
            ",",
            $scale,
            ",",
            $scale,
            r#"],"translate":["#,
            $translate,
            r#",0,0]},"CityObjects":{},"vertices":[]"#,
            $members,
            "}"
        )
    };
}

/// A feature of this identifier, a building with these vertices.
macro_rules! feature {
    ($name:literal, $vertices:literal) => {
        concat!(
            r#"{"type":"CityJSONFeature","id":""#,
            $name,
            r#"","CityObjects":{""#,
            $name,
            r#"":{"type":"Building"}},"vertices":"#,
            $vertices,
            "}"
        )
    };
}

/// A document of a building with two parts: the children of the building, and the vertices that its first part names.
macro_rules! document {
    ($children:literal, $leaves:literal) => {
        concat!(
            r#"{"type":"CityJSON","version":"2.0","transform":{"scale":[0.001,0.001,0.001],"translate":[0,0,0]},"CityObjects":{"b":{"type":"Building","children":"#,
            $children,
            r#"},"p1":{"type":"BuildingPart","parents":["b"],"geometry":[{"type":"MultiPoint","lod":"1","boundaries":"#,
            $leaves,
            r#"}]},"p2":{"type":"BuildingPart","parents":["b"],"geometry":[{"type":"MultiPoint","lod":"1","boundaries":[1,0]}]}},"vertices":[[0,0,0],[1,1,1],[2,2,2],[3,3,3]]}"#
        )
    };
}

/// A document of three objects, each with the next one as its child, that name no parents, of this translation.
macro_rules! chain {
    ($translate:literal) => {
        concat!(
            r#"{"type":"CityJSON","version":"2.0","transform":{"scale":[0.001,0.001,0.001],"translate":["#,
            $translate,
            r#",0,0]},"CityObjects":{"a":{"type":"Building","children":["b"],"geometry":[{"type":"MultiPoint","lod":"1","boundaries":[1,0]}]},"b":{"type":"Road","children":["c"],"geometry":[{"type":"MultiPoint","lod":"1","boundaries":[2,1]}]},"c":{"type":"Bridge","geometry":[{"type":"MultiPoint","lod":"1","boundaries":[0]}]}},"vertices":[[1,2,3],[4,5,6],[7,8,9]]}"#
        )
    };
}

/// What it is cut into: the features of its first object, its second and its third, with these vertices.
macro_rules! first_of_chain {
    ($vertices:literal) => {
        concat!(
            r#"{"type":"CityJSONFeature","id":"a","CityObjects":{"a":{"type":"Building","children":["b"],"geometry":[{"type":"MultiPoint","lod":"1","boundaries":[0,1]}]},"b":{"type":"Road","children":["c"],"geometry":[{"type":"MultiPoint","lod":"1","boundaries":[2,0]}]},"c":{"type":"Bridge","geometry":[{"type":"MultiPoint","lod":"1","boundaries":[1]}]}},"vertices":"#,
            $vertices,
            "}"
        )
    };
}

macro_rules! second_of_chain {
    ($vertices:literal) => {
        concat!(
            r#"{"type":"CityJSONFeature","id":"b","CityObjects":{"b":{"type":"Road","children":["c"],"geometry":[{"type":"MultiPoint","lod":"1","boundaries":[0,1]}]},"c":{"type":"Bridge","geometry":[{"type":"MultiPoint","lod":"1","boundaries":[2]}]}},"vertices":"#,
            $vertices,
            "}"
        )
    };
}

macro_rules! third_of_chain {
    ($vertices:literal) => {
        concat!(
            r#"{"type":"CityJSONFeature","id":"c","CityObjects":{"c":{"type":"Bridge","geometry":[{"type":"MultiPoint","lod":"1","boundaries":[0]}]}},"vertices":"#,
            $vertices,
            "}"
        )
    };
}

pub const HEADER: &str = header!("0.001", "0", "");

pub const FAR_HEADER: &str = header!("0.001", "1.5", "");

pub const A1: &str = feature!("a1", "[[1,2,3]]");

pub const A2: &str = feature!("a2", "[[1,2,3]]");

pub const A3: &str = feature!("a3", "[[1,2,3]]");

pub const B1: &str = feature!("b1", "[[1,2,3]]");

pub const C1: &str = feature!("c1", "[[1,2,3]]");

pub const C2: &str = feature!("c2", "[[1,2,3]]");

/// A feature that is cut short.
pub const CUT: &str = r#"{"type":"CityJSONFeature","id":"b2"#;

pub const A: &str = feature!("a", "[[1,2,3]]");

pub const B: &str = feature!("b", "[[10,20,30]]");

/// The second on the grid of the first header.
pub const FAR_B: &str = feature!("b", "[[1510,20,30]]");

pub const EMPTY_A: &str = feature!("a", "[]");

pub const EMPTY_B: &str = feature!("b", "[]");

/// Where a blank line, one of white space and carriage returns stand in a stream; it ends in a line cut short, or whole.
pub const BLANKS_CUT: &str = concat!(
    "\n",
    r#"{"type":"CityJSON","version":"2.0","transform":{"scale":[0.001,0.001,0.001],"translate":[0,0,0]},"CityObjects":{},"vertices":[]}"#,
    "\r\n \t\r\n",
    r#"{"type":"CityJSONFeature","id":"a","CityObjects":{"a":{"type":"Building"}},"vertices":[]}"#,
    "\r\n{"
);

pub const BLANKS: &str = concat!(
    "\n",
    r#"{"type":"CityJSON","version":"2.0","transform":{"scale":[0.001,0.001,0.001],"translate":[0,0,0]},"CityObjects":{},"vertices":[]}"#,
    "\r\n \t\r\n",
    r#"{"type":"CityJSONFeature","id":"a","CityObjects":{"a":{"type":"Building"}},"vertices":[]}"#,
    "\r\n",
    r#"{"type":"CityJSONFeature","id":"b","CityObjects":{"b":{"type":"Building"}},"vertices":[]}"#
);

/// A stream as people write it, and how its feature is written.
pub const FIRST: &str = concat!(
    r#"{ "type": "CityJSON", "version": "2.0", "transform": {"scale": [0.001, 0.001, 0.001], "translate": [0, 0, 0]}, "CityObjects": {}, "vertices": [] }"#,
    "\n",
    r#"{"type":"CityJSONFeature", "id":"a", "CityObjects":{"a":{"type":"Building", "attributes":{"h":1.50e+3}}}, "vertices":[[1,2,3]]}"#,
    "\n"
);

pub const FIRST_FEATURE: &str =
    r#"{"type":"CityJSONFeature","id":"a","CityObjects":{"a":{"type":"Building","attributes":{"h":1.50e+3}}},"vertices":[[1,2,3]]}"#;

pub const DOCUMENT: &str = document!(r#"["p1","p2"]"#, "[3,1]");

pub const CHILDLESS: &str = document!(r#"["p1","p3"]"#, "[3,1]");

pub const ORPHANED: &str = document!(r#"["p1"]"#, "[3,1]");

pub const UNBOUNDED: &str = document!(r#"["p1","p2"]"#, "[4,1]");

/// What the document is cut into.
pub const BUILDING: &str =
    r#"{"type":"CityJSONFeature","id":"b","CityObjects":{"b":{"type":"Building","children":["p1","p2"]},"p1":{"type":"BuildingPart","parents":["b"],"geometry":[{"type":"MultiPoint","lod":"1","boundaries":[0,1]}]},"p2":{"type":"BuildingPart","parents":["b"],"geometry":[{"type":"MultiPoint","lod":"1","boundaries":[1,2]}]}},"vertices":[[3,3,3],[1,1,1],[0,0,0]]}"#;

/// A document of two points, and what it is cut into.
pub const POINTS: &str =
    r#"{"type":"CityJSON","version":"2.0","transform":{"scale":[0.001,0.001,0.001],"translate":[0,0,0]},"CityObjects":{"x":{"type":"Building","geometry":[{"type":"MultiPoint","lod":"1","boundaries":[0]}]},"y":{"type":"Road","geometry":[{"type":"MultiPoint","lod":"1","boundaries":[1]}]}},"vertices":[[10,0,0],[20,0,0]]}"#;

pub const X: &str =
    r#"{"type":"CityJSONFeature","id":"x","CityObjects":{"x":{"type":"Building","geometry":[{"type":"MultiPoint","lod":"1","boundaries":[0]}]}},"vertices":[[10,0,0]]}"#;

pub const Y: &str =
    r#"{"type":"CityJSONFeature","id":"y","CityObjects":{"y":{"type":"Road","geometry":[{"type":"MultiPoint","lod":"1","boundaries":[0]}]}},"vertices":[[20,0,0]]}"#;

/// The same with an appearance.
pub const SHADED_POINTS: &str =
    r#"{"type":"CityJSON","version":"2.0","transform":{"scale":[0.001,0.001,0.001],"translate":[0,0,0]},"CityObjects":{"x":{"type":"Building","geometry":[{"type":"MultiPoint","lod":"1","boundaries":[0]}]},"y":{"type":"Road","geometry":[{"type":"MultiPoint","lod":"1","boundaries":[1]}]}},"vertices":[[10,0,0],[20,0,0]],"appearance":{"materials":[{"name":"brick"}]}}"#;

pub const SHADED_X: &str =
    r#"{"type":"CityJSONFeature","id":"x","CityObjects":{"x":{"type":"Building","geometry":[{"type":"MultiPoint","lod":"1","boundaries":[0]}]}},"vertices":[[10,0,0]],"appearance":{"materials":[{"name":"brick"}]}}"#;

pub const SHADED_Y: &str =
    r#"{"type":"CityJSONFeature","id":"y","CityObjects":{"y":{"type":"Road","geometry":[{"type":"MultiPoint","lod":"1","boundaries":[0]}]}},"vertices":[[20,0,0]],"appearance":{"materials":[{"name":"brick"}]}}"#;

/// A document whose features share objects, and what it is cut into.
pub const CHAIN: &str = chain!("0");

pub const CHAIN_A: &str = first_of_chain!("[[4,5,6],[1,2,3],[7,8,9]]");

pub const CHAIN_B: &str = second_of_chain!("[[7,8,9],[4,5,6],[1,2,3]]");

pub const CHAIN_C: &str = third_of_chain!("[[1,2,3]]");

/// The same on another grid, and its features on the grid of the first.
pub const FAR_CHAIN: &str = chain!("1.5");

pub const FAR_CHAIN_A: &str = first_of_chain!("[[1504,5,6],[1501,2,3],[1507,8,9]]");

pub const FAR_CHAIN_B: &str = second_of_chain!("[[1507,8,9],[1504,5,6],[1501,2,3]]");

pub const FAR_CHAIN_C: &str = third_of_chain!("[[1501,2,3]]");

/// Headers that join, or do not: of scales that are written otherwise, reference systems and extensions.
pub const SCALED: &str = header!("1e-3", "0", "");

pub const OFF_GRID: &str = header!("0.001", "0.0005", "");

pub const DUTCH: &str = header!(
    "0.001",
    "0",
    r#","metadata":{"referenceSystem":"https://www.opengis.net/def/crs/EPSG/0/7415"}"#
);

pub const OTHER_DUTCH: &str = header!(
    "0.001",
    "0",
    r#","metadata":{"referenceSystem":"https://www.opengis.net/def/crs/EPSG/0/28992"}"#
);

pub const EXTENDED: &str = header!("0.001", "0", r#","extensions":{"A":{"version":"1"}}"#);

pub const EXTENDED_TWICE: &str = header!(
    "0.001",
    "0",
    r#","extensions":{"B":{},"A":{"version":"1"}}"#
);

pub const EXTENDED_BOTH: &str = header!(
    "0.001",
    "0",
    r#","extensions":{"A":{"version":"1"},"B":{}}"#
);

pub const CLASHING: &str = header!(
    "0.001",
    "0",
    r#","extensions":{"B":{},"A":{"version":"2"}}"#
);
