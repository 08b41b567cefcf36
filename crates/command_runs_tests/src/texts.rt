//! Streams, documents and what they become.

/// A header, buildings of these names and vertices after it, and other lines at the end.
macro_rules! stream {
    ($vertices:literal, [$($name:literal),*] $(, $line:literal)*) => {
        concat!(
            r#"{"type":"CityJSON","version":"2.0","transform":{"scale":[0.001,0.001,0.001],"translate":[0,0,0]},"CityObjects":{},"vertices":[]}"#,
            "\n",
            $(
                r#"{"type":"CityJSONFeature","id":""#,
                $name,
                r#"","CityObjects":{""#,
                $name,
                r#"":{"type":"Building"}},"vertices":"#,
                $vertices,
                "}\n",
            )*
            $(
                $line,
                "\n",
            )*
        )
    };
}

pub(crate) const HEADER: &str = stream!("[]", []);

pub(crate) const A: &str = stream!("[]", ["a"]);

pub(crate) const B: &str = stream!("[]", ["b"]);

pub(crate) const A_B: &str = stream!("[]", ["a", "b"]);

pub(crate) const B_A: &str = stream!("[]", ["b", "a"]);

/// Its last line is no feature.
pub(crate) const A_AND_ELSE: &str = stream!("[]", ["a"], "{}");

/// What is cut into the stream of both.
pub(crate) const A_B_DOCUMENT: &str = concat!(
    r#"{"type":"CityJSON","version":"2.0","transform":{"scale":[0.001,0.001,0.001],"translate":[0,0,0]},"CityObjects":{"a":{"type":"Building"},"b":{"type":"Building"}},"vertices":[]}"#,
    "\n"
);

/// Two tiles, of which the second ends in a line cut short, and what they become in turn.
pub(crate) const A1_A2: &str = stream!("[[1,2,3]]", ["a1", "a2"]);

pub(crate) const B1_CUT: &str = stream!(
    "[[1,2,3]]",
    ["b1"],
    r#"{"type":"CityJSONFeature","id":"b2"#
);

pub(crate) const A1_B1_A2: &str = stream!("[[1,2,3]]", ["a1", "b1", "a2"]);

/// A stream as people write it, and what it becomes.
pub(crate) const SPACED: &str = concat!(
    r#"{ "type": "CityJSON", "version": "2.0", "transform": {"scale": [0.001, 0.001, 0.001], "translate": [0, 0, 0]}, "CityObjects": {}, "vertices": [] }"#,
    "\n",
    r#"{"type":"CityJSONFeature", "id":"a", "CityObjects":{"a":{"type":"Building", "attributes":{"h":1.50e+3}}}, "vertices":[[1,2,3]]}"#,
    "\n"
);

pub(crate) const COMPACT: &str = stream!(
    "[]",
    [],
    r#"{"type":"CityJSONFeature","id":"a","CityObjects":{"a":{"type":"Building","attributes":{"h":1.50e+3}}},"vertices":[[1,2,3]]}"#
);

pub(crate) const BLANKS: &str = "\n \t\r\n";

/// A document of a building, what it becomes, and a document that names a child which is missing.
pub(crate) const DOCUMENT: &str = concat!(
    r#"{"type":"CityJSON","version":"2.0","transform":{"scale":[0.001,0.001,0.001],"translate":[0,0,0]},"CityObjects":{"b":{"type":"Building","geometry":[{"type":"MultiPoint","lod":"1","boundaries":[3,1]}]}},"vertices":[[0,0,0],[1,1,1],[2,2,2],[3,3,3]]}"#,
    "\n"
);

pub(crate) const BUILDING: &str = stream!(
    "[]",
    [],
    r#"{"type":"CityJSONFeature","id":"b","CityObjects":{"b":{"type":"Building","geometry":[{"type":"MultiPoint","lod":"1","boundaries":[0,1]}]}},"vertices":[[3,3,3],[1,1,1]]}"#
);

pub(crate) const CHILDLESS: &str = concat!(
    r#"{"type":"CityJSON","version":"2.0","transform":{"scale":[0.001,0.001,0.001],"translate":[0,0,0]},"CityObjects":{"b":{"type":"Building","children":["p"]}},"vertices":[]}"#,
    "\n"
);
