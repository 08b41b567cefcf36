//! Headers, features and documents, as the texts of their lines, each after its name.

/// A header and features after it, which are used most and stand first to be found soon; `CUT` is cut short.
const PLAIN: &str =
    r#"HEADER {"type":"CityJSON","version":"2.0","transform":{"scale":[0.001,0.001,0.001],"translate":[0,0,0]},"CityObjects":{},"vertices":[]}
A1 {"type":"CityJSONFeature","id":"a1","CityObjects":{"a1":{"type":"Building"}},"vertices":[[1,2,3]]}
A2 {"type":"CityJSONFeature","id":"a2","CityObjects":{"a2":{"type":"Building"}},"vertices":[[1,2,3]]}
A3 {"type":"CityJSONFeature","id":"a3","CityObjects":{"a3":{"type":"Building"}},"vertices":[[1,2,3]]}
B1 {"type":"CityJSONFeature","id":"b1","CityObjects":{"b1":{"type":"Building"}},"vertices":[[1,2,3]]}
C1 {"type":"CityJSONFeature","id":"c1","CityObjects":{"c1":{"type":"Building"}},"vertices":[[1,2,3]]}
C2 {"type":"CityJSONFeature","id":"c2","CityObjects":{"c2":{"type":"Building"}},"vertices":[[1,2,3]]}
CUT {"type":"CityJSONFeature","id":"b2"#;

/// `NEXT_HEADER` and `BEFORE_HEADER` lie one grid unit from the origin of `HEADER` on either side, `HALF_HEADER` and
/// `HALF_BEFORE_HEADER` half of one; `FINE_HEADER` and `FINE_FAR_HEADER` more than 2^53 - 1 of their units apart,
/// `WEST_HEADER` and `EAST_HEADER` 90250 units in x. `VERTEX_HEADER` has a vertex and no city objects, and
/// `VERTEX_ALONE_HEADER` lacks `CityObjects`.
const HEADERS: &str =
    r#"FAR_HEADER {"type":"CityJSON","version":"2.0","transform":{"scale":[0.001,0.001,0.001],"translate":[1.5,0,0]},"CityObjects":{},"vertices":[]}
NEXT_HEADER {"type":"CityJSON","version":"2.0","transform":{"scale":[0.001,0.001,0.001],"translate":[0.001,0,0]},"CityObjects":{},"vertices":[]}
BEFORE_HEADER {"type":"CityJSON","version":"2.0","transform":{"scale":[0.001,0.001,0.001],"translate":[-0.001,0,0]},"CityObjects":{},"vertices":[]}
HALF_HEADER {"type":"CityJSON","version":"2.0","transform":{"scale":[0.001,0.001,0.001],"translate":[0.0005,0,0]},"CityObjects":{},"vertices":[]}
HALF_BEFORE_HEADER {"type":"CityJSON","version":"2.0","transform":{"scale":[0.001,0.001,0.001],"translate":[-0.0005,0,0]},"CityObjects":{},"vertices":[]}
ONE_HEADER {"type":"CityJSON","version":"2.0","transform":{"scale":[0.001,0.001,0.001],"translate":[1,0,0]},"CityObjects":{},"vertices":[]}
ONE_POINT_HEADER {"type":"CityJSON","version":"2.0","transform":{"scale":[0.001,0.001,0.001],"translate":[1.0,0,0]},"CityObjects":{},"vertices":[]}
NORTH_HEADER {"type":"CityJSON","version":"2.0","transform":{"scale":[0.001,0.001,0.001],"translate":[0,1,0]},"CityObjects":{},"vertices":[]}
COARSE_HEADER {"type":"CityJSON","version":"2.0","transform":{"scale":[0.01,0.01,0.01],"translate":[0,0,0]},"CityObjects":{},"vertices":[]}
POWER_HEADER {"type":"CityJSON","version":"2.0","transform":{"scale":[1e-3,1e-3,1e-3],"translate":[0,0,0]},"CityObjects":{},"vertices":[]}
FLAT_HEADER {"type":"CityJSON","version":"2.0","transform":{"scale":[0,0,0],"translate":[0,0,0]},"CityObjects":{},"vertices":[]}
FINE_HEADER {"type":"CityJSON","version":"2.0","transform":{"scale":[0.000001,0.000001,0.000001],"translate":[0,0,0]},"CityObjects":{},"vertices":[]}
FINE_FAR_HEADER {"type":"CityJSON","version":"2.0","transform":{"scale":[0.000001,0.000001,0.000001],"translate":[100000000000,0,0]},"CityObjects":{},"vertices":[]}
DUTCH_HEADER {"type":"CityJSON","version":"2.0","transform":{"scale":[0.001,0.001,0.001],"translate":[0,0,0]},"CityObjects":{},"vertices":[],"metadata":{"referenceSystem":"https://www.opengis.net/def/crs/EPSG/0/7415"}}
OLD_DUTCH_HEADER {"type":"CityJSON","version":"2.0","transform":{"scale":[0.001,0.001,0.001],"translate":[0,0,0]},"CityObjects":{},"vertices":[],"metadata":{"referenceSystem":"https://www.opengis.net/def/crs/EPSG/0/28992"}}
EXTENSION_A_HEADER {"type":"CityJSON","version":"2.0","transform":{"scale":[0.001,0.001,0.001],"translate":[0,0,0]},"CityObjects":{},"vertices":[],"extensions":{"A":{"version":"1"}}}
EXTENSIONS_B_A_HEADER {"type":"CityJSON","version":"2.0","transform":{"scale":[0.001,0.001,0.001],"translate":[0,0,0]},"CityObjects":{},"vertices":[],"extensions":{"B":{},"A":{"version":"1"}}}
OTHER_EXTENSION_A_HEADER {"type":"CityJSON","version":"2.0","transform":{"scale":[0.001,0.001,0.001],"translate":[0,0,0]},"CityObjects":{},"vertices":[],"extensions":{"B":{},"A":{"version":"2"}}}
EXTENSIONS_C_B_HEADER {"type":"CityJSON","version":"2.0","transform":{"scale":[0.001,0.001,0.001],"translate":[0,0,0]},"CityObjects":{},"vertices":[],"extensions":{"C":[1],"B":{}}}
EXTENSIONS_A_B_HEADER {"type":"CityJSON","version":"2.0","transform":{"scale":[0.001,0.001,0.001],"translate":[0,0,0]},"CityObjects":{},"vertices":[],"extensions":{"A":{"version":"1"},"B":{}}}
EXTENSIONS_A_B_C_HEADER {"type":"CityJSON","version":"2.0","transform":{"scale":[0.001,0.001,0.001],"translate":[0,0,0]},"CityObjects":{},"vertices":[],"extensions":{"A":{"version":"1"},"B":{},"C":[1]}}
EXTENT_HEADER {"type":"CityJSON","version":"2.0","transform":{"scale":[0.001,0.001,0.001],"translate":[0,0,0]},"CityObjects":{},"vertices":[],"metadata":{"geographicalExtent":[0,0,0,1,1,1],"title":"t"}}
TITLE_HEADER {"type":"CityJSON","version":"2.0","transform":{"scale":[0.001,0.001,0.001],"translate":[0,0,0]},"CityObjects":{},"vertices":[],"metadata":{"title":"t"}}
TEMPLATES_HEADER {"type":"CityJSON","version":"2.0","transform":{"scale":[0.001,0.001,0.001],"translate":[0,0,0]},"CityObjects":{},"vertices":[],"geometry-templates":{"templates":[],"vertices-templates":[]}}
OLD_HEADER {"type":"CityJSON","version":"1.1","transform":{"scale":[0.001,0.001,0.001],"translate":[0,0,0]},"CityObjects":{},"vertices":[]}
GRIDLESS_HEADER {"type":"CityJSON","version":"2.0","CityObjects":{},"vertices":[]}
WEST_HEADER {"type":"CityJSON","version":"2.0","CityObjects":{},"vertices":[],"transform":{"scale":[0.001,0.001,0.001],"translate":[84710.1,446846.0,-5.3]},"metadata":{"referenceSystem":"https://www.opengis.net/def/crs/EPSG/0/7415"}}
EAST_HEADER {"type":"CityJSON","version":"2.0","CityObjects":{},"vertices":[],"transform":{"scale":[0.001,0.001,0.001],"translate":[84800.35,446846.0,-5.3]},"metadata":{"referenceSystem":"https://www.opengis.net/def/crs/EPSG/0/7415"}}
VERTEX_HEADER {"type":"CityJSON","version":"2.0","transform":{"scale":[0.001,0.001,0.001],"translate":[0,0,0]},"CityObjects":{},"vertices":[[0,0,0]]}
VERTEX_ALONE_HEADER {"type":"CityJSON","version":"2.0","transform":{"scale":[0.001,0.001,0.001],"translate":[0,0,0]},"vertices":[[0,0,0]]}
NO_VERTEX_HEADER {"type":"CityJSON","version":"2.0","transform":{"scale":[0.001,0.001,0.001],"translate":[0,0,0]},"vertices":[]}
BARE_HEADER {"type":"CityJSON","version":"2.0","transform":{"scale":[0.001,0.001,0.001],"translate":[0,0,0]},"CityObjects":{}}
SHADED_TEMPLATES_HEADER {"type":"CityJSON","version":"2.0","transform":{"scale":[0.001,0.001,0.001],"translate":[0,0,0]},"CityObjects":{},"vertices":[],"geometry-templates":{"templates":[],"vertices-templates":[]},"appearance":{"materials":[{"name":"brick"}]}}"#;

/// `FAR_B` is `B` 1500 grid units in x from it; `LAST_B` lies at the end of the range of x, `BEFORE_LAST_B` one unit before
/// it. `EAST_FROM_WEST` is `EAST_BUILDING` on the grid of `WEST_HEADER`. The others from `BUILDING` on
/// are what documents are cut into.
const FEATURES: &str =
    r#"A {"type":"CityJSONFeature","id":"a","CityObjects":{"a":{"type":"Building"}},"vertices":[[1,2,3]]}
EAST_A {"type":"CityJSONFeature","id":"a","CityObjects":{"a":{"type":"Building"}},"vertices":[[1001,2,3]]}
NORTH_A {"type":"CityJSONFeature","id":"a","CityObjects":{"a":{"type":"Building"}},"vertices":[[1,1002,3]]}
B {"type":"CityJSONFeature","id":"b","CityObjects":{"b":{"type":"Building"}},"vertices":[[10,20,30]]}
FAR_B {"type":"CityJSONFeature","id":"b","CityObjects":{"b":{"type":"Building"}},"vertices":[[1510,20,30]]}
LAST_B {"type":"CityJSONFeature","id":"b","CityObjects":{"b":{"type":"Building"}},"vertices":[[9007199254740991,0,0]]}
BEFORE_LAST_B {"type":"CityJSONFeature","id":"b","CityObjects":{"b":{"type":"Building"}},"vertices":[[9007199254740990,0,0]]}
WEST_BUILDING {"type":"CityJSONFeature","id":"x1","CityObjects":{"x1":{"type":"Building","geometry":[{"type":"Solid","lod":"1.2","boundaries":[[[[0,1,2]],[[0,2,3]],[[0,3,1]],[[1,3,2]]]]}],"attributes":{"height":12.30}}},"vertices":[[0,0,0],[1000,0,0],[0,1000,0],[0,0,1000]]}
EAST_BUILDING {"type":"CityJSONFeature","id":"x2","CityObjects":{"x2":{"type":"Building","geometry":[{"type":"Solid","lod":"1.2","boundaries":[[[[0,1,2]],[[0,2,3]],[[0,3,1]],[[1,3,2]]]]}],"attributes":{"height":12.30}}},"vertices":[[0,0,0],[1000,0,0],[0,1000,0],[0,0,1000]]}
EAST_FROM_WEST {"type":"CityJSONFeature","id":"x2","CityObjects":{"x2":{"type":"Building","geometry":[{"type":"Solid","lod":"1.2","boundaries":[[[[0,1,2]],[[0,2,3]],[[0,3,1]],[[1,3,2]]]]}],"attributes":{"height":12.30}}},"vertices":[[90250,0,0],[91250,0,0],[90250,1000,0],[90250,0,1000]]}
BRIDGE {"type":"CityJSONFeature","id":"a","CityObjects":{"a":{"type":"Bridge"}},"vertices":[]}
BUILDING {"type":"CityJSONFeature","id":"b","CityObjects":{"b":{"type":"Building","children":["p1","p2"]},"p1":{"type":"BuildingPart","parents":["b"],"geometry":[{"type":"MultiPoint","lod":"1","boundaries":[0,1]}]},"p2":{"type":"BuildingPart","parents":["b"],"geometry":[{"type":"MultiPoint","lod":"1","boundaries":[1,2]}]}},"vertices":[[3,3,3],[1,1,1],[0,0,0]]}
FAR_BUILDING {"type":"CityJSONFeature","id":"b","CityObjects":{"b":{"type":"Building","children":["p1","p2"]},"p1":{"type":"BuildingPart","parents":["b"],"geometry":[{"type":"MultiPoint","lod":"1","boundaries":[0,1]}]},"p2":{"type":"BuildingPart","parents":["b"],"geometry":[{"type":"MultiPoint","lod":"1","boundaries":[1,2]}]}},"vertices":[[1503,3,3],[1501,1,1],[1500,0,0]]}
NEXT_BUILDING {"type":"CityJSONFeature","id":"b","CityObjects":{"b":{"type":"Building","children":["p1","p2"]},"p1":{"type":"BuildingPart","parents":["b"],"geometry":[{"type":"MultiPoint","lod":"1","boundaries":[0,1]}]},"p2":{"type":"BuildingPart","parents":["b"],"geometry":[{"type":"MultiPoint","lod":"1","boundaries":[1,2]}]}},"vertices":[[4,3,3],[2,1,1],[1,0,0]]}
X {"type":"CityJSONFeature","id":"x","CityObjects":{"x":{"type":"Building","geometry":[{"type":"MultiPoint","lod":"1","boundaries":[0]}]}},"vertices":[[10,0,0]]}
Y {"type":"CityJSONFeature","id":"y","CityObjects":{"y":{"type":"Road","geometry":[{"type":"MultiPoint","lod":"1","boundaries":[0]}]}},"vertices":[[20,0,0]]}
Z {"type":"CityJSONFeature","id":"z","CityObjects":{"z":{"type":"Building","geometry":[{"type":"MultiPoint","lod":"1","boundaries":[0]}]}},"vertices":[[30,0,0]]}
FAR_Y {"type":"CityJSONFeature","id":"y","CityObjects":{"y":{"type":"Road","geometry":[{"type":"MultiPoint","lod":"1","boundaries":[0]}]}},"vertices":[[1520,0,0]]}
BARE {"type":"CityJSONFeature","id":"l","CityObjects":{"l":{"type":"LandUse"}},"vertices":[]}
SHADED {"type":"CityJSONFeature","id":"l","CityObjects":{"l":{"type":"LandUse"}},"vertices":[],"appearance":{"materials":[{"name":"brick"}]}}
SHADED_X {"type":"CityJSONFeature","id":"x","CityObjects":{"x":{"type":"Building","geometry":[{"type":"MultiPoint","lod":"1","boundaries":[0]}]}},"vertices":[[10,0,0]],"appearance":{"materials":[{"name":"brick"}]}}
SHADED_Y {"type":"CityJSONFeature","id":"y","CityObjects":{"y":{"type":"Road","geometry":[{"type":"MultiPoint","lod":"1","boundaries":[0]}]}},"vertices":[[20,0,0]],"appearance":{"materials":[{"name":"brick"}]}}
SHADED_Z {"type":"CityJSONFeature","id":"z","CityObjects":{"z":{"type":"Building","geometry":[{"type":"MultiPoint","lod":"1","boundaries":[0]}]}},"vertices":[[30,0,0]],"appearance":{"materials":[{"name":"brick"}]}}
SHADED_FAR_X {"type":"CityJSONFeature","id":"x","CityObjects":{"x":{"type":"Building","geometry":[{"type":"MultiPoint","lod":"1","boundaries":[0]}]}},"vertices":[[1510,0,0]],"appearance":{"materials":[{"name":"brick"}]}}
SHADED_FAR_Z {"type":"CityJSONFeature","id":"z","CityObjects":{"z":{"type":"Building","geometry":[{"type":"MultiPoint","lod":"1","boundaries":[0]}]}},"vertices":[[1530,0,0]],"appearance":{"materials":[{"name":"brick"}]}}
SHADED_FAR_Y {"type":"CityJSONFeature","id":"y","CityObjects":{"y":{"type":"Road","geometry":[{"type":"MultiPoint","lod":"1","boundaries":[0]}]}},"vertices":[[1520,0,0]],"appearance":{"materials":[{"name":"brick"}]}}
CHAIN_A {"type":"CityJSONFeature","id":"a","CityObjects":{"a":{"type":"Building","children":["b"],"geometry":[{"type":"MultiPoint","lod":"1","boundaries":[0,1]}]},"b":{"type":"Road","children":["c"],"geometry":[{"type":"MultiPoint","lod":"1","boundaries":[2,0]}]},"c":{"type":"Bridge","geometry":[{"type":"MultiPoint","lod":"1","boundaries":[1]}]}},"vertices":[[4,5,6],[1,2,3],[7,8,9]]}
CHAIN_B {"type":"CityJSONFeature","id":"b","CityObjects":{"b":{"type":"Road","children":["c"],"geometry":[{"type":"MultiPoint","lod":"1","boundaries":[0,1]}]},"c":{"type":"Bridge","geometry":[{"type":"MultiPoint","lod":"1","boundaries":[2]}]}},"vertices":[[7,8,9],[4,5,6],[1,2,3]]}
CHAIN_C {"type":"CityJSONFeature","id":"c","CityObjects":{"c":{"type":"Bridge","geometry":[{"type":"MultiPoint","lod":"1","boundaries":[0]}]}},"vertices":[[1,2,3]]}
ONE_CHAIN_A {"type":"CityJSONFeature","id":"a","CityObjects":{"a":{"type":"Building","children":["b"],"geometry":[{"type":"MultiPoint","lod":"1","boundaries":[0,1]}]},"b":{"type":"Road","children":["c"],"geometry":[{"type":"MultiPoint","lod":"1","boundaries":[2,0]}]},"c":{"type":"Bridge","geometry":[{"type":"MultiPoint","lod":"1","boundaries":[1]}]}},"vertices":[[1004,5,6],[1001,2,3],[1007,8,9]]}
ONE_CHAIN_B {"type":"CityJSONFeature","id":"b","CityObjects":{"b":{"type":"Road","children":["c"],"geometry":[{"type":"MultiPoint","lod":"1","boundaries":[0,1]}]},"c":{"type":"Bridge","geometry":[{"type":"MultiPoint","lod":"1","boundaries":[2]}]}},"vertices":[[1007,8,9],[1004,5,6],[1001,2,3]]}
ONE_CHAIN_C {"type":"CityJSONFeature","id":"c","CityObjects":{"c":{"type":"Bridge","geometry":[{"type":"MultiPoint","lod":"1","boundaries":[0]}]}},"vertices":[[1001,2,3]]}
SHADED_ONE_CHAIN_A {"type":"CityJSONFeature","id":"a","CityObjects":{"a":{"type":"Building","children":["b"],"geometry":[{"type":"MultiPoint","lod":"1","boundaries":[0,1]}]},"b":{"type":"Road","children":["c"],"geometry":[{"type":"MultiPoint","lod":"1","boundaries":[2,0]}]},"c":{"type":"Bridge","geometry":[{"type":"MultiPoint","lod":"1","boundaries":[1]}]}},"vertices":[[1004,5,6],[1001,2,3],[1007,8,9]],"appearance":{"materials":[{"name":"brick"}]}}
SHADED_ONE_CHAIN_B {"type":"CityJSONFeature","id":"b","CityObjects":{"b":{"type":"Road","children":["c"],"geometry":[{"type":"MultiPoint","lod":"1","boundaries":[0,1]}]},"c":{"type":"Bridge","geometry":[{"type":"MultiPoint","lod":"1","boundaries":[2]}]}},"vertices":[[1007,8,9],[1004,5,6],[1001,2,3]],"appearance":{"materials":[{"name":"brick"}]}}
SHADED_ONE_CHAIN_C {"type":"CityJSONFeature","id":"c","CityObjects":{"c":{"type":"Bridge","geometry":[{"type":"MultiPoint","lod":"1","boundaries":[0]}]}},"vertices":[[1001,2,3]],"appearance":{"materials":[{"name":"brick"}]}}
NEXT_CHAIN_C {"type":"CityJSONFeature","id":"c","CityObjects":{"c":{"type":"Bridge","geometry":[{"type":"MultiPoint","lod":"1","boundaries":[0]}]}},"vertices":[[2,2,3]]}"#;

/// The documents whose names begin with `FAR` come after `FAR_HEADER`, those with `LAST` after `NEXT_HEADER`, with a vertex
/// at the end of the range of x, which in `UNUSED_LAST_DOCUMENT` no boundary names. Those from `CHILDLESS_DOCUMENT` to
/// `FAULTY_DOCUMENT` cannot be cut; the last has four faults: a vertex of two numbers, one that is not whole, a missing
/// child, an index without a vertex. Of `POINTS` x, y and z the second is a road. Of `CHAIN` a is the parent of b, and b of c,
/// which do not say so: each begins a feature, with all below it. `ONE_CHAIN` comes after `ONE_HEADER`.
const DOCUMENTS: &str =
    r#"DOCUMENT {"type":"CityJSON","version":"2.0","transform":{"scale":[0.001,0.001,0.001],"translate":[0,0,0]},"CityObjects":{"b":{"type":"Building","children":["p1","p2"]},"p1":{"type":"BuildingPart","parents":["b"],"geometry":[{"type":"MultiPoint","lod":"1","boundaries":[3,1]}]},"p2":{"type":"BuildingPart","parents":["b"],"geometry":[{"type":"MultiPoint","lod":"1","boundaries":[1,0]}]}},"vertices":[[0,0,0],[1,1,1],[2,2,2],[3,3,3]]}
FAR_DOCUMENT {"type":"CityJSON","version":"2.0","transform":{"scale":[0.001,0.001,0.001],"translate":[1.5,0,0]},"CityObjects":{"b":{"type":"Building","children":["p1","p2"]},"p1":{"type":"BuildingPart","parents":["b"],"geometry":[{"type":"MultiPoint","lod":"1","boundaries":[3,1]}]},"p2":{"type":"BuildingPart","parents":["b"],"geometry":[{"type":"MultiPoint","lod":"1","boundaries":[1,0]}]}},"vertices":[[0,0,0],[1,1,1],[2,2,2],[3,3,3]]}
LAST_DOCUMENT {"type":"CityJSON","version":"2.0","transform":{"scale":[0.001,0.001,0.001],"translate":[0.001,0,0]},"CityObjects":{"b":{"type":"Building","children":["p1","p2"]},"p1":{"type":"BuildingPart","parents":["b"],"geometry":[{"type":"MultiPoint","lod":"1","boundaries":[3,1]}]},"p2":{"type":"BuildingPart","parents":["b"],"geometry":[{"type":"MultiPoint","lod":"1","boundaries":[1,0]}]}},"vertices":[[9007199254740991,0,0],[1,1,1],[2,2,2],[3,3,3]]}
UNUSED_LAST_DOCUMENT {"type":"CityJSON","version":"2.0","transform":{"scale":[0.001,0.001,0.001],"translate":[0.001,0,0]},"CityObjects":{"b":{"type":"Building","children":["p1","p2"]},"p1":{"type":"BuildingPart","parents":["b"],"geometry":[{"type":"MultiPoint","lod":"1","boundaries":[3,1]}]},"p2":{"type":"BuildingPart","parents":["b"],"geometry":[{"type":"MultiPoint","lod":"1","boundaries":[1,0]}]}},"vertices":[[0,0,0],[1,1,1],[9007199254740991,0,0],[3,3,3]]}
CHILDLESS_DOCUMENT {"type":"CityJSON","version":"2.0","transform":{"scale":[0.001,0.001,0.001],"translate":[0,0,0]},"CityObjects":{"b":{"type":"Building","children":["p1","p3"]},"p1":{"type":"BuildingPart","parents":["b"],"geometry":[{"type":"MultiPoint","lod":"1","boundaries":[3,1]}]},"p2":{"type":"BuildingPart","parents":["b"],"geometry":[{"type":"MultiPoint","lod":"1","boundaries":[1,0]}]}},"vertices":[[0,0,0],[1,1,1],[2,2,2],[3,3,3]]}
ORPHANED_DOCUMENT {"type":"CityJSON","version":"2.0","transform":{"scale":[0.001,0.001,0.001],"translate":[0,0,0]},"CityObjects":{"b":{"type":"Building","children":["p1"]},"p1":{"type":"BuildingPart","parents":["b"],"geometry":[{"type":"MultiPoint","lod":"1","boundaries":[3,1]}]},"p2":{"type":"BuildingPart","parents":["b"],"geometry":[{"type":"MultiPoint","lod":"1","boundaries":[1,0]}]}},"vertices":[[0,0,0],[1,1,1],[2,2,2],[3,3,3]]}
UNBOUNDED_DOCUMENT {"type":"CityJSON","version":"2.0","transform":{"scale":[0.001,0.001,0.001],"translate":[0,0,0]},"CityObjects":{"b":{"type":"Building","children":["p1","p2"]},"p1":{"type":"BuildingPart","parents":["b"],"geometry":[{"type":"MultiPoint","lod":"1","boundaries":[4,1]}]},"p2":{"type":"BuildingPart","parents":["b"],"geometry":[{"type":"MultiPoint","lod":"1","boundaries":[1,0]}]}},"vertices":[[0,0,0],[1,1,1],[2,2,2],[3,3,3]]}
FLAT_DOCUMENT {"type":"CityJSON","version":"2.0","transform":{"scale":[0.001,0.001,0.001],"translate":[0,0,0]},"CityObjects":{"b":{"type":"Building","children":["p1","p2"]},"p1":{"type":"BuildingPart","parents":["b"],"geometry":[{"type":"MultiPoint","lod":"1","boundaries":[3,1]}]},"p2":{"type":"BuildingPart","parents":["b"],"geometry":[{"type":"MultiPoint","lod":"1","boundaries":[1,0]}]}},"vertices":[[0,0,0],[1,1,1],[2,2],[3,3,3]]}
HALF_DOCUMENT {"type":"CityJSON","version":"2.0","transform":{"scale":[0.001,0.001,0.001],"translate":[0,0,0]},"CityObjects":{"b":{"type":"Building","children":["p1","p2"]},"p1":{"type":"BuildingPart","parents":["b"],"geometry":[{"type":"MultiPoint","lod":"1","boundaries":[3,1]}]},"p2":{"type":"BuildingPart","parents":["b"],"geometry":[{"type":"MultiPoint","lod":"1","boundaries":[1,0]}]}},"vertices":[[0,0,0],[1,1,1],[2.5,2,2],[3,3,3]]}
WIDE_DOCUMENT {"type":"CityJSON","version":"2.0","transform":{"scale":[0.001,0.001,0.001],"translate":[0,0,0]},"CityObjects":{"b":{"type":"Building","children":["p1","p2"]},"p1":{"type":"BuildingPart","parents":["b"],"geometry":[{"type":"MultiPoint","lod":"1","boundaries":[3,1]}]},"p2":{"type":"BuildingPart","parents":["b"],"geometry":[{"type":"MultiPoint","lod":"1","boundaries":[1,0]}]}},"vertices":[[0,0,0],[1,1,1],[9007199254740992,2,2],[3,3,3]]}
SHAPELESS_DOCUMENT {"type":"CityJSON","version":"2.0","transform":{"scale":[0.001,0.001,0.001],"translate":[0,0,0]},"CityObjects":{"b":{"type":"Building","children":"p1"},"p1":{"type":"BuildingPart","parents":["b"],"geometry":[{"type":"MultiPoint","lod":"1","boundaries":[3,1]}]},"p2":{"type":"BuildingPart","parents":["b"],"geometry":[{"type":"MultiPoint","lod":"1","boundaries":[1,0]}]}},"vertices":[[0,0,0],[1,1,1],[2,2,2],[3,3,3]]}
FAULTY_DOCUMENT {"type":"CityJSON","version":"2.0","transform":{"scale":[0.001,0.001,0.001],"translate":[0,0,0]},"CityObjects":{"b":{"type":"Building","children":["p1","p3"]},"p1":{"type":"BuildingPart","parents":["b"],"geometry":[{"type":"MultiPoint","lod":"1","boundaries":[4,1]}]},"p2":{"type":"BuildingPart","parents":["b"],"geometry":[{"type":"MultiPoint","lod":"1","boundaries":[1,0]}]}},"vertices":[[0,0,0],[1,1],[2.5,2,2],[3,3,3]]}
POINTS {"type":"CityJSON","version":"2.0","transform":{"scale":[0.001,0.001,0.001],"translate":[0,0,0]},"CityObjects":{"x":{"type":"Building","geometry":[{"type":"MultiPoint","lod":"1","boundaries":[0]}]},"y":{"type":"Road","geometry":[{"type":"MultiPoint","lod":"1","boundaries":[1]}]},"z":{"type":"Building","geometry":[{"type":"MultiPoint","lod":"1","boundaries":[2]}]}},"vertices":[[10,0,0],[20,0,0],[30,0,0]]}
FAR_POINTS {"type":"CityJSON","version":"2.0","transform":{"scale":[0.001,0.001,0.001],"translate":[1.5,0,0]},"CityObjects":{"x":{"type":"Building","geometry":[{"type":"MultiPoint","lod":"1","boundaries":[0]}]},"y":{"type":"Road","geometry":[{"type":"MultiPoint","lod":"1","boundaries":[1]}]},"z":{"type":"Building","geometry":[{"type":"MultiPoint","lod":"1","boundaries":[2]}]}},"vertices":[[10,0,0],[20,0,0],[30,0,0]]}
LAST_POINTS {"type":"CityJSON","version":"2.0","transform":{"scale":[0.001,0.001,0.001],"translate":[0.001,0,0]},"CityObjects":{"x":{"type":"Building","geometry":[{"type":"MultiPoint","lod":"1","boundaries":[0]}]},"y":{"type":"Road","geometry":[{"type":"MultiPoint","lod":"1","boundaries":[1]}]},"z":{"type":"Building","geometry":[{"type":"MultiPoint","lod":"1","boundaries":[2]}]}},"vertices":[[10,0,0],[9007199254740991,0,0],[30,0,0]]}
BARE_DOCUMENT {"type":"CityJSON","version":"2.0","transform":{"scale":[0.001,0.001,0.001],"translate":[0,0,0]},"CityObjects":{"l":{"type":"LandUse"}}}
SHADED_DOCUMENT {"type":"CityJSON","version":"2.0","transform":{"scale":[0.001,0.001,0.001],"translate":[0,0,0]},"appearance":{"materials":[{"name":"brick"}]},"CityObjects":{"l":{"type":"LandUse"}},"vertices":[],"metadata":{"geographicalExtent":[0,0,0,1,1,1],"title":"t"}}
TEMPLATES_DOCUMENT {"type":"CityJSON","version":"2.0","transform":{"scale":[0.001,0.001,0.001],"translate":[0,0,0]},"CityObjects":{"l":{"type":"LandUse"}},"vertices":[],"geometry-templates":{"templates":[],"vertices-templates":[]},"appearance":{"materials":[{"name":"brick"}]}}
SHADED_POINTS {"type":"CityJSON","version":"2.0","transform":{"scale":[0.001,0.001,0.001],"translate":[0,0,0]},"CityObjects":{"x":{"type":"Building","geometry":[{"type":"MultiPoint","lod":"1","boundaries":[0]}]},"y":{"type":"Road","geometry":[{"type":"MultiPoint","lod":"1","boundaries":[1]}]},"z":{"type":"Building","geometry":[{"type":"MultiPoint","lod":"1","boundaries":[2]}]}},"vertices":[[10,0,0],[20,0,0],[30,0,0]],"appearance":{"materials":[{"name":"brick"}]}}
SHADED_FAR_POINTS {"type":"CityJSON","version":"2.0","transform":{"scale":[0.001,0.001,0.001],"translate":[1.5,0,0]},"CityObjects":{"x":{"type":"Building","geometry":[{"type":"MultiPoint","lod":"1","boundaries":[0]}]},"y":{"type":"Road","geometry":[{"type":"MultiPoint","lod":"1","boundaries":[1]}]},"z":{"type":"Building","geometry":[{"type":"MultiPoint","lod":"1","boundaries":[2]}]}},"vertices":[[10,0,0],[20,0,0],[30,0,0]],"appearance":{"materials":[{"name":"brick"}]}}
SHADED_LAST_POINTS {"type":"CityJSON","version":"2.0","transform":{"scale":[0.001,0.001,0.001],"translate":[0.001,0,0]},"CityObjects":{"x":{"type":"Building","geometry":[{"type":"MultiPoint","lod":"1","boundaries":[0]}]},"y":{"type":"Road","geometry":[{"type":"MultiPoint","lod":"1","boundaries":[1]}]},"z":{"type":"Building","geometry":[{"type":"MultiPoint","lod":"1","boundaries":[2]}]}},"vertices":[[10,0,0],[9007199254740991,0,0],[30,0,0]],"appearance":{"materials":[{"name":"brick"}]}}
TEMPLATES_POINTS {"type":"CityJSON","version":"2.0","transform":{"scale":[0.001,0.001,0.001],"translate":[0,0,0]},"CityObjects":{"x":{"type":"Building","geometry":[{"type":"MultiPoint","lod":"1","boundaries":[0]}]},"y":{"type":"Road","geometry":[{"type":"MultiPoint","lod":"1","boundaries":[1]}]},"z":{"type":"Building","geometry":[{"type":"MultiPoint","lod":"1","boundaries":[2]}]}},"vertices":[[10,0,0],[20,0,0],[30,0,0]],"geometry-templates":{"templates":[],"vertices-templates":[]},"appearance":{"materials":[{"name":"brick"}]}}
CHAIN {"type":"CityJSON","version":"2.0","transform":{"scale":[0.001,0.001,0.001],"translate":[0,0,0]},"CityObjects":{"a":{"type":"Building","children":["b"],"geometry":[{"type":"MultiPoint","lod":"1","boundaries":[1,0]}]},"b":{"type":"Road","children":["c"],"geometry":[{"type":"MultiPoint","lod":"1","boundaries":[2,1]}]},"c":{"type":"Bridge","geometry":[{"type":"MultiPoint","lod":"1","boundaries":[0]}]}},"vertices":[[1,2,3],[4,5,6],[7,8,9]]}
ONE_CHAIN {"type":"CityJSON","version":"2.0","transform":{"scale":[0.001,0.001,0.001],"translate":[1,0,0]},"CityObjects":{"a":{"type":"Building","children":["b"],"geometry":[{"type":"MultiPoint","lod":"1","boundaries":[1,0]}]},"b":{"type":"Road","children":["c"],"geometry":[{"type":"MultiPoint","lod":"1","boundaries":[2,1]}]},"c":{"type":"Bridge","geometry":[{"type":"MultiPoint","lod":"1","boundaries":[0]}]}},"vertices":[[1,2,3],[4,5,6],[7,8,9]]}
SHADED_ONE_CHAIN {"type":"CityJSON","version":"2.0","transform":{"scale":[0.001,0.001,0.001],"translate":[1,0,0]},"CityObjects":{"a":{"type":"Building","children":["b"],"geometry":[{"type":"MultiPoint","lod":"1","boundaries":[1,0]}]},"b":{"type":"Road","children":["c"],"geometry":[{"type":"MultiPoint","lod":"1","boundaries":[2,1]}]},"c":{"type":"Bridge","geometry":[{"type":"MultiPoint","lod":"1","boundaries":[0]}]}},"vertices":[[1,2,3],[4,5,6],[7,8,9]],"appearance":{"materials":[{"name":"brick"}]}}
LAST_CHAIN {"type":"CityJSON","version":"2.0","transform":{"scale":[0.001,0.001,0.001],"translate":[0.001,0,0]},"CityObjects":{"a":{"type":"Building","children":["b"],"geometry":[{"type":"MultiPoint","lod":"1","boundaries":[1,0]}]},"b":{"type":"Road","children":["c"],"geometry":[{"type":"MultiPoint","lod":"1","boundaries":[2,1]}]},"c":{"type":"Bridge","geometry":[{"type":"MultiPoint","lod":"1","boundaries":[0]}]}},"vertices":[[1,2,3],[4,5,6],[9007199254740991,0,0]]}
UNUSED_LAST_CHAIN {"type":"CityJSON","version":"2.0","transform":{"scale":[0.001,0.001,0.001],"translate":[0.001,0,0]},"CityObjects":{"a":{"type":"Building","children":["b"],"geometry":[{"type":"MultiPoint","lod":"1","boundaries":[1,0]}]},"b":{"type":"Road","children":["c"],"geometry":[{"type":"MultiPoint","lod":"1","boundaries":[2,1]}]},"c":{"type":"Bridge","geometry":[{"type":"MultiPoint","lod":"1","boundaries":[0]}]}},"vertices":[[1,2,3],[4,5,6],[7,8,9],[9007199254740991,0,0]]}"#;

/// The text of this name; what is no name stands for itself.
pub(crate) fn text(name: &str) -> &str {
    for table in [PLAIN, HEADERS, FEATURES, DOCUMENTS] {
        for row in table.lines() {
            if let Some((word, text)) = row.split_once(' ') {
                if word == name {
                    return text;
                }
            }
        }
    }
    match name {
        "EMPTY" => "",
        "SPACE" => " ",
        "TAB" => "\t",
        "SPACE_RETURN" => " \r",
        _ => name,
    }
}
