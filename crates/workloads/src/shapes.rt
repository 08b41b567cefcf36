/// What the features of a tile, or the objects of a document, look like, in the texts that a `Tile` is
/// made of. Where a text has several parts with `|` between, or lines, one of these is taken: there
/// are four then.
#[derive(Clone, Copy)]
pub(crate) struct Shape {
    /// What a document has before its objects.
    pub(crate) start: &'static str,
    pub(crate) features: &'static str,
    /// A line for each attribute.
    pub(crate) attributes: &'static str,
    /// How often each of these stands in a feature.
    pub(crate) times: u64,
    /// A line for all vertices of a feature.
    pub(crate) vertices: &'static str,
    /// How many vertices a feature has at least, and how many more at most.
    pub(crate) least: u32,
    pub(crate) most: u32,
    /// What a tile has after its features, or a document before its vertices.
    pub(crate) end: &'static str,
    /// Whether a blank stands after each comma and colon.
    pub(crate) is_spaced: bool,
    /// Whether the tile is one feature.
    pub(crate) is_one_line: bool,
}

/// Tiles of buildings, which the other shapes differ from.
const BUILDING_TILE: Shape = Shape {
    start: "",
    features: BUILDING,
    attributes: ATTRIBUTES,
    times: 1,
    vertices: NOT_NEGATIVE,
    least: 8,
    most: 1050,
    end: "\n",
    is_spaced: false,
    is_one_line: false,
};

/// Buildings whose vertices are not negative.
pub(crate) const PLAIN: Shape = BUILDING_TILE;

/// Buildings with negative vertices among them.
pub(crate) const SIGNED: Shape = Shape {
    vertices: WITH_NEGATIVE,
    ..BUILDING_TILE
};

/// Buildings with parts and without, bridges and roads.
pub(crate) const MIXED: Shape = Shape {
    features: BUILDINGS_AND_ROADS,
    most: 400,
    ..BUILDING_TILE
};

/// Trees and lamp posts.
pub(crate) const TREES: Shape = Shape {
    features: TREES_AND_LAMPS,
    vertices: POINTS,
    least: 1,
    most: 0,
    ..BUILDING_TILE
};

/// Buildings with 60 attributes.
pub(crate) const REGISTER: Shape = Shape {
    features: REGISTERED,
    attributes: REGISTER_ATTRIBUTES,
    times: 3,
    most: 0,
    ..BUILDING_TILE
};

/// Buildings with 300 attributes.
pub(crate) const LONG_REGISTER: Shape = Shape {
    features: REGISTERED,
    attributes: REGISTER_ATTRIBUTES,
    times: 15,
    most: 0,
    ..BUILDING_TILE
};

/// Buildings with a blank after each comma and colon.
pub(crate) const SPACED: Shape = Shape {
    is_spaced: true,
    ..BUILDING_TILE
};

/// Buildings with escapes in names and texts.
pub(crate) const ESCAPED: Shape = Shape {
    features: REGISTERED,
    attributes: ESCAPED_ATTRIBUTES,
    times: 10,
    most: 0,
    ..BUILDING_TILE
};

/// Buildings, each with a vertex at -0.
pub(crate) const MINUS_ZERO: Shape = Shape {
    features: WITH_MINUS_ZERO,
    ..BUILDING_TILE
};

/// Buildings that bear an appearance each.
pub(crate) const PAINTED: Shape = Shape {
    features: WITH_APPEARANCE,
    ..BUILDING_TILE
};

/// Objects with many short arrays.
pub(crate) const SHORT_ARRAYS: Shape = Shape {
    features: WITH_SHORT_ARRAYS,
    attributes: SHORT_ARRAY_ATTRIBUTES,
    least: 2,
    most: 0,
    ..BUILDING_TILE
};

/// One long line of surfaces and vertices.
pub(crate) const TERRAIN: Shape = Shape {
    features: RELIEF,
    vertices: SPREAD,
    is_one_line: true,
    ..BUILDING_TILE
};

/// Buildings, and at the end a name twice in an object.
pub(crate) const REPEATED_NAME: Shape = Shape {
    end: AT_REPEATED_NAME,
    ..BUILDING_TILE
};

/// Buildings, and at the end a feature that is cut short.
pub(crate) const CUT_SHORT: Shape = Shape {
    end: AT_CUT,
    ..BUILDING_TILE
};

/// Buildings, and at the end a vertex that is no whole number.
pub(crate) const FRACTION: Shape = Shape {
    end: AT_FRACTION,
    ..BUILDING_TILE
};

/// A document of buildings, some with addresses.
pub(crate) const TOWN: Shape = Shape {
    start: DOCUMENT,
    features: OBJECTS,
    vertices: SPREAD,
    most: 160,
    end: BEFORE_VERTICES,
    ..BUILDING_TILE
};

/// The same with materials and textures.
pub(crate) const PAINTED_TOWN: Shape = Shape {
    start: DOCUMENT,
    features: PAINTED_OBJECTS,
    vertices: SPREAD,
    most: 160,
    end: AFTER_APPEARANCE,
    ..BUILDING_TILE
};

/// The first line of a tile.
pub(crate) const HEADER: &str =
    r#"{"type":"CityJSON","version":"2.0","transform":{"scale":[0.001,0.001,0.001],"translate":[84@00.1,446846.0,-5.3]},"metadata":{"identifier":"8-288-556","referenceDate":"2024-02-28","referenceSystem":"https://www.opengis.net/def/crs/EPSG/0/7415","title":"Buildings of a tile"},"CityObjects":{},"vertices":[]}"#;

/// The surfaces of a shell.
pub(crate) const FACES: &str = r#"[[&,&,&,&]]|[[&,&,&]]|[[&,&,&,&]]|[[&,&,&,&,&]]"#;

/// What is said of them.
pub(crate) const SURFACES: &str = r#"0|1|2|3"#;

/// The corners of a ring.
pub(crate) const CORNERS: &str = r#"&|&,&|&,&,&|&,&,&,&"#;

const BUILDING: &str =
    r#"{"type":"CityJSONFeature","id":"NL.IMBAG.Pand.0503100000@","CityObjects":{"NL.IMBAG.Pand.0503100000@":{"type":"Building","attributes":{$},"children":["NL.IMBAG.Pand.0503100000@-0"],"geometry":[{"type":"MultiSurface","lod":"0","boundaries":[[[!]]]}]},"NL.IMBAG.Pand.0503100000@-0":{"type":"BuildingPart","parents":["NL.IMBAG.Pand.0503100000@"],"geometry":[{"type":"Solid","lod":"1.2","boundaries":[[^]],"semantics":{"surfaces":[{"type":"GroundSurface"},{"type":"RoofSurface"},{"on_footprint_edge":true,"type":"WallSurface"},{"on_footprint_edge":false,"type":"WallSurface"}],"values":[[*]]}},{"type":"Solid","lod":"2.2","boundaries":[[^]],"semantics":{"surfaces":[{"type":"GroundSurface"},{"type":"RoofSurface"},{"on_footprint_edge":true,"type":"WallSurface"},{"on_footprint_edge":false,"type":"WallSurface"}],"values":[[*]]}}]}},"vertices":[%]}"#;

const BUILDINGS_AND_ROADS: &str =
    r#"{"type":"CityJSONFeature","id":"NL.IMBAG.Pand.0503100000@","CityObjects":{"NL.IMBAG.Pand.0503100000@":{"type":"Building","attributes":{$},"children":["NL.IMBAG.Pand.0503100000@-0"],"geometry":[{"type":"MultiSurface","lod":"0","boundaries":[[[!]]]}]},"NL.IMBAG.Pand.0503100000@-0":{"type":"BuildingPart","parents":["NL.IMBAG.Pand.0503100000@"],"geometry":[{"type":"Solid","lod":"1.2","boundaries":[[^]],"semantics":{"surfaces":[{"type":"GroundSurface"},{"type":"RoofSurface"},{"on_footprint_edge":true,"type":"WallSurface"},{"on_footprint_edge":false,"type":"WallSurface"}],"values":[[*]]}},{"type":"Solid","lod":"2.2","boundaries":[[^]],"semantics":{"surfaces":[{"type":"GroundSurface"},{"type":"RoofSurface"},{"on_footprint_edge":true,"type":"WallSurface"},{"on_footprint_edge":false,"type":"WallSurface"}],"values":[[*]]}}]}},"vertices":[%]}|{"type":"CityJSONFeature","id":"B@","CityObjects":{"B@":{"type":"Building","attributes":{$},"geometry":[{"type":"Solid","lod":"1.2","boundaries":[[^]],"semantics":{"surfaces":[{"type":"GroundSurface"},{"type":"RoofSurface"},{"on_footprint_edge":true,"type":"WallSurface"},{"on_footprint_edge":false,"type":"WallSurface"}],"values":[[*]]}}]}},"vertices":[%]}|{"type":"CityJSONFeature","id":"bridge-@","CityObjects":{"bridge-@":{"type":"Bridge","attributes":{$},"geometry":[{"type":"Solid","lod":"2","boundaries":[[^]],"semantics":{"surfaces":[{"type":"GroundSurface"},{"type":"RoofSurface"},{"on_footprint_edge":true,"type":"WallSurface"},{"on_footprint_edge":false,"type":"WallSurface"}],"values":[[*]]}}]}},"vertices":[%]}|{"type":"CityJSONFeature","id":"road-@","CityObjects":{"road-@":{"type":"Road","attributes":{$},"geometry":[{"type":"MultiSurface","lod":"1","boundaries":[^],"semantics":{"surfaces":[{"type":"TrafficArea"},{"type":"AuxiliaryTrafficArea"},{"type":"TrafficArea"},{"type":"TrafficArea"}],"values":[*]}}]}},"vertices":[%]}"#;

const TREES_AND_LAMPS: &str =
    r#"{"type":"CityJSONFeature","id":"T@","CityObjects":{"T@":{"type":"SolitaryVegetationObject","attributes":{"height":~?.#,"species":"Tilia x europaea","planted":19??},"geometry":[{"type":"MultiPoint","lod":"1","boundaries":[0]}]}},"vertices":[%]}|{"type":"CityJSONFeature","id":"T@","CityObjects":{"T@":{"type":"SolitaryVegetationObject","attributes":{"height":~.#,"species":"Quercus robur","planted":20~?,"crown":~.??},"geometry":[{"type":"MultiPoint","lod":"1","boundaries":[0]}]}},"vertices":[%]}|{"type":"CityJSONFeature","id":"L-@","CityObjects":{"L-@":{"type":"CityFurniture","attributes":{"function":"lamp post","height":~.#,"lamps":~,"watt":~?},"geometry":[{"type":"MultiPoint","lod":"1","boundaries":[0]}]}},"vertices":[%]}|{"type":"CityJSONFeature","id":"T@","CityObjects":{"T@":{"type":"SolitaryVegetationObject","attributes":{"height":~?.##,"species":"Platanus","planted":null},"geometry":[{"type":"MultiPoint","lod":"1","boundaries":[0]}]}},"vertices":[%]}"#;

const REGISTERED: &str =
    r#"{"type":"CityJSONFeature","id":"DE.TILE.@","CityObjects":{"DE.TILE.@":{"type":"Building","attributes":{$},"geometry":[{"type":"MultiSurface","lod":"1.2","boundaries":[[[0,2,3,1]],[[4,5,7,6]]]}]}},"vertices":[%]}"#;

const WITH_MINUS_ZERO: &str =
    r#"{"type":"CityJSONFeature","id":"NL.IMBAG.Pand.0503100000@","CityObjects":{"NL.IMBAG.Pand.0503100000@":{"type":"Building","attributes":{$},"children":["NL.IMBAG.Pand.0503100000@-0"],"geometry":[{"type":"MultiSurface","lod":"0","boundaries":[[[!]]]}]},"NL.IMBAG.Pand.0503100000@-0":{"type":"BuildingPart","parents":["NL.IMBAG.Pand.0503100000@"],"geometry":[{"type":"Solid","lod":"1.2","boundaries":[[^]],"semantics":{"surfaces":[{"type":"GroundSurface"},{"type":"RoofSurface"},{"on_footprint_edge":true,"type":"WallSurface"},{"on_footprint_edge":false,"type":"WallSurface"}],"values":[[*]]}},{"type":"Solid","lod":"2.2","boundaries":[[^]],"semantics":{"surfaces":[{"type":"GroundSurface"},{"type":"RoofSurface"},{"on_footprint_edge":true,"type":"WallSurface"},{"on_footprint_edge":false,"type":"WallSurface"}],"values":[[*]]}}]}},"vertices":[[-0,0,0]%]}"#;

const WITH_APPEARANCE: &str =
    r#"{"type":"CityJSONFeature","id":"NL.IMBAG.Pand.0503100000@","CityObjects":{"NL.IMBAG.Pand.0503100000@":{"type":"Building","attributes":{$},"children":["NL.IMBAG.Pand.0503100000@-0"],"geometry":[{"type":"MultiSurface","lod":"0","boundaries":[[[!]]]}]},"NL.IMBAG.Pand.0503100000@-0":{"type":"BuildingPart","parents":["NL.IMBAG.Pand.0503100000@"],"geometry":[{"type":"Solid","lod":"1.2","boundaries":[[^]],"semantics":{"surfaces":[{"type":"GroundSurface"},{"type":"RoofSurface"},{"on_footprint_edge":true,"type":"WallSurface"},{"on_footprint_edge":false,"type":"WallSurface"}],"values":[[*]]}},{"type":"Solid","lod":"2.2","boundaries":[[^]],"semantics":{"surfaces":[{"type":"GroundSurface"},{"type":"RoofSurface"},{"on_footprint_edge":true,"type":"WallSurface"},{"on_footprint_edge":false,"type":"WallSurface"}],"values":[[*]]},"material":{"day":{"values":[[*]]}}}]}},"appearance":{"materials":[{"name":"roof","diffuseColor":[0.9,0.1,0.75],"shininess":0.2},{"name":"wall","transparency":0.#}],"textures":[{"type":"PNG","image":"facades/@.png"}],"vertices-texture":[[0.0,0.5],[1.0,0.0],[1.0,1.#],[0.#,1.0]]},"vertices":[%]}"#;

const WITH_SHORT_ARRAYS: &str =
    r#"{"type":"CityJSONFeature","id":"s@","CityObjects":{"s@":{"type":"Building","attributes":{$},"geometry":[{"type":"MultiPoint","lod":"0","boundaries":[!]},{"type":"MultiLineString","lod":"0","boundaries":[[0,1],[1,0],[0]]}]}},"vertices":[%]}"#;

const RELIEF: &str =
    r#"{"type":"CityJSONFeature","id":"terrain","CityObjects":{"terrain":{"type":"TINRelief","geometry":[{"type":"CompositeSurface","lod":"1","boundaries":[^]},{"type":"CompositeSurface","lod":"2","boundaries":[^]}]}},"vertices":[%]}"#;

const OBJECTS: &str =
    r#""P@":{"type":"Building","attributes":{$},"children":["P@-0"],"geometry":[{"type":"MultiSurface","lod":"0","boundaries":[[[!]]]}]},"P@-0":{"type":"BuildingPart","parents":["P@"],"geometry":[{"type":"Solid","lod":"2.2","boundaries":[[^]],"semantics":{"surfaces":[{"type":"GroundSurface"},{"type":"RoofSurface"},{"on_footprint_edge":true,"type":"WallSurface"},{"on_footprint_edge":false,"type":"WallSurface"}],"values":[[*]]}}]}|"B@":{"type":"Building","attributes":{$},"geometry":[{"type":"Solid","lod":"1.2","boundaries":[[^]],"semantics":{"surfaces":[{"type":"GroundSurface"},{"type":"RoofSurface"},{"on_footprint_edge":true,"type":"WallSurface"},{"on_footprint_edge":false,"type":"WallSurface"}],"values":[[*]]}}]}|"P@":{"type":"Building","attributes":{$},"children":["P@-0"],"address":[{"thoroughfareName":"Markt","thoroughfareNumber":"~#","location":{"type":"MultiPoint","lod":"0","boundaries":[&]}}],"geometry":[{"type":"MultiSurface","lod":"0","boundaries":[[[!]]]}]},"P@-0":{"type":"BuildingPart","parents":["P@"],"geometry":[{"type":"Solid","lod":"2.2","boundaries":[[^]],"semantics":{"surfaces":[{"type":"GroundSurface"},{"type":"RoofSurface"},{"on_footprint_edge":true,"type":"WallSurface"},{"on_footprint_edge":false,"type":"WallSurface"}],"values":[[*]]}}]}|"P@":{"type":"Building","attributes":{$},"children":["P@-0"],"geometry":[{"type":"MultiSurface","lod":"0","boundaries":[[[!]]]}]},"P@-0":{"type":"BuildingPart","parents":["P@"],"geometry":[{"type":"Solid","lod":"2.2","boundaries":[[^]],"semantics":{"surfaces":[{"type":"GroundSurface"},{"type":"RoofSurface"},{"on_footprint_edge":true,"type":"WallSurface"},{"on_footprint_edge":false,"type":"WallSurface"}],"values":[[*]]}}]}"#;

const PAINTED_OBJECTS: &str =
    r#""P@":{"type":"Building","attributes":{$},"children":["P@-0"],"geometry":[{"type":"MultiSurface","lod":"0","boundaries":[[[!]]]}]},"P@-0":{"type":"BuildingPart","parents":["P@"],"geometry":[{"type":"Solid","lod":"2.2","boundaries":[[^]],"semantics":{"surfaces":[{"type":"GroundSurface"},{"type":"RoofSurface"},{"on_footprint_edge":true,"type":"WallSurface"},{"on_footprint_edge":false,"type":"WallSurface"}],"values":[[*]]},"material":{"day":{"values":[[*]]}}}]}|"P@":{"type":"Building","attributes":{$},"children":["P@-0"],"address":[{"thoroughfareName":"Markt","thoroughfareNumber":"~#","location":{"type":"MultiPoint","lod":"0","boundaries":[&]}}],"geometry":[{"type":"MultiSurface","lod":"0","boundaries":[[[!]]]}]},"P@-0":{"type":"BuildingPart","parents":["P@"],"geometry":[{"type":"Solid","lod":"2.2","boundaries":[[^]],"semantics":{"surfaces":[{"type":"GroundSurface"},{"type":"RoofSurface"},{"on_footprint_edge":true,"type":"WallSurface"},{"on_footprint_edge":false,"type":"WallSurface"}],"values":[[*]]}}]}|"P@":{"type":"Building","attributes":{$},"children":["P@-0"],"geometry":[{"type":"MultiSurface","lod":"0","boundaries":[[[!]]]}]},"P@-0":{"type":"BuildingPart","parents":["P@"],"geometry":[{"type":"Solid","lod":"2.2","boundaries":[[^]],"semantics":{"surfaces":[{"type":"GroundSurface"},{"type":"RoofSurface"},{"on_footprint_edge":true,"type":"WallSurface"},{"on_footprint_edge":false,"type":"WallSurface"}],"values":[[*]]}}]}|"B@":{"type":"Building","attributes":{$},"geometry":[{"type":"MultiSurface","lod":"2","boundaries":[[[&,&,&,&]],[[&,&,&,&]]],"texture":{"day":{"values":[[[0,0,1,2,3]],[[1,3,2,1,0]]]}}},{"type":"Solid","lod":"1.2","boundaries":[[^]],"semantics":{"surfaces":[{"type":"GroundSurface"},{"type":"RoofSurface"},{"on_footprint_edge":true,"type":"WallSurface"},{"on_footprint_edge":false,"type":"WallSurface"}],"values":[[*]]}}]}"#;

const NOT_NEGATIVE: &str =
    r#"[<???',>????,~???]|[<????,>????,~????]|[<????,>????,~????]|[<????,>????,~???]
[<????,>???',~????]|[<????,>????,~????]|[<????,>????,~????]|[<????,>????,~???]
[<??'?,>????,~???]|[<????,>????,~???]|[<????,>????,~???]|[<????,>????,~????]
[<????,>???',~????]|[<????,>????,~????]|[<????,>????,1~???]|[<????,>????,1~???]"#;

const WITH_NEGATIVE: &str =
    r#"[-<???',>????,~???]|[-<????,>????,~????]|[-<????,>????,-~??]|[-<????,>????,~???]
[<????,->???',~????]|[<????,->????,~????]|[<????,->????,~????]|[<????,->????,~???]
[-<??'?,->????,~???]|[-<????,->????,~???]|[-<????,->????,-~???]|[-<????,->????,~????]
[<????,>???',~????]|[<????,>????,~????]|[<????,>????,1~???]|[<????,>????,1~???]"#;

const POINTS: &str =
    r#"[<????,>???#,~???]|[<????,>????,~???]|[<????,>????,~???]|[<????,>????,~??]"#;

const SPREAD: &str =
    r#"[~??????,~?????',~????]|[~?????,~??????,~????]|[~??????,~??????,~????]|[~?????,~??????,~???]"#;

const ATTRIBUTES: &str =
    r#""status":"in use"|"status":"under construction"|"status":"in use, not measured"|"status":"demolition permit granted"
"year_of_construction":19~?|"year_of_construction":20~?|"year_of_construction":18~?|"year_of_construction":17~?
"document_date":"20~#-0~-1~"
"document_number":"INT-??????-??#"
"registered_at":"20~?-1?-0~T00:00:00Z"
"ended_at":null
"roof_type":"slanted"|"roof_type":"horizontal"|"roof_type":"multiple horizontal"|"roof_type":"no points"
"is_glass_house":false
"has_basement":true|"has_basement":false|"has_basement":false|"has_basement":false
"reconstruction_skipped":false
"floors":~|"floors":~|"floors":~|"floors":1?
"validity_lod_1_2":"[]"
"validity_lod_2_2":"[]"|"validity_lod_2_2":"[203]"|"validity_lod_2_2":"[]"|"validity_lod_2_2":"[306]"
"height_ground":-~.???|"height_ground":~.???|"height_ground":~.???|"height_ground":-0.???
"height_roof_min":~.???|"height_roof_min":~?.???|"height_roof_min":~?.?|"height_roof_min":~.??
"height_roof_max":~?.???
"height_roof_50":~?.??#
"height_roof_70":~?.???
"height_ridge":~?.???|"height_ridge":null|"height_ridge":~?.??|"height_ridge":~?.?
"volume_lod_1_2":~??.?????????????
"error_lod_1_2":0.???????????????
"volume_lod_1_3":~???.????????????
"error_lod_1_3":0.???????????????
"volume_lod_2_2":~??.????????#????
"error_lod_2_2":0.???????????????
"area_ground":~??.??|"area_ground":~?.??|"area_ground":~??.??|"area_ground":~???.??
"area_flat_roof":~?.??|"area_flat_roof":0.0|"area_flat_roof":~??.??|"area_flat_roof":~?.??
"area_sloping_roof":~?.?#
"area_outer_wall":~??.??
"area_shared_wall":~??.??|"area_shared_wall":0|"area_shared_wall":~?.??|"area_shared_wall":~?.??
"point_density":~.??
"source":"AHN4"|"source":"AHN3"|"source":"AHN5"|"source":"AHN4"
"street":"Oude Delft"|"street":"Markt"|"street":"Caféstraat"|"street":"Koornmarkt"
"house_number":"~?-A"|"house_number":"~?"|"house_number":"~??"|"house_number":"~"
"owner":null|"owner":null|"owner":"gemeente"|"owner":"particulier""#;

const REGISTER_ATTRIBUTES: &str =
    r#""name_=":"in use"|"name_=":"measured from the air"|"name_=":""|"name_=":"NL.IMBAG.Pand.0503100000012345"
"straße_=":"Straße der Einheit ~#"
"höhe_=":~?.???|"höhe_=":~.??|"höhe_=":-~.?|"höhe_=":~??.?????????????
"registered_by_the_office_of_=":"Łódź"|"registered_by_the_office_of_=":null|"registered_by_the_office_of_=":"Poznań"|"registered_by_the_office_of_=":"Gdańsk"
"is_listed_=":true|"is_listed_=":false|"is_listed_=":false|"is_listed_=":null
"建物高さ_=":~?
"構造_=":"木造二階建て"|"構造_=":"鉄筋"|"構造_=":null|"構造_=":"木造"
"année_=":1~??|"année_=":19??|"année_=":20~?|"année_=":null
"energy_performance_of_the_roof_=":~.??????
"height_lod_2_2_=":~?.??#
"area_of_north_facade_=":~??.???
"materials_=":"concrete, brick and timber; insulated in 199?"
"größe_der_fläche_=":~???????|"größe_der_fläche_=":~???|"größe_der_fläche_=":-~????|"größe_der_fläche_=":0
"b_=":null|"b_=":0|"b_=":1|"b_=":2
"wall_=":false
"installation_=":"2024-02-?~"
"date_=":"20~?-0~-2~"
"use_=":"unknown"|"use_=":"dwelling"|"use_=":"shop"|"use_=":"office"
"share_=":0.?????#
"id_=":"0503100000??????""#;

const ESCAPED_ATTRIBUTES: &str =
    r#""caf\u00e9_=":"caf\u00e9 and cr\u00eaperie, ground floor"|"caf\u00e9_=":"Stra\u00dfe ~#"|"caf\u00e9_=":"\u6728\u9020"|"caf\u00e9_=":"\ud83c\udfe0 home ~#"
"say \"so\" =":"the so-called \"annex\" of 19?#"
"path\\of_=":"C:\\tiles\\west\\~#"
"note_=":"first line\nsecond line, ~#"|"note_=":"one\ttwo\tthree"|"note_=":"m3\/h"|"note_=":"none"
"stra\u00dfe_=":"Stra\u00dfe der Einheit ~#"
"height_=":~?.??#"#;

const SHORT_ARRAY_ATTRIBUTES: &str = r#""a":[1,2]|"a":[]|"a":[~#]|"a":[~#,3]
"b":[0.5,~.#]
"c":[true,null]|"c":[false]|"c":["x"]|"c":[[1],[2,3]]
"d":[1]|"d":[0,0,0]|"d":[4,5]|"d":["y","z"]
"e":[~#,~?]
"f":[{"g":[1,~?]}]"#;

const AT_REPEATED_NAME: &str = r#"
{"type":"CityJSONFeature","id":"x","CityObjects":{"x":{"type":"Building","attributes":{"a":1,"b":2,"a":3}}},"vertices":[[1,2,3]]}
"#;

const AT_CUT: &str = r#"
{"type":"CityJSONFeature","id":"x","CityObjects":{"x":{"type":"Building","attributes":{"a
"#;

const AT_FRACTION: &str = r#"
{"type":"CityJSONFeature","id":"x","CityObjects":{"x":{"type":"Building"}},"vertices":[[1,2,3],[0.5,2,3]]}
"#;

const DOCUMENT: &str =
    r#"{"type":"CityJSON","version":"2.0","transform":{"scale":[0.001,0.001,0.001],"translate":[84710.1,446846.0,-5.3]},"metadata":{"referenceSystem":"https://www.opengis.net/def/crs/EPSG/0/7415","title":"A town"},"CityObjects":{"#;

const BEFORE_VERTICES: &str = r#"},"vertices":["#;

const AFTER_APPEARANCE: &str =
    r#"},"appearance":{"materials":[{"name":"ground"},{"name":"roof","diffuseColor":[0.9,0.1,0.75]},{"name":"wall"},{"name":"glass","transparency":0.5}],"textures":[{"type":"PNG","image":"facades/0.png"},{"type":"JPG","image":"facades/1.jpg"}],"vertices-texture":[[0.0,0.5],[1.0,0.0],[1.0,1.0],[0.0,1.0]]},"vertices":["#;
