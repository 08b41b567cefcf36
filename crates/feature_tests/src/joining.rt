//! Headers of tiles that join, and those that do not fit.
use crate::texts::{Numbers, below, repeated};
use crate::tiles::joins;
use city_feature::Base;
use std::alloc::{AllocError, AllocGlobal, Global};
use std::process::Abort;

/// Headers, in which something stands for `ROW`: the scale of each component, the translation in two grids, and the
/// members at the end and after the transform.
const SCALED: &str =
    r#"{"type":"CityJSON","version":"2.0","transform":{"scale":[ROW,ROW,ROW],"translate":[0,0,0]},"CityObjects":{},"vertices":[]}"#;

const MOVED: &str =
    r#"{"type":"CityJSON","version":"2.0","transform":{"scale":[0.001,0.001,0.001],"translate":[ROW]},"CityObjects":{},"vertices":[]}"#;

const MICROMETRES: &str =
    r#"{"type":"CityJSON","version":"2.0","transform":{"scale":[0.000001,0.000001,0.000001],"translate":[ROW]},"CityObjects":{},"vertices":[]}"#;

const TINY: &str =
    r#"{"type":"CityJSON","version":"2.0","transform":{"scale":[0.001,0.001,1e-24],"translate":[ROW]}}"#;

const ENDED: &str =
    r#"{"type":"CityJSON","version":"2.0","transform":{"scale":[0.001,0.001,0.001],"translate":[0,0,0]},"CityObjects":{},"vertices":[]ROW}"#;

const MIDDLE: &str =
    r#"{"type":"CityJSON","version":"2.0","transform":{"scale":[0.001,0.001,0.001],"translate":[0,0,0]}ROW,"CityObjects":{},"vertices":[]}"#;

/// One x in the shape that the section on text sequences shows: `transform` comes late.
const LATE: &str =
    r#"{"type":"CityJSON","version":"2.0","CityObjects":{},"vertices":[],"transform":{"scale":[0.001,0.001,0.001],"translate":[ROW,446846.0,-5.3]},"metadata":{"referenceSystem":"https://www.opengis.net/def/crs/EPSG/0/7415"}}"#;

/// The grid of the first tile is taken, and that of the others fits it.
const TRANSLATIONS: &str = r#"0,0,0 => 0,0,0 => 0,0,0
0,0,0 | 0,0,0 => 0,0,0 0,0,0 => 0,0,0
0,0,0 | 1.5,0,0 => 0,0,0 1500,0,0 => 0,0,0
1.5,0,0 | 0,0,0 | 0,-2,7 => 0,0,0 -1500,0,0 -1500,-2000,7000 => 1.5,0,0
0,0,0 | 0.0005,0,0 => tile 2: OffGrid
84710.10,446846.0,-5.3 => 0,0,0 .. => 84710.10,446846.0,-5.3
1.0,0,0 | 1,0,0 => 0,0,0 .. => 1.0,0,0
1,0,0 | 1.0,0,0 | 1e0,0,0 => 0,0,0 .. => 1,0,0
2,0,0 | 1.50,0,0 | 1.5,0,0 => 0,0,0 .. => 2,0,0
3,-1,0.0 | 2.0,7,-0 | 2,-1.0,0 | 9,-1.50,0e1 | 9,-1.5,1 => 0,0,0 .. => 3,-1,0.0"#;

/// The least of each component is taken, as the lowest tile that has it spells it.
const LEAST_TRANSLATIONS: &str = r#"1.5,0,0 | 0,0,0 => 1500,0,0 0,0,0 => 0,0,0
0,0,0 | -0.001,0,0 => 1,0,0 0,0,0 => -0.001,0,0
1.0,0,0 | 1,0,0 => 0,0,0 0,0,0 => 1.0,0,0
1,0,0 | 0,1,0 => 1000,0,0 0,1000,0 => 0,0,0
3,1e0,5 | 2,1.0,6 | 2.0,1,4.000 => 1000,0,1000 0,0,2000 0,0,0 => 2,1e0,4.000
0,0,0 | -0.0005,0,0 => tile 1: OffGrid
84710.10,446846.0,-5.3 => .. => 84710.10,446846.0,-5.3
1.0,0,0 | 1,0,0 => .. => 1.0,0,0
1,0,0 | 1.0,0,0 | 1e0,0,0 => .. => 1,0,0
2,0,0 | 1.50,0,0 | 1.5,0,0 => .. => 1.50,0,0
3,-1,0.0 | 2.0,7,-0 | 2,-1.0,0 | 9,-1.50,0e1 | 9,-1.5,1 => .. => 2.0,-1.50,0.0"#;

/// A scale is the same, however it is spelled.
const SCALES: &str = r#"0.001 | 1e-3 => 0,0,0 0,0,0 => 0.001
1e-3 | 0.001 => 0,0,0 0,0,0 => 1e-3
0.001 | 0.01 => tile 2: ScaleDiffers"#;

/// Extensions are joined, the extent is dropped, and reference systems and templates are the same or in no tile.
const ENDS: &str = r#" | ,"appearance":{} => 0,0,0 0,0,0 => 
,"geometry-templates":{"templates":[],"vertices-templates":[]},"appearance":{} | ,"geometry-templates":{"templates":[],"vertices-templates":[]},"appearance":{} => 0,0,0 0,0,0 => ,"geometry-templates":{"templates":[],"vertices-templates":[]},"appearance":{}
,"extensions":{"A":{"version":"1"}} | ,"extensions":{"B":{},"A":{"version":"1"}} => 0,0,0 0,0,0 => ,"extensions":{"A":{"version":"1"},"B":{}}
 | ,"extensions":{"A":{}} => 0,0,0 0,0,0 => ,"extensions":{"A":{}}
,"extensions":{"A":{ }} | ,"extensions":{"A":{}} => 0,0,0 0,0,0 => ,"extensions":{"A":{}}
,"metadata":{"geographicalExtent":[0,0,0,1,1,1],"title":"t"} => 0,0,0 => ,"metadata":{"title":"t"}
,"metadata":{"geographicalExtent":[0,0,0,1,1,1]} => 0,0,0 => ,"metadata":{}
, "metadata" : { "referenceSystem" : "https://www.opengis.net/def/crs/EPSG/0/7415" } | ,"metadata":{"referenceSystem":"https:\/\/www.opengis.net/def/crs/EPSG/0/\u0037415"} | ,"metadata":{"referenceSystem":"https://www.opengis.net/def/crs/EPSG/0/7415"} => 0,0,0 0,0,0 0,0,0 => ,"metadata":{"referenceSystem":"https://www.opengis.net/def/crs/EPSG/0/7415"}
,"metadata":{"referenceSystem":"https://www.opengis.net/def/crs/EPSG/0/7415"} | ,"metadata":{"referenceSystem":"https://www.opengis.net/def/crs/EPSG/0/28992"} => tile 2: CrsDiffers
,"metadata":{"referenceSystem":"https://www.opengis.net/def/crs/EPSG/0/7415"} |  => tile 2: CrsDiffers
 | ,"metadata":{"referenceSystem":"https://www.opengis.net/def/crs/EPSG/0/7415"} => tile 2: CrsDiffers
,"metadata":{"referenceSystem":"https://www.opengis.net/def/crs/EPSG/0/7415"} | ,"metadata":{"referenceSystem":"https://www.opengis.net/def/crs/EPSG/0/7415"} | ,"metadata":{"referenceSystem":"https://www.opengis.net/def/crs/EPSG/0/28992"} |  => tile 3: CrsDiffers
,"extensions":{"A":{"version":"1"}} | ,"extensions":{"B":{},"A":{"version":"2"}} => tile 2: ExtensionClash
 | ,"extensions":{"B":{},"A":[1]} | ,"extensions":{"A":[1],"B":{}} | ,"extensions":{"A":[1.0]} => tile 4: ExtensionClash
,"geometry-templates":{"templates":[],"vertices-templates":[]} |  => tile 2: TemplatesDiffer
 | ,"geometry-templates":{"templates":[],"vertices-templates":[]} => tile 2: TemplatesDiffer
,"geometry-templates":{"templates":[],"vertices-templates":[]} | ,"geometry-templates":{"templates":[],"vertices-templates":[]},"appearance":{} => tile 2: TemplatesDiffer
,"geometry-templates":{"templates":[],"vertices-templates":[]},"appearance":{} | ,"geometry-templates":{"templates":[],"vertices-templates":[]} => tile 2: TemplatesDiffer"#;

/// The first header is changed at its own places, and keeps its other members.
const WHOLE: &str =
    r#"{"type":"CityJSON","version":"2.0","transform":{"scale":[0.001,0.001,0.001],"translate":[0,0,0]},"extensions":{"Z":{},"M":{}},"CityObjects":{},"vertices":[]} | {"type":"CityJSON","version":"2.0","transform":{"scale":[0.001,0.001,0.001],"translate":[0,0,0]},"CityObjects":{},"vertices":[],"extensions":{"A":{},"Z":{}}} => 0,0,0 0,0,0 => {"type":"CityJSON","version":"2.0","transform":{"scale":[0.001,0.001,0.001],"translate":[0,0,0]},"extensions":{"Z":{},"M":{},"A":{}},"CityObjects":{},"vertices":[]}
{"type":"CityJSON","version":"2.0","transform":{"scale":[0.001,0.001,0.001],"translate":[0,0,0]},"CityObjects":{},"vertices":[]} | {"type":"CityJSON","version":"2.0","transform":{"scale":[0.01,0.01,0.01],"translate":[0,0,0]},"CityObjects":{},"vertices":[],"metadata":{"referenceSystem":"https://www.opengis.net/def/crs/EPSG/0/7415"}} => tile 2: ScaleDiffers
{"type":"CityJSON","version":"2.0","transform":{"scale":[0.001,0.001,0.001],"translate":[0,0,0]},"CityObjects":{},"vertices":[]} => 0,0,0 => {"type":"CityJSON","version":"2.0","transform":{"scale":[0.001,0.001,0.001],"translate":[0,0,0]},"CityObjects":{},"vertices":[]}
{"type":"CityJSON","version":"2.0","transform":{"scale":[0.001,0.001,0.001],"translate":[0,0,0]},"CityObjects":{},"vertices":[],"metadata":{"geographicalExtent":[0,0,0,1,1,1],"title":"t"}} => 0,0,0 => {"type":"CityJSON","version":"2.0","transform":{"scale":[0.001,0.001,0.001],"translate":[0,0,0]},"CityObjects":{},"vertices":[],"metadata":{"title":"t"}}
{"metadata": {"geographicalExtent": [0,0,0,1,1,1]}, "vertices": [], "CityObjects": {}, "transform": {"translate": [-1.50, 2e0, 0.0], "note": {"n": 1.50}, "scale": [0.0010, 1e-3, 0.001]}, "version": "2.0", "type": "CityJSON"} => 0,0,0 => {"metadata":{},"vertices":[],"CityObjects":{},"transform":{"translate":[-1.50,2e0,0.0],"note":{"n":1.50},"scale":[0.0010,1e-3,0.001]},"version":"2.0","type":"CityJSON"}
{"geographicalExtent":1.50,"transform":{"scale":[1,1,1],"translate":[0,0,0],"geographicalExtent":1},"version":"2.0","metadata":{"a":{"geographicalExtent":2}},"type":"CityJSON"} => 0,0,0 => {"geographicalExtent":1.50,"transform":{"scale":[1,1,1],"translate":[0,0,0],"geographicalExtent":1},"version":"2.0","metadata":{"a":{"geographicalExtent":2}},"type":"CityJSON"}
{"type":"CityJSON","version":"2.0","metadata":{"title":"t","geographicalExtent":[[1.50]],"identifier":{"i":[]}},"transform":{"scale":[1,1,1],"translate":[0,0,0]}} => 0,0,0 => {"type":"CityJSON","version":"2.0","metadata":{"title":"t","identifier":{"i":[]}},"transform":{"scale":[1,1,1],"translate":[0,0,0]}}
{"type":"CityJSON","version":"2.0","metadata":{"title":"t","geographicalExtent":{}},"transform":{"scale":[1,1,1],"translate":[0,0,0]}} => 0,0,0 => {"type":"CityJSON","version":"2.0","metadata":{"title":"t"},"transform":{"scale":[1,1,1],"translate":[0,0,0]}}
{"a\u0022\\\n\u001f\u00e9 name that is long":{"\u0000":"\/"},"type":"CityJSON","version":"2.0","":[],"metadata":{"\t":1,"geographicalExtent":2,"z":3},"transform":{"scale":[1,1,1],"translate":[0,0,0],"\"":4}} => 0,0,0 => {"a\"\\\n\u001fé name that is long":{"\u0000":"/"},"type":"CityJSON","version":"2.0","":[],"metadata":{"\t":1,"z":3},"transform":{"scale":[1,1,1],"translate":[0,0,0],"\"":4}}
{"type":"CityJSON","extensions":{},"version":"2.0","transform":{"scale":[1,1,1],"translate":[0,0,0]}} => 0,0,0 => {"type":"CityJSON","extensions":{},"version":"2.0","transform":{"scale":[1,1,1],"translate":[0,0,0]}}
{"translate":7,"type":"CityJSON","version":"2.0","transform":{"scale":[1,1,1],"translate":[1.0,2.0,3.0]}} => 0,0,0 => {"translate":7,"type":"CityJSON","version":"2.0","transform":{"scale":[1,1,1],"translate":[1.0,2.0,3.0]}}
{"type":"CityJSON","version":"2.0","transform":{"scale":[1,1,1],"translate":[0,0,0]}} | {"type":"CityJSON","version":"2.0","extensions":{"A":{"version":"1"},"B":{},"C":1.50},"transform":{"scale":[1,1,1],"translate":[0,0,0]}} => .. => {"type":"CityJSON","version":"2.0","transform":{"scale":[1,1,1],"translate":[0,0,0]},"extensions":{"A":{"version":"1"},"B":{},"C":1.50}}
{"type":"CityJSON","extensions":{"A":{"version":"1"}},"version":"2.0","transform":{"scale":[1,1,1],"translate":[0,0,0]}} | {"type":"CityJSON","version":"2.0","extensions":{"A":{"version":"1"},"B":{},"C":1.50},"transform":{"scale":[1,1,1],"translate":[0,0,0]}} => .. => {"type":"CityJSON","extensions":{"A":{"version":"1"},"B":{},"C":1.50},"version":"2.0","transform":{"scale":[1,1,1],"translate":[0,0,0]}}
{"extensions":{},"type":"CityJSON","version":"2.0","metadata":{},"transform":{"scale":[1,1,1],"translate":[0,0,0]}} | {"type":"CityJSON","version":"2.0","extensions":{"A":{"version":"1"},"B":{},"C":1.50},"transform":{"scale":[1,1,1],"translate":[0,0,0]}} => .. => {"extensions":{"A":{"version":"1"},"B":{},"C":1.50},"type":"CityJSON","version":"2.0","metadata":{},"transform":{"scale":[1,1,1],"translate":[0,0,0]}}
{"type":"CityJSON","version":"2.0","transform":{"note":[1.50],"translate":[3,-1,0.0],"scale":[0.001,0.001,0.001]},"vertices":[]} | {"transform":{"scale":[1e-3,0.0010,0.001],"translate":[2.0,7,-1.50]},"version":"2.0","type":"CityJSON","extra":{}} | {"type":"CityJSON","version":"2.0","transform":{"scale":[0.001,0.001,0.001],"translate":[2,-1.0,-1.5]},"vertices":[]} => .. => {"type":"CityJSON","version":"2.0","transform":{"note":[1.50],"translate":[3,-1,0.0],"scale":[0.001,0.001,0.001]},"vertices":[]}"#;

/// The same where the least translation is taken.
const LEAST_WHOLE: &str =
    r#"{"type":"CityJSON","version":"2.0","transform":{"scale":[0.001,0.001,0.001],"translate":[0,0,0]},"CityObjects":{},"vertices":[]} => 0,0,0 => {"type":"CityJSON","version":"2.0","transform":{"scale":[0.001,0.001,0.001],"translate":[0,0,0]},"CityObjects":{},"vertices":[]}
{"type":"CityJSON","version":"2.0","transform":{"scale":[0.001,0.001,0.001],"translate":[0,0,0]},"CityObjects":{},"vertices":[],"metadata":{"geographicalExtent":[0,0,0,1,1,1],"title":"t"}} => 0,0,0 => {"type":"CityJSON","version":"2.0","transform":{"scale":[0.001,0.001,0.001],"translate":[0,0,0]},"CityObjects":{},"vertices":[],"metadata":{"title":"t"}}
{"metadata": {"geographicalExtent": [0,0,0,1,1,1]}, "vertices": [], "CityObjects": {}, "transform": {"translate": [-1.50, 2e0, 0.0], "note": {"n": 1.50}, "scale": [0.0010, 1e-3, 0.001]}, "version": "2.0", "type": "CityJSON"} => 0,0,0 => {"metadata":{},"vertices":[],"CityObjects":{},"transform":{"translate":[-1.50,2e0,0.0],"note":{"n":1.50},"scale":[0.0010,1e-3,0.001]},"version":"2.0","type":"CityJSON"}
{"geographicalExtent":1.50,"transform":{"scale":[1,1,1],"translate":[0,0,0],"geographicalExtent":1},"version":"2.0","metadata":{"a":{"geographicalExtent":2}},"type":"CityJSON"} => 0,0,0 => {"geographicalExtent":1.50,"transform":{"scale":[1,1,1],"translate":[0,0,0],"geographicalExtent":1},"version":"2.0","metadata":{"a":{"geographicalExtent":2}},"type":"CityJSON"}
{"type":"CityJSON","extensions":{},"version":"2.0","transform":{"scale":[1,1,1],"translate":[0,0,0]}} => 0,0,0 => {"type":"CityJSON","extensions":{},"version":"2.0","transform":{"scale":[1,1,1],"translate":[0,0,0]}}
{"translate":7,"type":"CityJSON","version":"2.0","transform":{"scale":[1,1,1],"translate":[1.0,2.0,3.0]}} => 0,0,0 => {"translate":7,"type":"CityJSON","version":"2.0","transform":{"scale":[1,1,1],"translate":[1.0,2.0,3.0]}}
{"type":"CityJSON","version":"2.0","transform":{"note":[1.50],"translate":[3,-1,0.0],"scale":[0.001,0.001,0.001]},"vertices":[]} | {"transform":{"scale":[1e-3,0.0010,0.001],"translate":[2.0,7,-1.50]},"version":"2.0","type":"CityJSON","extra":{}} | {"type":"CityJSON","version":"2.0","transform":{"scale":[0.001,0.001,0.001],"translate":[2,-1.0,-1.5]},"vertices":[]} => .. => {"type":"CityJSON","version":"2.0","transform":{"note":[1.50],"translate":[2.0,-1,-1.50],"scale":[0.001,0.001,0.001]},"vertices":[]}"#;

/// A header from its scale on, in micrometres.
const CLASHING: &str =
    r#"{"type":"CityJSON","version":"2.0","transform":{"scale":[0.000001,0.000001,ROW}"#;

/// Two faults at once in the second tile, each beside the one that comes next in their order.
const CLASHES: &str =
    r#"0.000001],"translate":[0,0,0]} | 1],"translate":[0,0,0]},"metadata":{"referenceSystem":"https://www.opengis.net/def/crs/EPSG/0/7415"} => tile 2: ScaleDiffers
0.000001],"translate":[0,0,0]} | 0.000001],"translate":[0.0000005,0,0]},"metadata":{"referenceSystem":"https://www.opengis.net/def/crs/EPSG/0/7415"} => tile 2: CrsDiffers
0.000001],"translate":[0,0,0]} | 0.000001],"translate":[100000000000,0.0000005,0]} => tile 2: OffGrid
0.000001],"translate":[0,0,0]},"extensions":{"A":{}} | 0.000001],"translate":[100000000000,0,0]},"extensions":{"A":[]} => tile 2: ShiftRange
0.000001],"translate":[0,0,0]},"extensions":{"A":{}} | 0.000001],"translate":[0,0,0]},"extensions":{"A":[]},"geometry-templates":{"templates":[],"vertices-templates":[]} => tile 2: ExtensionClash"#;

fn expect(rt: &(impl Abort + AllocGlobal), base: Base, form: &str, table: &str) {
    for row in table.lines() {
        assert!(rt; joins(rt.alloc(), base, form, row), "{row}");
    }
}

#[test]
fn tiles_join_to_one_header_or_are_refused(rt: HostRuntime) {
    expect(&rt, Base::First, MOVED, TRANSLATIONS);
    expect(&rt, Base::Least, MOVED, LEAST_TRANSLATIONS);
    expect(&rt, Base::First, SCALED, SCALES);
    expect(&rt, Base::First, ENDED, ENDS);
    expect(&rt, Base::First, CLASHING, CLASHES);
    expect(&rt, Base::First, "ROW", WHOLE);
    expect(&rt, Base::Least, "ROW", LEAST_WHOLE);
    expect(
        &rt,
        Base::First,
        MIDDLE,
        r#","extensions":{} |  => 0,0,0 0,0,0 => ,"extensions":{}"#,
    );
    expect(
        &rt,
        Base::First,
        LATE,
        r#"84710.1 | 84800.35 => 0,0,0 90250,0,0 => 84710.1"#,
    );
    expect(
        &rt,
        Base::First,
        MICROMETRES,
        r#"0,0,0 | 100000000000,0,0 => tile 2: ShiftRange"#,
    );
    expect(
        &rt,
        Base::First,
        TINY,
        r#"0,0,0 | 0,0,1e-24 | 0,0,-1e-24 => 0,0,0 .. => 0,0,0"#,
    );
    expect(
        &rt,
        Base::Least,
        TINY,
        r#"0,0,0 | 0,0,1e-24 | 0,0,-1e-24 => .. => 0,0,-1e-24"#,
    );
}

/// Two tiles whose members and extensions are many, and what they join to: `MEMBERS` and `NAMES` stand for a thousand of
/// each.
const LARGE: &str =
    r#"{MEMBERS,"metadata":{"geographicalExtent":[1,2,3,4,5,6]},"extensions":{"e0":0.50},"type":"CityJSON","version":"2.0","transform":{"scale":[1,1,1],"translate":[7.0,8.0,9.0]}} | {"type":"CityJSON","version":"2.0","transform":{"scale":[1,1,1],"translate":[7,8,9]},"extensions":{NAMES}} => 0,0,0 0,0,0 => {MEMBERS,"metadata":{},"extensions":{NAMES},"type":"CityJSON","version":"2.0","transform":{"scale":[1,1,1],"translate":[7.0,8.0,9.0]}}"#;

fn large(alloc: Global) -> Result<String, AllocError> {
    let row = repeated(
        alloc,
        LARGE,
        "MEMBERS",
        ("\"mNUMBER\":NUMBER.50", ","),
        below(1000),
    )?;
    repeated(
        alloc,
        &row,
        "NAMES",
        ("\"eNUMBER\":NUMBER.50", ","),
        below(1000),
    )
}

#[test]
fn a_large_header_is_changed(rt: HostRuntime) -> Result<(), AllocError> {
    expect(&rt, Base::Least, "ROW", &large(rt.alloc())?);
    Ok(())
}

/// A thousand tiles, of which each two share an extension, and all share one.
const SHARING: &str =
    r#"TILES => SHIFTS => 0,0,0],"note":1},"extensions":{"E0":{"version":"0"},"Shared":{},NAMES}}"#;

/// Two of these tiles, which are moved by their own number, and by it with a one before it.
const TWO: &str =
    r#"NUMBER,0,0],"note":1},"extensions":{"ENUMBER":{"version":"NUMBER"},"Shared":{}}} | 1DIGITS,0,0],"note":1},"extensions":{"ENUMBER":{"version":"NUMBER"},"Shared":{}}}"#;

const TWO_SHIFTS: &str = "NUMBER000,0,0 1DIGITS000,0,0";

const FRONT: &str =
    r#"{"type":"CityJSON","version":"2.0","transform":{"scale":[0.001,0.001,0.001],"translate":[ROW"#;

fn sharing(alloc: Global) -> Result<String, AllocError> {
    let names = Numbers {
        first: 1,
        ..below(500)
    };
    let row = repeated(alloc, SHARING, "TILES", (TWO, " | "), below(500))?;
    let row = repeated(alloc, &row, "SHIFTS", (TWO_SHIFTS, " "), below(500))?;
    repeated(
        alloc,
        &row,
        "NAMES",
        (r#""ENUMBER":{"version":"NUMBER"}"#, ","),
        names,
    )
}

#[test]
fn many_tiles_share_and_add_extensions(rt: HostRuntime) -> Result<(), AllocError> {
    expect(&rt, Base::First, FRONT, &sharing(rt.alloc())?);
    Ok(())
}

/// A thousand tiles in an order of their own, and how they are moved to the least of each component.
const LEAST_OF_MANY: &str =
    "300.0,300.50,-0.009 | TILES | 0,0.5,7 | OTHERS => 300000,300000,0 SHIFTS 0,0,7009 STEPS => 0,0.5,-0.009";

const TILE: (&str, &str) = ("NUMBER.0,NUMBER.50,NUMBER", " | ");

const STEPS: (&str, &str) = ("NUMBER000,NUMBER000,NUMBER009", " ");

fn many_tiles(alloc: Global) -> Result<String, AllocError> {
    let tiles = Numbers {
        first: 501,
        last: 1000,
        step: 7,
    };
    let others = Numbers {
        first: 1,
        last: 500,
        step: 7,
    };
    let row = repeated(alloc, LEAST_OF_MANY, "TILES", TILE, tiles)?;
    let row = repeated(alloc, &row, "OTHERS", TILE, others)?;
    let row = repeated(alloc, &row, "SHIFTS", STEPS, tiles)?;
    repeated(alloc, &row, "STEPS", STEPS, others)
}

#[test]
fn the_least_of_many_tiles_is_found(rt: HostRuntime) -> Result<(), AllocError> {
    expect(&rt, Base::Least, MOVED, &many_tiles(rt.alloc())?);
    Ok(())
}
