//! What the text of a feature has of its own, before an end that others share. A row tells which features are asked for; what
//! stands before the end; and what is given of it, `none` where the feature is not chosen, or the fault.
use crate::answers::{asked_choice, asked_shift, gives};
use crate::texts::{is_named, split};
use byte_streams::{Fault, Line};
use city_feature::{Choice, OwnBuffers, own_is_wanted, own_text};
use city_grid::Shift;
use std::alloc::{AllocError, AllocGlobal, Global};
use std::process::Abort;

/// The ends: an appearance, or none.
const ENDS: [&str; 2] = [r#","appearance":{"materials":[{"name":"brick"}]}}"#, "}"];

/// What stands in the buffers before.
const OTHER: &str =
    r#"{"type":"CityJSONFeature","id":"other","CityObjects":{"other":{"type":"Bridge"}},"vertices":[[ 7, 8, 9], [10, 11, 12]]"#;

fn is_answer(alloc: Global, answer: Result<Option<Line>, Fault>, wanted: &str) -> bool {
    match answer {
        Ok(Some(text)) => text.items() == wanted.as_bytes(),
        Ok(None) => wanted == "none",
        Err(fault) => is_named(alloc, fault, wanted),
    }
}

/// What is given of this own part.
fn given_text(
    alloc: Global,
    own: &str,
    shift: Shift,
    choice: &Choice,
    buffers: &mut OwnBuffers,
) -> Result<Option<Line>, Fault> {
    let mut line = Line::new(alloc);
    line.append(own.as_bytes())?;
    own_text(alloc, &mut line, shift, choice, buffers)
}

/// Whether it is told that a text is given of this own part exactly where one is, or the same fault.
fn is_told(
    alloc: Global,
    own: &str,
    shift: Shift,
    choice: &Choice,
    buffers: &mut OwnBuffers,
    wanted: &str,
) -> bool {
    let mut line = Line::new(alloc);
    let Ok(()) = line.append(own.as_bytes()) else {
        return false;
    };
    match own_is_wanted(alloc, &mut line, shift, choice, buffers) {
        Ok(is) => is == (wanted != "none") && (wanted == "none" || wanted.starts_with('{')),
        Err(fault) => is_named(alloc, fault, wanted),
    }
}

/// Whether this is given, in buffers that hold other texts.
fn is_given(alloc: Global, own: &str, shift: Shift, choice: &Choice, wanted: &str) -> bool {
    let mut buffers = OwnBuffers::new(alloc);
    let mut is_so = true;
    for _ in 0..2 {
        let answer = given_text(alloc, own, shift, choice, &mut buffers);
        is_so &= is_answer(alloc, answer, wanted);
        is_so &= is_told(alloc, own, shift, choice, &mut buffers, wanted);
        is_so &= given_text(alloc, OTHER, shift, choice, &mut buffers).is_ok();
    }
    is_so
}

/// The whole text that is wanted; `none` and a fault stand for themselves.
fn whole_text(alloc: Global, wanted: &str, end: &str) -> Result<String, AllocError> {
    if wanted.starts_with('{') {
        return format!(in alloc; "{wanted}{end}");
    }
    format!(in alloc; "{wanted}")
}

/// Whether the row holds, and the whole line with this end is answered so, too.
fn holds(alloc: Global, row: &str, end: &str) -> Result<bool, Fault> {
    let (asked, texts) = split(row);
    let (own, wanted) = split(texts);
    let Some(shift) = asked_shift(asked) else {
        return Ok(false);
    };
    let choice = asked_choice(alloc, asked)?;
    let line = format!(in alloc; "{own}{end}")?;
    let whole = whole_text(alloc, wanted, end)?;
    Ok(
        is_given(alloc, own, shift, &choice, wanted)
            && gives(alloc, line.as_bytes(), shift, &choice, &whole),
    )
}

fn expect_rows(rt: &(impl Abort + AllocGlobal), table: &str, end: &str) {
    for row in table.lines() {
        let answer = holds(rt.alloc(), row, end);
        assert!(rt; row.is_empty() || answer == Ok(true), "{row}");
    }
}

const OWN: &str = r#"
all => {"type":"CityJSONFeature","id":"a","CityObjects":{},"vertices":[] => {"type":"CityJSONFeature","id":"a","CityObjects":{},"vertices":[]
all => {"type":"CityJSONFeature","id":"a","CityObjects":{},"vertices":[[1,2,3]] => {"type":"CityJSONFeature","id":"a","CityObjects":{},"vertices":[[1,2,3]]
10,20,30 => {"type":"CityJSONFeature","id":"a","CityObjects":{},"vertices":[[1,2,3],[-4,-5,-6]] => {"type":"CityJSONFeature","id":"a","CityObjects":{},"vertices":[[11,22,33],[6,15,24]]
all => {"type":"CityJSONFeature","id":"a","CityObjects":{},"vertices":[[-0,2,3]] => {"type":"CityJSONFeature","id":"a","CityObjects":{},"vertices":[[0,2,3]]
10,20,30 => {"vertices":[[1,2,3]],"x":{"appearance":{}},"CityObjects":{"a":{"appearance":1}},"id":"a","type":"CityJSONFeature" => {"vertices":[[11,22,33]],"x":{"appearance":{}},"CityObjects":{"a":{"appearance":1}},"id":"a","type":"CityJSONFeature"
all => {"type":"CityJSONFeature","id":"a\"b","CityObjects":{"a\"b":{}},"vertices":[] => {"type":"CityJSONFeature","id":"a\"b","CityObjects":{"a\"b":{}},"vertices":[]
all;Building => {"type":"CityJSONFeature","id":"a","CityObjects":{"a":{"type":"Building"}},"vertices":[] => {"type":"CityJSONFeature","id":"a","CityObjects":{"a":{"type":"Building"}},"vertices":[]
all;Road => {"type":"CityJSONFeature","id":"a","CityObjects":{"a":{"type":"Building"}},"vertices":[] => none
all;Road;;others => {"type":"CityJSONFeature","id":"a","CityObjects":{"a":{"type":"Building"}},"vertices":[] => {"type":"CityJSONFeature","id":"a","CityObjects":{"a":{"type":"Building"}},"vertices":[]
all;Building;;others => {"type":"CityJSONFeature","id":"a","CityObjects":{"a":{"type":"Building"}},"vertices":[] => none
all;;0,0,10,10 => {"type":"CityJSONFeature","id":"a","CityObjects":{},"vertices":[[10,10,3]] => {"type":"CityJSONFeature","id":"a","CityObjects":{},"vertices":[[10,10,3]]
all;;0,0,10,10 => {"type":"CityJSONFeature","id":"a","CityObjects":{},"vertices":[[11,10,3]] => none
1,0,0;;0,0,10,10 => {"type":"CityJSONFeature","id":"a","CityObjects":{},"vertices":[[10,10,3]] => none
1,0,0;;11,0,11,10 => {"type":"CityJSONFeature","id":"a","CityObjects":{},"vertices":[[10,10,3]] => {"type":"CityJSONFeature","id":"a","CityObjects":{},"vertices":[[11,10,3]]
1,0,0;;11,0,11,10;others => {"type":"CityJSONFeature","id":"a","CityObjects":{},"vertices":[[10,10,3]] => none
all;Building;0,0,10,10 => {"type":"CityJSONFeature","id":"a","CityObjects":{"a":{"type":"Building"}},"vertices":[[5,5,5]] => {"type":"CityJSONFeature","id":"a","CityObjects":{"a":{"type":"Building"}},"vertices":[[5,5,5]]
all;Building;0,0,10,10;others => {"type":"CityJSONFeature","id":"a","CityObjects":{"a":{"type":"Building"}},"vertices":[[5,5,5]] => none
1,0,0 => {"type":"CityJSONFeature","id":"a","CityObjects":{},"vertices":[[9007199254740991,0,0]] => VertexRange
0,0,-1 => {"type":"CityJSONFeature","id":"a","CityObjects":{},"vertices":[[0,0,0],[0,0,-9007199254740991]] => VertexRange
"#;

/// With no appearance after them: texts that have one of their own, that are not compact, and those that come to no feature.
const CLOSED: &str = r#"
all => {"type":"CityJSONFeature","id":"a","CityObjects":{},"vertices":[],"appearance":{} => {"type":"CityJSONFeature","id":"a","CityObjects":{},"vertices":[],"appearance":{}
1,1,1 => {"appearance":{},"type":"CityJSONFeature","id":"a","CityObjects":{},"vertices":[[1,2,3]] => {"appearance":{},"type":"CityJSONFeature","id":"a","CityObjects":{},"vertices":[[2,3,4]]
all => {"type":"CityJSONFeature", "id":"a","CityObjects":{},"vertices":[] => {"type":"CityJSONFeature","id":"a","CityObjects":{},"vertices":[]
all => {"type":"CityJSONFeature","id":"a","CityObjects":{},"vertices":[ ] => {"type":"CityJSONFeature","id":"a","CityObjects":{},"vertices":[]
all => {"type":"CityJSONFeature","id":"\u0061","CityObjects":{},"vertices":[] => {"type":"CityJSONFeature","id":"a","CityObjects":{},"vertices":[]
all => {"type":"CityJSONFeature","id":"a","CityObjects":{},"vertices":[],"appearance":{},"appearance":{} => DuplicateName
all => {"type":"CityJSONFeature","id":"a","CityObjects":{},"vertices":[]} => Syntax
all => {"type":"CityJSONFeature","id":"a","CityObjects":{},"vertices":[[1,2]] => VertexShape
all => {"type":"CityJSONFeature","id":"a","CityObjects":{},"vertices":[[1,2,3.5]] => VertexNotInteger
all => {"type":"CityJSON","id":"a","CityObjects":{},"vertices":[] => NotAFeature
all => {"type":"CityJSONFeature","id":"a","vertices":[] => NotAFeature
all => {"id":"a" => NotAFeature
all => { => NotAFeature
all =>  => Syntax
"#;

#[test]
fn own_parts_are_moved_and_chosen(rt: HostRuntime) {
    for end in ENDS.iter() {
        expect_rows(&rt, OWN, end);
    }
    expect_rows(&rt, CLOSED, "}");
}
