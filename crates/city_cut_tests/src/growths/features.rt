//! Vertices, headers, features, choices, and documents that are cut.

use crate::growths::values::{is_after, is_printed};
use byte_streams::{Fault, Line};
use city_cut::{CutTexts, FeatureTexts, cut, cut_texts, set_member};
use city_feature::{
    Base, Choice, Feature, Header, HeaderFault, Joined, OwnBuffers, area, feature, feature_text,
    header, join_headers, line, own_is_wanted, own_text, selects, shifted, take_vertices, types,
};
use city_grid::{Shift, Vertex, append_vertex, vertex_json, write_vertex};
use city_json::{Json, Workspace, compact_object, read};
use cut_on_text::cut_known;
use growth_support::texts::{
    A, BUILDING, CHILDLESS, CLASHING, DOCUMENT, DUTCH, EXTENDED, EXTENDED_BOTH, EXTENDED_TWICE,
    FAR_HEADER, HEADER, OFF_GRID, ORPHANED, OTHER_DUTCH, SCALED, UNBOUNDED,
};
use growth_support::{Call, expect, is_fault, refused, wanted};
use std::alloc::Global;
use std::io::Eprint;

/// Vertices and their texts.
const VERTICES: [(i64, i64, i64, &str); 2] = [
    (0, 0, 0, "[0,0,0]"),
    (9_007_199_254_740_991, 0, -17, "[9007199254740991,0,-17]"),
];

fn is_built(rt: &(impl AllocGlobal + Eprint), vertex: &Vertex, text: &str) -> Result<bool, Fault> {
    match vertex_json(rt.alloc(), vertex) {
        Ok(built) => is_printed(rt.alloc(), &built, text.as_bytes()),
        Err(fault) => refused(rt, Call("vertex_json"), fault),
    }
}

fn writes(
    rt: &(impl AllocGlobal + Eprint),
    vertex: &Vertex,
    value: &mut Json,
    text: &str,
) -> Result<bool, Fault> {
    match write_vertex(rt.alloc(), vertex, value) {
        Ok(()) => is_printed(rt.alloc(), value, text.as_bytes()),
        Err(fault) => refused(rt, Call("write_vertex"), fault),
    }
}

/// A line to which a vertex is appended is as before where memory is wanted.
fn appends(
    rt: &(impl AllocGlobal + Eprint),
    vertex: &Vertex,
    line: &mut Line,
    text: &str,
) -> Result<bool, Fault> {
    line.append(b"[")?;
    if append_vertex(b',', vertex, line).is_err() {
        wanted(rt, Call("append_vertex"));
        if line.items() != b"[".as_slice() {
            return Ok(false);
        }
        append_vertex(b',', vertex, line)?;
    }
    Ok(is_after(b"[,", text.as_bytes(), line.items()))
}

fn is_written(
    rt: &(impl AllocGlobal + Eprint),
    vertex: &Vertex,
    text: &str,
) -> Result<bool, Fault> {
    writes(rt, vertex, &mut Json::Null, text)
}

fn is_appended(
    rt: &(impl AllocGlobal + Eprint),
    vertex: &Vertex,
    text: &str,
) -> Result<bool, Fault> {
    appends(rt, vertex, &mut Line::new(rt.alloc()), text)
}

fn vertices_are_written(rt: &(impl AllocGlobal + Eprint)) -> Result<bool, Fault> {
    for (x, y, z, text) in VERTICES.iter() {
        let vertex = Vertex::new(*x, *y, *z).ok_or(Fault::VertexRange)?;
        let is_value = is_built(rt, &vertex, text)? && is_written(rt, &vertex, text)?;
        if !(is_value && is_appended(rt, &vertex, text)?) {
            return Ok(false);
        }
    }
    Ok(true)
}

fn sets(
    rt: &(impl AllocGlobal + Eprint),
    value: &mut Json,
    given: Json,
    text: &[u8],
) -> Result<bool, Fault> {
    match set_member(rt.alloc(), value, "b", given) {
        Ok(()) => is_printed(rt.alloc(), value, text),
        Err(fault) => refused(rt, Call("set_member"), fault),
    }
}

fn member_is_set(rt: &(impl AllocGlobal + Eprint)) -> Result<bool, Fault> {
    let mut value = read(rt.alloc(), br#"{"a":1}"#)?;
    let given = read(rt.alloc(), b"[1.50]")?;
    sets(rt, &mut value, given, br#"{"a":1,"b":[1.50]}"#)
}

/// Whether two headers are joined to this line, and the second of them is moved by so much in x.
fn is_joined(joined: &Joined, line: &str, x: i64) -> bool {
    match joined.shifts.items() {
        [_, shift] => joined.line.items() == line.as_bytes() && Some(*shift) == Shift::new(x, 0, 0),
        _ => false,
    }
}

/// The same; they are refused for the second of them, or for want of memory, which is of no tile.
fn are_joined(
    rt: &(impl AllocGlobal + Eprint),
    headers: &[Header],
    base: Base,
    line: &str,
    x: i64,
) -> Result<bool, Fault> {
    if headers.is_empty() || headers.len() > 2 {
        return Ok(false);
    }
    match join_headers(rt.alloc(), headers, base) {
        Ok(joined) => Ok(is_joined(&joined, line, x)),
        Err(HeaderFault { tile: 0, fault }) if fault == Fault::Memory => {
            refused(rt, Call("join_headers"), fault)
        }
        Err(HeaderFault { tile: 2, fault }) if fault != Fault::Memory => Err(fault),
        Err(_) => Ok(false),
    }
}

fn header_of(alloc: Global, text: &str) -> Result<Header, Fault> {
    header(read(alloc, text.as_bytes())?)
}

fn headers_of(alloc: Global, first: &str, second: &str) -> Result<Vec<Header>, Fault> {
    let (first, second) = (header_of(alloc, first)?, header_of(alloc, second)?);
    Ok(vec![in alloc; first, second]?)
}

fn texts_are_joined(
    rt: &(impl AllocGlobal + Eprint),
    (first, second): (&str, &str),
    base: Base,
    line: &str,
    x: i64,
) -> Result<bool, Fault> {
    let headers = headers_of(rt.alloc(), first, second)?;
    are_joined(rt, &headers, base, line, x)
}

/// Two headers, whose least corner is the origin or whose first is the base, the header that they are joined to, and how
/// far the second is moved in x.
const JOINED: [(&str, &str, Base, &str, i64); 6] = [
    (HEADER, FAR_HEADER, Base::First, HEADER, 1500),
    (FAR_HEADER, FAR_HEADER, Base::Least, FAR_HEADER, 0),
    (HEADER, SCALED, Base::First, HEADER, 0),
    (SCALED, HEADER, Base::First, SCALED, 0),
    (EXTENDED, EXTENDED_TWICE, Base::First, EXTENDED_BOTH, 0),
    (TITLED, BELOW, Base::Least, TITLED_AND_BELOW, 1500),
];

fn headers_are_joined(rt: &(impl AllocGlobal + Eprint)) -> Result<bool, Fault> {
    for (first, second, base, line, x) in JOINED.iter() {
        if !texts_are_joined(rt, (first, second), *base, line, *x)? {
            return Ok(false);
        }
    }
    Ok(true)
}

/// Two headers that are not joined, and why.
const UNJOINED: [(&str, &str, Fault); 5] = [
    (HEADER, OFF_GRID, Fault::OffGrid),
    (DUTCH, OTHER_DUTCH, Fault::CrsDiffers),
    (DUTCH, HEADER, Fault::CrsDiffers),
    (HEADER, DUTCH, Fault::CrsDiffers),
    (EXTENDED, CLASHING, Fault::ExtensionClash),
];

fn headers_are_not_joined(rt: &(impl AllocGlobal + Eprint)) -> Result<bool, Fault> {
    for (first, second, fault) in UNJOINED.iter() {
        let answer = texts_are_joined(rt, (first, second), Base::First, "", 0);
        if !is_fault(answer, *fault)? {
            return Ok(false);
        }
    }
    Ok(true)
}

const TITLED: &str =
    r#"{"type":"CityJSON","version":"2.0","transform":{"scale":[0.001,0.001,0.001],"translate":[0,0,0]},"extensions":{"A":{"version":"1"}},"metadata":{"geographicalExtent":[0,0,0,1,1,1],"title":"t"}}"#;

const BELOW: &str =
    r#"{"type":"CityJSON","version":"2.0","transform":{"scale":[0.001,0.001,0.001],"translate":[1.5,-2,0]},"extensions":{"B":{"version":"2"}}}"#;

const TITLED_AND_BELOW: &str =
    r#"{"type":"CityJSON","version":"2.0","transform":{"scale":[0.001,0.001,0.001],"translate":[0,-2,0]},"extensions":{"A":{"version":"1"},"B":{"version":"2"}},"metadata":{"title":"t"}}"#;

/// A line as people write it, and what it comes to where it is moved by 10, 20 and 30.
const SPACED: &[u8] =
    br#"{ "type": "CityJSONFeature", "id": "a", "CityObjects": {"a": {"type": "Road"}}, "vertices": [[1, 2, 3], [-4, -5, -6], [7, 8, 9], [0, 0, 0], [1, 1, 1]] }"#;

const MOVED: &[u8] =
    br#"{"type":"CityJSONFeature","id":"a","CityObjects":{"a":{"type":"Road"}},"vertices":[[11,22,33],[6,15,24],[17,28,39],[10,20,30],[11,21,31]]}"#;

/// Whether this is the line of a feature.
fn is_line(
    rt: &(impl AllocGlobal + Eprint),
    feature: &Feature,
    text: &[u8],
) -> Result<bool, Fault> {
    match line(rt.alloc(), feature) {
        Ok(line) => Ok(line.items() == text),
        Err(fault) => refused(rt, Call("line"), fault),
    }
}

/// Whether a feature's line comes to this after such a shift.
fn is_moved(
    rt: &(impl AllocGlobal + Eprint),
    text: &[u8],
    shift: Option<Shift>,
    moved: &[u8],
) -> Result<bool, Fault> {
    let shift = shift.ok_or(Fault::ShiftRange)?;
    match feature(rt.alloc(), read(rt.alloc(), text)?) {
        Ok(taken) => is_line(rt, &shifted(rt.alloc(), taken, shift)?, moved),
        Err(fault) => refused(rt, Call("feature"), fault),
    }
}

/// Features, how far they are moved in x, and what they come to.
const FEATURES: [(&str, i64, &str); 3] = [
    (
        r#"{"type":"CityJSONFeature","id":"b","CityObjects":{},"vertices":[[10,20,30]]}"#,
        1500,
        r#"{"type":"CityJSONFeature","id":"b","CityObjects":{},"vertices":[[1510,20,30]]}"#,
    ),
    (
        r#"{"type":"CityJSONFeature","id":"b","CityObjects":{},"vertices":[[9007199254740991,0,0]]}"#,
        -1,
        r#"{"type":"CityJSONFeature","id":"b","CityObjects":{},"vertices":[[9007199254740990,0,0]]}"#,
    ),
    (
        r#"{"type":"CityJSONFeature","id":"b","CityObjects":{},"vertices":[[-0,0,0]]}"#,
        0,
        r#"{"type":"CityJSONFeature","id":"b","CityObjects":{},"vertices":[[0,0,0]]}"#,
    ),
];

/// Others, how far they are moved in x, and why they are refused.
const NO_FEATURES: [(&str, i64, Fault); 7] = [
    (
        r#"{"type":"CityJSONFeature","id":"b","CityObjects":{},"vertices":[[9007199254740991,0,0]]}"#,
        1,
        Fault::VertexRange,
    ),
    (
        r#"{"type":"CityJSONFeature","id":"b","CityObjects":{},"vertices":[[1.0,0,0]]}"#,
        0,
        Fault::VertexNotInteger,
    ),
    (
        r#"{"type":"CityJSONFeature","id":"b","CityObjects":{},"vertices":[[1e2,0,0]]}"#,
        0,
        Fault::VertexNotInteger,
    ),
    (
        r#"{"type":"CityJSONFeature","id":"b","CityObjects":{},"vertices":[[1,2]]}"#,
        0,
        Fault::VertexShape,
    ),
    (
        r#"{"type":"CityJSONFeature","id":"b","CityObjects":{},"vertices":[["1",2,3]]}"#,
        0,
        Fault::VertexShape,
    ),
    (
        r#"{"type":"CityJSONFeature","id":"b","CityObjects":{},"vertices":[[9007199254740992,0,0]]}"#,
        0,
        Fault::VertexRange,
    ),
    (HEADER, 0, Fault::NotAFeature),
];

fn features_are_moved(rt: &(impl AllocGlobal + Eprint)) -> Result<bool, Fault> {
    for (text, x, moved) in FEATURES.iter() {
        let shift = Shift::new(*x, 0, 0);
        if !is_moved(rt, text.as_bytes(), shift, moved.as_bytes())? {
            return Ok(false);
        }
    }
    is_moved(rt, SPACED, Shift::new(10, 20, 30), MOVED)
}

fn features_are_refused(rt: &(impl AllocGlobal + Eprint)) -> Result<bool, Fault> {
    for (text, x, fault) in NO_FEATURES.iter() {
        let answer = is_moved(rt, text.as_bytes(), Shift::new(*x, 0, 0), b"");
        if !is_fault(answer, *fault)? {
            return Ok(false);
        }
    }
    Ok(true)
}

/// A choice of roads and bridges, by a copy of it.
fn choice_of(alloc: Global) -> Result<Choice, Fault> {
    let names = types(
        alloc,
        "Bridge,Road,A type whose name is longer than a short text",
    )?;
    Choice::new(names, area("0,0,20,30"), false).copy(alloc)
}

/// Its last vertex is at fault, which its compact text says, or the reading of its value.
const FAULTY: &[u8] =
    br#"{ "type": "CityJSONFeature", "id": "a", "CityObjects": {"a": {"type": "Road"}}, "vertices": [[1, 2, 3], [-4, -5, -6], [7, 8, 9], [1.0, 0, 0]] }"#;

/// Whether a line is chosen when it is moved by the shift, with this text, wherever it stands.
fn gives(
    rt: &(impl AllocGlobal + Eprint),
    bytes: &[u8],
    shift: Option<Shift>,
    moved: &[u8],
) -> Result<bool, Fault> {
    let choice = choice_of(rt.alloc())?;
    let shift = shift.ok_or(Fault::ShiftRange)?;
    let mut workspace = Workspace::new(rt.alloc(), Line::new(rt.alloc()));
    let mut text = Line::new(rt.alloc());
    match feature_text(rt.alloc(), bytes, shift, &choice, &mut workspace, &mut text) {
        Ok(Some(place)) => Ok(place.bytes(bytes, &text) == moved),
        Ok(None) => Ok(false),
        Err(fault) => refused(rt, Call("feature_text"), fault),
    }
}

fn texts_stay_or_are_written(rt: &(impl AllocGlobal + Eprint)) -> Result<bool, Fault> {
    let none = Shift::new(0, 0, 0);
    let is_refused = is_fault(gives(rt, FAULTY, none, b""), Fault::VertexNotInteger)?;
    let stays = gives(rt, MOVED, none, MOVED)?;
    Ok(is_refused && stays && gives(rt, SPACED, Shift::new(10, 20, 30), MOVED)?)
}

/// Vertices are taken up to the first that is at fault, and its fault is told.
fn vertices_are_taken(rt: &(impl AllocGlobal + Eprint)) -> Result<bool, Fault> {
    let text = b"[[1,2,3],[7,8,123456789012345678901234567890]]";
    let mut vertices: Vec<Vertex> = Vec::new(rt.alloc());
    match take_vertices(rt.alloc(), text, &mut vertices) {
        Ok(()) => Ok(false),
        Err(Fault::VertexRange) => Ok(vertices.len() == 1),
        Err(fault) => refused(rt, Call("take_vertices"), fault),
    }
}

/// What a feature has before an end that others share is moved and given.
fn own_part_is_given(rt: &(impl AllocGlobal + Eprint)) -> Result<bool, Fault> {
    let choice = choice_of(rt.alloc())?;
    let shift = Shift::new(10, 20, 30).ok_or(Fault::ShiftRange)?;
    let mut buffers = OwnBuffers::new(rt.alloc());
    let own =
        br#"{"type":"CityJSONFeature","id":"a","CityObjects":{"a":{"type":"Road"}},"vertices":[[1,2,3]]"#;
    let moved =
        br#"{"type":"CityJSONFeature","id":"a","CityObjects":{"a":{"type":"Road"}},"vertices":[[11,22,33]]"#;
    let mut line = Line::new(rt.alloc());
    line.append(own)?;
    match own_text(rt.alloc(), &mut line, shift, &choice, &mut buffers) {
        Ok(Some(text)) => Ok(text.items() == moved.as_slice()),
        Ok(None) => Ok(false),
        Err(fault) => refused(rt, Call("own_text"), fault),
    }
}

/// Whether it is told that one is given.
fn own_part_is_wanted(rt: &(impl AllocGlobal + Eprint)) -> Result<bool, Fault> {
    let choice = choice_of(rt.alloc())?;
    let shift = Shift::new(10, 20, 30).ok_or(Fault::ShiftRange)?;
    let mut buffers = OwnBuffers::new(rt.alloc());
    let own =
        br#"{"type":"CityJSONFeature","id":"a","CityObjects":{"a":{"type":"Road"}},"vertices":[[1,2,3]]"#;
    let mut line = Line::new(rt.alloc());
    line.append(own)?;
    match own_is_wanted(rt.alloc(), &mut line, shift, &choice, &mut buffers) {
        Ok(is) => Ok(is),
        Err(fault) => refused(rt, Call("own_is_wanted"), fault),
    }
}

/// Whether so many names stand between the commas, none where one is empty.
fn are_types(
    rt: &(impl AllocGlobal + Eprint),
    text: &str,
    count: Option<usize>,
) -> Result<bool, Fault> {
    match types(rt.alloc(), text) {
        Ok(Some(names)) => Ok(count == Some(names.items().len())),
        Ok(None) => Ok(count.is_none()),
        Err(fault) => refused(rt, Call("types"), fault),
    }
}

fn types_are_read(rt: &(impl AllocGlobal + Eprint)) -> Result<bool, Fault> {
    Ok(
        are_types(rt, "Building", Some(1))?
            && are_types(rt, "Building,Bridge", Some(2))?
            && are_types(
                rt,
                "A type whose name is longer than a short text,B",
                Some(2),
            )?
            && are_types(rt, "A,,B", None)?,
    )
}

fn feature_of(alloc: Global, text: &[u8]) -> Result<Feature, Fault> {
    feature(alloc, read(alloc, text)?)
}

/// Whether a choice selects the feature of this text.
fn is_selected(alloc: Global, choice: &Choice, text: &[u8]) -> Result<bool, Fault> {
    Ok(selects(choice, &feature_of(alloc, text)?))
}

/// Whether a choice selects the road alone, or the building alone.
fn selects_road(alloc: Global, choice: &Choice, is_road: bool) -> Result<bool, Fault> {
    Ok(
        is_selected(alloc, choice, MOVED)? == is_road
            && is_selected(alloc, choice, A.as_bytes())? != is_road,
    )
}

fn is_copied(
    rt: &(impl AllocGlobal + Eprint),
    choice: &Choice,
    is_road: bool,
) -> Result<bool, Fault> {
    match choice.copy(rt.alloc()) {
        Ok(copy) => selects_road(rt.alloc(), &copy, is_road),
        Err(fault) => refused(rt, Call("Choice::copy"), fault),
    }
}

/// A copy of a choice selects what the choice does.
fn choice_is_copied(rt: &(impl AllocGlobal + Eprint), exclude: bool) -> Result<bool, Fault> {
    let names = types(
        rt.alloc(),
        "Road,A type whose name is longer than a short text",
    )?;
    is_copied(
        rt,
        &Choice::new(names, area("10,10,20,20"), exclude),
        !exclude,
    )
}

fn choices_are_copied(rt: &(impl AllocGlobal + Eprint)) -> Result<bool, Fault> {
    Ok(choice_is_copied(rt, false)? && choice_is_copied(rt, true)?)
}

/// Whether these are the header and the building of the document.
fn are_cut(
    rt: &(impl AllocGlobal + Eprint),
    header: &Json,
    features: &[Feature],
) -> Result<bool, Fault> {
    let [building] = features else {
        return Ok(false);
    };
    Ok(
        is_printed(rt.alloc(), header, HEADER.as_bytes())?
            && is_line(rt, building, BUILDING.as_bytes())?,
    )
}

fn is_cut(rt: &(impl AllocGlobal + Eprint), text: &str) -> Result<bool, Fault> {
    match cut(rt.alloc(), read(rt.alloc(), text.as_bytes())?) {
        Ok(found) => are_cut(rt, found.header.json(), found.features.items()),
        Err(fault) => refused(rt, Call("cut"), fault),
    }
}

fn documents_are_cut(rt: &(impl AllocGlobal + Eprint)) -> Result<bool, Fault> {
    Ok(
        is_cut(rt, DOCUMENT)?
            && is_fault(is_cut(rt, CHILDLESS), Fault::ChildMissing)?
            && is_fault(is_cut(rt, ORPHANED), Fault::Orphan)?
            && is_fault(is_cut(rt, UNBOUNDED), Fault::BoundaryIndex)?,
    )
}

/// Whether this is the only text, that of the building.
fn is_building(alloc: Global, texts: &mut FeatureTexts) -> Result<bool, Fault> {
    if texts.len() != 1 {
        return Ok(false);
    }
    let mut text = Line::new(alloc);
    texts.append_own(alloc, 0, &mut text)?;
    text.append(texts.common())?;
    Ok(text.items() == BUILDING.as_bytes())
}

fn are_cut_texts(alloc: Global, found: &mut CutTexts) -> Result<bool, Fault> {
    Ok(
        is_building(alloc, &mut found.texts)?
            && is_printed(alloc, found.header.json(), HEADER.as_bytes())?,
    )
}

fn document_is_cut_into_texts(rt: &(impl AllocGlobal + Eprint)) -> Result<bool, Fault> {
    match cut_texts(rt.alloc(), read(rt.alloc(), DOCUMENT.as_bytes())?) {
        Ok(mut found) => are_cut_texts(rt.alloc(), &mut found),
        Err(fault) => refused(rt, Call("cut_texts"), fault),
    }
}

/// The document, cut on its compact text.
fn cut_at_once(rt: &(impl AllocGlobal + Eprint), text: &[u8]) -> Result<CutTexts, Fault> {
    let mut workspace = Workspace::new(rt.alloc(), Line::new(rt.alloc()));
    let Ok(Some(found)) = compact_object(rt.alloc(), text, &mut workspace) else {
        wanted(rt, Call("compact_object"));
        return Err(Fault::Memory);
    };
    let document = found.text(text, &workspace.line);
    let Some(told) = cut_known(rt.alloc(), &document, found.triples) else {
        wanted(rt, Call("cut_known"));
        return Err(Fault::Memory);
    };
    told
}

fn document_is_cut_at_once(rt: &(impl AllocGlobal + Eprint)) -> Result<bool, Fault> {
    let mut found = cut_at_once(rt, DOCUMENT.as_bytes())?;
    are_cut_texts(rt.alloc(), &mut found)
}

/// A document in which two objects name each other, and each of its texts.
const SHARED: &str =
    r#"{"type":"CityJSON","version":"2.0","transform":{"scale":[1,1,1],"translate":[0,0,0]},"appearance":{"materials":[]},"CityObjects":{"a":{"children":["b"],"geometry":[{"boundaries":[1]}]},"b":{"children":["a"]}},"vertices":[[0,0,0],[1,1,1]]}"#;

const OF_SHARED: [&str; 2] = [
    r#"{"type":"CityJSONFeature","id":"a","CityObjects":{"a":{"children":["b"],"geometry":[{"boundaries":[0]}]},"b":{"children":["a"]}},"vertices":[[1,1,1]],"appearance":{"materials":[]}}"#,
    r#"{"type":"CityJSONFeature","id":"b","CityObjects":{"a":{"children":["b"],"geometry":[{"boundaries":[0]}]},"b":{"children":["a"]}},"vertices":[[1,1,1]],"appearance":{"materials":[]}}"#,
];

/// Whether the texts are those of the objects that name each other.
fn are_shared(alloc: Global, texts: &mut FeatureTexts) -> Result<bool, Fault> {
    if texts.len() != OF_SHARED.len() {
        return Ok(false);
    }
    for at in 0..OF_SHARED.len() {
        if at >= texts.len() {
            return Ok(false);
        }
        let mut text = Line::new(alloc);
        texts.append_own(alloc, at, &mut text)?;
        text.append(texts.common())?;
        if text.items() != OF_SHARED[at].as_bytes() {
            return Ok(false);
        }
    }
    Ok(true)
}

fn shared_objects_are_cut_into_texts(rt: &(impl AllocGlobal + Eprint)) -> Result<bool, Fault> {
    match cut_texts(rt.alloc(), read(rt.alloc(), SHARED.as_bytes())?) {
        Ok(mut found) => are_shared(rt.alloc(), &mut found.texts),
        Err(fault) => refused(rt, Call("cut_texts"), fault),
    }
}

fn shared_objects_are_cut_at_once(rt: &(impl AllocGlobal + Eprint)) -> Result<bool, Fault> {
    let mut found = cut_at_once(rt, SHARED.as_bytes())?;
    are_shared(rt.alloc(), &mut found.texts)
}

#[test]
fn vertices_headers_features_and_documents(rt: HostRuntime) -> Result<(), Fault> {
    expect!(rt; vertices_are_written(&rt));
    expect!(rt; member_is_set(&rt));
    expect!(rt; headers_are_joined(&rt));
    expect!(rt; headers_are_not_joined(&rt));
    expect!(rt; features_are_moved(&rt));
    expect!(rt; features_are_refused(&rt));
    expect!(rt; texts_stay_or_are_written(&rt));
    expect!(rt; vertices_are_taken(&rt));
    expect!(rt; own_part_is_given(&rt));
    expect!(rt; own_part_is_wanted(&rt));
    expect!(rt; types_are_read(&rt));
    expect!(rt; choices_are_copied(&rt));
    expect!(rt; documents_are_cut(&rt));
    expect!(rt; document_is_cut_into_texts(&rt));
    expect!(rt; document_is_cut_at_once(&rt));
    expect!(rt; shared_objects_are_cut_into_texts(&rt));
    expect!(rt; shared_objects_are_cut_at_once(&rt));
    Ok(())
}
