//! Objects that are in more than one family, or in none.
use crate::answers::{cut_on_its_text, expect_answers, is_answered, is_left};
use crate::texts::{cut_text, expect, filled, texts_are, with_repeated};
use byte_streams::Fault;
use std::alloc::{AllocError, Global};

/// City objects of a document with four vertices.
const OBJECTS: &str = r#"HEAD,"CityObjects":ROW,"vertices":POINTS}"#;

const OF_OBJECTS: &str = r#"HEAD,"CityObjects":{},"vertices":[]}ROW"#;

/// Chains, in which each object names the next one as its child, and no object a parent: in the order of the document and
/// against it; two that name each other; one that names itself and another; a child of the children of two; what is
/// reached from the second alone.
const SHARED: &str =
    r#"{"a":{"children":["b"],"geometry":[{"boundaries":[3]}]},"b":{"children":["c"],"geometry":[{"boundaries":[2,3]}]},"c":{"geometry":[{"boundaries":[1,2]}]}} =>  {"type":"CityJSONFeature","id":"a","CityObjects":{"a":{"children":["b"],"geometry":[{"boundaries":[0]}]},"b":{"children":["c"],"geometry":[{"boundaries":[1,0]}]},"c":{"geometry":[{"boundaries":[2,1]}]}},"vertices":[[3,3,3],[2,2,2],[1,1,1]]} {"type":"CityJSONFeature","id":"b","CityObjects":{"b":{"children":["c"],"geometry":[{"boundaries":[0,1]}]},"c":{"geometry":[{"boundaries":[2,0]}]}},"vertices":[[2,2,2],[3,3,3],[1,1,1]]} {"type":"CityJSONFeature","id":"c","CityObjects":{"c":{"geometry":[{"boundaries":[0,1]}]}},"vertices":[[1,1,1],[2,2,2]]}
{"c":{"geometry":[{"boundaries":[1,2]}]},"b":{"children":["c"]},"a":{"children":["b"],"geometry":[{"boundaries":[2,3]}]}} =>  {"type":"CityJSONFeature","id":"c","CityObjects":{"c":{"geometry":[{"boundaries":[0,1]}]}},"vertices":[[1,1,1],[2,2,2]]} {"type":"CityJSONFeature","id":"b","CityObjects":{"c":{"geometry":[{"boundaries":[0,1]}]},"b":{"children":["c"]}},"vertices":[[1,1,1],[2,2,2]]} {"type":"CityJSONFeature","id":"a","CityObjects":{"c":{"geometry":[{"boundaries":[0,1]}]},"b":{"children":["c"]},"a":{"children":["b"],"geometry":[{"boundaries":[1,2]}]}},"vertices":[[1,1,1],[2,2,2],[3,3,3]]}
{"a":{"children":["b"]},"b":{"children":["a"]}} =>  {"type":"CityJSONFeature","id":"a","CityObjects":{"a":{"children":["b"]},"b":{"children":["a"]}},"vertices":[]} {"type":"CityJSONFeature","id":"b","CityObjects":{"a":{"children":["b"]},"b":{"children":["a"]}},"vertices":[]}
{"a":{"children":["a","b"]},"b":{}} =>  {"type":"CityJSONFeature","id":"a","CityObjects":{"a":{"children":["a","b"]},"b":{}},"vertices":[]} {"type":"CityJSONFeature","id":"b","CityObjects":{"b":{}},"vertices":[]}
{"a":{"children":["p"]},"b":{"children":["q"]},"p":{"parents":["a"],"children":["s"]},"q":{"parents":["b"],"children":["s"]},"s":{"parents":["p"],"geometry":[{"boundaries":[1]}]}} =>  {"type":"CityJSONFeature","id":"a","CityObjects":{"a":{"children":["p"]},"p":{"parents":["a"],"children":["s"]},"s":{"parents":["p"],"geometry":[{"boundaries":[0]}]}},"vertices":[[1,1,1]]} {"type":"CityJSONFeature","id":"b","CityObjects":{"b":{"children":["q"]},"q":{"parents":["b"],"children":["s"]},"s":{"parents":["p"],"geometry":[{"boundaries":[0]}]}},"vertices":[[1,1,1]]}
{"a":{},"b":{"children":["c"]},"c":{"parents":["b"]}} =>  {"type":"CityJSONFeature","id":"a","CityObjects":{"a":{}},"vertices":[]} {"type":"CityJSONFeature","id":"b","CityObjects":{"b":{"children":["c"]},"c":{"parents":["b"]}},"vertices":[]}"#;

/// The same objects alone.
const ANSWERED: &str =
    r#"{"a":{"children":["b"],"geometry":[{"boundaries":[3]}]},"b":{"children":["c"],"geometry":[{"boundaries":[2,3]}]},"c":{"geometry":[{"boundaries":[1,2]}]}}
{"c":{"geometry":[{"boundaries":[1,2]}]},"b":{"children":["c"]},"a":{"children":["b"],"geometry":[{"boundaries":[2,3]}]}}
{"a":{"children":["b"]},"b":{"children":["a"]}}
{"a":{"children":["a","b"]},"b":{}}
{"a":{"children":["b","b"]},"b":{"parents":["a"]}}
{"a":{"children":["p"]},"b":{"children":["q"]},"p":{"parents":["a"],"children":["s"]},"q":{"parents":["b"],"children":["s"]},"s":{"parents":["p"],"geometry":[{"boundaries":[1]}],"address":[{"location":{"boundaries":[0,1]}}]}}
{"a":{},"b":{"children":["c"]},"c":{"parents":["b"]}}"#;

#[test]
fn objects_stand_in_each_of_their_families(rt: HostRuntime) {
    expect(&rt, OBJECTS, OF_OBJECTS, SHARED);
    expect_answers(&rt, OBJECTS, ANSWERED);
}

/// A chain of five, the middle one without boundaries; two groups with one building; an address before the geometries of the
/// object that both name, and after them, and one alone; vertices that objects of two families name in different order; and
/// names with escapes.
const MADE: &str =
    r#"{"a":{"children":["b"],"geometry":[{"boundaries":[3]}]},"b":{"children":["c"],"geometry":[{"boundaries":[[1],[3]]}]},"c":{"children":["d"]},"d":{"children":["e"],"geometry":[{"boundaries":[0,1]}]},"e":{"geometry":[{"boundaries":[]},{"boundaries":[2,0]}]}} =>  {"type":"CityJSONFeature","id":"a","CityObjects":{"a":{"children":["b"],"geometry":[{"boundaries":[0]}]},"b":{"children":["c"],"geometry":[{"boundaries":[[1],[0]]}]},"c":{"children":["d"]},"d":{"children":["e"],"geometry":[{"boundaries":[2,1]}]},"e":{"geometry":[{"boundaries":[]},{"boundaries":[3,2]}]}},"vertices":[[3,3,3],[1,1,1],[0,0,0],[2,2,2]]} {"type":"CityJSONFeature","id":"b","CityObjects":{"b":{"children":["c"],"geometry":[{"boundaries":[[0],[1]]}]},"c":{"children":["d"]},"d":{"children":["e"],"geometry":[{"boundaries":[2,0]}]},"e":{"geometry":[{"boundaries":[]},{"boundaries":[3,2]}]}},"vertices":[[1,1,1],[3,3,3],[0,0,0],[2,2,2]]} {"type":"CityJSONFeature","id":"c","CityObjects":{"c":{"children":["d"]},"d":{"children":["e"],"geometry":[{"boundaries":[0,1]}]},"e":{"geometry":[{"boundaries":[]},{"boundaries":[2,0]}]}},"vertices":[[0,0,0],[1,1,1],[2,2,2]]} {"type":"CityJSONFeature","id":"d","CityObjects":{"d":{"children":["e"],"geometry":[{"boundaries":[0,1]}]},"e":{"geometry":[{"boundaries":[]},{"boundaries":[2,0]}]}},"vertices":[[0,0,0],[1,1,1],[2,2,2]]} {"type":"CityJSONFeature","id":"e","CityObjects":{"e":{"geometry":[{"boundaries":[]},{"boundaries":[0,1]}]}},"vertices":[[2,2,2],[0,0,0]]}
{"g":{"type":"CityObjectGroup","children":["x","s"]},"h":{"type":"CityObjectGroup","children":["s","y"]},"x":{"parents":["g"],"geometry":[{"boundaries":[0]}]},"s":{"parents":["g","h"],"geometry":[{"boundaries":[2,1]}]},"y":{"parents":["h"],"geometry":[{"boundaries":[1,3]}]}} =>  {"type":"CityJSONFeature","id":"g","CityObjects":{"g":{"type":"CityObjectGroup","children":["x","s"]},"x":{"parents":["g"],"geometry":[{"boundaries":[0]}]},"s":{"parents":["g","h"],"geometry":[{"boundaries":[1,2]}]}},"vertices":[[0,0,0],[2,2,2],[1,1,1]]} {"type":"CityJSONFeature","id":"h","CityObjects":{"h":{"type":"CityObjectGroup","children":["s","y"]},"s":{"parents":["g","h"],"geometry":[{"boundaries":[0,1]}]},"y":{"parents":["h"],"geometry":[{"boundaries":[1,2]}]}},"vertices":[[2,2,2],[1,1,1],[3,3,3]]}
{"a":{"children":["s"]},"b":{"children":["s"],"geometry":[{"boundaries":[2]}]},"s":{"parents":["a","b"],"address":[{"location":{"boundaries":[3,1]}}],"geometry":[{"boundaries":[1,0]}]}} =>  {"type":"CityJSONFeature","id":"a","CityObjects":{"a":{"children":["s"]},"s":{"parents":["a","b"],"address":[{"location":{"boundaries":[2,0]}}],"geometry":[{"boundaries":[0,1]}]}},"vertices":[[1,1,1],[0,0,0],[3,3,3]]} {"type":"CityJSONFeature","id":"b","CityObjects":{"b":{"children":["s"],"geometry":[{"boundaries":[0]}]},"s":{"parents":["a","b"],"address":[{"location":{"boundaries":[3,1]}}],"geometry":[{"boundaries":[1,2]}]}},"vertices":[[2,2,2],[1,1,1],[0,0,0],[3,3,3]]}
{"a":{"children":["s"],"address":[{"location":{"boundaries":[1]}}]},"b":{"children":["s"]},"s":{"parents":["a"],"geometry":[{"boundaries":[3]}],"address":[{"location":{"boundaries":[2,3]}}]}} =>  {"type":"CityJSONFeature","id":"a","CityObjects":{"a":{"children":["s"],"address":[{"location":{"boundaries":[0]}}]},"s":{"parents":["a"],"geometry":[{"boundaries":[1]}],"address":[{"location":{"boundaries":[2,1]}}]}},"vertices":[[1,1,1],[3,3,3],[2,2,2]]} {"type":"CityJSONFeature","id":"b","CityObjects":{"b":{"children":["s"]},"s":{"parents":["a"],"geometry":[{"boundaries":[0]}],"address":[{"location":{"boundaries":[1,0]}}]}},"vertices":[[3,3,3],[2,2,2]]}
{"a":{"children":["c"],"geometry":[{"boundaries":[1,2]}]},"b":{"geometry":[{"boundaries":[2,1]}],"children":["c"]},"c":{"parents":["b","a"],"geometry":[{"boundaries":[1]},{"boundaries":[[2,3]]}]}} =>  {"type":"CityJSONFeature","id":"a","CityObjects":{"a":{"children":["c"],"geometry":[{"boundaries":[0,1]}]},"c":{"parents":["b","a"],"geometry":[{"boundaries":[0]},{"boundaries":[[1,2]]}]}},"vertices":[[1,1,1],[2,2,2],[3,3,3]]} {"type":"CityJSONFeature","id":"b","CityObjects":{"b":{"geometry":[{"boundaries":[0,1]}],"children":["c"]},"c":{"parents":["b","a"],"geometry":[{"boundaries":[1]},{"boundaries":[[0,2]]}]}},"vertices":[[2,2,2],[1,1,1],[3,3,3]]}
{"\n\"":{"children":["s"]},"é":{"children":["s"]},"s":{"parents":["é"],"geometry":[{"boundaries":[1]}]}} =>  {"type":"CityJSONFeature","id":"\n\"","CityObjects":{"\n\"":{"children":["s"]},"s":{"parents":["é"],"geometry":[{"boundaries":[0]}]}},"vertices":[[1,1,1]]} {"type":"CityJSONFeature","id":"é","CityObjects":{"é":{"children":["s"]},"s":{"parents":["é"],"geometry":[{"boundaries":[0]}]}},"vertices":[[1,1,1]]}"#;

#[test]
fn features_are_made_of_objects_that_they_share(rt: HostRuntime) {
    expect(&rt, OBJECTS, OF_OBJECTS, MADE);
    for row in MADE.lines() {
        assert!(rt; is_given_answered(rt.alloc(), row) == Ok(true), "{row}");
    }
}

/// Whether the cut on the text answers with texts that are made when they are asked for, so that little is held.
fn are_made(alloc: Global, document: &str) -> bool {
    match cut_on_its_text(alloc, document.as_bytes()) {
        Some(cut) => cut.texts.is_made(),
        None => false,
    }
}

/// Whether the cut on the text answers what the row gives, with texts that are made.
fn is_given_answered(alloc: Global, row: &str) -> Result<bool, AllocError> {
    let Some((given, _)) = row.split_once(" => ") else {
        return Ok(false);
    };
    let document = filled(alloc, OBJECTS, given)?;
    Ok(is_answered(alloc, &document) && are_made(alloc, &document))
}

/// Twenty features that name all vertices, whose texts are longer together than what is held of such.
const ALL_VERTICES: &str = r#"HEAD,"CityObjects":{"o":{}OBJECTS},"vertices":VERTICES}"#;

const OF_ALL_VERTICES: &str =
    r#"HEAD,"CityObjects":{},"vertices":[]} {"type":"CityJSONFeature","id":"o","CityObjects":{"o":{}},"vertices":[]}FEATURES"#;

const LONG_VERTICES: &str =
    "[[9007199254740991,-9007199254740991,9007199254740990],[9007199254740991,-9007199254740991,9007199254740989],[9007199254740991,-9007199254740991,9007199254740988],[9007199254740991,-9007199254740991,9007199254740987],[9007199254740991,-9007199254740991,9007199254740986],[9007199254740991,-9007199254740991,9007199254740985],[9007199254740991,-9007199254740991,9007199254740984],[9007199254740991,-9007199254740991,9007199254740983]]";

/// Whether each feature has all vertices, also where the cut on the text answers.
fn are_all_vertices_kept(alloc: Global) -> Result<bool, AllocError> {
    let object = r#","oNUMBER":{"geometry":[{"boundaries":[0,1,2,3,4,5,6,7]}]}"#;
    let feature =
        r#" {"type":"CityJSONFeature","id":"oNUMBER","CityObjects":{"oNUMBER":{"geometry":[{"boundaries":[0,1,2,3,4,5,6,7]}]}},"vertices":VERTICES}"#;
    let given = with_repeated(alloc, ALL_VERTICES, "OBJECTS", object, 20)?;
    let wanted = with_repeated(alloc, OF_ALL_VERTICES, "FEATURES", feature, 20)?;
    let given = filled(alloc, &given.replace(alloc, "VERTICES", LONG_VERTICES)?, "")?;
    let wanted = filled(
        alloc,
        &wanted.replace(alloc, "VERTICES", LONG_VERTICES)?,
        "",
    )?;
    let is_kept = texts_are(alloc, &given, wanted.as_bytes(), None) && is_answered(alloc, &given);
    Ok(is_kept && are_made(alloc, &given))
}

#[test]
fn features_are_made_where_they_share_their_vertices(rt: HostRuntime) {
    assert!(rt; are_all_vertices_kept(rt.alloc()) == Ok(true));
}

/// A wrong index at the end of a chain; an object in no family, before it and after it; a child that is not there.
const REFUSED: &str =
    r#"{"a":{"children":["b"]},"b":{"children":["c"]},"c":{"geometry":[{"boundaries":[4]}]}} => BoundaryIndex
{"a":{"children":["b"]},"b":{"children":["c"]},"c":{"geometry":[{"boundaries":[3,-0]}]}} => BoundaryIndex
{"a":{"children":["b"]},"b":{"children":["c"]},"c":{"address":[{"location":{"boundaries":[[0],4]}}]}} => BoundaryIndex
{"c":{"geometry":{}},"b":{"children":["c"]},"a":{"children":["b"]}} => BoundaryIndex
{"a":{"children":["b"]},"b":{"children":["a"]},"o":{"parents":["a"]}} => Orphan
{"o":{"parents":["a"],"children":["a"]},"a":{"children":["b"]},"b":{"children":["a"]}} => Orphan
{"a":{"children":["b"]},"b":{"children":["a"]},"o":{"parents":["o"],"children":["o"]},"c":{}} => Orphan
{"a":{"children":["b"]},"b":{"children":["c"]},"o":{"parents":["a"]},"c":{"geometry":[{"boundaries":[4]}]}} => Orphan
{"c":{"geometry":[{"boundaries":[4]}]},"b":{"children":["c"]},"a":{"children":["b"]},"o":{"parents":["a"]}} => Orphan
{"a":{"children":["b"]},"b":{"children":["d"]},"o":{"parents":["a"]},"c":{"geometry":[{"boundaries":[4]}]}} => ChildMissing
{"a":{"children":["b"]},"b":{"children":["a"]},"o":{"parents":["a"],"children":["d"]}} => ChildMissing"#;

#[test]
fn faults_of_shared_objects_come_in_their_order(rt: HostRuntime) {
    expect(&rt, OBJECTS, "ROW", REFUSED);
    for row in REFUSED.lines() {
        assert!(rt; is_left(rt.alloc(), OBJECTS, row) == Ok(true), "{row}");
    }
}

/// A link of a chain, whose number stands for `NUMBER`, and the one before for `LAST`, with other members for `MEMBERS`.
const LINK: &str = r#","oNUMBER":{"children":["oLAST"],MEMBERS}"#;

fn put_link(
    text: &mut String,
    alloc: Global,
    number: u32,
    members: &str,
) -> Result<(), AllocError> {
    let link = LINK.replace(alloc, "NUMBER", &format!(in alloc; "{number}")?)?;
    let last = number.wrapping_sub(1);
    let link = link.replace(alloc, "LAST", &format!(in alloc; "{last}")?)?;
    text.push_str(&link.replace(alloc, "MEMBERS", members)?)
}

/// A chain of objects, each with the one before as its child, the last of this number, which has these members and is in
/// no family but its own.
fn chain(alloc: Global, count: u32, members: &str) -> Result<String, AllocError> {
    let mut text = String::new(alloc);
    text.push_str(r#""o0":{}"#)?;
    for number in 1..count {
        put_link(&mut text, alloc, number, r#""attributes":{"height":3.5}"#)?;
    }
    put_link(&mut text, alloc, count, members)?;
    Ok(text)
}

/// Whether the chain is refused for its last boundary, by each way.
fn is_chain_refused(alloc: Global, document: &str) -> bool {
    cut_on_its_text(alloc, document.as_bytes()).is_none()
        && cut_text(alloc, document).err() == Some(Fault::BoundaryIndex)
}

fn is_long_chain_refused(alloc: Global) -> Result<bool, AllocError> {
    let links = chain(alloc, 20000, r#""geometry":[{"boundaries":[3,4]}]"#)?;
    let document = filled(
        alloc,
        r#"HEAD,"CityObjects":{ROW},"vertices":POINTS}"#,
        &links,
    )?;
    Ok(is_chain_refused(alloc, &document))
}

/// All families of this chain have some two hundred million members, and the last of them alone is at fault.
#[test]
fn families_of_a_refused_document_are_not_listed(rt: HostRuntime) {
    assert!(rt; is_long_chain_refused(rt.alloc()) == Ok(true));
}
