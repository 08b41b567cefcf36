//! Documents that the cut on the text answers, with the texts of the cut by value.
ghost use Rattle.std.specs.Prelude.{IfSome};
ghost use Rattle.city_json.specs.Parts.{AreParts};
ghost use Rattle.city_json.specs.Tree.{MemberTrees, object};
ghost use Rattle.city_json.specs.Triples.{HasTriples};
ghost use Rattle.city_json.specs.CompactTexts.{IsCompactOf};

use crate::texts::{expect, filled, put_texts, repeated, texts_are, with_repeated};
use byte_streams::Line;
use city_cut::CutTexts;
use city_json::{MemberPlace, ObjectText, Span, Workspace, compact_object};
use cut_on_text::{cut_known, triples_text};
use std::alloc::{AllocError, AllocGlobal, Global};
use std::process::Abort;

fn is_plain(alloc: Global, cut: &mut CutTexts, document: &str) -> bool {
    let mut stream = Line::new(alloc);
    put_texts(&mut stream, alloc, cut).is_ok() && texts_are(alloc, document, stream.items(), None)
}

/// A document in its compact text, the place of each of its members in it, and the triples that are noted in it.
#[derive(Drop)]
pub(crate) struct DocumentText {
    pub(crate) line: Line,
    pub(crate) parts: Vec<MemberPlace>,
    pub(crate) triples: Span,
}

/// The document in its compact text, in which its triples are noted.
pub(crate) fn given(alloc: Global, document: &str) -> Option<DocumentText>
    ensures { IfSome result (λ given. (members : MemberTrees) × IsCompactOf given.line (object members)
        × AreParts 1 given.parts.items members × HasTriples given.line given.triples) }
{
    compact_document(alloc, document.as_bytes())
}

fn compact_document(alloc: Global, text: &[u8]) -> Option<DocumentText>
    ensures { IfSome result (λ given. (members : MemberTrees) × IsCompactOf given.line (object members)
        × AreParts 1 given.parts.items members × HasTriples given.line given.triples) }
{
    let mut workspace = Workspace::new(alloc, Line::new(alloc));
    let Ok(Some(object)) = compact_object(alloc, text, &mut workspace) else {
        return None;
    };
    let Workspace { mut line, .. } = workspace;
    let Ok(_) = object.place.copy_to_buffer(text, &mut line) else {
        return None;
    };
    Some(DocumentText {
        line,
        parts: object.parts,
        triples: object.triples,
    })
}

/// The document, cut on its compact text, in which these triples are known.
fn known_cut(alloc: Global, document: &ObjectText<'_>, triples: Span) -> Option<CutTexts>
    requires { HasTriples document.now.text triples }
{
    cut_known(alloc, document, triples)?.ok()
}

/// The document, cut on its compact text where that stands. `None`: it is refused, or out of memory.
pub(crate) fn cut_on_its_text(alloc: Global, text: &[u8]) -> Option<CutTexts> {
    let mut workspace = Workspace::new(alloc, Line::new(alloc));
    let Ok(Some(found)) = compact_object(alloc, text, &mut workspace) else {
        return None;
    };
    let document = found.text(text, &workspace.line);
    known_cut(alloc, &document, found.triples)
}

/// The document, cut where its compact text is known, and nothing of its triples.
fn compacted_cut(alloc: Global, document: &str) -> Option<CutTexts> {
    let given = given(alloc, document)?;
    let document = ObjectText::new(given.line.items(), &given.parts);
    known_cut(alloc, &document, Span { from: 0, end: 0 })
}

/// The document, cut where its triples are known.
fn given_cut(alloc: Global, document: &str) -> Option<CutTexts> {
    let given = given(alloc, document)?;
    let document = ObjectText::new(given.line.items(), &given.parts);
    known_cut(alloc, &document, given.triples)
}

fn is_some_plain(alloc: Global, answer: Option<CutTexts>, document: &str) -> bool {
    match answer {
        Some(mut cut) => is_plain(alloc, &mut cut, document),
        None => false,
    }
}

/// Whether the cut on the text answers the document with the texts of the cut by value, also where its compact text is known, and
/// where its triples are.
pub(crate) fn is_answered(alloc: Global, document: &str) -> bool {
    is_some_plain(alloc, cut_on_its_text(alloc, document.as_bytes()), document)
        && is_some_plain(alloc, compacted_cut(alloc, document), document)
        && is_some_plain(alloc, given_cut(alloc, document), document)
}

/// The same of a form, in which the row stands for `ROW`.
fn is_row_answered(alloc: Global, form: &str, row: &str) -> Result<bool, AllocError> {
    Ok(is_answered(alloc, &filled(alloc, form, row)?))
}

pub(crate) fn expect_answers(rt: &(impl Abort + AllocGlobal), form: &str, table: &str) {
    for row in table.lines() {
        assert!(rt; is_row_answered(rt.alloc(), form, row) == Ok(true), "{row}");
    }
}

/// City objects.
const OBJECTS: &str = r#""a":{"type":"Building"}
"a":{"type":"Building","geometry":[]}
"a":{"type":"Building","geometry":[{"type":"MultiSurface","lod":"2","boundaries":[[[0,2,1]],[[2,3,0]]]}]}
"a":{"type":"Building","children":["b"],"geometry":[{"type":"MultiPoint","boundaries":[3]},{"boundaries":[1,3]}]},"b":{"type":"BuildingPart","parents":["a"],"geometry":[{"type":"MultiPoint","boundaries":[3,0]}]}
"b":{"parents":["a"],"type":"BuildingPart"},"a":{"children":["b"],"type":"Building"}
"a":{"type":"Building","children":[],"parents":[],"attributes":{"name":"\u00e9 \"x\"","n":[1,[2]]}}
 "a" : { "type" : "Building" , "geometry" : [ { "boundaries" : [ [ 0 , 1 ] ] } ] } "#;

/// Other members.
const MEMBERS: &str = r#""appearance":{"materials":[]},
"metadata":{"title":"t"},"+extra":[1,2],
"geometry-templates":{"templates":[]},"appearance":{"textures":[]},
"appearance":{"vertices-texture":[[0.0,1e0],[2,-0]]},"geometry-templates":{"templates":[{"appearance":1}]},
"appearance":[{"x":[[[]],[1]]},"geometry-templates"],"+geometry-templates":{"templates":[]},
"Geometry-templates":1,"appearance":"\"geometry-templates\":","geometry-templates\"":2,"#;

const WITH_MEMBERS: &str =
    r#"HEAD,ROW"vertices":POINTS,"CityObjects":{"a":{"type":"Building","geometry":[{"boundaries":[[1,0]]}]}}}"#;

/// Vertices, and what they are named by.
const VERTICES: &str = "[[-0,0,0],[1,1,1],[2,2,2],[3,3,3]]
[[1,2,3],[1,-0,1],[-2,-2,-0],[-0,-0,-0]]
[[0,0,0],[9007199254740991,0,-0],[2,2,2],[-9007199254740991,10,-10]]
[[9007199254740991,-9007199254740991,9007199254740990],[1234567890,123456789,123456789],[1234567890,1234567890,123456789],[-1,0,1]]
 [ [ 1 , -0 , 2 ] , [0,0,0],[0,0,0],[0,0,0],[-0 , 1,1 ] ] ";

const WITH_VERTICES: &str =
    r#"HEAD,"CityObjects":{"a":{"type":"Building","geometry":[{"boundaries":[[3,0],[2,1]]}]},"b":{"geometry":[{"boundaries":[1]}]}},"vertices":ROW}"#;

/// Documents without city objects or vertices; the first has no further members.
const BARE: &str = r#"
,"vertices":[[0,0,0],[-0,1,1]]
,"CityObjects":{}
,"metadata":{"title":"t"},"appearance":{"textures":[]}
,"CityObjects":{"a":{"type":"Building","geometry":[]},"b":{}},"appearance":{"materials":[]}
,"CityObjects":{"a":{"children":["b"],"geometry":[{"type":"MultiSurface","boundaries":[[],[[]]]}]},"b":{"parents":["a"],"address":[{"location":{"boundaries":[]}}]}}
,"geometry-templates":{"templates":[]},"appearance":{},"vertices":[]"#;

/// City objects and vertices in either order, alone, and with members in front of them, between them and after them.
const ORDERS: &str = r#","CityObjects":{"a":{"geometry":[{"boundaries":[3,0]}]}},"vertices":POINTS
,"vertices":POINTS,"CityObjects":{"a":{"geometry":[{"boundaries":[3,0]}]}}
,"metadata":{"CityObjects":{"z":1},"vertices":[9]},"CityObjects":{"a":{"vertices":[8]}},"+b":[1],"vertices":POINTS,"+c":{"x":1.50}
,"+b":"\"vertices\":","vertices":POINTS,"metadata":{"CityObjects":{}},"+c":[{"vertices":2}],"CityObjects":{"a":{"geometry":[{"boundaries":[2]}]}},"+d":null
,"CityObjects":{"CityObjects":{},"vertices":{"geometry":[{"boundaries":[1]}]}},"appearance":{"vertices-texture":[[0.5,1]]},"vertices":POINTS
,"vertices":POINTS,"geometry-templates":{"templates":[],"vertices-templates":[[1,2,3]]},"CityObjects":{},"appearance":{}
,"+b":[[1,2,3]],"vertices":POINTS,"+c":[[4,5,6],[7,8,9]],"CityObjects":{"a":{"geometry":[{"boundaries":[3,0]}]}}
,"+b":2,"CityObjects":{"a":{}},"+c":3
,"+b":2,"vertices":POINTS,"+c":3
,"cityObjects":{"a":1},"Vertices":[9],"CityObjects\"":0,"vertices\":":1"#;

/// Rare spellings.
const RARE: &str =
    r#""Ci\u0074yObjects":{"a":{"\u0067eometry":[{"bound\u0061ries":[3,0]}]}},"\u0076ertices":[[0,0,0],[1,1,1],[2,2,2],[3,3,3]]
"CityObjects":{"\u0061\/":{"chil\u0064ren":["\ud83d\ude00","a/"]},"😀":{"parents":["a\u002f"],"address":[{"loc\u0061tion":{"boundaries":[0]}}]}},"vertices":[[5,6,7]]
"CityObjects":{"":{"parents":[],"attributes":{"":1e400,"n":-0.0,"N":1E+2,"t":true,"f":false,"z":null}},"\u0000":{}},"vertices":[]"#;

/// Geometries with other members, in a document with extensions, templates and an appearance.
const GEOMETRIES: &str =
    r#"{"type":"MultiSurface","lod":"2","boundaries":[[[0,2,1]],[[2,3,0]]],"semantics":{"surfaces":[{"type":"WallSurface","parent":1},{"type":"RoofSurface","children":[0]}],"values":[0,null]}}
{"type":"MultiSurface","texture":{"t":{"values":[[[0,10,23,22,21]],[[null]]]}},"boundaries":[[[3,2,1]],[[2,3,0]]],"material":{"m":{"value":0}}}
{"type":"Solid","lod":"2.2","boundaries":[[[[0,3,2,1]],[[1,2,3]]],[[[0,1,2]]]]}
{"type":"MultiSolid","boundaries":[[[[[0,3,2]]]],[[[[1,2,3]]]]]}
{"type":"GeometryInstance","template":0,"boundaries":[2],"transformationMatrix":[2.0,0.0,0,0,0,1e0,0,0,0,0,1,-1,0,0,0,1]}
{"type":"MultiLineString","boundaries":[[1,0],[]],"+own":{"boundaries":[[9]],"geometry":null}}
{"type":"MultiPoint"},{"boundaries":[]},{"boundaries":[3,3]}"#;

const WITH_GEOMETRIES: &str =
    r#"HEAD,"extensions":{"Own":{"url":"u","version":"1"}},"geometry-templates":{"templates":[{"type":"MultiPoint","boundaries":[0]}],"vertices-templates":[[0.5,1,1e3]]},"+more":{"a":"\ud83d\ude00"},"CityObjects":{"p":{"type":"BuildingPart","parents":["a"],"geometry":[ROW]},"a":{"+ext":{"location":1},"type":"+Own","children":["p"],"geometry":[ROW, ROW]}},"appearance":{"materials":[{"name":"m"}]},
"vertices" : POINTS}"#;

#[test]
fn valid_documents_are_answered(rt: HostRuntime) {
    expect_answers(
        &rt,
        r#"HEAD,"CityObjects":{ROW},"vertices":POINTS}"#,
        OBJECTS,
    );
    expect_answers(&rt, WITH_MEMBERS, MEMBERS);
    expect_answers(&rt, WITH_VERTICES, VERTICES);
    expect_answers(&rt, "HEADROW}", BARE);
    expect_answers(&rt, "HEADROW}", ORDERS);
    expect_answers(&rt, "\r\n\t HEAD,ROW} \n", RARE);
    expect_answers(&rt, WITH_GEOMETRIES, GEOMETRIES);
}

/// Objects and their children with addresses, where a geometry stands before or after them, or is empty, or where there
/// is none.
const WITH_ADDRESSES: &str =
    r#"HEAD,"CityObjects":{"a":{"address":ROW,"children":["b"]},"b":{"parents":["a"],"address":ROW}},"vertices":POINTS}
HEAD,"CityObjects":{"a":{"type":"Building","address":ROW,"geometry":[{"type":"MultiPoint","boundaries":[3,1]}],"children":["b"]},"b":{"parents":["a"],"type":"Building","address":ROW,"geometry":[{"type":"MultiPoint","boundaries":[3,1]}]}},"vertices":POINTS}
HEAD,"CityObjects":{"a":{"geometry":[{"type":"MultiPoint","boundaries":[3,1]}],"address":ROW,"children":["b"]},"b":{"parents":["a"],"geometry":[{"type":"MultiPoint","boundaries":[3,1]}],"address":ROW}},"vertices":POINTS}
HEAD,"CityObjects":{"a":{"geometry":[{"type":"MultiPoint","boundaries":[3,1]}],"attributes":{"address":[]},"address":ROW,"x":1,"children":["b"]},"b":{"parents":["a"],"geometry":[{"type":"MultiPoint","boundaries":[3,1]}],"attributes":{"address":[]},"address":ROW,"x":1}},"vertices":POINTS}
HEAD,"CityObjects":{"a":{"address":ROW,"attributes":{},"geometry":[],"x":1,"children":["b"]},"b":{"parents":["a"],"address":ROW,"attributes":{},"geometry":[],"x":1}},"vertices":POINTS}"#;

const ADDRESSES: &str = r#"[]
[{"Country":"NL"}]
[{"Country":"NL","location":{"type":"MultiPoint","lod":"1","boundaries":[2]}}]
[{"location":{"type":"MultiPoint","boundaries":[1,0]},"City":"a\n"},{},{"location":{"boundaries":[[2],3]}}]
[{"location":{"type":"MultiPoint"}}, {"City":"b"}]
{"location":{"type":"MultiPoint","boundaries":[0]}}
"none"
[1,"a",null,[{"location":{"boundaries":[9]}}],{"location":{"boundaries":[1]}},true]
[{"location":null},{"location":[{"boundaries":[9]}],"City":"c"},{"location":"a"},{"location":2.0}]"#;

#[test]
fn addresses_are_answered(rt: HostRuntime) {
    for form in WITH_ADDRESSES.lines() {
        expect_answers(&rt, form, ADDRESSES);
    }
}

const DEEP: &str =
    r#"HEAD,"CityObjects":{"a":{"geometry":[{"boundaries":[ROW3,0CLOSED]}],"attributes":{"deep":[[ROWCLOSED]]}}},"vertices":POINTS}"#;

fn is_deep_answered(alloc: Global) -> Result<bool, AllocError> {
    let form = DEEP.replace(alloc, "CLOSED", &"]".repeat(alloc, 122)?)?;
    is_row_answered(alloc, &form, &"[".repeat(alloc, 122)?)
}

/// Many objects and as many vertices.
const LONG: &str =
    r#"HEAD,"CityObjects":{PAIRS"last":{"children":[]}},"vertices":[[0,0,0],[1,1,1],[2,2,2],[3,3,3]VERTICES]}"#;

/// An object with many attributes, and its part.
const PAIR: &str =
    r#""oNUMBER":{ROW"address":[{"location":{"boundaries":[NUMBER,2]}}],"geometry":[{"boundaries":[2,3,NUMBER,2]}],"children":["pNUMBER"]},"pNUMBER":{"parents":["oNUMBER"],"attributes":{"b":[NUMBER]},"geometry":[{"boundaries":[[[1,NUMBER,1]]]}]},"#;

fn is_long_answered(alloc: Global) -> Result<bool, AllocError> {
    let form = with_repeated(alloc, LONG, "PAIRS", PAIR, 150)?;
    let form = with_repeated(alloc, &form, "VERTICES", ",[NUMBER,7,NUMBER]", 150)?;
    is_row_answered(
        alloc,
        &form,
        &repeated(alloc, r#""aNUMBER":"NUMBER","#, 70)?,
    )
}

#[test]
fn deep_and_long_documents_are_answered(rt: HostRuntime) {
    assert!(rt; is_deep_answered(rt.alloc()) == Ok(true));
    assert!(rt; is_long_answered(rt.alloc()) == Ok(true));
}

/// Numbers of one digit to fifteen, with signs and without, after which stands the number of their vertex.
const LENGTHS: &str =
    ",[NUMBER,1NUMBER,-12NUMBER],[-123NUMBER,1234NUMBER,-12345NUMBER],[123456NUMBER,-1234567NUMBER,12345678NUMBER],[-123456789NUMBER,1234567890NUMBER,-12345678901NUMBER],[-1234567890123NUMBER,123456789012NUMBER,1234567890123NUMBER]";

/// Short ones, so many that they end anywhere in a block of bytes. In two rows some are no triples of short numbers: the
/// first -0, and those of sixteen digits.
const SHORTEST: &str = ",[0,0,0]
,[0,NUMBER,0]
,[-1,-NUMBER,1]
,[9007199254740991,NUMBER,-1]";

const WITH_USES: &str =
    r#"HEAD,"CityObjects":{"a":{"geometry":[{"boundaries":[USES0]}]},"b":{"geometry":[{"boundaries":[1,0]}]}},"+b":[[1,2,3]],"vertices":[[0,0,0]ROW]}"#;

/// Whether a document is answered that has these vertices so many times, with the numbers from 0 on for `NUMBER`, and
/// uses as many of them.
fn are_vertices_answered(
    alloc: Global,
    vertices: &str,
    count: u32,
    uses: u32,
) -> Result<bool, AllocError> {
    let form = with_repeated(alloc, WITH_USES, "USES", "NUMBER,", uses)?;
    is_row_answered(alloc, &form, &repeated(alloc, vertices, count)?)
}

#[test]
fn vertices_of_all_lengths_are_answered(rt: HostRuntime) {
    for count in 1u32..24 {
        assert!(rt;
            are_vertices_answered(rt.alloc(), LENGTHS, count, count * 5 + 1) == Ok(true),
            "{count}"
        );
    }
}

#[test]
fn vertices_of_all_counts_are_answered(rt: HostRuntime) {
    for vertices in SHORTEST.lines() {
        for count in 1u32..40 {
            assert!(rt;
                are_vertices_answered(rt.alloc(), vertices, count, count + 1) == Ok(true),
                "{count} {vertices}"
            );
        }
    }
}

/// City objects and triples that are no vertices, which stand before the vertices, or after them.
const BESIDE_TRIPLES: &str =
    r#"HEAD,"+b":[[1,2,3],[4,5,6]],"CityObjects":{"a":{"geometry":[{"boundaries":USES}]}},"vertices":ROW}
HEAD,"CityObjects":{"a":{"geometry":[{"boundaries":USES}]}},"vertices":ROW,"+b":[[1,2,3],[4,5,6]]}
HEAD,"vertices":ROW,"+b":[[1,2,3],[4,5,6]],"CityObjects":{"a":{"geometry":[{"boundaries":USES}]}}}"#;

/// Vertices of which the two first are named: triples, and others.
const TWO: &str = "[[7,8,9],[-10,11,12]]
[[-0,8,9],[10,11,12]]
[[7,8,9],[10,-0,12],[13,14,15]]
[[7,8,9],[9007199254740991,11,-9007199254740991]]
[ [ 7 , 8 , 9 ] , [ 10 , 11 , -0 ] ]";

/// Vertices of which none is named.
const UNNAMED: &str = "[]
[ ]
[[-0,-0,-0]]
[[7,8,9]]";

/// What are no vertices.
const FAULTY: &str = "[[1,2]] => VertexShape
[[7,8,9],[1,2,3,4]] => VertexShape
[7,8,9] => VertexShape
[[7,8,9],[]] => VertexShape
[[7,8,9.0]] => VertexNotInteger
[[7,8,9],[1e0,2,3]] => VertexNotInteger
[[7,8,9],[1,2,9007199254740992]] => VertexRange
{} => NotCityJson";

/// Whether no cut on the text answers this document.
pub(crate) fn is_left(alloc: Global, form: &str, row: &str) -> Result<bool, AllocError> {
    let document = filled(alloc, form, split(row))?;
    Ok(
        cut_on_its_text(alloc, document.as_bytes()).is_none()
            && compacted_cut(alloc, &document).is_none()
            && given_cut(alloc, &document).is_none(),
    )
}

/// What stands before the arrow of a row.
fn split(row: &str) -> &str {
    match row.split_once(" => ") {
        Some((given, _)) => given,
        None => row,
    }
}

fn expect_left(rt: &(impl Abort + AllocGlobal), form: &str) {
    expect(rt, form, "ROW", FAULTY);
    for row in FAULTY.lines() {
        assert!(rt; is_left(rt.alloc(), form, row) == Ok(true), "{row}");
    }
}

#[test]
fn other_triples_are_no_vertices(rt: HostRuntime) -> Result<(), AllocError> {
    for form in BESIDE_TRIPLES.lines() {
        expect_answers(&rt, &form.replace(rt.alloc(), "USES", "[1,0]")?, TWO);
        let form = form.replace(rt.alloc(), "USES", "[]")?;
        expect_answers(&rt, &form, UNNAMED);
        expect_left(&rt, &form);
    }
    Ok(())
}

/// Documents whose vertices are the last triples of them.
const LAST_TRIPLES: &str = r#"HEAD,"CityObjects":{},"vertices":ROW}
HEAD,"vertices":ROW,"CityObjects":{}}
HEAD,"+b":[[1,2,3],[4,5,6]],"CityObjects":{"a":{}},"vertices":ROW,"+c":[1,2]}"#;

/// Vertices that are triples, as they are written.
const TRIPLES: &str = "[[1,2,3]]
[[0,0,0],[-40,50,60]]
[[123456789012345,-123456789012345,0],[1,2,3],[100000,200000,300000],[4,5,6]]";

/// Whether the vertices of a document are told to be triples, and are this text.
fn are_told(alloc: Global, document: &str, vertices: &str) -> Option<bool> {
    let given = given(alloc, document)?;
    let document = ObjectText::new(given.line.items(), &given.parts);
    let found = triples_text(&document, given.triples)?;
    Some(found == vertices.as_bytes())
}

fn are_vertices_told(alloc: Global, form: &str, vertices: &str) -> Result<bool, AllocError> {
    let document = filled(alloc, form, vertices)?;
    Ok(are_told(alloc, &document, vertices) == Some(true))
}

/// Else each document would be cut by the way that looks at each number.
#[test]
fn vertices_are_told_to_be_triples(rt: HostRuntime) {
    for form in LAST_TRIPLES.lines() {
        for vertices in TRIPLES.lines() {
            assert!(rt;
                are_vertices_told(rt.alloc(), form, vertices) == Ok(true),
                "{form} {vertices}"
            );
        }
    }
}

fn has_triples(feature: &DocumentText) -> bool {
    feature.triples.from < feature.triples.end
}

fn are_triples_known(alloc: Global) -> Result<bool, AllocError> {
    let document = filled(alloc, WITH_VERTICES, "[[1,2,3],[-40,50,60]]")?;
    Ok(match given(alloc, &document) {
        Some(feature) => has_triples(&feature),
        None => false,
    })
}

#[test]
fn triples_of_a_document_are_known(rt: HostRuntime) {
    assert!(rt; are_triples_known(rt.alloc()) == Ok(true));
}
