//! Tiles of which the first line is a document, merged in turn and with threads, and filtered.

use crate::interleaving::expect_both_ways;
use crate::merging::{
    Asked, PLAIN, choice_of, expect_table, split_at_arrow, stream_of, told_fault,
};
use byte_streams::{Bin, Fault, Line, MergeFault, Tape};
use city_feature::{Base, Choice};
use std::alloc::{AllocError, AllocGlobal, Global};
use std::process::Abort;
use tile_stream::filter_stream;

/// The features of one of these types.
pub(crate) fn of_types(types: &'static str) -> Asked {
    Asked { types, ..PLAIN }
}

const IN_AREA: Asked = Asked {
    types: "",
    area: "1520,0,1520,0",
    exclude: false,
    base: Base::First,
};

const LEAST: Asked = Asked {
    types: "",
    area: "",
    exclude: false,
    base: Base::Least,
};

fn told(alloc: Global, answer: Result<u64, MergeFault>) -> Result<String, AllocError> {
    match answer {
        Ok(count) => format!(in alloc; "{count}"),
        Err(refused) => told_fault(alloc, &refused),
    }
}

fn is_told(alloc: Global, answer: Result<u64, MergeFault>, wanted: &str) -> bool {
    match told(alloc, answer) {
        Ok(text) => text.as_str() == wanted,
        Err(_) => false,
    }
}

/// Whether a tile, of which the reader fails at its end where it is to, is filtered so at so many bytes a read and a write.
fn filters_at(
    alloc: Global,
    choice: &Choice,
    (input, fails, step): (&[u8], bool, usize),
    (written, answer): (&[u8], &str),
) -> Result<bool, Fault> {
    let tape = Tape::new(Line::from_vec(input.to_vec(alloc)?), step.max(1), fails);
    let mut output = Bin::new(alloc, 16_384, step, false)?;
    let filtered = filter_stream(alloc, tape, choice, &mut output);
    Ok(output.bytes() == written && is_told(alloc, filtered, answer))
}

/// The same at few and at many bytes a read and a write.
fn filters(
    alloc: Global,
    asked: &Asked,
    input: (&[u8], bool),
    wanted: (&[u8], &str),
) -> Result<bool, Fault> {
    let choice = choice_of(alloc, asked)?;
    let mut agree = true;
    for step in [1usize, 7, 100_000] {
        agree = agree && filters_at(alloc, &choice, (input.0, input.1, step), wanted) == Ok(true);
    }
    Ok(agree)
}

/// Whether the line of a table holds: the texts of a tile, those that are written, and the answer.
fn is_filtered(alloc: Global, asked: &Asked, line: &str, fails: bool) -> Result<bool, Fault> {
    let (names, wanted) = split_at_arrow(line);
    let (written, answer) = split_at_arrow(wanted);
    let input = stream_of(alloc, names)?;
    let written = stream_of(alloc, written)?;
    filters(
        alloc,
        asked,
        (input.as_bytes(), fails),
        (written.as_bytes(), answer),
    )
}

/// Filters what the lines of a table tell.
fn expect_filters(rt: &(impl Abort + AllocGlobal), asked: &Asked, table: &str, fails: bool) {
    for line in table.lines() {
        let answer = is_filtered(rt.alloc(), asked, line, fails);
        assert!(rt; line.is_empty() || answer == Ok(true), "{line}");
    }
}

/// The features of a document stand before the lines after it; it may have none, or no vertices.
const FILTERED: &str = "
DOCUMENT A1 => HEADER BUILDING A1 => 2
EMPTY POINTS SPACE_RETURN A1 B1 => HEADER X Y Z A1 B1 => 5
DOCUMENT BUILDING BUILDING => HEADER BUILDING BUILDING BUILDING => 3
VERTEX_HEADER => HEADER => 0
VERTEX_ALONE_HEADER A1 => NO_VERTEX_HEADER A1 => 1
BARE_DOCUMENT A1 => BARE_HEADER BARE A1 => 2
SHADED_DOCUMENT A1 => EXTENT_HEADER SHADED A1 => 2
SHADED_POINTS A1 => HEADER SHADED_X SHADED_Y SHADED_Z A1 => 4
TEMPLATES_POINTS => SHADED_TEMPLATES_HEADER SHADED_X SHADED_Y SHADED_Z => 3
CHAIN A1 => HEADER CHAIN_A CHAIN_B CHAIN_C A1 => 4
";

/// The road alone is chosen, with the appearance.
const FILTERED_ROADS: &str = "
POINTS A1 Y => HEADER Y Y => 2
SHADED_POINTS A1 Y => HEADER SHADED_Y Y => 2
TEMPLATES_POINTS => SHADED_TEMPLATES_HEADER SHADED_Y => 1
CHAIN A1 Y => HEADER CHAIN_B Y => 2
";

/// Of a document of which nothing is chosen its header is written.
const FILTERED_BRIDGES: &str = "
POINTS A1 => HEADER => 0
SHADED_POINTS A1 => HEADER => 0
CHAIN A1 => HEADER CHAIN_C => 1
";

/// A document alone is cut where it stands first, and what is faulty after it leaves its features written.
const FAULTY_LINES: &str = "
HEADER A1 DOCUMENT B1 => HEADER A1 => tile 1 line 3: NotAFeature
POINTS A1 CUT B1 => HEADER X Y Z A1 => tile 1 line 3: Syntax
";

/// A faulty document leaves nothing written.
const FAULTY: &str = "
CHILDLESS_DOCUMENT A1 =>  => tile 1 line 1: ChildMissing
EMPTY TAB CHILDLESS_DOCUMENT =>  => tile 1 line 3: ChildMissing
ORPHANED_DOCUMENT A1 =>  => tile 1 line 1: Orphan
EMPTY TAB ORPHANED_DOCUMENT =>  => tile 1 line 3: Orphan
UNBOUNDED_DOCUMENT A1 =>  => tile 1 line 1: BoundaryIndex
EMPTY TAB UNBOUNDED_DOCUMENT =>  => tile 1 line 3: BoundaryIndex
FLAT_DOCUMENT A1 =>  => tile 1 line 1: VertexShape
EMPTY TAB FLAT_DOCUMENT =>  => tile 1 line 3: VertexShape
HALF_DOCUMENT A1 =>  => tile 1 line 1: VertexNotInteger
EMPTY TAB HALF_DOCUMENT =>  => tile 1 line 3: VertexNotInteger
WIDE_DOCUMENT A1 =>  => tile 1 line 1: VertexRange
EMPTY TAB WIDE_DOCUMENT =>  => tile 1 line 3: VertexRange
SHAPELESS_DOCUMENT A1 =>  => tile 1 line 1: NotCityJson
EMPTY TAB SHAPELESS_DOCUMENT =>  => tile 1 line 3: NotCityJson
FAULTY_DOCUMENT A1 =>  => tile 1 line 1: VertexShape
EMPTY TAB FAULTY_DOCUMENT =>  => tile 1 line 3: VertexShape
";

#[test]
fn documents_are_filtered(rt: HostRuntime) {
    expect_filters(&rt, &PLAIN, FILTERED, false);
    expect_filters(&rt, &PLAIN, FAULTY_LINES, false);
    expect_filters(&rt, &PLAIN, FAULTY, false);
    expect_filters(&rt, &of_types("Road"), FILTERED_ROADS, false);
    expect_filters(&rt, &of_types("Bridge"), FILTERED_BRIDGES, false);
    expect_filters(
        &rt,
        &PLAIN,
        "POINTS => HEADER X Y Z => tile 1 line 2: Read",
        true,
    );
}

/// Whether a document of which a text is spelled in another way is filtered so.
fn spelled_is_filtered(
    alloc: Global,
    (old, new): (&str, &str),
    written: &str,
    answer: &str,
) -> Result<bool, Fault> {
    let stream = stream_of(alloc, "DOCUMENT A1")?;
    let input = stream.replace(alloc, old, new)?;
    let written = stream_of(alloc, written)?;
    filters(
        alloc,
        &PLAIN,
        (input.as_bytes(), false),
        (written.as_bytes(), answer),
    )
}

/// What is spelled otherwise, and how.
const SPELLED: [(&str, &str); 3] = [
    (",", " ,\t"),
    ("\"Building\"", "\"\\u0042uilding\""),
    ("\"vertices\":[[0", "\"vertices\" : [[-0"),
];

#[test]
fn a_document_may_be_spelled_in_any_way(rt: HostRuntime) {
    for spelling in SPELLED.iter() {
        let answer = spelled_is_filtered(rt.alloc(), *spelling, "HEADER BUILDING A1", "2");
        assert!(rt; answer == Ok(true), "{}", spelling.0);
    }
    let answer = spelled_is_filtered(rt.alloc(), ("2.0", "1.1"), "", "tile 1 line 1: Version");
    assert!(rt; answer == Ok(true));
}

/// Documents take turns with other lines. They are put on the grid of the first tile, and may have no features.
const MERGED: &str = "
POINTS A1 | HEADER B1 C1 | DOCUMENT => HEADER X B1 BUILDING Y C1 Z A1 => [4, 2, 1] => X Y Z A1 | B1 C1 | BUILDING
HEADER | FAR_DOCUMENT => HEADER FAR_BUILDING => [0, 1] =>  | FAR_BUILDING
HEADER A1 | POINTS X Y Z => HEADER A1 X Y Z X Y Z => [1, 6] => A1 | X Y Z X Y Z
VERTEX_HEADER | HEADER A1 | VERTEX_HEADER B1 => HEADER A1 B1 => [0, 1, 1] =>  | A1 | B1
VERTEX_ALONE_HEADER A1 | VERTEX_ALONE_HEADER B1 => NO_VERTEX_HEADER A1 B1 => [1, 1] => A1 | B1
HEADER A1 | SHADED_FAR_POINTS => HEADER A1 SHADED_FAR_X SHADED_FAR_Y SHADED_FAR_Z => [1, 3] => A1 | SHADED_FAR_X SHADED_FAR_Y SHADED_FAR_Z
HEADER A1 B1 | ONE_CHAIN => HEADER A1 ONE_CHAIN_A B1 ONE_CHAIN_B ONE_CHAIN_C => [2, 3] => A1 B1 | ONE_CHAIN_A ONE_CHAIN_B ONE_CHAIN_C
CHAIN | SHADED_ONE_CHAIN => HEADER CHAIN_A SHADED_ONE_CHAIN_A CHAIN_B SHADED_ONE_CHAIN_B CHAIN_C SHADED_ONE_CHAIN_C => [3, 3] => CHAIN_A CHAIN_B CHAIN_C | SHADED_ONE_CHAIN_A SHADED_ONE_CHAIN_B SHADED_ONE_CHAIN_C
";

/// A document gives all of its features or none, and what is faulty after it leaves its features written.
const REFUSED: &str = "
HEADER A1 | LAST_DOCUMENT => HEADER A1 => tile 2 line 1: VertexRange => A1 |
HEADER A1 | SHADED_LAST_POINTS => HEADER A1 => tile 2 line 1: VertexRange => A1 |
HEADER A1 | LAST_CHAIN => HEADER A1 => tile 2 line 1: VertexRange => A1 |
HEADER A1 | EMPTY SPACE LAST_POINTS B1 { | HEADER C1 => HEADER A1 C1 => tile 2 line 3: VertexRange => A1 |  | C1
HEADER A1 B1 | POINTS C1 CUT => HEADER A1 X B1 Y Z C1 => tile 2 line 3: Syntax => A1 B1 | X Y Z C1
";

/// The second of three features of a document leaves the range, which tells, too, where it is not chosen.
const REFUSED_BUILDINGS: &str = "
HEADER A1 | EMPTY SPACE LAST_POINTS B1 { | HEADER C1 => HEADER A1 C1 => tile 2 line 3: VertexRange => A1 |  | C1
HEADER A1 | EMPTY SPACE SHADED_LAST_POINTS B1 { | HEADER C1 => HEADER A1 C1 => tile 2 line 3: VertexRange => A1 |  | C1
";

/// A faulty document leaves nothing merged.
const FAULTY_MERGES: &str = "
POINTS A1 | EMPTY CHILDLESS_DOCUMENT B1 | HEADER { =>  => tile 2 line 2: ChildMissing =>  |  |
POINTS A1 | EMPTY ORPHANED_DOCUMENT B1 | HEADER { =>  => tile 2 line 2: Orphan =>  |  |
POINTS A1 | EMPTY UNBOUNDED_DOCUMENT B1 | HEADER { =>  => tile 2 line 2: BoundaryIndex =>  |  |
POINTS A1 | EMPTY FLAT_DOCUMENT B1 | HEADER { =>  => tile 2 line 2: VertexShape =>  |  |
POINTS A1 | EMPTY HALF_DOCUMENT B1 | HEADER { =>  => tile 2 line 2: VertexNotInteger =>  |  |
POINTS A1 | EMPTY WIDE_DOCUMENT B1 | HEADER { =>  => tile 2 line 2: VertexRange =>  |  |
POINTS A1 | EMPTY SHAPELESS_DOCUMENT B1 | HEADER { =>  => tile 2 line 2: NotCityJson =>  |  |
POINTS A1 | EMPTY FAULTY_DOCUMENT B1 | HEADER { =>  => tile 2 line 2: VertexShape =>  |  |
";

/// Features are chosen as they are moved.
const CHOSEN: &str = "
POINTS | FAR_POINTS A1 => HEADER FAR_Y => [0, 1] =>  | FAR_Y
SHADED_POINTS | SHADED_FAR_POINTS A1 => HEADER SHADED_FAR_Y => [0, 1] =>  | SHADED_FAR_Y
";

/// A document of which nothing is chosen is passed over.
const ROADS: &str = "
DOCUMENT | POINTS | DOCUMENT A1 => HEADER Y => [0, 1, 0] =>  | Y |
SHADED_POINTS | DOCUMENT | SHADED_FAR_POINTS => HEADER SHADED_Y SHADED_FAR_Y => [1, 0, 1] => SHADED_Y |  | SHADED_FAR_Y
CHAIN | SHADED_ONE_CHAIN => HEADER CHAIN_B SHADED_ONE_CHAIN_B => [1, 1] => CHAIN_B | SHADED_ONE_CHAIN_B
";

/// The last of three features that share objects is chosen. What is not chosen tells, too, where it leaves the range; of a
/// vertex that no boundary names it does not matter.
const BRIDGES: &str = "
HEADER | ONE_CHAIN => HEADER ONE_CHAIN_C => [0, 1] =>  | ONE_CHAIN_C
HEADER | LAST_CHAIN => HEADER => tile 2 line 1: VertexRange =>  |
HEADER | UNUSED_LAST_CHAIN => HEADER NEXT_CHAIN_C => [0, 1] =>  | NEXT_CHAIN_C
";

#[test]
fn documents_are_merged(rt: HostRuntime) {
    for table in [MERGED, REFUSED, FAULTY_MERGES] {
        expect_both_ways(&rt, &PLAIN, table);
    }
    expect_both_ways(&rt, &of_types("Building"), REFUSED_BUILDINGS);
    expect_both_ways(&rt, &IN_AREA, CHOSEN);
    expect_both_ways(&rt, &of_types("Road"), ROADS);
    expect_both_ways(&rt, &of_types("Bridge"), BRIDGES);
}

/// The header of a document is that of its cut, and is joined as others are. Of a vertex that no boundary names it
/// does not matter where it lies.
const HEADERS: &str = "
HEADER A1 | UNUSED_LAST_DOCUMENT => HEADER A1 NEXT_BUILDING => [1, 1]
SHADED_DOCUMENT A1 | HEADER B1 => TITLE_HEADER SHADED B1 A1 => [2, 1]
SHADED_TEMPLATES_HEADER A1 | TEMPLATES_DOCUMENT => SHADED_TEMPLATES_HEADER A1 SHADED => [1, 1]
TEMPLATES_HEADER A1 | EMPTY TEMPLATES_DOCUMENT =>  => tile 2 line 2: TemplatesDiffer
";

/// Faulty documents are told before tiles that do not fit.
const UNFIT: &str = "
HEADER | HALF_HEADER | CHILDLESS_DOCUMENT =>  => tile 3 line 1: ChildMissing
DOCUMENT | CHILDLESS_DOCUMENT | OLD_HEADER =>  => tile 2 line 1: ChildMissing
";

#[test]
fn headers_of_documents_are_joined(rt: HostRuntime) {
    expect_table(&rt, &PLAIN, HEADERS);
    expect_table(&rt, &PLAIN, UNFIT);
    let least = "FAR_DOCUMENT | HEADER A => HEADER FAR_BUILDING A => [1, 1]";
    expect_table(&rt, &LEAST, least);
}
