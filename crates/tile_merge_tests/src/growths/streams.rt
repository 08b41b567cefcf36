//! Streams that are read, filtered and made of documents.

use crate::growths::tiles::{
    IN_PARTS, Tile, WHOLE, after_line, alone, are_given_up, bytes_of, lines_of, tape_of,
};
use byte_streams::{Bin, Fault, Line, LineFault, MergeFault, Tape};
use city_feature::{Choice, types};
use city_grid::Shift;
use city_json::{Json, print};
use document_stream::{cat_document, cat_source};
use growth_support::texts::{
    A1, A2, B1, BLANKS, BLANKS_CUT, BUILDING, CHAIN, CHAIN_A, CHAIN_B, CHAIN_C, CHILDLESS,
    DOCUMENT, EMPTY_A, EMPTY_B, FIRST, FIRST_FEATURE, HEADER, ORPHANED, POINTS, SHADED_POINTS,
    SHADED_X, SHADED_Y, UNBOUNDED, X, Y,
};
use growth_support::{Call, expect, is_fault, is_gone, refused, wanted};
use std::alloc::{AllocError, Global};
use std::io::Eprint;
use std::mem;
use tile_stream::{Lines, ReadyTexts, TileReader, filter_stream, filter_tile};

fn every_feature() -> Choice {
    Choice::new(None, None, false)
}

/// Whether the next line is this one.
fn is_next(lines: &mut Lines<Tape>, number: u64, text: &str) -> Result<bool, LineFault> {
    match lines.next()? {
        Some(line) => Ok(line.number == number && line.bytes.items() == text.as_bytes()),
        None => Ok(false),
    }
}

fn is_over(lines: &mut Lines<Tape>) -> Result<bool, LineFault> {
    Ok(lines.next()?.is_none())
}

/// Want of memory for this line, or for a blank part before it, is told again, where there is memory, too.
fn wants_again(
    rt: &(impl AllocGlobal + Eprint),
    lines: &mut Lines<Tape>,
    told: LineFault,
    number: u64,
) -> Result<bool, Fault> {
    if told.fault != Fault::Memory || told.line == 0 || told.line > number {
        return Ok(false);
    }
    wanted(rt, Call("Lines::next"));
    if is_over(lines) == Err(told) {
        Err(Fault::Memory)
    } else {
        Ok(false)
    }
}

/// Lines in order, each with its number, and then the end or a fault, which is told again.
fn lines_come(
    rt: &(impl AllocGlobal + Eprint),
    lines: &mut Lines<Tape>,
    texts: &[(u64, &str)],
    end: Option<LineFault>,
) -> Result<bool, Fault> {
    for (number, text) in texts.iter() {
        match is_next(lines, *number, text) {
            Ok(true) => {}
            Ok(false) => return Ok(false),
            Err(told) => return wants_again(rt, lines, told, *number),
        }
    }
    match is_over(lines) {
        Ok(is_over) => Ok(is_over && end.is_none()),
        Err(told) if end == Some(told) => Ok(is_over(lines) == Err(told)),
        Err(told) => wants_again(rt, lines, told, u64::MAX),
    }
}

fn whole_lines_come(rt: &(impl AllocGlobal + Eprint)) -> Result<bool, Fault> {
    let input = bytes_of(rt.alloc(), &[HEADER, A1, "", A2])?;
    let mut lines = Lines::new(rt.alloc(), tape_of(rt.alloc(), &input, IN_PARTS)?);
    lines_come(rt, &mut lines, &[(1, HEADER), (2, A1), (4, A2)], None)
}

/// Lines of at most four bytes, and tiles of at most ten.
fn short_lines_come(
    rt: &(impl AllocGlobal + Eprint),
    input: &str,
    texts: &[(u64, &str)],
    end: Option<LineFault>,
) -> Result<bool, Fault> {
    let tape = tape_of(rt.alloc(), input.as_bytes(), IN_PARTS)?;
    let mut lines = Lines::with_limits(rt.alloc(), tape, 4, 10);
    lines_come(rt, &mut lines, texts, end)
}

fn all_short_lines_come(rt: &(impl AllocGlobal + Eprint)) -> Result<bool, Fault> {
    let too_long = Some(LineFault {
        line: 2,
        fault: Fault::LineTooLong,
    });
    let tile_too_long = Some(LineFault {
        line: 3,
        fault: Fault::TileTooLong,
    });
    let texts = [(1u64, "ab"), (2, "abcd"), (3, "ab")];
    Ok(
        short_lines_come(rt, "ab\nabcde\n", &texts[..1], too_long)?
            && short_lines_come(rt, "ab\nabcd\nabc", &texts[..2], tile_too_long)?
            && short_lines_come(rt, "ab\nabcd\nab", &texts, None)?,
    )
}

/// What a filter answers of the first tile, and wrote: the header, and the texts of all features or of those before a
/// line.
fn is_answer(
    rt: &(impl AllocGlobal + Eprint),
    call: Call,
    answer: Result<u64, MergeFault>,
    written: &[u8],
    tiles: &[Tile<'_>; 3],
    comes: Result<u64, MergeFault>,
) -> Result<bool, Fault> {
    let is_gone = is_gone(rt.alloc());
    let counts = match after_line(written, HEADER) {
        Some(left) => lines_of(left, tiles),
        None => None,
    };
    if counts.is_none() && !written.is_empty() {
        return Ok(false);
    }
    match answer {
        Err(told) if told.fault == Fault::Memory => {
            wanted(rt, call);
            let is_so = told.tile == 1 && are_given_up(told, counts, tiles, is_gone);
            if is_so { Err(Fault::Memory) } else { Ok(false) }
        }
        _ => Ok(answer == comes && is_whole(counts, tiles[0].texts.len(), comes)),
    }
}

/// Whether all lines of a tile were written, or none where it has no header.
fn is_whole(counts: Option<[usize; 3]>, count: usize, comes: Result<u64, MergeFault>) -> bool {
    match comes {
        Err(told) if told.fault == Fault::NoHeader => counts.is_none(),
        _ => counts == Some([count, 0, 0]),
    }
}

fn stream_is_filtered(
    rt: &(impl AllocGlobal + Eprint),
    step: usize,
    input: &[u8],
    choice: &Choice,
    tiles: &[Tile<'_>; 3],
    comes: Result<u64, MergeFault>,
) -> Result<bool, Fault> {
    let mut output = Bin::new(rt.alloc(), 4096, 100, false)?;
    let reader = tape_of(rt.alloc(), input, step)?;
    let answer = filter_stream(rt.alloc(), reader, choice, &mut output);
    is_answer(
        rt,
        Call("filter_stream"),
        answer,
        output.bytes(),
        tiles,
        comes,
    )
}

fn tile_is_filtered(
    rt: &(impl AllocGlobal + Eprint),
    step: usize,
    input: &[u8],
    choice: &Choice,
    tiles: &[Tile<'_>; 3],
    comes: Result<u64, MergeFault>,
) -> Result<bool, Fault> {
    let mut output = Bin::new(rt.alloc(), 4096, 100, false)?;
    let mut reader = TileReader::new(rt.alloc(), tape_of(rt.alloc(), input, step)?);
    let answer = filter_tile(rt.alloc(), &mut reader, choice, &mut output);
    is_answer(
        rt,
        Call("filter_tile"),
        answer,
        output.bytes(),
        tiles,
        comes,
    )
}

/// A stream, the line of its header, what is written of it and what is answered.
fn is_filtered(
    rt: &(impl AllocGlobal + Eprint),
    step: usize,
    input: &[u8],
    header: u64,
    texts: &[(u64, &str)],
    comes: Result<u64, MergeFault>,
) -> Result<bool, Fault> {
    let (every, tiles) = (every_feature(), alone(header, texts));
    Ok(
        stream_is_filtered(rt, step, input, &every, &tiles, comes)?
            && tile_is_filtered(rt, step, input, &every, &tiles, comes)?,
    )
}

/// The same, where the filter is refused at this line.
fn filter_is_refused(
    rt: &(impl AllocGlobal + Eprint),
    step: usize,
    input: &[u8],
    header: u64,
    texts: &[(u64, &str)],
    line: u64,
    fault: Fault,
) -> Result<bool, Fault> {
    let told = MergeFault {
        tile: 1,
        line,
        fault,
    };
    is_filtered(rt, step, input, header, texts, Err(told))
}

/// Memory may be wanted at each part of such a stream, of which there is one, or three.
fn no_header_is_found(rt: &(impl AllocGlobal + Eprint), step: usize) -> Result<bool, Fault> {
    Ok(
        filter_is_refused(rt, step, b"", 1, &[], 0, Fault::NoHeader)?
            && filter_is_refused(rt, step, b"\n \t\r\n", 3, &[], 0, Fault::NoHeader)?,
    )
}

/// A feature with these vertices.
fn feature_of(alloc: Global, vertices: &str) -> Result<String, AllocError> {
    let text = r#"{"type":"CityJSONFeature","id":"a","CityObjects":{},"vertices":ROW}"#;
    text.replace(alloc, "ROW", vertices)
}

fn vertices_are_refused(
    rt: &(impl AllocGlobal + Eprint),
    step: usize,
    vertices: &str,
    fault: Fault,
) -> Result<bool, Fault> {
    let text = feature_of(rt.alloc(), vertices)?;
    let input = bytes_of(rt.alloc(), &[HEADER, &text])?;
    filter_is_refused(rt, step, &input, 1, &[], 2, fault)
}

/// Vertices, and why a feature that has them is refused.
const NO_VERTICES: [(&str, Fault); 5] = [
    ("[[1.0,0,0]]", Fault::VertexNotInteger),
    ("[[1e2,0,0]]", Fault::VertexNotInteger),
    ("[[1,2]]", Fault::VertexShape),
    ("[[\"1\",2,3]]", Fault::VertexShape),
    ("[[9007199254740992,0,0]]", Fault::VertexRange),
];

fn wrong_vertices_are_refused(
    rt: &(impl AllocGlobal + Eprint),
    step: usize,
) -> Result<bool, Fault> {
    for (vertices, fault) in NO_VERTICES.iter() {
        if !vertices_are_refused(rt, step, vertices, *fault)? {
            return Ok(false);
        }
    }
    Ok(true)
}

fn zero_has_no_sign(rt: &(impl AllocGlobal + Eprint), step: usize) -> Result<bool, Fault> {
    let text = feature_of(rt.alloc(), "[[-0,0,0]]")?;
    let written = feature_of(rt.alloc(), "[[0,0,0]]")?;
    let input = bytes_of(rt.alloc(), &[HEADER, &text])?;
    is_filtered(rt, step, &input, 1, &[(2, &written)], Ok(1))
}

fn blanks_are_passed_over(rt: &(impl AllocGlobal + Eprint), step: usize) -> Result<bool, Fault> {
    let texts = [(4u64, EMPTY_A), (5, EMPTY_B)];
    let is_refused = filter_is_refused(
        rt,
        step,
        BLANKS_CUT.as_bytes(),
        2,
        &texts[..1],
        5,
        Fault::Syntax,
    )?;
    Ok(is_refused && is_filtered(rt, step, BLANKS.as_bytes(), 2, &texts, Ok(2))?)
}

fn first_is_filtered(rt: &(impl AllocGlobal + Eprint), step: usize) -> Result<bool, Fault> {
    is_filtered(rt, step, FIRST.as_bytes(), 1, &[(2, FIRST_FEATURE)], Ok(1))
}

/// Features that are chosen, and one that is not.
fn features_are_chosen(rt: &(impl AllocGlobal + Eprint), step: usize) -> Result<bool, Fault> {
    let input = bytes_of(rt.alloc(), &[POINTS, A1, B1])?;
    let choice = choice_of(rt.alloc(), false)?;
    let tiles = alone(1, &[(1, X), (2, A1), (3, B1)]);
    stream_is_filtered(rt, step, &input, &choice, &tiles, Ok(3))
}

/// A document whose features all come of line 1.
fn document_is_filtered(rt: &(impl AllocGlobal + Eprint), step: usize) -> Result<bool, Fault> {
    let input = bytes_of(rt.alloc(), &[POINTS, A1])?;
    is_filtered(rt, step, &input, 1, &[(1, X), (1, Y), (2, A1)], Ok(3))
}

/// The same with an appearance, which its features share.
fn shaded_document_is_filtered(
    rt: &(impl AllocGlobal + Eprint),
    step: usize,
) -> Result<bool, Fault> {
    let input = bytes_of(rt.alloc(), &[SHADED_POINTS, A1])?;
    let wanted = [(1, SHADED_X), (1, SHADED_Y), (2, A1)];
    is_filtered(rt, step, &input, 1, &wanted, Ok(3))
}

/// A document whose features share objects, all of them and those that are chosen.
fn chain_is_filtered(rt: &(impl AllocGlobal + Eprint), step: usize) -> Result<bool, Fault> {
    let input = bytes_of(rt.alloc(), &[CHAIN, A1])?;
    let wanted = [(1, CHAIN_A), (1, CHAIN_B), (1, CHAIN_C), (2, A1)];
    let others = choice_of(rt.alloc(), true)?;
    let tiles = alone(1, &wanted[1..3]);
    Ok(
        is_filtered(rt, step, &input, 1, &wanted, Ok(4))?
            && stream_is_filtered(rt, step, &input, &others, &tiles, Ok(2))?,
    )
}

/// Want of memory of this call at this line, or a wrong answer.
fn is_refused(
    rt: &(impl AllocGlobal + Eprint),
    call: Call,
    told: LineFault,
    line: u64,
) -> Result<bool, Fault> {
    if (told.line, told.fault) == (line, Fault::Memory) {
        return refused(rt, call, Fault::Memory);
    }
    Ok(false)
}

/// Whether this is the compact text of a value.
fn is_printed(alloc: Global, value: &Json, text: &str) -> Result<bool, Fault> {
    let mut line = Line::new(alloc);
    print(value, &mut line)?;
    Ok(line.items() == text.as_bytes())
}

fn takes_head(
    rt: &(impl AllocGlobal + Eprint),
    tile: &mut TileReader<Tape>,
) -> Result<bool, Fault> {
    match tile.take_head(rt.alloc()) {
        Ok(head) => Ok(head.line == 1 && is_printed(rt.alloc(), head.header.json(), HEADER)?),
        Err(told) => is_refused(rt, Call("TileReader::take_head"), told, 1),
    }
}

/// Whether this is all that is held.
fn is_held(alloc: Global, mut texts: ReadyTexts, text: &str) -> Result<bool, Fault> {
    let mut output = Bin::new(alloc, 4096, 100, false)?;
    texts.write(&mut output)?;
    Ok(texts.len() == 1 && after_line(output.bytes(), text) == Some([].as_slice()))
}

fn takes_held(
    rt: &(impl AllocGlobal + Eprint),
    tile: &mut TileReader<Tape>,
    choice: &Choice,
) -> Result<bool, Fault> {
    match tile.take_held(rt.alloc(), Shift::zero(), choice) {
        Ok(texts) => is_held(rt.alloc(), texts, X),
        Err(told) => is_refused(rt, Call("TileReader::take_held"), told, 1),
    }
}

/// Whether a feature's line is passed: its text if it is chosen, or else no text; or, after line 4, the end.
fn passes(
    rt: &(impl AllocGlobal + Eprint),
    tile: &mut TileReader<Tape>,
    choice: &Choice,
    spare: &mut Line,
    (number, text): (u64, &str),
) -> Result<bool, Fault> {
    let given = mem::replace(spare, Line::new(rt.alloc()));
    match tile.pass(rt.alloc(), Shift::zero(), choice, given) {
        Ok(Some(passed)) => {
            *spare = passed.text;
            Ok(passed.is_chosen == !text.is_empty() && spare.items() == text.as_bytes())
        }
        Ok(None) => Ok(number > 4),
        Err(told) => is_refused(rt, Call("TileReader::pass"), told, number),
    }
}

/// A choice of buildings, or of all else.
fn choice_of(alloc: Global, exclude: bool) -> Result<Choice, Fault> {
    Ok(Choice::new(types(alloc, "Building")?, None, exclude))
}

/// A tile whose first line holds a building and a road, and buildings after it, so many bytes a read.
fn tile_of(alloc: Global, step: usize) -> Result<TileReader<Tape>, AllocError> {
    let input = bytes_of(alloc, &[POINTS, A1, A2, B1])?;
    let tape = Tape::new(Line::from_vec(input), step.max(1), false);
    Ok(TileReader::new(alloc, tape))
}

/// What the first line holds is taken, and each line after it is passed, chosen or not.
fn is_taken(
    rt: &(impl AllocGlobal + Eprint),
    tile: &mut TileReader<Tape>,
    buildings: &Choice,
    others: &Choice,
) -> Result<bool, Fault> {
    let spare = &mut Line::new(rt.alloc());
    Ok(
        takes_head(rt, tile)?
            && takes_held(rt, tile, buildings)?
            && passes(rt, tile, others, spare, (2, ""))?
            && passes(rt, tile, buildings, spare, (3, A2))?
            && passes(rt, tile, others, spare, (4, ""))?
            && passes(rt, tile, buildings, spare, (5, A1))?,
    )
}

fn tile_is_taken(rt: &(impl AllocGlobal + Eprint)) -> Result<bool, Fault> {
    let buildings = choice_of(rt.alloc(), false)?;
    let others = choice_of(rt.alloc(), true)?;
    let in_parts = &mut tile_of(rt.alloc(), IN_PARTS)?;
    let whole = &mut tile_of(rt.alloc(), WHOLE)?;
    Ok(is_taken(rt, in_parts, &buildings, &others)? && is_taken(rt, whole, &buildings, &others)?)
}

/// A document, and what it becomes; a refused one leaves nothing written.
fn is_cat(
    rt: &(impl AllocGlobal + Eprint),
    call: Call,
    answer: Result<u64, MergeFault>,
    written: &[u8],
    features: &[&str],
) -> Result<bool, Fault> {
    match answer {
        Ok(count) => {
            let mut left = after_line(written, HEADER).unwrap_or(b"?");
            for feature in features {
                left = after_line(left, feature).unwrap_or(b"?");
            }
            Ok(count == features.len() as u64 && left.is_empty())
        }
        Err(told) if (told.tile, told.line) == (1, 0) && written.is_empty() => {
            refused(rt, call, told.fault)
        }
        Err(_) => Ok(false),
    }
}

fn document_becomes(
    rt: &(impl AllocGlobal + Eprint),
    text: &str,
    features: &[&str],
) -> Result<bool, Fault> {
    let mut output = Bin::new(rt.alloc(), 4096, 100, false)?;
    let reader = tape_of(rt.alloc(), text.as_bytes(), IN_PARTS)?;
    let answer = cat_document(rt.alloc(), reader, &mut output);
    is_cat(rt, Call("cat_document"), answer, output.bytes(), features)
}

fn source_becomes(
    rt: &(impl AllocGlobal + Eprint),
    text: &str,
    features: &[&str],
) -> Result<bool, Fault> {
    let mut output = Bin::new(rt.alloc(), 4096, 100, false)?;
    let mut source = tape_of(rt.alloc(), text.as_bytes(), IN_PARTS)?;
    let answer = cat_source(rt.alloc(), &mut source, &mut output);
    is_cat(rt, Call("cat_source"), answer, output.bytes(), features)
}

fn document_is_cat(rt: &(impl AllocGlobal + Eprint)) -> Result<bool, Fault> {
    Ok(document_becomes(rt, DOCUMENT, &[BUILDING])? && source_becomes(rt, DOCUMENT, &[BUILDING])?)
}

/// A document in which two objects name each other, of which one has an address before its geometries.
const SHARED: &str =
    r#"{"type":"CityJSON","version":"2.0","transform":{"scale":[0.001,0.001,0.001],"translate":[0,0,0]},"CityObjects":{"a":{"children":["b"],"geometry":[{"boundaries":[2]}]},"b":{"children":["a"],"address":[{"location":{"boundaries":[0]}}],"geometry":[{"boundaries":[[1,2]]}]}},"vertices":[[0,0,0],[1,1,1],[2,2,2]]}"#;

const OF_SHARED: [&str; 2] = [
    r#"{"type":"CityJSONFeature","id":"a","CityObjects":{"a":{"children":["b"],"geometry":[{"boundaries":[0]}]},"b":{"children":["a"],"address":[{"location":{"boundaries":[2]}}],"geometry":[{"boundaries":[[1,0]]}]}},"vertices":[[2,2,2],[1,1,1],[0,0,0]]}"#,
    r#"{"type":"CityJSONFeature","id":"b","CityObjects":{"a":{"children":["b"],"geometry":[{"boundaries":[0]}]},"b":{"children":["a"],"address":[{"location":{"boundaries":[2]}}],"geometry":[{"boundaries":[[1,0]]}]}},"vertices":[[2,2,2],[1,1,1],[0,0,0]]}"#,
];

fn shared_document_is_cat(rt: &(impl AllocGlobal + Eprint)) -> Result<bool, Fault> {
    Ok(document_becomes(rt, SHARED, &OF_SHARED)? && source_becomes(rt, SHARED, &OF_SHARED)?)
}

/// Documents, and why they are refused.
const NO_DOCUMENTS: [(&str, Fault); 3] = [
    (CHILDLESS, Fault::ChildMissing),
    (ORPHANED, Fault::Orphan),
    (UNBOUNDED, Fault::BoundaryIndex),
];

fn documents_are_refused(rt: &(impl AllocGlobal + Eprint)) -> Result<bool, Fault> {
    for (text, fault) in NO_DOCUMENTS.iter() {
        let is_refused = is_fault(document_becomes(rt, text, &[]), *fault)?;
        if !(is_refused && is_fault(source_becomes(rt, text, &[]), *fault)?) {
            return Ok(false);
        }
    }
    Ok(true)
}

#[test]
fn streams_are_read_filtered_and_made_of_documents(rt: HostRuntime) -> Result<(), Fault> {
    expect!(rt; whole_lines_come(&rt));
    expect!(rt; all_short_lines_come(&rt));
    expect!(rt; no_header_is_found(&rt, IN_PARTS));
    expect!(rt; wrong_vertices_are_refused(&rt, IN_PARTS));
    expect!(rt; zero_has_no_sign(&rt, IN_PARTS));
    expect!(rt; blanks_are_passed_over(&rt, IN_PARTS));
    expect!(rt; first_is_filtered(&rt, IN_PARTS));
    expect!(rt; features_are_chosen(&rt, IN_PARTS));
    expect!(rt; document_is_filtered(&rt, IN_PARTS));
    expect!(rt; shaded_document_is_filtered(&rt, IN_PARTS));
    expect!(rt; chain_is_filtered(&rt, IN_PARTS));
    expect!(rt; tile_is_taken(&rt));
    expect!(rt; document_is_cat(&rt));
    expect!(rt; shared_document_is_cat(&rt));
    expect!(rt; documents_are_refused(&rt));
    Ok(())
}

/// Lines that stand whole in one read.
#[test]
fn whole_lines_are_filtered(rt: HostRuntime) -> Result<(), Fault> {
    expect!(rt; no_header_is_found(&rt, WHOLE));
    expect!(rt; wrong_vertices_are_refused(&rt, WHOLE));
    expect!(rt; zero_has_no_sign(&rt, WHOLE));
    expect!(rt; blanks_are_passed_over(&rt, WHOLE));
    expect!(rt; first_is_filtered(&rt, WHOLE));
    expect!(rt; features_are_chosen(&rt, WHOLE));
    expect!(rt; document_is_filtered(&rt, WHOLE));
    expect!(rt; shaded_document_is_filtered(&rt, WHOLE));
    expect!(rt; chain_is_filtered(&rt, WHOLE));
    Ok(())
}
