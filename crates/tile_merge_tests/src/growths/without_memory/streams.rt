//! What begins to read tiles, and more tiles than are merged.

use byte_streams::{Bin, Fault, Line, MergeFault, Tape};
use city_feature::{Base, Choice};
use city_grid::Shift;
use growth_support::texts::{A, HEADER};
use growth_support::{give, take};
use std::alloc::{AllocError, Global};
use std::sync::Wait;
use std::thread::Threads;
use tile_merge::{Report, merge, merge_in_turn, tile_count};
use tile_stream::{Lines, Passed, TileReader, write_line};

fn too_many() -> MergeFault {
    MergeFault::of_no_line(Fault::TooManyTiles)
}

#[test]
fn tiles_are_counted(rt: HostRuntime) {
    let gone = take(rt.alloc());
    assert!(rt; tile_count(64) == Ok(()));
    assert!(rt; tile_count(65) == Err(too_many()));
    assert!(rt; give(rt.alloc(), gone));
}

/// Sixty-five readers of no bytes.
fn readers_of(alloc: Global) -> Result<Vec<Tape>, Fault> {
    let mut readers = Vec::new(alloc);
    for _ in 0..65u32 {
        readers.push(Tape::new(Line::new(alloc), 1, true))?;
    }
    Ok(readers)
}

fn are_too_many(answer: Result<Report, MergeFault>) -> bool {
    match answer {
        Ok(_) => false,
        Err(told) => told == too_many(),
    }
}

fn many_take_no_turns(alloc: Global) -> Result<bool, Fault> {
    let readers = readers_of(alloc)?;
    let mut output = Bin::new(alloc, 100, 100, false)?;
    if readers.is_empty() {
        return Ok(false);
    }
    let gone = take(alloc);
    let every = Choice::new(None, None, false);
    let answer = merge_in_turn(alloc, readers, &every, Base::First, 1, &mut output);
    let are_refused = are_too_many(answer) && output.bytes().is_empty();
    Ok(give(alloc, gone) && are_refused)
}

fn many_are_not_merged<H>(rt: &H) -> Result<bool, Fault>
where
    H: AllocGlobal + Threads + Wait + Copy + Send + 'static,
{
    let alloc = rt.alloc();
    let readers = readers_of(alloc)?;
    let mut output = Bin::new(alloc, 100, 100, false)?;
    if readers.is_empty() {
        return Ok(false);
    }
    let gone = take(alloc);
    let every = Choice::new(None, None, false);
    let answer = merge(rt, alloc, readers, &every, Base::Least, 64, &mut output);
    let are_refused = are_too_many(answer) && output.bytes().is_empty();
    Ok(give(alloc, gone) && are_refused)
}

#[test]
fn sixty_five_tiles_are_refused(rt: HostRuntime) -> Result<(), Fault> {
    assert!(rt; many_take_no_turns(rt.alloc())?);
    assert!(rt; many_are_not_merged(&rt)?);
    Ok(())
}

fn tape_of(alloc: Global, text: &[u8]) -> Result<Tape, AllocError> {
    Ok(Tape::new(Line::from_vec(text.to_vec(alloc)?), 3, false))
}

/// Whether the next line is of this number.
fn is_next(lines: &mut Lines<Tape>, number: u64) -> bool {
    match lines.next() {
        Ok(Some(line)) => line.number == number,
        _ => false,
    }
}

fn is_refused(lines: &mut Lines<Tape>) -> bool {
    lines.next().is_err()
}

/// Readers of lines are made where there is no memory, and read where there is.
fn lines_are_begun(alloc: Global) -> Result<bool, Fault> {
    let tape = tape_of(alloc, b"ab\ncde")?;
    let gone = take(alloc);
    let mut lines = Lines::new(alloc, tape);
    let holds_line = lines.holds_line();
    let is_begun = give(alloc, gone) && !holds_line;
    Ok(is_begun && is_next(&mut lines, 1) && is_next(&mut lines, 2))
}

fn short_lines_are_begun(alloc: Global) -> Result<bool, Fault> {
    let tape = tape_of(alloc, b"ab\ncde")?;
    let gone = take(alloc);
    let mut lines = Lines::with_limits(alloc, tape, 2, 10);
    let is_begun = give(alloc, gone);
    Ok(is_begun && is_next(&mut lines, 1) && is_refused(&mut lines))
}

fn takes_head(alloc: Global, tile: &mut TileReader<Tape>) -> bool {
    match tile.take_head(alloc) {
        Ok(head) => head.line == 1,
        Err(_) => false,
    }
}

fn tile_is_begun(alloc: Global) -> Result<bool, Fault> {
    let tape = tape_of(alloc, HEADER.as_bytes())?;
    let gone = take(alloc);
    let mut tile = TileReader::new(alloc, tape);
    let holds_line = tile.holds_line();
    Ok(give(alloc, gone) && !holds_line && takes_head(alloc, &mut tile))
}

fn is_written(output: &mut Bin, text: Line) -> bool {
    match write_line(output, text) {
        Ok(spare) => {
            let line = output.bytes().strip_suffix(b"\n");
            spare.items().is_empty() && line == Some(A.as_bytes())
        }
        Err(_) => false,
    }
}

fn line_is_written(alloc: Global) -> Result<bool, Fault> {
    let text = Line::from_vec(A.as_bytes().to_vec(alloc)?);
    let mut output = Bin::new(alloc, 4096, 7, false)?;
    let gone = take(alloc);
    let is_written = is_written(&mut output, text);
    Ok(give(alloc, gone) && is_written)
}

#[test]
fn tiles_are_begun_and_a_line_is_written(rt: HostRuntime) -> Result<(), Fault> {
    assert!(rt; lines_are_begun(rt.alloc())?);
    assert!(rt; short_lines_are_begun(rt.alloc())?);
    assert!(rt; tile_is_begun(rt.alloc())?);
    assert!(rt; line_is_written(rt.alloc())?);
    Ok(())
}

/// What the next line comes to, where that is this text.
fn passed_text(
    alloc: Global,
    tile: &mut TileReader<Tape>,
    spare: Line,
    wanted: &str,
) -> Option<Line> {
    let every = Choice::new(None, None, false);
    let Ok(Some(passed)) = tile.pass(alloc, Shift::new(0, 0, 0)?, &every, spare) else {
        return None;
    };
    let Passed { is_chosen, text } = passed;
    (is_chosen && text.items() == wanted.as_bytes()).then_some(text)
}

/// A feature as it is written, and with blanks.
const SPELLINGS: [&str; 2] = [
    r#"{"type":"CityJSONFeature","id":"a","CityObjects":{"a":{"type":"Road"}},"vertices":[[1,2,3]]}"#,
    r#"{ "type": "CityJSONFeature", "id": "a", "CityObjects": { "a": { "type": "Road" } }, "vertices": [ [ 1, 2, 3 ] ] }"#,
];

/// Whether three lines of this spelling come to the text, the third where there is no memory: a text and the buffer of the
/// tile change places at each, so that two lines make both.
fn memory_goes_round(alloc: Global, line: &str) -> Result<bool, Fault> {
    let text = format!(in alloc; "{}\n{}\n{}\n{}\n", HEADER, line, line, line)?;
    let mut tile = TileReader::new(alloc, tape_of(alloc, text.as_bytes())?);
    let has_head = takes_head(alloc, &mut tile);
    let Some(spare) = passed_text(alloc, &mut tile, Line::new(alloc), SPELLINGS[0]) else {
        return Ok(false);
    };
    let Some(spare) = passed_text(alloc, &mut tile, spare, SPELLINGS[0]) else {
        return Ok(false);
    };
    let gone = take(alloc);
    let again = passed_text(alloc, &mut tile, spare, SPELLINGS[0]);
    Ok(give(alloc, gone) && has_head && again.is_some())
}

#[test]
fn the_memory_of_two_lines_serves_the_next(rt: HostRuntime) -> Result<(), Fault> {
    for line in SPELLINGS.iter() {
        assert!(rt; memory_goes_round(rt.alloc(), line)?, "{line}");
    }
    Ok(())
}
