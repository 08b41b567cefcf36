//! Headers of tiles, and what they join to. A row tells the tiles, with a bar between two, and after an arrow how each is
//! moved and their joined header, or which tile is refused, and why.
use crate::answers::shift_of;
use crate::texts::{filled, split};
use byte_streams::Fault;
use city_feature::{Base, Header, HeaderFault, Joined, header, join_headers};
use city_grid::Shift;
use city_json::read;
use std::alloc::Global;

fn header_of(alloc: Global, form: &str, row: &str) -> Result<Header, Fault> {
    let text = filled(alloc, form, row)?;
    header(read(alloc, text.as_bytes())?)
}

fn headers_of(alloc: Global, form: &str, tiles: &str) -> Result<Vec<Header>, Fault> {
    let mut headers = Vec::new(alloc);
    for row in tiles.split(" | ") {
        headers.push(header_of(alloc, form, row)?)?;
    }
    Ok(headers)
}

fn join_some(alloc: Global, headers: &[Header], base: Base) -> Result<Joined, HeaderFault> {
    if headers.is_empty() || headers.len() > 1000 {
        return Err(HeaderFault {
            tile: 0,
            fault: Fault::TooManyTiles,
        });
    }
    join_headers(alloc, headers, base)
}

fn join(alloc: Global, form: &str, tiles: &str, base: Base) -> Result<Joined, HeaderFault> {
    match headers_of(alloc, form, tiles) {
        Ok(headers) => join_some(alloc, &headers, base),
        Err(fault) => Err(HeaderFault { tile: 0, fault }),
    }
}

fn is_step(found: Shift, text: &str) -> bool {
    text == ".." || shift_of(text) == Some(found)
}

/// Whether they are these shifts. Two dots stand for any that follow, or for all.
fn have_steps(shifts: &[Shift], wanted: &str) -> bool {
    let mut agree = wanted.ends_with("..") || shifts.len() == wanted.split(' ').count();
    for (found, text) in shifts.iter().zip(wanted.split(' ')) {
        agree = agree && is_step(*found, text);
    }
    agree
}

fn is_joined(alloc: Global, joined: &Joined, form: &str, wanted: &str) -> bool {
    let (shifts, row) = split(wanted);
    match filled(alloc, form, row) {
        Ok(header) => {
            joined.line.items() == header.as_bytes() && have_steps(joined.shifts.items(), shifts)
        }
        Err(_) => false,
    }
}

fn is_told(alloc: Global, refused: HeaderFault, wanted: &str) -> bool {
    let HeaderFault { tile, fault } = refused;
    match format!(in alloc; "tile {tile}: {fault:?}") {
        Ok(text) => text.as_str() == wanted,
        Err(_) => false,
    }
}

/// Whether the row holds: its tiles and their header are this form, in which they stand for `ROW`.
pub(crate) fn joins(alloc: Global, base: Base, form: &str, row: &str) -> bool {
    let (tiles, wanted) = split(row);
    match join(alloc, form, tiles, base) {
        Ok(joined) => is_joined(alloc, &joined, form, wanted),
        Err(refused) => is_told(alloc, refused, wanted),
    }
}
