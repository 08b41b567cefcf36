use crate::digest::Output;
use crate::filters::{Chosen, filter};
use crate::plan::Plan;
use crate::shapes::{PAINTED_TOWN, TOWN};
use crate::tally::Tally;
use crate::tile::Tile;
use byte_streams::Device;
use document_stream::cat_document;
use std::alloc::Global;

/// How many thousand bytes the documents have.
const TOWN_THOUSANDS: u32 = 8_000;

const PAINTED_THOUSANDS: u32 = 4_000;

/// In each round two documents are changed, and cut; in one of four rounds each is a tile's first line,
/// and is filtered.
pub(crate) fn run_documents(alloc: Global, plan: Plan, output: &mut Output) -> Option<Tally> {
    let town_size = plan.size(TOWN_THOUSANDS);
    let painted_size = plan.size(PAINTED_THOUSANDS);
    let mut town = Tile::of_objects(alloc, &TOWN, plan.seed, town_size)?;
    let mut painted = Tile::of_objects(alloc, &PAINTED_TOWN, !plan.seed, painted_size)?;
    let mut tally = Tally::new();
    for round in 0..plan.rounds {
        run_document(alloc, &mut town, round, output, &mut tally);
        run_document(alloc, &mut painted, round, output, &mut tally);
    }
    Some(tally)
}

fn run_document(
    alloc: Global,
    document: &mut Tile,
    round: u32,
    output: &mut Output,
    tally: &mut Tally,
) {
    document.change();
    let outcome = if round % 4 == 1 {
        filter(alloc, document.bytes(), Chosen::All, output)
    } else {
        cat_document(alloc, Device::new(document.bytes()), output)
    };
    tally.end(outcome, output.end());
}
