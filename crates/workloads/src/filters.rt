use crate::digest::Output;
use crate::plan::Plan;
use crate::shapes::Shape;
use crate::tally::Tally;
use crate::tile::Tile;
use byte_streams::{Device, Fault, MergeFault};
use city_feature::{Choice, area, types};
use std::alloc::Global;
use tile_stream::filter_stream;

/// What is chosen of a tile.
#[derive(Clone, Copy)]
pub(crate) enum Chosen {
    All,
    /// What lies in a box, about a quarter.
    InBox,
    /// Bridges and roads.
    Ways,
    /// What has a part.
    Parted,
}

/// A tile that is filtered, of so many thousand bytes.
#[derive(Clone, Copy)]
pub(crate) struct Part {
    pub(crate) shape: Shape,
    pub(crate) thousands: u32,
    pub(crate) chosen: Chosen,
}

/// In each round each tile is changed, and filtered once.
pub(crate) fn run_filters(
    alloc: Global,
    parts: &[Part],
    plan: Plan,
    output: &mut Output,
) -> Option<Tally> {
    let mut tiles = tiles_of(alloc, parts, plan)?;
    let mut tally = Tally::new();
    for _ in 0..plan.rounds {
        run_round(alloc, parts, &mut tiles, output, &mut tally);
    }
    Some(tally)
}

fn tiles_of(alloc: Global, parts: &[Part], plan: Plan) -> Option<Vec<Tile>> {
    let mut tiles = Vec::new(alloc);
    let mut seed = plan.seed;
    for part in parts {
        seed = seed.wrapping_add(1 << 32);
        let tile = Tile::of_features(alloc, &part.shape, (seed, 10), plan.size(part.thousands))?;
        tiles.push(tile).ok()?;
    }
    Some(tiles)
}

fn run_round(
    alloc: Global,
    parts: &[Part],
    tiles: &mut [Tile],
    output: &mut Output,
    tally: &mut Tally,
) {
    for (part, tile) in parts.iter().zip(tiles) {
        tile.change();
        let outcome = filter(alloc, tile.bytes(), part.chosen, output);
        tally.end(outcome, output.end());
    }
}

pub(crate) fn filter(
    alloc: Global,
    bytes: &[u8],
    chosen: Chosen,
    output: &mut Output,
) -> Result<u64, MergeFault> {
    let choice = choice_of(alloc, chosen)?;
    filter_stream(alloc, Device::new(bytes), &choice, output)
}

pub(crate) fn choice_of(alloc: Global, chosen: Chosen) -> Result<Choice, Fault> {
    Ok(match chosen {
        Chosen::All => Choice::new(None, None, false),
        Chosen::InBox => Choice::new(None, area("0,0,5000000,5000000"), false),
        Chosen::Ways => Choice::new(types(alloc, "Bridge,Road")?, None, false),
        Chosen::Parted => Choice::new(types(alloc, "BuildingPart")?, None, false),
    })
}
