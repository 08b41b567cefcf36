//! Tiles whose headers are taken and joined.
ghost use Rattle.std.specs.Prelude.{◌≡◌, ◌≤◌, ◌<◌, ◌-◌, ◌⊎◌, ℕ, All, Err, [], length, map, slice_get, IsSomeAnd, IfOk, IfErr, OnOk};
ghost use Rattle.city_feature.specs.Values.{header_value};
ghost use Rattle.tile_stream.specs.Filtered.{failures_after_refusal};
ghost use Rattle.tile_stream.specs.Head.{HasNoHead, SomeTile};
ghost use Rattle.tile_merge.specs.Merged.{IsFirstHeadless, IsOfNoTile, IsRefusedEarly};
ghost use Rattle.tile_merge.specs.Opened.{AllThree, AreJoined, IsOpened};
ghost use Rattle.tile_stream.specs.Tile.{stream_limits};
ghost use Rattle.tile_stream.specs.TileState.{most_to_come, most_texts};
ghost use Rattle.tile_stream.specs.Unread.{IsOfTile};

use crate::merging::report::Ends;
use byte_streams::limits::MAX_TILES;
use byte_streams::{Fault, Line, LineFault, MergeFault, Source};
use city_feature::{Base, Header, HeaderFault, Joined, Shifts, join_headers};
use std::alloc::Global;
use std::marker::Model;
use tile_stream::{Head, TileReader};

/// A tile whose header was taken.
#[derive(Debug, Drop)]
pub(crate) struct OpenTile<R> {
    pub(crate) reader: TileReader<R>,
    /// The number of the header's line, from 1.
    pub(crate) line: u64,
}

impl<R> Model for OpenTile<R> {
    ghost use Rattle.std.specs.Coded.{codes};
    ghost use Rattle.city_feature.specs.contracts.features.values.Feature as feature_type;
    ghost use Rattle.tile_merge.specs.Opened.{OpenState};

    ghost Value = { OpenState R };

    ghost coded = { Prim.hlevel (codes, feature_type.the_row.coded) };

    ghost view = { λ tile. record { unread = tile.reader; line = tile.line } };
}

/// Tiles whose headers were taken, and these headers.
#[derive(Debug, Drop)]
pub(crate) struct OpenTiles<R> {
    pub(crate) tiles: Vec<OpenTile<R>>,
    pub(crate) headers: Vec<Header>,
}

/// Tiles that join: the line of their header in the stream, the shift of each, and room for their ends.
#[derive(Debug, Drop)]
pub(crate) struct JoinedTiles<R> {
    pub(crate) tiles: Vec<OpenTile<R>>,
    pub(crate) line: Line,
    pub(crate) shifts: Shifts,
    pub(crate) ends: Ends,
}

/// Refuses more than 64 tiles.
///
/// # Errors
///
/// [`Fault::TooManyTiles`], of no tile, above 64.
pub fn tile_count(count: usize) -> Result<(), MergeFault>
    ensures ok { IfOk result (λ _. count ≤ 64) }
    ensures many { IfErr result (λ e. (64 < count)
        × (e ≡ record { tile = 0; line = 0; fault = Fault.TooManyTiles })) }
{
    if count > MAX_TILES as usize {
        return Err(MergeFault::of_no_line(Fault::TooManyTiles));
    }
    Ok(())
}

/// Takes the headers of the tiles that the readers give, in order, and joins them.
///
/// # Errors
///
/// [`Fault::TooManyTiles`], of no tile, above 64 readers; else that of the first tile that has no
/// header; else that of joining, at the line of the tile's header; of no tile [`Fault::Memory`].
pub(crate) fn join_tiles<R: Source + Drop>(
    alloc: Global,
    readers: Vec<R>,
    base: Base,
) -> Result<JoinedTiles<R>, MergeFault>
    requires some { 0 < length readers.items }
    ensures ok { IfOk result (λ joined. AreJoined R.gives base readers.items
        joined.tiles.items joined.shifts joined.line) }
    ensures few { OnOk result (length readers.items ≤ 64) }
    ensures long { IfOk result (λ joined. length joined.tiles.items ≡ length readers.items) }
    ensures shifts { IfOk result (λ joined. length joined.shifts ≡ length joined.tiles.items) }
    ensures most { IfOk result (λ joined.
        All (λ tile. most_to_come tile.unread ≤ most_texts) joined.tiles.items) }
    ensures room { IfOk result (λ joined. joined.ends
        ≡ record { room = length joined.tiles.items; ends = [] }) }
    ensures refused { IfErr result (IsRefusedEarly R.gives base readers.items) }
    ensures too_many { 64 < length readers.items → result ≡ Err (record {
      tile = 0;
      line = 0;
      fault = Fault.TooManyTiles;
    }) }
    ensures quiet { IfErr result (λ e. (count : ℕ) → failures_after_refusal e count ≡ count) }
{
    tile_count(readers.len())?;
    let OpenTiles { tiles, headers } = take_heads(alloc, readers)?;
    let Joined { line, shifts } = match join_headers(alloc, &headers, base) {
        Ok(joined) => joined,
        Err(refused) => return Err(refusal_at_head(refused, &tiles)),
    };
    let ends = Ends::new(alloc, tiles.len())?;
    Ok(JoinedTiles {
        tiles,
        line,
        shifts,
        ends,
    })
}

/// Takes the headers of the tiles that the readers give, in order.
fn take_heads<R: Source + Drop>(alloc: Global, readers: Vec<R>) -> Result<OpenTiles<R>, MergeFault>
    requires few { length readers.items ≤ 64 }
    ensures ok { IfOk result (λ opened. AllThree (IsOpened R.gives) readers.items
        opened.tiles.items (map header_value opened.headers.items)) }
    ensures refused { IfErr result (λ e. IsFirstHeadless R.gives readers.items e
        ⊎ (IsOfNoTile e × (e.fault ≡ Fault.Memory))) }
{
    let mut tiles = Vec::with_capacity(alloc, readers.len())?;
    let mut headers = Vec::with_capacity(alloc, readers.len())?;
    for reader in readers {
        let (tile, header) = match open_tile(alloc, reader) {
            Ok(opened) => opened,
            Err(at) => return Err(at.of_tile(tiles.len() as u32 + 1)),
        };
        tiles.push(tile)?;
        headers.push(header)?;
    }
    Ok(OpenTiles { tiles, headers })
}

/// Takes the header of the tile that a reader gives.
fn open_tile<R: Source + Drop>(alloc: Global, reader: R) -> Result<(OpenTile<R>, Header), LineFault>
    ensures ok { IfOk result (λ opened.
        IsOpened R.gives reader opened.0 (header_value opened.1)) }
    ensures refused { IfErr result (λ e. SomeTile (IsOfTile (R.gives reader) stream_limits)
        (λ lines. HasNoHead lines (record { line = e.line; fault = e.fault }))) }
{
    let mut reader = TileReader::new(alloc, reader);
    let Head { header, line } = reader.take_head(alloc)?;
    Ok((OpenTile { reader, line }, header))
}

/// Where a refusal of joining belongs: the line of the tile's header.
fn refusal_at_head<R>(refused: HeaderFault, tiles: &[OpenTile<R>]) -> MergeFault
    requires within { refused.tile ≤ length tiles.now }
    ensures none { refused.tile ≡ 0
        → result ≡ record { tile = 0; line = 0; fault = refused.fault } }
    ensures some { 0 < refused.tile → IsSomeAnd (slice_get tiles.now (refused.tile - 1)) (λ tile.
        result ≡ record { tile = refused.tile; line = tile.line; fault = refused.fault }) }
{
    if refused.tile == 0 {
        return MergeFault::of_no_line(refused.fault);
    }
    let tile = &tiles[refused.tile as usize - 1];
    MergeFault {
        tile: refused.tile,
        line: tile.line,
        fault: refused.fault,
    }
}
