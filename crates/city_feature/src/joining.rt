//! The headers of tiles, joined to one, with a shift for each tile.
ghost use Rattle.std.specs.Prelude.{◌≡◌, ◌<◌, ◌^◌, All, length, map, IfOk, IfErr};
ghost use Rattle.city_feature.specs.Joined.{IsForward, IsJoined, RefusesJoin};
ghost use Rattle.city_feature.specs.Values.{header_value};

pub(crate) mod extensions;
pub(crate) mod line;
pub(crate) mod members;
pub(crate) mod origin;
pub(crate) mod tiles;

use crate::base::Base;
use crate::headers::Header;
use crate::joining::extensions::Extensions;
use crate::joining::line::joined_line;
use crate::joining::origin::origin_of;
use crate::joining::tiles::shifts_of_tiles;
use byte_streams::{Fault, Line, Sequence};
use city_grid::Shift;
use std::alloc::Global;

/// A shift for each tile, in order.
pub type Shifts = Sequence<Shift>;

/// The header of joined tiles, as its line with no newline, and the shift of each tile.
#[derive(Debug, Drop)]
pub struct Joined {
    pub line: Line,
    pub shifts: Shifts,
}

/// A tile whose header does not join, counted from 1, and why; 0 where memory is out.
#[derive(Clone, Copy, Debug, PartialEq, Eq)]
pub struct HeaderFault {
    pub tile: u32,
    pub fault: Fault,
}

/// What is refused where memory is out.
const OUT_OF_MEMORY: HeaderFault = HeaderFault {
    tile: 0,
    fault: Fault::Memory,
};

/// Joins the headers of tiles: the line is that of the first, without the extent of its metadata,
/// with the union of all extensions and, for [`Base::Least`], the least translation; each tile's
/// shift leads from that origin to the tile's (CityJSON 2.0, Transform Object, Metadata, Extensions,
/// Geometry templates).
///
/// # Errors
///
/// The first tile, from 1, that does not fit: [`Fault::ScaleDiffers`] where its scale is not the first
/// tile's, else [`Fault::CrsDiffers`] where its reference system is not, else [`Fault::OffGrid`] or
/// [`Fault::ShiftRange`] by its shift, else [`Fault::ExtensionClash`] where an extension stands in an
/// earlier tile with another text, else [`Fault::TemplatesDiffer`] where its geometry templates are not
/// the first tile's, or there are some and the appearance is not. Tile 0 and [`Fault::Memory`] where
/// there is not enough memory.
pub fn join_headers(alloc: Global, headers: &[Header], base: Base) -> Result<Joined, HeaderFault>
    requires some { 0 < length headers.now }
    requires few { length headers.now < 2 ^ 32 }
    ensures ok { IfOk result (λ joined.
        IsJoined base (map header_value headers.now) joined.line joined.shifts) }
    ensures forward { base ≡ Base.Least → IfOk result (λ joined. All IsForward joined.shifts) }
    ensures refusal { IfErr result (λ refused.
        RefusesJoin base (map header_value headers.now) refused.tile refused.fault) }
{
    let first = &headers[0];
    let origin = origin_of(headers, base);
    let mut extensions = Extensions::new(alloc);
    let shifts = shifts_of_tiles(alloc, first, &origin.transform, &mut extensions, headers)?;
    let Ok(line) = joined_line(alloc, first, &extensions, &origin.translation) else {
        return Err(OUT_OF_MEMORY);
    };
    Ok(Joined { line, shifts })
}
