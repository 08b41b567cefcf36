//! Whether tiles fit the first one and the tiles before them, in their order.
ghost use Rattle.std.specs.Prelude.{◌≡◌, ◌⊎◌, ◌↔◌, ◌<◌, ◌^◌, IsTrue, IfOk, OnOk, IfErr, length, map, option_map, option_copied};
ghost use Rattle.city_json.specs.Tree.{tree};
ghost use Rattle.city_feature.specs.Joined.{Agrees, AllAgree, IsFirstMisfit, RefusesTile, SharesMember, SharesSystem, SharesTemplates, all_extensions, extensions_of, reference_system, union};
ghost use Rattle.city_feature.specs.Shapes.{AreSame};
ghost use Rattle.city_feature.specs.Values.{header_value, lent_members};

use crate::headers::Header;
use crate::joining::extensions::Extensions;
use crate::joining::{HeaderFault, OUT_OF_MEMORY, Shifts};
use byte_streams::{Fault, Sequence};
use city_grid::{Shift, Transform, shift_of};
use city_json::{Json, same};
use std::alloc::Global;

/// Whether both are absent, or both are there and the same.
fn are_same(a: Option<&Json>, b: Option<&Json>) -> bool
    ensures { IsTrue result
        ↔ AreSame (option_map tree (option_copied a.entry)) (option_map tree (option_copied b.entry)) }
{
    match (a, b) {
        (None, None) => true,
        (Some(a), Some(b)) => same(a, b),
        _ => false,
    }
}

/// Whether the member of this name is the same in both headers.
fn same_member(name: &str, first: &Header, header: &Header) -> bool
    ensures { IsTrue result
        ↔ SharesMember name.now (header_value first.now) (header_value header.now) }
{
    are_same(first.json().get(name), header.json().get(name))
}

fn reference_system(header: &Header) -> Option<&Json>
    ensures { option_map tree (option_copied result) ≡ reference_system (header_value header.now) }
{
    header.json().get("metadata")?.get("referenceSystem")
}

fn same_system(first: &Header, header: &Header) -> bool
    ensures { IsTrue result ↔ SharesSystem (header_value first.now) (header_value header.now) }
{
    are_same(reference_system(first), reference_system(header))
}

/// Whether the geometry templates are the same, and where there are any the appearance that they
/// refer to is.
fn same_templates(first: &Header, header: &Header) -> bool
    ensures { IsTrue result ↔ SharesTemplates (header_value first.now) (header_value header.now) }
{
    if !same_member("geometry-templates", first, header) {
        return false;
    }
    if header.json().get("geometry-templates").is_none() {
        return true;
    }
    same_member("appearance", first, header)
}

/// The shift of a tile that fits; its extensions are then known.
///
/// # Errors
///
/// The first that holds of those that [`join_headers`](super::join_headers) names, or
/// [`Fault::Memory`].
fn shift_of_tile<'a>(
    first: &Header,
    base: &Transform,
    extensions: &mut Extensions<'a>,
    header: &'a Header,
) -> Result<Shift, Fault>
    requires { base.now.scale ≡ first.now.grid.scale }
    ensures ok { IfOk result (Agrees (header_value first.now) base.now
        (lent_members extensions.old) (header_value header.now)) }
    ensures known { OnOk result (lent_members extensions.new
        ≡ union (lent_members extensions.old)
        (extensions_of (header_value header.now))) }
    ensures refusal { IfErr result (λ fault. (fault ≡ Fault.Memory)
        ⊎ RefusesTile fault (header_value first.now) base.now
        (lent_members extensions.old) (header_value header.now)) }
{
    if header.transform().scale() != first.transform().scale() {
        return Err(Fault::ScaleDiffers);
    }
    if !same_system(first, header) {
        return Err(Fault::CrsDiffers);
    }
    let shift = shift_of(header.transform(), base)?;
    extensions.take_in(header)?;
    if !same_templates(first, header) {
        return Err(Fault::TemplatesDiffer);
    }
    Ok(shift)
}

/// The shifts of tiles that all fit; their extensions are then known.
pub(crate) fn shifts_of_tiles<'a>(
    alloc: Global,
    first: &Header,
    base: &Transform,
    extensions: &mut Extensions<'a>,
    headers: &'a [Header],
) -> Result<Shifts, HeaderFault>
    requires scale { base.now.scale ≡ first.now.grid.scale }
    requires few { length headers.now < 2 ^ 32 }
    ensures ok { IfOk result (AllAgree (header_value first.now) base.now
        (lent_members extensions.old) (map header_value headers.now)) }
    ensures known { OnOk result (lent_members extensions.new
        ≡ all_extensions (lent_members extensions.old)
        (map header_value headers.now)) }
    ensures refusal { IfErr result (λ refused.
        ((refused.tile ≡ 0) × (refused.fault ≡ Fault.Memory))
        ⊎ IsFirstMisfit (header_value first.now) base.now
        (lent_members extensions.old) 1 (map header_value headers.now)
        refused.tile refused.fault) }
{
    let Ok(mut shifts) = Vec::with_capacity(alloc, headers.len()) else {
        return Err(OUT_OF_MEMORY);
    };
    let mut tile = 0u32;
    for header in headers {
        tile += 1;
        let shift = match shift_of_tile(first, base, extensions, header) {
            Ok(shift) => shift,
            Err(Fault::Memory) => return Err(OUT_OF_MEMORY),
            Err(fault) => return Err(HeaderFault { tile, fault }),
        };
        if shifts.push(shift).is_err() {
            return Err(OUT_OF_MEMORY);
        }
    }
    Ok(Sequence::from_vec(shifts))
}
