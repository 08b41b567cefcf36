//! Places that are held in four bytes each.
ghost use Rattle.std.specs.Prelude.{◌≡◌, ◌++◌, ◌∷◌, [], OnOk};

use std::alloc::AllocError;

/// Puts a place after the places. One of 2^32 or more has no room among them, as where memory runs out.
#[inline(always)]
pub fn push_place(at: usize, places: &mut Vec<u32>) -> Result<(), AllocError>
    ensures { OnOk result (places.new.items ≡ places.old.items ++ at ∷ []) }
{
    let Ok(short) = u32::try_from(at) else {
        return Err(AllocError);
    };
    places.push(short)?;
    Ok(())
}
