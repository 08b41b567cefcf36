//! What has boundaries in a city object: its geometries and its addresses.
ghost use Rattle.std.specs.Prelude.{◌≡◌, ◌++◌, [], ◌∷◌, IfSome, OnSome};
ghost use Rattle.city_json.specs.Bytes.{colon};
ghost use Rattle.city_json.specs.Compact.{quoted};
ghost use Rattle.cut_on_text.specs.Holders.{holder_begin, name_of, other_than, part_in, part_unless, split_by};

use city_json::MemberPlace;
use std::marker::Model;

/// A member of a city object in whose items boundaries stand.
#[derive(Clone, Copy, Drop)]
pub(super) enum Holder {
    /// `geometry`: each item has its own.
    Geometry,
    /// `address`: each item may have one in its location.
    Address,
}

impl Holder {
    /// The name of the member, with its marks and its colon.
    pub(super) fn mark(self) -> &'static [u8]
        ensures { result.now ≡ quoted (name_of self) ++ colon ∷ [] }
    {
        match self {
            Holder::Geometry => b"\"geometry\":",
            Holder::Address => b"\"address\":",
        }
    }

    pub(super) fn other(self) -> Holder
        ensures { result ≡ other_than self }
    {
        match self {
            Holder::Geometry => Holder::Address,
            Holder::Address => Holder::Geometry,
        }
    }

    /// How many leaves were noted before those of the geometries, where it is this member that stands first: so many were
    /// before it, and so many after it.
    pub(super) fn split(self, before: usize, after: usize) -> usize
        ensures { result ≡ split_by self before after }
    {
        match self {
            Holder::Geometry => before,
            Holder::Address => after,
        }
    }
}

/// Where the geometries and the addresses lie in the text of a city object, if they are there.
#[derive(Clone, Copy, Drop)]
pub(super) struct HeldParts {
    pub geometry: Option<MemberPlace>,
    pub address: Option<MemberPlace>,
}

impl HeldParts {
    pub(super) fn part(&self, holder: Holder) -> Option<MemberPlace>
        ensures { result ≡ part_in holder self.now }
    {
        match holder {
            Holder::Geometry => self.geometry,
            Holder::Address => self.address,
        }
    }

    /// Which of the two stands first, where both are there.
    pub(super) fn first(&self) -> Holder {
        let Some(geometry) = self.geometry else {
            return Holder::Geometry;
        };
        let Some(address) = self.address else {
            return Holder::Geometry;
        };
        if address.at < geometry.at {
            return Holder::Address;
        }
        Holder::Geometry
    }
}

/// Where the value of a member lies that follows its name at once, in a text of less than 2^32 bytes. It ends at 0 where
/// the member is not there.
#[derive(Clone, Copy, Drop)]
struct ShortValue {
    value: u32,
    end: u32,
}

/// Where a member with this name and its colon begins whose value begins there.
fn holder_begin(holder: Holder, value: usize) -> usize
    ensures { result ≡ holder_begin holder value }
{
    value.saturating_sub(holder.mark().len())
}

/// Where the value of this part lies, where the name of the holder is all that stands before it in the part.
fn short_value(holder: Holder, part: Option<MemberPlace>) -> Option<ShortValue>
    ensures { IfSome result (λ short. part_unless holder short.value short.end ≡ part) }
{
    let Some(part) = part else {
        return Some(ShortValue { value: 0, end: 0 });
    };
    if part.end == 0 {
        return None;
    }
    if part.at != holder_begin(holder, part.value) {
        return None;
    }
    let value = u32::try_from(part.value).ok()?;
    let end = u32::try_from(part.end).ok()?;
    Some(ShortValue { value, end })
}

fn part_at(holder: Holder, short: &ShortValue) -> Option<MemberPlace>
    ensures { result ≡ part_unless holder short.now.value short.now.end }
{
    if short.end == 0 {
        return None;
    }
    let value = short.value as usize;
    Some(MemberPlace {
        at: holder_begin(holder, value),
        value,
        end: short.end as usize,
    })
}

/// Where they lie, in a fifth of the room: as many are held as a document has objects.
#[derive(Drop)]
pub(super) struct ShortHeld {
    geometry: ShortValue,
    address: ShortValue,
}

impl Model for ShortHeld {
    ghost use Rattle.cut_on_text.specs.Holders.{part_unless};
    ghost use Rattle.cut_on_text.specs.declared.on_text.holders.Holder.TheVariants.{Address, Geometry};
    ghost use Rattle.cut_on_text.specs.declared.on_text.holders.HeldParts.{HeldParts};

    ghost Value = { HeldParts };

    ghost view = { λ short. record {
      geometry = part_unless Geometry short.geometry.value short.geometry.end;
      address = part_unless Address short.address.value short.address.end;
    } };
}

impl ShortHeld {
    /// The same, where the places are below 2^32, and the members are named so.
    pub(super) fn new(held: HeldParts) -> Option<ShortHeld>
        ensures { IfSome result (λ short. short ≡ held) }
    {
        let geometry = short_value(Holder::Geometry, held.geometry)?;
        let address = short_value(Holder::Address, held.address)?;
        Some(ShortHeld { geometry, address })
    }

    pub(super) fn parts(&self) -> HeldParts
        ensures { result ≡ self.now }
    {
        HeldParts {
            geometry: part_at(Holder::Geometry, &self.geometry),
            address: part_at(Holder::Address, &self.address),
        }
    }
}
