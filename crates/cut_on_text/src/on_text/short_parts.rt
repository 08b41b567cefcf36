//! Where members lie, in half the room: as many are held as a document has objects.
ghost use Rattle.std.specs.Prelude.{◌≡◌, IfSome};

use city_json::MemberPlace;
use std::marker::Model;

/// The places of a part of a text of less than 2^32 bytes.
#[derive(Clone, Copy, Drop)]
pub(super) struct ShortPlaces {
    pub at: u32,
    pub value: u32,
    pub end: u32,
}

impl ShortPlaces {
    /// Those of a part, where they are below 2^32.
    pub(super) fn new(part: MemberPlace) -> Option<ShortPlaces>
        ensures at { IfSome result (λ short. short.at ≡ part.at) }
        ensures value { IfSome result (λ short. short.value ≡ part.value) }
        ensures end { IfSome result (λ short. short.end ≡ part.end) }
    {
        let at = u32::try_from(part.at).ok()?;
        let value = u32::try_from(part.value).ok()?;
        let end = u32::try_from(part.end).ok()?;
        Some(ShortPlaces { at, value, end })
    }

    pub(super) fn part(&self) -> MemberPlace
        ensures { result ≡ record { at = self.now.at; value = self.now.value; end = self.now.end } }
    {
        MemberPlace {
            at: self.at as usize,
            value: self.value as usize,
            end: self.end as usize,
        }
    }
}

/// A part, which contracts see as one.
#[derive(Clone, Copy)]
pub(super) struct ShortPart {
    places: ShortPlaces,
}

impl Model for ShortPart {
    ghost use Rattle.city_json.specs.declared.compacting.places.MemberPlace.{MemberPlace};

    ghost Value = { MemberPlace };

    ghost view = { λ short. record { at = short.places.at; value = short.places.value; end = short.places.end } };

    ghost inverse = { λ part. record { places = record { at = part.at; value = part.value; end = part.end } } };
}

impl ShortPart {
    pub(super) fn new(part: MemberPlace) -> Option<ShortPart>
        ensures { IfSome result (λ short. short ≡ part) }
    {
        let places = ShortPlaces::new(part)?;
        Some(ShortPart { places })
    }

    pub(super) fn part(&self) -> MemberPlace
        ensures { result ≡ self.now }
    {
        self.places.part()
    }
}
