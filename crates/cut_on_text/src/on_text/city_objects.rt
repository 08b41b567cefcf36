//! The city objects of a document, by their places in their text.
ghost use Rattle.std.specs.Prelude.{◌≡◌, ◌<◌, ◌^◌, ℕ, List, IfSome, length};
ghost use Rattle.city_json.specs.Compact.{quoted};
ghost use Rattle.city_json.specs.Tree.{Tree};
ghost use Rattle.city_families.specs.Chosen.{named_at};
ghost use Rattle.cut_on_text.specs.PlacedObjects.{AreObjects, IsObjectAt};
ghost use Rattle.cut_on_text.specs.Overviews.{AreHolders, HasHolders};

use super::holders::{HeldParts, ShortHeld};
use super::names::name_at;
use super::short_parts::ShortPart;
use city_json::between;
use std::marker::Model;

/// The compact text of an object of city objects, where each lies in it with its name, and where boundaries may stand in
/// each.
#[derive(Drop)]
pub(super) struct CityObjects<'a> {
    text: &'a [u8],
    places: Vec<ShortPart>,
    held: Vec<ShortHeld>,
}

impl<'a> Model for CityObjects<'a> {
    ghost use Rattle.cut_on_text.specs.PlacedObjects.{PlacedObjects};
    ghost use Rattle.cut_on_text.specs.Overviews.{AreHolders};

    ghost Value = { PlacedObjects };

    ghost view = { λ objects.
        record { text = objects.text.now; places = objects.places.items; held = objects.held.items } };

    ghost invariant = { λ objects. AreHolders objects.text.now objects.places.items objects.held.items };
}

/// A city object: its name with its marks and its colon, its text, and where boundaries may stand in it.
#[derive(Drop)]
pub(super) struct CityObject<'a> {
    pub name: &'a [u8],
    pub value: &'a [u8],
    pub held: HeldParts,
}

impl<'a> CityObjects<'a> {
    pub(super) fn new(
        text: &'a [u8],
        places: Vec<ShortPart>,
        held: Vec<ShortHeld>,
    ) -> CityObjects<'a>
        requires { AreHolders text.now places.items held.items }
        ensures { result ≡ record { text = text.now; places = places.items; held = held.items } }
    {
        CityObjects { text, places, held }
    }

    /// How many there are.
    pub(super) fn len(&self) -> usize
        ensures is { result ≡ length self.now.places }
        ensures small { result < 2 ^ 63 }
    {
        self.places.len()
    }

    /// The text of them all.
    pub(super) fn text(&self) -> &'a [u8]
        ensures { result.now ≡ self.now.text }
    {
        self.text
    }

    /// Where each lies.
    pub(super) fn places(&self) -> &[ShortPart]
        ensures { result.now ≡ self.now.places }
    {
        &self.places
    }

    /// The name of the object at a place, with its marks.
    pub(super) fn id(&self, at: usize) -> Option<&'a [u8]>
        ensures { IfSome result (λ found. (pairs : List (List ℕ × Tree)) → AreObjects self.now pairs
            → found.now ≡ quoted (named_at pairs at).0) }
    {
        if at >= self.places.len() {
            return None;
        }
        Some(name_at(self.text, &self.places, at))
    }

    /// The object at a place.
    pub(super) fn object(&self, at: usize) -> Option<CityObject<'a>>
        ensures holders { IfSome result (λ one. HasHolders one.value.now one.held) }
        ensures is { IfSome result (λ one. (pairs : List (List ℕ × Tree)) → AreObjects self.now pairs
            → IsObjectAt pairs at one.name.now one.value.now) }
    {
        if at >= self.places.len() {
            return None;
        }
        if at >= self.held.len() {
            return None;
        }
        let part = self.places[at].part();
        let name = between(self.text, part.at, part.value)?;
        let value = between(self.text, part.value, part.end)?;
        let held = self.held[at].parts();
        Some(CityObject { name, value, held })
    }
}
