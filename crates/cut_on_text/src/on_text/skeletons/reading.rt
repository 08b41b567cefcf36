//! What is read of the texts that are held.
ghost use Rattle.std.specs.Prelude.{◌≡◌, ◌<◌, ◌+◌, length, slice_range};
ghost use Rattle.cut_on_text.specs.Skeletons.{id_at, leaves_at, place_at};

use super::{Leaf, Skeletons};
use crate::on_text::ranges::between;

impl Leaf {
    /// Where it belongs in a text that has no leaves.
    pub(crate) fn at(&self) -> usize
        ensures { result ≡ self.now.at }
    {
        self.at as usize
    }

    /// The vertex that it names.
    pub(crate) fn vertex(&self) -> usize
        ensures { result ≡ self.now.vertex }
    {
        self.vertex as usize
    }
}

impl Skeletons {
    /// The texts of the objects without their leaves, one after another.
    pub(crate) fn text(&self) -> &[u8]
        ensures { result.now ≡ self.now.text }
    {
        self.text.items()
    }

    /// Where the text of the object at a place begins.
    pub(crate) fn begin(&self, at: usize) -> usize
        requires { at < length self.now.places }
        ensures { result ≡ (place_at self.now at).text }
    {
        self.places[at].text as usize
    }

    /// Where it ends.
    pub(crate) fn end(&self, at: usize) -> usize
        requires { at + 1 < length self.now.places }
        ensures { result ≡ (place_at self.now (at + 1)).text }
    {
        self.places[at + 1].text as usize
    }

    /// The name of the object at a place, with its marks.
    pub(crate) fn id(&self, at: usize) -> &[u8]
        requires { at < length self.now.places }
        ensures { result.now ≡ id_at self.now at }
    {
        let place = self.places[at];
        between(self.text.items(), place.text as usize, place.name as usize)
    }

    /// The leaves of the object at a place, as they stand in its text.
    pub(crate) fn leaves(&self, at: usize) -> &[Leaf]
        requires { at + 1 < length self.now.places }
        ensures { result.now ≡ leaves_at self.now at }
    {
        let from = self.places[at].leaves as usize;
        let end = self.places[at + 1].leaves as usize;
        between(&self.leaves, from, end)
    }

    /// Those of its leaves that are numbered first.
    pub(crate) fn first_leaves(&self, at: usize) -> &[Leaf]
        requires { at + 1 < length self.now.places }
        ensures { result.now
            ≡ slice_range self.now.leaves (place_at self.now at).split (place_at self.now (at + 1)).leaves }
    {
        let from = self.places[at].split as usize;
        let end = self.places[at + 1].leaves as usize;
        between(&self.leaves, from, end)
    }

    /// Those that are numbered after them.
    pub(crate) fn last_leaves(&self, at: usize) -> &[Leaf]
        requires { at < length self.now.places }
        ensures { result.now ≡ slice_range self.now.leaves (place_at self.now at).leaves (place_at self.now at).split }
    {
        let place = self.places[at];
        between(&self.leaves, place.leaves as usize, place.split as usize)
    }
}
