//! City objects whose texts are held without the numbers of their leaves.
//!
//! What is held is in the size of the document; a feature's text is made of it without a look at a boundary.
ghost use Rattle.std.specs.Prelude.{◌≡◌, ◌<◌, ◌+◌, ◌++◌, ◌∷◌, [], ℕ, List, All, length, IfSome, OnSome};
ghost use Rattle.city_json.specs.Tree.{Tree};
ghost use Rattle.city_families.specs.Chosen.{named_at};
ghost use Rattle.cut_on_text.specs.PlacedObjects.{AreObjects};
ghost use Rattle.cut_on_text.specs.Skeletons.{AreSkeletons};
ghost use Rattle.cut_on_text.specs.Sketches.{IsSketch};

mod reading;

use super::city_objects::CityObjects;
use super::drafts::{Copier, CopyDraft};
use super::notes::{NotedLeaves, note_object};
use super::texts::append_text;
use byte_streams::{Line, push};
use std::alloc::Global;
use std::marker::Model;

/// A leaf of a boundary: where it belongs in a text that has no leaves, and the vertex that it names.
#[derive(Clone, Copy, Debug)]
pub(crate) struct Leaf {
    at: u32,
    vertex: u32,
}

impl Model for Leaf {
    ghost use Rattle.cut_on_text.specs.Skeletons.{LeafPlace};

    ghost Value = { LeafPlace };

    ghost view = { λ leaf. record { at = leaf.at; vertex = leaf.vertex } };

    ghost inverse = { λ place. record { at = place.at; vertex = place.vertex } };
}

impl Leaf {
    /// The leaf at a place, where both numbers are below 2^32.
    pub(super) fn new(at: usize, vertex: usize) -> Option<Leaf>
        ensures { IfSome result (λ leaf. leaf ≡ record { at = at; vertex = vertex }) }
    {
        let Ok(at) = u32::try_from(at) else {
            return None;
        };
        let Ok(vertex) = u32::try_from(vertex) else {
            return None;
        };
        Some(Leaf { at, vertex })
    }
}

/// Where the part of an object begins.
#[derive(Clone, Copy, Debug)]
pub(crate) struct ObjectStart {
    text: u32,
    name: u32,
    leaves: u32,
    split: u32,
}

impl Model for ObjectStart {
    ghost use Rattle.cut_on_text.specs.Skeletons.{SkeletonPlace};

    ghost Value = { SkeletonPlace };

    ghost view = { λ start.
        record { text = start.text; name = start.name; leaves = start.leaves; split = start.split } };

    ghost inverse = { λ place.
        record { text = place.text; name = place.name; leaves = place.leaves; split = place.split } };
}

impl ObjectStart {
    /// Where it begins, where all of these are below 2^32.
    fn new(text: usize, name: usize, leaves: usize, split: usize) -> Option<ObjectStart>
        ensures { IfSome result (λ start. start ≡ record { text = text; name = name; leaves = leaves; split = split }) }
    {
        let text = u32::try_from(text).ok()?;
        let name = u32::try_from(name).ok()?;
        let leaves = u32::try_from(leaves).ok()?;
        let split = u32::try_from(split).ok()?;
        Some(ObjectStart {
            text,
            name,
            leaves,
            split,
        })
    }
}

/// The texts of objects without the numbers of their leaves, one after another, and these leaves.
#[derive(Debug, Drop)]
pub(crate) struct Skeletons {
    text: Line,
    leaves: Vec<Leaf>,
    places: Vec<ObjectStart>,
}

impl Model for Skeletons {
    ghost use Rattle.cut_on_text.specs.Skeletons.{SkeletonTexts};

    ghost Value = { SkeletonTexts };

    ghost view = { λ skeletons.
        record { text = skeletons.text; leaves = skeletons.leaves.items; places = skeletons.places.items } };
}

/// Copies the object at a place, its name before it, without its leaves: where it begins.
fn note_named(
    objects: &CityObjects<'_>,
    at: usize,
    copier: &mut Copier<NotedLeaves>,
) -> Option<ObjectStart>
    ensures count { OnSome result (copier.new.labels.count ≡ copier.old.labels.count) }
    ensures made { IfSome result (λ start. (pairs : List (List ℕ × Tree))
        → AreObjects objects.now pairs
        → IsSketch copier.old.labels.count copier.old.labels.leaves.items copier.old.draft.line start copier.new.labels.leaves.items copier.new.draft.line
        (named_at pairs at)) }
{
    let id = objects.id(at)?;
    let one = objects.object(at)?;
    let begin = copier.draft.line.items().len();
    let leaves = copier.labels.leaves.len();
    append_text(id, &mut copier.draft.line)?;
    let name = copier.draft.line.items().len();
    append_text(b":", &mut copier.draft.line)?;
    let split = note_object(one.value, &one.held, copier)?;
    ObjectStart::new(begin, name, leaves, split)
}

/// The objects that lie in these parts of a text, with boundaries that name vertices below `count`. `None`: one is
/// at fault, or a place is 2^32 or more, or out of memory.
pub(super) fn skeletons_of(
    alloc: Global,
    objects: &CityObjects<'_>,
    count: usize,
) -> Option<Skeletons>
    ensures long { IfSome result (λ skeletons. length skeletons.places ≡ length objects.now.places + 1) }
    ensures within { IfSome result (λ skeletons. All (λ leaf. leaf.vertex < count) skeletons.leaves) }
    ensures made { IfSome result (λ skeletons. (pairs : List (List ℕ × Tree))
        → AreObjects objects.now pairs
        → AreSkeletons count skeletons pairs) }
{
    let mut copier = Copier {
        alloc,
        draft: CopyDraft {
            line: Line::from_vec(Vec::with_capacity(alloc, objects.text().len()).ok()?),
            from: 0,
        },
        labels: NotedLeaves::new(alloc, count),
    };
    let mut places = Vec::with_capacity(alloc, objects.len() + 1).ok()?;
    for at in 0..objects.len() {
        let start = note_named(objects, at, &mut copier)?;
        push(start, &mut places)?;
    }
    let end = copier.draft.line.items().len();
    let last = copier.labels.leaves.len();
    push(ObjectStart::new(end, end, last, last)?, &mut places)?;
    Some(Skeletons {
        text: copier.draft.line,
        leaves: copier.labels.leaves,
        places,
    })
}
