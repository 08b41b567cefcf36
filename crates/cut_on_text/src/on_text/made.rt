//! Features that are written from what the objects of a document are held by.
//!
//! All memory was taken before: while a feature is made, nothing but a write fails.
ghost use Rattle.std.specs.Prelude.{◌≡◌, ◌<◌, ◌+◌, ◌-◌, ◌^◌, ◌++◌, ◌∷◌, [], ℕ, List, Option, All, IfErr, IfSome, OnErr, OnOk, codes, get_or, length, map, slice_index, slice_range, take};
ghost use Rattle.std.specs.Fmt.{decimal};
ghost use Rattle.std.specs.Io.KnownBytes.{Appends};
ghost use Rattle.std.specs.List.{AllByRecursion, AllZip, flat_map};
ghost use Rattle.byte_streams.specs.Failures.{after_call};
ghost use Rattle.city_json.specs.Bytes.{close_bracket, open_bracket};
ghost use Rattle.city_json.specs.Tree.{Tree};
ghost use Rattle.city_json.specs.Writable.{AreWritableMembers};
ghost use Rattle.city_feature.specs.Feature.{FeatureValue, IsMovable, moved};
ghost use Rattle.city_feature.specs.FeatureLine.{SpellsFeature};
ghost use Rattle.city_families.specs.Cut.{appearance_members};
ghost use Rattle.cut_on_text.specs.FeatureText.{middle_text, tail_text};
ghost use Rattle.city_families.specs.HeldTexts.{with_end};
ghost use Rattle.city_families.specs.Lines.{texts_of};
ghost use Rattle.cut_on_text.specs.Made.{AreMakings, beginners, comma_before, feature_text, first_uses, listed, made_text, place_in, vertex_in};
ghost use Rattle.cut_on_text.specs.Moved.{chosen_of};
ghost use Rattle.city_families.specs.Search.{InRange};
ghost use Rattle.cut_on_text.specs.Skeletons.{skeleton_text_at, uses_at, woven};
ghost use Rattle.cut_on_text.specs.Written.{Writes};

use super::moving::moved_vertices;
use super::points::{GrownVertices, VertexTexts};
use super::ranges::between;
use super::skeletons::{Leaf, Skeletons};
use crate::gathering::gather;
use crate::rosters::Roster;
use byte_streams::{Fault, Line, Sink, write_all};
use city_families::{Graph, Kin};
use city_grid::Shift;
use itoa::write_digits;
use std::alloc::Global;
use std::marker::Model;

/// As many digits as a number may have.
const DIGITS: usize = 20;

/// A copy of these. `None`: out of memory.
fn copied(alloc: Global, vertices: &VertexTexts<'_>) -> Option<GrownVertices>
    ensures text { IfSome result (λ copy. copy.text ≡ vertices.now.text.now) }
    ensures starts { IfSome result (λ copy. copy.starts.items ≡ vertices.now.starts.items) }
{
    let mut text = Vec::with_capacity(alloc, vertices.text.len()).ok()?;
    text.extend_from_slice(vertices.text).ok()?;
    let mut starts = Vec::with_capacity(alloc, vertices.starts.len()).ok()?;
    starts.extend_from_slice(&vertices.starts).ok()?;
    Some(GrownVertices {
        text: Line::from_vec(text),
        starts,
    })
}

/// Writes a text, unless a write failed before.
fn write_piece<W: Sink>(text: &[u8], output: &mut W, wrote: &mut Result<(), Fault>)
    ensures { Writes W.taken W.failures output.old wrote.old output.new wrote.new text.now }
{
    if wrote.is_err() {
        return;
    }
    *wrote = write_all(output, text);
}

/// Writes a number in decimal.
fn write_number<W: Sink>(number: usize, output: &mut W, wrote: &mut Result<(), Fault>)
    ensures { Writes W.taken W.failures output.old wrote.old output.new wrote.new (decimal number) }
{
    let mut text = [0u8; DIGITS];
    let start = write_digits(number as u64, &mut text, DIGITS);
    write_piece(&text[start..], output, wrote);
}

/// Writes a comma, unless it is the first text of a list that comes next.
fn write_comma<W: Sink>(place: usize, output: &mut W, wrote: &mut Result<(), Fault>)
    ensures { Writes W.taken W.failures output.old wrote.old output.new wrote.new (comma_before place) }
{
    if place > 0 {
        write_piece(b",", output, wrote);
    }
}

/// Writes an object, its name before it, in which each leaf has the number of its vertex.
fn write_object<W: Sink>(
    skeletons: &Skeletons,
    at: usize,
    order: &Roster,
    output: &mut W,
    wrote: &mut Result<(), Fault>,
)
    requires at { at + 1 < length skeletons.now.places }
    requires leaves { All (λ leaf. leaf.vertex < order.now.count) skeletons.now.leaves }
    ensures { Writes W.taken W.failures output.old wrote.old output.new wrote.new
        (skeleton_text_at skeletons.now (λ vertex. decimal (place_in order.now.order vertex)) at) }
{
    let text = skeletons.text();
    let mut from = skeletons.begin(at);
    for leaf in skeletons.leaves(at) {
        write_piece(between(text, from, leaf.at()), output, wrote);
        write_number(order.number(leaf.vertex()), output, wrote);
        from = leaf.at();
    }
    write_piece(between(text, from, skeletons.end(at)), output, wrote);
}

/// Writes the objects at these places.
fn write_objects<W: Sink>(
    skeletons: &Skeletons,
    places: &[usize],
    order: &Roster,
    output: &mut W,
    wrote: &mut Result<(), Fault>,
)
    requires places { All (λ at. at + 1 < length skeletons.now.places) places.now }
    requires leaves { All (λ leaf. leaf.vertex < order.now.count) skeletons.now.leaves }
    ensures { Writes W.taken W.failures output.old wrote.old output.new wrote.new
        (listed (map (skeleton_text_at skeletons.now (λ vertex. decimal (place_in order.now.order vertex))) places.now)) }
{
    for place in 0..places.len() {
        write_comma(place, output, wrote);
        write_object(skeletons, places[place], order, output, wrote);
    }
}

/// Writes these vertices.
fn write_vertices<W: Sink>(
    vertices: &GrownVertices,
    order: &[usize],
    output: &mut W,
    wrote: &mut Result<(), Fault>,
)
    requires { All (λ at. at + 1 < length vertices.now.starts.items) order.now }
    ensures { Writes W.taken W.failures output.old wrote.old output.new wrote.new
        (listed (map (vertex_in vertices.now.text vertices.now.starts.items) order.now)) }
{
    for place in 0..order.len() {
        write_comma(place, output, wrote);
        write_piece(vertices.vertex(order[place]), output, wrote);
    }
}

/// Writes what stands before the objects of a feature, whose name is given with its marks.
fn write_head<W: Sink>(id: &[u8], output: &mut W, wrote: &mut Result<(), Fault>)
    ensures { Writes W.taken W.failures output.old wrote.old output.new wrote.new
        (codes "{\"type\":\"CityJSONFeature\",\"id\":" ++ (id.now ++ codes ",\"CityObjects\":{")) }
{
    write_piece(b"{\"type\":\"CityJSONFeature\",\"id\":", output, wrote);
    write_piece(id, output, wrote);
    write_piece(b",\"CityObjects\":{", output, wrote);
}

/// Writes these vertices, and what stands between the objects of a feature and them.
fn write_rest<W: Sink>(
    vertices: &GrownVertices,
    order: &[usize],
    output: &mut W,
    wrote: &mut Result<(), Fault>,
)
    requires { All (λ at. at + 1 < length vertices.now.starts.items) order.now }
    ensures { Writes W.taken W.failures output.old wrote.old output.new wrote.new
        (middle_text ++ (open_bracket
        ∷ (listed (map (vertex_in vertices.now.text vertices.now.starts.items) order.now) ++ close_bracket ∷ []))) }
{
    write_piece(b"},\"vertices\":[", output, wrote);
    write_vertices(vertices, order, output, wrote);
    write_piece(b"]", output, wrote);
}

/// Numbers the vertices of these leaves.
fn note_leaves(leaves: &[Leaf], order: &mut Roster)
    requires { All (λ leaf. leaf.vertex < order.old.count) leaves.now }
    ensures { order.new ≡ record {
      count = order.old.count;
      order = first_uses order.old.order (map (λ leaf. leaf.vertex) leaves.now);
    } }
{
    for leaf in leaves {
        order.note(leaf.vertex());
    }
}

/// Numbers the vertices that an object names.
fn note_uses(skeletons: &Skeletons, at: usize, order: &mut Roster)
    requires at { at + 1 < length skeletons.now.places }
    requires leaves { All (λ leaf. leaf.vertex < order.old.count) skeletons.now.leaves }
    ensures { order.new ≡ record {
      count = order.old.count;
      order = first_uses order.old.order (uses_at skeletons.now at);
    } }
{
    note_leaves(skeletons.first_leaves(at), order);
    note_leaves(skeletons.last_leaves(at), order);
}

/// Numbers the vertices that the objects at these places name, and no others.
fn number_uses(skeletons: &Skeletons, places: &[usize], order: &mut Roster)
    requires places { All (λ at. at + 1 < length skeletons.now.places) places.now }
    requires leaves { All (λ leaf. leaf.vertex < order.old.count) skeletons.now.leaves }
    ensures { order.new ≡ record {
      count = order.old.count;
      order = first_uses [] (flat_map (uses_at skeletons.now) places.now);
    } }
{
    order.clear();
    for at in places {
        note_uses(skeletons, *at, order);
    }
}

/// The places of the objects without parents. `None`: out of memory.
fn beginners_of(alloc: Global, parents: &[bool]) -> Option<Vec<usize>>
    ensures { IfSome result (λ found. found.items ≡ beginners parents.now) }
{
    let mut found = Vec::new(alloc);
    for at in 0..parents.len() {
        if parents[at] {
            continue;
        }
        found.push(at).ok()?;
    }
    Some(found)
}

/// Keeps those of the places at which it is true.
fn keep_chosen(roots: &mut Vec<usize>, chosen: &[bool])
    ensures { roots.new.items ≡ chosen_of chosen.now roots.old.items }
{
    let count = roots.len().min(chosen.len());
    let mut kept = 0usize;
    for at in 0..count {
        if !chosen[at] {
            continue;
        }
        roots[kept] = roots[at];
        kept += 1;
    }
    roots.truncate(kept);
}

/// The texts of a document's features, each up to its vertices, which are made when they are written.
#[derive(Debug)]
pub(crate) struct MadeTexts {
    skeletons: Skeletons,
    vertices: GrownVertices,
    graph: Graph,
    roots: Vec<usize>,
    family: Roster,
    order: Roster,
}

impl Drop for MadeTexts {
    fn drop(self) {
        let MadeTexts {
            skeletons: _skeletons,
            vertices: _vertices,
            graph: _graph,
            roots: _roots,
            family: _family,
            order: _order,
        } = self;
    }
}

impl Model for MadeTexts {
    ghost use Rattle.std.specs.Prelude.{ℕ, List, map};
    ghost use Rattle.cut_on_text.specs.Made.{CanMake, made_text};

    ghost Value = { List (List ℕ) };

    ghost view = { λ texts. map (made_text (record {
      skeletons = texts.skeletons;
      vertices = texts.vertices.text;
      starts = texts.vertices.starts.items;
      graph = texts.graph;
    })) texts.roots.items };

    ghost invariant = { λ texts. CanMake (record {
      skeletons = texts.skeletons;
      vertices = texts.vertices.text;
      starts = texts.vertices.starts.items;
      graph = texts.graph;
    }) texts.roots.items texts.family texts.order };
}

impl MadeTexts {
    /// The texts of the features of the objects that are held so, on these vertices. `None`: out of memory.
    pub(super) fn new(
        alloc: Global,
        skeletons: Skeletons,
        vertices: &VertexTexts<'_>,
        kin: Kin,
    ) -> Option<MadeTexts>
        requires places { length skeletons.places ≡ length kin.children + 1 }
        requires leaves { All (λ leaf. leaf.vertex < length vertices.now.starts.items - 1) skeletons.leaves }
        requires graph { InRange kin.children (length kin.children) }
        requires parents { length kin.parents.items ≡ length kin.children }
        requires document { AreMakings (record {
          skeletons = skeletons;
          vertices = vertices.now.text.now;
          starts = vertices.now.starts.items;
          graph = kin.children;
        }) }
        ensures { IfSome result (λ made. made ≡ map (made_text (record {
          skeletons = skeletons;
          vertices = vertices.now.text.now;
          starts = vertices.now.starts.items;
          graph = kin.children;
        })) (beginners kin.parents.items)) }
    {
        let family = Roster::new(alloc, kin.children.len())?;
        let order = Roster::new(alloc, vertices.starts.len().saturating_sub(1))?;
        Some(MadeTexts {
            skeletons,
            vertices: copied(alloc, vertices)?,
            roots: beginners_of(alloc, &kin.parents)?,
            graph: kin.children,
            family,
            order,
        })
    }

    /// How many texts there are.
    pub(crate) fn len(&self) -> usize
        ensures { result ≡ length self.now }
    {
        self.roots.len()
    }

    /// Tells a proof that a count of the texts does not run over, and does nothing.
    pub(crate) fn known(&self)
        ensures { length self.now < 2 ^ 63 }
    {
        let _ = &self.roots;
    }

    /// Writes the text at a place, unless a write failed before.
    fn write_at<W: Sink>(&mut self, at: usize, output: &mut W, wrote: &mut Result<(), Fault>)
        requires { at < length self.old }
        ensures written { Writes W.taken W.failures output.old wrote.old output.new wrote.new (get_or self.old at []) }
        ensures same { self.new ≡ self.old }
    {
        let root = self.roots[at];
        gather(&self.graph, root, &mut self.family);
        let places = self.family.order();
        number_uses(&self.skeletons, places, &mut self.order);
        write_head(self.skeletons.id(root), output, wrote);
        write_objects(&self.skeletons, places, &self.order, output, wrote);
        write_rest(&self.vertices, self.order.order(), output, wrote);
    }

    /// Writes the text at a place.
    ///
    /// # Errors
    ///
    /// [`Fault::Write`] where a write failed; some first bytes of the text were written then.
    pub(crate) fn write_own<W: Sink>(&mut self, at: usize, output: &mut W) -> Result<(), Fault>
        requires { at < length self.old }
        ensures ok { OnOk result (Appends (W.taken output.old) (W.taken output.new) (get_or self.old at [])) }
        ensures some { OnErr result ((count : ℕ)
            × Appends (W.taken output.old) (W.taken output.new) (take count (get_or self.old at []))) }
        ensures failures { W.failures output.new ≡ after_call result (W.failures output.old) }
        ensures fault { IfErr result (λ fault. fault ≡ Fault.Write) }
        ensures same { self.new ≡ self.old }
    {
        let mut wrote = Ok(());
        self.write_at(at, output, &mut wrote);
        wrote
    }

    /// Moves all vertices by the shift; one that would leave the range, and which no feature has that can be moved, stays
    /// where it was. Nothing is changed where it fails.
    ///
    /// # Errors
    ///
    /// [`Fault::Memory`] where there is not enough memory.
    pub(crate) fn move_by(&mut self, alloc: Global, shift: Shift) -> Result<(), Fault>
        ensures ok { OnOk result ((appearance : Option Tree) (features : List FeatureValue)
            → AreWritableMembers (appearance_members appearance)
            → AllZip SpellsFeature (with_end (tail_text appearance) self.old) features
            → AllByRecursion (λ feature. IsMovable feature shift) features
            → with_end (tail_text appearance) self.new
            ≡ texts_of (map (λ feature. moved feature shift) features)) }
        ensures count { length self.new ≡ length self.old }
        ensures failed { OnErr result (self.new ≡ self.old) }
        ensures fault { IfErr result (λ fault. fault ≡ Fault.Memory) }
    {
        self.vertices = moved_vertices(alloc, &self.vertices, shift)?;
        Ok(())
    }

    /// Keeps the texts at whose places it is true.
    pub(crate) fn keep(&mut self, chosen: &[bool])
        ensures { self.new ≡ chosen_of chosen.now self.old }
    {
        keep_chosen(&mut self.roots, chosen);
    }
}
