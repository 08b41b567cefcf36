//! The texts of a document's features. What each has of its own is held, or made when it is asked for; what all of them
//! end in is held once.
ghost use Rattle.std.specs.Prelude.{◌≡◌, ◌<◌, ◌≤◌, ◌^◌, ◌++◌, ◌∷◌, [], ℕ, List, true, false, length, map, get_or, slice_range, take, IfErr, IfOk, IsTrue, OnErr, OnOk};
ghost use Rattle.std.specs.Io.KnownBytes.{Appends};
ghost use Rattle.std.specs.List.{AllByRecursion, AllZip};
ghost use Rattle.byte_streams.specs.Failures.{after_call};
ghost use Rattle.city_feature.specs.Feature.{FeatureValue, IsMovable, moved};
ghost use Rattle.city_feature.specs.FeatureLine.{SpellsFeature};
ghost use Rattle.cut_on_text.specs.FeatureText.{IsTail};
ghost use Rattle.city_json.specs.OpenNames.{AreEnds};
ghost use Rattle.city_families.specs.HeldTexts.{AreOwnParts, pieces, texts_in, with_end};
ghost use Rattle.city_families.specs.Lines.{texts_of};
ghost use Rattle.cut_on_text.specs.Moved.{chosen_of};
ghost use Rattle.cut_on_text.specs.OwnTexts.{EndIn, are_made, own_texts};

mod line_sink;

use crate::on_text::made::MadeTexts;
use byte_streams::{Fault, Line, Sink, write_all};
use city_grid::Shift;
use line_sink::LineSink;
use std::alloc::{AllocError, Global};
use std::marker::Model;
use std::mem;

/// Where the piece at a place begins.
fn start_of(ends: &[usize], at: usize) -> usize
    requires { at < length ends.now }
    ensures { result ≡ get_or (0 ∷ ends.now) at 0 }
{
    if at == 0 {
        return 0;
    }
    ends[at - 1]
}

fn part_of(bytes: &[u8], start: usize, end: usize) -> &[u8]
    requires ordered { start ≤ end }
    requires within { end ≤ length bytes.now }
    ensures { result.now ≡ slice_range bytes.now start end }
{
    &bytes[start..end]
}

/// The piece at a place.
fn piece<'a>(bytes: &'a [u8], ends: &[usize], at: usize) -> &'a [u8]
    requires ends { AreEnds 0 ends.now (length bytes.now) }
    requires within { at < length ends.now }
    ensures { result.now ≡ get_or (pieces bytes.now 0 ends.now) at [] }
{
    part_of(bytes, start_of(ends, at), ends[at])
}

/// Texts that are held one after another.
#[derive(Debug, Drop)]
pub(crate) struct Pieces {
    bytes: Line,
    ends: Vec<usize>,
}

impl Model for Pieces {
    ghost use Rattle.std.specs.Prelude.{ℕ, List, length};
    ghost use Rattle.city_json.specs.OpenNames.{AreEnds};
    ghost use Rattle.city_families.specs.HeldTexts.{pieces};

    ghost Value = { List (List ℕ) };

    ghost view = { λ texts. pieces texts.bytes 0 texts.ends.items };

    ghost invariant = { λ texts. AreEnds 0 texts.ends.items (length texts.bytes) };
}

impl Pieces {
    /// The texts that stand in the bytes one after another, each up to its place of `ends`.
    pub(crate) fn new(bytes: Line, ends: Vec<usize>) -> Pieces
        requires { AreEnds 0 ends.items (length bytes) }
        ensures { result ≡ pieces bytes 0 ends.items }
    {
        Pieces { bytes, ends }
    }

    fn len(&self) -> usize
        ensures { result ≡ length self.now }
    {
        self.ends.len()
    }

    /// Tells a proof that a count of them does not run over, and does nothing.
    fn known(&self)
        ensures { length self.now < 2 ^ 63 }
    {
        let _ = &self.ends;
    }

    /// The text at a place.
    fn text(&self, at: usize) -> &[u8]
        requires { at < length self.now }
        ensures { result.now ≡ get_or self.now at [] }
    {
        piece(self.bytes.items(), &self.ends, at)
    }
}

/// What each of the texts has of its own.
#[derive(Debug, Drop)]
enum OwnTexts {
    Held(Pieces),
    Made(MadeTexts),
}

/// Puts a text after a line.
fn append_held(text: &[u8], line: &mut Line) -> Result<(), AllocError>
    ensures ok { OnOk result (line.new ≡ line.old ++ text.now) }
    ensures some { OnErr result ((count : ℕ) × (line.new ≡ line.old ++ take count text.now)) }
{
    match line.append(text) {
        Ok(()) => return Ok(()),
        Err(refused) => return Err(refused),
    }
}

/// Puts a made text after a line, which refuses a write for want of memory alone.
fn append_made(
    alloc: Global,
    texts: &mut MadeTexts,
    at: usize,
    line: &mut Line,
) -> Result<(), AllocError>
    requires { at < length texts.old }
    ensures ok { OnOk result (line.new ≡ line.old ++ get_or texts.old at []) }
    ensures some { OnErr result ((count : ℕ) × (line.new ≡ line.old ++ take count (get_or texts.old at []))) }
    ensures same { texts.new ≡ texts.old }
{
    let mut sink = LineSink::new(mem::replace(line, Line::new(alloc)));
    let written = texts.write_own(at, &mut sink);
    *line = sink.into_line();
    match written {
        Ok(()) => return Ok(()),
        Err(_) => return Err(AllocError),
    }
}

impl OwnTexts {
    fn len(&self) -> usize
        ensures { result ≡ length (own_texts self.now) }
    {
        match self {
            OwnTexts::Held(texts) => texts.len(),
            OwnTexts::Made(texts) => texts.len(),
        }
    }

    /// Tells a proof that a count of them does not run over, and does nothing.
    fn known(&self)
        ensures { length (own_texts self.now) < 2 ^ 63 }
    {
        match self {
            OwnTexts::Held(texts) => texts.known(),
            OwnTexts::Made(texts) => texts.known(),
        }
    }

    fn is_made(&self) -> bool
        ensures { result ≡ are_made self.now }
    {
        match self {
            OwnTexts::Held(_) => false,
            OwnTexts::Made(_) => true,
        }
    }

    /// Writes the text at a place.
    fn write<W: Sink>(&mut self, at: usize, output: &mut W) -> Result<(), Fault>
        requires { at < length (own_texts self.old) }
        ensures ok { OnOk result (Appends (W.taken output.old) (W.taken output.new) (get_or (own_texts self.old) at [])) }
        ensures some { OnErr result ((count : ℕ)
            × Appends (W.taken output.old) (W.taken output.new) (take count (get_or (own_texts self.old) at []))) }
        ensures failures { W.failures output.new ≡ after_call result (W.failures output.old) }
        ensures fault { IfErr result (λ fault. fault ≡ Fault.Write) }
        ensures same { self.new ≡ self.old }
    {
        match self {
            OwnTexts::Held(texts) => write_all(output, texts.text(at)),
            OwnTexts::Made(texts) => texts.write_own(at, output),
        }
    }

    /// Puts the text at a place after a line.
    fn append(&mut self, alloc: Global, at: usize, line: &mut Line) -> Result<(), AllocError>
        requires { at < length (own_texts self.old) }
        ensures ok { OnOk result (line.new ≡ line.old ++ get_or (own_texts self.old) at []) }
        ensures some { OnErr result ((count : ℕ)
            × (line.new ≡ line.old ++ take count (get_or (own_texts self.old) at []))) }
        ensures same { self.new ≡ self.old }
    {
        match self {
            OwnTexts::Held(texts) => append_held(texts.text(at), line),
            OwnTexts::Made(texts) => append_made(alloc, texts, at, line),
        }
    }

    /// Moves the vertices of texts that are made by the shift. The only fault is [`Fault::Memory`]. Whether they are made;
    /// held texts stay.
    fn move_by(&mut self, alloc: Global, shift: Shift) -> Result<bool, Fault>
        ensures is { IfOk result (λ is_made. is_made ≡ are_made self.old) }
        ensures moved { IfOk result (λ is_made. IsTrue is_made
            → (common : List ℕ) (features : List FeatureValue) → EndIn common self.old
            → AllZip SpellsFeature (with_end common (own_texts self.old)) features
            → AllByRecursion (λ feature. IsMovable feature shift) features
            → with_end common (own_texts self.new) ≡ texts_of (map (λ feature. moved feature shift) features)) }
        ensures end { (common : List ℕ) → EndIn common self.old → EndIn common self.new }
        ensures count { length (own_texts self.new) ≡ length (own_texts self.old) }
        ensures made { are_made self.new ≡ are_made self.old }
        ensures held { are_made self.old ≡ false → self.new ≡ self.old }
        ensures failed { OnErr result (self.new ≡ self.old) }
        ensures fault { IfErr result (λ fault. fault ≡ Fault.Memory) }
    {
        match self {
            OwnTexts::Held(_) => Ok(false),
            OwnTexts::Made(texts) => {
                texts.move_by(alloc, shift)?;
                Ok(true)
            }
        }
    }

    /// Keeps those of the texts that are made at whose places it is true. Whether they are made; held texts stay.
    fn keep(&mut self, chosen: &[bool]) -> bool
        ensures is { result ≡ are_made self.old }
        ensures kept { IsTrue result → own_texts self.new ≡ chosen_of chosen.now (own_texts self.old) }
        ensures end { (common : List ℕ) → EndIn common self.old → EndIn common self.new }
        ensures same { are_made self.new ≡ are_made self.old }
        ensures held { are_made self.old ≡ false → self.new ≡ self.old }
    {
        match self {
            OwnTexts::Held(_) => false,
            OwnTexts::Made(texts) => {
                texts.keep(chosen);
                true
            }
        }
    }
}

/// The texts of features, in order, without newlines.
#[derive(Debug)]
pub struct FeatureTexts {
    own: OwnTexts,
    common: Line,
}

impl Drop for FeatureTexts {
    fn drop(self) {
        let FeatureTexts {
            own: _own,
            common: _common,
        } = self;
    }
}

impl Model for FeatureTexts {
    ghost use Rattle.city_families.specs.HeldTexts.{HeldTexts};
    ghost use Rattle.cut_on_text.specs.OwnTexts.{EndIn, are_made, own_texts};

    ghost Value = { HeldTexts };

    ghost view = { λ texts. record {
      own = own_texts texts.own;
      common = texts.common;
      is_made = are_made texts.own;
    } };

    ghost invariant = { λ texts. EndIn texts.common texts.own };
}

impl FeatureTexts {
    /// The texts whose own parts are held.
    pub(crate) fn new(own: Pieces, common: Line) -> FeatureTexts
        ensures { result ≡ record { own = own; common = common; is_made = false } }
    {
        FeatureTexts {
            own: OwnTexts::Held(own),
            common,
        }
    }

    /// The texts of these own parts, which stand one after another, each up to its end.
    pub fn held(own: Line, ends: Vec<usize>, common: Line) -> FeatureTexts
        requires { AreEnds 0 ends.items (length own) }
        ensures { result ≡ record { own = pieces own 0 ends.items; common = common; is_made = false } }
    {
        FeatureTexts::new(Pieces::new(own, ends), common)
    }

    /// The texts whose own parts are made when they are asked for.
    pub(crate) fn made(own: MadeTexts, common: Line) -> FeatureTexts
        requires { IsTail common }
        ensures { result ≡ record { own = own; common = common; is_made = true } }
    {
        FeatureTexts {
            own: OwnTexts::Made(own),
            common,
        }
    }

    /// No texts.
    pub fn none(alloc: Global) -> FeatureTexts
        ensures texts { texts_in result ≡ [] }
        ensures own { AreOwnParts result }
    {
        let own = Pieces::new(Line::new(alloc), Vec::new(alloc));
        FeatureTexts::new(own, Line::new(alloc))
    }

    /// How many texts there are.
    pub fn len(&self) -> usize
        ensures count { result ≡ length self.now.own }
        ensures few { result < 2 ^ 63 }
    {
        self.own.known();
        self.own.len()
    }

    /// Whether the texts are made when they are asked for.
    pub fn is_made(&self) -> bool
        ensures { result ≡ self.now.is_made }
    {
        self.own.is_made()
    }

    /// Moves the vertices of texts that are made by the shift: the features are what they were, moved, where all of them
    /// can be. Whether they are made ([`FeatureTexts::is_made`]); held texts stay. Nothing is changed where it fails.
    ///
    /// # Errors
    ///
    /// [`Fault::Memory`] where there is not enough memory.
    pub fn move_by(&mut self, alloc: Global, shift: Shift) -> Result<bool, Fault>
        ensures is { IfOk result (λ is_made. is_made ≡ self.old.is_made) }
        ensures moved { IfOk result (λ is_made. IsTrue is_made → (features : List FeatureValue) → AllZip SpellsFeature (texts_in self.old) features
            → AllByRecursion (λ feature. IsMovable feature shift) features
            → texts_in self.new ≡ texts_of (map (λ feature. moved feature shift) features)) }
        ensures count { length self.new.own ≡ length self.old.own }
        ensures common { self.new.common ≡ self.old.common }
        ensures made { self.new.is_made ≡ self.old.is_made }
        ensures held { self.old.is_made ≡ false → self.new ≡ self.old }
        ensures failed { OnErr result (self.new ≡ self.old) }
        ensures fault { IfErr result (λ fault. fault ≡ Fault.Memory) }
    {
        self.own.move_by(alloc, shift)
    }

    /// Keeps those of the texts that are made at whose places it is true. Whether they are made ([`FeatureTexts::is_made`]);
    /// held texts stay. It takes no memory.
    pub fn keep(&mut self, chosen: &[bool]) -> bool
        ensures is { result ≡ self.old.is_made }
        ensures kept { IsTrue result → self.new ≡ record self.old { own = chosen_of chosen.now self.old.own } }
        ensures held { self.old.is_made ≡ false → self.new ≡ self.old }
    {
        self.own.keep(chosen)
    }

    /// What all texts end in.
    pub fn common(&self) -> &[u8]
        ensures { result.now ≡ self.now.common }
    {
        self.common.items()
    }

    /// Writes what the text at a place has of its own. It takes no memory.
    ///
    /// # Errors
    ///
    /// [`Fault::Write`] where a write failed; some first bytes of it were written then.
    pub fn write_own<W: Sink>(&mut self, at: usize, output: &mut W) -> Result<(), Fault>
        requires { at < length self.old.own }
        ensures ok { OnOk result (Appends (W.taken output.old) (W.taken output.new) (get_or self.old.own at [])) }
        ensures some { OnErr result ((count : ℕ)
            × Appends (W.taken output.old) (W.taken output.new) (take count (get_or self.old.own at []))) }
        ensures failures { W.failures output.new ≡ after_call result (W.failures output.old) }
        ensures fault { IfErr result (λ fault. fault ≡ Fault.Write) }
        ensures same { self.new ≡ self.old }
    {
        self.own.write(at, output)
    }

    /// Appends what the text at a place has of its own.
    ///
    /// # Errors
    ///
    /// [`AllocError`] where there is not enough memory; some first bytes of it may have been appended then.
    pub fn append_own(
        &mut self,
        alloc: Global,
        at: usize,
        line: &mut Line,
    ) -> Result<(), AllocError>
        requires { at < length self.old.own }
        ensures ok { OnOk result (line.new ≡ line.old ++ get_or self.old.own at []) }
        ensures some { OnErr result ((count : ℕ)
            × (line.new ≡ line.old ++ take count (get_or self.old.own at []))) }
        ensures same { self.new ≡ self.old }
    {
        self.own.append(alloc, at, line)
    }
}
