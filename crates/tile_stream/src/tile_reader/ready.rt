//! The texts of the features that a first line holds, moved and chosen, before they are given.
ghost use Rattle.std.specs.Prelude.{◌≡◌, ◌<◌, ◌^◌, ◌++◌, [], ℕ, flat_map, get_or, length, take, IfOk, IfErr, OnOk, OnErr};
ghost use Rattle.std.specs.Io.KnownBytes.{Appends};
ghost use Rattle.byte_streams.specs.Failures.{after_call};
ghost use Rattle.city_families.specs.HeldTexts.{texts_in, with_end};
ghost use Rattle.tile_stream.specs.GivenTexts.{given_texts};
ghost use Rattle.tile_stream.specs.Stream.{with_newline};

use crate::writing::{write_parts, write_text};
use byte_streams::{Fault, Line, Sink};
use city_cut::FeatureTexts;
use std::alloc::{AllocError, Global};
use std::marker::Model;

/// Texts that are held. The end that they have in common is held once.
#[derive(Debug, Drop)]
struct StoredTexts {
    own: Vec<Line>,
    common: Line,
}

impl Model for StoredTexts {
    ghost use Rattle.std.specs.Prelude.{ℕ, List};
    ghost use Rattle.city_families.specs.HeldTexts.{with_end};

    ghost Value = { List (List ℕ) };

    ghost view = { λ ready. with_end ready.common ready.own.items };
}

impl StoredTexts {
    fn len(&self) -> usize
        ensures count { result ≡ length self.now }
        ensures few { result < 2 ^ 63 }
    {
        self.own.len()
    }

    /// What the text at a place has of its own, and what stands after that.
    fn parts_at(&self, at: usize) -> (&[u8], &[u8])
        requires { at < length self.now }
        ensures { get_or self.now at [] ≡ result.0.now ++ result.1.now }
    {
        (self.own[at].items(), self.common.items())
    }

    /// Writes the text at a place, and its newline.
    fn write_at<W: Sink>(&self, at: usize, output: &mut W) -> Result<(), Fault>
        requires { at < length self.now }
        ensures ok { OnOk result (Appends (W.taken output.old) (W.taken output.new)
            (with_newline (get_or self.now at []))) }
        ensures some { OnErr result ((count : ℕ) × Appends (W.taken output.old) (W.taken output.new)
            (take count (with_newline (get_or self.now at [])))) }
        ensures failures { W.failures output.new ≡ after_call result (W.failures output.old) }
        ensures fault { IfErr result (λ fault. fault ≡ Fault.Write) }
    {
        let (own, end) = self.parts_at(at);
        write_parts(own, end, output)
    }
}

/// Writes the text at a place, which is made for that, and its newline.
fn write_made<W: Sink>(texts: &mut FeatureTexts, at: usize, output: &mut W) -> Result<(), Fault>
    requires { at < length texts.old.own }
    ensures ok { OnOk result (Appends (W.taken output.old) (W.taken output.new)
        (with_newline (get_or (texts_in texts.old) at []))) }
    ensures some { OnErr result ((count : ℕ) × Appends (W.taken output.old) (W.taken output.new)
        (take count (with_newline (get_or (texts_in texts.old) at [])))) }
    ensures failures { W.failures output.new ≡ after_call result (W.failures output.old) }
    ensures fault { IfErr result (λ fault. fault ≡ Fault.Write) }
    ensures same { texts.new ≡ texts.old }
{
    texts.write_own(at, output)?;
    write_text(output, texts.common())
}

/// Texts that are held, or made when they are written.
#[derive(Debug, Drop)]
enum GivenTexts {
    Stored(StoredTexts),
    Made(FeatureTexts),
}

/// The texts of those features of a first line that are chosen, moved, in their order. Where objects belong to several of
/// them, each is made when it is written.
#[derive(Debug)]
pub struct ReadyTexts {
    texts: GivenTexts,
}

impl Drop for ReadyTexts {
    fn drop(self) {
        let ReadyTexts { texts: _texts } = self;
    }
}

impl Model for ReadyTexts {
    ghost use Rattle.std.specs.Prelude.{ℕ, List};
    ghost use Rattle.tile_stream.specs.GivenTexts.{given_texts};

    ghost Value = { List (List ℕ) };

    ghost view = { λ ready. given_texts ready.texts };
}

fn copied(alloc: Global, bytes: &[u8]) -> Result<Line, AllocError>
    ensures { IfOk result (λ line. line ≡ bytes.now) }
{
    let mut line = Line::from_vec(Vec::with_capacity(alloc, bytes.len())?);
    line.append(bytes)?;
    Ok(line)
}

impl ReadyTexts {
    /// The texts that begin so, and all end in the same.
    pub(super) fn that_end_in(
        alloc: Global,
        own: Vec<Line>,
        common: &[u8],
    ) -> Result<ReadyTexts, Fault>
        ensures texts { IfOk result (λ ready. ready ≡ with_end common.now own.items) }
        ensures fault { IfErr result (λ fault. fault ≡ Fault.Memory) }
    {
        let common = copied(alloc, common)?;
        Ok(ReadyTexts {
            texts: GivenTexts::Stored(StoredTexts { own, common }),
        })
    }

    /// These texts, each made when it is written.
    pub(super) fn made(texts: FeatureTexts) -> ReadyTexts
        ensures { result ≡ texts_in texts }
    {
        ReadyTexts {
            texts: GivenTexts::Made(texts),
        }
    }

    /// No texts.
    pub fn none(alloc: Global) -> ReadyTexts
        ensures { result ≡ [] }
    {
        ReadyTexts {
            texts: GivenTexts::Stored(StoredTexts {
                own: Vec::new(alloc),
                common: Line::new(alloc),
            }),
        }
    }

    /// How many texts there are.
    pub fn len(&self) -> usize
        ensures count { result ≡ length self.now }
        ensures few { result < 2 ^ 63 }
    {
        match &self.texts {
            GivenTexts::Stored(texts) => texts.len(),
            GivenTexts::Made(texts) => texts.len(),
        }
    }

    /// Writes the text at a place, from 0, and its newline. It takes no memory.
    ///
    /// # Errors
    ///
    /// [`Fault::Write`] where a write failed; some first bytes were written then.
    pub fn write_at<W: Sink>(&mut self, at: usize, output: &mut W) -> Result<(), Fault>
        requires { at < length self.old }
        ensures ok { OnOk result (Appends (W.taken output.old) (W.taken output.new)
            (with_newline (get_or self.old at []))) }
        ensures some { OnErr result ((count : ℕ) × Appends (W.taken output.old) (W.taken output.new)
            (take count (with_newline (get_or self.old at [])))) }
        ensures failures { W.failures output.new ≡ after_call result (W.failures output.old) }
        ensures fault { IfErr result (λ fault. fault ≡ Fault.Write) }
        ensures same { self.new ≡ self.old }
    {
        match &mut self.texts {
            GivenTexts::Stored(texts) => texts.write_at(at, output),
            GivenTexts::Made(texts) => write_made(texts, at, output),
        }
    }

    /// Writes the texts, each with its newline. It takes no memory.
    ///
    /// # Errors
    ///
    /// [`Fault::Write`] where a write failed; some first bytes were written then.
    pub fn write<W: Sink>(&mut self, output: &mut W) -> Result<(), Fault>
        ensures ok { OnOk result (Appends (W.taken output.old) (W.taken output.new)
            (flat_map with_newline self.old)) }
        ensures some { OnErr result ((count : ℕ) × Appends (W.taken output.old) (W.taken output.new)
            (take count (flat_map with_newline self.old))) }
        ensures failures { W.failures output.new ≡ after_call result (W.failures output.old) }
        ensures fault { IfErr result (λ fault. fault ≡ Fault.Write) }
        ensures same { self.new ≡ self.old }
    {
        for at in 0..self.len() {
            self.write_at(at, output)?;
        }
        Ok(())
    }
}
