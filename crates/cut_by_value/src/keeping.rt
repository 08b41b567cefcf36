//! What is kept of the features of a document, while they are made one after another.
ghost use Rattle.std.specs.Prelude.{◌≡◌, ◌++◌, [], ◌∷◌, ℕ, List, IfErr, OnOk, length, map};
ghost use Rattle.city_feature.specs.Feature.{FeatureValue};
ghost use Rattle.city_feature.specs.Values.{feature_value};
ghost use Rattle.city_json.specs.Bytes.{close_brace};
ghost use Rattle.city_json.specs.Compact.{compact};
ghost use Rattle.city_json.specs.OpenNames.{AreEnds};
ghost use Rattle.city_json.specs.Tree.{tree};
ghost use Rattle.city_families.specs.HeldTexts.{HasGrown, pieces, with_end};
ghost use Rattle.city_families.specs.Lines.{texts_of};

use byte_streams::{Fault, Line};
use city_feature::Feature;
use city_json::{Json, print};
use std::alloc::Global;

/// Keeps features, in the order in which they come.
pub(crate) trait Keep {
    // What it keeps is of these features.
    ghost keeps: { Self → List FeatureValue → Type 0 };

    /// Keeps one more feature. The only fault is [`Fault::Memory`].
    fn keep(&mut self, feature: Feature) -> Result<(), Fault>
        ensures ok { OnOk result ((others : List FeatureValue) → keeps self.old others
            → keeps self.new (others ++ feature_value feature ∷ [])) }
        ensures fault { IfErr result (λ fault. fault ≡ Fault.Memory) };
}

/// The features themselves.
impl Keep for Vec<Feature> {
    ghost keeps = { λ kept features. map feature_value kept.items ≡ features };

    fn keep(&mut self, feature: Feature) -> Result<(), Fault> {
        self.push(feature)?;
        Ok(())
    }
}

/// The texts of features that are made one after another.
#[derive(Drop)]
pub(crate) struct OpenTexts {
    /// The texts, each without the brace at its end, with nothing between them.
    pub own: Line,
    /// Where each of them ends.
    pub ends: Vec<usize>,
}

impl OpenTexts {
    /// No texts.
    pub fn new(alloc: Global) -> OpenTexts
        ensures own { result.own ≡ [] }
        ensures ends { result.ends.items ≡ [] }
    {
        OpenTexts {
            own: Line::new(alloc),
            ends: Vec::new(alloc),
        }
    }
}

/// Prints an object without the brace that closes it. The only fault is [`Fault::Memory`].
fn print_open(object: &Json, line: &mut Line) -> Result<(), Fault>
    requires { (front : List ℕ) × (compact (tree object.now) ≡ front ++ close_brace ∷ []) }
    ensures ok { OnOk result (HasGrown line.old line.new (close_brace ∷ []) (compact (tree object.now))) }
    ensures fault { IfErr result (λ fault. fault ≡ Fault.Memory) }
{
    print(object, line)?;
    line.truncate(line.items().len() - 1);
    Ok(())
}

/// Their texts alone, which all end in a brace.
impl Keep for OpenTexts {
    ghost keeps = { λ kept features. AreEnds 0 kept.ends.items (length kept.own)
        × (with_end (close_brace ∷ []) (pieces kept.own 0 kept.ends.items) ≡ texts_of features) };

    fn keep(&mut self, feature: Feature) -> Result<(), Fault> {
        print_open(feature.json(), &mut self.own)?;
        self.ends.push(self.own.items().len())?;
        Ok(())
    }
}
