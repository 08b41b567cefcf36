//! Laws of the definitions alone: each is the contract of a function that does nothing.
ghost use Rattle.std.specs.Prelude.{◌<◌, ◌^◌, ℕ, List, length};
ghost use Rattle.std.specs.List.{AllZip};
ghost use Rattle.city_json.specs.Fits.{Fits};
ghost use Rattle.city_json.specs.Grammar.{Spells};
ghost use Rattle.city_json.specs.Tree.{Tree};
ghost use Rattle.city_feature.specs.Feature.{FeatureValue};
ghost use Rattle.city_feature.specs.FeatureLine.{SpellsFeature};
ghost use Rattle.city_feature.specs.Header.{HeaderValue};
ghost use Rattle.city_families.specs.Cut.{IsCut};
ghost use Rattle.city_families.specs.Lines.{texts_of};

/// The compact text of each feature of a cut spells that feature, where the document was read of a
/// text that fits into memory.
pub fn features_are_spelled_by_their_texts()
    ensures { (text : List ℕ) (document : Tree) (header : HeaderValue) (features : List FeatureValue)
        → length text < 2 ^ 64 → Spells text document → Fits document
        → IsCut document header features → AllZip SpellsFeature (texts_of features) features }
{}
