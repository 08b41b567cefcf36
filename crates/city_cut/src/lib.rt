//! A CityJSON document cut into features (CityJSON 2.0, City Objects, Geometry Objects, Text sequences
//! and streaming with CityJSONFeature): on its compact text, or else by its value ([`cut_text`]).
#![tactic(auto)]

mod answering;
mod cutting;
mod laws;

pub use answering::cut_text;
pub use cut_by_value::{Cut, Features, cut, drop_member, set_member};
pub use cut_on_text::{CutTexts, FeatureTexts};
pub use cutting::cut_texts;
pub use laws::features_are_spelled_by_their_texts;
