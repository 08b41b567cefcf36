//! A CityJSON document cut into features on its compact text (CityJSON 2.0, City Objects, Geometry Objects, Text
//! sequences and streaming with CityJSONFeature), or why it is not.
#![tactic(auto)]

mod cuts;
mod gathering;
mod held;
mod on_text;
mod rosters;

pub use cuts::CutTexts;
pub use held::FeatureTexts;
pub use on_text::cut_known;
pub use on_text::triples::triples_text;
