//! The stream of a document: [`cat_document`] reads one CityJSON document, cuts it into features and writes
//! the header and the features, each on a line (CityJSON 2.0, Text sequences and streaming with
//! CityJSONFeature).
#![tactic(auto)]

mod cat;
mod taking;
mod writing;

pub use cat::{cat_document, cat_source};
