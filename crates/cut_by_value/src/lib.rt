//! A CityJSON document cut into features by its value (CityJSON 2.0, City Objects, Geometry Objects, Text sequences
//! and streaming with CityJSONFeature): [`cut`] gives a header and, for each city object without
//! parents, a feature with the objects that are reached from it and vertices of its own.
#![tactic(auto)]

mod assembling;
mod boundaries;
mod changes;
mod cuts;
mod cutting;
mod documents;
mod features;
mod headers;
mod keeping;
mod kin;
mod leaves;
mod objects;
mod relabelling;
mod values;

pub use changes::{drop_member, set_member};
pub use cuts::{Cut, Features, OpenCut};
pub use cutting::{cut, open_cut};
