//! What belongs together in a document (CityJSON 2.0, City Objects): the graph of its city objects ([`Graph`]), the families
//! in it ([`Kin`], [`family_at`]), of which each is a feature, and the numbers that the vertices of one get
//! ([`Numbering`]).
#![tactic(auto)]

mod families;
mod graphs;
mod numbering;
mod placing;
mod reach;

pub use families::{Family, Kin, check_belonging, family_at, no_marks};
pub use graphs::Graph;
pub use numbering::Numbering;
pub use placing::push_place;
