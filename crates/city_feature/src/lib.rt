//! Headers and features of CityJSONSeq (CityJSON 2.0, Text sequences and streaming with
//! CityJSONFeature): what they are ([`header`], [`feature`]), how the headers of tiles join
//! ([`join_headers`]), how a feature is moved onto the shared grid ([`shifted`]) and chosen
//! ([`selects`]), and the one step from a feature's line to its text ([`feature_text`]), or where many
//! end in the same, to what it has before that ([`own_text`]).
#![tactic(auto)]

mod base;
mod choices;
mod features;
mod headers;
mod joining;
mod kinds;

pub use base::Base;
pub use choices::Choice;
pub use choices::area::Area;
pub use choices::area::reader::area;
pub use choices::selecting::selects;
pub use choices::types::{Types, types};
pub use features::ended::{OwnBuffers, own_is_wanted, own_text};
pub use features::faults::{TakeVertex, take_vertices, vertex_of};
pub use features::lines::feature_text;
pub use features::on_text::unread::triples_meet;
pub use features::shape::{is_array, is_object, is_text};
pub use features::values::Feature;
pub use features::values::moving::shifted;
pub use features::values::reader::feature;
pub use features::values::writer::line;
pub use headers::Header;
pub use headers::reader::{header, header_transform, is_document};
pub use headers::texts::holds_city;
pub use joining::members::text_json;
pub use joining::{HeaderFault, Joined, Shifts, join_headers};
